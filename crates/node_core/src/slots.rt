//! The data sets and transfer sets of a peer, and what its associations hold of them.

mod associations;
mod draft;
mod sets;
mod writes;

pub(crate) use associations::Associations;
pub(crate) use draft::Draft;
pub(crate) use sets::{
    define_reply, delete_reply, delete_sets, find_set, is_defined, members_reply,
};
pub(crate) use writes::{Asked, TYPE_INCONSISTENT, VALUE_INVALID, write_all};
