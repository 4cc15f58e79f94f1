//! The objects of a centre that a peer may name: by what names, and which of them are listed.

mod in_force;
mod listing;
mod naming;
mod types;

pub use in_force::InForce;
pub use listing::listed_names;
pub(crate) use listing::{list_names, name_with};
pub use naming::is_object;
pub(crate) use naming::{Found, Special, find_object, is_member, is_report_variable, slot_item};
pub use types::type_of;
