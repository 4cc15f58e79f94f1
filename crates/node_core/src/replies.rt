//! What a peer is answered and told, by what it may see.

mod device_acts;
mod peer_view;
mod reports;
mod sorts;
mod timeouts;
mod write_requests;

pub(crate) use device_acts::{select_all, write_devices};
pub(crate) use peer_view::{PeerView, ReadReply};
pub(crate) use reports::owns;
pub(crate) use sorts::{CallSort, sort_of};
pub(crate) use timeouts::add_timeouts;
pub(crate) use write_requests::{read_tagging, read_writes, written};
