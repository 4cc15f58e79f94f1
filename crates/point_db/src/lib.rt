//! The last values of points, and how often each has changed.
#![tactic(auto)]

mod laws;
mod store;
mod watch;

pub use laws::{marks_tell_changes, watches_change_slot_by_slot, watching_slots_ascend};
pub use store::{PointDb, SERIAL_LIMIT};
pub use watch::Watch;
