//! The devices of a node, as its history leaves them, and as a peer's view shows them.

mod laws;
mod making;

pub use laws::{
    acts_leave_devices_alike, devices_are_seen, devices_follow_acts, devices_follow_the_centre,
};
pub use making::new_bank;
