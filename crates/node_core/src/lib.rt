//! One step of a TASE.2 node: from an event to its answer and one more entry in the history.
#![tactic(auto)]

mod deeds;
pub mod devices;
mod feeds;
mod node;
pub mod objects;
mod plant;
mod replies;
mod slots;

pub use deeds::{DeedKind, DeviceDeed, deeds_of_call};
pub use node::Node;
