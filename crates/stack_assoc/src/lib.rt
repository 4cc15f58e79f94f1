//! Both ends of an association: octets of a stream to messages, and messages to octets.
#![tactic(auto)]

mod end_state;
mod input;
mod laws;
pub mod listing;
pub mod messages;
mod milestones;
mod offer;
mod saying;
mod stack;
mod taken;
mod taking;
mod telling;
pub mod wire;

pub use input::{StackIn, StackState};
pub use laws::{cuts_change_nothing, one_reading, saying_takes_nothing, what_was_told_stays};
pub use stack::Stack;
