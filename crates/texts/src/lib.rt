//! Texts of what a node takes and tells: its events and replies, its reports, the lines of its
//! journal, and the orders to its plant.
#![tactic(auto)]

pub mod events;
pub mod journal;
pub mod orders;
pub mod reports;
