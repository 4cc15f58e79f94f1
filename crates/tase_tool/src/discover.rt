//! The command `discover`: what the node at the other end of a link offers, listed and held against
//! a peer's table.

mod discovering;
mod ending;

pub use discovering::run_discover_command;
