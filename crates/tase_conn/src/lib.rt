//! A connection to a peer without input and output: the octets that a link gives become events of
//! the node, and the node's answers become the octets that the link is to send.
#![tactic(auto)]

mod conn;
mod ending;
pub mod map;
mod reading;
mod stage;
mod telling;

pub use conn::Conn;
pub use stage::ConnEnd;
