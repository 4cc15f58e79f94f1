//! A connection served by a node, one event after another.
#![tactic(auto)]

mod attending;
pub mod courses;
mod end_words;
mod laws;

pub use attending::attend;
pub use end_words::EndWords;
pub use laws::{ended_connections_are_closed, two_worlds_are_sent_alike};
pub use node_core as node;
pub use tase_conn as connection;
