//! The command `serve`: a server over the tables, the feed, the clock and the plant that its words
//! and the outside name, and the journal of its node.

mod opening;
mod serving;
mod telling;

pub use serving::run_serve;
