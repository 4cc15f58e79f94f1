//! Whether what was captured of a link is what its association is owed, by a journal.
#![tactic(auto)]

pub mod association;
mod journal;
mod link_text;
mod verify;
mod watch;

pub use journal::read_journal;
pub use link_text::{LinkText, read_link_text};
pub use verify::verify_association;
