//! Whether the octets that an association was sent are those of its history.

mod account;
mod answered;
mod asking;
mod check;
mod hearing;
mod laws;
mod saying;
mod spelled;
mod spelled_event;
mod stray;
mod terms;
mod turns;
mod verdict;

pub use account::{Account, AccountError};
pub use answered::AnsweredEvent;
pub use check::check_association;
pub use laws::equal_is_exact;
pub use verdict::Verdict;
