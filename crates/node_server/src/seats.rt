//! A connection served by a seat of a node that threads share, one event after another.

mod attending;

pub use attending::{attend_seat, leave_seat};
