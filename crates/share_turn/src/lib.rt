//! One object that threads share through one turn, with one history in which each answered call
//! stands once.
#![tactic(auto)]

mod laws;
mod object;
mod plays;
mod seat_view;
mod shared;

pub use laws::others_come_behind;
pub use object::Object;
pub use shared::{Seat, Shared};
