//! The main thread of a server over jobs: it starts them, and gathers what came of them.

mod accepting;
mod beginning;
mod gathering;
mod laws;
mod seats;
mod serving;
mod starting;
mod threads;

pub use accepting::Accepted;
pub use beginning::{Beginning, Begun, share_node};
pub use gathering::Gatherer;
pub use laws::{accepting_keeps_serving, jobs_are_claimed};
pub use seats::{FeedSeat, LinkSeat, LinkSeats, Seats, TickSeat};
pub use serving::ServingEnd;
pub use starting::{JobInput, Starter};
