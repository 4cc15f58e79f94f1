//! An asking end over a link: what it says is sent, what it shows goes to a sink.

mod run_end;
mod running;
mod sending;
mod talking;
mod terminal;

pub use run_end::RunEnd;
pub use running::run_asking;
pub use talking::Talk;
pub use terminal::{LinkTerminal, Terminal};
