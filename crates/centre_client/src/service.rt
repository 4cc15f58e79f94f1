//! A client over a link: what it says is sent, what it shows goes to a sink.

mod running;
mod talking;

pub use asking_end::service::{LinkTerminal, RunEnd, Talk, Terminal};
pub use running::run_client;
pub use talking::client_talk;
