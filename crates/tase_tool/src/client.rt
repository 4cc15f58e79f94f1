//! The command `client`: a client over the link to another node that its words name.

mod ending;
mod playing;

pub use playing::run_client_command;
