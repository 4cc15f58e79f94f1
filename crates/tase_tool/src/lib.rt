//! The commands of the program: `run` runs the command of its words over an outside, `run_texts`
//! those of them that wait for nothing.
#![tactic(auto)]

mod asking;
mod captures;
pub mod client;
mod decoding;
pub mod discover;
mod laws;
mod lines;
mod listing;
mod load_laws;
mod loading;
mod running;
pub mod server;
mod verdicts;
mod verifying;

pub use laws::commands_end_so;
pub use load_laws::loads_are_done;
pub use running::{Waiting, run, run_texts};
pub use server_main::serving;
