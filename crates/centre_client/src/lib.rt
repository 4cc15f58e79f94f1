//! The client: the calling end of an association, which plays a script.
#![tactic(auto)]

mod agenda;
mod asking;
mod call_lines;
mod client;
mod fault;
mod laws;
mod numbered;
mod play;
mod script;
pub mod service;
mod showing;
mod steps;

pub use agenda::ScriptPlay;
pub use client::Client;
pub use fault::{ScriptFault, ScriptWhy};
pub use laws::{
    octets_make_a_client, requests_are_numbered, scripts_may_be_played, writes_are_checked_back,
};
pub use play::{Checkback, Doing, Play};
pub use script::{Script, Step, StepKind, Steps, read_script};
pub use steps::WAIT_LIMIT;
