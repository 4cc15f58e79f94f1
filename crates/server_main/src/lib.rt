//! The whole run of a server: `Server::serve` serves a node over what lies outside it.
#![tactic(auto)]

mod ending;
mod fullness;
mod gathered;
mod node_run;
pub mod plant;
pub mod rounds;
pub mod run;
mod serve_end;
mod server;
mod stopping;
mod telling;
mod work_end;

pub use fullness::Fullness;
pub use node_server as serving;
pub use serve_end::ServeEnd;
pub use server::{Served, Server};
pub use work_end::WorkEnd;
