//! The asking end: the calling end of an association, which asks its peer one call after another,
//! as its agenda says.
#![tactic(auto)]

mod agenda;
mod asker;
mod asking;
mod calling;
mod end;
mod hearing;
mod laws;
mod limits;
mod next;
pub mod service;

pub use agenda::Agenda;
pub use asker::{AskMove, Asker, Awaiting};
pub use asking::AskingEnd;
pub use calling::CallingEnd;
pub use end::AskEnd;
pub use laws::{answered_agendas_finish, octets_make_an_asking_end, requests_are_numbered};
pub use limits::{LAST_INVOKE, REQUEST_LIMIT};
pub use next::Next;
