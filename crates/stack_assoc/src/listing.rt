//! The messages of a captured stream, of either end of a connection: what each is called, where it
//! stands, and how they are listed.

mod hearing;
mod lines;
mod lister;
mod names;

pub use lister::Lister;
pub use names::{MessageName, layer_name, name_of_pdu, why_name};
