//! The session layer (ISO 8327-1, version 2, the kernel and duplex): one SPDU in each TSDU.
#![tactic(auto)]

mod connection;
mod fault;
mod laws;
mod length;
mod parameter;
mod spdu;

pub use ber_values::MOST_BODY;
pub use fault::SessionFault;
pub use laws::{one_reading, parameters_once, written_is_read};
pub use spdu::{Spdu, read_spdu, write_spdu};
