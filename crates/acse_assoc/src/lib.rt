//! The association control service element (ISO 8650-1).
#![tactic(auto)]

mod apdu;
mod expected;
mod laws;
mod numbers;
mod request;
mod response;
mod rising;
mod user;

pub use apdu::{Apdu, read_apdu, write_apdu};
pub use ber_values::MOST_BODY;
pub use expected::Expected;
pub use laws::{apdus_are_sequences, apdus_have_one_reading, written_apdus_are_read};
pub use request::AssociateRequest;
pub use response::AssociateResponse;
