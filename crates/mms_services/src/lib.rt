//! The protocol data units of MMS (ISO 9506-2).
#![tactic(auto)]

pub mod access;
mod coded;
mod error;
mod fault;
mod identify;
mod initiate;
mod laws;
pub mod names;
mod pdu;
mod reject;
mod request;
mod response;

pub use error::ErrorPdu;
pub use fault::MmsFault;
pub use initiate::{Initiate, LEAST_DETAIL, MOST_DETAIL, MOST_NESTING, MOST_SERVICES, negotiate};
pub use laws::{pdus_have_one_reading, requests_have_one_number, written_pdus_are_read};
pub use pdu::{MmsPdu, pdu_len, read_pdu, write_pdu};
pub use reject::RejectPdu;
pub use request::Request;
pub use response::Response;
