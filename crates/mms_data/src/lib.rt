//! Data of MMS (ISO 9506-2), names and types of variables and outcomes of access, and their octets.
#![tactic(auto)]

mod access_laws;
mod data;
mod laws;
mod object_name;
mod outcome;
pub mod text;
pub mod types;

pub use access_laws::{
    names_have_one_reading, outcomes_have_one_reading, written_names_are_read,
    written_outcomes_are_read,
};
pub use data::{
    DataKind, DataList, MOST_DEPTH, MmsData, OctetList, data_len, read_data, take_data, write_data,
};
pub use laws::{data_have_one_reading, written_data_are_read};
pub use object_name::{Name, Names, Scope, name_len, read_name_octets, take_name, write_name};
pub use outcome::{Outcome, outcome_len, read_outcome, take_outcome, write_outcome};
