//! What access to a variable gives.
mod octets;

use crate::data::MmsData;
pub use octets::{outcome_len, read_outcome, take_outcome, write_outcome};

/// The value that was read, or the reason that there is none (ISO 9506-2, `AccessResult`).
#[derive(Debug, Drop)]
pub enum Outcome {
    /// The value.
    Good(MmsData),
    /// The number of the reason, a `DataAccessError`.
    Fail(u8),
}
