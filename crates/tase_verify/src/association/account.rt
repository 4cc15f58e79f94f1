//! How the events of an association are accounted for.
ghost use Rattle.std.specs.Prelude.{◌≡◌};
ghost use Rattle.tase_verify.specs.Association.Verdicts.{verdict_on};

use crate::association::verdict::{Verdict, compare};
use capture_text::Pieces;

/// How the events of an association are accounted for by what its link gave.
#[derive(Drop)]
pub enum Account {
    /// They are, and these octets are what the association is sent.
    Octets(Vec<u8>),
    /// The event with this number, counted from 0 and without takes, isn't what its link asks
    /// there, or there is none where one is asked.
    Stray { number: u64 },
}

/// Why it isn't known how the events of an association are accounted for: memory ran out.
#[derive(Clone, Copy, Debug, PartialEq, Eq)]
pub enum AccountError {
    /// Before they were compared with what the link asks.
    Uncompared,
    /// Behind that, for the octets that are sent: no event is stray.
    Unsaid,
}

impl Account {
    /// The verdict on octets that the association was sent. It takes no memory.
    pub fn judge(&self, sent: Pieces<'_>) -> Verdict
        ensures { result ≡ verdict_on self.now sent.entry }
    {
        match self {
            Account::Octets(want) => compare(sent, want.as_slice()),
            Account::Stray { number } => Verdict::Stray { number: *number },
        }
    }
}
