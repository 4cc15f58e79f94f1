//! Where a stream breaks a rule, and which.
ghost use Rattle.std.specs.Prelude.{◌≡◌};

use ber_values::Why;

/// The first rule that a stream breaks. `place` counts the octets of the stream from 0; one above
/// 2^64 - 1 is 2^64 - 1.
#[derive(Clone, Copy, Debug, PartialEq, Eq)]
pub struct CotpFault {
    pub place: u64,
    pub why: Why,
}

pub(crate) fn fault_at(place: usize, why: Why) -> CotpFault
    ensures { result ≡ record { place = place; why = why } }
{
    CotpFault {
        place: place as u64,
        why,
    }
}
