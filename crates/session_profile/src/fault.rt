//! Where octets break a rule of the session layer, and which.
use ber_values::Why;

/// The first rule that a TSDU breaks, from the left. `place` counts its octets from 0.
#[derive(Clone, Copy, Debug, PartialEq, Eq)]
pub struct SessionFault {
    pub place: usize,
    pub why: Why,
}
