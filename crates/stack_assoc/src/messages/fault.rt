//! Where a message breaks a rule of a layer, and which.
use ber_values::Why;

/// A layer of the stack.
#[derive(Clone, Copy, Debug, PartialEq, Eq)]
pub enum Layer {
    /// TPKT and COTP (RFC 1006, ISO 8073).
    Transport,
    /// ISO 8327-1.
    Session,
    /// ISO 8823-1.
    Presentation,
    /// ISO 8650-1.
    Acse,
    /// ISO 9506-2.
    Mms,
}

/// The first rule that is broken, from the left. `place` counts octets from 0: those of the stream
/// in the transport, those of the TSDU in the layers above it.
#[derive(Clone, Copy, Debug, PartialEq, Eq)]
pub struct StackFault {
    pub layer: Layer,
    pub place: u64,
    pub why: Why,
}
