//! Connect requests and confirms (ISO 8073, class 0).
use crate::selector::Selector;

/// What a connect request or confirm may carry.
#[derive(Debug, Drop, PartialEq, Eq)]
pub struct Parameters {
    /// The size of TPDUs in octets, as a power of two: 7 to 13.
    pub size: Option<u8>,
    pub calling: Option<Selector>,
    pub called: Option<Selector>,
}

/// A connect request (CR).
#[derive(Debug, Drop, PartialEq, Eq)]
pub struct ConnectRequest {
    /// The reference of the end that calls.
    pub source: u16,
    pub parameters: Parameters,
}

/// A connect confirm (CC).
#[derive(Debug, Drop, PartialEq, Eq)]
pub struct ConnectConfirm {
    /// The reference of the end that called.
    pub target: u16,
    /// The reference of the end that was called.
    pub source: u16,
    pub parameters: Parameters,
}
