//! A history that is full.

/// What a history would weigh that is full, and what it may weigh at most, in octets.
#[derive(Clone, Copy, Debug, PartialEq, Eq)]
pub struct Fullness {
    pub weight: u64,
    pub limit: u64,
}
