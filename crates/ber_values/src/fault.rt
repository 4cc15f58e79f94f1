//! Where octets break a rule, and which.

/// Why octets aren't what was to be read.
#[derive(Clone, Copy, Debug, PartialEq, Eq)]
pub enum Why {
    /// A container or the slice ends where more is required.
    Short,
    /// A length in a refused form, past its container, or not allowed for its kind.
    Length,
    /// A tag that may not stand here.
    Tag,
    /// Contents that break their rule.
    Value,
    /// A message that may not come now.
    Order,
    /// A message that is too long.
    Long,
}

/// The octets of a slice from `from` up to `to`, that one left out.
#[derive(Clone, Copy, Debug, PartialEq, Eq)]
pub struct Span {
    pub from: usize,
    pub to: usize,
}

/// The first rule that octets break, from the left. `place` counts the octets of the slice that
/// was read, from 0.
#[derive(Clone, Copy, Debug, PartialEq, Eq)]
pub struct BerFault {
    pub place: usize,
    pub why: Why,
}
