//! How far a listing is, and how it ends.

/// The most names that a peer may offer.
pub const MOST_NAMES: usize = 100_000;

// Definitions cite the limit, so that it stands here as a number too.
const _: () = prove!(MOST_NAMES == 100_000);

/// What a listing asks.
#[derive(Clone, Copy, Debug, PartialEq, Eq)]
pub enum Stage {
    /// The names of the whole device.
    Device,
    /// The names of the table's domain.
    Domain,
    /// The types of these names.
    Types,
}

/// How a listing ends an association by itself.
#[derive(Clone, Copy, Debug, PartialEq, Eq)]
pub enum ListingEnd {
    /// A name, the last that came, doesn't stand above the one before it in its scope.
    Unordered,
    /// More names came than a peer may offer.
    TooMany,
    /// A reply of another kind than what was asked, or a page without names that says that more
    /// follow.
    Other,
}
