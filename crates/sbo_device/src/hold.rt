use crate::Key;

/// A selection that stands.
#[derive(Clone, Copy, Debug, PartialEq, Eq)]
pub struct Hold {
    /// The association that has it.
    pub key: Key,
    /// The moment at which it ends by itself, in milliseconds since 1970.
    pub until: u64,
}
