/// An association: a peer, by its number, and how many associations that peer had opened before.
#[derive(Clone, Copy, Debug, PartialEq, Eq)]
pub struct Key {
    pub peer: u32,
    pub ordinal: u64,
}
