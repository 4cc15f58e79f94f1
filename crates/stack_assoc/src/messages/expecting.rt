//! Which message may come.

/// Whose end of an association reads.
#[derive(Clone, Copy, Debug, PartialEq, Eq)]
pub enum Side {
    /// The end that was called.
    Called,
    /// The end that calls.
    Calling,
    /// A reader of captures, to which the messages of both ends come.
    Either,
}

/// How far an association has come.
#[derive(Clone, Copy, Debug, PartialEq, Eq)]
pub enum Phase {
    /// None stands yet.
    Unassociated,
    /// It stands.
    Associated,
    /// It is concluded: no PDU may come.
    Concluded,
    /// It ends: nothing but aborts may come.
    Ending,
}

/// What is known of a message that is to come.
#[derive(Clone, Copy, Debug, PartialEq, Eq)]
pub struct Expecting {
    pub side: Side,
    pub phase: Phase,
    /// The id of the context of ACSE that was offered or agreed on.
    pub acse: u32,
    /// The id of the context of MMS that was offered or agreed on.
    pub mms: u32,
    /// Whether a conclude response is awaited.
    pub awaited: bool,
}
