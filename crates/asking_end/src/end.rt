//! How an asking end ends.
use stack_assoc::messages::StackFault;

/// How an asking end ends over what its peer gave.
#[derive(Clone, Copy, Debug, PartialEq, Eq)]
pub enum AskEnd<E> {
    /// The agenda was done, and the release answered.
    Finished,
    /// The peer, or the transport, has ended the association before.
    PeerEnd,
    /// What the peer said breaks a rule, or isn't one of the profile's answers at its place.
    Refused(StackFault),
    /// The peer has refused the association.
    Rejected,
    /// A reply names another request than the one whose reply is awaited.
    Stray { invoke: u32 },
    /// The agenda has ended it so.
    ByAgenda(E),
    /// Memory ran out, so that what came last is lost.
    Memory,
}
