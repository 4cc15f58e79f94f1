//! How far a connection has come.
use mms_services::Initiate;
use stack_assoc::StackIn;
use stack_assoc::messages::StackFault;
use tase_views::Event;

/// How a connection ended.
#[derive(Clone, Copy, Debug, PartialEq, Eq)]
pub enum ConnEnd {
    /// The peer has asked for the release, and it was answered.
    Finished,
    /// The peer has aborted the association, or its link gave no more.
    PeerEnd,
    /// The peer's offer was refused: its title is no peer's, or it could only be refused.
    Declined,
    /// The peer has broken this rule.
    Refused(StackFault),
    /// A report has so many octets, and at most so many were agreed on.
    TooLong { len: u64, detail: u64 },
    /// More octets wait to be sent than the peer's table allows.
    Overflow { pending: u64, limit: u64 },
    /// The link has failed.
    LinkFault,
    /// The node was stopped.
    Stopped,
    /// The node's history would weigh so many octets, and may weigh at most `limit`.
    Full { weight: u64, limit: u64 },
    /// Memory ran out.
    Memory,
}

/// How far the association has come.
#[derive(Clone, Copy)]
pub(crate) enum Stage {
    /// There is none yet.
    Early,
    /// The association of this peer is open. Its PDUs have at most so many octets.
    Open { peer: u32, detail: i64 },
    /// The association of this peer was closed.
    Closed { peer: u32 },
}

/// What comes behind the messages of what was taken in last, while they are read.
#[derive(Clone, Copy)]
pub(crate) enum Behind {
    /// All of it was read.
    Nothing,
    /// Octets, or none for now.
    Pause,
    /// The link's end.
    End,
}

/// What was read and is to be acted on next.
#[derive(Drop)]
pub(crate) enum Coming {
    /// What the stack has handed out.
    Input(StackIn),
    /// The rule that is broken.
    Fault(StackFault),
    /// All of a piece was read, or there was none.
    Pause,
    /// The link has ended.
    End,
}

/// Why the peer's association is closed.
#[derive(Clone, Copy)]
pub(crate) enum Cause {
    /// The peer has concluded it.
    Concluded,
    /// The peer has asked for its release.
    Released,
    /// The peer has aborted it.
    Aborted,
    /// The link has ended.
    LinkEnd,
    /// The peer has broken a rule.
    Broken(StackFault),
}

/// The event that waits for its answer.
#[derive(Clone, Copy)]
pub(crate) enum PendingEvent {
    Nothing,
    /// The open of this peer; with this its offer is to be accepted.
    Opening { peer: u32, granted: Initiate },
    /// The request with this number.
    Requesting { invoke: u32 },
    Taking,
    Closing(Cause),
}

/// Whether a connection goes on.
#[derive(Clone, Copy)]
pub(crate) enum Progress {
    /// It does, and this event waits.
    Running(PendingEvent),
    /// An answer was refused for want of memory: it is to be given up.
    Refused,
    /// It was left, and its association is still to be closed; whether that was asked.
    Leaving { end: ConnEnd, asked: bool },
    /// The peer has brought this end.
    Ended(ConnEnd),
    /// It was left for this end.
    Cut(ConnEnd),
}

/// What a step of reading comes to.
pub(crate) enum Step {
    /// This event is asked.
    Asks(Event),
    /// Nothing is asked yet.
    GoesOn,
    /// The connection has ended.
    Ends,
}
