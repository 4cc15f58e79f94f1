//! How an end stands to the offer and the association.
ghost use Rattle.std.specs.Prelude.{◌≡◌};
ghost use Rattle.stack_assoc.specs.Courses.{standing_with, state_by, is_offered, finishing};
ghost use Rattle.stack_assoc.specs.Courses.{standing_offered};
ghost use Rattle.stack_assoc.specs.Handing.{is_offer};
ghost use Rattle.stack_assoc.specs.Arrivals.{heard};

use crate::input::StackState;
use crate::messages::Heard;
use crate::offer::is_offer;

/// How far an end has come with the offer and the association.
#[derive(Clone, Copy, Debug, PartialEq, Eq)]
pub(crate) enum EndState {
    /// There is no offer yet, or, at the calling end, no answer.
    Waiting,
    /// An offer that may be accepted stands unanswered.
    Offered,
    /// An offer that can only be refused stands unanswered.
    BadlyOffered,
    /// The association stands.
    Accepted,
    /// The association stands, and the other end has asked for its release.
    Finishing,
    /// The association was refused, released or aborted.
    Closed,
}

impl EndState {
    /// Whether an offer stands unanswered.
    pub(crate) fn is_offered(self) -> bool
        ensures { result ≡ is_offered self }
    {
        match self {
            EndState::Offered | EndState::BadlyOffered => true,
            _ => false,
        }
    }

    pub(crate) fn state(self) -> StackState
        ensures { result ≡ state_by self }
    {
        match self {
            EndState::Waiting => StackState::Waiting,
            EndState::Offered | EndState::BadlyOffered => StackState::Offered,
            EndState::Accepted | EndState::Finishing => StackState::Accepted,
            EndState::Closed => StackState::Ended,
        }
    }

    fn finishing(self) -> EndState
        ensures { result ≡ finishing self }
    {
        match self {
            EndState::Accepted => EndState::Finishing,
            other => other,
        }
    }

    /// Behind a message more.
    pub(crate) fn with_heard(self, message: &Heard) -> EndState
        ensures { result ≡ standing_with self (heard message.now) }
    {
        match message {
            Heard::Connect(connecting) => offered(is_offer(connecting)),
            Heard::Accept(_) => EndState::Accepted,
            Heard::Finish => self.finishing(),
            Heard::Refuse | Heard::Disconnect | Heard::Abort | Heard::AbortAccept => {
                EndState::Closed
            }
            Heard::Pdu(_) | Heard::BadRequest { .. } => self,
        }
    }
}

fn offered(may_be_accepted: bool) -> EndState
    ensures { result ≡ standing_offered may_be_accepted }
{
    if may_be_accepted {
        EndState::Offered
    } else {
        EndState::BadlyOffered
    }
}
