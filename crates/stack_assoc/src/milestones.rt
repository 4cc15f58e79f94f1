//! What has come of an association.
ghost use Rattle.std.specs.Prelude.{◌≡◌};
ghost use Rattle.stack_assoc.specs.Knowing.{nothing_known, known_with, phase_by, expecting_by};
ghost use Rattle.stack_assoc.specs.Knowing.{called_phase, calling_phase};
ghost use Rattle.stack_assoc.specs.Taking.{opening_told};
ghost use Rattle.stack_assoc.specs.Arrivals.{heard};

use crate::messages::{Expecting, Heard, Phase, Side};
use crate::taken::Opening;
use mms_services::MmsPdu;

/// What has come, as far as it decides what may come now.
#[derive(Clone, Copy)]
pub(crate) struct Milestones {
    pub(crate) side: Side,
    /// A connect request or confirm of the transport.
    pub(crate) begun: bool,
    /// A connect confirm of the transport.
    pub(crate) confirmed: bool,
    pub(crate) connected: bool,
    pub(crate) accepted: bool,
    pub(crate) refused: bool,
    /// A conclude.
    pub(crate) concluding: bool,
    /// A conclude response.
    pub(crate) concluded: bool,
    /// This end has said conclude.
    pub(crate) said: bool,
}

impl Milestones {
    /// Nothing has come.
    pub(crate) fn new(side: Side) -> Milestones
        ensures { result ≡ nothing_known side }
    {
        Milestones {
            side,
            begun: false,
            confirmed: false,
            connected: false,
            accepted: false,
            refused: false,
            concluding: false,
            concluded: false,
            said: false,
        }
    }

    fn phase(self) -> Phase
        ensures { result ≡ phase_by self.side self }
    {
        match self.side {
            Side::Called => called_phase(self.connected, self.concluding),
            _ => calling_phase(self.confirmed, self.refused, self.accepted, self.concluded),
        }
    }

    /// What is expected, where the contexts have these ids.
    pub(crate) fn expecting(self, acse: u32, mms: u32) -> Expecting
        ensures { result ≡ expecting_by self acse mms }
    {
        Expecting {
            side: self.side,
            phase: self.phase(),
            acse,
            mms,
            awaited: self.said && !self.concluded,
        }
    }

    /// An opening more.
    pub(crate) fn with_opening(self, opening: &Opening) -> Milestones
        ensures { result ≡ known_with self (opening_told opening.now) }
    {
        match opening {
            Opening::Request(_) => Milestones {
                begun: true,
                ..self
            },
            Opening::Confirm(_) => Milestones {
                begun: true,
                confirmed: true,
                ..self
            },
        }
    }

    /// A message of the association more.
    pub(crate) fn with_heard(self, message: &Heard) -> Milestones
        ensures { result ≡ known_with self (heard message.now) }
    {
        match message {
            Heard::Connect(_) => Milestones {
                connected: true,
                ..self
            },
            Heard::Accept(_) => Milestones {
                accepted: true,
                ..self
            },
            Heard::Refuse => Milestones {
                refused: true,
                ..self
            },
            Heard::Pdu(MmsPdu::Conclude) => Milestones {
                concluding: true,
                ..self
            },
            Heard::Pdu(MmsPdu::Concluded) => Milestones {
                concluded: true,
                ..self
            },
            _ => self,
        }
    }
}

fn called_phase(connected: bool, concluding: bool) -> Phase
    ensures { result ≡ called_phase connected concluding }
{
    if !connected {
        return Phase::Unassociated;
    }
    if concluding {
        return Phase::Concluded;
    }
    Phase::Associated
}

fn calling_phase(confirmed: bool, refused: bool, accepted: bool, concluded: bool) -> Phase
    ensures { result ≡ calling_phase confirmed refused accepted concluded }
{
    if !confirmed || refused {
        return Phase::Ending;
    }
    if !accepted {
        return Phase::Unassociated;
    }
    if concluded {
        return Phase::Concluded;
    }
    Phase::Associated
}
