//! One TPKT after another over octets that have come, up to the end of a message.
ghost use Rattle.std.specs.Prelude.{◌≡◌, ℕ, ◌+◌, ◌<◌, List, length, take, IfOk, OnErr};
ghost use Rattle.std.specs.Prelude.{OnSome, IfSome, None, []};
ghost use Rattle.tpkt_cotp.specs.declared.turn.Role.{Role};
ghost use Rattle.tpkt_cotp.specs.Streams.{Message, stream_place};
ghost use Rattle.tpkt_cotp.specs.Lines.{IsWalkWithin, line_of, Stands, IsTransportAnswer};
ghost use Rattle.tpkt_cotp.specs.Steps.{Steps};
ghost use Rattle.tpkt_cotp.specs.Goings.{HandsOut, KeepsStart};
ghost use Rattle.tpkt_cotp.specs.Seen.{message_seen};
ghost use Rattle.tpkt_cotp.specs.Sound.{IsSoundMessage};

use crate::fault::CotpFault;
use crate::message::{TransportIn, take_tpdu};
use crate::tpkt::read_tpkt;
use crate::turn::Turn;
use std::alloc::{AllocError, Global};

/// Where a walk over octets stands.
#[derive(Clone, Copy)]
pub(crate) struct Walk {
    pub(crate) turn: Turn,
    /// The place in the stream of the octet where it stands, and of its message.
    pub(crate) place: u64,
    pub(crate) start: u64,
    /// How many of the octets lie behind it.
    pub(crate) passed: usize,
    /// The rule that was broken.
    pub(crate) fault: Option<CotpFault>,
}

/// What one TPKT led to.
#[derive(Drop)]
pub(crate) enum Step {
    /// A part of a TSDU.
    Part,
    Message(TransportIn),
    /// No whole TPKT is left.
    Rest,
    Broken(CotpFault),
}

fn shifted(place: u64, by: u64) -> u64
    ensures { result ≡ stream_place (place + by) }
{
    place.saturating_add(by)
}

impl Walk {
    /// Looks at the TPKT where it stands. `part` is what has come of a TSDU.
    fn step(&mut self, alloc: Global, part: &mut Vec<u8>, octets: &[u8]) -> Result<Step, AllocError>
        requires { IsWalkWithin self.old part.old.items octets.now }
        ensures ok { IfOk result (λ step. Steps (line_of self.old part.old.items octets.now) step
            (line_of self.new part.new.items octets.now)) }
        ensures within { IsWalkWithin self.new part.new.items octets.now }
        ensures err { OnErr result (part.new.items ≡ part.old.items) }
    {
        let total = part.as_slice().len();
        let (message, size) = match read_tpkt(self.turn, total, &octets[self.passed..]) {
            Err(fault) => {
                let fault = CotpFault {
                    place: shifted(self.place, fault.place),
                    why: fault.why,
                };
                self.passed = octets.len();
                self.fault = Some(fault);
                return Ok(Step::Broken(fault));
            }
            Ok(None) => return Ok(Step::Rest),
            Ok(Some(tpkt)) => (take_tpdu(alloc, self.start, part, tpkt.tpdu)?, tpkt.size),
        };
        self.passed += size;
        self.turn = Turn::Transfer;
        self.place = shifted(self.place, size as u64);
        match message {
            None => Ok(Step::Part),
            Some(message) => {
                self.start = self.place;
                Ok(Step::Message(message))
            }
        }
    }

    /// Goes on to the end of the next message, to the rest, or to a fault. After want of memory
    /// `part` begins with what it was.
    pub(crate) fn next(
        &mut self,
        alloc: Global,
        part: &mut Vec<u8>,
        octets: &[u8],
    ) -> Result<Result<Option<TransportIn>, CotpFault>, AllocError>
        requires within { IsWalkWithin self.old part.old.items octets.now }
        requires clear { self.old.fault ≡ None }
        ensures ok { (role : Role) (heard : List ℕ) (given : List Message)
            → Stands role heard given (line_of self.old part.old.items octets.now)
            → IfOk result (λ answer. IsTransportAnswer role heard given answer
            (line_of self.new part.new.items octets.now)) }
        ensures hands_out { IfOk result (λ answer.
            HandsOut (line_of self.old part.old.items octets.now) answer
            (line_of self.new part.new.items octets.now)) }
        ensures start { IfOk result (λ answer.
            KeepsStart (line_of self.old part.old.items octets.now) answer
            (line_of self.new part.new.items octets.now)) }
        ensures whole { IfOk result (λ answer. IfOk answer (λ message. OnSome message
            (part.new.items ≡ []))) }
        ensures shorter { IfOk result (λ answer. IfOk answer (λ message. OnSome message
            (self.old.passed < self.new.passed))) }
        ensures sound { IfOk result (λ answer. IfOk answer (λ message. IfSome message
            (λ m. IsSoundMessage (message_seen m)))) }
        ensures within { IsWalkWithin self.new part.new.items octets.now }
        ensures err { OnErr result (take (length part.old.items) part.new.items ≡ part.old.items) }
    {
        loop {
            match self.step(alloc, part, octets)? {
                Step::Part => {}
                Step::Message(message) => return Ok(Ok(Some(message))),
                Step::Rest => return Ok(Ok(None)),
                Step::Broken(fault) => return Ok(Err(fault)),
            }
        }
    }
}
