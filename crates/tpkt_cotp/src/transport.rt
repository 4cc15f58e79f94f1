//! The transport over a stream that comes in any pieces: octets in, whole messages out.
ghost use Rattle.std.specs.Prelude.{◌≡◌, ℕ, ◌+◌, ◌-◌, ◌≤◌, ◌<◌, List, [], ◌++◌, length, IfOk, OnOk};
ghost use Rattle.std.specs.Prelude.{OnErr, OnSome, IfSome};
ghost use Rattle.tpkt_cotp.specs.declared.turn.Role.{Role};
ghost use Rattle.tpkt_cotp.specs.Streams.{Message};
ghost use Rattle.tpkt_cotp.specs.Seen.{message_seen};
ghost use Rattle.tpkt_cotp.specs.Sound.{IsSoundMessage};
ghost use Rattle.tpkt_cotp.specs.Lines.{Line, IsLineSettled, HoldsFew, Stands, IsTransportAnswer};
ghost use Rattle.tpkt_cotp.specs.Lines.{fed};
ghost use Rattle.tpkt_cotp.specs.Streams.{stream_place};
ghost use Rattle.tpkt_cotp.specs.Places.{stream_in};
ghost use Rattle.tpkt_cotp.specs.Goings.{stream_of, HandsOut, KeepsStart};

use crate::fault::CotpFault;
use crate::limits::{PIECE_LIMIT, TPKT_LIMIT};
use crate::message::TransportIn;
use crate::turn::{Role, Turn};
use crate::walk::Walk;
use bytes::BytesMut;
use std::alloc::{AllocError, Global};
use std::marker::Model;

/// The reader of one stream. It holds at most one TSDU, one TPKT and one piece.
#[derive(Drop)]
pub struct Transport {
    alloc: Global,
    turn: Turn,
    place: u64,
    start: u64,
    part: Vec<u8>,
    unread: BytesMut,
    fault: Option<CotpFault>,
}

impl Model for Transport {
    ghost use Rattle.std.specs.Prelude.{◌≤◌, ◌+◌, ◌-◌, length};
    ghost use Rattle.tpkt_cotp.specs.declared.limits.TheConstants.{TSDU_LIMIT};
    ghost use Rattle.tpkt_cotp.specs.declared.limits.TheConstants.{TPKT_LIMIT, PIECE_LIMIT};
    ghost use Rattle.tpkt_cotp.specs.Lines.{Line};

    ghost Value = { Line };

    ghost view = { λ t. record {
      turn = t.turn;
      place = t.place;
      start = t.start;
      held = t.part.items;
      unread = t.unread.items;
      fault = t.fault;
    } };

    ghost invariant = { λ t. (length t.part.items ≤ TSDU_LIMIT)
        × (length t.unread.items ≤ TPKT_LIMIT - 1 + PIECE_LIMIT) };
}

impl Transport {
    /// A reader at the start of a stream.
    pub fn new(alloc: Global, role: Role) -> Transport
        ensures stands { Stands role [] [] result }
        ensures settled { IsLineSettled result }
        ensures few { HoldsFew result }
        // All that it will hand out is what the stream says.
        ensures hands_out { (octets : List ℕ) → stream_of (fed result octets)
            ≡ stream_in role octets }
    {
        Transport {
            alloc,
            turn: Turn::Opening(role),
            place: 0,
            start: 0,
            part: Vec::new(alloc),
            unread: BytesMut::new(alloc),
            fault: None,
        }
    }

    fn take_in(&mut self, piece: &[u8]) -> Result<(), AllocError>
        requires small { length piece.now ≤ PIECE_LIMIT }
        requires few { length self.old.unread ≤ TPKT_LIMIT - 1 }
        ensures ok { OnOk result (self.new ≡ fed self.old piece.now) }
        ensures err { OnErr result (self.new ≡ self.old) }
    {
        if self.fault.is_none() {
            self.unread.extend_from_slice(piece)?;
        }
        Ok(())
    }

    /// Takes the next piece of the stream, at most 65,536 octets, once `next` has answered that
    /// no whole message is left, or a fault. After a fault the octets are dropped. After want of
    /// memory the reader is as before.
    pub fn feed(&mut self, piece: &[u8]) -> Result<(), AllocError>
        requires small { length piece.now ≤ PIECE_LIMIT }
        requires settled { IsLineSettled self.old }
        // The stream goes on by the piece.
        ensures ok { (role : Role) (heard : List ℕ) (given : List Message)
            → Stands role heard given self.old
            → OnOk result (Stands role (heard ++ piece.now) given self.new) }
        ensures fed { OnOk result (self.new ≡ fed self.old piece.now) }
        ensures err { OnErr result (self.new ≡ self.old) }
    {
        self.take_in(piece)
    }

    /// The next whole message of the stream so far; none where no whole one is left; or the first
    /// rule that the stream breaks, once the messages before it were handed out, and then again
    /// and again. After want of memory the reader is as before.
    pub fn next(&mut self) -> Result<Result<Option<TransportIn>, CotpFault>, AllocError>
        ensures ok { (role : Role) (heard : List ℕ) (given : List Message)
            → Stands role heard given self.old
            → IfOk result (λ answer. IsTransportAnswer role heard given answer self.new) }
        // It is the first of what was to be handed out, and stands where `start` says.
        ensures hands_out { IfOk result (λ answer. HandsOut self.old answer self.new) }
        // Where none is handed out, a fault or not, `start` stays.
        ensures start { IfOk result (λ answer. KeepsStart self.old answer self.new) }
        // Behind a message nothing is held of another one.
        ensures whole { IfOk result (λ answer. IfOk answer (λ message. OnSome message
            (self.new.held ≡ []))) }
        ensures shorter { IfOk result (λ answer. IfOk answer (λ message. OnSome message
            (length self.new.unread < length self.old.unread))) }
        // A connect request or confirm that is handed out may be answered, and a TSDU is within
        // its limit.
        ensures sound { IfOk result (λ answer. IfOk answer (λ message. IfSome message
            (λ m. IsSoundMessage (message_seen m)))) }
        ensures err { OnErr result (self.new ≡ self.old) }
    {
        if let Some(fault) = self.fault {
            return Ok(Err(fault));
        }
        let mark = self.part.len();
        let mut walk = Walk {
            turn: self.turn,
            place: self.place,
            start: self.start,
            passed: 0,
            fault: None,
        };
        match walk.next(self.alloc, &mut self.part, self.unread.as_slice()) {
            Err(error) => {
                self.part.truncate(mark);
                Err(error)
            }
            Ok(answer) => {
                self.turn = walk.turn;
                self.place = walk.place;
                self.start = walk.start;
                self.fault = walk.fault;
                self.unread.advance(walk.passed);
                Ok(answer)
            }
        }
    }

    /// The place where the first message begins that was not yet handed out: the octets of the
    /// stream before it, at most 2^64 - 1.
    pub fn start(&self) -> u64
        ensures { result ≡ self.now.start }
    {
        self.start
    }

    /// The octets of the stream from there on, as far as they were fed.
    pub fn left(&self) -> u64
        ensures { result ≡ stream_place (self.now.place + length self.now.unread) - self.now.start }
    {
        let end = self.place.saturating_add(self.unread.len() as u64);
        end.saturating_sub(self.start)
    }

    /// What it holds: at most one TSDU, and a TPKT that isn't whole and a piece.
    pub fn held(&self) -> usize
        ensures count { result ≡ length self.now.held + length self.now.unread }
        ensures few { HoldsFew self.now }
    {
        self.part.as_slice().len() + self.unread.len()
    }
}
