//! The listing of a captured stream that comes in pieces.
ghost use Rattle.std.specs.Prelude.{◌≡◌, ◌≤◌, false, ℕ, List, length, IfOk, OnErr};
ghost use Rattle.std.specs.Bool.{OnFalse};
ghost use Rattle.tpkt_cotp.specs.declared.limits.TheConstants.{PIECE_LIMIT};
ghost use Rattle.tpkt_cotp.specs.Seen.{message_seen};
ghost use Rattle.stack_assoc.specs.Listing.Hearing as spec;
ghost use Rattle.stack_assoc.specs.Listing.Hearing.{told_in};
ghost use Rattle.stack_assoc.specs.Listing.Listings as listings;
ghost use Rattle.stack_assoc.specs.Listing.Listings.{State, listing_of, state, yet_listed, Lists};
ghost use Rattle.stack_assoc.specs.Listing.Listings.{ListsPiece, FinishesListing, IsListed, IsAtRest};

use crate::listing::hearing::tell;
use crate::listing::lines::{put_fault, put_message, put_rest};
use crate::messages::{Layer, StackFault};
use std::alloc::{AllocError, Global};
use std::marker::Model;
use tpkt_cotp::{CotpFault, Role, Transport, TransportIn};

/// Lists the messages of a captured stream of either end of a connection, which comes in pieces.
/// It holds at most what a transport holds.
#[derive(Drop)]
pub struct Lister {
    alloc: Global,
    transport: Transport,
    context: Option<u32>,
    ended: bool,
}

impl Model for Lister {
    ghost use Rattle.std.specs.Prelude.{◌≡◌, false};
    ghost use Rattle.tpkt_cotp.specs.Lines.{IsLineSettled};
    ghost use Rattle.stack_assoc.specs.Listing.Listings.{State};

    ghost Value = { State };

    ghost view = { λ l. record {
      line = l.transport;
      context = l.context;
      ended = l.ended;
    } };

    ghost invariant = { λ l. l.ended ≡ false → IsLineSettled l.transport };
}

impl Lister {
    /// A lister at the start of a stream.
    pub fn new(alloc: Global) -> Lister
        ensures { (octets : List ℕ) → yet_listed result octets ≡ listing_of octets }
    {
        Lister {
            alloc,
            transport: Transport::new(alloc, Role::Either),
            context: None,
            ended: false,
        }
    }

    /// Takes the next piece of the stream, at most 65,536 octets, and appends the lines of the
    /// messages that are whole with it: `at PLACE NAME LENGTH`, or `fault LAYER PLACE WHY`, after
    /// which there are none. Where memory runs out, those of the first few messages may have been
    /// appended, each of them whole.
    pub fn feed(self, piece: &[u8], out: &mut Vec<u8>) -> Result<Lister, AllocError>
        requires { length piece.now ≤ PIECE_LIMIT }
        ensures lists { IfOk result (λ lister.
            ListsPiece self lister piece.now out.old.items out.new.items) }
        ensures cut { OnErr result ((now : State)
            × ListsPiece self now piece.now out.old.items out.new.items) }
    {
        let Lister {
            alloc,
            mut transport,
            mut context,
            ended,
        } = self;
        if ended {
            return Ok(Lister {
                alloc,
                transport,
                context,
                ended,
            });
        }
        transport.feed(piece)?;
        let ended = list_all(alloc, &mut transport, &mut context, out)?;
        Ok(Lister {
            alloc,
            transport,
            context,
            ended,
        })
    }

    /// Says that the stream has ended: appends `rest COUNT`, where octets are left that are no
    /// whole message. Answers whether a fault was told. What was appended where memory runs out is
    /// as after a piece.
    pub fn finish(self, out: &mut Vec<u8>) -> Result<bool, AllocError>
        ensures finishes { IfOk result (λ broken.
            FinishesListing self out.old.items out.new.items broken) }
        ensures cut { OnErr result ((now : State) × Lists self now out.old.items out.new.items) }
    {
        let Lister {
            alloc,
            mut transport,
            mut context,
            ended,
        } = self;
        if ended {
            return Ok(true);
        }
        if list_all(alloc, &mut transport, &mut context, out)? {
            return Ok(true);
        }
        put_rest(out, transport.left())?;
        Ok(false)
    }
}

/// Lists the messages that are whole; answers whether there was a fault.
fn list_all(
    alloc: Global,
    transport: &mut Transport,
    context: &mut Option<u32>,
    out: &mut Vec<u8>,
) -> Result<bool, AllocError>
    ensures lists { IfOk result (λ broken. Lists (state transport.old context.old false)
        (state transport.new context.new broken) out.old.items out.new.items) }
    ensures settled { IfOk result (λ broken. OnFalse broken (IsAtRest transport.new)) }
    ensures cut { OnErr result ((now : State) × Lists (state transport.old context.old false)
        now out.old.items out.new.items) }
{
    loop {
        let place = transport.start();
        match transport.next()? {
            Ok(Some(message)) => {
                let size = transport.start().saturating_sub(place);
                if list_message(alloc, &message, place, size, context, out)? {
                    return Ok(true);
                }
            }
            Ok(None) => return Ok(false),
            Err(fault) => {
                put_fault(out, transport_fault(fault))?;
                return Ok(true);
            }
        }
    }
}

/// Lists a message of so many octets; answers whether it has a fault.
fn list_message(
    alloc: Global,
    message: &TransportIn,
    place: u64,
    size: u64,
    context: &mut Option<u32>,
    out: &mut Vec<u8>,
) -> Result<bool, AllocError>
    ensures listed { IfOk result (λ broken.
        IsListed (told_in context.old (message_seen message.now))
        place size context.old context.new out.old.items out.new.items broken) }
    ensures err { OnErr result (out.new.items ≡ out.old.items) }
{
    match tell(alloc, *context, message)? {
        Ok(told) => {
            put_message(out, place, told.name, size)?;
            *context = first_of(*context, told.context);
            Ok(false)
        }
        Err(fault) => {
            put_fault(out, fault)?;
            Ok(true)
        }
    }
}

fn first_of(context: Option<u32>, other: Option<u32>) -> Option<u32>
    ensures { result ≡ spec.either_of context other }
{
    match context {
        Some(context) => Some(context),
        None => other,
    }
}

/// A fault of the transport.
fn transport_fault(fault: CotpFault) -> StackFault
    ensures { result ≡ listings.listed_transport_fault fault }
{
    StackFault {
        layer: Layer::Transport,
        place: fault.place,
        why: fault.why,
    }
}
