//! What is told of one message.
ghost use Rattle.std.specs.Prelude.{◌≡◌, IfOk};
ghost use Rattle.tpkt_cotp.specs.Seen.{message_seen};
ghost use Rattle.stack_assoc.specs.Listing.Hearing as spec;

use crate::listing::names::{MessageName, name_of};
use crate::messages::{Expecting, Heard, Phase, Side, StackFault, read_message};
use presentation_profile::mms_id;
use std::alloc::{AllocError, Global};
use tpkt_cotp::TransportIn;

/// What is told of a message: its name, and the id of the context of MMS, if it has one.
#[derive(Clone, Copy)]
pub(crate) struct ListedMessage {
    pub(crate) name: MessageName,
    pub(crate) context: Option<u32>,
}

/// What a reader of captures expects, where this is the id of the context of MMS that counts.
fn expecting(context: Option<u32>) -> Expecting
    ensures { result ≡ spec.expecting context }
{
    Expecting {
        side: Side::Either,
        phase: Phase::Associated,
        acse: 1,
        mms: context.unwrap_or(3),
        awaited: false,
    }
}

/// The id of the context of MMS that a message tells.
fn context_in(heard: &Heard) -> Option<u32>
    ensures { result ≡ spec.context_in heard.now }
{
    match heard {
        Heard::Connect(connecting) => mms_id(connecting.contexts.as_slice()),
        Heard::Accept(accepting) => Some(accepting.mms),
        Heard::Refuse
        | Heard::Finish
        | Heard::Disconnect
        | Heard::Abort
        | Heard::AbortAccept
        | Heard::Pdu(_)
        | Heard::BadRequest { .. } => None,
    }
}

/// What a TSDU says.
fn hear(
    alloc: Global,
    context: Option<u32>,
    tsdu: &[u8],
) -> Result<Result<Heard, StackFault>, AllocError>
    ensures { IfOk result (λ heard. heard ≡ spec.message_in (spec.expecting context) tsdu.now) }
{
    read_message(alloc, tsdu, expecting(context))
}

fn tell_tsdu(
    alloc: Global,
    context: Option<u32>,
    tsdu: &[u8],
) -> Result<Result<ListedMessage, StackFault>, AllocError>
    ensures { IfOk result (λ told.
        told ≡ spec.listing_told_by (spec.message_in (spec.expecting context) tsdu.now)) }
{
    match hear(alloc, context, tsdu)? {
        Ok(heard) => Ok(Ok(ListedMessage {
            name: name_of(&heard),
            context: context_in(&heard),
        })),
        Err(fault) => Ok(Err(fault)),
    }
}

/// What is told of a message, where this is the id of the context of MMS that counts; or its first
/// fault.
pub(crate) fn tell(
    alloc: Global,
    context: Option<u32>,
    message: &TransportIn,
) -> Result<Result<ListedMessage, StackFault>, AllocError>
    ensures { IfOk result (λ told. told ≡ spec.told_in context (message_seen message.now)) }
{
    let name = match message {
        TransportIn::Connect(_) => MessageName::Cr,
        TransportIn::Connected(_) => MessageName::Cc,
        TransportIn::Gone => MessageName::Dr,
        TransportIn::Tsdu { octets, .. } => return tell_tsdu(alloc, context, octets.as_slice()),
    };
    Ok(Ok(ListedMessage {
        name,
        context: None,
    }))
}
