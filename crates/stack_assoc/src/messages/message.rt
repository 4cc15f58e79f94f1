//! Reads a message, layer by layer.
ghost use Rattle.std.specs.Prelude.{length, IfOk};
ghost use Rattle.session_profile.specs.Seen.{IsSpduBodyWithin};
ghost use Rattle.stack_assoc.specs.Messages.Meanings.{IsReadAs};
ghost use Rattle.stack_assoc.specs.Messages.Messages.{message, said_by, said_in_turn};

use crate::messages::data::read_carry;
use crate::messages::expecting::Expecting;
use crate::messages::fault::{Layer, StackFault};
use crate::messages::heard::Heard;
use crate::messages::layers::{out_of_order, read_session};
use crate::messages::setting::{read_accept, read_connect};
use crate::messages::turns::spdu_may_come;
use session_profile::Spdu;
use std::alloc::{AllocError, Global};

/// What a TSDU says, or where it breaks a rule first, of which layer, and which. Places count the
/// octets of the TSDU.
pub fn read_message(
    alloc: Global,
    tsdu: &[u8],
    expecting: Expecting,
) -> Result<Result<Heard, StackFault>, AllocError>
    ensures { IfOk result (λ read. IsReadAs (message expecting tsdu.now) read) }
{
    match read_session(alloc, tsdu)? {
        Ok(spdu) => read_in_turn(alloc, tsdu, spdu, expecting),
        Err(fault) => Ok(Err(fault)),
    }
}

/// What an SPDU says, where it may come.
fn read_in_turn(
    alloc: Global,
    tsdu: &[u8],
    spdu: Spdu,
    expecting: Expecting,
) -> Result<Result<Heard, StackFault>, AllocError>
    requires { IsSpduBodyWithin (length tsdu.now) spdu }
    ensures { IfOk result (λ read. IsReadAs (said_in_turn expecting tsdu.now spdu) read) }
{
    if spdu_may_come(expecting.side, expecting.phase, &spdu) {
        read_inside(alloc, tsdu, spdu, expecting)
    } else {
        Ok(Err(out_of_order(Layer::Session)))
    }
}

/// What an SPDU says.
fn read_inside(
    alloc: Global,
    tsdu: &[u8],
    spdu: Spdu,
    expecting: Expecting,
) -> Result<Result<Heard, StackFault>, AllocError>
    requires { IsSpduBodyWithin (length tsdu.now) spdu }
    ensures { IfOk result (λ read. IsReadAs (said_by expecting tsdu.now spdu) read) }
{
    match spdu {
        Spdu::Connect { called, body } => read_connect(alloc, tsdu, called, body),
        Spdu::Accept { body, .. } => read_accept(alloc, tsdu, body, expecting),
        Spdu::Refuse => Ok(Ok(Heard::Refuse)),
        Spdu::Carry { body } => read_carry(alloc, tsdu, body, expecting),
        Spdu::Finish => Ok(Ok(Heard::Finish)),
        Spdu::Disconnect => Ok(Ok(Heard::Disconnect)),
        Spdu::Abort => Ok(Ok(Heard::Abort)),
        Spdu::AbortAccept => Ok(Ok(Heard::AbortAccept)),
    }
}
