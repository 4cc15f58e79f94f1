//! Reads data over an association.
ghost use Rattle.std.specs.Prelude.{◌≡◌, length, IfOk, if◌then◌else◌};
ghost use Rattle.ber_values.specs.Externals.{IsSpanWithin};
ghost use Rattle.presentation_profile.specs.Ppdus.{body_of};
ghost use Rattle.stack_assoc.specs.Messages.Meanings.{IsReadAs};
ghost use Rattle.stack_assoc.specs.Messages.Layers.{out_of_order};
ghost use Rattle.stack_assoc.specs.Messages.Turns.{pdu_may_come, may_ask};
ghost use Rattle.stack_assoc.specs.Messages.Messages.{data_at, user_data_in, carry_at};

use crate::messages::expecting::Expecting;
use crate::messages::fault::{Layer, StackFault};
use crate::messages::heard::Heard;
use crate::messages::layers::{mms_fault, out_of_order, read_presentation};
use crate::messages::turns::{may_ask, pdu_may_come};
use ber_values::Span;
use mms_services::{MmsPdu, read_pdu};
use presentation_profile::Ppdu;
use std::alloc::{AllocError, Global};

/// The data in the body of an SPDU.
pub(crate) fn read_carry(
    alloc: Global,
    tsdu: &[u8],
    body: Span,
    expecting: Expecting,
) -> Result<Result<Heard, StackFault>, AllocError>
    requires { IsSpanWithin 0 (length tsdu.now) body }
    ensures { IfOk result (λ read. IsReadAs (carry_at expecting tsdu.now body) read) }
{
    let expected = presentation_profile::Expected::Carry { id: expecting.mms };
    match read_presentation(alloc, tsdu, body, expected)? {
        Ok(ppdu) => read_user_data(alloc, tsdu, ppdu, expecting),
        Err(fault) => Ok(Err(fault)),
    }
}

/// The data that a PPDU carries.
fn read_user_data(
    alloc: Global,
    tsdu: &[u8],
    ppdu: Ppdu,
    expecting: Expecting,
) -> Result<Result<Heard, StackFault>, AllocError>
    requires { IsSpanWithin 0 (length tsdu.now) (body_of ppdu) }
    ensures { IfOk result (λ read. IsReadAs (user_data_in expecting tsdu.now ppdu) read) }
{
    match ppdu {
        Ppdu::Carry { body, .. } => read_data(alloc, tsdu, body, expecting),
        Ppdu::Connect { .. } => Ok(Err(out_of_order(Layer::Presentation))),
        Ppdu::Accept { .. } => Ok(Err(out_of_order(Layer::Presentation))),
    }
}

/// The PDU of MMS that these octets of a TSDU are, or the number of a faulty request, where it may
/// be answered.
fn read_data(
    alloc: Global,
    tsdu: &[u8],
    body: Span,
    expecting: Expecting,
) -> Result<Result<Heard, StackFault>, AllocError>
    requires { IsSpanWithin 0 (length tsdu.now) body }
    ensures { IfOk result (λ read. IsReadAs (data_at expecting tsdu.now body) read) }
{
    match read_pdu(alloc, &tsdu[body.from..body.to])? {
        Ok(pdu) => Ok(in_turn(pdu, expecting)),
        Err(fault) => match answerable(fault.invoke, expecting) {
            Some(invoke) => Ok(Ok(Heard::BadRequest { invoke })),
            None => Ok(Err(mms_fault(body.from, fault.place, fault.why))),
        },
    }
}

/// A PDU, where it may come.
fn in_turn(pdu: MmsPdu, expecting: Expecting) -> Result<Heard, StackFault>
    ensures { result ≡ (if pdu_may_come expecting pdu then Ok (Heard.Pdu pdu)
        else Err (out_of_order Layer.Mms)) }
{
    if pdu_may_come(expecting, &pdu) {
        Ok(Heard::Pdu(pdu))
    } else {
        Err(out_of_order(Layer::Mms))
    }
}

/// The number of a faulty request, where a request may come.
fn answerable(invoke: Option<u32>, expecting: Expecting) -> Option<u32>
    ensures { result ≡ (if may_ask expecting.side expecting.phase then invoke else None) }
{
    if may_ask(expecting.side, expecting.phase) {
        invoke
    } else {
        None
    }
}
