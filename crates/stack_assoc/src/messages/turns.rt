//! Which message may come.
ghost use Rattle.std.specs.Prelude.{◌≡◌};
ghost use Rattle.stack_assoc.specs.Messages.Turns.{is_before, is_held, is_open, is_going};
ghost use Rattle.stack_assoc.specs.Messages.Turns.{may_connect, may_answer, may_carry, may_finish};
ghost use Rattle.stack_assoc.specs.Messages.Turns.{may_disconnect, spdu_may_come, may_ask, may_reply};
ghost use Rattle.stack_assoc.specs.Messages.Turns.{may_tell, may_be_concluded, pdu_may_come, offered_by};

use crate::messages::expecting::{Expecting, Phase, Side};
use mms_services::MmsPdu;
use session_profile::Spdu;

/// Whether no association stands yet.
fn is_before(phase: Phase) -> bool
    ensures { result ≡ is_before phase }
{
    matches!(phase, Phase::Unassociated)
}

/// Whether an association stands, concluded or not.
fn is_held(phase: Phase) -> bool
    ensures { result ≡ is_held phase }
{
    matches!(phase, Phase::Associated | Phase::Concluded)
}

/// Whether an association stands, and isn't concluded.
fn is_open(phase: Phase) -> bool
    ensures { result ≡ is_open phase }
{
    matches!(phase, Phase::Associated)
}

/// Whether other messages than aborts may come.
fn is_going(phase: Phase) -> bool
    ensures { result ≡ is_going phase }
{
    !matches!(phase, Phase::Ending)
}

/// Whether a connect may come.
fn may_connect(side: Side, phase: Phase) -> bool
    ensures { result ≡ may_connect side phase }
{
    match side {
        Side::Called => is_before(phase),
        Side::Calling => false,
        Side::Either => is_going(phase),
    }
}

/// Whether an accept or a refuse may come.
fn may_answer(side: Side, phase: Phase) -> bool
    ensures { result ≡ may_answer side phase }
{
    match side {
        Side::Called => false,
        Side::Calling => is_before(phase),
        Side::Either => is_going(phase),
    }
}

/// Whether data may come.
fn may_carry(side: Side, phase: Phase) -> bool
    ensures { result ≡ may_carry side phase }
{
    match side {
        Side::Called | Side::Calling => is_held(phase),
        Side::Either => is_going(phase),
    }
}

/// Whether a finish may come.
fn may_finish(side: Side, phase: Phase) -> bool
    ensures { result ≡ may_finish side phase }
{
    match side {
        Side::Called => is_held(phase),
        Side::Calling => false,
        Side::Either => is_going(phase),
    }
}

/// Whether a disconnect may come.
fn may_disconnect(side: Side, phase: Phase) -> bool
    ensures { result ≡ may_disconnect side phase }
{
    match side {
        Side::Called => false,
        Side::Calling => is_held(phase),
        Side::Either => is_going(phase),
    }
}

/// Whether an SPDU of this kind may come.
pub(crate) fn spdu_may_come(side: Side, phase: Phase, spdu: &Spdu) -> bool
    ensures { result ≡ spdu_may_come side phase spdu.now }
{
    match spdu {
        Spdu::Connect { .. } => may_connect(side, phase),
        Spdu::Accept { .. } => may_answer(side, phase),
        Spdu::Refuse => may_answer(side, phase),
        Spdu::Carry { .. } => may_carry(side, phase),
        Spdu::Finish => may_finish(side, phase),
        Spdu::Disconnect => may_disconnect(side, phase),
        Spdu::Abort => true,
        Spdu::AbortAccept => true,
    }
}

/// Whether a request, also a faulty one, or a conclude may come.
pub(crate) fn may_ask(side: Side, phase: Phase) -> bool
    ensures { result ≡ may_ask side phase }
{
    match side {
        Side::Called => is_open(phase),
        Side::Calling => false,
        Side::Either => true,
    }
}

/// Whether a response or an error may come.
fn may_reply(side: Side, phase: Phase) -> bool
    ensures { result ≡ may_reply side phase }
{
    match side {
        Side::Called => false,
        Side::Calling => is_open(phase),
        Side::Either => true,
    }
}

/// Whether a report or a reject may come.
fn may_tell(side: Side, phase: Phase) -> bool
    ensures { result ≡ may_tell side phase }
{
    match side {
        Side::Called | Side::Calling => is_open(phase),
        Side::Either => true,
    }
}

/// Whether the answer to a conclude may come.
fn may_be_concluded(side: Side, phase: Phase, awaited: bool) -> bool
    ensures { result ≡ may_be_concluded side phase awaited }
{
    match side {
        Side::Called => false,
        Side::Calling => awaited && is_open(phase),
        Side::Either => true,
    }
}

/// Whether a PDU of this kind may come in data.
pub(crate) fn pdu_may_come(expecting: Expecting, pdu: &MmsPdu) -> bool
    ensures { result ≡ pdu_may_come expecting pdu.now }
{
    match pdu {
        MmsPdu::Request { .. } => may_ask(expecting.side, expecting.phase),
        MmsPdu::Response { .. } => may_reply(expecting.side, expecting.phase),
        MmsPdu::Error(_) => may_reply(expecting.side, expecting.phase),
        MmsPdu::Report(_) => may_tell(expecting.side, expecting.phase),
        MmsPdu::Reject(_) => may_tell(expecting.side, expecting.phase),
        MmsPdu::Initiate(_) => false,
        MmsPdu::Initiated(_) => false,
        MmsPdu::InitiateError => false,
        MmsPdu::Conclude => may_ask(expecting.side, expecting.phase),
        MmsPdu::Concluded => {
            may_be_concluded(expecting.side, expecting.phase, expecting.awaited)
        }
    }
}

/// The id of a context that this end offered, which an answer has to have.
pub(crate) fn offered_by(side: Side, id: u32) -> Option<u32>
    ensures { result ≡ offered_by side id }
{
    match side {
        Side::Calling => Some(id),
        _ => None,
    }
}
