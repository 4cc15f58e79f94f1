//! Reads what sets up an association: a connect and an accept.
ghost use Rattle.std.specs.Prelude.{◌≡◌, length, IfOk};
ghost use Rattle.ber_values.specs.Externals.{IsSpanWithin};
ghost use Rattle.presentation_profile.specs.Ppdus.{body_of};
ghost use Rattle.acse_assoc.specs.Seen.{IsApduBodyWithin, IsUserBodyWithin};
ghost use Rattle.stack_assoc.specs.Messages.Meanings.{IsReadAs, inside};
ghost use Rattle.stack_assoc.specs.Messages.Layers.{apdu_at, pdu_at};
ghost use Rattle.stack_assoc.specs.Messages.Setting.{initiate_in_pdu, initiated_of};
ghost use Rattle.stack_assoc.specs.Messages.Setting.{initiate_in, aarq_in, offers_in, connect_at};
ghost use Rattle.stack_assoc.specs.Messages.Setting.{initiated_in, user_in, aare_in, results_in};
ghost use Rattle.stack_assoc.specs.Messages.Setting.{accept_at, request_expected, answer_expected};

use crate::messages::expecting::Expecting;
use crate::messages::fault::{Layer, StackFault};
use crate::messages::heard::{Accepting, Connecting, Heard};
use crate::messages::layers::{out_of_order, read_acse, read_mms, read_presentation};
use crate::messages::turns::offered_by;
use acse_assoc::{Apdu, AssociateRequest};
use ber_values::{External, Span};
use mms_services::{Initiate, MmsPdu};
use presentation_profile::{Offers, Ppdu, mms_id};
use std::alloc::{AllocError, Global};
use tpkt_cotp::Selector;

/// The connect in the body of an SPDU that calls this selector.
pub(crate) fn read_connect(
    alloc: Global,
    tsdu: &[u8],
    session: Option<Selector>,
    body: Span,
) -> Result<Result<Heard, StackFault>, AllocError>
    requires { IsSpanWithin 0 (length tsdu.now) body }
    ensures { IfOk result (λ read. IsReadAs (connect_at tsdu.now session body) read) }
{
    let expected = presentation_profile::Expected::Connect;
    match read_presentation(alloc, tsdu, body, expected)? {
        Ok(ppdu) => read_offers(alloc, tsdu, session, ppdu),
        Err(fault) => Ok(Err(fault)),
    }
}

/// The connect that a PPDU is.
fn read_offers(
    alloc: Global,
    tsdu: &[u8],
    session: Option<Selector>,
    ppdu: Ppdu,
) -> Result<Result<Heard, StackFault>, AllocError>
    requires { IsSpanWithin 0 (length tsdu.now) (body_of ppdu) }
    ensures { IfOk result (λ read. IsReadAs (offers_in tsdu.now session ppdu) read) }
{
    match ppdu {
        Ppdu::Connect {
            called,
            contexts,
            body,
            ..
        } => read_request(alloc, tsdu, session, called, contexts, body),
        Ppdu::Accept { .. } => Ok(Err(out_of_order(Layer::Presentation))),
        Ppdu::Carry { .. } => Ok(Err(out_of_order(Layer::Presentation))),
    }
}

/// The request for an association in the body of a connect with these offers.
fn read_request(
    alloc: Global,
    tsdu: &[u8],
    session: Option<Selector>,
    called: Option<Selector>,
    contexts: Offers,
    body: Span,
) -> Result<Result<Heard, StackFault>, AllocError>
    requires { IsSpanWithin 0 (length tsdu.now) body }
    ensures { IfOk result (λ read. IsReadAs
        (inside (apdu_at (request_expected contexts) tsdu.now body)
        (aarq_in tsdu.now session called contexts))
        read) }
{
    let expected = acse_assoc::Expected {
        request_id: mms_id(contexts.as_slice()),
        response_id: None,
        accepted: false,
    };
    match read_acse(alloc, tsdu, body, expected)? {
        Ok(apdu) => read_aarq(alloc, tsdu, session, called, contexts, apdu),
        Err(fault) => Ok(Err(fault)),
    }
}

/// The request for an association that an APDU is.
fn read_aarq(
    alloc: Global,
    tsdu: &[u8],
    session: Option<Selector>,
    called: Option<Selector>,
    contexts: Offers,
    apdu: Apdu,
) -> Result<Result<Heard, StackFault>, AllocError>
    requires { IsApduBodyWithin 0 (length tsdu.now) apdu }
    ensures { IfOk result (λ read. IsReadAs (aarq_in tsdu.now session called contexts apdu) read) }
{
    match apdu {
        Apdu::Aarq(request) => read_initiate(alloc, tsdu, session, called, contexts, request),
        Apdu::Aare(_) => Ok(Err(out_of_order(Layer::Acse))),
        Apdu::Rlrq => Ok(Err(out_of_order(Layer::Acse))),
        Apdu::Rlre => Ok(Err(out_of_order(Layer::Acse))),
        Apdu::Abrt => Ok(Err(out_of_order(Layer::Acse))),
    }
}

/// The initiate in the body of a request for an association.
fn read_initiate(
    alloc: Global,
    tsdu: &[u8],
    session: Option<Selector>,
    called: Option<Selector>,
    contexts: Offers,
    request: AssociateRequest,
) -> Result<Result<Heard, StackFault>, AllocError>
    requires { IsSpanWithin 0 (length tsdu.now) request.user.body }
    ensures { IfOk result (λ read. IsReadAs
        (inside (pdu_at tsdu.now request.user.body) (initiate_in session called contexts request))
        read) }
{
    match read_mms(alloc, tsdu, request.user.body)? {
        Ok(pdu) => Ok(connecting(session, called, contexts, request, pdu)),
        Err(fault) => Ok(Err(fault)),
    }
}

/// The connect whose PDU is this one.
fn connecting(
    session: Option<Selector>,
    called: Option<Selector>,
    contexts: Offers,
    request: AssociateRequest,
    pdu: MmsPdu,
) -> Result<Heard, StackFault>
    ensures { IsReadAs (initiate_in session called contexts request pdu) result }
{
    match initiate_of(pdu) {
        Some(initiate) => Ok(Heard::Connect(Connecting {
            session,
            presentation: called,
            contexts,
            context: request.context,
            title: request.title,
            initiate,
        })),
        None => Err(out_of_order(Layer::Mms)),
    }
}

/// The initiate that a PDU is.
fn initiate_of(pdu: MmsPdu) -> Option<Initiate>
    ensures { result ≡ initiate_in_pdu pdu }
{
    match pdu {
        MmsPdu::Initiate(initiate) => Some(initiate),
        _ => None,
    }
}

/// The accept in the body of an SPDU.
pub(crate) fn read_accept(
    alloc: Global,
    tsdu: &[u8],
    body: Span,
    expecting: Expecting,
) -> Result<Result<Heard, StackFault>, AllocError>
    requires { IsSpanWithin 0 (length tsdu.now) body }
    ensures { IfOk result (λ read. IsReadAs (accept_at expecting tsdu.now body) read) }
{
    let expected = presentation_profile::Expected::Accept {
        acse: offered_by(expecting.side, expecting.acse),
    };
    match read_presentation(alloc, tsdu, body, expected)? {
        Ok(ppdu) => read_results(alloc, tsdu, ppdu, expecting),
        Err(fault) => Ok(Err(fault)),
    }
}

/// The accept that a PPDU is.
fn read_results(
    alloc: Global,
    tsdu: &[u8],
    ppdu: Ppdu,
    expecting: Expecting,
) -> Result<Result<Heard, StackFault>, AllocError>
    requires { IsSpanWithin 0 (length tsdu.now) (body_of ppdu) }
    ensures { IfOk result (λ read. IsReadAs (results_in expecting tsdu.now ppdu) read) }
{
    match ppdu {
        Ppdu::Accept { id, body, .. } => read_response(alloc, tsdu, id, body, expecting),
        Ppdu::Connect { .. } => Ok(Err(out_of_order(Layer::Presentation))),
        Ppdu::Carry { .. } => Ok(Err(out_of_order(Layer::Presentation))),
    }
}

/// The response in the body of an accept of the context with this id.
fn read_response(
    alloc: Global,
    tsdu: &[u8],
    acse: u32,
    body: Span,
    expecting: Expecting,
) -> Result<Result<Heard, StackFault>, AllocError>
    requires { IsSpanWithin 0 (length tsdu.now) body }
    ensures { IfOk result (λ read. IsReadAs
        (inside (apdu_at (answer_expected expecting) tsdu.now body) (aare_in tsdu.now acse)) read) }
{
    let expected = acse_assoc::Expected {
        request_id: None,
        response_id: offered_by(expecting.side, expecting.mms),
        accepted: true,
    };
    match read_acse(alloc, tsdu, body, expected)? {
        Ok(apdu) => read_aare(alloc, tsdu, acse, apdu),
        Err(fault) => Ok(Err(fault)),
    }
}

/// The response that an APDU is.
fn read_aare(
    alloc: Global,
    tsdu: &[u8],
    acse: u32,
    apdu: Apdu,
) -> Result<Result<Heard, StackFault>, AllocError>
    requires { IsApduBodyWithin 0 (length tsdu.now) apdu }
    ensures { IfOk result (λ read. IsReadAs (aare_in tsdu.now acse apdu) read) }
{
    match apdu {
        Apdu::Aare(response) => read_user(alloc, tsdu, acse, response.user),
        Apdu::Aarq(_) => Ok(Err(out_of_order(Layer::Acse))),
        Apdu::Rlrq => Ok(Err(out_of_order(Layer::Acse))),
        Apdu::Rlre => Ok(Err(out_of_order(Layer::Acse))),
        Apdu::Abrt => Ok(Err(out_of_order(Layer::Acse))),
    }
}

/// The initiate response in user information, which there is where an association is accepted.
fn read_user(
    alloc: Global,
    tsdu: &[u8],
    acse: u32,
    user: Option<External>,
) -> Result<Result<Heard, StackFault>, AllocError>
    requires { IsUserBodyWithin 0 (length tsdu.now) user }
    ensures { IfOk result (λ read. IsReadAs (user_in tsdu.now acse user) read) }
{
    match user {
        Some(user) => read_initiated(alloc, tsdu, acse, user),
        None => Ok(Err(out_of_order(Layer::Acse))),
    }
}

/// The initiate response in this user information.
fn read_initiated(
    alloc: Global,
    tsdu: &[u8],
    acse: u32,
    user: External,
) -> Result<Result<Heard, StackFault>, AllocError>
    requires { IsSpanWithin 0 (length tsdu.now) user.body }
    ensures { IfOk result (λ read. IsReadAs
        (inside (pdu_at tsdu.now user.body) (initiated_in acse user.id)) read) }
{
    match read_mms(alloc, tsdu, user.body)? {
        Ok(pdu) => Ok(accepting(acse, user.id, pdu)),
        Err(fault) => Ok(Err(fault)),
    }
}

/// The accept whose PDU is this one.
fn accepting(acse: u32, mms: u32, pdu: MmsPdu) -> Result<Heard, StackFault>
    ensures { IsReadAs (initiated_in acse mms pdu) result }
{
    match initiated_of(pdu) {
        Some(initiate) => Ok(Heard::Accept(Accepting {
            acse,
            mms,
            initiate,
        })),
        None => Err(out_of_order(Layer::Mms)),
    }
}

/// The initiate response that a PDU is.
fn initiated_of(pdu: MmsPdu) -> Option<Initiate>
    ensures { result ≡ initiated_of pdu }
{
    match pdu {
        MmsPdu::Initiated(initiate) => Some(initiate),
        _ => None,
    }
}
