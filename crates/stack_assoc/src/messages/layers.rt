//! Reads what stands in one layer of a message.
ghost use Rattle.std.specs.Prelude.{◌≡◌, length, IfOk};
ghost use Rattle.ber_values.specs.Externals.{IsSpanWithin};
ghost use Rattle.session_profile.specs.Seen.{IsSpduBodyWithin};
ghost use Rattle.presentation_profile.specs.Ppdus.{body_of};
ghost use Rattle.acse_assoc.specs.Seen as acse;
ghost use Rattle.stack_assoc.specs.Messages.Meanings.{IsReadAs};
ghost use Rattle.stack_assoc.specs.Messages.Layers.{fault_of, out_of_order, spdu_of, ppdu_at, apdu_at};
ghost use Rattle.stack_assoc.specs.Messages.Layers.{pdu_at, place_after};

use crate::messages::fault::{Layer, StackFault};
use acse_assoc::{Apdu, read_apdu};
use ber_values::{Span, Why};
use mms_services::{MmsPdu, read_pdu};
use presentation_profile::{Ppdu, read_ppdu};
use session_profile::{Spdu, read_spdu};
use std::alloc::{AllocError, Global};

/// A fault of a layer.
fn fault_of(layer: Layer, place: usize, why: Why) -> StackFault
    ensures { result ≡ fault_of layer place why }
{
    StackFault {
        layer,
        place: place as u64,
        why,
    }
}

/// A message that may not come now.
pub(crate) fn out_of_order(layer: Layer) -> StackFault
    ensures { result ≡ out_of_order layer }
{
    fault_of(layer, 0, Why::Order)
}

/// A fault of a PDU of MMS that begins at `from`.
pub(crate) fn mms_fault(from: usize, place: usize, why: Why) -> StackFault
    ensures { result ≡ fault_of Layer.Mms (place_after from place) why }
{
    fault_of(Layer::Mms, from.saturating_add(place), why)
}

/// The SPDU that a TSDU is.
pub(crate) fn read_session(
    alloc: Global,
    tsdu: &[u8],
) -> Result<Result<Spdu, StackFault>, AllocError>
    ensures exact { IfOk result (λ read. IsReadAs (spdu_of tsdu.now) read) }
    ensures body { IfOk result (λ read.
        IfOk read (λ spdu. IsSpduBodyWithin (length tsdu.now) spdu)) }
{
    match read_spdu(alloc, tsdu)? {
        Ok(spdu) => Ok(Ok(spdu)),
        Err(fault) => Ok(Err(fault_of(Layer::Session, fault.place, fault.why))),
    }
}

/// The PPDU that these octets of a TSDU are.
pub(crate) fn read_presentation(
    alloc: Global,
    tsdu: &[u8],
    span: Span,
    expected: presentation_profile::Expected,
) -> Result<Result<Ppdu, StackFault>, AllocError>
    requires { IsSpanWithin 0 (length tsdu.now) span }
    ensures exact { IfOk result (λ read. IsReadAs (ppdu_at expected tsdu.now span) read) }
    ensures body { IfOk result (λ read. IfOk read
        (λ p. IsSpanWithin 0 (length tsdu.now) (body_of p))) }
{
    match read_ppdu(alloc, tsdu, span.from, span.to, expected)? {
        Ok(ppdu) => Ok(Ok(ppdu)),
        Err(fault) => Ok(Err(fault_of(Layer::Presentation, fault.place, fault.why))),
    }
}

/// The APDU that these octets of a TSDU are.
pub(crate) fn read_acse(
    alloc: Global,
    tsdu: &[u8],
    span: Span,
    expected: acse_assoc::Expected,
) -> Result<Result<Apdu, StackFault>, AllocError>
    requires { IsSpanWithin 0 (length tsdu.now) span }
    ensures exact { IfOk result (λ read. IsReadAs (apdu_at expected tsdu.now span) read) }
    ensures body { IfOk result (λ read. IfOk read
        (λ a. acse.IsApduBodyWithin 0 (length tsdu.now) a)) }
{
    match read_apdu(alloc, tsdu, span.from, span.to, expected)? {
        Ok(apdu) => Ok(Ok(apdu)),
        Err(fault) => Ok(Err(fault_of(Layer::Acse, fault.place, fault.why))),
    }
}

/// The PDU of MMS that these octets of a TSDU are.
pub(crate) fn read_mms(
    alloc: Global,
    tsdu: &[u8],
    span: Span,
) -> Result<Result<MmsPdu, StackFault>, AllocError>
    requires { IsSpanWithin 0 (length tsdu.now) span }
    ensures { IfOk result (λ read. IsReadAs (pdu_at tsdu.now span) read) }
{
    match read_pdu(alloc, &tsdu[span.from..span.to])? {
        Ok(pdu) => Ok(Ok(pdu)),
        Err(fault) => Ok(Err(mms_fault(span.from, fault.place, fault.why))),
    }
}
