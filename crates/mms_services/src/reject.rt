//! Answers that a PDU isn't understood (ISO 9506-2, `RejectPDU`).
ghost use Rattle.std.specs.Prelude.{◌≡◌, ◌+◌, ◌^◌, ◌<◌, ◌≤◌, ◌++◌, length, IfOk, OnOk, OnErr};
ghost use Rattle.plain_text.specs.Extends.{Extends};
ghost use Rattle.ber_values.specs.Faults.{Gives};
ghost use Rattle.ber_values.specs.Grammars.{taken};
ghost use Rattle.ber_values.specs.Parts.{maybe_in};
ghost use Rattle.ber_values.specs.Leaves.{unsigned};
ghost use Rattle.mms_services.specs.Rejects.{reject_pdu, some_invoke_octets, reason_octets};
ghost use Rattle.mms_services.specs.Rejects.{reject_pdu_octets};

use crate::coded::{FIRST_TAG, take_coded};
use ber_values::{BerFault, Part, has_tag, natural_len, take_end, take_part, write_natural};
use std::alloc::AllocError;

/// The PDU isn't understood.
#[derive(Clone, Copy, Debug, PartialEq, Eq)]
pub struct RejectPdu {
    /// The number of the request, where it is known.
    pub invoke: Option<u32>,
    /// What kind of PDU was rejected, 1 to 15.
    pub kind: u8,
    /// The number of the reason for this kind.
    pub code: u8,
}

/// The tag of the number of the request.
const INVOKE: u8 = 0x80;

/// The first and the last tag of a kind.
const FIRST_KIND: u8 = 0x81;

const LAST_KIND: u8 = 0x8F;

/// The reject that the contents of an element are.
#[tactic(auto, unfolding(crate::specs::Rejects::reject_pdu, ber_values::specs::Parts::all_in, ber_values::specs::Grammars::then_in, ber_values::specs::Grammars::map_in))]
pub(crate) fn reject_pdu_from(part: &Part<'_>) -> Result<RejectPdu, BerFault>
    requires { part.now.head.body + length part.now.contents.now < 2 ^ 64 }
    ensures { result ≡ reject_pdu.reading part.now.head part.now.contents.now }
{
    let (invoke, at, octets) = maybe_invoke(part.contents, part.head.body)?;
    let (reason, next, rest) = take_coded(octets, at, FIRST_KIND, LAST_KIND)?;
    take_end(rest, next)?;
    Ok(RejectPdu {
        invoke,
        kind: reason.number,
        code: reason.code,
    })
}

/// The number of a request, if it is at the front of octets, and what is left after it.
#[tactic(auto, unfolding(ber_values::specs::Parts::maybe_in, ber_values::specs::Parts::part_in, ber_values::specs::Grammars::branch_in, ber_values::specs::Grammars::map_in, ber_values::specs::Grammars::gives))]
fn maybe_invoke(octets: &[u8], at: usize) -> Result<(Option<u32>, usize, &[u8]), BerFault>
    requires { at + length octets.now < 2 ^ 64 }
    ensures exact { Gives (λ x. taken x.0 x.1 x.2.now) result
        ((maybe_in 128 unsigned).reading at octets.now) }
    ensures within { IfOk result
        (λ x. (at ≤ x.1) × (x.1 + length x.2.now ≡ at + length octets.now)) }
{
    if !has_tag(octets, INVOKE) {
        return Ok((None, at, octets));
    }
    let part = take_part(octets, at, INVOKE)?;
    let invoke = part.unsigned()?;
    Ok((Some(invoke), part.head.next, part.rest))
}

/// How many octets [`put_reject_pdu`] appends.
pub(crate) fn reject_pdu_len(reject: &RejectPdu) -> usize
    ensures value { result ≡ length (reject_pdu_octets reject.now) }
    ensures few { result ≤ 13 }
{
    some_invoke_len(reject.invoke) + 3
}

fn some_invoke_len(invoke: Option<u32>) -> usize
    ensures value { result ≡ length (some_invoke_octets invoke) }
    ensures few { result ≤ 10 }
{
    match invoke {
        Some(invoke) => 2 + natural_len(u64::from(invoke)),
        None => 0,
    }
}

/// Appends a reject as the contents of an element.
#[tactic(auto, using(ber_values::proofs::Pieces::extended), unfolding(crate::specs::Rejects::reject_pdu_octets))]
pub(crate) fn put_reject_pdu(out: &mut Vec<u8>, reject: &RejectPdu) -> Result<(), AllocError>
    requires { reject.now.kind ≤ 15 }
    ensures ok { OnOk result (out.new.items ≡ out.old.items ++ reject_pdu_octets reject.now) }
    ensures err { OnErr result (Extends out.old.items out.new.items) }
{
    put_some_invoke(out, reject.invoke)?;
    put_reason(out, reject.kind, reject.code)
}

fn put_some_invoke(out: &mut Vec<u8>, invoke: Option<u32>) -> Result<(), AllocError>
    ensures ok { OnOk result (out.new.items ≡ out.old.items ++ some_invoke_octets invoke) }
    ensures err { OnErr result (out.new.items ≡ out.old.items) }
{
    match invoke {
        Some(invoke) => write_natural(out, INVOKE, u64::from(invoke)),
        None => Ok(()),
    }
}

#[tactic(auto, unfolding(crate::specs::Rejects::reason_octets, ber_values::specs::Writing::length_octets))]
fn put_reason(out: &mut Vec<u8>, kind: u8, code: u8) -> Result<(), AllocError>
    requires { kind ≤ 15 }
    ensures ok { OnOk result (out.new.items ≡ out.old.items ++ reason_octets kind code) }
    ensures err { OnErr result (out.new.items ≡ out.old.items) }
{
    out.extend_from_slice(&[FIRST_TAG + kind, 1, code])
}
