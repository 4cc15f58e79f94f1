//! APDUs (ISO 8650-1, `ACSE-apdu`).
ghost use Rattle.std.specs.Prelude.{◌≡◌, ◌+◌, ◌^◌, ◌<◌, ◌≤◌, ◌++◌, length, IfOk, OnOk, OnErr};
ghost use Rattle.plain_text.specs.Extends.{Extends};
ghost use Rattle.std.specs.List.{slice_range};
ghost use Rattle.ber_values.specs.declared.lengths.TheConstants.{MOST_BODY};
ghost use Rattle.ber_values.specs.Readers.{IsReadBy, taken_from, taken_whole};
ghost use Rattle.ber_values.specs.Stops.{Answers};
ghost use Rattle.acse_assoc.specs.Apdus.{one_apdu, apdu};
ghost use Rattle.acse_assoc.specs.Seen.{IsApduBodyWithin};
ghost use Rattle.acse_assoc.specs.Writing.{apdu_octets, short_octets, IsWritableApdu};

use crate::expected::Expected;
use crate::numbers::{AARE, AARQ, ABRT, RLRE, RLRQ};
use crate::request::{AssociateRequest, put_request, request_from};
use crate::response::{AssociateResponse, put_response, response_from};
use ber_values::{BerFault, Stop, has_tag, octets_from, or_undo, settle, take_end, take_part};
use std::alloc::{AllocError, Global};

/// An application protocol data unit. What RLRQ, RLRE and ABRT hold isn't looked at.
#[derive(Debug, Drop, PartialEq, Eq)]
pub enum Apdu {
    /// Asks for an association.
    Aarq(AssociateRequest),
    /// Answers it.
    Aare(AssociateResponse),
    /// Asks for the release.
    Rlrq,
    /// Answers it.
    Rlre,
    /// Ends the association at once.
    Abrt,
}

/// The APDU that the octets from `at` up to `end` are, where it has what is expected of it. A body
/// is where its octets stand in the slice.
pub fn read_apdu(
    alloc: Global,
    bytes: &[u8],
    at: usize,
    end: usize,
    expected: Expected,
) -> Result<Result<Apdu, BerFault>, AllocError>
    requires start { at ≤ end }
    requires stop { end ≤ length bytes.now }
    ensures exact { IfOk result (λ read. IsReadBy (apdu expected)
        (taken_whole at (slice_range bytes.now at end)) at (slice_range bytes.now at end) read) }
    ensures body { IfOk result (λ read. IfOk read (λ v. IsApduBodyWithin at end v)) }
{
    settle(apdu_from(alloc, &bytes[at..end], at, expected))
}

/// The APDU that octets are, of which the first has the place `at`.
#[tactic(auto, unfolding(crate::specs::Apdus::apdu, ber_values::specs::Parts::whole_in))]
fn apdu_from(alloc: Global, octets: &[u8], at: usize, expected: Expected) -> Result<Apdu, Stop>
    requires { at + length octets.now < 2 ^ 64 }
    ensures exact { Answers (taken_whole at octets.now) result
        ((apdu expected).reading at octets.now) }
    ensures body { IfOk result (λ v. IsApduBodyWithin at (at + length octets.now) v) }
{
    let (apdu, next) = take_apdu(alloc, octets, at, expected)?;
    take_end(octets_from(octets, at, next), next)?;
    Ok(apdu)
}

/// The APDU at the front of octets, and the place after it.
#[tactic(auto, unfolding(crate::specs::Apdus::one_apdu, ber_values::specs::Parts::choose_in, ber_values::specs::Parts::part_in, ber_values::specs::Parts::contents_as, ber_values::specs::Grammars::branch_in, ber_values::specs::Leaves::raw))]
fn take_apdu(
    alloc: Global,
    octets: &[u8],
    at: usize,
    expected: Expected,
) -> Result<(Apdu, usize), Stop>
    requires { at + length octets.now < 2 ^ 64 }
    ensures exact { Answers (taken_from at octets.now) result
        ((one_apdu expected).reading at octets.now) }
    ensures within { IfOk result (λ x. (at < x.1) × (x.1 ≤ at + length octets.now)) }
    ensures body { IfOk result (λ x. IsApduBodyWithin at (at + length octets.now) x.0) }
{
    if has_tag(octets, AARQ) {
        let part = take_part(octets, at, AARQ)?;
        let request = request_from(alloc, &part, expected)?;
        return Ok((Apdu::Aarq(request), part.head.next));
    }
    if has_tag(octets, AARE) {
        let part = take_part(octets, at, AARE)?;
        let response = response_from(&part, expected)?;
        return Ok((Apdu::Aare(response), part.head.next));
    }
    if has_tag(octets, RLRQ) {
        let part = take_part(octets, at, RLRQ)?;
        return Ok((Apdu::Rlrq, part.head.next));
    }
    if has_tag(octets, RLRE) {
        let part = take_part(octets, at, RLRE)?;
        return Ok((Apdu::Rlre, part.head.next));
    }
    let part = take_part(octets, at, ABRT)?;
    Ok((Apdu::Abrt, part.head.next))
}

/// Appends an APDU with this body, of at most [`MOST_BODY`] octets; the place of its own body
/// doesn't count. RLRQ, RLRE and ABRT have none. After want of memory `out` is as before.
pub fn write_apdu(out: &mut Vec<u8>, apdu: &Apdu, body: &[u8]) -> Result<(), AllocError>
    requires writable { IsWritableApdu apdu.now }
    requires bounded { length body.now ≤ MOST_BODY }
    ensures ok { OnOk result (out.new.items ≡ out.old.items ++ apdu_octets apdu.now body.now) }
    ensures err { OnErr result (out.new.items ≡ out.old.items) }
{
    let mark = out.len();
    let done = put_apdu(out, apdu, body);
    or_undo(out, mark, done)
}

fn put_apdu(out: &mut Vec<u8>, apdu: &Apdu, body: &[u8]) -> Result<(), AllocError>
    requires { length body.now ≤ MOST_BODY }
    ensures ok { OnOk result (out.new.items ≡ out.old.items ++ apdu_octets apdu.now body.now) }
    ensures err { OnErr result (Extends out.old.items out.new.items) }
{
    match apdu {
        Apdu::Aarq(request) => put_request(out, request, body),
        Apdu::Aare(response) => put_response(out, response, body),
        Apdu::Rlrq => put_short(out, RLRQ),
        Apdu::Rlre => put_short(out, RLRE),
        Apdu::Abrt => put_short(out, ABRT),
    }
}

/// Appends an APDU whose one element is 0: a normal release, or an abort by the user.
fn put_short(out: &mut Vec<u8>, tag: u8) -> Result<(), AllocError>
    ensures ok { OnOk result (out.new.items ≡ out.old.items ++ short_octets tag) }
    ensures err { OnErr result (Extends out.old.items out.new.items) }
{
    out.extend_from_slice(&[tag, 3, 0x80, 1, 0])
}
