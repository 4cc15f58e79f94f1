//! PPDUs (ISO 8823-1, 8.2 and 8.4).
ghost use Rattle.std.specs.Prelude.{◌≡◌, ◌+◌, ◌<◌, ◌≤◌, ◌^◌, ◌++◌, length, IfOk};
ghost use Rattle.std.specs.Prelude.{OnOk, OnErr};
ghost use Rattle.std.specs.List.{slice_range};
ghost use Rattle.plain_text.specs.Extends.{Extends};
ghost use Rattle.ber_values.specs.declared.lengths.TheConstants.{MOST_BODY};
ghost use Rattle.ber_values.specs.Faults.{Gives};
ghost use Rattle.ber_values.specs.Stops.{Answers};
ghost use Rattle.ber_values.specs.Parts.{all_in};
ghost use Rattle.ber_values.specs.Readers.{IsReadBy, taken_from, taken_whole};
ghost use Rattle.presentation_profile.specs.Ppdus.{accept_or_connect, has_results, parameters};
ghost use Rattle.presentation_profile.specs.Ppdus.{mode, set_up_contents, ppdu, body_of};
ghost use Rattle.ber_values.specs.Externals.{IsSpanWithin};
ghost use Rattle.presentation_profile.specs.Written.{AreOffers, IsWritablePpdu};
ghost use Rattle.presentation_profile.specs.Written.{connect_ppdu_octets};
ghost use Rattle.presentation_profile.specs.Written.{accept_ppdu_octets, mode_octets};
ghost use Rattle.presentation_profile.specs.Written.{ppdu_front_octets};
ghost use Rattle.presentation_profile.specs.Written.{set_up_octets, ppdu_octets};

use crate::accept::{accept_from, accept_len, put_accept};
use crate::connect::{connect_from, connect_len, put_connect};
use crate::expected::{Expected, carry_id};
use crate::offers::{MOST_OFFERS, OFFERS, Offers};
use crate::others::skip_others;
use crate::results::{RESULTS, Results};
use crate::user_data::{USER_DATA, put_user_data, take_user_data};
use ber_values::{
    BerFault, Part, Span, Stop, has_tag, octets_from, or_undo, part_len, settle, take_end,
    take_part, write_head,
};
use std::alloc::{AllocError, Global};
use tpkt_cotp::Selector;

/// A presentation protocol data unit. A body is where its octets stand in the octets that were
/// read, and `id` is the context that it belongs to.
#[derive(Debug, Drop)]
pub enum Ppdu {
    /// CP: asks for a connection, and offers contexts.
    Connect {
        called: Option<Selector>,
        contexts: Offers,
        id: u32,
        body: Span,
    },
    /// CPA: accepts a connection, with a result for each context that was offered, in order.
    Accept {
        called: Option<Selector>,
        results: Results,
        id: u32,
        body: Span,
    },
    /// User data over a connection.
    Carry {
        id: u32,
        body: Span,
    },
}

/// The tag of a connect and of an accept.
const SET_UP: u8 = 0x31;

/// The tag of the mode.
const MODE: u8 = 0xA0;

/// The tag of the parameters of the normal mode.
const PARAMETERS: u8 = 0xA2;

/// The PPDU that the octets from `at` to `end` are (ISO 8823-1, CP-type, CPA-type, User-data), or
/// where they break a rule first, and which. Places count the octets of `tsdu`. One of the kind
/// that is expected has what is expected of it; of another kind it is read all the same.
pub fn read_ppdu(
    alloc: Global,
    tsdu: &[u8],
    at: usize,
    end: usize,
    expected: Expected,
) -> Result<Result<Ppdu, BerFault>, AllocError>
    requires start { at ≤ end }
    requires stop { end ≤ length tsdu.now }
    ensures exact { IfOk result (λ read. IsReadBy (ppdu expected)
        (taken_whole at (slice_range tsdu.now at end)) at (slice_range tsdu.now at end) read) }
    ensures body { IfOk result (λ read. IfOk read (λ p. IsSpanWithin at end (body_of p))) }
{
    ppdu_from(alloc, &tsdu[at..end], at, expected)
}

fn ppdu_from(
    alloc: Global,
    octets: &[u8],
    at: usize,
    expected: Expected,
) -> Result<Result<Ppdu, BerFault>, AllocError>
    requires { at + length octets.now < 2 ^ 64 }
    ensures exact { IfOk result
        (λ read. IsReadBy (ppdu expected) (taken_whole at octets.now) at octets.now read) }
    ensures body { IfOk result (λ read. IfOk read
        (λ p. IsSpanWithin at (at + length octets.now) (body_of p))) }
{
    settle(whole_ppdu(alloc, octets, at, expected))
}

/// The PPDU that octets are, of which the first has the place `at`.
#[tactic(auto, unfolding(crate::specs::Ppdus::ppdu, crate::specs::Ppdus::set_up, ber_values::specs::Parts::whole_in, ber_values::specs::Parts::part_in, ber_values::specs::Grammars::branch_in, ber_values::specs::Grammars::map_in))]
fn whole_ppdu(alloc: Global, octets: &[u8], at: usize, expected: Expected) -> Result<Ppdu, Stop>
    requires { at + length octets.now < 2 ^ 64 }
    ensures exact { Answers (taken_whole at octets.now) result
        ((ppdu expected).reading at octets.now) }
    ensures body { IfOk result (λ p. IsSpanWithin at (at + length octets.now) (body_of p)) }
{
    if has_tag(octets, USER_DATA) {
        let (user, next) = take_user_data(octets, at, carry_id(expected))?;
        take_end(octets_from(octets, at, next), next)?;
        return Ok(Ppdu::Carry {
            id: user.id,
            body: user.body,
        });
    }
    let part = take_part(octets, at, SET_UP)?;
    let ppdu = set_up_from(alloc, &part, expected)?;
    take_end(part.rest, part.head.next)?;
    Ok(ppdu)
}

/// The mode and the parameters that the contents of an element are.
#[tactic(auto, unfolding(crate::specs::Ppdus::set_up_contents, ber_values::specs::Parts::all_in, ber_values::specs::Grammars::branch_in, ber_values::specs::Grammars::then_in, ber_values::specs::Grammars::map_in))]
fn set_up_from(alloc: Global, part: &Part<'_>, expected: Expected) -> Result<Ppdu, Stop>
    requires { part.now.head.body + length part.now.contents.now < 2 ^ 64 }
    ensures exact { Answers (λ p. p) result
        ((set_up_contents expected).reading part.now.head part.now.contents.now) }
    ensures body { IfOk result (λ p. IsSpanWithin part.now.head.body
        (part.now.head.body + length part.now.contents.now) (body_of p)) }
{
    let at = part.head.body;
    if has_tag(part.contents, MODE) {
        let next = take_mode(part.contents, at)?;
        let rest = octets_from(part.contents, at, next);
        let (ppdu, end) = take_parameters(alloc, rest, next, expected)?;
        take_end(octets_from(rest, next, end), end)?;
        return Ok(ppdu);
    }
    let (ppdu, next) = take_parameters(alloc, part.contents, at, expected)?;
    let rest = octets_from(part.contents, at, next);
    let end = take_mode(rest, next)?;
    take_end(octets_from(rest, next, end), end)?;
    Ok(ppdu)
}

/// The place after the normal mode at the front of octets.
#[tactic(auto, unfolding(crate::specs::Ppdus::mode, ber_values::specs::Parts::part_in, ber_values::specs::Parts::all_in))]
fn take_mode(octets: &[u8], at: usize) -> Result<usize, BerFault>
    requires { at + length octets.now < 2 ^ 64 }
    ensures exact { Gives (λ next. taken_from at octets.now (tt, next)) result
        (mode.reading at octets.now) }
    ensures within { IfOk result (λ next. (at < next) × (next ≤ at + length octets.now)) }
{
    let part = take_part(octets, at, MODE)?;
    let value = take_part(part.contents, part.head.body, 0x80)?;
    value.fixed(&[1])?;
    take_end(value.rest, value.head.next)?;
    Ok(part.head.next)
}

/// The connect or accept in the parameters at the front of octets, and the place after them.
#[tactic(auto, unfolding(crate::specs::Ppdus::parameters, ber_values::specs::Parts::part_in))]
fn take_parameters(
    alloc: Global,
    octets: &[u8],
    at: usize,
    expected: Expected,
) -> Result<(Ppdu, usize), Stop>
    requires { at + length octets.now < 2 ^ 64 }
    ensures exact { Answers (taken_from at octets.now) result
        ((parameters expected).reading at octets.now) }
    ensures within { IfOk result (λ x. (at < x.1) × (x.1 ≤ at + length octets.now)) }
    ensures body { IfOk result (λ x. IsSpanWithin at x.1 (body_of x.0)) }
{
    let part = take_part(octets, at, PARAMETERS)?;
    let ppdu = parameters_from(alloc, &part, expected)?;
    Ok((ppdu, part.head.next))
}

/// The connect or accept that the contents of an element are.
#[tactic(auto, unfolding(ber_values::specs::Parts::all_in))]
fn parameters_from(alloc: Global, part: &Part<'_>, expected: Expected) -> Result<Ppdu, Stop>
    requires { part.now.head.body + length part.now.contents.now < 2 ^ 64 }
    ensures exact { Answers (λ p. p) result
        ((all_in (accept_or_connect expected)).reading part.now.head part.now.contents.now) }
    ensures body { IfOk result (λ p. IsSpanWithin part.now.head.body
        (part.now.head.body + length part.now.contents.now) (body_of p)) }
{
    if has_results(part.contents) {
        accept_from(alloc, part, expected)
    } else {
        connect_from(alloc, part, expected)
    }
}

/// Whether the first of offers and results in the contents of parameters are results.
fn has_results(octets: &[u8]) -> bool
    requires { length octets.now < 2 ^ 64 }
    ensures { result ≡ has_results octets.now }
{
    match skip_others(octets, 0, &[OFFERS, RESULTS]) {
        Ok(next) => has_tag(octets_from(octets, 0, next), RESULTS),
        Err(_) => false,
    }
}

/// Appends a PPDU with these octets as its body, at most [`MOST_BODY`] of them; the value's own
/// body isn't looked at. A connect calls from 00 00 00 01 and has 1 to 16 offers, each with BER,
/// which are written with BER alone; an accept has at most 16 results. After want of memory `out`
/// is as before.
pub fn write_ppdu(out: &mut Vec<u8>, ppdu: &Ppdu, body: &[u8]) -> Result<(), AllocError>
    requires writable { IsWritablePpdu ppdu.now }
    requires bounded { length body.now ≤ MOST_BODY }
    ensures ok { OnOk result (out.new.items ≡ out.old.items ++ ppdu_octets ppdu.now body.now) }
    ensures err { OnErr result (out.new.items ≡ out.old.items) }
{
    let mark = out.len();
    let done = put_ppdu(out, ppdu, body);
    or_undo(out, mark, done)
}

fn put_ppdu(out: &mut Vec<u8>, ppdu: &Ppdu, body: &[u8]) -> Result<(), AllocError>
    requires writable { IsWritablePpdu ppdu.now }
    requires bounded { length body.now ≤ MOST_BODY }
    ensures ok { OnOk result (out.new.items ≡ out.old.items ++ ppdu_octets ppdu.now body.now) }
    ensures err { OnErr result (Extends out.old.items out.new.items) }
{
    match ppdu {
        Ppdu::Connect {
            called,
            contexts,
            id,
            ..
        } => put_whole_connect(out, called, contexts, *id, body),
        Ppdu::Accept {
            called,
            results,
            id,
            ..
        } => put_whole_accept(out, called, results, *id, body),
        Ppdu::Carry { id, .. } => put_user_data(out, *id, body),
    }
}

fn put_whole_connect(
    out: &mut Vec<u8>,
    called: &Option<Selector>,
    contexts: &Offers,
    id: u32,
    body: &[u8],
) -> Result<(), AllocError>
    requires offered { AreOffers contexts.now }
    requires bounded { length body.now ≤ MOST_BODY }
    ensures ok { OnOk result (out.new.items
        ≡ out.old.items
        ++ set_up_octets (connect_ppdu_octets called.now contexts.now id body.now)) }
    ensures err { OnErr result (Extends out.old.items out.new.items) }
{
    put_front(out, connect_len(called, contexts, id, body))?;
    put_connect(out, called, contexts, id, body)?;
    Ok(())
}

fn put_whole_accept(
    out: &mut Vec<u8>,
    called: &Option<Selector>,
    results: &Results,
    id: u32,
    body: &[u8],
) -> Result<(), AllocError>
    requires few { length results.now ≤ MOST_OFFERS }
    requires bounded { length body.now ≤ MOST_BODY }
    ensures ok { OnOk result (out.new.items
        ≡ out.old.items ++ set_up_octets (accept_ppdu_octets called.now results.now id body.now)) }
    ensures err { OnErr result (Extends out.old.items out.new.items) }
{
    put_front(out, accept_len(called, results, id, body))?;
    put_accept(out, called, results, id, body)?;
    Ok(())
}

/// Appends what stands before parameters of so many octets.
fn put_front(out: &mut Vec<u8>, len: usize) -> Result<(), AllocError>
    requires { len ≤ 70000 }
    ensures ok { OnOk result (out.new.items ≡ out.old.items ++ ppdu_front_octets len) }
    ensures err { OnErr result (Extends out.old.items out.new.items) }
{
    write_head(out, SET_UP, 5 + part_len(len))?;
    put_mode(out)?;
    write_head(out, PARAMETERS, len)?;
    Ok(())
}

/// Appends the normal mode.
#[tactic(auto, unfolding(crate::specs::Written::mode_octets, ber_values::specs::Writing::length_octets))]
fn put_mode(out: &mut Vec<u8>) -> Result<(), AllocError>
    ensures ok { OnOk result (out.new.items ≡ out.old.items ++ mode_octets) }
    ensures err { OnErr result (out.new.items ≡ out.old.items) }
{
    out.extend_from_slice(&[MODE, 3, 0x80, 1, 1])
}
