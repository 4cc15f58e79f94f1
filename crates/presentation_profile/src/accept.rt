//! The parameters of an accept (ISO 8823-1, CPA-type).
ghost use Rattle.std.specs.Prelude.{◌≡◌, ◌+◌, ◌<◌, ◌≤◌, ◌^◌, ◌++◌, length, IfOk};
ghost use Rattle.std.specs.Prelude.{OnOk, OnErr};
ghost use Rattle.plain_text.specs.Extends.{Extends};
ghost use Rattle.ber_values.specs.declared.lengths.TheConstants.{MOST_BODY};
ghost use Rattle.ber_values.specs.Stops.{Answers};
ghost use Rattle.ber_values.specs.Parts.{all_in};
ghost use Rattle.ber_values.specs.Readers.{taken_from};
ghost use Rattle.presentation_profile.specs.Others.{after_others, selector_element};
ghost use Rattle.presentation_profile.specs.Ppdus.{accept_named, accept};
ghost use Rattle.presentation_profile.specs.Ppdus.{body_of};
ghost use Rattle.ber_values.specs.Externals.{IsSpanWithin};
ghost use Rattle.presentation_profile.specs.Written.{accept_ppdu_octets};

use crate::expected::{Expected, accept_id, are_judged};
use crate::offers::MOST_OFFERS;
use crate::others::{put_selector, selector_len, skip_others, take_last_data, take_selector};
use crate::ppdu::Ppdu;
use crate::results::{RESULTS, Results, put_results, results_len, take_results};
use crate::user_data::{put_user_data, user_len};
use ber_values::{Part, Stop, octets_from, take_end};
use std::alloc::{AllocError, Global};
use tpkt_cotp::Selector;

/// The tag of the selector that responds.
const RESPONDING: u8 = 0x83;

/// The elements that an accept names, before its user data.
const NAMED: [u8; 2] = [RESPONDING, RESULTS];

/// The accept that the contents of an element are, which has what is expected of it.
#[tactic(auto, using(ber_values::proofs::Passed::drop_on), unfolding(crate::specs::Ppdus::accept, crate::specs::Others::after_others, ber_values::specs::Parts::all_in, ber_values::specs::Grammars::then_in, ber_values::specs::Grammars::map_in))]
pub(crate) fn accept_from(alloc: Global, part: &Part<'_>, expected: Expected) -> Result<Ppdu, Stop>
    requires { part.now.head.body + length part.now.contents.now < 2 ^ 64 }
    ensures exact { Answers (λ p. p) result
        ((all_in (accept expected)).reading part.now.head part.now.contents.now) }
    ensures body { IfOk result (λ p. IsSpanWithin part.now.head.body
        (part.now.head.body + length part.now.contents.now) (body_of p)) }
{
    let (called, at) = take_responding(alloc, part.contents, part.head.body)?;
    let rest = octets_from(part.contents, part.head.body, at);
    let next = skip_others(rest, at, &NAMED)?;
    let rest = octets_from(rest, at, next);
    let (results, at) = take_results(alloc, rest, next, are_judged(expected))?;
    let rest = octets_from(rest, next, at);
    let (user, end) = take_last_data(rest, at, &NAMED, accept_id(expected))?;
    take_end(octets_from(rest, at, end), end)?;
    Ok(Ppdu::Accept {
        called,
        results,
        id: user.id,
        body: user.body,
    })
}

/// The selector that responds, if there is one, which others may precede, and the place after it.
#[tactic(auto, using(ber_values::proofs::Passed::drop_on), unfolding(crate::specs::Others::after_others, ber_values::specs::Grammars::then_in))]
fn take_responding(
    alloc: Global,
    octets: &[u8],
    at: usize,
) -> Result<(Option<Selector>, usize), Stop>
    requires { at + length octets.now < 2 ^ 64 }
    ensures exact { Answers (taken_from at octets.now) result
        ((after_others accept_named (selector_element 131)).reading at octets.now) }
    ensures within { IfOk result (λ x. (at ≤ x.1) × (x.1 ≤ at + length octets.now)) }
{
    let next = skip_others(octets, at, &NAMED)?;
    let rest = octets_from(octets, at, next);
    take_selector(alloc, rest, next, RESPONDING)
}

/// How many octets [`put_accept`] appends.
pub(crate) fn accept_len(
    called: &Option<Selector>,
    results: &Results,
    id: u32,
    body: &[u8],
) -> usize
    requires few { length results.now ≤ MOST_OFFERS }
    requires bounded { length body.now ≤ MOST_BODY }
    ensures value { result ≡ length (accept_ppdu_octets called.now results.now id body.now) }
    ensures few { result ≤ 70000 }
{
    selector_len(called) + results_len(results) + user_len(id, body)
}

/// Appends the parameters of an accept.
#[tactic(auto, using(crate::proofs::Sizes::extended), unfolding(crate::specs::Written::accept_ppdu_octets))]
pub(crate) fn put_accept(
    out: &mut Vec<u8>,
    called: &Option<Selector>,
    results: &Results,
    id: u32,
    body: &[u8],
) -> Result<(), AllocError>
    requires few { length results.now ≤ MOST_OFFERS }
    requires bounded { length body.now ≤ MOST_BODY }
    ensures ok { OnOk result
        (out.new.items ≡ out.old.items ++ accept_ppdu_octets called.now results.now id body.now) }
    ensures err { OnErr result (Extends out.old.items out.new.items) }
{
    put_selector(out, RESPONDING, called)?;
    put_results(out, results)?;
    put_user_data(out, id, body)?;
    Ok(())
}
