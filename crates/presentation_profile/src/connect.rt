//! The parameters of a connect (ISO 8823-1, CP-type).
ghost use Rattle.std.specs.Prelude.{◌≡◌, ◌+◌, ◌<◌, ◌≤◌, ◌^◌, ◌++◌, length, IfOk};
ghost use Rattle.std.specs.Prelude.{OnOk, OnErr};
ghost use Rattle.plain_text.specs.Extends.{Extends};
ghost use Rattle.ber_values.specs.declared.lengths.TheConstants.{MOST_BODY};
ghost use Rattle.ber_values.specs.Stops.{Answers};
ghost use Rattle.ber_values.specs.Parts.{all_in};
ghost use Rattle.ber_values.specs.Readers.{taken_from};
ghost use Rattle.presentation_profile.specs.Ppdus.{connect_selectors, connect};
ghost use Rattle.presentation_profile.specs.Ppdus.{body_of};
ghost use Rattle.ber_values.specs.Externals.{IsSpanWithin};
ghost use Rattle.presentation_profile.specs.Written.{AreOffers, calling_octets};
ghost use Rattle.presentation_profile.specs.Written.{connect_ppdu_octets};

use crate::expected::{Expected, connect_id};
use crate::offers::{OFFERS, Offers, offers_len, put_offers, take_offers};
use crate::others::{put_selector, selector_len, skip_others, take_last_data, take_selector};
use crate::ppdu::Ppdu;
use crate::user_data::{put_user_data, user_len};
use ber_values::{Part, Stop, octets_from, take_end};
use std::alloc::{AllocError, Global};
use tpkt_cotp::Selector;

/// The tag of the calling selector.
const CALLING: u8 = 0x81;

/// The tag of the called selector.
const CALLED: u8 = 0x82;

/// The elements that a connect names, before its user data.
const NAMED: [u8; 3] = [CALLING, CALLED, OFFERS];

/// The connect that the contents of an element are, which has what is expected of it.
#[tactic(auto, using(ber_values::proofs::Passed::drop_on), unfolding(crate::specs::Ppdus::connect, crate::specs::Others::after_others, ber_values::specs::Parts::all_in, ber_values::specs::Grammars::then_in, ber_values::specs::Grammars::map_in))]
pub(crate) fn connect_from(alloc: Global, part: &Part<'_>, expected: Expected) -> Result<Ppdu, Stop>
    requires { part.now.head.body + length part.now.contents.now < 2 ^ 64 }
    ensures exact { Answers (λ p. p) result
        ((all_in (connect expected)).reading part.now.head part.now.contents.now) }
    ensures body { IfOk result (λ p. IsSpanWithin part.now.head.body
        (part.now.head.body + length part.now.contents.now) (body_of p)) }
{
    let (called, at) = take_selectors(alloc, part.contents, part.head.body)?;
    let rest = octets_from(part.contents, part.head.body, at);
    let next = skip_others(rest, at, &NAMED)?;
    let rest = octets_from(rest, at, next);
    let (contexts, at) = take_offers(alloc, rest, next)?;
    let rest = octets_from(rest, next, at);
    let id = connect_id(expected, contexts.as_slice());
    let (user, end) = take_last_data(rest, at, &NAMED, id)?;
    take_end(octets_from(rest, at, end), end)?;
    Ok(Ppdu::Connect {
        called,
        contexts,
        id: user.id,
        body: user.body,
    })
}

/// The called selector, if there is one, of the selectors at the front of octets, and the place
/// after them.
#[tactic(auto, using(ber_values::proofs::Passed::drop_on), unfolding(crate::specs::Ppdus::connect_selectors, crate::specs::Others::after_others, ber_values::specs::Grammars::then_in))]
fn take_selectors(
    alloc: Global,
    octets: &[u8],
    at: usize,
) -> Result<(Option<Selector>, usize), Stop>
    requires { at + length octets.now < 2 ^ 64 }
    ensures exact { Answers (taken_from at octets.now) result
        (connect_selectors.reading at octets.now) }
    ensures within { IfOk result (λ x. (at ≤ x.1) × (x.1 ≤ at + length octets.now)) }
{
    let next = skip_others(octets, at, &NAMED)?;
    let rest = octets_from(octets, at, next);
    let (_calling, after) = take_selector(alloc, rest, next, CALLING)?;
    let rest = octets_from(rest, next, after);
    let next = skip_others(rest, after, &NAMED)?;
    let rest = octets_from(rest, after, next);
    take_selector(alloc, rest, next, CALLED)
}

/// How many octets [`put_connect`] appends.
pub(crate) fn connect_len(
    called: &Option<Selector>,
    contexts: &Offers,
    id: u32,
    body: &[u8],
) -> usize
    requires offered { AreOffers contexts.now }
    requires bounded { length body.now ≤ MOST_BODY }
    ensures value { result ≡ length (connect_ppdu_octets called.now contexts.now id body.now) }
    ensures few { result ≤ 70000 }
{
    6 + selector_len(called) + offers_len(contexts) + user_len(id, body)
}

/// Appends the parameters of a connect.
#[tactic(auto, using(crate::proofs::Sizes::extended), unfolding(crate::specs::Written::connect_ppdu_octets))]
pub(crate) fn put_connect(
    out: &mut Vec<u8>,
    called: &Option<Selector>,
    contexts: &Offers,
    id: u32,
    body: &[u8],
) -> Result<(), AllocError>
    requires offered { AreOffers contexts.now }
    requires bounded { length body.now ≤ MOST_BODY }
    ensures ok { OnOk result
        (out.new.items ≡ out.old.items ++ connect_ppdu_octets called.now contexts.now id body.now) }
    ensures err { OnErr result (Extends out.old.items out.new.items) }
{
    put_calling(out)?;
    put_selector(out, CALLED, called)?;
    put_offers(out, contexts)?;
    put_user_data(out, id, body)?;
    Ok(())
}

/// Appends the calling selector, 00 00 00 01.
#[tactic(auto, unfolding(crate::specs::Written::calling_octets, ber_values::specs::Writing::length_octets))]
fn put_calling(out: &mut Vec<u8>) -> Result<(), AllocError>
    ensures ok { OnOk result (out.new.items ≡ out.old.items ++ calling_octets) }
    ensures err { OnErr result (out.new.items ≡ out.old.items) }
{
    out.extend_from_slice(&[CALLING, 4, 0, 0, 0, 1])
}
