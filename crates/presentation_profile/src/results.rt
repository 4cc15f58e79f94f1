//! What became of the contexts that were offered (ISO 8823-1,
//! Presentation-context-definition-result-list).
ghost use Rattle.std.specs.Prelude.{◌≡◌, ◌+◌, ◌<◌, ◌≤◌, ◌^◌, ◌++◌, length, flat_map, IfOk};
ghost use Rattle.std.specs.Prelude.{◌≢◌, ◌-◌, ◌%◌, false, drop, option_copied, OnOk, OnErr};
ghost use Rattle.ber_values.specs.Grammars.{taken};
ghost use Rattle.ber_values.specs.Parts.{maybe_in};
ghost use Rattle.ber_values.specs.Leaves.{oid};
ghost use Rattle.plain_text.specs.Extends.{Extends};
ghost use Rattle.ber_values.specs.Faults.{Gives};
ghost use Rattle.ber_values.specs.Stops.{Answers};
ghost use Rattle.ber_values.specs.Readers.{taken_from};
ghost use Rattle.ber_values.specs.Lists.{more_in};
ghost use Rattle.ber_values.specs.Parts.{contents_where};
ghost use Rattle.ber_values.specs.Leaves.{octet};
ghost use Rattle.presentation_profile.specs.Results.{result_contents, one_result, results};
ghost use Rattle.presentation_profile.specs.Results.{may_be, any_results, accepting_results};
ghost use Rattle.presentation_profile.specs.Written.{accepted_octets, refused_octets};
ghost use Rattle.presentation_profile.specs.Written.{result_octets, results_octets};

use crate::offers::{BER, MOST_OFFERS};
use ber_values::{
    BerFault, Part, Stop, has_tag, octets_from, part_len, skip_parts, take_end, take_part,
    value_fault, write_head,
};
use item_list::ItemList;
use std::alloc::{AllocError, Global};

/// A result for each context that was offered, in order: 0 where it is accepted.
pub type Results = ItemList<u8>;

/// The tag of the list of results.
pub(crate) const RESULTS: u8 = 0xA5;

/// The tag of a result.
const RESULT: u8 = 0x80;

/// The tag of the name of a transfer syntax in a result.
const NAME: u8 = 0x81;

/// The results at the front of octets, of which the first has the place `at`, and the place after
/// them. The first two have to accept where they are judged.
#[tactic(auto, unfolding(crate::specs::Results::results, ber_values::specs::Parts::part_in, ber_values::specs::Grammars::branch_in))]
pub(crate) fn take_results(
    alloc: Global,
    octets: &[u8],
    at: usize,
    judged: bool,
) -> Result<(Results, usize), Stop>
    requires { at + length octets.now < 2 ^ 64 }
    ensures exact { Answers (taken_from at octets.now) result
        ((results judged).reading at octets.now) }
    ensures within { IfOk result (λ x. (at < x.1) × (x.1 ≤ at + length octets.now)) }
{
    let part = take_part(octets, at, RESULTS)?;
    let results = if judged {
        accepting_in(alloc, &part)?
    } else {
        results_in(alloc, &part)?
    };
    Ok((results, part.head.next))
}

/// The results that the contents of an element are.
#[tactic(auto, unfolding(ber_values::specs::Lists::list_in))]
fn results_in(alloc: Global, part: &Part<'_>) -> Result<Results, Stop>
    requires { part.now.head.body + length part.now.contents.now < 2 ^ 64 }
    ensures { Answers (λ rs. rs) result
        (any_results.reading part.now.head part.now.contents.now) }
{
    more_results(Results::new(alloc), part.contents, part.head.body)
}

/// The results that the contents of an element are, of which the first two accept.
fn accepting_in(alloc: Global, part: &Part<'_>) -> Result<Results, Stop>
    requires { part.now.head.body + length part.now.contents.now < 2 ^ 64 }
    ensures { Answers (λ rs. rs) result
        (accepting_results.reading part.now.head part.now.contents.now) }
{
    let (one, at) = take_result(part.contents, part.head.body, true)?;
    let rest = octets_from(part.contents, part.head.body, at);
    let (two, next) = take_result(rest, at, true)?;
    let rest = octets_from(rest, at, next);
    let mut results = Results::new(alloc);
    results.push(one)?;
    results.push(two)?;
    more_results(results, rest, next)
}

/// These results, and those that octets are.
fn more_results(results: Results, octets: &[u8], at: usize) -> Result<Results, Stop>
    requires { at + length octets.now < 2 ^ 64 }
    ensures { Answers (λ rs. rs) result
        (more_in (one_result false) 0 (length octets.now) results at octets.now) }
{
    let mut results = results;
    let mut at = at;
    let mut rest = octets;
    while !rest.is_empty() {
        let (one, next) = take_result(rest, at, false)?;
        results.push(one)?;
        rest = octets_from(rest, at, next);
        at = next;
    }
    Ok(results)
}

/// The result at the front of octets, which has to accept where it is judged, and the place after
/// it.
#[tactic(auto, unfolding(crate::specs::Results::one_result, ber_values::specs::Parts::part_in))]
fn take_result(octets: &[u8], at: usize, judged: bool) -> Result<(u8, usize), BerFault>
    requires { at + length octets.now < 2 ^ 64 }
    ensures exact { Gives (taken_from at octets.now) result
        ((one_result judged).reading at octets.now) }
    ensures within { IfOk result (λ x. (at < x.1) × (x.1 ≤ at + length octets.now)) }
{
    let part = take_part(octets, at, 0x30)?;
    let result = result_from(&part, judged)?;
    Ok((result, part.head.next))
}

/// The result in this element.
#[tactic(auto, unfolding(crate::specs::Results::result_contents, ber_values::specs::Parts::part_in, ber_values::specs::Parts::all_in, ber_values::specs::Grammars::then_in, ber_values::specs::Grammars::map_in))]
fn result_from(part: &Part<'_>, judged: bool) -> Result<u8, BerFault>
    requires { part.now.head.body + length part.now.contents.now < 2 ^ 64 }
    ensures { result ≡ (result_contents judged).reading part.now.head part.now.contents.now }
{
    let value_part = take_part(part.contents, part.head.body, RESULT)?;
    let value = judged_octet(&value_part, judged)?;
    let (_name, next) = maybe_name(value_part.rest, value_part.head.next, NAME)?;
    let rest = octets_from(value_part.rest, value_part.head.next, next);
    let end = skip_parts(rest, next, 0, 0xFF, &[])?;
    take_end(octets_from(rest, next, end), end)?;
    Ok(value)
}

/// The octet that alone stands in this element: 0, where it is judged.
#[tactic(auto, unfolding(ber_values::specs::Parts::contents_where))]
fn judged_octet(part: &Part<'_>, judged: bool) -> Result<u8, BerFault>
    requires { part.now.head.body + length part.now.contents.now < 2 ^ 64 }
    ensures { result
        ≡ (contents_where (may_be judged) octet).reading part.now.head part.now.contents.now }
{
    let value = part.octet()?;
    if judged && value != 0 {
        return Err(value_fault(&part.head));
    }
    Ok(value)
}

/// How many octets [`put_results`] appends.
pub(crate) fn results_len(results: &Results) -> usize
    requires { length results.now ≤ MOST_OFFERS }
    ensures value { result ≡ length (results_octets results.now) }
    ensures few { result ≤ 200 }
{
    part_len(each_len(results.as_slice()))
}

/// The length of the contents of a list of results.
fn each_len(results: &[u8]) -> usize
    requires { length results.now ≤ MOST_OFFERS }
    ensures value { result ≡ length (flat_map result_octets results.now) }
    ensures few { result ≤ 144 }
{
    let mut len = 0;
    for one in results {
        len += result_len(*one);
    }
    len
}

#[tactic(auto, unfolding(crate::specs::Written::accepted_octets, crate::specs::Written::refused_octets, ber_values::specs::Writing::length_octets))]
fn result_len(one: u8) -> usize
    ensures value { result ≡ length (result_octets one) }
    ensures few { result ≤ 9 }
{
    if one == 0 { 9 } else { 5 }
}

/// Appends results.
pub(crate) fn put_results(out: &mut Vec<u8>, results: &Results) -> Result<(), AllocError>
    requires { length results.now ≤ MOST_OFFERS }
    ensures ok { OnOk result (out.new.items ≡ out.old.items ++ results_octets results.now) }
    ensures err { OnErr result (Extends out.old.items out.new.items) }
{
    write_head(out, RESULTS, each_len(results.as_slice()))?;
    put_each(out, results.as_slice())?;
    Ok(())
}

/// Appends results, one after another.
#[tactic(auto, using(crate::proofs::Sizes::extended))]
fn put_each(out: &mut Vec<u8>, results: &[u8]) -> Result<(), AllocError>
    ensures ok { OnOk result
        (out.new.items ≡ out.old.items ++ flat_map result_octets results.now) }
    ensures err { OnErr result (Extends out.old.items out.new.items) }
{
    for one in results {
        put_result(out, *one)?;
    }
    Ok(())
}

fn put_result(out: &mut Vec<u8>, one: u8) -> Result<(), AllocError>
    ensures ok { OnOk result (out.new.items ≡ out.old.items ++ result_octets one) }
    ensures err { OnErr result (out.new.items ≡ out.old.items) }
{
    if one == 0 {
        put_accepted(out)
    } else {
        put_refused(out, one)
    }
}

/// Appends that a context is accepted, with BER.
#[tactic(auto, unfolding(crate::specs::Written::accepted_octets, ber_values::specs::Writing::length_octets))]
fn put_accepted(out: &mut Vec<u8>) -> Result<(), AllocError>
    ensures ok { OnOk result (out.new.items ≡ out.old.items ++ accepted_octets) }
    ensures err { OnErr result (out.new.items ≡ out.old.items) }
{
    out.extend_from_slice(&[0x30, 7, RESULT, 1, 0, NAME, 2, BER[0], BER[1]])
}

/// Appends that a context isn't accepted.
#[tactic(auto, unfolding(crate::specs::Written::refused_octets, ber_values::specs::Writing::length_octets))]
fn put_refused(out: &mut Vec<u8>, one: u8) -> Result<(), AllocError>
    ensures ok { OnOk result (out.new.items ≡ out.old.items ++ refused_octets one) }
    ensures err { OnErr result (out.new.items ≡ out.old.items) }
{
    out.extend_from_slice(&[0x30, 3, RESULT, 1, one])
}

/// The object identifier of this tag at the front of octets, if there is one, and the place after
/// it.
#[tactic(auto, unfolding(ber_values::specs::Parts::maybe_in, ber_values::specs::Parts::part_in, ber_values::specs::Grammars::branch_in, ber_values::specs::Grammars::map_in, ber_values::specs::Grammars::gives))]
fn maybe_name(octets: &[u8], at: usize, tag: u8) -> Result<(Option<&[u8]>, usize), BerFault>
    requires single { tag % 32 ≢ 31 }
    requires placed { at + length octets.now < 2 ^ 64 }
    ensures exact { Gives (λ x. taken (option_copied x.0) x.1 (drop (x.1 - at) octets.now)) result
        ((maybe_in tag oid).reading at octets.now) }
    ensures within { IfOk result (λ x. (at ≤ x.1) × (x.1 ≤ at + length octets.now)) }
{
    if !has_tag(octets, tag) {
        return Ok((None, at));
    }
    let part = take_part(octets, at, tag)?;
    let name = part.oid_octets()?;
    Ok((Some(name), part.head.next))
}
