//! What a connect and an accept share: selectors, elements that may stand between those that they
//! name, and the user data at the end.
ghost use Rattle.std.specs.Prelude.{◌≡◌, ◌≢◌, ◌+◌, ◌-◌, ◌%◌, ◌<◌, ◌≤◌, ◌^◌, ◌++◌, ℕ, length};
ghost use Rattle.std.specs.Prelude.{drop, option_copied, IfSome, IfOk, OnOk, OnErr};
ghost use Rattle.ber_values.specs.Contents.{HasLength};
ghost use Rattle.ber_values.specs.Faults.{Gives};
ghost use Rattle.ber_values.specs.Stops.{Answers};
ghost use Rattle.ber_values.specs.Grammars.{taken};
ghost use Rattle.ber_values.specs.Readers.{taken_from};
ghost use Rattle.presentation_profile.specs.Others.{others, after_others, before_others};
ghost use Rattle.presentation_profile.specs.Others.{selector_element};
ghost use Rattle.ber_values.specs.Externals.{IsSpanWithin};
ghost use Rattle.presentation_profile.specs.UserData.{user_data};
ghost use Rattle.presentation_profile.specs.Written.{selector_element_octets};

use crate::user_data::take_user_data;
use ber_values::{
    BerFault, External, Stop, has_tag, octets_from, skip_parts, take_part, write_octets,
};
use std::alloc::{AllocError, Global};
use tpkt_cotp::Selector;

/// The place after the context-specific elements at the front of octets other than those that are
/// named. The first octet has the place `at`.
#[tactic(auto, unfolding(crate::specs::Others::others))]
pub(crate) fn skip_others(octets: &[u8], at: usize, named: &[u8]) -> Result<usize, BerFault>
    requires { at + length octets.now < 2 ^ 64 }
    ensures exact { Gives (λ next. taken tt next (drop (next - at) octets.now)) result
        ((others named.now).reading at octets.now) }
    ensures within { IfOk result (λ next. (at ≤ next) × (next ≤ at + length octets.now)) }
{
    skip_parts(octets, at, 0x80, 0xBF, named)
}

/// The selector of this tag at the front of octets, if there is one, and the place after it.
#[tactic(auto, unfolding(crate::specs::Others::selector_element, ber_values::specs::Parts::choose_in, ber_values::specs::Parts::part_in, ber_values::specs::Grammars::branch_in, ber_values::specs::Grammars::gives))]
pub(crate) fn take_selector(
    alloc: Global,
    octets: &[u8],
    at: usize,
    tag: u8,
) -> Result<(Option<Selector>, usize), Stop>
    requires single { tag % 32 ≢ 31 }
    requires placed { at + length octets.now < 2 ^ 64 }
    ensures exact { Answers (taken_from at octets.now) result
        ((selector_element tag).reading at octets.now) }
    ensures within { IfOk result (λ x. (at ≤ x.1) × (x.1 ≤ at + length octets.now)) }
{
    if !has_tag(octets, tag) {
        return Ok((None, at));
    }
    let part = take_part(octets, at, tag)?;
    let contents = part.selector()?;
    let selector = selector_of(alloc, contents)?;
    Ok((selector, part.head.next))
}

/// The selector of these octets, if there are any.
fn selector_of(alloc: Global, octets: Option<&[u8]>) -> Result<Option<Selector>, AllocError>
    requires { IfSome (option_copied octets) (λ octets. HasLength 1 32 octets) }
    ensures { IfOk result (λ selector. selector ≡ option_copied octets.entry) }
{
    match octets {
        Some(octets) => Ok(Some(Selector::new(Vec::from_slice(alloc, octets)?))),
        None => Ok(None),
    }
}

/// The user data between other elements, and the place after all these. They are of the context
/// with the id that is wanted, if one is.
#[tactic(auto, using(ber_values::proofs::Passed::drop_on), unfolding(crate::specs::Others::after_others, crate::specs::Others::before_others, ber_values::specs::Grammars::then_in, ber_values::specs::Grammars::map_in))]
pub(crate) fn take_last_data(
    octets: &[u8],
    at: usize,
    named: &[u8],
    wanted: Option<u32>,
) -> Result<(External, usize), BerFault>
    requires { at + length octets.now < 2 ^ 64 }
    ensures exact { Gives (taken_from at octets.now) result
        ((after_others named.now (before_others named.now (user_data wanted))).reading
        at octets.now) }
    ensures within { IfOk result (λ x. (at < x.1) × (x.1 ≤ at + length octets.now)) }
    ensures body { IfOk result (λ x. IsSpanWithin at x.1 x.0.body) }
{
    let next = skip_others(octets, at, named)?;
    let rest = octets_from(octets, at, next);
    let (user, after) = take_user_data(rest, next, wanted)?;
    let rest = octets_from(rest, next, after);
    let end = skip_others(rest, after, named)?;
    Ok((user, end))
}

/// How many octets [`put_selector`] appends.
pub(crate) fn selector_len(selector: &Option<Selector>) -> usize
    ensures value { (tag : ℕ) → result ≡ length (selector_element_octets tag selector.now) }
    ensures few { result ≤ 34 }
{
    match selector {
        Some(selector) => 2 + selector.octets().len(),
        None => 0,
    }
}

/// Appends a selector, if there is one.
pub(crate) fn put_selector(
    out: &mut Vec<u8>,
    tag: u8,
    selector: &Option<Selector>,
) -> Result<(), AllocError>
    requires { tag % 32 ≢ 31 }
    ensures ok { OnOk result (out.new.items ≡ out.old.items ++ selector_element_octets tag
        selector.now) }
    ensures err { OnErr result (out.new.items ≡ out.old.items) }
{
    match selector {
        Some(selector) => write_octets(out, tag, selector.octets()),
        None => Ok(()),
    }
}
