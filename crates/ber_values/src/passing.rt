//! Elements that are passed over.
ghost use Rattle.std.specs.Prelude.{◌≡◌, ◌+◌, ◌-◌, ◌^◌, ◌<◌, ◌≤◌, length, drop, IfOk};
ghost use Rattle.ber_values.specs.Faults.{Gives};
ghost use Rattle.ber_values.specs.Grammars.{taken, first_is};
ghost use Rattle.ber_values.specs.Passing.{is_other, skip, pass_in};

use crate::fault::BerFault;
use crate::head::head_at;
use crate::part::octets_from;

/// The place after the element at the front of octets, whose first octet has the place `at`. Its
/// tag and its contents may be any.
#[tactic(auto, unfolding(crate::specs::Passing::skip, crate::specs::Heads::element_by, crate::specs::Heads::head_in))]
pub fn skip_part(octets: &[u8], at: usize) -> Result<usize, BerFault>
    requires { at + length octets.now < 2 ^ 64 }
    ensures exact { Gives (λ next. taken tt next (drop (next - at) octets.now)) result
        (skip.reading at octets.now) }
    ensures within { IfOk result (λ next. (at < next) × (next ≤ at + length octets.now)) }
{
    let head = head_at(octets, at)?;
    Ok(head.next)
}

/// Whether the first octet is a tag from `low` to `high` other than those that are named.
fn is_other(octets: &[u8], low: u8, high: u8, named: &[u8]) -> bool
    ensures { result ≡ first_is (is_other low high named.now) octets.now }
{
    match octets {
        [first, ..] => low <= *first && *first <= high && !named.contains(first),
        [] => false,
    }
}

/// The place after the elements at the front of octets whose tags are from `low` to `high`, other
/// than those that are `named`, and have sound heads. The first octet has the place `at`.
pub fn skip_parts(
    octets: &[u8],
    at: usize,
    low: u8,
    high: u8,
    named: &[u8],
) -> Result<usize, BerFault>
    requires { at + length octets.now < 2 ^ 64 }
    ensures exact { Gives (λ next. taken tt next (drop (next - at) octets.now)) result
        ((pass_in (is_other low high named.now)).reading at octets.now) }
    ensures within { IfOk result (λ next. (at ≤ next) × (next ≤ at + length octets.now)) }
{
    let mut place = at;
    let mut rest = octets;
    while is_other(rest, low, high, named) {
        let next = skip_part(rest, place)?;
        rest = octets_from(rest, place, next);
        place = next;
    }
    Ok(place)
}
