//! Elements of the context class whose numbers rise, as those of a sequence do.
ghost use Rattle.std.specs.Prelude.{◌≡◌, ◌+◌, ◌-◌, ◌^◌, ◌<◌, ◌≤◌, length, drop, IfOk, IfSome};
ghost use Rattle.std.specs.Prelude.{OnErr};
ghost use Rattle.ber_values.specs.Faults.{Gives};
ghost use Rattle.ber_values.specs.Grammars.{taken};
ghost use Rattle.acse_assoc.specs.Rising.{is_tag_numbered, may_pass, rising_in, PassesNext};

use ber_values::{BerFault, Tag, is_context, octets_from, read_tag, skip_part};

/// Where elements go on: the least number that may follow, and the octets that are left, of which
/// the first has the place `at`.
#[derive(Clone, Copy)]
pub(crate) struct Left<'a> {
    pub(crate) least: u32,
    pub(crate) at: usize,
    pub(crate) octets: &'a [u8],
}

/// Whether this is the tag of the element of a number.
fn is_named(number: u32, tag: &Tag) -> bool
    ensures { result ≡ is_tag_numbered number tag.now }
{
    tag.constructed && !tag.long_form && tag.number == number
}

/// Whether an element with this tag may be passed over before the one of a number.
fn may_pass(number: u32, least: u32, tag: &Tag) -> bool
    ensures { result ≡ may_pass number least tag.now }
{
    least <= tag.number && tag.number <= number && !is_named(number, tag)
}

/// Passes over the element at the front, if it may be: the least number that may follow it, and
/// the place after it.
#[tactic(auto, unfolding(crate::specs::Rising::rising_within, crate::specs::Rising::by_tag, ber_values::specs::Grammars::branch_in, ber_values::specs::Grammars::then_in, ber_values::specs::Grammars::gives))]
fn pass_one(
    octets: &[u8],
    at: usize,
    number: u32,
    least: u32,
) -> Result<Option<(u32, usize)>, BerFault>
    requires placed { at + length octets.now < 2 ^ 64 }
    requires small { number < 2 ^ 16 }
    ensures exact { PassesNext number least at octets.now result }
    ensures within { IfOk result (λ passed. IfSome passed
        (λ x. (at < x.1) × (x.1 ≤ at + length octets.now))) }
    ensures some { OnErr result (0 < length octets.now) }
{
    if !is_context(octets) {
        return Ok(None);
    }
    let (tag, _, _) = read_tag(octets, at)?;
    if !may_pass(number, least, &tag) {
        return Ok(None);
    }
    let next = skip_part(octets, at)?;
    Ok(Some((tag.number + 1, next)))
}

/// Passes over the elements whose numbers rise from `from` up to the element of a number.
pub(crate) fn pass_rising(
    octets: &[u8],
    at: usize,
    number: u32,
    from: u32,
) -> Result<Left<'_>, BerFault>
    requires placed { at + length octets.now < 2 ^ 64 }
    requires small { number < 2 ^ 16 }
    ensures exact { Gives (λ left. taken left.least left.at left.octets.now) result
        ((rising_in number from).reading at octets.now) }
    ensures within { IfOk result
        (λ left. (at ≤ left.at) × (left.at + length left.octets.now ≡ at + length octets.now)) }
{
    let mut left = Left {
        least: from,
        at,
        octets,
    };
    loop {
        match pass_one(left.octets, left.at, number, left.least)? {
            None => return Ok(left),
            Some((least, next)) => {
                left = Left {
                    least,
                    at: next,
                    octets: octets_from(left.octets, left.at, next),
                };
            }
        }
    }
}
