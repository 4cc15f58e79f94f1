//! The tags and lengths of BER (ISO 8825-1, 8.1.2 and 8.1.3).
ghost use Rattle.std.specs.Prelude.{◌≡◌, ◌+◌, ◌<◌, ◌≤◌, ◌^◌, length, IfOk};
ghost use Rattle.ber_values.specs.Faults.{Gives};
ghost use Rattle.ber_values.specs.Reading.{IsAfter};
ghost use Rattle.ber_values.specs.Tags.{tag_with, tag_in, second_tag_octet_in, third_tag_octet_in};
ghost use Rattle.ber_values.specs.Tags.{length_in, more_length_in};

use crate::fault::{BerFault, Why};
use crate::faults::{fault_at, short, surplus};
use crate::number::unsigned_number;

/// A tag, and whether it has further octets.
#[derive(Clone, Copy, Debug, PartialEq, Eq)]
pub struct Tag {
    /// 0 universal, 1 application, 2 context-specific, 3 private.
    pub class: u8,
    pub constructed: bool,
    pub number: u32,
    /// Whether the tag has further octets, so that it is no tag of one octet.
    pub long_form: bool,
}

pub(crate) fn make_tag(first: u8, number: u32, long_form: bool) -> Tag
    ensures { result ≡ tag_with first number long_form }
{
    Tag {
        class: first / 64,
        constructed: first / 32 % 2 == 1,
        number,
        long_form,
    }
}

/// The tag at the front, the place after it and the octets from there on. `at` is the place of
/// the first octet.
#[tactic(auto, unfolding(crate::specs::Tags::tag_in))]
pub fn read_tag(octets: &[u8], at: usize) -> Result<(Tag, usize, &[u8]), BerFault>
    requires { at + length octets.now < 2 ^ 64 }
    ensures exact { Gives (λ x. record { value = x.0; next = x.1; rest = x.2.now }) result
        (tag_in at octets.now) }
    ensures places { IfOk result (λ x. IsAfter at octets.now x.1 x.2.now) }
{
    match octets {
        [] => Err(short(at)),
        [first, rest @ ..] if *first % 32 == 31 => read_second(*first, rest, at),
        [first, rest @ ..] => {
            let tag = make_tag(*first, u32::from(*first % 32), false);
            Ok((tag, at + 1, rest))
        }
    }
}

/// The rest of a tag that has further octets.
fn read_second(first: u8, octets: &[u8], at: usize) -> Result<(Tag, usize, &[u8]), BerFault>
    requires { at + 1 + length octets.now < 2 ^ 64 }
    ensures exact { Gives (λ x. record { value = x.0; next = x.1; rest = x.2.now }) result
        (second_tag_octet_in at first octets.now) }
    ensures places { IfOk result (λ x. IsAfter (at + 1) octets.now x.1 x.2.now) }
{
    match octets {
        [] => Err(short(at + 1)),
        [low, rest @ ..] if *low < 128 => {
            let tag = make_tag(first, u32::from(*low), true);
            Ok((tag, at + 2, rest))
        }
        [high, rest @ ..] => read_third(first, *high, rest, at),
    }
}

/// The rest of a tag that has two further octets, of which `high` is the first.
fn read_third(
    first: u8,
    high: u8,
    octets: &[u8],
    at: usize,
) -> Result<(Tag, usize, &[u8]), BerFault>
    requires fits { at + 2 + length octets.now < 2 ^ 64 }
    requires goes_on { 128 ≤ high }
    ensures exact { Gives (λ x. record { value = x.0; next = x.1; rest = x.2.now }) result
        (third_tag_octet_in at first high octets.now) }
    ensures places { IfOk result (λ x. IsAfter (at + 2) octets.now x.1 x.2.now) }
{
    match octets {
        [] => Err(short(at + 2)),
        [low, rest @ ..] if *low < 128 => {
            let number = (u32::from(high) - 128) * 128 + u32::from(*low);
            Ok((make_tag(first, number, true), at + 3, rest))
        }
        _ => Err(surplus(at)),
    }
}

/// The length at the front, the place after it and the octets from there on.
#[tactic(auto, unfolding(crate::specs::Tags::length_in))]
pub(crate) fn read_length(octets: &[u8], at: usize) -> Result<(usize, usize, &[u8]), BerFault>
    requires { at + length octets.now < 2 ^ 64 }
    ensures exact { Gives (λ x. record { value = x.0; next = x.1; rest = x.2.now }) result
        (length_in at octets.now) }
    ensures bounded { IfOk result (λ x. x.0 < 2 ^ 32) }
    ensures places { IfOk result (λ x. IsAfter at octets.now x.1 x.2.now) }
{
    match octets {
        [] => Err(short(at)),
        [first, rest @ ..] if *first < 128 => Ok((usize::from(*first), at + 1, rest)),
        [first, rest @ ..] if *first != 128 && *first <= 132 => {
            read_more(usize::from(*first) - 128, rest, at)
        }
        _ => Err(fault_at(at, Why::Length)),
    }
}

/// The number in the `count` octets after the first length octet.
fn read_more(count: usize, octets: &[u8], at: usize) -> Result<(usize, usize, &[u8]), BerFault>
    requires fits { at + 1 + length octets.now < 2 ^ 64 }
    requires few { count ≤ 4 }
    ensures exact { Gives (λ x. record { value = x.0; next = x.1; rest = x.2.now }) result
        (more_length_in at count octets.now) }
    ensures bounded { IfOk result (λ x. x.0 < 2 ^ 32) }
    ensures places { IfOk result
        (λ x. (at < x.1) × (x.1 + length x.2.now ≡ at + 1 + length octets.now)) }
{
    if octets.len() < count {
        return Err(short(at + 1 + octets.len()));
    }
    let (more, rest) = octets.split_at(count);
    Ok((unsigned_number(more) as usize, at + 1 + count, rest))
}
