//! Elements taken from the front of octets, by their tags.
ghost use Rattle.std.specs.Prelude.{◌≡◌, ◌≢◌, ◌+◌, ◌-◌, ◌/◌, ◌%◌, ◌==◌, false, ◌^◌, ◌<◌, ◌≤◌};
ghost use Rattle.std.specs.Prelude.{length, drop, IfOk};
ghost use Rattle.ber_values.specs.Faults.{Gives};
ghost use Rattle.ber_values.specs.Grammars.{first_is, has_tag, is_context};
ghost use Rattle.ber_values.specs.Parts.{parted_in, sized_part_in, end_in};
ghost use Rattle.ber_values.specs.PartOf.{parted_of, IsPartWithin, IsPartBehind};

use crate::extent::{MOST_CHAINED, read_extent};
use crate::fault::BerFault;
use crate::faults::{short, surplus};
use crate::head::Head;
use crate::tag::make_tag;

/// Tags of this class are particular to their container.
const CONTEXT_CLASS: u8 = 2;

/// An element that stood at the front of octets: its head, its contents, and the octets after it.
#[derive(Clone, Copy, Debug)]
pub struct Part<'a> {
    pub head: Head,
    pub contents: &'a [u8],
    pub rest: &'a [u8],
}

/// The element of this tag of one octet at the front of octets, of which the first has the place
/// `at`. Where no octet is left it is missed; where another tag stands there, that is refused.
pub fn take_part(octets: &[u8], at: usize, tag: u8) -> Result<Part<'_>, BerFault>
    requires single { tag % 32 ≢ 31 }
    requires placed { at + length octets.now < 2 ^ 64 }
    ensures exact { Gives parted_of result (parted_in tag at octets.now) }
    ensures within { IfOk result (λ part. IsPartWithin tag at octets.now (parted_of part)) }
    ensures after { IfOk result (λ part. part.rest.now ≡ drop (part.head.next - at) octets.now) }
{
    take_tagged(octets, at, tag)
}

#[tactic(auto, unfolding(crate::specs::Parts::parted_in))]
fn take_tagged(octets: &[u8], at: usize, tag: u8) -> Result<Part<'_>, BerFault>
    requires { at + length octets.now < 2 ^ 64 }
    ensures exact { Gives parted_of result (parted_in tag at octets.now) }
    ensures within { IfOk result (λ part. IsPartWithin tag at octets.now (parted_of part)) }
{
    match octets {
        [] => Err(short(at)),
        [first, rest @ ..] if *first == tag => take_sized(rest, at, tag),
        _ => Err(surplus(at)),
    }
}

/// The element of a tag that was taken, from its length on.
#[tactic(auto, unfolding(crate::specs::Parts::sized_part_in, crate::specs::Heads::extent_of))]
fn take_sized(octets: &[u8], at: usize, tag: u8) -> Result<Part<'_>, BerFault>
    requires { at + 1 + length octets.now < 2 ^ 64 }
    ensures exact { Gives parted_of result (sized_part_in tag at octets.now) }
    ensures within { IfOk result (λ part. IsPartBehind tag at octets.now (parted_of part)) }
{
    let constructed = tag / 32 % 2 == 1;
    let extent = read_extent(octets, at + 1, constructed, MOST_CHAINED)?;
    let tag = make_tag(tag, u32::from(tag % 32), false);
    let head = Head {
        class: tag.class,
        constructed: tag.constructed,
        number: tag.number,
        long_form: tag.long_form,
        length_at: at + 1,
        body: extent.body,
        end: extent.end,
        next: extent.next,
    };
    Ok(Part {
        head,
        contents: extent.contents,
        rest: extent.rest,
    })
}

/// Whether the first octet is this tag.
pub fn has_tag(octets: &[u8], tag: u8) -> bool
    ensures { result ≡ has_tag tag octets.now }
{
    matches!(octets, [first, ..] if *first == tag)
}

/// Whether the first octet is of a tag of the context class.
pub fn is_context(octets: &[u8]) -> bool
    ensures { result ≡ first_is is_context octets.now }
{
    matches!(octets, [first, ..] if *first / 64 == CONTEXT_CLASS)
}

/// The octets have come to their end.
pub fn take_end(octets: &[u8], at: usize) -> Result<(), BerFault>
    ensures { Gives (λ u. tt) result (end_in at octets.now) }
{
    match octets {
        [] => Ok(()),
        _ => Err(surplus(at)),
    }
}

/// The octets from the place `next` on, where the first one has the place `at`.
pub fn octets_from(octets: &[u8], at: usize, next: usize) -> &[u8]
    requires order { at ≤ next }
    requires within { next ≤ at + length octets.now }
    ensures { result.now ≡ drop (next - at) octets.now }
{
    octets.split_at(next - at).1
}
