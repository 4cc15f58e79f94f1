//! What stands behind a tag (ISO 8825-1, 8.1.3 to 8.1.5): a length and as many contents octets, or
//! contents that are ended by octets of their own.
ghost use Rattle.std.specs.Prelude.{◌≡◌, ◌+◌, ◌-◌, ◌≤◌, ◌<◌, ◌^◌, length, drop, IfOk};
ghost use Rattle.ber_values.specs.Faults.{Gives};
ghost use Rattle.ber_values.specs.Grammars.{taken, first_is, passed_in};
ghost use Rattle.ber_values.specs.Extents.{definite, closing, is_element, closed, is_indefinite};
ghost use Rattle.ber_values.specs.Heads.{extent_within, element_by, head_by, IsHeadWithin};
ghost use Rattle.ber_values.specs.ExtentOf.{extent_seen, IsExtentWithin};

use crate::fault::{BerFault, Why};
use crate::faults::{fault_at, short, surplus};
use crate::head::Head;
use crate::part::octets_from;
use crate::tag::{read_length, read_tag};

/// How many values that end themselves may stand in a chain, each a direct element of the one
/// before.
pub const MOST_CHAINED: usize = 16;

// Definitions cite this limit, so that it stands here as a number too.
const _: () = prove!(MOST_CHAINED == 16);

/// Contents that stood behind a tag, their places, and the octets after them.
#[derive(Clone, Copy, Debug)]
pub(crate) struct Extent<'a> {
    pub(crate) body: usize,
    pub(crate) end: usize,
    pub(crate) next: usize,
    pub(crate) contents: &'a [u8],
    pub(crate) rest: &'a [u8],
}

/// What stands behind a tag that is constructed or not. The first octet has the place `at`. At most
/// `room` values that end themselves may stand in a chain.
#[cycle(extents)]
pub(crate) fn read_extent(
    octets: &[u8],
    at: usize,
    constructed: bool,
    room: usize,
) -> Result<Extent<'_>, BerFault>
    requires { at + length octets.now < 2 ^ 64 }
    ensures exact { Gives extent_seen result
        ((extent_within room constructed).reading at octets.now) }
    ensures within { IfOk result (λ extent.
        IsExtentWithin constructed at octets.now (extent_seen extent)) }
{
    if room > 0 && is_indefinite(octets, constructed) {
        read_closed(octets_from(octets, at, at + 1), at + 1, room - 1)
    } else {
        read_definite(octets, at)
    }
}

/// Whether contents that end themselves stand behind a tag that is constructed or not.
fn is_indefinite(octets: &[u8], constructed: bool) -> bool
    ensures { result ≡ is_indefinite constructed octets.now }
{
    constructed && matches!(octets, [128, ..])
}

/// Contents with a length.
#[tactic(auto, unfolding(crate::specs::Extents::definite))]
fn read_definite(octets: &[u8], at: usize) -> Result<Extent<'_>, BerFault>
    requires { at + length octets.now < 2 ^ 64 }
    ensures exact { Gives extent_seen result (definite.reading at octets.now) }
    ensures within { IfOk result (λ extent. (at < extent.body)
        × (extent.end ≡ extent.body + length extent.contents.now)
        × (extent.next ≡ extent.end)
        × (extent.next + length extent.rest.now ≡ at + length octets.now)
        × (length extent.contents.now < 2 ^ 32)) }
{
    let (length, body, rest) = read_length(octets, at)?;
    if rest.len() < length {
        return Err(fault_at(at, Why::Length));
    }
    let (contents, rest) = rest.split_at(length);
    Ok(Extent {
        body,
        end: body + length,
        next: body + length,
        contents,
        rest,
    })
}

/// Elements, and the end of contents behind them.
#[cycle(extents)]
fn read_closed(octets: &[u8], at: usize, room: usize) -> Result<Extent<'_>, BerFault>
    requires { at + length octets.now < 2 ^ 64 }
    ensures exact { Gives extent_seen result
        ((closed (element_by (extent_within room))).reading at octets.now) }
    ensures within { IfOk result (λ extent. (extent.body ≡ at)
        × (extent.end ≡ extent.body + length extent.contents.now)
        × (extent.next ≡ extent.end + 2)
        × (extent.next + length extent.rest.now ≡ at + length octets.now)) }
{
    let end = pass_elements(octets, at, room)?;
    let (contents, closing) = octets.split_at(end - at);
    let rest = take_closing(closing, end)?;
    Ok(Extent {
        body: at,
        end,
        next: end + 2,
        contents,
        rest,
    })
}

/// The octets behind the end of contents at the front.
#[tactic(auto, unfolding(crate::specs::Extents::closing, crate::specs::Extents::this_octet_in, crate::specs::Grammars::then_in))]
fn take_closing(octets: &[u8], at: usize) -> Result<&[u8], BerFault>
    requires { at + length octets.now < 2 ^ 64 }
    ensures exact { Gives (λ rest. taken tt (at + 2) rest.now) result
        (closing.reading at octets.now) }
    ensures within { IfOk result (λ rest. length rest.now + 2 ≡ length octets.now) }
{
    match octets {
        [] => Err(short(at)),
        [0] => Err(short(at + 1)),
        [0, 0, rest @ ..] => Ok(rest),
        [0, ..] => Err(fault_at(at + 1, Why::Length)),
        _ => Err(surplus(at)),
    }
}

/// Whether octets begin with an element, and not with the end of contents.
fn begins_element(octets: &[u8]) -> bool
    ensures { result ≡ first_is is_element octets.now }
{
    match octets {
        [first, ..] => *first != 0,
        [] => false,
    }
}

/// The place after the elements at the front, up to the end of contents.
#[cycle(extents)]
fn pass_elements(octets: &[u8], at: usize, room: usize) -> Result<usize, BerFault>
    requires { at + length octets.now < 2 ^ 64 }
    ensures exact { Gives (λ next. taken tt next (drop (next - at) octets.now)) result
        ((passed_in (element_by (extent_within room)) is_element).reading at octets.now) }
    ensures within { IfOk result (λ next. (at ≤ next) × (next ≤ at + length octets.now)) }
{
    let mut place = at;
    let mut rest = octets;
    while begins_element(rest) {
        let head = head_within(rest, place, room)?;
        rest = octets_from(rest, place, head.next);
        place = head.next;
    }
    Ok(place)
}

/// The head at the front of octets, of which the first has the place `at`. At most `room` values
/// that end themselves may stand in a chain.
#[cycle(extents)]
#[tactic(auto, unfolding(crate::specs::Heads::head_by))]
pub(crate) fn head_within(octets: &[u8], at: usize, room: usize) -> Result<Head, BerFault>
    requires { at + length octets.now < 2 ^ 64 }
    ensures exact { result ≡ head_by (extent_within room) at octets.now }
    ensures within { IfOk result (λ head. IsHeadWithin at (at + length octets.now) head) }
{
    let (tag, length_at, rest) = read_tag(octets, at)?;
    let extent = read_extent(rest, length_at, tag.constructed, room)?;
    Ok(Head {
        class: tag.class,
        constructed: tag.constructed,
        number: tag.number,
        long_form: tag.long_form,
        length_at,
        body: extent.body,
        end: extent.end,
        next: extent.next,
    })
}
