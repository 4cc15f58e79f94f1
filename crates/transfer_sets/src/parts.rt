//! The components of a wish as data.
ghost use Rattle.std.specs.Prelude.{◌≡◌};
ghost use Rattle.std.specs.Option.{option_copied};
ghost use Rattle.point_data.specs.Parts.{structure_members};
ghost use Rattle.transfer_sets.specs.Components.{integer_at, boolean_at, conditions_at, text_at};
ghost use Rattle.transfer_sets.specs.Components.{is_scope_at, set_in, numbers_in, switches_in};
ghost use Rattle.transfer_sets.specs.Components.{is_shaped};
ghost use Rattle.transfer_sets.specs.Components.{ranged_number, ranged_code, ranged_in};

use crate::wish::NUMBER_LIMIT;
use ber_values::Visible;
use mms_data::{DataKind, MmsData};

/// The integers of a wish, as they stand in its data.
#[derive(Clone, Copy, Debug)]
pub struct Numbers {
    pub start: i64,
    pub interval: i64,
    pub tle: i64,
    pub buffer: i64,
    pub integrity: i64,
    pub event_code: i64,
}

/// The integers of a wish, each in its range.
#[derive(Clone, Copy, Debug)]
pub struct Ranged {
    pub start: u32,
    pub interval: u32,
    pub tle: u32,
    pub buffer: u32,
    pub integrity: u32,
    pub event_code: i16,
}

/// The booleans of a wish.
#[derive(Clone, Copy, Debug)]
pub struct Switches {
    pub block: bool,
    pub critical: bool,
    pub rbe: bool,
    pub all_changes: bool,
    pub status: bool,
}

/// The members of a structure; none of other data.
pub(crate) fn members_of(value: &MmsData) -> &[MmsData]
    ensures { result.now ≡ structure_members value.now }
{
    match value.kind() {
        DataKind::Structure(members) => members.as_slice(),
        _ => &[],
    }
}

/// The members of the name of a data set, which stands first; none where it isn't a structure.
pub(crate) fn set_of(members: &[MmsData]) -> &[MmsData]
    ensures { result.now ≡ set_in members.now }
{
    match members.get(0) {
        Some(member) => members_of(member),
        None => &[],
    }
}

/// Whether the member at a place is an integer or an unsigned integer.
pub(crate) fn is_scope_at(members: &[MmsData], place: usize) -> bool
    ensures { result ≡ is_scope_at members.now place }
{
    match members.get(place) {
        Some(member) => matches!(member.kind(), DataKind::Integer(_) | DataKind::Unsigned(_)),
        None => false,
    }
}

/// The text at a place.
pub(crate) fn text_at(members: &[MmsData], place: usize) -> Option<&Visible>
    ensures { option_copied result ≡ text_at members.now place }
{
    match members.get(place)?.kind() {
        DataKind::Text(text) => Some(text),
        _ => None,
    }
}

fn integer_at(members: &[MmsData], place: usize) -> Option<i64>
    ensures { result ≡ integer_at members.now place }
{
    match members.get(place)?.kind() {
        DataKind::Integer(number) => Some(*number),
        _ => None,
    }
}

fn boolean_at(members: &[MmsData], place: usize) -> Option<bool>
    ensures { result ≡ boolean_at members.now place }
{
    match members.get(place)?.kind() {
        DataKind::Boolean(boolean) => Some(*boolean),
        _ => None,
    }
}

/// The first five of the bits at a place, as the sum of the conditions; there may be more.
pub(crate) fn conditions_at(members: &[MmsData], place: usize) -> Option<u8>
    ensures { result ≡ conditions_at members.now place }
{
    match members.get(place)?.kind() {
        DataKind::Bits(bits) => match bits.octets() {
            [octet, ..] if bits.count() >= 5 => Some(*octet / 8 * 8),
            _ => None,
        },
        _ => None,
    }
}

/// The integers of a wish.
pub(crate) fn numbers_of(members: &[MmsData]) -> Option<Numbers>
    ensures { result ≡ numbers_in members.now }
{
    Some(Numbers {
        start: integer_at(members, 1)?,
        interval: integer_at(members, 2)?,
        tle: integer_at(members, 3)?,
        buffer: integer_at(members, 4)?,
        integrity: integer_at(members, 5)?,
        event_code: integer_at(members, 12)?,
    })
}

/// The booleans of a wish.
pub(crate) fn switches_of(members: &[MmsData]) -> Option<Switches>
    ensures { result ≡ switches_in members.now }
{
    Some(Switches {
        block: boolean_at(members, 7)?,
        critical: boolean_at(members, 8)?,
        rbe: boolean_at(members, 9)?,
        all_changes: boolean_at(members, 10)?,
        status: boolean_at(members, 11)?,
    })
}

fn ranged_number(number: i64) -> Option<u32>
    ensures { result ≡ ranged_number number }
{
    if 0 <= number && number <= i64::from(NUMBER_LIMIT) {
        Some(number as u32)
    } else {
        None
    }
}

fn ranged_code(number: i64) -> Option<i16>
    ensures { result ≡ ranged_code number }
{
    if -32768 <= number && number <= 32767 {
        Some(number as i16)
    } else {
        None
    }
}

/// Whether there are thirteen members, of which the first has three, and of these the first is a
/// number.
pub(crate) fn is_shaped(members: &[MmsData]) -> bool
    ensures { result ≡ is_shaped members.now }
{
    let set = set_of(members);
    members.len() == 13 && set.len() == 3 && is_scope_at(set, 0)
}

/// The integers of a wish, where each is in its range.
pub(crate) fn ranged_of(numbers: Numbers) -> Option<Ranged>
    ensures { result ≡ ranged_in numbers }
{
    Some(Ranged {
        start: ranged_number(numbers.start)?,
        interval: ranged_number(numbers.interval)?,
        tle: ranged_number(numbers.tle)?,
        buffer: ranged_number(numbers.buffer)?,
        integrity: ranged_number(numbers.integrity)?,
        event_code: ranged_code(numbers.event_code)?,
    })
}
