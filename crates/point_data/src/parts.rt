//! Parts of data: the number, the octets or the member that a datum has.
ghost use Rattle.std.specs.Prelude.{◌≡◌, ℕ, Some, IfSome, IfNone};
ghost use Rattle.std.specs.List.{slice_get};
ghost use Rattle.std.specs.Option.{option_copied};
ghost use Rattle.point_data.specs.Parts.{HasComponent, structure_members, member_in, integer_part};
ghost use Rattle.point_data.specs.Parts.{unsigned_part};
ghost use Rattle.point_data.specs.Parts.{real_part, octet_part};
ghost use Rattle.point_data.specs.Shown.{shown_as, shown_component};
ghost use Rattle.tase_points.specs.Sample.{Sample};

use mms_data::{DataKind, MmsData};
use tase_points::Component;

/// The number of an integer.
pub(crate) fn integer_of(datum: &MmsData) -> Option<i64>
    ensures { result ≡ integer_part datum.now }
{
    match datum.kind() {
        DataKind::Integer(number) => Some(*number),
        _ => None,
    }
}

/// The number of an unsigned integer.
pub(crate) fn unsigned_of(datum: &MmsData) -> Option<u64>
    ensures { result ≡ unsigned_part datum.now }
{
    match datum.kind() {
        DataKind::Unsigned(number) => Some(*number),
        _ => None,
    }
}

/// The octets of a real value.
pub(crate) fn real_of(datum: &MmsData) -> Option<[u8; 4]>
    ensures { result ≡ real_part datum.now }
{
    match datum.kind() {
        DataKind::Real(octets) => Some(*octets),
        _ => None,
    }
}

/// The octet of a string of eight bits.
pub(crate) fn octet_of(datum: &MmsData) -> Option<u8>
    ensures { result ≡ octet_part datum.now }
{
    match datum.kind() {
        DataKind::Bits(bits) => match bits.octets() {
            [octet] if bits.count() == 8 => Some(*octet),
            _ => None,
        },
        _ => None,
    }
}

/// Where a component stands in a layout.
fn place_of(layout: &[Component], component: Component) -> Option<usize>
    ensures found { IfSome result (λ i. slice_get layout.now i ≡ Some component) }
    ensures absent { IfNone result (¬ HasComponent layout.now component) }
{
    for (place, own) in layout.iter().enumerate() {
        if own.is_same(component) {
            return Some(place);
        }
    }
    None
}

/// The member of a structure at a place.
fn member_of(value: &MmsData, place: usize) -> Option<&MmsData>
    ensures { option_copied result ≡ slice_get (structure_members value.now) place }
{
    match value.kind() {
        DataKind::Structure(members) => members.get(place),
        _ => None,
    }
}

/// The datum at a place of a layout: one component stands bare, several are members of a structure.
fn member<'a>(value: &'a MmsData, layout: &[Component], place: usize) -> Option<&'a MmsData>
    ensures { option_copied result ≡ member_in layout.now value.now place }
{
    if layout.len() == 1 {
        Some(value)
    } else {
        member_of(value, place)
    }
}

/// The datum that stands for a component.
pub(crate) fn part<'a>(
    value: &'a MmsData,
    layout: &[Component],
    component: Component,
) -> Option<&'a MmsData>
    ensures shown { IfSome result
        (λ d. (v : Sample) (cov : ℕ) → shown_as v cov layout.now ≡ value.now
        → d.now ≡ shown_component v cov component) }
    ensures missed { IfNone result
        ((v : Sample) (cov : ℕ) → shown_as v cov layout.now ≡ value.now
        → ¬ HasComponent layout.now component) }
    ensures carried { IfSome result (λ _. HasComponent layout.now component) }
{
    member(value, layout, place_of(layout, component)?)
}
