//! Whether a datum is what is shown of a value.
ghost use Rattle.std.specs.Prelude.{◌≡◌, ◌≤◌, ◌↔◌, IsTrue, map};
ghost use Rattle.mms_data.specs.Datum.{integer, unsigned, real, structure, data_of};
ghost use Rattle.tase_points.specs.declared.value.TheConstants.{STATE_LIMIT, FLAGS_LIMIT};
ghost use Rattle.tase_points.specs.Points.{state_of};
ghost use Rattle.point_data.specs.Shown.{octet_bits, shown_body, shown_component, shown_as};

use crate::parts::{integer_of, octet_of, real_of, unsigned_of};
use mms_data::{DataKind, DataList, MmsData};
use tase_points::{Body, Component, PointValue};

/// Whether a datum is a value in the components of a layout.
pub(crate) fn is_shown(
    datum: &MmsData,
    value: &PointValue,
    cov: u16,
    components: &[Component],
) -> bool
    ensures { IsTrue result ↔ (shown_as value.now cov components.now ≡ datum.now) }
{
    match components {
        [component] => is_component(datum, value, cov, *component),
        _ => is_structure(datum, value, cov, components),
    }
}

/// Whether a datum is the structure of the components of a value.
fn is_structure(datum: &MmsData, value: &PointValue, cov: u16, components: &[Component]) -> bool
    ensures { IsTrue result
        ↔ (structure (data_of (map (shown_component value.now cov) components.now)) ≡ datum.now) }
{
    match datum.kind() {
        DataKind::Structure(members) => are_components(members, value, cov, components),
        _ => false,
    }
}

/// Whether data are the components of a value, one after another.
fn are_components(
    members: &DataList,
    value: &PointValue,
    cov: u16,
    components: &[Component],
) -> bool
    ensures { IsTrue result ↔ (map (shown_component value.now cov) components.now ≡ members.now) }
{
    if members.len() != components.len() {
        return false;
    }
    for (place, component) in components.iter().enumerate() {
        match members.get(place) {
            Some(member) if is_component(member, value, cov, *component) => {}
            _ => return false,
        }
    }
    true
}

/// Whether a datum is one component of a value.
fn is_component(datum: &MmsData, value: &PointValue, cov: u16, component: Component) -> bool
    ensures { IsTrue result ↔ (shown_component value.now cov component ≡ datum.now) }
{
    match component {
        Component::Value => is_body(datum, value.body(), value.flags()),
        Component::Time => is_integer(datum, i64::from(value.seconds())),
        Component::Millis => is_integer(datum, i64::from(value.millis())),
        Component::Flags => is_octet(datum, value.flags()),
        Component::Cov => is_unsigned(datum, u64::from(cov)),
    }
}

/// Whether a datum is a body; of a state with its flags.
fn is_body(datum: &MmsData, body: Body, flags: u8) -> bool
    requires state { state_of body ≤ STATE_LIMIT }
    requires flags { flags ≤ FLAGS_LIMIT }
    ensures { IsTrue result ↔ (shown_body body flags ≡ datum.now) }
{
    match body {
        Body::State(state) => is_octet(datum, state * 64 + flags),
        Body::Discrete(discrete) => is_integer(datum, i64::from(discrete)),
        Body::Real(real) => is_real(datum, real),
    }
}

/// Whether a datum is this integer.
fn is_integer(datum: &MmsData, wanted: i64) -> bool
    ensures { IsTrue result ↔ (integer wanted ≡ datum.now) }
{
    match integer_of(datum) {
        Some(number) => number == wanted,
        None => false,
    }
}

/// Whether a datum is this unsigned integer.
fn is_unsigned(datum: &MmsData, wanted: u64) -> bool
    ensures { IsTrue result ↔ (unsigned wanted ≡ datum.now) }
{
    match unsigned_of(datum) {
        Some(number) => number == wanted,
        None => false,
    }
}

/// Whether a datum is this octet as eight bits.
fn is_octet(datum: &MmsData, wanted: u8) -> bool
    ensures { IsTrue result ↔ (octet_bits wanted ≡ datum.now) }
{
    match octet_of(datum) {
        Some(octet) => octet == wanted,
        None => false,
    }
}

/// Whether a datum is the real value of these octets.
fn is_real(datum: &MmsData, wanted: [u8; 4]) -> bool
    ensures { IsTrue result ↔ (real wanted ≡ datum.now) }
{
    match real_of(datum) {
        Some(octets) => octets == wanted,
        None => false,
    }
}
