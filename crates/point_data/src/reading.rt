//! Values of points from data.
ghost use Rattle.std.specs.Prelude.{◌≡◌, ◌≢◌, ℕ, ℤ, ◌+◌, ◌*◌, ◌<◌, ◌≤◌, pos, IfSome, IfNone};
ghost use Rattle.mms_data.specs.Datum.{integer, unsigned};
ghost use Rattle.tase_points.specs.declared.layout.TheConstants.{COV_MODULUS};
ghost use Rattle.tase_points.specs.declared.value.TheConstants.{STATE_LIMIT, FLAGS_LIMIT};
ghost use Rattle.tase_points.specs.Points.{kind_of, state_of, zero_body};
ghost use Rattle.tase_points.specs.Sample.{Sample};
ghost use Rattle.tase_points.specs.Values.{IsSample};
ghost use Rattle.point_data.specs.Bare.{FitsBody, IsBare};
ghost use Rattle.point_data.specs.Parts.{HasComponent, CarriesFlags};
ghost use Rattle.point_data.specs.Shown.{octet_bits, shown_body, shown_component, shown_as};

use crate::checking::is_shown;
use crate::parts::{integer_of, octet_of, part, real_of, unsigned_of};
use mms_data::MmsData;
use tase_points::{
    Body, COV_MODULUS, Component, Kind, Layout, MILLIS_LIMIT, PointValue, SECONDS_LIMIT,
};

/// The value of a point of this kind that a datum shows in a layout. What the layout doesn't carry
/// is zero.
/// None where no value of the kind, with no count of changes, is shown so: where a component has
/// another
/// kind of data or lies outside its range, or where the flags stand twice and differ.
pub fn from_data(value: &MmsData, kind: Kind, layout: &Layout) -> Option<PointValue>
    ensures shown { IfSome result
        (λ v. (cov : ℕ) × (cov < COV_MODULUS) × (shown_as v cov layout.now ≡ value.now)) }
    ensures kind { IfSome result (λ v. kind_of v.body ≡ kind) }
    ensures bare { IfSome result (IsBare layout.now) }
    ensures none { IfNone result
        ((v : Sample) (cov : ℕ) → IsSample v → FitsBody v.body → kind_of v.body ≡ kind
        → cov < COV_MODULUS → shown_as v cov layout.now ≢ value.now) }
{
    let components = layout.as_slice();
    let candidate = PointValue::new(
        body_in(value, components, kind),
        flags_in(value, components, kind),
        number_in(value, components, Component::Time, SECONDS_LIMIT),
        number_in(
            value,
            components,
            Component::Millis,
            u32::from(MILLIS_LIMIT),
        ) as u16,
    );
    let cov = count_in(value, components);
    if is_shown(value, &candidate, cov, components) {
        Some(candidate)
    } else {
        None
    }
}

/// The body, where the layout has it and the datum shows it.
fn body_in(value: &MmsData, components: &[Component], kind: Kind) -> Body
    ensures kind { kind_of result ≡ kind }
    ensures state { state_of result ≤ STATE_LIMIT }
    ensures shown { HasComponent components.now Component.Value → (v : Sample) (cov : ℕ)
        → IsSample v
        → FitsBody v.body → kind_of v.body ≡ kind → shown_as v cov components.now ≡ value.now
        → result ≡ v.body }
    ensures absent { ¬ HasComponent components.now Component.Value → result ≡ zero_body kind }
{
    match part(value, components, Component::Value) {
        Some(datum) => body_of(datum, kind),
        None => zero(kind),
    }
}

/// The body of a kind that a datum is; where it is none, any.
fn body_of(datum: &MmsData, kind: Kind) -> Body
    ensures kind { kind_of result ≡ kind }
    ensures state { state_of result ≤ STATE_LIMIT }
    ensures shown { (v : Sample) → IsSample v → FitsBody v.body → kind_of v.body ≡ kind
        → datum.now ≡ shown_body v.body v.flags → result ≡ v.body }
{
    match kind {
        Kind::State => Body::State(octet_of(datum).unwrap_or(0) / 64),
        Kind::Discrete => Body::Discrete(discrete_of(datum)),
        Kind::Real => Body::Real(real_of(datum).unwrap_or([0; 4])),
    }
}

/// The integer of 32 bits that a datum is, else 0.
fn discrete_of(datum: &MmsData) -> i32
    ensures { (d : ℤ) → FitsBody (Body.Discrete d) → datum.now ≡ integer d → result ≡ d }
{
    match integer_of(datum) {
        Some(number) if -2147483648 <= number && number <= 2147483647 => number as i32,
        _ => 0,
    }
}

/// The body before any update.
fn zero(kind: Kind) -> Body
    ensures { result ≡ zero_body kind }
{
    match kind {
        Kind::State => Body::State(0),
        Kind::Discrete => Body::Discrete(0),
        Kind::Real => Body::Real([0; 4]),
    }
}

/// The flags, where the layout has them and the datum shows them.
fn flags_in(value: &MmsData, components: &[Component], kind: Kind) -> u8
    ensures range { result ≤ FLAGS_LIMIT }
    ensures shown { CarriesFlags components.now kind → (v : Sample) (cov : ℕ) → IsSample v
        → kind_of v.body ≡ kind → shown_as v cov components.now ≡ value.now → result ≡ v.flags }
    ensures absent { ¬ CarriesFlags components.now kind → result ≡ 0 }
{
    match (part(value, components, Component::Flags), kind) {
        (Some(datum), _) => flags_of(datum),
        (None, Kind::State) => match part(value, components, Component::Value) {
            Some(datum) => flags_of(datum),
            None => 0,
        },
        _ => 0,
    }
}

/// The flags in the six lower bits of an octet.
fn flags_of(datum: &MmsData) -> u8
    ensures range { result ≤ FLAGS_LIMIT }
    ensures shown { (state : ℕ) (flags : ℕ) → flags ≤ FLAGS_LIMIT
        → datum.now ≡ octet_bits (state * 64 + flags) → result ≡ flags }
{
    octet_of(datum).unwrap_or(0) % 64
}

/// A component that is a number, where the layout has it and the datum shows it.
fn number_in(value: &MmsData, components: &[Component], component: Component, limit: u32) -> u32
    ensures range { result ≤ limit }
    ensures shown { HasComponent components.now component → (v : Sample) (cov : ℕ) (n : ℕ)
        → n ≤ limit
        → shown_component v cov component ≡ integer (pos n)
        → shown_as v cov components.now ≡ value.now → result ≡ n }
    ensures absent { ¬ HasComponent components.now component → result ≡ 0 }
{
    match part(value, components, component) {
        Some(datum) => number_of(datum, limit),
        None => 0,
    }
}

/// The number up to a limit that a datum is, else 0.
fn number_of(datum: &MmsData, limit: u32) -> u32
    ensures range { result ≤ limit }
    ensures shown { (n : ℕ) → n ≤ limit → datum.now ≡ integer (pos n) → result ≡ n }
{
    match integer_of(datum) {
        Some(number) if 0 <= number && number <= i64::from(limit) => number as u32,
        _ => 0,
    }
}

/// The count of changes, where the layout has it and the datum shows it.
fn count_in(value: &MmsData, components: &[Component]) -> u16
    ensures { HasComponent components.now Component.Cov → (v : Sample) (cov : ℕ) → cov < COV_MODULUS
        → shown_as v cov components.now ≡ value.now → result ≡ cov }
{
    match part(value, components, Component::Cov) {
        Some(datum) => count_of(datum),
        None => 0,
    }
}

/// The count below [`COV_MODULUS`] that a datum is, else 0.
fn count_of(datum: &MmsData) -> u16
    ensures { (n : ℕ) → n < COV_MODULUS → datum.now ≡ unsigned n → result ≡ n }
{
    match unsigned_of(datum) {
        Some(number) if number < u64::from(COV_MODULUS) => number as u16,
        _ => 0,
    }
}
