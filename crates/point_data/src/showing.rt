ghost use Rattle.std.specs.Prelude.{◌≡◌, ◌≤◌, ◌<◌, IfOk, map};
ghost use Rattle.tase_points.specs.declared.value.TheConstants.{STATE_LIMIT, FLAGS_LIMIT};
ghost use Rattle.tase_points.specs.Points.{state_of};
ghost use Rattle.point_data.specs.Shown.{octet_bits, shown_body, shown_component, shown_as};

use ber_values::BitString;
use mms_data::{DataKind, DataList, MmsData};
use std::alloc::{AllocError, Global};
use tase_points::{Body, Component, Layout, PointValue};

/// The value in the components of a layout. `cov` is the count of changes, modulo 65,536.
pub fn to_data(
    alloc: Global,
    value: &PointValue,
    cov: u16,
    layout: &Layout,
) -> Result<MmsData, AllocError>
    ensures { IfOk result (λ shown. shown ≡ shown_as value.now cov layout.now) }
{
    match layout.as_slice() {
        [component] => component_data(alloc, value, cov, *component),
        components => Ok(MmsData::new(DataKind::Structure(members(
            alloc, value, cov, components,
        )?))),
    }
}

/// The value in several components, one after another.
fn members(
    alloc: Global,
    value: &PointValue,
    cov: u16,
    components: &[Component],
) -> Result<DataList, AllocError>
    ensures { IfOk result (λ list. list ≡ map (shown_component value.now cov) components.now) }
{
    let mut list = DataList::new(alloc);
    for component in components {
        list.push(component_data(alloc, value, cov, *component)?)?;
    }
    Ok(list)
}

/// One component of the value.
fn component_data(
    alloc: Global,
    value: &PointValue,
    cov: u16,
    component: Component,
) -> Result<MmsData, AllocError>
    ensures { IfOk result (λ shown. shown ≡ shown_component value.now cov component) }
{
    Ok(match component {
        Component::Value => body_data(alloc, value.body(), value.flags())?,
        Component::Time => MmsData::new(DataKind::Integer(i64::from(value.seconds()))),
        Component::Millis => MmsData::new(DataKind::Integer(i64::from(value.millis()))),
        Component::Flags => octet_data(alloc, value.flags())?,
        Component::Cov => MmsData::new(DataKind::Unsigned(u64::from(cov))),
    })
}

/// A body; of a state with its flags.
fn body_data(alloc: Global, body: Body, flags: u8) -> Result<MmsData, AllocError>
    requires state { state_of body ≤ STATE_LIMIT }
    requires flags { flags ≤ FLAGS_LIMIT }
    ensures { IfOk result (λ shown. shown ≡ shown_body body flags) }
{
    Ok(match body {
        Body::State(state) => octet_data(alloc, state * 64 + flags)?,
        Body::Discrete(discrete) => MmsData::new(DataKind::Integer(i64::from(discrete))),
        Body::Real(real) => MmsData::new(DataKind::Real(real)),
    })
}

/// An octet as a string of eight bits.
fn octet_data(alloc: Global, octet: u8) -> Result<MmsData, AllocError>
    ensures { IfOk result (λ shown. shown ≡ octet_bits octet) }
{
    let mut octets = Vec::new(alloc);
    octets.push(octet)?;
    Ok(MmsData::new(DataKind::Bits(BitString::new(8, octets))))
}
