//! The calls by which a client operates a device.
ghost use Rattle.std.specs.Prelude.{◌≡◌, ◌<◌, ◌≤◌, ◌++◌, IfOk, true, false, length};
ghost use Rattle.ber_values.specs.Visible.{IsVisible};
ghost use Rattle.mms_data.specs.ObjectName.{IsIdentifier};
ghost use Rattle.bilateral.specs.Words.Words.{is_name};
ghost use Rattle.bilateral.specs.Rows.{table_of, device_of};
ghost use Rattle.asking_end.specs.Sayings.{IsAskable};
ghost use Rattle.centre_client.specs.Plays as own;

use ber_values::Visible;
use bilateral::{Centre, DeviceRow};
use mms_data::{DataKind, MmsData, Name, Names, Scope};
use std::alloc::{AllocError, Global};
use tase_views::{Call, CallKind, Values};

/// The read of a device's selection.
pub(crate) fn select_call(
    alloc: Global,
    centre: &Centre,
    peer: u32,
    device: u32,
) -> Result<Call, AllocError>
    requires peer { peer < length centre.now.tables }
    requires device { device < length centre.now.devices }
    ensures value { IfOk result (λ call. call ≡ own.select_call centre.now peer device) }
    ensures askable { IfOk result IsAskable }
{
    let item = item_of(alloc, centre, device, b"_SBO")?;
    let names = variable_list(alloc, centre, peer, item)?;
    Ok(Call::new(CallKind::Read { names, echo: false }))
}

/// The write of a device's value.
pub(crate) fn operate_call(
    alloc: Global,
    centre: &Centre,
    peer: u32,
    device: u32,
    value: i16,
) -> Result<Call, AllocError>
    requires peer { peer < length centre.now.tables }
    requires device { device < length centre.now.devices }
    ensures value { IfOk result (λ call. call ≡ own.operate_call centre.now peer device value) }
    ensures askable { IfOk result IsAskable }
{
    let item = item_of(alloc, centre, device, b"")?;
    let names = variable_list(alloc, centre, peer, item)?;
    let values = value_list(alloc, value)?;
    Ok(Call::new(CallKind::Write { names, values }))
}

/// One value.
fn value_list(alloc: Global, value: i16) -> Result<Values, AllocError>
    ensures { IfOk result (λ values. values ≡ own.value_list value) }
{
    let mut values = Values::new(alloc);
    values.push(MmsData::new(DataKind::Integer(i64::from(value))))?;
    Ok(values)
}

/// The name of a device, and an end of at most four octets.
fn item_of(alloc: Global, centre: &Centre, device: u32, end: &[u8]) -> Result<Visible, AllocError>
    requires device { device < length centre.now.devices }
    requires end { IsVisible end.now }
    requires short { length end.now ≤ 4 }
    ensures value { IfOk result (λ item. item ≡ (device_of centre.now device).name ++ end.now) }
    ensures named { IfOk result IsIdentifier }
{
    let item = name_with(alloc, &device_row(centre, device).name, end)?;
    Ok(item)
}

/// The row of a device.
fn device_row(centre: &Centre, device: u32) -> &DeviceRow
    requires { device < length centre.now.devices }
    ensures value { result.now ≡ device_of centre.now device }
    ensures named { is_name result.now.name ≡ true }
{
    let _lawful = centre.devices();
    centre.device(device)
}

/// A device's name with an end.
fn name_with(alloc: Global, name: &Visible, end: &[u8]) -> Result<Visible, AllocError>
    requires { IsVisible (name.now ++ end.now) }
    ensures { IfOk result (λ joined. joined ≡ name.now ++ end.now) }
{
    let mut octets = Vec::from_slice(alloc, name.as_slice())?;
    octets.extend_from_slice(end)?;
    Ok(Visible::new(octets))
}

/// The item in the domain of the peer's table, alone in a list.
fn variable_list(
    alloc: Global,
    centre: &Centre,
    peer: u32,
    item: Visible,
) -> Result<Names, AllocError>
    requires peer { peer < length centre.now.tables }
    requires item { IsIdentifier item }
    ensures value { IfOk result (λ names. names ≡ own.variable_list centre.now peer item) }
    ensures domain { IfOk result (λ names. IsIdentifier (table_of centre.now peer).domain) }
{
    let scope = Scope::Domain(domain_of(centre, peer)?);
    let mut names = Names::new(alloc);
    names.push(Name::new(scope, item))?;
    Ok(names)
}

/// The domain of the peer's table.
fn domain_of(centre: &Centre, peer: u32) -> Result<Visible, AllocError>
    requires { peer < length centre.now.tables }
    ensures value { IfOk result (λ domain. domain ≡ (table_of centre.now peer).domain) }
    ensures named { IfOk result IsIdentifier }
{
    let _lawful = centre.peers();
    centre.table(peer).domain.clone()
}
