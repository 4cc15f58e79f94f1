//! What calls of a peer do to devices.
ghost use Rattle.std.specs.Prelude.{◌≡◌, ◌<◌, ◌++◌, ◌^◌, ℕ, [], length, map, reverse, pos};
ghost use Rattle.std.specs.Prelude.{option_map, IfOk, IfSome, OnOk};
ghost use Rattle.std.specs.List.{All, cons_option};
ghost use Rattle.mms_data.specs.Lawful.{IsLawful};
ghost use Rattle.bilateral.specs.Rows.{CentreRows};
ghost use Rattle.tase_views.specs.Moves.{reads, writes, writes_of, acts_of_call};
ghost use Rattle.tase_views.specs.OwnTables.{own_device, own_tables, table_in};
ghost use Rattle.tase_views.specs.Objects.{device_tag, control_point};
ghost use Rattle.tase_views.specs.Devices as devices;
ghost use Rattle.node_core.specs.Objects.Found.{IsThere, offered};
ghost use Rattle.node_core.specs.Deeds.{deed_at, row_deed, deeds_done, IsDeedThere};
ghost use Rattle.node_core.specs.Deeds.{deed_asked};

use crate::objects::{Found, InForce, find_object};
use crate::replies::read_tagging;
use crate::slots::Asked;
use ber_values::Visible;
use bilateral::{Centre, Control};
use mms_data::{DataKind, MmsData, Name};
use std::alloc::{AllocError, Global};
use tase_views::{Call, CallKind};

/// What a variable of a call does to a device: it selects it, operates it with a number, or tags it
/// for a reason (IEC 60870-6-503, device control).
#[derive(Debug, Drop)]
pub enum DeedKind {
    Select,
    Operate { value: i64 },
    Tag { tag: u8, reason: Visible },
}

/// A device of the centre, by its number, and what a variable of a call does to it.
#[derive(Debug, Drop)]
pub struct DeviceDeed {
    pub device: u32,
    pub act: DeedKind,
}

/// What a call of a peer does to devices of the centre by one of the peer's tables, the first of
/// which is 0: a deed for each of the call's variables that is one, in their order. Whether a
/// device takes it is not asked.
pub fn deeds_of_call(
    alloc: Global,
    centre: &Centre,
    peer: u32,
    variant: u32,
    call: &Call,
) -> Result<Vec<DeviceDeed>, AllocError>
    requires { IsThere centre.now peer variant }
    ensures deeds { IfOk result (λ deeds. map (deed_at centre.now) deeds.items
        ≡ deeds_done (table_in (own_tables centre.now peer) variant)
        (reverse (acts_of_call call.now))) }
    ensures there { IfOk result (λ deeds. All
        (IsDeedThere (length centre.now.devices)) deeds.items) }
{
    let table = InForce::new(centre, peer, variant);
    match call.kind() {
        CallKind::Read { names, .. } => select_deeds(alloc, &table, names.as_slice()),
        CallKind::Write { names, values } => {
            write_deeds(alloc, &table, names.as_slice(), values.as_slice())
        }
        _ => Ok(Vec::new(alloc)),
    }
}

/// The selects that reads of these variables are by a table, in order.
fn select_deeds(
    alloc: Global,
    table: &InForce<'_>,
    names: &[Name],
) -> Result<Vec<DeviceDeed>, AllocError>
    ensures deeds { IfOk result (λ deeds. map (deed_at table.now.rows) deeds.items
        ≡ deeds_done (offered table.now) (map reads names.now)) }
    ensures there { IfOk result (λ deeds. All
        (IsDeedThere (length table.now.rows.devices)) deeds.items) }
{
    let mut deeds = Vec::new(alloc);
    for place in 0..names.len() {
        let deed = select_deed(table, &names[place]);
        add_deed(&mut deeds, deed)?;
    }
    Ok(deeds)
}

/// The operates and taggings that writes of these variables are by a table, in order.
fn write_deeds(
    alloc: Global,
    table: &InForce<'_>,
    names: &[Name],
    values: &[MmsData],
) -> Result<Vec<DeviceDeed>, AllocError>
    requires many { length values.now ≡ length names.now }
    requires lawful { All IsLawful values.now }
    ensures deeds { IfOk result (λ deeds. map (deed_at table.now.rows) deeds.items
        ≡ deeds_done (offered table.now) (writes_of names.now values.now)) }
    ensures there { IfOk result (λ deeds. All
        (IsDeedThere (length table.now.rows.devices)) deeds.items) }
{
    let mut deeds = Vec::new(alloc);
    for place in 0..names.len() {
        let deed = write_deed(table, &names[place], &values[place])?;
        add_deed(&mut deeds, deed)?;
    }
    Ok(deeds)
}

/// Adds a deed, if there is one, behind those before it.
fn add_deed(deeds: &mut Vec<DeviceDeed>, deed: Option<DeviceDeed>) -> Result<(), AllocError>
    ensures { OnOk result (deeds.new.items ≡ deeds.old.items ++ cons_option deed []) }
{
    match deed {
        Some(deed) => {
            deeds.push(deed)?;
            Ok(())
        }
        None => Ok(()),
    }
}

/// The select that a read of a variable is, if it is one.
fn select_deed(table: &InForce<'_>, name: &Name) -> Option<DeviceDeed>
    ensures deed { option_map (deed_at table.now.rows) result
        ≡ option_map row_deed (devices.deed_of (offered table.now) (reads name.now)) }
    ensures there { IfSome result (IsDeedThere (length table.now.rows.devices)) }
{
    let _lawful = table.table();
    match find_object(table, name) {
        Some(Found::Selection(control)) => Some(DeviceDeed {
            device: control.device,
            act: DeedKind::Select,
        }),
        Some(
            Found::Special(_)
            | Found::NextSlot
            | Found::Slot(_)
            | Found::SlotStatus(_)
            | Found::ControlPoint(_)
            | Found::DeviceTag(_)
            | Found::Timeout(_)
            | Found::Point(_),
        )
        | None => None,
    }
}

/// The operate or the tagging that a write of a variable is, if it is one.
fn write_deed(
    table: &InForce<'_>,
    name: &Name,
    value: &MmsData,
) -> Result<Option<DeviceDeed>, AllocError>
    requires { IsLawful value.now }
    ensures deed { IfOk result (λ deed. option_map (deed_at table.now.rows) deed ≡ option_map row_deed
        (devices.deed_of (offered table.now) (writes name.now value.now))) }
    ensures there { IfOk result (λ deed. IfSome deed
        (IsDeedThere (length table.now.rows.devices))) }
{
    let _lawful = table.table();
    match find_object(table, name) {
        Some(Found::ControlPoint(control)) => Ok(operate_deed(control, value)),
        Some(Found::DeviceTag(control)) => tag_deed(control, value),
        Some(
            Found::Special(_)
            | Found::NextSlot
            | Found::Slot(_)
            | Found::SlotStatus(_)
            | Found::Selection(_)
            | Found::Timeout(_)
            | Found::Point(_),
        )
        | None => Ok(None),
    }
}

/// The operate that a write of a device's control point is, if the value is a number.
fn operate_deed(control: &Control, value: &MmsData) -> Option<DeviceDeed>
    requires { IsLawful value.now }
    ensures deed { (rows : CentreRows) → option_map (deed_at rows) result ≡ option_map row_deed
        (devices.write_deed value.now (control_point (own_device rows control.now))) }
    ensures there { (count : ℕ) → control.now.device < count
        → IfSome result (IsDeedThere count) }
{
    match number_of(value) {
        Some(value) => Some(DeviceDeed {
            device: control.device,
            act: DeedKind::Operate { value },
        }),
        None => None,
    }
}

/// The number that a lawful datum is, of integers and unsigned ones.
fn number_of(value: &MmsData) -> Option<i64>
    requires { IsLawful value.now }
    ensures { result ≡ devices.number_in value.now }
{
    match value.kind() {
        DataKind::Integer(number) => Some(*number),
        DataKind::Unsigned(number) => Some(signed(*number)),
        _ => None,
    }
}

/// An unsigned number of 63 bits as a signed one.
fn signed(number: u64) -> i64
    requires { number < 2 ^ 63 }
    ensures { result ≡ pos number }
{
    number as i64
}

/// The tagging that a write of a device's tag is by the table's row for the device, if it is one.
fn tag_deed(control: &Control, value: &MmsData) -> Result<Option<DeviceDeed>, AllocError>
    ensures deed { (rows : CentreRows) → IfOk result (λ deed. option_map (deed_at rows) deed
        ≡ option_map row_deed
        (devices.write_deed value.now (device_tag (own_device rows control.now)))) }
    ensures there { (count : ℕ) → control.now.device < count
        → IfOk result (λ deed. IfSome deed (IsDeedThere count)) }
{
    let asked = read_tagging(control, value)?;
    Ok(asked_tagging(asked))
}

/// The tagging that a write asks, if it asks one.
fn asked_tagging(asked: Asked) -> Option<DeviceDeed>
    ensures { result ≡ deed_asked asked }
{
    match asked {
        Asked::Tagged {
            device,
            tag,
            reason,
        } => Some(DeviceDeed {
            device,
            act: DeedKind::Tag { tag, reason },
        }),
        Asked::Answered(_)
        | Asked::Wished { .. }
        | Asked::Switched { .. }
        | Asked::Operated { .. } => None,
    }
}
