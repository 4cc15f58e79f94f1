//! What writes of a peer ask.
ghost use Rattle.std.specs.Prelude.{◌≡◌, ◌<◌, ◌≤◌, ◌-◌, length};
ghost use Rattle.std.specs.Prelude.{IfOk, IfSome, Ok, true, option_map};
ghost use Rattle.std.specs.Prelude.{◌≢◌, ℕ, [], ◌∷◌, None};
ghost use Rattle.std.specs.List.{All};
ghost use Rattle.transfer_sets.specs.Components as components;
ghost use Rattle.tase_views.specs.Objects.{object_named};
ghost use Rattle.tase_views.specs.Devices.{number_in, tag_in};
ghost use Rattle.node_core.specs.Objects.Found.{offered};
ghost use Rattle.node_core.specs.Slots.SlotWrites.{operand, operate_asked, tagging_asked, asked_of};
ghost use Rattle.node_core.specs.Slots.SlotWrites.{all_asked, IsAskedThere};

use crate::objects::{Found, InForce, find_object};
use crate::slots::{Asked, TYPE_INCONSISTENT, VALUE_INVALID};
use ber_values::Visible;
use bilateral::Control;
use mms_data::{DataKind, MmsData, Name};
use sbo_device::TAG_LIMIT;
use std::alloc::{AllocError, Global};
use tase_views::{OBJECT_ACCESS_DENIED, OBJECT_NON_EXISTENT, Reply, ReplyKind, WriteResults};
use transfer_sets::read_wish;

/// What writes of these variables ask by a table, in order.
pub fn read_writes(
    alloc: Global,
    table: &InForce<'_>,
    names: &[Name],
    values: &[MmsData],
) -> Result<Vec<Asked>, AllocError>
    requires { length values.now ≡ length names.now }
    ensures value { IfOk result (λ asked. asked.items
        ≡ all_asked table.now.rows (offered table.now) names.now values.now) }
    ensures there { IfOk result (λ asked. All
        (IsAskedThere (length table.now.rows.devices)) asked.items) }
{
    let mut asked = Vec::new(alloc);
    for place in 0..names.len() {
        asked.push(read_write(table, &names[place], &values[place])?)?;
    }
    Ok(asked)
}

/// What a write of a variable asks.
fn read_write(table: &InForce<'_>, name: &Name, value: &MmsData) -> Result<Asked, AllocError>
    ensures value { IfOk result (λ asked. asked
        ≡ asked_of table.now.rows (object_named (offered table.now) name.now) value.now) }
    ensures there { IfOk result (IsAskedThere (length table.now.rows.devices)) }
{
    let _lawful = table.table();
    match find_object(table, name) {
        None => Ok(Asked::Answered(Some(OBJECT_NON_EXISTENT))),
        Some(Found::Slot(slot)) => {
            let wish = read_wish(value)?;
            Ok(Asked::Wished { slot, wish })
        }
        Some(Found::SlotStatus(slot)) => Ok(Asked::Switched {
            slot,
            status: boolean_of(value),
        }),
        Some(Found::ControlPoint(control)) => Ok(read_operate(control.device, value)),
        Some(Found::DeviceTag(control)) => read_tagging(control, value),
        Some(
            Found::Special(_)
            | Found::NextSlot
            | Found::Point(_)
            | Found::Selection(_)
            | Found::Timeout(_),
        ) => Ok(Asked::Answered(Some(OBJECT_ACCESS_DENIED))),
    }
}

/// What a write of a device's control point asks.
fn read_operate(device: u32, value: &MmsData) -> Asked
    ensures { result ≡ operate_asked device value.now }
{
    match operand_of(value) {
        Some(number) => Asked::Operated { device, number },
        None => Asked::Answered(Some(TYPE_INCONSISTENT)),
    }
}

/// The number that a datum is, of integers and unsigned ones; the highest of 64 bits where it is
/// above, since no device takes either.
fn operand_of(value: &MmsData) -> Option<i64>
    ensures { result ≡ option_map operand (number_in value.now) }
{
    match value.kind() {
        DataKind::Integer(number) => Some(*number),
        DataKind::Unsigned(number) => Some(i64::try_from(*number).unwrap_or(i64::MAX)),
        _ => None,
    }
}

/// What a write of a device's tag asks, by the table's row for the device.
pub fn read_tagging(control: &Control, value: &MmsData) -> Result<Asked, AllocError>
    ensures value { IfOk result (λ asked. asked
        ≡ tagging_asked control.now.device control.now.tag value.now) }
    ensures there { (count : ℕ) → control.now.device < count
        → IfOk result (IsAskedThere count) }
{
    if !control.tag {
        return Ok(Asked::Answered(Some(OBJECT_ACCESS_DENIED)));
    }
    read_tag(control.device, value)
}

/// What a write of a device's tag asks of a peer that may tag it.
fn read_tag(device: u32, value: &MmsData) -> Result<Asked, AllocError>
    ensures value { IfOk result (λ asked. asked ≡ tagging_asked device true value.now) }
    ensures there { (count : ℕ) → device < count → IfOk result (IsAskedThere count) }
{
    let Some((tag, reason)) = tag_parts(value) else {
        return Ok(Asked::Answered(Some(TYPE_INCONSISTENT)));
    };
    if tag > TAG_LIMIT {
        return Ok(Asked::Answered(Some(VALUE_INVALID)));
    }
    let reason = reason.clone()?;
    Ok(Asked::Tagged {
        device,
        tag,
        reason,
    })
}

/// The two bits and the reason that a datum is, if it has the form of a tag.
fn tag_parts(value: &MmsData) -> Option<(u8, &Visible)>
    ensures parts { option_map (λ parts. record { tag = parts.0; reason = parts.1.now }) result
        ≡ tag_in value.now }
    ensures few { IfSome result (λ parts. parts.0 ≤ 3) }
{
    let DataKind::Structure(parts) = value.kind() else {
        return None;
    };
    let Some((first, second)) = two_of(parts.as_slice()) else {
        return None;
    };
    let (DataKind::Bits(bits), DataKind::Text(reason)) = (first.kind(), second.kind()) else {
        return None;
    };
    if bits.count() != 2 {
        return None;
    }
    Some((bits.octets()[0] / 64, reason))
}

/// The members of a structure that has two.
fn two_of(parts: &[MmsData]) -> Option<(&MmsData, &MmsData)>
    ensures two { IfSome result (λ two. parts.now ≡ two.0.now ∷ two.1.now ∷ []) }
    ensures other { result ≡ None → length parts.now ≢ 2 }
{
    if parts.len() != 2 {
        return None;
    }
    Some((&parts[0], &parts[1]))
}

/// The boolean that a datum is.
fn boolean_of(value: &MmsData) -> Option<bool>
    ensures { result ≡ components.boolean_part value.now }
{
    match value.kind() {
        DataKind::Boolean(value) => Some(*value),
        _ => None,
    }
}

/// The reply to a write: what came of each variable, in order.
pub fn written(results: Vec<Option<u8>>) -> Reply
    ensures { result ≡ ReplyKind.Written results.items }
{
    Reply::new(ReplyKind::Written(WriteResults::from_vec(results)))
}
