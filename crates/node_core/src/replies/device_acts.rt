//! Selects, operates and taggings of a peer.
ghost use Rattle.std.specs.Prelude.{◌≡◌, ◌+◌, ◌<◌, ◌≤◌, ◌++◌, length, vec_len, vec_capacity};
ghost use Rattle.std.specs.List.{All};
ghost use Rattle.sbo_device.specs.declared.device.TheConstants.{MOMENT_LIMIT as MOMENTS};
ghost use Rattle.tase_views.specs.Moves.{reads};
ghost use Rattle.tase_views.specs.Devices.{deed_of};
ghost use Rattle.tase_views.specs.Answers as answers;
ghost use Rattle.node_core.specs.Devices.DeviceBanks.{devices_by};
ghost use Rattle.node_core.specs.Objects.Found.{offered};
ghost use Rattle.node_core.specs.Slots.SlotWrites.{IsAskedThere};
ghost use Rattle.node_core.specs.Replies.DeviceWrites.{AreOfRows, devices_read, left_of};
ghost use Rattle.node_core.specs.Replies.DeviceWrites.{devices_asked, orders_asked};
ghost use Rattle.node_core.specs.Replies.DeviceWrites.{all_left, all_devices, all_orders};

use crate::objects::{Found, InForce, find_object};
use crate::slots::{Asked, VALUE_INVALID};
use mms_data::{Name, Names};
use sbo_device::{DeviceBank, Key, Operate};
use tase_views::OBJECT_ACCESS_DENIED;

/// Selects the devices whose selections an association reads by its table, at this moment. It takes
/// no memory.
pub fn select_all(devices: &mut DeviceBank, table: &InForce<'_>, key: Key, now: u64, names: &Names)
    requires there { length devices.old.devices ≡ length table.now.rows.devices }
    requires kept { AreOfRows table.now.rows devices.old.devices }
    requires moment { now < MOMENTS }
    ensures devices { devices.new.devices ≡ devices_read table.now.rows (offered table.now) now key
        names.now devices.old.devices }
    ensures orders { devices.new.orders ≡ devices.old.orders }
{
    for name in names.as_slice() {
        select_one(devices, table, key, now, name);
    }
}

/// Selects the device whose selection this is, if it is one.
fn select_one(devices: &mut DeviceBank, table: &InForce<'_>, key: Key, now: u64, name: &Name)
    requires there { length devices.old.devices ≡ length table.now.rows.devices }
    requires kept { AreOfRows table.now.rows devices.old.devices }
    requires moment { now < MOMENTS }
    ensures devices { devices.new.devices ≡ devices_by table.now.rows now key
        (deed_of (offered table.now) (reads name.now)) devices.old.devices }
    ensures orders { devices.new.orders ≡ devices.old.orders }
{
    let _lawful = table.table();
    if let Some(Found::Selection(control)) = find_object(table, name) {
        let _answer = devices.select(control.device, key, now);
    }
}

/// Does what writes of an association ask of devices, in order, and appends what is left of each:
/// what came of it, or what it asks of a transfer set. It takes no memory.
pub fn write_devices(devices: &mut DeviceBank, key: Key, asked: Vec<Asked>, left: &mut Vec<Asked>)
    requires there { All (IsAskedThere (length devices.old.devices)) asked.items }
    requires orders { length asked.items ≤ devices.old.spare }
    requires room { vec_len left.old + length asked.items ≤ vec_capacity left.old }
    ensures left { left.new.items ≡ left.old.items ++ all_left key asked.items devices.old.devices }
    ensures there { All (IsAskedThere 0) left.old.items → All (IsAskedThere 0) left.new.items }
    ensures devices { devices.new.devices ≡ all_devices key asked.items devices.old.devices }
    ensures orders { devices.new.orders
        ≡ devices.old.orders ++ all_orders key asked.items devices.old.devices }
{
    for one in asked {
        let rest = write_device(devices, key, one);
        left.push_reserved(rest);
    }
}

/// Does what a write of an association asks of a device, and gives what is left of it.
fn write_device(devices: &mut DeviceBank, key: Key, asked: Asked) -> Asked
    requires there { IsAskedThere (length devices.old.devices) asked }
    requires room { 1 ≤ devices.old.spare }
    ensures left { result ≡ left_of key asked devices.old.devices }
    ensures there { IsAskedThere 0 result }
    ensures devices { devices.new.devices ≡ devices_asked key asked devices.old.devices }
    ensures orders { devices.new.orders
        ≡ devices.old.orders ++ orders_asked key asked devices.old.devices }
    ensures spare { devices.old.spare ≤ devices.new.spare + 1 }
{
    match asked {
        Asked::Operated { device, number } => {
            let answer = devices.operate(device, key, number);
            Asked::Answered(operate_result(answer))
        }
        Asked::Tagged {
            device,
            tag,
            reason,
        } => {
            devices.tag(device, tag, reason);
            Asked::Answered(None)
        }
        other => other,
    }
}

/// What comes of an operate: none where an order is given, else the reason.
fn operate_result(answer: Operate) -> Option<u8>
    ensures { result ≡ answers.operate_written answer }
{
    match answer {
        Operate::Ordered => None,
        Operate::BadValue => Some(VALUE_INVALID),
        Operate::NotHolder | Operate::Inhibited => Some(OBJECT_ACCESS_DENIED),
    }
}
