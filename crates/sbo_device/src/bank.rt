//! The devices of a centre, and the orders that are left.
ghost use Rattle.std.specs.Prelude.{◌≡◌, ℕ, ◌+◌, ◌<◌, ◌≤◌, ℤ, List, [], ◌∷◌, ◌++◌, length, map};
ghost use Rattle.std.specs.Prelude.{false, IsOk, OnOk, OnErr};
ghost use Rattle.sbo_device.specs.declared.key.Key.{Key};
ghost use Rattle.sbo_device.specs.Moves.{DeviceState, selected, operated, closed, ticked, tagged};
ghost use Rattle.sbo_device.specs.States.{HasSpan, ended_by, select_answer, operate_answer};
ghost use Rattle.sbo_device.specs.States.{is_permitted};
ghost use Rattle.sbo_device.specs.Banks.{record_in, moved, device_at, moved_at, with_move};
ghost use Rattle.sbo_device.specs.Banks.{order_by};

use crate::device::{MOMENT_LIMIT, TAG_LIMIT};
use crate::{CommandKind, Device, Hold, Key, Operate, Order, Select};
use ber_values::Visible;
use std::alloc::{AllocError, Global};
use std::marker::Model;
use std::mem;

/// A device, and why it was tagged.
#[derive(Drop)]
struct TaggedDevice {
    device: Device,
    reason: Visible,
}

impl Model for TaggedDevice {
    ghost use Rattle.sbo_device.specs.Banks.{DeviceRecord};

    ghost Value = { DeviceRecord };

    ghost view = { λ d. record { state = d.device; reason = d.reason } };
}

impl TaggedDevice {
    fn new(alloc: Global, kind: CommandKind, direct: bool, span: u64) -> TaggedDevice
        requires { HasSpan (record { kind = kind; direct = direct; span = span }) }
        ensures { result ≡ record_in (record { kind = kind; direct = direct; span = span }) [] }
    {
        TaggedDevice {
            device: Device::new(kind, direct, span),
            reason: Visible::new(Vec::new(alloc)),
        }
    }

    fn select(&mut self, key: Key, now: u64) -> Select
        requires selectable { self.old.state.point.direct ≡ false }
        requires moment { now < MOMENT_LIMIT }
        ensures answer { result ≡ select_answer self.old.state key }
        ensures state { self.new ≡ moved (selected key now) self.old }
    {
        self.device.select(key, now)
    }

    fn operate(&mut self, key: Key, value: i64) -> Operate
        ensures answer { result ≡ operate_answer self.old.state key value }
        ensures state { self.new ≡ moved (operated key value) self.old }
    {
        self.device.operate(key, value)
    }

    fn tag(&mut self, tag: u8, reason: Visible)
        requires { tag ≤ TAG_LIMIT }
        ensures { self.new ≡ moved (tagged (record { tag = tag; reason = reason })) self.old }
    {
        self.device.set_tag(tag);
        self.reason = reason;
    }

    fn close(&mut self, key: Key)
        ensures { self.new ≡ moved (closed key) self.old }
    {
        let _ended = self.device.drop_key(key);
    }

    fn expire(&mut self, now: u64)
        requires { now < MOMENT_LIMIT }
        ensures { self.new ≡ moved (ticked now) self.old }
    {
        let _ended = self.device.expire(now);
    }
}

/// The devices of a centre, by their numbers from 0, each with the reason of its tag; and the
/// orders that are left.
#[derive(Drop)]
pub struct DeviceBank {
    devices: Vec<TaggedDevice>,
    /// The oldest first.
    orders: Vec<Order>,
    /// How many orders can be added without memory: room was made for them.
    room: usize,
}

impl Model for DeviceBank {
    ghost use Rattle.std.specs.Prelude.{◌+◌, ◌≤◌, vec_len, vec_capacity};
    ghost use Rattle.sbo_device.specs.Banks.{BankState};

    ghost Value = { BankState };

    ghost view = { λ b. record {
      devices = b.devices.items;
      orders = b.orders.items;
      spare = b.room;
    } };

    ghost invariant = { λ b. vec_len b.orders + b.room ≤ vec_capacity b.orders };
}

impl DeviceBank {
    /// No devices, and no orders.
    pub fn new(alloc: Global) -> DeviceBank
        ensures { result ≡ record { devices = []; orders = []; spare = 0 } }
    {
        DeviceBank {
            devices: Vec::new(alloc),
            orders: Vec::new(alloc),
            room: 0,
        }
    }

    /// One device more, which is free and has no tag. After want of memory nothing has changed.
    pub fn push(
        &mut self,
        alloc: Global,
        kind: CommandKind,
        direct: bool,
        span: u64,
    ) -> Result<(), AllocError>
        requires { HasSpan (record { kind = kind; direct = direct; span = span }) }
        ensures ok { OnOk result (self.new ≡ record self.old {
          devices = self.old.devices
              ++ record_in (record { kind = kind; direct = direct; span = span }) [] ∷ [];
        }) }
        ensures err { OnErr result (self.new ≡ self.old) }
    {
        self.devices
            .push(TaggedDevice::new(alloc, kind, direct, span))?;
        Ok(())
    }

    /// Makes room for this many further orders. After want of memory nothing has changed.
    pub fn room(&mut self, n: usize) -> Result<(), AllocError>
        ensures devices { self.new.devices ≡ self.old.devices }
        ensures orders { self.new.orders ≡ self.old.orders }
        ensures spare { self.old.spare ≤ self.new.spare }
        ensures ok { OnOk result (n ≤ self.new.spare) }
        ensures err { OnErr result (self.new ≡ self.old) }
        ensures succeeds { n ≤ self.old.spare → IsOk result }
    {
        if self.room < n {
            self.orders.reserve(n)?;
            self.room = n;
        }
        Ok(())
    }

    /// The answer that a select would have. As all selects of one request have the answers that
    /// they would have before it, data may be made of this first.
    pub fn select_answer(&self, number: u32, key: Key) -> Select
        requires { number < length self.now.devices }
        ensures { result ≡ select_answer (device_at self.now.devices number).state key }
    {
        self.devices[number as usize].device.select_answer(key)
    }

    /// An association selects a device at this moment. It takes no memory.
    pub fn select(&mut self, number: u32, key: Key, now: u64) -> Select
        requires there { number < length self.old.devices }
        requires selectable { (device_at self.old.devices number).state.point.direct ≡ false }
        requires moment { now < MOMENT_LIMIT }
        ensures answer { result ≡ select_answer (device_at self.old.devices number).state key }
        ensures state { self.new ≡ with_move number (selected key now) self.old }
    {
        self.devices[number as usize].select(key, now)
    }

    /// An association operates a device. Where it is permitted an order is added, for which there
    /// is room, so that it takes no memory.
    pub fn operate(&mut self, number: u32, key: Key, value: i64) -> Operate
        requires there { number < length self.old.devices }
        requires room { 1 ≤ self.old.spare }
        ensures answer { result
            ≡ operate_answer (device_at self.old.devices number).state key value }
        ensures devices { self.new.devices
            ≡ moved_at number (operated key value) self.old.devices }
        ensures orders { self.new.orders ≡ self.old.orders
            ++ order_by number key value (device_at self.old.devices number).state }
        ensures spare { self.old.spare ≤ self.new.spare + 1 }
    {
        let answer = self.devices[number as usize].operate(key, value);
        if is_ordered(answer) {
            self.add_order(Order {
                device: number,
                value,
            });
        }
        answer
    }

    fn add_order(&mut self, order: Order)
        requires { 1 ≤ self.old.spare }
        ensures devices { self.new.devices ≡ self.old.devices }
        ensures orders { self.new.orders ≡ self.old.orders ++ order ∷ [] }
        ensures spare { self.new.spare + 1 ≡ self.old.spare }
    {
        self.orders.push_reserved(order);
        self.room -= 1;
    }

    /// Tags a device, 0 to [`TAG_LIMIT`], for this reason. A hold stays. It takes no memory.
    pub fn tag(&mut self, number: u32, tag: u8, reason: Visible)
        requires there { number < length self.old.devices }
        requires lawful { tag ≤ TAG_LIMIT }
        ensures { self.new
            ≡ with_move number (tagged (record { tag = tag; reason = reason })) self.old }
    {
        self.devices[number as usize].tag(tag, reason);
    }

    /// The selection of a device that stands.
    pub fn holder(&self, number: u32) -> Option<Hold>
        requires { number < length self.now.devices }
        ensures { result ≡ (device_at self.now.devices number).state.hold }
    {
        self.devices[number as usize].device.holder()
    }

    /// The selection of a device that ends where the clock stands at this moment.
    pub fn ends_at(&self, number: u32, now: u64) -> Option<Hold>
        requires { number < length self.now.devices }
        ensures { result ≡ ended_by (ticked now) (device_at self.now.devices number).state }
    {
        self.devices[number as usize].device.ends_at(now)
    }

    pub fn tag_of(&self, number: u32) -> u8
        requires { number < length self.now.devices }
        ensures value { result ≡ (device_at self.now.devices number).state.tag }
        ensures lawful { result ≤ TAG_LIMIT }
    {
        self.devices[number as usize].device.tag()
    }

    /// Why a device was tagged.
    pub fn reason_of(&self, number: u32) -> &Visible
        requires { number < length self.now.devices }
        ensures { result.now ≡ (device_at self.now.devices number).reason }
    {
        &self.devices[number as usize].reason
    }

    /// An association is closed: all devices that it held are free. It takes no memory.
    pub fn close(&mut self, key: Key)
        ensures { self.new ≡ record self.old {
          devices = map (moved (closed key)) self.old.devices;
        } }
    {
        close_all(&mut self.devices, key);
    }

    /// The clock stands at this moment: all devices whose selections end at it or before are free.
    /// It takes no memory; [`DeviceBank::ends_at`] tells before which end.
    pub fn expire(&mut self, now: u64)
        requires { now < MOMENT_LIMIT }
        ensures { self.new ≡ record self.old {
          devices = map (moved (ticked now)) self.old.devices;
        } }
    {
        expire_all(&mut self.devices, now);
    }

    /// How many devices there are.
    pub fn len(&self) -> usize
        ensures { result ≡ length self.now.devices }
    {
        self.devices.len()
    }

    /// The orders that are left, the oldest first.
    pub fn orders(&self) -> &[Order]
        ensures { result.now ≡ self.now.orders }
    {
        self.orders.as_slice()
    }

    /// Hands all orders out that are left, the oldest first, and leaves none. It takes no memory.
    pub fn take_orders(&mut self, alloc: Global) -> Vec<Order>
        ensures orders { result.items ≡ self.old.orders }
        ensures left { self.new ≡ record self.old { orders = []; spare = 0 } }
    {
        self.room = 0;
        mem::replace(&mut self.orders, Vec::new(alloc))
    }
}

/// Whether an operate was permitted, so that its order is given.
fn is_ordered(answer: Operate) -> bool
    ensures { (s : DeviceState) (key : Key) (value : ℤ) → answer ≡ operate_answer s key value
        → result ≡ is_permitted s key value }
{
    match answer {
        Operate::Ordered => true,
        Operate::Inhibited => false,
        Operate::BadValue => false,
        Operate::NotHolder => false,
    }
}

/// An association is closed: all these devices that it held are free.
fn close_all(devices: &mut [TaggedDevice], key: Key)
    ensures { devices.new ≡ map (moved (closed key)) devices.old }
{
    for place in 0..devices.len() {
        devices[place].close(key);
    }
}

/// The clock stands at this moment: all these devices whose selections end at it or before are
/// free.
fn expire_all(devices: &mut [TaggedDevice], now: u64)
    requires { now < MOMENT_LIMIT }
    ensures { devices.new ≡ map (moved (ticked now)) devices.old }
{
    for place in 0..devices.len() {
        devices[place].expire(now);
    }
}
