//! One device of the plant.
ghost use Rattle.std.specs.Prelude.{◌≡◌, ℕ, ◌<◌, ◌≤◌, List, [], false, is_some};
ghost use Rattle.sbo_device.specs.States.{state_in, after, ended_by, select_answer, operate_answer};
ghost use Rattle.sbo_device.specs.States.{is_held_by, is_held_by_other, is_granted, takes};
ghost use Rattle.sbo_device.specs.States.{inhibits};
ghost use Rattle.sbo_device.specs.declared.key.Key.{Key};
ghost use Rattle.sbo_device.specs.Moves.{DeviceState, selected, operated, closed, ticked, tagged};

use crate::{CommandKind, Hold, Key, Operate, Select};
use std::marker::Model;

/// Every moment is below this one, in milliseconds since 1970.
pub const MOMENT_LIMIT: u64 = 2147483648000;

/// The longest span of a selection, in milliseconds: one day.
pub const SPAN_LIMIT: u64 = 86400000;

// Definitions cite these limits, so that each stands here as a number too.
const _: () = prove!(MOMENT_LIMIT == 2_147_483_648_000);

const _: () = prove!(SPAN_LIMIT == 86_400_000);

/// The tag that inhibits every operate (IEC 60870-6-802, tag values).
pub const OPEN_AND_CLOSE_INHIBITED: u8 = 1;

/// The tag that inhibits the value 1 of a command.
pub const CLOSE_INHIBITED: u8 = 2;

/// The largest number that a tag has; 0 inhibits nothing.
pub const TAG_LIMIT: u8 = 2;

// Definitions cite these numbers, so that each stands here once more.
const _: () = prove!(OPEN_AND_CLOSE_INHIBITED == 1);

const _: () = prove!(CLOSE_INHIBITED == 2);

const _: () = prove!(TAG_LIMIT == 2);

/// A device: what it takes, its tag, and who holds it.
#[derive(Debug, Drop)]
pub struct Device {
    kind: CommandKind,
    direct: bool,
    span: u64,
    tag: u8,
    hold: Option<Hold>,
}

impl Model for Device {
    ghost use Rattle.sbo_device.specs.Moves.{DeviceState};

    ghost Value = { DeviceState };

    ghost use Rattle.sbo_device.specs.States.{HasSpan};
    ghost use Rattle.std.specs.Prelude.{◌≤◌};
    ghost use Rattle.sbo_device.specs.declared.device.TheConstants.{TAG_LIMIT};

    ghost view = { λ d. record {
      point = record { kind = d.kind; direct = d.direct; span = d.span };
      tag = d.tag;
      hold = d.hold;
    } };

    ghost invariant = { λ d. (d.tag ≤ TAG_LIMIT)
        × HasSpan (record { kind = d.kind; direct = d.direct; span = d.span }) };
}

impl Device {
    ghost use Rattle.sbo_device.specs.States.{HasSpan};

    /// A device that is free and has no tag. Unless it is direct, a selection of it holds for
    /// `span` milliseconds, 1 to [`SPAN_LIMIT`].
    pub fn new(kind: CommandKind, direct: bool, span: u64) -> Device
        requires { HasSpan (record { kind = kind; direct = direct; span = span }) }
        ensures { result ≡ state_in (record { kind = kind; direct = direct; span = span }) [] }
    {
        Device {
            kind,
            direct,
            span,
            tag: 0,
            hold: None,
        }
    }

    /// The answer that a select would have.
    pub fn select_answer(&self, key: Key) -> Select
        ensures { result ≡ select_answer self.now key }
    {
        if is_held_by_other(self.hold, key) {
            return Select::HeldByOther;
        }
        if self.tag == OPEN_AND_CLOSE_INHIBITED {
            return Select::Inhibited;
        }
        Select::Granted
    }

    /// An association selects the device at this moment. Granted, it holds the device until the
    /// span of the device from now on has gone by, also where it held it before; refused, all
    /// stays as it was.
    pub fn select(&mut self, key: Key, now: u64) -> Select
        requires selectable { self.old.point.direct ≡ false }
        requires moment { now < MOMENT_LIMIT }
        ensures answer { result ≡ select_answer self.old key }
        ensures state { self.new ≡ after (selected key now) self.old }
    {
        let answer = self.select_answer(key);
        if is_granted(answer) {
            let until = now + self.span;
            self.hold = Some(Hold { key, until });
        }
        answer
    }

    /// An association operates the device. Ordered, the device is free; refused, all stays as it
    /// was.
    pub fn operate(&mut self, key: Key, value: i64) -> Operate
        ensures answer { result ≡ operate_answer self.old key value }
        ensures state { self.new ≡ after (operated key value) self.old }
    {
        if !self.direct && !is_held_by(self.hold, key) {
            return Operate::NotHolder;
        }
        if !takes(self.kind, value) {
            return Operate::BadValue;
        }
        if inhibits(self.tag, self.kind, value) {
            return Operate::Inhibited;
        }
        self.hold = None;
        Operate::Ordered
    }

    /// An association is closed. Whether it held the device, which is free then.
    pub fn drop_key(&mut self, key: Key) -> bool
        ensures ended { result ≡ is_some (ended_by (closed key) self.old) }
        ensures state { self.new ≡ after (closed key) self.old }
    {
        if !is_held_by(self.hold, key) {
            return false;
        }
        self.hold = None;
        true
    }

    /// The hold that ends where the clock stands at this moment.
    pub fn ends_at(&self, now: u64) -> Option<Hold>
        ensures { result ≡ ended_by (ticked now) self.now }
    {
        match self.hold {
            Some(hold) if hold.until <= now => Some(hold),
            _ => None,
        }
    }

    /// The clock stands at this moment. A hold that ends at it or before is handed back, and the
    /// device is free then.
    pub fn expire(&mut self, now: u64) -> Option<Hold>
        requires { now < MOMENT_LIMIT }
        ensures ended { result ≡ ended_by (ticked now) self.old }
        ensures state { self.new ≡ after (ticked now) self.old }
    {
        let ended = self.ends_at(now);
        if ended.is_some() {
            self.hold = None;
        }
        ended
    }

    /// Tags the device, 0 to [`TAG_LIMIT`]. A hold stays.
    pub fn set_tag(&mut self, tag: u8)
        requires { tag ≤ TAG_LIMIT }
        ensures tag { self.new ≡ record self.old { tag = tag } }
        ensures state { (reason : List ℕ)
            → self.new ≡ after (tagged (record { tag = tag; reason = reason })) self.old }
    {
        self.tag = tag;
    }

    pub fn tag(&self) -> u8
        ensures value { result ≡ self.now.tag }
        ensures lawful { result ≤ TAG_LIMIT }
    {
        self.tag
    }

    /// The selection that stands.
    pub fn holder(&self) -> Option<Hold>
        ensures { result ≡ self.now.hold }
    {
        self.hold
    }
}

/// Whether a select was granted.
fn is_granted(answer: Select) -> bool
    ensures { (s : DeviceState) (key : Key) → s.point.direct ≡ false
        → answer ≡ select_answer s key → result ≡ is_granted s key }
{
    match answer {
        Select::Granted => true,
        Select::Inhibited => false,
        Select::HeldByOther => false,
    }
}

fn is_held_by(hold: Option<Hold>, key: Key) -> bool
    ensures { result ≡ is_held_by key hold }
{
    match hold {
        Some(hold) => hold.key == key,
        None => false,
    }
}

fn is_held_by_other(hold: Option<Hold>, key: Key) -> bool
    ensures { result ≡ is_held_by_other key hold }
{
    match hold {
        Some(hold) => hold.key != key,
        None => false,
    }
}

/// Whether a device of this kind has the value.
fn takes(kind: CommandKind, value: i64) -> bool
    ensures { result ≡ takes kind value }
{
    match kind {
        CommandKind::Command => value == 0 || value == 1,
        CommandKind::Setpoint { low, high } => i64::from(low) <= value && value <= i64::from(high),
    }
}

/// Whether a tag inhibits the value on a device of this kind.
fn inhibits(tag: u8, kind: CommandKind, value: i64) -> bool
    ensures { result ≡ inhibits tag kind value }
{
    match kind {
        CommandKind::Command => {
            tag == OPEN_AND_CLOSE_INHIBITED || tag == CLOSE_INHIBITED && value == 1
        }
        CommandKind::Setpoint { .. } => tag == OPEN_AND_CLOSE_INHIBITED,
    }
}
