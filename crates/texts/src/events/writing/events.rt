//! The texts of events.
ghost use Rattle.std.specs.Prelude.{◌≡◌, ◌∷◌, ◌++◌, OnOk, OnErr, codes, decimal};
ghost use Rattle.plain_text.specs.Extends.{Extends};
ghost use Rattle.tase_views.specs.EventTexts.{call_text, event_text, body_text, value_text};
ghost use Rattle.tase_views.specs.EventTexts.{tag_text};

use crate::events::writing::calls::put_call;
use plain_text::{push_decimal, push_escaped, push_hex, push_signed_decimal};
use std::alloc::AllocError;
use tase_points::{Body, PointValue};
use tase_views::{Call, DeviceTag, Event, EventKind};

/// Appends the text of an event.
pub(crate) fn put_event(out: &mut Vec<u8>, event: &Event) -> Result<(), AllocError>
    ensures ok { OnOk result (out.new.items ≡ out.old.items ++ event_text event.now) }
    ensures err { OnErr result (Extends out.old.items out.new.items) }
{
    match event.kind() {
        EventKind::Open { peer } => put_open(out, *peer),
        EventKind::Request { call } => put_request(out, call),
        EventKind::Take => out.extend_from_slice(b"take"),
        EventKind::Close => out.extend_from_slice(b"close"),
        EventKind::Update { point, value } => put_update(out, *point, value),
        EventKind::Table { peer, variant } => put_choice(out, *peer, *variant),
        EventKind::Tag { device, tag } => put_tagging(out, *device, tag),
        EventKind::Tick { now } => put_tick(out, *now),
        EventKind::Ask { peer, slot } => put_ask(out, *peer, *slot),
        EventKind::TakeOrders => out.extend_from_slice(b"orders"),
        EventKind::Stop => out.extend_from_slice(b"stop"),
    }
}

/// Appends `open` and a peer's number.
#[tactic(auto, using(crate::proofs::OfEvents::Extended::extended))]
fn put_open(out: &mut Vec<u8>, peer: u32) -> Result<(), AllocError>
    ensures ok { OnOk result (out.new.items ≡ out.old.items ++ codes "open " ++ decimal peer) }
    ensures err { OnErr result (Extends out.old.items out.new.items) }
{
    out.extend_from_slice(b"open ")?;
    push_decimal(out, u64::from(peer))
}

/// Appends `call` and a call.
#[tactic(auto, using(crate::proofs::OfEvents::Extended::extended))]
fn put_request(out: &mut Vec<u8>, call: &Call) -> Result<(), AllocError>
    ensures ok { OnOk result (out.new.items
        ≡ out.old.items ++ codes "call " ++ call_text call.now) }
    ensures err { OnErr result (Extends out.old.items out.new.items) }
{
    out.extend_from_slice(b"call ")?;
    put_call(out, call)
}

/// Appends `update`, a point's number and its value.
#[tactic(auto, using(crate::proofs::OfEvents::Extended::extended))]
fn put_update(out: &mut Vec<u8>, point: u32, value: &PointValue) -> Result<(), AllocError>
    ensures ok { OnOk result (out.new.items
        ≡ out.old.items ++ codes "update " ++ decimal point ++ 32 ∷ value_text value.now) }
    ensures err { OnErr result (Extends out.old.items out.new.items) }
{
    out.extend_from_slice(b"update ")?;
    push_decimal(out, u64::from(point))?;
    out.push(b' ')?;
    put_value(out, value)
}

/// Appends `table`, a peer's number and that of a table of it.
#[tactic(auto, using(crate::proofs::OfEvents::Extended::extended))]
fn put_choice(out: &mut Vec<u8>, peer: u32, variant: u32) -> Result<(), AllocError>
    ensures ok { OnOk result (out.new.items
        ≡ out.old.items ++ codes "table " ++ decimal peer ++ 32 ∷ decimal variant) }
    ensures err { OnErr result (Extends out.old.items out.new.items) }
{
    out.extend_from_slice(b"table ")?;
    push_decimal(out, u64::from(peer))?;
    out.push(b' ')?;
    push_decimal(out, u64::from(variant))
}

/// Appends `tag`, a device's number, its tag and the reason.
#[tactic(auto, using(crate::proofs::OfEvents::Extended::extended))]
fn put_tagging(out: &mut Vec<u8>, device: u32, tag: &DeviceTag) -> Result<(), AllocError>
    ensures ok { OnOk result (out.new.items
        ≡ out.old.items ++ codes "tag " ++ decimal device ++ 32 ∷ tag_text tag.now) }
    ensures err { OnErr result (Extends out.old.items out.new.items) }
{
    out.extend_from_slice(b"tag ")?;
    push_decimal(out, u64::from(device))?;
    out.push(b' ')?;
    put_tag(out, tag)
}

/// Appends a tag and, behind `v`, the reason.
#[tactic(auto, using(crate::proofs::OfEvents::Extended::extended))]
fn put_tag(out: &mut Vec<u8>, tag: &DeviceTag) -> Result<(), AllocError>
    ensures ok { OnOk result (out.new.items ≡ out.old.items ++ tag_text tag.now) }
    ensures err { OnErr result (Extends out.old.items out.new.items) }
{
    push_decimal(out, u64::from(tag.tag()))?;
    out.extend_from_slice(b" v")?;
    push_escaped(out, tag.reason().as_slice())
}

/// Appends `tick` and a moment.
#[tactic(auto, using(crate::proofs::OfEvents::Extended::extended))]
fn put_tick(out: &mut Vec<u8>, now: u64) -> Result<(), AllocError>
    ensures ok { OnOk result (out.new.items ≡ out.old.items ++ codes "tick " ++ decimal now) }
    ensures err { OnErr result (Extends out.old.items out.new.items) }
{
    out.extend_from_slice(b"tick ")?;
    push_decimal(out, now)
}

/// Appends `ask`, a peer's number and that of a transfer set of it.
#[tactic(auto, using(crate::proofs::OfEvents::Extended::extended))]
fn put_ask(out: &mut Vec<u8>, peer: u32, slot: u32) -> Result<(), AllocError>
    ensures ok { OnOk result (out.new.items
        ≡ out.old.items ++ codes "ask " ++ decimal peer ++ 32 ∷ decimal slot) }
    ensures err { OnErr result (Extends out.old.items out.new.items) }
{
    out.extend_from_slice(b"ask ")?;
    push_decimal(out, u64::from(peer))?;
    out.push(b' ')?;
    push_decimal(out, u64::from(slot))
}

/// Appends a body, its flags, its seconds and its milliseconds.
#[tactic(auto, using(crate::proofs::OfEvents::Extended::extended))]
fn put_value(out: &mut Vec<u8>, value: &PointValue) -> Result<(), AllocError>
    ensures ok { OnOk result (out.new.items ≡ out.old.items ++ value_text value.now) }
    ensures err { OnErr result (Extends out.old.items out.new.items) }
{
    put_body(out, value.body())?;
    out.push(b' ')?;
    push_hex(out, &[value.flags()])?;
    out.push(b' ')?;
    push_decimal(out, u64::from(value.seconds()))?;
    out.push(b' ')?;
    push_decimal(out, u64::from(value.millis()))
}

/// Appends the letter of a body's kind and the body.
#[tactic(auto, using(crate::proofs::OfEvents::Extended::extended))]
fn put_body(out: &mut Vec<u8>, body: Body) -> Result<(), AllocError>
    ensures ok { OnOk result (out.new.items ≡ out.old.items ++ body_text body) }
    ensures err { OnErr result (Extends out.old.items out.new.items) }
{
    match body {
        Body::State(state) => {
            out.push(b's')?;
            push_decimal(out, u64::from(state))
        }
        Body::Discrete(number) => {
            out.push(b'd')?;
            push_signed_decimal(out, i64::from(number))
        }
        Body::Real(octets) => {
            out.push(b'r')?;
            push_hex(out, &octets)
        }
    }
}
