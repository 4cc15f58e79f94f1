//! What events weigh in a history.
ghost use Rattle.std.specs.Prelude.{◌≡◌, ◌≤◌, length, flat_map};
ghost use Rattle.plain_text.specs.Lengths.{capped_len};
ghost use Rattle.plain_text.specs.declared.lengths.TheConstants.{MOST_LEN};
ghost use Rattle.tase_points.specs.declared.body.Body.{Body as AnyBody};
ghost use Rattle.tase_views.specs.declared.event.EventKind.TheVariants.{Update, Table, Tag, Ask};
ghost use Rattle.tase_views.specs.declared.call.CallKind.{CallKind as AnyCall};
ghost use Rattle.tase_views.specs.EventTexts.{call_text, read_verb, next_name};
ghost use Rattle.tase_views.specs.EventTexts.{read_set_verb, next_value};
ghost use Rattle.tase_views.specs.EventTexts.{assigned_text, after_text, body_text, value_text};
ghost use Rattle.tase_views.specs.Weights.{weight};

use crate::call::{Call, CallKind};
use crate::event::{Event, EventKind};
use crate::tag::DeviceTag;
use ber_values::Visible;
use mms_data::text::{data_text_len, name_text_len, scope_text_len};
use mms_data::{MmsData, Name, Scope};
use plain_text::{add_len, decimal_len, escaped_len, signed_decimal_len};
use tase_points::{Body, PointValue};

/// What an event weighs: the number of octets of its text, or 2^62 where that is longer.
pub fn weight(event: &Event) -> u64
    ensures value { result ≡ weight event.now }
    ensures most { result ≤ MOST_LEN }
{
    match event.kind() {
        EventKind::Open { peer } => 5 + decimal_len(u64::from(*peer)),
        EventKind::Request { call } => add_len(5, call_len(call)),
        EventKind::Take => 4,
        EventKind::Close => 5,
        EventKind::Update { point, value } => update_len(*point, value),
        EventKind::Table { peer, variant } => table_len(*peer, *variant),
        EventKind::Tag { device, tag } => tag_len(*device, tag),
        EventKind::Tick { now } => 5 + decimal_len(*now),
        EventKind::Ask { peer, slot } => ask_len(*peer, *slot),
        EventKind::TakeOrders => 6,
        EventKind::Stop => 4,
    }
}

/// How many octets the text of a choice of a table has.
fn table_len(peer: u32, variant: u32) -> u64
    ensures { result ≡ weight (Table peer variant) }
{
    7 + decimal_len(u64::from(peer)) + decimal_len(u64::from(variant))
}

/// How many octets the text of a tagging has.
fn tag_len(device: u32, tag: &DeviceTag) -> u64
    ensures { result ≡ weight (Tag device tag.now) }
{
    let reason = tag.reason().as_slice();
    7 + decimal_len(u64::from(device)) + decimal_len(u64::from(tag.tag())) + escaped_len(reason)
}

/// How many octets the text of a request of the operator has.
fn ask_len(peer: u32, slot: u32) -> u64
    ensures { result ≡ weight (Ask peer slot) }
{
    5 + decimal_len(u64::from(peer)) + decimal_len(u64::from(slot))
}

/// How many octets the text of an update has.
fn update_len(point: u32, value: &PointValue) -> u64
    ensures { result ≡ weight (Update point value.now) }
{
    8 + decimal_len(u64::from(point)) + value_len(value)
}

/// How many octets the text of a point's value has.
fn value_len(value: &PointValue) -> u64
    ensures exact { result ≡ length (value_text value.now) }
    ensures few { result ≤ 67 }
{
    body_len(&value.body())
        + 4
        + decimal_len(u64::from(value.seconds()))
        + 1
        + decimal_len(u64::from(value.millis()))
}

fn body_len(body: &Body) -> u64
    ensures exact { result ≡ length (body_text body.now) }
    ensures few { result ≤ 22 }
{
    match body {
        Body::State(state) => 1 + decimal_len(u64::from(*state)),
        Body::Discrete(discrete) => 1 + signed_decimal_len(i64::from(*discrete)),
        Body::Real(real) => real_len(real),
    }
}

fn real_len(real: &[u8; 4]) -> u64
    ensures exact { result ≡ length (body_text (AnyBody.Real real.now)) }
    ensures few { result ≤ 9 }
{
    9
}

/// How many octets the text of a call has, or 2^62 where it has as many or more.
fn call_len(call: &Call) -> u64
    ensures { result ≡ capped_len (length (call_text call.now)) }
{
    match call.kind() {
        CallKind::Identify => 8,
        CallKind::Read { names, echo } => add_len(verb_len(*echo), names_len(names.as_slice())),
        CallKind::ReadSet { set, echo } => set_verb_len(*echo) + 1 + name_text_len(set),
        CallKind::Write { names, values } => {
            add_len(5, assigned_len(names.as_slice(), values.as_slice()))
        }
        CallKind::WriteSet { set, values } => {
            add_len(9 + name_text_len(set), values_len(values.as_slice()))
        }
        CallKind::NameList {
            class,
            scope,
            after,
        } => list_len(*class, scope, after),
        CallKind::Define { set, members } => {
            add_len(7 + name_text_len(set), names_len(members.as_slice()))
        }
        CallKind::TypeOf { name } => 5 + name_text_len(name),
        CallKind::MembersOf { set } => 8 + name_text_len(set),
        CallKind::Delete { sets } => add_len(6, names_len(sets.as_slice())),
        CallKind::DeleteScope { scope } => 12 + signed_decimal_len(*scope),
        CallKind::Odd { kind, code } => odd_len(*kind, *code),
    }
}

fn verb_len(echo: bool) -> u64
    ensures exact { result ≡ length (read_verb echo) }
    ensures few { result ≤ 5 }
{
    if echo { 5 } else { 4 }
}

fn set_verb_len(echo: bool) -> u64
    ensures exact { result ≡ length (read_set_verb echo) }
    ensures few { result ≤ 8 }
{
    if echo { 8 } else { 7 }
}

/// Values, each after a space.
fn values_len(values: &[MmsData]) -> u64
    ensures { result ≡ capped_len (length (flat_map next_value values.now)) }
{
    let mut len = 0;
    for value in values {
        len = add_len(len, add_len(1, data_text_len(value)));
    }
    len
}

/// Names, each after a space.
fn names_len(names: &[Name]) -> u64
    ensures { result ≡ capped_len (length (flat_map next_name names.now)) }
{
    let mut len = 0;
    for name in names {
        len = add_len(len, 1 + name_text_len(name));
    }
    len
}

/// Names with their values, each after a space.
fn assigned_len(names: &[Name], values: &[MmsData]) -> u64
    requires { length values.now ≡ length names.now }
    ensures { result ≡ capped_len (length (assigned_text names.now values.now)) }
{
    let mut len = 0;
    for (place, name) in names.iter().enumerate() {
        let value = data_text_len(&values[place]);
        len = add_len(len, add_len(2 + name_text_len(name), value));
    }
    len
}

fn list_len(class: i64, scope: &Scope, after: &Option<Visible>) -> u64
    ensures { result ≡ capped_len (length (call_text
        (AnyCall.NameList class scope.now after.now))) }
{
    7 + signed_decimal_len(class) + scope_text_len(scope) + after_len(after)
}

fn after_len(after: &Option<Visible>) -> u64
    ensures exact { result ≡ length (after_text after.now) }
    ensures few { result ≤ 193 }
{
    match after {
        Some(after) => 1 + escaped_len(after.as_slice()),
        None => 0,
    }
}

fn odd_len(kind: u8, code: u8) -> u64
    ensures { result ≡ capped_len (length (call_text (AnyCall.Odd kind code))) }
{
    5 + decimal_len(u64::from(kind)) + decimal_len(u64::from(code))
}
