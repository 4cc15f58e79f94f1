//! What each entry keeps, by the types of its parts: each of these is one that a word spells. But
//! for walks over lists nothing is done.
ghost use Rattle.std.specs.Prelude.{◌<◌, ◌^◌, IsTrue};
ghost use Rattle.std.specs.Int.{w64};
ghost use Rattle.std.specs.Int.RustNames.{FitsSigned};
ghost use Rattle.std.specs.List.{All, list_all};
ghost use Rattle.plain_text.specs.Escaped.{is_octet};
ghost use Rattle.ber_values.specs.Visible.{IsVisible};
ghost use Rattle.mms_data.specs.Datum.{Datum};
ghost use Rattle.mms_data.specs.Lawful.{IsLawful, KeepsUnsigned};
ghost use Rattle.mms_data.specs.ObjectName.{IsName};
ghost use Rattle.mms_data.specs.Text.TextRead.{IsTextual, HasText};
ghost use Rattle.tase_points.specs.Values.{IsSample};
ghost use Rattle.tase_views.specs.Calls.{IsCall};
ghost use Rattle.texts.specs.Events.CallWords.{HasWords};
ghost use Rattle.texts.specs.Events.FeedLines.{IsWordBody};
ghost use Rattle.texts.specs.Journal.Entries.{IsTag, IsEvent, IsEntry};

use ber_values::{BitString, Visible};
use mms_data::{DataKind, MmsData, Name};
use tase_points::{Body, PointValue};
use tase_views::{Call, CallKind, DeviceTag, Entry, Event, EventKind, Values};

/// Each part of an entry is one that a word spells, so that its text is read back as this entry.
pub fn entries_have_texts(entry: &Entry)
    ensures { IsEntry entry.now }
{
    is_long(entry.who);
    events_have_texts(&entry.event);
}

/// Each part of an event is one that a word spells.
pub fn events_have_texts(event: &Event)
    ensures { IsEvent event.now }
{
    match event.kind() {
        EventKind::Open { peer } => is_short(*peer),
        EventKind::Request { call } => calls_have_words(call),
        EventKind::Take => {}
        EventKind::Close => {}
        EventKind::Update { point, value } => {
            is_short(*point);
            value_has_words(value);
        }
        EventKind::Table { peer, variant } => {
            is_short(*peer);
            is_short(*variant);
        }
        EventKind::Tag { device, tag } => {
            is_short(*device);
            tag_has_words(tag);
        }
        EventKind::Tick { now } => is_long(*now),
        EventKind::Ask { peer, slot } => {
            is_short(*peer);
            is_short(*slot);
        }
        EventKind::TakeOrders => {}
        EventKind::Stop => {}
    }
}

/// A number of 32 bits is below 2^32.
fn is_short(number: u32)
    ensures { number < 2 ^ 32 }
{
    let _ = number;
}

/// A number of 64 bits is below 2^64.
fn is_long(number: u64)
    ensures { number < 2 ^ 64 }
{
    let _ = number;
}

/// A tag is within its limit, and its reason is visible.
fn tag_has_words(tag: &DeviceTag)
    ensures { IsTag tag.now }
{
    let _ = tag.tag();
    is_visible(tag.reason());
}

/// A visible text has few octets, and each is visible.
fn is_visible(text: &Visible)
    ensures { IsVisible text.now }
{
    let _ = text.as_slice();
}

/// A value is within its ranges.
fn value_has_words(value: &PointValue)
    ensures ranges { IsSample value.now }
    ensures textual { IsWordBody value.now.body }
{
    body_has_word(value.body());
}

/// A discrete value has 32 bits, and a real one four octets.
fn body_has_word(body: Body)
    ensures { IsWordBody body }
{
    match body {
        Body::State(_) => {}
        Body::Discrete(_) => {}
        Body::Real(real) => are_octets(&real),
    }
}

/// Octets are numbers below 256.
fn are_octets(octets: &[u8])
    ensures { IsTrue (list_all is_octet octets.now) }
{
    let _ = octets;
}

/// Each part of a call is one that a word spells.
pub fn calls_have_words(call: &Call)
    ensures lawful { IsCall call.now }
    ensures textual { HasWords call.now }
{
    match call.kind() {
        CallKind::Identify => {}
        CallKind::Read { names, .. } => are_names(names.as_slice()),
        CallKind::ReadSet { set, .. } => is_name(set),
        CallKind::Write { names, values } => {
            are_names(names.as_slice());
            have_texts(values);
        }
        CallKind::WriteSet { set, values } => {
            is_name(set);
            have_texts(values);
        }
        CallKind::NameList { class, .. } => fits(*class),
        CallKind::Define { set, members } => {
            is_name(set);
            are_names(members.as_slice());
        }
        CallKind::TypeOf { name } => is_name(name),
        CallKind::MembersOf { set } => is_name(set),
        CallKind::Delete { sets } => are_names(sets.as_slice()),
        CallKind::DeleteScope { scope } => fits(*scope),
        CallKind::Odd { .. } => {}
    }
}

/// The item of a name, and its domain where it has one, are identifiers.
fn is_name(name: &Name)
    ensures { IsName name.now }
{
    let _ = name.scope();
}

/// The same of each of several names.
fn are_names(names: &[Name])
    ensures { All IsName names.now }
{
    for name in names {
        is_name(name);
    }
}

/// Lawful values have texts.
fn have_texts(values: &Values)
    ensures { All IsLawful values.now → All HasText values.now }
{
    are_textual(values.as_slice());
}

/// Each of several values has parts that a text spells, where its unsigned numbers are below 2^63.
#[cycle(depth)]
fn are_textual(values: &[MmsData])
    ensures { All (λ (d : Datum). KeepsUnsigned d → IsTextual d) values.now }
{
    for value in values {
        is_textual(value);
    }
}

/// The same of one value.
#[cycle(depth)]
fn is_textual(value: &MmsData)
    ensures { KeepsUnsigned value.now → IsTextual value.now }
{
    match value.kind() {
        DataKind::Boolean(_) => {}
        DataKind::Integer(integer) => fits(*integer),
        DataKind::Unsigned(_) => {}
        DataKind::Bits(bits) => are_bits(bits),
        DataKind::Real(real) => are_octets(real),
        DataKind::Octets(octets) => are_octets(octets.as_slice()),
        DataKind::Text(text) => is_visible(text),
        DataKind::Structure(members) => are_textual(members.as_slice()),
        DataKind::Array(members) => are_textual(members.as_slice()),
    }
}

/// Bits fill their octets, and their number has 64 bits.
fn are_bits(bits: &BitString)
    ensures { IsTextual (Datum.bits bits.now) }
{
    let _ = bits.count();
}

/// A signed number of 64 bits is one.
fn fits(integer: i64)
    ensures { FitsSigned w64 integer }
{
    let _ = integer;
}
