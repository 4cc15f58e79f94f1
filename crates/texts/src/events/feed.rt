//! The lines of a feed, and of the clock, read.
ghost use Rattle.std.specs.Prelude.{◌≡◌, ◌<◌, ◌≤◌, length, IfOk};
ghost use Rattle.plain_text.specs.Words.{words};
ghost use Rattle.texts.specs.declared.events.feed.TheConstants.{SLOT_NUMBER_LIMIT};
ghost use Rattle.texts.specs.Events.FeedLines.{feed_event_in, update_in, update_of};
ghost use Rattle.texts.specs.Events.FeedLines.{choice_in, choice_of, tagging_in};
ghost use Rattle.texts.specs.Events.FeedLines.{ask_in, ask_of, tick_in, orders_in};
ghost use Rattle.texts.specs.Events.FeedLines.{centre_event_in};

use crate::events::values::{read_tag, read_value};
use bilateral::Centre;
use plain_text::{is_spaced, next_word, read_number, three_words, two_words};
use std::alloc::{AllocError, Global};
use tase_points::PointValue;
use tase_views::{Event, EventKind, has_slot};

/// The largest number of a table that a line names; a peer has fewer.
pub const TABLE_NUMBER_LIMIT: u64 = 4294967295;

// Definitions cite this limit, so that it stands here as a number too.
const _: () = prove!(TABLE_NUMBER_LIMIT == 4_294_967_295);

/// The largest number of a transfer set that a line names, from 1 on; a table offers fewer.
pub const SLOT_NUMBER_LIMIT: u64 = 4294967295;

const _: () = prove!(SLOT_NUMBER_LIMIT == 4_294_967_295);

/// The largest moment that a line names, in milliseconds since 1970.
pub const LAST_MOMENT: u64 = 2147483647999;

const _: () = prove!(LAST_MOMENT == 2_147_483_647_999);

/// The event of seat 0 that a line of a scenario asks for: `tick NOW`, the clock in milliseconds
/// since 1970; `orders`, the plant takes its orders; or a line of a feed. None for every other
/// line.
pub fn read_centre_line(
    alloc: Global,
    centre: &Centre,
    line: &[u8],
) -> Result<Option<Event>, AllocError>
    ensures { IfOk result (λ event. event ≡ centre_event_in centre.now line.now) }
{
    if !is_spaced(line) {
        return Ok(None);
    }
    let Some((verb, rest)) = next_word(line) else {
        return Ok(None);
    };
    if verb == b"tick".as_slice() {
        Ok(read_tick(rest))
    } else if verb == b"orders".as_slice() {
        Ok(read_orders(rest))
    } else {
        read_feed_line(alloc, centre, line)
    }
}

/// `NOW` behind `tick`: the clock stands at a moment.
fn read_tick(text: &[u8]) -> Option<Event>
    ensures { result ≡ tick_in (words text.now) }
{
    let (word, rest) = next_word(text)?;
    if next_word(rest).is_some() {
        return None;
    }
    let now = read_number(word, LAST_MOMENT)?;
    Some(Event::new(EventKind::Tick { now }))
}

/// Nothing behind `orders`: the plant takes its orders.
fn read_orders(text: &[u8]) -> Option<Event>
    ensures { result ≡ orders_in (words text.now) }
{
    if next_word(text).is_some() {
        return None;
    }
    Some(Event::new(EventKind::TakeOrders))
}

/// The event of seat 0 that a line of a feed or of a scenario asks for:
/// `update NAME BODY FLAGS SECONDS MILLIS`, where the centre has a point of this name and the value
/// is of the point's kind; `table KEY NUMBER`, where it has a peer with this key that has this
/// table, 0 being the peer's first; `tag NAME TAG vREASON`, where it has a device of this name;
/// `ask KEY NUMBER`, where one of the peer's tables offers this transfer set, 1 being the first; or
/// `stop`. None for every other line.
pub fn read_feed_line(
    alloc: Global,
    centre: &Centre,
    line: &[u8],
) -> Result<Option<Event>, AllocError>
    ensures { IfOk result (λ event. event ≡ feed_event_in centre.now line.now) }
{
    if !is_spaced(line) {
        return Ok(None);
    }
    let Some((verb, rest)) = next_word(line) else {
        return Ok(None);
    };
    if verb == b"update".as_slice() {
        Ok(read_update(centre, rest))
    } else if verb == b"table".as_slice() {
        Ok(read_choice(centre, rest))
    } else if verb == b"tag".as_slice() {
        read_tagging(alloc, centre, rest)
    } else if verb == b"ask".as_slice() {
        Ok(read_ask(centre, rest))
    } else if verb == b"stop".as_slice() && next_word(rest).is_none() {
        Ok(Some(Event::new(EventKind::Stop)))
    } else {
        Ok(None)
    }
}

/// `NAME BODY FLAGS SECONDS MILLIS` behind `update`: a point takes a value.
fn read_update(centre: &Centre, text: &[u8]) -> Option<Event>
    ensures { result ≡ update_in centre.now (words text.now) }
{
    let (name, rest) = next_word(text)?;
    let (body, rest) = next_word(rest)?;
    let (flags, rest) = next_word(rest)?;
    let (seconds, rest) = next_word(rest)?;
    let (millis, rest) = next_word(rest)?;
    if next_word(rest).is_some() {
        return None;
    }
    let point = centre.find_point(name)?;
    let value = read_value(body, flags, seconds, millis)?;
    update_at(centre, point, value)
}

/// The update of a point, where the value is of its kind.
fn update_at(centre: &Centre, point: u32, value: PointValue) -> Option<Event>
    requires { point < length centre.now.points }
    ensures { result ≡ update_of centre.now point value }
{
    if value.body().kind().is_same(centre.point(point).kind) {
        Some(Event::new(EventKind::Update { point, value }))
    } else {
        None
    }
}

/// `KEY NUMBER` behind `table`: a table of a peer is chosen.
fn read_choice(centre: &Centre, text: &[u8]) -> Option<Event>
    ensures { result ≡ choice_in centre.now (words text.now) }
{
    let (key, number) = two_words(text)?;
    let peer = centre.find_peer(key)?;
    let variant = read_number(number, TABLE_NUMBER_LIMIT)?;
    choice_at(centre, peer, variant as u32)
}

/// The choice of a table of a peer, where the peer has it.
fn choice_at(centre: &Centre, peer: u32, variant: u32) -> Option<Event>
    requires { peer < length centre.now.tables }
    ensures { result ≡ choice_of centre.now peer variant }
{
    if variant < centre.variants(peer) {
        Some(Event::new(EventKind::Table { peer, variant }))
    } else {
        None
    }
}

/// `NAME TAG vREASON` behind `tag`: the operator tags a device.
fn read_tagging(alloc: Global, centre: &Centre, text: &[u8]) -> Result<Option<Event>, AllocError>
    ensures { IfOk result (λ event. event ≡ tagging_in centre.now (words text.now)) }
{
    let Some((name, number, reason)) = three_words(text) else {
        return Ok(None);
    };
    let Some(device) = centre.find_device(name) else {
        return Ok(None);
    };
    let Some(tag) = read_tag(alloc, number, reason)? else {
        return Ok(None);
    };
    Ok(Some(Event::new(EventKind::Tag { device, tag })))
}

/// `KEY NUMBER` behind `ask`: the operator asks for a report of a transfer set of a peer.
fn read_ask(centre: &Centre, text: &[u8]) -> Option<Event>
    ensures { result ≡ ask_in centre.now (words text.now) }
{
    let (key, word) = two_words(text)?;
    let peer = centre.find_peer(key)?;
    let number = read_number(word, SLOT_NUMBER_LIMIT)?;
    ask_at(centre, peer, number)
}

/// The request for a transfer set of a peer, which counts from 1, where a table of the peer has it.
fn ask_at(centre: &Centre, peer: u32, number: u64) -> Option<Event>
    requires { number ≤ SLOT_NUMBER_LIMIT }
    ensures { result ≡ ask_of centre.now peer number }
{
    if number == 0 {
        return None;
    }
    let slot = (number - 1) as u32;
    if has_slot(centre, peer, slot) {
        Some(Event::new(EventKind::Ask { peer, slot }))
    } else {
        None
    }
}
