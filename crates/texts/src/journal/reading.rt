//! The text of an entry, read.
ghost use Rattle.std.specs.Prelude.{◌≡◌, option_map, IfOk};
ghost use Rattle.plain_text.specs.Words.{words};
ghost use Rattle.tase_views.specs.declared.event.EventKind.TheVariants as events;
ghost use Rattle.texts.specs.Journal.CallIn.{call_in};
ghost use Rattle.texts.specs.Journal.Entries as own;

use crate::events::{read_call_words, read_small, read_tag, read_value};
use plain_text::{next_part, next_word, read_number, three_words, two_words};
use std::alloc::{AllocError, Global};
use tase_views::{Call, Entry, Event, EventKind};

/// The entry whose text a line is, as [`spell_entry`](crate::journal::spell_entry) writes it; none
/// where it is the text of no entry.
pub fn read_entry(alloc: Global, line: &[u8]) -> Result<Option<Entry>, AllocError>
    ensures { IfOk result (λ entry. entry ≡ own.entry_in line.now) }
{
    if !is_single_spaced(line) {
        return Ok(None);
    }
    let Some((seat, rest)) = next_word(line) else {
        return Ok(None);
    };
    let Some(who) = read_number(seat, u64::MAX) else {
        return Ok(None);
    };
    let Some(event) = read_event(alloc, rest)? else {
        return Ok(None);
    };
    Ok(Some(Entry { who, event }))
}

/// Whether a line has exactly one space between each two words, and no other.
fn is_single_spaced(line: &[u8]) -> bool
    ensures { result ≡ own.is_single_spaced line.now }
{
    let mut rest = line;
    loop {
        let (part, more) = next_part(rest, b' ');
        if part.is_empty() {
            return false;
        }
        match more {
            Some(after) => rest = after,
            None => return true,
        }
    }
}

/// The event that the words of a text are.
fn read_event(alloc: Global, text: &[u8]) -> Result<Option<Event>, AllocError>
    ensures { IfOk result (λ event. event ≡ own.event_in (words text.now)) }
{
    let Some((verb, rest)) = next_word(text) else {
        return Ok(None);
    };
    if verb == b"open".as_slice() {
        Ok(read_open(rest))
    } else if verb == b"call".as_slice() {
        read_request(alloc, rest)
    } else if verb == b"take".as_slice() {
        Ok(read_bare(rest, Event::new(EventKind::Take)))
    } else if verb == b"close".as_slice() {
        Ok(read_bare(rest, Event::new(EventKind::Close)))
    } else {
        read_centre_event(alloc, verb, rest)
    }
}

/// The event of the centre that a verb and the words behind it are.
fn read_centre_event(alloc: Global, verb: &[u8], text: &[u8]) -> Result<Option<Event>, AllocError>
    ensures { IfOk result (λ event. event ≡ own.centre_event_in verb.now (words text.now)) }
{
    if verb == b"update".as_slice() {
        Ok(read_update(text))
    } else if verb == b"tick".as_slice() {
        Ok(read_tick(text))
    } else if verb == b"table".as_slice() {
        Ok(read_choice(text))
    } else if verb == b"ask".as_slice() {
        Ok(read_ask(text))
    } else if verb == b"tag".as_slice() {
        read_tagging(alloc, text)
    } else if verb == b"orders".as_slice() {
        Ok(read_bare(text, Event::new(EventKind::TakeOrders)))
    } else if verb == b"stop".as_slice() {
        Ok(read_bare(text, Event::new(EventKind::Stop)))
    } else {
        Ok(None)
    }
}

/// An event behind whose verb nothing stands.
fn read_bare(text: &[u8], event: Event) -> Option<Event>
    ensures { result ≡ own.bare_in event (words text.now) }
{
    if next_word(text).is_some() {
        return None;
    }
    Some(event)
}

/// The number of 32 bits that a word is.
fn read_short(word: &[u8]) -> Option<u32>
    ensures { result ≡ own.short_in word.now }
{
    read_small(word, u32::MAX)
}

/// The two numbers of 32 bits that the words of a text are.
fn read_pair(text: &[u8]) -> Option<(u32, u32)>
    ensures { result ≡ own.pair_in (words text.now) }
{
    let (first, second) = two_words(text)?;
    Some((read_short(first)?, read_short(second)?))
}

/// `PEER` behind `open`.
fn read_open(text: &[u8]) -> Option<Event>
    ensures { result ≡ own.open_in (words text.now) }
{
    let (word, rest) = next_word(text)?;
    if next_word(rest).is_some() {
        return None;
    }
    let peer = read_short(word)?;
    Some(Event::new(EventKind::Open { peer }))
}

/// `CALL` behind `call`.
fn read_request(alloc: Global, text: &[u8]) -> Result<Option<Event>, AllocError>
    ensures { IfOk result (λ event.
        event ≡ option_map events.Request (call_in (words text.now))) }
{
    let Some(call) = read_call(alloc, text)? else {
        return Ok(None);
    };
    Ok(Some(Event::new(EventKind::Request { call })))
}

/// The call that the words of a text are.
fn read_call(alloc: Global, text: &[u8]) -> Result<Option<Call>, AllocError>
    ensures { IfOk result (λ call. call ≡ call_in (words text.now)) }
{
    match read_call_words(alloc, text)? {
        Ok(call) => Ok(Some(call)),
        Err(_) => Ok(None),
    }
}

/// `NOW` behind `tick`.
fn read_tick(text: &[u8]) -> Option<Event>
    ensures { result ≡ own.tick_in (words text.now) }
{
    let (word, rest) = next_word(text)?;
    if next_word(rest).is_some() {
        return None;
    }
    let now = read_number(word, u64::MAX)?;
    Some(Event::new(EventKind::Tick { now }))
}

/// `PEER VARIANT` behind `table`.
fn read_choice(text: &[u8]) -> Option<Event>
    ensures { result ≡ option_map (λ p. events.Table p.0 p.1) (own.pair_in (words text.now)) }
{
    let (peer, variant) = read_pair(text)?;
    Some(Event::new(EventKind::Table { peer, variant }))
}

/// `PEER SLOT` behind `ask`.
fn read_ask(text: &[u8]) -> Option<Event>
    ensures { result ≡ option_map (λ p. events.Ask p.0 p.1) (own.pair_in (words text.now)) }
{
    let (peer, slot) = read_pair(text)?;
    Some(Event::new(EventKind::Ask { peer, slot }))
}

/// `POINT BODY FLAGS SECONDS MILLIS` behind `update`.
fn read_update(text: &[u8]) -> Option<Event>
    ensures { result ≡ own.update_in (words text.now) }
{
    let (point, rest) = next_word(text)?;
    let (body, rest) = next_word(rest)?;
    let (flags, rest) = next_word(rest)?;
    let (seconds, rest) = next_word(rest)?;
    let (millis, rest) = next_word(rest)?;
    if next_word(rest).is_some() {
        return None;
    }
    let point = read_short(point)?;
    let value = read_value(body, flags, seconds, millis)?;
    Some(Event::new(EventKind::Update { point, value }))
}

/// `DEVICE TAG vREASON` behind `tag`.
fn read_tagging(alloc: Global, text: &[u8]) -> Result<Option<Event>, AllocError>
    ensures { IfOk result (λ event. event ≡ own.tagging_in (words text.now)) }
{
    let Some((device, number, reason)) = three_words(text) else {
        return Ok(None);
    };
    let Some(device) = read_short(device) else {
        return Ok(None);
    };
    let Some(tag) = read_tag(alloc, number, reason)? else {
        return Ok(None);
    };
    Ok(Some(Event::new(EventKind::Tag { device, tag })))
}
