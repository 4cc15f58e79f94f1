ghost use Rattle.std.specs.Prelude.{◌≡◌, if◌then◌else◌, IfOk, None, Some, option_map};
ghost use Rattle.plain_text.specs.Words.{words};
ghost use Rattle.std.specs.Prelude.{IfSome};
ghost use Rattle.tase_replay.specs.Links.{an_item, an_event, asking_in, asking_seen, given_seen};
ghost use Rattle.tase_replay.specs.Links.{IsFit, IsFitting};
ghost use Rattle.conn_service.specs.TaseConn.Map.Asked.{is_odd};
ghost use Rattle.tase_replay.specs.CallIn.{call_of_words};
ghost use Rattle.tase_replay.specs.Lines.{seat_in, entry_by, open_in, say_in, seated_in, entry_in};

use crate::links::{LineItem, is_link_word, read_given};
use bilateral::Centre;
use plain_text::{is_spaced, next_word, read_number};
use std::alloc::{AllocError, Global};
use tase_views::{Call, CallKind, Entry, Event, EventKind};
use texts::events::{read_call_words, read_centre_line};

/// What a line asks for.
#[derive(Drop)]
pub(crate) enum LineRequest {
    /// An event of a seat.
    Event(Entry),
    /// That the link of a seat gives something.
    Item(LineItem),
}

/// The highest number of a peer's seat.
const SEAT_LIMIT: u64 = 4_294_967_295;

// Definitions cite this limit, so that it stands here as a number too.
const _: () = prove!(SEAT_LIMIT == 4_294_967_295);

/// What a line asks for, where it is one of the forms.
pub(crate) fn read_asked(
    alloc: Global,
    centre: &Centre,
    line: &[u8],
) -> Result<Option<LineRequest>, AllocError>
    ensures asked { IfOk result (λ found.
        option_map asking_seen found ≡ asking_in centre.now line.now) }
    ensures fits { IfOk result (λ found. IfSome found IsFitting) }
{
    if !is_spaced(line) {
        return Ok(None);
    }
    let Some((verb, rest)) = next_word(line) else {
        return Ok(None);
    };
    if is_link_word(verb) {
        Ok(as_item(read_given(alloc, verb, rest)?))
    } else {
        Ok(as_event(read_entry(alloc, centre, line)?))
    }
}

fn as_item(given: Option<LineItem>) -> Option<LineRequest>
    requires { IfSome given (λ g. IsFit g.item) }
    ensures asked { option_map asking_seen result
        ≡ option_map (λ g. an_item (given_seen g)) given }
    ensures fits { IfSome result IsFitting }
{
    Some(LineRequest::Item(given?))
}

fn as_event(entry: Option<Entry>) -> Option<LineRequest>
    ensures asked { option_map asking_seen result ≡ option_map an_event entry }
    ensures fits { IfSome result IsFitting }
{
    Some(LineRequest::Event(entry?))
}

/// The entry that a line asks for, where it is one of the forms and names what the centre has.
pub(crate) fn read_entry(
    alloc: Global,
    centre: &Centre,
    line: &[u8],
) -> Result<Option<Entry>, AllocError>
    ensures { IfOk result (λ entry. entry ≡ entry_in centre.now line.now) }
{
    if !is_spaced(line) {
        return Ok(None);
    }
    let Some((verb, rest)) = next_word(line) else {
        return Ok(None);
    };
    if verb == b"open".as_slice() {
        Ok(read_open(centre, rest))
    } else if verb == b"say".as_slice() {
        read_say(alloc, rest)
    } else if verb == b"take".as_slice() {
        Ok(read_seated(rest, Event::new(EventKind::Take)))
    } else if verb == b"close".as_slice() {
        Ok(read_seated(rest, Event::new(EventKind::Close)))
    } else {
        Ok(fed(read_centre_line(alloc, centre, line)?))
    }
}

/// The seat of a peer that a word is, from 1 on.
pub(crate) fn read_seat(word: &[u8]) -> Option<u64>
    ensures { result ≡ seat_in word.now }
{
    let seat = read_number(word, SEAT_LIMIT)?;
    if seat >= 1 { Some(seat) } else { None }
}

/// `W KEY` behind `open`: a peer opens an association.
fn read_open(centre: &Centre, text: &[u8]) -> Option<Entry>
    ensures { result ≡ open_in centre.now (words text.now) }
{
    let (seat, rest) = next_word(text)?;
    let (key, rest) = next_word(rest)?;
    if next_word(rest).is_some() {
        return None;
    }
    let who = read_seat(seat)?;
    let peer = centre.find_peer(key)?;
    let event = Event::new(EventKind::Open { peer });
    Some(Entry { who, event })
}

/// `W` behind `take` or `close`: a peer takes reports, or its association ends.
fn read_seated(text: &[u8], event: Event) -> Option<Entry>
    ensures { result ≡ seated_in event (words text.now) }
{
    let (seat, rest) = next_word(text)?;
    if next_word(rest).is_some() {
        return None;
    }
    let who = read_seat(seat)?;
    Some(Entry { who, event })
}

/// An event of the centre's own systems.
fn fed(event: Option<Event>) -> Option<Entry>
    ensures { result ≡ option_map (λ fed. entry_by fed 0) event }
{
    let event = event?;
    Some(Entry { who: 0, event })
}

/// `W CALL` behind `say`: a peer asks something.
fn read_say(alloc: Global, text: &[u8]) -> Result<Option<Entry>, AllocError>
    ensures { IfOk result (λ entry. entry ≡ say_in (words text.now)) }
{
    let Some((seat, rest)) = next_word(text) else {
        return Ok(None);
    };
    let Some(who) = read_seat(seat) else {
        return Ok(None);
    };
    let Some(call) = read_said(alloc, rest)? else {
        return Ok(None);
    };
    let event = Event::new(EventKind::Request { call });
    Ok(Some(Entry { who, event }))
}

/// The call that words are, where they are one that may be said.
fn read_said(alloc: Global, text: &[u8]) -> Result<Option<Call>, AllocError>
    ensures { IfOk result (λ call. call ≡ call_of_words (words text.now)) }
{
    match read_call_words(alloc, text)? {
        Ok(call) => Ok(unless_odd(call)),
        Err(_) => Ok(None),
    }
}

/// A call, unless it is an odd one.
fn unless_odd(call: Call) -> Option<Call>
    ensures { result ≡ if is_odd call then None else Some call }
{
    match call.kind() {
        CallKind::Odd { .. } => None,
        _ => Some(call),
    }
}
