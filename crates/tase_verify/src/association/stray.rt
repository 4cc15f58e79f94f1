//! Which event of an association isn't what its link asks.
ghost use Rattle.std.specs.Prelude.{◌≡◌, if◌then◌else◌, Some, None, option_map, drop};
ghost use Rattle.tase_views.specs.Outcomes.{is_close};
ghost use Rattle.tase_conn.specs.Map.Asks.{is_take, without_takes};
ghost use Rattle.tase_verify.specs.Association.Spelled.{events_spelled};
ghost use Rattle.tase_verify.specs.Association.Stray.{same_event, is_request, asked_behind};
ghost use Rattle.tase_verify.specs.Association.Stray.{first_stray};

use crate::association::spelled_event::SpelledEvent;
use tase_views::{Event, EventKind};

/// The number of the first event, counted from 0 and without takes, that isn't accounted for by
/// what is asked, or is missing; none where there is no such event. Where there are no events it is
/// 0. It takes no memory.
pub(crate) fn first_stray(events: &[SpelledEvent<'_>], asked: &[SpelledEvent<'_>]) -> Option<u64>
    ensures { result ≡ first_stray (without_takes (events_spelled events.now))
        (events_spelled asked.now) }
{
    let mut number: u64 = 0;
    let mut done = 0;
    for event in events {
        if is_take(event.event) {
            continue;
        }
        match done_behind(event, asked, done) {
            Some(more) => done = more,
            None => return Some(number),
        }
        number += 1;
    }
    if number == 0 {
        return Some(number);
    }
    if done < asked.len() {
        return Some(number);
    }
    None
}

/// How many of those that are asked are done with behind an event, where so many were before it;
/// none where it isn't accounted for.
fn done_behind(event: &SpelledEvent<'_>, asked: &[SpelledEvent<'_>], done: usize) -> Option<usize>
    ensures { option_map (λ more. events_spelled (drop more asked.now)) result
        ≡ asked_behind event.now.event.now (events_spelled (drop done asked.now)) }
{
    let Some(next) = asked.get(done) else {
        return closes_behind_all(event.event, asked.len());
    };
    if is_close(event.event) && is_request(next.event) {
        return Some(asked.len());
    }
    if same_event(event, next) {
        return Some(done + 1);
    }
    None
}

/// All are done with behind a close of the node's own.
fn closes_behind_all(event: &Event, all: usize) -> Option<usize>
    ensures { result ≡ (if is_close event.now then Some all else None) }
{
    if is_close(event) { Some(all) } else { None }
}

/// Whether two events have one text.
fn same_event(one: &SpelledEvent<'_>, other: &SpelledEvent<'_>) -> bool
    ensures { result ≡ same_event one.now.event.now other.now.event.now }
{
    one.text.as_slice() == other.text.as_slice()
}

fn is_take(event: &Event) -> bool
    ensures { result ≡ is_take event.now }
{
    match event.kind() {
        EventKind::Take => true,
        _ => false,
    }
}

fn is_close(event: &Event) -> bool
    ensures { result ≡ is_close event.now }
{
    match event.kind() {
        EventKind::Close => true,
        _ => false,
    }
}

fn is_request(event: &Event) -> bool
    ensures { result ≡ is_request event.now }
{
    match event.kind() {
        EventKind::Request { .. } => true,
        _ => false,
    }
}
