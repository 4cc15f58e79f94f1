//! What an operator is told at the end of a server.

use commands::io::Status;
use outside::names::Outside;
use server_main::run::{FeedSeat, TickSeat};
use server_main::serving::{FeedEnd, TickEnd};
use server_main::{ServeEnd, Served};
use std::alloc::Global;

/// Tells what became of the feed, the clock, the plant and the history of a server, where it isn't
/// the usual: the feed had its `stop` line, and the others nothing to tell of.
pub(crate) fn note_served<O: Outside, S, C>(
    alloc: Global,
    outside: &O,
    served: &Served<S, C>,
    has_plant_failed: bool,
) {
    note_feed(alloc, outside, served.seats.feed);
    if let Some(words) = clock_words(served.seats.ticks) {
        outside.note(words);
    }
    if has_plant_failed {
        outside.note("the plant failed");
    }
    match served.end {
        ServeEnd::Full { weight, limit } => note_full(alloc, outside, weight, limit),
        ServeEnd::Memory => outside.note("memory ran out"),
        ServeEnd::Done | ServeEnd::BadFeed { .. } | ServeEnd::Outside => {}
    }
}

/// Tells what became of the feed; none: its job wasn't started.
fn note_feed<O: Outside>(alloc: Global, outside: &O, feed: Option<FeedSeat>) {
    let Some(fed) = feed else {
        outside.note("the feed isn't read");
        return;
    };
    match fed.end {
        FeedEnd::Ended => outside.note("the feed ended"),
        FeedEnd::BadLine { line } => note_bad_line(alloc, outside, line),
        FeedEnd::LongLine { line } => note_long_line(alloc, outside, line),
        FeedEnd::SourceFault => outside.note("the feed failed"),
        FeedEnd::Memory => outside.note("memory ran out for the feed"),
        FeedEnd::StopLine | FeedEnd::Stopped | FeedEnd::Full { .. } => {}
    }
}

fn note_bad_line<O: Outside>(alloc: Global, outside: &O, line: u64) {
    if let Ok(words) = format!(in alloc; "the feed has a bad line {line}") {
        outside.note(words.as_str());
    }
}

fn note_long_line<O: Outside>(alloc: Global, outside: &O, line: u64) {
    if let Ok(words) = format!(in alloc; "the feed has a line that is too long, {line}") {
        outside.note(words.as_str());
    }
}

fn note_full<O: Outside>(alloc: Global, outside: &O, weight: u64, limit: u64) {
    match format!(in alloc; "the history is full: {weight} octets, and the limit is {limit}") {
        Ok(words) => outside.note(words.as_str()),
        Err(_) => outside.note("the history is full"),
    }
}

/// What became of the clock, where it didn't go on to the end; none: its job wasn't started.
fn clock_words(ticks: Option<TickSeat>) -> Option<&'static str> {
    match ticks {
        None => Some("the clock isn't read"),
        Some(ticked) => match ticked.end {
            TickEnd::ClockFault => Some("the clock failed"),
            TickEnd::Memory => Some("memory ran out for the clock"),
            TickEnd::Stopped | TickEnd::Full { .. } => None,
        },
    }
}

/// Tells whether the journal could be written to the file of this name.
pub(crate) fn note_journal<O: Outside>(alloc: Global, outside: &O, name: &str, written: Status) {
    let line = match written {
        Status::Done => format!(in alloc; "the journal is written to {name}"),
        _ => format!(in alloc; "the journal can't be written to {name}"),
    };
    if let Ok(words) = line {
        outside.note(words.as_str());
    }
}
