//! What is counted of a text that a run shows.
ghost use Rattle.std.specs.Prelude.{◌≡◌, ◌<◌, ◌≤◌, ◌+◌, ◌%◌, ◌^◌, length, map};
ghost use Rattle.std.specs.List.{sum};
ghost use Rattle.plain_text.specs.Words.{words};
ghost use Rattle.commands.specs.Load.Tallies.{Fits, with_line};
ghost use Rattle.commands.specs.Load.Tallies as own;

use plain_text::{next_line, next_word};

/// What is counted of a text that a run shows.
#[derive(Clone, Copy, Debug, PartialEq, Eq)]
pub struct Tally {
    /// The lines of replies.
    pub replies: u64,
    /// The lines of reports.
    pub reports: u64,
    /// The outcomes in the lines of reports.
    pub results: u64,
    /// The sum of all octets, modulo 2^32.
    pub sum: u32,
}

/// What a line shows.
#[derive(Clone, Copy)]
enum ShownLine {
    /// `reply W REPLY`.
    Reply,
    /// `report W REPORT`, with so many outcomes.
    Report(u64),
    Other,
}

/// Counts a text that a run shows.
pub fn tally_of(shown: &[u8]) -> Tally
    ensures { result ≡ own.tally_of shown.now }
{
    let mut tally = Tally {
        replies: 0,
        reports: 0,
        results: 0,
        sum: sum_of(shown),
    };
    let mut rest = shown;
    while let Some((line, more)) = next_line(rest) {
        tally = note(tally, shown_line(line));
        rest = more;
    }
    tally
}

// The sum of octets, modulo 2^32.
fn sum_of(text: &[u8]) -> u32
    ensures { result ≡ sum text.now % 2 ^ 32 }
{
    let mut total: u32 = 0;
    for octet in text {
        total = total.wrapping_add(u32::from(*octet));
    }
    total
}

// A tally with one more line.
fn note(tally: Tally, line: ShownLine) -> Tally
    requires { Fits (with_line tally line) }
    ensures { result ≡ with_line tally line }
{
    match line {
        ShownLine::Reply => Tally {
            replies: tally.replies + 1,
            ..tally
        },
        ShownLine::Report(outcomes) => Tally {
            reports: tally.reports + 1,
            results: tally.results + outcomes,
            ..tally
        },
        ShownLine::Other => tally,
    }
}

// What a line shows.
fn shown_line(line: &[u8]) -> ShownLine
    ensures { result ≡ own.shown_line line.now }
{
    let Some((verb, rest)) = next_word(line) else {
        return ShownLine::Other;
    };
    if verb == b"reply".as_slice() {
        ShownLine::Reply
    } else if verb == b"report".as_slice() {
        ShownLine::Report(outcomes_behind_seat(rest))
    } else {
        ShownLine::Other
    }
}

// The number of outcomes in `W REPORT`.
fn outcomes_behind_seat(text: &[u8]) -> u64
    ensures { result ≡ own.outcomes_behind_seat (words text.now) }
{
    match next_word(text) {
        Some((_, report)) => outcomes_in_report(report),
        None => 0,
    }
}

// The number of outcomes in a report: all words behind `set NAME`, or behind `vars`.
fn outcomes_in_report(text: &[u8]) -> u64
    ensures { result ≡ own.outcomes_in_report (words text.now) }
{
    match next_word(text) {
        Some((kind, rest)) if kind == b"set".as_slice() => outcomes_behind_name(rest),
        Some((_, rest)) => count_words(rest),
        None => 0,
    }
}

// The number of words behind the first one.
fn outcomes_behind_name(text: &[u8]) -> u64
    ensures { result ≡ own.outcomes_behind_name (words text.now) }
{
    match next_word(text) {
        Some((_, rest)) => count_words(rest),
        None => 0,
    }
}

// The number of words.
fn count_words(text: &[u8]) -> u64
    ensures { result ≡ length (words text.now) }
{
    let mut count = 0;
    let mut rest = text;
    while let Some((_, more)) = next_word(rest) {
        count += 1;
        rest = more;
    }
    count
}
