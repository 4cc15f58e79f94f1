//! What an operator is told of an input that is refused. Where memory is wanting for it, nothing is
//! told.

use crate::io::input::{InputEnd, Refusal};
use outside::names::Outside;
use plain_text::next_line;
use std::alloc::{AllocError, Global};
use std::fmt::Display;

/// How many octets of a line or of a name an operator is shown at most.
const MOST_SHOWN: usize = 200;

/// The first line of an input that can't be taken.
#[derive(Clone, Copy)]
pub struct RefusedLine<'a> {
    /// The input's name among those of the command, as `tables`.
    pub input: &'a str,
    /// The text of the whole input.
    pub text: &'a [u8],
    /// Lines count from 1.
    pub number: u64,
}

/// Lets an operator know of a line that can't be taken, and shows it.
pub fn note_line<O: Outside>(alloc: Global, outside: &O, line: RefusedLine<'_>) {
    if let Ok(words) = line_words(alloc, line) {
        outside.note(words.as_str());
    }
}

/// Lets an operator know of a line that can't be taken and why, and shows it.
pub fn note_line_and_why<O: Outside, W: Display + Drop>(
    alloc: Global,
    outside: &O,
    line: RefusedLine<'_>,
    why: W,
) {
    if let Ok(words) = why_words(alloc, line, why) {
        outside.note(words.as_str());
    }
}

/// Lets an operator know of the first bad line of an input with this name and this text, where it
/// was read to that.
pub fn note_unread<O: Outside, T>(
    alloc: Global,
    outside: &O,
    input: &str,
    text: &[u8],
    read: &Result<T, InputEnd>,
) {
    if let Err(InputEnd::Refused(Refusal::BadLine(number))) = read {
        let number = *number;
        let line = RefusedLine {
            input,
            text,
            number,
        };
        note_line(alloc, outside, line);
    }
}

/// Lets an operator know that the input under this name has more than so many octets, where it was
/// read to that.
pub(crate) fn note_long<O: Outside, T>(
    alloc: Global,
    outside: &O,
    name: &str,
    limit: u64,
    read: &Result<T, InputEnd>,
) {
    if let Err(InputEnd::Refused(Refusal::Long)) = read {
        if let Ok(words) = long_words(alloc, name, limit) {
            outside.note(words.as_str());
        }
    }
}

// What is told of a line.
fn line_words(alloc: Global, line: RefusedLine<'_>) -> Result<String, AllocError> {
    let RefusedLine {
        input,
        text,
        number,
    } = line;
    let shown = shown(alloc, line_at(text, number))?;
    format!(in alloc; "input {input} line {number} can't be taken: `{shown}`")
}

// What is told of a line and why it can't be taken.
fn why_words<W: Display + Drop>(
    alloc: Global,
    line: RefusedLine<'_>,
    why: W,
) -> Result<String, AllocError> {
    let RefusedLine {
        input,
        text,
        number,
    } = line;
    let shown = shown(alloc, line_at(text, number))?;
    format!(in alloc; "input {input} line {number} can't be taken, since {why}: `{shown}`")
}

// What is told of an input that is too long.
fn long_words(alloc: Global, name: &str, limit: u64) -> Result<String, AllocError> {
    let shown = shown(alloc, name.as_bytes())?;
    format!(in alloc; "the input `{shown}` is too long: it may have {limit} octets at most")
}

// The line of a text with this number; an empty one where it has fewer lines.
fn line_at(text: &[u8], number: u64) -> &[u8] {
    let mut rest = text;
    let mut line: u64 = 1;
    while let Some((first, more)) = next_line(rest) {
        if line == number {
            return first;
        }
        rest = more;
        line = line.saturating_add(1);
    }
    rest
}

// The first octets of a text, as many as an operator is shown, and `..` where it has more; `?`
// stands for each that isn't printable.
fn shown(alloc: Global, octets: &[u8]) -> Result<String, AllocError> {
    let mut text = String::new(alloc);
    for octet in octets.iter().take(MOST_SHOWN) {
        text.push(printable(*octet))?;
    }
    if octets.len() > MOST_SHOWN {
        text.push_str("..")?;
    }
    Ok(text)
}

// The character of an octet, or `?` where it isn't printable.
fn printable(octet: u8) -> char {
    if octet.is_ascii_graphic() || octet == b' ' {
        octet as char
    } else {
        '?'
    }
}
