//! The lines of a script that aren't skipped, and their numbers.
ghost use Rattle.std.specs.Prelude.{◌≡◌, ◌+◌, ◌-◌, ◌^◌, ◌<◌, min, [], ◌∷◌, length, IfSome, IfNone};
ghost use Rattle.std.specs.Str.Lines.{lines};
ghost use Rattle.centre_client.specs.NumberedLines.{numbered_from, number_after};

use plain_text::{is_skipped, next_line};

/// A line that isn't skipped.
#[derive(Clone, Copy)]
pub(crate) struct NumberedLine<'a> {
    pub number: u64,
    pub text: &'a [u8],
    /// The text after it.
    pub rest: &'a [u8],
}

impl NumberedLine<'_> {
    /// The number of the line after it.
    pub(crate) fn next_number(&self) -> u64
        ensures { result ≡ number_after self.now.number }
    {
        self.number.saturating_add(1)
    }
}

/// The first line of a text that isn't skipped. The text's first line has this number; lines count
/// on from there, and the count stands still at 2^64 - 1.
pub(crate) fn next_numbered(first: u64, text: &[u8]) -> Option<NumberedLine<'_>>
    ensures some { IfSome result (λ line. numbered_from first (lines text.now)
        ≡ record { number = line.number; text = line.text.now }
        ∷ numbered_from (number_after line.number) (lines line.rest.now)) }
    ensures none { IfNone result (numbered_from first (lines text.now) ≡ []) }
    ensures shorter { IfSome result (λ line. length line.rest.now < length text.now) }
{
    let mut rest = text;
    let mut number = first;
    while let Some((line, more)) = next_line(rest) {
        if !is_skipped(line) {
            return Some(NumberedLine {
                number,
                text: line,
                rest: more,
            });
        }
        rest = more;
        number = number.saturating_add(1);
    }
    None
}

/// The number of the line after the last one of a text. Lines count from 1, and the count stands
/// still at 2^64 - 1.
pub(crate) fn number_behind(text: &[u8]) -> u64
    ensures { result ≡ min (length (lines text.now) + 1) (2 ^ 64 - 1) }
{
    let mut rest = text;
    let mut number: u64 = 1;
    while let Some((_, more)) = next_line(rest) {
        rest = more;
        number = number.saturating_add(1);
    }
    number
}
