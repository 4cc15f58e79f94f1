//! The octets of a capture in pieces, so that no more than one piece is in memory beside the text.
ghost use Rattle.std.specs.Prelude.{◌≡◌, ◌<◌, ◌≤◌, ◌*◌, [], ◌++◌, take, drop, length, not, Ok, Err};
ghost use Rattle.std.specs.Prelude.{MatchResult, IfSome, IfNone, is_some, IsTrue};
ghost use Rattle.std.specs.List.{list_all};
ghost use Rattle.std.specs.Bool.{OnTrue, OnFalse};
ghost use Rattle.std.specs.Result.{result_ok};
ghost use Rattle.std.specs.Str.Lines.{lines};
ghost use Rattle.hex.specs.Hex as spec;
ghost use Rattle.capture_text.specs.Captures.{capture_in, is_bad, joined};
ghost use Rattle.capture_text.specs.Pieces.{pairs_octets, ArePairs, HasNoBadLine, bad_line_from};
ghost use Rattle.capture_text.specs.Pieces.{octets_left};

use crate::lines::next_line;
use plain_text::is_skipped;
use std::marker::Model;

/// Where a walk over the lines of a capture stands.
#[derive(Clone, Copy)]
struct Cursor<'a> {
    /// What is left of the digits of a line.
    digits: &'a [u8],
    /// The lines behind it.
    rest: &'a [u8],
}

/// The octets of a capture that are yet to be handed out.
#[derive(Drop)]
pub struct Pieces<'a> {
    cursor: Cursor<'a>,
}

impl<'a> Model for Pieces<'a> {
    ghost use Rattle.std.specs.Prelude.{ℕ, List};
    ghost use Rattle.capture_text.specs.Pieces.{octets_left, ArePairs, HasNoBadLine};

    ghost Value = { List ℕ };

    ghost view = { λ p. octets_left p.cursor.digits.now p.cursor.rest.now };

    ghost invariant = { λ p. ArePairs p.cursor.digits.now × HasNoBadLine p.cursor.rest.now };
}

/// The octets of a capture, a text of lines of an even number of hexadecimal digits in either
/// case, one line after another, or the number of its first bad line. Lines count from 1, and the
/// count stands still at 2^64 - 1; empty lines and lines that begin with `#` are skipped.
pub fn read_pieces(text: &[u8]) -> Result<Pieces<'_>, u64>
    ensures { MatchResult result
        (λ octets. capture_in text.now ≡ Ok octets)
        (λ line. capture_in text.now ≡ Err line) }
{
    match first_bad_line(text) {
        Some(line) => Err(line),
        None => Ok(Pieces {
            cursor: Cursor {
                digits: &text[text.len()..],
                rest: text,
            },
        }),
    }
}

impl Pieces<'_> {
    /// Fills a piece from its front with the next octets, and answers how many these are: fewer
    /// than fit only where none are left. What stands behind them in the piece stays.
    pub fn next(&mut self, piece: &mut [u8]) -> usize
        requires { 0 < length piece.old }
        ensures octets { self.old ≡ take result piece.new ++ self.new }
        ensures within { result ≤ length piece.new }
        ensures full { result < length piece.new → self.new ≡ [] }
        ensures behind { drop result piece.new ≡ drop result piece.old }
    {
        let mut cursor = self.cursor;
        let filled = cursor.fill(piece);
        self.cursor = cursor;
        filled
    }
}

impl Cursor<'_> {
    fn fill(&mut self, piece: &mut [u8]) -> usize
        requires some { 0 < length piece.old }
        requires pairs { ArePairs self.old.digits.now }
        requires good { HasNoBadLine self.old.rest.now }
        ensures octets { octets_left self.old.digits.now self.old.rest.now
            ≡ take result piece.new ++ octets_left self.new.digits.now self.new.rest.now }
        ensures within { result ≤ length piece.new }
        ensures full { result < length piece.new
            → octets_left self.new.digits.now self.new.rest.now ≡ [] }
        ensures behind { drop result piece.new ≡ drop result piece.old }
        ensures pairs { ArePairs self.new.digits.now }
        ensures good { HasNoBadLine self.new.rest.now }
    {
        let mut filled = 0;
        while filled < piece.len() {
            if !self.find_digits() {
                return filled;
            }
            filled += self.take(&mut piece[filled..]);
        }
        filled
    }

    /// Turns to the next line with digits, where none are left here; answers whether there are any.
    fn find_digits(&mut self) -> bool
        requires pairs { ArePairs self.old.digits.now }
        requires good { HasNoBadLine self.old.rest.now }
        ensures octets { octets_left self.new.digits.now self.new.rest.now
            ≡ octets_left self.old.digits.now self.old.rest.now }
        ensures some { OnTrue result (0 < length self.new.digits.now) }
        ensures none { OnFalse result (octets_left self.new.digits.now self.new.rest.now ≡ []) }
        ensures pairs { ArePairs self.new.digits.now }
        ensures good { HasNoBadLine self.new.rest.now }
    {
        if !self.digits.is_empty() {
            return true;
        }
        match next_digits(self.rest) {
            None => false,
            Some((digits, rest)) => {
                self.digits = digits;
                self.rest = rest;
                true
            }
        }
    }

    /// Makes octets of the next digits, as many as the piece has room for.
    fn take(&mut self, piece: &mut [u8]) -> usize
        requires room { 0 < length piece.old }
        requires some { 0 < length self.old.digits.now }
        requires pairs { ArePairs self.old.digits.now }
        ensures octets { pairs_octets self.old.digits.now
            ≡ take result piece.new ++ pairs_octets self.new.digits.now }
        ensures within { result ≤ length piece.new }
        ensures some { 0 < result }
        ensures behind { drop result piece.new ≡ drop result piece.old }
        ensures pairs { ArePairs self.new.digits.now }
        ensures rest { self.new.rest.now ≡ self.old.rest.now }
    {
        let count = decode_front(self.digits, piece);
        self.digits = &self.digits[2 * count..];
        count
    }
}

/// Makes octets of the first digits, as many as the piece has room for.
fn decode_front(digits: &[u8], piece: &mut [u8]) -> usize
    requires { ArePairs digits.now }
    ensures octets { pairs_octets digits.now
        ≡ take result piece.new ++ pairs_octets (drop (2 * result) digits.now) }
    ensures pairs { ArePairs (drop (2 * result) digits.now) }
    ensures within { result ≤ length piece.new }
    ensures digits { 2 * result ≤ length digits.now }
    ensures behind { drop result piece.new ≡ drop result piece.old }
    ensures some { 0 < length piece.old → 0 < length digits.now → 0 < result }
{
    let count = (digits.len() / 2).min(piece.len());
    decode_pairs(&digits[..2 * count], &mut piece[..count]);
    count
}

/// Makes octets of pairs of digits. In place of `hex::decode_to_slice`: a loop without a branch or
/// an exit on what a digit is, which LLVM turns into vectors (measured, docs/proof/EVIDENCE.md).
fn decode_pairs(digits: &[u8], octets: &mut [u8])
    requires pairs { ArePairs digits.now }
    requires size { length digits.now ≡ 2 * length octets.old }
    ensures { spec.decode_of digits.now ≡ Ok octets.new }
{
    for i in 0..octets.len() {
        let high = digit_value(digits[2 * i]);
        let low = digit_value(digits[2 * i + 1]);
        octets[i] = high * 16 + low;
    }
}

/// The value of a hexadecimal digit: its last four bits, and nine more for a letter.
fn digit_value(digit: u8) -> u8
    requires { IsTrue (spec.is_hex_digit digit) }
    ensures value { spec.hex_digit_value digit ≡ Some result }
    ensures small { result < 16 }
{
    if digit < b'A' {
        digit % 16
    } else {
        digit % 16 + 9
    }
}

/// The digits of the next line that isn't skipped, and the lines behind it.
fn next_digits(text: &[u8]) -> Option<(&[u8], &[u8])>
    requires { HasNoBadLine text.now }
    ensures octets { IfSome result (λ next.
        joined (lines text.now) ≡ octets_left next.0.now next.1.now) }
    ensures none { IfNone result (joined (lines text.now) ≡ []) }
    ensures some { IfSome result (λ next. 0 < length next.0.now) }
    ensures pairs { IfSome result (λ next. ArePairs next.0.now) }
    ensures good { IfSome result (λ next. HasNoBadLine next.1.now) }
{
    let mut rest = text;
    while let Some((first, more)) = next_line(rest) {
        if !is_skipped(first) {
            return Some((first, more));
        }
        rest = more;
    }
    None
}

/// The number of the first bad line.
fn first_bad_line(text: &[u8]) -> Option<u64>
    ensures { result ≡ bad_line_from 1 (lines text.now) }
{
    let mut rest = text;
    let mut line: u64 = 1;
    while let Some((first, more)) = next_line(rest) {
        if !is_good(first) {
            return Some(line);
        }
        rest = more;
        line = line.saturating_add(1);
    }
    None
}

/// Whether a line is skipped, or pairs of digits.
fn is_good(line: &[u8]) -> bool
    ensures { result ≡ not (is_bad line.now) }
{
    is_skipped(line) || are_pairs(line)
}

fn are_pairs(line: &[u8]) -> bool
    ensures { result ≡ is_some (result_ok (spec.decode_of line.now)) }
{
    line.len() % 2 == 0 && are_digits(line)
}

/// Each octet is looked at, whatever those before it are: such a loop becomes vectors too.
fn are_digits(line: &[u8]) -> bool
    ensures { result ≡ list_all spec.is_hex_digit line.now }
{
    let mut all = true;
    for digit in line {
        all = all & is_digit(*digit);
    }
    all
}

fn is_digit(digit: u8) -> bool
    ensures { result ≡ spec.is_hex_digit digit }
{
    matches!(digit, b'0'..=b'9' | b'A'..=b'F' | b'a'..=b'f')
}
