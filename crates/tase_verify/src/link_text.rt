//! What a link gave, as a text.
ghost use Rattle.std.specs.Prelude.{◌≡◌, ◌==◌, position, Ok, Err, IfOk, IsOk, IsErr};
ghost use Rattle.std.specs.Prelude.{MatchResult};
ghost use Rattle.std.specs.Str.Lines.{lines};
ghost use Rattle.tase_verify.specs.LinkText as own;
ghost use Rattle.tase_verify.specs.LinkText.{given_by, given_in, line_told};
ghost use Rattle.tase_verify.specs.Cuts.{IsCutAtEnd, TakesFirstLine};

use capture_text::{Pieces, join_pieces, read_pieces};
use plain_text::{is_skipped, next_line};
use std::alloc::{AllocError, Global};

/// What a link gave: octets, and whether it has ended behind them.
#[derive(Drop)]
pub struct LinkText {
    pub octets: Vec<u8>,
    pub ended: bool,
}

/// What a link gave, of a text that is a capture, with a line `end` behind it where the link has
/// ended; or the number of the first bad line, which is told whether memory is left or not. Lines
/// count from 1, and the count stands still at 2^64 - 1; what is skipped in a capture may stand
/// behind `end`, and nothing else.
pub fn read_link_text(alloc: Global, text: &[u8]) -> Result<Result<LinkText, u64>, AllocError>
    ensures read { IfOk result (λ read. MatchResult read
        (λ given. given_in text.now ≡ Ok (given.octets.items, given.ended))
        (λ line. given_in text.now ≡ Err line)) }
    ensures memory { IsErr result → IsOk (given_in text.now) }
{
    let cut = cut_at_end(text);
    match read_pieces(cut.front) {
        Ok(pieces) => join_given(alloc, pieces, cut),
        Err(line) => Ok(Err(line)),
    }
}

/// A text, cut at its first line `end`.
#[derive(Clone, Copy)]
struct Cut<'a> {
    /// What stands in front of that line, or all.
    front: &'a [u8],
    /// What stands behind it.
    behind: &'a [u8],
    /// Whether there is one.
    ended: bool,
    /// The number of the line behind it.
    number: u64,
}

/// The octets of these pieces, and whether the link has ended, unless there are lines behind `end`.
fn join_given(
    alloc: Global,
    pieces: Pieces<'_>,
    cut: Cut<'_>,
) -> Result<Result<LinkText, u64>, AllocError>
    ensures read { IfOk result (λ read. MatchResult read
        (λ given. given_by cut.entry.ended
        (line_told cut.entry.number (lines cut.entry.behind.now)) (Ok pieces.entry)
        ≡ Ok (given.octets.items, given.ended))
        (λ line. given_by cut.entry.ended
        (line_told cut.entry.number (lines cut.entry.behind.now)) (Ok pieces.entry) ≡ Err line)) }
    ensures memory { IsErr result → IsOk (given_by cut.entry.ended
        (line_told cut.entry.number (lines cut.entry.behind.now)) (Ok pieces.entry)) }
{
    match first_told(cut.behind, cut.number) {
        Some(line) => Ok(Err(line)),
        None => match join_pieces(alloc, pieces) {
            Ok(octets) => Ok(Ok(LinkText {
                octets,
                ended: cut.ended,
            })),
            Err(AllocError) => Err(AllocError),
        },
    }
}

/// The number of the first line of a text that isn't skipped, where that of the first is this.
fn first_told(text: &[u8], number: u64) -> Option<u64>
    ensures { result ≡ line_told number (lines text.now) }
{
    let mut rest = text;
    let mut line = number;
    while let Some((first, more)) = next_line(rest) {
        if !is_skipped(first) {
            return Some(line);
        }
        rest = more;
        line = line.saturating_add(1);
    }
    None
}

/// Cuts a text at its first line `end`.
fn cut_at_end(text: &[u8]) -> Cut<'_>
    ensures { IsCutAtEnd text.now result.front.now result.behind.now result.ended result.number }
{
    let mut place = 0;
    let mut number: u64 = 2;
    while let Some((line, behind)) = next_line(&text[place..]) {
        if is_end_line(line) {
            return Cut {
                front: &text[..place],
                behind,
                ended: true,
                number,
            };
        }
        place += first_len(&text[place..]);
        number = number.saturating_add(1);
    }
    Cut {
        front: text,
        behind: &text[text.len()..],
        ended: false,
        number,
    }
}

fn is_end_line(line: &[u8]) -> bool
    ensures { result ≡ own.is_end_line line.now }
{
    line == b"end".as_slice()
}

/// How many octets the first line of a text has with its LF.
fn first_len(text: &[u8]) -> usize
    ensures { TakesFirstLine text.now result }
{
    match find_end(text) {
        Some(end) => end + 1,
        None => text.len(),
    }
}

/// The place of the first LF.
fn find_end(text: &[u8]) -> Option<usize>
    ensures { result ≡ position (λ octet. octet == 10) text.now }
{
    text.iter().position(|octet| *octet == b'\n')
}
