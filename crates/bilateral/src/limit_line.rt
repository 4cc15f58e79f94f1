//! `slots N`, `sets N`, `pending N`: the limits of a table.
ghost use Rattle.std.specs.Prelude.{◌≡◌, ◌≢◌, ◌<◌, ◌^◌, [], ◌∷◌, length, IfSome, IfNone};
ghost use Rattle.plain_text.specs.Words.{words};
ghost use Rattle.bilateral.specs.Lines.{slots_line, sets_line, pending_line, IsLawfulLine};

use crate::line::TableLine;
use crate::rows::{PENDING_LEAST, PENDING_LIMIT, SET_LIMIT, SLOT_LIMIT};
use crate::words::read_limit;
use plain_text::next_word;

/// `N` of `slots N`.
pub fn read_slots(text: &[u8]) -> Option<TableLine>
    ensures value { result ≡ slots_line (words text.now) }
    ensures lawful { IfSome result IsLawfulLine }
{
    let number = read_limit(only_word(text)?, 1, SLOT_LIMIT)?;
    Some(TableLine::Slots(as_u32(number)))
}

/// `N` of `sets N`.
pub fn read_sets(text: &[u8]) -> Option<TableLine>
    ensures value { result ≡ sets_line (words text.now) }
    ensures lawful { IfSome result IsLawfulLine }
{
    let number = read_limit(only_word(text)?, 1, SET_LIMIT)?;
    Some(TableLine::Sets(as_u32(number)))
}

/// `N` of `pending N`.
pub fn read_pending(text: &[u8]) -> Option<TableLine>
    ensures value { result ≡ pending_line (words text.now) }
    ensures lawful { IfSome result IsLawfulLine }
{
    let number = read_limit(only_word(text)?, PENDING_LEAST, PENDING_LIMIT)?;
    Some(TableLine::Pending(number))
}

/// The one word of a text.
fn only_word(text: &[u8]) -> Option<&[u8]>
    ensures some { IfSome result (λ word. words text.now ≡ word.now ∷ []) }
    ensures none { IfNone result (length (words text.now) ≢ 1) }
{
    let (first, rest) = next_word(text)?;
    match next_word(rest) {
        Some(_) => None,
        None => Some(first),
    }
}

/// The same number in a type of its own.
fn as_u32(number: Option<u64>) -> Option<u32>
    requires { IfSome number (λ n. n < 2 ^ 32) }
    ensures { result ≡ number }
{
    Some(number? as u32)
}
