//! Values in a text: how many octets each has in a PDU, without memory.
ghost use Rattle.std.specs.Prelude.{◌≡◌, ◌∷◌, ◌≤◌, false, length, Some, None, IfSome, IfNone};
ghost use Rattle.std.specs.Prelude.{option_map};
ghost use Rattle.mms_data.specs.DataWritten.{datum_len};
ghost use Rattle.mms_data.specs.Text.DatumIn.{datum_in, leading_datum, leading_members};
ghost use Rattle.mms_data.specs.Text.TextRead.{begins_with};
ghost use Rattle.mms_data.specs.Text.WordValue as words;
ghost use Rattle.centre_client.specs.ValueSizes.{datum_sized, members_sized};

use crate::call_lines::word_sizes::word_size;
use ber_values::{MOST_LENGTH, add_len, part_len};
use mms_data::MOST_DEPTH;

/// How many octets the value has whose text this is, capped; nothing where it is no value's text.
pub(crate) fn value_text_size(text: &[u8]) -> Option<usize>
    ensures size { result ≡ option_map datum_len (datum_in text.now) }
    ensures few { IfSome result (λ n. n ≤ MOST_LENGTH) }
{
    let (len, rest) = datum_at(text, MOST_DEPTH)?;
    if rest.is_empty() { Some(len) } else { None }
}

/// How many octets the value of at most so many levels has that a text begins with, and what
/// stands behind it.
#[cycle(levels)]
fn datum_at(text: &[u8], levels: u8) -> Option<(usize, &[u8])>
    ensures some { IfSome result (λ r.
        option_map datum_sized (leading_datum levels text.now) ≡ Some (r.0, r.1.now)) }
    ensures none { IfNone result (leading_datum levels text.now ≡ None) }
    ensures few { IfSome result (λ r. r.0 ≤ MOST_LENGTH) }
{
    if levels == 0 {
        return None;
    }
    if let Some(inner) = behind(text, b'{') {
        let (len, rest) = members_at(inner, b'}', levels - 1)?;
        return Some((part_len(len), rest));
    }
    if let Some(inner) = behind(text, b'[') {
        let (len, rest) = members_at(inner, b']', levels - 1)?;
        return Some((part_len(len), rest));
    }
    word_at(text, levels)
}

/// The same of members up to a closing bracket.
#[cycle(levels)]
fn members_at(text: &[u8], close: u8, levels: u8) -> Option<(usize, &[u8])>
    ensures some { IfSome result (λ r. option_map members_sized
        (leading_members (λ part. leading_datum levels part) close text.now)
        ≡ Some (r.0, r.1.now)) }
    ensures none { IfNone result
        (leading_members (λ part. leading_datum levels part) close text.now ≡ None) }
    ensures few { IfSome result (λ r. r.0 ≤ MOST_LENGTH) }
{
    if let Some(rest) = behind(text, close) {
        return Some((0, rest));
    }
    let mut len = 0;
    let mut rest = text;
    for turn in 0..text.len() + 1 {
        let (member, after) = datum_at(rest, levels)?;
        len = add_len(len, member);
        if let Some(end) = behind(after, close) {
            return Some((len, end));
        }
        rest = behind(after, b',')?;
    }
    None
}

/// The same of a value without members.
fn word_at(text: &[u8], levels: u8) -> Option<(usize, &[u8])>
    requires level { levels ≡ 0 → ⊥ }
    requires brace { begins_with 123 text.now ≡ false }
    requires bracket { begins_with 91 text.now ≡ false }
    ensures some { IfSome result (λ r.
        option_map datum_sized (leading_datum levels text.now) ≡ Some (r.0, r.1.now)) }
    ensures none { IfNone result (leading_datum levels text.now ≡ None) }
    ensures few { IfSome result (λ r. r.0 ≤ MOST_LENGTH) }
{
    let (word, rest) = split_word(text);
    let len = word_size(word)?;
    Some((len, rest))
}

/// A text up to its first comma or closing bracket, and the rest from there on.
fn split_word(text: &[u8]) -> (&[u8], &[u8])
    ensures word { result.0.now ≡ words.word_of text.now }
    ensures rest { result.1.now ≡ words.after_word text.now }
{
    match find_mark(text) {
        Some(place) => (&text[..place], &text[place..]),
        None => (text, &text[text.len()..]),
    }
}

fn find_mark(text: &[u8]) -> Option<usize>
    ensures { result ≡ words.mark_in text.now }
{
    text.iter()
        .position(|octet| *octet == b',' || *octet == b']' || *octet == b'}')
}

/// What stands behind an octet, where a text begins with it.
fn behind(text: &[u8], octet: u8) -> Option<&[u8]>
    ensures some { IfSome result (λ rest. text.now ≡ octet ∷ rest.now) }
    ensures none { IfNone result (begins_with octet text.now ≡ false) }
{
    match text {
        [first, rest @ ..] if *first == octet => Some(rest),
        _ => None,
    }
}
