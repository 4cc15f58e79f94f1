//! The text of a value without members, read.
ghost use Rattle.std.specs.Prelude.{◌≡◌, ◌++◌, IfOk};
ghost use Rattle.std.specs.Bool.{OnTrue};
ghost use Rattle.ber_values.specs.Bits.{IsBits};
ghost use Rattle.mms_data.specs.Text.WordValue as own;

use crate::{DataKind, MmsData, OctetList};
use ber_values::{BitString, Visible, is_visible};
use plain_text::{read_escaped, read_hex, read_hex_four, read_integer, read_number};
use std::alloc::{AllocError, Global};

/// A text up to its first comma or closing bracket, and the rest from there on.
pub(crate) fn split_word(text: &[u8]) -> (&[u8], &[u8])
    ensures word { result.0.now ≡ own.word_of text.now }
    ensures rest { result.1.now ≡ own.after_word text.now }
    ensures both { text.now ≡ result.0.now ++ result.1.now }
{
    match find_mark(text) {
        Some(place) => (&text[..place], &text[place..]),
        None => (text, &text[text.len()..]),
    }
}

fn find_mark(text: &[u8]) -> Option<usize>
    ensures { result ≡ own.mark_in text.now }
{
    text.iter()
        .position(|octet| *octet == b',' || *octet == b']' || *octet == b'}')
}

/// The value that a word is.
pub(crate) fn word_value(alloc: Global, word: &[u8]) -> Result<Option<MmsData>, AllocError>
    ensures { IfOk result (λ value. value ≡ own.word_value word.now) }
{
    match word {
        [kind, held @ ..] => value_in(alloc, *kind, held),
        [] => Ok(None),
    }
}

fn value_in(alloc: Global, kind: u8, held: &[u8]) -> Result<Option<MmsData>, AllocError>
    ensures { IfOk result (λ value. value ≡ own.value_in kind held.now) }
{
    match kind {
        b'T' => Ok(boolean_in(true, held)),
        b'F' => Ok(boolean_in(false, held)),
        b'i' => Ok(integer_in(held)),
        b'u' => Ok(unsigned_in(held)),
        b'b' => bits_in(alloc, held),
        b'f' => Ok(real_in(held)),
        b'o' => octets_in(alloc, held),
        b'v' => text_in(alloc, held),
        _ => Ok(None),
    }
}

fn boolean_in(boolean: bool, held: &[u8]) -> Option<MmsData>
    ensures { result ≡ own.boolean_word_in boolean held.now }
{
    if held.is_empty() {
        Some(MmsData::new(DataKind::Boolean(boolean)))
    } else {
        None
    }
}

fn integer_in(held: &[u8]) -> Option<MmsData>
    ensures { result ≡ own.integer_word_in held.now }
{
    Some(MmsData::new(DataKind::Integer(read_integer(held, i64::MIN, i64::MAX)?)))
}

fn unsigned_in(held: &[u8]) -> Option<MmsData>
    ensures { result ≡ own.unsigned_word_in held.now }
{
    Some(MmsData::new(DataKind::Unsigned(read_number(held, (1 << 63) - 1)?)))
}

fn real_in(held: &[u8]) -> Option<MmsData>
    ensures { result ≡ own.real_word_in held.now }
{
    Some(MmsData::new(DataKind::Real(read_hex_four(held)?)))
}

fn octets_in(alloc: Global, held: &[u8]) -> Result<Option<MmsData>, AllocError>
    ensures { IfOk result (λ value. value ≡ own.octets_word_in held.now) }
{
    let Some(octets) = read_hex(alloc, held)? else {
        return Ok(None);
    };
    let list = OctetList::from_vec(octets);
    Ok(Some(MmsData::new(DataKind::Octets(list))))
}

fn text_in(alloc: Global, held: &[u8]) -> Result<Option<MmsData>, AllocError>
    ensures { IfOk result (λ value. value ≡ own.text_word_in held.now) }
{
    let Some(octets) = read_escaped(alloc, held)? else {
        return Ok(None);
    };
    if !is_visible(&octets) {
        return Ok(None);
    }
    Ok(Some(MmsData::new(DataKind::Text(Visible::new(octets)))))
}

fn bits_in(alloc: Global, held: &[u8]) -> Result<Option<MmsData>, AllocError>
    ensures { IfOk result (λ value. value ≡ own.bits_word_in held.now) }
{
    match find_point(held) {
        Some(point) => bits_at(alloc, &held[..point], &held[point + 1..]),
        None => Ok(None),
    }
}

fn find_point(held: &[u8]) -> Option<usize>
    ensures { result ≡ own.point_word_in held.now }
{
    held.iter().position(|octet| *octet == b'.')
}

/// So many bits in octets.
fn bits_at(alloc: Global, count: &[u8], digits: &[u8]) -> Result<Option<MmsData>, AllocError>
    ensures { IfOk result (λ value. value ≡ own.bits_word_with count.now digits.now) }
{
    let Some(count) = read_number(count, u64::MAX) else {
        return Ok(None);
    };
    let Some(octets) = read_hex(alloc, digits)? else {
        return Ok(None);
    };
    let count = count as usize;
    if !is_bits(count, &octets) {
        return Ok(None);
    }
    Ok(Some(MmsData::new(DataKind::Bits(BitString::new(count, octets)))))
}

/// Whether so many bits fill octets but for the end of the last one, which is zero.
fn is_bits(count: usize, octets: &[u8]) -> bool
    ensures value { result ≡ own.is_bits (record { count = count; octets = octets.now }) }
    ensures bits { OnTrue result (IsBits (record { count = count; octets = octets.now })) }
{
    fills(count, octets)
}

fn fills(count: usize, octets: &[u8]) -> bool
    ensures { result ≡ own.is_bits (record { count = count; octets = octets.now }) }
{
    let unused = (8 - count % 8) % 8;
    if octets.len() != count / 8 + usize::from(unused > 0) {
        return false;
    }
    match octets {
        [.., last] => last % (1 << unused) == 0,
        [] => true,
    }
}
