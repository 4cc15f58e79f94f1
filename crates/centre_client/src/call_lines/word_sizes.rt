//! Values without members in a text: how many octets each has in a PDU.
ghost use Rattle.std.specs.Prelude.{◌≡◌, ◌+◌, ◌-◌, ◌*◌, ◌/◌, ◌%◌, ◌^◌, ◌==◌, ◌&&◌};
ghost use Rattle.std.specs.Prelude.{option_map};
ghost use Rattle.ber_values.specs.Lengths.{capped, part_size};
ghost use Rattle.mms_data.specs.DataWritten.{datum_len};
ghost use Rattle.mms_data.specs.Text.WordValue as own;
ghost use Rattle.centre_client.specs.ValueSizes.{last_octet_in};

use crate::call_lines::visible::read_visible;
use ber_values::{MOST_LENGTH, integer_len, natural_len, part_len};
use plain_text::{read_hex_four, read_hex_octet, read_integer, read_number};

/// How many octets the value has that a word is.
pub(crate) fn word_size(word: &[u8]) -> Option<usize>
    ensures { result ≡ option_map datum_len (own.word_value word.now) }
{
    match word {
        [kind, held @ ..] => value_size(*kind, held),
        [] => None,
    }
}

fn value_size(kind: u8, held: &[u8]) -> Option<usize>
    ensures { result ≡ option_map datum_len (own.value_in kind held.now) }
{
    match kind {
        b'T' => boolean_size(true, held),
        b'F' => boolean_size(false, held),
        b'i' => integer_size(held),
        b'u' => unsigned_size(held),
        b'b' => bits_size(held),
        b'f' => real_size(held),
        b'o' => octets_size(held),
        b'v' => visible_size(held),
        _ => None,
    }
}

/// The length of an element of so many contents octets.
pub(crate) fn element_len(len: usize) -> usize
    ensures { result ≡ capped (part_size len) }
{
    part_len(MOST_LENGTH.min(len))
}

#[tactic(auto, using(crate::proofs::ValuesSized::leaf_sizes))]
fn boolean_size(boolean: bool, held: &[u8]) -> Option<usize>
    ensures { result ≡ option_map datum_len (own.boolean_word_in boolean held.now) }
{
    let _ = boolean;
    if held.is_empty() {
        Some(element_len(1))
    } else {
        None
    }
}

#[tactic(auto, using(crate::proofs::ValuesSized::leaf_sizes))]
fn integer_size(held: &[u8]) -> Option<usize>
    ensures { result ≡ option_map datum_len (own.integer_word_in held.now) }
{
    let integer = read_integer(held, i64::MIN, i64::MAX)?;
    Some(element_len(integer_len(integer)))
}

#[tactic(auto, using(crate::proofs::ValuesSized::leaf_sizes))]
fn unsigned_size(held: &[u8]) -> Option<usize>
    ensures { result ≡ option_map datum_len (own.unsigned_word_in held.now) }
{
    let unsigned = read_number(held, (1 << 63) - 1)?;
    Some(element_len(natural_len(unsigned)))
}

#[tactic(auto, using(crate::proofs::ValuesSized::leaf_sizes))]
fn real_size(held: &[u8]) -> Option<usize>
    ensures { result ≡ option_map datum_len (own.real_word_in held.now) }
{
    let real = read_hex_four(held)?;
    Some(element_len(1 + real.len()))
}

#[tactic(auto, using(crate::proofs::ValuesSized::leaf_sizes))]
fn octets_size(held: &[u8]) -> Option<usize>
    ensures { result ≡ option_map datum_len (own.octets_word_in held.now) }
{
    let _ = last_octet(held)?;
    Some(element_len(held.len() / 2))
}

#[tactic(auto, using(crate::proofs::ValuesSized::leaf_sizes))]
fn visible_size(held: &[u8]) -> Option<usize>
    ensures { result ≡ option_map datum_len (own.text_word_in held.now) }
{
    let octets = read_visible(held)?;
    Some(element_len(octets.as_slice().len()))
}

fn bits_size(held: &[u8]) -> Option<usize>
    ensures { result ≡ option_map datum_len (own.bits_word_in held.now) }
{
    match find_point(held) {
        Some(point) => bits_at(&held[..point], &held[point + 1..]),
        None => None,
    }
}

fn find_point(held: &[u8]) -> Option<usize>
    ensures { result ≡ own.point_word_in held.now }
{
    held.iter().position(|octet| *octet == b'.')
}

/// So many bits in octets.
#[tactic(auto, using(crate::proofs::ValuesSized::leaf_sizes))]
fn bits_at(count: &[u8], digits: &[u8]) -> Option<usize>
    ensures { result ≡ option_map datum_len (own.bits_word_with count.now digits.now) }
{
    let count = read_number(count, u64::MAX)?;
    let last = last_octet(digits)?;
    let len = digits.len() / 2;
    if !fills(count as usize, len, last) {
        return None;
    }
    Some(element_len(1 + len))
}

/// Whether so many bits fill so many octets but for the end of the last one, which is zero.
fn fills(count: usize, len: usize, last: u8) -> bool
    ensures { result ≡ ((len == (count + 7) / 8) && (last % 2 ^ (8 * len - count) == 0)) }
{
    let unused = (8 - count % 8) % 8;
    if len != count / 8 + usize::from(unused > 0) {
        return false;
    }
    last % (1 << unused) == 0
}

/// The last of the octets that a word of hexadecimal digits is, or 0 where it is empty.
fn last_octet(word: &[u8]) -> Option<u8>
    ensures { result ≡ last_octet_in 0 word.now }
{
    let mut last = 0;
    let mut rest = word;
    while let [high, low, more @ ..] = rest {
        last = read_hex_octet(&[*high, *low])?;
        rest = more;
    }
    if rest.is_empty() { Some(last) } else { None }
}
