//! The calls that words are: how many octets the request of each has.
ghost use Rattle.std.specs.Prelude.{◌≡◌, ◌<◌, ◌≤◌, length, option_map};
ghost use Rattle.plain_text.specs.Words.{words};
ghost use Rattle.texts.specs.Journal.CallIn.{odd_in, odd_kind, signed_64_in};
ghost use Rattle.centre_client.specs.CallSizes as own;

use crate::call_lines::items::{ItemKind, name_word_size, sole_name_size, some_items_size};
use crate::call_lines::scopes::name_list_size;
use crate::call_lines::writes::write_sketch;
use ber_values::{MOST_LENGTH, add_len, integer_len, part_len};
use bilateral::Centre;
use plain_text::{next_word, read_integer};

/// What is judged of a call.
#[derive(Clone, Copy)]
pub(crate) struct CallSketch {
    /// No service of MMS is asked for.
    pub odd: bool,
    /// It operates a device that has to be selected before.
    pub guarded: bool,
    /// How many octets the contents of its request have.
    pub size: usize,
}

/// What is judged of the call that words are, where they are one.
pub(crate) fn read_sketch(centre: &Centre, peer: u32, text: &[u8]) -> Option<CallSketch>
    requires { peer < length centre.now.tables }
    ensures { result ≡ own.sketch_in centre.now peer (words text.now) }
{
    let (verb, rest) = next_word(text)?;
    if verb == b"read".as_slice() {
        plain(read_size(rest, false))
    } else if verb == b"read+".as_slice() {
        plain(read_size(rest, true))
    } else if verb == b"write".as_slice() {
        write_sketch(centre, peer, rest)
    } else if verb == b"names".as_slice() {
        plain(name_list_size(rest))
    } else if verb == b"identify".as_slice() {
        plain(identify_size(rest))
    } else if verb == b"odd".as_slice() {
        odd_sketch(rest)
    } else if verb == b"type".as_slice() {
        plain(type_size(rest))
    } else {
        plain(set_call_size(verb, rest))
    }
}

/// A call that writes nothing and that a service has.
fn plain(size: Option<usize>) -> Option<CallSketch>
    ensures { result ≡ option_map own.plain_sketch size }
{
    let size = size?;
    Some(CallSketch {
        odd: false,
        guarded: false,
        size,
    })
}

/// `1 1` or `5 1` behind `odd`.
fn odd_sketch(text: &[u8]) -> Option<CallSketch>
    ensures { result ≡ option_map (λ call. own.odd_sketch) (odd_in (words text.now)) }
{
    let (kind, rest) = next_word(text)?;
    let (code, rest) = next_word(rest)?;
    if next_word(rest).is_some() {
        return None;
    }
    if code == b"1".as_slice() {
        odd_of(kind)
    } else {
        None
    }
}

/// The odd call of this kind.
fn odd_of(kind: &[u8]) -> Option<CallSketch>
    ensures { result ≡ option_map (λ k. own.odd_sketch) (odd_kind kind.now) }
{
    if kind == b"1".as_slice() || kind == b"5".as_slice() {
        Some(CallSketch {
            odd: true,
            guarded: false,
            size: 0,
        })
    } else {
        None
    }
}

/// The call of a verb of data sets.
fn set_call_size(verb: &[u8], text: &[u8]) -> Option<usize>
    ensures { result ≡ own.set_sizes_in verb.now (words text.now) }
{
    if verb == b"readset".as_slice() {
        read_set_size(text, false)
    } else if verb == b"readset+".as_slice() {
        read_set_size(text, true)
    } else if verb == b"writeset".as_slice() {
        write_set_size(text)
    } else if verb == b"define".as_slice() {
        define_size(text)
    } else if verb == b"members".as_slice() {
        sole_name_size(text)
    } else if verb == b"delete".as_slice() {
        delete_size(text)
    } else if verb == b"deletescope".as_slice() {
        delete_scope_size(text)
    } else {
        None
    }
}

/// A read of a specification of so many octets.
fn read_count(spec: usize, echo: bool) -> usize
    requires { spec ≤ MOST_LENGTH }
    ensures { result ≡ own.read_count echo spec }
{
    let echo_len = if echo { 3 } else { 0 };
    add_len(echo_len, part_len(part_len(spec)))
}

/// `NAME ..` behind `read` or `read+`.
fn read_size(text: &[u8], echo: bool) -> Option<usize>
    ensures { result ≡ own.read_sizes echo (words text.now) }
{
    let names = some_items_size(text, ItemKind::Variable)?;
    Some(read_count(names, echo))
}

/// `NAME` behind `readset` or `readset+`.
fn read_set_size(text: &[u8], echo: bool) -> Option<usize>
    ensures { result ≡ own.read_set_sizes echo (words text.now) }
{
    let set = sole_name_size(text)?;
    Some(read_count(set, echo))
}

/// Nothing behind `identify`.
fn identify_size(text: &[u8]) -> Option<usize>
    ensures { result ≡ own.identify_sizes (words text.now) }
{
    match next_word(text) {
        Some(_) => None,
        None => Some(0),
    }
}

/// `NAME` behind `type`.
fn type_size(text: &[u8]) -> Option<usize>
    ensures { result ≡ own.type_sizes (words text.now) }
{
    let name = sole_name_size(text)?;
    Some(part_len(name))
}

/// `NAME DATA ..` behind `writeset`.
fn write_set_size(text: &[u8]) -> Option<usize>
    ensures { result ≡ own.write_set_sizes (words text.now) }
{
    let (word, rest) = next_word(text)?;
    let set = name_word_size(word)?;
    let values = some_items_size(rest, ItemKind::Value)?;
    Some(add_len(part_len(set), part_len(values)))
}

/// `NAME MEMBER ..` behind `define`.
fn define_size(text: &[u8]) -> Option<usize>
    ensures { result ≡ own.define_sizes (words text.now) }
{
    let (word, rest) = next_word(text)?;
    let set = name_word_size(word)?;
    let members = some_items_size(rest, ItemKind::Variable)?;
    Some(add_len(set, part_len(members)))
}

/// `NAME ..` behind `delete`.
fn delete_size(text: &[u8]) -> Option<usize>
    ensures { result ≡ own.delete_sizes (words text.now) }
{
    let sets = some_items_size(text, ItemKind::Set)?;
    Some(part_len(sets))
}

/// `SCOPE` behind `deletescope`.
fn delete_scope_size(text: &[u8]) -> Option<usize>
    ensures { result ≡ own.delete_scope_sizes (words text.now) }
{
    let (word, rest) = next_word(text)?;
    if next_word(rest).is_some() {
        return None;
    }
    deletion_size(read_class(word)?)
}

/// A scope of deletion other than 0.
fn deletion_size(scope: i64) -> Option<usize>
    ensures { result ≡ own.deletion_size scope }
{
    if scope == 0 {
        None
    } else {
        Some(part_len(integer_len(scope)))
    }
}

/// A number of 64 bits.
pub(crate) fn read_class(word: &[u8]) -> Option<i64>
    ensures { result ≡ signed_64_in word.now }
{
    read_integer(word, i64::MIN, i64::MAX)
}
