//! Lists of names and of values in a text: how many octets they have in a PDU.
ghost use Rattle.std.specs.Prelude.{◌≡◌, ◌≤◌, IfSome, option_map};
ghost use Rattle.plain_text.specs.Words.{words};
ghost use Rattle.mms_data.specs.Text.NameIn.{name_in};
ghost use Rattle.mms_data.specs.NameOctets.{name_len};
ghost use Rattle.texts.specs.Journal.CallIn.{sole_in};
ghost use Rattle.centre_client.specs.CallSizes.{variable_len, item_len_in, items_from};
ghost use Rattle.centre_client.specs.CallSizes.{items_len};

use crate::call_lines::data::value_text_size;
use crate::call_lines::names::{name_size, read_name, variable_size};
use ber_values::{MOST_LENGTH, add_len};
use plain_text::next_word;

/// What the words of a list are.
#[derive(Clone, Copy)]
pub(crate) enum ItemKind {
    /// Names of variables.
    Variable,
    /// Names of data sets.
    Set,
    Value,
}

/// How many octets the items have that words are, of which there is at least one.
pub(crate) fn some_items_size(text: &[u8], kind: ItemKind) -> Option<usize>
    ensures size { result ≡ items_len kind (words text.now) }
    ensures few { IfSome result (λ n. n ≤ MOST_LENGTH) }
{
    match next_word(text) {
        Some(_) => items_size(text, kind),
        None => None,
    }
}

fn items_size(text: &[u8], kind: ItemKind) -> Option<usize>
    ensures size { result ≡ items_from kind 0 (words text.now) }
    ensures few { IfSome result (λ n. n ≤ MOST_LENGTH) }
{
    let mut len = 0;
    let mut rest = text;
    while let Some((word, more)) = next_word(rest) {
        let item = item_size(word, kind)?;
        len = add_len(len, item);
        rest = more;
    }
    Some(len)
}

fn item_size(word: &[u8], kind: ItemKind) -> Option<usize>
    ensures size { result ≡ item_len_in kind word.now }
    ensures few { IfSome result (λ n. n ≤ MOST_LENGTH) }
{
    match kind {
        ItemKind::Variable => variable_word_size(word),
        ItemKind::Set => name_word_size(word),
        ItemKind::Value => value_text_size(word),
    }
}

/// The name that a word is.
pub(crate) fn name_word_size(word: &[u8]) -> Option<usize>
    ensures size { result ≡ option_map name_len (name_in word.now) }
    ensures few { IfSome result (λ n. n ≤ MOST_LENGTH) }
{
    let name = read_name(word)?;
    Some(name_size(&name))
}

/// The variable whose name a word is.
fn variable_word_size(word: &[u8]) -> Option<usize>
    ensures size { result ≡ option_map variable_len (name_in word.now) }
    ensures few { IfSome result (λ n. n ≤ MOST_LENGTH) }
{
    let name = read_name(word)?;
    Some(variable_size(&name))
}

/// A name, and nothing behind it.
pub(crate) fn sole_name_size(text: &[u8]) -> Option<usize>
    ensures size { result ≡ option_map name_len (sole_in (words text.now)) }
    ensures few { IfSome result (λ n. n ≤ MOST_LENGTH) }
{
    let (word, rest) = next_word(text)?;
    if next_word(rest).is_some() {
        return None;
    }
    name_word_size(word)
}
