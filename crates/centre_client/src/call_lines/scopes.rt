//! Lists of names: how many octets the request for one has.
ghost use Rattle.std.specs.Prelude.{◌≡◌, ◌≤◌, Some, IfSome, option_map};
ghost use Rattle.mms_data.specs.Text.NameIn.{identifier_in};
ghost use Rattle.plain_text.specs.Words.{words};
ghost use Rattle.texts.specs.Journal.CallIn.{scope_of_word, after_in};
ghost use Rattle.centre_client.specs.ShortNames.{scope_of};
ghost use Rattle.centre_client.specs.CallSizes as own;

use crate::call_lines::names::{ShortScope, find_separator, read_scope, text_size};
use crate::call_lines::verbs::read_class;
use crate::call_lines::visible::read_identifier;
use ber_values::{MOST_LENGTH, add_len, integer_len, part_len};
use plain_text::next_word;

/// `CLASS SCOPE` or `CLASS SCOPE AFTER` behind `names`.
pub(crate) fn name_list_size(text: &[u8]) -> Option<usize>
    ensures { result ≡ own.name_list_sizes (words text.now) }
{
    let (class, rest) = next_word(text)?;
    let (scope, more) = next_word(rest)?;
    let class = read_class(class)?;
    let scope = scope_word_size(scope)?;
    let after = after_size(more)?;
    Some(add_len(class_size(class), add_len(scope, after)))
}

fn class_size(class: i64) -> usize
    ensures { result ≡ own.class_count class }
{
    part_len(part_len(integer_len(class)))
}

/// The scope that a word is.
fn scope_word_size(word: &[u8]) -> Option<usize>
    ensures size { result ≡ option_map own.scope_count (scope_of_word word.now) }
    ensures few { IfSome result (λ n. n ≤ MOST_LENGTH) }
{
    let scope = read_scope_word(word)?;
    Some(scope_size(&scope))
}

fn read_scope_word(word: &[u8]) -> Option<ShortScope>
    ensures { option_map scope_of result ≡ scope_of_word word.now }
{
    let place = find_separator(word)?;
    if place + 1 == word.len() {
        read_scope(&word[..place], word[place])
    } else {
        None
    }
}

fn scope_size(scope: &ShortScope) -> usize
    ensures { result ≡ own.scope_count (scope_of scope.now) }
{
    match scope {
        ShortScope::Vmd => 4,
        ShortScope::Domain(domain) => part_len(text_size(domain)),
        ShortScope::Association => 4,
    }
}

/// Nothing, or the name after which the list goes on.
fn after_size(text: &[u8]) -> Option<usize>
    ensures size { result ≡ option_map own.after_count (after_in (words text.now)) }
    ensures few { IfSome result (λ n. n ≤ MOST_LENGTH) }
{
    let Some((word, rest)) = next_word(text) else {
        return Some(0);
    };
    if next_word(rest).is_some() {
        return None;
    }
    after_word_size(word)
}

/// The name that a word is.
fn after_word_size(word: &[u8]) -> Option<usize>
    ensures size { result ≡ option_map own.after_count (option_map Some (identifier_in word.now)) }
    ensures few { IfSome result (λ n. n ≤ MOST_LENGTH) }
{
    let after = read_identifier(word)?;
    Some(text_size(&after))
}
