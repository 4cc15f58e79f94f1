//! Writes of variables: how many octets the request for one has, and whether it operates a device
//! that has to be selected before.
ghost use Rattle.std.specs.Prelude.{◌≡◌, ◌<◌, ◌≤◌, ◌==◌, ◌||◌, false, length, IfSome};
ghost use Rattle.std.specs.List.{position};
ghost use Rattle.plain_text.specs.Words.{words};
ghost use Rattle.centre_client.specs.ShortNames.{name_of};
ghost use Rattle.centre_client.specs.StepLines.{is_guarded};
ghost use Rattle.centre_client.specs.CallSizes as own;

use crate::call_lines::data::value_text_size;
use crate::call_lines::names::{ShortName, ShortScope, read_name, variable_size};
use crate::call_lines::verbs::CallSketch;
use crate::steps::is_variable_guarded;
use ber_values::{MOST_LENGTH, add_len, part_len};
use bilateral::Centre;
use plain_text::next_word;

/// What is judged of a name with its value.
#[derive(Clone, Copy)]
pub(crate) struct Assignment {
    pub guarded: bool,
    /// How many octets the variable has in a PDU, and the value.
    pub name: usize,
    pub value: usize,
}

/// What is judged of `NAME=DATA ..` behind `write`.
pub(crate) fn write_sketch(centre: &Centre, peer: u32, text: &[u8]) -> Option<CallSketch>
    requires { peer < length centre.now.tables }
    ensures { result ≡ own.write_sketch_in centre.now peer (words text.now) }
{
    match next_word(text) {
        Some(_) => all_written(centre, peer, text),
        None => None,
    }
}

fn all_written(centre: &Centre, peer: u32, text: &[u8]) -> Option<CallSketch>
    requires { peer < length centre.now.tables }
    ensures { result ≡ own.write_from centre.now peer false 0 0 (words text.now) }
{
    let mut guarded = false;
    let mut names = 0;
    let mut values = 0;
    let mut rest = text;
    while let Some((word, more)) = next_word(rest) {
        let assigned = read_assignment(centre, peer, word)?;
        guarded = either(guarded, assigned.guarded);
        names = add_len(names, assigned.name);
        values = add_len(values, assigned.value);
        rest = more;
    }
    Some(CallSketch {
        odd: false,
        guarded,
        size: add_len(part_len(names), part_len(values)),
    })
}

fn either(first: bool, second: bool) -> bool
    ensures { result ≡ (first || second) }
{
    first || second
}

/// What is judged of a name with its value.
fn read_assignment(centre: &Centre, peer: u32, word: &[u8]) -> Option<Assignment>
    requires { peer < length centre.now.tables }
    ensures read { result ≡ own.assignment_in centre.now peer word.now }
    ensures few { IfSome result (λ a. (a.name ≤ MOST_LENGTH) × (a.value ≤ MOST_LENGTH)) }
{
    match find_equals(word) {
        Some(place) => assignment_at(centre, peer, &word[..place], &word[place + 1..]),
        None => None,
    }
}

fn find_equals(word: &[u8]) -> Option<usize>
    ensures { result ≡ position (λ octet. octet == 61) word.now }
{
    word.iter().position(|octet| *octet == b'=')
}

fn assignment_at(centre: &Centre, peer: u32, before: &[u8], after: &[u8]) -> Option<Assignment>
    requires { peer < length centre.now.tables }
    ensures read { result ≡ own.assignment_at centre.now peer before.now after.now }
    ensures few { IfSome result (λ a. (a.name ≤ MOST_LENGTH) × (a.value ≤ MOST_LENGTH)) }
{
    let name = read_name(before)?;
    let value = value_text_size(after)?;
    Some(Assignment {
        guarded: is_name_guarded(centre, peer, &name),
        name: variable_size(&name),
        value,
    })
}

/// Whether a name is the variable of a device that has to be selected before.
fn is_name_guarded(centre: &Centre, peer: u32, name: &ShortName) -> bool
    requires { peer < length centre.now.tables }
    ensures { result ≡ is_guarded centre.now peer (name_of name.now) }
{
    match &name.scope {
        ShortScope::Domain(domain) => {
            is_variable_guarded(centre, peer, domain.as_slice(), name.item.as_slice())
        }
        _ => false,
    }
}
