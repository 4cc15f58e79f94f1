//! The names of a read, and those of a write with their values.
ghost use Rattle.std.specs.Prelude.{◌≡◌, ◌+◌, ◌<◌, ◌≤◌, length, take, drop, map, IfOk, IfErr};
ghost use Rattle.std.specs.Prelude.{IfSome, IsTrue};
ghost use Rattle.std.specs.Prelude.{is_some};
ghost use Rattle.std.specs.List.{All};
ghost use Rattle.plain_text.specs.Words.{words};
ghost use Rattle.mms_data.specs.Datum.{Datum};
ghost use Rattle.mms_data.specs.ObjectName.{ObjectName, IsName};
ghost use Rattle.mms_data.specs.Text.Texts.{name_text};
ghost use Rattle.texts.specs.Events.Breaks.{Breaks};
ghost use Rattle.texts.specs.Events.Verbs.{HaltsAtWords, OneOrMore, IsNameWord, IsAssignedWord};
ghost use Rattle.texts.specs.Events.Assigned.{equals_in, IsAssignment, AreAssignments, AreParts};

use crate::events::reading::halt::Halt;
use mms_data::text::{read_data_text, read_name};
use mms_data::{MmsData, Name, Names};
use plain_text::next_word;
use std::alloc::{AllocError, Global};
use tase_views::Values;

/// The names that words are, of which there is at least one.
pub(crate) fn read_names(alloc: Global, text: &[u8]) -> Result<Names, Halt>
    ensures found { IfOk result (λ names. (words text.now ≡ map name_text names)
        × All IsName names) }
    ensures some { IfOk result (λ names. 0 < length names) }
    ensures fault { IfErr result (λ halt. HaltsAtWords halt
        (λ count. Breaks (OneOrMore IsNameWord) (words text.now) count)) }
    ensures within { IfErr result (λ halt. HaltsAtWords halt (λ count. count ≤ length text.now)) }
{
    let mut names = Names::new(alloc);
    let mut rest = text;
    while let Some((word, after)) = next_word(rest) {
        let Some(name) = read_name(alloc, word)? else {
            return Err(Halt::Bad(names.len()));
        };
        names.push(name)?;
        rest = after;
    }
    if names.len() == 0 {
        return Err(Halt::Bad(0));
    }
    Ok(names)
}

/// A name, and the value that it is to have.
#[derive(Drop)]
struct Assignment {
    name: Name,
    value: MmsData,
}

/// Names, and the value of each at the same place.
#[derive(Drop)]
pub(crate) struct Assignments {
    pub(crate) names: Names,
    pub(crate) values: Values,
}

/// The names with their values that words are, of which there is at least one.
pub(crate) fn read_assignments(alloc: Global, text: &[u8]) -> Result<Assignments, Halt>
    ensures found { IfOk result (λ a. AreAssignments (words text.now) a.names a.values) }
    ensures some { IfOk result (λ a. 0 < length a.names) }
    ensures fault { IfErr result (λ halt. HaltsAtWords halt
        (λ count. Breaks (OneOrMore IsAssignedWord) (words text.now) count)) }
    ensures within { IfErr result (λ halt. HaltsAtWords halt (λ count. count ≤ length text.now)) }
{
    let mut names = Names::new(alloc);
    let mut values = Values::new(alloc);
    let mut rest = text;
    while let Some((word, after)) = next_word(rest) {
        let Some(assignment) = read_assignment(alloc, word)? else {
            return Err(Halt::Bad(names.len()));
        };
        names.push(assignment.name)?;
        values.push(assignment.value)?;
        rest = after;
    }
    if names.len() == 0 {
        return Err(Halt::Bad(0));
    }
    Ok(Assignments { names, values })
}

/// The name and the value that a word is.
fn read_assignment(alloc: Global, word: &[u8]) -> Result<Option<Assignment>, AllocError>
    ensures found { IfOk result (λ read. IfSome read
        (λ a. IsAssignment word.now a.name a.value)) }
    ensures only { (name : ObjectName) (value : Datum) → IsAssignment word.now name value
        → IfOk result (λ read. IsTrue (is_some read)) }
{
    match find_equals(word) {
        Some(place) => {
            let (before, after) = split_parts(word, place);
            read_parts(alloc, before, after)
        }
        None => Ok(None),
    }
}

/// The place of the first `=`.
fn find_equals(word: &[u8]) -> Option<usize>
    ensures { result ≡ equals_in word.now }
{
    word.iter().position(|octet| *octet == b'=')
}

/// What stands before a place, and what stands behind it.
fn split_parts(word: &[u8], place: usize) -> (&[u8], &[u8])
    requires { place < length word.now }
    ensures before { result.0.now ≡ take place word.now }
    ensures after { result.1.now ≡ drop (place + 1) word.now }
{
    (&word[..place], &word[place + 1..])
}

/// The name and the value that two texts are.
fn read_parts(alloc: Global, before: &[u8], after: &[u8]) -> Result<Option<Assignment>, AllocError>
    ensures found { IfOk result (λ read. IfSome read
        (λ a. AreParts before.now after.now a.name a.value)) }
    ensures only { (name : ObjectName) (value : Datum) → AreParts before.now after.now name value
        → IfOk result (λ read. IsTrue (is_some read)) }
{
    let Some(name) = read_name(alloc, before)? else {
        return Ok(None);
    };
    match read_data_text(alloc, after)? {
        Ok(value) => Ok(Some(Assignment { name, value })),
        Err(_) => Ok(None),
    }
}
