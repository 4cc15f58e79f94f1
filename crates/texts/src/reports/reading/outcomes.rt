//! Outcomes, and names with their outcomes, read.
ghost use Rattle.std.specs.Prelude.{◌≡◌, ◌∷◌, ◌+◌, ◌<◌, ◌^◌, ◌==◌, ℕ, false, length, take, drop};
ghost use Rattle.std.specs.Prelude.{decimal, Some, IfOk, IfSome, IfNone};
ghost use Rattle.std.specs.List.{position};
ghost use Rattle.mms_data.specs.declared.outcome.Outcome.{Outcome};
ghost use Rattle.mms_data.specs.declared.outcome.Outcome.TheVariants.{Good, Fail};
ghost use Rattle.mms_data.specs.Datum.{Datum};
ghost use Rattle.mms_data.specs.OutcomeOctets.{IsLawfulOutcome};
ghost use Rattle.mms_data.specs.Text.Texts.{data_text, name_text, outcome_text};
ghost use Rattle.mms_data.specs.Text.TextRead.{HasText, begins_with};
ghost use Rattle.texts.specs.declared.reports.reading.outcomes.Told.{Told};
ghost use Rattle.texts.specs.Reports.ReportWords.{told_word, HasOutcomeText, IsTold};

use mms_data::text::{read_data_text, read_name};
use mms_data::{Name, Outcome};
use plain_text::read_number;
use std::alloc::{AllocError, Global};

/// The outcome that a word is.
pub(crate) fn read_outcome(alloc: Global, word: &[u8]) -> Result<Option<Outcome>, AllocError>
    ensures lawful { IfOk result (λ read. IfSome read IsLawfulOutcome) }
    ensures textual { IfOk result (λ read. IfSome read HasOutcomeText) }
    ensures only { (outcome : Outcome) → HasOutcomeText outcome → word.now ≡ outcome_text outcome
        → IfOk result (λ read. read ≡ Some outcome) }
{
    match behind_mark(word) {
        Some(digits) => Ok(read_reason(digits)),
        None => read_good(alloc, word),
    }
}

/// What stands behind the `!` that a word begins with.
fn behind_mark(word: &[u8]) -> Option<&[u8]>
    ensures some { IfSome result (λ digits. word.now ≡ 33 ∷ digits.now) }
    ensures none { IfNone result (begins_with 33 word.now ≡ false) }
{
    match word {
        [first, digits @ ..] if *first == b'!' => Some(digits),
        _ => None,
    }
}

/// The reason whose number digits are.
fn read_reason(digits: &[u8]) -> Option<Outcome>
    ensures lawful { IfSome result IsLawfulOutcome }
    ensures textual { IfSome result HasOutcomeText }
    ensures only { (reason : ℕ) → reason < 2 ^ 8 → digits.now ≡ decimal reason
        → result ≡ Some (Fail reason) }
{
    let reason = read_number(digits, 255)?;
    Some(Outcome::Fail(reason as u8))
}

/// The value that a word is.
fn read_good(alloc: Global, word: &[u8]) -> Result<Option<Outcome>, AllocError>
    ensures lawful { IfOk result (λ read. IfSome read IsLawfulOutcome) }
    ensures textual { IfOk result (λ read. IfSome read HasOutcomeText) }
    ensures only { (value : Datum) → HasText value → word.now ≡ data_text value
        → IfOk result (λ read. read ≡ Some (Good value)) }
{
    match read_data_text(alloc, word)? {
        Ok(value) => Ok(Some(Outcome::Good(value))),
        Err(_) => Ok(None),
    }
}

/// A name, and the outcome of its variable.
#[derive(Drop)]
pub(crate) struct Told {
    pub(crate) name: Name,
    pub(crate) outcome: Outcome,
}

/// The name and the outcome that a word is.
pub(crate) fn read_told(alloc: Global, word: &[u8]) -> Result<Option<Told>, AllocError>
    ensures lawful { IfOk result (λ read. IfSome read (λ told. IsLawfulOutcome told.outcome)) }
    ensures told { IfOk result (λ read. IfSome read IsTold) }
    ensures only { (told : Told) → IsTold told → word.now ≡ told_word told
        → IfOk result (λ read. read ≡ Some told) }
{
    match find_equals(word) {
        Some(place) => {
            let (before, after) = split_parts(word, place);
            read_parts(alloc, before, after)
        }
        None => Ok(None),
    }
}

/// The place of the first `=`.
fn find_equals(word: &[u8]) -> Option<usize>
    ensures { result ≡ position (λ octet. octet == 61) word.now }
{
    word.iter().position(|octet| *octet == b'=')
}

/// What stands before a place, and what stands behind it.
fn split_parts(word: &[u8], place: usize) -> (&[u8], &[u8])
    requires { place < length word.now }
    ensures before { result.0.now ≡ take place word.now }
    ensures after { result.1.now ≡ drop (place + 1) word.now }
{
    (&word[..place], &word[place + 1..])
}

/// The name and the outcome that two texts are.
fn read_parts(alloc: Global, before: &[u8], after: &[u8]) -> Result<Option<Told>, AllocError>
    ensures lawful { IfOk result (λ read. IfSome read (λ told. IsLawfulOutcome told.outcome)) }
    ensures told { IfOk result (λ read. IfSome read IsTold) }
    ensures only { (told : Told) → IsTold told → before.now ≡ name_text told.name
        → after.now ≡ outcome_text told.outcome → IfOk result (λ read. read ≡ Some told) }
{
    let Some(name) = read_name(alloc, before)? else {
        return Ok(None);
    };
    let Some(outcome) = read_outcome(alloc, after)? else {
        return Ok(None);
    };
    Ok(Some(Told { name, outcome }))
}
