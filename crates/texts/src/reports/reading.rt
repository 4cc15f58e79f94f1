//! The texts of reports, read.
ghost use Rattle.std.specs.Prelude.{◌≡◌, ◌∷◌, List, map, Some, IfOk, IfSome, bytes_eq};
ghost use Rattle.std.specs.List.{All};
ghost use Rattle.plain_text.specs.Words.{words};
ghost use Rattle.mms_data.specs.declared.outcome.Outcome.{Outcome};
ghost use Rattle.mms_data.specs.ObjectName.{ObjectName};
ghost use Rattle.mms_data.specs.OutcomeOctets.{IsLawfulOutcome};
ghost use Rattle.mms_data.specs.Text.Texts.{name_text, outcome_text};
ghost use Rattle.tase_views.specs.declared.reply.ReportKind.{ReportKind};
ghost use Rattle.tase_views.specs.declared.reply.ReportKind.TheVariants.{Set, Variables};
ghost use Rattle.tase_views.specs.Replies.{IsReport};
ghost use Rattle.texts.specs.Reports.ReportTexts.{report_text};
ghost use Rattle.texts.specs.Reports.ReportWords.{told_word, told_of, report_words};
ghost use Rattle.texts.specs.Reports.ReportWords.{HasOutcomeText, HasReportText, SpellsReport};

mod outcomes;

use crate::reports::writing::spell_report;
use mms_data::Names;
use mms_data::text::read_name;
use outcomes::{read_outcome, read_told};
use plain_text::next_word;
use std::alloc::{AllocError, Global};
use tase_views::{Report, ReportKind, Results};

/// The report whose text this is, or nothing where it is no report's text.
pub fn read_report(alloc: Global, text: &[u8]) -> Result<Option<Report>, AllocError>
    ensures found { IfOk result (λ read. IfSome read (λ report. SpellsReport text.now report)) }
    ensures only { (report : ReportKind) → SpellsReport text.now report
        → IfOk result (λ read. read ≡ Some report) }
{
    let Some(report) = read_words(alloc, text)? else {
        return Ok(None);
    };
    if is_text_of(alloc, text, &report)? {
        Ok(Some(report))
    } else {
        Ok(None)
    }
}

/// Whether a text is that of a report.
fn is_text_of(alloc: Global, text: &[u8], report: &Report) -> Result<bool, AllocError>
    ensures { IfOk result (λ same. same ≡ bytes_eq (report_text report.now) text.now) }
{
    let mut spelled = Vec::new(alloc);
    spell_report(&mut spelled, report)?;
    Ok(spelled.as_slice() == text)
}

/// The report whose words a text has, however they are spaced.
fn read_words(alloc: Global, text: &[u8]) -> Result<Option<Report>, AllocError>
    ensures lawful { IfOk result (λ read. IfSome read IsReport) }
    ensures textual { IfOk result (λ read. IfSome read HasReportText) }
    ensures only { (report : ReportKind) → IsReport report → HasReportText report
        → words text.now ≡ report_words report → IfOk result (λ read. read ≡ Some report) }
{
    let Some((verb, rest)) = next_word(text) else {
        return Ok(None);
    };
    if verb == b"set".as_slice() {
        return read_set(alloc, rest);
    }
    if verb == b"vars".as_slice() {
        return read_variables(alloc, rest);
    }
    Ok(None)
}

/// `NAME OUTCOME ..` behind `set`.
fn read_set(alloc: Global, text: &[u8]) -> Result<Option<Report>, AllocError>
    ensures lawful { IfOk result (λ read. IfSome read IsReport) }
    ensures textual { IfOk result (λ read. IfSome read HasReportText) }
    ensures only { (set : ObjectName) (results : List Outcome) → HasReportText (Set set results)
        → words text.now ≡ name_text set ∷ map outcome_text results
        → IfOk result (λ read. read ≡ Some (Set set results)) }
{
    let Some((word, rest)) = next_word(text) else {
        return Ok(None);
    };
    let Some(set) = read_name(alloc, word)? else {
        return Ok(None);
    };
    let Some(results) = read_outcomes(alloc, rest)? else {
        return Ok(None);
    };
    Ok(Some(Report::new(ReportKind::Set { set, results })))
}

/// The outcomes that words are.
fn read_outcomes(alloc: Global, text: &[u8]) -> Result<Option<Results>, AllocError>
    ensures lawful { IfOk result (λ read. IfSome read (All IsLawfulOutcome)) }
    ensures textual { IfOk result (λ read. IfSome read (All HasOutcomeText)) }
    ensures only { (outcomes : List Outcome) → All HasOutcomeText outcomes
        → words text.now ≡ map outcome_text outcomes
        → IfOk result (λ read. read ≡ Some outcomes) }
{
    let mut outcomes = Results::new(alloc);
    let mut rest = text;
    while let Some((word, after)) = next_word(rest) {
        let Some(outcome) = read_outcome(alloc, word)? else {
            return Ok(None);
        };
        outcomes.push(outcome)?;
        rest = after;
    }
    Ok(Some(outcomes))
}

/// `NAME=OUTCOME ..` behind `vars`, of which there is at least one.
fn read_variables(alloc: Global, text: &[u8]) -> Result<Option<Report>, AllocError>
    ensures lawful { IfOk result (λ read. IfSome read IsReport) }
    ensures textual { IfOk result (λ read. IfSome read HasReportText) }
    ensures only { (names : List ObjectName) (results : List Outcome)
        → IsReport (Variables names results) → HasReportText (Variables names results)
        → words text.now ≡ map told_word (told_of names results)
        → IfOk result (λ read. read ≡ Some (Variables names results)) }
{
    let mut names = Names::new(alloc);
    let mut results = Results::new(alloc);
    let mut rest = text;
    while let Some((word, after)) = next_word(rest) {
        let Some(told) = read_told(alloc, word)? else {
            return Ok(None);
        };
        names.push(told.name)?;
        results.push(told.outcome)?;
        rest = after;
    }
    if names.len() == 0 {
        return Ok(None);
    }
    Ok(Some(Report::new(ReportKind::Variables { names, results })))
}
