//! The texts of reports, written.
ghost use Rattle.std.specs.Prelude.{◌≡◌, ◌∷◌, ◌++◌, flat_map, length, codes, OnOk, OnErr};
ghost use Rattle.plain_text.specs.Extends.{Extends};
ghost use Rattle.mms_data.specs.Text.Texts.{outcome_text};
ghost use Rattle.tase_views.specs.EventTexts.{next_name};
ghost use Rattle.texts.specs.Reports.ReportTexts.{report_text, next_outcome, told_text};

use ber_values::or_undo;
use mms_data::text::{spell_name, spell_outcome};
use mms_data::{Name, Outcome};
use std::alloc::AllocError;
use tase_views::{Report, ReportKind};

/// Appends the text of a report: `set NAME OUTCOME ..`, or `vars NAME=OUTCOME ..`. After want of
/// memory `out` is as before.
pub fn spell_report(out: &mut Vec<u8>, report: &Report) -> Result<(), AllocError>
    ensures ok { OnOk result (out.new.items ≡ out.old.items ++ report_text report.now) }
    ensures err { OnErr result (out.new.items ≡ out.old.items) }
{
    let before = out.len();
    let spelled = put_report(out, report);
    or_undo(out, before, spelled)
}

/// Appends the text of a report.
fn put_report(out: &mut Vec<u8>, report: &Report) -> Result<(), AllocError>
    ensures ok { OnOk result (out.new.items ≡ out.old.items ++ report_text report.now) }
    ensures err { OnErr result (Extends out.old.items out.new.items) }
{
    match report.kind() {
        ReportKind::Set { set, results } => put_set(out, set, results.as_slice()),
        ReportKind::Variables { names, results } => {
            put_variables(out, names.as_slice(), results.as_slice())
        }
    }
}

/// Appends `set`, the name of a data set, and outcomes.
#[tactic(auto, using(ber_values::proofs::Pieces::extended))]
fn put_set(out: &mut Vec<u8>, set: &Name, outcomes: &[Outcome]) -> Result<(), AllocError>
    ensures ok { OnOk result (out.new.items
        ≡ out.old.items ++ codes "set" ++ next_name set.now
        ++ flat_map next_outcome outcomes.now) }
    ensures err { OnErr result (Extends out.old.items out.new.items) }
{
    out.extend_from_slice(b"set")?;
    put_name(out, set)?;
    put_outcomes(out, outcomes)
}

/// Appends `vars`, and each name with the outcome at its place.
#[tactic(auto, using(ber_values::proofs::Pieces::extended))]
fn put_variables(out: &mut Vec<u8>, names: &[Name], outcomes: &[Outcome]) -> Result<(), AllocError>
    requires { length outcomes.now ≡ length names.now }
    ensures ok { OnOk result (out.new.items
        ≡ out.old.items ++ codes "vars" ++ told_text names.now outcomes.now) }
    ensures err { OnErr result (Extends out.old.items out.new.items) }
{
    out.extend_from_slice(b"vars")?;
    put_told(out, names, outcomes)
}

/// Appends each name with the outcome at its place.
#[tactic(auto, using(ber_values::proofs::Pieces::extended))]
fn put_told(out: &mut Vec<u8>, names: &[Name], outcomes: &[Outcome]) -> Result<(), AllocError>
    requires { length outcomes.now ≡ length names.now }
    ensures ok { OnOk result (out.new.items
        ≡ out.old.items ++ told_text names.now outcomes.now) }
    ensures err { OnErr result (Extends out.old.items out.new.items) }
{
    for index in 0..names.len() {
        put_variable(out, &names[index], &outcomes[index])?;
    }
    Ok(())
}

/// Appends a space, a name and its outcome.
#[tactic(auto, using(ber_values::proofs::Pieces::extended))]
fn put_variable(out: &mut Vec<u8>, name: &Name, outcome: &Outcome) -> Result<(), AllocError>
    ensures ok { OnOk result (out.new.items
        ≡ out.old.items ++ next_name name.now ++ 61 ∷ outcome_text outcome.now) }
    ensures err { OnErr result (Extends out.old.items out.new.items) }
{
    put_name(out, name)?;
    out.push(b'=')?;
    spell_outcome(out, outcome)
}

/// Appends a space and a name.
#[tactic(auto, using(ber_values::proofs::Pieces::extended))]
fn put_name(out: &mut Vec<u8>, name: &Name) -> Result<(), AllocError>
    ensures ok { OnOk result (out.new.items ≡ out.old.items ++ next_name name.now) }
    ensures err { OnErr result (Extends out.old.items out.new.items) }
{
    out.push(b' ')?;
    spell_name(out, name)
}

/// Appends outcomes, a space before each.
#[tactic(auto, using(ber_values::proofs::Pieces::extended))]
fn put_outcomes(out: &mut Vec<u8>, outcomes: &[Outcome]) -> Result<(), AllocError>
    ensures ok { OnOk result (out.new.items
        ≡ out.old.items ++ flat_map next_outcome outcomes.now) }
    ensures err { OnErr result (Extends out.old.items out.new.items) }
{
    for outcome in outcomes {
        put_outcome(out, outcome)?;
    }
    Ok(())
}

/// Appends a space and an outcome.
#[tactic(auto, using(ber_values::proofs::Pieces::extended))]
fn put_outcome(out: &mut Vec<u8>, outcome: &Outcome) -> Result<(), AllocError>
    ensures ok { OnOk result (out.new.items ≡ out.old.items ++ next_outcome outcome.now) }
    ensures err { OnErr result (Extends out.old.items out.new.items) }
{
    out.push(b' ')?;
    spell_outcome(out, outcome)
}
