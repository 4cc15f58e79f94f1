//! The text of an outcome.
ghost use Rattle.std.specs.Prelude.{◌≡◌, ◌++◌, OnOk, OnErr};
ghost use Rattle.mms_data.specs.declared.outcome.Outcome.{Outcome};
ghost use Rattle.mms_data.specs.Text.Texts.{outcome_text};

use crate::Outcome;
use crate::text::spelling::spell_data;
use ber_values::or_undo;
use plain_text::push_decimal;
use std::alloc::AllocError;

/// Appends an outcome as text: a value's, or `!` and the number of the reason. After want of
/// memory `out` is as before.
pub fn spell_outcome(out: &mut Vec<u8>, outcome: &Outcome) -> Result<(), AllocError>
    ensures ok { OnOk result (out.new.items ≡ out.old.items ++ outcome_text outcome.now) }
    ensures err { OnErr result (out.new.items ≡ out.old.items) }
{
    match outcome {
        Outcome::Good(value) => spell_data(out, value),
        Outcome::Fail(reason) => spell_reason(out, *reason),
    }
}

fn spell_reason(out: &mut Vec<u8>, reason: u8) -> Result<(), AllocError>
    ensures ok { OnOk result (out.new.items ≡ out.old.items ++ outcome_text (Outcome.Fail reason)) }
    ensures err { OnErr result (out.new.items ≡ out.old.items) }
{
    let before = out.len();
    out.push(b'!')?;
    let spelled = push_decimal(out, u64::from(reason));
    or_undo(out, before, spelled)
}
