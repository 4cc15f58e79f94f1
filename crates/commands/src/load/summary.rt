//! The lines that tell of a run.
ghost use Rattle.std.specs.Prelude.{◌≡◌, ◌++◌, IfOk, OnOk};
ghost use Rattle.commands.specs.Load.Summaries.{number_line, summary_text};

use crate::load::tally::tally_of;
use plain_text::push_decimal;
use std::alloc::{AllocError, Global};

/// Five lines about a run whose history has so many entries and that shows this: these entries, the
/// replies, the reports, the outcomes in these, and the sum of all octets that it shows.
pub fn spell_summary(alloc: Global, entries: u64, shown: &[u8]) -> Result<Vec<u8>, AllocError>
    ensures { IfOk result (λ text. text.items ≡ summary_text entries shown.now) }
{
    let tally = tally_of(shown);
    let mut text = Vec::new(alloc);
    push_number(&mut text, b"entries", entries)?;
    push_number(&mut text, b"replies", tally.replies)?;
    push_number(&mut text, b"reports", tally.reports)?;
    push_number(&mut text, b"results", tally.results)?;
    push_number(&mut text, b"sum", u64::from(tally.sum))?;
    Ok(text)
}

// Appends a name and a number as a line.
fn push_number(out: &mut Vec<u8>, name: &[u8], number: u64) -> Result<(), AllocError>
    ensures { OnOk result (out.new.items ≡ out.old.items ++ number_line name.now number) }
{
    out.extend_from_slice(name)?;
    out.push(b' ')?;
    push_decimal(out, number)?;
    Ok(out.push(b'\n')?)
}
