//! The text of a snapshot, written.
ghost use Rattle.std.specs.Prelude.{◌≡◌, ◌++◌, OnOk, OnErr};
ghost use Rattle.plain_text.specs.Extends.{Extends};
ghost use Rattle.texts.specs.Journal.Journals.{entry_line, journal_text};

use crate::entries::Snapshot;
use ber_values::or_undo;
use std::alloc::AllocError;
use tase_views::Entry;
use texts::journal::spell_entry;

/// Appends the text of a snapshot, which is that of a journal: a line for each entry. After want of
/// memory `out` is as before.
pub fn write_snapshot(out: &mut Vec<u8>, snapshot: &Snapshot) -> Result<(), AllocError>
    ensures ok { OnOk result (out.new.items ≡ out.old.items ++ journal_text snapshot.now) }
    ensures err { OnErr result (out.new.items ≡ out.old.items) }
{
    let before = out.len();
    let written = put_entries(out, snapshot.entries());
    or_undo(out, before, written)
}

/// Appends the lines of entries.
fn put_entries(out: &mut Vec<u8>, entries: &[Entry]) -> Result<(), AllocError>
    ensures ok { OnOk result (out.new.items ≡ out.old.items ++ journal_text entries.now) }
    ensures err { OnErr result (Extends out.old.items out.new.items) }
{
    for entry in entries {
        put_line(out, entry)?;
    }
    Ok(())
}

/// Appends the line of an entry.
fn put_line(out: &mut Vec<u8>, entry: &Entry) -> Result<(), AllocError>
    ensures ok { OnOk result (out.new.items ≡ out.old.items ++ entry_line entry.now) }
    ensures err { OnErr result (Extends out.old.items out.new.items) }
{
    spell_entry(out, entry)?;
    out.push(b'\n')?;
    Ok(())
}
