//! The text of an entry, written.
ghost use Rattle.std.specs.Prelude.{◌≡◌, ◌++◌, OnOk, OnErr};
ghost use Rattle.plain_text.specs.Extends.{Extends};
ghost use Rattle.texts.specs.Journal.Journals.{entry_text};

use crate::events::spell_event;
use ber_values::or_undo;
use plain_text::push_decimal;
use std::alloc::AllocError;
use tase_views::{Entry, Event};

/// Appends the text of an entry: the number of its seat, a space and its event, as
/// [`spell_event`](crate::events::spell_event) writes that. After want of memory `out` is as
/// before.
pub fn spell_entry(out: &mut Vec<u8>, entry: &Entry) -> Result<(), AllocError>
    ensures ok { OnOk result (out.new.items ≡ out.old.items ++ entry_text entry.now) }
    ensures err { OnErr result (out.new.items ≡ out.old.items) }
{
    spell_seat_event(out, entry.who, &entry.event)
}

/// Appends the text of the entry that has this seat and this event. After want of memory `out` is
/// as before.
pub fn spell_seat_event(out: &mut Vec<u8>, who: u64, event: &Event) -> Result<(), AllocError>
    ensures ok { OnOk result (out.new.items
        ≡ out.old.items ++ entry_text (record { who = who; event = event.now })) }
    ensures err { OnErr result (out.new.items ≡ out.old.items) }
{
    let before = out.len();
    let spelled = put_entry(out, who, event);
    or_undo(out, before, spelled)
}

/// Appends the number of a seat, a space and an event.
fn put_entry(out: &mut Vec<u8>, who: u64, event: &Event) -> Result<(), AllocError>
    ensures ok { OnOk result (out.new.items
        ≡ out.old.items ++ entry_text (record { who = who; event = event.now })) }
    ensures err { OnErr result (Extends out.old.items out.new.items) }
{
    push_decimal(out, who)?;
    out.push(b' ')?;
    spell_event(out, event)
}
