//! The lines that a client shows.
ghost use Rattle.std.specs.Prelude.{◌≡◌, ◌++◌, OnOk, OnErr};
ghost use Rattle.plain_text.specs.Extends.{Extends};
ghost use Rattle.centre_client.specs.Scripted.{shown_reply_line, shown_report_line};

use ber_values::or_undo;
use std::alloc::AllocError;
use tase_views::{Reply, Report};
use texts::events::spell_reply;
use texts::reports::spell_report;

/// Appends the line of a reply. After want of memory `shown` is as before.
pub(crate) fn show_reply(shown: &mut Vec<u8>, reply: &Reply) -> Result<(), AllocError>
    ensures ok { OnOk result
        (shown.new.items ≡ shown.old.items ++ shown_reply_line reply.now) }
    ensures err { OnErr result (shown.new.items ≡ shown.old.items) }
{
    let before = shown.len();
    let put = put_reply(shown, reply);
    or_undo(shown, before, put)
}

#[tactic(auto, using(ber_values::proofs::Pieces::extended))]
fn put_reply(shown: &mut Vec<u8>, reply: &Reply) -> Result<(), AllocError>
    ensures ok { OnOk result
        (shown.new.items ≡ shown.old.items ++ shown_reply_line reply.now) }
    ensures err { OnErr result (Extends shown.old.items shown.new.items) }
{
    shown.extend_from_slice(b"reply ")?;
    spell_reply(shown, reply)?;
    shown.push(b'\n')?;
    Ok(())
}

/// Appends the line of a report. After want of memory `shown` is as before.
pub(crate) fn show_report(shown: &mut Vec<u8>, report: &Report) -> Result<(), AllocError>
    ensures ok { OnOk result
        (shown.new.items ≡ shown.old.items ++ shown_report_line report.now) }
    ensures err { OnErr result (shown.new.items ≡ shown.old.items) }
{
    let before = shown.len();
    let put = put_report(shown, report);
    or_undo(shown, before, put)
}

#[tactic(auto, using(ber_values::proofs::Pieces::extended))]
fn put_report(shown: &mut Vec<u8>, report: &Report) -> Result<(), AllocError>
    ensures ok { OnOk result
        (shown.new.items ≡ shown.old.items ++ shown_report_line report.now) }
    ensures err { OnErr result (Extends shown.old.items shown.new.items) }
{
    shown.extend_from_slice(b"report ")?;
    spell_report(shown, report)?;
    shown.push(b'\n')?;
    Ok(())
}
