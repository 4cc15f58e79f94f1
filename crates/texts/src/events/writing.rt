//! The texts of calls, events and replies, written.
ghost use Rattle.std.specs.Prelude.{◌≡◌, ◌++◌, OnOk, OnErr};
ghost use Rattle.tase_views.specs.EventTexts.{call_text, event_text};
ghost use Rattle.texts.specs.Events.ReplyTexts.{reply_text};

mod calls;
mod events;
mod replies;

use ber_values::or_undo;
use calls::put_call;
use events::put_event;
use replies::put_reply;
use std::alloc::AllocError;
use tase_views::{Call, Event, Reply};

/// Appends the text of a call: `identify`, `read NAME ..`, `read+ NAME ..`, `readset NAME`,
/// `readset+ NAME`, `write NAME=DATA ..`, `writeset NAME DATA ..`, `names CLASS SCOPE`,
/// `names CLASS SCOPE AFTER`, `define NAME MEMBER ..`, `members NAME`, `delete NAME ..`,
/// `deletescope SCOPE` or `odd KIND CODE`. After want of memory `out` is as before.
pub fn spell_call(out: &mut Vec<u8>, call: &Call) -> Result<(), AllocError>
    ensures ok { OnOk result (out.new.items ≡ out.old.items ++ call_text call.now) }
    ensures err { OnErr result (out.new.items ≡ out.old.items) }
{
    let before = out.len();
    let spelled = put_call(out, call);
    or_undo(out, before, spelled)
}

/// Appends the text of an event: `open PEER`, `call CALL`, `take`, `close`,
/// `update POINT BODY FLAGS SECONDS MILLIS`, `table PEER VARIANT`, `tag DEVICE TAG vREASON`,
/// `tick NOW`, `ask PEER SLOT`, `orders` or `stop`, with peers, points, tables, devices and
/// transfer sets by their numbers. After want of memory `out` is as before.
pub fn spell_event(out: &mut Vec<u8>, event: &Event) -> Result<(), AllocError>
    ensures ok { OnOk result (out.new.items ≡ out.old.items ++ event_text event.now) }
    ensures err { OnErr result (out.new.items ≡ out.old.items) }
{
    let before = out.len();
    let spelled = put_event(out, event);
    or_undo(out, before, spelled)
}

/// Appends the text of a reply: `identify`; `read OUTCOME ..`, or `read+ OUTCOME ..` where the
/// reply repeats what the read named; `write` with `ok` or `!N` for each variable;
/// `names end ITEM ..` or `names more ITEM ..`; `error CLASS CODE`; `reject KIND CODE`. After want
/// of memory `out` is as before.
pub fn spell_reply(out: &mut Vec<u8>, reply: &Reply) -> Result<(), AllocError>
    ensures ok { OnOk result (out.new.items ≡ out.old.items ++ reply_text reply.now) }
    ensures err { OnErr result (out.new.items ≡ out.old.items) }
{
    let before = out.len();
    let spelled = put_reply(out, reply);
    or_undo(out, before, spelled)
}
