//! The texts of replies.
ghost use Rattle.std.specs.Prelude.{◌≡◌, ◌++◌, flat_map, is_some, OnOk, OnErr, codes};
ghost use Rattle.plain_text.specs.Extends.{Extends};
ghost use Rattle.tase_views.specs.EventTexts.{read_verb};
ghost use Rattle.texts.specs.Events.ReplyTexts.{reply_text, result_text, written_text, item_text};
ghost use Rattle.texts.specs.Events.ReplyTexts.{more_text};

use crate::events::writing::calls::{put_names, put_pair, put_read_verb};
use ber_values::Visible;
use mms_data::Outcome;
use mms_data::text::spell_outcome;
use mms_data::types::spell_shape;
use plain_text::{push_decimal, push_escaped};
use std::alloc::AllocError;
use tase_views::{Reply, ReplyKind};

/// Appends the text of a reply.
#[tactic(auto, using(crate::proofs::OfEvents::Extended::extended))]
pub(crate) fn put_reply(out: &mut Vec<u8>, reply: &Reply) -> Result<(), AllocError>
    ensures ok { OnOk result (out.new.items ≡ out.old.items ++ reply_text reply.now) }
    ensures err { OnErr result (Extends out.old.items out.new.items) }
{
    match reply.kind() {
        ReplyKind::Identified => out.extend_from_slice(b"identify"),
        ReplyKind::Results { spec, results } => {
            put_read_verb(out, spec.is_some())?;
            put_results(out, results.as_slice())
        }
        ReplyKind::Written(results) => {
            out.extend_from_slice(b"write")?;
            put_written(out, results.as_slice())
        }
        ReplyKind::NamesAre { names, more } => put_name_list(out, names.as_slice(), *more),
        ReplyKind::TypeIs(shape) => {
            out.extend_from_slice(b"type ")?;
            spell_shape(out, shape)
        }
        ReplyKind::Defined => out.extend_from_slice(b"defined"),
        ReplyKind::MembersAre(names) => {
            out.extend_from_slice(b"members")?;
            put_names(out, names.as_slice())
        }
        ReplyKind::Deleted { matched, deleted } => {
            out.extend_from_slice(b"deleted ")?;
            put_pair(out, *matched, *deleted)
        }
        ReplyKind::Error { class, code } => {
            out.extend_from_slice(b"error ")?;
            put_pair(out, u32::from(*class), u32::from(*code))
        }
        ReplyKind::Reject { kind, code } => {
            out.extend_from_slice(b"reject ")?;
            put_pair(out, u32::from(*kind), u32::from(*code))
        }
    }
}

/// Appends outcomes, a space before each.
#[tactic(auto, using(crate::proofs::OfEvents::Extended::extended))]
fn put_results(out: &mut Vec<u8>, outcomes: &[Outcome]) -> Result<(), AllocError>
    ensures ok { OnOk result (out.new.items ≡ out.old.items ++ flat_map result_text outcomes.now) }
    ensures err { OnErr result (Extends out.old.items out.new.items) }
{
    for outcome in outcomes {
        put_result(out, outcome)?;
    }
    Ok(())
}

/// Appends a space and an outcome.
#[tactic(auto, using(crate::proofs::OfEvents::Extended::extended))]
fn put_result(out: &mut Vec<u8>, outcome: &Outcome) -> Result<(), AllocError>
    ensures ok { OnOk result (out.new.items ≡ out.old.items ++ result_text outcome.now) }
    ensures err { OnErr result (Extends out.old.items out.new.items) }
{
    out.push(b' ')?;
    spell_outcome(out, outcome)
}

/// Appends what came of each variable of a write.
#[tactic(auto, using(crate::proofs::OfEvents::Extended::extended))]
fn put_written(out: &mut Vec<u8>, results: &[Option<u8>]) -> Result<(), AllocError>
    ensures ok { OnOk result (out.new.items ≡ out.old.items ++ flat_map written_text results.now) }
    ensures err { OnErr result (Extends out.old.items out.new.items) }
{
    for result in results {
        put_write_result(out, *result)?;
    }
    Ok(())
}

/// Appends a space and `ok`, or `!` and the number of a reason.
#[tactic(auto, using(crate::proofs::OfEvents::Extended::extended))]
fn put_write_result(out: &mut Vec<u8>, reason: Option<u8>) -> Result<(), AllocError>
    ensures ok { OnOk result (out.new.items ≡ out.old.items ++ written_text reason) }
    ensures err { OnErr result (Extends out.old.items out.new.items) }
{
    match reason {
        None => out.extend_from_slice(b" ok"),
        Some(reason) => {
            out.extend_from_slice(b" !")?;
            push_decimal(out, u64::from(reason))
        }
    }
}

/// Appends `names`, whether more follow, and the names of objects.
#[tactic(auto, using(crate::proofs::OfEvents::Extended::extended))]
fn put_name_list(out: &mut Vec<u8>, names: &[Visible], more: bool) -> Result<(), AllocError>
    ensures ok { OnOk result (out.new.items
        ≡ out.old.items ++ codes "names " ++ more_text more ++ flat_map item_text names.now) }
    ensures err { OnErr result (Extends out.old.items out.new.items) }
{
    put_more(out, more)?;
    put_items(out, names)
}

/// Appends `names`, and whether more follow.
fn put_more(out: &mut Vec<u8>, more: bool) -> Result<(), AllocError>
    ensures ok { OnOk result (out.new.items
        ≡ out.old.items ++ codes "names " ++ more_text more) }
    ensures err { OnErr result (out.new.items ≡ out.old.items) }
{
    if more {
        out.extend_from_slice(b"names more")
    } else {
        out.extend_from_slice(b"names end")
    }
}

/// Appends the names of objects, a space before each.
#[tactic(auto, using(crate::proofs::OfEvents::Extended::extended))]
fn put_items(out: &mut Vec<u8>, names: &[Visible]) -> Result<(), AllocError>
    ensures ok { OnOk result (out.new.items ≡ out.old.items ++ flat_map item_text names.now) }
    ensures err { OnErr result (Extends out.old.items out.new.items) }
{
    for name in names {
        put_item(out, name)?;
    }
    Ok(())
}

/// Appends a space and the name of an object.
#[tactic(auto, using(crate::proofs::OfEvents::Extended::extended))]
fn put_item(out: &mut Vec<u8>, name: &Visible) -> Result<(), AllocError>
    ensures ok { OnOk result (out.new.items ≡ out.old.items ++ item_text name.now) }
    ensures err { OnErr result (Extends out.old.items out.new.items) }
{
    out.push(b' ')?;
    push_escaped(out, name.as_slice())
}
