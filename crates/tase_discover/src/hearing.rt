//! What a listing hears, and the lines that it shows of it.
ghost use Rattle.std.specs.Prelude.{◌≡◌, ◌++◌, ◌∷◌, [], IfOk, OnOk, OnErr};
ghost use Rattle.std.specs.Option.{option_copied, option_map_or};
ghost use Rattle.plain_text.specs.Extends.{Extends};
ghost use Rattle.node_core.specs.Objects.Found.{offered};
ghost use Rattle.asking_end.specs.declared.next.Next.TheVariants as nexts;
ghost use Rattle.tase_discover.specs.Listings as own;
ghost use Rattle.tase_discover.specs.Kept.{seen_of, IsUndone, IsAsBefore};
ghost use Rattle.tase_discover.specs.Listers.{IsHeld, MayConclude};

use crate::differences::push_differences;
use crate::end::{ListingEnd, Stage};
use crate::seen::{Mark, Seen};
use asking_end::Next;
use mms_data::Name;
use mms_data::text::spell_name;
use mms_data::types::{Shape, spell_shape};
use node_core::objects::InForce;
use std::alloc::{AllocError, Global};
use tase_views::{Reply, ReplyKind};

/// Hears a reply to what was asked, and appends the lines that it shows. After want of memory the
/// listing is as before, and some of these may stand.
pub(crate) fn hear_shown(
    alloc: Global,
    table: &InForce<'_>,
    seen: &mut Seen,
    reply: &Reply,
    shown: &mut Vec<u8>,
) -> Result<Next<ListingEnd>, AllocError>
    requires { IsHeld (offered table.now) seen.old }
    ensures seen { OnOk result (seen_of seen.new
        ≡ (own.reply_heeded (offered table.now) (seen_of seen.old) reply.now).seen) }
    ensures next { IfOk result (λ next. next
        ≡ (own.reply_heeded (offered table.now) (seen_of seen.old) reply.now).next) }
    ensures shown { OnOk result (shown.new.items ≡ shown.old.items
        ++ own.reply_shown (offered table.now) (seen_of seen.old) reply.now) }
    ensures held { IsHeld (offered table.now) seen.new }
    ensures err { OnErr result (IsAsBefore seen.old seen.new) }
    ensures cut { OnErr result (Extends shown.old.items shown.new.items) }
{
    show_type(seen, reply, shown)?;
    let mark = seen.mark();
    match seen.hear(alloc, table, reply)? {
        Next::Wait => Ok(Next::Wait),
        Next::Ask => Ok(Next::Ask),
        Next::Conclude => conclude(alloc, table, seen, mark, shown),
        Next::End(end) => Ok(Next::End(end)),
    }
}

/// Appends the lines of what differs, and keeps whether anything does. After want of memory the
/// listing is as it was at the mark.
fn conclude(
    alloc: Global,
    table: &InForce<'_>,
    seen: &mut Seen,
    mark: Mark,
    shown: &mut Vec<u8>,
) -> Result<Next<ListingEnd>, AllocError>
    requires { MayConclude (offered table.now) mark seen.old }
    ensures seen { OnOk result (seen_of seen.new ≡ seen_of seen.old) }
    ensures next { IfOk result (λ next. next ≡ nexts.Conclude) }
    ensures shown { OnOk result (shown.new.items
        ≡ shown.old.items ++ own.differences (offered table.now) (seen_of seen.old)) }
    ensures held { IsHeld (offered table.now) seen.new }
    ensures err { OnErr result (IsUndone mark seen.old seen.new) }
    ensures cut { OnErr result (Extends shown.old.items shown.new.items) }
{
    match push_differences(alloc, table, seen, shown) {
        Ok(alike) => {
            seen.alike = alike;
            Ok(Next::Conclude)
        }
        Err(error) => {
            seen.undo(mark);
            Err(error)
        }
    }
}

/// Appends the line of a type, where it is one that is asked.
fn show_type(seen: &Seen, reply: &Reply, shown: &mut Vec<u8>) -> Result<(), AllocError>
    ensures ok { OnOk result (shown.new.items
        ≡ shown.old.items ++ own.type_shown (seen_of seen.now) reply.now) }
    ensures err { OnErr result (Extends shown.old.items shown.new.items) }
{
    match reply.kind() {
        ReplyKind::TypeIs(shape) => show_at(seen, shape, shown),
        ReplyKind::NamesAre { .. }
        | ReplyKind::Identified
        | ReplyKind::Results { .. }
        | ReplyKind::Written(_)
        | ReplyKind::Defined
        | ReplyKind::MembersAre(_)
        | ReplyKind::Deleted { .. }
        | ReplyKind::Error { .. }
        | ReplyKind::Reject { .. } => Ok(()),
    }
}

fn show_at(seen: &Seen, shape: &Shape, shown: &mut Vec<u8>) -> Result<(), AllocError>
    ensures ok { OnOk result (shown.new.items ≡ shown.old.items
        ++ own.type_shown_at seen.now.stage (seen_of seen.now) shape.now) }
    ensures err { OnErr result (Extends shown.old.items shown.new.items) }
{
    match seen.stage {
        Stage::Device => Ok(()),
        Stage::Domain => Ok(()),
        Stage::Types => show_named(seen.name_asked(), shape, shown),
    }
}

fn show_named(name: Option<&Name>, shape: &Shape, shown: &mut Vec<u8>) -> Result<(), AllocError>
    ensures ok { OnOk result (shown.new.items ≡ shown.old.items
        ++ option_map_or (λ n. own.type_line n shape.now) (option_copied name.entry) []) }
    ensures err { OnErr result (Extends shown.old.items shown.new.items) }
{
    match name {
        Some(name) => push_type_line(name, shape, shown),
        None => Ok(()),
    }
}

#[tactic(auto, using(ber_values::proofs::Pieces::extended))]
fn push_type_line(name: &Name, shape: &Shape, shown: &mut Vec<u8>) -> Result<(), AllocError>
    ensures ok { OnOk result (shown.new.items
        ≡ shown.old.items ++ own.type_line name.now shape.now) }
    ensures err { OnErr result (Extends shown.old.items shown.new.items) }
{
    spell_name(shown, name)?;
    shown.push(b' ')?;
    spell_shape(shown, shape)?;
    shown.push(b'\n')?;
    Ok(())
}
