//! The texts of calls.
ghost use Rattle.std.specs.Prelude.{◌≡◌, ◌∷◌, ◌++◌, flat_map, length, OnOk, OnErr, codes, decimal};
ghost use Rattle.std.specs.Fmt.{signed_decimal};
ghost use Rattle.plain_text.specs.Extends.{Extends};
ghost use Rattle.mms_data.specs.Text.Texts.{data_text, scope_text};
ghost use Rattle.tase_views.specs.EventTexts.{call_text, read_verb, next_name, assigned_text};
ghost use Rattle.tase_views.specs.EventTexts.{after_text, read_set_verb, next_value};

use ber_values::Visible;
use mms_data::text::{spell_data, spell_name};
use mms_data::{MmsData, Name, Scope};
use plain_text::{push_decimal, push_escaped, push_signed_decimal};
use std::alloc::AllocError;
use tase_views::{Call, CallKind};

/// Appends the text of a call.
pub(crate) fn put_call(out: &mut Vec<u8>, call: &Call) -> Result<(), AllocError>
    ensures ok { OnOk result (out.new.items ≡ out.old.items ++ call_text call.now) }
    ensures err { OnErr result (Extends out.old.items out.new.items) }
{
    match call.kind() {
        CallKind::Identify => out.extend_from_slice(b"identify"),
        CallKind::Read { names, echo } => put_read(out, names.as_slice(), *echo),
        CallKind::ReadSet { set, echo } => put_read_set(out, set, *echo),
        CallKind::Write { names, values } => put_write(out, names.as_slice(), values.as_slice()),
        CallKind::WriteSet { set, values } => put_write_set(out, set, values.as_slice()),
        CallKind::NameList {
            class,
            scope,
            after,
        } => put_name_list(out, *class, scope, after),
        CallKind::TypeOf { name } => put_type_of(out, name),
        CallKind::Define { set, members } => put_define(out, set, members.as_slice()),
        CallKind::MembersOf { set } => put_members_of(out, set),
        CallKind::Delete { sets } => put_delete(out, sets.as_slice()),
        CallKind::DeleteScope { scope } => put_delete_scope(out, *scope),
        CallKind::Odd { kind, code } => put_odd(out, *kind, *code),
    }
}

/// Appends `readset` or `readset+`, and the name of a data set.
#[tactic(auto, using(crate::proofs::OfEvents::Extended::extended))]
fn put_read_set(out: &mut Vec<u8>, set: &Name, echo: bool) -> Result<(), AllocError>
    ensures ok { OnOk result (out.new.items
        ≡ out.old.items ++ read_set_verb echo ++ next_name set.now) }
    ensures err { OnErr result (Extends out.old.items out.new.items) }
{
    put_read_set_verb(out, echo)?;
    put_next_name(out, set)
}

/// Appends `readset`, or `readset+` where the name is repeated.
fn put_read_set_verb(out: &mut Vec<u8>, echo: bool) -> Result<(), AllocError>
    ensures ok { OnOk result (out.new.items ≡ out.old.items ++ read_set_verb echo) }
    ensures err { OnErr result (out.new.items ≡ out.old.items) }
{
    if echo {
        out.extend_from_slice(b"readset+")
    } else {
        out.extend_from_slice(b"readset")
    }
}

/// Appends `writeset`, the name of a data set, and values.
#[tactic(auto, using(crate::proofs::OfEvents::Extended::extended))]
fn put_write_set(out: &mut Vec<u8>, set: &Name, values: &[MmsData]) -> Result<(), AllocError>
    ensures ok { OnOk result (out.new.items
        ≡ out.old.items ++ codes "writeset" ++ next_name set.now
        ++ flat_map next_value values.now) }
    ensures err { OnErr result (Extends out.old.items out.new.items) }
{
    out.extend_from_slice(b"writeset")?;
    put_next_name(out, set)?;
    put_values(out, values)
}

/// Appends values, a space before each.
#[tactic(auto, using(crate::proofs::OfEvents::Extended::extended))]
fn put_values(out: &mut Vec<u8>, values: &[MmsData]) -> Result<(), AllocError>
    ensures ok { OnOk result (out.new.items ≡ out.old.items ++ flat_map next_value values.now) }
    ensures err { OnErr result (Extends out.old.items out.new.items) }
{
    for value in values {
        put_next_value(out, value)?;
    }
    Ok(())
}

/// Appends a space and a value.
#[tactic(auto, using(crate::proofs::OfEvents::Extended::extended))]
fn put_next_value(out: &mut Vec<u8>, value: &MmsData) -> Result<(), AllocError>
    ensures ok { OnOk result (out.new.items ≡ out.old.items ++ next_value value.now) }
    ensures err { OnErr result (Extends out.old.items out.new.items) }
{
    out.push(b' ')?;
    spell_data(out, value)
}

/// Appends `define`, the name of a data set, and its members.
#[tactic(auto, using(crate::proofs::OfEvents::Extended::extended))]
fn put_define(out: &mut Vec<u8>, set: &Name, members: &[Name]) -> Result<(), AllocError>
    ensures ok { OnOk result (out.new.items
        ≡ out.old.items ++ codes "define" ++ next_name set.now ++ flat_map next_name members.now) }
    ensures err { OnErr result (Extends out.old.items out.new.items) }
{
    out.extend_from_slice(b"define")?;
    put_next_name(out, set)?;
    put_names(out, members)
}

/// Appends `type`, and the name of a variable.
#[tactic(auto, using(crate::proofs::OfEvents::Extended::extended))]
fn put_type_of(out: &mut Vec<u8>, name: &Name) -> Result<(), AllocError>
    ensures ok { OnOk result (out.new.items
        ≡ out.old.items ++ codes "type" ++ next_name name.now) }
    ensures err { OnErr result (Extends out.old.items out.new.items) }
{
    out.extend_from_slice(b"type")?;
    put_next_name(out, name)
}

/// Appends `members`, and the name of a data set.
#[tactic(auto, using(crate::proofs::OfEvents::Extended::extended))]
fn put_members_of(out: &mut Vec<u8>, set: &Name) -> Result<(), AllocError>
    ensures ok { OnOk result (out.new.items
        ≡ out.old.items ++ codes "members" ++ next_name set.now) }
    ensures err { OnErr result (Extends out.old.items out.new.items) }
{
    out.extend_from_slice(b"members")?;
    put_next_name(out, set)
}

/// Appends `delete`, and the names of data sets.
#[tactic(auto, using(crate::proofs::OfEvents::Extended::extended))]
fn put_delete(out: &mut Vec<u8>, sets: &[Name]) -> Result<(), AllocError>
    ensures ok { OnOk result (out.new.items
        ≡ out.old.items ++ codes "delete" ++ flat_map next_name sets.now) }
    ensures err { OnErr result (Extends out.old.items out.new.items) }
{
    out.extend_from_slice(b"delete")?;
    put_names(out, sets)
}

/// Appends `deletescope`, and the number of a scope.
#[tactic(auto, using(crate::proofs::OfEvents::Extended::extended))]
fn put_delete_scope(out: &mut Vec<u8>, scope: i64) -> Result<(), AllocError>
    ensures ok { OnOk result (out.new.items
        ≡ out.old.items ++ codes "deletescope " ++ signed_decimal scope) }
    ensures err { OnErr result (Extends out.old.items out.new.items) }
{
    out.extend_from_slice(b"deletescope ")?;
    push_signed_decimal(out, scope)
}

/// Appends `read` or `read+`, and names.
#[tactic(auto, using(crate::proofs::OfEvents::Extended::extended))]
fn put_read(out: &mut Vec<u8>, names: &[Name], echo: bool) -> Result<(), AllocError>
    ensures ok { OnOk result (out.new.items
        ≡ out.old.items ++ read_verb echo ++ flat_map next_name names.now) }
    ensures err { OnErr result (Extends out.old.items out.new.items) }
{
    put_read_verb(out, echo)?;
    put_names(out, names)
}

/// Appends `read`, or `read+` where names are repeated.
pub(crate) fn put_read_verb(out: &mut Vec<u8>, echo: bool) -> Result<(), AllocError>
    ensures ok { OnOk result (out.new.items ≡ out.old.items ++ read_verb echo) }
    ensures err { OnErr result (out.new.items ≡ out.old.items) }
{
    if echo {
        out.extend_from_slice(b"read+")
    } else {
        out.extend_from_slice(b"read")
    }
}

/// Appends names, a space before each.
#[tactic(auto, using(crate::proofs::OfEvents::Extended::extended))]
pub(crate) fn put_names(out: &mut Vec<u8>, names: &[Name]) -> Result<(), AllocError>
    ensures ok { OnOk result (out.new.items ≡ out.old.items ++ flat_map next_name names.now) }
    ensures err { OnErr result (Extends out.old.items out.new.items) }
{
    for name in names {
        put_next_name(out, name)?;
    }
    Ok(())
}

/// Appends a space and a name.
#[tactic(auto, using(crate::proofs::OfEvents::Extended::extended))]
fn put_next_name(out: &mut Vec<u8>, name: &Name) -> Result<(), AllocError>
    ensures ok { OnOk result (out.new.items ≡ out.old.items ++ next_name name.now) }
    ensures err { OnErr result (Extends out.old.items out.new.items) }
{
    out.push(b' ')?;
    spell_name(out, name)
}

/// Appends `write`, and each name with its value.
#[tactic(auto, using(crate::proofs::OfEvents::Extended::extended))]
fn put_write(out: &mut Vec<u8>, names: &[Name], values: &[MmsData]) -> Result<(), AllocError>
    requires { length values.now ≡ length names.now }
    ensures ok { OnOk result (out.new.items
        ≡ out.old.items ++ codes "write" ++ assigned_text names.now values.now) }
    ensures err { OnErr result (Extends out.old.items out.new.items) }
{
    out.extend_from_slice(b"write")?;
    put_assigned(out, names, values)
}

/// Appends each name with the value at its place.
#[tactic(auto, using(crate::proofs::OfEvents::Extended::extended))]
fn put_assigned(out: &mut Vec<u8>, names: &[Name], values: &[MmsData]) -> Result<(), AllocError>
    requires { length values.now ≡ length names.now }
    ensures ok { OnOk result (out.new.items
        ≡ out.old.items ++ assigned_text names.now values.now) }
    ensures err { OnErr result (Extends out.old.items out.new.items) }
{
    for index in 0..names.len() {
        put_assignment(out, &names[index], &values[index])?;
    }
    Ok(())
}

/// Appends a space, a name and its value.
#[tactic(auto, using(crate::proofs::OfEvents::Extended::extended))]
fn put_assignment(out: &mut Vec<u8>, name: &Name, value: &MmsData) -> Result<(), AllocError>
    ensures ok { OnOk result (out.new.items
        ≡ out.old.items ++ next_name name.now ++ 61 ∷ data_text value.now) }
    ensures err { OnErr result (Extends out.old.items out.new.items) }
{
    put_next_name(out, name)?;
    out.push(b'=')?;
    spell_data(out, value)
}

/// Appends `names`, a class, a scope and the name after which the list goes on.
#[tactic(auto, using(crate::proofs::OfEvents::Extended::extended))]
fn put_name_list(
    out: &mut Vec<u8>,
    class: i64,
    scope: &Scope,
    after: &Option<Visible>,
) -> Result<(), AllocError>
    ensures ok { OnOk result (out.new.items ≡ out.old.items ++ codes "names "
        ++ signed_decimal class ++ 32 ∷ scope_text scope.now ++ after_text after.now) }
    ensures err { OnErr result (Extends out.old.items out.new.items) }
{
    out.extend_from_slice(b"names ")?;
    push_signed_decimal(out, class)?;
    out.push(b' ')?;
    put_scope(out, scope)?;
    put_after(out, after)
}

/// Appends a scope.
#[tactic(auto, using(crate::proofs::OfEvents::Extended::extended))]
fn put_scope(out: &mut Vec<u8>, scope: &Scope) -> Result<(), AllocError>
    ensures ok { OnOk result (out.new.items ≡ out.old.items ++ scope_text scope.now) }
    ensures err { OnErr result (Extends out.old.items out.new.items) }
{
    match scope {
        Scope::Vmd => out.extend_from_slice(b"vmd:"),
        Scope::Domain(domain) => {
            push_escaped(out, domain.as_slice())?;
            out.push(b'/')?;
            Ok(())
        }
        Scope::Association => out.extend_from_slice(b"aa:"),
    }
}

/// Appends a space and the name after which a list goes on.
#[tactic(auto, using(crate::proofs::OfEvents::Extended::extended))]
fn put_after(out: &mut Vec<u8>, after: &Option<Visible>) -> Result<(), AllocError>
    ensures ok { OnOk result (out.new.items ≡ out.old.items ++ after_text after.now) }
    ensures err { OnErr result (Extends out.old.items out.new.items) }
{
    match after {
        None => Ok(()),
        Some(name) => {
            out.push(b' ')?;
            push_escaped(out, name.as_slice())
        }
    }
}

/// Appends `odd`, a kind and a code.
#[tactic(auto, using(crate::proofs::OfEvents::Extended::extended))]
fn put_odd(out: &mut Vec<u8>, kind: u8, code: u8) -> Result<(), AllocError>
    ensures ok { OnOk result (out.new.items
        ≡ out.old.items ++ codes "odd " ++ decimal kind ++ 32 ∷ decimal code) }
    ensures err { OnErr result (Extends out.old.items out.new.items) }
{
    out.extend_from_slice(b"odd ")?;
    put_pair(out, u32::from(kind), u32::from(code))
}

/// Appends two numbers, a space between them.
#[tactic(auto, using(crate::proofs::OfEvents::Extended::extended))]
pub(crate) fn put_pair(out: &mut Vec<u8>, first: u32, second: u32) -> Result<(), AllocError>
    ensures ok { OnOk result (out.new.items
        ≡ out.old.items ++ decimal first ++ 32 ∷ decimal second) }
    ensures err { OnErr result (Extends out.old.items out.new.items) }
{
    push_decimal(out, u64::from(first))?;
    out.push(b' ')?;
    push_decimal(out, u64::from(second))
}
