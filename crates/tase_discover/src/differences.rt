//! How what is offered differs from a table.
ghost use Rattle.std.specs.Prelude.{◌≡◌, ◌++◌, ◌∷◌, [], ◌&&◌, ℕ, List, not, is_some, codes, map};
ghost use Rattle.std.specs.Prelude.{flat_map, filter, IfOk, OnOk, OnErr};
ghost use Rattle.std.specs.List.{All};
ghost use Rattle.plain_text.specs.Extends.{Extends};
ghost use Rattle.mms_data.specs.declared.object_name.Scope.TheVariants as scopes;
ghost use Rattle.mms_data.specs.ObjectName.{IsScope, IsIdentifier, same_scope};
ghost use Rattle.mms_data.specs.Text.Texts.{name_text};
ghost use Rattle.tase_views.specs.Objects.{object_named};
ghost use Rattle.node_core.specs.Objects.Found.{offered};
ghost use Rattle.tase_discover.specs.Listings as own;
ghost use Rattle.tase_discover.specs.Noted.{is_noted as was_noted};
ghost use Rattle.tase_discover.specs.Kept.{seen_of};

use crate::noted::{Noted, is_noted, none_noted, note};
use crate::seen::Seen;
use ber_values::Visible;
use mms_data::text::spell_name;
use mms_data::{Name, Scope};
use node_core::objects::{InForce, is_object, listed_names};
use std::alloc::{AllocError, Global};

/// Appends a line for each name of a table that didn't come, or with another type, and for each
/// that came and isn't the table's, and answers whether there was none.
pub(crate) fn push_differences(
    alloc: Global,
    table: &InForce<'_>,
    seen: &Seen,
    shown: &mut Vec<u8>,
) -> Result<bool, AllocError>
    requires domain { seen.now.domain ≡ scopes.Domain (offered table.now).domain }
    requires scope { IsScope seen.now.domain }
    ensures lines { OnOk result (shown.new.items
        ≡ shown.old.items ++ own.differences (offered table.now) (seen_of seen.now)) }
    ensures alike { IfOk result (λ alike. alike
        ≡ own.nothing_differs (offered table.now) (seen_of seen.now)) }
    ensures err { OnErr result (Extends shown.old.items shown.new.items) }
{
    let before = shown.as_slice().len();
    push_missing(alloc, table, &Scope::Vmd, seen, shown)?;
    push_missing(alloc, table, &seen.domain, seen, shown)?;
    push_extra(table, seen.names.as_slice(), shown)?;
    Ok(shown.as_slice().len() == before)
}

/// Appends a line for each name of a table in a scope that didn't come, or with another type.
fn push_missing(
    alloc: Global,
    table: &InForce<'_>,
    scope: &Scope,
    seen: &Seen,
    shown: &mut Vec<u8>,
) -> Result<(), AllocError>
    requires { IsScope scope.now }
    ensures ok { OnOk result (shown.new.items ≡ shown.old.items ++ flat_map own.missing_line
        (own.missing_in (offered table.now) (seen_of seen.now) scope.now)) }
    ensures err { OnErr result (Extends shown.old.items shown.new.items) }
{
    let listed = listed_names(alloc, table, scope)?;
    let noted = note_alike(alloc, scope, seen)?;
    push_unnoted(&noted, scope, listed.as_slice(), shown)
}

/// Notes the items of the names of a scope that came with the table's type.
fn note_alike(alloc: Global, scope: &Scope, seen: &Seen) -> Result<Noted, AllocError>
    ensures { IfOk result (λ noted. (item : List ℕ) → was_noted noted item
        ≡ own.came_alike seen.now.names.items seen.now.judged.items
        (own.named_in scope.now item)) }
{
    let names = seen.names.as_slice();
    let judged = seen.judged.as_slice();
    let mut noted = none_noted(alloc);
    for place in 0..names.len().min(judged.len()) {
        let name = &names[place];
        if is_alike_in(scope, name, judged[place]) {
            note(alloc, &mut noted, name.item().as_slice())?;
        }
    }
    Ok(noted)
}

/// Whether a name is one of a scope, and came with the table's type.
fn is_alike_in(scope: &Scope, name: &Name, alike: bool) -> bool
    ensures { result ≡ (alike && same_scope scope.now name.now.scope) }
{
    alike && scope == name.scope()
}

/// Appends a line for the name of each item of a scope that isn't noted.
fn push_unnoted(
    noted: &Noted,
    scope: &Scope,
    items: &[Visible],
    shown: &mut Vec<u8>,
) -> Result<(), AllocError>
    requires scope { IsScope scope.now }
    requires named { All IsIdentifier items.now }
    ensures ok { OnOk result (shown.new.items ≡ shown.old.items
        ++ flat_map own.missing_line (map (own.named_in scope.now)
        (filter (λ item. not (was_noted noted.now item)) items.now))) }
    ensures err { OnErr result (Extends shown.old.items shown.new.items) }
{
    for item in items {
        if !is_noted(noted, item.as_slice()) {
            push_missing_line(scope, item, shown)?;
        }
    }
    Ok(())
}

fn push_missing_line(scope: &Scope, item: &Visible, shown: &mut Vec<u8>) -> Result<(), AllocError>
    requires scope { IsScope scope.now }
    requires named { IsIdentifier item.now }
    ensures ok { OnOk result (shown.new.items
        ≡ shown.old.items ++ own.missing_line (own.named_in scope.now item.now)) }
    ensures err { OnErr result (Extends shown.old.items shown.new.items) }
{
    let name = Name::new(scope.clone()?, item.clone()?);
    push_line(b"missing ", &name, shown)
}

/// Appends a line for each name that isn't the table's.
fn push_extra(table: &InForce<'_>, names: &[Name], shown: &mut Vec<u8>) -> Result<(), AllocError>
    ensures ok { OnOk result (shown.new.items ≡ shown.old.items ++ flat_map own.extra_line
        (filter (λ name. not (is_some (object_named (offered table.now) name))) names.now)) }
    ensures err { OnErr result (Extends shown.old.items shown.new.items) }
{
    for name in names {
        if !is_object(table, name) {
            push_line(b"extra ", name, shown)?;
        }
    }
    Ok(())
}

/// Appends a word, a name, and the end of a line.
#[tactic(auto, using(ber_values::proofs::Pieces::extended))]
fn push_line(word: &[u8], name: &Name, shown: &mut Vec<u8>) -> Result<(), AllocError>
    ensures ok { OnOk result (shown.new.items
        ≡ shown.old.items ++ (word.now ++ name_text name.now ++ 10 ∷ [])) }
    ensures err { OnErr result (Extends shown.old.items shown.new.items) }
{
    shown.extend_from_slice(word)?;
    spell_name(shown, name)?;
    shown.push(b'\n')?;
    Ok(())
}
