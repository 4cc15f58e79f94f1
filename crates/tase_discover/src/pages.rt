//! Pages of names.
ghost use Rattle.std.specs.Prelude.{◌≡◌, ◌<◌, ◌+◌, ◌++◌, map, length, take, nat_lt, IfSome};
ghost use Rattle.std.specs.Prelude.{OnOk, OnErr};
ghost use Rattle.std.specs.List.{All};
ghost use Rattle.std.specs.Option.{option_copied};
ghost use Rattle.mms_data.specs.ObjectName.{IsScope, IsIdentifier};
ghost use Rattle.tase_views.specs.NameLists.{is_after};
ghost use Rattle.tase_discover.specs.Listings as own;

use crate::end::MOST_NAMES;
use ber_values::Visible;
use mms_data::{Name, Scope};
use std::alloc::AllocError;

/// Whether an item stands above the one before it.
fn is_above(before: Option<&Visible>, item: &Visible) -> bool
    ensures { result ≡ is_after (option_copied before.entry) item.now }
{
    match before {
        Some(before) => before.as_slice() < item.as_slice(),
        None => true,
    }
}

/// The place of the first item of a page of a scope that doesn't stand above the one before it.
pub(crate) fn fallen_in(scope: &Scope, names: &[Name], items: &[Visible]) -> Option<usize>
    ensures place { result ≡ own.first_fallen (own.last_item scope.now names.now) items.now }
    ensures within { IfSome result (λ place. place < length items.now) }
{
    first_fallen(last_item(scope, names), items)
}

/// The place of the first item that doesn't stand above the one before it; `last` stands before
/// all.
fn first_fallen(last: Option<&Visible>, items: &[Visible]) -> Option<usize>
    ensures place { result ≡ own.first_fallen (option_copied last.entry) items.now }
    ensures within { IfSome result (λ place. place < length items.now) }
{
    let mut before = last;
    for (place, item) in items.iter().enumerate() {
        if !is_above(before, item) {
            return Some(place);
        }
        before = Some(item);
    }
    None
}

/// The item of the last name, where it is one of this scope.
pub(crate) fn last_item<'a>(scope: &Scope, names: &'a [Name]) -> Option<&'a Visible>
    ensures item { option_copied result ≡ own.last_item scope.now names.now }
    ensures named { IfSome result (λ item. IsIdentifier item.now) }
{
    let name = names.last()?;
    if name.scope() == scope {
        Some(name.item())
    } else {
        None
    }
}

/// Whether with these more there are more names than a peer may offer.
pub(crate) fn are_too_many(names: usize, more: usize) -> bool
    ensures { result ≡ nat_lt MOST_NAMES (names + more) }
{
    match names.checked_add(more) {
        Some(all) => MOST_NAMES < all,
        None => true,
    }
}

/// Appends the names of items in a scope. After want of memory the names are as before.
pub(crate) fn push_names(
    names: &mut Vec<Name>,
    scope: &Scope,
    items: &[Visible],
) -> Result<(), AllocError>
    requires scope { IsScope scope.now }
    requires named { All IsIdentifier items.now }
    ensures ok { OnOk result (names.new.items
        ≡ names.old.items ++ map (own.named_in scope.now) items.now) }
    ensures err { OnErr result (names.new.items ≡ names.old.items) }
{
    let before = names.as_slice().len();
    match push_each(names, scope, items) {
        Ok(()) => Ok(()),
        Err(error) => {
            names.truncate(before);
            Err(error)
        }
    }
}

/// Appends the names of items in a scope, some of them where memory is short.
fn push_each(names: &mut Vec<Name>, scope: &Scope, items: &[Visible]) -> Result<(), AllocError>
    requires scope { IsScope scope.now }
    requires named { All IsIdentifier items.now }
    ensures ok { OnOk result (names.new.items
        ≡ names.old.items ++ map (own.named_in scope.now) items.now) }
    ensures err { OnErr result (take (length names.old.items) names.new.items
        ≡ names.old.items) }
{
    for item in items {
        let name = Name::new(scope.clone()?, item.clone()?);
        names.push(name)?;
    }
    Ok(())
}
