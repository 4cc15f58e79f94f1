//! The tables of one peer, of which the last is being read.
ghost use Rattle.std.specs.Prelude.{◌≡◌, ◌<◌, [], ◌∷◌, ◌++◌, length, IfOk, OnOk};
ghost use Rattle.bilateral.specs.Rows.{new_variant};
ghost use Rattle.bilateral.specs.Reading.{set_last, with_slots, with_sets, with_pending, with_see};
ghost use Rattle.bilateral.specs.Reading.{with_control};
ghost use Rattle.bilateral.specs.Store.{last_in};

use crate::rows::{Control, Controls, SET_DEFAULT, SLOT_DEFAULT, See, Sees, Table};
use ber_values::Visible;
use std::alloc::{AllocError, Global};

/// A peer's own table, in a list of its tables.
pub fn only(alloc: Global, table: Table) -> Result<Vec<Table>, AllocError>
    ensures { IfOk result (λ tables. tables.items ≡ table ∷ []) }
{
    let mut tables = Vec::new(alloc);
    tables.push(table)?;
    Ok(tables)
}

/// A further table of the peer with this own one, without rows.
pub fn new_variant(
    alloc: Global,
    own: &Table,
    domain: Visible,
    id: Visible,
) -> Result<Table, AllocError>
    ensures { IfOk result (λ table. table ≡ new_variant own.now domain id) }
{
    let key = own.key.clone()?;
    let title = own.title.clone()?;
    Ok(Table {
        key,
        title,
        domain,
        id,
        sees: Sees::new(alloc),
        controls: Controls::new(alloc),
        slots: SLOT_DEFAULT,
        sets: SET_DEFAULT,
        pending: own.pending,
    })
}

/// Gives the last table its number of transfer sets.
pub fn set_slots(tables: &mut Vec<Table>, number: u32)
    requires { 0 < length tables.old.items }
    ensures { tables.new.items
        ≡ set_last tables.old.items (with_slots (last_in tables.old.items) number) }
{
    let last = tables.len() - 1;
    let table = &mut tables[last];
    table.slots = number;
}

/// Gives the last table its number of data sets.
pub fn set_sets(tables: &mut Vec<Table>, number: u32)
    requires { 0 < length tables.old.items }
    ensures { tables.new.items
        ≡ set_last tables.old.items (with_sets (last_in tables.old.items) number) }
{
    let last = tables.len() - 1;
    let table = &mut tables[last];
    table.sets = number;
}

/// Gives the last table its number of pending octets.
pub fn set_pending(tables: &mut Vec<Table>, number: u64)
    requires { 0 < length tables.old.items }
    ensures { tables.new.items
        ≡ set_last tables.old.items (with_pending (last_in tables.old.items) number) }
{
    let last = tables.len() - 1;
    let table = &mut tables[last];
    table.pending = number;
}

/// Appends a row for a point to the last table.
pub fn push_see(tables: &mut Vec<Table>, see: See) -> Result<(), AllocError>
    requires { 0 < length tables.old.items }
    ensures { OnOk result (tables.new.items
        ≡ set_last tables.old.items (with_see (last_in tables.old.items) see)) }
{
    let last = tables.len() - 1;
    let table = &mut tables[last];
    table.sees.push(see)?;
    Ok(())
}

/// Appends a row for a device to the last table.
pub fn push_control(tables: &mut Vec<Table>, control: Control) -> Result<(), AllocError>
    requires { 0 < length tables.old.items }
    ensures { OnOk result (tables.new.items
        ≡ set_last tables.old.items (with_control (last_in tables.old.items) control)) }
{
    let last = tables.len() - 1;
    let table = &mut tables[last];
    table.controls.push(control)?;
    Ok(())
}
