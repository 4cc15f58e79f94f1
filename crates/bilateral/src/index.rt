//! Names and keys in the order of the file, and indexes beside the rows, so that no search goes
//! over all of them.
ghost use Rattle.std.specs.Prelude.{◌≡◌, ◌<◌, ◌^◌, ◌&&◌, ◌==◌, ◌++◌, [], ◌∷◌, ℕ, Some, None};
ghost use Rattle.std.specs.Prelude.{length, if◌then◌else◌, OnOk};
ghost use Rattle.bilateral.specs.Index.{names_in, place_among, row_by};

use indexmap::IndexSet;
use std::alloc::{AllocError, Global};
use std::collections::HashMap;

/// Names in the order of the file, none twice.
pub type NameSet = IndexSet<Vec<u8>>;

/// The place of each row in its table, by the numbers of the peer, of its table and of the point or
/// device.
pub type RowIndex = HashMap<(u32, u32, u32), u32>;

/// No names.
pub fn no_names(alloc: Global) -> NameSet
    ensures { names_in result ≡ [] }
{
    IndexSet::new(alloc)
}

/// An index without rows.
pub fn no_rows(alloc: Global) -> RowIndex
    ensures { (peer variant item : ℕ) → row_by result peer variant item ≡ None }
{
    HashMap::new(alloc)
}

/// The number of a name.
pub fn find_name(names: &NameSet, name: &[u8]) -> Option<u32>
    requires { length (names_in names.now) < 2 ^ 32 }
    ensures { result ≡ place_among (names_in names.now) name.now }
{
    Some(names.get_index_of(name)? as u32)
}

/// The place that the index has for a row of a peer's table.
pub fn find_row(index: &RowIndex, peer: u32, variant: u32, item: u32) -> Option<u32>
    ensures { result ≡ row_by index.now peer variant item }
{
    index.get(&(peer, variant, item)).copied()
}

/// Adds a name that isn't there.
pub fn note_name(alloc: Global, names: &mut NameSet, name: &[u8]) -> Result<(), AllocError>
    requires { place_among (names_in names.old) name.now ≡ None }
    ensures { OnOk result (names_in names.new ≡ names_in names.old ++ name.now ∷ []) }
{
    let name = name.to_vec(alloc)?;
    names.insert(name)?;
    Ok(())
}

/// Notes the place of a row of a peer's table.
pub fn note_row(
    index: &mut RowIndex,
    peer: u32,
    variant: u32,
    item: u32,
    place: u32,
) -> Result<(), AllocError>
    ensures { OnOk result
        ((p v q : ℕ)
        → row_by index.new p v q
        ≡ (if (peer == p) && (variant == v) && (item == q) then Some place
        else row_by index.old p v q)) }
{
    index.insert((peer, variant, item), place)?;
    Ok(())
}
