//! Octets that are noted, to be found in one look.
ghost use Rattle.std.specs.Prelude.{◌≡◌, ℕ, List, OnOk, ◌||◌, bytes_eq, false};
ghost use Rattle.tase_discover.specs.Noted as own;

use std::alloc::{AllocError, Global};
use std::collections::HashSet;

/// Octets that were noted.
pub(crate) type Noted = HashSet<Vec<u8>>;

/// Nothing is noted.
pub(crate) fn none_noted(alloc: Global) -> Noted
    ensures { (q : List ℕ) → own.is_noted result q ≡ false }
{
    HashSet::new(alloc)
}

/// Notes octets.
pub(crate) fn note(alloc: Global, noted: &mut Noted, octets: &[u8]) -> Result<(), AllocError>
    ensures { OnOk result ((q : List ℕ) → own.is_noted noted.new q
        ≡ (bytes_eq q octets.now || own.is_noted noted.old q)) }
{
    let copy = octets.to_vec(alloc)?;
    noted.insert(copy)?;
    Ok(())
}

/// Whether octets were noted.
pub(crate) fn is_noted(noted: &Noted, octets: &[u8]) -> bool
    ensures { result ≡ own.is_noted noted.now octets.now }
{
    noted.contains(octets)
}
