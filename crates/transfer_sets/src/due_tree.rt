//! A tree over the moments of transfer sets, which knows the first of them.
ghost use Rattle.std.specs.Prelude.{◌≡◌, ◌<◌, if◌then◌else◌, length, replicate, None, option_map, IfOk};
ghost use Rattle.transfer_sets.specs.DueIndex.{IsFirst};
ghost use Rattle.transfer_sets.specs.DueTree.{comes_first, first_of, node_at, AreFirstsBut, IsDueTree};

use std::alloc::{AllocError, Global};

/// The inner nodes of a tree over so many transfer sets, none of which has a moment.
pub(crate) fn no_firsts(alloc: Global, slots: u32) -> Result<Vec<Option<(u64, u32)>>, AllocError>
    ensures { IfOk result (λ firsts. firsts.items ≡ replicate slots None) }
{
    let mut firsts = Vec::new(alloc);
    for slot in 0..slots {
        firsts.push(None)?;
    }
    Ok(firsts)
}

/// The first moment with its transfer set, the lowest of several; none where no transfer set has a
/// moment.
pub(crate) fn first_in(moments: &[Option<u64>], firsts: &[Option<(u64, u32)>]) -> Option<(u64, u32)>
    requires few { length moments.now < 4294967296 }
    requires tree { IsDueTree moments.now firsts.now }
    ensures { IsFirst moments.now result }
{
    node_at(moments, firsts, 1)
}

/// Makes this node anew, whose child has changed, and those above it.
pub(crate) fn renew(moments: &[Option<u64>], firsts: &mut [Option<(u64, u32)>], from: usize)
    requires few { length moments.now < 4294967296 }
    requires many { length firsts.old ≡ length moments.now }
    requires from { from < length firsts.old }
    requires others { AreFirstsBut from moments.now firsts.old }
    ensures { IsDueTree moments.now firsts.new }
{
    let mut node = from;
    while node > 0 {
        let lower = node_at(moments, firsts, 2 * node);
        let higher = node_at(moments, firsts, 2 * node + 1);
        firsts[node] = first_of(lower, higher);
        node /= 2;
    }
}

/// What a node has.
fn node_at(
    moments: &[Option<u64>],
    firsts: &[Option<(u64, u32)>],
    node: usize,
) -> Option<(u64, u32)>
    requires few { length moments.now < 4294967296 }
    requires many { length firsts.now ≡ length moments.now }
    ensures { result ≡ node_at moments.now firsts.now node }
{
    if node < firsts.len() {
        return firsts[node];
    }
    let slot = node - firsts.len();
    if slot < moments.len() {
        return leaf(moments[slot], slot as u32);
    }
    None
}

/// The moment of a transfer set with that, if it has one.
fn leaf(moment: Option<u64>, slot: u32) -> Option<(u64, u32)>
    ensures { result ≡ option_map (λ moment. (moment, slot)) moment }
{
    match moment {
        Some(moment) => Some((moment, slot)),
        None => None,
    }
}

/// The first of two moments with their transfer sets, or the one that there is.
fn first_of(one: Option<(u64, u32)>, other: Option<(u64, u32)>) -> Option<(u64, u32)>
    ensures { result ≡ first_of one other }
{
    match (one, other) {
        (None, other) => other,
        (one, None) => one,
        (Some(one), Some(other)) => Some(earlier_of(one, other)),
    }
}

/// The earlier of two moments with their transfer sets, of equal ones that of the lower.
fn earlier_of(one: (u64, u32), other: (u64, u32)) -> (u64, u32)
    ensures { result ≡ (if comes_first one other then one else other) }
{
    if one.0 < other.0 || (one.0 == other.0 && one.1 <= other.1) {
        one
    } else {
        other
    }
}
