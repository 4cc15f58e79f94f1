//! Transfer sets by the next moment at which something of each is due.
ghost use Rattle.std.specs.Prelude.{◌≡◌, ◌<◌, ℕ, List, Option, None, length, replicate, slice_set};
ghost use Rattle.std.specs.Prelude.{IfOk, true, false};
ghost use Rattle.transfer_sets.specs.NextDue.{has_come};
ghost use Rattle.transfer_sets.specs.DueIndex.{next_at, IsFirst, HaveNotCome, HasAnyCome};

use crate::due_tree::{first_in, no_firsts, renew};
use std::alloc::{AllocError, Global};
use std::marker::Model;

/// For each of some transfer sets, by their numbers from 0, a moment in milliseconds since 1970, or
/// none.
#[derive(Debug, Drop)]
pub struct DueIndex {
    moments: Vec<Option<u64>>,
    /// The inner nodes of a tree over the moments, each with the first moment below it.
    firsts: Vec<Option<(u64, u32)>>,
}

impl Model for DueIndex {
    ghost use Rattle.std.specs.Prelude.{◌<◌, ℕ, List, Option, vec_len};
    ghost use Rattle.transfer_sets.specs.DueTree.{IsDueTree};

    ghost Value = { List (Option ℕ) };

    ghost view = { λ d. d.moments.items };

    ghost invariant = { λ d. (vec_len d.moments < 4294967296)
        × IsDueTree d.moments.items d.firsts.items };
}

impl DueIndex {
    /// An index of so many transfer sets, none of which has a moment.
    pub fn new(alloc: Global, slots: u32) -> Result<DueIndex, AllocError>
        ensures { IfOk result (λ index. index ≡ replicate slots None) }
    {
        let mut moments = Vec::new(alloc);
        for slot in 0..slots {
            moments.push(None)?;
        }
        let firsts = no_firsts(alloc, slots)?;
        Ok(DueIndex { moments, firsts })
    }

    /// Whether the moment of a transfer set has come where the clock stands at `now`.
    pub fn has_come(&self, slot: u32, now: u64) -> bool
        requires { slot < length self.now }
        ensures { result ≡ has_come (next_at self.now slot) now }
    {
        has_come(self.moments[slot as usize], now)
    }

    /// Gives a transfer set this moment, or none. Its work grows with the number of levels of a
    /// tree over the transfer sets.
    pub fn set(&mut self, slot: u32, moment: Option<u64>)
        requires { slot < length self.old }
        ensures { self.new ≡ slice_set self.old slot moment }
    {
        self.moments[slot as usize] = moment;
        let parent = (self.firsts.len() + slot as usize) / 2;
        renew(&self.moments, &mut self.firsts, parent);
    }

    /// Whether the moment of any transfer set has come where the clock stands at `now`. It looks at
    /// none of them.
    pub fn has_any_come(&self, now: u64) -> bool
        ensures none { result ≡ false → HaveNotCome self.now now 0 (length self.now) }
        ensures some { result ≡ true → HasAnyCome self.now now }
    {
        match self.first() {
            Some((moment, _)) => moment <= now,
            None => false,
        }
    }

    /// The first moment with its transfer set, the lowest of several; none where no transfer set
    /// has a moment. It looks at none of them.
    pub fn first(&self) -> Option<(u64, u32)>
        ensures { IsFirst self.now result }
    {
        first_in(&self.moments, &self.firsts)
    }
}

/// Whether a moment, where there is one, is now or over.
fn has_come(moment: Option<u64>, now: u64) -> bool
    ensures { result ≡ has_come moment now }
{
    match moment {
        Some(moment) => moment <= now,
        None => false,
    }
}
