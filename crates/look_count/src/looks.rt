//! How often something is looked at.
ghost use Rattle.std.specs.Prelude.{◌≡◌};
ghost use Rattle.look_count.specs.Counted.{looked};

use std::marker::Model;

/// Where a number of looks stands still.
pub const LOOK_LIMIT: u64 = u64::MAX;

// Clauses cite this limit, so that it stands here as a number too.
const _: () = prove!(LOOK_LIMIT == 18_446_744_073_709_551_615);

/// How often something was read or changed: a look is all that is done with it in one pass.
#[derive(Drop)]
pub struct Looks {
    count: u64,
}

impl Model for Looks {
    ghost use Rattle.std.specs.Prelude.{ℕ};

    ghost Value = { ℕ };

    ghost view = { λ l. l.count };
}

/// None so far.
pub fn no_looks() -> Looks
    ensures { result ≡ 0 }
{
    Looks { count: 0 }
}

impl Looks {
    /// How many; the number stands still at [`LOOK_LIMIT`].
    pub fn count(&self) -> u64
        ensures { result ≡ self.now }
    {
        self.count
    }

    /// One more.
    pub fn add(&mut self)
        ensures { self.new ≡ looked self.old 1 }
    {
        self.count = self.count.saturating_add(1);
    }
}
