//! How many cases passed, and how many failed.
ghost use Rattle.std.specs.Prelude.{◌≡◌, ◌<◌, ◌↔◌, IsTrue};

/// Both counts, which stand still at their ends.
#[derive(Clone, Copy)]
pub(crate) struct Tally {
    pub(crate) passed: u64,
    pub(crate) failed: u64,
}

impl Tally {
    pub(crate) fn count(&mut self, is_passed: bool) {
        if is_passed {
            self.passed = self.passed.saturating_add(1);
        } else {
            self.failed = self.failed.saturating_add(1);
        }
    }

    /// Whether none failed, and one passed at least.
    pub(crate) fn is_good(self) -> bool
        ensures { IsTrue result ↔ ((self.failed ≡ 0) × (0 < self.passed)) }
    {
        self.failed == 0 && self.passed > 0
    }
}
