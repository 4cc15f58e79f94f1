//! The clock.
ghost use Rattle.std.specs.Prelude.{◌≡◌};
ghost use Rattle.outside.specs.Links.Clocks.{ClockTold, ReadsClock};

/// Every reading is below this one, in milliseconds since 1970. It is the limit of the node's
/// moments (`MOMENT_LIMIT` of `sbo_device`).
pub const READING_LIMIT: u64 = 2_147_483_648_000;

/// What tells the time.
pub trait Clock {
    /// What it tells of its readings and its faults.
    ghost told: { Self → ClockTold };

    /// Reads the time, in milliseconds since 1970. None only after a fault, which was counted.
    fn now(&mut self) -> Option<u64>
        ensures { ReadsClock (told self.old) (told self.new) result };

    /// The number of faults so far. It stands still at the type's end.
    fn faults(&self) -> u64
        ensures { result ≡ (told self.now).faults };
}
