//! Anything that tells the time, as a clock.
ghost use Rattle.std.specs.Prelude.{◌≡◌, ℕ, Option};
ghost use Rattle.outside.specs.Links.Clocks.{ClockTold, ReadsClock};
ghost use Rattle.outside_real.specs.ClockAttempts.{ClockAttempted};
ghost use Rattle.outside_real.specs.Links.{clock_told};

use outside::count_fault;
use outside::links::{Clock, READING_LIMIT};
use std::marker::Model;

// Every second up to 2^31 - 1 can be told.
const _: () = prove!(READING_LIMIT == 2_147_483_648_000);

/// One attempt at reading the time.
pub trait ClockAttempt {
    /// What an attempt may come to, in milliseconds since 1970, and what it leaves of the object.
    /// None: the time couldn't be read.
    ghost attempt: { Self → Option ℕ → Self → Type 0 };

    /// Reads the time, in milliseconds since 1970. It may wait before.
    fn attempt_now(&mut self) -> Option<u64>
        ensures { attempt self.old result self.new };
}

/// A clock that tells its faults alone. A time that can't be read, or that is at the limit of
/// readings or above, is a fault.
#[derive(Drop)]
pub struct RealClock<T> {
    time: T,
    faults: u64,
}

// What contracts see: the object, and the count of faults.
impl<T> Model for RealClock<T> {
    ghost Value = { T × ℕ };

    ghost view = { λ s. (s.time, s.faults) };
}

impl<T> RealClock<T> {
    /// A clock with no faults so far.
    pub fn new(time: T) -> Self
        ensures { result ≡ (time, 0) }
    {
        RealClock { time, faults: 0 }
    }
}

impl<T: ClockAttempt> Clock for RealClock<T> {
    ghost told = { λ s. clock_told s.1 };

    fn now(&mut self) -> Option<u64>
        ensures reads { ReadsClock (clock_told self.old.1) (clock_told self.new.1) result }
        ensures attempts { ClockAttempted T.attempt self.old.0 self.new.0 result }
    {
        match self.time.attempt_now() {
            Some(reading) if reading < READING_LIMIT => Some(reading),
            _ => {
                self.faults = count_fault(self.faults, true);
                None
            }
        }
    }

    fn faults(&self) -> u64 {
        self.faults
    }
}
