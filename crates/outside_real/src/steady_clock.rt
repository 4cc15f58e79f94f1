//! A clock that a leap of the system's own doesn't reach.
ghost use Rattle.std.specs.Prelude.{◌≡◌, ℕ, ◌<◌, ◌≤◌, ◌↔◌, Bool, Option, IsTrue, IfSome};
ghost use Rattle.outside_real.specs.SteadyClocks.{SteadyState, NextReading, SteadyReads, Watches};
ghost use Rattle.outside_real.specs.SteadyClocks.{new_steady, distance};

use crate::clock::ClockAttempt;
use crate::turns::{Turn, notice_due};
use std::marker::Model;

/// The time of day has leapt where it is further than this from the readings, in milliseconds.
const LEAP_LIMIT: u64 = 60_000;

const _: () = prove!(LEAP_LIMIT == 60_000);

/// What an operator is told of the clocks.
#[derive(Clone, Copy, Debug, PartialEq, Eq)]
pub enum ClockNotice {
    /// A clock can't be read.
    Unread,
    /// The time of day has leapt.
    Leapt,
    /// The time of day is again what the readings say.
    Agrees,
}

/// The two clocks of a system. Each ghost member says what a reading may come to, in milliseconds;
/// none where the clock can't be read.
pub trait Clocks {
    /// The time of day, since 1970.
    ghost days: { Self → Option ℕ → Type 0 };

    /// How long the monotonic clock has run, since a moment that stays the same.
    ghost runs: { Self → Option ℕ → Type 0 };

    /// The time of day, in milliseconds since 1970.
    fn time_of_day(&self) -> Option<u64>
        ensures { days self.now result };

    /// How long the monotonic clock has run, in milliseconds.
    fn run(&self) -> Option<u64>
        ensures { runs self.now result };

    /// Waits, before a reading that isn't the first.
    fn pause(&self);

    /// Tells an operator.
    fn tell(&self, notice: ClockNotice);
}

/// A reading.
#[derive(Clone, Copy)]
pub struct Reading {
    /// In milliseconds since 1970.
    pub time: u64,
    /// How long the monotonic clock had run, in milliseconds.
    pub run: u64,
}

/// Reads the time of day once, and from then on how long the monotonic clock has run. So its
/// readings never fall, and go on as before where the time of day leaps, of which an operator is
/// told. The first reading comes at once.
#[derive(Drop)]
pub struct SteadyClock<T> {
    clocks: T,
    last: Option<Reading>,
    /// Whether the time of day was more than a minute from the last reading.
    is_apart: bool,
}

impl<T> Model for SteadyClock<T> {
    ghost use Rattle.outside_real.specs.SteadyClocks.{SteadyState};

    ghost Value = { SteadyState T };

    ghost view = { λ s. record { clocks = s.clocks; last = s.last; is_apart = s.is_apart } };
}

impl<T> SteadyClock<T> {
    /// A clock that wasn't read so far.
    pub fn new(clocks: T) -> Self
        ensures { result ≡ new_steady clocks }
    {
        SteadyClock {
            clocks,
            last: None,
            is_apart: false,
        }
    }
}

impl<T: Clocks> ClockAttempt for SteadyClock<T> {
    ghost attempt = { λ before outcome after. SteadyReads T.days T.runs before outcome after };

    fn attempt_now(&mut self) -> Option<u64>
        ensures attempt { SteadyReads T.days T.runs self.old result self.new }
        ensures never_falls { IfSome self.old.last (λ last. IfSome result (λ time.
            last.time ≤ time)) }
    {
        match next_reading(&self.clocks, self.last) {
            Some(reading) => {
                self.is_apart = watch(&self.clocks, self.is_apart, reading.time);
                self.last = Some(reading);
                Some(reading.time)
            }
            None => {
                self.clocks.tell(ClockNotice::Unread);
                None
            }
        }
    }
}

// The reading behind the last one, if there was one. None: a clock can't be read, or the time
// doesn't fit.
fn next_reading<T: Clocks>(clocks: &T, last: Option<Reading>) -> Option<Reading>
    ensures { NextReading T.days T.runs clocks.now last result }
{
    match last {
        None => {
            let run = clocks.run()?;
            let time = clocks.time_of_day()?;
            Some(Reading { time, run })
        }
        Some(last) => {
            clocks.pause();
            let run = clocks.run()?;
            let time = last.time.checked_add(run.saturating_sub(last.run))?;
            Some(Reading { time, run })
        }
    }
}

// Whether the time of day is a leap away from a reading, of which an operator is told as it begins
// and as it is over; as before, where it can't be read.
fn watch<T: Clocks>(clocks: &T, was_apart: bool, time: u64) -> bool
    ensures { Watches T.days clocks.now time was_apart result }
{
    let Some(day) = clocks.time_of_day() else {
        return was_apart;
    };
    let is_apart = is_leap(day, time);
    match notice_due(was_apart, is_apart) {
        Some(Turn::Begins) => clocks.tell(ClockNotice::Leapt),
        Some(Turn::Ends) => clocks.tell(ClockNotice::Agrees),
        None => {}
    }
    is_apart
}

// Whether a time of day is a leap away from a reading.
fn is_leap(day: u64, time: u64) -> bool
    ensures { IsTrue result ↔ (LEAP_LIMIT < distance day time) }
{
    day.abs_diff(time) > LEAP_LIMIT
}
