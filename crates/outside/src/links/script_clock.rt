//! A clock in memory, some of whose calls fail.
ghost use Rattle.std.specs.Prelude.{◌≡◌, ◌↔◌, ◌<◌, ◌≤◌, ◌++◌, [], drop, IfSome, unwrap_or};
ghost use Rattle.outside.specs.Links.Clocks.{ClockTold, ReadsClock, reading_given};
ghost use Rattle.outside.specs.Links.ScriptStates.{ClockState, script_clock_told};
ghost use Rattle.outside.specs.Links.ScriptStates.{TakesNextReading, next_reading};

use crate::count_fault;
use crate::links::clock::{Clock, READING_LIMIT};
use std::alloc::Global;
use std::marker::Model;

/// A clock that gives its readings in order, and past them each a second after the last that it
/// gave, or after 0 where it gave none. Its calls are numbered from 0, and some of them fail; so
/// does a reading that is out of range.
#[derive(Drop)]
pub struct ScriptClock {
    readings: Vec<u64>,
    next: usize,
    last: u64,
    beyond: u64,
    fails: Vec<u64>,
    calls: u64,
    faults: u64,
}

impl Model for ScriptClock {
    ghost use Rattle.std.specs.Prelude.{◌≡◌, ◌+◌, ◌*◌, ◌<◌, ◌≤◌, length, take, drop};
    ghost use Rattle.outside.specs.declared.links.clock.TheConstants.{READING_LIMIT};
    ghost use Rattle.outside.specs.Links.ScriptStates.{ClockState};
    ghost use Rattle.outside.specs.Links.Readings.{readings_given};

    ghost Value = { ClockState };

    ghost view = { λ s. record {
      left = drop s.next s.readings.items;
      given = readings_given (take s.next s.readings.items) s.last s.beyond;
      last = s.last + 1000 * s.beyond;
      fails = s.fails.items;
      calls = s.calls;
      faults = s.faults;
    } };

    // Readings beyond the list came once it was used up.
    ghost invariant = { λ s. (s.next ≤ length s.readings.items)
        × (s.last + 1000 * s.beyond < READING_LIMIT)
        × (s.next < length s.readings.items → s.beyond ≡ 0) };
}

impl ScriptClock {
    /// A clock with these readings, whose calls with these numbers fail. It takes no memory.
    pub fn new(_alloc: Global, readings: Vec<u64>, fails: Vec<u64>) -> Self
        ensures { result ≡ record {
          left = readings.items;
          given = [];
          last = 0;
          fails = fails.items;
          calls = 0;
          faults = 0;
        } }
    {
        ScriptClock {
            readings,
            next: 0,
            last: 0,
            beyond: 0,
            fails,
            calls: 0,
            faults: 0,
        }
    }

    // The next reading of the list, or past it.
    fn take_reading(&mut self) -> Option<u64>
        ensures gives { (result ≡ None)
            ↔ (READING_LIMIT ≤ next_reading self.old.left self.old.last) }
        ensures reading { IfSome result (λ reading. reading
            ≡ next_reading self.old.left self.old.last) }
        ensures range { IfSome result (λ reading. reading < READING_LIMIT) }
        ensures after { self.new ≡ record self.old {
          left = drop 1 self.old.left;
          given = self.old.given ++ reading_given result;
          last = unwrap_or result self.old.last;
        } }
    {
        if self.next < self.readings.len() {
            let reading = self.readings[self.next];
            self.next += 1;
            if reading >= READING_LIMIT {
                return None;
            }
            self.last = reading;
            return Some(reading);
        }
        let reading = self.last + 1000 * (self.beyond + 1);
        if reading >= READING_LIMIT {
            return None;
        }
        self.beyond += 1;
        Some(reading)
    }
}

impl Clock for ScriptClock {
    ghost told = { script_clock_told };

    fn now(&mut self) -> Option<u64>
        ensures reads { ReadsClock (script_clock_told self.old) (script_clock_told self.new)
            result }
        ensures next { TakesNextReading self.old self.new result }
    {
        let call = self.calls;
        self.calls = count_fault(call, true);
        if self.fails.contains(&call) {
            self.faults = count_fault(self.faults, true);
            return None;
        }
        let reading = self.take_reading();
        if reading.is_none() {
            self.faults = count_fault(self.faults, true);
        }
        reading
    }

    fn faults(&self) -> u64 {
        self.faults
    }
}
