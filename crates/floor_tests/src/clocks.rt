//! The clock of the system, and one whose two clocks a test sets.
ghost use Rattle.std.specs.Prelude.{⊤};

use crate::leaping::Leaping;
use outside::links::{Clock, READING_LIMIT};
use outside_real::{ClockNotice, Clocks, RealClock, SteadyClock, SystemClocks};
use std::cell::Cell;
use std::io::{Eprint, ErrorKind};
use std::test::Fail;
use std::time::{Duration, Instant};
use std::{io, time};

// Every second up to 2^31 - 1 can be told.
const _: () = prove!(READING_LIMIT == 2_147_483_648_000);

/// The first moment of 2020, in milliseconds since 1970.
const YEAR_2020: u64 = 1_577_836_800_000;

/// How long so many readings of a new clock take, each of them after 2020.
fn time_of<R: time::Clock + Eprint + Copy>(runtime: R, count: u32) -> io::Result<Duration> {
    let mut clock = RealClock::new(SteadyClock::new(SystemClocks::new(runtime)));
    let begun = Instant::now(&runtime)?;
    for _reading in 0..count {
        if clock.now().is_none_or(|reading| reading < YEAR_2020) {
            return Err(io::Error::from(ErrorKind::Other));
        }
    }
    begun.elapsed(&runtime)
}

#[test]
fn a_first_reading_comes_at_once(rt: HostRuntime) -> Result<(), Fail> {
    // a busy machine may hold some of them up
    let mut is_at_once = false;
    for _round in 0..20 {
        is_at_once = is_at_once || time_of(rt, 1)? < Duration::from_millis(90);
    }
    assert!(rt; is_at_once);
    Ok(())
}

#[test]
fn three_readings_in_two_tenths_of_a_second(rt: HostRuntime) -> Result<(), Fail> {
    let waited = time_of(rt, 3)?;
    assert!(rt; waited >= Duration::from_millis(200), "{waited:?}");
    assert!(rt; waited < Duration::from_secs(5), "{waited:?}");
    Ok(())
}

/// The seconds that a clock shows, and the reading.
const READINGS: &[(u64, Option<u64>)] = &[
    (0, Some(0)),
    (2_147_483_647, Some(2_147_483_647_000)),
    (2_147_483_648, None),
    (u64::MAX, None),
];

#[test]
fn a_time_at_the_limit_is_a_fault(rt: HostRuntime) {
    let seconds = Cell::new(0u64);
    let leaping = Leaping {
        host: rt,
        seconds: &seconds,
    };
    for &(shown, want) in READINGS {
        seconds.set(shown);
        assert_eq!(rt;
            RealClock::new(SteadyClock::new(SystemClocks::new(leaping))).now(),
            want
        );
    }
}

/// Clocks that a test sets, in milliseconds, and what an operator was last told of them.
#[derive(Drop)]
struct Set<'a> {
    day: &'a Cell<Option<u64>>,
    run: &'a Cell<Option<u64>>,
    told: &'a Cell<Option<ClockNotice>>,
}

impl<'a> Clocks for Set<'a> {
    ghost days = { λ clocks outcome. ⊤ };

    ghost runs = { λ clocks outcome. ⊤ };

    fn time_of_day(&self) -> Option<u64> {
        self.day.get()
    }

    fn run(&self) -> Option<u64> {
        self.run.get()
    }

    fn pause(&self) {}

    fn tell(&self, notice: ClockNotice) {
        self.told.set(Some(notice));
    }
}

#[test]
fn a_leap_of_the_time_of_day(rt: HostRuntime) -> Result<(), Fail> {
    let day = Cell::new(Some(1_000_000u64));
    let run = Cell::new(Some(500u64));
    let told = Cell::new(None);
    let mut clock = RealClock::new(SteadyClock::new(Set {
        day: &day,
        run: &run,
        told: &told,
    }));
    assert_eq!(rt; clock.now(), Some(1_000_000));
    // a minute is no leap, in either direction
    run.set(Some(600));
    day.set(Some(1_060_100));
    assert_eq!(rt; clock.now(), Some(1_000_100));
    day.set(Some(940_100));
    assert_eq!(rt; clock.now(), Some(1_000_100));
    assert_eq!(rt; told.take(), None);
    // a millisecond more is one, and is told once
    day.set(Some(1_060_101));
    assert_eq!(rt; clock.now(), Some(1_000_100));
    assert_eq!(rt; told.take(), Some(ClockNotice::Leapt));
    run.set(Some(700));
    day.set(Some(1_060_201));
    assert_eq!(rt; clock.now(), Some(1_000_200));
    assert_eq!(rt; told.take(), None);
    // nor is more known where it can't be read
    day.set(None);
    assert_eq!(rt; clock.now(), Some(1_000_200));
    assert_eq!(rt; told.take(), None);
    day.set(Some(1_000_000));
    assert_eq!(rt; clock.now(), Some(1_000_200));
    assert_eq!(rt; told.take(), Some(ClockNotice::Agrees));
    // the other clock never runs back; if it did, no reading would fall
    run.set(Some(0));
    assert_eq!(rt; clock.now(), Some(1_000_200));
    assert_eq!(rt; clock.faults(), 0);
    run.set(None);
    assert_eq!(rt; clock.now(), None);
    assert_eq!(rt; told.take(), Some(ClockNotice::Unread));
    assert_eq!(rt; clock.faults(), 1);
    Ok(())
}
