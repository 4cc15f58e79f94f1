//! A clock whose readings are noted.
ghost use Rattle.std.specs.Prelude.{◌≡◌};
ghost use Rattle.outside.specs.Links.Clocks.{ReadsClock};

use crate::holding::board::Event;
use crate::holding::watch::Watch;
use outside::links::Clock;
use std::marker::Model;
use std::time;

/// A clock that notes each reading, which takes a millisecond.
#[derive(Drop)]
pub struct HeldClock<C, R> {
    clock: C,
    watch: Watch<R>,
}

// What contracts see: the clock inside.
impl<C, R> Model for HeldClock<C, R> {
    ghost Value = { C };

    ghost view = { λ s. s.clock };
}

impl<C, R> HeldClock<C, R> {
    pub(crate) fn new(clock: C, watch: Watch<R>) -> Self
        ensures { result ≡ clock }
    {
        HeldClock { clock, watch }
    }

    pub(crate) fn into_clock(self) -> C
    where
        R: Drop,
        ensures { result ≡ self }
    {
        let HeldClock { clock, watch: _ } = self;
        clock
    }
}

impl<C: Clock, R: time::Clock> Clock for HeldClock<C, R> {
    ghost told = { λ s. C.told s };

    fn now(&mut self) -> Option<u64>
        ensures { ReadsClock (C.told self.old) (C.told self.new) result }
    {
        let reading = self.clock.now();
        self.watch.note(Event::Reading);
        self.watch.rest();
        reading
    }

    fn faults(&self) -> u64 {
        self.clock.faults()
    }
}
