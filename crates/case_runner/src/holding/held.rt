//! An outside round another.
ghost use Rattle.std.specs.Prelude.{◌≡◌, IfOk, option_map};
ghost use Rattle.outside.specs.Names.Outside.{OpensIn, ClosesIn, OpensOut, ClosesOut};
ghost use Rattle.outside.specs.Names.Outside.{Listens, ClosesListener, Connects, ClosesLink};
ghost use Rattle.outside.specs.Names.Outside.{OpensClock, ClosesClock};

use crate::holding::board::Plan;
use crate::holding::clock::HeldClock;
use crate::holding::listener::HeldListener;
use crate::holding::source::HeldSource;
use crate::holding::watch::Watch;
use outside::names::Outside;
use std::alloc::{AllocError, Global};
use std::marker::Model;
use std::time;

/// The name of standard input.
const INPUT: &str = "-";

/// An outside whose standard input waits, and whose links may meet, by a plan.
#[derive(Drop)]
pub struct HeldOutside<O, R> {
    outside: O,
    watch: Watch<R>,
}

// What contracts see: the outside inside.
impl<O, R> Model for HeldOutside<O, R> {
    ghost Value = { O };

    ghost view = { λ s. s.outside };
}

impl<O, R> HeldOutside<O, R> {
    /// Puts one round another by this plan, with a clock to wait by.
    pub fn new(alloc: Global, runtime: R, outside: O, plan: Plan) -> Result<Self, AllocError>
    where
        O: Drop,
        R: Drop,
        ensures { IfOk result (λ held. held ≡ outside) }
    {
        let watch = Watch::new(alloc, runtime, plan)?;
        Ok(HeldOutside { outside, watch })
    }

    /// Whether no link waited in vain for the others where links meet.
    pub fn have_met(&self) -> bool {
        self.watch.have_met()
    }

    /// The outside inside.
    pub fn into_outside(self) -> O
    where
        R: Drop,
        ensures { result ≡ self }
    {
        let HeldOutside { outside, watch: _ } = self;
        outside
    }
}

impl<O: Outside, R: time::Clock + Copy> Outside for HeldOutside<O, R> {
    type In = HeldSource<O::In, R>;

    type Out = O::Out;

    type Link = O::Link;

    type Listener = HeldListener<O::Listener, R>;

    type Clock = HeldClock<O::Clock, R>;

    ghost told = { λ s. O.told s };

    fn open_in(&mut self, name: &str) -> Option<HeldSource<O::In, R>>
        ensures { OpensIn (O.told self.old) (O.told self.new) name.now
            (option_map (λ source. O.In.told source) result) }
    {
        let source = self.outside.open_in(name)?;
        Some(HeldSource::new(source, name == INPUT, self.watch.share()))
    }

    fn close_in(&mut self, source: HeldSource<O::In, R>)
        ensures { ClosesIn (O.told self.old) (O.told self.new) (O.In.told source) }
    {
        self.outside.close_in(source.into_source());
    }

    fn open_out(&mut self, name: &str) -> Option<O::Out>
        ensures { OpensOut (O.told self.old) (O.told self.new) name.now
            (option_map O.Out.told result) }
    {
        self.outside.open_out(name)
    }

    fn close_out(&mut self, sink: O::Out)
        ensures { ClosesOut (O.told self.old) (O.told self.new) (O.Out.told sink) }
    {
        self.outside.close_out(sink);
    }

    fn listen(&mut self, address: &str) -> Option<HeldListener<O::Listener, R>>
        ensures { Listens (O.told self.old) (O.told self.new) address.now
            (option_map (λ listener. O.Listener.told listener) result) }
    {
        let listener = self.outside.listen(address)?;
        Some(HeldListener::new(listener, self.watch.share()))
    }

    fn close_listener(&mut self, listener: HeldListener<O::Listener, R>)
        ensures { ClosesListener (O.told self.old) (O.told self.new) (O.Listener.told listener) }
    {
        self.outside.close_listener(listener.into_listener());
    }

    fn connect(&mut self, address: &str) -> Option<O::Link>
        ensures { Connects (O.told self.old) (O.told self.new) address.now
            (option_map O.Link.told result) }
    {
        self.outside.connect(address)
    }

    fn close_link(&mut self, link: O::Link)
        ensures { ClosesLink (O.told self.old) (O.told self.new) (O.Link.told link) }
    {
        self.outside.close_link(link);
    }

    fn clock(&mut self) -> Option<HeldClock<O::Clock, R>>
        ensures { OpensClock (O.told self.old) (O.told self.new)
            (option_map (λ clock. O.Clock.told clock) result) }
    {
        let clock = self.outside.clock()?;
        Some(HeldClock::new(clock, self.watch.share()))
    }

    fn close_clock(&mut self, clock: HeldClock<O::Clock, R>)
        ensures { ClosesClock (O.told self.old) (O.told self.new) (O.Clock.told clock) }
    {
        self.outside.close_clock(clock.into_clock());
    }

    fn faults(&self) -> u64 {
        self.outside.faults()
    }

    fn note(&self, words: &str) {
        self.outside.note(words);
    }
}
