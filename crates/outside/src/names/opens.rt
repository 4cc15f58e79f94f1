//! The outside: what the program opens.
ghost use Rattle.std.specs.Prelude.{◌≡◌, ℕ, option_map};
ghost use Rattle.outside.specs.Names.Outside.{OutsideTold, OpensIn, ClosesIn, OpensOut, ClosesOut};
ghost use Rattle.outside.specs.Names.Outside.{Listens, ClosesListener, Connects, ClosesLink};
ghost use Rattle.outside.specs.Names.Outside.{OpensClock, ClosesClock};

use crate::links::{Clock, Link, Listener};
use crate::{Sink, Source};

/// Where names and addresses are opened. An object that is opened is new to its caller, and a close
/// puts it back as it is.
pub trait Outside {
    type In: Source + Drop;

    type Out: Sink + Drop;

    type Link: Link + Drop;

    type Listener: Listener + Drop;

    type Clock: Clock + Drop;

    /// What it tells of its names and addresses, and of what it was asked for.
    ghost told: { Self → OutsideTold };

    /// Hands out the source under a name. `-` is standard input. None only after a fault, which was
    /// counted.
    fn open_in(&mut self, name: &str) -> Option<Self::In>
        ensures { OpensIn (told self.old) (told self.new) name.now
            (option_map Self.In.told result) };

    /// Puts a source back under its name, and counts a fault where it had one.
    fn close_in(&mut self, source: Self::In)
        ensures { ClosesIn (told self.old) (told self.new) (Self.In.told source) };

    /// Hands out the sink under a name. `-` is standard output. None only after a fault, which was
    /// counted.
    fn open_out(&mut self, name: &str) -> Option<Self::Out>
        ensures { OpensOut (told self.old) (told self.new) name.now
            (option_map Self.Out.told result) };

    /// Puts a sink back under its name, and counts a fault where it had one.
    fn close_out(&mut self, sink: Self::Out)
        ensures { ClosesOut (told self.old) (told self.new) (Self.Out.told sink) };

    /// Hands out the listener at an address. None only after a fault, which was counted.
    fn listen(&mut self, address: &str) -> Option<Self::Listener>
        ensures { Listens (told self.old) (told self.new) address.now
            (option_map Self.Listener.told result) };

    /// Puts a listener back at its address, and counts a fault where it had one.
    fn close_listener(&mut self, listener: Self::Listener)
        ensures { ClosesListener (told self.old) (told self.new) (Self.Listener.told listener) };

    /// Hands out a link to the node at an address. None only after a fault, which was counted.
    fn connect(&mut self, address: &str) -> Option<Self::Link>
        ensures { Connects (told self.old) (told self.new) address.now
            (option_map Self.Link.told result) };

    /// Puts a link back at its address, and counts a fault where it had one.
    fn close_link(&mut self, link: Self::Link)
        ensures { ClosesLink (told self.old) (told self.new) (Self.Link.told link) };

    /// Hands out the clock. None only after a fault, which was counted.
    fn clock(&mut self) -> Option<Self::Clock>
        ensures { OpensClock (told self.old) (told self.new) (option_map Self.Clock.told result) };

    /// Puts the clock back, and counts a fault where it had one.
    fn close_clock(&mut self, clock: Self::Clock)
        ensures { ClosesClock (told self.old) (told self.new) (Self.Clock.told clock) };

    /// The number of faults so far, of opens and of objects when they were closed. It stands still
    /// at the type's end.
    fn faults(&self) -> u64
        ensures { result ≡ (told self.now).faults };

    /// Lets an operator know, where there is one, what happens. Nothing else changes.
    fn note(&self, words: &str);
}
