//! An outside in memory.
ghost use Rattle.std.specs.Prelude.{◌≡◌, ℕ, [], List, Option, OnOk, OnErr, Some, None};
ghost use Rattle.std.specs.Prelude.{option_copied, option_map, IfOk};
ghost use Rattle.outside.specs.States.{text_told, byte_told};
ghost use Rattle.outside.specs.Links.ScriptStates.{script_link_told, script_listener_told};
ghost use Rattle.outside.specs.Links.ScriptStates.{script_clock_told};
ghost use Rattle.outside.specs.Names.Names.{with_name_asked};
ghost use Rattle.outside.specs.Names.Outside.{OutsideTold, OpensIn, ClosesIn, OpensOut, ClosesOut};
ghost use Rattle.outside.specs.Names.Outside.{Listens, ClosesListener, Connects, ClosesLink};
ghost use Rattle.outside.specs.Names.Outside.{OpensClock, ClosesClock};
ghost use Rattle.outside.specs.Names.Places.{MemoryState, memory_told, standing, object_there};
ghost use Rattle.outside.specs.Names.Places.{PutsUnder, AllNamed};
ghost use Rattle.outside.specs.declared.names.asked.TheConstants.{MOST_NAMES};

use crate::links::{Clock, Link, Listener, ScriptClock, ScriptLink, ScriptListener};
use crate::names::asked::{AskedName, AskedNames};
use crate::names::opens::Outside;
use crate::names::places::{Place, close, look, open, put};
use crate::{ByteSink, Sink, Source, TextSource, count_fault};
use std::alloc::{AllocError, Global};
use std::marker::Model;

/// An outside whose objects were put there. Opening what wasn't put, or what is handed out, is a
/// fault. It keeps the names and addresses that it was asked for: 16 of up to 64 octets for
/// reading, and as many for writing, to listen at and to connect to. Once one has no room, it tells
/// none of that list.
#[derive(Drop)]
pub struct MemoryOutside {
    sources: Vec<Place<TextSource>>,
    sinks: Vec<Place<ByteSink>>,
    listeners: Vec<Place<ScriptListener>>,
    links: Vec<Place<ScriptLink>>,
    clock: Option<Option<ScriptClock>>,
    read_names: AskedNames,
    written_names: AskedNames,
    listened: AskedNames,
    connected: AskedNames,
    faults: u64,
}

impl Model for MemoryOutside {
    ghost Value = { MemoryState };

    ghost view = { λ o. record {
      sources = o.sources.items;
      sinks = o.sinks.items;
      listeners = o.listeners.items;
      links = o.links.items;
      clock = o.clock;
      read_names = o.read_names;
      written_names = o.written_names;
      listened = o.listened;
      connected = o.connected;
      faults = o.faults;
    } };

    // Each object bears the name of its place.
    ghost invariant = { λ o. AllNamed (λ s. s.name) o.sources.items
        × AllNamed (λ s. s.name) o.sinks.items × AllNamed (λ s. s.name) o.listeners.items
        × AllNamed (λ s. s.name) o.links.items };
}

impl MemoryOutside {
    /// An outside with nothing in it. The room for names is taken here.
    pub fn new(alloc: Global) -> Result<Self, AllocError>
        ensures { IfOk result (λ outside. outside ≡ record {
          sources = [];
          sinks = [];
          listeners = [];
          links = [];
          clock = None;
          read_names = record { names = Some []; room = MOST_NAMES };
          written_names = record { names = Some []; room = MOST_NAMES };
          listened = record { names = Some []; room = MOST_NAMES };
          connected = record { names = Some []; room = MOST_NAMES };
          faults = 0;
        }) }
    {
        Ok(MemoryOutside {
            sources: Vec::new(alloc),
            sinks: Vec::new(alloc),
            listeners: Vec::new(alloc),
            links: Vec::new(alloc),
            clock: None,
            read_names: AskedNames::new(alloc)?,
            written_names: AskedNames::new(alloc)?,
            listened: AskedNames::new(alloc)?,
            connected: AskedNames::new(alloc)?,
            faults: 0,
        })
    }

    /// Puts a source under a name, in the place of what stands there.
    pub fn put_in(
        &mut self,
        alloc: Global,
        name: &str,
        source: TextSource,
    ) -> Result<(), AllocError>
        ensures put { OnOk result (PutsUnder self.old.sources self.new.sources name.now
            (record source { name = name.now })) }
        ensures err { OnErr result (self.new.sources ≡ self.old.sources) }
        ensures others { self.new ≡ record self.old { sources = self.new.sources } }
    {
        let mut source = source;
        source.set_name(String::from_str(alloc, name)?);
        put(alloc, &mut self.sources, name, source)
    }

    /// Puts a sink under a name, in the place of what stands there.
    pub fn put_out(&mut self, alloc: Global, name: &str, sink: ByteSink) -> Result<(), AllocError>
        ensures put { OnOk result (PutsUnder self.old.sinks self.new.sinks name.now
            (record sink { name = name.now })) }
        ensures err { OnErr result (self.new.sinks ≡ self.old.sinks) }
        ensures others { self.new ≡ record self.old { sinks = self.new.sinks } }
    {
        let mut sink = sink;
        sink.set_name(String::from_str(alloc, name)?);
        put(alloc, &mut self.sinks, name, sink)
    }

    /// Puts a listener at an address, in the place of what stands there.
    pub fn put_listener(
        &mut self,
        alloc: Global,
        address: &str,
        listener: ScriptListener,
    ) -> Result<(), AllocError>
        ensures put { OnOk result (PutsUnder self.old.listeners self.new.listeners address.now
            (record listener { name = address.now })) }
        ensures err { OnErr result (self.new.listeners ≡ self.old.listeners) }
        ensures others { self.new ≡ record self.old { listeners = self.new.listeners } }
    {
        let mut listener = listener;
        listener.set_name(String::from_str(alloc, address)?);
        put(alloc, &mut self.listeners, address, listener)
    }

    /// Puts a link at an address to connect to, in the place of what stands there.
    pub fn put_link(
        &mut self,
        alloc: Global,
        address: &str,
        link: ScriptLink,
    ) -> Result<(), AllocError>
        ensures put { OnOk result (PutsUnder self.old.links self.new.links address.now
            (record link { name = address.now })) }
        ensures err { OnErr result (self.new.links ≡ self.old.links) }
        ensures others { self.new ≡ record self.old { links = self.new.links } }
    {
        let mut link = link;
        link.set_name(String::from_str(alloc, address)?);
        put(alloc, &mut self.links, address, link)
    }

    /// Puts a clock there, in the place of the one that is there. It takes no memory.
    pub fn put_clock(&mut self, clock: ScriptClock)
        ensures { self.new ≡ record self.old { clock = Some (Some clock) } }
    {
        self.clock = Some(Some(clock));
    }

    /// The listener that stands at an address, as it was put or put back.
    pub fn listener(&self, address: &str) -> Option<&ScriptListener>
        ensures { option_copied result ≡ object_there (standing self.now.listeners address.now) }
    {
        look(&self.listeners, address)
    }

    /// The link that stands at an address, as it was put or put back.
    pub fn link(&self, address: &str) -> Option<&ScriptLink>
        ensures { option_copied result ≡ object_there (standing self.now.links address.now) }
    {
        look(&self.links, address)
    }

    /// The sink that stands under a name, as it was put or put back.
    pub fn sink(&self, name: &str) -> Option<&ByteSink>
        ensures { option_copied result ≡ object_there (standing self.now.sinks name.now) }
    {
        look(&self.sinks, name)
    }

    /// The names that it was asked to open for reading, in order; None once one had no room.
    pub fn read_names(&self) -> Option<&[AskedName]>
        ensures { option_map (λ names. names.now) result ≡ self.now.read_names.names }
    {
        self.read_names.names()
    }

    /// The names that it was asked to open for writing, in order; None once one had no room.
    pub fn written_names(&self) -> Option<&[AskedName]>
        ensures { option_map (λ names. names.now) result ≡ self.now.written_names.names }
    {
        self.written_names.names()
    }

    /// The addresses that it was asked to listen at, in order; None once one had no room.
    pub fn listened(&self) -> Option<&[AskedName]>
        ensures { option_map (λ names. names.now) result ≡ self.now.listened.names }
    {
        self.listened.names()
    }

    /// The addresses that it was asked to connect to, in order; None once one had no room.
    pub fn connected(&self) -> Option<&[AskedName]>
        ensures { option_map (λ names. names.now) result ≡ self.now.connected.names }
    {
        self.connected.names()
    }
}

impl Outside for MemoryOutside {
    type In = TextSource;

    type Out = ByteSink;

    type Link = ScriptLink;

    type Listener = ScriptListener;

    type Clock = ScriptClock;

    ghost told = { memory_told };

    fn open_in(&mut self, name: &str) -> Option<TextSource>
        ensures opens { OpensIn (memory_told self.old) (memory_told self.new) name.now
            (option_map text_told result) }
        ensures asked { self.new.read_names ≡ with_name_asked self.old.read_names name.now }
    {
        self.read_names.ask(name);
        let source = open(&mut self.sources, name);
        self.faults = count_fault(self.faults, source.is_none());
        source
    }

    fn close_in(&mut self, source: TextSource) {
        self.faults = count_fault(self.faults, source.faults() > 0);
        close(&mut self.sources, source);
    }

    fn open_out(&mut self, name: &str) -> Option<ByteSink>
        ensures opens { OpensOut (memory_told self.old) (memory_told self.new) name.now
            (option_map byte_told result) }
        ensures asked { self.new.written_names ≡ with_name_asked self.old.written_names name.now }
    {
        self.written_names.ask(name);
        let sink = open(&mut self.sinks, name);
        self.faults = count_fault(self.faults, sink.is_none());
        sink
    }

    fn close_out(&mut self, sink: ByteSink) {
        self.faults = count_fault(self.faults, sink.faults() > 0);
        close(&mut self.sinks, sink);
    }

    fn listen(&mut self, address: &str) -> Option<ScriptListener>
        ensures listens { Listens (memory_told self.old) (memory_told self.new) address.now
            (option_map script_listener_told result) }
        ensures asked { self.new.listened ≡ with_name_asked self.old.listened address.now }
    {
        self.listened.ask(address);
        let listener = open(&mut self.listeners, address);
        self.faults = count_fault(self.faults, listener.is_none());
        listener
    }

    fn close_listener(&mut self, listener: ScriptListener) {
        self.faults = count_fault(self.faults, listener.faults() > 0);
        close(&mut self.listeners, listener);
    }

    fn connect(&mut self, address: &str) -> Option<ScriptLink>
        ensures connects { Connects (memory_told self.old) (memory_told self.new) address.now
            (option_map script_link_told result) }
        ensures asked { self.new.connected ≡ with_name_asked self.old.connected address.now }
    {
        self.connected.ask(address);
        let link = open(&mut self.links, address);
        self.faults = count_fault(self.faults, link.is_none());
        link
    }

    fn close_link(&mut self, link: ScriptLink) {
        self.faults = count_fault(self.faults, link.faults() > 0);
        close(&mut self.links, link);
    }

    fn clock(&mut self) -> Option<ScriptClock> {
        let clock = match &mut self.clock {
            Some(place) => place.take(),
            None => None,
        };
        self.faults = count_fault(self.faults, clock.is_none());
        clock
    }

    fn close_clock(&mut self, clock: ScriptClock) {
        self.faults = count_fault(self.faults, clock.faults() > 0);
        if let Some(place) = &mut self.clock {
            *place = Some(clock);
        }
    }

    fn faults(&self) -> u64 {
        self.faults
    }

    fn note(&self, _words: &str) {}
}
