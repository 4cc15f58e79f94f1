//! Files, standard input and standard output by name, connections by address, and the clock.
ghost use Rattle.std.specs.Prelude.{◌≡◌, ℕ, List, Option, option_map, IfSome, IsSome, IsTrue};
ghost use Rattle.outside.specs.Names.Outside.{OutsideTold, OpensIn, OpensOut, Listens, Connects};
ghost use Rattle.outside_real.specs.Links.{listener_told, link_told};
ghost use Rattle.outside_real.specs.Streams.{source_told, sink_told, outside_told};
ghost use Rattle.outside_real.specs.Streams.{is_standard_stream, is_standard_name};

use crate::boxed_reader::BoxedReader;
use crate::clock::RealClock;
use crate::limits::tell_few_descriptors;
use crate::link::RealLink;
use crate::listener::RealListener;
use crate::named::{NamedStream, StreamName};
use crate::notices::{Notices, short};
use crate::sink::WriteSink;
use crate::source::ReadSource;
use crate::steady_clock::SteadyClock;
use crate::stream::Stream;
use crate::system_clock::SystemClocks;
use crate::tcp::{TcpGate, TcpSocket, is_address};
use outside::links::{Clock, Link, Listener};
use outside::names::Outside;
use outside::{Sink, Source, count_fault};
use std::alloc::Global;
use std::io::{Eprint, Printer};
use std::marker::Model;
use std::net::Net;
use std::rt::Files;
use std::{fs, io, time};

/// What is told of a text that is no address.
const NO_ADDRESS: &str = "an address is an IP address and a port, as 127.0.0.1:102 or [::1]:102";

/// Opens files by their paths, and listens and connects at addresses of TCP such as `127.0.0.1:102`
/// or `[::1]:102`. `-` is standard input or standard output. An output file is made, or emptied.
#[derive(Drop)]
pub struct RealOutside<'a, R> {
    runtime: &'a R,
    alloc: Global,
    faults: u64,
}

impl<'a, R> Model for RealOutside<'a, R> {
    ghost Value = { ℕ };

    ghost view = { λ o. o.faults };
}

impl<'a, R> RealOutside<'a, R> {
    /// The outside of a runtime, with no faults so far.
    pub fn new(alloc: Global, runtime: &'a R) -> Self
        ensures { result ≡ 0 }
    {
        RealOutside {
            runtime,
            alloc,
            faults: 0,
        }
    }
}

impl<'a, R: Files + Input + Print + Eprint + Net + time::Clock + Copy> Outside
    for RealOutside<'a, R> {
    type In = ReadSource<NamedStream<BoxedReader<R::Reader>, R::File, R>>;

    type Out = WriteSink<NamedStream<Printer<'a, R>, R::File, R>>;

    type Link = RealLink<TcpSocket<R>>;

    type Listener = RealListener<TcpGate<R>>;

    type Clock = RealClock<SteadyClock<SystemClocks<R>>>;

    ghost told = { outside_told };

    fn open_in(
        &mut self,
        name: &str,
    ) -> Option<ReadSource<NamedStream<BoxedReader<R::Reader>, R::File, R>>>
        ensures opens { OpensIn (outside_told self.old) (outside_told self.new) name.now
            (option_map (λ source. source_told source.1) result) }
        ensures stream { IfSome result (λ source. is_standard_stream source.0
            ≡ is_standard_name name.now) }
        ensures standard { IsTrue (is_standard_name name.now) → IsSome result }
    {
        let stream = input(self.runtime, self.alloc, name);
        self.faults = count_fault(self.faults, stream.is_none());
        Some(ReadSource::new(stream?))
    }

    fn close_in(&mut self, source: ReadSource<NamedStream<BoxedReader<R::Reader>, R::File, R>>) {
        self.faults = count_fault(self.faults, source.faults() > 0);
    }

    fn open_out(&mut self, name: &str) -> Option<WriteSink<NamedStream<Printer<'a, R>, R::File, R>>>
        ensures opens { OpensOut (outside_told self.old) (outside_told self.new) name.now
            (option_map (λ sink. sink_told sink.1) result) }
        ensures stream { IfSome result (λ sink. is_standard_stream sink.0
            ≡ is_standard_name name.now) }
        ensures standard { IsTrue (is_standard_name name.now) → IsSome result }
    {
        let stream = output(self.runtime, self.alloc, name);
        self.faults = count_fault(self.faults, stream.is_none());
        Some(WriteSink::new(stream?))
    }

    fn close_out(&mut self, sink: WriteSink<NamedStream<Printer<'a, R>, R::File, R>>) {
        self.faults = count_fault(self.faults, sink.faults() > 0);
    }

    fn listen(&mut self, address: &str) -> Option<RealListener<TcpGate<R>>>
        ensures listens { Listens (outside_told self.old) (outside_told self.new) address.now
            (option_map (λ listener. listener_told listener.1) result) }
    {
        let outcome = TcpGate::listen(*self.runtime, address);
        match &outcome {
            Ok(_) => {
                let notices = Notices::new(*self.runtime);
                let shown = short(address);
                tell_few_descriptors(&notices);
                notices.tell(format_args!("listening at {shown}"));
            }
            Err(error) => tell_unusable(*self.runtime, "listen at", address, error),
        }
        let listener = outcome.ok();
        self.faults = count_fault(self.faults, listener.is_none());
        listener
    }

    fn close_listener(&mut self, listener: RealListener<TcpGate<R>>) {
        self.faults = count_fault(self.faults, listener.faults() > 0);
        let notices = Notices::new(*self.runtime);
        if listener.faults() > 0 {
            notices.tell("the listener failed");
        }
        notices.tell("listening no more");
    }

    fn connect(&mut self, address: &str) -> Option<RealLink<TcpSocket<R>>>
        ensures connects { Connects (outside_told self.old) (outside_told self.new) address.now
            (option_map (λ link. link_told link.is_closed link.faults) result) }
    {
        let outcome = TcpSocket::connect(*self.runtime, address);
        if let Err(error) = &outcome {
            tell_unusable(*self.runtime, "connect to", address, error);
        }
        let link = outcome.ok();
        self.faults = count_fault(self.faults, link.is_none());
        link
    }

    fn close_link(&mut self, link: RealLink<TcpSocket<R>>) {
        self.faults = count_fault(self.faults, link.faults() > 0);
    }

    fn clock(&mut self) -> Option<RealClock<SteadyClock<SystemClocks<R>>>> {
        let clocks = SystemClocks::new(*self.runtime);
        Some(RealClock::new(SteadyClock::new(clocks)))
    }

    fn close_clock(&mut self, clock: RealClock<SteadyClock<SystemClocks<R>>>) {
        self.faults = count_fault(self.faults, clock.faults() > 0);
    }

    fn faults(&self) -> u64 {
        self.faults
    }

    fn note(&self, words: &str) {
        Notices::new(*self.runtime).tell(short(words));
    }
}

// Lets an operator know that an address can't be used so, and why.
fn tell_unusable<R: Eprint + time::Clock + Copy>(
    runtime: R,
    attempt: &str,
    address: &str,
    error: &io::Error,
) {
    let notices = Notices::new(runtime);
    let shown = short(address);
    if is_address(address) {
        notices.tell(format_args!("can't {attempt} {shown}: {error}"));
    } else {
        notices.tell(format_args!("can't {attempt} {shown}: {NO_ADDRESS}"));
    }
}

// What is read under a name: None only where the file of that name can't be opened.
fn input<R: Files + Input + Eprint + time::Clock + Copy>(
    runtime: &R,
    alloc: Global,
    name: &str,
) -> Option<NamedStream<BoxedReader<R::Reader>, R::File, R>>
    ensures stream { IfSome result (λ stream. is_standard_stream stream
        ≡ is_standard_name name.now) }
    ensures standard { IsTrue (is_standard_name name.now) → IsSome result }
{
    if is_standard(name) {
        let reader = BoxedReader::new(alloc, runtime.reader());
        let stream = Stream::Standard(reader);
        return Some(NamedStream::new(*runtime, StreamName::Input, stream));
    }
    let file = opened(*runtime, name, fs::open(runtime, name))?;
    let named = StreamName::file(alloc, name);
    Some(NamedStream::new(*runtime, named, Stream::File(file)))
}

// What is written under a name: None only where the file of that name can't be made.
fn output<'a, R: Files + Print + Eprint + time::Clock + Copy>(
    runtime: &'a R,
    alloc: Global,
    name: &str,
) -> Option<NamedStream<Printer<'a, R>, R::File, R>>
    ensures stream { IfSome result (λ stream. is_standard_stream stream
        ≡ is_standard_name name.now) }
    ensures standard { IsTrue (is_standard_name name.now) → IsSome result }
{
    if is_standard(name) {
        let stream = Stream::Standard(io::writer(runtime));
        return Some(NamedStream::new(*runtime, StreamName::Output, stream));
    }
    let file = opened(*runtime, name, fs::create(runtime, name))?;
    let named = StreamName::file(alloc, name);
    Some(NamedStream::new(*runtime, named, Stream::File(file)))
}

// The file that was opened. Where it wasn't, an operator is told why.
fn opened<R: Eprint + time::Clock + Copy, F>(
    runtime: R,
    name: &str,
    outcome: io::Result<F>,
) -> Option<F> {
    match outcome {
        Ok(file) => Some(file),
        Err(error) => {
            let shown = short(name);
            Notices::new(runtime).tell(format_args!("can't open {shown}: {error}"));
            None
        }
    }
}

// Whether a name is that of a standard stream.
fn is_standard(name: &str) -> bool
    ensures { result ≡ is_standard_name name.now }
{
    name == "-"
}
