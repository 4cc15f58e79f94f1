//! A runtime whose clocks show what a test sets, and whose notices go nowhere.
use std::cell::Cell;
use std::fmt::Display;
use std::io;
use std::io::Eprint;
use std::net::{Net, SocketAddr};
use std::time::{Clock, Duration};

/// The network of a runtime, with clocks that stand at so many seconds.
#[derive(Clone, Copy)]
pub(crate) struct Leaping<'a, R> {
    pub(crate) host: R,
    pub(crate) seconds: &'a Cell<u64>,
}

impl<'a, R> Clock for Leaping<'a, R> {
    fn monotonic(&self) -> io::Result<Duration> {
        Ok(Duration::from_secs(self.seconds.get()))
    }

    fn since_1970(&self) -> io::Result<Duration> {
        Ok(Duration::from_secs(self.seconds.get()))
    }
}

impl<'a, R: Net> Net for Leaping<'a, R> {
    type Stream = R::Stream;

    type Listener = R::Listener;

    fn bind(&self, addr: SocketAddr) -> io::Result<R::Listener> {
        self.host.bind(addr)
    }

    fn connect(&self, addr: SocketAddr) -> io::Result<R::Stream> {
        self.host.connect(addr)
    }
}

impl<'a, R> Eprint for Leaping<'a, R> {
    fn eprint<D: Display + Drop>(&self, _value: D) -> io::Result<()> {
        Ok(())
    }

    fn eprintln<D: Display + Drop>(&self, _value: D) -> io::Result<()> {
        Ok(())
    }
}
