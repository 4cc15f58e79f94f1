//! Connections of TCP, over IPv4 and IPv6.
ghost use Rattle.std.specs.Prelude.{⊤, ◌≡◌, IfOk};
ghost use Rattle.std.specs.Io.{ReadsAtMost, WritesAtMost};
ghost use Rattle.outside_real.specs.RealLinks.{RealLinkState, new_real_link};

use crate::gate::{AcceptAttempt, is_hindrance, is_no_arrival};
use crate::link::RealLink;
use crate::listener::RealListener;
use crate::notices::{Notices, short};
use crate::options::set_options;
use crate::socket::{SocketAttempt, would_wait};
use crate::stream::is_interrupted;
use crate::system_clock::millis_between;
use crate::turns::{Turn, notice_due};
use libc::net::{POLLIN, POLLOUT, poll};
use libc::types::pollfd;
use mio::net::{TcpListener, TcpStream};
use std::io::{Eprint, ErrorKind, Read, Write};
use std::net::{Net, Shutdown, SocketAddr};
use std::os::fd::AsRawFd;
use std::time::{Clock, Duration, Instant};
use std::{io, thread};

/// How long a call waits at most for the other node, in milliseconds.
const WAIT: i32 = 200;

/// How long it waits while no connection can be had, in milliseconds.
const HINDERED_WAIT: u64 = 200;

/// How long a connection may take to come about, in milliseconds.
const CONNECT_WAIT: i32 = 5000;

const _: () = prove!(WAIT == 200);

const _: () = prove!(HINDERED_WAIT == 200);

const _: () = prove!(CONNECT_WAIT == 5000);

/// How many octets at most are read away of a connection that is closed: pieces, and a piece.
const MOST_PIECES: u32 = 512;

const PIECE: usize = 16_384;

const _: () = prove!(MOST_PIECES == 512);

const _: () = prove!(PIECE == 16_384);

// Waits until a descriptor may be ready for these events, or so many milliseconds are up. It
// answers false where it couldn't wait.
fn wait_for<S: AsRawFd>(source: &S, events: i16, limit: i32) -> bool {
    let mut asked = [pollfd {
        fd: source.as_raw_fd(),
        events,
        revents: 0,
    }];
    poll(&mut asked, limit) >= 0
}

// Ends both directions and gives the descriptor back. What was written before still goes out:
// octets that stand unread are read away before, since a connection that is closed with some is
// reset, by which the other node may lose what was last sent.
fn close(mut stream: TcpStream) {
    // A connection that the other node has ended can't be shut down.
    let _result = stream.shutdown(Shutdown::Write);
    let mut unread = [0u8; PIECE];
    for _piece in 0..MOST_PIECES {
        match stream.read(&mut unread) {
            Ok(count) if count > 0 => {}
            _ => return,
        }
    }
}

/// A connection, of one descriptor. It waits 200 milliseconds at most. Once it is shut its
/// descriptor is given back: a read is then at the end, and a write fails.
#[derive(Drop)]
pub struct TcpSocket<R> {
    /// None once it was shut.
    stream: Option<TcpStream>,
    runtime: R,
    /// The other node's.
    address: SocketAddr,
    /// When it was accepted; none where it wasn't accepted but made.
    accepted: Option<Instant>,
    /// Whether it was ever read.
    was_asked: bool,
}

impl<R: Net + Clock + Eprint + Copy> TcpSocket<R> {
    /// A link to the node at an address such as `127.0.0.1:102` or `[::1]:102`, which may be silent
    /// for as long as it likes, while its system answers. An error: the text is no such address, no
    /// node has taken the connection within five seconds, the connection's options can't be set, or
    /// no memory or descriptor is left.
    pub fn connect(runtime: R, address: &str) -> io::Result<RealLink<TcpSocket<R>>>
        ensures { IfOk result (λ link. link ≡ new_real_link link.socket) }
    {
        let address = socket_address(address)?;
        let stream = TcpStream::connect(&runtime, address)?;
        wait_for_node(&stream)?;
        let socket = TcpSocket::new(runtime, stream, address, None)?;
        Ok(RealLink::new(socket))
    }

    // A connection that stands. An error: its options can't be set.
    fn new(
        runtime: R,
        stream: TcpStream,
        address: SocketAddr,
        accepted: Option<Instant>,
    ) -> io::Result<TcpSocket<R>> {
        set_options(&stream)?;
        Ok(TcpSocket {
            stream: Some(stream),
            runtime,
            address,
            accepted,
            was_asked: false,
        })
    }
}

// Waits until a connection that was begun stands. An error: it failed, or the time is up.
fn wait_for_node(stream: &TcpStream) -> io::Result<()> {
    wait_for(stream, POLLOUT, CONNECT_WAIT);
    if let Some(error) = stream.take_error()? {
        return Err(error);
    }
    let _node = stream.peer_addr()?;
    Ok(())
}

/// Whether a text is an address such as `127.0.0.1:102` or `[::1]:102`.
pub(crate) fn is_address(text: &str) -> bool {
    text.parse::<SocketAddr>().is_ok()
}

// The address that a text such as `127.0.0.1:102` or `[::1]:102` is.
fn socket_address(text: &str) -> io::Result<SocketAddr> {
    match text.parse::<SocketAddr>() {
        Ok(address) => Ok(address),
        Err(_fault) => Err(io::Error::from(ErrorKind::InvalidInput)),
    }
}

impl<R: Clock + Eprint + Copy> SocketAttempt for TcpSocket<R> {
    ghost reads = { λ before outcome after. ReadsAtMost outcome after.1 };

    ghost writes = { λ piece before outcome after. WritesAtMost outcome piece };

    // The system says nothing of waits, times and ends.
    ghost waits = { λ before could after. ⊤ };

    ghost ages = { λ socket age. ⊤ };

    ghost shuts = { λ before after. ⊤ };

    fn attempt_read(&mut self, buf: &mut [u8]) -> io::Result<usize> {
        self.was_asked = true;
        let outcome = match &mut self.stream {
            Some(stream) => stream.read(buf),
            None => Ok(0),
        };
        if let Err(error) = &outcome {
            tell_fault(self.runtime, "receiving from", self.address, error);
        }
        outcome
    }

    fn attempt_write(&mut self, piece: &[u8]) -> io::Result<usize> {
        let outcome = match &mut self.stream {
            Some(stream) => stream.write(piece),
            None => Err(io::Error::from(ErrorKind::NotConnected)),
        };
        if let Err(error) = &outcome {
            tell_fault(self.runtime, "sending to", self.address, error);
        }
        outcome
    }

    fn wait(&mut self) -> bool {
        match &self.stream {
            Some(stream) => wait_for(stream, POLLIN, WAIT),
            None => false,
        }
    }

    fn age(&self) -> Option<u64> {
        let Some(accepted) = self.accepted else {
            return Some(0);
        };
        let Ok(now) = Instant::now(&self.runtime) else {
            Notices::new(self.runtime).tell("the clock can't be read");
            return None;
        };
        millis_between(accepted, now)
    }

    fn shut(&mut self) {
        let Some(stream) = self.stream.take() else {
            return;
        };
        close(stream);
        if self.accepted.is_some() && !self.was_asked {
            let address = self.address;
            let notices = Notices::new(self.runtime);
            notices.tell(format_args!("turned the connection from {address} away"));
        }
    }

    fn note(&self, words: &str) {
        let address = self.address;
        let shown = short(words);
        Notices::new(self.runtime).tell(format_args!("{address}: {shown}"));
    }
}

// Tells that a call at a connection failed, and not that it would have had to wait or that a signal
// interrupted it.
fn tell_fault<R: Clock + Eprint + Copy>(
    runtime: R,
    what: &str,
    address: SocketAddr,
    error: &io::Error,
) {
    if !would_wait(error) && !is_interrupted(error) {
        Notices::new(runtime).tell(format_args!("{what} {address} failed: {error}"));
    }
}

/// Accepts connections at one address. It waits 200 milliseconds at most.
#[derive(Drop)]
pub struct TcpGate<R> {
    listener: TcpListener,
    runtime: R,
    /// Whether there is a hindrance, of which an operator was told. It is over once an attempt
    /// finds that no connection stands there.
    is_hindered: bool,
}

impl<R: Net + Clock + Eprint + Copy> TcpGate<R> {
    /// Listens at an address such as `127.0.0.1:102` or `[::1]:102`, with `SO_REUSEADDR`; at port 0
    /// the system chooses the port. An error: the text is no such address, the port is in use or
    /// isn't allowed, or no memory or descriptor is left.
    pub fn listen(runtime: R, address: &str) -> io::Result<RealListener<TcpGate<R>>>
        ensures { IfOk result (λ listener. listener.1 ≡ 0) }
    {
        let listener = TcpListener::bind(&runtime, socket_address(address)?)?;
        Ok(RealListener::new(TcpGate {
            listener,
            runtime,
            is_hindered: false,
        }))
    }

    /// The address at which it listens.
    pub fn address(&self) -> io::Result<SocketAddr> {
        self.listener.local_addr()
    }

    // Keeps whether there is a hindrance, and tells as it begins and as it is over.
    fn keep_hindrance(&mut self, hindrance: Option<&io::Error>) {
        let notices = Notices::new(self.runtime);
        match notice_due(self.is_hindered, hindrance.is_some()) {
            Some(Turn::Begins) => {
                if let Some(error) = hindrance {
                    notices.tell(format_args!("connections can't be accepted for now: {error}"));
                }
            }
            Some(Turn::Ends) => notices.tell("connections can be accepted again"),
            None => {}
        }
        self.is_hindered = hindrance.is_some();
    }

    // A connection that came, from where and when. A clock that can't be read leaves it there.
    fn arrive(&self) -> io::Result<(TcpStream, SocketAddr, Instant)> {
        let now = Instant::now(&self.runtime)?;
        let (stream, from) = self.listener.accept()?;
        Ok((stream, from, now))
    }

    // A connection that came. Where its options can't be set, it is closed, and is no arrival.
    fn take(
        &mut self,
        stream: TcpStream,
        from: SocketAddr,
        now: Instant,
    ) -> io::Result<TcpSocket<R>> {
        match TcpSocket::new(self.runtime, stream, from, Some(now)) {
            Ok(socket) => {
                Notices::new(self.runtime).tell(format_args!("accepted a connection from {from}"));
                Ok(socket)
            }
            Err(error) => {
                self.keep_hindrance(Some(&error));
                Err(io::Error::from(ErrorKind::ConnectionAborted))
            }
        }
    }

    // Tells what hinders an accept, or what fails it.
    fn tell_refusal(&mut self, error: &io::Error) {
        if is_hindrance(error) {
            self.keep_hindrance(Some(error));
        } else if would_wait(error) {
            self.keep_hindrance(None);
        } else if !is_no_arrival(error) {
            Notices::new(self.runtime).tell(format_args!(
                "a connection can't be accepted: {error}"
            ));
        }
    }
}

impl<R: Net + Clock + Eprint + Copy> AcceptAttempt for TcpGate<R> {
    type Socket = TcpSocket<R>;

    // The system says nothing of who connects.
    ghost accepts = { λ before outcome after. ⊤ };

    ghost waits = { λ before could after. ⊤ };

    fn attempt_accept(&mut self) -> io::Result<TcpSocket<R>> {
        match self.arrive() {
            Ok((stream, from, now)) => self.take(stream, from, now),
            Err(error) => {
                self.tell_refusal(&error);
                Err(error)
            }
        }
    }

    fn wait(&mut self) -> bool {
        if self.is_hindered {
            // connections that stand before the listener would end a wait for one at once
            thread::sleep(&self.runtime, Duration::from_millis(HINDERED_WAIT));
            return true;
        }
        wait_for(&self.listener, POLLIN, WAIT)
    }
}
