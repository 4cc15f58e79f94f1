//! Attempts at accepting, and what several of them come to.
ghost use Rattle.std.specs.Prelude.{◌≡◌, Bool, Option, Result, IsTrue, ◌↔◌};
ghost use Rattle.std.specs.declared.io.Error.{Error};
ghost use Rattle.outside_real.specs.AcceptAttempts.{ArriveAs, AcceptedTwice, HasNumber};
ghost use Rattle.outside_real.specs.AcceptAttempts.{IsWant, IsOfOne, IsHindrance, IsNoArrival};

use crate::socket::SocketAttempt;
use libc::EMFILE;
use std::io;
use std::io::ErrorKind;

/// The numbers of Linux's errors that the kit doesn't name.
const ENFILE: i32 = 23;

const ENONET: i32 = 64;

const EPROTO: i32 = 71;

const ENOPROTOOPT: i32 = 92;

const EOPNOTSUPP: i32 = 95;

const ENETDOWN: i32 = 100;

const ENETUNREACH: i32 = 101;

const ENOBUFS: i32 = 105;

const EHOSTDOWN: i32 = 112;

const EHOSTUNREACH: i32 = 113;

const _: () = prove!(EMFILE == 24);

/// What accepts connections and never waits. Each ghost member says what an attempt may come to,
/// and what it leaves of the object.
pub trait AcceptAttempt {
    type Socket: SocketAttempt + Drop;

    /// An attempt at accepting.
    ghost accepts: { Self → Result Self.Socket Error → Self → Type 0 };

    /// A wait, and whether it could be made.
    ghost waits: { Self → Bool → Self → Type 0 };

    /// One attempt at accepting a connection.
    fn attempt_accept(&mut self) -> io::Result<Self::Socket>
        ensures { accepts self.old result self.new };

    /// Waits until there may be a connection, for some time at most. It answers false where it
    /// couldn't wait.
    fn wait(&mut self) -> bool
        ensures { waits self.old result self.new };
}

/// What an attempt at accepting came to.
#[derive(Drop)]
pub(crate) enum Arrival<S> {
    Came(S),
    /// No node has connected.
    NotYet,
    Failed,
}

// Accepts a connection. Where none has come, it waits, and tries once more.
pub(crate) fn accept_twice<T: AcceptAttempt>(gate: &mut T) -> Arrival<T::Socket>
    ensures { AcceptedTwice T.accepts T.waits gate.old gate.new result }
{
    match try_accept(gate) {
        Arrival::NotYet => {}
        first => return first,
    }
    if !gate.wait() {
        return Arrival::Failed;
    }
    try_accept(gate)
}

// One attempt at accepting.
fn try_accept<T: AcceptAttempt>(gate: &mut T) -> Arrival<T::Socket>
    ensures { ArriveAs T.accepts gate.old result gate.new }
{
    match gate.attempt_accept() {
        Ok(socket) => Arrival::Came(socket),
        Err(error) => {
            if is_no_arrival(&error) {
                return Arrival::NotYet;
            }
            Arrival::Failed
        }
    }
}

// Whether an error says that there is no connection now: none has come, a signal interrupted it,
// the node that had connected has gone, or there is a hindrance.
pub(crate) fn is_no_arrival(error: &io::Error) -> bool
    ensures { IsTrue result ↔ IsNoArrival error.now }
{
    let kind = error.kind();
    kind == ErrorKind::WouldBlock
        || kind == ErrorKind::Interrupted
        || kind == ErrorKind::ConnectionAborted
        || is_hindrance(error)
}

// Whether an error says that a connection can't be had for now, though the listener is whole.
pub(crate) fn is_hindrance(error: &io::Error) -> bool
    ensures { IsTrue result ↔ IsHindrance error.now }
{
    is_want(error) || is_of_one(error)
}

// Whether an error says that no descriptor or no memory is left.
fn is_want(error: &io::Error) -> bool
    ensures { IsTrue result ↔ IsWant error.now }
{
    error.kind() == ErrorKind::OutOfMemory
        || has_number(error, EMFILE)
        || has_number(error, ENFILE)
        || has_number(error, ENOBUFS)
}

// Whether an error is about the network of the one connection that was to be accepted.
fn is_of_one(error: &io::Error) -> bool
    ensures { IsTrue result ↔ IsOfOne error.now }
{
    has_number(error, ENETDOWN)
        || has_number(error, EPROTO)
        || has_number(error, ENOPROTOOPT)
        || has_number(error, EHOSTDOWN)
        || has_number(error, ENONET)
        || has_number(error, EHOSTUNREACH)
        || has_number(error, EOPNOTSUPP)
        || has_number(error, ENETUNREACH)
}

// Whether the system gave this number of an error.
fn has_number(error: &io::Error, number: i32) -> bool
    ensures { IsTrue result ↔ HasNumber error.now number }
{
    error.raw_os_error() == Some(number)
}
