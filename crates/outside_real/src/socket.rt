//! Attempts at a connection that never waits, and what several of them come to.
ghost use Rattle.std.specs.Prelude.{◌≡◌, Bool, ℕ, ◌<◌, ◌≤◌, List, Option, Result};
ghost use Rattle.std.specs.Prelude.{IfOk, length, ◌↔◌, IsTrue};
ghost use Rattle.std.specs.IoError.{error_kind};
ghost use Rattle.std.specs.declared.io.Error.{Error};
ghost use Rattle.outside.specs.Links.Links.{IsRecvCount, IsSendCount};
ghost use Rattle.outside_real.specs.LinkAttempts.{FailsAs, CameTo, IsCount, ReadTwice, Received};
ghost use Rattle.outside_real.specs.LinkAttempts.{Sent};

use crate::TRIES;
use crate::stream::is_interrupted;
use outside::WriteEnd;
use outside::links::Recv;
use std::io;
use std::io::ErrorKind;

/// From this age on a link that gave no octet is at its end, in milliseconds.
pub const SILENCE_LIMIT: u64 = 30_000;

const _: () = prove!(SILENCE_LIMIT == 30_000);

/// A connection whose reads and writes never wait. Each ghost member says what an attempt may come
/// to, and what it leaves of the object.
pub trait SocketAttempt {
    /// An attempt at reading, with the buffer.
    ghost reads: { Self × List ℕ → Result ℕ Error → Self × List ℕ → Type 0 };

    /// An attempt at writing a piece.
    ghost writes: { List ℕ → Self → Result ℕ Error → Self → Type 0 };

    /// A wait, and whether it could be made.
    ghost waits: { Self → Bool → Self → Type 0 };

    /// Its age in milliseconds; none where the time can't be read.
    ghost ages: { Self → Option ℕ → Type 0 };

    /// Its end in both directions.
    ghost shuts: { Self → Self → Type 0 };

    /// One attempt at reading. No octets are the end.
    fn attempt_read(&mut self, buf: &mut [u8]) -> io::Result<usize>
        ensures bound { IfOk result (λ count. count ≤ length buf.new) }
        ensures reads { reads (self.old, buf.old) result (self.new, buf.new) };

    /// One attempt at writing.
    fn attempt_write(&mut self, piece: &[u8]) -> io::Result<usize>
        ensures bound { IfOk result (λ count. count ≤ length piece.now) }
        ensures writes { writes piece.now self.old result self.new };

    /// Waits until there may be something to read, for some time at most. It answers false where it
    /// couldn't wait.
    fn wait(&mut self) -> bool
        ensures { waits self.old result self.new };

    /// How many milliseconds ago it was accepted; 0 where it wasn't. None: the time can't be read.
    fn age(&self) -> Option<u64>
        ensures { ages self.now result };

    /// Ends both directions. Octets that were written before still go out.
    fn shut(&mut self)
        ensures { shuts self.old self.new };

    /// Lets an operator know what became of it, under the other node's address.
    fn note(&self, words: &str);
}

/// What an attempt came to that no signal interrupted.
#[derive(Clone, Copy)]
pub(crate) enum Attempt {
    /// So many octets.
    Came(usize),
    /// It would have had to wait.
    NotYet,
    Failed,
}

// Reads what has come. Where nothing has, it waits, and reads once more.
pub(crate) fn receive<T: SocketAttempt>(from: &mut T, buf: &mut [u8], was_heard: bool) -> Recv
    requires { 0 < length buf.old }
    ensures count { IsRecvCount result (length buf.new) }
    ensures attempts { Received T.reads T.waits T.ages was_heard (from.old, buf.old)
        (from.new, buf.new) result }
{
    match read_twice(from, buf) {
        Attempt::Came(0) => Recv::End,
        Attempt::Came(count) => Recv::Got(count),
        Attempt::Failed => Recv::Failed,
        Attempt::NotYet if was_heard => Recv::Idle,
        Attempt::NotYet => match from.age() {
            None => Recv::Failed,
            Some(age) if age < SILENCE_LIMIT => Recv::Idle,
            Some(_age) => Recv::End,
        },
    }
}

// Two attempts at reading with a wait between, where the first would have had to wait.
fn read_twice<T: SocketAttempt>(from: &mut T, buf: &mut [u8]) -> Attempt
    ensures bound { IsCount result (length buf.new) }
    ensures attempts { ReadTwice T.reads T.waits (from.old, buf.old) (from.new, buf.new) result }
{
    match try_read(from, buf) {
        Attempt::NotYet => {}
        first => return first,
    }
    if !from.wait() {
        return Attempt::Failed;
    }
    try_read(from, buf)
}

// One attempt at reading that no signal interrupts.
fn try_read<T: SocketAttempt>(from: &mut T, buf: &mut [u8]) -> Attempt
    ensures bound { IsCount result (length buf.new) }
    ensures attempts { CameTo T.reads (from.old, buf.old) result (from.new, buf.new) }
{
    for _round in 0..TRIES {
        match from.attempt_read(buf) {
            Ok(count) => return Attempt::Came(count),
            Err(error) => {
                if !is_interrupted(&error) {
                    return failed_as(&error);
                }
            }
        }
    }
    Attempt::Failed
}

// Writes what goes out at once.
pub(crate) fn send<T: SocketAttempt>(to: &mut T, piece: &[u8]) -> WriteEnd
    ensures count { IsSendCount result (length piece.now) }
    ensures attempts { Sent (T.writes piece.now) to.old to.new result }
{
    match try_write(to, piece) {
        Attempt::Came(count) => WriteEnd::Took(count),
        Attempt::NotYet => WriteEnd::Took(0),
        Attempt::Failed => WriteEnd::Failed,
    }
}

// One attempt at writing that no signal interrupts.
fn try_write<T: SocketAttempt>(to: &mut T, piece: &[u8]) -> Attempt
    ensures bound { IsCount result (length piece.now) }
    ensures attempts { CameTo (T.writes piece.now) to.old result to.new }
{
    for _round in 0..TRIES {
        match to.attempt_write(piece) {
            Ok(count) => return Attempt::Came(count),
            Err(error) => {
                if !is_interrupted(&error) {
                    return failed_as(&error);
                }
            }
        }
    }
    Attempt::Failed
}

// What an error says.
fn failed_as(error: &io::Error) -> Attempt
    ensures { FailsAs error.now result }
{
    if would_wait(error) {
        return Attempt::NotYet;
    }
    Attempt::Failed
}

// Whether an attempt would have had to wait.
pub(crate) fn would_wait(error: &io::Error) -> bool
    ensures { IsTrue result ↔ (error_kind error.now ≡ ErrorKind.WouldBlock) }
{
    error.kind() == ErrorKind::WouldBlock
}
