//! A sink of octets.
ghost use Rattle.std.specs.Prelude.{◌≡◌, ℕ, ◌<◌, ◌≤◌, length, take, is_err, OnOk};
ghost use Rattle.outside.specs.Sink.{SinkTold, Writes, Appends, WritesAll};

use std::error::Error;
use std::fmt;

/// How a write ended.
#[derive(Clone, Copy, Debug, PartialEq, Eq)]
pub enum WriteEnd {
    /// So many octets were taken, from the front of the piece.
    Took(usize),
    /// A fault, which was counted. Nothing was taken.
    Failed,
}

/// Octets that go outside, such as a file or standard output. After a fault no write should come.
pub trait Sink {
    /// What it tells of its octets, its calls and its faults.
    ghost told: { Self → SinkTold };

    /// Takes at least one octet from the front of the piece.
    fn write(&mut self, piece: &[u8]) -> WriteEnd
        requires { 0 < length piece.now }
        ensures { Writes (told self.old) (told self.new) result piece.now };

    /// The number of faults so far. It stands still at the type's end.
    fn faults(&self) -> u64
        ensures { result ≡ (told self.now).faults };
}

/// A sink failed; its count of faults rose.
#[derive(Clone, Copy, Debug, PartialEq, Eq)]
pub struct SinkFailed;

impl fmt::Display for SinkFailed {
    fn fmt<W: fmt::Write>(&self, f: &mut fmt::Formatter<W>) -> fmt::Result {
        write!(f, "an output failed")
    }
}

impl Error for SinkFailed {}

/// Writes all octets, in as many writes as the sink wants. A write that fails is the last. It takes
/// no memory.
pub fn write_all<S: Sink>(sink: &mut S, bytes: &[u8]) -> Result<(), SinkFailed>
    ensures { WritesAll (S.told sink.old) (S.told sink.new) bytes.now result }
{
    let (_sent, end) = write_front(sink, bytes);
    end
}

// Writes all octets, up to a write that fails, and answers how many went out.
pub(crate) fn write_front<S: Sink>(sink: &mut S, bytes: &[u8]) -> (usize, Result<(), SinkFailed>)
    ensures within { result.0 ≤ length bytes.now }
    ensures whole { OnOk result.1 (result.0 ≡ length bytes.now) }
    ensures front { Appends (S.told sink.old) (S.told sink.new) (take result.0 bytes.now)
        (is_err result.1) }
{
    let mut sent = 0;
    while sent < bytes.len() {
        match sink.write(&bytes[sent..]) {
            WriteEnd::Took(count) => sent += count,
            WriteEnd::Failed => return (sent, Err(SinkFailed)),
        }
    }
    (sent, Ok(()))
}
