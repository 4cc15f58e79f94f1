//! Anything that can be written to, as a sink.
ghost use Rattle.std.specs.Prelude.{◌≡◌, ℕ, ◌<◌, ◌≤◌, List, Option, IfSome, length};
ghost use Rattle.outside.specs.Sink.{SinkTold, Writes};
ghost use Rattle.outside_real.specs.Attempts.{Attempted, WriteAttempted};
ghost use Rattle.outside_real.specs.Streams.{sink_told};

use crate::TRIES;
use crate::stream::{WriteAttempt, is_interrupted};
use outside::{Sink, WriteEnd};
use std::marker::Model;

/// A sink that tells its faults alone. Each write goes straight out. One that fails, that takes
/// nothing, or that signals interrupt too often, is a fault.
#[derive(Drop)]
pub struct WriteSink<T> {
    output: T,
    faults: u64,
}

// What contracts see: the output, and the count of faults.
impl<T> Model for WriteSink<T> {
    ghost Value = { T × ℕ };

    ghost view = { λ s. (s.output, s.faults) };
}

impl<T> WriteSink<T> {
    /// A sink with no faults so far.
    pub fn new(output: T) -> Self
        ensures { result ≡ (output, 0) }
    {
        WriteSink { output, faults: 0 }
    }
}

impl<T: WriteAttempt> Sink for WriteSink<T> {
    ghost told = { λ s. sink_told s.1 };

    fn write(&mut self, piece: &[u8]) -> WriteEnd
        requires { 0 < length piece.now }
        ensures writes { Writes (sink_told self.old.1) (sink_told self.new.1) result piece.now }
        ensures attempts { WriteAttempted (T.attempt piece.now) self.old.0 self.new.0 result }
    {
        match try_write(&mut self.output, piece) {
            Some(count) if count > 0 => WriteEnd::Took(count),
            _ => {
                self.faults = self.faults.saturating_add(1);
                WriteEnd::Failed
            }
        }
    }

    fn faults(&self) -> u64 {
        self.faults
    }
}

// How many octets were written; None where it failed.
fn try_write<T: WriteAttempt>(to: &mut T, piece: &[u8]) -> Option<usize>
    ensures bound { IfSome result (λ count. count ≤ length piece.now) }
    ensures attempts { Attempted (T.attempt piece.now) to.old to.new result }
{
    for _round in 0..TRIES {
        match to.attempt_write(piece) {
            Ok(count) => return Some(count),
            Err(error) => {
                if !is_interrupted(&error) {
                    return None;
                }
            }
        }
    }
    None
}
