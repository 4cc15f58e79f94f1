//! Anything that can be read, as a source.
ghost use Rattle.std.specs.Prelude.{◌≡◌, ℕ, ◌<◌, ◌≤◌, List, Option, IfSome, length};
ghost use Rattle.outside.specs.Source.{SourceTold, ReadsSource};
ghost use Rattle.outside_real.specs.Attempts.{Attempted, ReadAttempted};
ghost use Rattle.outside_real.specs.Streams.{source_told};

use crate::TRIES;
use crate::stream::{ReadAttempt, is_interrupted};
use outside::{ReadEnd, Source};
use std::marker::Model;

/// A source that tells its faults alone. A read that fails, or that signals interrupt too often, is
/// a fault.
#[derive(Drop)]
pub struct ReadSource<T> {
    input: T,
    faults: u64,
}

// What contracts see: the input, and the count of faults.
impl<T> Model for ReadSource<T> {
    ghost Value = { T × ℕ };

    ghost view = { λ s. (s.input, s.faults) };
}

impl<T> ReadSource<T> {
    /// A source with no faults so far.
    pub fn new(input: T) -> Self
        ensures { result ≡ (input, 0) }
    {
        ReadSource { input, faults: 0 }
    }
}

impl<T: ReadAttempt> Source for ReadSource<T> {
    ghost told = { λ s. source_told s.1 };

    fn read(&mut self, buf: &mut [u8]) -> ReadEnd
        requires { 0 < length buf.old }
        ensures reads { ReadsSource (source_told self.old.1)
            (source_told self.new.1) result buf.new }
        ensures attempts { ReadAttempted T.attempt (self.old.0, buf.old)
            (self.new.0, buf.new) result }
    {
        match try_read(&mut self.input, buf) {
            Some(0) => ReadEnd::End,
            Some(count) => ReadEnd::Got(count),
            None => {
                self.faults = self.faults.saturating_add(1);
                ReadEnd::Failed
            }
        }
    }

    fn faults(&self) -> u64 {
        self.faults
    }
}

// How many octets were read: 0 at the end, None where it failed.
fn try_read<T: ReadAttempt>(from: &mut T, buf: &mut [u8]) -> Option<usize>
    ensures bound { IfSome result (λ count. count ≤ length buf.new) }
    ensures attempts { Attempted T.attempt (from.old, buf.old) (from.new, buf.new) result }
{
    for _round in 0..TRIES {
        match from.attempt_read(buf) {
            Ok(count) => return Some(count),
            Err(error) => {
                if !is_interrupted(&error) {
                    return None;
                }
            }
        }
    }
    None
}
