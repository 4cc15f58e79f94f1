//! A standard stream or a file, and attempts at reading and writing.
ghost use Rattle.std.specs.Prelude.{◌≡◌, ◌↔◌, ℕ, ◌≤◌, List, Result, IfOk, IsTrue, length};
ghost use Rattle.std.specs.IoError.{error_kind};
ghost use Rattle.std.specs.declared.io.Error.{Error};
ghost use Rattle.outside_real.specs.Streams.{reads_stream, writes_stream};

use std::io;
use std::io::{ErrorKind, Read, Write};

/// A standard stream, or a file.
#[derive(Drop)]
pub enum Stream<S, F> {
    Standard(S),
    File(F),
}

/// One attempt at reading.
pub trait ReadAttempt {
    /// What an attempt at an object with a buffer may come to, and what it leaves of both.
    ghost attempt: { Self × List ℕ → Result ℕ Error → Self × List ℕ → Type 0 };

    fn attempt_read(&mut self, buf: &mut [u8]) -> io::Result<usize>
        ensures bound { IfOk result (λ count. count ≤ length buf.new) }
        ensures attempt { attempt (self.old, buf.old) result (self.new, buf.new) };
}

/// One attempt at writing.
pub trait WriteAttempt {
    /// What an attempt with a piece may come to, and what it leaves of the object.
    ghost attempt: { List ℕ → Self → Result ℕ Error → Self → Type 0 };

    fn attempt_write(&mut self, piece: &[u8]) -> io::Result<usize>
        ensures bound { IfOk result (λ count. count ≤ length piece.now) }
        ensures attempt { attempt piece.now self.old result self.new };
}

impl<S: Read, F: Read> ReadAttempt for Stream<S, F> {
    ghost attempt = { λ before outcome after.
        reads_stream S.remaining F.remaining before.0 after.0 outcome after.1 };

    fn attempt_read(&mut self, buf: &mut [u8]) -> io::Result<usize> {
        match self {
            Stream::Standard(stream) => stream.read(buf),
            Stream::File(file) => file.read(buf),
        }
    }
}

impl<S: Write, F: Write> WriteAttempt for Stream<S, F> {
    ghost attempt = { λ piece before outcome after.
        writes_stream S.contents F.contents before after outcome piece };

    fn attempt_write(&mut self, piece: &[u8]) -> io::Result<usize> {
        match self {
            Stream::Standard(stream) => stream.write(piece),
            Stream::File(file) => file.write(piece),
        }
    }
}

// Whether a signal interrupted an attempt.
pub(crate) fn is_interrupted(error: &io::Error) -> bool
    ensures { IsTrue result ↔ (error_kind error.now ≡ ErrorKind.Interrupted) }
{
    error.kind() == ErrorKind::Interrupted
}
