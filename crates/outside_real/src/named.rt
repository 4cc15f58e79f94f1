//! A standard stream or a file that tells an operator what fails of it.
ghost use Rattle.std.specs.Prelude.{◌≡◌};
ghost use Rattle.outside_real.specs.Streams.{reads_stream, writes_stream};

use crate::notices::{Notices, short};
use crate::stream::{ReadAttempt, Stream, WriteAttempt, is_interrupted};
use std::alloc::Global;
use std::fmt::{self, Display, Formatter};
use std::io;
use std::io::{Eprint, ErrorKind, Read, Write};
use std::marker::Model;
use std::time::Clock;

/// What an operator knows a stream by.
#[derive(Drop)]
pub(crate) enum StreamName {
    Input,
    Output,
    /// A file's path; none where no memory was left for it.
    File(Option<String>),
}

impl StreamName {
    // The file of this path.
    pub(crate) fn file(alloc: Global, path: &str) -> StreamName {
        StreamName::File(String::from_str(alloc, short(path)).ok())
    }
}

impl Display for StreamName {
    fn fmt<W: fmt::Write>(&self, f: &mut Formatter<W>) -> fmt::Result {
        match self {
            StreamName::Input => f.write_str("standard input"),
            StreamName::Output => f.write_str("standard output"),
            StreamName::File(Some(path)) => f.write_str(path.as_str()),
            StreamName::File(None) => f.write_str("a file"),
        }
    }
}

/// A standard stream or a file, whose faults are told on standard error by its name.
#[derive(Drop)]
pub struct NamedStream<S, F, R> {
    stream: Stream<S, F>,
    name: StreamName,
    runtime: R,
}

// What contracts see: the stream alone.
impl<S, F, R> Model for NamedStream<S, F, R> {
    ghost use Rattle.outside_real.specs.declared.stream.Stream.{Stream};

    ghost Value = { Stream S F };

    ghost view = { λ s. s.stream };
}

impl<S, F, R> NamedStream<S, F, R> {
    // The stream under this name.
    pub(crate) fn new(runtime: R, name: StreamName, stream: Stream<S, F>) -> Self
        ensures { result ≡ stream }
    {
        NamedStream {
            stream,
            name,
            runtime,
        }
    }
}

impl<S: Read, F: Read, R: Eprint + Clock + Copy> ReadAttempt for NamedStream<S, F, R> {
    ghost attempt = { λ before outcome after.
        reads_stream S.remaining F.remaining before.0 after.0 outcome after.1 };

    fn attempt_read(&mut self, buf: &mut [u8]) -> io::Result<usize> {
        let outcome = self.stream.attempt_read(buf);
        if let Err(error) = &outcome {
            tell_fault(self.runtime, "read", &self.name, error);
        }
        outcome
    }
}

impl<S: Write, F: Write, R: Eprint + Clock + Copy> WriteAttempt for NamedStream<S, F, R> {
    ghost attempt = { λ piece before outcome after.
        writes_stream S.contents F.contents before after outcome piece };

    fn attempt_write(&mut self, piece: &[u8]) -> io::Result<usize> {
        let outcome = self.stream.attempt_write(piece);
        match &outcome {
            Ok(0) => {
                let error = io::Error::from(ErrorKind::WriteZero);
                tell_fault(self.runtime, "write", &self.name, &error);
            }
            Ok(_) => {}
            Err(error) => tell_fault(self.runtime, "write", &self.name, error),
        }
        outcome
    }
}

// Tells what couldn't be done, unless a signal interrupted it.
fn tell_fault<R: Eprint + Clock + Copy>(
    runtime: R,
    what: &str,
    name: &StreamName,
    error: &io::Error,
) {
    if !is_interrupted(error) {
        Notices::new(runtime).tell(format_args!("can't {what} {name}: {error}"));
    }
}
