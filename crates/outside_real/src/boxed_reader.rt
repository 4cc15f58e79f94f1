//! A reader whose buffer stands apart.
ghost use Rattle.outside_real.specs.Streams.{left_boxed};

use std::alloc::Global;
use std::io;
use std::io::{ErrorKind, Read};

/// A reader in memory of its own, so that what holds it stays small whatever its buffer. Where none
/// was left for it, each read fails.
#[derive(Drop)]
pub struct BoxedReader<T> {
    reader: Option<Box<T>>,
}

impl<T: Drop> BoxedReader<T> {
    pub(crate) fn new(alloc: Global, reader: T) -> BoxedReader<T> {
        BoxedReader {
            reader: Box::new(alloc, reader).ok(),
        }
    }
}

impl<T: Read> Read for BoxedReader<T> {
    ghost remaining = { λ s. left_boxed T.remaining s.reader };

    fn read(&mut self, buf: &mut [u8]) -> io::Result<usize> {
        match &mut self.reader {
            Some(reader) => reader.read(buf),
            None => Err(io::Error::from(ErrorKind::OutOfMemory)),
        }
    }
}
