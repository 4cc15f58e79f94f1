//! A sink that keeps what it takes.
ghost use Rattle.std.specs.Prelude.{◌≡◌, ◌<◌, [], length, Some, None};
ghost use Rattle.outside.specs.Sink.{SinkTold, Writes};

use outside::{Sink, WriteEnd};
use std::alloc::Global;
use std::marker::Model;

/// A sink that keeps all that it takes in memory. Only want of memory is a fault of it.
#[derive(Drop)]
pub struct KeptText {
    text: Vec<u8>,
    faults: u64,
}

impl Model for KeptText {
    ghost Value = { SinkTold };

    ghost view = { λ s. record {
      taken = Some s.text.items;
      held = 0;
      calls = None;
      faults = s.faults;
      name = [];
    } };
}

impl KeptText {
    /// A sink that has taken nothing. No memory is taken here.
    pub fn new(alloc: Global) -> Self
        ensures { result ≡ record {
          taken = Some [];
          held = 0;
          calls = None;
          faults = 0;
          name = [];
        } }
    {
        KeptText {
            text: Vec::new(alloc),
            faults: 0,
        }
    }

    /// All that it took.
    pub fn text(&self) -> &[u8]
        ensures { Some result.now ≡ self.now.taken }
    {
        &self.text
    }
}

impl Sink for KeptText {
    ghost told = { λ s. s };

    fn write(&mut self, piece: &[u8]) -> WriteEnd
        requires { 0 < length piece.now }
        ensures { Writes self.old self.new result piece.now }
    {
        match self.text.extend_from_slice(piece) {
            Ok(()) => WriteEnd::Took(piece.len()),
            Err(_) => {
                self.faults = self.faults.saturating_add(1);
                WriteEnd::Failed
            }
        }
    }

    fn faults(&self) -> u64 {
        self.faults
    }
}
