//! A sink of octets in memory, some of whose calls fail.
ghost use Rattle.std.specs.Prelude.{false, ◌≡◌, ℕ, ◌+◌, ◌-◌, ◌<◌, ◌≤◌, ◌↔◌, ◌⊎◌, List, [], Option};
ghost use Rattle.std.specs.Prelude.{Some, length, min, Contains, IfOk};
ghost use Rattle.std.specs.Prelude.{string_bytes, vec_len, vec_capacity};
ghost use Rattle.outside.specs.Faults.{next_count};
ghost use Rattle.outside.specs.Sink.{SinkTold, Writes};
ghost use Rattle.outside.specs.States.{ByteState, byte_told};

use crate::faults::count_fault;
use crate::object_name::ObjectName;
use crate::sink::{Sink, WriteEnd};
use std::alloc::{AllocError, Global};
use std::marker::Model;

/// A sink that takes octets as far as its room goes. Its calls are numbered from 0, and some of
/// them fail.
#[derive(Drop)]
pub struct ByteSink {
    taken: Vec<u8>,
    room: usize,
    stopped: bool,
    late: u64,
    fails: Vec<u64>,
    calls: u64,
    faults: u64,
    name: ObjectName,
}

impl Model for ByteSink {
    ghost Value = { ByteState };

    ghost view = { λ s. record {
      taken = s.taken.items;
      room = s.room;
      stopped = s.stopped;
      late = s.late;
      fails = s.fails.items;
      calls = s.calls;
      faults = s.faults;
      name = s.name;
    } };

    // The room was taken when the sink was made.
    ghost invariant = { λ s. vec_len s.taken + s.room ≤ vec_capacity s.taken };
}

impl ByteSink {
    /// A sink with room for so many octets, whose calls with these numbers fail. The room is taken
    /// here.
    pub fn new(alloc: Global, room: usize, fails: Vec<u64>) -> Result<Self, AllocError>
        ensures { IfOk result (λ sink. sink ≡ record {
          taken = [];
          room = room;
          stopped = false;
          late = 0;
          fails = fails.items;
          calls = 0;
          faults = 0;
          name = [];
        }) }
    {
        Ok(ByteSink {
            taken: Vec::with_capacity(alloc, room)?,
            room,
            stopped: false,
            late: 0,
            fails,
            calls: 0,
            faults: 0,
            name: ObjectName::none(),
        })
    }

    /// The octets that it took.
    pub fn taken(&self) -> &[u8]
        ensures { result.now ≡ self.now.taken }
    {
        &self.taken
    }

    /// Gives it the name under which it is to stand in its outside.
    pub fn set_name(&mut self, name: String)
        ensures { self.new ≡ record self.old { name = string_bytes name } }
    {
        self.name = ObjectName::new(name);
    }

    /// The name under which it stands in its outside; empty for none.
    pub fn name(&self) -> &str
        ensures { result.now ≡ self.now.name }
    {
        self.name.as_str()
    }
}

impl Sink for ByteSink {
    ghost told = { byte_told };

    fn write(&mut self, piece: &[u8]) -> WriteEnd
        requires { 0 < length piece.now }
        ensures writes { Writes (byte_told self.old) (byte_told self.new) result piece.now }
        ensures fails { (result ≡ WriteEnd.Failed)
            ↔ (Contains self.old.fails self.old.calls ⊎ (self.old.room ≡ 0)) }
        ensures fits { (n : ℕ) → result ≡ WriteEnd.Took n
            → n ≡ min (length piece.now) self.old.room }
        ensures room { (n : ℕ) → result ≡ WriteEnd.Took n → self.new.room ≡ self.old.room - n }
        ensures no_room { result ≡ WriteEnd.Failed → self.new.room ≡ self.old.room }
        ensures calls { self.new.calls ≡ next_count self.old.calls }
        ensures script { self.new.fails ≡ self.old.fails }
    {
        let call = self.calls;
        self.calls = count_fault(call, true);
        self.late = count_fault(self.late, self.stopped);
        self.stopped = true;
        if self.room == 0 || self.fails.contains(&call) {
            self.faults = count_fault(self.faults, true);
            return WriteEnd::Failed;
        }
        let count = piece.len().min(self.room);
        self.taken.extend_from_slice(&piece[..count]).unwrap();
        self.room -= count;
        self.stopped = false;
        WriteEnd::Took(count)
    }

    fn faults(&self) -> u64 {
        self.faults
    }
}
