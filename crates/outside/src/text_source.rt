//! A text in memory as a source, some of whose calls fail.
ghost use Rattle.std.specs.Prelude.{Bool, take, false, ◌≡◌, ℕ, ◌<◌, ◌≤◌, ◌↔◌, List, [], Option};
ghost use Rattle.std.specs.Prelude.{Some, length, min, drop, Contains};
ghost use Rattle.std.specs.Prelude.{string_bytes};
ghost use Rattle.outside.specs.Faults.{next_count};
ghost use Rattle.outside.specs.Source.{SourceTold, ReadsSource};
ghost use Rattle.outside.specs.States.{TextState, text_told};

use crate::faults::count_fault;
use crate::object_name::ObjectName;
use crate::source::{ReadEnd, Source};
use std::marker::Model;

/// A source that gives its octets as far as they fit. Its calls are numbered from 0, and some of
/// them fail.
#[derive(Drop)]
pub struct TextSource {
    octets: Vec<u8>,
    at: usize,
    ended: bool,
    stopped: bool,
    late: u64,
    fails: Vec<u64>,
    calls: u64,
    faults: u64,
    name: ObjectName,
}

impl Model for TextSource {
    ghost Value = { TextState };

    ghost view = { λ s. record {
      left = drop s.at s.octets.items;
      given = take s.at s.octets.items;
      ended = s.ended;
      stopped = s.stopped;
      late = s.late;
      fails = s.fails.items;
      calls = s.calls;
      faults = s.faults;
      name = s.name;
    } };

    ghost invariant = { λ s. s.at ≤ length s.octets.items };
}

impl TextSource {
    /// A source of these octets, whose calls with these numbers fail. It takes no memory.
    pub fn new(octets: Vec<u8>, fails: Vec<u64>) -> Self
        ensures { result ≡ record {
          left = octets.items;
          given = [];
          ended = false;
          stopped = false;
          late = 0;
          fails = fails.items;
          calls = 0;
          faults = 0;
          name = [];
        } }
    {
        TextSource {
            octets,
            at: 0,
            ended: false,
            stopped: false,
            late: 0,
            fails,
            calls: 0,
            faults: 0,
            name: ObjectName::none(),
        }
    }

    /// Gives it the name under which it is to stand in its outside.
    pub fn set_name(&mut self, name: String)
        ensures { self.new ≡ record self.old { name = string_bytes name } }
    {
        self.name = ObjectName::new(name);
    }

    /// The name under which it stands in its outside; empty for none.
    pub fn name(&self) -> &str
        ensures { result.now ≡ self.now.name }
    {
        self.name.as_str()
    }
}

impl Source for TextSource {
    ghost told = { text_told };

    fn read(&mut self, buf: &mut [u8]) -> ReadEnd
        requires { 0 < length buf.old }
        ensures reads { ReadsSource (text_told self.old) (text_told self.new) result buf.new }
        ensures fails { (result ≡ ReadEnd.Failed) ↔ Contains self.old.fails self.old.calls }
        ensures fits { (n : ℕ) → result ≡ ReadEnd.Got n
            → n ≡ min (length self.old.left) (length buf.new) }
        ensures calls { self.new.calls ≡ next_count self.old.calls }
        ensures script { self.new.fails ≡ self.old.fails }
    {
        let call = self.calls;
        self.calls = count_fault(call, true);
        self.late = count_fault(self.late, self.stopped);
        self.ended = false;
        self.stopped = true;
        if self.fails.contains(&call) {
            self.faults = count_fault(self.faults, true);
            return ReadEnd::Failed;
        }
        let left = &self.octets[self.at..];
        if left.is_empty() {
            self.ended = true;
            return ReadEnd::End;
        }
        let count = left.len().min(buf.len());
        buf[..count].copy_from_slice(&left[..count]);
        self.at += count;
        self.stopped = false;
        ReadEnd::Got(count)
    }

    fn faults(&self) -> u64 {
        self.faults
    }
}
