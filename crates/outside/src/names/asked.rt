//! The names that an outside in memory was asked for.
ghost use Rattle.std.specs.Prelude.{◌≡◌, ℕ, ◌+◌, ◌≤◌, List, [], Option, Some, None, IfOk};
ghost use Rattle.std.specs.Prelude.{option_map, length, take, vec_len, vec_capacity, if◌then◌else◌};
ghost use Rattle.outside.specs.Names.Names.{AskedState, with_name_asked};
ghost use Rattle.outside.specs.declared.names.asked.TheConstants.{MOST_NAMES, NAME_ROOM};

use std::alloc::{AllocError, Global};
use std::marker::Model;

/// So many names are told at most.
pub const MOST_NAMES: usize = 16;

/// So many octets may a name have that is told.
pub const NAME_ROOM: usize = 64;

/// A name that was asked for.
#[derive(Drop)]
pub struct AskedName {
    octets: [u8; NAME_ROOM],
    count: usize,
}

impl Model for AskedName {
    ghost Value = { List ℕ };

    ghost view = { λ n. take n.count n.octets };

    ghost invariant = { λ n. n.count ≤ NAME_ROOM };
}

impl AskedName {
    fn new(name: &str) -> Self
        requires { length name.now ≤ NAME_ROOM }
        ensures { result ≡ name.now }
    {
        let mut octets = [0; NAME_ROOM];
        octets[..name.len()].copy_from_slice(name.as_bytes());
        AskedName {
            octets,
            count: name.len(),
        }
    }

    /// Its octets.
    pub fn as_bytes(&self) -> &[u8]
        ensures { result.now ≡ self.now }
    {
        &self.octets[..self.count]
    }
}

/// Names in order, for which the room was taken before. Once one had no room, none are told.
#[derive(Drop)]
pub(crate) struct AskedNames {
    names: Vec<AskedName>,
    room: usize,
    whole: bool,
}

impl Model for AskedNames {
    ghost Value = { AskedState };

    ghost view = { λ a. record {
      names = if a.whole then Some a.names.items else None;
      room = a.room;
    } };

    ghost invariant = { λ a. vec_len a.names + a.room ≤ vec_capacity a.names };
}

impl AskedNames {
    pub(crate) fn new(alloc: Global) -> Result<Self, AllocError>
        ensures { IfOk result (λ names. names ≡ record { names = Some []; room = MOST_NAMES }) }
    {
        Ok(AskedNames {
            names: Vec::with_capacity(alloc, MOST_NAMES)?,
            room: MOST_NAMES,
            whole: true,
        })
    }

    pub(crate) fn ask(&mut self, name: &str)
        ensures { self.new ≡ with_name_asked self.old name.now }
    {
        if self.room > 0 && name.len() <= NAME_ROOM {
            self.names.push(AskedName::new(name)).unwrap();
            self.room -= 1;
        } else {
            self.whole = false;
        }
    }

    pub(crate) fn names(&self) -> Option<&[AskedName]>
        ensures { option_map (λ names. names.now) result ≡ self.now.names }
    {
        if self.whole { Some(&self.names) } else { None }
    }
}
