//! The data sets of one peer.
ghost use Rattle.std.specs.Prelude.{◌≡◌, ◌<◌, [], length, is_some, slice_get};
ghost use Rattle.std.specs.Prelude.{IfOk, OnOk, OnErr};
ghost use Rattle.std.specs.Option.{option_copied, option_map};
ghost use Rattle.data_sets.specs.Books.{IsSetBook, members_in, set_fault_of, fault_by};
ghost use Rattle.data_sets.specs.Books.{answered_by_fault};
ghost use Rattle.data_sets.specs.Books.{defined, deleted};

use ber_values::Visible;
use mms_data::Names;
use std::alloc::{AllocError, Global};
use std::marker::Model;

/// The most members of a data set.
pub const MOST_MEMBERS: usize = 500;

// Definitions cite this limit, so that it stands here as a number too.
const _: () = prove!(MOST_MEMBERS == 500);

/// The members of a data set: names of variables, in order.
pub type Members = Names;

/// Why a data set isn't defined.
#[derive(Debug, Clone, Copy, PartialEq, Eq, Drop)]
pub enum SetFault {
    /// A data set has this name.
    Exists,
    /// There are as many data sets as the peer may have, or more than [`MOST_MEMBERS`] members.
    TooMany,
}

/// A name and the members that are read by it.
#[derive(Debug, Drop)]
struct DataSet {
    name: Visible,
    members: Members,
}

/// The data sets of one peer, in the order in which they were defined. They outlive the
/// associations in which they were.
#[derive(Debug, Drop)]
pub struct SetBook {
    limit: u32,
    sets: Vec<DataSet>,
}

impl Model for SetBook {
    ghost use Rattle.data_sets.specs.Books.{Book, IsSetBook};

    ghost Value = { Book };

    ghost view = { λ book. record { limit = book.limit; sets = book.sets.items } };

    ghost invariant = { λ book. IsSetBook (record { limit = book.limit; sets = book.sets.items }) };
}

impl SetBook {
    /// No data sets, of which there may be so many. It takes no memory.
    pub fn new(alloc: Global, limit: u32) -> SetBook
        ensures { result ≡ record { limit = limit; sets = [] } }
    {
        SetBook {
            limit,
            sets: Vec::new(alloc),
        }
    }

    /// It has no data sets from now on, and there may be so many. It takes no memory.
    pub fn restart(&mut self, limit: u32)
        ensures { self.new ≡ record { limit = limit; sets = [] } }
    {
        self.limit = limit;
        self.sets.clear();
    }

    /// Defines a data set of one or more members, after all that are there. After want of memory,
    /// and where it is refused, the data sets are as before.
    pub fn define(
        &mut self,
        name: Visible,
        members: Members,
    ) -> Result<Result<(), SetFault>, AllocError>
        requires some { 0 < length members }
        ensures answer { IfOk result (λ answer. answer
            ≡ answered_by_fault (set_fault_of self.old name members)) }
        ensures sets { OnOk result (self.new ≡ defined self.old name members) }
        ensures err { OnErr result (self.new ≡ self.old) }
    {
        if let Some(fault) = self.fault(&name, members.len()) {
            return Ok(Err(fault));
        }
        self.sets.push(DataSet { name, members })?;
        Ok(Ok(()))
    }

    /// Why a data set of this name with so many members can't be defined.
    fn fault(&self, name: &Visible, count: usize) -> Option<SetFault>
        ensures { result ≡ fault_by self.now name.now count }
    {
        if self.members(name).is_some() {
            return Some(SetFault::Exists);
        }
        if self.limit as usize <= self.sets.len() || MOST_MEMBERS < count {
            return Some(SetFault::TooMany);
        }
        None
    }

    /// Deletes a data set. `false` where none has this name.
    pub fn delete(&mut self, name: &Visible) -> bool
        ensures there { result ≡ is_some (members_in self.old.sets name.now) }
        ensures sets { self.new ≡ deleted self.old name.now }
    {
        let there = self.members(name).is_some();
        self.sets.retain(|set| set.name != *name);
        there
    }

    /// The members of a data set.
    pub fn members(&self, name: &Visible) -> Option<&Members>
        ensures { option_copied result ≡ members_in self.now.sets name.now }
    {
        let set = self.sets.iter().find(|set| set.name == *name)?;
        Some(&set.members)
    }

    /// The number of data sets.
    pub fn count(&self) -> usize
        ensures { result ≡ length self.now.sets }
    {
        self.sets.len()
    }

    /// The name of the data set at a place.
    pub fn name(&self, index: usize) -> Option<&Visible>
        ensures { option_copied result ≡ option_map (λ set. set.name)
            (slice_get self.now.sets index) }
    {
        let set = self.sets.get(index)?;
        Some(&set.name)
    }
}

/// In every book there are no more data sets than the peer may have, each with a name of its own.
pub fn books_are_lawful(book: &SetBook)
    ensures { IsSetBook book.now }
{
    let _sets = &book.sets;
}
