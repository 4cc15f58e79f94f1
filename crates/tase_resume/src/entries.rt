//! The entries of a snapshot.
ghost use Rattle.std.specs.Prelude.{◌≡◌, [], ◌∷◌, ◌++◌, OnOk, OnErr};

use std::alloc::{AllocError, Global};
use std::marker::Model;
use tase_views::Entry;

/// The entries by which a node that begins anew comes to where another one left off, the oldest
/// first.
#[derive(Drop)]
pub struct Snapshot {
    entries: Vec<Entry>,
}

impl Model for Snapshot {
    ghost use Rattle.std.specs.Prelude.{List};
    ghost use Rattle.std.specs.Coded.{codes};
    ghost use Rattle.mms_data.specs.contracts.data.MmsData as datum;
    ghost use Rattle.tase_views.specs.declared.event.Entry.{Entry as AnyEntry};

    ghost Value = { List AnyEntry };

    ghost coded = { Prim.hlevel (codes, datum.the_row.coded) };

    ghost view = { λ snapshot. snapshot.entries.items };
}

impl Snapshot {
    /// A snapshot without entries, which takes no memory.
    pub fn new(alloc: Global) -> Snapshot
        ensures { result ≡ [] }
    {
        Snapshot {
            entries: Vec::new(alloc),
        }
    }

    /// Adds an entry at the end. After want of memory the snapshot is as before.
    pub fn push(&mut self, entry: Entry) -> Result<(), AllocError>
        ensures ok { OnOk result (self.new ≡ self.old ++ entry ∷ []) }
        ensures err { OnErr result (self.new ≡ self.old) }
    {
        self.entries.push(entry)?;
        Ok(())
    }

    /// The entries, the oldest first.
    pub fn entries(&self) -> &[Entry]
        ensures { result.now ≡ self.now }
    {
        self.entries.as_slice()
    }
}
