//! Texts of items, in order.
ghost use Rattle.std.specs.Prelude.{◌≡◌, [], ◌∷◌, ◌++◌, length, slice_get, OnOk, OnErr};
ghost use Rattle.std.specs.Option.{option_copied};

use node_journal::Pages;
use std::alloc::{AllocError, Global};
use std::marker::Model;

/// The texts of items that are watched for a peer, the oldest first.
#[derive(Drop)]
pub struct Items {
    pages: Pages,
}

impl Model for Items {
    ghost use Rattle.std.specs.Prelude.{ℕ, List};

    ghost Value = { List (List ℕ) };

    ghost view = { λ items. items.pages.lines };
}

impl Items {
    /// No items, which takes no memory.
    pub fn new(alloc: Global) -> Items
        ensures { result ≡ [] }
    {
        Items {
            pages: Pages::new(alloc),
        }
    }

    /// Adds the text of an item at the end. After want of memory there are those as before.
    pub(crate) fn push(&mut self, line: &[u8]) -> Result<(), AllocError>
        ensures ok { OnOk result (self.new ≡ self.old ++ line.now ∷ []) }
        ensures err { OnErr result (self.new ≡ self.old) }
    {
        self.pages.reserve(line.len())?;
        self.pages.push_reserved(line);
        Ok(())
    }

    /// How many items there are.
    pub fn len(&self) -> u64
        ensures { result ≡ length self.now }
    {
        self.pages.len()
    }

    /// The text of the item at this place, which counts from 0.
    pub fn line(&self, place: u64) -> Option<&[u8]>
        ensures { option_copied result ≡ slice_get self.now place }
    {
        self.pages.line(place)
    }
}
