//! The entries of a case file: each is a line, and the block of indented lines behind it.

use std::alloc::{AllocError, Global};

/// An entry, with the number of its line.
#[derive(Drop)]
pub(crate) struct Entry {
    pub(crate) number: u64,
    pub(crate) head: String,
    /// The lines of its block, each ended by LF; empty where no block is there.
    block: Vec<u8>,
}

/// Entries while they are read.
#[derive(Drop)]
struct Entries {
    alloc: Global,
    read: Vec<Entry>,
    /// How many empty lines stand behind the last line of a block.
    empty: u64,
    number: u64,
}

impl Entry {
    /// The lines of its block, if it has one.
    pub(crate) fn block(&self) -> Option<&[u8]> {
        if self.block.is_empty() {
            return None;
        }
        Some(&self.block)
    }

    // Appends a line to the block, behind so many empty ones if it has begun.
    fn add(&mut self, line: &str, empty: u64) -> Result<(), AllocError> {
        if !self.block.is_empty() {
            for _ in 0..empty {
                self.block.push(b'\n')?;
            }
        }
        self.block.extend_from_slice(line.as_bytes())?;
        self.block.push(b'\n').map_err(AllocError::from)
    }
}

impl Entries {
    // Begins an entry behind the last one.
    fn begin(&mut self, line: &str) -> Result<(), AllocError> {
        let entry = Entry {
            number: self.number,
            head: String::from_str(self.alloc, line)?,
            block: Vec::new(self.alloc),
        };
        self.read.push(entry).map_err(AllocError::from)
    }

    // Appends a line to the block of the last entry; before the first it is an entry itself.
    fn indented(&mut self, line: &str) -> Result<(), AllocError> {
        match self.read.last_mut() {
            Some(entry) => entry.add(line, self.empty),
            None => self.begin("    "),
        }
    }

    fn take(&mut self, line: &str) -> Result<(), AllocError> {
        self.number = self.number.saturating_add(1);
        if line.starts_with("file ") {
            self.number = 0;
        }
        if line.is_empty() {
            self.empty = self.empty.saturating_add(1);
            return Ok(());
        }
        if line.starts_with("#") {
            return Ok(());
        }
        match line.strip_prefix("    ") {
            Some(content) => self.indented(content)?,
            None => self.begin(line)?,
        }
        self.empty = 0;
        Ok(())
    }
}

/// The entries of a text of case files. Lines count from 1 in each file.
pub(crate) fn entries_in(alloc: Global, text: &str) -> Result<Vec<Entry>, AllocError> {
    let mut entries = Entries {
        alloc,
        read: Vec::new(alloc),
        empty: 0,
        number: 0,
    };
    for line in text.split('\n') {
        entries.take(line)?;
    }
    Ok(entries.read)
}
