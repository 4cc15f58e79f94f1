//! The calls that fail when a case is played.

use std::alloc::{AllocError, Global};

/// What of the outside may fail.
#[derive(Clone, Copy, PartialEq, Eq)]
pub enum Device {
    /// A read of an input.
    Read,
    /// A write of standard output, which is `-`, or of a file.
    Write,
    /// A recv of a node's link.
    Recv,
    /// A send of a node's link.
    Send,
    /// A call of accept.
    Accept,
    /// A reading of the clock.
    Clock,
    /// The start of a thread.
    Start,
}

/// A call that fails: what it is a call of, under which name, and its number, from 0, among these.
/// The name is empty where there is one alone.
#[derive(Drop)]
pub struct Failing {
    pub device: Device,
    pub name: String,
    pub number: u64,
}

/// All calls that fail in a play: those that the case says, and one more.
#[derive(Clone, Copy)]
pub struct Failures<'a> {
    pub said: &'a [Failing],
    pub more: Option<&'a Failing>,
}

impl Failing {
    // Whether it is a call of this.
    fn is_of(&self, device: Device, name: &str) -> bool {
        self.device == device && self.name.as_str() == name
    }
}

impl Failures<'_> {
    /// The numbers of the calls that fail of this device under this name.
    pub fn numbers(
        self,
        alloc: Global,
        device: Device,
        name: &str,
    ) -> Result<Vec<u64>, AllocError> {
        let mut numbers = Vec::new(alloc);
        for failing in self.said.iter().chain(self.more) {
            if failing.is_of(device, name) {
                numbers.push(failing.number)?;
            }
        }
        Ok(numbers)
    }

    /// How many calls of this device there must be so that each comes that is to fail.
    pub fn calls(self, device: Device) -> u64 {
        let mut calls = 0u64;
        for failing in self.said.iter().chain(self.more) {
            if failing.is_of(device, "") {
                calls = calls.max(failing.number.saturating_add(1));
            }
        }
        calls
    }
}
