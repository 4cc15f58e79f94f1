//! The inputs of cases.

use crate::text::lines::Refused;
use std::alloc::{AllocError, Global};

/// Octets that stand so many times one behind another.
#[derive(Clone, Drop)]
pub struct Part {
    pub octets: Vec<u8>,
    pub times: u64,
}

/// A named input.
#[derive(Clone, Drop)]
pub struct Input {
    pub name: String,
    pub parts: Vec<Part>,
}

impl Input {
    // An input with nothing in it.
    fn new(alloc: Global, name: &str) -> Result<Input, AllocError> {
        Ok(Input {
            name: String::from_str(alloc, name)?,
            parts: Vec::new(alloc),
        })
    }

    // Appends octets, so many times.
    fn append(&mut self, alloc: Global, octets: &[u8], times: u64) -> Result<(), Refused> {
        let octets = Vec::from_slice(alloc, octets)?;
        self.parts
            .push(Part { octets, times })
            .map_err(Refused::from)
    }

    /// All octets of it.
    pub fn octets(&self, alloc: Global) -> Result<Vec<u8>, AllocError> {
        let mut octets = Vec::new(alloc);
        for part in &self.parts {
            for _ in 0..part.times {
                octets.extend_from_slice(&part.octets)?;
            }
        }
        Ok(octets)
    }
}

/// The input with this name.
pub(crate) fn input_named<'a>(inputs: &'a [Input], name: &str) -> Option<&'a Input> {
    for input in inputs {
        if input.name.as_str() == name {
            return Some(input);
        }
    }
    None
}

/// Appends octets to the input with this name, which is made where it isn't there.
pub(crate) fn append_to(
    alloc: Global,
    inputs: &mut Vec<Input>,
    name: &str,
    octets: &[u8],
    times: u64,
) -> Result<(), Refused> {
    for input in inputs.iter_mut() {
        if input.name.as_str() == name {
            return input.append(alloc, octets, times);
        }
    }
    let mut input = Input::new(alloc, name)?;
    input.append(alloc, octets, times)?;
    inputs.push(input).map_err(Refused::from)
}
