//! What a case is.

use crate::text::failing::Failing;
use crate::text::inputs::{Input, input_named};
use crate::text::network::Network;
use std::alloc::{AllocError, Global};

/// What must come out on standard output.
#[derive(Drop)]
pub enum Wanted {
    /// These octets.
    Octets(Vec<u8>),
    /// So many octets.
    Count(u64),
    /// Whatever comes.
    Any,
}

/// A file that may be written, and what it must take: None where it may take anything.
#[derive(Drop)]
pub struct WantedFile {
    pub name: String,
    pub octets: Option<Vec<u8>>,
}

/// A case: the words of a command, what stands outside, and what must come of it.
#[derive(Drop)]
pub struct Case {
    pub file: String,
    pub title: String,
    pub words: Vec<String>,
    /// The inputs that its file gives to each case, and then its own, which go before those.
    pub given: Vec<Input>,
    pub own: Vec<Input>,
    pub failing: Vec<Failing>,
    pub room: Option<u64>,
    /// Whether it is played with its streams cut too, and with each call failing in turn.
    pub is_cut: bool,
    pub is_faulted: bool,
    pub wanted: Wanted,
    pub files: Vec<WantedFile>,
    pub network: Network,
    pub status: u64,
}

/// The words of a text; `''` is the empty word.
pub(crate) fn words_in(alloc: Global, text: &str) -> Result<Vec<String>, AllocError> {
    let mut words = Vec::new(alloc);
    for word in text.split_whitespace() {
        words.push(word_of(alloc, word)?)?;
    }
    Ok(words)
}

fn word_of(alloc: Global, word: &str) -> Result<String, AllocError> {
    if word == "''" {
        return Ok(String::new(alloc));
    }
    String::from_str(alloc, word)
}

/// The name of the input that the words are about: the last word, or that before `--limit` and
/// `--journal`.
pub fn subject(words: &[String]) -> &str {
    let mut name = "";
    for word in words {
        if word.as_str() == "--limit" || word.as_str() == "--journal" {
            return name;
        }
        name = word.as_str();
    }
    name
}

impl Case {
    /// A case with nothing in it but its words and what its file gives.
    pub(crate) fn new(
        alloc: Global,
        file: &str,
        title: &str,
        words: &str,
        given: &[Input],
    ) -> Result<Case, AllocError> {
        Ok(Case {
            file: String::from_str(alloc, file)?,
            title: String::from_str(alloc, title)?,
            words: words_in(alloc, words)?,
            given: given.to_vec(alloc)?,
            own: Vec::new(alloc),
            failing: Vec::new(alloc),
            room: None,
            is_cut: false,
            is_faulted: false,
            wanted: Wanted::Octets(Vec::new(alloc)),
            files: Vec::new(alloc),
            network: Network::new(alloc),
            status: 0,
        })
    }

    /// The input of it with this name.
    pub fn input(&self, name: &str) -> Option<&Input> {
        input_named(&self.own, name).or(input_named(&self.given, name))
    }
}
