//! How the lines of a case are read.

use crate::text::cases::{Case, Wanted, WantedFile, subject, words_in};
use crate::text::failing::{Device, Failing};
use crate::text::inputs::append_to;
use crate::text::network::{Listening, Node};
use plain_text::{read_hex, read_number};
use std::alloc::{AllocError, AllocFailed, Global};

/// Why an entry isn't taken.
#[derive(Clone, Copy)]
pub(crate) enum Refused {
    NotRead,
    Memory,
}

impl From<AllocError> for Refused {
    fn from(_: AllocError) -> Refused {
        Refused::Memory
    }
}

impl<T: Drop> From<AllocFailed<T>> for Refused {
    fn from(_: AllocFailed<T>) -> Refused {
        Refused::Memory
    }
}

// What an entry says by its first word.
#[derive(Clone, Copy)]
enum Word {
    Clock,
    Connects,
    Cuts,
    Fails,
    Faults,
    Listens,
    Meet,
    Node,
    Octets,
    Repeat,
    Room,
    Shows,
    Status,
    Takes,
    Text,
    Words,
    Writes,
}

const WORDS: &[(&str, Word)] = &[
    ("clock", Word::Clock),
    ("connects", Word::Connects),
    ("cuts", Word::Cuts),
    ("fails", Word::Fails),
    ("faults", Word::Faults),
    ("listens", Word::Listens),
    ("meet", Word::Meet),
    ("node", Word::Node),
    ("octets", Word::Octets),
    ("repeat", Word::Repeat),
    ("room", Word::Room),
    ("shows", Word::Shows),
    ("status", Word::Status),
    ("takes", Word::Takes),
    ("text", Word::Text),
    ("words", Word::Words),
    ("writes", Word::Writes),
];

fn word_in(text: &str) -> Result<Word, Refused> {
    for &(name, word) in WORDS {
        if name == text {
            return Ok(word);
        }
    }
    Err(Refused::NotRead)
}

pub(crate) fn number_in(word: &str) -> Result<u64, Refused> {
    read_number(word.as_bytes(), u64::MAX).ok_or(Refused::NotRead)
}

// The octets of digits, between which spaces may stand.
fn octets_in(alloc: Global, digits: &str) -> Result<Vec<u8>, Refused> {
    let mut joined = Vec::new(alloc);
    for word in digits.split_whitespace() {
        joined.extend_from_slice(word.as_bytes())?;
    }
    read_hex(alloc, &joined)?.ok_or(Refused::NotRead)
}

/// The block of an entry that must have one.
pub(crate) fn block_of(block: Option<&[u8]>) -> Result<&[u8], Refused> {
    block.ok_or(Refused::NotRead)
}

/// The name that is all of a text.
pub(crate) fn name_in(text: &str) -> Result<&str, Refused> {
    if text.is_empty() || text.contains(' ') {
        return Err(Refused::NotRead);
    }
    Ok(text)
}

// The name that is all of a text, to keep.
fn own_name(alloc: Global, text: &str) -> Result<String, Refused> {
    String::from_str(alloc, name_in(text)?).map_err(Refused::from)
}

/// The first word of a line, and what stands behind it and a space.
pub(crate) fn word_and_rest(line: &str) -> (&str, &str) {
    line.split_once(' ').unwrap_or((line, ""))
}

fn text_in(octets: &[u8]) -> Result<&str, Refused> {
    str::from_utf8(octets).ok().ok_or(Refused::NotRead)
}

// Appends the pieces that a text says: the octets of the digits of each line.
fn push_pieces(alloc: Global, says: &mut Vec<Vec<u8>>, text: &[u8]) -> Result<(), Refused> {
    for line in text_in(text)?.split('\n') {
        says.push(octets_in(alloc, line)?)?;
    }
    Ok(())
}

// What `shows any` and `shows N octets` want.
fn loosely_wanted(rest: &str) -> Result<Wanted, Refused> {
    match rest.strip_suffix(" octets") {
        Some(number) => Ok(Wanted::Count(number_in(number)?)),
        None if rest == "any" => Ok(Wanted::Any),
        None => Err(Refused::NotRead),
    }
}

impl Case {
    // `shows`, a block; `shows any`, `shows octets HEX`, `shows N octets`.
    fn take_shows(
        &mut self,
        alloc: Global,
        rest: &str,
        block: Option<&[u8]>,
    ) -> Result<(), Refused> {
        match block {
            Some(block) if rest.is_empty() => self.wants(alloc, block),
            Some(_) => Err(Refused::NotRead),
            None => self.take_shown(alloc, rest),
        }
    }

    /// Wants these octets.
    pub(crate) fn wants(&mut self, alloc: Global, octets: &[u8]) -> Result<(), Refused> {
        self.wanted = Wanted::Octets(Vec::from_slice(alloc, octets)?);
        Ok(())
    }

    // `shows any`, `shows octets HEX`, `shows N octets`.
    fn take_shown(&mut self, alloc: Global, rest: &str) -> Result<(), Refused> {
        match rest.strip_prefix("octets ") {
            Some(digits) => self.wants_more(&octets_in(alloc, digits)?),
            None => self.wants_loosely(rest),
        }
    }

    fn wants_loosely(&mut self, rest: &str) -> Result<(), Refused> {
        self.wanted = loosely_wanted(rest)?;
        Ok(())
    }

    // Appends octets to those that are wanted.
    fn wants_more(&mut self, octets: &[u8]) -> Result<(), Refused> {
        match &mut self.wanted {
            Wanted::Octets(wanted) => wanted.extend_from_slice(octets).map_err(Refused::from),
            Wanted::Count(_) | Wanted::Any => Err(Refused::NotRead),
        }
    }

    // `writes NAME`: a file that takes a block, or nothing; `writes any NAME`: whatever comes.
    fn take_file(&mut self, alloc: Global, rest: &str, octets: &[u8]) -> Result<(), Refused> {
        match rest.strip_prefix("any ") {
            Some(name) => self.add_file(alloc, name, None),
            None => self.add_file(alloc, rest, Some(Vec::from_slice(alloc, octets)?)),
        }
    }

    fn add_file(
        &mut self,
        alloc: Global,
        name: &str,
        octets: Option<Vec<u8>>,
    ) -> Result<(), Refused> {
        let name = own_name(alloc, name)?;
        let file = WantedFile { name, octets };
        self.files.push(file).map_err(Refused::from)
    }

    // Appends the pieces that an input says.
    fn push_input(
        &self,
        alloc: Global,
        says: &mut Vec<Vec<u8>>,
        name: &str,
    ) -> Result<(), Refused> {
        let input = self.input(name).ok_or(Refused::NotRead)?;
        push_pieces(alloc, says, &input.octets(alloc)?)
    }

    // The pieces that these inputs say, and behind them a block.
    fn pieces_of(
        &self,
        alloc: Global,
        inputs: &str,
        block: Option<&[u8]>,
    ) -> Result<Vec<Vec<u8>>, Refused> {
        let mut says = Vec::new(alloc);
        for input in inputs.split_whitespace() {
            self.push_input(alloc, &mut says, input)?;
        }
        if let Some(block) = block {
            push_pieces(alloc, &mut says, block)?;
        }
        Ok(says)
    }

    // The node of a line `NAME`, which says a block, or `NAME INPUT ..`, which says these inputs.
    fn node_in(&self, alloc: Global, rest: &str, block: Option<&[u8]>) -> Result<Node, Refused> {
        let (name, inputs) = word_and_rest(rest);
        Ok(Node {
            name: own_name(alloc, name)?,
            says: self.pieces_of(alloc, inputs, block)?,
            takes: None,
        })
    }

    // `node ADDRESS INPUT ..`: a node that can be connected to.
    fn take_node(
        &mut self,
        alloc: Global,
        rest: &str,
        block: Option<&[u8]>,
    ) -> Result<(), Refused> {
        let node = self.node_in(alloc, rest, block)?;
        self.network.nodes.push(node).map_err(Refused::from)
    }

    // `connects NAME INPUT ..` behind `listens ADDRESS`: a node that connects there.
    fn take_connects(
        &mut self,
        alloc: Global,
        rest: &str,
        block: Option<&[u8]>,
    ) -> Result<(), Refused> {
        let node = self.node_in(alloc, rest, block)?;
        match self.network.listens.last_mut() {
            Some(listening) => listening.nodes.push(node).map_err(Refused::from),
            None => Err(Refused::NotRead),
        }
    }

    // `takes NAME` behind `node NAME` or `connects NAME`: what that node must take.
    fn take_taken(&mut self, alloc: Global, name: &str, block: &[u8]) -> Result<(), Refused> {
        let digits = text_in(block)?;
        let node = self.network.node_named(name).ok_or(Refused::NotRead)?;
        node.takes = Some(octets_in(alloc, digits)?);
        Ok(())
    }

    // `clock N ..`: what the clock shows.
    fn take_clock(&mut self, rest: &str) -> Result<(), Refused> {
        for word in rest.split_whitespace() {
            self.network.readings.push(number_in(word)?)?;
        }
        Ok(())
    }

    // `listens ADDRESS`: an address at which nodes may connect.
    fn take_listens(&mut self, alloc: Global, address: &str) -> Result<(), Refused> {
        let address = own_name(alloc, address)?;
        let nodes = Vec::new(alloc);
        let listening = Listening { address, nodes };
        self.network.listens.push(listening).map_err(Refused::from)
    }

    fn has_file(&self, name: &str) -> bool {
        for file in &self.files {
            if file.name.as_str() == name {
                return true;
            }
        }
        false
    }

    // Whether there is what a failing call may be of, where an earlier line must say so.
    fn is_known(&mut self, device: Device, name: &str) -> bool {
        match device {
            Device::Write => name == "-" || self.has_file(name),
            Device::Recv | Device::Send => self.network.node_named(name).is_some(),
            Device::Accept => !self.network.listens.is_empty(),
            Device::Read | Device::Clock | Device::Start => true,
        }
    }

    // The call with this number fails.
    fn fail(
        &mut self,
        alloc: Global,
        device: Device,
        name: &str,
        number: &str,
    ) -> Result<(), Refused> {
        if !self.is_known(device, name) {
            return Err(Refused::NotRead);
        }
        let number = number_in(number)?;
        let name = String::from_str(alloc, name)?;
        let failing = Failing {
            device,
            name,
            number,
        };
        self.failing.push(failing).map_err(Refused::from)
    }

    // `fails read NAME N`, `fails file NAME N`, `fails recv NAME N`, `fails send NAME N`.
    fn fail_named(&mut self, alloc: Global, word: &str, rest: &str) -> Result<(), Refused> {
        let (name, number) = rest.split_once(' ').ok_or(Refused::NotRead)?;
        match word {
            "read" => self.fail(alloc, Device::Read, name, number),
            "file" => self.fail(alloc, Device::Write, name, number),
            "recv" => self.fail(alloc, Device::Recv, name, number),
            "send" => self.fail(alloc, Device::Send, name, number),
            _ => Err(Refused::NotRead),
        }
    }

    // `fails write N`, `fails accept N`, `fails clock N`, `fails start N`, or a call that is named.
    fn take_fails(&mut self, alloc: Global, rest: &str) -> Result<(), Refused> {
        let (word, rest) = word_and_rest(rest);
        match word {
            "write" => self.fail(alloc, Device::Write, "-", rest),
            "accept" => self.fail(alloc, Device::Accept, "", rest),
            "clock" => self.fail(alloc, Device::Clock, "", rest),
            "start" => self.fail(alloc, Device::Start, "", rest),
            _ => self.fail_named(alloc, word, rest),
        }
    }

    // Appends octets to an own input, so many times.
    fn take_input(
        &mut self,
        alloc: Global,
        name: &str,
        octets: &[u8],
        times: u64,
    ) -> Result<(), Refused> {
        let name = name_in(name)?;
        append_to(alloc, &mut self.own, name, octets, times)
    }

    /// Appends octets to the input that the words are about.
    pub(crate) fn take_subject(&mut self, alloc: Global, octets: &[u8]) -> Result<(), Refused> {
        let name = String::from_str(alloc, subject(&self.words))?;
        self.take_input(alloc, &name, octets, 1)
    }

    // `repeat N NAME`, a block.
    fn take_repeat(
        &mut self,
        alloc: Global,
        rest: &str,
        block: Option<&[u8]>,
    ) -> Result<(), Refused> {
        let (number, name) = word_and_rest(rest);
        self.take_input(alloc, name, block_of(block)?, number_in(number)?)
    }

    // `octets NAME HEX`.
    fn take_octets(&mut self, alloc: Global, rest: &str) -> Result<(), Refused> {
        let (name, digits) = word_and_rest(rest);
        self.take_input(alloc, name, &octets_in(alloc, digits)?, 1)
    }

    fn take_words(&mut self, alloc: Global, rest: &str) -> Result<(), Refused> {
        self.words = words_in(alloc, rest)?;
        Ok(())
    }

    // An entry of a number.
    fn take_number(&mut self, word: Word, number: u64) -> Result<(), Refused> {
        match word {
            Word::Meet => self.network.meeting = Some(number),
            Word::Room => self.room = Some(number),
            Word::Status => self.status = number,
            _ => return Err(Refused::NotRead),
        }
        Ok(())
    }

    // An entry of one line.
    fn take_line(&mut self, alloc: Global, word: Word, rest: &str) -> Result<(), Refused> {
        match word {
            Word::Words => self.take_words(alloc, rest),
            Word::Octets => self.take_octets(alloc, rest),
            Word::Fails => self.take_fails(alloc, rest),
            Word::Listens => self.take_listens(alloc, rest),
            Word::Clock => self.take_clock(rest),
            Word::Cuts => {
                self.is_cut = true;
                Ok(())
            }
            Word::Faults => {
                self.is_faulted = true;
                Ok(())
            }
            _ => self.take_number(word, number_in(rest)?),
        }
    }

    /// An entry of a case: a line of this word and this rest, and its block.
    pub(crate) fn take(
        &mut self,
        alloc: Global,
        word: &str,
        rest: &str,
        block: Option<&[u8]>,
    ) -> Result<(), Refused> {
        match word_in(word)? {
            Word::Shows => self.take_shows(alloc, rest, block),
            Word::Text => self.take_input(alloc, rest, block.unwrap_or(b""), 1),
            Word::Repeat => self.take_repeat(alloc, rest, block),
            Word::Writes => self.take_file(alloc, rest, block.unwrap_or(b"")),
            Word::Node => self.take_node(alloc, rest, block),
            Word::Connects => self.take_connects(alloc, rest, block),
            Word::Takes => self.take_taken(alloc, rest, block.unwrap_or(b"")),
            _ if block.is_some() => Err(Refused::NotRead),
            word => self.take_line(alloc, word, rest),
        }
    }
}
