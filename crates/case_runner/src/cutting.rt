//! How the streams of a case are cut, and what comes of cut streams is joined.

use plain_text::push_hex;
use std::alloc::{AllocError, Global};

/// What is cut.
#[derive(Clone, Copy)]
pub(crate) enum Stream {
    /// The octets of a capture.
    Capture,
    /// What the lines `in W HEX` of a scenario give.
    Scenario,
}

/// Where it is cut.
#[derive(Clone, Copy)]
pub(crate) enum Cut {
    /// Between any two octets.
    Everywhere,
    /// At the place with this number, from 0, of all between two octets of a line.
    At(u64),
}

#[derive(Drop)]
struct Cutter {
    out: Vec<u8>,
    cut: Cut,
    /// How many places were come by.
    places: u64,
}

/// A text with its streams cut.
#[derive(Drop)]
pub(crate) struct CutText {
    pub(crate) text: Vec<u8>,
    /// How many places there are at which they may be cut.
    pub(crate) places: u64,
}

/// Whether an octet ends a line.
pub(crate) fn is_line_end(octet: &u8) -> bool {
    *octet == b'\n'
}

// A line that begins with a word and a space, cut behind its second word and a space.
fn split_behind_seat<'a>(line: &'a [u8], word: &[u8]) -> Option<(&'a [u8], &'a [u8])> {
    let rest = line.strip_prefix(word)?;
    let space = rest.iter().position(|octet| *octet == b' ')?;
    line.split_at_checked(word.len().saturating_add(space).saturating_add(1))
}

impl Cutter {
    fn is_place(&mut self) -> bool {
        let place = self.places;
        self.places = place.saturating_add(1);
        match self.cut {
            Cut::Everywhere => true,
            Cut::At(number) => number == place,
        }
    }

    // A line of digits behind a front, as one line or several.
    fn push_cut(&mut self, front: &[u8], digits: &[u8]) -> Result<(), AllocError> {
        self.out.extend_from_slice(front)?;
        for (index, octet) in digits.chunks(2).enumerate() {
            if index > 0 && self.is_place() {
                self.out.push(b'\n')?;
                self.out.extend_from_slice(front)?;
            }
            self.out.extend_from_slice(octet)?;
        }
        Ok(())
    }

    // A line of a scenario: what `in W HEX` gives is cut.
    fn push_scenario(&mut self, line: &[u8]) -> Result<(), AllocError> {
        match split_behind_seat(line, b"in ") {
            Some((front, digits)) => self.push_cut(front, digits),
            None => self.out.extend_from_slice(line),
        }
    }

    fn push_line(&mut self, stream: Stream, line: &[u8]) -> Result<(), AllocError> {
        match stream {
            Stream::Capture => self.push_cut(b"", line)?,
            Stream::Scenario => self.push_scenario(line)?,
        }
        self.out.push(b'\n').map_err(AllocError::from)
    }
}

/// A text with its streams cut. The octets of a capture stand in one line.
pub(crate) fn cut_text(
    alloc: Global,
    text: &[u8],
    stream: Stream,
    cut: Cut,
) -> Result<CutText, AllocError> {
    let mut cutter = Cutter {
        out: Vec::new(alloc),
        cut,
        places: 0,
    };
    for line in text.split(is_line_end) {
        cutter.push_line(stream, line)?;
    }
    // No line end stands behind the last line.
    cutter.out.pop();
    Ok(CutText {
        text: cutter.out,
        places: cutter.places,
    })
}

/// A capture of these octets in one line.
pub(crate) fn capture_of(alloc: Global, octets: &[u8]) -> Result<Vec<u8>, AllocError> {
    let mut text = Vec::new(alloc);
    push_hex(&mut text, octets)?;
    text.push(b'\n')?;
    Ok(text)
}

/// What was printed, where consecutive lines `out W HEX` of one seat are joined.
pub(crate) fn joined(alloc: Global, shown: &[u8]) -> Result<Vec<u8>, AllocError> {
    let mut out = Vec::new(alloc);
    let mut open: &[u8] = b"";
    for (index, line) in shown.split(is_line_end).enumerate() {
        let (front, rest) = split_behind_seat(line, b"out ").unwrap_or((b"", line));
        if !front.is_empty() && front == open {
            out.extend_from_slice(rest)?;
        } else {
            if index > 0 {
                out.push(b'\n')?;
            }
            out.extend_from_slice(line)?;
        }
        open = front;
    }
    Ok(out)
}
