//! Lines of octets, of which more are taken without memory once there is room for them.
ghost use Rattle.std.specs.Prelude.{◌≡◌, ◌+◌, ◌-◌, ◌*◌, ◌^◌, ◌<◌, ◌≤◌, [], ◌∷◌, ◌++◌, length};
ghost use Rattle.std.specs.Prelude.{take, drop, get_or, slice_get, sum_by, OnOk};
ghost use Rattle.std.specs.Option.{option_copied};

use std::alloc::{AllocError, Global};
use std::marker::Model;

/// Lines in order, and the room for more of them. A line is never changed nor taken away.
#[derive(Drop)]
pub struct Pages {
    /// All lines, one behind another.
    text: Vec<u8>,
    /// Where each line ends in the text.
    ends: Vec<u64>,
}

impl Model for Pages {
    ghost use Rattle.std.specs.Prelude.{◌-◌};
    ghost use Rattle.std.specs.Vec.{vec_len, vec_capacity};
    ghost use Rattle.node_journal.specs.PageLines.{PageLines};
    ghost use Rattle.node_journal.specs.LineText.{lines_from, Rise};

    ghost Value = { PageLines };

    ghost view = { λ p. record {
      lines = lines_from 0 p.text.items p.ends.items;
      spare_lines = vec_capacity p.ends - vec_len p.ends;
      spare_octets = vec_capacity p.text - vec_len p.text;
    } };

    ghost invariant = { λ p. Rise 0 p.ends.items (vec_len p.text) };
}

impl Pages {
    /// No lines, which takes no memory.
    pub fn new(alloc: Global) -> Pages
        ensures { result.lines ≡ [] }
    {
        Pages {
            text: Vec::new(alloc),
            ends: Vec::new(alloc),
        }
    }

    /// Makes room for so many lines of so many octets each. After want of memory there is no less
    /// room than before.
    pub fn reserve_lines(&mut self, count: u64, octets: usize) -> Result<(), AllocError>
        ensures lines { self.new.lines ≡ self.old.lines }
        ensures no_fewer { self.old.spare_lines ≤ self.new.spare_lines }
        ensures no_less { self.old.spare_octets ≤ self.new.spare_octets }
        ensures ok_lines { OnOk result (count ≤ self.new.spare_lines) }
        ensures ok_octets { OnOk result (count * octets ≤ self.new.spare_octets) }
        ensures ok_few { OnOk result (length self.new.lines < 2 ^ 63) }
    {
        let count = count as usize;
        let Some(all) = count.checked_mul(octets) else {
            return Err(AllocError);
        };
        self.text.reserve(all)?;
        self.ends.reserve(count)?;
        Ok(())
    }

    /// Makes room for a line of so many octets. After want of memory there is no less room than
    /// before.
    pub fn reserve(&mut self, octets: usize) -> Result<(), AllocError>
        ensures lines { self.new.lines ≡ self.old.lines }
        ensures no_fewer { self.old.spare_lines ≤ self.new.spare_lines }
        ensures no_less { self.old.spare_octets ≤ self.new.spare_octets }
        ensures ok_line { OnOk result (1 ≤ self.new.spare_lines) }
        ensures ok_octets { OnOk result (octets ≤ self.new.spare_octets) }
    {
        self.reserve_lines(1, octets)
    }

    /// Appends a line for which there is room, without memory.
    pub fn push_reserved(&mut self, line: &[u8])
        requires line { 1 ≤ self.old.spare_lines }
        requires octets { length line.now ≤ self.old.spare_octets }
        ensures lines { self.new.lines ≡ self.old.lines ++ line.now ∷ [] }
        ensures one_fewer { self.new.spare_lines + 1 ≡ self.old.spare_lines }
        ensures its_octets { self.old.spare_octets ≤ self.new.spare_octets + length line.now }
    {
        self.push_joined_reserved(line, &[]);
    }

    /// Appends a line of two parts for which there is room, without memory.
    pub fn push_joined_reserved(&mut self, front: &[u8], back: &[u8])
        requires line { 1 ≤ self.old.spare_lines }
        requires octets { length front.now + length back.now ≤ self.old.spare_octets }
        ensures lines { self.new.lines ≡ self.old.lines ++ (front.now ++ back.now) ∷ [] }
        ensures one_fewer { self.new.spare_lines + 1 ≡ self.old.spare_lines }
        ensures its_octets { self.old.spare_octets
            ≤ self.new.spare_octets + length front.now + length back.now }
    {
        self.text.extend_from_slice(front).unwrap();
        self.text.extend_from_slice(back).unwrap();
        self.ends.push_reserved(self.text.len() as u64);
    }

    /// How many lines there are.
    pub fn len(&self) -> u64
        ensures { result ≡ length self.now.lines }
    {
        self.ends.len() as u64
    }

    /// How many octets all lines have.
    pub fn weight(&self) -> u64
        ensures { result ≡ sum_by length self.now.lines }
    {
        self.text.len() as u64
    }

    /// The line at this place, which counts from 0.
    pub fn line(&self, place: u64) -> Option<&[u8]>
        ensures { option_copied result ≡ slice_get self.now.lines place }
    {
        let place = place as usize;
        if self.ends.len() <= place {
            return None;
        }
        let start = start_at(self.ends.as_slice(), place);
        let end = self.ends[place];
        Some(part(self.text.as_slice(), start as usize, end as usize))
    }
}

/// Where the line at a place starts.
fn start_at(ends: &[u64], place: usize) -> u64
    requires { place ≤ length ends.now }
    ensures { result ≡ get_or (0 ∷ ends.now) place 0 }
{
    match place {
        0 => 0,
        _ => ends[place - 1],
    }
}

/// What a text holds from a place on up to another.
fn part(text: &[u8], start: usize, end: usize) -> &[u8]
    requires first { start ≤ end }
    requires within { end ≤ length text.now }
    ensures { result.now ≡ take (end - start) (drop start text.now) }
{
    &text[start..end]
}
