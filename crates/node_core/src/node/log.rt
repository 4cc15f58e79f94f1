//! The log of a node: what it has accepted, and room for what must not fail.
ghost use Rattle.std.specs.Prelude.{◌≡◌, ◌+◌, ◌*◌, ◌<◌, ◌≤◌, ◌^◌, ℕ, [], ◌∷◌, ◌++◌};
ghost use Rattle.std.specs.Prelude.{if◌then◌else◌, false, length, decimal, slice_get, Some};
ghost use Rattle.std.specs.Prelude.{option_map, IfOk, OnOk};
ghost use Rattle.std.specs.Option.{option_copied};
ghost use Rattle.tase_views.specs.Setup.{Setup};
ghost use Rattle.tase_views.specs.History.{is_stop};
ghost use Rattle.tase_views.specs.Weights.{weight_of};
ghost use Rattle.tase_views.specs.Outcomes as causes;
ghost use Rattle.texts.specs.Journal.Journals.{entry_text};
ghost use Rattle.node_core.specs.Room.{HasRoom, IsReserved, LeavesSeats, MayAppend};
ghost use Rattle.node_core.specs.Room.{line_of, past_of};

use itoa::Buffer;
use node_journal::Pages;
use std::alloc::{AllocError, Global};
use std::marker::Model;
use tase_views::{Entry, Event, EventKind, StepFault, weight};
use texts::journal::{entries_are_their_text, entries_have_texts, read_entry, spell_seat_event};

/// The most octets of the line of a close or a stop: the number of a seat, a space and a word.
pub const LONGEST_ENDING: usize = 26;

/// The accepted events with their seats, what they weigh, and room for what must not fail.
#[derive(Drop)]
pub struct Log {
    /// What the events may weigh, closes and a stop aside.
    limit: u64,
    /// The line of each entry, the oldest first, with room for the close of each open association
    /// and for one stop.
    pages: Pages,
    /// What the events weigh.
    weight: u64,
    /// The place of the stop.
    stop: Option<u64>,
    /// The line that was spelled last.
    draft: Vec<u8>,
}

impl Model for Log {
    ghost use Rattle.std.specs.Coded.{codes};
    ghost use Rattle.mms_data.specs.contracts.data.MmsData as datum;
    ghost use Rattle.node_core.specs.LogState.{LogState};
    ghost use Rattle.node_core.specs.LogLines.{entries_of, AreEntries};

    ghost Value = { LogState };

    ghost coded = { Prim.hlevel (codes, datum.the_row.coded) };

    ghost view = { λ log. record {
      limit = log.limit;
      entries = entries_of log.pages.lines;
      weight = log.weight;
      stop = log.stop;
      spare_lines = log.pages.spare_lines;
      spare_octets = log.pages.spare_octets;
      draft = log.draft.items;
    } };

    ghost invariant = { λ log. AreEntries log.pages.lines };
}

impl Log {
    /// A log without entries, with room for one stop.
    pub fn new(alloc: Global, limit: u64) -> Result<Log, AllocError>
        requires { limit ≤ 2 ^ 31 }
        ensures limit { IfOk result (λ log. log.limit ≡ limit) }
        ensures entries { IfOk result (λ log. log.entries ≡ []) }
        ensures room { IfOk result (λ log. HasRoom log 0) }
    {
        let mut pages = Pages::new(alloc);
        pages.reserve(LONGEST_ENDING)?;
        Ok(Log {
            limit,
            pages,
            weight: 0,
            stop: None,
            draft: Vec::new(alloc),
        })
    }

    /// How many entries there are.
    pub fn len(&self) -> u64
        ensures { result ≡ length self.now.entries }
    {
        self.pages.len()
    }

    /// The entry at this place, which counts from 0.
    pub fn entry(&self, place: u64) -> Result<Option<Entry>, AllocError>
        ensures { IfOk result (λ entry. entry ≡ slice_get self.now.entries place) }
    {
        match self.pages.line(place) {
            Some(line) => read_entry(*self.draft.allocator(), line),
            None => Ok(None),
        }
    }

    /// The text of the entry at this place, which counts from 0.
    pub fn line(&self, place: u64) -> Option<&[u8]>
        ensures { option_copied result ≡ option_map entry_text (slice_get self.now.entries place) }
    {
        entries_are_their_text();
        self.pages.line(place)
    }

    /// What the events weigh, in octets.
    pub fn weight(&self) -> u64
        ensures { (seats : ℕ) → HasRoom self.now seats → result ≡ weight_of (past_of self.now) }
    {
        self.weight
    }

    /// Refuses all but a close after a stop, by its place.
    pub fn stop_refusal(&self, event: &Event) -> Option<StepFault>
        ensures { (seats : ℕ) → HasRoom self.now seats
            → result ≡ causes.stop_refusal (past_of self.now) event.now }
    {
        match event.kind() {
            EventKind::Close => None,
            _ => self.stop.map(|at| StepFault::Stopped { at }),
        }
    }

    /// Refuses an event with which all would weigh more than the limit.
    pub fn weight_refusal(&self, event: &Event) -> Option<StepFault>
        requires { self.now.weight ≤ 2 ^ 62 }
        ensures { (setup : Setup) (seats : ℕ) → self.now.limit ≡ setup.limit
            → HasRoom self.now seats
            → result ≡ causes.weight_refusal setup (past_of self.now) event.now }
    {
        let weight = self.weight + weight(event);
        if !is_ending(event) && self.limit < weight {
            Some(StepFault::HistoryFull {
                weight,
                limit: self.limit,
            })
        } else {
            None
        }
    }

    /// Spells the line of an event of a seat and makes room for it, behind which so many seats have
    /// an association.
    pub fn reserve(&mut self, who: u64, event: &Event, seats: usize) -> Result<(), AllocError>
        requires { seats ≤ 2 ^ 63 }
        ensures limit { self.new.limit ≡ self.old.limit }
        ensures entries { self.new.entries ≡ self.old.entries }
        ensures room { (before : ℕ) → HasRoom self.old before → HasRoom self.new before }
        ensures ok { OnOk result (IsReserved self.new seats who event.now) }
        ensures few { OnOk result (length self.new.entries < 2 ^ 63) }
    {
        self.draft.clear();
        spell_seat_event(&mut self.draft, who, event)?;
        let octets = octets_from(self.draft.len(), seats)?;
        self.pages.reserve(octets)?;
        self.pages.reserve_lines(seats as u64 + 2, 0)?;
        Ok(())
    }

    /// Appends an entry, without memory.
    pub fn append(&mut self, who: u64, event: Event)
        requires line { 1 ≤ self.old.spare_lines }
        requires octets { length (line_of who event) ≤ self.old.spare_octets }
        requires drafted { causes.is_ending event ≡ false → self.old.draft ≡ line_of who event }
        requires light { self.old.weight ≤ 2 ^ 62 }
        ensures limit { self.new.limit ≡ self.old.limit }
        ensures entries { self.new.entries
            ≡ self.old.entries ++ record { who = who; event = event } ∷ [] }
        ensures room { (before behind : ℕ) → HasRoom self.old before
            → LeavesSeats event before behind → MayAppend self.old who event behind
            → HasRoom self.new behind }
    {
        let entry = Entry { who, event };
        entries_have_texts(&entry);
        entries_are_their_text();
        self.stop = stop_behind(self.stop, self.pages.len(), &entry.event);
        self.weight += weight(&entry.event);
        push_line(&mut self.pages, &entry, self.draft.as_slice());
    }
}

/// How many octets a line of so many has with those of so many closes and a stop behind it, if
/// memory may have as many.
fn octets_from(line: usize, seats: usize) -> Result<usize, AllocError>
    requires { seats ≤ 2 ^ 63 }
    ensures { IfOk result (λ octets. octets ≡ line + LONGEST_ENDING * (seats + 1)) }
{
    let Some(endings) = LONGEST_ENDING.checked_mul(seats + 1) else {
        return Err(AllocError);
    };
    let Some(octets) = line.checked_add(endings) else {
        return Err(AllocError);
    };
    Ok(octets)
}

/// Appends the line of an entry, which is this draft where it is neither a close nor a stop.
fn push_line(pages: &mut Pages, entry: &Entry, draft: &[u8])
    requires line { 1 ≤ pages.old.spare_lines }
    requires octets { length (entry_text entry.now) ≤ pages.old.spare_octets }
    requires drafted { causes.is_ending entry.now.event ≡ false
        → draft.now ≡ entry_text entry.now }
    ensures lines { pages.new.lines ≡ pages.old.lines ++ entry_text entry.now ∷ [] }
    ensures one_fewer { pages.new.spare_lines + 1 ≡ pages.old.spare_lines }
    ensures its_octets { pages.old.spare_octets
        ≤ pages.new.spare_octets + length (entry_text entry.now) }
{
    match entry.event.kind() {
        EventKind::Close => push_ending(pages, entry.who, b" close"),
        EventKind::Stop => push_ending(pages, entry.who, b" stop"),
        _ => pages.push_reserved(draft),
    }
}

/// Appends a line of the number of a seat and of what stands behind it.
fn push_ending(pages: &mut Pages, who: u64, rest: &[u8])
    requires line { 1 ≤ pages.old.spare_lines }
    requires octets { length (decimal who ++ rest.now) ≤ pages.old.spare_octets }
    ensures lines { pages.new.lines ≡ pages.old.lines ++ (decimal who ++ rest.now) ∷ [] }
    ensures one_fewer { pages.new.spare_lines + 1 ≡ pages.old.spare_lines }
    ensures its_octets { pages.old.spare_octets
        ≤ pages.new.spare_octets + length (decimal who ++ rest.now) }
{
    let mut digits = Buffer::new();
    pages.push_joined_reserved(digits.format(who).as_bytes(), rest);
}

/// Whether an event is taken whatever the entries weigh, and without memory.
fn is_ending(event: &Event) -> bool
    ensures { result ≡ causes.is_ending event.now }
{
    matches!(event.kind(), EventKind::Close | EventKind::Stop)
}

/// The place of the stop behind an event at this place, where it was `stop` before.
fn stop_behind(stop: Option<u64>, place: u64, event: &Event) -> Option<u64>
    ensures { result ≡ (if is_stop event.now then Some place else stop) }
{
    match event.kind() {
        EventKind::Stop => Some(place),
        _ => stop,
    }
}
