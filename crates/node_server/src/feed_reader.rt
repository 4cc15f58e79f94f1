//! The lines of a feed, read octet by octet.
ghost use Rattle.std.specs.Prelude.{◌≡◌, ◌≢◌, [], IfOk, true, false, if◌then◌else◌};
ghost use Rattle.std.specs.Str.Lines.{strip_carriage_return};
ghost use Rattle.outside.specs.Faults.{next_count};
ghost use Rattle.bilateral.specs.Rows.{CentreRows};
ghost use Rattle.tase_views.specs.History.{is_stop};
ghost use Rattle.node_server.specs.FeedReading.{line_says, says_then, yet_fed, TakesOctet};
ghost use Rattle.node_server.specs.FeedReading.{MayBeSaid};
ghost use Rattle.node_server.specs.declared.feed_end.FeedEnd.TheVariants.{Ended, StopLine};
ghost use Rattle.node_server.specs.declared.feed_reader.FeedSays.TheVariants.{Asks, Ends};

use crate::feed_end::FeedEnd;
use bilateral::Centre;
use outside::count_fault;
use plain_text::is_skipped;
use std::alloc::{AllocError, Global};
use std::marker::Model;
use tase_views::{Event, EventKind};
use texts::events::read_feed_line;

/// The most octets of a line of a feed, without its end.
pub const LINE_LIMIT: usize = 4096;

// Definitions cite this limit, so that it stands here as a number too.
const _: () = prove!(LINE_LIMIT == 4_096);

/// What a feed says next.
#[derive(Drop)]
pub enum FeedSays {
    /// Nothing so far.
    Nothing,
    /// It asks this event of the node.
    Asks(Event),
    /// It ends.
    Ends(FeedEnd),
}

/// A feed of which octets came: it holds those of the line that isn't ended, at most one more than
/// a line may have, and knows the number of that line, which stands still at its type's end.
#[derive(Drop)]
pub struct FeedReader {
    held: Vec<u8>,
    number: u64,
}

impl Model for FeedReader {
    ghost use Rattle.std.specs.Prelude.{◌≤◌, ◌+◌, length};
    ghost use Rattle.node_server.specs.HeldLines.{HasNoEnd};
    ghost use Rattle.node_server.specs.FeedReading.{FeedPlace};
    ghost use Rattle.node_server.specs.declared.feed_reader.TheConstants.{LINE_LIMIT};

    ghost Value = { FeedPlace };

    ghost view = { λ s. record { held = s.held.items; number = s.number } };

    ghost invariant = { λ s. HasNoEnd s.held.items × (length s.held.items ≤ LINE_LIMIT + 1) };
}

impl FeedReader {
    /// A feed of which nothing came yet.
    pub fn new(alloc: Global) -> Result<FeedReader, AllocError>
        ensures { IfOk result (λ reader. reader ≡ record { held = []; number = 1 }) }
    {
        let held = Vec::with_capacity(alloc, LINE_LIMIT + 1)?;
        Ok(FeedReader { held, number: 1 })
    }

    /// Takes the next octet. After want of memory no octet should come.
    pub fn take(
        &mut self,
        alloc: Global,
        centre: &Centre,
        octet: u8,
    ) -> Result<FeedSays, AllocError>
        ensures says { IfOk result (λ says. TakesOctet centre.now self.old octet self.new says) }
        ensures may { IfOk result (λ says. MayBeSaid centre.now says) }
    {
        if octet != b'\n' {
            return self.grow(octet);
        }
        let says = read_line(alloc, centre, self.number, self.line())?;
        self.begin();
        Ok(says)
    }

    /// What the last line says, which no LF ends, once no octet comes any more.
    pub fn finish(&self, alloc: Global, centre: &Centre) -> Result<FeedSays, AllocError>
        ensures says { IfOk result (λ says. yet_fed centre.now true self.now []
            ≡ says_then says (record { events = []; end = Ended })) }
        ensures may { IfOk result (λ says. MayBeSaid centre.now says) }
    {
        if self.held.is_empty() {
            return Ok(FeedSays::Nothing);
        }
        read_line(alloc, centre, self.number, &self.held)
    }

    /// What is held is no line where the feed breaks off.
    pub fn break_off(&self)
        ensures { (rows : CentreRows) → yet_fed rows false self.now []
            ≡ record { events = []; end = Ended } }
    {
        let _held = &self.held;
    }

    /// The line grows by an octet, if it may.
    fn grow(&mut self, octet: u8) -> Result<FeedSays, AllocError>
        requires { octet ≢ 10 }
        ensures says { IfOk result (λ says. (rows : CentreRows)
            → TakesOctet rows self.old octet self.new says × MayBeSaid rows says) }
    {
        if self.held.len() > LINE_LIMIT {
            return Ok(FeedSays::Ends(FeedEnd::LongLine { line: self.number }));
        }
        self.held.push(octet)?;
        Ok(FeedSays::Nothing)
    }

    /// The line that is held, without a CR at its end.
    fn line(&self) -> &[u8]
        ensures { result.now ≡ strip_carriage_return self.now.held }
    {
        match self.held.as_slice() {
            [line @ .., b'\r'] => line,
            line => line,
        }
    }

    /// The next line begins.
    fn begin(&mut self)
        ensures { self.new ≡ record { held = []; number = next_count self.old.number } }
    {
        self.held.clear();
        self.number = count_fault(self.number, true);
    }
}

/// What a line with this number says.
fn read_line(
    alloc: Global,
    centre: &Centre,
    number: u64,
    line: &[u8],
) -> Result<FeedSays, AllocError>
    ensures says { IfOk result (λ says. says ≡ line_says centre.now number line.now) }
    ensures may { IfOk result (λ says. MayBeSaid centre.now says) }
{
    if line.len() > LINE_LIMIT {
        return Ok(FeedSays::Ends(FeedEnd::LongLine { line: number }));
    }
    if is_skipped(line) {
        return Ok(FeedSays::Nothing);
    }
    let Some(event) = read_feed_line(alloc, centre, line)? else {
        return Ok(FeedSays::Ends(FeedEnd::BadLine { line: number }));
    };
    Ok(asks_or_stops(event))
}

/// What a line says that has an event.
fn asks_or_stops(event: Event) -> FeedSays
    ensures { result ≡ (if is_stop event then Ends StopLine else Asks event) }
{
    if is_stop(&event) {
        FeedSays::Ends(FeedEnd::StopLine)
    } else {
        FeedSays::Asks(event)
    }
}

/// True exactly where an event stops the node.
fn is_stop(event: &Event) -> bool
    ensures { result ≡ is_stop event.now }
{
    matches!(event.kind(), EventKind::Stop)
}
