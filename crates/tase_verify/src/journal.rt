//! A journal, read: each line an entry that a node takes.
ghost use Rattle.std.specs.Prelude.{◌≡◌, ◌||◌, Some, Err, IfOk, MatchResult};
ghost use Rattle.std.specs.Arc.{arc_value};
ghost use Rattle.std.specs.Str.Lines.{lines};
ghost use Rattle.tase_verify.specs.JournalIn as own;
ghost use Rattle.tase_verify.specs.JournalIn.{journal_in, has_lines, past_with, past_with_line};
ghost use Rattle.tase_verify.specs.Verifying.{journal_setup, IsJournal};
ghost use Rattle.tase_verify.specs.Reading.{IsTaken, past_of, TakesLine, TakesLines};

use crate::association::AnsweredEvent;
use crate::watch::Watch;
use bilateral::Centre;
use look_count::no_looks;
use node_core::Node;
use plain_text::next_line;
use sbo_device::Key;
use std::alloc::{AllocError, Global};
use std::sync::Arc;
use tase_views::{Answer, Entry, Event, StepFault};
use texts::journal::read_entry;

/// What the history of a journal may weigh at most, in octets.
const JOURNAL_LIMIT: u64 = 2_147_483_648;

const _: () = prove!(JOURNAL_LIMIT == 2_147_483_648);

/// A reader of a journal.
#[derive(Drop)]
struct Reader {
    /// The node that takes its entries.
    node: Node,
    watch: Watch,
}

/// The events of one association of a journal, if one is meant, in order, with what a node answers
/// to them; or the number of the first line that is no entry, that the node refuses, or that lacks
/// its LF. Lines count from 1, and the count stands still at 2^64 - 1.
pub fn read_journal(
    alloc: Global,
    centre: &Arc<Centre>,
    text: &[u8],
    key: Option<Key>,
) -> Result<Result<Vec<AnsweredEvent>, u64>, AllocError>
    ensures { IfOk result (λ read. MatchResult read
        (λ answered. IsJournal (journal_setup (arc_value centre.now)) text.now key answered.items)
        (λ line. journal_in (journal_setup (arc_value centre.now)) text.now ≡ Err line)) }
{
    let node = Node::new(alloc, centre.clone()?, JOURNAL_LIMIT)?;
    let watch = Watch::new(alloc, key);
    let mut reader = Reader { node, watch };
    match reader.take_lines(alloc, text)? {
        Ok(()) => Ok(Ok(reader.watch.answered)),
        Err(line) => Ok(Err(line)),
    }
}

impl Reader {
    /// Takes the entries of the lines of a text.
    fn take_lines(&mut self, alloc: Global, text: &[u8]) -> Result<Result<(), u64>, AllocError>
        ensures { IfOk result (TakesLines self.old self.new text.now) }
    {
        let ended = is_ended(text);
        let mut rest = text;
        let mut number: u64 = 1;
        while let Some((line, more)) = next_line(rest) {
            if !self.take_line(alloc, line, is_whole(more, ended))? {
                return Ok(Err(number));
            }
            rest = more;
            number = number.saturating_add(1);
        }
        Ok(Ok(()))
    }

    /// Takes the entry of a line, which has its LF or lacks it, and tells whether there is one that
    /// the node takes.
    fn take_line(&mut self, alloc: Global, line: &[u8], whole: bool) -> Result<bool, AllocError>
        ensures { IfOk result (TakesLine self.old self.new
            (past_with_line self.old.node.setup (past_of self.old) whole line.now)) }
    {
        if !whole {
            return Ok(false);
        }
        match read_entry(alloc, line)? {
            Some(entry) => self.take(alloc, entry),
            None => Ok(false),
        }
    }

    /// Has the node take an entry, and tells whether it does.
    fn take(&mut self, alloc: Global, entry: Entry) -> Result<bool, AllocError>
        ensures { IfOk result (TakesLine self.old self.new
            (past_with self.old.node.setup (past_of self.old) (Some entry))) }
    {
        let Entry { who, event } = entry;
        let kept = self.watch.copy_of(who, &event)?;
        match answer_of(&mut self.node, alloc, who, event)? {
            Some(answer) => {
                self.watch.note(who, kept, answer)?;
                Ok(true)
            }
            None => Ok(false),
        }
    }
}

/// What a node answers to an event of a seat; none where it refuses it.
fn answer_of(
    node: &mut Node,
    alloc: Global,
    who: u64,
    event: Event,
) -> Result<Option<Answer>, AllocError>
    ensures { IfOk result (IsTaken node.old node.new who event) }
{
    let mut looks = no_looks();
    match node.step(alloc, who, event, &mut looks) {
        Ok(answer) => Ok(Some(answer)),
        Err(StepFault::Memory) => Err(AllocError),
        Err(_) => Ok(None),
    }
}

/// Whether a text ends with LF; one without octets lacks none.
fn is_ended(text: &[u8]) -> bool
    ensures { result ≡ own.is_ended text.now }
{
    text.last().copied().unwrap_or(b'\n') == b'\n'
}

/// Whether a line has its LF, where this stands behind it, and the text ends with LF or doesn't.
fn is_whole(behind: &[u8], ended: bool) -> bool
    ensures { result ≡ (has_lines (lines behind.now) || ended) }
{
    match next_line(behind) {
        Some(_) => true,
        None => ended,
    }
}
