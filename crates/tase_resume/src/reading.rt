//! The text of a snapshot, read.
ghost use Rattle.std.specs.Prelude.{◌≡◌, ◌^◌, ◌||◌, ◌∷◌, ◌++◌, [], if◌then◌else◌, is_none};
ghost use Rattle.std.specs.Prelude.{slice_get, IfOk, IfSome, OnOk};
ghost use Rattle.std.specs.Arc.{arc_value};
ghost use Rattle.std.specs.Str.Lines.{lines};
ghost use Rattle.tase_resume.specs.Snapshots as own;
ghost use Rattle.tase_resume.specs.Snapshots.{IsSnapshot, snapshot_in, snapshot_with, line_read};
ghost use Rattle.tase_resume.specs.Reading.{state_of, IsTaken, TakesLine, TakesLines};

use crate::entries::Snapshot;
use crate::turns::{Standing, is_defined, next_of, standing_behind};
use bilateral::Centre;
use look_count::no_looks;
use node_core::Node;
use plain_text::next_line;
use std::alloc::{AllocError, Global};
use std::sync::Arc;
use tase_views::{Entry, Event, StepFault};
use texts::journal::read_entry;

/// What the history of a snapshot may weigh at most, in octets.
const SNAPSHOT_LIMIT: u64 = 2_147_483_648;

/// The snapshot of a centre that a text is; or the number of the first line that is no entry, that
/// may not follow those before it, or that lacks its LF. A text that ends inside an association is
/// bad at the line behind its last. Lines count from 1, and the count stands still at 2^64 - 1.
pub fn read_snapshot(
    alloc: Global,
    centre: &Arc<Centre>,
    text: &[u8],
) -> Result<Result<Snapshot, u64>, AllocError>
    ensures read { IfOk result (λ read. read ≡ snapshot_in (arc_value centre.now) text.now) }
    ensures sound { IfOk result (λ read. IfOk read (IsSnapshot (arc_value centre.now))) }
{
    let mut node = Node::new(alloc, centre.clone()?, SNAPSHOT_LIMIT)?;
    match take_lines(alloc, &mut node, text)? {
        Ok(()) => {
            let entries = entries_of(alloc, &node)?;
            Ok(Ok(entries))
        }
        Err(line) => Ok(Err(line)),
    }
}

/// The entries of a node's history.
fn entries_of(alloc: Global, node: &Node) -> Result<Snapshot, AllocError>
    ensures { IfOk result (λ entries. entries ≡ node.now.history) }
{
    let mut entries = Snapshot::new(alloc);
    for place in 0..node.history_len() {
        put_entry(&mut entries, node, place)?;
    }
    Ok(entries)
}

/// Adds the entry at a place.
fn put_entry(out: &mut Snapshot, node: &Node, place: u64) -> Result<(), AllocError>
    ensures { IfSome (slice_get node.now.history place) (λ entry.
        OnOk result (out.new ≡ out.old ++ entry ∷ [])) }
{
    match node.entry(place)? {
        Some(entry) => out.push(entry),
        None => Ok(()),
    }
}

/// Has a node take the entries of the lines of a text, which end outside an association.
fn take_lines(alloc: Global, node: &mut Node, text: &[u8]) -> Result<Result<(), u64>, AllocError>
    requires limit { node.old.setup.limit ≡ 2 ^ 31 }
    ensures { IfOk result (TakesLines node.old node.new text.now) }
{
    let ended = ends_lines(text);
    let mut standing = Standing {
        last: None,
        defining: None,
    };
    let mut rest = text;
    let mut number: u64 = 1;
    while let Some((line, more)) = next_line(rest) {
        let Some(next) = take_line(alloc, node, standing, line, is_whole(more, ended))? else {
            return Ok(Err(number));
        };
        standing = next;
        rest = more;
        number = number.saturating_add(1);
    }
    Ok(end_of(standing.defining, number))
}

/// The end of a text whose lines before the one with this number are taken: inside an association
/// that line is missing.
fn end_of(defining: Option<bool>, number: u64) -> Result<(), u64>
    ensures { result ≡ (if is_none defining then Ok tt else Err number) }
{
    match defining {
        None => Ok(()),
        Some(_) => Err(number),
    }
}

/// Has a node take the entry of a line, which has its LF or lacks it, and tells where that leaves
/// the snapshot, where there is an entry that may follow.
fn take_line(
    alloc: Global,
    node: &mut Node,
    before: Standing,
    line: &[u8],
    whole: bool,
) -> Result<Option<Standing>, AllocError>
    requires limit { node.old.setup.limit ≡ 2 ^ 31 }
    ensures { IfOk result (TakesLine node.old node.new
        (line_read node.old.setup.centre (state_of node.old before) whole line.now)) }
{
    if !whole {
        return Ok(None);
    }
    match read_entry(alloc, line)? {
        Some(entry) => take_entry(alloc, node, before, entry),
        None => Ok(None),
    }
}

/// Has a node take an entry, and tells where that leaves the snapshot, where it may follow.
fn take_entry(
    alloc: Global,
    node: &mut Node,
    before: Standing,
    entry: Entry,
) -> Result<Option<Standing>, AllocError>
    requires limit { node.old.setup.limit ≡ 2 ^ 31 }
    ensures { IfOk result (TakesLine node.old node.new
        (snapshot_with node.old.setup.centre (state_of node.old before) entry)) }
{
    let Entry { who, event } = entry;
    if who == 0 {
        take_event(alloc, node, before, event)
    } else {
        Ok(None)
    }
}

/// Has a node take an event of the centre's seat.
fn take_event(
    alloc: Global,
    node: &mut Node,
    before: Standing,
    event: Event,
) -> Result<Option<Standing>, AllocError>
    requires limit { node.old.setup.limit ≡ 2 ^ 31 }
    ensures { IfOk result (TakesLine node.old node.new
        (snapshot_with node.old.setup.centre (state_of node.old before)
        (record { who = 0; event = event }))) }
{
    let defined = standing_behind(before, &event, true);
    let other = standing_behind(before, &event, false);
    let taken = step(alloc, node, event)?;
    Ok(next_of(taken, defined, other))
}

/// Has a node take an event of the centre's seat, and tells whether it is answered as the definition
/// of a data set is; none where the node refuses it.
fn step(alloc: Global, node: &mut Node, event: Event) -> Result<Option<bool>, AllocError>
    ensures { IfOk result (IsTaken node.old node.new event) }
{
    let mut looks = no_looks();
    match node.step(alloc, 0, event, &mut looks) {
        Ok(answer) => Ok(Some(is_defined(&answer))),
        Err(StepFault::Memory) => Err(AllocError),
        Err(_) => Ok(None),
    }
}

/// Whether a text ends with LF; one without octets lacks none.
fn ends_lines(text: &[u8]) -> bool
    ensures { result ≡ own.ends_lines text.now }
{
    text.last().copied().unwrap_or(b'\n') == b'\n'
}

/// Whether a line has its LF, where this stands behind it, and the text ends with LF or doesn't.
fn is_whole(behind: &[u8], ended: bool) -> bool
    ensures { result ≡ (own.some_left (lines behind.now) || ended) }
{
    match next_line(behind) {
        Some(_) => true,
        None => ended,
    }
}
