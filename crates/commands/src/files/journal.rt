//! The journal of a node: its history as a text, a line for each entry.
ghost use Rattle.std.specs.Prelude.{◌≡◌, ◌∷◌, [], ◌++◌, IfSome, slice_get};
ghost use Rattle.outside.specs.Sink.{WritesAll};
ghost use Rattle.commands.specs.Io.Saying.{prints};
ghost use Rattle.commands.specs.Io.Runs.{TellsSaid, IsFileEnd, WritesFile};
ghost use Rattle.texts.specs.Journal.Journals.{entry_line, journal_text};
ghost use Rattle.commands.specs.Io.Runs as own;
ghost use Rattle.commands.specs.Files.Kept.{KeepsJournal, status_of_write};

use crate::io::Status;
use node_core::Node;
use outside::names::Outside;
use outside::{BufferedSink, Sink, SinkFailed, write_all};
use std::alloc::Global;

/// Writes the journal of a node to the file of this name, once a command has ended with a status
/// whose output is whole; behind another it leaves the file as it was. It answers the status of
/// both.
pub fn keep_journal<O: Outside>(
    alloc: Global,
    outside: &mut O,
    node: &Node,
    name: &str,
    status: Status,
) -> Status
    ensures { KeepsJournal name.now (journal_text node.now.history) status
        (O.told outside.old) (O.told outside.new) result }
{
    match status {
        Status::Outside | Status::Memory => status,
        _ => status_behind(status, write_journal(alloc, outside, node, name)),
    }
}

/// The status of a command that has ended with one, and has written a file with another since.
pub fn status_behind(status: Status, written: Status) -> Status
    ensures { result ≡ own.status_behind status written }
{
    match written {
        Status::Outside | Status::Memory => written,
        _ => status,
    }
}

/// Opens the file of a journal, writes it, and closes the file. It answers done, a fault of the
/// outside, or want of memory; then it has a front part of the journal.
pub fn write_journal<O: Outside>(alloc: Global, outside: &mut O, node: &Node, name: &str) -> Status
    ensures { WritesFile name.now (journal_text node.now.history)
        (O.told outside.old) (O.told outside.new) result }
{
    let Some(sink) = outside.open_out(name) else {
        return Status::Outside;
    };
    let (sink, status) = write_gathered(alloc, node, sink);
    outside.close_out(sink);
    status
}

// Writes the journal of a node; it is gathered, and goes out in large pieces.
fn write_gathered<K: Sink + Drop>(alloc: Global, node: &Node, sink: K) -> (K, Status)
    requires { (K.told sink).held ≡ 0 }
    ensures ends { IsFileEnd result.1 }
    ensures tells { TellsSaid (prints Status.Done (journal_text node.now.history))
        (K.told sink) (K.told result.0) result.1 }
{
    let mut gathering = match BufferedSink::new(alloc, sink) {
        Ok(gathering) => gathering,
        Err(sink) => return (sink, Status::Memory),
    };
    match write_entries(node, &mut gathering) {
        Status::Outside => (gathering.into_sink(), Status::Outside),
        status => match gathering.finish() {
            (sink, Ok(())) => (sink, status),
            (sink, Err(SinkFailed)) => (sink, Status::Outside),
        },
    }
}

// Writes a line for each entry of a node's history.
fn write_entries<K: Sink>(node: &Node, sink: &mut K) -> Status
    ensures ends { IsFileEnd result }
    ensures tells { TellsSaid (prints Status.Done (journal_text node.now.history))
        (K.told sink.old) (K.told sink.new) result }
{
    for place in 0..node.history_len() {
        match write_entry(node, place, sink) {
            Status::Done => {}
            end => return end,
        }
    }
    Status::Done
}

// Writes the line of the entry at a place.
fn write_entry<K: Sink>(node: &Node, place: u64, sink: &mut K) -> Status
    ensures ends { IsFileEnd result }
    ensures tells { IfSome (slice_get node.now.history place) (λ entry.
        TellsSaid (prints Status.Done (entry_line entry))
        (K.told sink.old) (K.told sink.new) result) }
{
    match node.journal_line(place) {
        Some(line) => written(write_line(sink, line)),
        None => Status::Done,
    }
}

// Writes a line and its end.
fn write_line<K: Sink>(sink: &mut K, line: &[u8]) -> Result<(), SinkFailed>
    ensures { WritesAll (K.told sink.old) (K.told sink.new) (line.now ++ 10 ∷ []) result }
{
    write_all(sink, line)?;
    write_all(sink, b"\n")
}

// How a line ends that was written so.
fn written(end: Result<(), SinkFailed>) -> Status
    ensures { result ≡ status_of_write end }
{
    match end {
        Ok(()) => Status::Done,
        Err(SinkFailed) => Status::Outside,
    }
}
