//! The command `decode`: the messages of a captured stream.
ghost use Rattle.std.specs.Prelude.{◌≡◌, ◌≤◌, [], length, true, codes, IsOk};
ghost use Rattle.commands.specs.Io.Saying.{duty_to_say};
ghost use Rattle.commands.specs.Io.Runs.{IsRun, TellsSaid};
ghost use Rattle.commands.specs.Io.Plans.{says, RunsPlan, EndsPlan, octets_of};
ghost use Rattle.capture_text.specs.Captures.{capture_in};
ghost use Rattle.tpkt_cotp.specs.declared.limits.TheConstants.{PIECE_LIMIT};
ghost use Rattle.stack_assoc.specs.Listing.Listings.{listing_of, yet_listed};
ghost use Rattle.tase_tool.specs.Listing.{stream_said, listing_said, ListsOn};
ghost use Rattle.tase_tool.specs.Listing as own;
ghost use Rattle.tase_tool.specs.Lacking.{LacksText, LacksMessages, LacksCapture};
ghost use Rattle.tase_tool.specs.Saying.{list_plan};

use crate::captures::refuse_line;
use capture_text::{Pieces, read_pieces};
use commands::io::{InputEnd, OUTPUT, Status, TEXT_LIMIT, end_unread, read_input};
use outside::names::Outside;
use outside::{BufferedSink, Sink, SinkFailed, write_all};
use stack_assoc::listing::Lister;
use std::alloc::{AllocError, Global};
use tpkt_cotp::PIECE_LIMIT;

/// Reads a capture, and lists the messages of the stream that its octets are.
pub(crate) fn run_listing<O: Outside>(alloc: Global, outside: &mut O, capture: &str) -> Status
    ensures runs { RunsPlan (list_plan capture.now)
        (O.told outside.old) (O.told outside.new) result }
    ensures memory { result ≡ Status.Memory
        → LacksCapture capture.now (O.told outside.old) (O.told outside.new) }
{
    let read = read_input(alloc, outside, capture, TEXT_LIMIT);
    list_read(alloc, outside, read)
}

// Lists the stream of a capture that was read to this.
fn list_read<O: Outside>(alloc: Global, outside: &mut O, read: Result<Vec<u8>, InputEnd>) -> Status
    ensures runs { EndsPlan (codes "in")
        (λ text. says (stream_said (capture_in (octets_of text)))) read
        (O.told outside.old) (O.told outside.new) result }
    ensures memory { result ≡ Status.Memory
        → LacksText LacksMessages read (O.told outside.old) (O.told outside.new) }
{
    match read {
        Ok(text) => list_capture(alloc, outside, &text),
        Err(end) => end_unread(outside, "in", end),
    }
}

// Lists the stream that a capture holds. A bad line is told, whether memory is left or not.
fn list_capture<O: Outside>(alloc: Global, outside: &mut O, text: &[u8]) -> Status
    ensures runs { IsRun (duty_to_say true (stream_said (capture_in text.now)))
        (O.told outside.old) (O.told outside.new) result }
    ensures memory { result ≡ Status.Memory → IsOk (capture_in text.now) }
{
    match read_pieces(text) {
        Ok(pieces) => list_on_output(alloc, outside, pieces),
        Err(line) => refuse_line(alloc, outside, "in", text, line),
    }
}

// Opens standard output, lists a stream there, and closes it.
fn list_on_output<O: Outside>(alloc: Global, outside: &mut O, pieces: Pieces<'_>) -> Status
    ensures { IsRun (duty_to_say true (listing_said (listing_of pieces.entry)))
        (O.told outside.old) (O.told outside.new) result }
{
    let Some(sink) = outside.open_out(OUTPUT) else {
        return Status::Outside;
    };
    let (sink, status) = list_gathered(alloc, pieces, sink);
    outside.close_out(sink);
    status
}

// Lists a stream; the lines are gathered, and go out in large pieces.
fn list_gathered<K: Sink + Drop>(alloc: Global, pieces: Pieces<'_>, sink: K) -> (K, Status)
    requires { (K.told sink).held ≡ 0 }
    ensures { TellsSaid (listing_said (listing_of pieces.entry)) (K.told sink)
        (K.told result.0) result.1 }
{
    let mut gathering = match BufferedSink::new(alloc, sink) {
        Ok(gathering) => gathering,
        Err(sink) => return (sink, Status::Memory),
    };
    match print_listing(alloc, pieces, &mut gathering) {
        Status::Outside => (gathering.into_sink(), Status::Outside),
        status => match gathering.finish() {
            (sink, Ok(())) => (sink, status),
            (sink, Err(SinkFailed)) => (sink, Status::Outside),
        },
    }
}

// Prints the listing of the stream that a capture holds, piece by piece: the status is that of
// bad input where the last line tells a fault. It holds a piece, the lines of one, and what a
// lister holds.
fn print_listing<K: Sink>(alloc: Global, pieces: Pieces<'_>, sink: &mut K) -> Status
    ensures { TellsSaid (listing_said (listing_of pieces.entry)) (K.told sink.old)
        (K.told sink.new) result }
{
    match vec![in alloc; 0u8; PIECE_LIMIT] {
        Ok(mut room) => list_pieces(alloc, pieces, room.as_mut_slice(), sink),
        Err(AllocError) => Status::Memory,
    }
}

// Prints the listing of the stream that a capture holds, each piece of which is put into this room.
fn list_pieces<K: Sink>(alloc: Global, pieces: Pieces<'_>, room: &mut [u8], sink: &mut K) -> Status
    requires { length room.old ≡ PIECE_LIMIT }
    ensures { TellsSaid (listing_said (listing_of pieces.entry)) (K.told sink.old)
        (K.told sink.new) result }
{
    let mut pieces = pieces;
    let mut lister = Lister::new(alloc);
    let mut text = Vec::new(alloc);
    loop {
        let count = pieces.next(room);
        if count == 0 {
            return finish_list(lister, &mut text, sink);
        }
        match list_piece(lister, &room[..count], &mut text, sink) {
            Ok(next) => lister = next,
            Err(status) => return status,
        }
    }
}

// Prints the lines of the messages that are whole with this piece. `text` is where they are put
// together; what it held is gone.
fn list_piece<K: Sink>(
    lister: Lister,
    piece: &[u8],
    text: &mut Vec<u8>,
    sink: &mut K,
) -> Result<Lister, Status>
    requires { length piece.now ≤ PIECE_LIMIT }
    ensures { ListsOn lister piece.now (K.told sink.old) (K.told sink.new) result }
{
    text.clear();
    let Ok(next) = lister.feed(piece, text) else {
        return Err(Status::Memory);
    };
    match write_all(sink, text.as_slice()) {
        Ok(()) => Ok(next),
        Err(SinkFailed) => Err(Status::Outside),
    }
}

// Prints what is listed at the end of the stream.
fn finish_list<K: Sink>(lister: Lister, text: &mut Vec<u8>, sink: &mut K) -> Status
    ensures { TellsSaid (listing_said (yet_listed lister [])) (K.told sink.old) (K.told sink.new)
        result }
{
    text.clear();
    let Ok(broken) = lister.finish(text) else {
        return Status::Memory;
    };
    match write_all(sink, text.as_slice()) {
        Ok(()) => status_of(broken),
        Err(SinkFailed) => Status::Outside,
    }
}

// The status of a listing, by whether it tells a fault.
fn status_of(broken: bool) -> Status
    ensures { result ≡ own.status_of broken }
{
    if broken { Status::Input } else { Status::Done }
}
