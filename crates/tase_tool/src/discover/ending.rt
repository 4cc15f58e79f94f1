//! How a listing ended, told on standard output behind the lines that it showed. It takes no
//! memory.
ghost use Rattle.std.specs.Prelude.{◌≡◌, ◌++◌, ◌∷◌, [], codes};
ghost use Rattle.outside.specs.Sink.{WritesAll};
ghost use Rattle.plain_text.specs.Escaped.{escaped_octet, escaped_text};
ghost use Rattle.tase_tool.specs.Asking.Ending.{TellsAskEnd, finish_status};
ghost use Rattle.tase_tool.specs.Discover.Ending.{TellsListing, ended_text, offers_same};
ghost use Rattle.tase_tool.specs.Discover.Ending as own;
ghost use Rattle.tase_discover.specs.Ends.{item_from_end};

use crate::asking::ending::{peer_status, write_refused, write_stray};
use crate::lines::{write_both, write_number};
use crate::verdicts::digits_of;
use commands::io::{Status, tell};
use mms_data::Name;
use outside::{Sink, SinkFailed, write_all};
use plain_text::is_plain;
use tase_discover::asking::service::{RunEnd, Talk};
use tase_discover::asking::{AskEnd, AskingEnd};
use tase_discover::{Listing, ListingEnd};

/// Tells how the run of a listing ended, where its link and its sink haven't failed.
pub(crate) fn tell_listing<K: Sink>(
    sink: &mut K,
    talk: &Talk<Listing>,
    end: RunEnd<ListingEnd>,
) -> Status
    ensures { TellsListing talk.now.asking end (K.told sink.old) (K.told sink.new) result }
{
    match end {
        RunEnd::Ended(end) => tell_end(sink, talk.asking(), end),
        RunEnd::LinkFault => Status::Outside,
        RunEnd::SinkFault => Status::Outside,
    }
}

/// Tells how a listing ended, where it didn't come to its end.
fn tell_end<K: Sink>(sink: &mut K, asking: &AskingEnd<Listing>, end: AskEnd<ListingEnd>) -> Status
    ensures { TellsAskEnd (offers_same asking.now) (ended_text asking.now) end (K.told sink.old)
        (K.told sink.new) result }
{
    match end {
        AskEnd::Finished => finished(asking.agenda().is_same()),
        AskEnd::PeerEnd => tell(sink, Status::Peer, b"peer end\n"),
        AskEnd::Refused(fault) => peer_status(write_refused(sink, fault)),
        AskEnd::Rejected => tell(sink, Status::Peer, b"peer rejected\n"),
        AskEnd::Stray { invoke } => peer_status(write_stray(sink, invoke)),
        AskEnd::ByAgenda(end) => peer_status(write_ended(sink, asking, end)),
        AskEnd::Memory => Status::Memory,
    }
}

/// The status of a listing that came to its end.
fn finished(same: bool) -> Status
    ensures { result ≡ finish_status same }
{
    if same { Status::Done } else { Status::Differs }
}

/// The line of a listing that ended by what it heard.
fn write_ended<K: Sink>(
    sink: &mut K,
    asking: &AskingEnd<Listing>,
    end: ListingEnd,
) -> Result<(), SinkFailed>
    ensures { WritesAll (K.told sink.old) (K.told sink.new) (ended_text asking.now end) result }
{
    let names = asking.agenda().names();
    match end {
        ListingEnd::Unordered => write_unordered(sink, names),
        ListingEnd::TooMany => write_number(sink, b"toomany ", names.len() as u64),
        ListingEnd::Other => write_number(sink, b"other ", u64::from(asking.last())),
    }
}

/// `unordered LAST GOT`.
fn write_unordered<K: Sink>(sink: &mut K, names: &[Name]) -> Result<(), SinkFailed>
    ensures { WritesAll (K.told sink.old) (K.told sink.new)
        (own.unordered_line names.now) result }
{
    write_item(sink, b"unordered ", from_end(names, 2))?;
    write_last(sink, from_end(names, 1))
}

/// A name's item behind another one, and the end of the line.
fn write_last<K: Sink>(sink: &mut K, item: &[u8]) -> Result<(), SinkFailed>
    ensures { WritesAll (K.told sink.old) (K.told sink.new)
        (codes " " ++ escaped_text item.now ++ 10 ∷ []) result }
{
    write_item(sink, b" ", item)?;
    write_all(sink, b"\n")
}

/// The item of the name so many from the end.
fn from_end(names: &[Name], count: usize) -> &[u8]
    ensures { result.now ≡ item_from_end names.now count }
{
    match names.get(names.len().saturating_sub(count)) {
        Some(name) => name.item().as_slice(),
        None => &[],
    }
}

/// A text, and a name's item in escaped text.
fn write_item<K: Sink>(sink: &mut K, before: &[u8], item: &[u8]) -> Result<(), SinkFailed>
    ensures { WritesAll (K.told sink.old) (K.told sink.new)
        (before.now ++ escaped_text item.now) result }
{
    write_all(sink, before)?;
    write_escaped(sink, item)
}

/// Octets as escaped text.
fn write_escaped<K: Sink>(sink: &mut K, octets: &[u8]) -> Result<(), SinkFailed>
    ensures { WritesAll (K.told sink.old) (K.told sink.new) (escaped_text octets.now) result }
{
    for octet in octets {
        write_octet(sink, *octet)?;
    }
    Ok(())
}

/// One octet of escaped text.
fn write_octet<K: Sink>(sink: &mut K, octet: u8) -> Result<(), SinkFailed>
    ensures { WritesAll (K.told sink.old) (K.told sink.new) (escaped_octet octet) result }
{
    if is_plain(octet) {
        write_all(sink, &[octet])
    } else {
        write_both(sink, b"%", &digits_of(octet))
    }
}
