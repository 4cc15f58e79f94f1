//! How a client ended, told on standard output behind what it showed. It takes no memory.
ghost use Rattle.outside.specs.Sink.{WritesAll};
ghost use Rattle.tase_tool.specs.Client.Ending.{TellsRunEnd, TellsClientEnd};
ghost use Rattle.tase_tool.specs.Client.Ending as own;

use crate::asking::ending::{peer_status, write_refused, write_stray};
use crate::lines::write_line;
use centre_client::Checkback;
use centre_client::service::RunEnd;
use commands::io::{Status, tell};
use itoa::Buffer;
use outside::{Sink, SinkFailed};
use tase_discover::asking::AskEnd;

/// Tells how the run of a client ended, where its link and its sink haven't failed.
pub(crate) fn tell_run_end<K: Sink>(sink: &mut K, end: RunEnd<Checkback>) -> Status
    ensures { TellsRunEnd end (K.told sink.old) (K.told sink.new) result }
{
    match end {
        RunEnd::Ended(end) => tell_client_end(sink, end),
        RunEnd::LinkFault => Status::Outside,
        RunEnd::SinkFault => Status::Outside,
    }
}

/// Tells how a client ended, where its script wasn't played to its end.
fn tell_client_end<K: Sink>(sink: &mut K, end: AskEnd<Checkback>) -> Status
    ensures { TellsClientEnd end (K.told sink.old) (K.told sink.new) result }
{
    match end {
        AskEnd::Finished => Status::Done,
        AskEnd::PeerEnd => tell(sink, Status::Peer, b"peer end\n"),
        AskEnd::Refused(fault) => peer_status(write_refused(sink, fault)),
        AskEnd::Rejected => tell(sink, Status::Peer, b"peer rejected\n"),
        AskEnd::Stray { invoke } => peer_status(write_stray(sink, invoke)),
        AskEnd::ByAgenda(checkback) => peer_status(write_checkback(sink, checkback)),
        AskEnd::Memory => Status::Memory,
    }
}

/// `checkback WANT GOT`.
fn write_checkback<K: Sink>(sink: &mut K, checkback: Checkback) -> Result<(), SinkFailed>
    ensures { WritesAll (K.told sink.old) (K.told sink.new) (own.checkback_line checkback)
        result }
{
    let mut wanted = Buffer::new();
    let mut given = Buffer::new();
    let first = wanted.format(checkback.want);
    let second = given.format(checkback.got);
    write_line(sink, b"checkback", first.as_bytes(), second.as_bytes())
}
