//! How an asking end ended, told on standard output behind what it showed. It takes no memory.
ghost use Rattle.std.specs.Prelude.{List, ℕ};
ghost use Rattle.outside.specs.Sink.{SinkTold, WritesAll};
ghost use Rattle.tase_tool.specs.Asking.Ending.{TellsPeer, refused_line};
ghost use Rattle.tase_tool.specs.Lines.{stray_line};

use crate::lines::{write_line, write_number, write_words};
use commands::io::Status;
use itoa::Buffer;
use outside::{Sink, SinkFailed};
use stack_assoc::listing::{layer_name, why_name};
use stack_assoc::messages::StackFault;

/// The status behind a line on what the peer gave, which was written so.
pub(crate) fn peer_status(written: Result<(), SinkFailed>) -> Status
    ensures { (text : List ℕ) (before after : SinkTold) → WritesAll before after text written
        → TellsPeer text before after result }
{
    match written {
        Ok(()) => Status::Peer,
        Err(SinkFailed) => Status::Outside,
    }
}

/// `peer refused LAYER PLACE WHY`.
pub(crate) fn write_refused<K: Sink>(sink: &mut K, fault: StackFault) -> Result<(), SinkFailed>
    ensures { WritesAll (K.told sink.old) (K.told sink.new) (refused_line fault) result }
{
    let mut place = Buffer::new();
    let digits = place.format(fault.place);
    write_words(sink, b"peer refused", layer_name(fault.layer).as_bytes())?;
    write_line(sink, b"", digits.as_bytes(), why_name(fault.why).as_bytes())
}

/// `stray INVOKE`.
pub(crate) fn write_stray<K: Sink>(sink: &mut K, invoke: u32) -> Result<(), SinkFailed>
    ensures { WritesAll (K.told sink.old) (K.told sink.new) (stray_line invoke) result }
{
    write_number(sink, b"stray ", u64::from(invoke))
}
