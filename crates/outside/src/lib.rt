//! What lies outside the program: sources and sinks of octets, and doubles of them in memory. Each
//! object counts its faults; no call fails in silence, and none claims a fault that wasn't.
#![tactic(auto)]

mod buffered;
mod byte_sink;
mod faults;
pub mod links;
pub mod names;
mod object_name;
mod sink;
mod source;
mod text;
mod text_source;

pub use buffered::{BufferedSink, ROOM};
pub use byte_sink::ByteSink;
pub use faults::count_fault;
pub use object_name::ObjectName;
pub use sink::{Sink, SinkFailed, WriteEnd, write_all};
pub use source::{ReadEnd, Source};
pub use text::{PIECE, TextEnd, read_text};
pub use text_source::TextSource;
