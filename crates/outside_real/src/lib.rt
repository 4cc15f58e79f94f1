//! The real outside: files, standard input and standard output, connections of TCP, and the clocks
//! of the system. It tells nothing of what they carry; each object counts its faults.
#![tactic(auto)]

mod boxed_reader;
mod clock;
mod gate;
mod limits;
mod link;
mod listener;
mod named;
mod notices;
mod options;
mod real_outside;
mod sink;
mod socket;
mod source;
mod steady_clock;
mod stream;
mod system_clock;
mod tcp;
mod turns;

pub use boxed_reader::BoxedReader;
pub use clock::{ClockAttempt, RealClock};
pub use gate::AcceptAttempt;
pub use link::RealLink;
pub use listener::RealListener;
pub use named::NamedStream;
pub use notices::Notices;
pub use real_outside::RealOutside;
pub use sink::WriteSink;
pub use socket::{SILENCE_LIMIT, SocketAttempt};
pub use source::ReadSource;
pub use steady_clock::{ClockNotice, Clocks, SteadyClock};
pub use stream::{ReadAttempt, Stream, WriteAttempt};
pub use system_clock::SystemClocks;
pub use tcp::{TcpGate, TcpSocket};

/// How often a call that a signal interrupts is tried.
const TRIES: u32 = 1000;

// With none, a call would fail without an attempt.
const _: () = prove!(TRIES > 0);
