//! What lies outside the program beyond sources and sinks: links to other nodes, the listener that
//! gives them and the clock, with doubles of them in memory, and what starts jobs in threads. Each
//! object counts its faults; no call fails in silence, and none claims a fault that wasn't.

mod answers;
mod clock;
mod job;
mod link;
mod listener;
mod script;
mod script_clock;
mod script_link;
mod script_listener;

pub use clock::{Clock, READING_LIMIT};
pub use job::{Job, Spawner, Start};
pub use link::{Link, Recv};
pub use listener::{Accept, Listener};
pub use script::LinkItem;
pub use script_clock::ScriptClock;
pub use script_link::ScriptLink;
pub use script_listener::ScriptListener;
