//! What the program opens: sources and sinks by name, listeners and links by address, and the
//! clock; with a double of it in memory. A call that hands nothing out counts a fault.

mod asked;
mod memory;
mod named;
mod opens;
mod places;

pub use asked::{AskedName, MOST_NAMES, NAME_ROOM};
pub use memory::MemoryOutside;
pub use opens::Outside;
