//! What the text of case files says: cases, each with the words of a command, what stands outside
//! and what must come of it; and the nodes and the clock in memory that a case says.

mod cases;
mod entries;
mod failing;
mod inputs;
mod lines;
mod network;
mod sheet;

pub use cases::{Case, Wanted, WantedFile, subject};
pub use failing::{Device, Failing, Failures};
pub use inputs::{Input, Part};
pub use network::{Listening, Network, Node};
pub use sheet::{BadLine, Sheet, read_cases};
