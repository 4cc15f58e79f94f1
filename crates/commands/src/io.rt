//! What the commands of the program share: how a command ends, its inputs, each opened, read to its
//! end and closed, and what it prints.

mod input;
mod notes;
mod output;
mod status;

pub use input::{InputEnd, JOURNAL_LIMIT, Refusal, TEXT_LIMIT, read_input, value_or_end};
pub use notes::{RefusedLine, note_line, note_line_and_why, note_unread};
pub use output::{OUTPUT, end_unread, print, refuse, tell, tell_full, tell_refusal};
pub use status::Status;
