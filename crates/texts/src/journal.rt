//! The entries of a history as the lines of a journal, written and read.

mod laws;
mod parts;
mod reading;
mod writing;

pub use laws::{calls_are_their_words, entries_are_their_text, journals_are_their_entries};
pub use parts::{calls_have_words, entries_have_texts, events_have_texts};
pub use reading::read_entry;
pub use writing::{spell_entry, spell_seat_event};
