//! Texts of calls, events and replies, and the lines that a feed may hold.

mod feed;
mod laws;
mod reading;
mod values;
mod writing;

pub use feed::{read_centre_line, read_feed_line};
pub use laws::{
    call_words_have_one_reading, places_are_of_words, values_are_their_words,
    written_calls_are_read,
};
pub use reading::{read_call, read_call_words};
pub use values::{read_small, read_tag, read_value};
pub use writing::{spell_call, spell_event, spell_reply};
