//! Texts of names, of data and of outcomes of access, and how long they are.

mod data_text;
mod laws;
mod name_text;
mod outcome_text;
mod spelling;
mod text_lengths;
mod word_front;
mod word_value;

pub use data_text::read_data_text;
pub use laws::data_texts_have_one_reading;
pub use name_text::{read_name, spell_name};
pub use outcome_text::spell_outcome;
pub use spelling::spell_data;
pub use text_lengths::{data_text_len, name_text_len, scope_text_len};
