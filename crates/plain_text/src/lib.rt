//! Plain text: lines, words, decimal and hexadecimal numbers, escaped text, and how long these are.
#![tactic(auto)]

mod counted_words;
mod escaped;
mod hexadecimal;
mod laws;
mod lengths;
mod lines;
mod numbers;
mod words;

pub use counted_words::{four_words, three_words, two_words};
pub use escaped::{escaped_value, is_plain, push_escaped, read_escaped};
pub use hexadecimal::{hex_value, push_hex, read_hex, read_hex_four, read_hex_octet};
pub use laws::{escaped_is_read_back, number_is_its_digits};
pub use lengths::{MOST_LEN, add_len, decimal_len, escaped_len, signed_decimal_len};
pub use lines::{is_skipped, next_line};
pub use numbers::{push_decimal, push_signed_decimal, read_integer, read_number};
pub use words::{is_spaced, next_part, next_word};
