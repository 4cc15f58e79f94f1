//! The words of commands: whether words are a command, and the names and numbers that it uses.

mod grammar;
mod matched;
mod reading;
mod words;

pub use reading::read_command;
pub use words::{
    ClientWords, Command, DiscoverWords, HISTORY_LIMIT, Options, Question, ServeWords,
};
