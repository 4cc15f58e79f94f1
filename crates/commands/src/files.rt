//! The files of a node: its tables are read, and its journal is written.

mod journal;
mod tables;

pub use journal::{keep_journal, status_behind, write_journal};
pub use tables::{read_lines, read_tables};
