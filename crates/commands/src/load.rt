//! The load run: the texts of tables with 64 peers over 2,000 points and of a scenario of many
//! rounds over them, and what is told of a run of both.

mod kept_text;
mod laws;
mod scenario;
mod summary;
mod tables;
mod tally;

pub use kept_text::KeptText;
pub use laws::load_tables_are_read;
pub use scenario::{MOST_ROUNDS, write_load_scenario};
pub use summary::spell_summary;
pub use tables::write_load_tables;
pub use tally::{Tally, tally_of};
