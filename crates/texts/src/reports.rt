//! Texts of reports, written and read.

mod reading;
mod writing;

pub use reading::read_report;
pub use writing::spell_report;
