//! What the commands of the program share: their words, their inputs and what they print, the files
//! of a node, and the texts of the load run.
#![tactic(auto)]

pub mod files;
pub mod io;
pub mod load;
pub mod words;
