//! Data sets: lists of variables that a peer has defined and named
//! (IEC 60870-6-503, data sets; named variable lists of ISO 9506-2).
#![tactic(auto)]

mod book;

pub use book::{MOST_MEMBERS, Members, SetBook, SetFault, books_are_lawful};
