//! Lists of items.
#![tactic(auto)]

mod list;

pub use list::ItemList;
