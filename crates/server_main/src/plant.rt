//! A plant that takes its orders from a shared node, and what it has of them.

mod laws;
mod taking;

pub use laws::orders_are_told_once;
pub use taking::{OrderTaker, OrdersTaken};
