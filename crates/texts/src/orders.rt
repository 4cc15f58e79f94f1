//! The orders to a plant, as the lines by which it is told them.

mod plant_line;

pub use plant_line::write_orders;
