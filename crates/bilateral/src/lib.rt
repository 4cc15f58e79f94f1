//! The bilateral tables of a control centre: its points and devices, and for each peer what that
//! peer may see and operate (IEC 60870-6-503, bilateral agreements and tables).
#![tactic(auto)]

mod adding;
mod centre;
mod device_line;
mod fault;
mod faults;
mod index;
mod laws;
mod limit_line;
mod limit_rows;
mod line;
mod peer_tables;
mod reading;
mod rows;
mod see_line;
mod store;
pub mod words;

pub use crate::words::{IDENTIFIER_LIMIT, NAME_LIMIT};
pub use centre::{Centre, peer_of};
pub use fault::{TableFault, TableWhy};
pub use laws::{names_stand_once, one_reading, read_tables_are_lawful, written_tables_are_read};
pub use line::TableLine;
pub use reading::read_centre;
pub use rows::{
    Control, Controls, DEVICE_LIMIT, DeviceRow, PEER_LIMIT, PENDING_DEFAULT, PENDING_LEAST,
    PENDING_LIMIT, POINT_LIMIT, PointRow, SEE_LIMIT, SET_DEFAULT, SET_LIMIT, SLOT_DEFAULT,
    SLOT_LIMIT, See, Sees, Table, VARIANT_LIMIT,
};
pub use sbo_device::SPAN_LIMIT;
