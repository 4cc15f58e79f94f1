//! Values of points as data of MMS (IEC 60870-6-802, indication points).
#![tactic(auto)]

mod checking;
mod parts;
mod reading;
mod showing;

pub use reading::from_data;
pub use showing::to_data;
