//! Devices that are selected before they are operated: who holds one, what a device takes, and
//! which of its operates are permitted (IEC 60870-6-503, device control).
#![tactic(auto)]

mod answer;
mod bank;
mod device;
mod hold;
mod key;
mod kind;
mod laws;
mod order;

pub use answer::{Operate, Select};
pub use bank::DeviceBank;
pub use device::{
    CLOSE_INHIBITED, Device, MOMENT_LIMIT, OPEN_AND_CLOSE_INHIBITED, SPAN_LIMIT, TAG_LIMIT,
};
pub use hold::Hold;
pub use key::Key;
pub use kind::CommandKind;
pub use laws::{
    devices_follow_their_moves, devices_have_one_holder, holders_are_shown_as_they_are,
    holds_end_by_moves, selects_are_answered_alike, ticks_end_selections,
};
pub use order::Order;
