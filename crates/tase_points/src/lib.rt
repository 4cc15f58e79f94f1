//! Points of a TASE.2 control centre: their kinds, their values, and the layouts in which they are
//! shown
//! (IEC 60870-6-802, indication points).
#![tactic(auto)]

mod body;
mod kind;
mod layout;
mod value;

pub use body::Body;
pub use kind::Kind;
pub use layout::{COV_MODULUS, Component, Layout};
pub use value::{
    FLAGS_LIMIT, MILLIS_LIMIT, PointValue, SECONDS_LIMIT, STATE_LIMIT, changes, unknown,
};
