//! One message of an association, which is one TSDU: an SPDU (ISO 8327-1), in it a PPDU
//! (ISO 8823-1), in that an APDU (ISO 8650-1) or data, and in these a PDU of MMS (ISO 9506-2).

mod data;
mod expecting;
mod fault;
mod heard;
mod laws;
mod layers;
mod message;
mod setting;
mod turns;

pub use expecting::{Expecting, Phase, Side};
pub use fault::{Layer, StackFault};
pub use heard::{Accepting, Connecting, Heard};
pub use laws::{messages_are_read_exactly, messages_have_one_reading};
pub use message::read_message;
