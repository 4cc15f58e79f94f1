//! The transport: TPKTs (RFC 1006) and the TPDUs of class 0 in them (ISO 8073), over a stream of
//! octets that comes in any pieces.
#![tactic(auto)]

mod fault;
mod laws;
mod limits;
mod message;
mod parameters;
mod selector;
mod tpdu;
mod tpkt;
mod transport;
mod turn;
mod walk;
mod writing;

pub use fault::CotpFault;
pub use laws::{
    no_message_begins_another, one_cut, one_reading, one_stream, what_was_said_stays,
    written_is_said, written_is_spelled,
};
pub use limits::{PIECE_LIMIT, SELECTOR_LIMIT, TPKT_LIMIT, TSDU_LIMIT};
pub use message::TransportIn;
pub use selector::Selector;
pub use tpdu::{ConnectConfirm, ConnectRequest, Parameters};
pub use transport::Transport;
pub use turn::Role;
pub use writing::{write_cc, write_cr, write_tsdu};
