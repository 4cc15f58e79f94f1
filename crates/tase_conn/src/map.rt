//! Where MMS and the node meet: requests as calls, replies and reports as PDUs; and the definitions
//! of what an input of octets asks of the node, and of the octets that a peer is sent.

mod calls;
mod copies;
mod laws;
mod limits;
mod octet_laws;
mod replies;
mod reports;
mod shapes;

pub use calls::{call_of, invalid_call, request_of};
pub use laws::{calls_are_requests, replies_are_pdus, reports_are_pdus};
pub use limits::within;
pub use octet_laws::{
    asking_goes_on, closed_associations_stay, each_entry_adds_its_octets,
    equal_worlds_give_equal_octets, events_come_in_turn, octets_tell_one_thing,
    requests_are_taken_in_order, requests_stand_in_texts, texts_grow, told_pdus_are_lawful,
};
pub use replies::{pdu_of, reply_of};
pub use reports::{report_of, report_pdu};
