//! What the stack hands out, and how far it has come.
use ber_values::Oid;
use mms_services::{Initiate, MmsPdu};

/// What a stream tells, as far as its reader has to act on it.
#[derive(Debug, Drop)]
pub enum StackIn {
    /// Asks for an association that may be accepted: the title of the calling application process,
    /// if it has one, and the parameters that it offers.
    Offer {
        title: Option<Oid>,
        initiate: Initiate,
    },
    /// Asks for an association that can only be refused: no contexts of ACSE and MMS, another
    /// application context than MMS's, or parameters of which too little is offered.
    BadOffer,
    /// The association stands, with these parameters.
    Accepted(Initiate),
    Pdu(MmsPdu),
    /// A confirmed request with this number, in whose service a rule is broken.
    BadRequest {
        invoke: u32,
    },
    /// The other end asks for the release, or answers that it is done.
    Released,
    /// The other end, or the transport, has ended the association.
    Aborted,
    /// The other end has refused the association.
    Refused,
}

/// How far an association has come.
#[derive(Clone, Copy, Debug, PartialEq, Eq)]
pub enum StackState {
    /// There is no offer yet, or, at the calling end, no answer.
    Waiting,
    /// An offer stands unanswered.
    Offered,
    /// The association stands.
    Accepted,
    /// It was refused, released or aborted, or the stream has broken a rule.
    Ended,
}
