//! What a message says.
use ber_values::Oid;
use mms_services::{Initiate, MmsPdu};
use presentation_profile::Offers;
use tpkt_cotp::Selector;

/// What a connect holds.
#[derive(Debug, Drop)]
pub struct Connecting {
    /// The session selector that was called.
    pub session: Option<Selector>,
    /// The presentation selector that was called.
    pub presentation: Option<Selector>,
    /// The presentation contexts on offer.
    pub contexts: Offers,
    /// The application context.
    pub context: Oid,
    /// The title of the calling application process.
    pub title: Option<Oid>,
    pub initiate: Initiate,
}

/// What an accept holds.
#[derive(Clone, Copy, Debug, PartialEq, Eq)]
pub struct Accepting {
    /// The id of the context of its presentation data.
    pub acse: u32,
    /// The id of the context of its user information.
    pub mms: u32,
    pub initiate: Initiate,
}

/// A message.
#[derive(Debug, Drop)]
pub enum Heard {
    /// Asks for an association.
    Connect(Connecting),
    /// Answers that it stands.
    Accept(Accepting),
    /// Answers that there is none.
    Refuse,
    /// Asks for the release.
    Finish,
    /// Answers a finish.
    Disconnect,
    /// Ends the association at once.
    Abort,
    /// Answers an abort.
    AbortAccept,
    /// Data: a PDU of MMS.
    Pdu(MmsPdu),
    /// Data: a confirmed request with this number, in whose service a rule is broken.
    BadRequest { invoke: u32 },
}
