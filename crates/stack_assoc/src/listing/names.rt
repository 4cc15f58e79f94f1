//! Names of messages, of layers, and of the reasons why a rule is broken.
ghost use Rattle.std.specs.Prelude.{◌≡◌};
ghost use Rattle.stack_assoc.specs.Listing.Names as spec;

use crate::messages::{Heard, Layer};
use ber_values::Why;
use mms_services::MmsPdu;

/// What a message is called.
#[derive(Clone, Copy, Debug, PartialEq, Eq)]
pub enum MessageName {
    /// A connect request of the transport (ISO 8073).
    Cr,
    /// A connect confirm.
    Cc,
    /// A disconnect request.
    Dr,
    /// A connect of the session (ISO 8327-1).
    Connect,
    Accept,
    Refuse,
    Finish,
    Disconnect,
    Abort,
    AbortAccept,
    /// A confirmed request of MMS (ISO 9506-2).
    Request,
    Response,
    Error,
    /// An information report.
    Report,
    Reject,
    Conclude,
    Concluded,
    /// An initiate request.
    Initiate,
    /// An initiate response.
    Initiated,
    InitiateError,
    /// A confirmed request whose number can be read, and in whose service a rule is broken.
    BadRequest,
}

impl MessageName {
    /// As it is printed.
    pub fn as_str(self) -> &'static str
        ensures { result.now ≡ spec.message_name_text self }
    {
        match self {
            MessageName::Cr => "cr",
            MessageName::Cc => "cc",
            MessageName::Dr => "dr",
            MessageName::Connect => "connect",
            MessageName::Accept => "accept",
            MessageName::Refuse => "refuse",
            MessageName::Finish => "finish",
            MessageName::Disconnect => "disconnect",
            MessageName::Abort => "abort",
            MessageName::AbortAccept => "abortaccept",
            MessageName::Request => "request",
            MessageName::Response => "response",
            MessageName::Error => "error",
            MessageName::Report => "report",
            MessageName::Reject => "reject",
            MessageName::Conclude => "conclude",
            MessageName::Concluded => "concluded",
            MessageName::Initiate => "initiate",
            MessageName::Initiated => "initiated",
            MessageName::InitiateError => "initiateerror",
            MessageName::BadRequest => "badrequest",
        }
    }
}

/// What a PDU of MMS is called.
pub fn name_of_pdu(pdu: &MmsPdu) -> MessageName
    ensures { result ≡ spec.pdu_name pdu.now }
{
    match pdu {
        MmsPdu::Request { .. } => MessageName::Request,
        MmsPdu::Response { .. } => MessageName::Response,
        MmsPdu::Error(_) => MessageName::Error,
        MmsPdu::Report(_) => MessageName::Report,
        MmsPdu::Reject(_) => MessageName::Reject,
        MmsPdu::Initiate(_) => MessageName::Initiate,
        MmsPdu::Initiated(_) => MessageName::Initiated,
        MmsPdu::InitiateError => MessageName::InitiateError,
        MmsPdu::Conclude => MessageName::Conclude,
        MmsPdu::Concluded => MessageName::Concluded,
    }
}

/// What a message above the transport is called.
pub(crate) fn name_of(heard: &Heard) -> MessageName
    ensures { result ≡ spec.heard_name heard.now }
{
    match heard {
        Heard::Connect(_) => MessageName::Connect,
        Heard::Accept(_) => MessageName::Accept,
        Heard::Refuse => MessageName::Refuse,
        Heard::Finish => MessageName::Finish,
        Heard::Disconnect => MessageName::Disconnect,
        Heard::Abort => MessageName::Abort,
        Heard::AbortAccept => MessageName::AbortAccept,
        Heard::Pdu(pdu) => name_of_pdu(pdu),
        Heard::BadRequest { .. } => MessageName::BadRequest,
    }
}

/// The name of a layer.
pub fn layer_name(layer: Layer) -> &'static str
    ensures { result.now ≡ spec.layer_name layer }
{
    match layer {
        Layer::Transport => "transport",
        Layer::Session => "session",
        Layer::Presentation => "presentation",
        Layer::Acse => "acse",
        Layer::Mms => "mms",
    }
}

/// The name of a reason.
pub fn why_name(why: Why) -> &'static str
    ensures { result.now ≡ spec.why_name why }
{
    match why {
        Why::Short => "short",
        Why::Length => "length",
        Why::Tag => "tag",
        Why::Value => "value",
        Why::Order => "order",
        Why::Long => "long",
    }
}
