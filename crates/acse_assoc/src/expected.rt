//! What is known of an APDU that is to come.

/// What is known of an APDU that is to come: what it has in its place is a fault.
#[derive(Clone, Copy, Debug, PartialEq, Eq)]
pub struct Expected {
    /// The id of the context of a request's user information, where it is known.
    pub request_id: Option<u32>,
    /// The id of the context of a response's user information, where it is known.
    pub response_id: Option<u32>,
    /// Whether a response has the result 0, which accepts.
    pub accepted: bool,
}
