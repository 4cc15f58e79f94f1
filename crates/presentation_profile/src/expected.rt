//! What is known of a PPDU that is to come.
ghost use Rattle.std.specs.Prelude.{◌≡◌};
ghost use Rattle.presentation_profile.specs.Expecting.{connect_id, accept_id, carry_id};
ghost use Rattle.presentation_profile.specs.Expecting.{are_judged};

use crate::agreement::acse_id;
use crate::offers::Offered;

/// What is known of a PPDU that is to come: what it has in its place is a fault. Of a PPDU of
/// another kind neither the id nor the results are judged.
#[derive(Clone, Copy, Debug, PartialEq, Eq)]
pub enum Expected {
    /// A connect: its body is of the context that its own offers agree on as that of ACSE, or of
    /// any where they don't agree.
    Connect,
    /// An accept. Where the id of ACSE's context is known, its body is of that context, and its
    /// first two results accept: they are those of the two contexts that were offered.
    Accept { acse: Option<u32> },
    /// User data of the context with this id.
    Carry { id: u32 },
}

/// The id that the user data of a connect with these offers have to have, if any.
pub(crate) fn connect_id(expected: Expected, contexts: &[Offered]) -> Option<u32>
    ensures { result ≡ connect_id expected contexts.now }
{
    match expected {
        Expected::Connect => acse_id(contexts),
        _ => None,
    }
}

/// The id that the user data of an accept have to have, if any.
pub(crate) fn accept_id(expected: Expected) -> Option<u32>
    ensures { result ≡ accept_id expected }
{
    match expected {
        Expected::Accept { acse } => acse,
        _ => None,
    }
}

/// The id that user data have to have, if any.
pub(crate) fn carry_id(expected: Expected) -> Option<u32>
    ensures { result ≡ carry_id expected }
{
    match expected {
        Expected::Carry { id } => Some(id),
        _ => None,
    }
}

/// Whether the first two results of an accept have to accept.
pub(crate) fn are_judged(expected: Expected) -> bool
    ensures { result ≡ are_judged expected }
{
    matches!(expected, Expected::Accept { acse: Some(_) })
}
