//! Offers of an association.
ghost use Rattle.std.specs.Prelude.{◌≡◌, not, bytes_eq};
ghost use Rattle.acse_assoc.specs.Writing.{mms_context};
ghost use Rattle.stack_assoc.specs.Handing.{is_offer, is_too_little};

use crate::messages::Connecting;
use crate::wire::MMS_CONTEXT;
use mms_services::{Initiate, negotiate};
use presentation_profile::acse_id;

/// Whether enough is offered of each parameter.
fn is_enough(initiate: &Initiate) -> bool
    ensures { result ≡ not (is_too_little initiate.now) }
{
    negotiate(initiate).is_some()
}

fn is_of_mms(connecting: &Connecting) -> bool
    ensures { result ≡ bytes_eq connecting.now.context mms_context }
{
    connecting.context.octets() == MMS_CONTEXT.as_slice()
}

/// Whether a connect may be accepted: its offers agree, its application context is MMS's, and
/// enough is offered.
pub(crate) fn is_offer(connecting: &Connecting) -> bool
    ensures { result ≡ is_offer connecting.now }
{
    acse_id(connecting.contexts.as_slice()).is_some()
        && is_of_mms(connecting)
        && is_enough(&connecting.initiate)
}
