//! What a link fixes of what its association is sent.
ghost use Rattle.std.specs.Prelude.{◌≡◌, ◌++◌, ◌≤ℤ◌, false, Some, None, IfOk, IfSome};
ghost use Rattle.mms_services.specs.declared.initiate.Initiate.{Initiate as AnyInitiate};
ghost use Rattle.mms_services.specs.declared.initiate.TheConstants.{MOST_DETAIL};
ghost use Rattle.mms_services.specs.Negotiations.{granted};
ghost use Rattle.stack_assoc.specs.Wire.Setups.{IsSetup};
ghost use Rattle.stack_assoc.specs.Handing.{is_too_little};
ghost use Rattle.tase_verify.specs.Association.Hearing.{offered_in};
ghost use Rattle.tase_verify.specs.Association.Saying.{AreTerms};
ghost use Rattle.tase_verify.specs.Association.Terms.{IsGranted, AreTermsOf, accepted_by, detail_by};

use crate::association::hearing::{Heard, offered_in};
use crate::association::saying::Terms;
use crate::association::turns::turns_of;
use mms_services::{Initiate, MOST_DETAIL, negotiate};
use stack_assoc::StackIn;
use stack_assoc::wire::{AssociationSetup, write_accept};
use std::alloc::{AllocError, Global};

/// What was heard fixes, where the link has ended or not.
pub(crate) fn terms_of(alloc: Global, heard: Heard, ended: bool) -> Result<Terms, AllocError>
    ensures sound { IfOk result AreTerms }
    ensures exact { (offer : AnyInitiate) → offered_in heard.inputs.items ≡ Some offer
        → is_too_little offer ≡ false → IfOk result (AreTermsOf offer heard ended) }
{
    let inputs = heard.inputs.as_slice();
    let turns = turns_of(alloc, inputs, heard.broken, ended)?;
    let granted = granted_in(inputs);
    let opening = accepted(alloc, heard.confirm, heard.stack.setup(), granted)?;
    Ok(Terms {
        alloc,
        stack: heard.stack,
        opening,
        detail: detail_of(granted),
        turns,
    })
}

/// What is granted of the first offer, where it may be accepted.
fn granted_in(inputs: &[StackIn]) -> Option<Initiate>
    ensures granted { IfSome result IsGranted }
    ensures offered { (offer : AnyInitiate) → offered_in inputs.now ≡ Some offer
        → is_too_little offer ≡ false → result ≡ Some (granted offer) }
{
    let Some(offer) = offered_in(inputs) else {
        return None;
    };
    granted_of(&offer)
}

/// What is granted of an offer, where that offers enough.
fn granted_of(offer: &Initiate) -> Option<Initiate>
    ensures granted { IfSome result IsGranted }
    ensures enough { is_too_little offer.now ≡ false → result ≡ Some (granted offer.now) }
{
    negotiate(offer)
}

/// The octets of the beginning: what was answered at once, and the accept, where something is
/// granted.
fn accepted(
    alloc: Global,
    confirm: Vec<u8>,
    setup: &AssociationSetup,
    granted: Option<Initiate>,
) -> Result<Vec<u8>, AllocError>
    requires setup { IsSetup setup.now }
    requires granted { IfSome granted IsGranted }
    ensures { IfOk result (λ octets. octets.items
        ≡ confirm.items ++ accepted_by setup.now granted) }
{
    let mut octets = confirm;
    if let Some(answer) = granted {
        write_accept(alloc, &mut octets, setup, &answer)?;
    }
    Ok(octets)
}

/// The most octets of a PDU that were agreed on.
fn detail_of(granted: Option<Initiate>) -> i64
    requires granted { IfSome granted IsGranted }
    ensures value { result ≡ detail_by granted }
    ensures few { result ≤ℤ MOST_DETAIL }
{
    match granted {
        Some(answer) => answer.detail.unwrap_or(MOST_DETAIL),
        None => MOST_DETAIL,
    }
}
