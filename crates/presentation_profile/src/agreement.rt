//! The contexts that both ends agree on.
ghost use Rattle.std.specs.Prelude.{◌≡◌, ◌↔◌, ◌≤◌, ◌∷◌, [], length, IsTrue, IfOk};
ghost use Rattle.presentation_profile.specs.declared.offers.Offered.{Offered};
ghost use Rattle.presentation_profile.specs.Agreements.{IsAgreement, IsOnly, offers_of, is_of};
ghost use Rattle.presentation_profile.specs.Agreements.{acse_of, mms_of, result_of, results_of};

use crate::offers::Offered;
use crate::results::Results;
use std::alloc::{AllocError, Global};

/// The ids of the two contexts that are agreed on.
#[derive(Clone, Copy, Debug, PartialEq, Eq)]
pub struct Agreed {
    pub acse: u32,
    pub mms: u32,
}

/// Why offers can't be agreed on.
#[derive(Clone, Copy, Debug, PartialEq, Eq)]
pub enum ContextFault {
    /// No offer names ACSE.
    NoAcse,
    /// No offer names MMS.
    NoMms,
    /// Two offers name the same of the two, or one of each has the same id.
    Twice,
}

/// The name of ACSE: joint-iso-itu-t association-control(2) abstract-syntax(1) apdus(0)
/// version1(1).
pub const ACSE: [u8; 4] = [0x52, 1, 0, 1];

/// The name of MMS: iso(1) standard(0) 9506 part(2) mms-abstract-syntax-version1(1).
pub const MMS: [u8; 5] = [0x28, 0xCA, 0x22, 2, 1];

/// The ids of the contexts that are agreed on. Only offers with BER count: exactly one has to name
/// ACSE, exactly one MMS, and their ids have to differ. Else it is said that a name or an id stands
/// twice, or, where none does, that ACSE has no offer, or that MMS has none.
pub fn agree(contexts: &[Offered]) -> Result<Agreed, ContextFault>
    ensures { IsAgreement contexts.now result }
{
    let acse = only_of(contexts, &ACSE)?;
    let mms = only_of(contexts, &MMS)?;
    match (acse, mms) {
        (None, _) => Err(ContextFault::NoAcse),
        (_, None) => Err(ContextFault::NoMms),
        (Some(acse), Some(mms)) if acse == mms => Err(ContextFault::Twice),
        (Some(acse), Some(mms)) => Ok(Agreed { acse, mms }),
    }
}

/// The id of the one offer of this abstract syntax with BER, if there is one.
fn only_of(contexts: &[Offered], name: &[u8]) -> Result<Option<u32>, ContextFault>
    ensures { IsOnly (offers_of name.now contexts.now) result }
{
    let mut only = None;
    for offer in contexts {
        if is_of(offer, name) {
            if only.is_some() {
                return Err(ContextFault::Twice);
            }
            only = Some(offer.id);
        }
    }
    Ok(only)
}

/// Whether an offer has this abstract syntax, and BER.
fn is_of(offer: &Offered, name: &[u8]) -> bool
    ensures { result ≡ is_of name.now offer.now }
{
    offer.ber && offer.abstract_name.octets() == name
}

/// What becomes of an offer: 0 where it is one of the two that are agreed on.
fn result_of(offer: &Offered) -> u8
    ensures { result ≡ result_of offer.now }
{
    if is_of(offer, &ACSE) || is_of(offer, &MMS) {
        0
    } else {
        1
    }
}

/// The result for each offer, in order, where contexts are agreed on: 0 for the two that are agreed
/// on, 1 for every other (ISO 8823-1, Result: acceptance, user-rejection).
pub fn results_of(alloc: Global, contexts: &[Offered]) -> Result<Results, AllocError>
    ensures { IfOk result (λ results. results ≡ results_of contexts.now) }
{
    let results = contexts.iter().map(result_of).collect(alloc)?;
    Ok(Results::from_vec(results))
}

/// The id of ACSE's context, where contexts are agreed on.
pub fn acse_id(contexts: &[Offered]) -> Option<u32>
    ensures { result ≡ acse_of contexts.now }
{
    match agree(contexts) {
        Ok(agreed) => Some(agreed.acse),
        Err(_) => None,
    }
}

/// The id of MMS's context, where contexts are agreed on.
pub fn mms_id(contexts: &[Offered]) -> Option<u32>
    ensures { result ≡ mms_of contexts.now }
{
    match agree(contexts) {
        Ok(agreed) => Some(agreed.mms),
        Err(_) => None,
    }
}
