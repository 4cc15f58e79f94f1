//! What an end answers and says over an association.
ghost use Rattle.std.specs.Prelude.{◌≡◌, ◌≤◌, ◌++◌, IfOk, OnOk, OnErr};
ghost use Rattle.tpkt_cotp.specs.Selectors.{HasSelector};
ghost use Rattle.presentation_profile.specs.declared.ppdu.Ppdu.{Ppdu};
ghost use Rattle.session_profile.specs.declared.spdu.Spdu.{Spdu};
ghost use Rattle.tpkt_cotp.specs.Written.{wire};
ghost use Rattle.mms_services.specs.Initiates.{IsFullInitiate};
ghost use Rattle.mms_services.specs.PduOctets.{pdu_len, IsWritablePdu};
ghost use Rattle.stack_assoc.specs.Wire.Said.{IsTsdu};
ghost use Rattle.stack_assoc.specs.Wire.Setups.{IsSetup};
ghost use Rattle.stack_assoc.specs.Wire.Tsdus.{nowhere, accepted, refused_apdu, accept_tsdu};
ghost use Rattle.stack_assoc.specs.Wire.Tsdus.{refusal_tsdu};
ghost use Rattle.stack_assoc.specs.Wire.Tsdus.{finish_tsdu, release_tsdu, data_tsdu};

use crate::wire::layers::{
    NOWHERE, apdu_octets, carried, pdu_octets, ppdu_octets, spdu_octets, wrapped,
};
use crate::wire::setup::AssociationSetup;
use acse_assoc::{Apdu, AssociateResponse};
use ber_values::External;
use mms_services::{Initiate, MmsPdu};
use presentation_profile::{Ppdu, Results};
use session_profile::Spdu;
use std::alloc::{AllocError, Global};
use tpkt_cotp::{Selector, write_tsdu};

/// The tag of user data in a refusal.
const SEQUENCE: u8 = 0x30;

/// A selector of its own with the same octets, where there is one.
fn same_selector(alloc: Global, called: &Option<Selector>) -> Result<Option<Selector>, AllocError>
    ensures value { IfOk result (λ own. own ≡ called.now) }
    ensures sized { HasSelector called.now }
{
    match called {
        None => Ok(None),
        Some(called) => Ok(Some(Selector::new(Vec::from_slice(alloc, called.octets())?))),
    }
}

/// The association is accepted, in the contexts of a setup.
fn accepted(setup: &AssociationSetup) -> Apdu
    ensures { result ≡ accepted setup.now.mms }
{
    Apdu::Aare(AssociateResponse {
        result: 0,
        user: Some(External {
            id: setup.mms,
            body: NOWHERE,
        }),
    })
}

/// The association is refused for good.
fn refused() -> Apdu
    ensures { result ≡ refused_apdu }
{
    Apdu::Aare(AssociateResponse {
        result: 1,
        user: None,
    })
}

/// The presentation accept of a setup.
fn accept_of(alloc: Global, setup: &AssociationSetup) -> Result<Ppdu, AllocError>
    ensures value { IfOk result (λ accept. accept ≡ Ppdu.Accept setup.now.presentation
        setup.now.results setup.now.acse nowhere) }
    ensures sized { IfOk result (λ accept. HasSelector setup.now.presentation) }
{
    let called = same_selector(alloc, &setup.presentation)?;
    let results = Results::from_vec(Vec::from_slice(alloc, setup.results.as_slice())?);
    Ok(Ppdu::Accept {
        called,
        results,
        id: setup.acse,
        body: NOWHERE,
    })
}

/// The session accept of a setup.
fn session_of(alloc: Global, setup: &AssociationSetup) -> Result<Spdu, AllocError>
    ensures value { IfOk result (λ accept. accept ≡ Spdu.Accept setup.now.session nowhere) }
    ensures sized { IfOk result (λ accept. HasSelector setup.now.session) }
{
    let called = same_selector(alloc, &setup.session)?;
    Ok(Spdu::Accept {
        called,
        body: NOWHERE,
    })
}

/// The TSDU of an accept.
fn accept_tsdu(
    alloc: Global,
    setup: &AssociationSetup,
    answer: &Initiate,
) -> Result<Vec<u8>, AllocError>
    requires setup { IsSetup setup.now }
    requires full { IsFullInitiate answer.now }
    ensures value { IfOk result (λ octets. octets.items ≡ accept_tsdu setup.now answer.now) }
    ensures fits { IfOk result (λ octets. IsTsdu octets.items) }
{
    let pdu = pdu_octets(alloc, &MmsPdu::Initiated(*answer))?;
    let response = accepted(setup);
    let apdu = apdu_octets(alloc, &response, pdu.as_slice())?;
    let accept = accept_of(alloc, setup)?;
    let ppdu = ppdu_octets(alloc, &accept, apdu.as_slice())?;
    let spdu = session_of(alloc, setup)?;
    let tsdu = spdu_octets(alloc, &spdu, ppdu.as_slice())?;
    Ok(tsdu)
}

/// The TSDU of a refusal.
fn refusal_tsdu(alloc: Global, acse: u32) -> Result<Vec<u8>, AllocError>
    ensures value { IfOk result (λ octets. octets.items ≡ refusal_tsdu acse) }
    ensures fits { IfOk result (λ octets. IsTsdu octets.items) }
{
    let data = carried(alloc, acse, &refused())?;
    let body = wrapped(alloc, SEQUENCE, data.as_slice())?;
    let tsdu = spdu_octets(alloc, &Spdu::Refuse, body.as_slice())?;
    Ok(tsdu)
}

/// The TSDU of a finish.
fn finish_tsdu(alloc: Global, acse: u32) -> Result<Vec<u8>, AllocError>
    ensures value { IfOk result (λ octets. octets.items ≡ finish_tsdu acse) }
    ensures fits { IfOk result (λ octets. IsTsdu octets.items) }
{
    let data = carried(alloc, acse, &Apdu::Rlrq)?;
    let tsdu = spdu_octets(alloc, &Spdu::Finish, data.as_slice())?;
    Ok(tsdu)
}

/// The TSDU that answers a finish.
fn release_tsdu(alloc: Global, acse: u32) -> Result<Vec<u8>, AllocError>
    ensures value { IfOk result (λ octets. octets.items ≡ release_tsdu acse) }
    ensures fits { IfOk result (λ octets. IsTsdu octets.items) }
{
    let data = carried(alloc, acse, &Apdu::Rlre)?;
    let tsdu = spdu_octets(alloc, &Spdu::Disconnect, data.as_slice())?;
    Ok(tsdu)
}

/// The TSDU of a PDU as data.
fn data_tsdu(alloc: Global, mms: u32, pdu: &MmsPdu) -> Result<Vec<u8>, AllocError>
    requires writable { IsWritablePdu pdu.now }
    requires bounded { pdu_len pdu.now ≤ 65000 }
    ensures value { IfOk result (λ octets. octets.items ≡ data_tsdu mms pdu.now) }
    ensures fits { IfOk result (λ octets. IsTsdu octets.items) }
{
    let body = pdu_octets(alloc, pdu)?;
    let data = Ppdu::Carry {
        id: mms,
        body: NOWHERE,
    };
    let ppdu = ppdu_octets(alloc, &data, body.as_slice())?;
    let spdu = Spdu::Carry { body: NOWHERE };
    let tsdu = spdu_octets(alloc, &spdu, ppdu.as_slice())?;
    Ok(tsdu)
}

/// Appends the accept of the called end, which grants these parameters. After want of memory `out`
/// is as before.
pub fn write_accept(
    alloc: Global,
    out: &mut Vec<u8>,
    setup: &AssociationSetup,
    answer: &Initiate,
) -> Result<(), AllocError>
    requires setup { IsSetup setup.now }
    requires full { IsFullInitiate answer.now }
    ensures ok { OnOk result (out.new.items
        ≡ out.old.items ++ wire setup.now.size (accept_tsdu setup.now answer.now)) }
    ensures err { OnErr result (out.new.items ≡ out.old.items) }
{
    let tsdu = accept_tsdu(alloc, setup, answer)?;
    write_tsdu(out, setup.size, tsdu.as_slice())
}

/// Appends the refusal of the called end, in ACSE's context, in TPDUs of at most `size` octets.
/// After want of memory `out` is as before.
pub fn write_refusal(
    alloc: Global,
    out: &mut Vec<u8>,
    size: u16,
    acse: u32,
) -> Result<(), AllocError>
    requires sized { (128 ≤ size) × (size ≤ 1024) }
    ensures ok { OnOk result (out.new.items ≡ out.old.items ++ wire size (refusal_tsdu acse)) }
    ensures err { OnErr result (out.new.items ≡ out.old.items) }
{
    let tsdu = refusal_tsdu(alloc, acse)?;
    write_tsdu(out, size, tsdu.as_slice())
}

/// Appends the finish, which asks for the release, in ACSE's context. After want of memory `out` is
/// as before.
pub fn write_finish(
    alloc: Global,
    out: &mut Vec<u8>,
    size: u16,
    acse: u32,
) -> Result<(), AllocError>
    requires sized { (128 ≤ size) × (size ≤ 1024) }
    ensures ok { OnOk result (out.new.items ≡ out.old.items ++ wire size (finish_tsdu acse)) }
    ensures err { OnErr result (out.new.items ≡ out.old.items) }
{
    let tsdu = finish_tsdu(alloc, acse)?;
    write_tsdu(out, size, tsdu.as_slice())
}

/// Appends the disconnect, which answers a finish, in ACSE's context. After want of memory `out` is
/// as before.
pub fn write_release(
    alloc: Global,
    out: &mut Vec<u8>,
    size: u16,
    acse: u32,
) -> Result<(), AllocError>
    requires sized { (128 ≤ size) × (size ≤ 1024) }
    ensures ok { OnOk result (out.new.items ≡ out.old.items ++ wire size (release_tsdu acse)) }
    ensures err { OnErr result (out.new.items ≡ out.old.items) }
{
    let tsdu = release_tsdu(alloc, acse)?;
    write_tsdu(out, size, tsdu.as_slice())
}

/// Appends a PDU of at most 65,000 octets as data, in MMS's context. After want of memory `out` is
/// as before.
pub fn write_data(
    alloc: Global,
    out: &mut Vec<u8>,
    size: u16,
    mms: u32,
    pdu: &MmsPdu,
) -> Result<(), AllocError>
    requires sized { (128 ≤ size) × (size ≤ 1024) }
    requires writable { IsWritablePdu pdu.now }
    requires bounded { pdu_len pdu.now ≤ 65000 }
    ensures ok { OnOk result (out.new.items ≡ out.old.items ++ wire size (data_tsdu mms pdu.now)) }
    ensures err { OnErr result (out.new.items ≡ out.old.items) }
{
    let tsdu = data_tsdu(alloc, mms, pdu)?;
    write_tsdu(out, size, tsdu.as_slice())
}
