//! What the calling end says first.
ghost use Rattle.std.specs.Prelude.{◌≡◌, ◌≤◌, ◌++◌, Some, IfOk, OnOk, OnErr};
ghost use Rattle.tpkt_cotp.specs.Selectors.{IsSelector};
ghost use Rattle.tpkt_cotp.specs.Written.{wire};
ghost use Rattle.ber_values.specs.Oid.{IsOid};
ghost use Rattle.acse_assoc.specs.Writing.{IsKeptTitle};
ghost use Rattle.presentation_profile.specs.declared.ppdu.Ppdu.{Ppdu};
ghost use Rattle.session_profile.specs.declared.spdu.Spdu.{Spdu};
ghost use Rattle.stack_assoc.specs.Wire.Said.{IsTsdu};
ghost use Rattle.stack_assoc.specs.Wire.Tsdus.{nowhere, called_session, called_presentation, in_ber};
ghost use Rattle.stack_assoc.specs.Wire.Tsdus.{own_offers, own_parameters, own_request, connect_tsdu};

use crate::wire::layers::{NOWHERE, apdu_octets, pdu_octets, ppdu_octets, spdu_octets};
use acse_assoc::{Apdu, AssociateRequest};
use ber_values::{External, Oid};
use mms_services::{Initiate, MmsPdu};
use presentation_profile::{ACSE, MMS, Offered, Offers, Ppdu};
use session_profile::Spdu;
use std::alloc::{AllocError, Global};
use tpkt_cotp::{Selector, write_tsdu};

/// The id of the context of ACSE that the calling end offers.
pub const OWN_ACSE: u32 = 1;

/// The id of the context of MMS that the calling end offers.
pub const OWN_MMS: u32 = 3;

/// The application context of MMS: iso(1) standard(0) 9506 part(2)
/// mms-application-context-version1(3).
pub const MMS_CONTEXT: [u8; 5] = [0x28, 0xCA, 0x22, 2, 3];

/// The parameters of the association that the calling end offers.
pub fn own_parameters() -> Initiate
    ensures { result ≡ own_parameters }
{
    Initiate {
        detail: Some(65_000),
        calling: 1,
        called: 1,
        nesting: Some(5),
        version: 1,
    }
}

/// The selectors that the calling end calls.
const CALLED_SESSION: [u8; 2] = [0, 1];

const CALLED_PRESENTATION: [u8; 4] = [0, 0, 0, 1];

fn selector(alloc: Global, octets: &[u8]) -> Result<Selector, AllocError>
    requires { IsSelector octets.now }
    ensures { IfOk result (λ selector. selector ≡ octets.now) }
{
    Ok(Selector::new(Vec::from_slice(alloc, octets)?))
}

/// An offer of the context with this id for an abstract syntax, in BER.
fn in_ber(alloc: Global, id: u32, name: &[u8]) -> Result<Offered, AllocError>
    requires { IsOid name.now }
    ensures { IfOk result (λ offered. offered ≡ in_ber id name.now) }
{
    let abstract_name = Oid::new(Vec::from_slice(alloc, name)?);
    Ok(Offered {
        id,
        abstract_name,
        ber: true,
    })
}

/// The contexts that the calling end offers.
fn own_offers(alloc: Global) -> Result<Offers, AllocError>
    ensures { IfOk result (λ offers. offers ≡ own_offers) }
{
    let mut offers = Offers::new(alloc);
    offers.push(in_ber(alloc, OWN_ACSE, &ACSE)?)?;
    offers.push(in_ber(alloc, OWN_MMS, &MMS)?)?;
    Ok(offers)
}

fn own_title(alloc: Global, title: &Option<Oid>) -> Result<Option<Oid>, AllocError>
    ensures value { IfOk result (λ own. own ≡ title.now) }
    ensures titled { IsKeptTitle title.now }
{
    match title {
        None => Ok(None),
        Some(title) => Ok(Some(Oid::new(Vec::from_slice(alloc, title.octets())?))),
    }
}

/// The request of the calling end, with this title, if it has one.
fn own_request(alloc: Global, title: &Option<Oid>) -> Result<Apdu, AllocError>
    ensures value { IfOk result (λ request. request ≡ own_request title.now) }
    ensures titled { IfOk result (λ request. IsKeptTitle title.now) }
{
    let title = own_title(alloc, title)?;
    let context = Oid::new(Vec::from_slice(alloc, &MMS_CONTEXT)?);
    Ok(Apdu::Aarq(AssociateRequest {
        context,
        title,
        user: External {
            id: OWN_MMS,
            body: NOWHERE,
        },
    }))
}

/// The presentation connect of the calling end.
fn own_connect(alloc: Global) -> Result<Ppdu, AllocError>
    ensures { IfOk result
        (λ connect. connect ≡ Ppdu.Connect (Some called_presentation) own_offers 1 nowhere) }
{
    let called = selector(alloc, &CALLED_PRESENTATION)?;
    let contexts = own_offers(alloc)?;
    Ok(Ppdu::Connect {
        called: Some(called),
        contexts,
        id: OWN_ACSE,
        body: NOWHERE,
    })
}

/// The session connect of the calling end.
fn own_session(alloc: Global) -> Result<Spdu, AllocError>
    ensures { IfOk result (λ connect. connect ≡ Spdu.Connect (Some called_session) nowhere) }
{
    let called = selector(alloc, &CALLED_SESSION)?;
    Ok(Spdu::Connect {
        called: Some(called),
        body: NOWHERE,
    })
}

/// The TSDU of the calling end's connect.
fn connect_tsdu(alloc: Global, title: &Option<Oid>) -> Result<Vec<u8>, AllocError>
    ensures value { IfOk result (λ octets. octets.items ≡ connect_tsdu title.now) }
    ensures fits { IfOk result (λ octets. IsTsdu octets.items) }
{
    let pdu = pdu_octets(alloc, &MmsPdu::Initiate(own_parameters()))?;
    let request = own_request(alloc, title)?;
    let apdu = apdu_octets(alloc, &request, pdu.as_slice())?;
    let connect = own_connect(alloc)?;
    let ppdu = ppdu_octets(alloc, &connect, apdu.as_slice())?;
    let spdu = own_session(alloc)?;
    let tsdu = spdu_octets(alloc, &spdu, ppdu.as_slice())?;
    Ok(tsdu)
}

/// Appends the connect of the calling end, with its title, if it has one, in TPDUs of at most
/// `size` octets. After want of memory `out` is as before.
pub fn write_connect(
    alloc: Global,
    out: &mut Vec<u8>,
    size: u16,
    title: &Option<Oid>,
) -> Result<(), AllocError>
    requires sized { (128 ≤ size) × (size ≤ 1024) }
    ensures ok { OnOk result
        (out.new.items ≡ out.old.items ++ wire size (connect_tsdu title.now)) }
    ensures err { OnErr result (out.new.items ≡ out.old.items) }
{
    let tsdu = connect_tsdu(alloc, title)?;
    write_tsdu(out, size, tsdu.as_slice())
}
