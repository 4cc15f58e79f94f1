//! A layer's written form in the body of the one below it.
ghost use Rattle.std.specs.Prelude.{◌≡◌, ◌≢◌, ◌<◌, ◌≤◌, ◌%◌, [], length, IfOk};
ghost use Rattle.ber_values.specs.Writing.{written};
ghost use Rattle.ber_values.specs.declared.lengths.TheConstants.{MOST_LENGTH};
ghost use Rattle.acse_assoc.specs.Writing as association;
ghost use Rattle.mms_services.specs.PduOctets as mms;
ghost use Rattle.presentation_profile.specs.Written as presentation;
ghost use Rattle.session_profile.specs.Writing as session;
ghost use Rattle.session_profile.specs.declared.spdu.Spdu.{Spdu};
ghost use Rattle.stack_assoc.specs.Wire.Tsdus.{carried};

use acse_assoc::{Apdu, write_apdu};
use ber_values::{Span, write_octets};
use mms_services::{MmsPdu, write_pdu};
use presentation_profile::{Ppdu, write_ppdu};
use session_profile::{Spdu, write_spdu};
use std::alloc::{AllocError, Global};

/// The place of a body in a value that is written, which doesn't count.
pub(crate) const NOWHERE: Span = Span { from: 0, to: 0 };

/// The octets of a PDU.
pub(crate) fn pdu_octets(alloc: Global, pdu: &MmsPdu) -> Result<Vec<u8>, AllocError>
    requires writable { mms.IsWritablePdu pdu.now }
    requires bounded { mms.pdu_len pdu.now < MOST_LENGTH }
    ensures { IfOk result (λ octets. octets.items ≡ mms.pdu_octets pdu.now) }
{
    let mut octets = Vec::new(alloc);
    write_pdu(&mut octets, pdu)?;
    Ok(octets)
}

/// The octets of an APDU with this body.
pub(crate) fn apdu_octets(alloc: Global, apdu: &Apdu, body: &[u8]) -> Result<Vec<u8>, AllocError>
    requires writable { association.IsWritableApdu apdu.now }
    requires bounded { length body.now ≤ 65400 }
    ensures { IfOk result (λ octets. octets.items ≡ association.apdu_octets apdu.now body.now) }
{
    let mut octets = Vec::new(alloc);
    write_apdu(&mut octets, apdu, body)?;
    Ok(octets)
}

/// The octets of a PPDU with this body.
pub(crate) fn ppdu_octets(alloc: Global, ppdu: &Ppdu, body: &[u8]) -> Result<Vec<u8>, AllocError>
    requires writable { presentation.IsWritablePpdu ppdu.now }
    requires bounded { length body.now ≤ 65400 }
    ensures { IfOk result (λ octets. octets.items ≡ presentation.ppdu_octets ppdu.now body.now) }
{
    let mut octets = Vec::new(alloc);
    write_ppdu(&mut octets, ppdu, body)?;
    Ok(octets)
}

/// The octets of an SPDU with this body.
pub(crate) fn spdu_octets(alloc: Global, spdu: &Spdu, body: &[u8]) -> Result<Vec<u8>, AllocError>
    requires written { spdu.now ≢ Spdu.AbortAccept }
    requires bounded { length body.now ≤ 65400 }
    ensures { IfOk result (λ octets. octets.items ≡ session.written_form spdu.now body.now) }
{
    let mut octets = Vec::new(alloc);
    write_spdu(&mut octets, spdu, body)?;
    Ok(octets)
}

/// The octets of an APDU without a body, as data of the context with this id.
pub(crate) fn carried(alloc: Global, acse: u32, apdu: &Apdu) -> Result<Vec<u8>, AllocError>
    requires writable { association.IsWritableApdu apdu.now }
    requires short { length (association.apdu_octets apdu.now []) ≤ 200 }
    ensures value { IfOk result (λ octets. octets.items ≡ carried acse apdu.now) }
    ensures short { IfOk result (λ octets. length octets.items ≤ 232) }
{
    let octets = apdu_octets(alloc, apdu, &[])?;
    let data = Ppdu::Carry {
        id: acse,
        body: NOWHERE,
    };
    let carried = ppdu_octets(alloc, &data, octets.as_slice())?;
    Ok(carried)
}

/// The octets of an element of this tag, around these contents.
pub(crate) fn wrapped(alloc: Global, tag: u8, contents: &[u8]) -> Result<Vec<u8>, AllocError>
    requires single { tag % 32 ≢ 31 }
    requires short { length contents.now ≤ 232 }
    ensures value { IfOk result (λ octets. octets.items ≡ written tag contents.now) }
    ensures short { IfOk result (λ octets. length octets.items ≤ 238) }
{
    let mut octets = Vec::new(alloc);
    write_octets(&mut octets, tag, contents)?;
    Ok(octets)
}
