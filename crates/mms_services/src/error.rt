//! Answers that a service failed (ISO 9506-2, `Confirmed-ErrorPDU`).
ghost use Rattle.std.specs.Prelude.{◌≡◌, ◌+◌, ◌^◌, ◌<◌, ◌≤◌, ◌++◌, length, OnOk, OnErr};
ghost use Rattle.plain_text.specs.Extends.{Extends};
ghost use Rattle.mms_services.specs.Errors.{error_class, service_error, error_pdu};
ghost use Rattle.mms_services.specs.Errors.{service_error_octets, error_pdu_octets};

use crate::coded::{Coded, FIRST_TAG, take_coded};
use ber_values::{
    BerFault, Part, natural_len, octets_from, skip_parts, take_end, take_part, write_natural,
};
use std::alloc::AllocError;

/// The service failed.
#[derive(Clone, Copy, Debug, PartialEq, Eq)]
pub struct ErrorPdu {
    /// The number of the request.
    pub invoke: u32,
    /// The class of the error, 0 to 15.
    pub class: u8,
    /// The number of the error in its class.
    pub code: u8,
}

/// The tag of the number of the request.
const INVOKE: u8 = 0x80;

/// The tag of the error.
const SERVICE_ERROR: u8 = 0xA2;

/// The tag of the error's class and code.
const ERROR_CLASS: u8 = 0xA0;

/// The last tag of a class.
const LAST_CLASS: u8 = 0x8F;

/// The error that the contents of an element are.
#[tactic(auto, unfolding(crate::specs::Errors::error_pdu, ber_values::specs::Parts::all_in, ber_values::specs::Parts::part_in, ber_values::specs::Grammars::then_in, ber_values::specs::Grammars::map_in))]
pub(crate) fn error_pdu_from(part: &Part<'_>) -> Result<ErrorPdu, BerFault>
    requires { part.now.head.body + length part.now.contents.now < 2 ^ 64 }
    ensures { result ≡ error_pdu.reading part.now.head part.now.contents.now }
{
    let invoke_part = take_part(part.contents, part.head.body, INVOKE)?;
    let invoke = invoke_part.unsigned()?;
    let error_part = take_part(invoke_part.rest, invoke_part.head.next, SERVICE_ERROR)?;
    let error = service_error_from(&error_part)?;
    take_end(error_part.rest, error_part.head.next)?;
    Ok(ErrorPdu {
        invoke,
        class: error.number,
        code: error.code,
    })
}

/// The class and the code in this element, in which others may follow them.
#[tactic(auto, unfolding(crate::specs::Errors::service_error, ber_values::specs::Parts::all_in, ber_values::specs::Parts::part_in, ber_values::specs::Grammars::then_in, ber_values::specs::Grammars::map_in))]
fn service_error_from(part: &Part<'_>) -> Result<Coded, BerFault>
    requires { part.now.head.body + length part.now.contents.now < 2 ^ 64 }
    ensures { result ≡ service_error.reading part.now.head part.now.contents.now }
{
    let class_part = take_part(part.contents, part.head.body, ERROR_CLASS)?;
    let error = error_class_from(&class_part)?;
    let end = skip_parts(class_part.rest, class_part.head.next, 0, 0xFF, &[])?;
    take_end(octets_from(class_part.rest, class_part.head.next, end), end)?;
    Ok(error)
}

/// The class and the code that alone stand in this element.
#[tactic(auto, unfolding(crate::specs::Errors::error_class, ber_values::specs::Parts::all_in))]
fn error_class_from(part: &Part<'_>) -> Result<Coded, BerFault>
    requires { part.now.head.body + length part.now.contents.now < 2 ^ 64 }
    ensures { result ≡ error_class.reading part.now.head part.now.contents.now }
{
    let (error, next, rest) = take_coded(part.contents, part.head.body, FIRST_TAG, LAST_CLASS)?;
    take_end(rest, next)?;
    Ok(error)
}

/// How many octets [`put_error_pdu`] appends.
pub(crate) fn error_pdu_len(error: &ErrorPdu) -> usize
    ensures value { result ≡ length (error_pdu_octets error.now) }
    ensures few { result ≤ 17 }
{
    2 + natural_len(u64::from(error.invoke)) + 7
}

/// Appends an error as the contents of an element.
#[tactic(auto, using(ber_values::proofs::Pieces::extended), unfolding(crate::specs::Errors::error_pdu_octets))]
pub(crate) fn put_error_pdu(out: &mut Vec<u8>, error: &ErrorPdu) -> Result<(), AllocError>
    requires { error.now.class ≤ 15 }
    ensures ok { OnOk result (out.new.items ≡ out.old.items ++ error_pdu_octets error.now) }
    ensures err { OnErr result (Extends out.old.items out.new.items) }
{
    write_natural(out, INVOKE, u64::from(error.invoke))?;
    put_service_error(out, error.class, error.code)
}

#[tactic(auto, unfolding(crate::specs::Errors::service_error_octets, ber_values::specs::Writing::length_octets))]
fn put_service_error(out: &mut Vec<u8>, class: u8, code: u8) -> Result<(), AllocError>
    requires { class ≤ 15 }
    ensures ok { OnOk result (out.new.items ≡ out.old.items ++ service_error_octets class code) }
    ensures err { OnErr result (out.new.items ≡ out.old.items) }
{
    out.extend_from_slice(&[SERVICE_ERROR, 5, ERROR_CLASS, 3, FIRST_TAG + class, 1, code])
}
