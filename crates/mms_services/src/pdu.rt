//! PDUs (ISO 9506-2, `MMSpdu`).
ghost use Rattle.std.specs.Prelude.{◌≡◌, ◌+◌, ◌^◌, ◌<◌, ◌≤◌, ◌≢◌, ◌%◌, ◌++◌, length};
ghost use Rattle.std.specs.Prelude.{IfOk, IfErr, OnOk, OnErr};
ghost use Rattle.plain_text.specs.Extends.{Extends};
ghost use Rattle.ber_values.specs.Lengths.{capped};
ghost use Rattle.ber_values.specs.declared.lengths.TheConstants.{MOST_LENGTH};
ghost use Rattle.mms_services.specs.Lawful.{IsLawfulRequest, IsLawfulResponse};
ghost use Rattle.mms_services.specs.PduOctets.{request_octets, response_octets, invoke_octets};
ghost use Rattle.mms_services.specs.PduOctets.{pdu_tag, pdu_contents, pdu_octets, pdu_len};
ghost use Rattle.mms_services.specs.PduOctets.{IsWritablePdu};
ghost use Rattle.ber_values.specs.Stops.{Answers};
ghost use Rattle.ber_values.specs.Readers.{IsReadBy, taken_from, taken_whole};
ghost use Rattle.mms_services.specs.Pdus.{confirmed_request, confirmed_response, frame_pdu};
ghost use Rattle.mms_services.specs.Lawful.{IsLawfulPdu};
ghost use Rattle.mms_services.specs.Pdus.{one_pdu, pdu, IsInvokeOf, without_invoke};

use crate::access::{ReportPdu, put_report_pdu, report_pdu_from, report_pdu_len};
use crate::error::{ErrorPdu, error_pdu_from, error_pdu_len, put_error_pdu};
use crate::fault::{MmsFault, numbered};
use crate::initiate::{Initiate, initiate_from, initiate_len, put_initiate};
use crate::reject::{RejectPdu, put_reject_pdu, reject_pdu_from, reject_pdu_len};
use crate::request::{Request, put_request, request_len, take_request};
use crate::response::{Response, put_response, response_len, take_response};
use ber_values::{
    MOST_LENGTH, Part, Stop, add_len, has_tag, natural_len, octets_from, or_undo, part_len, settle,
    take_end, take_part, write_head, write_natural,
};
use std::alloc::{AllocError, Global};

/// A protocol data unit.
#[derive(Debug, Drop)]
pub enum MmsPdu {
    /// Asks for a service.
    Request { invoke: u32, request: Request },
    /// Answers that it was done.
    Response { invoke: u32, response: Response },
    /// Answers that it failed.
    Error(ErrorPdu),
    /// Reports values unasked.
    Report(ReportPdu),
    /// Answers that a PDU isn't understood.
    Reject(RejectPdu),
    /// Asks for an association with these parameters.
    Initiate(Initiate),
    /// Answers with those that it has.
    Initiated(Initiate),
    /// Answers that there is none.
    InitiateError,
    /// Asks for the end of the association.
    Conclude,
    /// Answers that it ends.
    Concluded,
}

/// The tags of PDUs.
pub(crate) const REQUEST: u8 = 0xA0;

const RESPONSE: u8 = 0xA1;

const ERROR: u8 = 0xA2;

const REPORT: u8 = 0xA3;

const REJECT: u8 = 0xA4;

const INITIATE: u8 = 0xA8;

const INITIATED: u8 = 0xA9;

const INITIATE_ERROR: u8 = 0xAA;

const CONCLUDE: u8 = 0x8B;

const CONCLUDED: u8 = 0x8C;

/// The tag of an integer, as which the number of a request stands.
pub(crate) const INTEGER: u8 = 0x02;

/// The PDU that octets are, or where they break a rule first, and which. The place counts the
/// octets from 0.
pub fn read_pdu(alloc: Global, bytes: &[u8]) -> Result<Result<MmsPdu, MmsFault>, AllocError>
    ensures exact { IfOk result (λ read. IsReadBy pdu (taken_whole 0 bytes.now) 0 bytes.now
        (without_invoke read)) }
    // Lists and names have lengths that they may have, and data are lawful.
    ensures lawful { IfOk result (λ read. IfOk read IsLawfulPdu) }
    // The number of a request is told whatever is wrong with its service.
    ensures invoke { IfOk result (λ read. IfErr read (λ fault. IsInvokeOf bytes.now fault.invoke)) }
{
    let read = settle(pdu_from(alloc, bytes, 0))?;
    Ok(numbered(bytes, read))
}

/// The PDU that octets are, of which the first has the place `at`.
#[tactic(auto, unfolding(crate::specs::Pdus::pdu, ber_values::specs::Parts::whole_in))]
fn pdu_from(alloc: Global, octets: &[u8], at: usize) -> Result<MmsPdu, Stop>
    requires { at + length octets.now < 2 ^ 64 }
    ensures { Answers (taken_whole at octets.now) result (pdu.reading at octets.now) }
{
    let (pdu, next) = take_pdu(alloc, octets, at)?;
    take_end(octets_from(octets, at, next), next)?;
    Ok(pdu)
}

/// The PDU at the front of octets, and the place after it.
#[tactic(auto, unfolding(crate::specs::Pdus::one_pdu, ber_values::specs::Parts::choose_in, ber_values::specs::Parts::part_in, ber_values::specs::Parts::contents_as, ber_values::specs::Grammars::branch_in))]
fn take_pdu(alloc: Global, octets: &[u8], at: usize) -> Result<(MmsPdu, usize), Stop>
    requires { at + length octets.now < 2 ^ 64 }
    ensures exact { Answers (taken_from at octets.now) result (one_pdu.reading at octets.now) }
    ensures within { IfOk result (λ x. (at < x.1) × (x.1 ≤ at + length octets.now)) }
{
    if has_tag(octets, REQUEST) {
        let part = take_part(octets, at, REQUEST)?;
        let pdu = confirmed_request_from(alloc, &part)?;
        return Ok((pdu, part.head.next));
    }
    if has_tag(octets, RESPONSE) {
        let part = take_part(octets, at, RESPONSE)?;
        let pdu = confirmed_response_from(alloc, &part)?;
        return Ok((pdu, part.head.next));
    }
    if has_tag(octets, ERROR) {
        let part = take_part(octets, at, ERROR)?;
        let error = error_pdu_from(&part)?;
        return Ok((MmsPdu::Error(error), part.head.next));
    }
    if has_tag(octets, REPORT) {
        let part = take_part(octets, at, REPORT)?;
        let report = report_pdu_from(alloc, &part)?;
        return Ok((MmsPdu::Report(report), part.head.next));
    }
    if has_tag(octets, REJECT) {
        let part = take_part(octets, at, REJECT)?;
        let reject = reject_pdu_from(&part)?;
        return Ok((MmsPdu::Reject(reject), part.head.next));
    }
    take_frame(octets, at)
}

/// The PDU at the front of octets that begins an association or ends it, and the place after it.
#[tactic(auto, unfolding(crate::specs::Pdus::frame_pdu, ber_values::specs::Leaves::raw, ber_values::specs::Parts::choose_in, ber_values::specs::Parts::part_in, ber_values::specs::Parts::contents_as, ber_values::specs::Grammars::branch_in))]
fn take_frame(octets: &[u8], at: usize) -> Result<(MmsPdu, usize), Stop>
    requires { at + length octets.now < 2 ^ 64 }
    ensures exact { Answers (taken_from at octets.now) result (frame_pdu.reading at octets.now) }
    ensures within { IfOk result (λ x. (at < x.1) × (x.1 ≤ at + length octets.now)) }
{
    if has_tag(octets, INITIATE) {
        let part = take_part(octets, at, INITIATE)?;
        let initiate = initiate_from(&part)?;
        return Ok((MmsPdu::Initiate(initiate), part.head.next));
    }
    if has_tag(octets, INITIATED) {
        let part = take_part(octets, at, INITIATED)?;
        let initiate = initiate_from(&part)?;
        return Ok((MmsPdu::Initiated(initiate), part.head.next));
    }
    if has_tag(octets, INITIATE_ERROR) {
        let part = take_part(octets, at, INITIATE_ERROR)?;
        return Ok((MmsPdu::InitiateError, part.head.next));
    }
    if has_tag(octets, CONCLUDE) {
        let part = take_part(octets, at, CONCLUDE)?;
        part.fixed(&[])?;
        return Ok((MmsPdu::Conclude, part.head.next));
    }
    let part = take_part(octets, at, CONCLUDED)?;
    part.fixed(&[])?;
    Ok((MmsPdu::Concluded, part.head.next))
}

/// The request and its number that the contents of an element are.
#[tactic(auto, unfolding(crate::specs::Pdus::confirmed_request, crate::specs::Pdus::invoke_in, ber_values::specs::Parts::all_in, ber_values::specs::Parts::part_in, ber_values::specs::Grammars::then_in, ber_values::specs::Grammars::map_in))]
fn confirmed_request_from(alloc: Global, part: &Part<'_>) -> Result<MmsPdu, Stop>
    requires { part.now.head.body + length part.now.contents.now < 2 ^ 64 }
    ensures { Answers (λ p. p) result
        (confirmed_request.reading part.now.head part.now.contents.now) }
{
    let number = take_part(part.contents, part.head.body, INTEGER)?;
    let invoke = number.unsigned()?;
    let (request, next) = take_request(alloc, number.rest, number.head.next)?;
    take_end(octets_from(number.rest, number.head.next, next), next)?;
    Ok(MmsPdu::Request { invoke, request })
}

/// The response and its number that the contents of an element are.
#[tactic(auto, unfolding(crate::specs::Pdus::confirmed_response, crate::specs::Pdus::invoke_in, ber_values::specs::Parts::all_in, ber_values::specs::Parts::part_in, ber_values::specs::Grammars::then_in, ber_values::specs::Grammars::map_in))]
fn confirmed_response_from(alloc: Global, part: &Part<'_>) -> Result<MmsPdu, Stop>
    requires { part.now.head.body + length part.now.contents.now < 2 ^ 64 }
    ensures { Answers (λ p. p) result
        (confirmed_response.reading part.now.head part.now.contents.now) }
{
    let number = take_part(part.contents, part.head.body, INTEGER)?;
    let invoke = number.unsigned()?;
    let (response, next) = take_response(alloc, number.rest, number.head.next)?;
    take_end(octets_from(number.rest, number.head.next, next), next)?;
    Ok(MmsPdu::Response { invoke, response })
}

/// How many octets [`write_pdu`] appends, or 4,294,967,295 where they would be as many or more. The
/// PDU is one that may be written.
pub fn pdu_len(pdu: &MmsPdu) -> usize
    requires { IsWritablePdu pdu.now }
    ensures { result ≡ pdu_len pdu.now }
{
    part_len(contents_len(pdu))
}

/// How many octets the contents of a PDU have, capped.
fn contents_len(pdu: &MmsPdu) -> usize
    requires { IsWritablePdu pdu.now }
    ensures value { result ≡ capped (length (pdu_contents pdu.now)) }
    ensures few { result ≤ MOST_LENGTH }
{
    match pdu {
        MmsPdu::Request { invoke, request } => confirmed_request_len(*invoke, request),
        MmsPdu::Response { invoke, response } => confirmed_response_len(*invoke, response),
        MmsPdu::Error(error) => error_pdu_len(error),
        MmsPdu::Report(report) => report_pdu_len(report),
        MmsPdu::Reject(reject) => reject_pdu_len(reject),
        MmsPdu::Initiate(offer) => initiate_len(offer),
        MmsPdu::Initiated(offer) => initiate_len(offer),
        MmsPdu::InitiateError => 0,
        MmsPdu::Conclude => 0,
        MmsPdu::Concluded => 0,
    }
}

fn confirmed_request_len(invoke: u32, request: &Request) -> usize
    requires { IsLawfulRequest request.now }
    ensures value { result
        ≡ capped (length (invoke_octets invoke ++ request_octets request.now)) }
    ensures few { result ≤ MOST_LENGTH }
{
    add_len(invoke_len(invoke), request_len(request))
}

fn confirmed_response_len(invoke: u32, response: &Response) -> usize
    requires { IsLawfulResponse response.now }
    ensures value { result
        ≡ capped (length (invoke_octets invoke ++ response_octets response.now)) }
    ensures few { result ≤ MOST_LENGTH }
{
    add_len(invoke_len(invoke), response_len(response))
}

/// How many octets the number of a request has as an element.
fn invoke_len(invoke: u32) -> usize
    ensures value { result ≡ capped (length (invoke_octets invoke)) }
    ensures few { result ≤ 10 }
{
    2 + natural_len(u64::from(invoke))
}

/// The tag of a PDU.
fn pdu_tag(pdu: &MmsPdu) -> u8
    ensures value { result ≡ pdu_tag pdu.now }
    ensures single { result % 32 ≢ 31 }
{
    match pdu {
        MmsPdu::Request { .. } => REQUEST,
        MmsPdu::Response { .. } => RESPONSE,
        MmsPdu::Error(_) => ERROR,
        MmsPdu::Report(_) => REPORT,
        MmsPdu::Reject(_) => REJECT,
        MmsPdu::Initiate(_) => INITIATE,
        MmsPdu::Initiated(_) => INITIATED,
        MmsPdu::InitiateError => INITIATE_ERROR,
        MmsPdu::Conclude => CONCLUDE,
        MmsPdu::Concluded => CONCLUDED,
    }
}

/// Appends a PDU. An initiate has version 1, its detail and its nesting; a request isn't unknown;
/// that no association begins isn't written. After want of memory `out` is as before.
pub fn write_pdu(out: &mut Vec<u8>, pdu: &MmsPdu) -> Result<(), AllocError>
    requires writable { IsWritablePdu pdu.now }
    requires bounded { pdu_len pdu.now < MOST_LENGTH }
    ensures ok { OnOk result (out.new.items ≡ out.old.items ++ pdu_octets pdu.now) }
    ensures err { OnErr result (out.new.items ≡ out.old.items) }
{
    let mark = out.len();
    let done = put_pdu(out, pdu);
    or_undo(out, mark, done)
}

#[tactic(auto, using(ber_values::proofs::Pieces::extended))]
fn put_pdu(out: &mut Vec<u8>, pdu: &MmsPdu) -> Result<(), AllocError>
    requires writable { IsWritablePdu pdu.now }
    requires bounded { pdu_len pdu.now < MOST_LENGTH }
    ensures ok { OnOk result (out.new.items ≡ out.old.items ++ pdu_octets pdu.now) }
    ensures err { OnErr result (Extends out.old.items out.new.items) }
{
    write_head(out, pdu_tag(pdu), contents_len(pdu))?;
    put_contents(out, pdu)?;
    Ok(())
}

/// Appends the contents of a PDU.
fn put_contents(out: &mut Vec<u8>, pdu: &MmsPdu) -> Result<(), AllocError>
    requires writable { IsWritablePdu pdu.now }
    requires bounded { length (pdu_contents pdu.now) < MOST_LENGTH }
    ensures ok { OnOk result (out.new.items ≡ out.old.items ++ pdu_contents pdu.now) }
    ensures err { OnErr result (Extends out.old.items out.new.items) }
{
    match pdu {
        MmsPdu::Request { invoke, request } => put_confirmed_request(out, *invoke, request),
        MmsPdu::Response { invoke, response } => put_confirmed_response(out, *invoke, response),
        MmsPdu::Error(error) => put_error_pdu(out, error),
        MmsPdu::Report(report) => put_report_pdu(out, report),
        MmsPdu::Reject(reject) => put_reject_pdu(out, reject),
        MmsPdu::Initiate(offer) => put_initiate(out, offer),
        MmsPdu::Initiated(offer) => put_initiate(out, offer),
        MmsPdu::InitiateError => Ok(()),
        MmsPdu::Conclude => Ok(()),
        MmsPdu::Concluded => Ok(()),
    }
}

#[tactic(auto, using(ber_values::proofs::Pieces::extended), unfolding(crate::specs::PduOctets::invoke_octets))]
fn put_confirmed_request(
    out: &mut Vec<u8>,
    invoke: u32,
    request: &Request,
) -> Result<(), AllocError>
    requires lawful { IsLawfulRequest request.now }
    requires bounded { length (invoke_octets invoke ++ request_octets request.now) < MOST_LENGTH }
    ensures ok { OnOk result
        (out.new.items ≡ out.old.items ++ (invoke_octets invoke ++ request_octets request.now)) }
    ensures err { OnErr result (Extends out.old.items out.new.items) }
{
    write_natural(out, INTEGER, u64::from(invoke))?;
    put_request(out, request)?;
    Ok(())
}

#[tactic(auto, using(ber_values::proofs::Pieces::extended), unfolding(crate::specs::PduOctets::invoke_octets))]
fn put_confirmed_response(
    out: &mut Vec<u8>,
    invoke: u32,
    response: &Response,
) -> Result<(), AllocError>
    requires lawful { IsLawfulResponse response.now }
    requires bounded { length (invoke_octets invoke ++ response_octets response.now)
        < MOST_LENGTH }
    ensures ok { OnOk result
        (out.new.items ≡ out.old.items ++ (invoke_octets invoke ++ response_octets response.now)) }
    ensures err { OnErr result (Extends out.old.items out.new.items) }
{
    write_natural(out, INTEGER, u64::from(invoke))?;
    put_response(out, response)?;
    Ok(())
}
