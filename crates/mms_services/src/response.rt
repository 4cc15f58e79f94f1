//! Responses of services (ISO 9506-2, `ConfirmedServiceResponse`).
ghost use Rattle.std.specs.Prelude.{◌≡◌, ◌+◌, ◌^◌, ◌<◌, ◌≤◌, ◌≢◌, ◌%◌, ◌++◌, length};
ghost use Rattle.std.specs.Prelude.{IfOk, OnOk, OnErr};
ghost use Rattle.plain_text.specs.Extends.{Extends};
ghost use Rattle.ber_values.specs.Lengths.{capped};
ghost use Rattle.ber_values.specs.declared.lengths.TheConstants.{MOST_LENGTH};
ghost use Rattle.mms_services.specs.Identities.{identify_response_octets};
ghost use Rattle.mms_services.specs.Lawful.{IsLawfulResponse};
ghost use Rattle.mms_services.specs.PduOctets.{response_tag, response_contents, response_octets};
ghost use Rattle.ber_values.specs.Stops.{Answers};
ghost use Rattle.ber_values.specs.Readers.{taken_from};
ghost use Rattle.mms_services.specs.Responses.{set_response, one_response};

use crate::access::{
    ReadResponse, TypeResponse, WriteResponse, put_read_response, put_type_response,
    put_write_response, read_response_from, read_response_len, type_response_from,
    type_response_len, write_response_from, write_response_len,
};
use crate::identify::{IDENTIFY_RESPONSE_LEN, identify_response_from, put_identify_response};
use crate::names::{
    DeleteResponse, MembersResponse, NameListResponse, delete_response_from, delete_response_len,
    members_response_from, members_response_len, name_list_response_from, name_list_response_len,
    put_delete_response, put_members_response, put_name_list_response,
};
use ber_values::{MOST_LENGTH, Stop, has_tag, part_len, take_part, write_head};
use std::alloc::{AllocError, Global};

/// What a service answers.
#[derive(Debug, Drop)]
pub enum Response {
    /// Names of objects.
    NameList(NameListResponse),
    /// Who answers, which counts for nothing.
    Identify,
    /// The values of variables.
    Read(ReadResponse),
    /// What came of writing variables.
    Write(WriteResponse),
    /// The type of a variable.
    TypeIs(TypeResponse),
    /// The named variable list is defined.
    Define,
    /// The members of a named variable list.
    MembersOf(MembersResponse),
    /// How many named variable lists were deleted.
    Delete(DeleteResponse),
}

/// The tags of services.
const NAME_LIST: u8 = 0xA1;

const IDENTIFY: u8 = 0xA2;

const READ: u8 = 0xA4;

const WRITE: u8 = 0xA5;

const TYPE_IS: u8 = 0xA6;

const DEFINE: u8 = 0x8B;

const MEMBERS: u8 = 0xAC;

const DELETE: u8 = 0xAD;

/// The response at the front of octets, of which the first has the place `at`, and the place after
/// it.
#[tactic(auto, unfolding(crate::specs::Responses::one_response, ber_values::specs::Parts::choose_in, ber_values::specs::Parts::part_in, ber_values::specs::Parts::contents_as, ber_values::specs::Grammars::branch_in))]
pub(crate) fn take_response(
    alloc: Global,
    octets: &[u8],
    at: usize,
) -> Result<(Response, usize), Stop>
    requires { at + length octets.now < 2 ^ 64 }
    ensures exact { Answers (taken_from at octets.now) result
        (one_response.reading at octets.now) }
    ensures within { IfOk result (λ x. (at < x.1) × (x.1 ≤ at + length octets.now)) }
{
    if has_tag(octets, NAME_LIST) {
        let part = take_part(octets, at, NAME_LIST)?;
        let response = name_list_response_from(alloc, &part)?;
        return Ok((Response::NameList(response), part.head.next));
    }
    if has_tag(octets, IDENTIFY) {
        let part = take_part(octets, at, IDENTIFY)?;
        identify_response_from(alloc, &part)?;
        return Ok((Response::Identify, part.head.next));
    }
    if has_tag(octets, READ) {
        let part = take_part(octets, at, READ)?;
        let response = read_response_from(alloc, &part)?;
        return Ok((Response::Read(response), part.head.next));
    }
    if has_tag(octets, WRITE) {
        let part = take_part(octets, at, WRITE)?;
        let response = write_response_from(alloc, &part)?;
        return Ok((Response::Write(response), part.head.next));
    }
    if has_tag(octets, TYPE_IS) {
        let part = take_part(octets, at, TYPE_IS)?;
        let response = type_response_from(alloc, &part)?;
        return Ok((Response::TypeIs(response), part.head.next));
    }
    take_set_response(alloc, octets, at)
}

/// The response of a service of named variable lists.
#[tactic(auto, unfolding(crate::specs::Responses::set_response, ber_values::specs::Parts::choose_in, ber_values::specs::Parts::part_in, ber_values::specs::Parts::contents_as, ber_values::specs::Grammars::branch_in))]
fn take_set_response(alloc: Global, octets: &[u8], at: usize) -> Result<(Response, usize), Stop>
    requires { at + length octets.now < 2 ^ 64 }
    ensures exact { Answers (taken_from at octets.now) result
        (set_response.reading at octets.now) }
    ensures within { IfOk result (λ x. (at < x.1) × (x.1 ≤ at + length octets.now)) }
{
    if has_tag(octets, DEFINE) {
        let part = take_part(octets, at, DEFINE)?;
        part.fixed(&[])?;
        return Ok((Response::Define, part.head.next));
    }
    if has_tag(octets, MEMBERS) {
        let part = take_part(octets, at, MEMBERS)?;
        let response = members_response_from(alloc, &part)?;
        return Ok((Response::MembersOf(response), part.head.next));
    }
    let part = take_part(octets, at, DELETE)?;
    let response = delete_response_from(&part)?;
    Ok((Response::Delete(response), part.head.next))
}

/// The tag of a response.
fn response_tag(response: &Response) -> u8
    ensures value { result ≡ response_tag response.now }
    ensures single { result % 32 ≢ 31 }
{
    match response {
        Response::NameList(_) => NAME_LIST,
        Response::Identify => IDENTIFY,
        Response::Read(_) => READ,
        Response::Write(_) => WRITE,
        Response::TypeIs(_) => TYPE_IS,
        Response::Define => DEFINE,
        Response::MembersOf(_) => MEMBERS,
        Response::Delete(_) => DELETE,
    }
}

/// How many octets the contents of a response have, capped.
fn contents_len(response: &Response) -> usize
    requires { IsLawfulResponse response.now }
    ensures value { result ≡ capped (length (response_contents response.now)) }
    ensures few { result ≤ MOST_LENGTH }
{
    match response {
        Response::NameList(response) => name_list_response_len(response),
        Response::Identify => identify_len(),
        Response::Read(response) => read_response_len(response),
        Response::Write(response) => write_response_len(response),
        Response::TypeIs(response) => type_response_len(response),
        Response::Define => 0,
        Response::MembersOf(response) => members_response_len(response),
        Response::Delete(response) => delete_response_len(response),
    }
}

/// How many octets say who answers.
#[tactic(auto, unfolding(crate::specs::Identities::identify_response_octets, ber_values::specs::Writing::length_octets))]
fn identify_len() -> usize
    ensures value { result ≡ capped (length identify_response_octets) }
    ensures few { result ≤ MOST_LENGTH }
{
    IDENTIFY_RESPONSE_LEN
}

/// How many octets [`put_response`] appends, capped.
pub(crate) fn response_len(response: &Response) -> usize
    requires { IsLawfulResponse response.now }
    ensures value { result ≡ capped (length (response_octets response.now)) }
    ensures few { result ≤ MOST_LENGTH }
{
    part_len(contents_len(response))
}

/// Appends a response.
#[tactic(auto, using(ber_values::proofs::Pieces::extended))]
pub(crate) fn put_response(out: &mut Vec<u8>, response: &Response) -> Result<(), AllocError>
    requires lawful { IsLawfulResponse response.now }
    requires bounded { length (response_octets response.now) < MOST_LENGTH }
    ensures ok { OnOk result (out.new.items ≡ out.old.items ++ response_octets response.now) }
    ensures err { OnErr result (Extends out.old.items out.new.items) }
{
    write_head(out, response_tag(response), contents_len(response))?;
    put_contents(out, response)?;
    Ok(())
}

/// Appends the contents of a response.
fn put_contents(out: &mut Vec<u8>, response: &Response) -> Result<(), AllocError>
    requires lawful { IsLawfulResponse response.now }
    requires bounded { length (response_contents response.now) < MOST_LENGTH }
    ensures ok { OnOk result (out.new.items ≡ out.old.items ++ response_contents response.now) }
    ensures err { OnErr result (Extends out.old.items out.new.items) }
{
    match response {
        Response::NameList(response) => put_name_list_response(out, response),
        Response::Identify => put_identify_response(out),
        Response::Read(response) => put_read_response(out, response),
        Response::Write(response) => put_write_response(out, response),
        Response::TypeIs(response) => put_type_response(out, response),
        Response::Define => Ok(()),
        Response::MembersOf(response) => put_members_response(out, response),
        Response::Delete(response) => put_delete_response(out, response),
    }
}
