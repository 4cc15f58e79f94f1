//! Requests of services (ISO 9506-2, `ConfirmedServiceRequest`).
ghost use Rattle.std.specs.Prelude.{◌≡◌, ◌+◌, ◌-◌, ◌^◌, ◌<◌, ◌≤◌, ◌≢◌, ◌%◌, ◌++◌, length};
ghost use Rattle.std.specs.Prelude.{drop, IfOk, OnOk, OnErr};
ghost use Rattle.plain_text.specs.Extends.{Extends};
ghost use Rattle.ber_values.specs.Lengths.{capped};
ghost use Rattle.ber_values.specs.declared.lengths.TheConstants.{MOST_LENGTH};
ghost use Rattle.mms_services.specs.Lawful.{IsLawfulRequest};
ghost use Rattle.mms_services.specs.PduOctets.{request_tag, request_contents, request_octets};
ghost use Rattle.ber_values.specs.Faults.{Gives};
ghost use Rattle.ber_values.specs.Stops.{Answers};
ghost use Rattle.ber_values.specs.Grammars.{taken};
ghost use Rattle.ber_values.specs.Readers.{taken_from};
ghost use Rattle.mms_services.specs.declared.request.Request.TheVariants as services;
ghost use Rattle.mms_services.specs.Requests.{unknown_request, set_request};
ghost use Rattle.mms_services.specs.Requests.{one_request};

use crate::access::{
    ReadRequest, TypeRequest, WriteRequest, put_read_request, put_type_request, put_write_request,
    read_request_from, read_request_len, type_request_from, type_request_len, write_request_from,
    write_request_len,
};
use crate::identify::identify_request_from;
use crate::names::{
    DefineRequest, DeleteRequest, MembersRequest, NameListRequest, define_request_from,
    define_request_len, delete_request_from, delete_request_len, members_request_from,
    members_request_len, name_list_request_from, name_list_request_len, put_define_request,
    put_delete_request, put_members_request, put_name_list_request,
};
use ber_values::{
    BerFault, MOST_LENGTH, Stop, has_tag, is_context, part_len, refused, skip_part, take_part,
    write_head,
};
use std::alloc::{AllocError, Global};

/// What a service is asked for.
#[derive(Debug, Drop)]
pub enum Request {
    /// The names of objects.
    NameList(NameListRequest),
    /// Who answers.
    Identify,
    /// The values of variables.
    Read(ReadRequest),
    /// That variables get values.
    Write(WriteRequest),
    /// The type of a variable.
    TypeOf(TypeRequest),
    /// That a named variable list be defined.
    Define(DefineRequest),
    /// The members of a named variable list.
    MembersOf(MembersRequest),
    /// That named variable lists be deleted.
    Delete(DeleteRequest),
    /// A service that isn't among these.
    Unknown,
}

/// The tags of services.
const NAME_LIST: u8 = 0xA1;

const IDENTIFY: u8 = 0x82;

const READ: u8 = 0xA4;

const WRITE: u8 = 0xA5;

const TYPE_OF: u8 = 0xA6;

const DEFINE: u8 = 0xAB;

const MEMBERS: u8 = 0xAC;

const DELETE: u8 = 0xAD;

/// The request at the front of octets, of which the first has the place `at`, and the place after
/// it.
#[tactic(auto, unfolding(crate::specs::Requests::one_request, ber_values::specs::Parts::choose_in, ber_values::specs::Parts::part_in, ber_values::specs::Parts::contents_as, ber_values::specs::Grammars::branch_in))]
pub(crate) fn take_request(
    alloc: Global,
    octets: &[u8],
    at: usize,
) -> Result<(Request, usize), Stop>
    requires { at + length octets.now < 2 ^ 64 }
    ensures exact { Answers (taken_from at octets.now) result
        (one_request.reading at octets.now) }
    ensures within { IfOk result (λ x. (at < x.1) × (x.1 ≤ at + length octets.now)) }
{
    if has_tag(octets, NAME_LIST) {
        let part = take_part(octets, at, NAME_LIST)?;
        let request = name_list_request_from(alloc, &part)?;
        return Ok((Request::NameList(request), part.head.next));
    }
    if has_tag(octets, IDENTIFY) {
        let part = take_part(octets, at, IDENTIFY)?;
        identify_request_from(&part)?;
        return Ok((Request::Identify, part.head.next));
    }
    if has_tag(octets, READ) {
        let part = take_part(octets, at, READ)?;
        let request = read_request_from(alloc, &part)?;
        return Ok((Request::Read(request), part.head.next));
    }
    if has_tag(octets, WRITE) {
        let part = take_part(octets, at, WRITE)?;
        let request = write_request_from(alloc, &part)?;
        return Ok((Request::Write(request), part.head.next));
    }
    if has_tag(octets, TYPE_OF) {
        let part = take_part(octets, at, TYPE_OF)?;
        let request = type_request_from(alloc, &part)?;
        return Ok((Request::TypeOf(request), part.head.next));
    }
    take_set_request(alloc, octets, at)
}

/// The request of a service of named variable lists, or of one that isn't known.
#[tactic(auto, unfolding(crate::specs::Requests::set_request, ber_values::specs::Parts::choose_in, ber_values::specs::Parts::part_in, ber_values::specs::Parts::contents_as, ber_values::specs::Grammars::branch_in))]
fn take_set_request(alloc: Global, octets: &[u8], at: usize) -> Result<(Request, usize), Stop>
    requires { at + length octets.now < 2 ^ 64 }
    ensures exact { Answers (taken_from at octets.now) result
        (set_request.reading at octets.now) }
    ensures within { IfOk result (λ x. (at < x.1) × (x.1 ≤ at + length octets.now)) }
{
    if has_tag(octets, DEFINE) {
        let part = take_part(octets, at, DEFINE)?;
        let request = define_request_from(alloc, &part)?;
        return Ok((Request::Define(request), part.head.next));
    }
    if has_tag(octets, MEMBERS) {
        let part = take_part(octets, at, MEMBERS)?;
        let request = members_request_from(alloc, &part)?;
        return Ok((Request::MembersOf(request), part.head.next));
    }
    if has_tag(octets, DELETE) {
        let part = take_part(octets, at, DELETE)?;
        let request = delete_request_from(alloc, &part)?;
        return Ok((Request::Delete(request), part.head.next));
    }
    let next = pass_unknown(octets, at)?;
    Ok((Request::Unknown, next))
}

/// The place after the request of a service that isn't known.
#[tactic(auto, unfolding(crate::specs::Requests::unknown_request, ber_values::specs::Grammars::branch_in, ber_values::specs::Grammars::map_in, ber_values::specs::Grammars::refused))]
fn pass_unknown(octets: &[u8], at: usize) -> Result<usize, BerFault>
    requires { at + length octets.now < 2 ^ 64 }
    ensures exact { Gives
        (λ next. taken services.Unknown next (drop (next - at) octets.now)) result
        (unknown_request.reading at octets.now) }
    ensures within { IfOk result (λ next. (at < next) × (next ≤ at + length octets.now)) }
{
    if !is_context(octets) {
        return Err(refused(octets, at));
    }
    skip_part(octets, at)
}

/// The tag of a request. A service that isn't known has none of its own.
fn request_tag(request: &Request) -> u8
    ensures value { result ≡ request_tag request.now }
    ensures single { result % 32 ≢ 31 }
{
    match request {
        Request::NameList(_) => NAME_LIST,
        Request::Identify => IDENTIFY,
        Request::Read(_) => READ,
        Request::Write(_) => WRITE,
        Request::TypeOf(_) => TYPE_OF,
        Request::Define(_) => DEFINE,
        Request::MembersOf(_) => MEMBERS,
        Request::Delete(_) => DELETE,
        Request::Unknown => 0x80,
    }
}

/// How many octets the contents of a request have, capped.
fn contents_len(request: &Request) -> usize
    requires { IsLawfulRequest request.now }
    ensures value { result ≡ capped (length (request_contents request.now)) }
    ensures few { result ≤ MOST_LENGTH }
{
    match request {
        Request::NameList(request) => name_list_request_len(request),
        Request::Identify => 0,
        Request::Read(request) => read_request_len(request),
        Request::Write(request) => write_request_len(request),
        Request::TypeOf(request) => type_request_len(request),
        Request::Define(request) => define_request_len(request),
        Request::MembersOf(request) => members_request_len(request),
        Request::Delete(request) => delete_request_len(request),
        Request::Unknown => 0,
    }
}

/// How many octets [`put_request`] appends, capped.
pub(crate) fn request_len(request: &Request) -> usize
    requires { IsLawfulRequest request.now }
    ensures value { result ≡ capped (length (request_octets request.now)) }
    ensures few { result ≤ MOST_LENGTH }
{
    part_len(contents_len(request))
}

/// Appends a request.
#[tactic(auto, using(ber_values::proofs::Pieces::extended))]
pub(crate) fn put_request(out: &mut Vec<u8>, request: &Request) -> Result<(), AllocError>
    requires lawful { IsLawfulRequest request.now }
    requires bounded { length (request_octets request.now) < MOST_LENGTH }
    ensures ok { OnOk result (out.new.items ≡ out.old.items ++ request_octets request.now) }
    ensures err { OnErr result (Extends out.old.items out.new.items) }
{
    write_head(out, request_tag(request), contents_len(request))?;
    put_contents(out, request)?;
    Ok(())
}

/// Appends the contents of a request.
fn put_contents(out: &mut Vec<u8>, request: &Request) -> Result<(), AllocError>
    requires lawful { IsLawfulRequest request.now }
    requires bounded { length (request_contents request.now) < MOST_LENGTH }
    ensures ok { OnOk result (out.new.items ≡ out.old.items ++ request_contents request.now) }
    ensures err { OnErr result (Extends out.old.items out.new.items) }
{
    match request {
        Request::NameList(request) => put_name_list_request(out, request),
        Request::Identify => Ok(()),
        Request::Read(request) => put_read_request(out, request),
        Request::Write(request) => put_write_request(out, request),
        Request::TypeOf(request) => put_type_request(out, request),
        Request::Define(request) => put_define_request(out, request),
        Request::MembersOf(request) => put_members_request(out, request),
        Request::Delete(request) => put_delete_request(out, request),
        Request::Unknown => Ok(()),
    }
}
