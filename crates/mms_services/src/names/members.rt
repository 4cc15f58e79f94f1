//! Asks for the members of a named variable list (ISO 9506-2, `GetNamedVariableListAttributes`).
ghost use Rattle.std.specs.Prelude.{ℕ, ◌≡◌, ◌≢◌, ◌+◌, ◌%◌, ◌^◌, ◌<◌, ◌≤◌, ◌++◌, length, OnOk};
ghost use Rattle.std.specs.Prelude.{OnErr};
ghost use Rattle.plain_text.specs.Extends.{Extends};
ghost use Rattle.ber_values.specs.Lengths.{capped};
ghost use Rattle.ber_values.specs.Writing.{written};
ghost use Rattle.ber_values.specs.declared.lengths.TheConstants.{MOST_LENGTH};
ghost use Rattle.ber_values.specs.Stops.{Answers};
ghost use Rattle.mms_services.specs.Access.Specifications.{variables_octets};
ghost use Rattle.mms_services.specs.Names.MemberLists.{members_request, members_response};
ghost use Rattle.mms_services.specs.Names.MemberLists.{members_request_octets, deletable_octets};
ghost use Rattle.mms_services.specs.Names.MemberLists.{members_response_octets};

use crate::access::{name_from, put_variables, variables_from, variables_len};
use ber_values::{MOST_LENGTH, Part, Stop, add_len, part_len, take_end, take_part, write_head};
use mms_data::{Name, Names, name_len, write_name};
use std::alloc::{AllocError, Global};

/// Asks for the members of a named variable list.
#[derive(Debug, Drop)]
pub struct MembersRequest {
    pub set: Name,
}

/// Answers with them.
#[derive(Debug, Drop)]
pub struct MembersResponse {
    /// The variables, one or more.
    pub members: Names,
}

/// The request that the contents of an element are.
#[tactic(auto, unfolding(crate::specs::Names::MemberLists::members_request, ber_values::specs::Parts::contents_as))]
pub fn members_request_from(alloc: Global, part: &Part<'_>) -> Result<MembersRequest, Stop>
    requires { part.now.head.body + length part.now.contents.now < 2 ^ 64 }
    ensures { Answers (λ r. r) result
        (members_request.reading part.now.head part.now.contents.now) }
{
    Ok(MembersRequest {
        set: name_from(alloc, part)?,
    })
}

/// The response that the contents of an element are. That the list may be deleted is said, and
/// counts for nothing.
#[tactic(auto, unfolding(crate::specs::Names::MemberLists::members_response, ber_values::specs::Parts::all_in, ber_values::specs::Parts::part_in, ber_values::specs::Grammars::then_in, ber_values::specs::Grammars::map_in))]
pub fn members_response_from(alloc: Global, part: &Part<'_>) -> Result<MembersResponse, Stop>
    requires { part.now.head.body + length part.now.contents.now < 2 ^ 64 }
    ensures { Answers (λ r. r) result
        (members_response.reading part.now.head part.now.contents.now) }
{
    let deletable = take_part(part.contents, part.head.body, 0x80)?;
    deletable.fixed(&[0xFF])?;
    let list = take_part(deletable.rest, deletable.head.next, 0xA1)?;
    let members = variables_from(alloc, &list)?;
    take_end(list.rest, list.head.next)?;
    Ok(MembersResponse { members })
}

/// How many octets [`put_members_request`] appends, capped.
#[tactic(auto, unfolding(crate::specs::Names::MemberLists::members_request_octets))]
pub fn members_request_len(request: &MembersRequest) -> usize
    ensures { result ≡ capped (length (members_request_octets request.now)) }
{
    name_len(&request.set)
}

/// Appends the contents of a request.
#[tactic(auto, unfolding(crate::specs::Names::MemberLists::members_request_octets))]
pub fn put_members_request(out: &mut Vec<u8>, request: &MembersRequest) -> Result<(), AllocError>
    ensures ok { OnOk result
        (out.new.items ≡ out.old.items ++ members_request_octets request.now) }
    ensures err { OnErr result (Extends out.old.items out.new.items) }
{
    write_name(out, &request.set)
}

/// How many octets [`put_members_response`] appends, capped.
pub fn members_response_len(response: &MembersResponse) -> usize
    ensures { result ≡ capped (length (members_response_octets response.now)) }
{
    add_len(3, members_len(&response.members))
}

/// Appends the contents of a response.
#[tactic(auto, using(ber_values::proofs::Pieces::extended), unfolding(crate::specs::Names::MemberLists::members_response_octets))]
pub fn put_members_response(out: &mut Vec<u8>, response: &MembersResponse) -> Result<(), AllocError>
    requires { length (members_response_octets response.now) < MOST_LENGTH }
    ensures ok { OnOk result
        (out.new.items ≡ out.old.items ++ members_response_octets response.now) }
    ensures err { OnErr result (Extends out.old.items out.new.items) }
{
    put_deletable(out)?;
    put_members(out, 0xA1, &response.members)?;
    Ok(())
}

/// Appends that the list may be deleted.
#[tactic(auto, unfolding(crate::specs::Names::MemberLists::deletable_octets, ber_values::specs::Writing::length_octets))]
fn put_deletable(out: &mut Vec<u8>) -> Result<(), AllocError>
    ensures ok { OnOk result (out.new.items ≡ out.old.items ++ deletable_octets) }
    ensures err { OnErr result (out.new.items ≡ out.old.items) }
{
    out.extend_from_slice(&[0x80, 1, 0xFF])
}

/// How many octets [`put_members`] appends, capped.
pub(crate) fn members_len(members: &Names) -> usize
    ensures value { (tag : ℕ)
        → result ≡ capped (length (written tag (variables_octets members.now))) }
    ensures few { result ≤ MOST_LENGTH }
{
    part_len(variables_len(members.as_slice()))
}

/// Appends variables as an element with this tag.
pub(crate) fn put_members(out: &mut Vec<u8>, tag: u8, members: &Names) -> Result<(), AllocError>
    requires single { tag % 32 ≢ 31 }
    requires bounded { length (written tag (variables_octets members.now)) < MOST_LENGTH }
    ensures ok { OnOk result
        (out.new.items ≡ out.old.items ++ written tag (variables_octets members.now)) }
    ensures err { OnErr result (Extends out.old.items out.new.items) }
{
    write_head(out, tag, variables_len(members.as_slice()))?;
    put_variables(out, members.as_slice())?;
    Ok(())
}
