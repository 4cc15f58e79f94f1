//! Deletes named variable lists (ISO 9506-2, `DeleteNamedVariableList`).
ghost use Rattle.std.specs.Prelude.{◌≡◌, ◌+◌, ◌^◌, ◌<◌, ◌≤◌, ◌++◌, length, IfOk, OnOk, OnErr};
ghost use Rattle.plain_text.specs.Extends.{Extends};
ghost use Rattle.ber_values.specs.Lengths.{capped};
ghost use Rattle.ber_values.specs.Writing.{written};
ghost use Rattle.ber_values.specs.declared.lengths.TheConstants.{MOST_LENGTH};
ghost use Rattle.ber_values.specs.Faults.{Gives};
ghost use Rattle.ber_values.specs.Stops.{Answers};
ghost use Rattle.ber_values.specs.Readers.{taken_from};
ghost use Rattle.mms_services.specs.Names.Deletes.{is_specific, deletion_scope, set_names};
ghost use Rattle.mms_services.specs.Names.Deletes.{delete_request, delete_response, set_names_octets};
ghost use Rattle.mms_services.specs.Names.Deletes.{delete_request_octets, delete_response_octets};

use ber_values::{
    BerFault, MOST_LENGTH, Part, Stop, add_len, has_tag, integer_len, natural_len, octets_from,
    part_len, short, take_end, take_part, write_head, write_integer, write_natural,
};
use mms_data::{Name, Names, name_len, take_name, write_name};
use std::alloc::{AllocError, Global};

/// Asks that named variable lists be deleted.
#[derive(Debug, Drop)]
pub struct DeleteRequest {
    /// The number of the scope: 0 where the lists that are named are meant.
    pub scope: i64,
    /// The names of the lists: one or more where the scope is 0, else none.
    pub sets: Names,
}

/// Says how many there were.
#[derive(Clone, Copy, Debug, PartialEq, Eq)]
pub struct DeleteResponse {
    /// How many lists were meant.
    pub matched: u32,
    /// How many of them were deleted.
    pub deleted: u32,
}

/// The request that the contents of an element are.
#[tactic(auto, unfolding(crate::specs::Names::Deletes::delete_request, crate::specs::Names::Deletes::free, ber_values::specs::Parts::all_in, ber_values::specs::Parts::part_in, ber_values::specs::Grammars::then_in, ber_values::specs::Grammars::map_in, ber_values::specs::Grammars::branch_in))]
pub fn delete_request_from(alloc: Global, part: &Part<'_>) -> Result<DeleteRequest, Stop>
    requires { part.now.head.body + length part.now.contents.now < 2 ^ 64 }
    ensures { Answers (λ r. r) result
        (delete_request.reading part.now.head part.now.contents.now) }
{
    let (scope, next) = take_scope(part.contents, part.head.body)?;
    if !is_specific(scope) {
        return Ok(DeleteRequest {
            scope,
            sets: Names::new(alloc),
        });
    }
    let list = take_part(octets_from(part.contents, part.head.body, next), next, 0xA1)?;
    let sets = set_names_from(alloc, &list)?;
    take_end(list.rest, list.head.next)?;
    Ok(DeleteRequest { scope, sets })
}

/// The scope at the front of octets, and the place after it.
#[tactic(auto, unfolding(crate::specs::Names::Deletes::deletion_scope, ber_values::specs::Parts::choose_in, ber_values::specs::Parts::part_in, ber_values::specs::Grammars::branch_in, ber_values::specs::Grammars::gives))]
fn take_scope(octets: &[u8], at: usize) -> Result<(i64, usize), BerFault>
    requires { at + length octets.now < 2 ^ 64 }
    ensures exact { Gives (taken_from at octets.now) result
        (deletion_scope.reading at octets.now) }
    ensures within { IfOk result (λ x. (at ≤ x.1) × (x.1 ≤ at + length octets.now)) }
{
    if !has_tag(octets, 0x80) {
        return Ok((0, at));
    }
    let part = take_part(octets, at, 0x80)?;
    let scope = part.integer()?;
    Ok((scope, part.head.next))
}

/// Whether a scope is the one of the lists that are named.
fn is_specific(scope: i64) -> bool
    ensures { result ≡ is_specific scope }
{
    scope == 0
}

/// The names of lists that the contents of an element are.
fn set_names_from(alloc: Global, part: &Part<'_>) -> Result<Names, Stop>
    requires { part.now.head.body + length part.now.contents.now < 2 ^ 64 }
    ensures { Answers (λ ns. ns) result
        (set_names.reading part.now.head part.now.contents.now) }
{
    let mut sets = Names::new(alloc);
    let mut at = part.head.body;
    let mut rest = part.contents;
    while !rest.is_empty() {
        let (one, next) = take_name(alloc, rest, at)?;
        sets.push(one)?;
        rest = octets_from(rest, at, next);
        at = next;
    }
    if sets.len() == 0 {
        return Err(Stop::Fault(short(at)));
    }
    Ok(sets)
}

/// The response that the contents of an element are.
#[tactic(auto, unfolding(crate::specs::Names::Deletes::delete_response, ber_values::specs::Parts::all_in, ber_values::specs::Parts::part_in, ber_values::specs::Grammars::then_in, ber_values::specs::Grammars::map_in))]
pub fn delete_response_from(part: &Part<'_>) -> Result<DeleteResponse, BerFault>
    requires { part.now.head.body + length part.now.contents.now < 2 ^ 64 }
    ensures { result ≡ delete_response.reading part.now.head part.now.contents.now }
{
    let first = take_part(part.contents, part.head.body, 0x80)?;
    let matched = first.unsigned()?;
    let second = take_part(first.rest, first.head.next, 0x81)?;
    let deleted = second.unsigned()?;
    take_end(second.rest, second.head.next)?;
    Ok(DeleteResponse { matched, deleted })
}

/// How many octets [`put_delete_request`] appends, capped.
pub fn delete_request_len(request: &DeleteRequest) -> usize
    ensures { result ≡ capped (length (delete_request_octets request.now)) }
{
    if is_specific(request.scope) {
        return part_len(set_names_len(request.sets.as_slice()));
    }
    part_len(integer_len(request.scope))
}

/// How many octets [`put_set_names`] appends, capped.
#[tactic(auto, using(ber_values::proofs::Pieces::summed), unfolding(crate::specs::Names::Deletes::set_names_octets))]
fn set_names_len(sets: &[Name]) -> usize
    ensures { result ≡ capped (length (set_names_octets sets.now)) }
{
    let mut len = 0;
    for set in sets {
        len = add_len(len, name_len(set));
    }
    len
}

/// Appends the contents of a request.
pub fn put_delete_request(out: &mut Vec<u8>, request: &DeleteRequest) -> Result<(), AllocError>
    requires { length (delete_request_octets request.now) < MOST_LENGTH }
    ensures ok { OnOk result
        (out.new.items ≡ out.old.items ++ delete_request_octets request.now) }
    ensures err { OnErr result (Extends out.old.items out.new.items) }
{
    if is_specific(request.scope) {
        return put_sets(out, &request.sets);
    }
    write_integer(out, 0x80, request.scope)
}

/// Appends the names of lists as an element.
fn put_sets(out: &mut Vec<u8>, sets: &Names) -> Result<(), AllocError>
    requires { length (written 161 (set_names_octets sets.now)) < MOST_LENGTH }
    ensures ok { OnOk result
        (out.new.items ≡ out.old.items ++ written 161 (set_names_octets sets.now)) }
    ensures err { OnErr result (Extends out.old.items out.new.items) }
{
    write_head(out, 0xA1, set_names_len(sets.as_slice()))?;
    put_set_names(out, sets.as_slice())?;
    Ok(())
}

/// Appends the names of lists, one after another.
#[tactic(auto, using(ber_values::proofs::Pieces::written_each), unfolding(crate::specs::Names::Deletes::set_names_octets))]
fn put_set_names(out: &mut Vec<u8>, sets: &[Name]) -> Result<(), AllocError>
    ensures ok { OnOk result (out.new.items ≡ out.old.items ++ set_names_octets sets.now) }
    ensures err { OnErr result (Extends out.old.items out.new.items) }
{
    for set in sets {
        write_name(out, set)?;
    }
    Ok(())
}

/// How many octets [`put_delete_response`] appends.
pub fn delete_response_len(response: &DeleteResponse) -> usize
    ensures value { result ≡ length (delete_response_octets response.now) }
    ensures few { result ≤ 20 }
{
    4 + natural_len(u64::from(response.matched)) + natural_len(u64::from(response.deleted))
}

/// Appends the contents of a response.
#[tactic(auto, using(ber_values::proofs::Pieces::extended), unfolding(crate::specs::Names::Deletes::delete_response_octets))]
pub fn put_delete_response(out: &mut Vec<u8>, response: &DeleteResponse) -> Result<(), AllocError>
    ensures ok { OnOk result
        (out.new.items ≡ out.old.items ++ delete_response_octets response.now) }
    ensures err { OnErr result (Extends out.old.items out.new.items) }
{
    write_natural(out, 0x80, u64::from(response.matched))?;
    write_natural(out, 0x81, u64::from(response.deleted))?;
    Ok(())
}
