//! Asks for the type of a variable (ISO 9506-2, `GetVariableAccessAttributes`).
ghost use Rattle.std.specs.Prelude.{◌≡◌, ◌+◌, ◌^◌, ◌<◌, ◌++◌, length, OnOk, OnErr};
ghost use Rattle.plain_text.specs.Extends.{Extends};
ghost use Rattle.ber_values.specs.Lengths.{capped};
ghost use Rattle.ber_values.specs.Writing.{written};
ghost use Rattle.ber_values.specs.declared.lengths.TheConstants.{MOST_LENGTH};
ghost use Rattle.ber_values.specs.Stops.{Answers};
ghost use Rattle.mms_data.specs.Types.ShapeWritten.{shape_octets};
ghost use Rattle.mms_services.specs.Access.TypesOf.{type_request, type_response};
ghost use Rattle.mms_services.specs.Access.TypesOf.{type_request_octets, undeletable_octets};
ghost use Rattle.mms_services.specs.Access.TypesOf.{type_response_octets};

use crate::access::spec::variable_from;
use ber_values::{
    MOST_LENGTH, Part, Stop, add_len, octets_from, part_len, take_end, take_part, write_head,
};
use mms_data::types::{Shape, pass_once, shape_from, shape_len, write_shape};
use mms_data::{Name, name_len, write_name};
use std::alloc::{AllocError, Global};

/// Asks for the type of a variable.
#[derive(Debug, Drop)]
pub struct TypeRequest {
    pub name: Name,
}

/// Answers with it.
#[derive(Debug, Drop)]
pub struct TypeResponse {
    pub shape: Shape,
}

/// The request that the contents of an element are.
#[tactic(auto, unfolding(crate::specs::Access::TypesOf::type_request, ber_values::specs::Parts::contents_as))]
pub fn type_request_from(alloc: Global, part: &Part<'_>) -> Result<TypeRequest, Stop>
    requires { part.now.head.body + length part.now.contents.now < 2 ^ 64 }
    ensures { Answers (λ r. r) result (type_request.reading part.now.head part.now.contents.now) }
{
    Ok(TypeRequest {
        name: variable_from(alloc, part)?,
    })
}

/// The response that the contents of an element are. Whether the variable may be deleted and its
/// address are said, and count for nothing.
#[tactic(auto, unfolding(crate::specs::Access::TypesOf::type_response, ber_values::specs::Parts::all_in, ber_values::specs::Parts::part_in, ber_values::specs::Grammars::then_in, ber_values::specs::Grammars::map_in))]
pub fn type_response_from(alloc: Global, part: &Part<'_>) -> Result<TypeResponse, Stop>
    requires { part.now.head.body + length part.now.contents.now < 2 ^ 64 }
    ensures { Answers (λ r. r) result (type_response.reading part.now.head part.now.contents.now) }
{
    let deletable = take_part(part.contents, part.head.body, 0x80)?;
    let _deletable = deletable.boolean()?;
    let next = pass_once(deletable.rest, deletable.head.next, 0xA1)?;
    let told = take_part(
        octets_from(deletable.rest, deletable.head.next, next),
        next,
        0xA2,
    )?;
    let shape = shape_from(alloc, &told)?;
    take_end(told.rest, told.head.next)?;
    Ok(TypeResponse { shape })
}

/// How many octets [`put_type_request`] appends, capped.
pub fn type_request_len(request: &TypeRequest) -> usize
    ensures { result ≡ capped (length (type_request_octets request.now)) }
{
    part_len(name_len(&request.name))
}

/// Appends the contents of a request.
#[tactic(auto, using(ber_values::proofs::Pieces::extended))]
pub fn put_type_request(out: &mut Vec<u8>, request: &TypeRequest) -> Result<(), AllocError>
    requires { length (type_request_octets request.now) < MOST_LENGTH }
    ensures ok { OnOk result (out.new.items ≡ out.old.items ++ type_request_octets request.now) }
    ensures err { OnErr result (Extends out.old.items out.new.items) }
{
    write_head(out, 0xA0, name_len(&request.name))?;
    write_name(out, &request.name)?;
    Ok(())
}

/// How many octets [`put_type_response`] appends, capped.
pub fn type_response_len(response: &TypeResponse) -> usize
    ensures { result ≡ capped (length (type_response_octets response.now)) }
{
    add_len(3, part_len(shape_len(&response.shape)))
}

/// Appends the contents of a response.
#[tactic(auto, using(ber_values::proofs::Pieces::extended), unfolding(crate::specs::Access::TypesOf::type_response_octets))]
pub fn put_type_response(out: &mut Vec<u8>, response: &TypeResponse) -> Result<(), AllocError>
    requires { length (type_response_octets response.now) < MOST_LENGTH }
    ensures ok { OnOk result (out.new.items ≡ out.old.items ++ type_response_octets response.now) }
    ensures err { OnErr result (Extends out.old.items out.new.items) }
{
    put_undeletable(out)?;
    put_told(out, &response.shape)?;
    Ok(())
}

/// Appends that the variable may not be deleted.
#[tactic(auto, unfolding(crate::specs::Access::TypesOf::undeletable_octets, ber_values::specs::Writing::length_octets))]
fn put_undeletable(out: &mut Vec<u8>) -> Result<(), AllocError>
    ensures ok { OnOk result (out.new.items ≡ out.old.items ++ undeletable_octets) }
    ensures err { OnErr result (out.new.items ≡ out.old.items) }
{
    out.extend_from_slice(&[0x80, 1, 0])
}

/// Appends the type.
#[tactic(auto, using(ber_values::proofs::Pieces::extended))]
fn put_told(out: &mut Vec<u8>, shape: &Shape) -> Result<(), AllocError>
    requires { length (written 162 (shape_octets shape.now)) < MOST_LENGTH }
    ensures ok { OnOk result
        (out.new.items ≡ out.old.items ++ written 162 (shape_octets shape.now)) }
    ensures err { OnErr result (Extends out.old.items out.new.items) }
{
    write_head(out, 0xA2, shape_len(shape))?;
    write_shape(out, shape)?;
    Ok(())
}
