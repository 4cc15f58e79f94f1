//! Defines a named variable list (ISO 9506-2, `DefineNamedVariableList`).
ghost use Rattle.std.specs.Prelude.{◌≡◌, ◌+◌, ◌^◌, ◌<◌, ◌++◌, length, OnOk, OnErr};
ghost use Rattle.plain_text.specs.Extends.{Extends};
ghost use Rattle.ber_values.specs.Lengths.{capped};
ghost use Rattle.ber_values.specs.declared.lengths.TheConstants.{MOST_LENGTH};
ghost use Rattle.ber_values.specs.Stops.{Answers};
ghost use Rattle.mms_services.specs.Names.Defines.{define_request, define_request_octets};

use crate::access::variables_from;
use crate::names::members::{members_len, put_members};
use ber_values::{MOST_LENGTH, Part, Stop, add_len, octets_from, take_end, take_part};
use mms_data::{Name, Names, name_len, take_name, write_name};
use std::alloc::{AllocError, Global};

/// Asks for a named variable list of these members.
#[derive(Debug, Drop)]
pub struct DefineRequest {
    pub set: Name,
    /// The variables, one or more.
    pub members: Names,
}

/// The request that the contents of an element are.
#[tactic(auto, unfolding(crate::specs::Names::Defines::define_request, ber_values::specs::Parts::all_in, ber_values::specs::Parts::part_in, ber_values::specs::Grammars::then_in, ber_values::specs::Grammars::map_in))]
pub fn define_request_from(alloc: Global, part: &Part<'_>) -> Result<DefineRequest, Stop>
    requires { part.now.head.body + length part.now.contents.now < 2 ^ 64 }
    ensures { Answers (λ r. r) result
        (define_request.reading part.now.head part.now.contents.now) }
{
    let (set, next) = take_name(alloc, part.contents, part.head.body)?;
    let list = take_part(octets_from(part.contents, part.head.body, next), next, 0xA0)?;
    let members = variables_from(alloc, &list)?;
    take_end(list.rest, list.head.next)?;
    Ok(DefineRequest { set, members })
}

/// How many octets [`put_define_request`] appends, capped.
pub fn define_request_len(request: &DefineRequest) -> usize
    ensures { result ≡ capped (length (define_request_octets request.now)) }
{
    add_len(name_len(&request.set), members_len(&request.members))
}

/// Appends the contents of a request.
#[tactic(auto, using(ber_values::proofs::Pieces::extended), unfolding(crate::specs::Names::Defines::define_request_octets))]
pub fn put_define_request(out: &mut Vec<u8>, request: &DefineRequest) -> Result<(), AllocError>
    requires { length (define_request_octets request.now) < MOST_LENGTH }
    ensures ok { OnOk result
        (out.new.items ≡ out.old.items ++ define_request_octets request.now) }
    ensures err { OnErr result (Extends out.old.items out.new.items) }
{
    write_name(out, &request.set)?;
    put_members(out, 0xA0, &request.members)?;
    Ok(())
}
