//! Writes variables (ISO 9506-2, `Write`).
ghost use Rattle.std.specs.Prelude.{◌≡◌, ◌≢◌, ◌+◌, ◌%◌, ◌<◌, ◌≤◌, ◌^◌, ◌++◌, length, IfOk};
ghost use Rattle.std.specs.Prelude.{flat_map, OnOk, OnErr};
ghost use Rattle.std.specs.List.{All};
ghost use Rattle.plain_text.specs.Extends.{Extends};
ghost use Rattle.ber_values.specs.declared.lengths.TheConstants.{MOST_LENGTH};
ghost use Rattle.ber_values.specs.Lengths.{capped};
ghost use Rattle.ber_values.specs.Writing.{written};
ghost use Rattle.mms_data.specs.Lawful.{IsLawful};
ghost use Rattle.ber_values.specs.Faults.{Gives};
ghost use Rattle.ber_values.specs.Lists.{count_in, list_in};
ghost use Rattle.ber_values.specs.Readers.{taken_from};
ghost use Rattle.ber_values.specs.Stops.{Answers};
ghost use Rattle.mms_data.specs.DataOctets.{one_datum};
ghost use Rattle.mms_services.specs.Access.Writes.{values_of, write_request, one_written, write_response};
ghost use Rattle.mms_services.specs.Access.Writes.{values_octets, write_request_octets};
ghost use Rattle.mms_services.specs.Access.Writes.{one_written_octets, write_response_octets};

use crate::access::spec::{Spec, put_spec, spec_len, take_spec};
use ber_values::{
    BerFault, MOST_LENGTH, Part, Stop, add_len, has_tag, octets_from, part_len, short, surplus,
    take_end, take_part, write_head, write_octets,
};
use item_list::ItemList;
use mms_data::{DataList, MmsData, data_len, take_data, write_data};
use std::alloc::{AllocError, Global};

/// Asks that variables get these values.
#[derive(Debug, Drop)]
pub struct WriteRequest {
    pub spec: Spec,
    /// As many as the variables, or one or more for a list that is named.
    pub values: DataList,
}

/// Says for each variable what came of it.
#[derive(Debug, Drop)]
pub struct WriteResponse {
    /// None where the variable was written, else the number of the reason, a `DataAccessError`.
    pub results: ItemList<Option<u8>>,
}

/// The request that the contents of an element are.
#[tactic(auto, using(ber_values::proofs::Passed::drop_on), unfolding(crate::specs::Access::Writes::write_request, ber_values::specs::Parts::all_in, ber_values::specs::Parts::part_in, ber_values::specs::Grammars::then_in, ber_values::specs::Grammars::map_in))]
pub fn write_request_from(alloc: Global, part: &Part<'_>) -> Result<WriteRequest, Stop>
    requires { part.now.head.body + length part.now.contents.now < 2 ^ 64 }
    ensures { Answers (λ r. r) result (write_request.reading part.now.head part.now.contents.now) }
{
    let (spec, at) = take_spec(alloc, part.contents, part.head.body)?;
    let listed = take_part(octets_from(part.contents, part.head.body, at), at, 0xA0)?;
    let values = values_from(alloc, &listed, &spec)?;
    take_end(listed.rest, listed.head.next)?;
    Ok(WriteRequest { spec, values })
}

/// The values for these variables that the contents of an element are.
#[tactic(auto, unfolding(crate::specs::Access::Writes::values_of, ber_values::specs::Lists::list_in, ber_values::specs::Lists::count_in))]
fn values_from(alloc: Global, part: &Part<'_>, spec: &Spec) -> Result<DataList, Stop>
    requires { part.now.head.body + length part.now.contents.now < 2 ^ 64 }
    ensures { Answers (λ ds. ds) result
        ((values_of spec.now).reading part.now.head part.now.contents.now) }
{
    match spec {
        Spec::List(names) => data_from(alloc, part, names.len(), names.len()),
        Spec::Set(_) => data_from(alloc, part, 1, part.contents.len()),
    }
}

/// The data that the contents of an element are, at least and at most so many.
fn data_from(alloc: Global, part: &Part<'_>, least: usize, most: usize) -> Result<DataList, Stop>
    requires { part.now.head.body + length part.now.contents.now < 2 ^ 64 }
    ensures { Answers (λ ds. ds) result
        ((count_in least most one_datum).reading part.now.head part.now.contents.now) }
{
    let mut values = DataList::new(alloc);
    let mut at = part.head.body;
    let mut rest = part.contents;
    while !rest.is_empty() {
        if values.len() == most {
            return Err(Stop::Fault(surplus(at)));
        }
        let (value, next) = take_data(alloc, rest, at)?;
        values.push(value)?;
        rest = octets_from(rest, at, next);
        at = next;
    }
    if values.len() < least {
        return Err(Stop::Fault(short(at)));
    }
    Ok(values)
}

/// The response that the contents of an element are.
#[tactic(auto, unfolding(crate::specs::Access::Writes::write_response, ber_values::specs::Parts::contents_as))]
pub fn write_response_from(alloc: Global, part: &Part<'_>) -> Result<WriteResponse, Stop>
    requires { part.now.head.body + length part.now.contents.now < 2 ^ 64 }
    ensures { Answers (λ r. r) result (write_response.reading part.now.head part.now.contents.now) }
{
    let results = written_from(alloc, part)?;
    Ok(WriteResponse { results })
}

/// What came of each variable.
fn written_from(alloc: Global, part: &Part<'_>) -> Result<ItemList<Option<u8>>, Stop>
    requires { part.now.head.body + length part.now.contents.now < 2 ^ 64 }
    ensures { Answers (λ rs. rs) result
        ((list_in 0 one_written).reading part.now.head part.now.contents.now) }
{
    let mut results = ItemList::new(alloc);
    let mut at = part.head.body;
    let mut rest = part.contents;
    while !rest.is_empty() {
        let (written, next) = take_written(rest, at)?;
        results.push(written)?;
        rest = octets_from(rest, at, next);
        at = next;
    }
    Ok(results)
}

/// What came of the variable at the front of octets, and the place after it.
#[tactic(auto, unfolding(crate::specs::Access::Writes::one_written, ber_values::specs::Parts::choose_in, ber_values::specs::Parts::part_in, ber_values::specs::Parts::contents_as, ber_values::specs::Grammars::branch_in))]
fn take_written(octets: &[u8], at: usize) -> Result<(Option<u8>, usize), BerFault>
    requires { at + length octets.now < 2 ^ 64 }
    ensures exact { Gives (taken_from at octets.now) result (one_written.reading at octets.now) }
    ensures within { IfOk result (λ x. (at < x.1) × (x.1 ≤ at + length octets.now)) }
{
    if has_tag(octets, 0x80) {
        let part = take_part(octets, at, 0x80)?;
        let reason = part.octet()?;
        return Ok((Some(reason), part.head.next));
    }
    let part = take_part(octets, at, 0x81)?;
    part.fixed(&[])?;
    Ok((None, part.head.next))
}

/// How many octets [`put_write_request`] appends, capped.
pub fn write_request_len(request: &WriteRequest) -> usize
    requires { All IsLawful request.now.values }
    ensures { result ≡ capped (length (write_request_octets request.now)) }
{
    let values = values_len(request.values.as_slice());
    add_len(spec_len(&request.spec), part_len(values))
}

#[tactic(auto, using(ber_values::proofs::Pieces::summed), unfolding(crate::specs::Access::Writes::values_octets))]
fn values_len(values: &[MmsData]) -> usize
    requires { All IsLawful values.now }
    ensures { result ≡ capped (length (values_octets values.now)) }
{
    let mut len = 0;
    for value in values {
        len = add_len(len, data_len(value));
    }
    len
}

/// Appends the contents of a request.
#[tactic(auto, using(ber_values::proofs::Pieces::extended))]
pub fn put_write_request(out: &mut Vec<u8>, request: &WriteRequest) -> Result<(), AllocError>
    requires lawful { All IsLawful request.now.values }
    requires bounded { length (write_request_octets request.now) < MOST_LENGTH }
    ensures ok { OnOk result (out.new.items ≡ out.old.items ++ write_request_octets request.now) }
    ensures err { OnErr result (Extends out.old.items out.new.items) }
{
    put_spec(out, &request.spec)?;
    put_values_part(out, request.values.as_slice())?;
    Ok(())
}

/// Appends the element that is the values.
fn put_values_part(out: &mut Vec<u8>, values: &[MmsData]) -> Result<(), AllocError>
    requires lawful { All IsLawful values.now }
    requires bounded { length (written 160 (values_octets values.now)) < MOST_LENGTH }
    ensures ok { OnOk result
        (out.new.items ≡ out.old.items ++ written 160 (values_octets values.now)) }
    ensures err { OnErr result (Extends out.old.items out.new.items) }
{
    write_head(out, 0xA0, values_len(values))?;
    put_values(out, values)?;
    Ok(())
}

/// Appends data, one after another.
#[tactic(auto, using(ber_values::proofs::Pieces::written_each), unfolding(crate::specs::Access::Writes::values_octets))]
fn put_values(out: &mut Vec<u8>, values: &[MmsData]) -> Result<(), AllocError>
    requires lawful { All IsLawful values.now }
    requires bounded { length (values_octets values.now) < MOST_LENGTH }
    ensures ok { OnOk result (out.new.items ≡ out.old.items ++ values_octets values.now) }
    ensures err { OnErr result (Extends out.old.items out.new.items) }
{
    for value in values {
        write_data(out, value)?;
    }
    Ok(())
}

/// How many octets [`put_write_response`] appends, capped.
#[tactic(auto, unfolding(crate::specs::Access::Writes::write_response_octets))]
pub fn write_response_len(response: &WriteResponse) -> usize
    ensures { result ≡ capped (length (write_response_octets response.now)) }
{
    all_written_len(response.results.as_slice())
}

#[tactic(auto, using(ber_values::proofs::Pieces::summed))]
fn all_written_len(results: &[Option<u8>]) -> usize
    ensures { result ≡ capped (length (flat_map one_written_octets results.now)) }
{
    let mut len = 0;
    for written in results {
        len = add_len(len, written_len(written));
    }
    len
}

#[tactic(auto, unfolding(crate::specs::Access::Writes::one_written_octets, ber_values::specs::Writing::length_octets))]
fn written_len(written: &Option<u8>) -> usize
    ensures { result ≡ capped (length (one_written_octets written.now)) }
{
    match written {
        None => 2,
        Some(_) => 3,
    }
}

/// Appends the contents of a response.
#[tactic(auto, unfolding(crate::specs::Access::Writes::write_response_octets))]
pub fn put_write_response(out: &mut Vec<u8>, response: &WriteResponse) -> Result<(), AllocError>
    ensures ok { OnOk result
        (out.new.items ≡ out.old.items ++ write_response_octets response.now) }
    ensures err { OnErr result (Extends out.old.items out.new.items) }
{
    put_all_written(out, response.results.as_slice())
}

/// Appends what came of each variable.
#[tactic(auto, using(ber_values::proofs::Pieces::extended))]
fn put_all_written(out: &mut Vec<u8>, results: &[Option<u8>]) -> Result<(), AllocError>
    ensures ok { OnOk result
        (out.new.items ≡ out.old.items ++ flat_map one_written_octets results.now) }
    ensures err { OnErr result (Extends out.old.items out.new.items) }
{
    for written in results {
        put_written(out, written)?;
    }
    Ok(())
}

#[tactic(auto, unfolding(crate::specs::Access::Writes::one_written_octets))]
fn put_written(out: &mut Vec<u8>, written: &Option<u8>) -> Result<(), AllocError>
    ensures ok { OnOk result (out.new.items ≡ out.old.items ++ one_written_octets written.now) }
    ensures err { OnErr result (Extends out.old.items out.new.items) }
{
    match written {
        None => write_octets(out, 0x81, &[]),
        Some(reason) => write_octets(out, 0x80, &[*reason]),
    }
}
