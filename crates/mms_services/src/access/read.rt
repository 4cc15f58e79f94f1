//! Reads variables (ISO 9506-2, `Read`).
ghost use Rattle.std.specs.Prelude.{◌≡◌, ◌≢◌, ◌+◌, ◌%◌, ◌<◌, ◌≤◌, ◌^◌, ◌++◌, length, IfOk};
ghost use Rattle.std.specs.Prelude.{OnOk, OnErr};
ghost use Rattle.std.specs.List.{All};
ghost use Rattle.plain_text.specs.Extends.{Extends};
ghost use Rattle.ber_values.specs.declared.lengths.TheConstants.{MOST_LENGTH};
ghost use Rattle.ber_values.specs.Lengths.{capped};
ghost use Rattle.ber_values.specs.Writing.{written};
ghost use Rattle.ber_values.specs.Faults.{Gives};
ghost use Rattle.ber_values.specs.Grammars.{taken};
ghost use Rattle.ber_values.specs.Parts.{maybe_in};
ghost use Rattle.ber_values.specs.Lists.{count_in};
ghost use Rattle.ber_values.specs.Readers.{taken_from};
ghost use Rattle.ber_values.specs.Stops.{Answers};
ghost use Rattle.mms_data.specs.OutcomeOctets.{one_outcome, IsLawfulOutcome};
ghost use Rattle.mms_services.specs.Access.Specifications.{sole_spec, spec_octets};
ghost use Rattle.mms_services.specs.Access.Reads.{echo_in, read_request, read_response};
ghost use Rattle.mms_services.specs.Access.Reads.{echo_octets, echoed_octets, outcomes_octets};
ghost use Rattle.mms_services.specs.Access.Reads.{read_request_octets, read_response_octets};

use crate::access::spec::{Spec, put_spec, spec_from, spec_len};
use ber_values::{
    BerFault, MOST_LENGTH, Part, Stop, add_len, has_tag, octets_from, part_len, short, surplus,
    take_end, take_part, write_boolean, write_head,
};
use item_list::ItemList;
use mms_data::{Outcome, outcome_len, take_outcome, write_outcome};
use std::alloc::{AllocError, Global};

/// Outcomes of access in order.
pub type Outcomes = ItemList<Outcome>;

/// Asks for the values of variables.
#[derive(Debug, Drop)]
pub struct ReadRequest {
    /// Whether the answer is to repeat the specification.
    pub echo: bool,
    pub spec: Spec,
}

/// Answers with them.
#[derive(Debug, Drop)]
pub struct ReadResponse {
    /// The specification, where the request wanted it.
    pub spec: Option<Spec>,
    pub results: Outcomes,
}

/// The request that the contents of an element are.
#[tactic(auto, unfolding(crate::specs::Access::Reads::read_request, ber_values::specs::Parts::all_in, ber_values::specs::Parts::part_in, ber_values::specs::Grammars::then_in, ber_values::specs::Grammars::map_in))]
pub fn read_request_from(alloc: Global, part: &Part<'_>) -> Result<ReadRequest, Stop>
    requires { part.now.head.body + length part.now.contents.now < 2 ^ 64 }
    ensures { Answers (λ r. r) result (read_request.reading part.now.head part.now.contents.now) }
{
    let (echo, at, octets) = take_echo(part.contents, part.head.body)?;
    let named = take_part(octets, at, 0xA1)?;
    let spec = spec_from(alloc, &named)?;
    take_end(named.rest, named.head.next)?;
    Ok(ReadRequest { echo, spec })
}

/// Whether an echo is wanted, and what is left after that is said.
#[tactic(auto, unfolding(crate::specs::Access::Reads::echo_in, ber_values::specs::Parts::maybe_in, ber_values::specs::Parts::part_in, ber_values::specs::Grammars::map_in, ber_values::specs::Grammars::branch_in, ber_values::specs::Grammars::gives))]
fn take_echo(octets: &[u8], at: usize) -> Result<(bool, usize, &[u8]), BerFault>
    requires { at + length octets.now < 2 ^ 64 }
    ensures exact { Gives (λ x. taken x.0 x.1 x.2.now) result (echo_in.reading at octets.now) }
    ensures within { IfOk result
        (λ x. (at ≤ x.1) × (x.1 + length x.2.now ≡ at + length octets.now)) }
{
    if !has_tag(octets, 0x80) {
        return Ok((false, at, octets));
    }
    let part = take_part(octets, at, 0x80)?;
    let echo = part.boolean()?;
    Ok((echo, part.head.next, part.rest))
}

/// The response that the contents of an element are.
#[tactic(auto, using(ber_values::proofs::Passed::drop_on), unfolding(crate::specs::Access::Reads::read_response, ber_values::specs::Parts::all_in, ber_values::specs::Parts::part_in, ber_values::specs::Grammars::then_in, ber_values::specs::Grammars::map_in, ber_values::specs::Lists::list_in, ber_values::specs::Lists::count_in))]
pub fn read_response_from(alloc: Global, part: &Part<'_>) -> Result<ReadResponse, Stop>
    requires { part.now.head.body + length part.now.contents.now < 2 ^ 64 }
    ensures { Answers (λ r. r) result (read_response.reading part.now.head part.now.contents.now) }
{
    let (spec, at) = take_echoed(alloc, part.contents, part.head.body)?;
    let listed = take_part(octets_from(part.contents, part.head.body, at), at, 0xA1)?;
    let results = outcomes_from(alloc, &listed, 0, listed.contents.len())?;
    take_end(listed.rest, listed.head.next)?;
    Ok(ReadResponse { spec, results })
}

/// The specification, if it is repeated, and the place after it.
#[tactic(auto, unfolding(ber_values::specs::Parts::maybe_in, ber_values::specs::Parts::part_in, ber_values::specs::Grammars::map_in, ber_values::specs::Grammars::branch_in, ber_values::specs::Grammars::gives))]
fn take_echoed(alloc: Global, octets: &[u8], at: usize) -> Result<(Option<Spec>, usize), Stop>
    requires { at + length octets.now < 2 ^ 64 }
    ensures exact { Answers (taken_from at octets.now) result
        ((maybe_in 160 sole_spec).reading at octets.now) }
    ensures within { IfOk result (λ x. (at ≤ x.1) × (x.1 ≤ at + length octets.now)) }
{
    if !has_tag(octets, 0xA0) {
        return Ok((None, at));
    }
    let part = take_part(octets, at, 0xA0)?;
    let spec = spec_from(alloc, &part)?;
    Ok((Some(spec), part.head.next))
}

/// The outcomes that the contents of an element are, at least and at most so many.
pub(crate) fn outcomes_from(
    alloc: Global,
    part: &Part<'_>,
    least: usize,
    most: usize,
) -> Result<Outcomes, Stop>
    requires { part.now.head.body + length part.now.contents.now < 2 ^ 64 }
    ensures { Answers (λ os. os) result
        ((count_in least most one_outcome).reading part.now.head part.now.contents.now) }
{
    let mut outcomes = Outcomes::new(alloc);
    let mut at = part.head.body;
    let mut rest = part.contents;
    while !rest.is_empty() {
        if outcomes.len() == most {
            return Err(Stop::Fault(surplus(at)));
        }
        let (outcome, next) = take_outcome(alloc, rest, at)?;
        outcomes.push(outcome)?;
        rest = octets_from(rest, at, next);
        at = next;
    }
    if outcomes.len() < least {
        return Err(Stop::Fault(short(at)));
    }
    Ok(outcomes)
}

/// How many octets [`put_read_request`] appends, capped.
pub fn read_request_len(request: &ReadRequest) -> usize
    ensures { result ≡ capped (length (read_request_octets request.now)) }
{
    add_len(echo_len(request.echo), part_len(spec_len(&request.spec)))
}

#[tactic(auto, unfolding(crate::specs::Access::Reads::echo_octets, ber_values::specs::Writing::length_octets))]
fn echo_len(echo: bool) -> usize
    ensures { result ≡ capped (length (echo_octets echo)) }
{
    if echo { 3 } else { 0 }
}

/// Appends the contents of a request.
#[tactic(auto, using(ber_values::proofs::Pieces::extended))]
pub fn put_read_request(out: &mut Vec<u8>, request: &ReadRequest) -> Result<(), AllocError>
    requires { length (read_request_octets request.now) < MOST_LENGTH }
    ensures ok { OnOk result (out.new.items ≡ out.old.items ++ read_request_octets request.now) }
    ensures err { OnErr result (Extends out.old.items out.new.items) }
{
    put_echo(out, request.echo)?;
    put_spec_part(out, 0xA1, &request.spec)?;
    Ok(())
}

/// Appends that an echo is wanted, where one is.
#[tactic(auto, unfolding(crate::specs::Access::Reads::echo_octets))]
fn put_echo(out: &mut Vec<u8>, echo: bool) -> Result<(), AllocError>
    ensures ok { OnOk result (out.new.items ≡ out.old.items ++ echo_octets echo) }
    ensures err { OnErr result (Extends out.old.items out.new.items) }
{
    if echo {
        return write_boolean(out, 0x80, true);
    }
    Ok(())
}

/// Appends an element that is a specification.
fn put_spec_part(out: &mut Vec<u8>, tag: u8, spec: &Spec) -> Result<(), AllocError>
    requires single { tag % 32 ≢ 31 }
    requires bounded { length (written tag (spec_octets spec.now)) < MOST_LENGTH }
    ensures ok { OnOk result
        (out.new.items ≡ out.old.items ++ written tag (spec_octets spec.now)) }
    ensures err { OnErr result (Extends out.old.items out.new.items) }
{
    write_head(out, tag, spec_len(spec))?;
    put_spec(out, spec)?;
    Ok(())
}

/// How many octets [`put_read_response`] appends, capped.
pub fn read_response_len(response: &ReadResponse) -> usize
    requires { All IsLawfulOutcome response.now.results }
    ensures { result ≡ capped (length (read_response_octets response.now)) }
{
    let results = outcomes_len(response.results.as_slice());
    add_len(echoed_len(&response.spec), part_len(results))
}

fn echoed_len(spec: &Option<Spec>) -> usize
    ensures { result ≡ capped (length (echoed_octets spec.now)) }
{
    match spec {
        None => 0,
        Some(spec) => part_len(spec_len(spec)),
    }
}

/// How many octets [`put_outcomes`] appends, capped.
#[tactic(auto, using(ber_values::proofs::Pieces::summed), unfolding(crate::specs::Access::Reads::outcomes_octets))]
pub(crate) fn outcomes_len(outcomes: &[Outcome]) -> usize
    requires { All IsLawfulOutcome outcomes.now }
    ensures { result ≡ capped (length (outcomes_octets outcomes.now)) }
{
    let mut len = 0;
    for outcome in outcomes {
        len = add_len(len, outcome_len(outcome));
    }
    len
}

/// Appends the contents of a response.
#[tactic(auto, using(ber_values::proofs::Pieces::extended))]
pub fn put_read_response(out: &mut Vec<u8>, response: &ReadResponse) -> Result<(), AllocError>
    requires lawful { All IsLawfulOutcome response.now.results }
    requires bounded { length (read_response_octets response.now) < MOST_LENGTH }
    ensures ok { OnOk result (out.new.items ≡ out.old.items ++ read_response_octets response.now) }
    ensures err { OnErr result (Extends out.old.items out.new.items) }
{
    put_echoed(out, &response.spec)?;
    put_outcomes_part(out, 0xA1, response.results.as_slice())?;
    Ok(())
}

/// Appends the specification, where it is repeated.
#[tactic(auto, unfolding(crate::specs::Access::Reads::echoed_octets))]
fn put_echoed(out: &mut Vec<u8>, spec: &Option<Spec>) -> Result<(), AllocError>
    requires { length (echoed_octets spec.now) < MOST_LENGTH }
    ensures ok { OnOk result (out.new.items ≡ out.old.items ++ echoed_octets spec.now) }
    ensures err { OnErr result (Extends out.old.items out.new.items) }
{
    match spec {
        None => Ok(()),
        Some(spec) => put_spec_part(out, 0xA0, spec),
    }
}

/// Appends an element that is outcomes.
pub(crate) fn put_outcomes_part(
    out: &mut Vec<u8>,
    tag: u8,
    outcomes: &[Outcome],
) -> Result<(), AllocError>
    requires single { tag % 32 ≢ 31 }
    requires lawful { All IsLawfulOutcome outcomes.now }
    requires bounded { length (written tag (outcomes_octets outcomes.now)) < MOST_LENGTH }
    ensures ok { OnOk result
        (out.new.items ≡ out.old.items ++ written tag (outcomes_octets outcomes.now)) }
    ensures err { OnErr result (Extends out.old.items out.new.items) }
{
    write_head(out, tag, outcomes_len(outcomes))?;
    put_outcomes(out, outcomes)?;
    Ok(())
}

/// Appends outcomes, one after another.
#[tactic(auto, using(ber_values::proofs::Pieces::written_each), unfolding(crate::specs::Access::Reads::outcomes_octets))]
fn put_outcomes(out: &mut Vec<u8>, outcomes: &[Outcome]) -> Result<(), AllocError>
    requires lawful { All IsLawfulOutcome outcomes.now }
    requires bounded { length (outcomes_octets outcomes.now) < MOST_LENGTH }
    ensures ok { OnOk result (out.new.items ≡ out.old.items ++ outcomes_octets outcomes.now) }
    ensures err { OnErr result (Extends out.old.items out.new.items) }
{
    for outcome in outcomes {
        write_outcome(out, outcome)?;
    }
    Ok(())
}
