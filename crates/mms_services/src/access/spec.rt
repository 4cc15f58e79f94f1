//! Which variables are meant (ISO 9506-2, `VariableAccessSpecification`).
ghost use Rattle.std.specs.Prelude.{◌≡◌, ◌+◌, ◌<◌, ◌≤◌, ◌^◌, ◌++◌, length, IfOk, OnOk, OnErr};
ghost use Rattle.plain_text.specs.Extends.{Extends};
ghost use Rattle.ber_values.specs.Lengths.{capped};
ghost use Rattle.ber_values.specs.Stops.{Answers};
ghost use Rattle.ber_values.specs.Readers.{taken_from};
ghost use Rattle.mms_services.specs.Access.Specifications.{sole_name, sole_variable, variable, variables};
ghost use Rattle.mms_services.specs.Access.Specifications.{specification, sole_spec};
ghost use Rattle.mms_services.specs.Access.Specifications.{variable_octets, variables_octets, spec_octets};
ghost use Rattle.mms_services.specs.declared.access.spec.Spec.TheVariants as kinds;
ghost use Rattle.ber_values.specs.declared.lengths.TheConstants.{MOST_LENGTH};

use ber_values::{
    MOST_LENGTH, Part, Stop, add_len, has_tag, octets_from, part_len, short, take_end, take_part,
    write_head,
};
use mms_data::{Name, Names, name_len, take_name, write_name};
use std::alloc::{AllocError, Global};

/// The variables that a service is about.
#[derive(Debug, Drop)]
pub enum Spec {
    /// These, one or more.
    List(Names),
    /// Those of the named variable list of this name.
    Set(Name),
}

/// The specification that the contents of an element are.
#[tactic(auto, unfolding(crate::specs::Access::Specifications::sole_spec, ber_values::specs::Parts::all_in))]
pub(crate) fn spec_from(alloc: Global, part: &Part<'_>) -> Result<Spec, Stop>
    requires { part.now.head.body + length part.now.contents.now < 2 ^ 64 }
    ensures { Answers (λ s. s) result (sole_spec.reading part.now.head part.now.contents.now) }
{
    let (spec, next) = take_spec(alloc, part.contents, part.head.body)?;
    take_end(octets_from(part.contents, part.head.body, next), next)?;
    Ok(spec)
}

/// The specification at the front of octets, of which the first has the place `at`, and the place
/// after it.
#[tactic(auto, unfolding(crate::specs::Access::Specifications::specification, ber_values::specs::Parts::choose_in, ber_values::specs::Parts::part_in, ber_values::specs::Parts::contents_as, ber_values::specs::Grammars::branch_in))]
pub(crate) fn take_spec(alloc: Global, octets: &[u8], at: usize) -> Result<(Spec, usize), Stop>
    requires { at + length octets.now < 2 ^ 64 }
    ensures exact { Answers (taken_from at octets.now) result
        (specification.reading at octets.now) }
    ensures within { IfOk result (λ x. (at < x.1) × (x.1 ≤ at + length octets.now)) }
{
    if has_tag(octets, 0xA0) {
        let part = take_part(octets, at, 0xA0)?;
        let names = variables_from(alloc, &part)?;
        return Ok((Spec::List(names), part.head.next));
    }
    let part = take_part(octets, at, 0xA1)?;
    let name = name_from(alloc, &part)?;
    Ok((Spec::Set(name), part.head.next))
}

/// The variables that the contents of an element are: one or more.
pub fn variables_from(alloc: Global, part: &Part<'_>) -> Result<Names, Stop>
    requires { part.now.head.body + length part.now.contents.now < 2 ^ 64 }
    ensures { Answers (λ ns. ns) result (variables.reading part.now.head part.now.contents.now) }
{
    let mut names = Names::new(alloc);
    let mut at = part.head.body;
    let mut rest = part.contents;
    while !rest.is_empty() {
        let (name, next) = take_variable(alloc, rest, at)?;
        names.push(name)?;
        rest = octets_from(rest, at, next);
        at = next;
    }
    if names.len() == 0 {
        return Err(Stop::Fault(short(at)));
    }
    Ok(names)
}

/// The variable at the front of octets, and the place after it.
#[tactic(auto, unfolding(crate::specs::Access::Specifications::variable, ber_values::specs::Parts::part_in))]
fn take_variable(alloc: Global, octets: &[u8], at: usize) -> Result<(Name, usize), Stop>
    requires { at + length octets.now < 2 ^ 64 }
    ensures exact { Answers (taken_from at octets.now) result (variable.reading at octets.now) }
    ensures within { IfOk result (λ x. (at < x.1) × (x.1 ≤ at + length octets.now)) }
{
    let part = take_part(octets, at, 0x30)?;
    let name = variable_from(alloc, &part)?;
    Ok((name, part.head.next))
}

/// The variable that the contents of an element are, by its name.
#[tactic(auto, unfolding(crate::specs::Access::Specifications::sole_variable, ber_values::specs::Parts::part_in, ber_values::specs::Parts::all_in))]
pub(crate) fn variable_from(alloc: Global, part: &Part<'_>) -> Result<Name, Stop>
    requires { part.now.head.body + length part.now.contents.now < 2 ^ 64 }
    ensures { Answers (λ n. n) result (sole_variable.reading part.now.head part.now.contents.now) }
{
    let named = take_part(part.contents, part.head.body, 0xA0)?;
    let name = name_from(alloc, &named)?;
    take_end(named.rest, named.head.next)?;
    Ok(name)
}

/// The name that the contents of an element are.
#[tactic(auto, unfolding(crate::specs::Access::Specifications::sole_name, ber_values::specs::Parts::all_in))]
pub fn name_from(alloc: Global, part: &Part<'_>) -> Result<Name, Stop>
    requires { part.now.head.body + length part.now.contents.now < 2 ^ 64 }
    ensures { Answers (λ n. n) result (sole_name.reading part.now.head part.now.contents.now) }
{
    let (name, next) = take_name(alloc, part.contents, part.head.body)?;
    take_end(octets_from(part.contents, part.head.body, next), next)?;
    Ok(name)
}

/// How many octets [`put_spec`] appends, capped.
pub(crate) fn spec_len(spec: &Spec) -> usize
    ensures { result ≡ capped (length (spec_octets spec.now)) }
{
    match spec {
        Spec::List(names) => list_len(names),
        Spec::Set(name) => set_len(name),
    }
}

fn list_len(names: &Names) -> usize
    ensures { result ≡ capped (length (spec_octets (kinds.List names.now))) }
{
    part_len(variables_len(names.as_slice()))
}

fn set_len(name: &Name) -> usize
    ensures { result ≡ capped (length (spec_octets (kinds.Set name.now))) }
{
    part_len(name_len(name))
}

/// How many octets [`put_variables`] appends, capped.
#[tactic(auto, using(ber_values::proofs::Pieces::summed), unfolding(crate::specs::Access::Specifications::variables_octets))]
pub fn variables_len(names: &[Name]) -> usize
    ensures { result ≡ capped (length (variables_octets names.now)) }
{
    let mut len = 0;
    for name in names {
        len = add_len(len, variable_len(name));
    }
    len
}

fn variable_len(name: &Name) -> usize
    ensures { result ≡ capped (length (variable_octets name.now)) }
{
    part_len(part_len(name_len(name)))
}

/// Appends a specification.
pub(crate) fn put_spec(out: &mut Vec<u8>, spec: &Spec) -> Result<(), AllocError>
    requires { length (spec_octets spec.now) < MOST_LENGTH }
    ensures ok { OnOk result (out.new.items ≡ out.old.items ++ spec_octets spec.now) }
    ensures err { OnErr result (Extends out.old.items out.new.items) }
{
    match spec {
        Spec::List(names) => put_list(out, names),
        Spec::Set(name) => put_set(out, name),
    }
}

fn put_list(out: &mut Vec<u8>, names: &Names) -> Result<(), AllocError>
    requires { length (spec_octets (kinds.List names.now)) < MOST_LENGTH }
    ensures ok { OnOk result
        (out.new.items ≡ out.old.items ++ spec_octets (kinds.List names.now)) }
    ensures err { OnErr result (Extends out.old.items out.new.items) }
{
    write_head(out, 0xA0, variables_len(names.as_slice()))?;
    put_variables(out, names.as_slice())?;
    Ok(())
}

fn put_set(out: &mut Vec<u8>, name: &Name) -> Result<(), AllocError>
    requires { length (spec_octets (kinds.Set name.now)) < MOST_LENGTH }
    ensures ok { OnOk result
        (out.new.items ≡ out.old.items ++ spec_octets (kinds.Set name.now)) }
    ensures err { OnErr result (Extends out.old.items out.new.items) }
{
    write_head(out, 0xA1, name_len(name))?;
    write_name(out, name)?;
    Ok(())
}

/// Appends variables, one after another.
#[tactic(auto, using(ber_values::proofs::Pieces::written_each), unfolding(crate::specs::Access::Specifications::variables_octets))]
pub fn put_variables(out: &mut Vec<u8>, names: &[Name]) -> Result<(), AllocError>
    requires { length (variables_octets names.now) < MOST_LENGTH }
    ensures ok { OnOk result (out.new.items ≡ out.old.items ++ variables_octets names.now) }
    ensures err { OnErr result (Extends out.old.items out.new.items) }
{
    for name in names {
        put_variable(out, name)?;
    }
    Ok(())
}

#[tactic(auto, using(ber_values::proofs::Pieces::extended))]
fn put_variable(out: &mut Vec<u8>, name: &Name) -> Result<(), AllocError>
    requires { length (variable_octets name.now) < MOST_LENGTH }
    ensures ok { OnOk result (out.new.items ≡ out.old.items ++ variable_octets name.now) }
    ensures err { OnErr result (Extends out.old.items out.new.items) }
{
    write_head(out, 0x30, part_len(name_len(name)))?;
    write_head(out, 0xA0, name_len(name))?;
    write_name(out, name)?;
    Ok(())
}
