//! Lists names of objects (ISO 9506-2, `GetNameList`).
ghost use Rattle.std.specs.Prelude.{◌≡◌, ◌+◌, ◌-◌, ◌^◌, ◌<◌, ◌≤◌, ◌++◌, length, drop, IfOk};
ghost use Rattle.std.specs.Prelude.{OnOk, OnErr};
ghost use Rattle.plain_text.specs.Extends.{Extends};
ghost use Rattle.ber_values.specs.Lengths.{capped};
ghost use Rattle.ber_values.specs.declared.lengths.TheConstants.{MOST_LENGTH};
ghost use Rattle.ber_values.specs.Faults.{Gives};
ghost use Rattle.ber_values.specs.Stops.{Answers};
ghost use Rattle.ber_values.specs.Grammars.{taken};
ghost use Rattle.ber_values.specs.Lists.{list_in};
ghost use Rattle.ber_values.specs.Readers.{taken_from};
ghost use Rattle.mms_data.specs.NameOctets.{identifier};
ghost use Rattle.mms_services.specs.Names.NameLists.{object_class, one_scope, object_scope, after_name};
ghost use Rattle.mms_services.specs.Names.NameLists.{name_list_request, listed_name, more_names};
ghost use Rattle.mms_services.specs.Names.NameLists.{name_list_response, class_octets, scope_octets};
ghost use Rattle.mms_services.specs.Names.NameLists.{in_scope_octets, after_octets};
ghost use Rattle.mms_services.specs.Names.NameLists.{name_list_request_octets, listed_octets};
ghost use Rattle.mms_services.specs.Names.NameLists.{names_octets, list_octets, more_octets};
ghost use Rattle.mms_services.specs.Names.NameLists.{name_list_response_octets, name_list_response_len};

use ber_values::{
    BerFault, Part, Stop, VISIBLE_LIMIT, Visible, add_len, has_tag, integer_len, octets_from,
    part_len, take_end, take_part, write_boolean, write_head, write_integer, write_octets,
    write_visible,
};
use item_list::ItemList;
use mms_data::Scope;
use std::alloc::{AllocError, Global};

/// Asks for the names of the objects of a class in a scope.
#[derive(Debug, Drop)]
pub struct NameListRequest {
    /// The number of the class of objects.
    pub class: i64,
    pub scope: Scope,
    /// The name after which the list is to go on.
    pub after: Option<Visible>,
}

/// Answers with names.
#[derive(Debug, Drop)]
pub struct NameListResponse {
    pub names: ItemList<Visible>,
    /// Whether more names follow these.
    pub more: bool,
}

/// The tags of a request's parts.
const CLASS: u8 = 0xA0;

const SCOPE: u8 = 0xA1;

const AFTER: u8 = 0x82;

/// The tag of the number of a class.
const BASIC_CLASS: u8 = 0x80;

/// The tags of scopes.
const VMD: u8 = 0x80;

const DOMAIN: u8 = 0x81;

const ASSOCIATION: u8 = 0x82;

/// The tags of a response's parts.
const NAMES: u8 = 0xA0;

const MORE: u8 = 0x81;

/// The tag of a name in a response.
const VISIBLE_STRING: u8 = 0x1A;

/// The request that the contents of an element are.
#[tactic(auto, unfolding(crate::specs::Names::NameLists::name_list_request, ber_values::specs::Parts::all_in, ber_values::specs::Parts::part_in, ber_values::specs::Grammars::then_in, ber_values::specs::Grammars::map_in))]
pub fn name_list_request_from(alloc: Global, part: &Part<'_>) -> Result<NameListRequest, Stop>
    requires { part.now.head.body + length part.now.contents.now < 2 ^ 64 }
    ensures { Answers (λ r. r) result
        (name_list_request.reading part.now.head part.now.contents.now) }
{
    let class_part = take_part(part.contents, part.head.body, CLASS)?;
    let class = object_class_from(&class_part)?;
    let scope_part = take_part(class_part.rest, class_part.head.next, SCOPE)?;
    let scope = object_scope_from(alloc, &scope_part)?;
    let (after, next) = take_after(alloc, scope_part.rest, scope_part.head.next)?;
    take_end(
        octets_from(scope_part.rest, scope_part.head.next, next),
        next,
    )?;
    Ok(NameListRequest {
        class,
        scope,
        after,
    })
}

/// The number of the class in this element.
#[tactic(auto, unfolding(crate::specs::Names::NameLists::object_class, ber_values::specs::Parts::all_in, ber_values::specs::Parts::part_in))]
fn object_class_from(part: &Part<'_>) -> Result<i64, BerFault>
    requires { part.now.head.body + length part.now.contents.now < 2 ^ 64 }
    ensures { result ≡ object_class.reading part.now.head part.now.contents.now }
{
    let basic = take_part(part.contents, part.head.body, BASIC_CLASS)?;
    let class = basic.integer()?;
    take_end(basic.rest, basic.head.next)?;
    Ok(class)
}

/// The scope in this element.
#[tactic(auto, unfolding(crate::specs::Names::NameLists::object_scope, ber_values::specs::Parts::all_in))]
fn object_scope_from(alloc: Global, part: &Part<'_>) -> Result<Scope, Stop>
    requires { part.now.head.body + length part.now.contents.now < 2 ^ 64 }
    ensures { Answers (λ s. s) result
        (object_scope.reading part.now.head part.now.contents.now) }
{
    let (scope, next) = take_scope(alloc, part.contents, part.head.body)?;
    take_end(octets_from(part.contents, part.head.body, next), next)?;
    Ok(scope)
}

/// The scope at the front of octets, and the place after it.
#[tactic(auto, unfolding(crate::specs::Names::NameLists::one_scope, ber_values::specs::Parts::choose_in, ber_values::specs::Parts::part_in, ber_values::specs::Parts::contents_as, ber_values::specs::Grammars::branch_in))]
fn take_scope(alloc: Global, octets: &[u8], at: usize) -> Result<(Scope, usize), Stop>
    requires { at + length octets.now < 2 ^ 64 }
    ensures exact { Answers (taken_from at octets.now) result (one_scope.reading at octets.now) }
    ensures within { IfOk result (λ x. (at ≤ x.1) × (x.1 ≤ at + length octets.now)) }
{
    if has_tag(octets, VMD) {
        let part = take_part(octets, at, VMD)?;
        part.fixed(&[])?;
        return Ok((Scope::Vmd, part.head.next));
    }
    if has_tag(octets, DOMAIN) {
        let part = take_part(octets, at, DOMAIN)?;
        return Ok((
            Scope::Domain(identifier_from(alloc, &part)?),
            part.head.next,
        ));
    }
    let part = take_part(octets, at, ASSOCIATION)?;
    part.fixed(&[])?;
    Ok((Scope::Association, part.head.next))
}

/// The name after which the list goes on, if it is at the front of octets, and the place after it.
#[tactic(auto, unfolding(crate::specs::Names::NameLists::after_name, ber_values::specs::Parts::maybe_in, ber_values::specs::Parts::part_in, ber_values::specs::Grammars::branch_in, ber_values::specs::Grammars::map_in, ber_values::specs::Grammars::gives))]
fn take_after(alloc: Global, octets: &[u8], at: usize) -> Result<(Option<Visible>, usize), Stop>
    requires { at + length octets.now < 2 ^ 64 }
    ensures exact { Answers (taken_from at octets.now) result (after_name.reading at octets.now) }
    ensures within { IfOk result (λ x. (at ≤ x.1) × (x.1 ≤ at + length octets.now)) }
{
    if !has_tag(octets, AFTER) {
        return Ok((None, at));
    }
    let part = take_part(octets, at, AFTER)?;
    let name = identifier_from(alloc, &part)?;
    Ok((Some(name), part.head.next))
}

/// The name or the domain that the contents of an element are.
#[tactic(auto, unfolding(mms_data::specs::NameOctets::identifier))]
fn identifier_from(alloc: Global, part: &Part<'_>) -> Result<Visible, Stop>
    ensures { Answers (λ t. t) result (identifier.reading part.now.head part.now.contents.now) }
{
    part.visible_within(alloc, 1, VISIBLE_LIMIT)
}

/// How many octets [`put_name_list_request`] appends.
pub fn name_list_request_len(request: &NameListRequest) -> usize
    ensures value { result ≡ length (name_list_request_octets request.now) }
    ensures few { result ≤ 146 }
{
    class_len(request.class) + in_scope_len(&request.scope) + after_len(&request.after)
}

fn class_len(class: i64) -> usize
    ensures value { result ≡ length (class_octets class) }
    ensures few { result ≤ 12 }
{
    4 + integer_len(class)
}

fn in_scope_len(scope: &Scope) -> usize
    ensures value { result ≡ length (in_scope_octets scope.now) }
    ensures few { result ≤ 68 }
{
    2 + scope_len(scope)
}

fn scope_len(scope: &Scope) -> usize
    ensures value { result ≡ length (scope_octets scope.now) }
    ensures few { result ≤ 66 }
{
    match scope {
        Scope::Vmd => 2,
        Scope::Domain(domain) => 2 + domain.as_slice().len(),
        Scope::Association => 2,
    }
}

fn after_len(after: &Option<Visible>) -> usize
    ensures value { result ≡ length (after_octets after.now) }
    ensures few { result ≤ 66 }
{
    match after {
        Some(name) => 2 + name.as_slice().len(),
        None => 0,
    }
}

/// Appends a request as the contents of an element.
#[tactic(auto, using(ber_values::proofs::Pieces::extended), unfolding(crate::specs::Names::NameLists::name_list_request_octets))]
pub fn put_name_list_request(out: &mut Vec<u8>, request: &NameListRequest) -> Result<(), AllocError>
    ensures ok { OnOk result
        (out.new.items ≡ out.old.items ++ name_list_request_octets request.now) }
    ensures err { OnErr result (Extends out.old.items out.new.items) }
{
    put_class(out, request.class)?;
    put_in_scope(out, &request.scope)?;
    put_after(out, &request.after)
}

fn put_class(out: &mut Vec<u8>, class: i64) -> Result<(), AllocError>
    ensures ok { OnOk result (out.new.items ≡ out.old.items ++ class_octets class) }
    ensures err { OnErr result (Extends out.old.items out.new.items) }
{
    write_head(out, CLASS, 2 + integer_len(class))?;
    write_integer(out, BASIC_CLASS, class)?;
    Ok(())
}

fn put_in_scope(out: &mut Vec<u8>, scope: &Scope) -> Result<(), AllocError>
    ensures ok { OnOk result (out.new.items ≡ out.old.items ++ in_scope_octets scope.now) }
    ensures err { OnErr result (Extends out.old.items out.new.items) }
{
    write_head(out, SCOPE, scope_len(scope))?;
    put_scope(out, scope)?;
    Ok(())
}

fn put_scope(out: &mut Vec<u8>, scope: &Scope) -> Result<(), AllocError>
    ensures ok { OnOk result (out.new.items ≡ out.old.items ++ scope_octets scope.now) }
    ensures err { OnErr result (out.new.items ≡ out.old.items) }
{
    match scope {
        Scope::Vmd => write_octets(out, VMD, &[]),
        Scope::Domain(domain) => write_visible(out, DOMAIN, domain),
        Scope::Association => write_octets(out, ASSOCIATION, &[]),
    }
}

fn put_after(out: &mut Vec<u8>, after: &Option<Visible>) -> Result<(), AllocError>
    ensures ok { OnOk result (out.new.items ≡ out.old.items ++ after_octets after.now) }
    ensures err { OnErr result (out.new.items ≡ out.old.items) }
{
    match after {
        Some(name) => write_visible(out, AFTER, name),
        None => Ok(()),
    }
}

/// The response that the contents of an element are.
#[tactic(auto, unfolding(crate::specs::Names::NameLists::name_list_response, ber_values::specs::Parts::all_in, ber_values::specs::Parts::part_in, ber_values::specs::Grammars::then_in, ber_values::specs::Grammars::map_in))]
pub fn name_list_response_from(alloc: Global, part: &Part<'_>) -> Result<NameListResponse, Stop>
    requires { part.now.head.body + length part.now.contents.now < 2 ^ 64 }
    ensures { Answers (λ r. r) result
        (name_list_response.reading part.now.head part.now.contents.now) }
{
    let names_part = take_part(part.contents, part.head.body, NAMES)?;
    let names = names_from(alloc, &names_part)?;
    let (more, next) = take_more(names_part.rest, names_part.head.next)?;
    take_end(
        octets_from(names_part.rest, names_part.head.next, next),
        next,
    )?;
    Ok(NameListResponse { names, more })
}

/// The names in this element.
fn names_from(alloc: Global, part: &Part<'_>) -> Result<ItemList<Visible>, Stop>
    requires { part.now.head.body + length part.now.contents.now < 2 ^ 64 }
    ensures { Answers (λ names. names) result
        ((list_in 0 listed_name).reading part.now.head part.now.contents.now) }
{
    let mut names = ItemList::new(alloc);
    let mut at = part.head.body;
    let mut rest = part.contents;
    while !rest.is_empty() {
        let (one, next) = take_listed(alloc, rest, at)?;
        names.push(one)?;
        rest = octets_from(rest, at, next);
        at = next;
    }
    Ok(names)
}

/// The name at the front of octets, and the place after it.
#[tactic(auto, unfolding(crate::specs::Names::NameLists::listed_name, ber_values::specs::Parts::part_in))]
fn take_listed(alloc: Global, octets: &[u8], at: usize) -> Result<(Visible, usize), Stop>
    requires { at + length octets.now < 2 ^ 64 }
    ensures exact { Answers (taken_from at octets.now) result (listed_name.reading at octets.now) }
    ensures within { IfOk result (λ x. (at < x.1) × (x.1 ≤ at + length octets.now)) }
{
    let part = take_part(octets, at, VISIBLE_STRING)?;
    Ok((identifier_from(alloc, &part)?, part.head.next))
}

/// Whether more names follow, which is so where nothing is said of it, and the place after that.
#[tactic(auto, unfolding(crate::specs::Names::NameLists::more_names, ber_values::specs::Parts::maybe_in, ber_values::specs::Parts::part_in, ber_values::specs::Grammars::branch_in, ber_values::specs::Grammars::map_in, ber_values::specs::Grammars::gives))]
fn take_more(octets: &[u8], at: usize) -> Result<(bool, usize), BerFault>
    requires { at + length octets.now < 2 ^ 64 }
    ensures exact { Gives (taken_from at octets.now) result (more_names.reading at octets.now) }
    ensures within { IfOk result (λ x. (at ≤ x.1) × (x.1 ≤ at + length octets.now)) }
{
    if !has_tag(octets, MORE) {
        return Ok((true, at));
    }
    let part = take_part(octets, at, MORE)?;
    Ok((part.boolean()?, part.head.next))
}

/// How many octets [`put_name_list_response`] appends, or [`MOST_LENGTH`] where they would be as
/// many or more.
pub fn name_list_response_len(response: &NameListResponse) -> usize
    ensures { result ≡ name_list_response_len response.now }
{
    add_len(list_len(&response.names), 3)
}

fn list_len(names: &ItemList<Visible>) -> usize
    ensures { result ≡ capped (length (list_octets names.now)) }
{
    part_len(names_len(names.as_slice()))
}

#[tactic(auto, using(ber_values::proofs::Pieces::summed), unfolding(crate::specs::Names::NameLists::names_octets))]
fn names_len(names: &[Visible]) -> usize
    ensures { result ≡ capped (length (names_octets names.now)) }
{
    let mut len = 0;
    for name in names {
        len = add_len(len, listed_len(name));
    }
    len
}

fn listed_len(name: &Visible) -> usize
    ensures { result ≡ capped (length (listed_octets name.now)) }
{
    2 + name.as_slice().len()
}

/// Appends a response as the contents of an element.
#[tactic(auto, using(ber_values::proofs::Pieces::extended), unfolding(crate::specs::Names::NameLists::name_list_response_octets, crate::specs::Names::NameLists::more_octets))]
pub fn put_name_list_response(
    out: &mut Vec<u8>,
    response: &NameListResponse,
) -> Result<(), AllocError>
    requires { length (name_list_response_octets response.now) < MOST_LENGTH }
    ensures ok { OnOk result
        (out.new.items ≡ out.old.items ++ name_list_response_octets response.now) }
    ensures err { OnErr result (Extends out.old.items out.new.items) }
{
    put_list(out, &response.names)?;
    write_boolean(out, MORE, response.more)
}

fn put_list(out: &mut Vec<u8>, names: &ItemList<Visible>) -> Result<(), AllocError>
    requires { length (list_octets names.now) < MOST_LENGTH }
    ensures ok { OnOk result (out.new.items ≡ out.old.items ++ list_octets names.now) }
    ensures err { OnErr result (Extends out.old.items out.new.items) }
{
    write_head(out, NAMES, names_len(names.as_slice()))?;
    put_names(out, names.as_slice())?;
    Ok(())
}

#[tactic(auto, using(ber_values::proofs::Pieces::written_each), unfolding(crate::specs::Names::NameLists::names_octets, crate::specs::Names::NameLists::listed_octets))]
fn put_names(out: &mut Vec<u8>, names: &[Visible]) -> Result<(), AllocError>
    ensures ok { OnOk result (out.new.items ≡ out.old.items ++ names_octets names.now) }
    ensures err { OnErr result (Extends out.old.items out.new.items) }
{
    for name in names {
        write_visible(out, VISIBLE_STRING, name)?;
    }
    Ok(())
}
