//! Names of variables as octets (ISO 9506-2, `ObjectName`).
ghost use Rattle.std.specs.Prelude.{◌≡◌, ◌+◌, ◌<◌, ◌≤◌, ◌^◌, ◌++◌, length, IfOk, OnOk, OnErr};
ghost use Rattle.std.specs.List.{slice_range};
ghost use Rattle.plain_text.specs.Extends.{Extends};
ghost use Rattle.ber_values.specs.Writing.{written};
ghost use Rattle.ber_values.specs.Stops.{Answers};
ghost use Rattle.ber_values.specs.Readers.{IsReadBy, taken_from};
ghost use Rattle.mms_data.specs.ObjectName.{IsName, IsIdentifier};
ghost use Rattle.mms_data.specs.NameOctets.{identifier, of_domain, domain_name, one_name};
ghost use Rattle.mms_data.specs.NameOctets.{name_octets, name_len};

use super::{Name, Scope};
use ber_values::{
    BerFault, Part, Stop, VISIBLE_LIMIT, Visible, has_tag, or_undo, part_len, settle, take_end,
    take_part, write_head, write_visible,
};
use std::alloc::{AllocError, Global};

/// The name that begins at `at` in octets that end at `end`, and the place after it.
pub fn read_name_octets(
    alloc: Global,
    bytes: &[u8],
    at: usize,
    end: usize,
) -> Result<Result<(Name, usize), BerFault>, AllocError>
    requires start { at ≤ end }
    requires stop { end ≤ length bytes.now }
    ensures exact { IfOk result (λ read. IsReadBy one_name
        (taken_from at (slice_range bytes.now at end)) at (slice_range bytes.now at end) read) }
    ensures named { IfOk result (λ read. IfOk read (λ x. IsName x.0)) }
    ensures within { IfOk result (λ read. IfOk read (λ x. (at < x.1) × (x.1 ≤ end))) }
{
    name_from(alloc, &bytes[at..end], at)
}

fn name_from(
    alloc: Global,
    octets: &[u8],
    at: usize,
) -> Result<Result<(Name, usize), BerFault>, AllocError>
    requires { at + length octets.now < 2 ^ 64 }
    ensures exact { IfOk result (λ read. IsReadBy one_name (taken_from at octets.now) at octets.now
        read) }
    ensures named { IfOk result (λ read. IfOk read (λ x. IsName x.0)) }
    ensures within { IfOk result (λ read. IfOk read
        (λ x. (at + 2 ≤ x.1) × (x.1 ≤ at + length octets.now))) }
{
    settle(take_name(alloc, octets, at))
}

/// The name at the front of octets, of which the first has the place `at`, and the place after it.
#[tactic(auto, unfolding(crate::specs::NameOctets::one_name, ber_values::specs::Parts::choose_in, ber_values::specs::Parts::part_in, ber_values::specs::Parts::contents_as, ber_values::specs::Grammars::branch_in))]
pub fn take_name(alloc: Global, octets: &[u8], at: usize) -> Result<(Name, usize), Stop>
    requires { at + length octets.now < 2 ^ 64 }
    ensures exact { Answers (taken_from at octets.now) result (one_name.reading at octets.now) }
    ensures named { IfOk result (λ x. IsName x.0) }
    ensures within { IfOk result (λ x. (at + 2 ≤ x.1) × (x.1 ≤ at + length octets.now)) }
{
    if has_tag(octets, 0x80) {
        let part = take_part(octets, at, 0x80)?;
        let item = identifier_of(alloc, &part)?;
        return Ok((Name::new(Scope::Vmd, item), part.head.next));
    }
    if has_tag(octets, 0xA1) {
        let part = take_part(octets, at, 0xA1)?;
        return Ok((domain_name_of(alloc, &part)?, part.head.next));
    }
    let part = take_part(octets, at, 0x82)?;
    let item = identifier_of(alloc, &part)?;
    Ok((Name::new(Scope::Association, item), part.head.next))
}

/// The domain and the item of it that the contents of an element are.
#[tactic(auto, unfolding(crate::specs::NameOctets::domain_name, ber_values::specs::Parts::part_in, ber_values::specs::Parts::all_in, ber_values::specs::Grammars::then_in, ber_values::specs::Grammars::map_in))]
fn domain_name_of(alloc: Global, part: &Part<'_>) -> Result<Name, Stop>
    requires { part.now.head.body + length part.now.contents.now < 2 ^ 64 }
    ensures exact { Answers (λ n. n) result
        (domain_name.reading part.now.head part.now.contents.now) }
    ensures named { IfOk result IsName }
{
    let first = take_part(part.contents, part.head.body, 0x1A)?;
    let domain = identifier_of(alloc, &first)?;
    let second = take_part(first.rest, first.head.next, 0x1A)?;
    let item = identifier_of(alloc, &second)?;
    take_end(second.rest, second.head.next)?;
    Ok(Name::new(Scope::Domain(domain), item))
}

/// The item or the domain that the contents of an element are.
#[tactic(auto, unfolding(crate::specs::NameOctets::identifier))]
fn identifier_of(alloc: Global, part: &Part<'_>) -> Result<Visible, Stop>
    ensures exact { Answers (λ t. t) result
        (identifier.reading part.now.head part.now.contents.now) }
    ensures named { IfOk result IsIdentifier }
{
    part.visible_within(alloc, 1, VISIBLE_LIMIT)
}

/// How many octets [`write_name`] appends.
pub fn name_len(name: &Name) -> usize
    ensures { result ≡ name_len name.now }
{
    match name.scope() {
        Scope::Domain(domain) => part_len(identifier_len(domain) + identifier_len(name.item())),
        _ => identifier_len(name.item()),
    }
}

/// The length of an item or a domain as an element.
fn identifier_len(identifier: &Visible) -> usize
    ensures length { result ≡ length (written 26 identifier.now) }
    ensures few { result ≤ 66 }
{
    2 + identifier.as_slice().len()
}

/// Appends a name. After want of memory `out` is as before.
pub fn write_name(out: &mut Vec<u8>, name: &Name) -> Result<(), AllocError>
    ensures ok { OnOk result (out.new.items ≡ out.old.items ++ name_octets name.now) }
    ensures err { OnErr result (out.new.items ≡ out.old.items) }
{
    let mark = out.len();
    let done = put_name(out, name);
    or_undo(out, mark, done)
}

fn put_name(out: &mut Vec<u8>, name: &Name) -> Result<(), AllocError>
    ensures ok { OnOk result (out.new.items ≡ out.old.items ++ name_octets name.now) }
    ensures err { OnErr result (Extends out.old.items out.new.items) }
{
    match name.scope() {
        Scope::Vmd => write_visible(out, 0x80, name.item()),
        Scope::Domain(domain) => put_domain_name(out, domain, name.item()),
        Scope::Association => write_visible(out, 0x82, name.item()),
    }
}

fn put_domain_name(out: &mut Vec<u8>, domain: &Visible, item: &Visible) -> Result<(), AllocError>
    ensures ok { OnOk result
        (out.new.items ≡ out.old.items ++ name_octets (of_domain domain.now item.now)) }
    ensures err { OnErr result (Extends out.old.items out.new.items) }
{
    write_head(out, 0xA1, identifier_len(domain) + identifier_len(item))?;
    write_visible(out, 0x1A, domain)?;
    write_visible(out, 0x1A, item)
}
