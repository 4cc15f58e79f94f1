//! Names as text: `vmd:ITEM`, `DOMAIN/ITEM` or `aa:ITEM`, with the domain and the item escaped.
ghost use Rattle.std.specs.Prelude.{◌≡◌, ◌++◌, Some, IfOk, IfSome, OnOk, OnErr};
ghost use Rattle.std.specs.List.{position};
ghost use Rattle.plain_text.specs.Extends.{Extends};
ghost use Rattle.mms_data.specs.ObjectName.{ObjectName, IsName, IsScope, IsIdentifier};
ghost use Rattle.mms_data.specs.Text.NameIn.{name_in, name_of_parts, is_separator, scope_in};
ghost use Rattle.mms_data.specs.Text.NameIn.{identifier_in};
ghost use Rattle.mms_data.specs.Text.Texts.{name_text, scope_text};

use crate::{Name, Scope};
use ber_values::{Visible, is_visible, or_undo};
use plain_text::{push_escaped, read_escaped};
use std::alloc::{AllocError, Global};

/// The name whose text this is, or nothing where it is no name's text.
pub fn read_name(alloc: Global, text: &[u8]) -> Result<Option<Name>, AllocError>
    ensures exact { IfOk result (λ name. name ≡ name_in text.now) }
    ensures found { IfOk result
        (λ name. IfSome name (λ n. (text.now ≡ name_text n) × IsName n)) }
    ensures only { (n : ObjectName) → IsName n → text.now ≡ name_text n
        → IfOk result (λ name. name ≡ Some n) }
{
    match find_separator(text) {
        Some(place) => read_parts(alloc, &text[..place], text[place], &text[place + 1..]),
        None => Ok(None),
    }
}

fn find_separator(text: &[u8]) -> Option<usize>
    ensures { result ≡ position is_separator text.now }
{
    text.iter()
        .position(|octet| *octet == b':' || *octet == b'/')
}

fn read_parts(
    alloc: Global,
    before: &[u8],
    separator: u8,
    after: &[u8],
) -> Result<Option<Name>, AllocError>
    ensures { IfOk result (λ name. name ≡ name_of_parts before.now separator after.now) }
{
    let Some(scope) = read_scope(alloc, before, separator)? else {
        return Ok(None);
    };
    let Some(item) = read_identifier(alloc, after)? else {
        return Ok(None);
    };
    Ok(Some(Name::new(scope, item)))
}

fn read_scope(alloc: Global, before: &[u8], separator: u8) -> Result<Option<Scope>, AllocError>
    ensures exact { IfOk result (λ scope. scope ≡ scope_in before.now separator) }
    ensures named { IfOk result (λ scope. IfSome scope IsScope) }
{
    if separator == b'/' {
        return Ok(read_identifier(alloc, before)?.map(Scope::Domain));
    }
    if before == b"vmd".as_slice() {
        return Ok(Some(Scope::Vmd));
    }
    if before == b"aa".as_slice() {
        return Ok(Some(Scope::Association));
    }
    Ok(None)
}

fn read_identifier(alloc: Global, text: &[u8]) -> Result<Option<Visible>, AllocError>
    ensures exact { IfOk result (λ octets. octets ≡ identifier_in text.now) }
    ensures named { IfOk result (λ octets. IfSome octets IsIdentifier) }
{
    let Some(octets) = read_escaped(alloc, text)? else {
        return Ok(None);
    };
    if octets.is_empty() || !is_visible(&octets) {
        return Ok(None);
    }
    Ok(Some(Visible::new(octets)))
}

/// Appends a name as text. After want of memory `out` is as before.
pub fn spell_name(out: &mut Vec<u8>, name: &Name) -> Result<(), AllocError>
    ensures ok { OnOk result (out.new.items ≡ out.old.items ++ name_text name.now) }
    ensures err { OnErr result (out.new.items ≡ out.old.items) }
{
    let before = out.len();
    let spelled = spell_parts(out, name);
    or_undo(out, before, spelled)
}

fn spell_parts(out: &mut Vec<u8>, name: &Name) -> Result<(), AllocError>
    ensures ok { OnOk result (out.new.items ≡ out.old.items ++ name_text name.now) }
    ensures err { OnErr result (Extends out.old.items out.new.items) }
{
    spell_scope(out, name.scope())?;
    push_escaped(out, name.item().as_slice())
}

fn spell_scope(out: &mut Vec<u8>, scope: &Scope) -> Result<(), AllocError>
    ensures ok { OnOk result (out.new.items ≡ out.old.items ++ scope_text scope.now) }
    ensures err { OnErr result (Extends out.old.items out.new.items) }
{
    match scope {
        Scope::Vmd => out.extend_from_slice(b"vmd:"),
        Scope::Domain(domain) => {
            push_escaped(out, domain.as_slice())?;
            out.push(b'/')?;
            Ok(())
        }
        Scope::Association => out.extend_from_slice(b"aa:"),
    }
}
