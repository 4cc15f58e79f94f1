//! Names, read without memory.
ghost use Rattle.std.specs.Prelude.{◌≡◌, ◌≤◌, length, option_map};
ghost use Rattle.std.specs.List.{position};
ghost use Rattle.ber_values.specs.Lengths.{capped};
ghost use Rattle.mms_data.specs.Text.NameIn.{is_separator, scope_in, name_of_parts, name_in};
ghost use Rattle.mms_data.specs.NameOctets.{name_len};
ghost use Rattle.centre_client.specs.ShortNames.{scope_of, name_of, element_size};
ghost use Rattle.centre_client.specs.CallSizes.{variable_len};

use crate::call_lines::visible::{ShortText, read_identifier};
use ber_values::part_len;

/// A scope whose domain takes no memory.
#[derive(Drop)]
pub(crate) enum ShortScope {
    Vmd,
    Domain(ShortText),
    Association,
}

/// A name that takes no memory.
#[derive(Drop)]
pub(crate) struct ShortName {
    pub scope: ShortScope,
    pub item: ShortText,
}

/// The name whose text this is, or nothing where it is no name's text.
pub(crate) fn read_name(text: &[u8]) -> Option<ShortName>
    ensures { option_map name_of result ≡ name_in text.now }
{
    match find_separator(text) {
        Some(place) => read_parts(&text[..place], text[place], &text[place + 1..]),
        None => None,
    }
}

/// The place of the first colon or slash.
pub(crate) fn find_separator(text: &[u8]) -> Option<usize>
    ensures { result ≡ position is_separator text.now }
{
    text.iter()
        .position(|octet| *octet == b':' || *octet == b'/')
}

fn read_parts(before: &[u8], separator: u8, after: &[u8]) -> Option<ShortName>
    ensures { option_map name_of result ≡ name_of_parts before.now separator after.now }
{
    let scope = read_scope(before, separator)?;
    let item = read_identifier(after)?;
    Some(ShortName { scope, item })
}

/// The scope before a separator.
pub(crate) fn read_scope(before: &[u8], separator: u8) -> Option<ShortScope>
    ensures { option_map scope_of result ≡ scope_in before.now separator }
{
    if separator == b'/' {
        let domain = read_identifier(before)?;
        return Some(ShortScope::Domain(domain));
    }
    if before == b"vmd".as_slice() {
        return Some(ShortScope::Vmd);
    }
    if before == b"aa".as_slice() {
        return Some(ShortScope::Association);
    }
    None
}

/// How many octets a name has in a PDU.
pub(crate) fn name_size(name: &ShortName) -> usize
    ensures { result ≡ name_len (name_of name.now) }
{
    match &name.scope {
        ShortScope::Vmd => text_size(&name.item),
        ShortScope::Domain(domain) => part_len(text_size(domain) + text_size(&name.item)),
        ShortScope::Association => text_size(&name.item),
    }
}

/// How many octets a name has in a list of variables.
pub(crate) fn variable_size(name: &ShortName) -> usize
    ensures { result ≡ variable_len (name_of name.now) }
{
    part_len(part_len(name_size(name)))
}

/// How many octets an element has whose contents are a short text.
pub(crate) fn text_size(text: &ShortText) -> usize
    ensures value { result ≡ element_size text.now.items }
    ensures few { result ≤ 66 }
{
    2 + text.as_slice().len()
}
