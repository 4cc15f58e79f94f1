//! The words that stand in lines of a table text.
ghost use Rattle.std.specs.Prelude.{◌≡◌, ◌==◌, ◌||◌, IfOk, IfSome};
ghost use Rattle.std.specs.List.{list_all};
ghost use Rattle.std.specs.Char.{is_ascii_alphanumeric};
ghost use Rattle.ber_values.specs.Visible.{IsVisible};
ghost use Rattle.bilateral.specs.Words.Words as own;

use ber_values::{Oid, Visible, read_dotted};
use std::alloc::{AllocError, Global};
use tase_points::{Component, Kind};

/// The most octets of a point's name.
pub const NAME_LIMIT: usize = 24;

/// The most octets of an identifier.
pub const IDENTIFIER_LIMIT: usize = 32;

// Definitions cite these limits, so that each stands here as a number too.
const _: () = prove!(NAME_LIMIT == 24);

const _: () = prove!(IDENTIFIER_LIMIT == 32);

/// Whether a name is one that the protocol uses itself.
fn is_special(name: &[u8]) -> bool
    ensures { result ≡ own.is_special name.now }
{
    name == b"TASE2_Version".as_slice()
        || name == b"Supported_Features".as_slice()
        || name == b"Bilateral_Table_ID".as_slice()
        || name == b"Next_DSTransfer_Set".as_slice()
        || name == b"Transfer_Set_Name".as_slice()
        || name == b"Transfer_Set_Time_Stamp".as_slice()
        || name == b"DSConditions_Detected".as_slice()
        || name == b"Event_Code_Detected".as_slice()
}

/// Whether a name belongs to devices or transfer sets, or is one that the protocol uses itself.
fn is_reserved(name: &[u8]) -> bool
    ensures { result ≡ own.is_reserved name.now }
{
    name.ends_with(b"_SBO")
        || name.ends_with(b"_TAG")
        || name.ends_with(b"_TIMEOUT")
        || name.starts_with(b"DSTrans")
        || is_special(name)
}

/// Whether a word is made as names are: letters, digits and `_`, up to [`NAME_LIMIT`], the first of
/// them a letter.
fn is_plain_name(word: &[u8]) -> bool
    ensures { result ≡ own.is_plain_name word.now }
{
    match word {
        [] => false,
        [first, more @ ..] => {
            first.is_ascii_alphabetic() && all_in_names(more) && word.len() <= NAME_LIMIT
        }
    }
}

fn all_in_names(octets: &[u8]) -> bool
    ensures { result ≡ list_all (λ octet. is_ascii_alphanumeric octet || (octet == 95)) octets.now }
{
    octets
        .iter()
        .all(|octet| octet.is_ascii_alphanumeric() || *octet == b'_')
}

/// Whether a word may name a point.
pub fn is_name(word: &[u8]) -> bool
    ensures { result ≡ own.is_name word.now }
{
    is_plain_name(word) && !is_reserved(word)
}

/// Whether a word is an identifier: letters, digits, `_` and `$`, one to [`IDENTIFIER_LIMIT`] of
/// them.
pub fn is_identifier(word: &[u8]) -> bool
    ensures { result ≡ own.is_identifier word.now }
{
    !word.is_empty() && word.len() <= IDENTIFIER_LIMIT && all_in_identifiers(word)
}

fn all_in_identifiers(octets: &[u8]) -> bool
    ensures { result
        ≡ list_all (λ octet. is_ascii_alphanumeric octet || (octet == 95) || (octet == 36))
        octets.now }
{
    octets.iter().all(|octet| octet.is_ascii_alphanumeric() || *octet == b'_' || *octet == b'$')
}

/// The kind of point that a word names.
pub fn read_kind(word: &[u8]) -> Option<Kind>
    ensures { result ≡ own.kind_in word.now }
{
    if word == b"state".as_slice() {
        Some(Kind::State)
    } else if word == b"discrete".as_slice() {
        Some(Kind::Discrete)
    } else if word == b"real".as_slice() {
        Some(Kind::Real)
    } else {
        None
    }
}

/// Whether a scope is the whole device; otherwise it is the table's domain.
pub fn read_scope(word: &[u8]) -> Option<bool>
    ensures { result ≡ own.whole_scope_in word.now }
{
    if word == b"vmd".as_slice() {
        Some(true)
    } else if word == b"domain".as_slice() {
        Some(false)
    } else {
        None
    }
}

/// The component that a word names.
pub fn read_component(word: &[u8]) -> Option<Component>
    ensures { result ≡ own.component_in word.now }
{
    if word == b"value".as_slice() {
        Some(Component::Value)
    } else if word == b"time".as_slice() {
        Some(Component::Time)
    } else if word == b"millis".as_slice() {
        Some(Component::Millis)
    } else if word == b"flags".as_slice() {
        Some(Component::Flags)
    } else if word == b"cov".as_slice() {
        Some(Component::Cov)
    } else {
        None
    }
}

/// Reads a title, or `*` for none. `None` where the word is neither.
pub fn read_title(alloc: Global, word: &[u8]) -> Result<Option<Option<Oid>>, AllocError>
    ensures value { IfOk result (λ title. title ≡ own.title_in word.now) }
    ensures lawful { IfOk result (λ title. IfSome title own.IsTitle) }
{
    if word == b"*".as_slice() {
        return Ok(Some(None));
    }
    let Some(oid) = read_dotted(alloc, word)? else {
        return Ok(None);
    };
    Ok(Some(Some(oid)))
}

/// A name or an identifier in room of its own.
pub fn visible_word(alloc: Global, word: &[u8]) -> Result<Visible, AllocError>
    requires { IsVisible word.now }
    ensures { IfOk result (λ text. text ≡ word.now) }
{
    Ok(Visible::new(word.to_vec(alloc)?))
}
