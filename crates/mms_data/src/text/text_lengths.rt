//! Lengths of the texts of names and of data, which take no memory.
ghost use Rattle.std.specs.Prelude.{◌≡◌, ◌*◌, ◌==◌, ◌≤◌, if◌then◌else◌, length};
ghost use Rattle.plain_text.specs.Lengths.{capped_len};
ghost use Rattle.mms_data.specs.Datum.{Datum, data_of};
ghost use Rattle.mms_data.specs.Text.Texts.{data_text, members_text, scope_text, name_text};

use crate::{DataKind, DataList, MmsData, Name, Scope};
use ber_values::BitString;
use plain_text::{MOST_LEN, add_len, decimal_len, escaped_len, signed_decimal_len};

/// How many octets the text of a scope has.
pub fn scope_text_len(scope: &Scope) -> u64
    ensures exact { result ≡ length (scope_text scope.now) }
    ensures few { result ≤ 193 }
{
    match scope {
        Scope::Vmd => 4,
        Scope::Domain(domain) => escaped_len(domain.as_slice()) + 1,
        Scope::Association => 3,
    }
}

/// How many octets the text of a name has.
pub fn name_text_len(name: &Name) -> u64
    ensures exact { result ≡ length (name_text name.now) }
    ensures few { result ≤ 385 }
{
    scope_text_len(name.scope()) + escaped_len(name.item().as_slice())
}

/// How many octets the text of a value has, or 2^62 where it has as many or more.
pub fn data_text_len(value: &MmsData) -> u64
    ensures { result ≡ capped_len (length (data_text value.now)) }
{
    text_len(value)
}

#[cycle(lengths)]
fn text_len(value: &MmsData) -> u64
    ensures { result ≡ capped_len (length (data_text value.now)) }
{
    match value.kind() {
        DataKind::Boolean(boolean) => boolean_len(*boolean),
        DataKind::Integer(integer) => integer_len(*integer),
        DataKind::Unsigned(unsigned) => unsigned_len(*unsigned),
        DataKind::Bits(bits) => bits_len(bits),
        DataKind::Real(real) => real_len(real),
        DataKind::Octets(octets) => octets_len(octets.as_slice()),
        DataKind::Text(text) => visible_len(text.as_slice()),
        DataKind::Structure(members) => add_len(2, members_len(members)),
        DataKind::Array(members) => add_len(2, members_len(members)),
    }
}

#[cycle(lengths)]
#[tactic(auto, using(crate::proofs::OfText::TextLengths::member_lengths))]
fn members_len(members: &DataList) -> u64
    ensures { result ≡ capped_len (length (members_text (data_of members.now))) }
{
    let mut len = 0;
    for (index, member) in members.as_slice().iter().enumerate() {
        len = add_len(len, add_len(comma_len(index), text_len(member)));
    }
    len
}

/// Members but the first have a comma before them.
fn comma_len(index: usize) -> u64
    ensures { result ≡ (if index == 0 then 0 else 1) }
{
    if index == 0 { 0 } else { 1 }
}

fn boolean_len(boolean: bool) -> u64
    ensures { result ≡ capped_len (length (data_text (Datum.boolean boolean))) }
{
    1
}

fn integer_len(integer: i64) -> u64
    ensures { result ≡ capped_len (length (data_text (Datum.integer integer))) }
{
    1 + signed_decimal_len(integer)
}

fn unsigned_len(unsigned: u64) -> u64
    ensures { result ≡ capped_len (length (data_text (Datum.unsigned unsigned))) }
{
    1 + decimal_len(unsigned)
}

fn bits_len(bits: &BitString) -> u64
    ensures { result ≡ capped_len (length (data_text (Datum.bits bits.now))) }
{
    add_len(
        1 + decimal_len(bits.count() as u64),
        add_len(1, hex_len(bits.octets())),
    )
}

fn real_len(real: &[u8; 4]) -> u64
    ensures { result ≡ capped_len (length (data_text (Datum.real real.now))) }
{
    add_len(1, hex_len(real))
}

fn octets_len(octets: &[u8]) -> u64
    ensures { result ≡ capped_len (length (data_text (Datum.octets octets.now))) }
{
    add_len(1, hex_len(octets))
}

fn visible_len(text: &[u8]) -> u64
    requires { length text.now ≤ 64 }
    ensures { result ≡ capped_len (length (data_text (Datum.text text.now))) }
{
    1 + escaped_len(text)
}

/// How many octets the digits of octets are, or the most.
fn hex_len(octets: &[u8]) -> u64
    ensures { result ≡ capped_len (2 * length octets.now) }
{
    MOST_LEN.min(2 * octets.len() as u64)
}
