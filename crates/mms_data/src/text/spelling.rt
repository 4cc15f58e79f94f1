//! The text of a value, written.
ghost use Rattle.std.specs.Prelude.{◌≡◌, ◌∷◌, ◌++◌, OnOk, OnErr};
ghost use Rattle.plain_text.specs.Extends.{Extends};
ghost use Rattle.plain_text.specs.Octets.{hex_text};
ghost use Rattle.mms_data.specs.Datum.{Datum, data_of};
ghost use Rattle.mms_data.specs.Text.Texts.{data_text, members_text};

use crate::{DataKind, DataList, MmsData};
use ber_values::{BitString, or_undo};
use plain_text::{push_decimal, push_escaped, push_hex, push_signed_decimal};
use std::alloc::AllocError;

/// Appends a value as text: a letter for its kind and what it holds, or its members in brackets.
/// After want of memory `out` is as before.
pub fn spell_data(out: &mut Vec<u8>, value: &MmsData) -> Result<(), AllocError>
    ensures ok { OnOk result (out.new.items ≡ out.old.items ++ data_text value.now) }
    ensures err { OnErr result (out.new.items ≡ out.old.items) }
{
    let before = out.len();
    let spelled = spell(out, value);
    or_undo(out, before, spelled)
}

#[cycle(depth)]
fn spell(out: &mut Vec<u8>, value: &MmsData) -> Result<(), AllocError>
    ensures ok { OnOk result (out.new.items ≡ out.old.items ++ data_text value.now) }
    ensures err { OnErr result (Extends out.old.items out.new.items) }
{
    match value.kind() {
        DataKind::Boolean(boolean) => spell_boolean(out, *boolean),
        DataKind::Integer(integer) => spell_integer(out, *integer),
        DataKind::Unsigned(unsigned) => spell_unsigned(out, *unsigned),
        DataKind::Bits(bits) => spell_bits(out, bits),
        DataKind::Real(real) => spell_hex(out, b'f', real),
        DataKind::Octets(octets) => spell_hex(out, b'o', octets.as_slice()),
        DataKind::Text(text) => spell_text(out, text.as_slice()),
        DataKind::Structure(members) => {
            out.push(b'{')?;
            spell_members(out, members)?;
            out.push(b'}')?;
            Ok(())
        }
        DataKind::Array(members) => {
            out.push(b'[')?;
            spell_members(out, members)?;
            out.push(b']')?;
            Ok(())
        }
    }
}

#[cycle(depth)]
#[tactic(auto, using(crate::proofs::OfText::Spelled::spelled))]
fn spell_members(out: &mut Vec<u8>, members: &DataList) -> Result<(), AllocError>
    ensures ok { OnOk result (out.new.items ≡ out.old.items ++ members_text (data_of members.now)) }
    ensures err { OnErr result (Extends out.old.items out.new.items) }
{
    for (index, member) in members.as_slice().iter().enumerate() {
        if index > 0 {
            out.push(b',')?;
        }
        spell(out, member)?;
    }
    Ok(())
}

fn spell_boolean(out: &mut Vec<u8>, boolean: bool) -> Result<(), AllocError>
    ensures ok { OnOk result (out.new.items ≡ out.old.items ++ data_text (Datum.boolean boolean)) }
    ensures err { OnErr result (Extends out.old.items out.new.items) }
{
    out.push(if boolean { b'T' } else { b'F' })?;
    Ok(())
}

fn spell_integer(out: &mut Vec<u8>, integer: i64) -> Result<(), AllocError>
    ensures ok { OnOk result (out.new.items ≡ out.old.items ++ data_text (Datum.integer integer)) }
    ensures err { OnErr result (Extends out.old.items out.new.items) }
{
    out.push(b'i')?;
    push_signed_decimal(out, integer)
}

fn spell_unsigned(out: &mut Vec<u8>, unsigned: u64) -> Result<(), AllocError>
    ensures ok { OnOk result
        (out.new.items ≡ out.old.items ++ data_text (Datum.unsigned unsigned)) }
    ensures err { OnErr result (Extends out.old.items out.new.items) }
{
    out.push(b'u')?;
    push_decimal(out, unsigned)
}

fn spell_bits(out: &mut Vec<u8>, bits: &BitString) -> Result<(), AllocError>
    ensures ok { OnOk result (out.new.items ≡ out.old.items ++ data_text (Datum.bits bits.now)) }
    ensures err { OnErr result (Extends out.old.items out.new.items) }
{
    out.push(b'b')?;
    push_decimal(out, bits.count() as u64)?;
    spell_hex(out, b'.', bits.octets())
}

fn spell_hex(out: &mut Vec<u8>, mark: u8, octets: &[u8]) -> Result<(), AllocError>
    ensures ok { OnOk result (out.new.items ≡ out.old.items ++ mark ∷ hex_text octets.now) }
    ensures err { OnErr result (Extends out.old.items out.new.items) }
{
    out.push(mark)?;
    push_hex(out, octets)
}

fn spell_text(out: &mut Vec<u8>, text: &[u8]) -> Result<(), AllocError>
    ensures ok { OnOk result (out.new.items ≡ out.old.items ++ data_text (Datum.text text.now)) }
    ensures err { OnErr result (Extends out.old.items out.new.items) }
{
    out.push(b'v')?;
    push_escaped(out, text)
}
