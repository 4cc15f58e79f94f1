//! Booleans, ASN.1's `BOOLEAN` (ISO 8825-1, 8.2).
ghost use Rattle.std.specs.Prelude.{◌≡◌, ◌≢◌, ◌%◌, ◌++◌, Bool, ◌↔◌, IfOk, OnOk};
ghost use Rattle.std.specs.Prelude.{OnErr};
ghost use Rattle.plain_text.specs.Extends.{Extends};
ghost use Rattle.ber_values.specs.declared.fault.BerFault.{BerFault};
ghost use Rattle.ber_values.specs.Contents.{contents_of, IsContents};
ghost use Rattle.ber_values.specs.Booleans.{SpellsBoolean, BooleanFault, boolean_in};
ghost use Rattle.ber_values.specs.Writing.{boolean_octets, written};

use crate::fault::BerFault;
use crate::faults::length_fault;
use crate::head::Head;
use crate::writing::{or_undo, put_head};
use std::alloc::AllocError;

/// The boolean that these contents are.
#[tactic(auto, unfolding(crate::specs::Booleans::boolean_in))]
pub(crate) fn boolean_from(contents: &[u8], head: &Head) -> Result<bool, BerFault>
    ensures { result ≡ boolean_in head.now contents.now }
{
    match contents {
        [octet] => Ok(*octet != 0),
        _ => Err(length_fault(head)),
    }
}

/// The boolean in the contents of the element with this head: one octet, where any but 00 is true.
#[tactic(auto, unfolding(crate::specs::Booleans::boolean_in))]
pub fn read_boolean(bytes: &[u8], head: &Head) -> Result<bool, BerFault>
    requires { IsContents bytes.now head.now }
    ensures found { IfOk result (λ value. SpellsBoolean value (contents_of bytes.now head.now)) }
    ensures only { (value : Bool) → SpellsBoolean value (contents_of bytes.now head.now)
        → result ≡ Ok value }
    ensures fault { (fault : BerFault)
        → (result ≡ Err fault) ↔ BooleanFault head.now (contents_of bytes.now head.now) fault }
    ensures exact { result ≡ boolean_in head.now (contents_of bytes.now head.now) }
{
    boolean_from(&bytes[head.body..head.end], head)
}

fn put_boolean(out: &mut Vec<u8>, tag: u8, value: bool) -> Result<(), AllocError>
    ensures ok { OnOk result (out.new.items ≡ out.old.items ++ written tag (boolean_octets value)) }
    ensures err { OnErr result (Extends out.old.items out.new.items) }
{
    put_head(out, tag, 1)?;
    out.push(if value { 0xFF } else { 0 })?;
    Ok(())
}

/// Appends a boolean: FF for true, 00 for false.
pub fn write_boolean(out: &mut Vec<u8>, tag: u8, value: bool) -> Result<(), AllocError>
    requires { tag % 32 ≢ 31 }
    ensures ok { OnOk result (out.new.items ≡ out.old.items ++ written tag (boolean_octets value)) }
    ensures err { OnErr result (out.new.items ≡ out.old.items) }
{
    let mark = out.len();
    let done = put_boolean(out, tag, value);
    or_undo(out, mark, done)
}
