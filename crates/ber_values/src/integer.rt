//! Integers, ASN.1's `INTEGER` (ISO 8825-1, 8.3).
ghost use Rattle.std.specs.Prelude.{◌≡◌, ◌≢◌, ℕ, ℤ, pos, ◌%◌, ◌≤◌, ◌<◌, ◌↔◌, ◌++◌, length, IfOk};
ghost use Rattle.std.specs.Prelude.{OnOk, OnErr};
ghost use Rattle.plain_text.specs.Extends.{Extends};
ghost use Rattle.ber_values.specs.declared.fault.BerFault.{BerFault};
ghost use Rattle.ber_values.specs.Numbers.{twos_complement, SpellsInteger, IntegerFault};
ghost use Rattle.ber_values.specs.Numbers.{integer_in, SpellsUnsigned, UnsignedFault, unsigned_in};
ghost use Rattle.ber_values.specs.Contents.{contents_of, IsContents};
ghost use Rattle.ber_values.specs.Writing.{number_size, integer_size, integer_octets, written};

use crate::fault::BerFault;
use crate::faults::{length_fault, value_fault};
use crate::head::Head;
use crate::number::unsigned_number;
use crate::writing::{or_undo, put_head, put_number};
use std::alloc::AllocError;

/// The number that one to eight octets are in two's complement.
fn signed_number(octets: &[u8]) -> i64
    requires some { 0 < length octets.now }
    requires few { length octets.now ≤ 8 }
    ensures { result ≡ twos_complement octets.now }
{
    let number = unsigned_number(octets);
    if octets[0] < 128 {
        number as i64
    } else {
        let below = (u64::MAX >> (64 - 8 * octets.len() as u32)) - number;
        -1 - below as i64
    }
}

/// The integer that these contents are.
#[tactic(auto, unfolding(crate::specs::Numbers::integer_in))]
pub(crate) fn integer_from(contents: &[u8], head: &Head) -> Result<i64, BerFault>
    ensures { result ≡ integer_in head.now contents.now }
{
    match contents.len() {
        1..=8 => Ok(signed_number(contents)),
        _ => Err(length_fault(head)),
    }
}

/// The integer in the contents of the element with this head, which `read_head` gave: one to
/// eight octets.
#[tactic(auto, unfolding(crate::specs::Numbers::integer_in))]
pub fn read_integer(bytes: &[u8], head: &Head) -> Result<i64, BerFault>
    requires { IsContents bytes.now head.now }
    ensures found { IfOk result (λ value. SpellsInteger value (contents_of bytes.now head.now)) }
    ensures only { (value : ℤ) → SpellsInteger value (contents_of bytes.now head.now)
        → result ≡ Ok value }
    ensures fault { (fault : BerFault)
        → (result ≡ Err fault) ↔ IntegerFault head.now (contents_of bytes.now head.now) fault }
    ensures exact { result ≡ integer_in head.now (contents_of bytes.now head.now) }
{
    integer_from(&bytes[head.body..head.end], head)
}

/// The unsigned number that these contents are.
#[tactic(auto, unfolding(crate::specs::Numbers::integer_in, crate::specs::Numbers::unsigned_in))]
pub(crate) fn unsigned_from(contents: &[u8], head: &Head) -> Result<u32, BerFault>
    ensures { result ≡ unsigned_in head.now contents.now }
{
    let value = integer_from(contents, head)?;
    if 0 <= value && value <= 0xFFFF_FFFF {
        Ok(value as u32)
    } else {
        Err(value_fault(head))
    }
}

/// The integer in the contents of the element with this head, where it is from 0 to 2^32 - 1.
#[tactic(auto, unfolding(crate::specs::Numbers::unsigned_in))]
pub fn read_unsigned(bytes: &[u8], head: &Head) -> Result<u32, BerFault>
    requires { IsContents bytes.now head.now }
    ensures found { IfOk result (λ value. SpellsUnsigned value (contents_of bytes.now head.now)) }
    ensures only { (value : ℕ) → SpellsUnsigned value (contents_of bytes.now head.now)
        → result ≡ Ok value }
    ensures fault { (fault : BerFault)
        → (result ≡ Err fault) ↔ UnsignedFault head.now (contents_of bytes.now head.now) fault }
    ensures exact { result ≡ unsigned_in head.now (contents_of bytes.now head.now) }
{
    unsigned_from(&bytes[head.body..head.end], head)
}

/// How many octets the shortest form of an integer that isn't negative has.
pub(crate) fn size_of_number(number: u64) -> usize
    ensures value { result ≡ number_size number }
    ensures few { result ≤ 8 }
{
    match number {
        0..0x80 => 1,
        0x80..0x8000 => 2,
        0x8000..0x80_0000 => 3,
        0x80_0000..0x8000_0000 => 4,
        0x8000_0000..0x80_0000_0000 => 5,
        0x80_0000_0000..0x8000_0000_0000 => 6,
        0x8000_0000_0000..0x80_0000_0000_0000 => 7,
        _ => 8,
    }
}

/// How many octets the shortest form of an integer has.
pub(crate) fn size_of_integer(value: i64) -> usize
    ensures value { result ≡ integer_size value }
    ensures few { result ≤ 8 }
{
    if value < 0 {
        size_of_number((-1 - value) as u64)
    } else {
        size_of_number(value as u64)
    }
}

fn put_integer(out: &mut Vec<u8>, tag: u8, value: i64) -> Result<(), AllocError>
    ensures ok { OnOk result (out.new.items ≡ out.old.items ++ written tag (integer_octets value)) }
    ensures err { OnErr result (Extends out.old.items out.new.items) }
{
    let size = size_of_integer(value);
    put_head(out, tag, size)?;
    put_number(out, value.cast_unsigned(), size)
}

/// Appends an integer in the shortest form.
pub fn write_integer(out: &mut Vec<u8>, tag: u8, value: i64) -> Result<(), AllocError>
    requires { tag % 32 ≢ 31 }
    ensures ok { OnOk result (out.new.items ≡ out.old.items ++ written tag (integer_octets value)) }
    ensures err { OnErr result (out.new.items ≡ out.old.items) }
{
    let mark = out.len();
    let done = put_integer(out, tag, value);
    or_undo(out, mark, done)
}

fn put_natural(out: &mut Vec<u8>, tag: u8, value: u64) -> Result<(), AllocError>
    ensures ok { OnOk result
        (out.new.items ≡ out.old.items ++ written tag (integer_octets (pos value))) }
    ensures err { OnErr result (Extends out.old.items out.new.items) }
{
    let size = size_of_number(value);
    put_head(out, tag, size)?;
    put_number(out, value, size)
}

/// Appends an integer that isn't negative in the shortest form.
pub fn write_natural(out: &mut Vec<u8>, tag: u8, value: u64) -> Result<(), AllocError>
    requires { tag % 32 ≢ 31 }
    ensures ok { OnOk result
        (out.new.items ≡ out.old.items ++ written tag (integer_octets (pos value))) }
    ensures err { OnErr result (out.new.items ≡ out.old.items) }
{
    let mark = out.len();
    let done = put_natural(out, tag, value);
    or_undo(out, mark, done)
}
