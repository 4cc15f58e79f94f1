//! Bit strings, ASN.1's `BIT STRING`. Their contents octets (ISO 8825-1, 8.6) are the number of
//! unused bits, then the octets that hold the bits.
ghost use Rattle.std.specs.Prelude.{◌≡◌, ◌≢◌, ◌+◌, ◌<◌, ◌-◌, ◌*◌, ◌^◌, ◌%◌, ◌↔◌, ◌&&◌, ◌==◌, []};
ghost use Rattle.std.specs.Prelude.{◌++◌, length, IsTrue, bytes_eq, IfOk, OnOk, OnErr};
ghost use Rattle.std.specs.Cmp.Rules.{comparing};
ghost use Rattle.std.proofs.Common.{rules};
ghost use Rattle.plain_text.specs.Extends.{Extends};
ghost use Rattle.ber_values.specs.declared.fault.BerFault.{BerFault};
ghost use Rattle.ber_values.specs.Bits.{Bits, IsBits};
ghost use Rattle.ber_values.specs.Contents.{contents_of, IsContents};
ghost use Rattle.ber_values.specs.BitContents.{with_zeros, bits_with, SpellsBits, BitsFault};
ghost use Rattle.ber_values.specs.BitContents.{bits_in};
ghost use Rattle.ber_values.specs.Writing.{bits_octets, written};

use crate::fault::BerFault;
use crate::faults::{length_fault, value_fault};
use crate::head::Head;
use crate::writing::{or_undo, put_head};
use std::alloc::{AllocError, Global};
use std::marker::Model;

/// A number of bits and the octets that hold them, the first bit highest and the unused bits of
/// the last octet zero.
#[derive(Debug, Drop)]
pub struct BitString {
    count: usize,
    octets: Vec<u8>,
}

impl Model for BitString {
    ghost use Rattle.ber_values.specs.Bits.{Bits, IsBits};

    ghost Value = { Bits };

    ghost view = { λ bits. record { count = bits.count; octets = bits.octets.items } };

    ghost invariant = { λ bits. IsBits
        (record { count = bits.count; octets = bits.octets.items }) };
}

impl BitString {
    /// The first `count` bits of these octets.
    pub fn new(count: usize, octets: Vec<u8>) -> Self
        requires { IsBits (record { count = count; octets = octets.items }) }
        ensures { result ≡ record { count = count; octets = octets.items } }
    {
        BitString { count, octets }
    }

    /// The number of bits.
    pub fn count(&self) -> usize
        ensures value { result ≡ self.now.count }
        ensures sized { IsBits self.now }
    {
        self.count
    }

    /// The octets that hold the bits.
    pub fn octets(&self) -> &[u8]
        ensures value { result.now ≡ self.now.octets }
        ensures sized { IsBits self.now }
    {
        self.octets.as_slice()
    }
}

impl Clone for BitString {
    ghost is_clone = { λ bits copy. copy ≡ bits };

    fn clone(&self) -> Result<BitString, AllocError> {
        Ok(BitString {
            count: self.count,
            octets: self.octets.clone()?,
        })
    }
}

impl PartialEq for BitString {
    ghost eq = { λ a b. (a.count == b.count) && bytes_eq a.octets b.octets };

    ghost laws = { Prim.search (comparing, rules) };

    fn eq(&self, other: &BitString) -> bool
        ensures value { result
            ≡ ((self.now.count == other.now.count)
            && bytes_eq self.now.octets other.now.octets) }
        ensures same { IsTrue result ↔ (self.now ≡ other.now) }
    {
        self.count == other.count && self.octets.as_slice() == other.octets.as_slice()
    }
}

impl Eq for BitString {
    ghost laws = { Prim.search (comparing, rules) };
}

/// The octets with their last `unused` bits zero.
fn zeroed(alloc: Global, unused: u8, octets: &[u8]) -> Result<Vec<u8>, AllocError>
    requires { unused < 8 }
    ensures { IfOk result (λ v. v.items ≡ with_zeros unused octets.now) }
{
    let mut held = Vec::from_slice(alloc, octets)?;
    if let Some(last) = octets.last() {
        held[octets.len() - 1] = *last >> unused << unused;
    }
    Ok(held)
}

fn bits_with_unused(alloc: Global, unused: u8, octets: &[u8]) -> Result<BitString, AllocError>
    requires few { unused < 8 }
    requires some { octets.now ≡ [] → unused ≡ 0 }
    requires fits { length octets.now < 2 ^ 32 }
    ensures { IfOk result (λ bits. bits ≡ bits_with unused octets.now) }
{
    let held = zeroed(alloc, unused, octets)?;
    Ok(BitString::new(8 * octets.len() - usize::from(unused), held))
}

/// The bit string that these contents are.
#[tactic(auto, unfolding(crate::specs::BitContents::bits_in))]
pub(crate) fn bits_from(
    alloc: Global,
    contents: &[u8],
    head: &Head,
) -> Result<Result<BitString, BerFault>, AllocError>
    requires { length contents.now < 2 ^ 32 }
    ensures { IfOk result (λ read. read ≡ bits_in head.now contents.now) }
{
    match contents {
        [] => Ok(Err(length_fault(head))),
        [unused, octets @ ..] if *unused < 8 && (*unused == 0 || !octets.is_empty()) => {
            Ok(Ok(bits_with_unused(alloc, *unused, octets)?))
        }
        _ => Ok(Err(value_fault(head))),
    }
}

/// The bit string in the contents of the element with this head. Its unused bits may be set, and
/// are read as zero.
#[tactic(auto, unfolding(crate::specs::BitContents::bits_in))]
pub fn read_bits(
    alloc: Global,
    bytes: &[u8],
    head: &Head,
) -> Result<Result<BitString, BerFault>, AllocError>
    requires within { IsContents bytes.now head.now }
    requires bounded { head.now.end < head.now.body + 2 ^ 32 }
    ensures found { IfOk result
        (λ read. IfOk read (λ bits. SpellsBits bits (contents_of bytes.now head.now))) }
    ensures only { (bits : Bits) → SpellsBits bits (contents_of bytes.now head.now)
        → IfOk result (λ read. read ≡ Ok bits) }
    ensures fault { (fault : BerFault)
        → IfOk result
        (λ read. (read ≡ Err fault)
        ↔ BitsFault head.now (contents_of bytes.now head.now) fault) }
    ensures exact { IfOk result (λ read. read ≡ bits_in head.now (contents_of bytes.now head.now)) }
{
    bits_from(alloc, &bytes[head.body..head.end], head)
}

fn put_bits(out: &mut Vec<u8>, tag: u8, value: &BitString) -> Result<(), AllocError>
    requires { length value.now.octets < 2 ^ 32 - 1 }
    ensures ok { OnOk result
        (out.new.items ≡ out.old.items ++ written tag (bits_octets value.now)) }
    ensures err { OnErr result (Extends out.old.items out.new.items) }
{
    let octets = value.octets();
    let unused = 8 * octets.len() - value.count();
    put_head(out, tag, 1 + octets.len())?;
    out.push(unused as u8)?;
    out.extend_from_slice(octets)
}

/// Appends a bit string, its unused bits zero.
pub fn write_bits(out: &mut Vec<u8>, tag: u8, value: &BitString) -> Result<(), AllocError>
    requires single { tag % 32 ≢ 31 }
    requires bounded { length value.now.octets < 2 ^ 32 - 1 }
    ensures ok { OnOk result
        (out.new.items ≡ out.old.items ++ written tag (bits_octets value.now)) }
    ensures err { OnErr result (out.new.items ≡ out.old.items) }
{
    let mark = out.len();
    let done = put_bits(out, tag, value);
    or_undo(out, mark, done)
}
