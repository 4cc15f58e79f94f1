//! Object identifiers: their contents octets, and their text of numbers joined by dots.
ghost use Rattle.std.specs.Prelude.{◌≡◌, ◌≢◌, ◌==◌, ◌≤◌, ◌+◌, ◌*◌, ◌%◌, ◌++◌, ◌↔◌, ℕ, List, IsTrue};
ghost use Rattle.std.specs.Prelude.{bytes_eq, length, map, IfOk, IfSome, OnOk, OnErr};
ghost use Rattle.std.specs.Option.{option_map};
ghost use Rattle.std.specs.List.{slice_split, flat_map};
ghost use Rattle.std.specs.Int.Digits.{digits_of};
ghost use Rattle.std.specs.Cmp.{partial_equiv_from_equiv};
ghost use Rattle.std.specs.Cmp.Lexicographic.{nat_list_eq_equiv};
ghost use Rattle.plain_text.specs.Extends.{Extends};
ghost use Rattle.plain_text.specs.Numbers.{number_up_to};
ghost use Rattle.plain_text.specs.Words.{each_in};
ghost use Rattle.ber_values.specs.declared.fault.BerFault.{BerFault};
ghost use Rattle.ber_values.specs.Oid.{IsOid};
ghost use Rattle.ber_values.specs.Dotted.{base_128, dotted_in};
ghost use Rattle.ber_values.specs.Dotted as dotted;
ghost use Rattle.ber_values.specs.Contents.{contents_of, IsContents};
ghost use Rattle.ber_values.specs.TextContents.{SpellsOid, OidFault, oid_in};
ghost use Rattle.ber_values.specs.Writing.{written};

use crate::fault::BerFault;
use crate::faults::length_fault;
use crate::head::Head;
use crate::writing::{or_undo, put_element};
use plain_text::{next_part, read_number};
use std::alloc::{AllocError, Global};
use std::marker::Model;

/// The most contents octets of an object identifier.
pub const OID_LIMIT: usize = 32;

/// The largest arc of an object identifier in text.
pub const ARC_LIMIT: u64 = 2147483647;

// Definitions cite these limits, so that each stands here as a number too.
const _: () = prove!(OID_LIMIT == 32);

const _: () = prove!(ARC_LIMIT == 2_147_483_647);

/// The largest first arc.
const FIRST_ARC_LIMIT: u32 = 2;

/// The largest second arc.
const SECOND_ARC_LIMIT: u32 = 39;

/// The most arcs of an object identifier in text, past the first two.
const MORE_ARCS: usize = 6;

/// An object identifier as its contents octets, one to [`OID_LIMIT`] of them (ISO 8825-1, 8.19).
#[derive(Debug, Drop)]
pub struct Oid {
    octets: Vec<u8>,
}

impl Model for Oid {
    ghost use Rattle.std.specs.Prelude.{ℕ, List};
    ghost use Rattle.ber_values.specs.Oid.{IsOid};

    ghost Value = { List ℕ };

    ghost view = { λ oid. oid.octets.items };

    ghost invariant = { λ oid. IsOid oid.octets.items };
}

impl Oid {
    /// The identifier of these contents octets.
    pub fn new(octets: Vec<u8>) -> Self
        requires { IsOid octets.items }
        ensures { result ≡ octets.items }
    {
        Oid { octets }
    }

    /// The contents octets.
    pub fn octets(&self) -> &[u8]
        ensures value { result.now ≡ self.now }
        ensures sized { IsOid self.now }
    {
        self.octets.as_slice()
    }
}

impl Clone for Oid {
    ghost is_clone = { λ oid copy. copy ≡ oid };

    fn clone(&self) -> Result<Oid, AllocError> {
        Ok(Oid {
            octets: self.octets.clone()?,
        })
    }
}

impl PartialEq for Oid {
    ghost eq = { bytes_eq };

    ghost laws = { partial_equiv_from_equiv nat_list_eq_equiv };

    fn eq(&self, other: &Oid) -> bool
        ensures value { result ≡ bytes_eq self.now other.now }
        ensures same { IsTrue result ↔ (self.now ≡ other.now) }
    {
        self.octets.as_slice() == other.octets.as_slice()
    }
}

impl Eq for Oid {
    ghost laws = { nat_list_eq_equiv };
}

/// The object identifier that a word is: two to eight numbers below 2^31 joined by dots, the first
/// of them 0 to 2, the second below 40.
pub fn read_dotted(alloc: Global, word: &[u8]) -> Result<Option<Oid>, AllocError>
    ensures { IfOk result (λ oid. oid ≡ dotted_in word.now) }
{
    let Some(arcs) = read_arcs(alloc, word)? else {
        return Ok(None);
    };
    match arcs_octets(alloc, arcs.as_slice())? {
        Some(octets) => Ok(Some(Oid::new(octets))),
        None => Ok(None),
    }
}

/// The numbers up to the limit of an arc that a word is, joined by dots.
fn read_arcs(alloc: Global, word: &[u8]) -> Result<Option<Vec<u32>>, AllocError>
    ensures { IfOk result
        (λ arcs. option_map (λ a. a.items) arcs
        ≡ each_in (number_up_to ARC_LIMIT) (slice_split (λ octet. octet == 46) word.now)) }
{
    let mut arcs = Vec::new(alloc);
    let mut rest = Some(word);
    while let Some(text) = rest {
        let (part, more) = next_part(text, b'.');
        let Some(number) = read_number(part, ARC_LIMIT) else {
            return Ok(None);
        };
        arcs.push(number as u32)?;
        rest = more;
    }
    Ok(Some(arcs))
}

/// The contents octets of an object identifier of these arcs, where they make one.
fn arcs_octets(alloc: Global, arcs: &[u32]) -> Result<Option<Vec<u8>>, AllocError>
    ensures value { IfOk result
        (λ octets. option_map (λ o. o.items) octets ≡ dotted.oid_of arcs.now) }
    ensures sized { IfOk result (λ octets. IfSome octets (λ o. IsOid o.items)) }
{
    match arcs {
        [first, second, more @ ..] => {
            if *first > FIRST_ARC_LIMIT || *second > SECOND_ARC_LIMIT || more.len() > MORE_ARCS {
                return Ok(None);
            }
            let mut octets = Vec::new(alloc);
            octets.push((*first * 40 + *second) as u8)?;
            push_arcs(&mut octets, more)?;
            Ok(Some(octets))
        }
        _ => Ok(None),
    }
}

/// Appends numbers in base 128, each with 128 added to every digit but the last.
fn push_arcs(out: &mut Vec<u8>, arcs: &[u32]) -> Result<(), AllocError>
    ensures value { OnOk result (out.new.items ≡ out.old.items ++ flat_map base_128 arcs.now) }
    ensures sized { OnOk result
        (length out.new.items ≤ length out.old.items + 5 * length arcs.now) }
{
    for arc in arcs {
        push_arc(out, *arc)?;
    }
    Ok(())
}

/// Appends a number in base 128, with 128 added to every digit but the last.
fn push_arc(out: &mut Vec<u8>, arc: u32) -> Result<(), AllocError>
    ensures value { OnOk result (out.new.items ≡ out.old.items ++ base_128 arc) }
    ensures sized { OnOk result (length out.new.items ≤ length out.old.items + 5) }
{
    push_front(out, arc / 128)?;
    out.push((arc % 128) as u8)?;
    Ok(())
}

/// Appends the digits of a number in base 128, with 128 added to each.
fn push_front(out: &mut Vec<u8>, front: u32) -> Result<(), AllocError>
    ensures { OnOk result
        (out.new.items ≡ out.old.items ++ map (λ digit. 128 + digit) (digits_of 128 front)) }
{
    if front == 0 {
        return Ok(());
    }
    push_front(out, front / 128)?;
    out.push(128 + (front % 128) as u8)?;
    Ok(())
}

/// The object identifier that these contents are.
#[tactic(auto, unfolding(crate::specs::TextContents::oid_in))]
pub(crate) fn oid_from(
    alloc: Global,
    contents: &[u8],
    head: &Head,
) -> Result<Result<Oid, BerFault>, AllocError>
    ensures { IfOk result (λ read. read ≡ oid_in head.now contents.now) }
{
    match contents.len() {
        1..=OID_LIMIT => Ok(Ok(Oid::new(Vec::from_slice(alloc, contents)?))),
        _ => Ok(Err(length_fault(head))),
    }
}

/// The object identifier in the contents of the element with this head: one to 32 octets.
#[tactic(auto, unfolding(crate::specs::TextContents::oid_in))]
pub fn read_oid(
    alloc: Global,
    bytes: &[u8],
    head: &Head,
) -> Result<Result<Oid, BerFault>, AllocError>
    requires { IsContents bytes.now head.now }
    ensures found { IfOk result
        (λ read. IfOk read (λ oid. SpellsOid oid (contents_of bytes.now head.now))) }
    ensures only { (oid : List ℕ) → SpellsOid oid (contents_of bytes.now head.now)
        → IfOk result (λ read. read ≡ Ok oid) }
    ensures fault { (fault : BerFault)
        → IfOk result
        (λ read. (read ≡ Err fault) ↔ OidFault head.now (contents_of bytes.now head.now) fault) }
    ensures exact { IfOk result (λ read. read ≡ oid_in head.now (contents_of bytes.now head.now)) }
{
    oid_from(alloc, &bytes[head.body..head.end], head)
}

fn put_oid(out: &mut Vec<u8>, tag: u8, value: &Oid) -> Result<(), AllocError>
    ensures ok { OnOk result (out.new.items ≡ out.old.items ++ written tag value.now) }
    ensures err { OnErr result (Extends out.old.items out.new.items) }
{
    put_element(out, tag, value.octets())
}

/// Appends an object identifier.
pub fn write_oid(out: &mut Vec<u8>, tag: u8, value: &Oid) -> Result<(), AllocError>
    requires { tag % 32 ≢ 31 }
    ensures ok { OnOk result (out.new.items ≡ out.old.items ++ written tag value.now) }
    ensures err { OnErr result (out.new.items ≡ out.old.items) }
{
    let mark = out.len();
    let done = put_oid(out, tag, value);
    or_undo(out, mark, done)
}
