//! Visible text, ASN.1's `VisibleString` (ISO 8825-1, 8.23).
ghost use Rattle.std.specs.Prelude.{◌≡◌, ◌≢◌, ◌↔◌, ◌%◌, ◌++◌, ℕ, List, length, IsTrue};
ghost use Rattle.std.specs.Prelude.{bytes_eq, IfOk, OnOk, OnErr};
ghost use Rattle.std.specs.Cmp.{partial_equiv_from_equiv};
ghost use Rattle.std.specs.Cmp.Lexicographic.{nat_list_eq_equiv};
ghost use Rattle.std.specs.List.{list_all};
ghost use Rattle.plain_text.specs.Extends.{Extends};
ghost use Rattle.ber_values.specs.declared.fault.BerFault.{BerFault};
ghost use Rattle.ber_values.specs.Contents.{contents_of, IsContents};
ghost use Rattle.ber_values.specs.TextContents.{SpellsVisible, VisibleFault, visible_in};
ghost use Rattle.ber_values.specs.Visible.{IsVisible, is_visible_octet};
ghost use Rattle.ber_values.specs.Writing.{written};

use crate::fault::BerFault;
use crate::faults::{length_fault, value_fault};
use crate::head::Head;
use crate::writing::{or_undo, put_element};
use std::alloc::{AllocError, Global};
use std::marker::Model;

/// The most octets that visible text has.
pub const VISIBLE_LIMIT: usize = 64;

// Definitions cite this limit, so that it stands here as a number too.
const _: () = prove!(VISIBLE_LIMIT == 64);

/// Text of at most [`VISIBLE_LIMIT`] octets, each a space or a printing character of ASCII.
#[derive(Debug, Drop)]
pub struct Visible {
    octets: Vec<u8>,
}

impl Model for Visible {
    ghost use Rattle.std.specs.Prelude.{ℕ, List};
    ghost use Rattle.ber_values.specs.Visible.{IsVisible};

    ghost Value = { List ℕ };

    ghost view = { λ text. text.octets.items };

    ghost invariant = { λ text. IsVisible text.octets.items };
}

/// Whether octets may stand in a [`Visible`].
pub fn is_visible(octets: &[u8]) -> bool
    ensures { IsTrue result ↔ IsVisible octets.now }
{
    octets.len() <= VISIBLE_LIMIT && all_visible(octets)
}

/// Whether each octet is a space or a printing character of ASCII.
pub(crate) fn all_visible(octets: &[u8]) -> bool
    ensures { result ≡ list_all is_visible_octet octets.now }
{
    octets.iter().all(|octet| 32 <= *octet && *octet <= 126)
}

impl Visible {
    /// The text of these octets, which [`is_visible`] tests.
    pub fn new(octets: Vec<u8>) -> Self
        requires { IsVisible octets.items }
        ensures { result ≡ octets.items }
    {
        Visible { octets }
    }

    /// The number of octets.
    pub fn len(&self) -> usize
        ensures { result ≡ length self.now }
    {
        self.octets.len()
    }

    /// Whether there are none.
    pub fn is_empty(&self) -> bool
        ensures { IsTrue result ↔ (length self.now ≡ 0) }
    {
        self.octets.is_empty()
    }

    /// The octets.
    pub fn as_slice(&self) -> &[u8]
        ensures value { result.now ≡ self.now }
        ensures visible { IsVisible self.now }
    {
        self.octets.as_slice()
    }
}

impl Clone for Visible {
    ghost is_clone = { λ text copy. copy ≡ text };

    fn clone(&self) -> Result<Visible, AllocError> {
        Ok(Visible {
            octets: self.octets.clone()?,
        })
    }
}

impl PartialEq for Visible {
    ghost eq = { bytes_eq };

    ghost laws = { partial_equiv_from_equiv nat_list_eq_equiv };

    fn eq(&self, other: &Visible) -> bool
        ensures value { result ≡ bytes_eq self.now other.now }
        ensures same { IsTrue result ↔ (self.now ≡ other.now) }
    {
        self.octets.as_slice() == other.octets.as_slice()
    }
}

impl Eq for Visible {
    ghost laws = { nat_list_eq_equiv };
}

/// The visible text that these contents are.
#[tactic(auto, unfolding(crate::specs::TextContents::visible_in))]
pub(crate) fn visible_from(
    alloc: Global,
    contents: &[u8],
    head: &Head,
) -> Result<Result<Visible, BerFault>, AllocError>
    ensures { IfOk result (λ read. read ≡ visible_in head.now contents.now) }
{
    if VISIBLE_LIMIT < contents.len() {
        return Ok(Err(length_fault(head)));
    }
    if !is_visible(contents) {
        return Ok(Err(value_fault(head)));
    }
    Ok(Ok(Visible::new(Vec::from_slice(alloc, contents)?)))
}

/// The visible text in the contents of the element with this head: at most 64 octets of 32 to 126.
#[tactic(auto, unfolding(crate::specs::TextContents::visible_in))]
pub fn read_visible(
    alloc: Global,
    bytes: &[u8],
    head: &Head,
) -> Result<Result<Visible, BerFault>, AllocError>
    requires { IsContents bytes.now head.now }
    ensures found { IfOk result
        (λ read. IfOk read (λ text. SpellsVisible text (contents_of bytes.now head.now))) }
    ensures only { (text : List ℕ) → SpellsVisible text (contents_of bytes.now head.now)
        → IfOk result (λ read. read ≡ Ok text) }
    ensures fault { (fault : BerFault)
        → IfOk result
        (λ read. (read ≡ Err fault)
        ↔ VisibleFault head.now (contents_of bytes.now head.now) fault) }
    ensures exact { IfOk result
        (λ read. read ≡ visible_in head.now (contents_of bytes.now head.now)) }
{
    visible_from(alloc, &bytes[head.body..head.end], head)
}

fn put_visible(out: &mut Vec<u8>, tag: u8, value: &Visible) -> Result<(), AllocError>
    ensures ok { OnOk result (out.new.items ≡ out.old.items ++ written tag value.now) }
    ensures err { OnErr result (Extends out.old.items out.new.items) }
{
    put_element(out, tag, value.as_slice())
}

/// Appends visible text.
pub fn write_visible(out: &mut Vec<u8>, tag: u8, value: &Visible) -> Result<(), AllocError>
    requires { tag % 32 ≢ 31 }
    ensures ok { OnOk result (out.new.items ≡ out.old.items ++ written tag value.now) }
    ensures err { OnErr result (out.new.items ≡ out.old.items) }
{
    let mark = out.len();
    let done = put_visible(out, tag, value);
    or_undo(out, mark, done)
}
