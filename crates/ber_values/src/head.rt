//! The head of an element: its tag and its length (ISO 8825-1, 8.1.2 and 8.1.3).
ghost use Rattle.std.specs.Prelude.{◌≡◌, ◌≢◌, ◌+◌, ◌%◌, ◌^◌, ◌≤◌, ◌<◌, ◌↔◌, ◌++◌, length};
ghost use Rattle.std.specs.Prelude.{IfOk, OnOk, OnErr};
ghost use Rattle.std.specs.List.{slice_range};
ghost use Rattle.ber_values.specs.declared.fault.BerFault.{BerFault};
ghost use Rattle.ber_values.specs.declared.head.Head.{Head};
ghost use Rattle.ber_values.specs.Heads.{SpellsHead, HeadFault, IsHeadWithin, head_in};
ghost use Rattle.ber_values.specs.Writing.{head_octets};

use crate::extent::{MOST_CHAINED, head_within};
use crate::fault::BerFault;
use crate::writing::{or_undo, put_head};
use std::alloc::AllocError;

/// The head of an element. Places count the octets of the slice that was read.
#[derive(Clone, Copy, Debug, PartialEq, Eq)]
pub struct Head {
    /// 0 universal, 1 application, 2 context-specific, 3 private.
    pub class: u8,
    pub constructed: bool,
    pub number: u32,
    /// Whether the tag has further octets, so that it is no tag of one octet.
    pub long_form: bool,
    /// The place of the first length octet.
    pub length_at: usize,
    /// The place of the first contents octet.
    pub body: usize,
    /// The place after the last contents octet.
    pub end: usize,
    /// The place after the element. It is `end` where a length says how many octets follow, and two
    /// octets behind it where contents are ended by octets of their own.
    pub next: usize,
}

/// The head at the front of octets, of which the first has the place `at`.
#[tactic(auto, unfolding(crate::specs::Heads::head_in, crate::specs::Heads::extent_of))]
pub(crate) fn head_at(octets: &[u8], at: usize) -> Result<Head, BerFault>
    requires { at + length octets.now < 2 ^ 64 }
    ensures exact { result ≡ head_in at octets.now }
    ensures within { IfOk result (λ head. IsHeadWithin at (at + length octets.now) head) }
{
    head_within(octets, at, MOST_CHAINED)
}

/// The head of the element that begins at `at` in a container that ends at `end`.
pub fn read_head(bytes: &[u8], at: usize, end: usize) -> Result<Head, BerFault>
    requires start { at ≤ end }
    requires stop { end ≤ length bytes.now }
    // A head is read only where the octets spell it,
    ensures found { IfOk result (λ head. SpellsHead at (slice_range bytes.now at end) head) }
    // and wherever they spell one, it is read.
    ensures only { (head : Head) → SpellsHead at (slice_range bytes.now at end) head
        → result ≡ Ok head }
    // A fault is the first one from the left.
    ensures fault { (fault : BerFault)
        → (result ≡ Err fault) ↔ HeadFault at (slice_range bytes.now at end) fault }
    ensures within { IfOk result (λ head. IsHeadWithin at end head) }
    ensures exact { result ≡ head_in at (slice_range bytes.now at end) }
{
    head_at(&bytes[at..end], at)
}

/// Appends a tag of one octet and the shortest length.
pub fn write_head(out: &mut Vec<u8>, tag: u8, len: usize) -> Result<(), AllocError>
    requires single { tag % 32 ≢ 31 }
    requires bounded { len < 2 ^ 32 }
    ensures ok { OnOk result (out.new.items ≡ out.old.items ++ head_octets tag len) }
    ensures err { OnErr result (out.new.items ≡ out.old.items) }
{
    let mark = out.len();
    let done = put_head(out, tag, len);
    or_undo(out, mark, done)
}
