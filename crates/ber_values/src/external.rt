//! Values of presentation contexts (ISO 8825-1, 8.18, `EXTERNAL`; ISO 8823-1, `PDV-list`).
ghost use Rattle.std.specs.Prelude.{◌≡◌, ◌+◌, ◌^◌, ◌<◌, ◌++◌, length, option_copied};
ghost use Rattle.std.specs.Prelude.{ℕ, List, ◌≤◌, IfOk, OnOk, OnErr};
ghost use Rattle.plain_text.specs.Extends.{Extends};
ghost use Rattle.ber_values.specs.Faults.{Gives};
ghost use Rattle.ber_values.specs.Grammars.{taken};
ghost use Rattle.ber_values.specs.Parts.{maybe_in, contents_where};
ghost use Rattle.ber_values.specs.Leaves.{unsigned, oid};
ghost use Rattle.ber_values.specs.Externals.{is_wanted, external, external_octets, IsSpanWithin};

use crate::fault::{BerFault, Span};
use crate::faults::value_fault;
use crate::integer::write_natural;
use crate::lengths::{natural_len, part_len};
use crate::part::{Part, has_tag, take_end, take_part};
use crate::writing::{or_undo, write_octets};
use std::alloc::AllocError;

/// The tag of an integer.
const INTEGER: u8 = 0x02;

/// The tag of an object identifier.
const OBJECT_IDENTIFIER: u8 = 0x06;

/// The tag of `single-ASN1-type`, the value itself.
const SINGLE_VALUE: u8 = 0xA0;

/// A value of the presentation context with this id. The body is where the value's octets stand.
#[derive(Clone, Copy, Debug, PartialEq, Eq)]
pub struct External {
    pub id: u32,
    pub body: Span,
}

impl Part<'_> {
    /// The value of a presentation context that the contents are, where its id is the one that is
    /// wanted, or any where none is.
    #[tactic(auto, unfolding(crate::specs::Externals::external, crate::specs::Leaves::span, crate::specs::Parts::all_in, crate::specs::Parts::part_in, crate::specs::Grammars::then_in, crate::specs::Grammars::map_in))]
    pub fn external(&self, wanted: Option<u32>) -> Result<External, BerFault>
        requires { self.now.head.body + length self.now.contents.now < 2 ^ 64 }
        ensures exact { result ≡ (external wanted).reading self.now.head self.now.contents.now }
        ensures body { IfOk result (λ value. IsSpanWithin self.now.head.body
            (self.now.head.body + length self.now.contents.now) value.body) }
    {
        let (_, at, octets) = pass_syntax(self.contents, self.head.body)?;
        let number = take_part(octets, at, INTEGER)?;
        let id = wanted_id(&number, wanted)?;
        let value = take_part(number.rest, number.head.next, SINGLE_VALUE)?;
        let body = value.span()?;
        take_end(value.rest, value.head.next)?;
        Ok(External { id, body })
    }
}

/// The name of the transfer syntax, if there is one, and the octets after it.
#[tactic(auto, unfolding(crate::specs::Parts::maybe_in, crate::specs::Parts::part_in, crate::specs::Grammars::branch_in, crate::specs::Grammars::map_in, crate::specs::Grammars::gives))]
fn pass_syntax(octets: &[u8], at: usize) -> Result<(Option<&[u8]>, usize, &[u8]), BerFault>
    requires { at + length octets.now < 2 ^ 64 }
    ensures exact { Gives (λ x. taken (option_copied x.0) x.1 x.2.now) result
        ((maybe_in 6 oid).reading at octets.now) }
    ensures within { IfOk result
        (λ x. (at ≤ x.1) × (x.1 + length x.2.now ≡ at + length octets.now)) }
{
    if !has_tag(octets, OBJECT_IDENTIFIER) {
        return Ok((None, at, octets));
    }
    let part = take_part(octets, at, OBJECT_IDENTIFIER)?;
    let name = part.oid_octets()?;
    Ok((Some(name), part.head.next, part.rest))
}

fn is_wanted(wanted: Option<u32>, id: u32) -> bool
    ensures { result ≡ is_wanted wanted id }
{
    match wanted {
        None => true,
        Some(wanted) => id == wanted,
    }
}

/// The id in this element, if it is the one that is wanted.
#[tactic(auto, unfolding(crate::specs::Parts::contents_where))]
fn wanted_id(part: &Part<'_>, wanted: Option<u32>) -> Result<u32, BerFault>
    ensures { result ≡ (contents_where (is_wanted wanted) unsigned).reading
        part.now.head part.now.contents.now }
{
    let id = part.unsigned()?;
    if is_wanted(wanted, id) {
        Ok(id)
    } else {
        Err(value_fault(&part.head))
    }
}

/// The length of what [`write_external`] appends, by that of the value.
pub fn external_len(id: u32, body: usize) -> usize
    requires { body < 2 ^ 31 }
    ensures value { (octets : List ℕ) → length octets ≡ body
        → result ≡ length (external_octets id octets) }
    ensures few { result ≤ body + 16 }
{
    2 + natural_len(u64::from(id)) + part_len(body)
}

/// Appends a value of the presentation context with this id, of fewer than 2^31 octets, as the
/// contents of an EXTERNAL. After want of memory `out` is as before.
pub fn write_external(out: &mut Vec<u8>, id: u32, body: &[u8]) -> Result<(), AllocError>
    requires { length body.now < 2 ^ 31 }
    ensures ok { OnOk result (out.new.items ≡ out.old.items ++ external_octets id body.now) }
    ensures err { OnErr result (out.new.items ≡ out.old.items) }
{
    let mark = out.len();
    let done = put_external(out, id, body);
    or_undo(out, mark, done)
}

fn put_external(out: &mut Vec<u8>, id: u32, body: &[u8]) -> Result<(), AllocError>
    requires { length body.now < 2 ^ 31 }
    ensures ok { OnOk result (out.new.items ≡ out.old.items ++ external_octets id body.now) }
    ensures err { OnErr result (Extends out.old.items out.new.items) }
{
    write_natural(out, INTEGER, u64::from(id))?;
    write_octets(out, SINGLE_VALUE, body)
}
