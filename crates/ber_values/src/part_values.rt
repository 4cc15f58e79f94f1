//! The values of elements that were taken.
ghost use Rattle.std.specs.Prelude.{◌≡◌, ◌+◌, ◌^◌, ◌<◌, ◌≤◌, length, option_copied, IfOk, IfSome};
ghost use Rattle.ber_values.specs.Leaves.{integer, unsigned, natural, boolean, bits, oid, visible};
ghost use Rattle.ber_values.specs.Leaves.{octet, span, visible_within, unsigned_within};
ghost use Rattle.ber_values.specs.Leaves.{integer_within, selector, same_from, fixed};
ghost use Rattle.ber_values.specs.Contents.{HasLength};
ghost use Rattle.ber_values.specs.Oid.{IsOid};
ghost use Rattle.ber_values.specs.Faults.{Gives};
ghost use Rattle.ber_values.specs.Stops.{Answers};

use crate::bit_string::{BitString, bits_from};
use crate::boolean::boolean_from;
use crate::fault::{BerFault, Span, Why};
use crate::faults::{fault_at, length_fault, value_fault};
use crate::integer::{integer_from, unsigned_from};
use crate::object_identifier::{OID_LIMIT, Oid, oid_from};
use crate::part::Part;
use crate::stop::Stop;
use crate::visible_string::{Visible, all_visible, visible_from};
use std::alloc::Global;

/// Octets, of which the first has the place `at`, are these, as many as are wanted.
fn same_from(octets: &[u8], at: usize, wanted: &[u8]) -> Result<(), BerFault>
    requires { at + length octets.now < 2 ^ 64 }
    ensures { result ≡ same_from at wanted.now octets.now }
{
    let [first, wanted @ ..] = wanted else {
        return Ok(());
    };
    let [octet, octets @ ..] = octets else {
        return Ok(());
    };
    if *octet != *first {
        return Err(fault_at(at, Why::Value));
    }
    same_from(octets, at + 1, wanted)
}

impl Part<'_> {
    /// The integer that the contents are: one to eight octets.
    #[tactic(auto, unfolding(crate::specs::Leaves::integer))]
    pub fn integer(&self) -> Result<i64, BerFault>
        ensures { result ≡ integer.reading self.now.head self.now.contents.now }
    {
        integer_from(self.contents, &self.head)
    }

    /// The integer that the contents are, where it is from 0 to 2^32 - 1.
    #[tactic(auto, unfolding(crate::specs::Leaves::unsigned))]
    pub fn unsigned(&self) -> Result<u32, BerFault>
        ensures { result ≡ unsigned.reading self.now.head self.now.contents.now }
    {
        unsigned_from(self.contents, &self.head)
    }

    /// The integer that the contents are, where it is from `low` to `high`.
    #[tactic(auto, unfolding(crate::specs::Leaves::integer, crate::specs::Leaves::integer_within, crate::specs::Parts::contents_where))]
    pub fn integer_within(&self, low: i64, high: i64) -> Result<i64, BerFault>
        ensures { result ≡ (integer_within low high).reading self.now.head self.now.contents.now }
    {
        let value = integer_from(self.contents, &self.head)?;
        if low <= value && value <= high {
            Ok(value)
        } else {
            Err(value_fault(&self.head))
        }
    }

    /// The integer from 0 to 2^32 - 1 that the contents are, where it is from `low` to `high`.
    #[tactic(auto, unfolding(crate::specs::Leaves::unsigned, crate::specs::Leaves::unsigned_within, crate::specs::Parts::contents_where))]
    pub fn unsigned_within(&self, low: u32, high: u32) -> Result<u32, BerFault>
        ensures exact { result
            ≡ (unsigned_within low high).reading self.now.head self.now.contents.now }
        ensures within { IfOk result (λ value. (low ≤ value) × (value ≤ high)) }
    {
        let value = unsigned_from(self.contents, &self.head)?;
        if low <= value && value <= high {
            Ok(value)
        } else {
            Err(value_fault(&self.head))
        }
    }

    /// The integer that the contents are, where it is from 0 to 2^63 - 1.
    #[tactic(auto, unfolding(crate::specs::Leaves::natural, crate::specs::Leaves::natural_in, crate::specs::Numbers::integer_in))]
    pub fn natural(&self) -> Result<u64, BerFault>
        ensures { result ≡ natural.reading self.now.head self.now.contents.now }
    {
        let value = integer_from(self.contents, &self.head)?;
        if 0 <= value {
            Ok(value as u64)
        } else {
            Err(value_fault(&self.head))
        }
    }

    /// The boolean that the contents are: one octet, where any but 00 is true.
    #[tactic(auto, unfolding(crate::specs::Leaves::boolean))]
    pub fn boolean(&self) -> Result<bool, BerFault>
        ensures { result ≡ boolean.reading self.now.head self.now.contents.now }
    {
        boolean_from(self.contents, &self.head)
    }

    /// The one octet that the contents are.
    #[tactic(auto, unfolding(crate::specs::Leaves::octet, crate::specs::Leaves::octet_in))]
    pub fn octet(&self) -> Result<u8, BerFault>
        ensures { result ≡ octet.reading self.now.head self.now.contents.now }
    {
        match self.contents {
            [octet] => Ok(*octet),
            _ => Err(length_fault(&self.head)),
        }
    }

    /// The contents are these octets.
    #[tactic(auto, unfolding(crate::specs::Leaves::fixed))]
    pub fn fixed(&self, wanted: &[u8]) -> Result<(), BerFault>
        requires { self.now.head.body + length self.now.contents.now < 2 ^ 64 }
        ensures { result ≡ (fixed wanted.now).reading self.now.head self.now.contents.now }
    {
        if self.contents.len() != wanted.len() {
            return Err(length_fault(&self.head));
        }
        same_from(self.contents, self.head.body, wanted)
    }

    /// Where the contents stand.
    #[tactic(auto, unfolding(crate::specs::Leaves::span))]
    pub fn span(&self) -> Result<Span, BerFault>
        requires { self.now.head.body + length self.now.contents.now < 2 ^ 64 }
        ensures { result ≡ span.reading self.now.head self.now.contents.now }
    {
        Ok(Span {
            from: self.head.body,
            to: self.head.body + self.contents.len(),
        })
    }

    /// The bit string that the contents are, its unused bits read as zero.
    #[tactic(auto, unfolding(crate::specs::Leaves::bits))]
    pub fn bits(&self, alloc: Global) -> Result<BitString, Stop>
        requires { length self.now.contents.now < 2 ^ 32 }
        ensures { Answers (λ b. b) result (bits.reading self.now.head self.now.contents.now) }
    {
        Ok(bits_from(alloc, self.contents, &self.head)??)
    }

    /// The object identifier that the contents are: one to 32 octets.
    #[tactic(auto, unfolding(crate::specs::Leaves::oid))]
    pub fn oid(&self, alloc: Global) -> Result<Oid, Stop>
        ensures { Answers (λ o. o) result (oid.reading self.now.head self.now.contents.now) }
    {
        Ok(oid_from(alloc, self.contents, &self.head)??)
    }

    /// The visible text that the contents are: at most 64 octets of 32 to 126.
    #[tactic(auto, unfolding(crate::specs::Leaves::visible))]
    pub fn visible(&self, alloc: Global) -> Result<Visible, Stop>
        ensures { Answers (λ t. t) result (visible.reading self.now.head self.now.contents.now) }
    {
        Ok(visible_from(alloc, self.contents, &self.head)??)
    }

    /// The visible text that the contents are, of at least and at most so many octets.
    #[tactic(auto, unfolding(crate::specs::Leaves::visible_within, crate::specs::Leaves::text_in))]
    pub fn visible_within(&self, alloc: Global, least: usize, most: usize) -> Result<Visible, Stop>
        requires { most ≤ 64 }
        ensures { Answers (λ t. t) result
            ((visible_within least most).reading self.now.head self.now.contents.now) }
    {
        if self.contents.len() < least || most < self.contents.len() {
            return Err(Stop::Fault(length_fault(&self.head)));
        }
        if !all_visible(self.contents) {
            return Err(Stop::Fault(value_fault(&self.head)));
        }
        Ok(Visible::new(Vec::from_slice(alloc, self.contents)?))
    }
}

impl<'a> Part<'a> {
    /// The octets of the object identifier that the contents are: one to 32.
    #[tactic(auto, unfolding(crate::specs::Leaves::oid, crate::specs::TextContents::oid_in))]
    pub fn oid_octets(&self) -> Result<&'a [u8], BerFault>
        ensures exact { Gives (λ o. o.now) result
            (oid.reading self.now.head self.now.contents.now) }
        ensures sized { IfOk result (λ o. IsOid o.now) }
    {
        match self.contents.len() {
            1..=OID_LIMIT => Ok(self.contents),
            _ => Err(length_fault(&self.head)),
        }
    }

    /// The octets of the selector that the contents are: 0 to 32, none of which is no selector.
    #[tactic(auto, unfolding(crate::specs::Leaves::selector, crate::specs::Leaves::selector_in))]
    pub fn selector(&self) -> Result<Option<&'a [u8]>, BerFault>
        ensures exact { Gives option_copied result
            (selector.reading self.now.head self.now.contents.now) }
        ensures sized { IfOk result (λ octets. IfSome (option_copied octets)
            (λ octets. HasLength 1 32 octets)) }
    {
        match self.contents.len() {
            0 => Ok(None),
            1..=32 => Ok(Some(self.contents)),
            _ => Err(length_fault(&self.head)),
        }
    }
}
