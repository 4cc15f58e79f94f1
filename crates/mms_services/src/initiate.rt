//! Agrees on the parameters of an association (ISO 9506-2, `Initiate`).
ghost use Rattle.std.specs.Prelude.{◌≡◌, ◌≢◌, ◌+◌, ◌%◌, ◌^◌, ◌<◌, ◌≤◌, length, IfOk};
ghost use Rattle.std.specs.Prelude.{None, IfSome, IsTrue, ◌↔◌, ◌++◌, ℕ, OnOk, OnErr};
ghost use Rattle.plain_text.specs.Extends.{Extends};
ghost use Rattle.ber_values.specs.Writing.{written, integer_octets};
ghost use Rattle.ber_values.specs.Faults.{Gives};
ghost use Rattle.ber_values.specs.Grammars.{taken};
ghost use Rattle.ber_values.specs.Parts.{maybe_in};
ghost use Rattle.ber_values.specs.Leaves.{integer};
ghost use Rattle.mms_services.specs.Negotiations.{IsBelow, IsTooLittle, granted_of, granted};
ghost use Rattle.mms_services.specs.Initiates.{initiate, initiate_detail, some_integer_octets};
ghost use Rattle.mms_services.specs.Initiates.{last_octets, later_octets, initiate_octets};

use ber_values::{
    BerFault, Part, has_tag, integer_len, octets_from, skip_parts, take_end, take_part,
    write_integer,
};
use std::alloc::AllocError;

/// What one end offers or takes.
#[derive(Clone, Copy, Debug, PartialEq, Eq)]
pub struct Initiate {
    /// The most octets of a PDU.
    pub detail: Option<i64>,
    /// The most services that the calling end serves at once.
    pub calling: i64,
    /// The most services that the called end serves at once.
    pub called: i64,
    /// The most levels of data.
    pub nesting: Option<i64>,
    /// The number of the protocol's version.
    pub version: i64,
}

/// The fewest octets of a PDU that are agreed on.
pub const LEAST_DETAIL: i64 = 1_000;

/// The most octets of a PDU that are granted.
pub const MOST_DETAIL: i64 = 65_000;

/// The most services at once that are granted to an end.
pub const MOST_SERVICES: i64 = 10;

/// The most levels of data that are granted.
pub const MOST_NESTING: i64 = 5;

// Definitions cite these limits, so that each stands here as a number too.
const _: () = prove!(LEAST_DETAIL == 1_000);

const _: () = prove!(MOST_DETAIL == 65_000);

const _: () = prove!(MOST_SERVICES == 10);

const _: () = prove!(MOST_NESTING == 5);

/// The tag of the most octets of a PDU.
const DETAIL: u8 = 0x80;

/// The tags of the most services that an end serves at once.
const CALLING: u8 = 0x81;

const CALLED: u8 = 0x82;

/// The tag of the most levels of data.
const NESTING: u8 = 0x83;

/// The tag of what else is agreed on.
const INITIATE_DETAIL: u8 = 0xA4;

/// The tag of the protocol's version.
const VERSION: u8 = 0x80;

/// The tags of bit strings: the parts of the protocol, and the services, that are supported.
const PARAMETERS: u8 = 0x81;

const SERVICES: u8 = 0x82;

/// The parameters that the contents of an element are.
#[tactic(auto, unfolding(crate::specs::Initiates::initiate, ber_values::specs::Parts::all_in, ber_values::specs::Parts::part_in, ber_values::specs::Grammars::then_in, ber_values::specs::Grammars::map_in))]
pub(crate) fn initiate_from(part: &Part<'_>) -> Result<Initiate, BerFault>
    requires { part.now.head.body + length part.now.contents.now < 2 ^ 64 }
    ensures { result ≡ initiate.reading part.now.head part.now.contents.now }
{
    let (detail, at, octets) = maybe_integer(part.contents, part.head.body, DETAIL)?;
    let calling_part = take_part(octets, at, CALLING)?;
    let calling = calling_part.integer()?;
    let called_part = take_part(calling_part.rest, calling_part.head.next, CALLED)?;
    let called = called_part.integer()?;
    let (nesting, at, octets) = maybe_integer(called_part.rest, called_part.head.next, NESTING)?;
    let last = take_part(octets, at, INITIATE_DETAIL)?;
    let version = version_in(&last)?;
    take_end(last.rest, last.head.next)?;
    Ok(Initiate {
        detail,
        calling,
        called,
        nesting,
        version,
    })
}

/// The number of the protocol's version in this element. The bits after it aren't looked at.
#[tactic(auto, unfolding(crate::specs::Initiates::initiate_detail, ber_values::specs::Parts::all_in, ber_values::specs::Parts::part_in, ber_values::specs::Grammars::then_in, ber_values::specs::Grammars::map_in, ber_values::specs::Leaves::raw))]
fn version_in(part: &Part<'_>) -> Result<i64, BerFault>
    requires { part.now.head.body + length part.now.contents.now < 2 ^ 64 }
    ensures { result ≡ initiate_detail.reading part.now.head part.now.contents.now }
{
    let first = take_part(part.contents, part.head.body, VERSION)?;
    let version = first.integer()?;
    let parameters = take_part(first.rest, first.head.next, PARAMETERS)?;
    let services = take_part(parameters.rest, parameters.head.next, SERVICES)?;
    let end = skip_parts(services.rest, services.head.next, 0, 0xFF, &[])?;
    take_end(octets_from(services.rest, services.head.next, end), end)?;
    Ok(version)
}

/// The integer of this tag, if it is at the front of octets, and what is left after it.
#[tactic(auto, unfolding(ber_values::specs::Parts::maybe_in, ber_values::specs::Parts::part_in, ber_values::specs::Grammars::branch_in, ber_values::specs::Grammars::map_in, ber_values::specs::Grammars::gives))]
fn maybe_integer(octets: &[u8], at: usize, tag: u8) -> Result<(Option<i64>, usize, &[u8]), BerFault>
    requires single { tag % 32 ≢ 31 }
    requires placed { at + length octets.now < 2 ^ 64 }
    ensures exact { Gives (λ x. taken x.0 x.1 x.2.now) result
        ((maybe_in tag integer).reading at octets.now) }
    ensures within { IfOk result
        (λ x. (at ≤ x.1) × (x.1 + length x.2.now ≡ at + length octets.now)) }
{
    if !has_tag(octets, tag) {
        return Ok((None, at, octets));
    }
    let part = take_part(octets, at, tag)?;
    let value = part.integer()?;
    Ok((Some(value), part.head.next, part.rest))
}

/// What is granted of an offer: version 1, and of each other parameter what is offered or the most
/// that is granted, whichever is less. An octet count or a nesting that isn't offered is granted as
/// the most. None where the version, either number of services or the nesting is below 1, or fewer
/// than [`LEAST_DETAIL`] octets are offered (ISO 9506-2, Initiate service).
pub fn negotiate(offer: &Initiate) -> Option<Initiate>
    ensures refused { (result ≡ None) ↔ IsTooLittle offer.now }
    ensures granted { IfSome result (λ answer. answer ≡ granted offer.now) }
{
    if is_too_little(offer) {
        return None;
    }
    Some(Initiate {
        detail: Some(granted_of(offer.detail, MOST_DETAIL)),
        calling: offer.calling.min(MOST_SERVICES),
        called: offer.called.min(MOST_SERVICES),
        nesting: Some(granted_of(offer.nesting, MOST_NESTING)),
        version: 1,
    })
}

/// Whether too little is offered of a parameter.
fn is_too_little(offer: &Initiate) -> bool
    ensures { IsTrue result ↔ IsTooLittle offer.now }
{
    offer.version < 1
        || offer.calling < 1
        || offer.called < 1
        || is_below(offer.detail, LEAST_DETAIL)
        || is_below(offer.nesting, 1)
}

/// Whether a number that is offered is below the least one.
fn is_below(number: Option<i64>, least: i64) -> bool
    ensures { IsTrue result ↔ IsBelow least number }
{
    match number {
        Some(number) => number < least,
        None => false,
    }
}

/// What is offered, up to the most that is granted, which also stands for no offer.
fn granted_of(number: Option<i64>, most: i64) -> i64
    ensures { result ≡ granted_of most number }
{
    match number {
        Some(number) => number.min(most),
        None => most,
    }
}

/// How many octets [`put_initiate`] appends.
pub(crate) fn initiate_len(offer: &Initiate) -> usize
    ensures value { result ≡ length (initiate_octets offer.now) }
    ensures few { result ≤ 64 }
{
    let first = some_integer_len(offer.detail) + integer_part_len(offer.calling);
    let next = integer_part_len(offer.called) + some_integer_len(offer.nesting);
    first + next + 24
}

/// The length of an integer as an element.
fn integer_part_len(value: i64) -> usize
    ensures value { (tag : ℕ) → result ≡ length (written tag (integer_octets value)) }
    ensures few { result ≤ 10 }
{
    2 + integer_len(value)
}

fn some_integer_len(value: Option<i64>) -> usize
    ensures value { (tag : ℕ) → result ≡ length (some_integer_octets tag value) }
    ensures few { result ≤ 10 }
{
    match value {
        Some(value) => integer_part_len(value),
        None => 0,
    }
}

/// Appends parameters as the contents of an element, with version 1.
#[tactic(auto, using(ber_values::proofs::Pieces::extended), unfolding(crate::specs::Initiates::initiate_octets))]
pub(crate) fn put_initiate(out: &mut Vec<u8>, offer: &Initiate) -> Result<(), AllocError>
    ensures ok { OnOk result (out.new.items ≡ out.old.items ++ initiate_octets offer.now) }
    ensures err { OnErr result (Extends out.old.items out.new.items) }
{
    put_some_integer(out, DETAIL, offer.detail)?;
    write_integer(out, CALLING, offer.calling)?;
    put_later(out, offer)
}

/// Appends the parameters from the called end's services on.
#[tactic(auto, using(ber_values::proofs::Pieces::extended), unfolding(crate::specs::Initiates::later_octets))]
fn put_later(out: &mut Vec<u8>, offer: &Initiate) -> Result<(), AllocError>
    ensures ok { OnOk result (out.new.items ≡ out.old.items ++ later_octets offer.now) }
    ensures err { OnErr result (Extends out.old.items out.new.items) }
{
    write_integer(out, CALLED, offer.called)?;
    put_some_integer(out, NESTING, offer.nesting)?;
    put_last(out)
}

fn put_some_integer(out: &mut Vec<u8>, tag: u8, value: Option<i64>) -> Result<(), AllocError>
    requires { tag % 32 ≢ 31 }
    ensures ok { OnOk result (out.new.items ≡ out.old.items ++ some_integer_octets tag value) }
    ensures err { OnErr result (out.new.items ≡ out.old.items) }
{
    match value {
        Some(value) => write_integer(out, tag, value),
        None => Ok(()),
    }
}

/// Appends version 1; that arrays, structures, and variables and lists of them by their names are
/// supported; and the services of this profile, in the order of their bits getNameList, identify,
/// read, write, the three of named variable lists, informationReport and conclude.
#[tactic(auto, unfolding(crate::specs::Initiates::last_octets, crate::specs::Initiates::initiate_detail_octets, ber_values::specs::Writing::length_octets))]
fn put_last(out: &mut Vec<u8>) -> Result<(), AllocError>
    ensures ok { OnOk result (out.new.items ≡ out.old.items ++ last_octets) }
    ensures err { OnErr result (out.new.items ≡ out.old.items) }
{
    out.extend_from_slice(&[
        INITIATE_DETAIL,
        22,
        VERSION,
        1,
        1,
        PARAMETERS,
        3,
        5,
        0xE1,
        0,
        SERVICES,
        12,
        3,
        0x6E,
        0x1C,
        0,
        0,
        0,
        0,
        0,
        0,
        0,
        1,
        0x10,
    ])
}
