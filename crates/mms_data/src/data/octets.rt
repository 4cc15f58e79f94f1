//! Data as octets (ISO 9506-2, `Data`).
ghost use Rattle.std.specs.Prelude.{◌≡◌, ◌+◌, ◌<◌, ◌≤◌, ◌^◌, ◌++◌, length, IfOk, OnOk, OnErr};
ghost use Rattle.std.specs.List.{slice_range};
ghost use Rattle.plain_text.specs.Extends.{Extends};
ghost use Rattle.ber_values.specs.Lengths.{capped, part_size};
ghost use Rattle.ber_values.specs.Stops.{Answers};
ghost use Rattle.ber_values.specs.Readers.{IsReadBy, taken_from};
ghost use Rattle.ber_values.specs.Parts.{part_in, contents_as};
ghost use Rattle.ber_values.specs.Lists.{list_in};
ghost use Rattle.ber_values.specs.Leaves as leaves;
ghost use Rattle.mms_data.specs.Datum.{Datum, data_of};
ghost use Rattle.mms_data.specs.DataWritten.{datum_octets, members_octets, datum_len};
ghost use Rattle.mms_data.specs.Lawful.{IsLawful};
ghost use Rattle.mms_data.specs.Floating.{floating};
ghost use Rattle.mms_data.specs.DataOctets.{plain_datum, array_of, structure_of, datum_within};
ghost use Rattle.mms_data.specs.DataOctets.{one_datum};

use super::{DataKind, DataList, MmsData, OctetList};
use ber_values::{
    BerFault, BitString, MOST_LENGTH, Part, Stop, Visible, add_len, has_tag, integer_len,
    length_fault, natural_len, octets_from, or_undo, part_len, refused, settle, take_part,
    value_fault, write_bits, write_boolean, write_head, write_integer, write_natural, write_octets,
    write_visible,
};
use std::alloc::{AllocError, Global};

/// The most levels of data: a value that is neither structure nor array has one.
pub const MOST_DEPTH: u8 = 5;

// Definitions cite this limit, so that it stands here as a number too.
const _: () = prove!(MOST_DEPTH == 5);

/// The value that begins at `at` in octets that end at `end`, and the place after it.
pub fn read_data(
    alloc: Global,
    bytes: &[u8],
    at: usize,
    end: usize,
) -> Result<Result<(MmsData, usize), BerFault>, AllocError>
    requires start { at ≤ end }
    requires stop { end ≤ length bytes.now }
    ensures exact { IfOk result (λ read. IsReadBy one_datum
        (taken_from at (slice_range bytes.now at end)) at (slice_range bytes.now at end) read) }
    ensures lawful { IfOk result (λ read. IfOk read (λ x. IsLawful x.0)) }
    ensures within { IfOk result (λ read. IfOk read (λ x. (at < x.1) × (x.1 ≤ end))) }
{
    read_from(alloc, &bytes[at..end], at)
}

fn read_from(
    alloc: Global,
    octets: &[u8],
    at: usize,
) -> Result<Result<(MmsData, usize), BerFault>, AllocError>
    requires { at + length octets.now < 2 ^ 64 }
    ensures exact { IfOk result (λ read. IsReadBy one_datum (taken_from at octets.now) at octets.now
        read) }
    ensures lawful { IfOk result (λ read. IfOk read (λ x. IsLawful x.0)) }
    ensures within { IfOk result (λ read. IfOk read
        (λ x. (at + 2 ≤ x.1) × (x.1 ≤ at + length octets.now))) }
{
    settle(take_data(alloc, octets, at))
}

/// The value at the front of octets, of which the first has the place `at`, and the place after it.
#[tactic(auto, unfolding(crate::specs::DataOctets::one_datum))]
pub fn take_data(alloc: Global, octets: &[u8], at: usize) -> Result<(MmsData, usize), Stop>
    requires { at + length octets.now < 2 ^ 64 }
    ensures exact { Answers (taken_from at octets.now) result (one_datum.reading at octets.now) }
    ensures within { IfOk result (λ x. (at + 2 ≤ x.1) × (x.1 ≤ at + length octets.now)) }
{
    datum_at(alloc, octets, at, MOST_DEPTH)
}

/// The value at the front of octets, of at most so many levels, and the place after it.
#[cycle(levels)]
#[tactic(auto, unfolding(crate::specs::DataOctets::datum_within, ber_values::specs::Parts::choose_in, ber_values::specs::Grammars::branch_in, ber_values::specs::Grammars::refused))]
fn datum_at(alloc: Global, octets: &[u8], at: usize, levels: u8) -> Result<(MmsData, usize), Stop>
    requires { at + length octets.now < 2 ^ 64 }
    ensures exact { Answers (taken_from at octets.now) result
        ((datum_within levels).reading at octets.now) }
    ensures within { IfOk result (λ x. (at + 2 ≤ x.1) × (x.1 ≤ at + length octets.now)) }
{
    if levels == 0 {
        return Err(Stop::Fault(refused(octets, at)));
    }
    if has_tag(octets, 0xA1) {
        return array_at(alloc, octets, at, levels - 1);
    }
    if has_tag(octets, 0xA2) {
        return structure_at(alloc, octets, at, levels - 1);
    }
    plain_at(alloc, octets, at)
}

/// The array at the front of octets, whose members have at most so many levels.
#[cycle(levels)]
#[tactic(auto, unfolding(ber_values::specs::Parts::part_in, ber_values::specs::Parts::contents_as))]
fn array_at(alloc: Global, octets: &[u8], at: usize, levels: u8) -> Result<(MmsData, usize), Stop>
    requires { at + length octets.now < 2 ^ 64 }
    ensures exact { Answers (taken_from at octets.now) result
        ((part_in 161 (contents_as array_of (list_in 0 (datum_within levels)))).reading at
        octets.now) }
    ensures within { IfOk result (λ x. (at + 2 ≤ x.1) × (x.1 ≤ at + length octets.now)) }
{
    let part = take_part(octets, at, 0xA1)?;
    let members = members_of(alloc, &part, levels)?;
    Ok((MmsData::new(DataKind::Array(members)), part.head.next))
}

/// The structure at the front of octets, whose members have at most so many levels.
#[cycle(levels)]
#[tactic(auto, unfolding(ber_values::specs::Parts::part_in, ber_values::specs::Parts::contents_as))]
fn structure_at(
    alloc: Global,
    octets: &[u8],
    at: usize,
    levels: u8,
) -> Result<(MmsData, usize), Stop>
    requires { at + length octets.now < 2 ^ 64 }
    ensures exact { Answers (taken_from at octets.now) result
        ((part_in 162 (contents_as structure_of (list_in 0 (datum_within levels)))).reading at
        octets.now) }
    ensures within { IfOk result (λ x. (at + 2 ≤ x.1) × (x.1 ≤ at + length octets.now)) }
{
    let part = take_part(octets, at, 0xA2)?;
    let members = members_of(alloc, &part, levels)?;
    Ok((MmsData::new(DataKind::Structure(members)), part.head.next))
}

/// The members that the contents of an element are, each of at most so many levels.
#[cycle(levels)]
fn members_of(alloc: Global, part: &Part<'_>, levels: u8) -> Result<DataList, Stop>
    requires { part.now.head.body + length part.now.contents.now < 2 ^ 64 }
    ensures { Answers (λ ds. ds) result
        ((list_in 0 (datum_within levels)).reading part.now.head part.now.contents.now) }
{
    let mut members = DataList::new(alloc);
    let mut at = part.head.body;
    let mut rest = part.contents;
    while !rest.is_empty() {
        let (member, next) = datum_at(alloc, rest, at, levels)?;
        members.push(member)?;
        rest = octets_from(rest, at, next);
        at = next;
    }
    Ok(members)
}

/// The value without members at the front of octets.
#[tactic(auto, unfolding(crate::specs::DataOctets::plain_datum, ber_values::specs::Leaves::raw, ber_values::specs::Parts::choose_in, ber_values::specs::Parts::part_in, ber_values::specs::Parts::contents_as, ber_values::specs::Grammars::branch_in, ber_values::specs::Grammars::refused))]
fn plain_at(alloc: Global, octets: &[u8], at: usize) -> Result<(MmsData, usize), Stop>
    requires { at + length octets.now < 2 ^ 64 }
    ensures exact { Answers (taken_from at octets.now) result (plain_datum.reading at octets.now) }
    ensures within { IfOk result (λ x. (at + 2 ≤ x.1) × (x.1 ≤ at + length octets.now)) }
{
    if has_tag(octets, 0x83) {
        let part = take_part(octets, at, 0x83)?;
        return Ok((
            MmsData::new(DataKind::Boolean(part.boolean()?)),
            part.head.next,
        ));
    }
    if has_tag(octets, 0x84) {
        let part = take_part(octets, at, 0x84)?;
        return Ok((
            MmsData::new(DataKind::Bits(part.bits(alloc)?)),
            part.head.next,
        ));
    }
    if has_tag(octets, 0x85) {
        let part = take_part(octets, at, 0x85)?;
        return Ok((
            MmsData::new(DataKind::Integer(part.integer()?)),
            part.head.next,
        ));
    }
    if has_tag(octets, 0x86) {
        let part = take_part(octets, at, 0x86)?;
        return Ok((
            MmsData::new(DataKind::Unsigned(part.natural()?)),
            part.head.next,
        ));
    }
    if has_tag(octets, 0x87) {
        let part = take_part(octets, at, 0x87)?;
        return Ok((
            MmsData::new(DataKind::Real(real_of(&part)?)),
            part.head.next,
        ));
    }
    if has_tag(octets, 0x89) {
        let part = take_part(octets, at, 0x89)?;
        let list = OctetList::from_vec(Vec::from_slice(alloc, part.contents)?);
        return Ok((MmsData::new(DataKind::Octets(list)), part.head.next));
    }
    if has_tag(octets, 0x8A) {
        let part = take_part(octets, at, 0x8A)?;
        return Ok((
            MmsData::new(DataKind::Text(part.visible(alloc)?)),
            part.head.next,
        ));
    }
    Err(Stop::Fault(refused(octets, at)))
}

/// The four octets of the floating-point number that the contents are.
#[tactic(auto, unfolding(crate::specs::Floating::floating, crate::specs::Floating::real_in))]
fn real_of(part: &Part<'_>) -> Result<[u8; 4], BerFault>
    ensures { result ≡ floating.reading part.now.head part.now.contents.now }
{
    match part.contents {
        [8, a, b, c, d] => Ok([*a, *b, *c, *d]),
        [_, _, _, _, _] => Err(value_fault(&part.head)),
        _ => Err(length_fault(&part.head)),
    }
}

/// How many octets [`write_data`] appends, or 4,294,967,295 where they would be as many or more.
pub fn data_len(value: &MmsData) -> usize
    requires { IsLawful value.now }
    ensures { result ≡ datum_len value.now }
{
    len_of(value)
}

#[cycle(lengths)]
fn len_of(value: &MmsData) -> usize
    ensures { result ≡ datum_len value.now }
{
    match &value.kind {
        DataKind::Boolean(boolean) => boolean_element_len(*boolean),
        DataKind::Integer(integer) => integer_element_len(*integer),
        DataKind::Unsigned(unsigned) => unsigned_element_len(*unsigned),
        DataKind::Bits(bits) => bits_element_len(bits),
        DataKind::Real(real) => real_element_len(real),
        DataKind::Octets(octets) => octets_element_len(octets.as_slice()),
        DataKind::Text(text) => text_element_len(text.as_slice()),
        DataKind::Structure(members) => part_len(len_of_members(members)),
        DataKind::Array(members) => part_len(len_of_members(members)),
    }
}

#[cycle(lengths)]
#[tactic(auto, using(crate::proofs::DataLengths::lengths))]
fn len_of_members(members: &DataList) -> usize
    ensures { result ≡ capped (length (members_octets (data_of members.now))) }
{
    let mut len = 0;
    for member in &members.items {
        len = add_len(len, len_of(member));
    }
    len
}

/// The length of an element of so many contents octets.
fn element_len(len: usize) -> usize
    ensures { result ≡ capped (part_size len) }
{
    part_len(MOST_LENGTH.min(len))
}

fn boolean_element_len(boolean: bool) -> usize
    ensures { result ≡ datum_len (Datum.boolean boolean) }
{
    element_len(1)
}

fn integer_element_len(integer: i64) -> usize
    ensures { result ≡ datum_len (Datum.integer integer) }
{
    element_len(integer_len(integer))
}

fn unsigned_element_len(unsigned: u64) -> usize
    ensures { result ≡ datum_len (Datum.unsigned unsigned) }
{
    element_len(natural_len(unsigned))
}

fn bits_element_len(bits: &BitString) -> usize
    ensures { result ≡ datum_len (Datum.bits bits.now) }
{
    element_len(1 + bits.octets().len())
}

fn real_element_len(real: &[u8]) -> usize
    ensures { result ≡ datum_len (Datum.real real.now) }
{
    element_len(1 + real.len())
}

fn octets_element_len(octets: &[u8]) -> usize
    ensures { result ≡ datum_len (Datum.octets octets.now) }
{
    element_len(octets.len())
}

fn text_element_len(text: &[u8]) -> usize
    ensures { result ≡ datum_len (Datum.text text.now) }
{
    element_len(text.len())
}

/// Appends a value, which is shorter than 4,294,967,295 octets. After want of memory `out` is as
/// before.
pub fn write_data(out: &mut Vec<u8>, value: &MmsData) -> Result<(), AllocError>
    requires lawful { IsLawful value.now }
    requires bounded { datum_len value.now < MOST_LENGTH }
    ensures ok { OnOk result (out.new.items ≡ out.old.items ++ datum_octets value.now) }
    ensures err { OnErr result (out.new.items ≡ out.old.items) }
{
    let mark = out.len();
    let done = put_data(out, value);
    or_undo(out, mark, done)
}

#[cycle(writing)]
fn put_data(out: &mut Vec<u8>, value: &MmsData) -> Result<(), AllocError>
    requires { length (datum_octets value.now) < MOST_LENGTH }
    ensures ok { OnOk result (out.new.items ≡ out.old.items ++ datum_octets value.now) }
    ensures err { OnErr result (Extends out.old.items out.new.items) }
{
    match &value.kind {
        DataKind::Boolean(boolean) => put_boolean(out, *boolean),
        DataKind::Integer(integer) => put_integer(out, *integer),
        DataKind::Unsigned(unsigned) => put_unsigned(out, *unsigned),
        DataKind::Bits(bits) => put_bits(out, bits),
        DataKind::Real(real) => put_real(out, real),
        DataKind::Octets(octets) => put_octets(out, octets.as_slice()),
        DataKind::Text(text) => put_text(out, text),
        DataKind::Structure(members) => {
            write_head(out, 0xA2, len_of_members(members))?;
            put_members(out, members)
        }
        DataKind::Array(members) => {
            write_head(out, 0xA1, len_of_members(members))?;
            put_members(out, members)
        }
    }
}

#[cycle(writing)]
#[tactic(auto, using(crate::proofs::DataLengths::written_members))]
fn put_members(out: &mut Vec<u8>, members: &DataList) -> Result<(), AllocError>
    requires { length (members_octets (data_of members.now)) < MOST_LENGTH }
    ensures ok { OnOk result
        (out.new.items ≡ out.old.items ++ members_octets (data_of members.now)) }
    ensures err { OnErr result (Extends out.old.items out.new.items) }
{
    for member in &members.items {
        put_data(out, member)?;
    }
    Ok(())
}

fn put_boolean(out: &mut Vec<u8>, boolean: bool) -> Result<(), AllocError>
    ensures ok { OnOk result
        (out.new.items ≡ out.old.items ++ datum_octets (Datum.boolean boolean)) }
    ensures err { OnErr result (Extends out.old.items out.new.items) }
{
    write_boolean(out, 0x83, boolean)
}

fn put_integer(out: &mut Vec<u8>, integer: i64) -> Result<(), AllocError>
    ensures ok { OnOk result
        (out.new.items ≡ out.old.items ++ datum_octets (Datum.integer integer)) }
    ensures err { OnErr result (Extends out.old.items out.new.items) }
{
    write_integer(out, 0x85, integer)
}

fn put_unsigned(out: &mut Vec<u8>, unsigned: u64) -> Result<(), AllocError>
    ensures ok { OnOk result
        (out.new.items ≡ out.old.items ++ datum_octets (Datum.unsigned unsigned)) }
    ensures err { OnErr result (Extends out.old.items out.new.items) }
{
    write_natural(out, 0x86, unsigned)
}

fn put_bits(out: &mut Vec<u8>, bits: &BitString) -> Result<(), AllocError>
    requires { length (datum_octets (Datum.bits bits.now)) < MOST_LENGTH }
    ensures ok { OnOk result
        (out.new.items ≡ out.old.items ++ datum_octets (Datum.bits bits.now)) }
    ensures err { OnErr result (Extends out.old.items out.new.items) }
{
    write_bits(out, 0x84, bits)
}

fn put_real(out: &mut Vec<u8>, real: &[u8; 4]) -> Result<(), AllocError>
    ensures ok { OnOk result
        (out.new.items ≡ out.old.items ++ datum_octets (Datum.real real.now)) }
    ensures err { OnErr result (Extends out.old.items out.new.items) }
{
    let [a, b, c, d] = *real;
    write_octets(out, 0x87, &[8, a, b, c, d])
}

fn put_octets(out: &mut Vec<u8>, octets: &[u8]) -> Result<(), AllocError>
    requires { length (datum_octets (Datum.octets octets.now)) < MOST_LENGTH }
    ensures ok { OnOk result
        (out.new.items ≡ out.old.items ++ datum_octets (Datum.octets octets.now)) }
    ensures err { OnErr result (Extends out.old.items out.new.items) }
{
    write_octets(out, 0x89, octets)
}

fn put_text(out: &mut Vec<u8>, text: &Visible) -> Result<(), AllocError>
    ensures ok { OnOk result
        (out.new.items ≡ out.old.items ++ datum_octets (Datum.text text.now)) }
    ensures err { OnErr result (Extends out.old.items out.new.items) }
{
    write_visible(out, 0x8A, text)
}
