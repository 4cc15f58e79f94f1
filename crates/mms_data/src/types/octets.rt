//! Types of variables as octets (ISO 9506-2, `TypeSpecification`).
ghost use Rattle.std.specs.Prelude.{◌≡◌, ◌+◌, ◌<◌, ◌≤◌, ◌^◌, ◌++◌, length, IfOk, OnOk, OnErr};
ghost use Rattle.plain_text.specs.Extends.{Extends};
ghost use Rattle.ber_values.specs.declared.lengths.TheConstants.{MOST_LENGTH};
ghost use Rattle.ber_values.specs.Lengths.{capped};
ghost use Rattle.ber_values.specs.Stops.{Answers};
ghost use Rattle.ber_values.specs.Readers.{taken_from};
ghost use Rattle.ber_values.specs.Parts.{all_in};
ghost use Rattle.ber_values.specs.Lists.{list_in};
ghost use Rattle.ber_values.specs.Writing.{written, integer_octets};
ghost use Rattle.mms_data.specs.Types.TypeShape.{TypeShape, shapes_of};
ghost use Rattle.mms_data.specs.Types.ShapeOctets.{signed_size, real_parts, plain_shape, marked_in};
ghost use Rattle.mms_data.specs.Types.ShapeOctets.{structured, component_in, structure_in};
ghost use Rattle.mms_data.specs.Types.ShapeOctets.{shape_within};
ghost use Rattle.mms_data.specs.Types.ShapeOctets.{one_shape, sole_shape};
ghost use Rattle.mms_data.specs.Types.ShapeWritten.{shape_octets, components_octets, shape_len};

use super::passing::pass_once;
use super::tree::{Shape, ShapeKind, ShapeList, ShapeTree};
use crate::MOST_DEPTH;
use ber_values::{
    BerFault, MOST_LENGTH, Part, Stop, add_len, has_tag, integer_len, natural_len, octets_from,
    or_undo, part_len, refused, take_end, take_part, value_fault, write_head, write_integer,
    write_natural, write_octets,
};
use std::alloc::{AllocError, Global};

/// The tags of types.
const BOOL: u8 = 0x83;

const BITS: u8 = 0x84;

const INT: u8 = 0x85;

const UINT: u8 = 0x86;

const REAL: u8 = 0xA7;

const TEXT: u8 = 0x8A;

const STRUCTURE: u8 = 0xA2;

/// The tags of a mark, and of what it may stand before.
const MARK: u8 = 0x80;

const MARKED: u8 = 0xA1;

/// The tag of a component.
const COMPONENT: u8 = 0x30;

/// The tag of an integer.
const INTEGER: u8 = 2;

/// The type at the front of octets, of which the first has the place `at`, and the place after it.
#[tactic(auto, unfolding(crate::specs::Types::ShapeOctets::one_shape))]
pub fn take_shape(alloc: Global, octets: &[u8], at: usize) -> Result<(Shape, usize), Stop>
    requires { at + length octets.now < 2 ^ 64 }
    ensures exact { Answers (taken_from at octets.now) result (one_shape.reading at octets.now) }
    ensures within { IfOk result (λ x. (at + 2 ≤ x.1) × (x.1 ≤ at + length octets.now)) }
{
    let (tree, next) = shape_at(alloc, octets, at, MOST_DEPTH)?;
    Ok((Shape::new(tree), next))
}

/// The type that the contents of an element are.
#[tactic(auto, unfolding(crate::specs::Types::ShapeOctets::sole_shape, ber_values::specs::Parts::all_in))]
pub fn shape_from(alloc: Global, part: &Part<'_>) -> Result<Shape, Stop>
    requires { part.now.head.body + length part.now.contents.now < 2 ^ 64 }
    ensures { Answers (λ s. s) result (sole_shape.reading part.now.head part.now.contents.now) }
{
    let (shape, next) = take_shape(alloc, part.contents, part.head.body)?;
    take_end(octets_from(part.contents, part.head.body, next), next)?;
    Ok(shape)
}

/// The type at the front of octets, of at most so many levels, and the place after it.
#[cycle(levels)]
#[tactic(auto, unfolding(crate::specs::Types::ShapeOctets::shape_within, ber_values::specs::Parts::choose_in, ber_values::specs::Parts::part_in, ber_values::specs::Grammars::branch_in, ber_values::specs::Grammars::refused))]
fn shape_at(alloc: Global, octets: &[u8], at: usize, levels: u8) -> Result<(ShapeTree, usize), Stop>
    requires { at + length octets.now < 2 ^ 64 }
    ensures exact { Answers (taken_from at octets.now) result
        ((shape_within levels).reading at octets.now) }
    ensures within { IfOk result (λ x. (at + 2 ≤ x.1) × (x.1 ≤ at + length octets.now)) }
{
    if levels == 0 {
        return Err(Stop::Fault(refused(octets, at)));
    }
    if has_tag(octets, STRUCTURE) {
        let part = take_part(octets, at, STRUCTURE)?;
        let tree = structure_of(alloc, &part, levels - 1)?;
        return Ok((tree, part.head.next));
    }
    plain_at(octets, at)
}

/// The structure that the contents of an element are, of components of at most so many levels.
#[cycle(levels)]
#[tactic(auto, unfolding(crate::specs::Types::ShapeOctets::marked_in, ber_values::specs::Parts::all_in, ber_values::specs::Parts::part_in, ber_values::specs::Parts::contents_as, ber_values::specs::Grammars::then_in))]
fn structure_of(alloc: Global, part: &Part<'_>, levels: u8) -> Result<ShapeTree, Stop>
    requires { part.now.head.body + length part.now.contents.now < 2 ^ 64 }
    ensures { Answers (λ s. s) result
        ((marked_in (structure_in (component_in (shape_within levels)))).reading part.now.head
        part.now.contents.now) }
{
    let next = pass_once(part.contents, part.head.body, MARK)?;
    let list = take_part(
        octets_from(part.contents, part.head.body, next),
        next,
        MARKED,
    )?;
    let components = components_of(alloc, &list, levels)?;
    take_end(list.rest, list.head.next)?;
    Ok(ShapeTree::new(ShapeKind::Structure(components)))
}

/// The components that the contents of an element are, each of at most so many levels.
#[cycle(levels)]
fn components_of(alloc: Global, part: &Part<'_>, levels: u8) -> Result<ShapeList, Stop>
    requires { part.now.head.body + length part.now.contents.now < 2 ^ 64 }
    ensures { Answers (λ ss. ss) result
        ((list_in 0 (component_in (shape_within levels))).reading
        part.now.head part.now.contents.now) }
{
    let mut components = ShapeList::new(alloc);
    let mut at = part.head.body;
    let mut rest = part.contents;
    while !rest.is_empty() {
        let (component, next) = component_at(alloc, rest, at, levels)?;
        components.push(component)?;
        rest = octets_from(rest, at, next);
        at = next;
    }
    Ok(components)
}

/// The type of the component at the front of octets, of at most so many levels, and the place after
/// the component.
#[cycle(levels)]
#[tactic(auto, unfolding(crate::specs::Types::ShapeOctets::component_in, ber_values::specs::Parts::part_in))]
fn component_at(
    alloc: Global,
    octets: &[u8],
    at: usize,
    levels: u8,
) -> Result<(ShapeTree, usize), Stop>
    requires { at + length octets.now < 2 ^ 64 }
    ensures exact { Answers (taken_from at octets.now) result
        ((component_in (shape_within levels)).reading at octets.now) }
    ensures within { IfOk result (λ x. (at + 2 ≤ x.1) × (x.1 ≤ at + length octets.now)) }
{
    let part = take_part(octets, at, COMPONENT)?;
    let tree = component_of(alloc, &part, levels)?;
    Ok((tree, part.head.next))
}

/// The type of the component whose contents these are, of at most so many levels.
#[cycle(levels)]
#[tactic(auto, unfolding(crate::specs::Types::ShapeOctets::marked_in, ber_values::specs::Parts::all_in, ber_values::specs::Parts::part_in, ber_values::specs::Grammars::then_in))]
fn component_of(alloc: Global, part: &Part<'_>, levels: u8) -> Result<ShapeTree, Stop>
    requires { part.now.head.body + length part.now.contents.now < 2 ^ 64 }
    ensures { Answers (λ s. s) result
        ((marked_in (all_in (shape_within levels))).reading part.now.head part.now.contents.now) }
{
    let next = pass_once(part.contents, part.head.body, MARK)?;
    let inner = take_part(
        octets_from(part.contents, part.head.body, next),
        next,
        MARKED,
    )?;
    let tree = sole_at(alloc, &inner, levels)?;
    take_end(inner.rest, inner.head.next)?;
    Ok(tree)
}

/// The type that the contents of an element are, of at most so many levels.
#[cycle(levels)]
#[tactic(auto, unfolding(ber_values::specs::Parts::all_in))]
fn sole_at(alloc: Global, part: &Part<'_>, levels: u8) -> Result<ShapeTree, Stop>
    requires { part.now.head.body + length part.now.contents.now < 2 ^ 64 }
    ensures { Answers (λ s. s) result
        ((all_in (shape_within levels)).reading part.now.head part.now.contents.now) }
{
    let (tree, next) = shape_at(alloc, part.contents, part.head.body, levels)?;
    take_end(octets_from(part.contents, part.head.body, next), next)?;
    Ok(tree)
}

/// The type without components at the front of octets.
#[tactic(auto, unfolding(crate::specs::Types::ShapeOctets::plain_shape, crate::specs::Types::ShapeOctets::shape_size, ber_values::specs::Parts::choose_in, ber_values::specs::Parts::part_in, ber_values::specs::Parts::contents_as, ber_values::specs::Grammars::branch_in, ber_values::specs::Grammars::refused))]
fn plain_at(octets: &[u8], at: usize) -> Result<(ShapeTree, usize), Stop>
    requires { at + length octets.now < 2 ^ 64 }
    ensures exact { Answers (taken_from at octets.now) result (plain_shape.reading at octets.now) }
    ensures within { IfOk result (λ x. (at + 2 ≤ x.1) × (x.1 ≤ at + length octets.now)) }
{
    if has_tag(octets, BOOL) {
        let part = take_part(octets, at, BOOL)?;
        part.fixed(&[])?;
        return Ok((ShapeTree::new(ShapeKind::Bool), part.head.next));
    }
    if has_tag(octets, BITS) {
        let part = take_part(octets, at, BITS)?;
        let size = signed_size(&part)?;
        return Ok((ShapeTree::new(ShapeKind::Bits(size)), part.head.next));
    }
    if has_tag(octets, INT) {
        let part = take_part(octets, at, INT)?;
        let size = part.unsigned_within(1, 255)?;
        return Ok((ShapeTree::new(ShapeKind::Int(size as u8)), part.head.next));
    }
    if has_tag(octets, UINT) {
        let part = take_part(octets, at, UINT)?;
        let size = part.unsigned_within(1, 255)?;
        return Ok((ShapeTree::new(ShapeKind::Uint(size as u8)), part.head.next));
    }
    if has_tag(octets, REAL) {
        let part = take_part(octets, at, REAL)?;
        real_of(&part)?;
        return Ok((ShapeTree::new(ShapeKind::Real), part.head.next));
    }
    if has_tag(octets, TEXT) {
        let part = take_part(octets, at, TEXT)?;
        let size = signed_size(&part)?;
        return Ok((ShapeTree::new(ShapeKind::Text(size)), part.head.next));
    }
    Err(Stop::Fault(refused(octets, at)))
}

/// The number of bits or of octets that the contents are, with either sign.
#[tactic(auto, unfolding(crate::specs::Types::ShapeOctets::signed_size, ber_values::specs::Parts::contents_as, ber_values::specs::Parts::contents_where))]
fn signed_size(part: &Part<'_>) -> Result<u8, BerFault>
    ensures { result ≡ signed_size.reading part.now.head part.now.contents.now }
{
    let size = part.integer()?.unsigned_abs();
    if 1 <= size && size <= 255 {
        Ok(size as u8)
    } else {
        Err(value_fault(&part.head))
    }
}

/// The contents are the parts of a floating-point number of 32 bits.
#[tactic(auto, unfolding(crate::specs::Types::ShapeOctets::real_parts, ber_values::specs::Parts::all_in, ber_values::specs::Parts::part_in, ber_values::specs::Grammars::then_in))]
fn real_of(part: &Part<'_>) -> Result<(), BerFault>
    requires { part.now.head.body + length part.now.contents.now < 2 ^ 64 }
    ensures { result ≡ real_parts.reading part.now.head part.now.contents.now }
{
    let width = take_part(part.contents, part.head.body, INTEGER)?;
    width.fixed(&[32])?;
    let exponent = take_part(width.rest, width.head.next, INTEGER)?;
    exponent.fixed(&[8])?;
    take_end(exponent.rest, exponent.head.next)
}

/// How many octets [`write_shape`] appends, or 4,294,967,295 where they would be as many or more.
pub fn shape_len(shape: &Shape) -> usize
    ensures { result ≡ shape_len shape.now }
{
    len_of(shape.tree())
}

#[cycle(lengths)]
fn len_of(tree: &ShapeTree) -> usize
    ensures value { result ≡ shape_len tree.now }
    ensures few { result ≤ MOST_LENGTH }
{
    match tree.kind() {
        ShapeKind::Bool => bool_len(),
        ShapeKind::Bits(size) => bits_len(*size),
        ShapeKind::Int(size) => int_len(*size),
        ShapeKind::Uint(size) => uint_len(*size),
        ShapeKind::Real => real_len(),
        ShapeKind::Text(size) => text_len(*size),
        ShapeKind::Structure(components) => part_len(part_len(len_of_components(components))),
    }
}

#[cycle(lengths)]
fn len_of_components(components: &ShapeList) -> usize
    ensures value { result ≡ capped (length (components_octets (shapes_of components.now))) }
    ensures few { result ≤ MOST_LENGTH }
{
    let mut len = 0;
    for component in components.as_slice() {
        len = add_len(len, part_len(part_len(len_of(component))));
    }
    len
}

#[tactic(auto, unfolding(ber_values::specs::Writing::length_octets))]
fn bool_len() -> usize
    ensures { result ≡ shape_len TypeShape.bool_shape }
{
    2
}

#[tactic(auto, unfolding(crate::specs::Types::ShapeWritten::real_parts_octets, ber_values::specs::Writing::length_octets))]
fn real_len() -> usize
    ensures { result ≡ shape_len TypeShape.real_shape }
{
    8
}

fn bits_len(size: u8) -> usize
    ensures { result ≡ shape_len (TypeShape.bits_shape size) }
{
    part_len(natural_len(u64::from(size)))
}

fn int_len(size: u8) -> usize
    ensures { result ≡ shape_len (TypeShape.int_shape size) }
{
    part_len(natural_len(u64::from(size)))
}

fn uint_len(size: u8) -> usize
    ensures { result ≡ shape_len (TypeShape.uint_shape size) }
{
    part_len(natural_len(u64::from(size)))
}

fn text_len(size: u8) -> usize
    ensures { result ≡ shape_len (TypeShape.text_shape size) }
{
    signed_len(-i64::from(size))
}

/// The length of the type of a text, by its number as it is written.
fn signed_len(size: i64) -> usize
    ensures { result ≡ capped (length (written 138 (integer_octets size))) }
{
    part_len(integer_len(size))
}

/// Appends a type, which is shorter than 4,294,967,295 octets. After want of memory `out` is as
/// before.
pub fn write_shape(out: &mut Vec<u8>, shape: &Shape) -> Result<(), AllocError>
    requires { shape_len shape.now < MOST_LENGTH }
    ensures ok { OnOk result (out.new.items ≡ out.old.items ++ shape_octets shape.now) }
    ensures err { OnErr result (out.new.items ≡ out.old.items) }
{
    let mark = out.len();
    let done = put_tree(out, shape.tree());
    or_undo(out, mark, done)
}

#[cycle(writing)]
fn put_tree(out: &mut Vec<u8>, tree: &ShapeTree) -> Result<(), AllocError>
    requires { length (shape_octets tree.now) < MOST_LENGTH }
    ensures ok { OnOk result (out.new.items ≡ out.old.items ++ shape_octets tree.now) }
    ensures err { OnErr result (Extends out.old.items out.new.items) }
{
    match tree.kind() {
        ShapeKind::Bool => write_octets(out, BOOL, &[]),
        ShapeKind::Bits(size) => put_bits(out, *size),
        ShapeKind::Int(size) => put_int(out, *size),
        ShapeKind::Uint(size) => put_uint(out, *size),
        ShapeKind::Real => put_real(out),
        ShapeKind::Text(size) => put_text(out, *size),
        ShapeKind::Structure(components) => put_structure(out, components),
    }
}

#[cycle(writing)]
#[tactic(auto, using(ber_values::proofs::Pieces::extended))]
fn put_structure(out: &mut Vec<u8>, components: &ShapeList) -> Result<(), AllocError>
    requires { length (shape_octets (structured components.now)) < MOST_LENGTH }
    ensures ok { OnOk result
        (out.new.items ≡ out.old.items ++ shape_octets (structured components.now)) }
    ensures err { OnErr result (Extends out.old.items out.new.items) }
{
    let len = len_of_components(components);
    write_head(out, STRUCTURE, part_len(len))?;
    write_head(out, MARKED, len)?;
    put_components(out, components)?;
    Ok(())
}

#[cycle(writing)]
#[tactic(auto, using(crate::proofs::OfTypes::ShapeLengths::written_components))]
fn put_components(out: &mut Vec<u8>, components: &ShapeList) -> Result<(), AllocError>
    requires { length (components_octets (shapes_of components.now)) < MOST_LENGTH }
    ensures ok { OnOk result
        (out.new.items ≡ out.old.items ++ components_octets (shapes_of components.now)) }
    ensures err { OnErr result (Extends out.old.items out.new.items) }
{
    for component in components.as_slice() {
        put_component(out, component)?;
    }
    Ok(())
}

#[cycle(writing)]
#[tactic(auto, using(ber_values::proofs::Pieces::extended))]
fn put_component(out: &mut Vec<u8>, tree: &ShapeTree) -> Result<(), AllocError>
    requires { length (written 48 (written 161 (shape_octets tree.now))) < MOST_LENGTH }
    ensures ok { OnOk result (out.new.items
        ≡ out.old.items ++ written 48 (written 161 (shape_octets tree.now))) }
    ensures err { OnErr result (Extends out.old.items out.new.items) }
{
    let len = len_of(tree);
    write_head(out, COMPONENT, part_len(len))?;
    write_head(out, MARKED, len)?;
    put_tree(out, tree)?;
    Ok(())
}

fn put_bits(out: &mut Vec<u8>, size: u8) -> Result<(), AllocError>
    ensures ok { OnOk result
        (out.new.items ≡ out.old.items ++ shape_octets (TypeShape.bits_shape size)) }
    ensures err { OnErr result (out.new.items ≡ out.old.items) }
{
    write_natural(out, BITS, u64::from(size))
}

fn put_int(out: &mut Vec<u8>, size: u8) -> Result<(), AllocError>
    ensures ok { OnOk result
        (out.new.items ≡ out.old.items ++ shape_octets (TypeShape.int_shape size)) }
    ensures err { OnErr result (out.new.items ≡ out.old.items) }
{
    write_natural(out, INT, u64::from(size))
}

fn put_uint(out: &mut Vec<u8>, size: u8) -> Result<(), AllocError>
    ensures ok { OnOk result
        (out.new.items ≡ out.old.items ++ shape_octets (TypeShape.uint_shape size)) }
    ensures err { OnErr result (out.new.items ≡ out.old.items) }
{
    write_natural(out, UINT, u64::from(size))
}

#[tactic(auto, unfolding(crate::specs::Types::ShapeWritten::real_parts_octets, ber_values::specs::Writing::length_octets))]
fn put_real(out: &mut Vec<u8>) -> Result<(), AllocError>
    ensures ok { OnOk result
        (out.new.items ≡ out.old.items ++ shape_octets TypeShape.real_shape) }
    ensures err { OnErr result (out.new.items ≡ out.old.items) }
{
    out.extend_from_slice(&[REAL, 6, INTEGER, 1, 32, INTEGER, 1, 8])
}

fn put_text(out: &mut Vec<u8>, size: u8) -> Result<(), AllocError>
    ensures ok { OnOk result
        (out.new.items ≡ out.old.items ++ shape_octets (TypeShape.text_shape size)) }
    ensures err { OnErr result (out.new.items ≡ out.old.items) }
{
    write_integer(out, TEXT, -i64::from(size))
}
