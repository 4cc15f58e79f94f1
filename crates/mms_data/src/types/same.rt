//! Whether two types are one.
ghost use Rattle.std.specs.Prelude.{◌≡◌};
ghost use Rattle.mms_data.specs.Types.TypeShape.{TypeShape, shapes_of};
ghost use Rattle.mms_data.specs.Types.SameShape.{same_shape, same_shapes};

use super::tree::{ShapeKind, ShapeList, ShapeTree};

/// Whether two types are one.
#[cycle(same)]
pub(super) fn same_tree(one: &ShapeTree, other: &ShapeTree) -> bool
    ensures { result ≡ same_shape one.now other.now }
{
    match one.kind() {
        ShapeKind::Bool => is_bool(other),
        ShapeKind::Bits(size) => is_bits(other, *size),
        ShapeKind::Int(size) => is_int(other, *size),
        ShapeKind::Uint(size) => is_uint(other, *size),
        ShapeKind::Real => is_real(other),
        ShapeKind::Text(size) => is_text(other, *size),
        ShapeKind::Structure(components) => is_structure(other, components),
    }
}

#[cycle(same)]
fn is_structure(tree: &ShapeTree, components: &ShapeList) -> bool
    ensures { result
        ≡ same_shape (TypeShape.structure_shape (shapes_of components.now)) tree.now }
{
    match tree.kind() {
        ShapeKind::Structure(own) => same_components(components, own),
        _ => false,
    }
}

#[cycle(same)]
fn same_components(one: &ShapeList, other: &ShapeList) -> bool
    ensures { result ≡ same_shapes (shapes_of one.now) (shapes_of other.now) }
{
    let ones = one.as_slice();
    let others = other.as_slice();
    if ones.len() != others.len() {
        return false;
    }
    for (index, tree) in ones.iter().enumerate() {
        if !same_tree(tree, &others[index]) {
            return false;
        }
    }
    true
}

fn is_bool(tree: &ShapeTree) -> bool
    ensures { result ≡ same_shape TypeShape.bool_shape tree.now }
{
    match tree.kind() {
        ShapeKind::Bool => true,
        _ => false,
    }
}

fn is_bits(tree: &ShapeTree, size: u8) -> bool
    ensures { result ≡ same_shape (TypeShape.bits_shape size) tree.now }
{
    match tree.kind() {
        ShapeKind::Bits(own) => size == *own,
        _ => false,
    }
}

fn is_int(tree: &ShapeTree, size: u8) -> bool
    ensures { result ≡ same_shape (TypeShape.int_shape size) tree.now }
{
    match tree.kind() {
        ShapeKind::Int(own) => size == *own,
        _ => false,
    }
}

fn is_uint(tree: &ShapeTree, size: u8) -> bool
    ensures { result ≡ same_shape (TypeShape.uint_shape size) tree.now }
{
    match tree.kind() {
        ShapeKind::Uint(own) => size == *own,
        _ => false,
    }
}

fn is_real(tree: &ShapeTree) -> bool
    ensures { result ≡ same_shape TypeShape.real_shape tree.now }
{
    match tree.kind() {
        ShapeKind::Real => true,
        _ => false,
    }
}

fn is_text(tree: &ShapeTree, size: u8) -> bool
    ensures { result ≡ same_shape (TypeShape.text_shape size) tree.now }
{
    match tree.kind() {
        ShapeKind::Text(own) => size == *own,
        _ => false,
    }
}
