//! Copies of the types of variables.
ghost use Rattle.std.specs.Prelude.{◌≡◌, IfOk};

use mms_data::types::{Shape, ShapeKind, ShapeList, ShapeTree};
use std::alloc::{AllocError, Global};

/// The same type.
pub(crate) fn shape_of(alloc: Global, shape: &Shape) -> Result<Shape, AllocError>
    ensures { IfOk result (λ copy. copy ≡ shape.now) }
{
    let tree = tree_of(alloc, shape.tree())?;
    Ok(Shape::new(tree))
}

#[cycle(trees)]
fn tree_of(alloc: Global, tree: &ShapeTree) -> Result<ShapeTree, AllocError>
    ensures { IfOk result (λ copy. copy ≡ tree.now) }
{
    match tree.kind() {
        ShapeKind::Bool => Ok(ShapeTree::new(ShapeKind::Bool)),
        ShapeKind::Bits(size) => Ok(ShapeTree::new(ShapeKind::Bits(*size))),
        ShapeKind::Int(size) => Ok(ShapeTree::new(ShapeKind::Int(*size))),
        ShapeKind::Uint(size) => Ok(ShapeTree::new(ShapeKind::Uint(*size))),
        ShapeKind::Real => Ok(ShapeTree::new(ShapeKind::Real)),
        ShapeKind::Text(size) => Ok(ShapeTree::new(ShapeKind::Text(*size))),
        ShapeKind::Structure(components) => {
            let copies = components_of(alloc, components)?;
            Ok(ShapeTree::new(ShapeKind::Structure(copies)))
        }
    }
}

#[cycle(trees)]
fn components_of(alloc: Global, components: &ShapeList) -> Result<ShapeList, AllocError>
    ensures { IfOk result (λ copies. copies ≡ components.now) }
{
    let mut copies = ShapeList::new(alloc);
    for component in components.as_slice() {
        copies.push(tree_of(alloc, component)?)?;
    }
    Ok(copies)
}
