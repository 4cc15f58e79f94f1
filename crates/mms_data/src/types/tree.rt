//! The type of a variable as a value.
ghost use Rattle.std.specs.Prelude.{◌≡◌, [], ◌∷◌, ◌++◌, OnOk, OnErr};

use super::same::same_tree;
use std::alloc::{AllocError, Global};
use std::marker::Model;

/// The type of a variable, or of a component of one: a [`ShapeKind`] that contracts see as a shape.
#[cycle(shapes)]
#[derive(Debug, Drop)]
pub struct ShapeTree {
    kind: ShapeKind,
}

/// What the values of a variable are. Structures have components, which have types again.
#[cycle(shapes)]
#[derive(Debug, Drop)]
pub enum ShapeKind {
    /// Truth values.
    Bool,
    /// Bit strings of so many bits.
    Bits(u8),
    /// Integers of so many bits.
    Int(u8),
    /// Integers of so many bits, none below zero.
    Uint(u8),
    /// Floating-point numbers of 32 bits.
    Real,
    /// Visible texts of at most so many octets.
    Text(u8),
    /// A value of each of these types, in order.
    Structure(ShapeList),
}

/// The types of the components of a structure.
#[cycle(shapes)]
#[derive(Debug, Drop)]
pub struct ShapeList {
    items: Vec<ShapeTree>,
}

impl Model for ShapeTree {
    ghost use Rattle.std.specs.Prelude.{ℕ, ◌*◌};
    ghost use Rattle.mms_data.specs.Types.TypeShape.{TypeShape, shape_depth};
    ghost use Rattle.mms_data.specs.Types.ShapeCode.{shape_code};

    ghost Value = { TypeShape };

    ghost coded = { shape_code };

    ghost use Rattle.mms_data.specs.Types.ShapeOf.{shape_of_kind};

    ghost view = { λ tree. shape_of_kind tree.kind };

    ghost size = { λ tree. 2 * shape_depth tree };

    ghost use Rattle.mms_data.specs.Types.ShapeKindFalls.{deep_le-shape_depth};

    ghost size_decreases = { λ tree h. deep_le-shape_depth tree.kind };
}

impl Model for ShapeList {
    ghost use Rattle.std.specs.Prelude.{ℕ, ◌+◌, ◌*◌, List};
    ghost use Rattle.std.specs.Coded.{coded_list};
    ghost use Rattle.std.proofs.Common.{arith};
    ghost use Rattle.mms_data.specs.Types.TypeShape.{TypeShape, deepest_shape, shapes_of};
    ghost use Rattle.mms_data.specs.Types.ShapeCode.{shape_code};
    ghost use Rattle.mms_data.specs.Types.ShapeFalls.{most_le-deepest_shape};

    ghost Value = { List TypeShape };

    ghost coded = { coded_list shape_code };

    ghost view = { λ list. list.items.items };

    ghost size = { λ list. 2 * deepest_shape (shapes_of list) + 1 };

    ghost size_decreases = { λ list h. omega (arith, most_le-deepest_shape list.items.items) };
}

impl ShapeTree {
    ghost use Rattle.mms_data.specs.Types.ShapeOf.{shape_of_kind};

    /// The type of this kind.
    pub fn new(kind: ShapeKind) -> Self
        ensures { result ≡ shape_of_kind kind }
    {
        ShapeTree { kind }
    }

    /// What the values are.
    pub fn kind(&self) -> &ShapeKind
        ensures { self.now ≡ shape_of_kind result.now }
    {
        &self.kind
    }
}

impl ShapeList {
    /// No components.
    pub fn new(alloc: Global) -> Self
        ensures { result ≡ [] }
    {
        ShapeList {
            items: Vec::new(alloc),
        }
    }

    /// Adds the type of a component at the end.
    pub fn push(&mut self, tree: ShapeTree) -> Result<(), AllocError>
        ensures ok { OnOk result (self.new ≡ self.old ++ tree ∷ []) }
        ensures err { OnErr result (self.new ≡ self.old) }
    {
        self.items.push(tree)?;
        Ok(())
    }

    /// The types of the components.
    pub fn as_slice(&self) -> &[ShapeTree]
        ensures { result.now ≡ self.now }
    {
        self.items.as_slice()
    }
}

/// The type of a variable that a peer may be told: of at most [`MOST_DEPTH`](crate::MOST_DEPTH)
/// levels, each number of bits and of octets 1 to 255.
#[derive(Debug, Drop)]
pub struct Shape {
    tree: ShapeTree,
}

impl Model for Shape {
    ghost use Rattle.mms_data.specs.Types.TypeShape.{TypeShape, IsTypeShape};

    ghost Value = { TypeShape };

    ghost use Rattle.mms_data.specs.Types.ShapeCode.{shape_code};

    ghost coded = { shape_code };

    ghost view = { λ shape. shape.tree };

    ghost invariant = { λ shape. IsTypeShape shape.tree };
}

impl Shape {
    ghost use Rattle.mms_data.specs.Types.TypeShape.{IsTypeShape};

    /// The type of this structure or of this kind, which takes no memory.
    pub fn new(tree: ShapeTree) -> Self
        requires { IsTypeShape tree }
        ensures { result ≡ tree }
    {
        Shape { tree }
    }

    /// The type.
    pub fn tree(&self) -> &ShapeTree
        ensures value { result.now ≡ self.now }
        ensures lawful { IsTypeShape self.now }
    {
        &self.tree
    }
}

impl PartialEq for Shape {
    ghost use Rattle.std.specs.Prelude.{◌↔◌, IsTrue};
    ghost use Rattle.std.specs.Cmp.{partial_equiv_from_equiv};
    ghost use Rattle.mms_data.specs.Types.SameShape.{same_shape, same_shape-IsEquivalence};

    ghost eq = { same_shape };

    ghost laws = { partial_equiv_from_equiv same_shape-IsEquivalence };

    fn eq(&self, other: &Shape) -> bool
        ensures value { result ≡ same_shape self.now other.now }
        ensures same { IsTrue result ↔ (self.now ≡ other.now) }
    {
        same_tree(&self.tree, &other.tree)
    }
}

impl Eq for Shape {
    ghost use Rattle.mms_data.specs.Types.SameShape.{same_shape-IsEquivalence};

    ghost laws = { same_shape-IsEquivalence };
}
