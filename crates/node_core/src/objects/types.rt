//! The types of the objects that a peer may name (ISO 9506-2, GetVariableAccessAttributes).
ghost use Rattle.std.specs.Prelude.{◌≡◌, map, IfOk, option_map, is_some, true};
ghost use Rattle.mms_data.specs.Types.TypeShape.{structure_shape, shapes_of};
ghost use Rattle.mms_data.specs.Types.ShapeOf.{shape_of_kind};
ghost use Rattle.bilateral.specs.Rows.{place_of_see};
ghost use Rattle.tase_views.specs.OwnTables.{OwnTable, own_point};
ghost use Rattle.tase_views.specs.Objects.{object_named};
ghost use Rattle.tase_views.specs.Objects as objects;
ghost use Rattle.tase_views.specs.Shapes as shapes;
ghost use Rattle.node_core.specs.Objects.Found.{offered, special_object, object_found, IsOfTable};

use super::in_force::InForce;
use super::naming::{Found, Special, find_object};
use bilateral::See;
use mms_data::Name;
use mms_data::types::{Shape, ShapeKind, ShapeList, ShapeTree};
use std::alloc::{AllocError, Global};
use tase_points::{Component, Kind};
use tase_views::types_may_be_told;

/// The type of the object that a name stands for by a table, whether or not the peer may read it;
/// none where it stands for nothing.
pub fn type_of(alloc: Global, table: &InForce<'_>, name: &Name) -> Result<Option<Shape>, AllocError>
    ensures { IfOk result (λ told. told
        ≡ option_map shapes.shape_of (object_named (offered table.now) name.now)) }
{
    types_may_be_told();
    match find_object(table, name) {
        Some(found) => {
            let tree = type_found(alloc, table, found)?;
            Ok(Some(Shape::new(tree)))
        }
        None => Ok(None),
    }
}

/// The type of an object that was found.
fn type_found(alloc: Global, table: &InForce<'_>, found: Found<'_>) -> Result<ShapeTree, AllocError>
    requires { IsOfTable table.now found }
    ensures { IfOk result (λ tree. tree ≡ shapes.shape_of (object_found table.now found.entry)) }
{
    match found {
        Found::Special(special) => special_type(alloc, special),
        Found::NextSlot => set_name_type(alloc),
        Found::Slot(_) => wish_type(alloc),
        Found::SlotStatus(_) => Ok(ShapeTree::new(ShapeKind::Bool)),
        Found::ControlPoint(_) | Found::Selection(_) | Found::Timeout(_) => {
            Ok(ShapeTree::new(ShapeKind::Int(16)))
        }
        Found::DeviceTag(_) => tag_type(alloc),
        Found::Point(see) => see_type(alloc, table, see),
    }
}

/// The type of a row's point, as the peer is shown it.
fn see_type(alloc: Global, table: &InForce<'_>, see: &See) -> Result<ShapeTree, AllocError>
    requires { is_some (place_of_see table.now.table see.now.point) ≡ true }
    ensures { IfOk result (λ tree. tree
        ≡ shapes.point_shape (own_point table.now.rows see.now)) }
{
    let _lawful = table.table();
    layout_type(alloc, table.point(see.point).kind, see.layout.as_slice())
}

/// The type of an object of the protocol itself.
fn special_type(alloc: Global, special: Special) -> Result<ShapeTree, AllocError>
    ensures { (table : OwnTable) → IfOk result (λ tree. tree
        ≡ shapes.shape_of (special_object table special)) }
{
    match special {
        Special::Version => version_type(alloc),
        Special::Features => Ok(ShapeTree::new(ShapeKind::Bits(12))),
        Special::TableId => Ok(ShapeTree::new(ShapeKind::Text(64))),
        Special::SetName => set_name_type(alloc),
        Special::TimeStamp => Ok(ShapeTree::new(ShapeKind::Int(32))),
        Special::Conditions => Ok(ShapeTree::new(ShapeKind::Bits(5))),
        Special::EventCode => Ok(ShapeTree::new(ShapeKind::Int(16))),
    }
}

/// The type of the components of a layout, of a point of a kind: one stands bare.
fn layout_type(alloc: Global, kind: Kind, layout: &[Component]) -> Result<ShapeTree, AllocError>
    ensures { IfOk result (λ tree. tree ≡ shapes.layout_shape kind layout.now) }
{
    match layout {
        [component] => Ok(component_type(kind, *component)),
        components => Ok(structure(component_types(alloc, kind, components)?)),
    }
}

/// The types of several components, one after another.
fn component_types(
    alloc: Global,
    kind: Kind,
    components: &[Component],
) -> Result<ShapeList, AllocError>
    ensures { IfOk result (λ list. list ≡ map (shapes.component_shape kind) components.now) }
{
    let mut list = ShapeList::new(alloc);
    for component in components {
        list.push(component_type(kind, *component))?;
    }
    Ok(list)
}

/// The type of one component.
fn component_type(kind: Kind, component: Component) -> ShapeTree
    ensures { result ≡ shapes.component_shape kind component }
{
    ShapeTree::new(match component {
        Component::Value => body_type(kind),
        Component::Time => ShapeKind::Int(32),
        Component::Millis => ShapeKind::Int(16),
        Component::Flags => ShapeKind::Bits(8),
        Component::Cov => ShapeKind::Uint(16),
    })
}

/// The type of a body.
fn body_type(kind: Kind) -> ShapeKind
    ensures { shape_of_kind result ≡ shapes.body_shape kind }
{
    match kind {
        Kind::State => ShapeKind::Bits(8),
        Kind::Discrete => ShapeKind::Int(32),
        Kind::Real => ShapeKind::Real,
    }
}

/// A structure of these components.
fn structure(parts: ShapeList) -> ShapeTree
    ensures { result ≡ structure_shape (shapes_of parts) }
{
    ShapeTree::new(ShapeKind::Structure(parts))
}

/// The type of a name as data: scope, domain, item.
fn set_name_type(alloc: Global) -> Result<ShapeTree, AllocError>
    ensures { IfOk result (λ tree. tree ≡ shapes.set_name_shape) }
{
    let mut parts = ShapeList::new(alloc);
    parts.push(ShapeTree::new(ShapeKind::Int(8)))?;
    parts.push(ShapeTree::new(ShapeKind::Text(64)))?;
    parts.push(ShapeTree::new(ShapeKind::Text(64)))?;
    Ok(structure(parts))
}

/// The type of a tag as data: two bits and the reason.
fn tag_type(alloc: Global) -> Result<ShapeTree, AllocError>
    ensures { IfOk result (λ tree. tree ≡ shapes.tag_shape) }
{
    let mut parts = ShapeList::new(alloc);
    parts.push(ShapeTree::new(ShapeKind::Bits(2)))?;
    parts.push(ShapeTree::new(ShapeKind::Text(64)))?;
    Ok(structure(parts))
}

/// The type of the protocol's version: two integers.
fn version_type(alloc: Global) -> Result<ShapeTree, AllocError>
    ensures { IfOk result (λ tree. tree ≡ objects.version_shape) }
{
    let mut parts = ShapeList::new(alloc);
    parts.push(ShapeTree::new(ShapeKind::Int(16)))?;
    parts.push(ShapeTree::new(ShapeKind::Int(16)))?;
    Ok(structure(parts))
}

/// The type of a transfer set's parameters: the data set's name, five integers, the conditions,
/// five truth values, and the event's code.
fn wish_type(alloc: Global) -> Result<ShapeTree, AllocError>
    ensures { IfOk result (λ tree. tree ≡ shapes.wish_shape) }
{
    let mut parts = ShapeList::new(alloc);
    parts.push(set_name_type(alloc)?)?;
    parts.push(ShapeTree::new(ShapeKind::Int(32)))?;
    parts.push(ShapeTree::new(ShapeKind::Int(32)))?;
    parts.push(ShapeTree::new(ShapeKind::Int(32)))?;
    parts.push(ShapeTree::new(ShapeKind::Int(32)))?;
    parts.push(ShapeTree::new(ShapeKind::Int(32)))?;
    parts.push(ShapeTree::new(ShapeKind::Bits(5)))?;
    parts.push(ShapeTree::new(ShapeKind::Bool))?;
    parts.push(ShapeTree::new(ShapeKind::Bool))?;
    parts.push(ShapeTree::new(ShapeKind::Bool))?;
    parts.push(ShapeTree::new(ShapeKind::Bool))?;
    parts.push(ShapeTree::new(ShapeKind::Bool))?;
    parts.push(ShapeTree::new(ShapeKind::Int(16)))?;
    Ok(structure(parts))
}
