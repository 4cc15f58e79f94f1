//! Types of variables (ISO 9506-2, `TypeSpecification`, in the profile of this project), their
//! octets and their texts.

mod laws;
mod octets;
mod passing;
mod same;
mod spelling;
mod tree;

pub use laws::{shapes_have_one_reading, shapes_have_texts, written_shapes_are_read};
pub use octets::{shape_from, shape_len, take_shape, write_shape};
pub use passing::pass_once;
pub use spelling::spell_shape;
pub use tree::{Shape, ShapeKind, ShapeList, ShapeTree};
