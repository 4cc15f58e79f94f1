//! The text of a type, written.
ghost use Rattle.std.specs.Prelude.{◌≡◌, ◌++◌, codes, decimal, OnOk, OnErr};
ghost use Rattle.plain_text.specs.Extends.{Extends};
ghost use Rattle.mms_data.specs.Types.TypeShape.{shapes_of};
ghost use Rattle.mms_data.specs.Types.ShapeTexts.{shape_text, components_text};

use super::tree::{Shape, ShapeKind, ShapeList, ShapeTree};
use ber_values::or_undo;
use plain_text::push_decimal;
use std::alloc::AllocError;

/// Appends a type as text: a word for its kind and its number, or its components in braces. After
/// want of memory `out` is as before.
pub fn spell_shape(out: &mut Vec<u8>, shape: &Shape) -> Result<(), AllocError>
    ensures ok { OnOk result (out.new.items ≡ out.old.items ++ shape_text shape.now) }
    ensures err { OnErr result (out.new.items ≡ out.old.items) }
{
    let before = out.len();
    let spelled = spell(out, shape.tree());
    or_undo(out, before, spelled)
}

#[cycle(depth)]
fn spell(out: &mut Vec<u8>, tree: &ShapeTree) -> Result<(), AllocError>
    ensures ok { OnOk result (out.new.items ≡ out.old.items ++ shape_text tree.now) }
    ensures err { OnErr result (Extends out.old.items out.new.items) }
{
    match tree.kind() {
        ShapeKind::Bool => out.extend_from_slice(b"bool"),
        ShapeKind::Bits(size) => spell_sized(out, b"bits", *size),
        ShapeKind::Int(size) => spell_sized(out, b"int", *size),
        ShapeKind::Uint(size) => spell_sized(out, b"uint", *size),
        ShapeKind::Real => out.extend_from_slice(b"real"),
        ShapeKind::Text(size) => spell_sized(out, b"text", *size),
        ShapeKind::Structure(components) => {
            out.push(b'{')?;
            spell_components(out, components)?;
            out.push(b'}')?;
            Ok(())
        }
    }
}

#[cycle(depth)]
#[tactic(auto, using(crate::proofs::OfTypes::ShapesSpelled::spelled_components))]
fn spell_components(out: &mut Vec<u8>, components: &ShapeList) -> Result<(), AllocError>
    ensures ok { OnOk result
        (out.new.items ≡ out.old.items ++ components_text (shapes_of components.now)) }
    ensures err { OnErr result (Extends out.old.items out.new.items) }
{
    for (index, component) in components.as_slice().iter().enumerate() {
        if index > 0 {
            out.push(b',')?;
        }
        spell(out, component)?;
    }
    Ok(())
}

/// A word, and a number behind it.
fn spell_sized(out: &mut Vec<u8>, word: &[u8], size: u8) -> Result<(), AllocError>
    ensures ok { OnOk result (out.new.items ≡ out.old.items ++ (word.now ++ decimal size)) }
    ensures err { OnErr result (Extends out.old.items out.new.items) }
{
    out.extend_from_slice(word)?;
    push_decimal(out, u64::from(size))
}
