//! Layouts: components joined by commas.
ghost use Rattle.std.specs.Prelude.{◌≡◌, ◌==◌, ◌<◌, length, IfOk, IfSome};
ghost use Rattle.std.specs.Option.{option_map};
ghost use Rattle.std.specs.List.{list_any, slice_split};
ghost use Rattle.plain_text.specs.Words.{each_in};
ghost use Rattle.tase_points.specs.Layouts.{IsLayout};
ghost use Rattle.tase_points.specs.Same.{same_component};
ghost use Rattle.bilateral.specs.Words.Words.{layout_in, component_in};
ghost use Rattle.bilateral.specs.Words.Words as own;

use crate::words::words::read_component;
use plain_text::next_part;
use std::alloc::{AllocError, Global};
use tase_points::{Component, Layout};

/// Why a word is no layout.
#[derive(Clone, Copy, Debug, PartialEq, Eq)]
pub enum LayoutWhy {
    /// A part that names no component.
    Part,
    /// A component that stands twice.
    Twice,
}

/// Reads a layout: components joined by commas.
pub fn read_layout(alloc: Global, word: &[u8]) -> Result<Result<Layout, LayoutWhy>, AllocError>
    ensures value { IfOk result (λ layout. layout ≡ layout_in word.now) }
    ensures lawful { IfOk result (λ layout. IfOk layout IsLayout) }
{
    let Some(components) = read_components(alloc, word)? else {
        return Ok(Err(LayoutWhy::Part));
    };
    if is_distinct(components.as_slice()) {
        Ok(Ok(Layout::new(components)))
    } else {
        Ok(Err(LayoutWhy::Twice))
    }
}

/// The components that a word is, joined by commas.
fn read_components(alloc: Global, word: &[u8]) -> Result<Option<Vec<Component>>, AllocError>
    ensures value { IfOk result
        (λ components. option_map (λ c. c.items) components
        ≡ each_in component_in (slice_split (λ octet. octet == 44) word.now)) }
    ensures nonempty { IfOk result (λ components. IfSome components (λ c. 0 < length c.items)) }
{
    let mut components = Vec::new(alloc);
    let mut rest = Some(word);
    while let Some(text) = rest {
        let (part, more) = next_part(text, b',');
        let Some(component) = read_component(part) else {
            return Ok(None);
        };
        components.push(component)?;
        rest = more;
    }
    Ok(Some(components))
}

/// Whether no component stands twice.
fn is_distinct(components: &[Component]) -> bool
    ensures { result ≡ own.is_distinct components.now }
{
    for (i, component) in components.iter().enumerate() {
        if contains(&components[..i], *component) {
            return false;
        }
    }
    true
}

fn contains(components: &[Component], wanted: Component) -> bool
    ensures { result ≡ list_any (λ other. same_component other wanted) components.now }
{
    components.iter().any(|other| other.is_same(wanted))
}
