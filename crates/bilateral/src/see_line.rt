//! `see NAME SCOPE LAYOUT`: a row of a table for a point.
ghost use Rattle.std.specs.Prelude.{◌≡◌, IfOk, IfSome};
ghost use Rattle.plain_text.specs.Words.{words};
ghost use Rattle.bilateral.specs.Lines.{see_line, IsLawfulLine};

use crate::line::TableLine;
use crate::words::{LayoutWhy, is_name, read_layout, read_scope, visible_word};
use plain_text::three_words;
use std::alloc::{AllocError, Global};

/// `NAME SCOPE LAYOUT`.
pub fn read_see(alloc: Global, text: &[u8]) -> Result<Option<TableLine>, AllocError>
    ensures value { IfOk result (λ said. said ≡ see_line (words text.now)) }
    ensures lawful { IfOk result (λ said. IfSome said IsLawfulLine) }
{
    let Some((name, scope, layout)) = three_words(text) else {
        return Ok(None);
    };
    if !is_name(name) {
        return Ok(None);
    }
    let Some(vmd) = read_scope(scope) else {
        return Ok(None);
    };
    let layout = match read_layout(alloc, layout)? {
        Ok(layout) => Some(layout),
        Err(LayoutWhy::Twice) => None,
        Err(LayoutWhy::Part) => return Ok(None),
    };
    let name = visible_word(alloc, name)?;
    Ok(Some(TableLine::See { name, vmd, layout }))
}
