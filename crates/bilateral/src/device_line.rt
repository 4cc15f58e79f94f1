//! `device NAME COMMAND ..` and `control NAME`: devices of the centre and of a table.
ghost use Rattle.std.specs.Prelude.{◌≡◌, IfOk, IfSome};
ghost use Rattle.plain_text.specs.Words.{words};
ghost use Rattle.bilateral.specs.Lines.{device_line, control_line, tag_word_in, IsLawfulLine};

use crate::line::TableLine;
use crate::rows::DeviceRow;
use crate::words::{is_name, read_device_form, visible_word};
use plain_text::next_word;
use std::alloc::{AllocError, Global};

/// `NAME COMMAND sbo CHECKBACK MS` or `NAME COMMAND direct`.
pub fn read_device(alloc: Global, text: &[u8]) -> Result<Option<TableLine>, AllocError>
    ensures value { IfOk result (λ said. said ≡ device_line (words text.now)) }
    ensures lawful { IfOk result (λ said. IfSome said IsLawfulLine) }
{
    let Some((name, more)) = next_word(text) else {
        return Ok(None);
    };
    if !is_name(name) {
        return Ok(None);
    }
    let Some(form) = read_device_form(more) else {
        return Ok(None);
    };
    let row = DeviceRow {
        name: visible_word(alloc, name)?,
        kind: form.kind,
        direct: form.direct,
        checkback: form.checkback,
        span: form.span,
    };
    Ok(Some(TableLine::Device(row)))
}

/// `NAME` or `NAME tag`.
pub fn read_control(alloc: Global, text: &[u8]) -> Result<Option<TableLine>, AllocError>
    ensures value { IfOk result (λ said. said ≡ control_line (words text.now)) }
    ensures lawful { IfOk result (λ said. IfSome said IsLawfulLine) }
{
    let Some((name, more)) = next_word(text) else {
        return Ok(None);
    };
    if !is_name(name) {
        return Ok(None);
    }
    let Some(tag) = read_tag(more) else {
        return Ok(None);
    };
    let name = visible_word(alloc, name)?;
    Ok(Some(TableLine::Control { name, tag }))
}

/// Nothing, or `tag`.
fn read_tag(text: &[u8]) -> Option<bool>
    ensures { result ≡ tag_word_in (words text.now) }
{
    let Some((word, more)) = next_word(text) else {
        return Some(false);
    };
    if word != b"tag".as_slice() || next_word(more).is_some() {
        return None;
    }
    Some(true)
}
