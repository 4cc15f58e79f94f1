ghost use Rattle.std.specs.Prelude.{◌≡◌, IfOk, IfSome};
ghost use Rattle.plain_text.specs.Words.{words};
ghost use Rattle.bilateral.specs.Lines.{line_in, line_told_by, point_line, peer_line, IsLawfulLine};
ghost use Rattle.bilateral.specs.Lines.{table_told_by, variant_line};

use crate::device_line::{read_control, read_device};
use crate::limit_line::{read_pending, read_sets, read_slots};
use crate::rows::{
    Controls, DeviceRow, PENDING_DEFAULT, PointRow, SET_DEFAULT, SLOT_DEFAULT, Sees, Table,
};
use crate::see_line::read_see;
use crate::words::{is_identifier, is_name, read_kind, read_title, visible_word};
use ber_values::Visible;
use plain_text::{four_words, is_spaced, next_word, three_words, two_words};
use std::alloc::{AllocError, Global};
use tase_points::Layout;

/// What one line of a table text says.
#[derive(Debug, Drop)]
pub enum TableLine {
    /// `point NAME KIND`.
    Point(PointRow),
    /// `device NAME COMMAND sbo CHECKBACK MS` or `device NAME COMMAND direct`. A span below 0
    /// counts as 0.
    Device(DeviceRow),
    /// `peer KEY TITLE DOMAIN ID`: a table without rows.
    Peer(Table),
    /// `variant KEY DOMAIN ID`: a further table of the peer with this key, without rows.
    Variant {
        key: Visible,
        domain: Visible,
        id: Visible,
    },
    /// `slots N`, without a number past the limit.
    Slots(Option<u32>),
    /// `sets N`, without a number past the limit.
    Sets(Option<u32>),
    /// `pending N`, without a number past the limit.
    Pending(Option<u64>),
    /// `see NAME SCOPE LAYOUT`, without a layout where a component stands twice.
    See {
        name: Visible,
        vmd: bool,
        layout: Option<Layout>,
    },
    /// `control NAME` or `control NAME tag`.
    Control {
        name: Visible,
        tag: bool,
    },
}

/// Reads a line, or answers `None` where it is none of the forms.
pub fn read_line(alloc: Global, line: &[u8]) -> Result<Option<TableLine>, AllocError>
    ensures value { IfOk result (λ said. said ≡ line_in line.now) }
    ensures lawful { IfOk result (λ said. IfSome said IsLawfulLine) }
{
    if !is_spaced(line) {
        return Ok(None);
    }
    let Some((first, more)) = next_word(line) else {
        return Ok(None);
    };
    read_form(alloc, first, more)
}

/// A line by its first word.
fn read_form(alloc: Global, first: &[u8], more: &[u8]) -> Result<Option<TableLine>, AllocError>
    ensures value { IfOk result (λ said. said ≡ line_told_by first.now (words more.now)) }
    ensures lawful { IfOk result (λ said. IfSome said IsLawfulLine) }
{
    if first == b"point".as_slice() {
        read_point(alloc, more)
    } else if first == b"device".as_slice() {
        read_device(alloc, more)
    } else if first == b"peer".as_slice() {
        read_peer(alloc, more)
    } else if first == b"variant".as_slice() {
        read_variant(alloc, more)
    } else {
        read_table_form(alloc, first, more)
    }
}

/// A line of a table, by its first word.
fn read_table_form(
    alloc: Global,
    first: &[u8],
    more: &[u8],
) -> Result<Option<TableLine>, AllocError>
    ensures value { IfOk result (λ said. said ≡ table_told_by first.now (words more.now)) }
    ensures lawful { IfOk result (λ said. IfSome said IsLawfulLine) }
{
    if first == b"see".as_slice() {
        read_see(alloc, more)
    } else if first == b"control".as_slice() {
        read_control(alloc, more)
    } else if first == b"slots".as_slice() {
        Ok(read_slots(more))
    } else if first == b"sets".as_slice() {
        Ok(read_sets(more))
    } else if first == b"pending".as_slice() {
        Ok(read_pending(more))
    } else {
        Ok(None)
    }
}

/// `NAME KIND`.
fn read_point(alloc: Global, text: &[u8]) -> Result<Option<TableLine>, AllocError>
    ensures value { IfOk result (λ said. said ≡ point_line (words text.now)) }
    ensures lawful { IfOk result (λ said. IfSome said IsLawfulLine) }
{
    let Some((name, kind)) = two_words(text) else {
        return Ok(None);
    };
    if !is_name(name) {
        return Ok(None);
    }
    let Some(kind) = read_kind(kind) else {
        return Ok(None);
    };
    let name = visible_word(alloc, name)?;
    Ok(Some(TableLine::Point(PointRow { name, kind })))
}

/// `KEY TITLE DOMAIN ID`.
fn read_peer(alloc: Global, text: &[u8]) -> Result<Option<TableLine>, AllocError>
    ensures value { IfOk result (λ said. said ≡ peer_line (words text.now)) }
    ensures lawful { IfOk result (λ said. IfSome said IsLawfulLine) }
{
    let Some((key, title, domain, id)) = four_words(text) else {
        return Ok(None);
    };
    if !is_identifier(key) || !is_identifier(domain) || !is_identifier(id) {
        return Ok(None);
    }
    let Some(title) = read_title(alloc, title)? else {
        return Ok(None);
    };
    let table = Table {
        key: visible_word(alloc, key)?,
        title,
        domain: visible_word(alloc, domain)?,
        id: visible_word(alloc, id)?,
        sees: Sees::new(alloc),
        controls: Controls::new(alloc),
        slots: SLOT_DEFAULT,
        sets: SET_DEFAULT,
        pending: PENDING_DEFAULT,
    };
    Ok(Some(TableLine::Peer(table)))
}

/// `KEY DOMAIN ID`.
fn read_variant(alloc: Global, text: &[u8]) -> Result<Option<TableLine>, AllocError>
    ensures value { IfOk result (λ said. said ≡ variant_line (words text.now)) }
    ensures lawful { IfOk result (λ said. IfSome said IsLawfulLine) }
{
    let Some((key, domain, id)) = three_words(text) else {
        return Ok(None);
    };
    if !is_identifier(key) || !is_identifier(domain) || !is_identifier(id) {
        return Ok(None);
    }
    let key = visible_word(alloc, key)?;
    let domain = visible_word(alloc, domain)?;
    let id = visible_word(alloc, id)?;
    Ok(Some(TableLine::Variant { key, domain, id }))
}
