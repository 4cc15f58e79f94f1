//! What is printed of a case that failed.

use crate::cutting::{Cut, is_line_end};
use crate::playing::Played;
use crate::text::{BadLine, Case, Device, Failing, Wanted};
use plain_text::push_decimal;
use std::alloc::{AllocError, Global};

/// How a case was played when it failed.
#[derive(Clone, Copy)]
pub(crate) enum Manner<'a> {
    AsItStands,
    Cut(Cut),
    /// With this call failing too.
    Failing(&'a Failing),
}

fn push(out: &mut Vec<u8>, text: &str) -> Result<(), AllocError> {
    out.extend_from_slice(text.as_bytes())
}

// Appends a number between two texts.
fn push_number(
    out: &mut Vec<u8>,
    front: &str,
    number: u64,
    behind: &str,
) -> Result<(), AllocError> {
    push(out, front)?;
    push_decimal(out, number)?;
    push(out, behind)
}

fn push_line(out: &mut Vec<u8>, line: Option<&[u8]>) -> Result<(), AllocError> {
    match line {
        Some(line) => {
            push(out, "`")?;
            out.extend_from_slice(line)?;
            push(out, "`")
        }
        None => push(out, "none"),
    }
}

// Appends the number of a line in which two texts differ, and this line of both.
fn push_difference(
    out: &mut Vec<u8>,
    number: u64,
    wanted: Option<&[u8]>,
    came: Option<&[u8]>,
) -> Result<(), AllocError> {
    push_number(out, "; line ", number, " wanted ")?;
    push_line(out, wanted)?;
    push(out, ", came ")?;
    push_line(out, came)
}

// Appends the first line in which two texts differ, if they do.
fn push_shown(out: &mut Vec<u8>, wanted: &[u8], came: &[u8]) -> Result<(), AllocError> {
    let mut lines = wanted.split(is_line_end);
    let mut number = 1u64;
    for came in came.split(is_line_end) {
        let wanted = lines.next();
        if wanted != Some(came) {
            return push_difference(out, number, wanted, Some(came));
        }
        number = number.saturating_add(1);
    }
    match lines.next() {
        Some(wanted) => push_difference(out, number, Some(wanted), None),
        None => Ok(()),
    }
}

// Appends what differs in what was printed.
fn push_printed(out: &mut Vec<u8>, wanted: &Wanted, shown: &[u8]) -> Result<(), AllocError> {
    match wanted {
        Wanted::Octets(octets) => push_shown(out, octets, shown),
        Wanted::Any => Ok(()),
        Wanted::Count(count) => {
            push_number(out, "; ", *count, " octets wanted, ")?;
            push_number(out, "", shown.len() as u64, " came")
        }
    }
}

// Appends whether the links did what they must.
fn push_links(out: &mut Vec<u8>, played: &Played) -> Result<(), AllocError> {
    if !played.told.is_whole {
        push(out, "; a node took other octets")?;
    }
    if !played.have_met {
        push(out, "; the links didn't meet")?;
    }
    Ok(())
}

// Appends what differs in a file, if it took something else than it must.
fn push_file(out: &mut Vec<u8>, name: &str, wanted: &[u8], came: &[u8]) -> Result<(), AllocError> {
    if wanted == came {
        return Ok(());
    }
    push(out, "; file ")?;
    push(out, name)?;
    push_shown(out, wanted, came)
}

// Appends the files that took something else than they must.
fn push_files(out: &mut Vec<u8>, case: &Case, played: &Played) -> Result<(), AllocError> {
    for file in &case.files {
        if let Some(octets) = &file.octets {
            push_file(out, &file.name, octets, played.file(&file.name))?;
        }
    }
    Ok(())
}

fn push_played(out: &mut Vec<u8>, case: &Case, played: &Played) -> Result<(), AllocError> {
    push_number(out, "status ", case.status, " wanted, ")?;
    push_number(out, "", played.status, " came")?;
    push_printed(out, &case.wanted, played.shown())?;
    push_links(out, played)?;
    push_files(out, case, played)
}

// The word by which a case says that a call of this fails.
fn word_of(device: Device) -> &'static str {
    match device {
        Device::Read => "read",
        Device::Write => "write",
        Device::Recv => "recv",
        Device::Send => "send",
        Device::Accept => "accept",
        Device::Clock => "clock",
        Device::Start => "start",
    }
}

fn push_failing(out: &mut Vec<u8>, failing: &Failing) -> Result<(), AllocError> {
    push_number(out, "with call ", failing.number, " of ")?;
    push(out, word_of(failing.device))?;
    push(out, " ")?;
    push(out, &failing.name)?;
    push(out, " failing: ")
}

fn push_manner(out: &mut Vec<u8>, manner: Manner<'_>) -> Result<(), AllocError> {
    match manner {
        Manner::AsItStands => Ok(()),
        Manner::Cut(Cut::Everywhere) => push(out, "cut everywhere: "),
        Manner::Cut(Cut::At(place)) => push_number(out, "cut at place ", place, ": "),
        Manner::Failing(failing) => push_failing(out, failing),
    }
}

// Appends the file and the title of a case.
fn push_front(out: &mut Vec<u8>, case: &Case) -> Result<(), AllocError> {
    push(out, &case.file)?;
    push(out, ": ")?;
    push(out, &case.title)?;
    push(out, ": ")
}

/// The line of a case that came to this where it was played in this manner.
pub(crate) fn failure_line(
    alloc: Global,
    case: &Case,
    manner: Manner<'_>,
    played: &Played,
) -> Result<Vec<u8>, AllocError> {
    let mut out = Vec::new(alloc);
    push_front(&mut out, case)?;
    push_manner(&mut out, manner)?;
    push_played(&mut out, case, played)?;
    push(&mut out, "\n")?;
    Ok(out)
}

/// The line of a case that has nothing that may be cut.
pub(crate) fn uncut_line(alloc: Global, case: &Case) -> Result<Vec<u8>, AllocError> {
    let mut out = Vec::new(alloc);
    push_front(&mut out, case)?;
    push(&mut out, "nothing that can be cut\n")?;
    Ok(out)
}

/// The line of a line that isn't read.
pub(crate) fn bad_line(alloc: Global, line: &BadLine) -> Result<Vec<u8>, AllocError> {
    let mut out = Vec::new(alloc);
    push(&mut out, &line.file)?;
    push_number(&mut out, " line ", line.number, ": not read\n")?;
    Ok(out)
}
