//! Whether a case comes out as it must.

use crate::cutting::{Cut, Stream, capture_of, cut_text, joined};
use crate::faulting::{devices_of, is_answered};
use crate::playing::{Change, Played, play};
use crate::showing::{Manner, failure_line, uncut_line};
use crate::text::{Case, Device, Failing, Wanted, subject};
use capture_text::read_capture;
use std::alloc::{AllocError, Global};
use std::sync::Wait;
use std::thread::Threads;
use std::time;

// So many calls of a device are failed at most, one in a play.
const MOST_FAILING: u64 = 16;

// What of a case may be cut.
#[derive(Drop)]
struct Whole {
    stream: Stream,
    text: Vec<u8>,
}

// Whether what was printed is what is wanted.
fn is_wanted(wanted: &Wanted, shown: &[u8]) -> bool {
    match wanted {
        Wanted::Octets(octets) => octets.as_slice() == shown,
        Wanted::Count(count) => *count == shown.len() as u64,
        Wanted::Any => true,
    }
}

// Whether each file took what it must.
fn are_written(case: &Case, played: &Played) -> bool {
    for file in &case.files {
        if let Some(octets) = &file.octets {
            if octets.as_slice() != played.file(&file.name) {
                return false;
            }
        }
    }
    true
}

// Whether a case came out as it must where no call fails that it doesn't say.
fn is_right(case: &Case, played: &Played) -> bool {
    played.status == case.status
        && is_wanted(&case.wanted, played.shown())
        && are_written(case, played)
        && played.told.is_whole
        && played.have_met
}

// Whether what was printed in pieces is, joined, what is wanted.
fn is_wanted_joined(alloc: Global, wanted: &Wanted, shown: &[u8]) -> Result<bool, AllocError> {
    match wanted {
        Wanted::Octets(octets) => {
            let octets = joined(alloc, octets)?;
            Ok(octets.as_slice() == joined(alloc, shown)?.as_slice())
        }
        Wanted::Count(_) | Wanted::Any => Ok(is_wanted(wanted, shown)),
    }
}

// What of a command's input may be cut.
fn stream_of(words: &[String]) -> Option<Stream> {
    match words.first()?.as_str() {
        "replay" => Some(Stream::Scenario),
        "decode" if words.len() == 2 => Some(Stream::Capture),
        _ => None,
    }
}

// A capture in one line, if it is one.
fn capture_in(alloc: Global, text: &[u8]) -> Result<Option<Vec<u8>>, AllocError> {
    match read_capture(alloc, text)? {
        Ok(octets) => Ok(Some(capture_of(alloc, &octets)?)),
        Err(_) => Ok(None),
    }
}

// The text of a stream as it is to be cut.
fn whole_text(alloc: Global, stream: Stream, text: Vec<u8>) -> Result<Option<Vec<u8>>, AllocError> {
    match stream {
        Stream::Scenario => Ok(Some(text)),
        Stream::Capture => capture_in(alloc, &text),
    }
}

// What of a case may be cut.
fn whole_of(alloc: Global, case: &Case) -> Result<Option<Whole>, AllocError> {
    let Some(stream) = stream_of(&case.words) else {
        return Ok(None);
    };
    let Some(input) = case.input(subject(&case.words)) else {
        return Ok(None);
    };
    match whole_text(alloc, stream, input.octets(alloc)?)? {
        Some(text) => Ok(Some(Whole { stream, text })),
        None => Ok(None),
    }
}

// The line of a case that came to this with its stream cut; None where it is right.
fn cut_failure(
    alloc: Global,
    case: &Case,
    cut: Cut,
    played: &Played,
) -> Result<Option<Vec<u8>>, AllocError> {
    let is_same = is_wanted_joined(alloc, &case.wanted, played.shown())?;
    if is_same && played.status == case.status {
        return Ok(None);
    }
    Ok(Some(failure_line(alloc, case, Manner::Cut(cut), played)?))
}

// Plays a case with its stream cut.
fn judge_cut<R: Threads + Wait + time::Clock + Copy + Send + 'static>(
    rt: &R,
    alloc: Global,
    case: &Case,
    whole: &Whole,
    cut: Cut,
) -> Result<Option<Vec<u8>>, AllocError> {
    let parts = cut_text(alloc, &whole.text, whole.stream, cut)?;
    let change = Change::Text(subject(&case.words), &parts.text);
    let played = play(rt, alloc, case, change)?;
    cut_failure(alloc, case, cut, &played)
}

// Plays a case with its stream cut at each place, up to the first that fails.
fn judge_places<R: Threads + Wait + time::Clock + Copy + Send + 'static>(
    rt: &R,
    alloc: Global,
    case: &Case,
    whole: &Whole,
) -> Result<Option<Vec<u8>>, AllocError> {
    let places = cut_text(alloc, &whole.text, whole.stream, Cut::Everywhere)?.places;
    for place in 0..places {
        if let Some(line) = judge_cut(rt, alloc, case, whole, Cut::At(place))? {
            return Ok(Some(line));
        }
    }
    Ok(None)
}

// Plays a case with its stream cut in each way, up to the first that fails.
fn judge_cuts<R: Threads + Wait + time::Clock + Copy + Send + 'static>(
    rt: &R,
    alloc: Global,
    case: &Case,
) -> Result<Option<Vec<u8>>, AllocError> {
    let Some(whole) = whole_of(alloc, case)? else {
        return Ok(Some(uncut_line(alloc, case)?));
    };
    match judge_cut(rt, alloc, case, &whole, Cut::Everywhere)? {
        Some(line) => Ok(Some(line)),
        None => judge_places(rt, alloc, case, &whole),
    }
}

// The line of a case that came to this with this call failing too; None where it is right.
fn fault_failure(
    alloc: Global,
    case: &Case,
    failing: &Failing,
    played: &Played,
) -> Result<Option<Vec<u8>>, AllocError> {
    let is_right = if played.has_fault() {
        is_answered(case, failing, played)
    } else {
        is_right(case, played)
    };
    if is_right {
        return Ok(None);
    }
    let manner = Manner::Failing(failing);
    Ok(Some(failure_line(alloc, case, manner, played)?))
}

// Plays a case with the calls of one device failing in turn, up to the first that doesn't come.
fn judge_device<R: Threads + Wait + time::Clock + Copy + Send + 'static>(
    rt: &R,
    alloc: Global,
    case: &Case,
    device: Device,
    name: &str,
) -> Result<Option<Vec<u8>>, AllocError> {
    let mut failing = Failing {
        device,
        name: String::from_str(alloc, name)?,
        number: 0,
    };
    for number in 0..MOST_FAILING {
        failing.number = number;
        let played = play(rt, alloc, case, Change::Failing(&failing))?;
        let failure = fault_failure(alloc, case, &failing, &played)?;
        if failure.is_some() || !played.has_fault() {
            return Ok(failure);
        }
    }
    Ok(None)
}

// Plays a case with each call of each device failing in turn.
fn judge_faults<R: Threads + Wait + time::Clock + Copy + Send + 'static>(
    rt: &R,
    alloc: Global,
    case: &Case,
) -> Result<Option<Vec<u8>>, AllocError> {
    let devices = devices_of(alloc, case)?;
    for &(device, name) in &devices {
        if let Some(line) = judge_device(rt, alloc, case, device, name)? {
            return Ok(Some(line));
        }
    }
    Ok(None)
}

// The line of a case that came to this as it stands; None where it is right.
fn failure(alloc: Global, case: &Case, played: &Played) -> Result<Option<Vec<u8>>, AllocError> {
    if is_right(case, played) {
        return Ok(None);
    }
    let manner = Manner::AsItStands;
    Ok(Some(failure_line(alloc, case, manner, played)?))
}

// Plays a case as it stands.
fn judge_plainly<R: Threads + Wait + time::Clock + Copy + Send + 'static>(
    rt: &R,
    alloc: Global,
    case: &Case,
) -> Result<Option<Vec<u8>>, AllocError> {
    let played = play(rt, alloc, case, Change::Nothing)?;
    failure(alloc, case, &played)
}

/// Plays a case, and where it says so with each call failing in turn, or with its streams cut. What
/// is printed where it fails; None where it passes.
pub(crate) fn judge<R: Threads + Wait + time::Clock + Copy + Send + 'static>(
    rt: &R,
    alloc: Global,
    case: &Case,
) -> Result<Option<Vec<u8>>, AllocError> {
    let mut failure = judge_plainly(rt, alloc, case)?;
    if failure.is_none() && case.is_faulted {
        failure = judge_faults(rt, alloc, case)?;
    }
    if failure.is_none() && case.is_cut {
        failure = judge_cuts(rt, alloc, case)?;
    }
    Ok(failure)
}
