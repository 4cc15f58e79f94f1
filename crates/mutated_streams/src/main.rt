//! Lists streams that are changed at random, many in one process, each whole and cut, and counts
//! those whose listings differ by that: none. Standard input has how many streams, on a line of its
//! own, and then the capture that is changed. The same input gives the same streams. Standard error
//! is told how many listings end with a fault, and the octets of all streams.
#![tactic(auto)]

mod changing;
mod counting;
mod listing;

use capture_text::read_capture;
use changing::changed;
use counting::Counts;
use listing::{list_cut, list_whole};
use rand::SeedableRng;
use rand_xoshiro::Xoshiro256PlusPlus;
use std::alloc::{AllocError, Global};
use std::io;
use std::process::ExitCode;

/// The seed of all changes.
const SEED: u64 = 1;

/// How many streams are asked for, and the capture behind that line.
fn asked(text: &str) -> Option<(u64, &str)> {
    let (count, capture) = text.split_once('\n')?;
    Some((count.parse().ok()?, capture))
}

/// Lists so many changed streams.
fn list_streams(alloc: Global, stream: &[u8], streams: u64) -> Result<Counts, AllocError> {
    let mut rng = Xoshiro256PlusPlus::seed_from_u64(SEED);
    let mut counts = Counts::none();
    for _ in 0..streams {
        let octets = changed(alloc, &mut rng, stream)?;
        let whole = list_whole(alloc, &octets)?;
        let cut = list_cut(alloc, &mut rng, &octets)?;
        counts.count(octets.len() as u64, whole.broken, whole.is_same(&cut));
    }
    Ok(counts)
}

fn main(rt: HostRuntime) -> io::Result<ExitCode> {
    let text = io::read_to_string(rt.alloc(), rt.reader())?;
    let Some((streams, capture)) = asked(&text) else {
        return Ok(ExitCode::FAILURE);
    };
    let Ok(stream) = read_capture(rt.alloc(), capture.as_bytes())? else {
        return Ok(ExitCode::FAILURE);
    };
    let counts = list_streams(rt.alloc(), &stream, streams)?;
    let (broken, octets) = (counts.broken, counts.octets);
    eprintln!(rt; "{broken} end with a fault, {octets} octets")?;
    let (streams, differ) = (counts.streams, counts.differ);
    println!(rt; "{streams} streams, {differ} differ")?;
    Ok(ExitCode::SUCCESS)
}
