//! Streams that are changed at random.
use rand::RngExt;
use rand_core::Rng;
use std::alloc::{AllocError, Global};

/// At most so many changes are made of one stream.
const MOST_CHANGES: u32 = 4;

/// A copy of the stream with one change or a few.
pub(crate) fn changed<R: Rng>(
    alloc: Global,
    rng: &mut R,
    stream: &[u8],
) -> Result<Vec<u8>, AllocError> {
    let mut octets = Vec::new(alloc);
    octets.extend_from_slice(stream)?;
    for _ in 0..rng.random_range(1..=MOST_CHANGES) {
        change(rng, &mut octets)?;
    }
    Ok(octets)
}

/// Makes one change: an octet is another, one is left out, one comes in, or the end is cut off.
fn change<R: Rng>(rng: &mut R, octets: &mut Vec<u8>) -> Result<(), AllocError> {
    if octets.is_empty() {
        octets.push(rng.random())?;
        return Ok(());
    }
    let place = rng.random_range(0..octets.len());
    match rng.random_range(0u32..8) {
        0 => {
            octets.remove(place);
        }
        1 => octets.insert(place, rng.random())?,
        2 => octets.truncate(place),
        _ => octets[place] = rng.random(),
    }
    Ok(())
}
