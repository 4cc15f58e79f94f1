//! The listing of one stream, whole and cut at random.
use rand::RngExt;
use rand_core::Rng;
use stack_assoc::listing::Lister;
use std::alloc::{AllocError, Global};

/// A piece of a stream that is cut has at most so many octets.
const MOST_OCTETS: usize = 256;

/// A lister takes at most so many octets at a time.
const PIECE: usize = 65_536;

/// The lines of a listing, and whether it ends with a fault.
#[derive(Drop)]
pub(crate) struct Listing {
    lines: Vec<u8>,
    pub(crate) broken: bool,
}

impl Listing {
    /// Whether another has the same lines and the same end.
    pub(crate) fn is_same(&self, other: &Listing) -> bool {
        self.lines == other.lines && self.broken == other.broken
    }
}

/// Lists a stream that comes in as large pieces as may be.
pub(crate) fn list_whole(alloc: Global, octets: &[u8]) -> Result<Listing, AllocError> {
    let mut lister = Lister::new(alloc);
    let mut lines = Vec::new(alloc);
    for piece in octets.chunks(PIECE) {
        lister = lister.feed(piece, &mut lines)?;
    }
    let broken = lister.finish(&mut lines)?;
    Ok(Listing { lines, broken })
}

/// Lists a stream that is cut at random.
pub(crate) fn list_cut<R: Rng>(
    alloc: Global,
    rng: &mut R,
    octets: &[u8],
) -> Result<Listing, AllocError> {
    let mut lister = Lister::new(alloc);
    let mut lines = Vec::new(alloc);
    let mut rest = octets;
    for _ in 0..octets.len() {
        if rest.is_empty() {
            break;
        }
        let count = rng.random_range(1..=MOST_OCTETS).min(rest.len());
        let (piece, behind) = rest.split_at(count);
        lister = lister.feed(piece, &mut lines)?;
        rest = behind;
    }
    let broken = lister.finish(&mut lines)?;
    Ok(Listing { lines, broken })
}
