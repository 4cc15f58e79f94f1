//! What came of the streams.

/// How many streams were listed, and how many of them ended with a fault; of how many the listing
/// differs where the stream is cut; and the octets of all. Each count stands still at its end.
#[derive(Clone, Copy)]
pub(crate) struct Counts {
    pub(crate) streams: u64,
    pub(crate) broken: u64,
    pub(crate) differ: u64,
    pub(crate) octets: u64,
}

impl Counts {
    pub(crate) fn none() -> Counts {
        Counts {
            streams: 0,
            broken: 0,
            differ: 0,
            octets: 0,
        }
    }

    /// Counts a stream of so many octets.
    pub(crate) fn count(&mut self, octets: u64, broken: bool, same: bool) {
        self.streams = self.streams.saturating_add(1);
        self.broken = self.broken.saturating_add(broken as u64);
        self.differ = self.differ.saturating_add(!same as u64);
        self.octets = self.octets.saturating_add(octets);
    }
}
