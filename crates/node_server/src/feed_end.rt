//! How a feed ends.

/// How the feeding of a node ended.
#[derive(Clone, Copy, Debug, PartialEq, Eq)]
pub enum FeedEnd {
    /// All lines were taken.
    Ended,
    /// A line `stop` came.
    StopLine,
    /// The line with this number, from 1 on, isn't one of a feed.
    BadLine { line: u64 },
    /// The line with this number, from 1 on, has more than 4,096 octets.
    LongLine { line: u64 },
    /// The source failed; its count of faults rose.
    SourceFault,
    /// The node was stopped.
    Stopped,
    /// The history would weigh so many octets with the next event, and may weigh at most `limit`.
    Full { weight: u64, limit: u64 },
    /// Memory ran out.
    Memory,
}
