//! How the run of a server ends.

/// How the run of a server ends. Of several ends the first of `Outside`, `Full`, `BadFeed`,
/// `Memory` and `Done` is answered.
#[derive(Clone, Copy, Debug, PartialEq, Eq)]
pub enum ServeEnd {
    /// The feed was read to its end or to its `stop` line, and the plant has all orders.
    Done,
    /// The feed's first bad line, or its first line that is too long.
    BadFeed { line: u64 },
    /// The listener, the feed, the clock or the plant failed, or the job of the feed or of the
    /// clock wasn't started. Its count of faults rose.
    Outside,
    /// The history would weigh so many octets, and may weigh at most `limit`.
    Full { weight: u64, limit: u64 },
    /// Memory ran out.
    Memory,
}
