//! How the work of a server ended.
use crate::run::ServingEnd;

/// How the work of a server ended, before its jobs were gathered.
#[derive(Clone, Copy, Debug, PartialEq, Eq)]
pub enum WorkEnd {
    /// The job of the feed or of the clock was refused, which the spawner has counted. No link was
    /// accepted.
    Refused,
    /// Its rounds ended so; by `Memory` also where there was no memory for the job of the feed or
    /// of the clock, and no link was accepted.
    Ended(ServingEnd),
}
