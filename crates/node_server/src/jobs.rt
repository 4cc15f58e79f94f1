//! What the threads of a server do, as jobs: each holds its seat of the shared node and what it
//! reads, and gives both back once it is done.

mod done;
mod job;
mod parts;

pub use done::NodeDone;
pub use job::{NodeJob, job_may_be_sent};
pub use parts::JobParts;
