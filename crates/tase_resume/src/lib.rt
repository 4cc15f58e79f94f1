//! Snapshots of a node: the entries by which one that begins anew comes to where another one left
//! off, and that its neighbours are then answered as if the other had gone on.
#![tactic(auto)]

mod entries;
mod laws;
mod reading;
mod resuming;
mod turns;
mod warming;
mod writing;

pub use entries::Snapshot;
pub use laws::a_snapshot_resumes_its_history;
pub use reading::read_snapshot;
pub use resuming::resume;
pub use warming::snapshot_of;
pub use writing::write_snapshot;
