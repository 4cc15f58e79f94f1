//! What makes a transfer set report: its causes, and the indexes by which a node finds it.

mod cause;
mod index;
mod plan;

pub(crate) use cause::{
    Advance, ReportCause, conditions_of, makes_report, only_changes, report_all, report_due,
};
pub(crate) use index::PeerIndex;
pub(crate) use plan::{Change, ChangePlan};
