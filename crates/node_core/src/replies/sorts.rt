//! Calls by what they do.
ghost use Rattle.node_core.specs.Replies.CallSorts.{IsOfSort};

use tase_views::{Call, CallKind};

/// Whether a call reads variables, writes them, or does something else.
#[derive(Clone, Copy)]
pub enum CallSort {
    Read,
    Write,
    Other,
}

/// The sort of a call.
pub fn sort_of(call: &Call) -> CallSort
    ensures { IsOfSort result call.now }
{
    match call.kind() {
        CallKind::Read { .. } => CallSort::Read,
        CallKind::Write { .. } => CallSort::Write,
        _ => CallSort::Other,
    }
}
