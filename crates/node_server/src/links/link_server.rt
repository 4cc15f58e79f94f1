//! What serves links.

use crate::turn::TurnNode;
use bilateral::Centre;
use share_turn::Shared;
use std::alloc::Global;
use std::sync::Arc;

/// What serves links: it waits for turns of the shared node by `rt`.
#[derive(Clone, Copy)]
pub(crate) struct LinkServer<'a, R> {
    pub(crate) rt: &'a R,
    pub(crate) alloc: Global,
    pub(crate) centre: &'a Arc<Centre>,
    pub(crate) shared: &'a Shared<TurnNode>,
}
