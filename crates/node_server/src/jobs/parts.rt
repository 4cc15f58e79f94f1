//! What a job is made of.
use crate::turn::TurnNode;
use bilateral::Centre;
use share_turn::{Seat, Shared};
use std::alloc::Global;
use std::sync::Arc;

/// What a job is made of: the shared node, a seat of it, and what the job reads.
#[derive(Drop)]
pub enum JobParts<L, S, C> {
    /// A link, whose connection is one with the node of this centre.
    Conn {
        centre: Arc<Centre>,
        shared: Arc<Shared<TurnNode>>,
        seat: Seat<TurnNode>,
        link: L,
        alloc: Global,
    },
    /// A feed, which is told to the node of this centre.
    Feed {
        centre: Arc<Centre>,
        shared: Arc<Shared<TurnNode>>,
        seat: Seat<TurnNode>,
        source: S,
        alloc: Global,
    },
    /// A clock, which is told to the node.
    Ticks {
        shared: Arc<Shared<TurnNode>>,
        seat: Seat<TurnNode>,
        clock: C,
        alloc: Global,
    },
}
