//! What comes of a job.
use crate::turn::TurnNode;
use crate::{FeedEnd, TickEnd};
use share_turn::Seat;
use tase_conn::ConnEnd;

/// What comes of a job: its seat, what it read, and how it ended.
#[derive(Drop)]
pub enum NodeDone<L, S, C> {
    /// A link was served.
    Conn {
        seat: Seat<TurnNode>,
        link: L,
        end: ConnEnd,
    },
    /// The feed was told.
    Feed {
        seat: Seat<TurnNode>,
        source: S,
        end: FeedEnd,
    },
    /// The clock was told.
    Ticks {
        seat: Seat<TurnNode>,
        clock: C,
        end: TickEnd,
    },
}
