//! How an object notes what happens to it, and waits for what happens to others.
ghost use Rattle.std.specs.Prelude.{◌≡◌};

use crate::holding::board::{Board, Event, Plan};
use std::alloc::{AllocError, Global};
use std::sync::Arc;
use std::thread;
use std::time::{self, Duration};

/// So often an object looks at the board, a millisecond apart, before it goes on all the same.
const LOOKS: u32 = 3_000;

/// The board as an object has it, with a clock to wait by. None where there was no room for its
/// share: it notes nothing then, and waits for nothing.
#[derive(Drop)]
pub(crate) struct Watch<R> {
    board: Option<Arc<Board>>,
    runtime: R,
}

impl<R> Watch<R> {
    pub(crate) fn new(alloc: Global, runtime: R, plan: Plan) -> Result<Watch<R>, AllocError>
    where
        R: Drop,
    {
        let board = Arc::new(alloc, Board::new(plan))?;
        Ok(Watch {
            board: Some(board),
            runtime,
        })
    }

    fn board(&self) -> Option<&Board> {
        match &self.board {
            Some(board) => Some(board),
            None => None,
        }
    }

    pub(crate) fn note(&self, event: Event) {
        if let Some(board) = self.board() {
            board.note(event);
        }
    }

    /// Whether no link waited for the others in vain.
    pub(crate) fn have_met(&self) -> bool {
        match self.board() {
            Some(board) => !board.is_missed(),
            None => false,
        }
    }
}

impl<R: Copy> Watch<R> {
    /// The board for one object more.
    pub(crate) fn share(&self) -> Watch<R> {
        let board = match &self.board {
            Some(board) => board.clone().ok(),
            None => None,
        };
        Watch {
            board,
            runtime: self.runtime,
        }
    }
}

impl<R: time::Clock> Watch<R> {
    /// Waits a millisecond.
    pub(crate) fn rest(&self) {
        thread::sleep(&self.runtime, Duration::from_millis(1));
    }

    /// Waits until all links were served, three seconds at most.
    pub(crate) fn await_service(&self) {
        let Some(board) = self.board() else {
            return;
        };
        for _ in 0..LOOKS {
            if board.is_served() {
                return;
            }
            self.rest();
        }
    }

    /// Waits at the recv of this number, where links meet there, until all have come to it, three
    /// seconds at most.
    pub(crate) fn meet(&self, number: u64) {
        let Some(board) = self.board() else {
            return;
        };
        if !board.is_meeting(number) {
            return;
        }
        board.note(Event::Meeting);
        for _ in 0..LOOKS {
            if board.have_met() {
                return;
            }
            self.rest();
        }
        board.note(Event::Missed);
    }
}
