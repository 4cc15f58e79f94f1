//! What a seat at the table knows.
ghost use Rattle.std.specs.Prelude.{ℕ, List};
ghost use Rattle.std.specs.Borrow.{ftrue};
ghost use Rattle.share_turn.specs.declared.seat_view.Phase.{Phase};

use std::marker::{Model, PhantomData};

/// What a seat does. No value of it is made.
pub enum Phase {
    /// It is between calls.
    Idle,
    /// It has drawn this seat number.
    Holding(u64),
    /// It has drawn this ticket.
    Waiting(u64),
    /// The turn is its ticket's, and the object is at home yet.
    Reached(u64),
    /// The turn is its ticket's, and the object is out with it.
    AtTurn(u64),
    /// The turn is its ticket's, and the object was put back.
    Returned(u64),
    /// It was joined to another seat.
    Spent,
}

/// What a seat knows. No value of it is made.
pub struct SeatView<E, T> {
    of: PhantomData<(E, T)>,
    /// The setup of the object, once, while the seat lives.
    pub ghost setup: { List T },
    /// Its seat number.
    pub ghost number: { ℕ },
    /// What it had seen at its last call or join, nothing where it has made none: no entry behind
    /// it is under its number.
    pub ghost before: { List (ℕ × E) },
    /// The history as far as the seat has seen it.
    pub ghost front: { List (ℕ × E) },
    /// The numbers of the seats that were joined to it, each with the front that it had seen.
    pub ghost ended: { List (ℕ × List (ℕ × E)) },
    /// What it does.
    pub ghost phase: { Phase },
}

impl<E, T> Model for SeatView<E, T> {
    ghost also_owns = { λ _. ftrue };
}
