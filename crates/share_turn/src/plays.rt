//! The rule of the table, and what each atomic step tells.
ghost use Rattle.share_turn.specs.Steps.{at_phase, fresh, joined, spent, drawn};
ghost use Rattle.share_turn.specs.Steps.{drew_ticket, read_turn, took_out, put_back, published};
ghost use Rattle.share_turn.specs.Steps.{drew_number, read_number};
ghost use Rattle.share_turn.specs.declared.seat_view.Phase.TheVariants.{Idle};

use crate::object::Object;
use crate::seat_view::SeatView;
use atomic_table::{Join, Play, Split, TableRule};
use std::marker::PhantomData;
use std::snapshot::Snapshot;

/// The rule of the turn.
pub struct Law<O> {
    of: PhantomData<O>,
}

impl<O: Object> TableRule<Option<O>, SeatView<O::Event, O::Setup>, Snapshot<O>> for Law<O> {
    ghost use Rattle.share_turn.specs.Turns.{IsKept};
    ghost use Rattle.share_turn.specs.Steps.{starting};

    ghost holds = { λ key. IsKept O.setup O.history (O.setup key.value) };

    ghost first = { λ key. starting (O.setup key.value) };
}

/// Draws a ticket.
pub(crate) struct DrawTicket;

impl<S, E, T> Play<S, SeatView<E, T>> for DrawTicket {
    ghost then = { drew_ticket };
}

/// Reads the turn.
pub(crate) struct ReadTurn;

impl<S, E, T> Play<S, SeatView<E, T>> for ReadTurn {
    ghost then = { read_turn };
}

/// Takes the object out, at the turn.
pub(crate) struct TakeOut<O> {
    of: PhantomData<O>,
}

impl<O: Object> Play<Option<O>, SeatView<O::Event, O::Setup>> for TakeOut<O> {
    ghost then = { took_out O.setup O.history };
}

/// Puts the object back.
pub(crate) struct PutBack<O> {
    of: PhantomData<O>,
}

impl<O: Object> Play<Option<O>, SeatView<O::Event, O::Setup>> for PutBack<O> {
    ghost then = { put_back O.setup O.history };
}

/// Publishes the next turn.
pub(crate) struct Publish;

impl<S, E, T> Play<S, SeatView<E, T>> for Publish {
    ghost then = { published };
}

/// Draws a seat number.
pub(crate) struct DrawNumber;

impl<S, E, T> Play<S, SeatView<E, T>> for DrawNumber {
    ghost then = { drew_number };
}

/// Reads the next seat number.
pub(crate) struct ReadNumber;

impl<S, E, T> Play<S, SeatView<E, T>> for ReadNumber {
    ghost then = { read_number };
}

/// Splits a seat that holds a drawn number.
pub(crate) struct SplitSeat;

impl<E, T> Split<SeatView<E, T>> for SplitSeat {
    ghost left = { λ k. at_phase Idle k };

    ghost right = { λ k. fresh k.setup (drawn k.phase) k.front };
}

/// Joins two seats.
pub(crate) struct JoinSeats;

impl<E, T> Join<SeatView<E, T>> for JoinSeats {
    ghost both = { joined };

    ghost spent = { spent };
}
