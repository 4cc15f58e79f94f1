//! A shared node attends to a connection, by one of its seats.
ghost use Rattle.std.specs.Prelude.{◌≡◌, ℕ, Bool, List, Option, None, Some, true, false};
ghost use mathlib.Core.List.{IsPrefix};
ghost use Rattle.tase_conn.specs.declared.stage.PendingEvent.TheVariants as askeds;
ghost use Rattle.tase_conn.specs.declared.stage.Progress.TheVariants as progresses;
ghost use Rattle.tase_conn.specs.Talking.{IsFree, is_running, is_leaving, conn_end_in};
ghost use Rattle.tase_conn.specs.Places.{IsPlaced};
ghost use Rattle.tase_conn.specs.Wanting.{WantsSo};
ghost use Rattle.tase_conn.specs.Map.Inputs.{Item};
ghost use Rattle.conn_service.specs.Courses.Serving.{Serves};
ghost use Rattle.conn_service.specs.Attending.{IsServed, IsAsking, IsParting, IsAskingClose};
ghost use Rattle.conn_service.specs.Attending.{SendsOn};
ghost use Rattle.share_turn.specs.Public.{IsOf, at};
ghost use Rattle.node_server.specs.Turn.Logged.{past_in};
ghost use Rattle.node_server.specs.NodeCalls.{NodeLog};
ghost use Rattle.node_server.specs.Seats.Since.{SomeSince, EachSince};
ghost use Rattle.node_server.specs.Seats.Serving.{shared_setup, SeatAttends, IsCutBySeat, SeatTakes};
ghost use Rattle.node_server.specs.Seats.Serving.{IsServersEnd, RestsFor, IsShut};
ghost use Rattle.node_server.specs.Seats.Serving.{ClosesOverAll, ClosesAsked};
ghost use Rattle.node_server.specs.Seats.Serving.{WantsOfSeat, AnswersOfSeat, GoesOrShuts};
ghost use Rattle.node_server.specs.Seats.Peers.{HasItsPeer, KeepsPeer};

use crate::turn::TurnNode;
use share_turn::{Seat, Shared};
use std::alloc::Global;
use std::sync::Wait;
use tase_conn::{Conn, ConnEnd};
use tase_views::Event;

/// Has a shared node act on all that a connection's link gave: each event that the connection wants
/// is taken under this seat's number, and the connection is told the answer. Where the node refuses
/// an event, or memory is wanting, the connection is left, its association closed, and
/// `conn.ended()` tells why. It waits for turns of the node.
pub fn attend_seat<R: Wait>(
    rt: &R,
    alloc: Global,
    shared: &Shared<TurnNode>,
    seat: &mut Seat<TurnNode>,
    conn: &mut Conn,
)
    requires of { IsOf shared.now seat.old }
    requires served { SomeSince seat.old.front (λ (log : NodeLog).
        IsServed shared.now.setup.centre (past_in log) seat.old.number conn.old) }
    ensures same { seat.new ≡ at seat.old seat.new.front }
    ensures seen { IsPrefix seat.old.front seat.new.front }
    ensures attended { EachSince seat.old.front seat.new.front (λ (log longer : NodeLog).
        (items : List Item) (said : List ℕ)
        → Serves shared.now.setup.centre (past_in log) seat.old.number items said None conn.old
        → SeatAttends (shared_setup shared.now.setup) seat.old.number items said conn.old
        (past_in longer) conn.new) }
    ensures takes { EachSince seat.old.front seat.new.front (λ (log longer : NodeLog).
        (items : List Item) (said : List ℕ)
        → Serves shared.now.setup.centre (past_in log) seat.old.number items said None conn.old
        → SeatTakes (shared_setup shared.now.setup) (past_in log) seat.old.number items
        (past_in longer) (conn_end_in conn.new.progress)) }
    ensures sends { EachSince seat.old.front seat.new.front (λ (log longer : NodeLog).
        (items : List Item) (said : List ℕ)
        → Serves shared.now.setup.centre (past_in log) seat.old.number items said None conn.old
        → SendsOn (shared_setup shared.now.setup) seat.old.number items said conn.old
        (past_in longer) conn.new) }
    ensures peer { EachSince seat.old.front seat.new.front (λ (log longer : NodeLog).
        HasItsPeer (past_in log) seat.old.number conn.old
        → HasItsPeer (past_in longer) seat.new.number conn.new) }
{
    let attendant = Attendant { rt, alloc, shared };
    attendant.attend(seat, conn);
}

/// Gives a connection up that goes on, for an end that isn't the node's: its association is closed,
/// where one is open, under this seat's number. For its link it is given up only once the node has
/// acted on all that the link gave.
pub fn leave_seat<R: Wait>(
    rt: &R,
    alloc: Global,
    shared: &Shared<TurnNode>,
    seat: &mut Seat<TurnNode>,
    conn: &mut Conn,
    end: ConnEnd,
)
    requires of { IsOf shared.now seat.old }
    requires served { SomeSince seat.old.front (λ (log : NodeLog).
        IsServed shared.now.setup.centre (past_in log) seat.old.number conn.old) }
    requires running { conn.old.progress ≡ progresses.Running askeds.Nothing }
    requires end { IsServersEnd end }
    requires rests { RestsFor end conn.old }
    ensures same { seat.new ≡ at seat.old seat.new.front }
    ensures seen { IsPrefix seat.old.front seat.new.front }
    ensures left { EachSince seat.old.front seat.new.front (λ (log longer : NodeLog).
        (items : List Item) (said : List ℕ)
        → Serves shared.now.setup.centre (past_in log) seat.old.number items said None conn.old
        → IsCutBySeat (shared_setup shared.now.setup) seat.old.number items said end conn.old
        (past_in longer) conn.new) }
    ensures shuts { EachSince seat.old.front seat.new.front (λ (log longer : NodeLog).
        IsShut seat.old.number (past_in log) (past_in longer)) }
    ensures sends { EachSince seat.old.front seat.new.front (λ (log longer : NodeLog).
        (items : List Item) (said : List ℕ)
        → Serves shared.now.setup.centre (past_in log) seat.old.number items said None conn.old
        → SendsOn (shared_setup shared.now.setup) seat.old.number items said conn.old
        (past_in longer) conn.new) }
    ensures peer { EachSince seat.old.front seat.new.front (λ (log longer : NodeLog).
        HasItsPeer (past_in log) seat.old.number conn.old
        → HasItsPeer (past_in longer) seat.new.number conn.new) }
{
    conn.give_up(end);
    let attendant = Attendant { rt, alloc, shared };
    attendant.close(seat, conn);
}

/// What has a shared node act for connections.
#[derive(Clone, Copy)]
struct Attendant<'a, R> {
    rt: &'a R,
    alloc: Global,
    shared: &'a Shared<TurnNode>,
}

impl<'a, R: Wait> Attendant<'a, R> {
    fn attend(&self, seat: &mut Seat<TurnNode>, conn: &mut Conn)
        requires of { IsOf self.now.shared.now seat.old }
        requires served { SomeSince seat.old.front (λ (log : NodeLog).
            IsServed self.now.shared.now.setup.centre (past_in log) seat.old.number conn.old) }
        ensures same { seat.new ≡ at seat.old seat.new.front }
        ensures seen { IsPrefix seat.old.front seat.new.front }
        ensures attended { EachSince seat.old.front seat.new.front (λ (log longer : NodeLog).
            (items : List Item) (said : List ℕ)
            → Serves self.now.shared.now.setup.centre (past_in log) seat.old.number items said None
            conn.old
            → SeatAttends (shared_setup self.now.shared.now.setup) seat.old.number items said
            conn.old (past_in longer) conn.new) }
        ensures takes { EachSince seat.old.front seat.new.front (λ (log longer : NodeLog).
            (items : List Item) (said : List ℕ)
            → Serves self.now.shared.now.setup.centre (past_in log) seat.old.number items said None
            conn.old
            → SeatTakes (shared_setup self.now.shared.now.setup) (past_in log) seat.old.number items
            (past_in longer) (conn_end_in conn.new.progress)) }
        ensures peer { EachSince seat.old.front seat.new.front (λ (log longer : NodeLog).
            HasItsPeer (past_in log) seat.old.number conn.old
            → HasItsPeer (past_in longer) seat.new.number conn.new) }
    {
        while let Some(event) = self.wanted(seat, conn) {
            if !self.answer(seat, conn, event) {
                return;
            }
        }
    }

    /// The next event that a connection wants, if it wants one. Where memory is wanting it is given
    /// up.
    fn wanted(&self, seat: &mut Seat<TurnNode>, conn: &mut Conn) -> Option<Event>
        requires of { IsOf self.now.shared.now seat.old }
        requires served { SomeSince seat.old.front (λ (log : NodeLog).
            IsServed self.now.shared.now.setup.centre (past_in log) seat.old.number conn.old) }
        ensures same { seat.new ≡ at seat.old seat.new.front }
        ensures seen { IsPrefix seat.old.front seat.new.front }
        ensures wants { EachSince seat.old.front seat.new.front (λ (log longer : NodeLog).
            (items : List Item) (said : List ℕ)
            → Serves self.now.shared.now.setup.centre (past_in log) seat.old.number items said None
            conn.old
            → WantsOfSeat (shared_setup self.now.shared.now.setup) (past_in log) seat.old.number
            items said conn.old result (past_in longer) conn.new) }
        ensures peer { EachSince seat.old.front seat.new.front (λ (log longer : NodeLog).
            HasItsPeer (past_in log) seat.old.number conn.old
            → HasItsPeer (past_in longer) seat.new.number conn.new) }
    {
        match conn.want() {
            Ok(event) => event,
            Err(_) => {
                conn.give_up(ConnEnd::Memory);
                self.close(seat, conn);
                None
            }
        }
    }

    /// Takes an event that a connection wants, and tells it the answer. Whether the connection goes
    /// on: not where the event was refused, a report is too long, or memory was wanting for what is
    /// said.
    fn answer(&self, seat: &mut Seat<TurnNode>, conn: &mut Conn, event: Event) -> bool
        requires of { IsOf self.now.shared.now seat.old }
        requires waits { SomeSince seat.old.front (λ (log : NodeLog).
            IsAsking self.now.shared.now.setup.centre (past_in log) seat.old.number event
            conn.old) }
        ensures same { seat.new ≡ at seat.old seat.new.front }
        ensures seen { IsPrefix seat.old.front seat.new.front }
        ensures answers { EachSince seat.old.front seat.new.front (λ (log longer : NodeLog).
            (items : List Item) (said : List ℕ)
            → Serves self.now.shared.now.setup.centre (past_in log) seat.old.number items said
            (Some event) conn.old
            → AnswersOfSeat (shared_setup self.now.shared.now.setup) (past_in log) seat.old.number
            items said event conn.old result (past_in longer) conn.new) }
        ensures peer { EachSince seat.old.front seat.new.front (λ (log longer : NodeLog).
            HasItsPeer (past_in log) seat.old.number conn.old
            → HasItsPeer (past_in longer) seat.new.number conn.new) }
    {
        match self.shared.call(self.rt, self.alloc, seat, event) {
            Ok(answer) => match conn.tell(Ok(answer)) {
                Ok(()) => self.goes_on(seat, conn),
                Err(_) => {
                    conn.give_up(ConnEnd::Memory);
                    self.close(seat, conn);
                    false
                }
            },
            Err(fault) => {
                // A refusal leaves the connection, and takes no memory.
                let _told = conn.tell(Err(fault));
                self.close(seat, conn);
                false
            }
        }
    }

    /// Whether a connection goes on that was told an answer. Where it was left by that its
    /// association is closed.
    fn goes_on(&self, seat: &mut Seat<TurnNode>, conn: &mut Conn) -> bool
        requires of { IsOf self.now.shared.now seat.old }
        requires left { is_leaving conn.old.progress ≡ true
            → SomeSince seat.old.front (λ (log : NodeLog).
            IsParting self.now.shared.now.setup.centre (past_in log) seat.old.number conn.old) }
        ensures same { seat.new ≡ at seat.old seat.new.front }
        ensures seen { IsPrefix seat.old.front seat.new.front }
        ensures goes { EachSince seat.old.front seat.new.front (λ (log longer : NodeLog).
            GoesOrShuts result self.now.shared.now.setup.centre seat.old.number (past_in log)
            conn.old (past_in longer) conn.new) }
        ensures peer { KeepsPeer conn.old conn.new }
    {
        if !conn.is_leaving() {
            return true;
        }
        self.close(seat, conn);
        false
    }

    /// Closes the association of a connection that was left, where one is open. No memory is taken.
    fn close(&self, seat: &mut Seat<TurnNode>, conn: &mut Conn)
        requires of { IsOf self.now.shared.now seat.old }
        requires left { SomeSince seat.old.front (λ (log : NodeLog).
            IsParting self.now.shared.now.setup.centre (past_in log) seat.old.number conn.old) }
        ensures same { seat.new ≡ at seat.old seat.new.front }
        ensures seen { IsPrefix seat.old.front seat.new.front }
        ensures shuts { EachSince seat.old.front seat.new.front (λ (log longer : NodeLog).
            IsShut seat.old.number (past_in log) (past_in longer)) }
        ensures closes { ClosesOverAll self.now.shared.now.setup.centre seat.old.number conn.old
            conn.new }
        ensures peer { KeepsPeer conn.old conn.new }
    {
        match wanted_close(conn) {
            Some(event) => self.take_close(seat, conn, event),
            None => {}
        }
    }

    /// Takes the close of a connection that was left, and tells it so.
    fn take_close(&self, seat: &mut Seat<TurnNode>, conn: &mut Conn, event: Event)
        requires of { IsOf self.now.shared.now seat.old }
        requires asks { SomeSince seat.old.front (λ (log : NodeLog).
            IsAskingClose self.now.shared.now.setup.centre (past_in log) seat.old.number event
            conn.old) }
        ensures same { seat.new ≡ at seat.old seat.new.front }
        ensures seen { IsPrefix seat.old.front seat.new.front }
        ensures shuts { EachSince seat.old.front seat.new.front (λ (log longer : NodeLog).
            IsShut seat.old.number (past_in log) (past_in longer)) }
        ensures closes { ClosesAsked self.now.shared.now.setup.centre seat.old.number event
            conn.old conn.new }
        ensures peer { KeepsPeer conn.old conn.new }
    {
        match self.shared.call(self.rt, self.alloc, seat, event) {
            Ok(answer) => {
                // It takes no memory.
                let _told = conn.tell(Ok(answer));
            }
            // A close is never refused.
            Err(_) => {}
        }
    }
}

/// The close that a connection wants that was left, if its association is open.
fn wanted_close(conn: &mut Conn) -> Option<Event>
    requires over { is_running conn.old.progress ≡ false }
    requires free { IsFree conn.old.progress }
    requires placed { IsPlaced conn.old }
    ensures wants { WantsSo result conn.old conn.new }
    ensures stage { conn.new.stage ≡ conn.old.stage }
{
    match conn.want() {
        Ok(event) => event,
        // No memory is taken, so this doesn't come.
        Err(_) => None,
    }
}
