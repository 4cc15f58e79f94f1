//! A connection, served over a link by a seat of a shared node.
ghost use Rattle.std.specs.Prelude.{◌≡◌, ℕ, ◌<◌, ◌≤◌, List, [], length, None};
ghost use Rattle.std.specs.Arc.{arc_value};
ghost use mathlib.Core.List.{IsPrefix};
ghost use Rattle.outside.specs.Links.Links.{LinkTold};
ghost use Rattle.share_turn.specs.Public.{IsOf, at};
ghost use Rattle.tase_views.specs.History.{association_in};
ghost use Rattle.share_turn.specs.Entries.{own};
ghost use Rattle.node_server.specs.Turn.Logged.{past_in};
ghost use Rattle.node_server.specs.NodeCalls.{CallsNode, NodeCall, NodeLog};
ghost use Rattle.node_server.specs.Seats.Since.{log_since, since_here, SomeSince, EachSince};
ghost use Rattle.node_server.specs.Links.FullEnds.{is_full_end};
ghost use Rattle.node_server.specs.Links.ServedLinks.{ServesNextLink, ServesUpTo, StopsIfFull};
ghost use Rattle.node_server.specs.Links.Turns.{IsInTurn, IsStuck, IsToSendBy, TurnsTo};

use crate::links::link_server::LinkServer;
use crate::links::receiving::PIECE;
use crate::links::sending::{SendsEnd, send_pending};
use crate::links::telling::note_end;
use crate::links::turning::Turn;
use crate::turn::TurnNode;
use bilateral::Centre;
use outside::links::Link;
use share_turn::{Seat, Shared};
use std::alloc::Global;
use std::sync::{Arc, Wait};
use tase_conn::{Conn, ConnEnd};
use tase_views::{Event, EventKind};

/// Serves the connection of a link by a seat without an open association, turn by turn: what the
/// link gives is taken in, each event that it asks is asked of the shared node, and what is to be
/// said is sent, until nothing waits or the link takes nothing now. Where more waits then than may,
/// or the link fails, the connection is given up. The link is closed at the end, and where the
/// history was full the node is stopped. What the seat did before is no act of this connection's.
pub fn serve_connection<R: Wait, L: Link>(
    rt: &R,
    alloc: Global,
    centre: &Arc<Centre>,
    shared: &Shared<TurnNode>,
    seat: &mut Seat<TurnNode>,
    link: &mut L,
) -> ConnEnd
    requires of { IsOf shared.now seat.old }
    requires centre { arc_value centre.now ≡ shared.now.setup.centre }
    requires closed { association_in (past_in seat.old.front) seat.old.number ≡ None }
    ensures same { seat.new ≡ at seat.old seat.new.front }
    ensures seen { IsPrefix seat.old.front seat.new.front }
    ensures serves { ServesNextLink shared.now.setup seat.old seat.new.front (L.told link.old)
        (L.told link.new) result }
{
    let server = LinkServer {
        rt,
        alloc,
        centre,
        shared,
    };
    let end = server.serve(centre, seat, link);
    link.close();
    server.stop_if_full(seat, end);
    end
}

impl<'a, R: Wait> LinkServer<'a, R> {
    /// Serves a link up to its end, and leaves it open.
    fn serve<L: Link>(
        &self,
        centre: &Arc<Centre>,
        seat: &mut Seat<TurnNode>,
        link: &mut L,
    ) -> ConnEnd
        requires of { IsOf self.now.shared.now seat.old }
        requires centre { arc_value centre.now ≡ self.now.shared.now.setup.centre }
        requires closed { association_in (past_in seat.old.front) seat.old.number ≡ None }
        ensures same { seat.new ≡ at seat.old seat.new.front }
        ensures seen { IsPrefix seat.old.front seat.new.front }
        ensures serves { (other : ℕ) → own other seat.old.front ≡ []
            → ServesUpTo self.now.shared.now.setup seat.old.number
            (log_since (since_here seat.old other) seat.new.front) (L.told link.old)
            (L.told link.new) result }
    {
        let Ok(mut room) = vec![in self.alloc; 0u8; PIECE] else {
            note_end(link, self.centre, None, ConnEnd::Memory);
            return ConnEnd::Memory;
        };
        let Ok(centre) = centre.clone() else {
            note_end(link, self.centre, None, ConnEnd::Memory);
            return ConnEnd::Memory;
        };
        let Ok(mut conn) = Conn::new(self.alloc, centre) else {
            note_end(link, self.centre, None, ConnEnd::Memory);
            return ConnEnd::Memory;
        };
        self.take_turns(seat, &mut conn, link, &mut room)
    }

    /// Takes one turn after another, until the connection has ended.
    fn take_turns<L: Link>(
        &self,
        seat: &mut Seat<TurnNode>,
        conn: &mut Conn,
        link: &mut L,
        room: &mut [u8],
    ) -> ConnEnd
        requires of { IsOf self.now.shared.now seat.old }
        requires some { 0 < length room.old }
        requires few { length room.old ≤ PIECE }
        requires turn { SomeSince seat.old.front (λ (log : NodeLog).
            (start : LinkTold) × IsInTurn self.now.shared.now.setup seat.old.number log start
            (L.told link.old) conn.old) }
        ensures same { seat.new ≡ at seat.old seat.new.front }
        ensures seen { IsPrefix seat.old.front seat.new.front }
        ensures serves { EachSince seat.old.front seat.new.front (λ (log longer : NodeLog).
            (start : LinkTold)
            → IsInTurn self.now.shared.now.setup seat.old.number log start (L.told link.old)
            conn.old
            → ServesUpTo self.now.shared.now.setup seat.old.number longer start (L.told link.new)
            result) }
    {
        for _ in self.rt.forever() {
            if let Some(end) = self.take_turn(seat, conn, link, room) {
                note_end(link, self.centre, conn.peer(), end);
                return end;
            }
        }
        unreachable!()
    }

    /// A turn. None where the connection goes on.
    fn take_turn<L: Link>(
        &self,
        seat: &mut Seat<TurnNode>,
        conn: &mut Conn,
        link: &mut L,
        room: &mut [u8],
    ) -> Option<ConnEnd>
        requires of { IsOf self.now.shared.now seat.old }
        requires some { 0 < length room.old }
        requires few { length room.old ≤ PIECE }
        requires turn { SomeSince seat.old.front (λ (log : NodeLog).
            (start : LinkTold) × IsInTurn self.now.shared.now.setup seat.old.number log start
            (L.told link.old) conn.old) }
        ensures same { seat.new ≡ at seat.old seat.new.front }
        ensures seen { IsPrefix seat.old.front seat.new.front }
        ensures turns { EachSince seat.old.front seat.new.front (λ (log longer : NodeLog).
            (start : LinkTold)
            → IsInTurn self.now.shared.now.setup seat.old.number log start (L.told link.old)
            conn.old
            → TurnsTo result self.now.shared.now.setup seat.old.number longer start
            (L.told link.new) conn.new) }
    {
        match self.receive_turn(seat, conn, link, room) {
            Turn::Over(end) => Some(end),
            Turn::ToSend(ended) => self.send(seat, conn, link, ended),
        }
    }

    /// Sends what waits. How the connection has ended, if it has.
    fn send<L: Link>(
        &self,
        seat: &mut Seat<TurnNode>,
        conn: &mut Conn,
        link: &mut L,
        ended: Option<ConnEnd>,
    ) -> Option<ConnEnd>
        requires of { IsOf self.now.shared.now seat.old }
        requires sends { SomeSince seat.old.front (λ (log : NodeLog).
            (start : LinkTold) × IsToSendBy ended self.now.shared.now.setup seat.old.number log
            start (L.told link.old) conn.old) }
        ensures same { seat.new ≡ at seat.old seat.new.front }
        ensures seen { IsPrefix seat.old.front seat.new.front }
        ensures turns { EachSince seat.old.front seat.new.front (λ (log longer : NodeLog).
            (start : LinkTold)
            → IsToSendBy ended self.now.shared.now.setup seat.old.number log start (L.told link.old)
            conn.old
            → TurnsTo result self.now.shared.now.setup seat.old.number longer start
            (L.told link.new) conn.new) }
    {
        let sends = send_pending(link, conn);
        match ended {
            Some(end) => Some(end),
            None => match sends {
                SendsEnd::AllTaken => None,
                SendsEnd::NoneTaken => self.overflow(seat, conn),
                SendsEnd::Failed => {
                    self.leave_for(seat, conn, ConnEnd::LinkFault);
                    Some(ConnEnd::LinkFault)
                }
            },
        }
    }

    /// Gives a connection up whose link takes nothing now, where more waits than may.
    fn overflow(&self, seat: &mut Seat<TurnNode>, conn: &mut Conn) -> Option<ConnEnd>
        requires of { IsOf self.now.shared.now seat.old }
        requires stuck { SomeSince seat.old.front (λ (log : NodeLog).
            (start : LinkTold) × (used : LinkTold) × IsStuck self.now.shared.now.setup
            seat.old.number log start used conn.old) }
        ensures same { seat.new ≡ at seat.old seat.new.front }
        ensures seen { IsPrefix seat.old.front seat.new.front }
        ensures turns { EachSince seat.old.front seat.new.front (λ (log longer : NodeLog).
            (start used : LinkTold)
            → IsStuck self.now.shared.now.setup seat.old.number log start used conn.old
            → TurnsTo result self.now.shared.now.setup seat.old.number longer start used conn.new) }
    {
        let pending = conn.pending().len() as u64;
        let limit = conn.limit();
        if pending <= limit {
            return None;
        }
        let end = ConnEnd::Overflow { pending, limit };
        self.leave_for(seat, conn, end);
        Some(end)
    }

    /// Stops the node where the history was full.
    fn stop_if_full(&self, seat: &mut Seat<TurnNode>, end: ConnEnd)
        requires of { IsOf self.now.shared.now seat.old }
        ensures same { seat.new ≡ at seat.old seat.new.front }
        ensures seen { IsPrefix seat.old.front seat.new.front }
        ensures stops { (calls : List NodeCall) × StopsIfFull end calls
            × CallsNode self.now.shared.now.setup seat.old calls seat.new.front }
    {
        if !is_full(end) {
            return;
        }
        let stop = Event::new(EventKind::Stop);
        // Either it is taken, or the node was stopped already.
        let _refusal = self.shared.call(self.rt, self.alloc, seat, stop).err();
    }
}

/// True exactly where the history was full.
fn is_full(end: ConnEnd) -> bool
    ensures { result ≡ is_full_end end }
{
    matches!(end, ConnEnd::Full { .. })
}
