//! The first half of a turn: what a link gives is taken in, and the shared node acts on it.
ghost use Rattle.std.specs.Prelude.{◌≡◌, ◌<◌, ◌≤◌, length};
ghost use mathlib.Core.List.{IsPrefix};
ghost use Rattle.outside.specs.Links.Links.{LinkTold};
ghost use Rattle.share_turn.specs.Public.{IsOf, at};
ghost use Rattle.node_server.specs.NodeCalls.{NodeLog};
ghost use Rattle.node_server.specs.Seats.Since.{SomeSince, EachSince};
ghost use Rattle.node_server.specs.Links.Turns.{IsInTurn, IsUnderWay, IsToSendBy};
ghost use Rattle.node_server.specs.Links.Leaving.{IsToLeave, IsLeftFor};
ghost use Rattle.node_server.specs.Links.Turning.{ComesTo};

use crate::links::link_server::LinkServer;
use crate::links::receiving::{Intake, PIECE, receive};
use crate::links::telling::note_peer;
use crate::seats::{attend_seat, leave_seat};
use crate::turn::TurnNode;
use outside::links::Link;
use share_turn::Seat;
use std::sync::Wait;
use tase_conn::{Conn, ConnEnd};

/// How the first half of a turn has ended.
#[derive(Clone, Copy)]
pub(crate) enum Turn {
    /// The link was served up to this end, and nothing more is sent.
    Over(ConnEnd),
    /// What waits is to be sent. The connection has ended so, if it has.
    ToSend(Option<ConnEnd>),
}

impl<'a, R: Wait> LinkServer<'a, R> {
    /// Receives once, takes in what the link gives, and has the node act on it.
    pub(crate) fn receive_turn<L: Link>(
        &self,
        seat: &mut Seat<TurnNode>,
        conn: &mut Conn,
        link: &mut L,
        room: &mut [u8],
    ) -> Turn
        requires of { IsOf self.now.shared.now seat.old }
        requires some { 0 < length room.old }
        requires few { length room.old ≤ PIECE }
        requires turn { SomeSince seat.old.front (λ (log : NodeLog).
            (start : LinkTold) × IsInTurn self.now.shared.now.setup seat.old.number log start
            (L.told link.old) conn.old) }
        ensures same { seat.new ≡ at seat.old seat.new.front }
        ensures seen { IsPrefix seat.old.front seat.new.front }
        ensures comes { EachSince seat.old.front seat.new.front (λ (log longer : NodeLog).
            (start : LinkTold)
            → IsInTurn self.now.shared.now.setup seat.old.number log start (L.told link.old)
            conn.old
            → ComesTo result self.now.shared.now.setup seat.old.number longer start
            (L.told link.new) conn.new) }
    {
        match receive(link, conn, room) {
            Intake::Failed => {
                self.leave_for(seat, conn, ConnEnd::LinkFault);
                Turn::Over(ConnEnd::LinkFault)
            }
            Intake::Memory => {
                self.leave_for(seat, conn, ConnEnd::Memory);
                Turn::ToSend(Some(ConnEnd::Memory))
            }
            Intake::Taken => Turn::ToSend(self.attend(seat, conn, link)),
        }
    }

    /// Has the node act on what was taken in. How the connection has ended, if it has.
    pub(crate) fn attend<L: Link>(
        &self,
        seat: &mut Seat<TurnNode>,
        conn: &mut Conn,
        link: &L,
    ) -> Option<ConnEnd>
        requires of { IsOf self.now.shared.now seat.old }
        requires way { SomeSince seat.old.front (λ (log : NodeLog).
            (start : LinkTold) × (used : LinkTold) × IsUnderWay self.now.shared.now.setup
            seat.old.number log start used conn.old) }
        ensures same { seat.new ≡ at seat.old seat.new.front }
        ensures seen { IsPrefix seat.old.front seat.new.front }
        ensures attended { EachSince seat.old.front seat.new.front (λ (log longer : NodeLog).
            (start used : LinkTold)
            → IsUnderWay self.now.shared.now.setup seat.old.number log start used conn.old
            → IsToSendBy result self.now.shared.now.setup seat.old.number longer start used
            conn.new) }
    {
        let before = conn.peer();
        attend_seat(self.rt, self.alloc, self.shared, seat, conn);
        note_peer(link, self.centre, before, conn.peer());
        conn.ended().copied()
    }

    /// Gives a connection up for an end that isn't the node's.
    pub(crate) fn leave_for(&self, seat: &mut Seat<TurnNode>, conn: &mut Conn, end: ConnEnd)
        requires of { IsOf self.now.shared.now seat.old }
        requires leaves { SomeSince seat.old.front (λ (log : NodeLog).
            (start : LinkTold) × (used : LinkTold) × IsToLeave self.now.shared.now.setup
            seat.old.number log start used conn.old end) }
        ensures same { seat.new ≡ at seat.old seat.new.front }
        ensures seen { IsPrefix seat.old.front seat.new.front }
        ensures left { EachSince seat.old.front seat.new.front (λ (log longer : NodeLog).
            (start used : LinkTold)
            → IsToLeave self.now.shared.now.setup seat.old.number log start used conn.old end
            → IsLeftFor end self.now.shared.now.setup seat.old.number longer start used conn.new) }
    {
        leave_seat(self.rt, self.alloc, self.shared, seat, conn, end);
    }
}
