//! The stop of a node that a server leaves behind.
ghost use Rattle.std.specs.Prelude.{◌≡◌, ◌↔◌, List, IsTrue};
ghost use Rattle.std.specs.Arc.{arc_value};
ghost use Rattle.share_turn.specs.Public.{IsOf, at};
ghost use Rattle.node_server.specs.NodeCalls.{NodeCall, CallsNode, AsksStop};
ghost use Rattle.server_main.specs.Working.{StopsNode};

use crate::node_run::NodeRun;
use crate::run::ServingEnd;
use crate::work_end::WorkEnd;
use node_server::turn::TurnNode;
use share_turn::Seat;
use std::sync::Wait;
use tase_views::{Event, EventKind};

impl<'a, R: Wait> NodeRun<'a, R> {
    /// Stops the node behind the work of a server, where that didn't end by a stop.
    pub(crate) fn stop_behind(&self, seat: &mut Seat<TurnNode>, work: WorkEnd)
        requires { IsOf (arc_value self.now.shared.now) seat.old }
        ensures same { seat.new ≡ at seat.old seat.new.front }
        ensures stops { StopsNode (arc_value self.now.shared.now).setup work seat.old
            seat.new.front }
    {
        if !is_stopped(work) {
            self.ask_stop(seat);
        }
    }

    /// Asks the node to stop: it is taken, or the node was stopped already.
    fn ask_stop(&self, seat: &mut Seat<TurnNode>)
        requires { IsOf (arc_value self.now.shared.now) seat.old }
        ensures same { seat.new ≡ at seat.old seat.new.front }
        ensures stops { (calls : List NodeCall) × AsksStop calls
            × CallsNode (arc_value self.now.shared.now).setup seat.old calls seat.new.front }
    {
        let event = Event::new(EventKind::Stop);
        let _outcome = self.shared.call(self.rt, self.alloc, seat, event);
    }
}

/// True exactly where the work ended by a stop.
fn is_stopped(work: WorkEnd) -> bool
    ensures { IsTrue result ↔ (work ≡ WorkEnd.Ended ServingEnd.Stopped) }
{
    work == WorkEnd::Ended(ServingEnd::Stopped)
}
