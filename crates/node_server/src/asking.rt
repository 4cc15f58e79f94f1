//! Calls of the shared node, and the stop that a job leaves behind.
ghost use Rattle.std.specs.Prelude.{◌≡◌, List};
ghost use Rattle.share_turn.specs.Public.{IsOf, at};
ghost use Rattle.node_server.specs.NodeCalls.{NodeCall, CallsNode, AsksNode, AsksStop};

use crate::turn::TurnNode;
use share_turn::{Seat, Shared};
use std::alloc::Global;
use std::sync::Wait;
use tase_views::{Event, EventKind, StepFault};

/// Asks the shared node an event of which no answer is wanted. Why it was refused, if it was.
pub(crate) fn call_node<R: Wait>(
    rt: &R,
    alloc: Global,
    shared: &Shared<TurnNode>,
    seat: &mut Seat<TurnNode>,
    event: Event,
) -> Option<StepFault>
    requires { IsOf shared.now seat.old }
    ensures same { seat.new ≡ at seat.old seat.new.front }
    ensures asks { AsksNode shared.now.setup seat.old event seat.new.front result }
{
    shared.call(rt, alloc, seat, event).err()
}

/// Stops the shared node, where it wasn't stopped.
pub(crate) fn stop_node<R: Wait>(
    rt: &R,
    alloc: Global,
    shared: &Shared<TurnNode>,
    seat: &mut Seat<TurnNode>,
)
    requires { IsOf shared.now seat.old }
    ensures same { seat.new ≡ at seat.old seat.new.front }
    ensures stops { (calls : List NodeCall) × AsksStop calls
        × CallsNode shared.now.setup seat.old calls seat.new.front }
{
    // Either it is taken, or the node was stopped already.
    let _refusal = call_node(rt, alloc, shared, seat, Event::new(EventKind::Stop));
}
