//! The clock, told to a shared node.
ghost use Rattle.std.specs.Prelude.{◌≡◌, ◌↔◌, Some, Err, IsTrue};
ghost use mathlib.Core.List.{IsPrefix};
ghost use Rattle.share_turn.specs.Public.{IsOf, at};
ghost use Rattle.node_server.specs.Ticking.{IsTickFault, TickCame, Ticks, RunsTicks};
ghost use Rattle.node_server.specs.declared.ticking.TickEnd.{TickEnd};

use crate::asking::{call_node, stop_node};
use crate::turn::TurnNode;
use outside::links::Clock;
use share_turn::{Seat, Shared};
use std::alloc::Global;
use std::sync::Wait;
use tase_views::{Event, EventKind, StepFault};

/// How the telling of the clock ended.
#[derive(Clone, Copy, Debug, PartialEq, Eq)]
pub enum TickEnd {
    /// The clock failed; its count of faults rose.
    ClockFault,
    /// The node was stopped.
    Stopped,
    /// The history would weigh so many octets with the next tick, and may weigh at most `limit`.
    Full { weight: u64, limit: u64 },
    /// Memory ran out.
    Memory,
}

/// Reads a clock again and again, and tells a shared node each reading as a tick, until the clock
/// fails or a tick is refused; a tick whose moment isn't above the last one is passed over. At the
/// end it stops the node, where it wasn't stopped.
pub fn tick_node<R: Wait, C: Clock>(
    rt: &R,
    alloc: Global,
    shared: &Shared<TurnNode>,
    seat: &mut Seat<TurnNode>,
    clock: &mut C,
) -> TickEnd
    requires { IsOf shared.now seat.old }
    ensures same { seat.new ≡ at seat.old seat.new.front }
    ensures seen { IsPrefix seat.old.front seat.new.front }
    ensures ticks { RunsTicks shared.now.setup seat.old seat.new.front (C.told clock.old)
        (C.told clock.new) result }
{
    let end = tick_on(rt, alloc, shared, seat, clock);
    if !is_stopped(end) {
        stop_node(rt, alloc, shared, seat);
    }
    end
}

/// True exactly where the node was stopped.
fn is_stopped(end: TickEnd) -> bool
    ensures { IsTrue result ↔ (end ≡ TickEnd.Stopped) }
{
    end == TickEnd::Stopped
}

/// Tells the node one reading after another, until that ends.
fn tick_on<R: Wait, C: Clock>(
    rt: &R,
    alloc: Global,
    shared: &Shared<TurnNode>,
    seat: &mut Seat<TurnNode>,
    clock: &mut C,
) -> TickEnd
    requires { IsOf shared.now seat.old }
    ensures same { seat.new ≡ at seat.old seat.new.front }
    ensures ticks { Ticks shared.now.setup seat.old seat.new.front (C.told clock.old)
        (C.told clock.new) (Some result) }
{
    for _ in rt.forever() {
        if let Some(end) = tick_once(rt, alloc, shared, seat, clock) {
            return end;
        }
    }
    unreachable!()
}

/// Tells the node the next reading. None where it goes on.
fn tick_once<R: Wait, C: Clock>(
    rt: &R,
    alloc: Global,
    shared: &Shared<TurnNode>,
    seat: &mut Seat<TurnNode>,
    clock: &mut C,
) -> Option<TickEnd>
    requires { IsOf shared.now seat.old }
    ensures same { seat.new ≡ at seat.old seat.new.front }
    ensures ticks { Ticks shared.now.setup seat.old seat.new.front (C.told clock.old)
        (C.told clock.new) result }
{
    let Some(now) = clock.now() else {
        return Some(TickEnd::ClockFault);
    };
    match call_node(rt, alloc, shared, seat, Event::new(EventKind::Tick { now })) {
        None => None,
        Some(fault) => end_of_ticks(fault),
    }
}

/// How the ticking ends by a tick's refusal, if it does.
fn end_of_ticks(fault: StepFault) -> Option<TickEnd>
    requires { IsTickFault fault }
    ensures { TickCame (Err fault) result }
{
    match fault {
        StepFault::Backward { last: _ } => None,
        StepFault::Stopped { at: _ } => Some(TickEnd::Stopped),
        StepFault::HistoryFull { weight, limit } => Some(TickEnd::Full { weight, limit }),
        StepFault::Memory => Some(TickEnd::Memory),
        StepFault::NoAssociation
        | StepFault::Already
        | StepFault::UnknownName
        | StepFault::ClockRange => unreachable!(),
    }
}
