//! The orders that are taken of a shared node, and told to a plant.
ghost use Rattle.std.specs.Prelude.{◌≡◌, Ok, Err};
ghost use mathlib.Core.List.{IsPrefix};
ghost use Rattle.outside.specs.Sink.{SinkTold};
ghost use Rattle.share_turn.specs.Public.{IsOf, at};
ghost use Rattle.server_main.specs.Plant.Taking.{IsOfOrders, IsEndOfRefusal, TellsPlant};
ghost use Rattle.server_main.specs.Plant.Taking.{WritesOrders, TakesOrders};
ghost use Rattle.server_main.specs.Plant.PlantHistory.{HasPlantLines, HasThen};

use bilateral::Centre;
use node_server::turn::TurnNode;
use outside::Sink;
use sbo_device::Order;
use share_turn::{Seat, Shared};
use std::alloc::Global;
use std::sync::Wait;
use tase_views::{Answer, Event, EventKind, StepFault};
use texts::orders::write_orders;

/// How a taking of orders ended.
#[derive(Clone, Copy, Debug, PartialEq, Eq)]
pub enum OrdersTaken {
    /// The plant has all orders that were left.
    Taken,
    /// A write to the plant failed; its count of faults rose. It has a front part of what was to be
    /// told.
    PlantFault,
    /// The node was stopped. Nothing was told.
    Stopped,
    /// The history would weigh so many octets, and may weigh at most `limit`. Nothing was told.
    Full { weight: u64, limit: u64 },
    /// Memory ran out. Nothing was told.
    Memory,
}

/// Takes orders of a shared node and tells them to a plant.
#[derive(Clone, Copy)]
pub struct OrderTaker<'a, R> {
    pub rt: &'a R,
    pub alloc: Global,
    pub centre: &'a Centre,
    pub shared: &'a Shared<TurnNode>,
}

impl<'a, R: Wait> OrderTaker<'a, R> {
    /// Takes the orders that are left, and tells each to the plant as a line, in order. The telling
    /// takes no memory.
    pub fn take_orders<K: Sink>(&self, seat: &mut Seat<TurnNode>, plant: &mut K) -> OrdersTaken
        requires of { IsOf self.now.shared.now seat.old }
        requires centre { self.now.centre.now ≡ self.now.shared.now.setup.centre }
        ensures same { seat.new ≡ at seat.old seat.new.front }
        ensures seen { IsPrefix seat.old.front seat.new.front }
        ensures takes { TakesOrders self.now.shared.now.setup seat.old seat.new.front
            (K.told plant.old) (K.told plant.new) result }
        ensures keeps { (start : SinkTold)
            → HasPlantLines self.now.centre.now seat.old.number seat.old.front start
            (K.told plant.old)
            → HasThen result self.now.centre.now seat.old.number seat.new.front start
            (K.told plant.new) }
    {
        let event = Event::new(EventKind::TakeOrders);
        let outcome = self.shared.call(self.rt, self.alloc, seat, event);
        tell_outcome(plant, self.centre, outcome)
    }
}

/// Tells a plant what came of a taking.
fn tell_outcome<K: Sink>(
    plant: &mut K,
    centre: &Centre,
    outcome: Result<Answer, StepFault>,
) -> OrdersTaken
    requires { IsOfOrders outcome }
    ensures { TellsPlant centre.now outcome (K.told plant.old) (K.told plant.new) result }
{
    match outcome {
        Ok(answer) => tell_answer(plant, centre, answer),
        Err(fault) => end_of_taking(fault),
    }
}

/// Tells a plant the orders that a taking was answered with.
fn tell_answer<K: Sink>(plant: &mut K, centre: &Centre, answer: Answer) -> OrdersTaken
    requires { IsOfOrders (Ok answer) }
    ensures { TellsPlant centre.now (Ok answer) (K.told plant.old) (K.told plant.new) result }
{
    match answer {
        Answer::Orders(orders) => tell_orders(plant, centre, orders.as_slice()),
        Answer::Opened { key: _ } => unreachable!(),
        Answer::Reply(_) => unreachable!(),
        Answer::Reports(_) => unreachable!(),
        Answer::Closed => unreachable!(),
        Answer::Noted => unreachable!(),
    }
}

/// Tells a plant these orders.
fn tell_orders<K: Sink>(plant: &mut K, centre: &Centre, orders: &[Order]) -> OrdersTaken
    ensures { WritesOrders centre.now orders.now (K.told plant.old) (K.told plant.new) result }
{
    match write_orders(plant, centre, orders) {
        Ok(()) => OrdersTaken::Taken,
        Err(_) => OrdersTaken::PlantFault,
    }
}

/// How a taking ends by its refusal.
fn end_of_taking(fault: StepFault) -> OrdersTaken
    requires { IsOfOrders (Err fault) }
    ensures { IsEndOfRefusal fault result }
{
    match fault {
        StepFault::Stopped { at: _ } => OrdersTaken::Stopped,
        StepFault::HistoryFull { weight, limit } => OrdersTaken::Full { weight, limit },
        StepFault::Memory => OrdersTaken::Memory,
        StepFault::NoAssociation
        | StepFault::Already
        | StepFault::UnknownName
        | StepFault::ClockRange
        | StepFault::Backward { last: _ } => unreachable!(),
    }
}
