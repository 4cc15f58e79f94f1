//! The loop of a server: links are accepted, and orders are told to the plant.
ghost use Rattle.std.specs.Prelude.{◌≡◌};
ghost use Rattle.std.specs.Arc.{arc_value};
ghost use Rattle.share_turn.specs.Public.{IsOf};
ghost use Rattle.server_main.specs.Run.Accepting.{accepting};
ghost use Rattle.server_main.specs.Run.Serving.{ServesBehind, KeepsServing};
ghost use Rattle.server_main.specs.Run.Rounds.{serving_state, TakesOrdersOnce, ServesRound, ServesOn};
ghost use Rattle.server_main.specs.Run.Rounds.{end_of_accept, end_of_orders};

use crate::plant::{OrderTaker, OrdersTaken};
use crate::run::accepting::Accepted;
use crate::run::seats::LinkSeats;
use crate::run::starting::Starter;
use job_threads::ThreadSpawner;
use node_server::jobs::NodeJob;
use node_server::turn::TurnNode;
use outside::links::{Clock, Listener};
use outside::{Sink, Source};
use share_turn::Seat;
use std::sync::Wait;
use std::thread::Threads;

/// How the loop of a server ended.
#[derive(Clone, Copy, Debug, PartialEq, Eq)]
pub enum ServingEnd {
    /// The node was stopped.
    Stopped,
    /// The listener failed; its count of faults rose.
    ListenerFault,
    /// A write to the plant failed; its count of faults rose.
    PlantFault,
    /// The history would weigh so many octets, and may weigh at most `limit`.
    Full { weight: u64, limit: u64 },
    /// Memory ran out.
    Memory,
}

impl<'a, R: Threads + Wait + Copy + Send + 'static> Starter<'a, R> {
    /// Accepts a link and takes orders, again and again, until that ends. Accept is called once
    /// before each taking of orders, also where no link will come any more.
    pub fn serve_on<
        N: Listener,
        S: Source + Send + Drop + 'static,
        C: Clock + Send + Drop + 'static,
        K: Sink,
    >(
        &self,
        seat: &mut Seat<TurnNode>,
        listener: &mut N,
        spawner: &mut ThreadSpawner<NodeJob<N::Link, S, C>>,
        links: &mut LinkSeats,
        plant: &mut K,
    ) -> ServingEnd
    where
        N::Link: Send + 'static,
        requires centre { arc_value self.now.centre.now
            ≡ (arc_value self.now.shared.now).setup.centre }
        requires serving { ServesBehind N.Link.told (arc_value self.now.shared.now)
            (accepting seat.old (N.told listener.old) spawner.old.told links.old) }
        ensures keeps { KeepsServing N.Link.told (arc_value self.now.shared.now)
            (accepting seat.old (N.told listener.old) spawner.old.told links.old)
            (accepting seat.new (N.told listener.new) spawner.new.told links.new) }
        ensures serves { ServesOn N.Link.told (arc_value self.now.shared.now)
            (serving_state (accepting seat.old (N.told listener.old) spawner.old.told links.old)
            (K.told plant.old))
            (serving_state (accepting seat.new (N.told listener.new) spawner.new.told links.new)
            (K.told plant.new)) result }
    {
        for _ in self.rt.forever() {
            match self.serve_round(seat, listener, spawner, links, plant) {
                Some(end) => return end,
                None => {}
            }
        }
        unreachable!()
    }

    /// Accepts a link, where one is given, and takes orders. None where it goes on.
    fn serve_round<
        N: Listener,
        S: Source + Send + Drop + 'static,
        C: Clock + Send + Drop + 'static,
        K: Sink,
    >(
        &self,
        seat: &mut Seat<TurnNode>,
        listener: &mut N,
        spawner: &mut ThreadSpawner<NodeJob<N::Link, S, C>>,
        links: &mut LinkSeats,
        plant: &mut K,
    ) -> Option<ServingEnd>
    where
        N::Link: Send + 'static,
        requires centre { arc_value self.now.centre.now
            ≡ (arc_value self.now.shared.now).setup.centre }
        requires serving { ServesBehind N.Link.told (arc_value self.now.shared.now)
            (accepting seat.old (N.told listener.old) spawner.old.told links.old) }
        ensures { ServesRound N.Link.told (arc_value self.now.shared.now)
            (serving_state (accepting seat.old (N.told listener.old) spawner.old.told links.old)
            (K.told plant.old))
            (serving_state (accepting seat.new (N.told listener.new) spawner.new.told links.new)
            (K.told plant.new)) result }
    {
        let accepted = self.accept_once(seat, listener, spawner, links);
        match end_by_accept(accepted) {
            Some(end) => Some(end),
            None => self.tell_orders(seat, plant),
        }
    }

    /// Takes orders and tells them to the plant. None where it goes on.
    fn tell_orders<K: Sink>(&self, seat: &mut Seat<TurnNode>, plant: &mut K) -> Option<ServingEnd>
        requires of { IsOf (arc_value self.now.shared.now) seat.old }
        requires centre { arc_value self.now.centre.now
            ≡ (arc_value self.now.shared.now).setup.centre }
        ensures { TakesOrdersOnce (arc_value self.now.shared.now) seat.old seat.new
            (K.told plant.old) (K.told plant.new) result }
    {
        let taker = OrderTaker {
            rt: self.rt,
            alloc: self.alloc,
            centre: self.centre,
            shared: self.shared,
        };
        let taken = taker.take_orders(seat, plant);
        end_by_orders(taken)
    }
}

/// How a round ends by its call of accept, if it does.
fn end_by_accept(accepted: Accepted) -> Option<ServingEnd>
    ensures { result ≡ end_of_accept accepted }
{
    match accepted {
        Accepted::Serving => None,
        Accepted::TurnedAway => None,
        Accepted::NoLink => None,
        Accepted::Fault => Some(ServingEnd::ListenerFault),
        Accepted::NoRoom => Some(ServingEnd::Memory),
        Accepted::Memory => Some(ServingEnd::Memory),
    }
}

/// How a round ends by its taking of orders, if it does.
fn end_by_orders(taken: OrdersTaken) -> Option<ServingEnd>
    ensures { result ≡ end_of_orders taken }
{
    match taken {
        OrdersTaken::Taken => None,
        OrdersTaken::PlantFault => Some(ServingEnd::PlantFault),
        OrdersTaken::Stopped => Some(ServingEnd::Stopped),
        OrdersTaken::Full { weight, limit } => Some(ServingEnd::Full { weight, limit }),
        OrdersTaken::Memory => Some(ServingEnd::Memory),
    }
}
