//! A server of a centre's tables, over what lies outside it.
ghost use Rattle.std.specs.Prelude.{◌≡◌, ◌≤◌, ◌^◌, [], None, option_map, IfSome, IfOk};
ghost use Rattle.std.specs.Arc.{arc_value};
ghost use Rattle.outside.specs.Links.Listeners.{RetiredIsWithin};
ghost use Rattle.node_server.specs.Turn.Logged.{turn_setup, turn_log};
ghost use Rattle.server_main.specs.Run.Beginning.{IsFirstSeat};
ghost use Rattle.server_main.specs.Serving.{server_told, IsServed};
ghost use Rattle.server_main.specs.Rounds.Rounds.{is_plant_end};
ghost use Rattle.server_main.specs.ServedParts.{is_plant_work};

use crate::ending::serve_end;
use crate::gathered::Gathered;
use crate::node_run::{Inputs, NodeRun};
use crate::plant::orders_are_told_once;
use crate::run::{LinkSeats, Seats, ServingEnd, share_node};
use crate::serve_end::ServeEnd;
use crate::telling::tell_left;
use crate::work_end::WorkEnd;
use bilateral::Centre;
use job_threads::ThreadSpawner;
use node_server::jobs::NodeJob;
use node_server::node::Node;
use node_server::turn::TurnNode;
use outside::links::{Clock, Listener};
use outside::{Sink, Source};
use share_turn::{Seat, Shared};
use std::alloc::{AllocError, Global};
use std::sync::{Arc, Wait};
use std::thread::Threads;

/// What comes of a server's run: the node, where there was memory for one, the feed and the clock
/// that were handed in, the seats, and how it ended.
#[derive(Drop)]
pub struct Served<S, C> {
    pub node: Option<Node>,
    pub feed: S,
    pub clock: C,
    pub seats: Seats,
    pub end: ServeEnd,
}

/// A server of a centre's tables. The history of its node weighs at most so many octets.
#[derive(Clone, Copy)]
pub struct Server<'a, R> {
    pub rt: &'a R,
    pub alloc: Global,
    pub centre: &'a Arc<Centre>,
    pub limit: u64,
}

impl<'a, R: Threads + Wait + Copy + Send + 'static> Server<'a, R> {
    /// Serves a node of these tables: the feed and the clock are told to it, each link that the
    /// listener gives is served, each in a thread of its own, and its orders are told to the plant.
    /// It ends when the node was stopped, and all that was started has ended.
    pub fn serve<
        N: Listener,
        S: Source + Send + Drop + 'static,
        C: Clock + Send + Drop + 'static,
        K: Sink,
    >(
        &self,
        listener: &mut N,
        plant: &mut K,
        spawner: &mut ThreadSpawner<NodeJob<N::Link, S, C>>,
        feed: S,
        clock: C,
    ) -> Served<S, C>
    where
        N::Link: Send + 'static,
        requires limit { self.now.limit ≤ 2 ^ 31 }
        requires none { spawner.old.told.pending ≡ [] }
        requires within { RetiredIsWithin (N.told listener.old) }
        ensures serves { IsServed
            (record { centre = arc_value self.now.centre.now; limit = self.now.limit })
            (server_told (N.told listener.old) (K.told plant.old) (S.told feed) (C.told clock)
            spawner.old.told.faults)
            (server_told (N.told listener.new) (K.told plant.new) (S.told result.feed)
            (C.told result.clock) spawner.new.told.faults)
            (option_map (λ n. turn_log n.history) result.node) result.seats result.end }
        ensures setup { IfSome result.node (λ n. turn_setup n.setup
            ≡ record { centre = arc_value self.now.centre.now; limit = self.now.limit }) }
        ensures left { spawner.new.told.pending ≡ [] }
    {
        match self.share() {
            Ok(first) => {
                let (shared, seat) = first;
                let run = NodeRun {
                    rt: self.rt,
                    alloc: self.alloc,
                    centre: self.centre,
                    shared: &shared,
                };
                run.serve_node(seat, listener, plant, spawner, Inputs { feed, clock })
            }
            Err(_) => unserved(self.alloc, feed, clock),
        }
    }

    /// A node of these tables, shared, and its first seat.
    fn share(&self) -> Result<(Arc<Shared<TurnNode>>, Seat<TurnNode>), AllocError>
        requires { self.now.limit ≤ 2 ^ 31 }
        ensures setup { IfOk result (λ r. (arc_value r.0).setup
            ≡ record { centre = arc_value self.now.centre.now; limit = self.now.limit }) }
        ensures seat { IfOk result (λ r. IsFirstSeat (arc_value r.0) r.1) }
    {
        let (shared, seat) = share_node(self.alloc, self.centre, self.limit)?;
        let shared = Arc::new(self.alloc, shared)?;
        Ok((shared, seat))
    }
}

impl<'a, R: Threads + Wait + Copy + Send + 'static> NodeRun<'a, R> {
    /// Serves the node by its first seat, up to the end.
    fn serve_node<
        N: Listener,
        S: Source + Send + Drop + 'static,
        C: Clock + Send + Drop + 'static,
        K: Sink,
    >(
        &self,
        mut seat: Seat<TurnNode>,
        listener: &mut N,
        plant: &mut K,
        spawner: &mut ThreadSpawner<NodeJob<N::Link, S, C>>,
        inputs: Inputs<S, C>,
    ) -> Served<S, C>
    where
        N::Link: Send + 'static,
        requires centre { arc_value self.now.centre.now
            ≡ (arc_value self.now.shared.now).setup.centre }
        requires first { IsFirstSeat (arc_value self.now.shared.now) seat }
        requires none { spawner.old.told.pending ≡ [] }
        requires within { RetiredIsWithin (N.told listener.old) }
        ensures serves { IsServed (arc_value self.now.shared.now).setup
            (server_told (N.told listener.old) (K.told plant.old) (S.told inputs.feed)
            (C.told inputs.clock) spawner.old.told.faults)
            (server_told (N.told listener.new) (K.told plant.new) (S.told result.feed)
            (C.told result.clock) spawner.new.told.faults)
            (option_map (λ n. turn_log n.history) result.node) result.seats result.end }
        ensures setup { IfSome result.node (λ n. turn_setup n.setup
            ≡ (arc_value self.now.shared.now).setup) }
        ensures left { spawner.new.told.pending ≡ [] }
    {
        let worked = self.work(&mut seat, listener, plant, spawner, inputs);
        let gathered = self.gather(seat, listener, spawner, worked);
        let Gathered {
            node,
            feed,
            clock,
            seats,
            work,
        } = gathered;
        orders_are_told_once();
        let failed = tell_left(plant, self.centre, &node, is_plant_fault(work));
        let end = serve_end(work, failed, &seats);
        Served {
            node: Some(node),
            feed,
            clock,
            seats,
            end,
        }
    }
}

/// True exactly where the work ended by a write to the plant that failed.
fn is_plant_fault(work: WorkEnd) -> bool
    ensures { result ≡ is_plant_work work }
{
    match work {
        WorkEnd::Refused => false,
        WorkEnd::Ended(end) => is_fault_of_plant(end),
    }
}

/// True exactly where the rounds ended so.
fn is_fault_of_plant(end: ServingEnd) -> bool
    ensures { result ≡ is_plant_end end }
{
    match end {
        ServingEnd::PlantFault => true,
        ServingEnd::Stopped => false,
        ServingEnd::ListenerFault => false,
        ServingEnd::Full { .. } => false,
        ServingEnd::Memory => false,
    }
}

/// What comes of a server for whose node there was no memory.
fn unserved<S, C>(alloc: Global, feed: S, clock: C) -> Served<S, C>
    ensures { result ≡ record {
      node = None;
      feed = feed;
      clock = clock;
      seats = record {
        own = 0;
        feed = None;
        ticks = None;
        links = record { seats = []; rooms = 0 };
      };
      end = ServeEnd.Memory;
    } }
{
    Served {
        node: None,
        feed,
        clock,
        seats: Seats {
            own: 0,
            feed: None,
            ticks: None,
            links: LinkSeats::new(alloc),
        },
        end: ServeEnd::Memory,
    }
}
