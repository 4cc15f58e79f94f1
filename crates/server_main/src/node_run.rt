//! The work of a server's own thread over a shared node.
ghost use Rattle.std.specs.Prelude.{◌≡◌, []};
ghost use Rattle.std.specs.Arc.{arc_value};
ghost use Rattle.outside.specs.Links.Listeners.{RetiredIsWithin};
ghost use Rattle.server_main.specs.Run.Accepting.{accepting};
ghost use Rattle.server_main.specs.Run.Beginning.{IsFirstSeat};
ghost use Rattle.server_main.specs.Run.Serving.{ServesBehind, KeepsServing};
ghost use Rattle.server_main.specs.Run.Rounds.{serving_state};
ghost use Rattle.server_main.specs.Working.{telling, inputs_told, no_links, WorksBehind};
ghost use Rattle.server_main.specs.Working.{WorksToEnd};

use crate::rounds::rounds_are_done;
use crate::run::{Beginning, Begun, LinkSeats, ServingEnd, Starter};
use crate::work_end::WorkEnd;
use bilateral::Centre;
use job_threads::ThreadSpawner;
use node_server::jobs::NodeJob;
use node_server::turn::TurnNode;
use outside::links::{Clock, Listener};
use outside::{Sink, Source};
use share_turn::{Seat, Shared};
use std::alloc::Global;
use std::sync::{Arc, Wait};
use std::thread::Threads;

/// The feed and the clock that a server reads.
pub(crate) struct Inputs<S, C> {
    pub(crate) feed: S,
    pub(crate) clock: C,
}

/// What a server has when its work has ended: the feed and the clock whose jobs weren't started,
/// the seats of links that were turned away, and how the work ended.
pub(crate) struct Worked<S, C> {
    pub(crate) feed: Option<S>,
    pub(crate) clock: Option<C>,
    pub(crate) links: LinkSeats,
    pub(crate) work: WorkEnd,
}

/// Serves a shared node of this centre.
#[derive(Drop)]
pub(crate) struct NodeRun<'a, R> {
    pub(crate) rt: &'a R,
    pub(crate) alloc: Global,
    pub(crate) centre: &'a Arc<Centre>,
    pub(crate) shared: &'a Arc<Shared<TurnNode>>,
}

impl<'a, R: Threads + Wait + Copy + Send + 'static> NodeRun<'a, R> {
    /// Starts the jobs of the feed and of the clock, accepts links and tells orders to the plant,
    /// until that ends. Then it stops the node, where it wasn't stopped.
    pub(crate) fn work<
        N: Listener,
        S: Source + Send + Drop + 'static,
        C: Clock + Send + Drop + 'static,
        K: Sink,
    >(
        &self,
        seat: &mut Seat<TurnNode>,
        listener: &mut N,
        plant: &mut K,
        spawner: &mut ThreadSpawner<NodeJob<N::Link, S, C>>,
        inputs: Inputs<S, C>,
    ) -> Worked<S, C>
    where
        N::Link: Send + 'static,
        requires centre { arc_value self.now.centre.now
            ≡ (arc_value self.now.shared.now).setup.centre }
        requires first { IsFirstSeat (arc_value self.now.shared.now) seat.old }
        requires none { spawner.old.told.pending ≡ [] }
        requires within { RetiredIsWithin (N.told listener.old) }
        ensures { WorksToEnd (telling N.Link.told S.told C.told) (arc_value self.now.shared.now)
            (inputs_told (S.told inputs.feed) (C.told inputs.clock))
            (serving_state (accepting seat.old (N.told listener.old) spawner.old.told no_links)
            (K.told plant.old))
            (serving_state (accepting seat.new (N.told listener.new) spawner.new.told
            result.links) (K.told plant.new)) result.feed result.clock result.work }
    {
        let starter = Starter {
            rt: self.rt,
            alloc: self.alloc,
            centre: self.centre,
            shared: self.shared,
        };
        let Inputs { feed, clock } = inputs;
        let begun = starter.begin_jobs(seat, spawner, feed, clock);
        let Starter {
            rt: _,
            alloc: _,
            centre: _,
            shared: _,
        } = starter;
        let worked = self.work_behind(seat, listener, plant, spawner, begun);
        rounds_are_done::<N::Link, S, C>();
        self.stop_behind(seat, worked.work);
        worked
    }

    /// Accepts links and tells orders to the plant, where the beginning was whole.
    fn work_behind<
        N: Listener,
        S: Source + Send + Drop + 'static,
        C: Clock + Send + Drop + 'static,
        K: Sink,
    >(
        &self,
        seat: &mut Seat<TurnNode>,
        listener: &mut N,
        plant: &mut K,
        spawner: &mut ThreadSpawner<NodeJob<N::Link, S, C>>,
        begun: Begun<S, C>,
    ) -> Worked<S, C>
    where
        N::Link: Send + 'static,
        requires centre { arc_value self.now.centre.now
            ≡ (arc_value self.now.shared.now).setup.centre }
        requires serving { ServesBehind N.Link.told (arc_value self.now.shared.now)
            (accepting seat.old (N.told listener.old) spawner.old.told no_links) }
        ensures keeps { KeepsServing N.Link.told (arc_value self.now.shared.now)
            (accepting seat.old (N.told listener.old) spawner.old.told no_links)
            (accepting seat.new (N.told listener.new) spawner.new.told result.links) }
        ensures works { WorksBehind N.Link.told (arc_value self.now.shared.now)
            (serving_state (accepting seat.old (N.told listener.old) spawner.old.told no_links)
            (K.told plant.old))
            (serving_state (accepting seat.new (N.told listener.new) spawner.new.told
            result.links) (K.told plant.new)) begun.end result.work }
        ensures feed { result.feed ≡ begun.feed }
        ensures clock { result.clock ≡ begun.clock }
    {
        let Begun { feed, clock, end } = begun;
        let mut links = LinkSeats::new(self.alloc);
        match end {
            Beginning::Whole => {
                let starter = Starter {
                    rt: self.rt,
                    alloc: self.alloc,
                    centre: self.centre,
                    shared: self.shared,
                };
                let end = starter.serve_on(seat, listener, spawner, &mut links, plant);
                let Starter {
                    rt: _,
                    alloc: _,
                    centre: _,
                    shared: _,
                } = starter;
                Worked {
                    feed,
                    clock,
                    links,
                    work: WorkEnd::Ended(end),
                }
            }
            Beginning::Refused => Worked {
                feed,
                clock,
                links,
                work: WorkEnd::Refused,
            },
            Beginning::Memory => Worked {
                feed,
                clock,
                links,
                work: WorkEnd::Ended(ServingEnd::Memory),
            },
        }
    }
}
