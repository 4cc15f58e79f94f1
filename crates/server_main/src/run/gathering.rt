//! The end of a server: its jobs are finished, their seats joined, and their links retired.
ghost use Rattle.std.specs.Prelude.{◌≡◌, ◌≤◌, List, [], ◌∷◌, ◌++◌, length, drop};
ghost use Rattle.outside.specs.Source.{SourceTold};
ghost use Rattle.outside.specs.Links.Clocks.{ClockTold};
ghost use Rattle.share_turn.specs.Entries.{Each};
ghost use Rattle.share_turn.specs.Public.{IsOf};
ghost use Rattle.node_server.specs.Turn.Logged.{turn_setup, turn_log};
ghost use Rattle.node_server.specs.NodeCalls.{NodeSeat};
ghost use Rattle.server_main.specs.Run.Retiring.{AreOut};
ghost use Rattle.server_main.specs.Run.Gathering.{FirstIs, IsFeedJob, IsTicksJob, IsLinkJob};
ghost use Rattle.server_main.specs.Run.Gathering.{IsFeedDone, IsTicksDone, IsLinkDone, TakesFeed};
ghost use Rattle.server_main.specs.Run.Gathering.{TakesTicks, TakesLink, FinishesFeed, FinishesTicks};
ghost use Rattle.server_main.specs.Run.Gathering.{FinishesLinks, gathering, ClosesOver, SeatClaim};
ghost use Rattle.server_main.specs.Run.Gathering.{FeedStarted, TicksStarted, FeedGathered};
ghost use Rattle.server_main.specs.Run.Gathering.{TicksGathered, behind_started, Gathers};

use crate::run::seats::{FeedSeat, LinkSeat, LinkSeats, TickSeat};
use crate::run::threads::finish_thread;
use job_threads::ThreadSpawner;
use node_server::jobs::{NodeDone, NodeJob};
use node_server::node::Node;
use node_server::turn::TurnNode;
use outside::Source;
use outside::links::{Clock, Link, Listener};
use share_turn::{Seat, Shared};
use std::sync::Wait;
use std::thread::Threads;

/// Gathers what comes of the jobs of a shared node.
#[derive(Clone, Copy)]
pub struct Gatherer<'a, R> {
    pub rt: &'a R,
    pub shared: &'a Shared<TurnNode>,
}

impl<'a, R: Threads + Wait + Copy + Send + 'static> Gatherer<'a, R> {
    /// Finishes the job of a feed, where it was started; else it hands the source on.
    pub fn gather_feed<
        L: Link + Send + Drop + 'static,
        S: Source + Send + Drop + 'static,
        C: Clock + Send + Drop + 'static,
    >(
        &self,
        seat: &mut Seat<TurnNode>,
        spawner: &mut ThreadSpawner<NodeJob<L, S, C>>,
        unrun: Option<S>,
    ) -> (S, Option<FeedSeat>)
        requires of { IsOf self.now.shared.now seat.old }
        requires started { (given : SourceTold) × FeedStarted S.told self.now.shared.now given unrun
            spawner.old.told.pending }
        ensures gathers { (given : SourceTold) → FeedStarted S.told self.now.shared.now given unrun
            spawner.old.told.pending
            → FeedGathered self.now.shared.now seat.old seat.new given (S.told result.0) result.1 }
        ensures left { spawner.new.told ≡ behind_started unrun spawner.old.told }
    {
        match unrun {
            Some(source) => (source, None),
            None => {
                let (source, fed) = self.finish_feed(seat, spawner);
                (source, Some(fed))
            }
        }
    }

    /// Finishes the job of a clock, where it was started; else it hands the clock on.
    pub fn gather_ticks<
        L: Link + Send + Drop + 'static,
        S: Source + Send + Drop + 'static,
        C: Clock + Send + Drop + 'static,
    >(
        &self,
        seat: &mut Seat<TurnNode>,
        spawner: &mut ThreadSpawner<NodeJob<L, S, C>>,
        unrun: Option<C>,
    ) -> (C, Option<TickSeat>)
        requires of { IsOf self.now.shared.now seat.old }
        requires started { (given : ClockTold) × TicksStarted C.told self.now.shared.now given unrun
            spawner.old.told.pending }
        ensures gathers { (given : ClockTold) → TicksStarted C.told self.now.shared.now given unrun
            spawner.old.told.pending
            → TicksGathered self.now.shared.now seat.old seat.new given (C.told result.0) result.1 }
        ensures left { spawner.new.told ≡ behind_started unrun spawner.old.told }
    {
        match unrun {
            Some(clock) => (clock, None),
            None => {
                let (clock, ticked) = self.finish_ticks(seat, spawner);
                (clock, Some(ticked))
            }
        }
    }

    /// Finishes the job of a feed, which was started first of those that are left. Its source comes
    /// back, with the number of its seat and its end.
    fn finish_feed<
        L: Link + Send + Drop + 'static,
        S: Source + Send + Drop + 'static,
        C: Clock + Send + Drop + 'static,
    >(
        &self,
        seat: &mut Seat<TurnNode>,
        spawner: &mut ThreadSpawner<NodeJob<L, S, C>>,
    ) -> (S, FeedSeat)
        requires of { IsOf self.now.shared.now seat.old }
        requires first { (given : SourceTold) × FirstIs
            (IsFeedJob S.told self.now.shared.now given) spawner.old.told.pending }
        ensures finishes { (given : SourceTold)
            → FirstIs (IsFeedJob S.told self.now.shared.now given) spawner.old.told.pending
            → FinishesFeed self.now.shared.now seat.old seat.new given (S.told result.0) result.1 }
        ensures left { spawner.new.told
            ≡ record spawner.old.told { pending = drop 1 spawner.old.told.pending } }
    {
        let Some(done) = finish_thread(self.rt, spawner) else {
            unreachable!()
        };
        self.take_feed(seat, done)
    }

    /// Finishes the job of a clock, which was started first of those that are left. The clock comes
    /// back, with the number of its seat and its end.
    fn finish_ticks<
        L: Link + Send + Drop + 'static,
        S: Source + Send + Drop + 'static,
        C: Clock + Send + Drop + 'static,
    >(
        &self,
        seat: &mut Seat<TurnNode>,
        spawner: &mut ThreadSpawner<NodeJob<L, S, C>>,
    ) -> (C, TickSeat)
        requires of { IsOf self.now.shared.now seat.old }
        requires first { (given : ClockTold) × FirstIs
            (IsTicksJob C.told self.now.shared.now given) spawner.old.told.pending }
        ensures finishes { (given : ClockTold)
            → FirstIs (IsTicksJob C.told self.now.shared.now given) spawner.old.told.pending
            → FinishesTicks self.now.shared.now seat.old seat.new given (C.told result.0) result.1 }
        ensures left { spawner.new.told
            ≡ record spawner.old.told { pending = drop 1 spawner.old.told.pending } }
    {
        let Some(done) = finish_thread(self.rt, spawner) else {
            unreachable!()
        };
        self.take_ticks(seat, done)
    }

    /// Finishes the jobs of links, which are all that are left, in the order of their starts. Each
    /// link is retired, and its seat noted.
    pub fn finish_links<
        N: Listener,
        S: Source + Send + Drop + 'static,
        C: Clock + Send + Drop + 'static,
    >(
        &self,
        seat: &mut Seat<TurnNode>,
        listener: &mut N,
        spawner: &mut ThreadSpawner<NodeJob<N::Link, S, C>>,
        links: &mut LinkSeats,
    )
    where
        N::Link: Send + 'static,
        requires of { IsOf self.now.shared.now seat.old }
        requires jobs { Each (IsLinkJob N.Link.told self.now.shared.now)
            spawner.old.told.pending }
        requires rooms { length spawner.old.told.pending ≤ links.old.rooms }
        requires out { AreOut (length spawner.old.told.pending) (N.told listener.old) }
        ensures finishes { FinishesLinks self.now.shared.now
            (length spawner.old.told.pending)
            (gathering seat.old (N.told listener.old) links.old)
            (gathering seat.new (N.told listener.new) links.new) }
        ensures left { spawner.new.told ≡ record spawner.old.told { pending = [] } }
    {
        while let Some(done) = finish_thread(self.rt, spawner) {
            let (link, linked) = self.take_link(seat, done);
            listener.retire(link);
            links.note(Some(linked));
        }
    }

    /// The node, once all seats were joined. It keeps the events of the seat, of those that it had
    /// ended before and of those that it gathered, and has no others.
    pub fn close(&self, seat: Seat<TurnNode>) -> Node
        requires { IsOf self.now.shared.now seat }
        ensures setup { turn_setup result.setup ≡ self.now.shared.now.setup }
        ensures over { (own : NodeSeat) (claims : List SeatClaim)
            → Gathers self.now.shared.now own seat claims
            → ClosesOver ((own.number, own.front) ∷ claims ++ own.ended)
            (turn_log result.history) }
    {
        let TurnNode { node } = self.shared.close(self.rt, seat);
        node
    }

    /// Takes apart what came of a feed's job, and joins its seat.
    fn take_feed<L: Link, S: Source, C: Clock>(
        &self,
        seat: &mut Seat<TurnNode>,
        done: NodeDone<L, S, C>,
    ) -> (S, FeedSeat)
        requires of { IsOf self.now.shared.now seat.old }
        requires done { IsFeedDone self.now.shared.now done }
        ensures { TakesFeed self.now.shared.now seat.old seat.new done result.0 result.1 }
    {
        match done {
            NodeDone::Feed {
                seat: other,
                source,
                end,
            } => {
                let number = other.number();
                self.shared.join(seat, other);
                (source, FeedSeat { seat: number, end })
            }
            NodeDone::Conn { .. } => unreachable!(),
            NodeDone::Ticks { .. } => unreachable!(),
        }
    }

    /// Takes apart what came of a clock's job, and joins its seat.
    fn take_ticks<L: Link, S: Source, C: Clock>(
        &self,
        seat: &mut Seat<TurnNode>,
        done: NodeDone<L, S, C>,
    ) -> (C, TickSeat)
        requires of { IsOf self.now.shared.now seat.old }
        requires done { IsTicksDone self.now.shared.now done }
        ensures { TakesTicks self.now.shared.now seat.old seat.new done result.0 result.1 }
    {
        match done {
            NodeDone::Ticks {
                seat: other,
                clock,
                end,
            } => {
                let number = other.number();
                self.shared.join(seat, other);
                (clock, TickSeat { seat: number, end })
            }
            NodeDone::Conn { .. } => unreachable!(),
            NodeDone::Feed { .. } => unreachable!(),
        }
    }

    /// Takes apart what came of a link's job, and joins its seat.
    fn take_link<L: Link, S: Source, C: Clock>(
        &self,
        seat: &mut Seat<TurnNode>,
        done: NodeDone<L, S, C>,
    ) -> (L, LinkSeat)
        requires of { IsOf self.now.shared.now seat.old }
        requires done { IsLinkDone self.now.shared.now done }
        ensures { TakesLink self.now.shared.now seat.old seat.new done result.0 result.1 }
    {
        match done {
            NodeDone::Conn {
                seat: other,
                link,
                end,
            } => {
                let number = other.number();
                self.shared.join(seat, other);
                (link, LinkSeat { seat: number, end })
            }
            NodeDone::Feed { .. } => unreachable!(),
            NodeDone::Ticks { .. } => unreachable!(),
        }
    }
}
