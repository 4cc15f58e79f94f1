//! What a server gathers once its work has ended.
ghost use Rattle.std.specs.Prelude.{◌≡◌, true, List, [], ◌∷◌, ◌++◌, length, None, is_some};
ghost use Rattle.std.specs.Arc.{arc_value};
ghost use Rattle.outside.specs.Links.Clocks.{ClockTold};
ghost use Rattle.share_turn.specs.Public.{IsOf};
ghost use Rattle.node_server.specs.Turn.Logged.{turn_setup, turn_log};
ghost use Rattle.node_server.specs.NodeCalls.{NodeSeat};
ghost use Rattle.server_main.specs.Run.Accepting.{accepting};
ghost use Rattle.server_main.specs.Run.Gathering.{TicksStarted, TicksGathered, behind_started};
ghost use Rattle.server_main.specs.Run.Gathering.{gathering};
ghost use Rattle.server_main.specs.Run.Gathering.{SeatClaim, Gathers, ClosesOver};
ghost use Rattle.server_main.specs.Working.{InputsTold, telling, inputs_told, IsToGather};
ghost use Rattle.server_main.specs.Gathered.{HasGathered};

use crate::node_run::{NodeRun, Worked};
use crate::run::{Gatherer, Seats, TickSeat, jobs_are_claimed};
use crate::work_end::WorkEnd;
use job_threads::ThreadSpawner;
use node_server::jobs::NodeJob;
use node_server::node::Node;
use node_server::turn::TurnNode;
use outside::Source;
use outside::links::{Clock, Link, Listener};
use share_turn::Seat;
use std::sync::Wait;
use std::thread::Threads;

/// What a server has gathered: the node, what it read, the seats, and how its work ended.
pub(crate) struct Gathered<S, C> {
    pub(crate) node: Node,
    pub(crate) feed: S,
    pub(crate) clock: C,
    pub(crate) seats: Seats,
    pub(crate) work: WorkEnd,
}

impl<'a, R: Threads + Wait + Copy + Send + 'static> NodeRun<'a, R> {
    /// Finishes all jobs, joins their seats, retires the links and takes the node out.
    pub(crate) fn gather<
        N: Listener,
        S: Source + Send + Drop + 'static,
        C: Clock + Send + Drop + 'static,
    >(
        &self,
        mut seat: Seat<TurnNode>,
        listener: &mut N,
        spawner: &mut ThreadSpawner<NodeJob<N::Link, S, C>>,
        worked: Worked<S, C>,
    ) -> Gathered<S, C>
    where
        N::Link: Send + 'static,
        requires started { (given : InputsTold) × IsToGather (telling N.Link.told S.told C.told)
            (arc_value self.now.shared.now) given worked.feed worked.clock
            (accepting seat (N.told listener.old) spawner.old.told worked.links) }
        ensures gathers { (given : InputsTold)
            → (to : IsToGather (telling N.Link.told S.told C.told)
            (arc_value self.now.shared.now) given worked.feed worked.clock
            (accepting seat (N.told listener.old) spawner.old.told worked.links))
            → HasGathered (arc_value self.now.shared.now) given
            (gathering seat (N.told listener.old) worked.links) (length to.serving)
            (N.told listener.new) (inputs_told (S.told result.feed) (C.told result.clock))
            result.seats (turn_log result.node.history) }
        ensures unticked { is_some worked.clock ≡ true → result.seats.ticks ≡ None }
        ensures setup { turn_setup result.node.setup ≡ (arc_value self.now.shared.now).setup }
        ensures left { spawner.new.told.pending ≡ [] }
        ensures faults { spawner.new.told.faults ≡ spawner.old.told.faults }
        ensures work { result.work ≡ worked.work }
    {
        let Worked {
            feed,
            clock,
            mut links,
            work,
        } = worked;
        let own = seat.number();
        let gatherer = Gatherer {
            rt: self.rt,
            shared: self.shared,
        };
        let (feed, fed) = gatherer.gather_feed(&mut seat, spawner, feed);
        let (clock, ticked) = gather_clock(&gatherer, &mut seat, spawner, clock);
        gatherer.finish_links(&mut seat, listener, spawner, &mut links);
        jobs_are_claimed();
        let node = take_node(&gatherer, seat);
        let seats = Seats {
            own,
            feed: fed,
            ticks: ticked,
            links,
        };
        Gathered {
            node,
            feed,
            clock,
            seats,
            work,
        }
    }
}

/// Finishes the job of a clock, where it was started; else it hands the clock on, and no seat.
fn gather_clock<
    R: Threads + Wait + Copy + Send + 'static,
    L: Link + Send + Drop + 'static,
    S: Source + Send + Drop + 'static,
    C: Clock + Send + Drop + 'static,
>(
    gatherer: &Gatherer<'_, R>,
    seat: &mut Seat<TurnNode>,
    spawner: &mut ThreadSpawner<NodeJob<L, S, C>>,
    unticked: Option<C>,
) -> (C, Option<TickSeat>)
    requires of { IsOf gatherer.now.shared.now seat.old }
    requires started { (given : ClockTold) × TicksStarted C.told gatherer.now.shared.now given
        unticked spawner.old.told.pending }
    ensures gathers { (given : ClockTold) → TicksStarted C.told gatherer.now.shared.now given
        unticked spawner.old.told.pending
        → TicksGathered gatherer.now.shared.now seat.old seat.new given (C.told result.0) result.1 }
    ensures left { spawner.new.told ≡ behind_started unticked spawner.old.told }
    ensures unseated { is_some unticked ≡ true → result.1 ≡ None }
{
    match unticked {
        Some(clock) => (clock, None),
        None => gatherer.gather_ticks(seat, spawner, None),
    }
}

/// Takes the node out, once all seats were joined.
fn take_node<R: Threads + Wait + Copy + Send + 'static>(
    gatherer: &Gatherer<'_, R>,
    seat: Seat<TurnNode>,
) -> Node
    requires of { IsOf gatherer.now.shared.now seat }
    ensures setup { turn_setup result.setup ≡ gatherer.now.shared.now.setup }
    ensures over { (own : NodeSeat) (claims : List SeatClaim)
        → Gathers gatherer.now.shared.now own seat claims
        → ClosesOver ((own.number, own.front) ∷ claims ++ own.ended) (turn_log result.history) }
{
    gatherer.close(seat)
}
