//! The start of the jobs of a shared node, each with a seat of its own.
ghost use Rattle.std.specs.Prelude.{◌≡◌, [], ◌++◌};
ghost use Rattle.std.specs.Arc.{arc_value};
ghost use Rattle.share_turn.specs.Entries.{own};
ghost use Rattle.share_turn.specs.Public.{IsOf, numbers};
ghost use Rattle.server_main.specs.Run.Gathering.{HasFreshSeat};
ghost use Rattle.server_main.specs.Run.Starting.{seat_of, input_of, node_of, TakesBack};
ghost use Rattle.server_main.specs.Run.Starting.{StartsJobOn};

use crate::run::threads::start_thread;
use bilateral::Centre;
use job_threads::ThreadSpawner;
use node_server::jobs::{JobParts, NodeJob};
use node_server::turn::TurnNode;
use outside::Source;
use outside::links::{Clock, Link, Start};
use share_turn::{Seat, Shared};
use std::alloc::Global;
use std::sync::{Arc, Wait};
use std::thread::Threads;

/// What a job works on.
#[derive(Drop)]
pub enum JobInput<L, S, C> {
    /// A link, which is served.
    Link(L),
    /// A feed, which is told to the node.
    Feed(S),
    /// A clock, which is told to the node.
    Clock(C),
}

/// Starts jobs of a shared node, each by a seat that is split from the own one. Where a job isn't
/// started, its seat is joined again: else the node could never be closed.
pub struct Starter<'a, R> {
    pub rt: &'a R,
    pub alloc: Global,
    pub centre: &'a Arc<Centre>,
    pub shared: &'a Arc<Shared<TurnNode>>,
}

impl<'a, R: Threads + Wait + Copy + Send + 'static> Starter<'a, R> {
    /// Starts a job on this input, which comes back where it isn't started.
    pub fn start_job<
        L: Link + Send + Drop + 'static,
        S: Source + Send + Drop + 'static,
        C: Clock + Send + Drop + 'static,
    >(
        &self,
        seat: &mut Seat<TurnNode>,
        spawner: &mut ThreadSpawner<NodeJob<L, S, C>>,
        input: JobInput<L, S, C>,
    ) -> Start<JobInput<L, S, C>>
        requires of { IsOf (arc_value self.now.shared.now) seat.old }
        requires centre { arc_value self.now.centre.now
            ≡ (arc_value self.now.shared.now).setup.centre }
        ensures { StartsJobOn (arc_value self.now.shared.now) input seat.old seat.new
            spawner.old.told spawner.new.told result }
    {
        let other = self.shared.split(self.rt, seat);
        let Ok(centre) = self.centre.clone() else {
            join_again(self.shared, seat, other);
            return Start::Memory(input);
        };
        let Ok(shared) = self.shared.clone() else {
            join_again(self.shared, seat, other);
            return Start::Memory(input);
        };
        let job = job_on(self.alloc, centre, shared, other, input);
        match start_thread(self.rt, spawner, job) {
            Start::Started => Start::Started,
            Start::Memory(back) => Start::Memory(take_back(self.shared, seat, back)),
            Start::Refused(back) => Start::Refused(take_back(self.shared, seat, back)),
        }
    }
}

/// The job on this input.
fn job_on<L, S, C>(
    alloc: Global,
    centre: Arc<Centre>,
    shared: Arc<Shared<TurnNode>>,
    seat: Seat<TurnNode>,
    input: JobInput<L, S, C>,
) -> NodeJob<L, S, C>
    requires centre { arc_value centre ≡ (arc_value shared).setup.centre }
    requires of { IsOf (arc_value shared) seat }
    requires none { own seat.number seat.front ≡ [] }
    ensures input { input_of result ≡ input }
    ensures seat { seat_of result ≡ seat }
    ensures node { node_of result ≡ arc_value shared }
{
    match input {
        JobInput::Link(link) => NodeJob::new(JobParts::Conn {
            centre,
            shared,
            seat,
            link,
            alloc,
        }),
        JobInput::Feed(source) => NodeJob::new(JobParts::Feed {
            centre,
            shared,
            seat,
            source,
            alloc,
        }),
        JobInput::Clock(clock) => NodeJob::new(JobParts::Ticks {
            shared,
            seat,
            clock,
            alloc,
        }),
    }
}

/// Joins a seat again that was split for a job, and has seen what the own one has seen.
fn join_again(shared: &Shared<TurnNode>, seat: &mut Seat<TurnNode>, other: Seat<TurnNode>)
    requires of { IsOf shared.now seat.old }
    requires fresh { HasFreshSeat shared.now shared.now other }
    requires front { other.front ≡ seat.old.front }
    ensures back { TakesBack shared.now 1 seat.old seat.new }
    ensures joins { seat.new.ended ≡ numbers other ++ seat.old.ended }
{
    shared.join(seat, other);
}

/// Takes a job apart that wasn't started, and joins its seat, which has seen what the own one has
/// seen.
fn take_back<L, S, C>(
    shared: &Shared<TurnNode>,
    seat: &mut Seat<TurnNode>,
    job: NodeJob<L, S, C>,
) -> JobInput<L, S, C>
    requires of { IsOf shared.now seat.old }
    requires fresh { HasFreshSeat shared.now (node_of job) (seat_of job) }
    requires front { (seat_of job).front ≡ seat.old.front }
    ensures input { result ≡ input_of job }
    ensures back { TakesBack shared.now 1 seat.old seat.new }
    ensures joins { seat.new.ended ≡ numbers (seat_of job) ++ seat.old.ended }
{
    match job.into_parts() {
        JobParts::Conn {
            seat: other,
            link,
            ..
        } => {
            shared.join(seat, other);
            JobInput::Link(link)
        }
        JobParts::Feed {
            seat: other,
            source,
            ..
        } => {
            shared.join(seat, other);
            JobInput::Feed(source)
        }
        JobParts::Ticks {
            seat: other,
            clock,
            ..
        } => {
            shared.join(seat, other);
            JobInput::Clock(clock)
        }
    }
}
