//! The beginning of a server: a node is made and shared, and two jobs are started.
ghost use Rattle.std.specs.Prelude.{◌≡◌, ◌≤◌, ◌^◌, [], IfOk};
ghost use Rattle.std.specs.Arc.{arc_value};
ghost use Rattle.share_turn.specs.Public.{IsOf};
ghost use Rattle.server_main.specs.declared.run.starting.JobInput.TheVariants as inputs;
ghost use Rattle.server_main.specs.Run.Starting.{StartsAs};
ghost use Rattle.server_main.specs.Run.Beginning.{IsFirstSeat, BeginsJobs, EndsBeginning};
ghost use Rattle.server_main.specs.Run.Beginning.{IsFeedInput, IsClockInput};

use crate::run::starting::{JobInput, Starter};
use bilateral::Centre;
use job_threads::ThreadSpawner;
use node_server::jobs::NodeJob;
use node_server::node::Node;
use node_server::turn::TurnNode;
use outside::Source;
use outside::links::{Clock, Link, Start};
use share_turn::{Seat, Shared};
use std::alloc::{AllocError, Global};
use std::sync::{Arc, Wait};
use std::thread::Threads;

/// How a beginning ended.
#[derive(Clone, Copy, Debug, PartialEq, Eq)]
pub enum Beginning {
    /// Both jobs were started.
    Whole,
    /// A job was refused, which the spawner has counted.
    Refused,
    /// There was no memory for a job.
    Memory,
}

/// The feed and the clock whose jobs weren't started, and how the beginning ended.
pub struct Begun<S, C> {
    pub feed: Option<S>,
    pub clock: Option<C>,
    pub end: Beginning,
}

/// A node of this centre, which threads may share, and its first seat.
pub fn share_node(
    alloc: Global,
    centre: &Arc<Centre>,
    limit: u64,
) -> Result<(Shared<TurnNode>, Seat<TurnNode>), AllocError>
    requires { limit ≤ 2 ^ 31 }
    ensures setup { IfOk result (λ r.
        r.0.setup ≡ record { centre = arc_value centre.now; limit = limit }) }
    ensures seat { IfOk result (λ r. IsFirstSeat r.0 r.1) }
{
    let node = Node::new(alloc, centre.clone()?, limit)?;
    Shared::new(alloc, TurnNode { node })
}

impl<'a, R: Threads + Wait + Copy + Send + 'static> Starter<'a, R> {
    /// Starts the job of a feed, then that of a clock. Where one isn't started, no later one is.
    pub fn begin_jobs<
        L: Link + Send + Drop + 'static,
        S: Source + Send + Drop + 'static,
        C: Clock + Send + Drop + 'static,
    >(
        &self,
        seat: &mut Seat<TurnNode>,
        spawner: &mut ThreadSpawner<NodeJob<L, S, C>>,
        feed: S,
        clock: C,
    ) -> Begun<S, C>
        requires of { IsOf (arc_value self.now.shared.now) seat.old }
        requires centre { arc_value self.now.centre.now
            ≡ (arc_value self.now.shared.now).setup.centre }
        requires none { spawner.old.told.pending ≡ [] }
        ensures { BeginsJobs S.told C.told (arc_value self.now.shared.now) (S.told feed)
            (C.told clock) seat.old seat.new spawner.old.told spawner.new.told result }
    {
        match self.start_feed(seat, spawner, feed) {
            Start::Started => {
                let start = self.start_ticks(seat, spawner, clock);
                end_beginning(start)
            }
            Start::Memory(feed) => Begun {
                feed: Some(feed),
                clock: Some(clock),
                end: Beginning::Memory,
            },
            Start::Refused(feed) => Begun {
                feed: Some(feed),
                clock: Some(clock),
                end: Beginning::Refused,
            },
        }
    }

    /// Starts the job of a feed, which comes back where it isn't started.
    fn start_feed<
        L: Link + Send + Drop + 'static,
        S: Source + Send + Drop + 'static,
        C: Clock + Send + Drop + 'static,
    >(
        &self,
        seat: &mut Seat<TurnNode>,
        spawner: &mut ThreadSpawner<NodeJob<L, S, C>>,
        feed: S,
    ) -> Start<S>
        requires of { IsOf (arc_value self.now.shared.now) seat.old }
        requires centre { arc_value self.now.centre.now
            ≡ (arc_value self.now.shared.now).setup.centre }
        ensures { StartsAs (λ (s : S). inputs.Feed s) (arc_value self.now.shared.now) feed seat.old
            seat.new spawner.old.told spawner.new.told result }
    {
        match self.start_job(seat, spawner, JobInput::Feed(feed)) {
            Start::Started => Start::Started,
            Start::Memory(back) => Start::Memory(feed_in(back)),
            Start::Refused(back) => Start::Refused(feed_in(back)),
        }
    }

    /// Starts the job of a clock, which comes back where it isn't started.
    fn start_ticks<
        L: Link + Send + Drop + 'static,
        S: Source + Send + Drop + 'static,
        C: Clock + Send + Drop + 'static,
    >(
        &self,
        seat: &mut Seat<TurnNode>,
        spawner: &mut ThreadSpawner<NodeJob<L, S, C>>,
        clock: C,
    ) -> Start<C>
        requires of { IsOf (arc_value self.now.shared.now) seat.old }
        requires centre { arc_value self.now.centre.now
            ≡ (arc_value self.now.shared.now).setup.centre }
        ensures { StartsAs (λ (c : C). inputs.Clock c) (arc_value self.now.shared.now) clock
            seat.old seat.new spawner.old.told spawner.new.told result }
    {
        match self.start_job(seat, spawner, JobInput::Clock(clock)) {
            Start::Started => Start::Started,
            Start::Memory(back) => Start::Memory(clock_in(back)),
            Start::Refused(back) => Start::Refused(clock_in(back)),
        }
    }
}

/// The feed of this input.
fn feed_in<L, S, C>(input: JobInput<L, S, C>) -> S
    requires { IsFeedInput input }
    ensures { input ≡ inputs.Feed result }
{
    match input {
        JobInput::Feed(source) => source,
        JobInput::Link(_) => unreachable!(),
        JobInput::Clock(_) => unreachable!(),
    }
}

/// The clock of this input.
fn clock_in<L, S, C>(input: JobInput<L, S, C>) -> C
    requires { IsClockInput input }
    ensures { input ≡ inputs.Clock result }
{
    match input {
        JobInput::Clock(clock) => clock,
        JobInput::Link(_) => unreachable!(),
        JobInput::Feed(_) => unreachable!(),
    }
}

/// How a beginning ends by the start of the clock's job, where the feed's was started.
fn end_beginning<S, C>(start: Start<C>) -> Begun<S, C>
    ensures { EndsBeginning start result }
{
    match start {
        Start::Started => Begun {
            feed: None,
            clock: None,
            end: Beginning::Whole,
        },
        Start::Memory(clock) => Begun {
            feed: None,
            clock: Some(clock),
            end: Beginning::Memory,
        },
        Start::Refused(clock) => Begun {
            feed: None,
            clock: Some(clock),
            end: Beginning::Refused,
        },
    }
}
