//! The threads of a server's jobs.
ghost use Rattle.outside.specs.Links.Jobs.{StartsJob, FinishesFirst};
ghost use Rattle.node_server.specs.Jobs.Running.{MayComeOfJob};

use job_threads::ThreadSpawner;
use node_server::jobs::{NodeDone, NodeJob};
use outside::Source;
use outside::links::{Clock, Link, Start};
use std::sync::Wait;
use std::thread::Threads;

/// Starts a job in a thread of its own.
pub(crate) fn start_thread<R, L, S, C>(
    rt: &R,
    spawner: &mut ThreadSpawner<NodeJob<L, S, C>>,
    job: NodeJob<L, S, C>,
) -> Start<NodeJob<L, S, C>>
where
    R: Threads + Wait + Copy + Send + 'static,
    L: Link + Send + Drop + 'static,
    S: Source + Send + Drop + 'static,
    C: Clock + Send + Drop + 'static,
    ensures { StartsJob spawner.old.told spawner.new.told job result }
{
    spawner.start(rt, job)
}

/// Waits for the job that was started first of those that are left. None exactly where none is.
pub(crate) fn finish_thread<R, L, S, C>(
    rt: &R,
    spawner: &mut ThreadSpawner<NodeJob<L, S, C>>,
) -> Option<NodeDone<L, S, C>>
where
    R: Threads + Wait + Copy + Send + 'static,
    L: Link + Send + Drop + 'static,
    S: Source + Send + Drop + 'static,
    C: Clock + Send + Drop + 'static,
    ensures { FinishesFirst (MayComeOfJob L.told S.told C.told) spawner.old.told spawner.new.told
        result }
{
    spawner.finish_one(rt)
}
