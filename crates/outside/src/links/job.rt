//! Work for threads, and what starts them.
ghost use Rattle.std.specs.Prelude.{◌≡◌};
ghost use Rattle.outside.specs.Links.Jobs.{SpawnerTold, StartsJob, FinishesFirst};

use std::sync::Wait;
use std::thread::Threads;

/// Work for a thread of its own.
pub trait Job {
    type Done;

    /// What may come of the work.
    ghost may_give: { Self → Self.Done → Type 0 };

    /// Does the work. It may wait.
    fn run<R: Wait>(self, rt: &R) -> Self::Done
        ensures { may_give self result };
}

/// How a start ended.
#[derive(Debug, Drop)]
pub enum Start<J> {
    /// The job runs.
    Started,
    /// Memory ran out. The job comes back, and nothing of it ran.
    Memory(J),
    /// No thread could be made, which was counted as a fault. The job comes back, and nothing of it
    /// ran.
    Refused(J),
}

/// Starts jobs, and hands back what came of them in the order of their starts.
pub trait Spawner<J: Job> {
    /// The jobs that were started and not handed back yet, in order, and its faults.
    ghost told: { Self → SpawnerTold J };

    /// Starts the job in a thread of its own.
    fn start<R: Threads + Wait>(&mut self, rt: &R, job: J) -> Start<J>
        ensures { StartsJob (told self.old) (told self.new) job result };

    /// Waits for the job that was started first among those not handed back. None exactly where all
    /// were handed back.
    fn finish_one<R: Threads + Wait>(&mut self, rt: &R) -> Option<J::Done>
        ensures { FinishesFirst J.may_give (told self.old) (told self.new) result };

    /// The number of faults so far. It stands still at the type's end.
    fn faults(&self) -> u64
        ensures { result ≡ (told self.now).faults };
}
