//! One job in a thread of its own.
ghost use Rattle.std.specs.Prelude.{◌≡◌, Bool, ⊤};
ghost use Rattle.job_threads.specs.Threading.{ComesOf, IsSpawned};
ghost use Rattle.job_threads.specs.Threading as own;

use outside::links::Job;
use std::alloc::Global;
use std::marker::Model;
use std::snapshot::Snapshot;
use std::sync::atomic::{AtomicBool, Ordering};
use std::sync::{Arc, Wait};
use std::thread;
use std::thread::{Promise, PromisedHandle, Threads};

/// What a thread makes of its job.
#[derive(Drop)]
pub enum Outcome<J, D> {
    /// The job ran, and this came of it.
    Ran(D),
    /// The job was called back before it ran.
    Unrun(J),
}

/// What comes of a thread comes of this job.
#[derive(Drop)]
pub struct OfJob<J> {
    pub job: Snapshot<J>,
}

impl<J: Job> Promise<Outcome<J, J::Done>> for OfJob<J> {
    ghost kept_by = { λ promise outcome. ComesOf J.may_give promise.job.value outcome };
}

/// A thread that was started for a job, and whether it is over.
#[derive(Drop)]
pub struct JobThread<J: Job> {
    handle: PromisedHandle<Outcome<J, J::Done>, OfJob<J>>,
    is_over: Arc<AtomicBool>,
}

// What contracts see: the job.
impl<J: Job> Model for JobThread<J> {
    ghost Value = { J };

    ghost view = { λ s. s.handle.promise.job.value };
}

/// A thread that does a job.
pub trait Running<J: Job> {
    /// The job.
    ghost job_of: { Self → J };

    /// What the thread may answer that is asked whether it is over.
    ghost over: { Self → Bool → Type 0 };

    /// Whether the job has run: the thread then ends at once.
    fn is_over(&self) -> bool
        ensures { over self.now result };

    /// Waits for what comes of the job.
    fn join<R: Threads + Wait>(self, rt: &R) -> J::Done
        ensures { J.may_give (job_of self) result };
}

impl<J: Job> Running<J> for JobThread<J> {
    ghost job_of = { λ thread. thread };

    ghost over = { λ thread answer. ⊤ };

    fn is_over(&self) -> bool {
        self.is_over.load(Ordering::SeqCst)
    }

    fn join<R: Threads + Wait>(self, rt: &R) -> J::Done {
        match self.handle.join(rt) {
            Outcome::Ran(done) => done,
            Outcome::Unrun(job) => wait_with(rt, job),
        }
    }
}

/// Why no thread was started for a job. Nothing of the job ran, and it comes back.
#[derive(Drop)]
pub enum Unstarted<J> {
    /// Memory ran out.
    Memory(J),
    /// No thread could be made.
    Refused(J),
}

impl<J> Unstarted<J> {
    /// Whether no thread could be made.
    pub fn is_refused(&self) -> bool
        ensures { result ≡ own.is_refused self.now }
    {
        match self {
            Unstarted::Memory(_) => false,
            Unstarted::Refused(_) => true,
        }
    }
}

/// Runs the job, and says last that it is over. A job of which that is said before was called back:
/// it isn't run.
fn run_unless<J: Job, R: Wait + Copy>(
    rt: R,
    job: J,
    is_over: Arc<AtomicBool>,
) -> Outcome<J, J::Done>
    ensures { ComesOf J.may_give job result }
{
    if is_over.load(Ordering::SeqCst) {
        return Outcome::Unrun(job);
    }
    let done = job.run(&rt);
    is_over.store(true, Ordering::SeqCst);
    Outcome::Ran(done)
}

/// Waits without end.
pub fn wait_forever<R: Wait, T>(rt: &R) -> T
    ensures { ⊥ }
{
    for _ in rt.forever() {}
    unreachable!()
}

/// Waits without end, and keeps a value.
fn wait_with<R: Wait, K, T>(rt: &R, _kept: K) -> T
    ensures { ⊥ }
{
    for _ in rt.forever() {}
    unreachable!()
}

/// Starts a thread that runs the job. Where none can be made, the job is called back: the call that
/// the thread would have made is made here, and finds it called back.
pub fn spawn_job<J: Job + Send + Drop + 'static, R: Threads + Wait + Copy + Send + 'static>(
    rt: &R,
    alloc: Global,
    job: J,
) -> Result<JobThread<J>, Unstarted<J>>
where
    J::Done: Send + Drop + 'static,
    ensures { IsSpawned job result }
{
    let Ok(is_over) = Arc::new(alloc, AtomicBool::new(false)) else {
        return Err(Unstarted::Memory(job));
    };
    let Ok(theirs) = is_over.clone() else {
        return Err(Unstarted::Memory(job));
    };
    let own = *rt;
    let promise = OfJob {
        job: Snapshot::of(&job),
    };
    match thread::spawn_with(rt, promise, move || run_unless(own, job, theirs)) {
        Ok(handle) => Ok(JobThread { handle, is_over }),
        Err(refused) => {
            is_over.store(true, Ordering::SeqCst);
            match (refused.value)() {
                Outcome::Unrun(back) => Err(Unstarted::Refused(back)),
                Outcome::Ran(_) => wait_forever(rt),
            }
        }
    }
}
