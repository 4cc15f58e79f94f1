//! A job that was started: its thread, and once that is joined what came of it.
ghost use Rattle.std.specs.Prelude.{◌≡◌, Some};
ghost use Rattle.job_threads.specs.Threading.{IsStarted, Settles, SettleEach, jobs_of, threads_of};
ghost use Rattle.job_threads.specs.Threading as own;

use crate::thread_job::{JobThread, Running, Unstarted, spawn_job};
use outside::links::Job;
use std::alloc::Global;
use std::collections::VecDeque;
use std::marker::Model;
use std::snapshot::Snapshot;
use std::sync::Wait;
use std::thread::Threads;

/// A job that was started.
#[derive(Drop)]
pub struct StartedJob<J: Job, T: Running<J>> {
    job: Snapshot<J>,
    /// The thread that does it, up to its end.
    thread: Option<T>,
    /// What came of it, once its thread was joined.
    done: Option<J::Done>,
}

// What contracts see: the job, and its thread up to where that is joined.
impl<J: Job, T: Running<J>> Model for StartedJob<J, T> {
    ghost use Rattle.job_threads.specs.Threading.{Work, IsWorkOf};

    ghost Value = { Work J T };

    ghost view = { λ s. record {
      job = s.job.value;
      thread = s.thread;
    } };

    ghost invariant = { λ s. IsWorkOf T.job_of J.may_give s.job.value s.thread s.done };
}

/// Keeps a value where there is none.
fn keep<T: Drop>(place: &mut Option<T>, value: T)
    ensures { place.new ≡ Some value }
{
    *place = Some(value);
}

/// Starts a job in a thread of its own.
pub fn start_job<J: Job + Send + Drop + 'static, R: Threads + Wait + Copy + Send + 'static>(
    rt: &R,
    alloc: Global,
    job: J,
) -> Result<StartedJob<J, JobThread<J>>, Unstarted<J>>
where
    J::Done: Send + Drop + 'static,
    ensures { IsStarted job result }
{
    let snapshot = Snapshot::of(&job);
    match spawn_job(rt, alloc, job) {
        Ok(thread) => Ok(StartedJob {
            job: snapshot,
            thread: Some(thread),
            done: None,
        }),
        Err(unstarted) => Err(unstarted),
    }
}

impl<J: Job, T: Running<J> + Drop> StartedJob<J, T>
where
    J::Done: Drop,
{
    /// Whether its thread is still to be joined.
    pub fn is_in_thread(&self) -> bool
        ensures { result ≡ own.is_in_thread self.now }
    {
        self.thread.is_some()
    }

    /// Joins its thread where that is over, and keeps what came of the job.
    pub fn settle<R: Threads + Wait>(&mut self, rt: &R)
        ensures { Settles T.over self.old self.new }
    {
        match self.thread.take() {
            Some(thread) if thread.is_over() => keep(&mut self.done, thread.join(rt)),
            Some(thread) => keep(&mut self.thread, thread),
            None => {}
        }
    }

    /// Waits for what comes of the job.
    pub fn finish<R: Threads + Wait>(self, rt: &R) -> J::Done
        ensures { J.may_give self.job result }
    {
        let StartedJob {
            job: _,
            thread,
            done,
        } = self;
        match thread {
            Some(thread) => thread.join(rt),
            None => match done {
                Some(done) => done,
                None => unreachable!(),
            },
        }
    }
}

/// Joins the threads of these jobs that are over, and counts the others.
pub fn settle_all<J: Job, T: Running<J> + Drop, R: Threads + Wait>(
    rt: &R,
    jobs: &mut VecDeque<StartedJob<J, T>>,
) -> usize
where
    J::Done: Drop,
    ensures settles { SettleEach T.over jobs.old.items jobs.new.items }
    ensures same { jobs_of jobs.new.items ≡ jobs_of jobs.old.items }
    ensures counts { result ≡ threads_of jobs.new.items }
{
    let mut threads = 0;
    for at in 0..jobs.len() {
        let job = &mut jobs[at];
        job.settle(rt);
        if job.is_in_thread() {
            threads += 1;
        }
    }
    threads
}
