//! A spawner over threads of std.
ghost use Rattle.std.specs.Prelude.{◌≡◌, ◌↔◌, ◌<◌, ◌≤◌, [], Contains, IsTrue, nat_lt};
ghost use Rattle.outside.specs.Faults.{next_count};
ghost use Rattle.outside.specs.Links.Jobs.{StartsJob, FinishesFirst};
ghost use Rattle.outside.specs.declared.links.job.Start.{Start};
ghost use Rattle.job_threads.specs.Threading.{jobs_of, threads_of};
ghost use Rattle.job_threads.specs.Starting.{RefusesNext, HandsBack, MakesRoom};
ghost use Rattle.job_threads.specs.Starting.{HasCause, HandsUnmade};
ghost use Rattle.job_threads.specs.Starting as own;

use crate::started::{StartedJob, settle_all, start_job};
use crate::thread_job::{JobThread, Running, Unstarted};
use outside::count_fault;
use outside::links::{Job, Start};
use std::alloc::Global;
use std::collections::VecDeque;
use std::marker::Model;
use std::sync::Wait;
use std::thread::Threads;

/// How many threads there are at most that are not over.
pub const MOST_THREADS: usize = 1024;

/// After how many starts the threads that are over are joined.
const SETTLE_AFTER: u64 = 64;

const _: () = prove!(MOST_THREADS == 1_024);

const _: () = prove!(SETTLE_AFTER == 64);

/// Starts each job in a thread of its own, and hands back what came of them in the order of their
/// starts. Threads that are over are joined as it goes, so that a run may start any number of jobs.
/// Starts are numbered from 0, and some of them it refuses by itself.
#[derive(Drop)]
pub struct ThreadSpawner<J: Job> {
    alloc: Global,
    refuses: Vec<u64>,
    starts: u64,
    faults: u64,
    /// For how many starts the system made no thread.
    unmade: u64,
    pending: VecDeque<StartedJob<J, JobThread<J>>>,
    /// How many of these are in threads that were not joined.
    threads: usize,
}

impl<J: Job> Model for ThreadSpawner<J> {
    ghost use Rattle.std.specs.Prelude.{◌≡◌};
    ghost use Rattle.job_threads.specs.Threading.{jobs_of, threads_of};
    ghost use Rattle.job_threads.specs.Starting.{SpawnerState};

    ghost Value = { SpawnerState J };

    ghost view = { λ s. record {
      told = record {
        pending = jobs_of s.pending.items;
        faults = s.faults;
      };
      refuses = s.refuses.items;
      starts = s.starts;
      threads = s.threads;
      unmade = s.unmade;
    } };

    ghost invariant = { λ s. s.threads ≡ threads_of s.pending.items };
}

/// True exactly where the number is one of these.
fn is_among(number: u64, numbers: &[u64]) -> bool
    ensures { IsTrue result ↔ Contains numbers.now number }
{
    numbers.contains(&number)
}

/// Whether the threads that are over are to be joined.
fn is_due(starts: u64, threads: usize) -> bool
    ensures { result ≡ own.is_due starts threads }
{
    starts % SETTLE_AFTER == 0 || threads >= MOST_THREADS
}

/// Whether one more thread may be started, of which there are so many. Where there are too many,
/// and behind so many starts, it joins those that are over before.
fn make_room<J: Job, T: Running<J> + Drop, R: Threads + Wait>(
    rt: &R,
    starts: u64,
    threads: &mut usize,
    jobs: &mut VecDeque<StartedJob<J, T>>,
) -> bool
where
    J::Done: Drop,
    requires { threads.old ≡ threads_of jobs.old.items }
    ensures makes { MakesRoom T.over (own.is_due starts threads.old) jobs.old.items jobs.new.items }
    ensures same { jobs_of jobs.new.items ≡ jobs_of jobs.old.items }
    ensures counts { threads.new ≡ threads_of jobs.new.items }
    ensures room { result ≡ nat_lt threads.new MOST_THREADS }
{
    if is_due(starts, *threads) {
        *threads = settle_all(rt, jobs);
    }
    *threads < MOST_THREADS
}

impl<J: Job> ThreadSpawner<J> {
    /// A spawner that refuses the starts with these numbers. It takes no memory here.
    pub fn new(alloc: Global, refuses: Vec<u64>) -> ThreadSpawner<J>
        ensures { result ≡ record {
          told = record { pending = []; faults = 0 };
          refuses = refuses.items;
          starts = 0;
          threads = 0;
          unmade = 0;
        } }
    {
        ThreadSpawner {
            alloc,
            refuses,
            starts: 0,
            faults: 0,
            unmade: 0,
            pending: VecDeque::new(alloc),
            threads: 0,
        }
    }

    /// The number of faults so far. It stands still at the type's end.
    pub fn faults(&self) -> u64
        ensures { result ≡ self.now.told.faults }
    {
        self.faults
    }

    /// For how many starts the system made no thread. It stands still at the type's end.
    pub fn unmade(&self) -> u64
        ensures { result ≡ self.now.unmade }
    {
        self.unmade
    }

    /// Hands the job back, with a fault exactly where no thread could be made.
    fn hand_back(&mut self, unstarted: Unstarted<J>) -> Start<J>
        ensures { HandsBack self.old self.new unstarted result }
    {
        match unstarted {
            Unstarted::Memory(job) => Start::Memory(job),
            Unstarted::Refused(job) => {
                self.faults = count_fault(self.faults, true);
                Start::Refused(job)
            }
        }
    }

    /// Hands back a job for which none was made.
    fn hand_unmade(&mut self, unstarted: Unstarted<J>) -> Start<J>
        ensures { HandsUnmade self.old self.new unstarted result }
    {
        self.unmade = count_fault(self.unmade, unstarted.is_refused());
        self.hand_back(unstarted)
    }
}

impl<J: Job + Send + Drop + 'static> ThreadSpawner<J>
where
    J::Done: Send + Drop + 'static,
{
    /// Whether one more thread may be started behind so many starts.
    fn has_room<R: Threads + Wait>(&mut self, rt: &R, starts: u64) -> bool
        ensures kept { self.new ≡ record self.old { threads = self.new.threads } }
        ensures room { result ≡ nat_lt self.new.threads MOST_THREADS }
    {
        make_room(rt, starts, &mut self.threads, &mut self.pending)
    }

    /// Starts the job in a thread of its own. It is refused, with a fault, where its number is one
    /// of those, where `MOST_THREADS` are not over, and where the system makes no thread.
    #[tactic(auto, using(crate::proofs::Settling::jobs_with))]
    pub fn start<R: Threads + Wait + Copy + Send + 'static>(&mut self, rt: &R, job: J) -> Start<J>
        ensures starts { StartsJob self.old.told self.new.told job result }
        ensures refuses { RefusesNext self.old → result ≡ Start.Refused job }
        ensures cause { HasCause self.old self.new result }
        ensures number { self.new.starts ≡ next_count self.old.starts }
        ensures same { self.new.refuses ≡ self.old.refuses }
    {
        let starts = self.starts;
        self.starts = count_fault(starts, true);
        if is_among(starts, &self.refuses) {
            return self.hand_back(Unstarted::Refused(job));
        }
        if !self.has_room(rt, starts) {
            return self.hand_back(Unstarted::Refused(job));
        }
        if self.pending.reserve(1).is_err() {
            return self.hand_back(Unstarted::Memory(job));
        }
        match start_job(rt, self.alloc, job) {
            Ok(started) => {
                self.pending.push_back(started).unwrap();
                self.threads += 1;
                Start::Started
            }
            Err(unstarted) => self.hand_unmade(unstarted),
        }
    }

    /// Waits for the job that was started first among those not handed back. None exactly where all
    /// were handed back.
    pub fn finish_one<R: Threads + Wait>(&mut self, rt: &R) -> Option<J::Done>
        ensures finishes { FinishesFirst J.may_give self.old.told self.new.told result }
        ensures fewer { self.new.threads ≤ self.old.threads }
        ensures same { self.new
            ≡ record self.old { told = self.new.told; threads = self.new.threads } }
    {
        match self.pending.pop_front() {
            Some(started) => {
                if started.is_in_thread() {
                    self.threads -= 1;
                }
                Some(started.finish(rt))
            }
            None => None,
        }
    }
}
