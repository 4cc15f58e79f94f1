//! Jobs in threads of std.
use job_threads::ThreadSpawner;
use outside::links::{Job, Start};
use std::alloc::{AllocError, Global};
use std::sync::atomic::{AtomicU64, Ordering};
use std::sync::{Arc, Wait};
use std::test::*;
use std::thread;
use std::thread::Threads;

/// How often a job looks whether others have ended.
const LOOKS: u32 = 1_000_000;

/// Ends once so many jobs have ended, or once it has looked often enough.
#[derive(Drop)]
struct Numbered {
    number: u64,
    after: u64,
    ended: Arc<AtomicU64>,
}

impl Job for Numbered {
    /// The number of a job; none where the others hadn't ended when it did.
    type Done = Option<u64>;

    ghost use Rattle.std.specs.Prelude.{⊤};

    ghost may_give = { λ job done. ⊤ };

    fn run<R: Wait>(self, _rt: &R) -> Option<u64> {
        let is_after = await_ended(&self.ended, self.after);
        self.ended.fetch_add(1, Ordering::SeqCst);
        if is_after { Some(self.number) } else { None }
    }
}

/// Looks until so many have ended.
fn await_ended(ended: &AtomicU64, after: u64) -> bool {
    for _ in 0..LOOKS {
        if ended.load(Ordering::SeqCst) >= after {
            return true;
        }
        thread::yield_now();
    }
    false
}

/// Starts a job, and answers whether it runs.
fn start<R: Threads + Wait + Copy + Send + 'static>(
    rt: &R,
    spawner: &mut ThreadSpawner<Numbered>,
    job: Numbered,
) -> bool {
    matches!(spawner.start(rt, job), Start::Started)
}

/// Starts so many jobs, each once the one before has ended, or else such that each ends after all
/// that are started later. It answers whether all run.
fn start_all<R: Threads + Wait + Copy + Send + 'static>(
    rt: &R,
    alloc: Global,
    spawner: &mut ThreadSpawner<Numbered>,
    count: u64,
    in_turn: bool,
) -> Result<bool, AllocError> {
    let ended = Arc::new(alloc, AtomicU64::new(0))?;
    for number in 0..count {
        let job = Numbered {
            number,
            after: if in_turn { 0 } else { count - 1 - number },
            ended: ended.clone()?,
        };
        if !start(rt, spawner, job) {
            return Ok(false);
        }
        if in_turn && !await_ended(&ended, number + 1) {
            return Ok(false);
        }
    }
    Ok(true)
}

/// Whether so many jobs are handed back, in the order of their starts.
fn finish_all<R: Threads + Wait>(
    rt: &R,
    spawner: &mut ThreadSpawner<Numbered>,
    count: u64,
) -> bool {
    for number in 0..count {
        if spawner.finish_one(rt) != Some(Some(number)) {
            return false;
        }
    }
    spawner.finish_one(rt).is_none()
}

/// How many jobs, and whether one after the other: more at once than there are processors, and more
/// in all than threads that may be there.
const RUNS: &[(u64, bool)] = &[(50, false), (2_000, true)];

#[test]
fn in_the_order_of_their_starts(rt: HostRuntime) -> Result<(), Fail> {
    for &(count, in_turn) in RUNS {
        let mut spawner = ThreadSpawner::new(rt.alloc(), Vec::new(rt.alloc()));
        let all_run = start_all(&rt, rt.alloc(), &mut spawner, count, in_turn)?;
        assert!(rt; all_run, "{count} jobs");
        assert!(rt; finish_all(&rt, &mut spawner, count), "{count} jobs");
    }
    Ok(())
}
