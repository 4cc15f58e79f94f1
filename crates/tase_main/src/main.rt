//! The program `tase`: makes the real outside and a spawner of threads, runs the command of its
//! words, and ends with its status.
#![tactic(auto)]

mod ending;
mod starting;
#[cfg(test)]
mod tests;

use job_threads::ThreadSpawner;
use outside_real::RealOutside;
use starting::start;
use std::env;
use std::process::ExitCode;

fn main(rt: HostRuntime) -> ExitCode {
    let mut outside = RealOutside::new(rt.alloc(), &rt);
    let mut spawner = ThreadSpawner::new(rt.alloc(), Vec::new(rt.alloc()));
    start(&rt, rt.alloc(), env::args(&rt), &mut outside, &mut spawner)
}
