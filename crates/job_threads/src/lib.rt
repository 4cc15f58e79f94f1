//! A spawner that starts each job in a thread of std.
#![tactic(auto)]

mod spawner;
mod started;
mod thread_job;

pub use spawner::{MOST_THREADS, ThreadSpawner};
