//! How the program starts: its words as the system gives them, and the run of these.
ghost use Rattle.std.specs.Prelude.{◌≡◌, [], drop, IfOk};
ghost use Rattle.std.specs.Vec.Iter.{into_iter_items};
ghost use Rattle.std.specs.Process.{exit_status};
ghost use Rattle.tase_main.specs.Starting.{IsWordsFrom, IsStart, Starts, surroundings_of};

use crate::ending::{tell_end, verb_of};
use commands::io::Status;
use job_threads::ThreadSpawner;
use outside::links::Listener;
use outside::names::Outside;
use std::alloc::{AllocError, Global};
use std::env::Args;
use std::io;
use std::io::Eprint;
use std::process::ExitCode;
use std::sync::Wait;
use std::thread::Threads;
use std::time::Clock;
use tase_tool::run;
use tase_tool::serving::jobs::NodeJob;

/// Runs the words that the system gives, once, and answers the exit status that goes with how the
/// run ended. An operator is told how a server or a client ended, and what words there are where
/// these are no command.
pub(crate) fn start<R: Threads + Wait + Eprint + Clock + Copy + Send + 'static, O: Outside>(
    rt: &R,
    alloc: Global,
    given: io::Result<Args>,
    outside: &mut O,
    spawner: &mut ThreadSpawner<NodeJob<<O::Listener as Listener>::Link, O::In, O::Clock>>,
) -> ExitCode
where
    <O::Listener as Listener>::Link: Send + 'static,
    O::In: Send + 'static,
    O::Clock: Send + 'static,
    requires { spawner.old.told.pending ≡ [] }
    ensures { Starts given (surroundings_of (O.told outside.old) spawner.old.told.faults)
        (surroundings_of (O.told outside.new) spawner.new.told.faults) (exit_status result) }
{
    let words = words_from(alloc, given);
    let verb = verb_of(&words);
    let status = run_words(rt, alloc, words, outside, spawner);
    tell_end(*rt, verb, status);
    ExitCode::from(status)
}

// The words after the program's name; none where one of them isn't text, since such words are no
// command.
fn words_from(alloc: Global, given: io::Result<Args>) -> Result<Vec<String>, AllocError>
    ensures { IsWordsFrom given result }
{
    match given {
        Ok(args) => words_after_name(alloc, args),
        Err(error) => match error.kind() {
            io::ErrorKind::InvalidData => Ok(Vec::new(alloc)),
            _ => Err(AllocError),
        },
    }
}

// The words after the first.
fn words_after_name(alloc: Global, args: Args) -> Result<Vec<String>, AllocError>
    ensures { IfOk result (λ words. words.items ≡ drop 1 (into_iter_items args)) }
{
    let mut args = args;
    let _name = args.next();
    let mut words = Vec::new(alloc);
    while let Some(word) = args.next() {
        words.push(word)?;
    }
    Ok(words)
}

// Runs these words. Without memory for them nothing is done.
fn run_words<R: Threads + Wait + Copy + Send + 'static, O: Outside>(
    rt: &R,
    alloc: Global,
    words: Result<Vec<String>, AllocError>,
    outside: &mut O,
    spawner: &mut ThreadSpawner<NodeJob<<O::Listener as Listener>::Link, O::In, O::Clock>>,
) -> Status
where
    <O::Listener as Listener>::Link: Send + 'static,
    O::In: Send + 'static,
    O::Clock: Send + 'static,
    requires { spawner.old.told.pending ≡ [] }
    ensures { IsStart words (surroundings_of (O.told outside.old) spawner.old.told.faults)
        (surroundings_of (O.told outside.new) spawner.new.told.faults) result }
{
    match words {
        Ok(words) => run(rt, alloc, &words, outside, spawner),
        Err(AllocError) => Status::Memory,
    }
}
