//! How a case is played: over an outside in memory.

use crate::holding::{HeldOutside, Plan};
use crate::text::{Case, Device, Failing, Failures, Input, Listening, Node, Wanted, WantedFile};
use commands::io::Status;
use job_threads::ThreadSpawner;
use outside::links::{Link, Listener, ScriptLink, ScriptListener};
use outside::names::{MemoryOutside, Outside};
use outside::{ByteSink, TextSource};
use std::alloc::{AllocError, Global};
use std::sync::Wait;
use std::thread::Threads;
use std::time;
use tase_tool::run;

/// What is otherwise in a play than the case says.
#[derive(Clone, Copy)]
pub(crate) enum Change<'a> {
    /// Nothing.
    Nothing,
    /// The input of this name has another text.
    Text(&'a str, &'a [u8]),
    /// One call more fails.
    Failing(&'a Failing),
}

/// What the nodes of a case took, and the faults of the links that were given.
#[derive(Clone, Copy)]
pub(crate) struct Told {
    /// Whether each took what it must.
    pub(crate) is_whole: bool,
    /// Whether each took a front part of what it must.
    pub(crate) is_front: bool,
    /// How many faults there were of links that a listener gave.
    pub(crate) faults: u64,
}

/// How a command ended, what stands outside behind it, what the nodes of its case took, and the
/// faults outside and of starts.
#[derive(Drop)]
pub(crate) struct Played {
    pub(crate) status: u64,
    /// What stands outside, with what was printed and what files took.
    inside: MemoryOutside,
    pub(crate) told: Told,
    /// Whether all links met that must.
    pub(crate) have_met: bool,
    pub(crate) faults: u64,
}

impl Played {
    /// What was printed.
    pub(crate) fn shown(&self) -> &[u8] {
        self.file("-")
    }

    /// What the file of this name took.
    pub(crate) fn file(&self, name: &str) -> &[u8] {
        match self.inside.sink(name) {
            Some(sink) => sink.taken(),
            None => &[],
        }
    }

    /// Whether anything failed.
    pub(crate) fn has_fault(&self) -> bool {
        self.faults > 0 || self.told.faults > 0
    }
}

// The most octets of room, and what there is of it beyond what is wanted.
const MOST_ROOM: u64 = 268_435_456;

const MORE_ROOM: u64 = 65_536;

// The room of standard output. Where none is said it is more than a case can want that passes: in
// pieces what is shown may take a line for each of its octets.
fn room_of(case: &Case) -> usize {
    let room = match case.room {
        Some(room) => room,
        None => wanted_count(&case.wanted)
            .saturating_mul(8)
            .saturating_add(MORE_ROOM),
    };
    room.min(MOST_ROOM) as usize
}

// How many octets are wanted.
fn wanted_count(wanted: &Wanted) -> u64 {
    match wanted {
        Wanted::Octets(octets) => octets.len() as u64,
        Wanted::Count(count) => *count,
        Wanted::Any => 0,
    }
}

// The calls that fail in a play of a case with this change.
fn failures_of<'a>(case: &'a Case, change: Change<'a>) -> Failures<'a> {
    let more = match change {
        Change::Failing(failing) => Some(failing),
        Change::Nothing | Change::Text(_, _) => None,
    };
    Failures {
        said: &case.failing,
        more,
    }
}

fn put_text(
    alloc: Global,
    outside: &mut MemoryOutside,
    failures: Failures<'_>,
    name: &str,
    text: Vec<u8>,
) -> Result<(), AllocError> {
    let fails = failures.numbers(alloc, Device::Read, name)?;
    outside.put_in(alloc, name, TextSource::new(text, fails))
}

fn put_inputs(
    alloc: Global,
    outside: &mut MemoryOutside,
    failures: Failures<'_>,
    inputs: &[Input],
) -> Result<(), AllocError> {
    for input in inputs {
        put_text(alloc, outside, failures, &input.name, input.octets(alloc)?)?;
    }
    Ok(())
}

fn put_sink(
    alloc: Global,
    outside: &mut MemoryOutside,
    failures: Failures<'_>,
    name: &str,
    room: usize,
) -> Result<(), AllocError> {
    let fails = failures.numbers(alloc, Device::Write, name)?;
    let sink = ByteSink::new(alloc, room, fails)?;
    outside.put_out(alloc, name, sink)
}

// The room of a file.
fn file_room(file: &WantedFile) -> usize {
    let wanted = match &file.octets {
        Some(octets) => octets.len() as u64,
        None => MOST_ROOM / 16,
    };
    wanted.saturating_add(MORE_ROOM).min(MOST_ROOM) as usize
}

fn put_files(
    alloc: Global,
    outside: &mut MemoryOutside,
    failures: Failures<'_>,
    files: &[WantedFile],
) -> Result<(), AllocError> {
    for file in files {
        put_sink(alloc, outside, failures, &file.name, file_room(file))?;
    }
    Ok(())
}

// Puts outside what is otherwise than the case says.
fn put_change(
    alloc: Global,
    outside: &mut MemoryOutside,
    failures: Failures<'_>,
    change: Change<'_>,
) -> Result<(), AllocError> {
    match change {
        Change::Text(name, text) => {
            let text = Vec::from_slice(alloc, text)?;
            put_text(alloc, outside, failures, name, text)
        }
        Change::Nothing | Change::Failing(_) => Ok(()),
    }
}

// Puts outside what a case says, with this change.
fn put_case(
    alloc: Global,
    outside: &mut MemoryOutside,
    case: &Case,
    change: Change<'_>,
) -> Result<(), AllocError> {
    let failures = failures_of(case, change);
    put_inputs(alloc, outside, failures, &case.given)?;
    put_inputs(alloc, outside, failures, &case.own)?;
    put_change(alloc, outside, failures, change)?;
    put_sink(alloc, outside, failures, "-", room_of(case))?;
    put_files(alloc, outside, failures, &case.files)?;
    case.network.put(alloc, outside, failures)
}

// How many links listeners give.
fn count_links(listens: &[Listening]) -> u64 {
    let mut links = 0u64;
    for listening in listens {
        links = links.saturating_add(listening.nodes.len() as u64);
    }
    links
}

// What standard input of a case waits for: that its nodes were served, and that each call has come
// that is to fail.
fn plan_of(case: &Case, failures: Failures<'_>) -> Plan {
    Plan {
        links: count_links(&case.network.listens),
        accepts: failures.calls(Device::Accept),
        readings: failures.calls(Device::Clock),
        meeting: case.network.meeting,
    }
}

impl Told {
    // Adds what a node took over its link.
    fn add(&mut self, node: &Node, link: Option<&ScriptLink>) {
        let taken = match link {
            Some(link) => link.taken(),
            None => &[],
        };
        if let Some(octets) = &node.takes {
            self.is_whole = self.is_whole && link.is_some() && octets.as_slice() == taken;
            self.is_front = self.is_front && octets.as_slice().starts_with(taken);
        }
    }

    // Adds what the nodes took that connected to an address.
    fn add_listening(&mut self, listening: &Listening, listener: Option<&ScriptListener>) {
        for node in &listening.nodes {
            let link = match listener {
                Some(listener) => retired_named(listener, node.name.as_str()),
                None => None,
            };
            self.add(node, link);
            if let Some(link) = link {
                self.faults = self.faults.saturating_add(link.faults());
            }
        }
    }
}

// The link of this name among those that were retired.
fn retired_named<'a>(listener: &'a ScriptListener, name: &str) -> Option<&'a ScriptLink> {
    for link in listener.retired() {
        if link.name() == name {
            return Some(link);
        }
    }
    None
}

// What the nodes of a case took.
fn told_of(case: &Case, outside: &MemoryOutside) -> Told {
    let mut told = Told {
        is_whole: true,
        is_front: true,
        faults: 0,
    };
    for node in &case.network.nodes {
        told.add(node, outside.link(node.name.as_str()));
    }
    for listening in &case.network.listens {
        told.add_listening(listening, outside.listener(listening.address.as_str()));
    }
    told
}

// What a case came to that left this outside, by how its command ended.
fn played_of(case: &Case, inside: MemoryOutside, ended: Ended) -> Played {
    Played {
        status: u64::from(ended.status.code()),
        told: told_of(case, &inside),
        have_met: ended.have_met,
        faults: inside.faults().saturating_add(ended.refusals),
        inside,
    }
}

// How a command ended, whether its links met, and how many starts were refused.
#[derive(Clone, Copy)]
struct Ended {
    status: Status,
    have_met: bool,
    refusals: u64,
}

// Runs the words of a case, whose starts with these numbers are refused.
fn run_words<R: Threads + Wait + time::Clock + Copy + Send + 'static, O: Outside>(
    rt: &R,
    alloc: Global,
    words: &[String],
    outside: &mut HeldOutside<O, R>,
    refused: Vec<u64>,
) -> Ended
where
    <O::Listener as Listener>::Link: Send + 'static,
    O::In: Send + 'static,
    O::Clock: Send + 'static,
{
    let mut spawner = ThreadSpawner::new(alloc, refused);
    let status = run(rt, alloc, words, outside, &mut spawner);
    Ended {
        status,
        have_met: outside.have_met(),
        refusals: spawner.faults(),
    }
}

// What stands outside of a case with this change.
fn changed_outside_of(
    alloc: Global,
    case: &Case,
    change: Change<'_>,
) -> Result<MemoryOutside, AllocError> {
    let mut outside = MemoryOutside::new(alloc)?;
    put_case(alloc, &mut outside, case, change)?;
    Ok(outside)
}

// What stands outside of a case with this change, where standard input waits.
fn held_outside_of<R: Copy + Drop>(
    rt: &R,
    alloc: Global,
    case: &Case,
    change: Change<'_>,
) -> Result<HeldOutside<MemoryOutside, R>, AllocError> {
    let plan = plan_of(case, failures_of(case, change));
    let inside = changed_outside_of(alloc, case, change)?;
    HeldOutside::new(alloc, *rt, inside, plan)
}

/// Plays a case with this change.
pub(crate) fn play<R: Threads + Wait + time::Clock + Copy + Send + 'static>(
    rt: &R,
    alloc: Global,
    case: &Case,
    change: Change<'_>,
) -> Result<Played, AllocError> {
    let refused = failures_of(case, change).numbers(alloc, Device::Start, "")?;
    let mut outside = held_outside_of(rt, alloc, case, change)?;
    let ended = run_words(rt, alloc, &case.words, &mut outside, refused);
    Ok(played_of(case, outside.into_outside(), ended))
}
