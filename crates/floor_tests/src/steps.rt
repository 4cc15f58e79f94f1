//! What is done at the ends of a connection, step by step.
use crate::meeting::{Met, comes_in, connect, fill, goes_out, hears, is_alone, meet, octets, say};
use outside::WriteEnd;
use outside::links::{Link, Recv};
use outside_real::{RealListener, TcpGate};
use std::alloc::Global;
use std::cell::Cell;
use std::io;
use std::io::{Eprint, Read, Write};
use std::net::{Net, Shutdown, TcpStream};
use std::os::fd::AsRawFd;
use std::time::Clock;

/// What is done, and what must come of it.
#[derive(Clone, Copy)]
pub(crate) enum Step {
    /// The node writes so many octets, sixteen at most.
    Says(usize),
    /// It reads so many, where at least sixteen have room.
    Reads(usize),
    /// It writes nothing more.
    ShutsDown,
    /// It is gone.
    Goes,
    /// A recv comes to this.
    Recv(Recv),
    /// A send of so many octets, one to sixteen, comes to this.
    Send(usize, WriteEnd),
    /// Sends are taken up to one of which nothing is.
    Fills,
    /// So many octets go out by the link, and as many come in by it.
    Carries(usize),
    /// The link is closed, by which its descriptor is given back or not.
    Closes(bool),
    /// No further node connects.
    IsAlone,
    /// The clock shows so many seconds.
    At(u64),
}

/// Whether the node that is there does this.
fn is_done_by_node(node: &mut TcpStream, step: Step) -> io::Result<bool> {
    let mut room = [7u8; 16];
    match step {
        Step::Says(count) => node.write_all(&room[..count.min(16)])?,
        Step::Reads(count) => return Ok(node.read(&mut room)? == count),
        _ => node.shutdown(Shutdown::Write)?,
    }
    Ok(true)
}

/// Whether this comes of a step at the link.
fn is_done_by_link<L: Link, C: Clock>(clock: &C, link: &mut L, step: Step) -> io::Result<bool> {
    let octets = [7u8; 16];
    match step {
        Step::Recv(want) => hears(clock, link, want),
        Step::Send(count, want) => Ok(say(link, &octets[..count.min(16)]) == Some(want)),
        _ => Ok(fill(link)),
    }
}

/// Whether so many octets go each way.
fn carries<L: Link>(
    alloc: Global,
    link: &mut L,
    node: &mut TcpStream,
    count: usize,
) -> io::Result<bool> {
    let piece = octets(alloc, count)?;
    let is_out = goes_out(link, node, alloc, piece.as_slice())?;
    Ok(is_out && comes_in(link, node, alloc, piece.as_slice())?)
}

/// The lowest descriptor that is free: the system gives that to the next connection.
fn lowest_free<R: Net<Stream = TcpStream> + Clock + Eprint + Copy>(
    runtime: R,
    listener: &RealListener<TcpGate<R>>,
) -> io::Result<i32> {
    Ok(connect(runtime, listener)?.as_raw_fd())
}

/// Closes the link, and answers whether that gave its descriptor back.
fn closes<R: Net<Stream = TcpStream> + Clock + Eprint + Copy>(
    runtime: R,
    met: &mut Met<R>,
) -> io::Result<bool> {
    let before = lowest_free(runtime, &met.listener)?;
    met.link.close();
    Ok(lowest_free(runtime, &met.listener)? < before)
}

/// Whether a step at the node comes to what it must.
fn is_so_of_node<R: Net<Stream = TcpStream> + Clock + Eprint + Copy>(
    alloc: Global,
    met: &mut Met<R>,
    step: Step,
) -> io::Result<bool> {
    let Some(node) = &mut met.node else {
        return Ok(false);
    };
    match step {
        Step::Carries(count) => carries(alloc, &mut met.link, node, count),
        _ => is_done_by_node(node, step),
    }
}

/// Whether a step comes to what it must. The clock of links shows the seconds.
fn is_so<R: Net<Stream = TcpStream> + Clock + Eprint + Copy, C: Clock>(
    clock: &C,
    seconds: &Cell<u64>,
    runtime: R,
    alloc: Global,
    met: &mut Met<R>,
    step: Step,
) -> io::Result<bool> {
    match step {
        Step::At(second) => seconds.set(second),
        Step::Goes => met.node = None,
        Step::IsAlone => return is_alone(clock, &mut met.listener),
        Step::Closes(gives_back) => return Ok(closes(runtime, met)? == gives_back),
        Step::Recv(_) | Step::Send(_, _) | Step::Fills => {
            return is_done_by_link(clock, &mut met.link, step);
        }
        _ => return is_so_of_node(alloc, met, step),
    }
    Ok(true)
}

/// The first of these steps that doesn't come to what it must, by its place.
pub(crate) fn first_other<R: Net<Stream = TcpStream> + Clock + Eprint + Copy, C: Clock>(
    clock: &C,
    seconds: &Cell<u64>,
    runtime: R,
    alloc: Global,
    steps: &[Step],
) -> io::Result<Option<usize>> {
    let mut met = meet(runtime)?;
    for (place, step) in steps.iter().enumerate() {
        if !is_so(clock, seconds, runtime, alloc, &mut met, *step)? {
            return Ok(Some(place));
        }
    }
    Ok(None)
}
