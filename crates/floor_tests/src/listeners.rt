//! A listener with many links.
use crate::leaping::Leaping;
use crate::meeting::{connect, hear};
use outside::links::{Accept, Link, Listener, Recv};
use outside_real::{RealLink, RealListener, TcpGate, TcpSocket};
use std::alloc::Global;
use std::cell::Cell;
use std::io;
use std::io::{Eprint, ErrorKind, Read, Write};
use std::net::{Net, TcpStream};
use std::test::Fail;
use std::time::Clock;

/// Nodes that connected, and their links.
#[derive(Drop)]
struct Crowd<R: Net + Clock + Eprint + Copy> {
    nodes: Vec<TcpStream>,
    links: Vec<RealLink<TcpSocket<R>>>,
}

/// The link of a node that has connected.
fn accept<L: Listener>(listener: &mut L) -> io::Result<L::Link> {
    match listener.accept() {
        Accept::Link(link) => Ok(link),
        _ => Err(io::Error::from(ErrorKind::Other)),
    }
}

/// So many nodes connect, each accepted before the next one.
fn gather<R: Net<Stream = TcpStream> + Clock + Eprint + Copy>(
    runtime: R,
    alloc: Global,
    listener: &mut RealListener<TcpGate<R>>,
    count: u32,
) -> io::Result<Crowd<R>> {
    let mut nodes = Vec::new(alloc);
    let mut links = Vec::new(alloc);
    for _round in 0..count {
        nodes.push(connect(runtime, listener)?)?;
        links.push(accept(listener)?)?;
    }
    Ok(Crowd { nodes, links })
}

/// Each node writes four octets.
fn say_all(nodes: &mut [TcpStream]) -> io::Result<()> {
    for node in nodes.iter_mut() {
        node.write_all(b"here")?;
    }
    Ok(())
}

/// Whether each link gives four octets.
fn all_heard<L: Link>(links: &mut [L]) -> bool {
    for link in links.iter_mut() {
        if hear(link) != Recv::Got(4) {
            return false;
        }
    }
    true
}

/// Whether each node reads the end.
fn all_ended(nodes: &mut [TcpStream]) -> io::Result<bool> {
    let mut buf = [0u8; 16];
    for node in nodes.iter_mut() {
        if node.read(&mut buf)? > 0 {
            return Ok(false);
        }
    }
    Ok(true)
}

/// Whether so many links give what their nodes say, and nodes read the end once they are retired.
fn serves<R: Net<Stream = TcpStream> + Clock + Eprint + Copy>(
    runtime: R,
    alloc: Global,
    count: u32,
) -> io::Result<bool> {
    let mut listener = TcpGate::listen(runtime, "127.0.0.1:0")?;
    let Crowd {
        mut nodes,
        mut links,
    } = gather(runtime, alloc, &mut listener, count)?;
    say_all(&mut nodes)?;
    let is_heard = all_heard(&mut links);
    for link in links {
        listener.retire(link);
    }
    Ok(is_heard && all_ended(&mut nodes)?)
}

#[test]
fn three_hundred_links_at_once(rt: HostRuntime) -> Result<(), Fail> {
    let seconds = Cell::new(1000u64);
    let quiet = Leaping {
        host: rt,
        seconds: &seconds,
    };
    assert!(rt; serves(quiet, rt.alloc(), 300)?);
    Ok(())
}
