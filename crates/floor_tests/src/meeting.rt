//! Two ends of a connection, and what goes between them.
use outside::WriteEnd;
use outside::links::{Accept, Link, Listener, Recv};
use outside_real::{RealLink, RealListener, TcpGate, TcpSocket};
use std::alloc::{AllocError, Global};
use std::io;
use std::io::{Eprint, ErrorKind, Read, Write};
use std::net::{Net, TcpStream};
use std::time::{Clock, Duration, Instant};

/// How often a loop goes round at most.
const ROUNDS: u32 = 10_000;

/// The listener, the link that it gave, and the node that connected, while it is there.
#[derive(Drop)]
pub(crate) struct Met<R: Net + Clock + Eprint + Copy> {
    pub(crate) listener: RealListener<TcpGate<R>>,
    pub(crate) link: RealLink<TcpSocket<R>>,
    pub(crate) node: Option<TcpStream>,
}

/// A listener at a port that the system chose, and a node that connected.
pub(crate) fn meet<R: Net<Stream = TcpStream> + Clock + Eprint + Copy>(
    runtime: R,
) -> io::Result<Met<R>> {
    let mut listener = TcpGate::listen(runtime, "127.0.0.1:0")?;
    let node = Some(connect(runtime, &listener)?);
    match listener.accept() {
        Accept::Link(link) => Ok(Met {
            listener,
            link,
            node,
        }),
        _ => Err(io::Error::from(ErrorKind::Other)),
    }
}

/// A node that connects. Its reads and writes wait a second at most.
pub(crate) fn connect<R: Net<Stream = TcpStream> + Clock + Eprint + Copy>(
    runtime: R,
    listener: &RealListener<TcpGate<R>>,
) -> io::Result<TcpStream> {
    let node = TcpStream::connect(&runtime, listener.gate().address()?)?;
    node.set_read_timeout(Some(Duration::from_secs(1)))?;
    node.set_write_timeout(Some(Duration::from_secs(1)))?;
    Ok(node)
}

/// What a recv with room for sixteen octets comes to.
pub(crate) fn hear<L: Link>(link: &mut L) -> Recv {
    let mut buf = [0u8; 16];
    link.recv(&mut buf)
}

/// What a send of some octets comes to; none where there are none.
pub(crate) fn say<L: Link>(link: &mut L, octets: &[u8]) -> Option<WriteEnd> {
    if octets.is_empty() {
        return None;
    }
    Some(link.send(octets))
}

/// Whether this is about two tenths of a second, as long as a call waits for another node.
fn is_a_wait(waited: Duration) -> bool {
    waited >= Duration::from_millis(190) && waited < Duration::from_secs(5)
}

/// Whether a recv comes to this; one that comes to nothing yet waits before.
pub(crate) fn hears<L: Link, C: Clock>(clock: &C, link: &mut L, want: Recv) -> io::Result<bool> {
    let begun = Instant::now(clock)?;
    let end = hear(link);
    let waited = begun.elapsed(clock)?;
    Ok(end == want && (end != Recv::Idle || is_a_wait(waited)))
}

/// Whether no node connects while the listener waits for one.
pub(crate) fn is_alone<L: Listener, C: Clock>(clock: &C, listener: &mut L) -> io::Result<bool> {
    let begun = Instant::now(clock)?;
    let is_idle = matches!(listener.accept(), Accept::Idle);
    let waited = begun.elapsed(clock)?;
    Ok(is_idle && is_a_wait(waited))
}

/// Sends until nothing more is taken, and answers whether that came about.
pub(crate) fn fill<L: Link>(link: &mut L) -> bool {
    let piece = [7u8; 65_536];
    for _round in 0..ROUNDS {
        match link.send(&piece) {
            WriteEnd::Took(0) => return true,
            WriteEnd::Took(_count) => {}
            WriteEnd::Failed => return false,
        }
    }
    false
}

/// Octets that show where each stood.
pub(crate) fn octets(alloc: Global, count: usize) -> Result<Vec<u8>, AllocError> {
    let mut octets = Vec::new(alloc);
    for at in 0..count {
        octets.push((at % 251) as u8)?;
    }
    Ok(octets)
}

/// The octets behind those that a send takes of these; none where it fails.
fn send_front<'a, L: Link>(link: &mut L, left: &'a [u8]) -> Option<&'a [u8]> {
    if left.is_empty() {
        return Some(left);
    }
    match link.send(left) {
        WriteEnd::Took(count) => Some(&left[count..]),
        WriteEnd::Failed => None,
    }
}

/// Appends what a recv gives; false where there is nothing more.
fn append_heard<L: Link>(link: &mut L, came: &mut Vec<u8>) -> Result<bool, AllocError> {
    let mut buf = [0u8; 3000];
    match link.recv(&mut buf) {
        Recv::Got(count) => {
            came.extend_from_slice(&buf[..count])?;
            Ok(true)
        }
        Recv::Idle => Ok(true),
        Recv::End | Recv::Failed => Ok(false),
    }
}

/// Appends what the node reads.
fn append_read(node: &mut TcpStream, came: &mut Vec<u8>) -> io::Result<()> {
    let mut buf = [0u8; 4096];
    let count = node.read(&mut buf)?;
    came.extend_from_slice(&buf[..count])?;
    Ok(())
}

/// Whether the node reads the octets that the link sends.
pub(crate) fn goes_out<L: Link>(
    link: &mut L,
    node: &mut TcpStream,
    alloc: Global,
    piece: &[u8],
) -> io::Result<bool> {
    let mut came = Vec::new(alloc);
    let mut left = piece;
    for _round in 0..ROUNDS {
        if came.len() >= piece.len() {
            break;
        }
        match send_front(link, left) {
            Some(rest) => left = rest,
            None => return Ok(false),
        }
        append_read(node, &mut came)?;
    }
    Ok(came.as_slice() == piece)
}

/// Whether the link receives the octets that the node writes.
pub(crate) fn comes_in<L: Link>(
    link: &mut L,
    node: &mut TcpStream,
    alloc: Global,
    piece: &[u8],
) -> io::Result<bool> {
    let mut came = Vec::new(alloc);
    for part in piece.chunks(4096) {
        node.write_all(part)?;
        if !append_heard(link, &mut came)? {
            return Ok(false);
        }
    }
    for _round in 0..ROUNDS {
        if came.len() >= piece.len() || !append_heard(link, &mut came)? {
            break;
        }
    }
    Ok(came.as_slice() == piece)
}
