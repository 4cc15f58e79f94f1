//! The text of the tables.
ghost use Rattle.std.specs.Prelude.{◌≡◌, ◌<◌, ◌++◌, IfOk, OnOk, string_bytes};
ghost use Rattle.commands.specs.Load.Generated.{each_below};
ghost use Rattle.commands.specs.Load.Generated as own;

use std::alloc::{AllocError, Global};

/// The number of points.
pub(crate) const POINTS: u64 = 2_000;

/// The number of peers.
pub(crate) const PEERS: u64 = 64;

/// The number of points that each peer's table has.
const SEEN: u64 = 250;

// Definitions cite these numbers, so that each stands here as a number too.
const _: () = prove!(POINTS == 2_000);

const _: () = prove!(PEERS == 64);

const _: () = prove!(SEEN == 250);

/// The text of the tables: the points, and behind them each peer with its table.
#[tactic(auto, using(crate::proofs::OfLoad::Growing::joined))]
pub fn write_load_tables(alloc: Global) -> Result<Vec<u8>, AllocError>
    ensures { IfOk result (λ text. text.items ≡ own.load_tables) }
{
    let mut text = Vec::new(alloc);
    write_points(alloc, &mut text)?;
    write_peers(alloc, &mut text)?;
    Ok(text)
}

#[tactic(auto, using(crate::proofs::OfLoad::Growing::grown))]
fn write_points(alloc: Global, out: &mut Vec<u8>) -> Result<(), AllocError>
    ensures { OnOk result (out.new.items ≡ out.old.items ++ each_below own.load_point POINTS) }
{
    for point in 0..POINTS {
        write_point(alloc, out, point)?;
    }
    Ok(())
}

fn write_point(alloc: Global, out: &mut Vec<u8>, point: u64) -> Result<(), AllocError>
    ensures { OnOk result (out.new.items ≡ out.old.items ++ own.load_point point) }
{
    let line = point_line(alloc, point)?;
    out.extend_from_slice(line.as_bytes())
}

fn point_line(alloc: Global, point: u64) -> Result<String, AllocError>
    ensures { IfOk result (λ line. string_bytes line ≡ own.load_point point) }
{
    format!(in alloc; "point P{point} discrete\n")
}

#[tactic(auto, using(crate::proofs::OfLoad::Growing::grown))]
fn write_peers(alloc: Global, out: &mut Vec<u8>) -> Result<(), AllocError>
    ensures { OnOk result (out.new.items ≡ out.old.items ++ each_below own.load_peer PEERS) }
{
    for peer in 0..PEERS {
        write_peer(alloc, out, peer)?;
    }
    Ok(())
}

// Writes the lines of a peer and of its table.
#[tactic(auto, using(crate::proofs::OfLoad::Growing::joined))]
fn write_peer(alloc: Global, out: &mut Vec<u8>, peer: u64) -> Result<(), AllocError>
    requires { peer < PEERS }
    ensures { OnOk result (out.new.items ≡ out.old.items ++ own.load_peer peer) }
{
    let head = peer_line(alloc, peer)?;
    out.extend_from_slice(head.as_bytes())?;
    out.extend_from_slice(b"slots 1\nsets 64\npending 1048576\n")?;
    write_sights(alloc, out, peer)
}

fn peer_line(alloc: Global, peer: u64) -> Result<String, AllocError>
    requires { peer < PEERS }
    ensures { IfOk result (λ line. string_bytes line ≡ own.peer_head peer) }
{
    let title = peer + 1;
    format!(in alloc; "peer K{peer} 1.1.998.{title} D{peer} T{peer}\n")
}

// Writes which points a peer sees.
#[tactic(auto, using(crate::proofs::OfLoad::Growing::grown))]
fn write_sights(alloc: Global, out: &mut Vec<u8>, peer: u64) -> Result<(), AllocError>
    requires { peer < PEERS }
    ensures { OnOk result (out.new.items ≡ out.old.items ++ each_below (own.load_sight peer) SEEN) }
{
    for place in 0..SEEN {
        write_sight(alloc, out, seen_point(peer, place))?;
    }
    Ok(())
}

/// The point that stands at a place of a peer's table.
pub(crate) fn seen_point(peer: u64, place: u64) -> u64
    requires peer { peer < PEERS }
    requires place { place < SEEN }
    ensures { result ≡ own.seen_point peer place }
{
    (31 * peer + place) % POINTS
}

fn write_sight(alloc: Global, out: &mut Vec<u8>, point: u64) -> Result<(), AllocError>
    ensures { OnOk result (out.new.items ≡ out.old.items ++ own.sight_line point) }
{
    let line = sight_line(alloc, point)?;
    out.extend_from_slice(line.as_bytes())
}

fn sight_line(alloc: Global, point: u64) -> Result<String, AllocError>
    ensures { IfOk result (λ line. string_bytes line ≡ own.sight_line point) }
{
    format!(in alloc; "see P{point} domain value\n")
}
