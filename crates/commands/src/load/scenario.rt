//! The text of the scenario.
ghost use Rattle.std.specs.Prelude.{◌≡◌, ◌<◌, ◌≤◌, ◌+◌, ◌++◌, ◌^◌, IfOk, OnOk, string_bytes};
ghost use Rattle.commands.specs.Load.Generated.{each_below};
ghost use Rattle.commands.specs.Load.Generated as own;

use crate::load::tables::{PEERS, POINTS, seen_point};
use std::alloc::{AllocError, Global};

/// The number of points in the data set of each peer.
const MEMBERS: u64 = 100;

/// The number of points that get a value in a round.
const CHANGED: u64 = 40;

/// So many rounds may a scenario have.
pub const MOST_ROUNDS: u64 = 2_000;

// Definitions cite these numbers, so that each stands here as a number too.
const _: () = prove!(MEMBERS == 100);

const _: () = prove!(CHANGED == 40);

const _: () = prove!(MOST_ROUNDS == 2_000);

/// The text of the scenario with so many rounds: each peer opens an association and enables a
/// transfer set of its own data set; then, in each round, points get values, a second passes, and
/// each peer takes its reports.
#[tactic(auto, using(crate::proofs::OfLoad::Growing::joined))]
pub fn write_load_scenario(alloc: Global, rounds: u64) -> Result<Vec<u8>, AllocError>
    requires { rounds ≤ MOST_ROUNDS }
    ensures { IfOk result (λ text. text.items ≡ own.load_scenario rounds) }
{
    let mut text = Vec::new(alloc);
    write_openings(alloc, &mut text)?;
    write_rounds(alloc, &mut text, rounds)?;
    Ok(text)
}

#[tactic(auto, using(crate::proofs::OfLoad::Growing::grown))]
fn write_openings(alloc: Global, out: &mut Vec<u8>) -> Result<(), AllocError>
    ensures { OnOk result (out.new.items ≡ out.old.items ++ each_below own.load_opening PEERS) }
{
    for peer in 0..PEERS {
        write_opening(alloc, out, peer)?;
    }
    Ok(())
}

// Writes the lines by which a peer opens its association, at the seat whose number is one above its
// own, defines a data set, and enables a transfer set of it.
#[tactic(auto, using(crate::proofs::OfLoad::Growing::joined))]
fn write_opening(alloc: Global, out: &mut Vec<u8>, peer: u64) -> Result<(), AllocError>
    requires { peer < PEERS }
    ensures { OnOk result (out.new.items ≡ out.old.items ++ own.load_opening peer) }
{
    write_open(alloc, out, peer)?;
    write_define(alloc, out, peer)?;
    write_next_set(alloc, out, peer)?;
    write_enable(alloc, out, peer)
}

fn write_open(alloc: Global, out: &mut Vec<u8>, peer: u64) -> Result<(), AllocError>
    requires { peer < PEERS }
    ensures { OnOk result (out.new.items ≡ out.old.items ++ own.load_open peer) }
{
    let line = open_line(alloc, peer)?;
    out.extend_from_slice(line.as_bytes())
}

fn open_line(alloc: Global, peer: u64) -> Result<String, AllocError>
    requires { peer < PEERS }
    ensures { IfOk result (λ line. string_bytes line ≡ own.load_open peer) }
{
    let seat = peer + 1;
    format!(in alloc; "open {seat} K{peer}\n")
}

// Writes the line that defines a peer's data set.
#[tactic(auto, using(crate::proofs::OfLoad::Growing::joined))]
fn write_define(alloc: Global, out: &mut Vec<u8>, peer: u64) -> Result<(), AllocError>
    requires { peer < PEERS }
    ensures { OnOk result (out.new.items ≡ out.old.items ++ own.load_define peer) }
{
    let head = define_head(alloc, peer)?;
    out.extend_from_slice(head.as_bytes())?;
    write_members(alloc, out, peer)?;
    Ok(out.push(b'\n')?)
}

fn define_head(alloc: Global, peer: u64) -> Result<String, AllocError>
    requires { peer < PEERS }
    ensures { IfOk result (λ text. string_bytes text ≡ own.define_head peer) }
{
    let seat = peer + 1;
    format!(in alloc; "say {seat} define D{peer}/DS")
}

#[tactic(auto, using(crate::proofs::OfLoad::Growing::grown))]
fn write_members(alloc: Global, out: &mut Vec<u8>, peer: u64) -> Result<(), AllocError>
    requires { peer < PEERS }
    ensures { OnOk result (out.new.items
        ≡ out.old.items ++ each_below (own.load_member peer) MEMBERS) }
{
    for place in 0..MEMBERS {
        write_member(alloc, out, peer, seen_point(peer, place))?;
    }
    Ok(())
}

fn write_member(alloc: Global, out: &mut Vec<u8>, peer: u64, point: u64) -> Result<(), AllocError>
    ensures { OnOk result (out.new.items ≡ out.old.items ++ own.member_name peer point) }
{
    let name = member_name(alloc, peer, point)?;
    out.extend_from_slice(name.as_bytes())
}

fn member_name(alloc: Global, peer: u64, point: u64) -> Result<String, AllocError>
    ensures { IfOk result (λ text. string_bytes text ≡ own.member_name peer point) }
{
    format!(in alloc; " D{peer}/P{point}")
}

fn write_next_set(alloc: Global, out: &mut Vec<u8>, peer: u64) -> Result<(), AllocError>
    requires { peer < PEERS }
    ensures { OnOk result (out.new.items ≡ out.old.items ++ own.load_next_set peer) }
{
    let line = next_set_line(alloc, peer)?;
    out.extend_from_slice(line.as_bytes())
}

fn next_set_line(alloc: Global, peer: u64) -> Result<String, AllocError>
    requires { peer < PEERS }
    ensures { IfOk result (λ line. string_bytes line ≡ own.load_next_set peer) }
{
    let seat = peer + 1;
    format!(in alloc; "say {seat} read D{peer}/Next_DSTransfer_Set\n")
}

fn write_enable(alloc: Global, out: &mut Vec<u8>, peer: u64) -> Result<(), AllocError>
    requires { peer < PEERS }
    ensures { OnOk result (out.new.items ≡ out.old.items ++ own.load_enable peer) }
{
    let line = enable_line(alloc, peer, wish_behind_set(peer))?;
    out.extend_from_slice(line.as_bytes())
}

fn enable_line(alloc: Global, peer: u64, wish: &str) -> Result<String, AllocError>
    requires { peer < PEERS }
    ensures { IfOk result (λ line. string_bytes line ≡ own.enable_line peer wish.now) }
{
    let seat = peer + 1;
    let open = "{{";
    format!(in alloc; "say {seat} write D{peer}/DSTrans1={open}i1,vD{peer},vDS{wish}\n")
}

// What a peer wishes of its transfer set: every other peer a report every ten seconds, with all
// members, the others a report of the members that changed.
fn wish_behind_set(peer: u64) -> &'static str
    ensures { result.now ≡ own.wish_behind_set peer }
{
    if peer.is_multiple_of(2) {
        "},i0,i10,i0,i0,i0,b5.80,F,F,F,F,T,i0}"
    } else {
        "},i0,i0,i0,i0,i0,b5.20,F,F,T,F,T,i0}"
    }
}

#[tactic(auto, using(crate::proofs::OfLoad::Growing::grown))]
fn write_rounds(alloc: Global, out: &mut Vec<u8>, rounds: u64) -> Result<(), AllocError>
    requires { rounds ≤ MOST_ROUNDS }
    ensures { OnOk result (out.new.items ≡ out.old.items ++ each_below own.load_round rounds) }
{
    for before in 0..rounds {
        write_round(alloc, out, before)?;
    }
    Ok(())
}

// Writes the round behind so many others.
#[tactic(auto, using(crate::proofs::OfLoad::Growing::joined))]
fn write_round(alloc: Global, out: &mut Vec<u8>, before: u64) -> Result<(), AllocError>
    requires { before < MOST_ROUNDS }
    ensures { OnOk result (out.new.items ≡ out.old.items ++ own.load_round before) }
{
    write_updates(alloc, out, before)?;
    write_tick(alloc, out, before)?;
    write_takes(alloc, out)
}

#[tactic(auto, using(crate::proofs::OfLoad::Growing::grown))]
fn write_updates(alloc: Global, out: &mut Vec<u8>, before: u64) -> Result<(), AllocError>
    requires { before < MOST_ROUNDS }
    ensures { OnOk result (out.new.items
        ≡ out.old.items ++ each_below (own.load_update before) CHANGED) }
{
    for place in 0..CHANGED {
        write_update(alloc, out, (CHANGED * before + place) % POINTS, before + 1)?;
    }
    Ok(())
}

fn write_update(alloc: Global, out: &mut Vec<u8>, point: u64, round: u64) -> Result<(), AllocError>
    ensures { OnOk result (out.new.items ≡ out.old.items ++ own.update_line point round) }
{
    let line = update_line(alloc, point, round)?;
    out.extend_from_slice(line.as_bytes())
}

fn update_line(alloc: Global, point: u64, round: u64) -> Result<String, AllocError>
    ensures { IfOk result (λ line. string_bytes line ≡ own.update_line point round) }
{
    format!(in alloc; "update P{point} d{round} 00 {round} 0\n")
}

fn write_tick(alloc: Global, out: &mut Vec<u8>, before: u64) -> Result<(), AllocError>
    requires { before < MOST_ROUNDS }
    ensures { OnOk result (out.new.items ≡ out.old.items ++ own.load_tick before) }
{
    let line = tick_line(alloc, before)?;
    out.extend_from_slice(line.as_bytes())
}

fn tick_line(alloc: Global, before: u64) -> Result<String, AllocError>
    requires { before < MOST_ROUNDS }
    ensures { IfOk result (λ line. string_bytes line ≡ own.load_tick before) }
{
    let now = 1_000 * (before + 1);
    format!(in alloc; "tick {now}\n")
}

#[tactic(auto, using(crate::proofs::OfLoad::Growing::grown))]
fn write_takes(alloc: Global, out: &mut Vec<u8>) -> Result<(), AllocError>
    ensures { OnOk result (out.new.items ≡ out.old.items ++ each_below own.load_take PEERS) }
{
    for peer in 0..PEERS {
        write_take(alloc, out, peer)?;
    }
    Ok(())
}

fn write_take(alloc: Global, out: &mut Vec<u8>, peer: u64) -> Result<(), AllocError>
    requires { peer < PEERS }
    ensures { OnOk result (out.new.items ≡ out.old.items ++ own.load_take peer) }
{
    let line = take_line(alloc, peer)?;
    out.extend_from_slice(line.as_bytes())
}

fn take_line(alloc: Global, peer: u64) -> Result<String, AllocError>
    requires { peer < PEERS }
    ensures { IfOk result (λ line. string_bytes line ≡ own.load_take peer) }
{
    let seat = peer + 1;
    format!(in alloc; "take {seat}\n")
}
