//! An asking end, run over a terminal.
ghost use Rattle.std.specs.Prelude.{◌≡◌, ℕ, ◌<◌, ◌≤◌, List, Option, length, Some, None};
ghost use Rattle.outside.specs.Links.LinkAnswers.{LinkAnswers};
ghost use Rattle.node_server.specs.Links.LinkUses.{HasHeard};
ghost use Rattle.asking_end.specs.Service.Sends.{is_send_fault};
ghost use Rattle.asking_end.specs.Service.Talks.{IsTalk};
ghost use Rattle.asking_end.specs.Service.Runs.{TalksOver};
ghost use Rattle.asking_end.specs.Service.Talking.{RunStart, TalksSoFar, IsFlushed, EndsOver};
ghost use Rattle.asking_end.specs.Service.Talking.{FlushedBy, TakenBy, TalkedBy, HearsPiece};

use crate::service::run_end::RunEnd;
use crate::service::sending::{Sent, send_out};
use crate::service::talking::Talk;
use crate::service::terminal::Terminal;
use crate::{Agenda, AskEnd};
use outside::links::Recv;
use std::alloc::AllocError;
use std::sync::Wait;

/// So many octets are received at a time, at most.
const PIECE: usize = 16_384;

/// Runs an asking end over a terminal, turn by turn: what it says is sent, what it shows is
/// written, and then the link is asked for more. It closes nothing.
pub fn run_asking<R: Wait, A: Agenda<Item = u8>, T: Terminal>(
    rt: &R,
    talk: &mut Talk<A>,
    terminal: &mut T,
) -> RunEnd<A::End>
    ensures { (title : Option (List ℕ)) (agenda : A) (first : LinkAnswers)
        → IsTalk A.acts title agenda talk.old → HasHeard (T.told terminal.old).link first
        → TalksOver A.acts title agenda (T.told terminal.old) (T.told terminal.new) first
        result talk.new.asking }
{
    let mut room = [0u8; PIECE];
    talk_on(rt, talk, &mut room, terminal)
}

/// Talks on, turn by turn, to the end.
fn talk_on<R: Wait, A: Agenda<Item = u8>, T: Terminal>(
    rt: &R,
    talk: &mut Talk<A>,
    room: &mut [u8],
    terminal: &mut T,
) -> RunEnd<A::End>
    requires room { 0 < length room.old }
    requires few { length room.old ≤ PIECE }
    ensures { (start : RunStart A) → TalksSoFar A.acts start (T.told terminal.old) talk.old
        → talk.old.asking.end ≡ None
        → EndsOver A.acts start (T.told terminal.new) result talk.new }
{
    for _ in rt.forever() {
        if let Some(end) = talk_once(talk, room, terminal) {
            return end;
        }
    }
    unreachable!()
}

/// One turn. None where it goes on.
fn talk_once<A: Agenda<Item = u8>, T: Terminal>(
    talk: &mut Talk<A>,
    room: &mut [u8],
    terminal: &mut T,
) -> Option<RunEnd<A::End>>
    requires room { 0 < length room.old }
    requires few { length room.old ≤ PIECE }
    ensures { (start : RunStart A) → TalksSoFar A.acts start (T.told terminal.old) talk.old
        → talk.old.asking.end ≡ None
        → TalkedBy A.acts result start (T.told terminal.new) talk.new }
{
    match flush(talk, terminal) {
        Some(end) => Some(end),
        None => match receive(talk, room, terminal) {
            Intake::GoesOn => None,
            Intake::Ends(end) => Some(leave(talk, terminal, end)),
            Intake::Fails(end) => Some(end),
        },
    }
}

/// Sends and writes what waits, and ends so.
fn leave<A: Agenda<Item = u8>, T: Terminal>(
    talk: &mut Talk<A>,
    terminal: &mut T,
    end: AskEnd<A::End>,
) -> RunEnd<A::End>
    ensures { (start : RunStart A) → TalksSoFar A.acts start (T.told terminal.old) talk.old
        → talk.old.asking.end ≡ Some end
        → EndsOver A.acts start (T.told terminal.new) result talk.new }
{
    match flush(talk, terminal) {
        Some(fault) => fault,
        None => RunEnd::Ended(end),
    }
}

/// Sends what waits, and writes what is shown. None where neither has failed.
fn flush<A: Agenda<Item = u8>, T: Terminal>(
    talk: &mut Talk<A>,
    terminal: &mut T,
) -> Option<RunEnd<A::End>>
    ensures flushes { (start : RunStart A)
        → TalksSoFar A.acts start (T.told terminal.old) talk.old
        → FlushedBy A.acts result start (T.told terminal.new) talk.new }
    ensures asking { talk.new.asking ≡ talk.old.asking }
{
    let sent = send_out(terminal, &mut talk.out);
    if has_failed(sent) {
        return Some(RunEnd::LinkFault);
    }
    match terminal.show(talk.shown.as_slice()) {
        Ok(()) => {
            talk.shown.truncate(0);
            None
        }
        Err(_) => Some(RunEnd::SinkFault),
    }
}

/// Whether a send has failed.
fn has_failed(sent: Sent) -> bool
    ensures { result ≡ is_send_fault sent }
{
    matches!(sent, Sent::Failed)
}

/// What a turn of recv came to.
enum Intake<E> {
    /// It goes on.
    GoesOn,
    /// The asking end has ended so, and what it said and showed last waits.
    Ends(AskEnd<E>),
    /// The run has ended so.
    Fails(RunEnd<E>),
}

/// Receives once, and hears what came.
fn receive<A: Agenda<Item = u8>, T: Terminal>(
    talk: &mut Talk<A>,
    room: &mut [u8],
    terminal: &mut T,
) -> Intake<A::End>
    requires room { 0 < length room.old }
    requires few { length room.old ≤ PIECE }
    ensures { (start : RunStart A) → IsFlushed A.acts start (T.told terminal.old) talk.old
        → talk.old.asking.end ≡ None
        → TakenBy A.acts result start (T.told terminal.new) talk.new }
{
    match terminal.recv(room) {
        Recv::Got(count) => hear(talk, &room[..count]),
        Recv::Idle => Intake::GoesOn,
        Recv::End => Intake::Fails(RunEnd::Ended(talk.asking.peer_end())),
        Recv::Failed => Intake::Fails(RunEnd::LinkFault),
    }
}

/// Hears a piece.
fn hear<A: Agenda<Item = u8>>(talk: &mut Talk<A>, piece: &[u8]) -> Intake<A::End>
    requires { length piece.now ≤ PIECE }
    ensures { HearsPiece A.acts result piece.now talk.old talk.new }
{
    match talk.asking.turn(piece, &mut talk.out, &mut talk.shown) {
        Ok(None) => Intake::GoesOn,
        Ok(Some(end)) => Intake::Ends(end),
        Err(AllocError) => Intake::Fails(RunEnd::Ended(AskEnd::Memory)),
    }
}
