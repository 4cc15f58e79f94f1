//! A client, run over a terminal.
ghost use Rattle.std.specs.Prelude.{ℕ, List};
ghost use Rattle.outside.specs.Links.LinkAnswers.{LinkAnswers};
ghost use Rattle.asking_end.specs.Links.LinkUses.{HasHeard};
ghost use Rattle.bilateral.specs.Rows.{CentreRows};
ghost use Rattle.centre_client.specs.Runs.{IsClientTalk, PlaysText};

use crate::{Checkback, ScriptPlay};
use asking_end::service::{RunEnd, Talk, Terminal, run_asking};
use std::sync::Wait;

/// Runs a client over a terminal, turn by turn: what it says is sent, what it shows is written, and
/// then the link is asked for more. It closes nothing.
pub fn run_client<R: Wait, T: Terminal>(
    rt: &R,
    talk: &mut Talk<ScriptPlay>,
    terminal: &mut T,
) -> RunEnd<Checkback>
    ensures { (rows : CentreRows) (text : List ℕ) (first : LinkAnswers)
        → IsClientTalk rows text talk.old → HasHeard (T.told terminal.old).link first
        → PlaysText rows text (T.told terminal.old) (T.told terminal.new) first result
        talk.new.asking }
{
    run_asking(rt, talk, terminal)
}
