//! The command `client`.
ghost use Rattle.std.specs.Prelude.{List, ℕ, Ok};
ghost use Rattle.std.specs.Arc.{arc_value};
ghost use Rattle.commands.specs.Io.Inputs.{value_as};
ghost use Rattle.bilateral.specs.Rows.{CentreRows};
ghost use Rattle.centre_client.specs.Runs.{IsClientTalk};
ghost use Rattle.commands.specs.Words.Words.{client_seen};
ghost use Rattle.tase_tool.specs.Client.Playing.{ClientCommand, GoesBehindTables, GoesBehindScript};
ghost use Rattle.tase_tool.specs.Client.Playing.{PlaysScript, MeetsNode, PlaysOpened};
ghost use Rattle.tase_tool.specs.Client.Playing.{IsShared};

use crate::asking::opening::{close_link, open_both};
use crate::client::ending::tell_run_end;
use bilateral::Centre;
use centre_client::service::{LinkTerminal, Talk, client_talk, run_client};
use centre_client::{ScriptFault, ScriptPlay};
use commands::files::read_tables;
use commands::io::{
    InputEnd, Refusal, RefusedLine, Status, TEXT_LIMIT, end_unread, note_line_and_why, read_input,
    refuse,
};
use commands::words::ClientWords;
use outside::names::Outside;
use std::alloc::{AllocError, Global};
use std::sync::{Arc, Wait};

/// Plays a client, as these words say: `client TABLES SCRIPT --connect ADDRESS`. It reads the
/// tables and the script, connects to the node at the address, says what the script says, and
/// prints what the client shows, as lines `reply` and `report`. Then it closes the link, and behind
/// these lines it prints how the client ended, where its script wasn't played to its end.
///
/// It answers 0 only where the script was played to its end and the release answered; 3 where the
/// tables or the script have a bad line, which is printed, and then it has connected to nobody; 4
/// only where a fault outside was counted; 7 where memory ran out; 8 where the client ended by what
/// its peer gave, which is printed. It waits as long as the peer says nothing.
pub fn run_client_command<R: Wait, O: Outside>(
    rt: &R,
    alloc: Global,
    words: ClientWords<'_>,
    outside: &mut O,
) -> Status
    ensures { ClientCommand (client_seen words.entry) (O.told outside.old) (O.told outside.new)
        result }
{
    let read = read_tables(alloc, outside, words.tables);
    let shared = share_read(alloc, read);
    let command = ClientRun { rt, alloc, words };
    command.play_read(outside, shared)
}

/// Shares tables that were read to this.
fn share_read(alloc: Global, read: Result<Centre, InputEnd>) -> Result<Arc<Centre>, InputEnd>
    ensures { IsShared read (value_as arc_value result) }
{
    match read {
        Ok(centre) => match Arc::new(alloc, centre) {
            Ok(shared) => Ok(shared),
            Err(_) => Err(InputEnd::Memory),
        },
        Err(end) => Err(end),
    }
}

/// Lets an operator know of the first bad line of a script.
fn note_fault<O: Outside>(alloc: Global, outside: &O, text: &[u8], fault: ScriptFault) {
    let line = RefusedLine {
        input: "script",
        text,
        number: fault.line,
    };
    note_line_and_why(alloc, outside, line, fault.why);
}

/// A client's command.
#[derive(Drop)]
struct ClientRun<'a, R> {
    rt: &'a R,
    alloc: Global,
    words: ClientWords<'a>,
}

impl<'a, R: Wait> ClientRun<'a, R> {
    /// Plays over tables that were read to this, and are shared.
    fn play_read<O: Outside>(&self, outside: &mut O, read: Result<Arc<Centre>, InputEnd>) -> Status
        ensures { GoesBehindTables (client_seen self.now.words) (value_as arc_value read)
            (O.told outside.old) (O.told outside.new) result }
    {
        match read {
            Ok(centre) => self.read_script(outside, &centre),
            Err(end) => end_unread(outside, "tables", end),
        }
    }

    /// Reads the script, and plays it.
    fn read_script<O: Outside>(&self, outside: &mut O, centre: &Arc<Centre>) -> Status
        ensures { GoesBehindTables (client_seen self.now.words) (Ok (arc_value centre.now))
            (O.told outside.old) (O.told outside.new) result }
    {
        let read = read_input(self.alloc, outside, self.words.script, TEXT_LIMIT);
        self.play_script(outside, centre, read)
    }

    /// Plays a script that was read to this.
    fn play_script<O: Outside>(
        &self,
        outside: &mut O,
        centre: &Arc<Centre>,
        read: Result<Vec<u8>, InputEnd>,
    ) -> Status
        ensures { GoesBehindScript (client_seen self.now.words) (arc_value centre.now) read
            (O.told outside.old) (O.told outside.new) result }
    {
        match read {
            Ok(text) => self.play_text(outside, centre, &text),
            Err(end) => end_unread(outside, "script", end),
        }
    }

    /// Plays the script with this text over these tables.
    fn play_text<O: Outside>(&self, outside: &mut O, centre: &Arc<Centre>, text: &[u8]) -> Status
        ensures { PlaysScript (client_seen self.now.words) (arc_value centre.now) text.now
            (O.told outside.old) (O.told outside.new) result }
    {
        match client_talk(self.alloc, centre, text) {
            Ok(Ok(talk)) => self.connect(outside, talk),
            Ok(Err(fault)) => {
                note_fault(self.alloc, outside, text, fault);
                refuse(outside, "script", Refusal::BadLine(fault.line))
            }
            Err(AllocError) => Status::Memory,
        }
    }

    /// Connects, and has a client talk over the link.
    fn connect<O: Outside>(&self, outside: &mut O, talk: Talk<ScriptPlay>) -> Status
        ensures { (rows : CentreRows) (text : List ℕ) → IsClientTalk rows text talk
            → MeetsNode (client_seen self.now.words) rows text (O.told outside.old)
            (O.told outside.new) result }
    {
        match open_both(outside, self.words.address) {
            Some((link, sink)) => self.play_opened(outside, talk, link, sink),
            None => Status::Outside,
        }
    }

    /// Has a client talk over a link, closes this, and tells how the client ended.
    fn play_opened<O: Outside>(
        &self,
        outside: &mut O,
        talk: Talk<ScriptPlay>,
        link: O::Link,
        sink: O::Out,
    ) -> Status
        ensures { (rows : CentreRows) (text : List ℕ) → IsClientTalk rows text talk
            → PlaysOpened rows text (O.Link.told link) (O.Out.told sink) (O.told outside.old)
            (O.told outside.new) result }
    {
        let mut talk = talk;
        let mut terminal = LinkTerminal { link, sink };
        let end = run_client(self.rt, &mut talk, &mut terminal);
        let LinkTerminal { link, mut sink } = terminal;
        close_link(outside, link);
        let status = tell_run_end(&mut sink, end);
        outside.close_out(sink);
        status
    }
}
