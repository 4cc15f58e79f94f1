//! The command `load`: the generated scenario over the generated tables, and what is counted of it.
ghost use Rattle.std.specs.Prelude.{◌≡◌, ◌≤◌, [], Some, None, Ok, IfOk, true};
ghost use Rattle.commands.specs.Io.Saying.{prints, full_text, duty_to_say};
ghost use Rattle.commands.specs.Io.Runs.{IsRun};
ghost use Rattle.commands.specs.declared.load.scenario.TheConstants.{MOST_ROUNDS};
ghost use Rattle.commands.specs.Load.Generated as texts;
ghost use Rattle.commands.specs.Load.Summaries.{summary_text};
ghost use Rattle.tase_replay.specs.Play.{Played};
ghost use Rattle.commands.specs.Files.Tables.{tables_in};
ghost use Rattle.tase_tool.specs.Sent.{played_on};
ghost use Rattle.tase_tool.specs.Saying.{counted_said, load_said};
ghost use Rattle.tase_tool.specs.Loading.{IsPlayedInMemory};
ghost use Rattle.tase_tool.specs.Saying as own;

use crate::running::new_node;
use bilateral::Centre;
use commands::files::read_lines;
use commands::io::{OUTPUT, Refusal, Status, print, refuse, tell_full};
use commands::load::{
    KeptText, MOST_ROUNDS, spell_summary, write_load_scenario, write_load_tables,
};
use commands::words::HISTORY_LIMIT;
use node_core::Node;
use outside::names::Outside;
use std::alloc::{AllocError, Global};
use tase_replay::{ReplayEnd, replay};

/// Plays the scenario of the load run with so many rounds over its tables, and prints what is
/// counted of it.
pub(crate) fn run_load<O: Outside>(alloc: Global, outside: &mut O, rounds: u64) -> Status
    requires { rounds ≤ MOST_ROUNDS }
    ensures { IsRun (duty_to_say true (load_said rounds))
        (O.told outside.old) (O.told outside.new) result }
{
    match read_load_tables(alloc) {
        Ok(Ok(centre)) => load_over(alloc, outside, centre, rounds),
        Ok(Err(line)) => refuse(outside, "tables", Refusal::BadLine(line)),
        Err(AllocError) => Status::Memory,
    }
}

// The centre of the tables of the load run, or the number of their first bad line.
fn read_load_tables(alloc: Global) -> Result<Result<Centre, u64>, AllocError>
    ensures { IfOk result (λ read. read ≡ tables_in texts.load_tables) }
{
    let text = write_load_tables(alloc)?;
    read_lines(alloc, &text)
}

// Plays the scenario over these tables, and prints what is counted of it.
fn load_over<O: Outside>(alloc: Global, outside: &mut O, centre: Centre, rounds: u64) -> Status
    requires { rounds ≤ MOST_ROUNDS }
    ensures { IsRun (duty_to_say true (own.load_over rounds (Ok centre)))
        (O.told outside.old) (O.told outside.new) result }
{
    match (
        new_node(alloc, centre, HISTORY_LIMIT),
        write_load_scenario(alloc, rounds),
    ) {
        (Ok(node), Ok(scenario)) => count(alloc, outside, node, &scenario),
        _ => Status::Memory,
    }
}

// Plays a scenario on a node without a history, and prints what is counted of it.
fn count<O: Outside>(alloc: Global, outside: &mut O, node: Node, scenario: &[u8]) -> Status
    requires { node.history ≡ [] }
    ensures { IsRun (duty_to_say true (counted_said (played_on node scenario.now)))
        (O.told outside.old) (O.told outside.new) result }
{
    let mut node = node;
    let mut shown = KeptText::new(alloc);
    let end = replay(alloc, &mut node, scenario, &mut shown);
    tell_counted(alloc, outside, &node, &shown, end)
}

// Prints what is counted of a play that has ended so, or why it was refused. `node` is the node
// that it was played on, and `shown` has taken what it shows.
fn tell_counted<O: Outside>(
    alloc: Global,
    outside: &mut O,
    node: &Node,
    shown: &KeptText,
    end: ReplayEnd,
) -> Status
    ensures { (played : Played) → IsPlayedInMemory played node.now.history shown.now end
        → IsRun (duty_to_say true (counted_said played))
        (O.told outside.old) (O.told outside.new) result }
{
    match end {
        ReplayEnd::Done => print_summary(alloc, outside, node.history_len(), shown.text()),
        ReplayEnd::BadLine { line } => refuse(outside, "scenario", Refusal::BadLine(line)),
        ReplayEnd::Full { weight, limit } => print_full(outside, weight, limit),
        ReplayEnd::SinkFault | ReplayEnd::Memory => Status::Memory,
    }
}

// Prints the lines about a run whose history has so many entries and that shows this.
fn print_summary<O: Outside>(alloc: Global, outside: &mut O, entries: u64, shown: &[u8]) -> Status
    ensures { IsRun (duty_to_say true (prints Status.Done (summary_text entries shown.now)))
        (O.told outside.old) (O.told outside.new) result }
{
    match spell_summary(alloc, entries, shown) {
        Ok(text) => print(outside, Status::Done, &text),
        Err(AllocError) => Status::Memory,
    }
}

// Prints that the history would weigh so many octets, and may weigh at most `limit`.
fn print_full<O: Outside>(outside: &mut O, weight: u64, limit: u64) -> Status
    ensures { IsRun (duty_to_say true (prints Status.Full (full_text weight limit)))
        (O.told outside.old) (O.told outside.new) result }
{
    let Some(mut sink) = outside.open_out(OUTPUT) else {
        return Status::Outside;
    };
    let status = tell_full(&mut sink, weight, limit);
    outside.close_out(sink);
    status
}
