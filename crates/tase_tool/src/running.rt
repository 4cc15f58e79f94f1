//! The commands.
ghost use Rattle.std.specs.Prelude.{◌≡◌, ◌≤◌, ◌^◌, [], map, string_bytes, Some, IfOk, IfErr, true};
ghost use Rattle.std.specs.Prelude.{codes, false, IfSome, option_map, bytes_eq};
ghost use Rattle.commands.specs.Io.Saying.{texts_of, duty_to_say, prints};
ghost use Rattle.commands.specs.Io.Runs.{IsRun, TellsSaid, Took, taken_of, output_name};
ghost use Rattle.commands.specs.Io.Plans.{says, RunsPlan, EndsPlan, octets_of};
ghost use Rattle.commands.specs.Words.Words.{task_in, task_of, replays, limit_of, options_seen};
ghost use Rattle.commands.specs.Words.Words.{AreOptions, IsLimited};
ghost use Rattle.tase_tool.specs.Saying.{scenario_said, scenario_plan, replay_plan};
ghost use Rattle.tase_tool.specs.Saying.{played_said, kept_said};
ghost use Rattle.tase_tool.specs.Running.{RunsTask, RunsTexts, IsWaitLimited, waits_for};
ghost use Rattle.tase_tool.specs.Lacking.{LacksFor};
ghost use Rattle.tase_tool.specs.LoadEnds.{EndsLoad};
ghost use Rattle.tase_tool.specs.Playing.{EndsPlay};
ghost use Rattle.tase_tool.specs.Sent.{node_of, played_on, SendsSoFar, SendsOver, SendsBy};
ghost use Rattle.tase_tool.specs.Kept.{HasPlayed};
ghost use Rattle.commands.specs.Io.Statuses.{OnWhole};

use crate::client::run_client_command;
use crate::decoding::run_decode;
use crate::discover::run_discover_command;
use crate::listing::run_listing;
use crate::loading::run_load;
use crate::server::run_serve;
use crate::verifying::run_verify;
use bilateral::Centre;
use commands::files::{keep_journal, read_tables};
use commands::io::{
    InputEnd, OUTPUT, Refusal, RefusedLine, Status, TEXT_LIMIT, end_unread, note_line, print,
    read_input, tell_full, tell_refusal,
};
use commands::words::{ClientWords, Command, DiscoverWords, Options, ServeWords, read_command};
use job_threads::ThreadSpawner;
use node_core::Node;
use outside::links::Listener;
use outside::names::Outside;
use outside::{BufferedSink, Sink, SinkFailed};
use server_main::serving::jobs::NodeJob;
use std::alloc::{AllocError, Global};
use std::sync::{Arc, Wait};
use std::thread::Threads;
use tase_replay::{ReplayEnd, replay};

/// Runs the command of these words: `replay TABLES SCENARIO` plays a scenario over tables and
/// prints what the peers are answered and sent, as lines `reply`, `report`, `out` and `ended`, on a
/// node whose history may weigh 134,217,728 octets, or as many as `--limit N` behind it says, from
/// 1 to 268,435,456, and behind it writes that history to the file that `--journal FILE` names, a
/// line for each entry; `decode IN` lists the messages of a captured stream of either end of a
/// connection, `decode --pdu IN` tells which PDU (ISO 9506-2) a capture holds; `verify TABLES
/// JOURNAL KEY ORDINAL IN OUT` holds what an association was sent against its history and what its
/// link gave; `load N` plays a scenario of N rounds, from 1 to 2,000, over tables of 64 peers, both
/// generated, and prints what is counted of it. All is printed on standard output, which is `-` of
/// the outside's sinks. `serve TABLES --journal FILE --listen ADDRESS` serves a node over these
/// tables to whoever connects, with the jobs of the spawner, and `client TABLES SCRIPT --connect
/// ADDRESS` plays a script over a connection to another node; `discover TABLES KEY --connect
/// ADDRESS` lists what another node offers, and holds it against a peer's table. These three may
/// wait for what comes from outside, and `run_serve`, `run_client_command` and
/// `run_discover_command` say what they do and answer.
///
/// What every other command answers and prints is, where the outside tells its octets, what the
/// definitions say of those octets alone: the tables that the first text spells, and over them what
/// the scenario shows, each reply from the asking peer's own tables and its view of the history, up
/// to the first bad line or the first event with which the history would weigh more than its limit,
/// which is told so; or the messages that the octets of a capture are, each with its place, and the
/// first rule that they break; or the PDU that they are, or that rule; or that the octets that an
/// association was sent are those that its journal and its link account for, or where they first
/// differ, or the first event of the journal that the link doesn't account for, with the status 6;
/// or of all that the generated scenario shows over the generated tables the entries of its
/// history, the replies, the reports, the outcomes in these, and the sum of its octets.
///
/// Where it answers 0, 3 or 5, all that was printed for the peer of each link is what that peer is
/// owed for the lines that were taken: over the tables, the history that these lines leave and all
/// that they gave to the link, its octets in order, and behind them once how its connection ended.
/// Where it answers 4 or 7, this holds of the first of these lines, and what went out is what they
/// print, or a front part of it; or it holds of all, and a front part of all that is said went out.
///
/// A load answers 0, 4 or 7: neither of its texts has a bad line, and its history is never full.
///
/// Where it answers 7, a check hasn't read to its end what the association was sent, and no line is
/// bad of what its link gave, of a capture that is listed or decoded, or of a client's script,
/// where these were read.
pub fn run<R: Threads + Wait + Copy + Send + 'static, O: Outside>(
    rt: &R,
    alloc: Global,
    words: &[String],
    outside: &mut O,
    spawner: &mut ThreadSpawner<NodeJob<<O::Listener as Listener>::Link, O::In, O::Clock>>,
) -> Status
where
    <O::Listener as Listener>::Link: Send + 'static,
    O::In: Send + 'static,
    O::Clock: Send + 'static,
    requires none { spawner.old.told.pending ≡ [] }
    ensures runs { RunsTask (task_in (map string_bytes words.now)) (O.told outside.old)
        (O.told outside.new) spawner.old.told.faults spawner.new.told.faults result }
    ensures sent { let told = O.told outside.old in
        SendsBy (task_in (map string_bytes words.now)) (texts_of told) result
        (taken_of (told.sinks output_name))
        (taken_of ((O.told outside.new).sinks output_name)) }
    ensures memory { result ≡ Status.Memory → LacksFor (task_in (map string_bytes words.now))
        (O.told outside.old) (O.told outside.new) }
    ensures load { EndsLoad (task_in (map string_bytes words.now)) result }
    ensures left { spawner.new.told.pending ≡ [] }
{
    match run_texts(alloc, words, outside) {
        Ok(status) => status,
        Err(waiting) => run_waiting(rt, alloc, outside, spawner, waiting),
    }
}

/// A command that waits for what comes from outside.
#[derive(Drop)]
pub enum Waiting<'a> {
    Serve(ServeWords<'a>),
    Client(ClientWords<'a>),
    Discover(DiscoverWords<'a>),
}

// Runs a command that waits.
fn run_waiting<R: Threads + Wait + Copy + Send + 'static, O: Outside>(
    rt: &R,
    alloc: Global,
    outside: &mut O,
    spawner: &mut ThreadSpawner<NodeJob<<O::Listener as Listener>::Link, O::In, O::Clock>>,
    waiting: Waiting<'_>,
) -> Status
where
    <O::Listener as Listener>::Link: Send + 'static,
    O::In: Send + 'static,
    O::Clock: Send + 'static,
    requires limited { IsWaitLimited waiting }
    requires none { spawner.old.told.pending ≡ [] }
    ensures runs { RunsTask (Some (waits_for waiting.entry)) (O.told outside.old)
        (O.told outside.new) spawner.old.told.faults spawner.new.told.faults result }
    ensures left { spawner.new.told.pending ≡ [] }
{
    match waiting {
        Waiting::Serve(words) => run_serve(rt, alloc, words, outside, spawner),
        Waiting::Client(words) => run_client_command(rt, alloc, words, outside),
        Waiting::Discover(words) => run_discover_command(rt, alloc, words, outside),
    }
}

/// Runs the command of these words, as `run` does, where that waits for nothing: any but `serve`,
/// `client` and `discover`, which are handed back, with nothing done. It takes no runtime, so it
/// can't wait: it is proved to end.
pub fn run_texts<'a, O: Outside>(
    alloc: Global,
    words: &'a [String],
    outside: &mut O,
) -> Result<Status, Waiting<'a>>
    ensures runs { RunsTexts (task_in (map string_bytes words.now)) (O.told outside.old)
        (O.told outside.new) result }
    ensures sent { let told = O.told outside.old in IfOk result (λ status.
        SendsBy (task_in (map string_bytes words.now)) (texts_of told) status
        (taken_of (told.sinks output_name))
        (taken_of ((O.told outside.new).sinks output_name))) }
    ensures memory { IfOk result (λ status. status ≡ Status.Memory
        → LacksFor (task_in (map string_bytes words.now))
        (O.told outside.old) (O.told outside.new)) }
    ensures limited { IfErr result IsWaitLimited }
{
    match read_command(alloc, words) {
        Ok(command) => run_command(alloc, outside, command),
        Err(AllocError) => Ok(Status::Memory),
    }
}

// Runs the command that words ask for; where they ask for none, it says so.
fn run_command<'a, O: Outside>(
    alloc: Global,
    outside: &mut O,
    command: Option<Command<'a>>,
) -> Result<Status, Waiting<'a>>
    requires { IfSome command IsLimited }
    ensures runs { RunsTexts (option_map task_of command.entry) (O.told outside.old)
        (O.told outside.new) result }
    ensures sent { let told = O.told outside.old in IfOk result (λ status.
        SendsBy (option_map task_of command.entry) (texts_of told) status
        (taken_of (told.sinks output_name))
        (taken_of ((O.told outside.new).sinks output_name))) }
    ensures memory { IfOk result (λ status. status ≡ Status.Memory
        → LacksFor (option_map task_of command.entry)
        (O.told outside.old) (O.told outside.new)) }
    ensures limited { IfErr result IsWaitLimited }
{
    match command {
        Some(command) => run_task(alloc, outside, command),
        None => Ok(print(outside, Status::Usage, b"usage\n")),
    }
}

// Runs a command.
fn run_task<'a, O: Outside>(
    alloc: Global,
    outside: &mut O,
    command: Command<'a>,
) -> Result<Status, Waiting<'a>>
    requires { IsLimited command }
    ensures runs { RunsTexts (Some (task_of command.entry)) (O.told outside.old)
        (O.told outside.new) result }
    ensures sent { let told = O.told outside.old in IfOk result (λ status.
        SendsBy (Some (task_of command.entry)) (texts_of told) status
        (taken_of (told.sinks output_name))
        (taken_of ((O.told outside.new).sinks output_name))) }
    ensures memory { IfOk result (λ status. status ≡ Status.Memory
        → LacksFor (Some (task_of command.entry))
        (O.told outside.old) (O.told outside.new)) }
    ensures limited { IfErr result IsWaitLimited }
{
    match command {
        Command::Replay {
            tables,
            scenario,
            options,
        } => Ok(run_replay(alloc, outside, tables, scenario, options)),
        Command::Decode { capture } => Ok(run_listing(alloc, outside, capture)),
        Command::DecodePdu { capture } => Ok(run_decode(alloc, outside, capture)),
        Command::Verify { question } => Ok(run_verify(alloc, outside, question)),
        Command::Load { rounds } => Ok(run_load(alloc, outside, rounds)),
        Command::Serve { words } => Err(Waiting::Serve(words)),
        Command::Client { words } => Err(Waiting::Client(words)),
        Command::Discover { words } => Err(Waiting::Discover(words)),
    }
}

// Reads the tables, and runs the scenario over them.
fn run_replay<O: Outside>(
    alloc: Global,
    outside: &mut O,
    tables: &str,
    scenario: &str,
    options: Options<'_>,
) -> Status
    requires { AreOptions (options_seen options) }
    ensures runs { RunsPlan (replay_plan tables.now scenario.now (options_seen options.entry))
        (O.told outside.old) (O.told outside.new) result }
    ensures sent { let told = O.told outside.old in
        SendsBy (Some (replays tables.now scenario.now (options_seen options.entry)))
        (texts_of told) result (taken_of (told.sinks output_name))
        (taken_of ((O.told outside.new).sinks output_name)) }
{
    let read = read_tables(alloc, outside, tables);
    run_over(alloc, outside, read, scenario, options)
}

// Runs the scenario over tables that were read to this.
fn run_over<O: Outside>(
    alloc: Global,
    outside: &mut O,
    read: Result<Centre, InputEnd>,
    scenario: &str,
    options: Options<'_>,
) -> Status
    requires { AreOptions (options_seen options) }
    ensures runs { EndsPlan (codes "tables")
        (λ rows. scenario_plan rows (options_seen options.entry) scenario.now) read
        (O.told outside.old) (O.told outside.new) result }
    ensures sent { let told = O.told outside.old in
        IfOk read (SendsOver (options_seen options.entry) result
        (taken_of (told.sinks output_name)) (taken_of ((O.told outside.new).sinks output_name))
        (texts_of told scenario.now)) }
{
    match read {
        Ok(centre) => run_scenario(alloc, outside, centre, scenario, options),
        Err(end) => end_unread(outside, "tables", end),
    }
}

// Reads the scenario, and plays it on a node of this centre.
fn run_scenario<O: Outside>(
    alloc: Global,
    outside: &mut O,
    centre: Centre,
    scenario: &str,
    options: Options<'_>,
) -> Status
    requires { AreOptions (options_seen options) }
    ensures runs { RunsPlan (scenario_plan centre (options_seen options.entry) scenario.now)
        (O.told outside.old) (O.told outside.new) result }
    ensures sent { let told = O.told outside.old in
        SendsOver (options_seen options.entry) result
        (taken_of (told.sinks output_name)) (taken_of ((O.told outside.new).sinks output_name))
        (texts_of told scenario.now) centre }
{
    let read = read_input(alloc, outside, scenario, TEXT_LIMIT);
    play_read(alloc, outside, centre, options, read)
}

// Plays a scenario that was read to this.
fn play_read<O: Outside>(
    alloc: Global,
    outside: &mut O,
    centre: Centre,
    options: Options<'_>,
    read: Result<Vec<u8>, InputEnd>,
) -> Status
    requires { AreOptions (options_seen options) }
    ensures runs { EndsPlan (codes "scenario")
        (λ text. says (scenario_said centre (options_seen options.entry) (octets_of text))) read
        (O.told outside.old) (O.told outside.new) result }
    ensures sent { IfOk read (λ text.
        SendsSoFar (node_of centre (limit_of (options_seen options.entry))) text.items result
        (Took result (taken_of ((O.told outside.old).sinks output_name))
        (taken_of ((O.told outside.new).sinks output_name)))) }
{
    match read {
        Ok(text) => play_scenario(alloc, outside, centre, options, &text),
        Err(end) => end_unread(outside, "scenario", end),
    }
}

/// A node of this centre, with an empty history, which may weigh so many octets.
pub(crate) fn new_node(alloc: Global, centre: Centre, limit: u64) -> Result<Node, AllocError>
    requires { limit ≤ 2 ^ 31 }
    ensures { IfOk result (λ node. node ≡ node_of centre limit) }
{
    Node::new(alloc, Arc::new(alloc, centre)?, limit)
}

// Plays a scenario on a new node of this centre, on standard output, and writes its journal.
fn play_scenario<O: Outside>(
    alloc: Global,
    outside: &mut O,
    centre: Centre,
    options: Options<'_>,
    scenario: &[u8],
) -> Status
    requires { AreOptions (options_seen options) }
    ensures runs { IsRun (duty_to_say true
        (scenario_said centre (options_seen options.entry) scenario.now))
        (O.told outside.old) (O.told outside.new) result }
    ensures sent { SendsSoFar (node_of centre (limit_of (options_seen options.entry))) scenario.now
        result (Took result (taken_of ((O.told outside.old).sinks output_name))
        (taken_of ((O.told outside.new).sinks output_name))) }
{
    match new_node(alloc, centre, options.limit()) {
        Ok(node) => play_and_keep(alloc, outside, node, options.journal, scenario),
        Err(AllocError) => Status::Memory,
    }
}

// Plays a scenario on a node without a history, on standard output, and writes the node's journal
// to the file that is named, if one is.
fn play_and_keep<O: Outside>(
    alloc: Global,
    outside: &mut O,
    node: Node,
    journal: Option<&str>,
    scenario: &[u8],
) -> Status
    requires new { node.history ≡ [] }
    requires file { IfSome journal (λ name. bytes_eq name.now output_name ≡ false) }
    ensures runs { IsRun (duty_to_say true (kept_said (option_map (λ name. name.now) journal.entry)
        (played_on node scenario.now)))
        (O.told outside.old) (O.told outside.new) result }
    ensures sent { SendsSoFar node scenario.now result
        (Took result (taken_of ((O.told outside.old).sinks output_name))
        (taken_of ((O.told outside.new).sinks output_name))) }
{
    let mut node = node;
    let status = play_on_output(alloc, outside, &mut node, scenario);
    match journal {
        Some(name) => keep_journal(alloc, outside, &node, name, status),
        None => status,
    }
}

// Opens standard output, plays a scenario on a node, and closes it.
fn play_on_output<O: Outside>(
    alloc: Global,
    outside: &mut O,
    node: &mut Node,
    scenario: &[u8],
) -> Status
    ensures runs { IsRun (duty_to_say true (played_said (played_on node.old scenario.now)))
        (O.told outside.old) (O.told outside.new) result }
    ensures sent { SendsSoFar node.old scenario.now result
        (Took result (taken_of ((O.told outside.old).sinks output_name))
        (taken_of ((O.told outside.new).sinks output_name))) }
    ensures kept { OnWhole result (HasPlayed node.old scenario.now node.new.history) }
{
    let Some(sink) = outside.open_out(OUTPUT) else {
        return Status::Outside;
    };
    let (sink, status) = play_gathered(alloc, outside, node, scenario, sink);
    outside.close_out(sink);
    status
}

// Plays a scenario on a node; what it shows is gathered, and goes out in large pieces.
fn play_gathered<O: Outside, K: Sink + Drop>(
    alloc: Global,
    outside: &O,
    node: &mut Node,
    scenario: &[u8],
    sink: K,
) -> (K, Status)
    requires { (K.told sink).held ≡ 0 }
    ensures tells { TellsSaid (played_said (played_on node.old scenario.now))
        (K.told sink) (K.told result.0) result.1 }
    ensures sent { SendsSoFar node.old scenario.now result.1
        (λ octets. TellsSaid (prints result.1 octets) (K.told sink) (K.told result.0) result.1) }
    ensures kept { OnWhole result.1 (HasPlayed node.old scenario.now node.new.history) }
{
    let mut gathering = match BufferedSink::new(alloc, sink) {
        Ok(gathering) => gathering,
        Err(sink) => return (sink, Status::Memory),
    };
    match play_on(alloc, outside, node, scenario, &mut gathering) {
        Status::Outside => (gathering.into_sink(), Status::Outside),
        status => match gathering.finish() {
            (sink, Ok(())) => (sink, status),
            (sink, Err(SinkFailed)) => (sink, Status::Outside),
        },
    }
}

// Plays a scenario on a node, and prints the refusal of a bad line, or of an event for which the
// history has no room, after what the lines before it show. An operator is told of a bad line.
fn play_on<O: Outside, K: Sink>(
    alloc: Global,
    outside: &O,
    node: &mut Node,
    scenario: &[u8],
    sink: &mut K,
) -> Status
    ensures tells { TellsSaid (played_said (played_on node.old scenario.now))
        (K.told sink.old) (K.told sink.new) result }
    ensures sent { SendsSoFar node.old scenario.now result
        (λ octets. TellsSaid (prints result octets) (K.told sink.old) (K.told sink.new) result) }
    ensures kept { OnWhole result (HasPlayed node.old scenario.now node.new.history) }
{
    let end = replay(alloc, node, scenario, sink);
    note_end(alloc, outside, scenario, end);
    tell_end(sink, end)
}

// Lets an operator know of the bad line at which a play of this scenario ended, where it did.
fn note_end<O: Outside>(alloc: Global, outside: &O, text: &[u8], end: ReplayEnd) {
    if let ReplayEnd::BadLine { line: number } = end {
        let line = RefusedLine {
            input: "scenario",
            text,
            number,
        };
        note_line(alloc, outside, line);
    }
}

// Prints how a play ended, behind what its lines show: the refusal of a bad line, or of an event
// for which the history has no room. It takes no memory.
fn tell_end<K: Sink>(sink: &mut K, end: ReplayEnd) -> Status
    ensures { EndsPlay end (K.told sink.old) (K.told sink.new) result }
{
    match end {
        ReplayEnd::Done => Status::Done,
        ReplayEnd::BadLine { line } => tell_refusal(sink, "scenario", Refusal::BadLine(line)),
        ReplayEnd::Full { weight, limit } => tell_full(sink, weight, limit),
        ReplayEnd::SinkFault => Status::Outside,
        ReplayEnd::Memory => Status::Memory,
    }
}
