//! What a script is, and its reader.
ghost use Rattle.std.specs.Prelude.{◌≡◌, ◌<◌, ◌≤◌, ◌-◌, ◌^◌, Ok, Err, None, IfOk, IsErr};
ghost use Rattle.std.specs.Prelude.{MatchResult, length};
ghost use Rattle.std.specs.Str.Lines.{lines};
ghost use Rattle.centre_client.specs.declared.script.Script.{Script as AnyScript};
ghost use Rattle.centre_client.specs.declared.fault.ScriptFault.{ScriptFault as Fault};
ghost use Rattle.centre_client.specs.NumberedLines.{numbered_from};
ghost use Rattle.centre_client.specs.Scripts.{SpellsScript, HasScriptFault, script_in, steps_in};
ghost use Rattle.centre_client.specs.Scripts.{script_behind};
ghost use Rattle.centre_client.specs.Scripts.{IsScript, IsScriptText};
ghost use Rattle.centre_client.specs.LineFaults.{error_told, first_fault_in};

use crate::fault::{ScriptFault, ScriptWhy};
use crate::numbered::{next_numbered, number_behind};
use crate::steps::{read_peer, read_step, step_fault};
use bilateral::Centre;
use item_list::ItemList;
use std::alloc::{AllocError, Global};
use tase_views::Call;

/// What a line of a script has the client do.
#[derive(Drop)]
pub enum StepKind {
    /// `call CALL`: says a request and waits for its reply.
    Call(Call),
    /// `operate NAME VALUE`: operates the device with this number, which is selected before unless
    /// it is direct.
    Operate { device: u32, value: i16 },
    /// `wait N`: waits until so many reports have come.
    Wait { reports: u64 },
}

/// A step of a script.
#[derive(Drop)]
pub struct Step {
    /// The number of its line.
    pub line: u64,
    pub kind: StepKind,
}

/// Steps in order.
pub type Steps = ItemList<Step>;

/// A script.
#[derive(Drop)]
pub struct Script {
    /// The number of the peer in whose place the client calls.
    pub peer: u32,
    pub steps: Steps,
}

/// Reads the text of a script over a centre's tables, or answers its first bad line. Empty lines
/// and lines that begin with `#` are skipped. The first of the others is `use KEY`, the key of a
/// peer; each line behind it is a step: `call CALL`, where the call is written as in a scenario and
/// neither writes a device that has to be selected nor is longer than the client offers;
/// `operate NAME VALUE`, a device of the peer's table and a number of 16 bits; or `wait N`, reports
/// from 1 to 1,000,000. A bad line is told whether memory is left or not.
pub fn read_script(
    alloc: Global,
    centre: &Centre,
    text: &[u8],
) -> Result<Result<Script, ScriptFault>, AllocError>
    ensures found { IfOk result (λ read. MatchResult read
        (SpellsScript centre.now text.now) (HasScriptFault centre.now text.now)) }
    ensures only { (script : AnyScript) → SpellsScript centre.now text.now script
        → IfOk result (λ read. read ≡ Ok script) }
    ensures fault { (fault : Fault) → HasScriptFault centre.now text.now fault
        → IfOk result (λ read. read ≡ Err fault) }
    ensures lawful { IfOk result (λ read. IfOk read (IsScript centre.now)) }
    // Memory is wanting only for a script without a bad line.
    ensures memory { IsErr result → IsScriptText centre.now text.now }
{
    read_lines(alloc, centre, text)
}

/// Reads the line of the peer, and those of the steps.
fn read_lines(
    alloc: Global,
    centre: &Centre,
    text: &[u8],
) -> Result<Result<Script, ScriptFault>, AllocError>
    ensures read { IfOk result (λ read. read ≡ script_in centre.now text.now) }
    ensures memory { IsErr result → error_told (script_in centre.now text.now) ≡ None }
{
    let Some(first) = next_numbered(1, text) else {
        return Ok(Err(ScriptFault {
            line: number_behind(text),
            why: ScriptWhy::Start,
        }));
    };
    match read_peer(centre, first.text) {
        Ok(peer) => read_behind(alloc, centre, peer, first.next_number(), first.rest),
        Err(why) => Ok(Err(ScriptFault {
            line: first.number,
            why,
        })),
    }
}

/// The same, where a bad line is told without memory.
fn read_behind(
    alloc: Global,
    centre: &Centre,
    peer: u32,
    number: u64,
    text: &[u8],
) -> Result<Result<Script, ScriptFault>, AllocError>
    requires { peer < length centre.now.tables }
    ensures read { IfOk result (λ read. read
        ≡ script_behind centre.now peer (numbered_from number (lines text.now))) }
    ensures memory { IsErr result → error_told
        (script_behind centre.now peer (numbered_from number (lines text.now))) ≡ None }
{
    match first_fault(centre, peer, number, text) {
        Some(fault) => Ok(Err(fault)),
        None => read_all(alloc, centre, peer, number, text),
    }
}

/// The first bad line of a text, of whose lines the first has this number.
fn first_fault(centre: &Centre, peer: u32, number: u64, text: &[u8]) -> Option<ScriptFault>
    requires { peer < length centre.now.tables }
    ensures { result ≡ first_fault_in centre.now peer (numbered_from number (lines text.now)) }
{
    let mut rest = text;
    let mut next = number;
    while let Some(line) = next_numbered(next, rest) {
        if let Some(why) = step_fault(centre, peer, line.text) {
            return Some(ScriptFault {
                line: line.number,
                why,
            });
        }
        rest = line.rest;
        next = line.next_number();
    }
    None
}

/// The script of a peer whose steps are the lines of a text, of which the first has this number.
fn read_all(
    alloc: Global,
    centre: &Centre,
    peer: u32,
    number: u64,
    text: &[u8],
) -> Result<Result<Script, ScriptFault>, AllocError>
    requires { peer < length centre.now.tables }
    ensures { IfOk result (λ read. read
        ≡ script_behind centre.now peer (numbered_from number (lines text.now))) }
{
    match read_steps(alloc, centre, peer, number, text)? {
        Ok(steps) => Ok(Ok(Script { peer, steps })),
        Err(fault) => Ok(Err(fault)),
    }
}

/// The steps of a peer's script that the lines of a text are, of which the first has this number.
fn read_steps(
    alloc: Global,
    centre: &Centre,
    peer: u32,
    number: u64,
    text: &[u8],
) -> Result<Result<Steps, ScriptFault>, AllocError>
    requires { peer < length centre.now.tables }
    ensures { IfOk result (λ read. read
        ≡ steps_in centre.now peer (numbered_from number (lines text.now))) }
{
    let mut steps = Steps::new(alloc);
    let mut rest = text;
    let mut next = number;
    while let Some(line) = next_numbered(next, rest) {
        match read_step(alloc, centre, peer, line.text)? {
            Ok(kind) => steps.push(Step {
                line: line.number,
                kind,
            })?,
            Err(why) => {
                return Ok(Err(ScriptFault {
                    line: line.number,
                    why,
                }));
            }
        }
        rest = line.rest;
        next = line.next_number();
    }
    Ok(Ok(steps))
}
