//! The lines of a script, read.
ghost use Rattle.std.specs.Prelude.{◌≡◌, ◌<◌, IfOk, IfSome, length};
ghost use Rattle.plain_text.specs.Words.{words};
ghost use Rattle.texts.specs.Journal.CallIn.{call_in};
ghost use Rattle.bilateral.specs.Words.Devices.{short_in};
ghost use Rattle.mms_data.specs.declared.object_name.Scope.TheVariants as scopes;
ghost use Rattle.centre_client.specs.LineFaults.{error_told};
ghost use Rattle.centre_client.specs.SketchFaults.{judged_step};
ghost use Rattle.centre_client.specs.StepLines as own;

use crate::call_lines::call_fault;
use crate::fault::ScriptWhy;
use crate::script::StepKind;
use bilateral::Centre;
use plain_text::{is_spaced, next_word, read_integer, read_number, two_words};
use std::alloc::{AllocError, Global};
use texts::events::read_call_words;

/// The most reports that a line waits for.
pub const WAIT_LIMIT: u64 = 1000000;

// Definitions cite this limit, so that it stands here as a number too.
const _: () = prove!(WAIT_LIMIT == 1_000_000);

/// The peer that the first line of a script tells by `use KEY`.
pub(crate) fn read_peer(centre: &Centre, line: &[u8]) -> Result<u32, ScriptWhy>
    ensures value { result ≡ own.peer_in centre.now line.now }
    ensures there { IfOk result (λ peer. peer < length centre.now.tables) }
{
    if !is_spaced(line) {
        return Err(ScriptWhy::Start);
    }
    let Some((verb, key)) = two_words(line) else {
        return Err(ScriptWhy::Start);
    };
    if verb != b"use".as_slice() {
        return Err(ScriptWhy::Start);
    }
    match centre.find_peer(key) {
        Some(peer) => Ok(peer),
        None => Err(ScriptWhy::Unknown),
    }
}

/// The step of a peer's script that a line is. It takes memory for a call alone.
pub(crate) fn read_step(
    alloc: Global,
    centre: &Centre,
    peer: u32,
    line: &[u8],
) -> Result<Result<StepKind, ScriptWhy>, AllocError>
    requires { peer < length centre.now.tables }
    ensures { IfOk result (λ read. read ≡ own.step_in centre.now peer line.now) }
{
    if !is_spaced(line) {
        return Ok(Err(ScriptWhy::Word));
    }
    let Some((verb, rest)) = next_word(line) else {
        return Ok(Err(ScriptWhy::Word));
    };
    if verb == b"call".as_slice() {
        read_call_step(alloc, centre, peer, rest)
    } else if verb == b"operate".as_slice() {
        Ok(read_operate(centre, peer, rest))
    } else if verb == b"wait".as_slice() {
        Ok(read_wait(rest))
    } else {
        Ok(Err(ScriptWhy::Word))
    }
}

/// The reason against a line of a peer's script, told without memory.
pub(crate) fn step_fault(centre: &Centre, peer: u32, line: &[u8]) -> Option<ScriptWhy>
    requires { peer < length centre.now.tables }
    ensures { result ≡ error_told (own.step_in centre.now peer line.now) }
{
    if !is_spaced(line) {
        return Some(ScriptWhy::Word);
    }
    let Some((verb, rest)) = next_word(line) else {
        return Some(ScriptWhy::Word);
    };
    if verb == b"call".as_slice() {
        call_fault(centre, peer, rest)
    } else if verb == b"operate".as_slice() {
        reason_of(read_operate(centre, peer, rest))
    } else if verb == b"wait".as_slice() {
        reason_of(read_wait(rest))
    } else {
        Some(ScriptWhy::Word)
    }
}

/// The reason against a step.
fn reason_of(step: Result<StepKind, ScriptWhy>) -> Option<ScriptWhy>
    ensures { result ≡ error_told step }
{
    match step {
        Ok(_) => None,
        Err(why) => Some(why),
    }
}

/// `CALL` behind `call`.
fn read_call_step(
    alloc: Global,
    centre: &Centre,
    peer: u32,
    text: &[u8],
) -> Result<Result<StepKind, ScriptWhy>, AllocError>
    requires { peer < length centre.now.tables }
    ensures { IfOk result (λ read. read
        ≡ own.call_step centre.now peer (call_in (words text.now))) }
{
    match call_fault(centre, peer, text) {
        Some(why) => Ok(Err(why)),
        None => read_judged_call(alloc, text),
    }
}

/// The step of words, where nothing is against their call.
fn read_judged_call(alloc: Global, text: &[u8]) -> Result<Result<StepKind, ScriptWhy>, AllocError>
    ensures { IfOk result (λ read. read ≡ judged_step (call_in (words text.now))) }
{
    match read_call_words(alloc, text)? {
        Ok(call) => Ok(Ok(StepKind::Call(call))),
        Err(_) => Ok(Err(ScriptWhy::Word)),
    }
}

/// Whether an item of a domain is the variable of a device that has to be selected before.
pub(crate) fn is_variable_guarded(centre: &Centre, peer: u32, domain: &[u8], item: &[u8]) -> bool
    requires { peer < length centre.now.tables }
    ensures { result ≡ own.is_variable_guarded centre.now peer (scopes.Domain domain.now) item.now }
{
    domain == centre.table(peer).domain.as_slice()
        && is_selected_first(centre, find_controlled(centre, peer, item))
}

/// Whether a device, if there is one, has to be selected before it is operated.
fn is_selected_first(centre: &Centre, device: Option<u32>) -> bool
    requires { IfSome device (λ d. d < length centre.now.devices) }
    ensures { result ≡ own.is_selected_first centre.now device }
{
    match device {
        Some(device) => !centre.device(device).direct,
        None => false,
    }
}

/// The device with this name, where the peer's table controls it.
fn find_controlled(centre: &Centre, peer: u32, name: &[u8]) -> Option<u32>
    requires { peer < length centre.now.tables }
    ensures value { result ≡ own.controlled_device centre.now peer name.now }
    ensures there { IfSome result (λ device. device < length centre.now.devices) }
{
    let device = centre.find_device(name)?;
    if centre.find_control(peer, 0, device).is_some() {
        Some(device)
    } else {
        None
    }
}

/// `NAME VALUE` behind `operate`.
fn read_operate(centre: &Centre, peer: u32, text: &[u8]) -> Result<StepKind, ScriptWhy>
    requires { peer < length centre.now.tables }
    ensures { result ≡ own.operate_step centre.now peer (words text.now) }
{
    let Some((name, word)) = two_words(text) else {
        return Err(ScriptWhy::Word);
    };
    let Some(value) = read_value(word) else {
        return Err(ScriptWhy::Word);
    };
    match find_controlled(centre, peer, name) {
        Some(device) => Ok(StepKind::Operate { device, value }),
        None => Err(ScriptWhy::Unknown),
    }
}

/// A signed number of 16 bits.
fn read_value(word: &[u8]) -> Option<i16>
    ensures { result ≡ short_in word.now }
{
    Some(read_integer(word, -32_768, 32_767)? as i16)
}

/// `N` behind `wait`.
fn read_wait(text: &[u8]) -> Result<StepKind, ScriptWhy>
    ensures { result ≡ own.wait_step (words text.now) }
{
    let Some((word, rest)) = next_word(text) else {
        return Err(ScriptWhy::Word);
    };
    if next_word(rest).is_some() {
        return Err(ScriptWhy::Word);
    }
    match read_number(word, WAIT_LIMIT) {
        Some(reports) if reports >= 1 => Ok(StepKind::Wait { reports }),
        _ => Err(ScriptWhy::Word),
    }
}
