//! The command `decode --pdu`: which PDU a capture holds.
ghost use Rattle.std.specs.Prelude.{◌≡◌, IfOk, IsOk, string_bytes, true, codes};
ghost use Rattle.commands.specs.Io.Saying.{prints, duty_to_say};
ghost use Rattle.commands.specs.Io.Runs.{IsRun};
ghost use Rattle.commands.specs.Io.Plans.{RunsPlan, EndsPlan, octets_of};
ghost use Rattle.capture_text.specs.Captures.{capture_in};
ghost use Rattle.tase_tool.specs.Decoding.{pdu_said, pdu_text};
ghost use Rattle.tase_tool.specs.Decoding as own;
ghost use Rattle.tase_tool.specs.Lacking.{LacksText, LacksMessages, LacksCapture};
ghost use Rattle.tase_tool.specs.Saying.{decode_plan};
ghost use Rattle.stack_assoc.specs.Listing.Names.{message_name_text, pdu_name, why_name};

use crate::captures::refuse_line;
use ber_values::Why;
use capture_text::{Pieces, join_pieces, read_pieces};
use commands::io::{InputEnd, Status, TEXT_LIMIT, end_unread, print, read_input};
use mms_services::{MmsPdu, read_pdu};
use outside::names::Outside;
use stack_assoc::listing::{name_of_pdu, why_name};
use std::alloc::{AllocError, Global};

/// Reads a capture, and prints which PDU its octets are, or the first rule that they break.
pub(crate) fn run_decode<O: Outside>(alloc: Global, outside: &mut O, capture: &str) -> Status
    ensures runs { RunsPlan (decode_plan capture.now)
        (O.told outside.old) (O.told outside.new) result }
    ensures memory { result ≡ Status.Memory
        → LacksCapture capture.now (O.told outside.old) (O.told outside.new) }
{
    let read = read_input(alloc, outside, capture, TEXT_LIMIT);
    decode_read(alloc, outside, read)
}

// Tells the PDU that a capture holds, which was read to this.
fn decode_read<O: Outside>(
    alloc: Global,
    outside: &mut O,
    read: Result<Vec<u8>, InputEnd>,
) -> Status
    ensures runs { EndsPlan (codes "in") (λ text. pdu_text (octets_of text)) read
        (O.told outside.old) (O.told outside.new) result }
    ensures memory { result ≡ Status.Memory
        → LacksText LacksMessages read (O.told outside.old) (O.told outside.new) }
{
    match read {
        Ok(text) => decode_capture(alloc, outside, &text),
        Err(end) => end_unread(outside, "in", end),
    }
}

// Tells the PDU that a capture holds. A bad line is told, whether memory is left or not.
fn decode_capture<O: Outside>(alloc: Global, outside: &mut O, text: &[u8]) -> Status
    ensures runs { RunsPlan (pdu_text text.now) (O.told outside.old) (O.told outside.new) result }
    ensures memory { result ≡ Status.Memory → IsOk (capture_in text.now) }
{
    match read_pieces(text) {
        Ok(pieces) => decode_pieces(alloc, outside, pieces),
        Err(line) => refuse_line(alloc, outside, "in", text, line),
    }
}

// Tells the PDU that the octets of a capture are.
fn decode_pieces<O: Outside>(alloc: Global, outside: &mut O, pieces: Pieces<'_>) -> Status
    ensures { IsRun (duty_to_say true (pdu_said pieces.entry))
        (O.told outside.old) (O.told outside.new) result }
{
    match join_pieces(alloc, pieces) {
        Ok(octets) => decode_pdu(alloc, outside, &octets),
        Err(AllocError) => Status::Memory,
    }
}

// Tells the PDU that octets are.
fn decode_pdu<O: Outside>(alloc: Global, outside: &mut O, octets: &[u8]) -> Status
    ensures { IsRun (duty_to_say true (pdu_said octets.now))
        (O.told outside.old) (O.told outside.new) result }
{
    match read_pdu(alloc, octets) {
        Ok(Ok(pdu)) => tell_pdu(alloc, outside, &pdu, octets.len()),
        Ok(Err(fault)) => tell_fault(alloc, outside, fault.place, fault.why),
        Err(AllocError) => Status::Memory,
    }
}

// Prints the name of a PDU and the number of its octets.
fn tell_pdu<O: Outside>(alloc: Global, outside: &mut O, pdu: &MmsPdu, len: usize) -> Status
    ensures { IsRun
        (duty_to_say true (prints Status.Done (own.pdu_line
        (message_name_text (pdu_name pdu.now)) len)))
        (O.told outside.old) (O.told outside.new) result }
{
    match pdu_line(alloc, name_of_pdu(pdu).as_str(), len) {
        Ok(line) => print(outside, Status::Done, line.as_bytes()),
        Err(AllocError) => Status::Memory,
    }
}

// Prints the first rule that octets break, and where.
fn tell_fault<O: Outside>(alloc: Global, outside: &mut O, place: usize, why: Why) -> Status
    ensures { IsRun
        (duty_to_say true (prints Status.Input (own.pdu_fault_line place (why_name why))))
        (O.told outside.old) (O.told outside.new) result }
{
    match fault_line(alloc, place, why_name(why)) {
        Ok(line) => print(outside, Status::Input, line.as_bytes()),
        Err(AllocError) => Status::Memory,
    }
}

// `pdu NAME LENGTH`.
fn pdu_line(alloc: Global, name: &str, len: usize) -> Result<String, AllocError>
    ensures { IfOk result (λ text. string_bytes text ≡ own.pdu_line name.now len) }
{
    format!(in alloc; "pdu {name} {len}\n")
}

// `fault mms PLACE WHY`.
fn fault_line(alloc: Global, place: usize, why: &str) -> Result<String, AllocError>
    ensures { IfOk result (λ text. string_bytes text ≡ own.pdu_fault_line place why.now) }
{
    format!(in alloc; "fault mms {place} {why}\n")
}
