//! What a command prints on standard output.
ghost use Rattle.std.specs.Prelude.{◌≡◌, ◌⊎◌, ◌++◌, IsTrue, true, decimal};
ghost use Rattle.outside.specs.Sink.{WritesAll};
ghost use Rattle.commands.specs.Io.Statuses.{is_whole, is_of_command};
ghost use Rattle.commands.specs.Io.Saying.{prints, refusal_text, full_text, duty_to_say};
ghost use Rattle.commands.specs.Io.Runs.{IsRun, TellsSaid, EndsUnread};

use crate::io::input::{InputEnd, Refusal};
use crate::io::status::Status;
use itoa::Buffer;
use outside::names::Outside;
use outside::{Sink, SinkFailed, write_all};

/// The name of standard output among the outside's sinks.
pub const OUTPUT: &str = "-";

/// Writes a text to an open sink, and answers the status that goes with it.
pub fn tell<K: Sink>(sink: &mut K, status: Status, text: &[u8]) -> Status
    requires { IsTrue (is_whole status) }
    ensures tells { TellsSaid (prints status text.now) (K.told sink.old) (K.told sink.new) result }
    ensures answers { (result ≡ status) ⊎ (result ≡ Status.Outside) }
{
    match write_all(sink, text) {
        Ok(()) => status,
        Err(SinkFailed) => Status::Outside,
    }
}

// Writes one text after another.
fn write_both<K: Sink>(sink: &mut K, first: &[u8], next: &[u8]) -> Result<(), SinkFailed>
    ensures { WritesAll (K.told sink.old) (K.told sink.new) (first.now ++ next.now) result }
{
    write_all(sink, first)?;
    write_all(sink, next)
}

// Writes a number between two texts.
fn write_number<K: Sink>(
    sink: &mut K,
    before: &[u8],
    number: u64,
    after: &[u8],
) -> Result<(), SinkFailed>
    ensures { WritesAll (K.told sink.old) (K.told sink.new)
        ((before.now ++ decimal number) ++ after.now) result }
{
    let mut digits = Buffer::new();
    write_both(sink, before, digits.format(number).as_bytes())?;
    write_all(sink, after)
}

// Writes the line that refuses an input, which has this name among the command's inputs.
fn write_refusal<K: Sink>(sink: &mut K, input: &str, refusal: Refusal) -> Result<(), SinkFailed>
    ensures { WritesAll (K.told sink.old) (K.told sink.new) (refusal_text input.now refusal)
        result }
{
    write_both(sink, b"input ", input.as_bytes())?;
    match refusal {
        Refusal::Long => write_all(sink, b" long\n"),
        Refusal::BadLine(line) => write_number(sink, b" line ", line, b"\n"),
        Refusal::BadKey => write_all(sink, b" key\n"),
    }
}

// Writes the line of a history that would weigh so many octets, and may weigh at most `limit`.
fn write_full<K: Sink>(sink: &mut K, weight: u64, limit: u64) -> Result<(), SinkFailed>
    ensures { WritesAll (K.told sink.old) (K.told sink.new) (full_text weight limit) result }
{
    write_number(sink, b"full ", weight, b" ")?;
    write_number(sink, b"", limit, b"\n")
}

/// Writes the refusal of an input to an open sink. `input` names the input. It takes no memory.
pub fn tell_refusal<K: Sink>(sink: &mut K, input: &str, refusal: Refusal) -> Status
    ensures tells { TellsSaid (prints Status.Input (refusal_text input.now refusal))
        (K.told sink.old) (K.told sink.new) result }
    ensures answers { (result ≡ Status.Input) ⊎ (result ≡ Status.Outside) }
{
    match write_refusal(sink, input, refusal) {
        Ok(()) => Status::Input,
        Err(SinkFailed) => Status::Outside,
    }
}

/// Writes to an open sink that the history would weigh so many octets, and may weigh at most
/// `limit`. It takes no memory.
pub fn tell_full<K: Sink>(sink: &mut K, weight: u64, limit: u64) -> Status
    ensures tells { TellsSaid (prints Status.Full (full_text weight limit))
        (K.told sink.old) (K.told sink.new) result }
    ensures answers { (result ≡ Status.Full) ⊎ (result ≡ Status.Outside) }
{
    match write_full(sink, weight, limit) {
        Ok(()) => Status::Full,
        Err(SinkFailed) => Status::Outside,
    }
}

/// Opens standard output, prints a text, closes it, and answers the status that goes with the text.
pub fn print<O: Outside>(outside: &mut O, status: Status, text: &[u8]) -> Status
    requires { IsTrue (is_whole status) }
    ensures { IsRun (duty_to_say (is_of_command status) (prints status text.now))
        (O.told outside.old) (O.told outside.new) result }
{
    let Some(mut sink) = outside.open_out(OUTPUT) else {
        return Status::Outside;
    };
    let status = tell(&mut sink, status, text);
    outside.close_out(sink);
    status
}

/// Ends a command whose input is refused: the refusal is printed. `input` names the input. It takes
/// no memory.
pub fn refuse<O: Outside>(outside: &mut O, input: &str, refusal: Refusal) -> Status
    ensures runs { IsRun (duty_to_say true (prints Status.Input (refusal_text input.now refusal)))
        (O.told outside.old) (O.told outside.new) result }
    ensures answers { (result ≡ Status.Input) ⊎ (result ≡ Status.Outside) }
{
    let Some(mut sink) = outside.open_out(OUTPUT) else {
        return Status::Outside;
    };
    let status = tell_refusal(&mut sink, input, refusal);
    outside.close_out(sink);
    status
}

/// Ends a command whose input isn't there: where it is refused, the refusal is printed. `input`
/// names the input.
pub fn end_unread<O: Outside>(outside: &mut O, input: &str, end: InputEnd) -> Status
    ensures { EndsUnread input.now end (O.told outside.old) (O.told outside.new) result }
{
    match end {
        InputEnd::Refused(refusal) => refuse(outside, input, refusal),
        InputEnd::Outside => Status::Outside,
        InputEnd::Memory => Status::Memory,
    }
}
