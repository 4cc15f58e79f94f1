//! A verdict on what an association was sent, told on standard output. It takes no memory.
ghost use Rattle.std.specs.Prelude.{◌≡◌, ◌≢◌, ◌⊎◌, ◌<◌, ℕ, List, true, unwrap_or};
ghost use Rattle.outside.specs.Sink.{SinkTold, WritesAll};
ghost use Rattle.commands.specs.Io.Saying.{duty_to_say};
ghost use Rattle.commands.specs.Io.Runs.{IsRun, TellsSaid};
ghost use Rattle.plain_text.specs.Octets as octets;
ghost use Rattle.plain_text.specs.Octets.{hex_pair};
ghost use Rattle.tase_tool.specs.Verifying.{verdict_said, TellsDifference};
ghost use Rattle.tase_tool.specs.Verifying as own;

use crate::lines::{write_line, write_stray, write_words};
use commands::io::{OUTPUT, Status, tell};
use itoa::Buffer;
use outside::names::Outside;
use outside::{Sink, SinkFailed};
use tase_verify::association::Verdict;

/// Tells a verdict.
pub(crate) fn tell_verdict<O: Outside>(outside: &mut O, verdict: Verdict) -> Status
    ensures runs { IsRun (duty_to_say true (verdict_said verdict))
        (O.told outside.old) (O.told outside.new) result }
    ensures memory { result ≢ Status.Memory }
{
    let Some(mut sink) = outside.open_out(OUTPUT) else {
        return Status::Outside;
    };
    let status = write_verdict(&mut sink, verdict);
    outside.close_out(sink);
    status
}

// Writes a verdict to an open sink.
fn write_verdict<K: Sink>(sink: &mut K, verdict: Verdict) -> Status
    ensures tells { TellsSaid (verdict_said verdict) (K.told sink.old) (K.told sink.new) result }
    ensures answers { (result ≡ (verdict_said verdict).status) ⊎ (result ≡ Status.Outside) }
{
    match verdict {
        Verdict::Equal => tell(sink, Status::Done, b"equal\n"),
        Verdict::Differs { place, got, want } => {
            differs_status(write_differs(sink, place, got, want))
        }
        Verdict::Stray { number } => differs_status(write_stray(sink, number)),
    }
}

// The status behind the line of a difference, which was written so.
fn differs_status(written: Result<(), SinkFailed>) -> Status
    ensures { (text : List ℕ) (before after : SinkTold) → WritesAll before after text written
        → TellsDifference text before after result }
{
    match written {
        Ok(()) => Status::Differs,
        Err(SinkFailed) => Status::Outside,
    }
}

// `differs PLACE GOT WANT`.
fn write_differs<K: Sink>(
    sink: &mut K,
    place: u64,
    got: Option<u8>,
    want: Option<u8>,
) -> Result<(), SinkFailed>
    ensures { WritesAll (K.told sink.old) (K.told sink.new) (own.differs_line place got want)
        result }
{
    let mut room = Buffer::new();
    let digits = room.format(place);
    write_words(sink, b"differs", digits.as_bytes())?;
    write_octets(sink, got, want)
}

// ` GOT WANT` and the line's end.
fn write_octets<K: Sink>(sink: &mut K, got: Option<u8>, want: Option<u8>) -> Result<(), SinkFailed>
    ensures { WritesAll (K.told sink.old) (K.told sink.new) (own.octets_line got want) result }
{
    let first = digits_of(got.unwrap_or(0));
    let next = digits_of(want.unwrap_or(0));
    write_line(sink, b"", octet_word(got, &first), octet_word(want, &next))
}

// Two hexadecimal digits of an octet, which are these, or `-` where there is none.
fn octet_word(octet: Option<u8>, digits: &[u8]) -> &[u8]
    requires { digits.now ≡ hex_pair (unwrap_or octet 0) }
    ensures { result.now ≡ own.octet_word octet }
{
    match octet {
        Some(_) => digits,
        None => b"-".as_slice(),
    }
}

// The two lower-case hexadecimal digits of an octet.
pub(crate) fn digits_of(octet: u8) -> [u8; 2]
    ensures { result ≡ hex_pair octet }
{
    [digit_of(octet / 16), digit_of(octet % 16)]
}

fn digit_of(value: u8) -> u8
    requires { value < 16 }
    ensures { result ≡ octets.hex_digit value }
{
    if value < 10 {
        b'0' + value
    } else {
        b'a' + (value - 10)
    }
}
