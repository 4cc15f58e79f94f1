//! Lines that are written to a sink without memory.
ghost use Rattle.std.specs.Prelude.{◌++◌, [], ◌∷◌};
ghost use Rattle.outside.specs.Sink.{WritesAll};
ghost use Rattle.tase_tool.specs.Lines.{named_line, number_line, stray_line};

use itoa::Buffer;
use outside::{Sink, SinkFailed, write_all};

/// Writes one text after another.
pub(crate) fn write_both<K: Sink>(sink: &mut K, first: &[u8], next: &[u8]) -> Result<(), SinkFailed>
    ensures { WritesAll (K.told sink.old) (K.told sink.new) (first.now ++ next.now) result }
{
    write_all(sink, first)?;
    write_all(sink, next)
}

/// Writes two words with a space between them.
pub(crate) fn write_words<K: Sink>(
    sink: &mut K,
    first: &[u8],
    next: &[u8],
) -> Result<(), SinkFailed>
    ensures { WritesAll (K.told sink.old) (K.told sink.new) (first.now ++ 32 ∷ [] ++ next.now)
        result }
{
    write_both(sink, first, b" ")?;
    write_all(sink, next)
}

/// Writes two words behind a name, as a line.
pub(crate) fn write_line<K: Sink>(
    sink: &mut K,
    name: &[u8],
    first: &[u8],
    next: &[u8],
) -> Result<(), SinkFailed>
    ensures { WritesAll (K.told sink.old) (K.told sink.new)
        (named_line name.now (first.now ++ 32 ∷ [] ++ next.now)) result }
{
    write_both(sink, name, b" ")?;
    write_words(sink, first, next)?;
    write_all(sink, b"\n")
}

/// A number behind a text, and the end of the line.
pub(crate) fn write_number<K: Sink>(
    sink: &mut K,
    name: &[u8],
    number: u64,
) -> Result<(), SinkFailed>
    ensures { WritesAll (K.told sink.old) (K.told sink.new) (number_line name.now number) result }
{
    let mut room = Buffer::new();
    let digits = room.format(number);
    write_both(sink, name, digits.as_bytes())?;
    write_all(sink, b"\n")
}

/// `stray N`.
pub(crate) fn write_stray<K: Sink>(sink: &mut K, number: u64) -> Result<(), SinkFailed>
    ensures { WritesAll (K.told sink.old) (K.told sink.new) (stray_line number) result }
{
    write_number(sink, b"stray ", number)
}
