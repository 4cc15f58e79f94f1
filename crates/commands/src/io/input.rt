//! The inputs of a command: their texts, each opened, read to its end and closed.
ghost use Rattle.std.specs.Prelude.{◌≡◌};
ghost use Rattle.commands.specs.Io.OutsideUse.{IsLimit};
ghost use Rattle.commands.specs.Io.Inputs.{input_of, ReadsInput};
ghost use Rattle.commands.specs.Io.Inputs as own;

use crate::io::notes::note_long;
use outside::names::Outside;
use outside::{TextEnd, read_text};
use std::alloc::{AllocError, Global};

/// So many octets may a text have.
pub const TEXT_LIMIT: u64 = 67_108_864;

// Definitions cite these limits, so that each stands here as a number too.
const _: () = prove!(TEXT_LIMIT == 67_108_864);

/// So many octets may a journal have.
pub const JOURNAL_LIMIT: u64 = 2_147_483_648;

const _: () = prove!(JOURNAL_LIMIT == 2_147_483_648);

/// Why an input is refused.
#[derive(Clone, Copy, Debug, PartialEq, Eq)]
pub enum Refusal {
    /// The input has more octets than it may have.
    Long,
    /// The first bad line of the input. Lines count from 1.
    BadLine(u64),
    /// No peer of the input has the key that is named.
    BadKey,
}

/// Why an input isn't there.
#[derive(Clone, Copy, Debug, PartialEq, Eq)]
pub enum InputEnd {
    /// The input is refused.
    Refused(Refusal),
    /// The input couldn't be opened, or a read failed.
    Outside,
    /// Memory ran out.
    Memory,
}

// What a read text is to a command.
fn input_from(read: Result<Result<Vec<u8>, TextEnd>, AllocError>) -> Result<Vec<u8>, InputEnd>
    ensures { result ≡ input_of read }
{
    match read {
        Ok(Ok(text)) => Ok(text),
        Ok(Err(TextEnd::Failed)) => Err(InputEnd::Outside),
        Ok(Err(TextEnd::Long)) => Err(InputEnd::Refused(Refusal::Long)),
        Err(AllocError) => Err(InputEnd::Memory),
    }
}

/// What an input is to a command whose octets were read to a value, to their first bad line, or ran
/// out of memory.
pub fn value_or_end<T>(read: Result<Result<T, u64>, AllocError>) -> Result<T, InputEnd>
    ensures { result ≡ own.value_or_end read }
{
    match read {
        Ok(Ok(value)) => Ok(value),
        Ok(Err(line)) => Err(InputEnd::Refused(Refusal::BadLine(line))),
        Err(AllocError) => Err(InputEnd::Memory),
    }
}

/// Opens the source of this name, reads its whole text, which may have so many octets, and closes
/// it. An operator is told of a text that has more.
pub fn read_input<O: Outside>(
    alloc: Global,
    outside: &mut O,
    name: &str,
    limit: u64,
) -> Result<Vec<u8>, InputEnd>
    requires { IsLimit limit }
    ensures { ReadsInput (O.told outside.old) (O.told outside.new) name.now limit result }
{
    let Some(mut source) = outside.open_in(name) else {
        return Err(InputEnd::Outside);
    };
    let read = read_text(alloc, &mut source, limit);
    outside.close_in(source);
    let input = input_from(read);
    note_long(alloc, outside, name, limit, &input);
    input
}
