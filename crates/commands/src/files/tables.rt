//! The tables of a command.
ghost use Rattle.std.specs.Prelude.{◌≡◌, IfOk};
ghost use Rattle.commands.specs.declared.io.input.TheConstants.{TEXT_LIMIT};
ghost use Rattle.commands.specs.Io.Plans.{IsSpelled, ReadsValue};
ghost use Rattle.commands.specs.Files.Tables.{tables_in};
ghost use Rattle.commands.specs.Files.Tables as own;

use crate::io::{InputEnd, Refusal, RefusedLine, TEXT_LIMIT, note_line_and_why, read_input};
use bilateral::{Centre, TableFault, read_centre};
use outside::names::Outside;
use std::alloc::{AllocError, Global};

// Tables that were read to this, by the number of their first bad line.
fn centre_or_line(read: Result<Centre, TableFault>) -> Result<Centre, u64>
    ensures { result ≡ own.centre_or_line read }
{
    match read {
        Ok(centre) => Ok(centre),
        Err(fault) => Err(fault.line),
    }
}

/// The centre of a text of tables, or the number of its first bad line.
pub fn read_lines(alloc: Global, text: &[u8]) -> Result<Result<Centre, u64>, AllocError>
    ensures { IfOk result (λ read. read ≡ tables_in text.now) }
{
    Ok(centre_or_line(read_centre(alloc, text)?))
}

// The centre of a text of tables, or why there is none. An operator is told of its first bad line.
fn centre_from<O: Outside>(alloc: Global, outside: &O, text: &[u8]) -> Result<Centre, InputEnd>
    ensures { IsSpelled result (tables_in text.now) }
{
    match read_centre(alloc, text) {
        Ok(Ok(centre)) => Ok(centre),
        Ok(Err(fault)) => {
            note_fault(alloc, outside, text, fault);
            Err(InputEnd::Refused(Refusal::BadLine(fault.line)))
        }
        Err(AllocError) => Err(InputEnd::Memory),
    }
}

// Lets an operator know of the first bad line of a text of tables.
fn note_fault<O: Outside>(alloc: Global, outside: &O, text: &[u8], fault: TableFault) {
    let line = RefusedLine {
        input: "tables",
        text,
        number: fault.line,
    };
    note_line_and_why(alloc, outside, line, fault.why);
}

/// Reads the tables under a name. An operator is told of their first bad line, and why it can't be
/// taken.
pub fn read_tables<O: Outside>(
    alloc: Global,
    outside: &mut O,
    name: &str,
) -> Result<Centre, InputEnd>
    ensures { ReadsValue tables_in name.now TEXT_LIMIT result (O.told outside.old)
        (O.told outside.new) }
{
    match read_input(alloc, outside, name, TEXT_LIMIT) {
        Ok(text) => centre_from(alloc, outside, &text),
        Err(end) => Err(end),
    }
}
