//! The captures of a command.
ghost use Rattle.std.specs.Prelude.{◌≡◌, ◌⊎◌, true};
ghost use Rattle.commands.specs.declared.io.input.Refusal.TheVariants.{BadLine};
ghost use Rattle.commands.specs.Io.Saying.{duty_to_say};
ghost use Rattle.commands.specs.Io.Runs.{IsRun};
ghost use Rattle.commands.specs.Io.Plans.{refused_said};

use commands::io::{Refusal, RefusedLine, Status, note_line, refuse};
use outside::names::Outside;
use std::alloc::Global;

/// Ends a command whose capture has a bad line, with this number: the refusal is printed, and an
/// operator is told of the line. `input` names the capture.
pub(crate) fn refuse_line<O: Outside>(
    alloc: Global,
    outside: &mut O,
    input: &str,
    text: &[u8],
    number: u64,
) -> Status
    ensures runs { IsRun (duty_to_say true (refused_said input.now (BadLine number)))
        (O.told outside.old) (O.told outside.new) result }
    ensures answers { (result ≡ Status.Input) ⊎ (result ≡ Status.Outside) }
{
    let line = RefusedLine {
        input,
        text,
        number,
    };
    note_line(alloc, outside, line);
    refuse(outside, input, Refusal::BadLine(number))
}
