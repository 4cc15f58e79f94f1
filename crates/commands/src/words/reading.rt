//! The words of a command, read.
ghost use Rattle.std.specs.Prelude.{◌≡◌, IfErr, IfOk, IfSome, is_some, map, option_map, true};
ghost use Rattle.std.specs.Prelude.{string_bytes, Some};
ghost use Rattle.commands.specs.Words.Kinds.{kind_in};
ghost use Rattle.commands.specs.Words.Words.{task_of, task_in, IsLimited};

use crate::words::grammar::kind_of_words;
use crate::words::matched::{
    read_client, read_decode, read_discover, read_load, read_replay, read_serve, read_verify,
};
use crate::words::words::{Command, CommandKind};
use std::alloc::{AllocError, Global};

/// The command of these words; nothing where they are none. Once the words have passed the grammar,
/// `clap` reads those behind the command, and each name and number is one of its matches. An error
/// is want of memory, which comes only with words that are a command.
pub fn read_command<'a>(
    alloc: Global,
    words: &'a [String],
) -> Result<Option<Command<'a>>, AllocError>
    ensures asked { IfOk result (λ command. option_map task_of command
        ≡ task_in (map string_bytes words.entry.now)) }
    ensures limit { IfOk result (λ command. IfSome command IsLimited) }
    ensures memory { IfErr result (λ error. is_some (task_in (map string_bytes words.entry.now))
        ≡ true) }
{
    let Some(kind) = kind_of_words(words) else {
        return Ok(None);
    };
    read_of_kind(alloc, kind, words)
}

// What words of this command ask for.
fn read_of_kind<'a>(
    alloc: Global,
    kind: CommandKind,
    words: &'a [String],
) -> Result<Option<Command<'a>>, AllocError>
    requires { kind_in (map string_bytes words.now) ≡ Some kind }
    ensures { IfOk result (λ command. option_map task_of command
        ≡ task_in (map string_bytes words.entry.now)) }
{
    match kind {
        CommandKind::Replay => read_replay(alloc, words),
        CommandKind::Decode => read_decode(alloc, words),
        CommandKind::Verify => read_verify(alloc, words),
        CommandKind::Load => read_load(alloc, words),
        CommandKind::Serve => read_serve(alloc, words),
        CommandKind::Client => read_client(alloc, words),
        CommandKind::Discover => read_discover(alloc, words),
    }
}
