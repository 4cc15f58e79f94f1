//! The commands as `clap` reads their words.
ghost use Rattle.std.specs.Prelude.{◌≡◌, IfOk, Some, false, true, codes, map, option_map};
ghost use Rattle.std.specs.Prelude.{string_bytes};
ghost use Rattle.clap.specs.Words.{app_of, first_of, found_of, kind_of, matches_of, one_of};
ghost use Rattle.clap.specs.Words.{rows_of, takes};
ghost use Rattle.clap.specs.declared.error.kind.ErrorKind.TheVariants.{OutOfMemory};
ghost use Rattle.commands.specs.Words.Words.{decodes_pdu, lists_stream, options_seen, question_seen};
ghost use Rattle.commands.specs.Words.Words.{task_in, task_of, serve_seen, client_seen};
ghost use Rattle.commands.specs.Words.Words.{discover_seen};
ghost use Rattle.commands.specs.Words.Kinds.{kind_in};
ghost use Rattle.commands.specs.Words.Matched as own;

use crate::words::words::{
    ClientWords, Command, CommandKind, DiscoverWords, Options, Question, ServeWords, read_limit,
    read_rounds,
};
use clap::{Arg, ArgAction, ArgMatches};
use plain_text::read_number;
use std::alloc::{AllocError, Global};

// A command with one more word at its place, which must be there.
fn with_positional<'a>(
    alloc: Global,
    name: &'a str,
    command: clap::Command<'a>,
) -> Result<clap::Command<'a>, AllocError>
    ensures { IfOk result (λ more. app_of more
        ≡ own.with_positional name.entry.now (app_of command.entry)) }
{
    let word = Arg::new(alloc, name).required(true);
    command.arg(word)
}

// A command with one more option, `--NAME` with a word behind it.
fn with_option<'a>(
    alloc: Global,
    name: &'a str,
    command: clap::Command<'a>,
) -> Result<clap::Command<'a>, AllocError>
    ensures { IfOk result (λ more. app_of more
        ≡ own.with_option name.entry.now (app_of command.entry)) }
{
    let option = Arg::new(alloc, name).long(name);
    command.arg(option)
}

// `replay TABLES SCENARIO`, with `--limit N` and `--journal FILE` behind it.
fn replay_command<'a>(alloc: Global) -> Result<clap::Command<'a>, AllocError>
    ensures { IfOk result (λ command. app_of command ≡ own.replay_app) }
{
    let command = clap::Command::new(alloc, "replay");
    let command = with_positional(alloc, "TABLES", command)?;
    let command = with_positional(alloc, "SCENARIO", command)?;
    let command = with_option(alloc, "limit", command)?;
    with_option(alloc, "journal", command)
}

// `decode IN`, with `--pdu` before it.
fn decode_command<'a>(alloc: Global) -> Result<clap::Command<'a>, AllocError>
    ensures { IfOk result (λ command. app_of command ≡ own.decode_app) }
{
    let pdu = Arg::new(alloc, "pdu")
        .long("pdu")
        .action(ArgAction::SetTrue);
    let command = clap::Command::new(alloc, "decode").arg(pdu)?;
    with_positional(alloc, "IN", command)
}

// `verify TABLES JOURNAL KEY ORDINAL IN OUT`.
fn verify_command<'a>(alloc: Global) -> Result<clap::Command<'a>, AllocError>
    ensures { IfOk result (λ command. app_of command ≡ own.verify_app) }
{
    let command = clap::Command::new(alloc, "verify");
    let command = with_positional(alloc, "TABLES", command)?;
    let command = with_positional(alloc, "JOURNAL", command)?;
    let command = with_positional(alloc, "KEY", command)?;
    let command = with_positional(alloc, "ORDINAL", command)?;
    let command = with_positional(alloc, "IN", command)?;
    with_positional(alloc, "OUT", command)
}

// `load N`.
fn load_command<'a>(alloc: Global) -> Result<clap::Command<'a>, AllocError>
    ensures { IfOk result (λ command. app_of command ≡ own.load_app) }
{
    with_positional(alloc, "N", clap::Command::new(alloc, "load"))
}

// `serve TABLES`, with `--limit N`, `--journal FILE` and `--listen ADDRESS` behind it.
fn serve_command<'a>(alloc: Global) -> Result<clap::Command<'a>, AllocError>
    ensures { IfOk result (λ command. app_of command ≡ own.serve_app) }
{
    let command = clap::Command::new(alloc, "serve");
    let command = with_positional(alloc, "TABLES", command)?;
    let command = with_option(alloc, "limit", command)?;
    let command = with_option(alloc, "journal", command)?;
    with_option(alloc, "listen", command)
}

// `client TABLES SCRIPT`, with `--connect ADDRESS` behind it.
fn client_command<'a>(alloc: Global) -> Result<clap::Command<'a>, AllocError>
    ensures { IfOk result (λ command. app_of command ≡ own.client_app) }
{
    let command = clap::Command::new(alloc, "client");
    let command = with_positional(alloc, "TABLES", command)?;
    let command = with_positional(alloc, "SCRIPT", command)?;
    with_option(alloc, "connect", command)
}

// `discover TABLES KEY`, with `--connect ADDRESS` behind it.
fn discover_command<'a>(alloc: Global) -> Result<clap::Command<'a>, AllocError>
    ensures { IfOk result (λ command. app_of command ≡ own.discover_app) }
{
    let command = clap::Command::new(alloc, "discover");
    let command = with_positional(alloc, "TABLES", command)?;
    let command = with_positional(alloc, "KEY", command)?;
    with_option(alloc, "connect", command)
}

// The want of memory that `clap` tells: over words of its command it tells nothing else.
fn want_of_memory(error: clap::Error) -> AllocError
    requires { kind_of error ≡ OutOfMemory }
{
    let _ = error;
    AllocError
}

// What these words of a command match.
fn matches_in<'a>(
    command: clap::Command<'a>,
    words: &'a [String],
) -> Result<ArgMatches<'a>, AllocError>
    requires { takes (app_of command) (map string_bytes words.now) ≡ true }
    ensures { IfOk result (λ matches. rows_of (found_of matches)
        ≡ matches_of (app_of command.entry) (map string_bytes words.entry.now)) }
{
    match command.try_get_matches_from(words) {
        Ok(matches) => Ok(matches),
        Err(error) => Err(want_of_memory(error)),
    }
}

// The word that matches a name.
fn word_of<'a>(matches: &ArgMatches<'a>, name: &str) -> Option<&'a str>
    ensures { option_map (λ word. word.now) result
        ≡ first_of name.now (rows_of (found_of matches.now)) }
{
    matches.get_str(name)
}

// The limit that a word gives, where there is one.
fn limit_of(word: Option<&str>) -> Option<Option<u64>>
    ensures { result ≡ own.limit_matched (option_map (λ w. w.now) word.entry) }
{
    let Some(word) = word else {
        return Some(None);
    };
    let limit = read_limit(word)?;
    Some(Some(limit))
}

// The options that match.
fn options_of<'a>(matches: &ArgMatches<'a>) -> Option<Options<'a>>
    ensures { option_map options_seen result
        ≡ own.options_matched (rows_of (found_of matches.now)) }
{
    let limit = limit_of(word_of(matches, "limit"))?;
    let journal = word_of(matches, "journal");
    Some(Options { limit, journal })
}

// What the matches of `replay` ask for.
fn replay_of<'a>(matches: &ArgMatches<'a>) -> Option<Command<'a>>
    ensures { option_map task_of result ≡ own.replay_matched (rows_of (found_of matches.now)) }
{
    let tables = word_of(matches, "TABLES")?;
    let scenario = word_of(matches, "SCENARIO")?;
    let options = options_of(matches)?;
    Some(Command::Replay {
        tables,
        scenario,
        options,
    })
}

// Whether a flag is given.
fn is_set(matches: &ArgMatches<'_>, name: &str) -> bool
    ensures set { one_of name.now (rows_of (found_of matches.now)) ≡ Some (codes "true")
        → result ≡ true }
    ensures unset { one_of name.now (rows_of (found_of matches.now)) ≡ Some (codes "false")
        → result ≡ false }
{
    matches.get_flag(name)
}

// What the matches of `decode` ask for.
fn decode_of<'a>(matches: &ArgMatches<'a>) -> Option<Command<'a>>
    ensures stream { let rows = rows_of (found_of matches.now) in
        one_of (codes "pdu") rows ≡ Some (codes "false")
        → option_map task_of result ≡ option_map lists_stream (first_of (codes "IN") rows) }
    ensures pdu { let rows = rows_of (found_of matches.now) in
        one_of (codes "pdu") rows ≡ Some (codes "true")
        → option_map task_of result ≡ option_map decodes_pdu (first_of (codes "IN") rows) }
{
    let capture = word_of(matches, "IN")?;
    if is_set(matches, "pdu") {
        return Some(Command::DecodePdu { capture });
    }
    Some(Command::Decode { capture })
}

// The association and the files that the matches of `verify` name.
fn question_of<'a>(matches: &ArgMatches<'a>) -> Option<Question<'a>>
    ensures { option_map question_seen result
        ≡ own.question_matched (rows_of (found_of matches.now)) }
{
    let tables = word_of(matches, "TABLES")?;
    let journal = word_of(matches, "JOURNAL")?;
    let peer = word_of(matches, "KEY")?;
    let word = word_of(matches, "ORDINAL")?;
    let ordinal = read_number(word.as_bytes(), u64::MAX)?;
    let given = word_of(matches, "IN")?;
    let sent = word_of(matches, "OUT")?;
    Some(Question {
        tables,
        journal,
        peer,
        ordinal,
        given,
        sent,
    })
}

// What the matches of `verify` ask for.
fn verify_of<'a>(matches: &ArgMatches<'a>) -> Option<Command<'a>>
    ensures { option_map task_of result ≡ own.verify_matched (rows_of (found_of matches.now)) }
{
    let question = question_of(matches)?;
    Some(Command::Verify { question })
}

// What the matches of `load` ask for.
fn load_of<'a>(matches: &ArgMatches<'a>) -> Option<Command<'a>>
    ensures { option_map task_of result ≡ own.load_matched (rows_of (found_of matches.now)) }
{
    let rounds = read_rounds(word_of(matches, "N")?)?;
    Some(Command::Load { rounds })
}

// What the matches of `serve` name.
fn served_of<'a>(matches: &ArgMatches<'a>) -> Option<ServeWords<'a>>
    ensures { option_map serve_seen result ≡ own.served_matched (rows_of (found_of matches.now)) }
{
    let tables = word_of(matches, "TABLES")?;
    let journal = word_of(matches, "journal")?;
    let address = word_of(matches, "listen")?;
    let most = limit_of(word_of(matches, "limit"))?;
    Some(ServeWords {
        tables,
        journal,
        address,
        limit: most,
    })
}

// What the matches of `serve` ask for.
fn serve_of<'a>(matches: &ArgMatches<'a>) -> Option<Command<'a>>
    ensures { option_map task_of result ≡ own.serve_matched (rows_of (found_of matches.now)) }
{
    let words = served_of(matches)?;
    Some(Command::Serve { words })
}

// What the matches of `client` name.
fn played_of<'a>(matches: &ArgMatches<'a>) -> Option<ClientWords<'a>>
    ensures { option_map client_seen result ≡ own.played_matched (rows_of (found_of matches.now)) }
{
    let tables = word_of(matches, "TABLES")?;
    let script = word_of(matches, "SCRIPT")?;
    let address = word_of(matches, "connect")?;
    Some(ClientWords {
        tables,
        script,
        address,
    })
}

// What the matches of `client` ask for.
fn client_of<'a>(matches: &ArgMatches<'a>) -> Option<Command<'a>>
    ensures { option_map task_of result ≡ own.client_matched (rows_of (found_of matches.now)) }
{
    let words = played_of(matches)?;
    Some(Command::Client { words })
}

// What the matches of `discover` name.
fn asked_of<'a>(matches: &ArgMatches<'a>) -> Option<DiscoverWords<'a>>
    ensures { option_map discover_seen result
        ≡ own.asked_matched (rows_of (found_of matches.now)) }
{
    let tables = word_of(matches, "TABLES")?;
    let key = word_of(matches, "KEY")?;
    let address = word_of(matches, "connect")?;
    Some(DiscoverWords {
        tables,
        key,
        address,
    })
}

// What the matches of `discover` ask for.
fn discover_of<'a>(matches: &ArgMatches<'a>) -> Option<Command<'a>>
    ensures { option_map task_of result ≡ own.discover_matched (rows_of (found_of matches.now)) }
{
    let words = asked_of(matches)?;
    Some(Command::Discover { words })
}

/// What words of `replay` ask for.
pub(crate) fn read_replay<'a>(
    alloc: Global,
    words: &'a [String],
) -> Result<Option<Command<'a>>, AllocError>
    requires { kind_in (map string_bytes words.now) ≡ Some CommandKind.Replay }
    ensures { IfOk result (λ command. option_map task_of command
        ≡ task_in (map string_bytes words.entry.now)) }
{
    let command = replay_command(alloc)?;
    let matches = matches_in(command, words)?;
    Ok(replay_of(&matches))
}

/// What words of `decode` ask for.
pub(crate) fn read_decode<'a>(
    alloc: Global,
    words: &'a [String],
) -> Result<Option<Command<'a>>, AllocError>
    requires { kind_in (map string_bytes words.now) ≡ Some CommandKind.Decode }
    ensures { IfOk result (λ command. option_map task_of command
        ≡ task_in (map string_bytes words.entry.now)) }
{
    let command = decode_command(alloc)?;
    let matches = matches_in(command, words)?;
    Ok(decode_of(&matches))
}

/// What words of `verify` ask for.
pub(crate) fn read_verify<'a>(
    alloc: Global,
    words: &'a [String],
) -> Result<Option<Command<'a>>, AllocError>
    requires { kind_in (map string_bytes words.now) ≡ Some CommandKind.Verify }
    ensures { IfOk result (λ command. option_map task_of command
        ≡ task_in (map string_bytes words.entry.now)) }
{
    let command = verify_command(alloc)?;
    let matches = matches_in(command, words)?;
    Ok(verify_of(&matches))
}

/// What words of `load` ask for.
pub(crate) fn read_load<'a>(
    alloc: Global,
    words: &'a [String],
) -> Result<Option<Command<'a>>, AllocError>
    requires { kind_in (map string_bytes words.now) ≡ Some CommandKind.Load }
    ensures { IfOk result (λ command. option_map task_of command
        ≡ task_in (map string_bytes words.entry.now)) }
{
    let command = load_command(alloc)?;
    let matches = matches_in(command, words)?;
    Ok(load_of(&matches))
}

/// What words of `serve` ask for.
pub(crate) fn read_serve<'a>(
    alloc: Global,
    words: &'a [String],
) -> Result<Option<Command<'a>>, AllocError>
    requires { kind_in (map string_bytes words.now) ≡ Some CommandKind.Serve }
    ensures { IfOk result (λ command. option_map task_of command
        ≡ task_in (map string_bytes words.entry.now)) }
{
    let command = serve_command(alloc)?;
    let matches = matches_in(command, words)?;
    Ok(serve_of(&matches))
}

/// What words of `client` ask for.
pub(crate) fn read_client<'a>(
    alloc: Global,
    words: &'a [String],
) -> Result<Option<Command<'a>>, AllocError>
    requires { kind_in (map string_bytes words.now) ≡ Some CommandKind.Client }
    ensures { IfOk result (λ command. option_map task_of command
        ≡ task_in (map string_bytes words.entry.now)) }
{
    let command = client_command(alloc)?;
    let matches = matches_in(command, words)?;
    Ok(client_of(&matches))
}

/// What words of `discover` ask for.
pub(crate) fn read_discover<'a>(
    alloc: Global,
    words: &'a [String],
) -> Result<Option<Command<'a>>, AllocError>
    requires { kind_in (map string_bytes words.now) ≡ Some CommandKind.Discover }
    ensures { IfOk result (λ command. option_map task_of command
        ≡ task_in (map string_bytes words.entry.now)) }
{
    let command = discover_command(alloc)?;
    let matches = matches_in(command, words)?;
    Ok(discover_of(&matches))
}
