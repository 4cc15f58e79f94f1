//! The grammar of the words of commands, as a test.
ghost use Rattle.std.specs.Prelude.{◌≡◌, ℕ, List, [], ◌∷◌, map, string_bytes, is_some, option_map};
ghost use Rattle.std.specs.Prelude.{if◌then◌else◌};
ghost use Rattle.commands.specs.Words.Kinds.{given_seen, kind_in, kind_of_task};
ghost use Rattle.commands.specs.Words.Words.{serve_seen, serves};
ghost use Rattle.commands.specs.Words.Kinds as kinds;
ghost use Rattle.commands.specs.Words.Words as own;

use crate::words::words::{CommandKind, ServeWords, ServerOptions, read_limit, read_rounds};
use plain_text::read_number;

// Whether a word is the name of a file: not empty, and beginning with `-` only where it is `-`.
fn is_name(word: &str) -> bool
    ensures { result ≡ own.is_file_name word.now }
{
    let octets = word.as_bytes();
    !octets.is_empty() && (octets[0] != b'-' || octets.len() == 1)
}

// Whether words are `replay TABLES SCENARIO`.
fn is_replay(verb: &str, tables: &str, scenario: &str) -> bool
    ensures { result ≡ own.is_replay verb.now tables.now scenario.now }
{
    verb == "replay" && is_name(tables) && is_name(scenario)
}

// Whether words are `decode IN`.
fn is_decode(verb: &str, capture: &str) -> bool
    ensures { result ≡ own.is_decode verb.now capture.now }
{
    verb == "decode" && is_name(capture)
}

// Whether words are `decode --pdu IN`.
fn is_decode_pdu(verb: &str, option: &str, capture: &str) -> bool
    ensures { result ≡ own.is_decode_pdu verb.now option.now capture.now }
{
    verb == "decode" && option == "--pdu" && is_name(capture)
}

// Whether words begin with `verify TABLES JOURNAL`.
fn is_verify(verb: &str, tables: &str, journal: &str) -> bool
    ensures { result ≡ own.is_verify verb.now tables.now journal.now }
{
    verb == "verify" && is_name(tables) && is_name(journal)
}

// Whether a word is the name of a file other than standard output.
fn is_journal_name(word: &str) -> bool
    ensures { result ≡ own.is_journal_name word.now }
{
    is_name(word) && word != "-"
}

// Whether two words are a limit.
fn is_limit(option: &str, word: &str) -> bool
    ensures { result ≡ kinds.is_limit option.now word.now }
{
    option == "--limit" && read_limit(word).is_some()
}

// Whether two words are a journal.
fn is_journal(option: &str, word: &str) -> bool
    ensures { result ≡ kinds.is_journal option.now word.now }
{
    option == "--journal" && is_journal_name(word)
}

// Whether four words are a limit and a journal, in any order.
fn are_both(option: &str, word: &str, next: &str, other: &str) -> bool
    ensures { result ≡ kinds.are_both option.now word.now next.now other.now }
{
    (is_limit(option, word) && is_journal(next, other))
        || (is_journal(option, word) && is_limit(next, other))
}

// Whether words are options of a replay, each once at most.
fn are_options(words: &[String]) -> bool
    ensures { result ≡ kinds.are_options (map string_bytes words.now) }
{
    match words {
        [] => true,
        [option, word] => {
            is_limit(option.as_str(), word.as_str()) || is_journal(option.as_str(), word.as_str())
        }
        [option, word, next, other] => are_both(
            option.as_str(),
            word.as_str(),
            next.as_str(),
            other.as_str(),
        ),
        _ => false,
    }
}

// Whether three words are names of files.
fn are_names(first: &str, second: &str, third: &str) -> bool
    ensures { result ≡ own.are_file_names first.now second.now third.now }
{
    is_name(first) && is_name(second) && is_name(third)
}

// Whether words are `KEY ORDINAL IN OUT`.
fn is_question(words: &[String]) -> bool
    ensures { result ≡ kinds.is_question (map string_bytes words.now) }
{
    match words {
        [peer, ordinal, given, sent] => {
            are_names(peer.as_str(), given.as_str(), sent.as_str())
                && read_number(ordinal.as_bytes(), u64::MAX).is_some()
        }
        _ => false,
    }
}

// Whether words are `serve TABLES`.
fn is_serve(verb: &str, tables: &str) -> bool
    ensures { result ≡ own.is_serve verb.now tables.now }
{
    verb == "serve" && is_name(tables)
}

// Whether words are `client TABLES SCRIPT`.
fn is_client(verb: &str, tables: &str, script: &str) -> bool
    ensures { result ≡ own.is_client verb.now tables.now script.now }
{
    verb == "client" && is_name(tables) && is_name(script)
}

// Whether words are `discover TABLES KEY`.
fn is_discover(verb: &str, tables: &str, key: &str) -> bool
    ensures { result ≡ own.is_discover verb.now tables.now key.now }
{
    verb == "discover" && is_name(tables) && is_name(key)
}

// Whether a word may stand as an address: as the name of a file may.
fn is_address(word: &str) -> bool
    ensures { result ≡ own.is_address word.now }
{
    is_name(word)
}

// Whether two words are the address to connect to.
fn is_connect(option: &str, word: &str) -> bool
    ensures { result ≡ own.is_connect option.now word.now }
{
    option == "--connect" && is_address(word)
}

// Whether words are the address to connect to, and nothing else.
fn are_connect(words: &[String]) -> bool
    ensures { result ≡ kinds.are_connect (map string_bytes words.now) }
{
    match words {
        [option, word] => is_connect(option.as_str(), word.as_str()),
        _ => false,
    }
}

// A limit behind options of a server.
fn with_limit<'a>(word: &str, given: ServerOptions<'a>) -> Option<ServerOptions<'a>>
    ensures { option_map given_seen result ≡ own.serve_limit word.now (given_seen given.entry) }
{
    if given.limit.is_some() {
        return None;
    }
    let limit = read_limit(word)?;
    Some(ServerOptions {
        limit: Some(limit),
        journal: given.journal,
        address: given.address,
    })
}

// A journal behind options of a server.
fn with_journal<'a>(word: &'a str, given: ServerOptions<'a>) -> Option<ServerOptions<'a>>
    ensures { option_map given_seen result ≡ own.serve_journal word.now (given_seen given.entry) }
{
    if given.journal.is_some() || !is_journal_name(word) {
        return None;
    }
    Some(ServerOptions {
        limit: given.limit,
        journal: Some(word),
        address: given.address,
    })
}

// An address behind options of a server.
fn with_address<'a>(word: &'a str, given: ServerOptions<'a>) -> Option<ServerOptions<'a>>
    ensures { option_map given_seen result ≡ own.serve_address word.now (given_seen given.entry) }
{
    if given.address.is_some() || !is_address(word) {
        return None;
    }
    Some(ServerOptions {
        limit: given.limit,
        journal: given.journal,
        address: Some(word),
    })
}

// One more option of a server behind others.
fn serve_option<'a>(
    option: &str,
    word: &'a str,
    given: ServerOptions<'a>,
) -> Option<ServerOptions<'a>>
    ensures { option_map given_seen result
        ≡ own.serve_option option.now word.now (given_seen given.entry) }
{
    if option == "--limit" {
        return with_limit(word, given);
    }
    if option == "--journal" {
        return with_journal(word, given);
    }
    if option == "--listen" {
        return with_address(word, given);
    }
    None
}

// The options of a server behind others.
fn serve_options<'a>(words: &'a [String], given: ServerOptions<'a>) -> Option<ServerOptions<'a>>
    ensures { option_map given_seen result
        ≡ own.serve_options (map string_bytes words.entry.now) (given_seen given.entry) }
{
    match words {
        [] => Some(given),
        [option, word, more @ ..] => {
            let next = serve_option(option.as_str(), word.as_str(), given)?;
            serve_options(more, next)
        }
        _ => None,
    }
}

// What a server is to serve, by the words behind `serve TABLES`.
fn serve_in<'a>(tables: &'a str, words: &'a [String]) -> Option<ServeWords<'a>>
    ensures { option_map serve_seen result
        ≡ own.serve_in tables.entry.now (map string_bytes words.entry.now) }
{
    let nothing = ServerOptions {
        limit: None,
        journal: None,
        address: None,
    };
    let given = serve_options(words, nothing)?;
    let journal = given.journal?;
    let address = given.address?;
    Some(ServeWords {
        tables,
        journal,
        address,
        limit: given.limit,
    })
}

// The command that the words behind `serve TABLES` are.
fn kind_of_serve(tables: &str, words: &[String]) -> Option<CommandKind>
    ensures { result ≡ option_map kind_of_task
        (option_map serves (own.serve_in tables.now (map string_bytes words.now))) }
{
    serve_in(tables, words)
        .is_some()
        .then_some(CommandKind::Serve)
}

// The command that two words are.
fn kind_of_two(first: &str, second: &str) -> Option<CommandKind>
    ensures { result ≡ option_map kind_of_task (own.task_in_two first.now second.now) }
{
    if is_decode(first, second) {
        return Some(CommandKind::Decode);
    }
    if first == "load" {
        return read_rounds(second).is_some().then_some(CommandKind::Load);
    }
    None
}

// The command that three words and more behind them are.
fn kind_of_three(first: &str, second: &str, third: &str, more: &[String]) -> Option<CommandKind>
    ensures { result ≡ option_map kind_of_task
        (own.task_in_three first.now second.now third.now (map string_bytes more.now)) }
{
    if is_replay(first, second, third) {
        return are_options(more).then_some(CommandKind::Replay);
    }
    if is_decode_pdu(first, second, third) {
        return more.is_empty().then_some(CommandKind::Decode);
    }
    if is_verify(first, second, third) {
        return is_question(more).then_some(CommandKind::Verify);
    }
    if is_client(first, second, third) {
        return are_connect(more).then_some(CommandKind::Client);
    }
    if is_discover(first, second, third) {
        return are_connect(more).then_some(CommandKind::Discover);
    }
    None
}

// The command that two words and more behind them are, where it isn't `serve`.
fn kind_behind(first: &str, second: &str, more: &[String]) -> Option<CommandKind>
    ensures { result ≡ option_map kind_of_task
        (own.task_behind first.now second.now (map string_bytes more.now)) }
{
    match more {
        [] => kind_of_two(first, second),
        [third, more @ ..] => kind_of_three(first, second, third.as_str(), more),
    }
}

// The command that two words and more behind them are.
fn kind_by_verb(first: &str, second: &str, more: &[String]) -> Option<CommandKind>
    ensures { let words = map string_bytes more.now in result ≡ option_map kind_of_task
        (if own.is_serve first.now second.now
        then option_map serves (own.serve_in second.now words)
        else own.task_behind first.now second.now words) }
{
    if is_serve(first, second) {
        return kind_of_serve(second, more);
    }
    kind_behind(first, second, more)
}

/// The command that words are; nothing where they are none.
pub(crate) fn kind_of_words(words: &[String]) -> Option<CommandKind>
    ensures { result ≡ kind_in (map string_bytes words.now) }
{
    match words {
        [first, second, more @ ..] => kind_by_verb(first.as_str(), second.as_str(), more),
        _ => None,
    }
}
