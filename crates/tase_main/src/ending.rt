//! What an operator is told of how a run ended.
use commands::io::Status;
use outside_real::Notices;
use std::alloc::AllocError;
use std::io::Eprint;
use std::time::Clock;

/// A command, by its first word.
#[derive(Clone, Copy)]
pub(crate) enum Verb {
    Replay,
    Decode,
    Verify,
    Load,
    Serve,
    Client,
}

/// All of them.
const VERBS: [Verb; 6] = [
    Verb::Replay,
    Verb::Verify,
    Verb::Decode,
    Verb::Load,
    Verb::Serve,
    Verb::Client,
];

/// The command that words begin with, whether or not it has such words behind it.
pub(crate) fn verb_of(words: &Result<Vec<String>, AllocError>) -> Option<Verb> {
    match words {
        Ok(words) => verb_named(words.first()?.as_str()),
        Err(AllocError) => None,
    }
}

/// The command of this name.
fn verb_named(name: &str) -> Option<Verb> {
    match name {
        "replay" => Some(Verb::Replay),
        "decode" => Some(Verb::Decode),
        "verify" => Some(Verb::Verify),
        "load" => Some(Verb::Load),
        "serve" => Some(Verb::Serve),
        "client" => Some(Verb::Client),
        _ => None,
    }
}

/// The words of a command.
fn form_of(verb: Verb) -> &'static str {
    match verb {
        Verb::Replay => "tase replay TABLES SCENARIO [--limit N] [--journal FILE]",
        Verb::Decode => "tase decode [--pdu] IN",
        Verb::Verify => "tase verify TABLES JOURNAL KEY ORDINAL IN OUT",
        Verb::Load => "tase load N",
        Verb::Serve => "tase serve TABLES --journal FILE --listen ADDRESS [--limit N]",
        Verb::Client => "tase client TABLES SCRIPT --connect ADDRESS",
    }
}

/// Tells how the run of words ended that begin with this command: the end of a server or a client
/// with its status, and what words there are where these were no command.
pub(crate) fn tell_end<R: Eprint + Clock + Copy>(runtime: R, verb: Option<Verb>, status: Status) {
    let notices = Notices::new(runtime);
    if let Some(Verb::Serve | Verb::Client) = verb {
        let code = status.code();
        let words = plain_words(status);
        notices.tell(format_args!("ended with status {code}: {words}"));
    }
    if let Status::Usage = status {
        show_forms(&notices, verb);
    }
}

/// Shows the words of a command, or of all.
fn show_forms<R: Eprint + Clock>(notices: &Notices<R>, verb: Option<Verb>) {
    match verb {
        Some(verb) => notices.show(form_of(verb)),
        None => {
            for verb in VERBS {
                notices.show(form_of(verb));
            }
        }
    }
}

/// A status in plain words.
fn plain_words(status: Status) -> &'static str {
    match status {
        Status::Done => "all was done",
        Status::Usage => "the words are no command",
        Status::Input => "a text has a bad line or is too long",
        Status::Outside => "something outside failed",
        Status::Full => "the history is full",
        Status::Differs => "a difference was found",
        Status::Memory => "memory ran out",
        Status::Peer => "the other node ended it",
    }
}
