//! The words of a command.
ghost use Rattle.std.specs.Prelude.{◌≡◌, ◌≤◌, IfSome};
ghost use Rattle.commands.specs.Words.Words as own;
ghost use Rattle.commands.specs.declared.load.scenario.TheConstants.{MOST_ROUNDS};

use crate::load::MOST_ROUNDS;
use plain_text::read_number;

/// The limit on the weight of a history, in octets, where no other is given.
pub const HISTORY_LIMIT: u64 = 134_217_728;

/// The most octets of that limit.
const MOST_LIMIT: u64 = 268_435_456;

// Definitions cite these limits, so that each stands here as a number too.
const _: () = prove!(HISTORY_LIMIT == 134_217_728);

const _: () = prove!(MOST_LIMIT == 268_435_456);

/// The options of a replay.
#[derive(Clone, Copy)]
pub struct Options<'a> {
    /// `--limit N`: the octets that the history may weigh.
    pub limit: Option<u64>,
    /// `--journal FILE`: the file to which the history is written.
    pub journal: Option<&'a str>,
}

impl<'a> Options<'a> {
    /// The octets that the history may weigh.
    pub fn limit(&self) -> u64
        ensures { result ≡ own.limit_of (own.options_seen self.now) }
    {
        self.limit.unwrap_or(HISTORY_LIMIT)
    }
}

/// What is asked of an association's captured octets.
#[derive(Clone, Copy)]
pub struct Question<'a> {
    /// The file of the tables.
    pub tables: &'a str,
    /// The file of the journal.
    pub journal: &'a str,
    /// The key of the association's peer in the tables.
    pub peer: &'a str,
    /// How many associations that peer had opened before.
    pub ordinal: u64,
    /// The capture of what the association's link gave.
    pub given: &'a str,
    /// The capture of what the association was sent.
    pub sent: &'a str,
}

/// What a server is to serve.
#[derive(Clone, Copy)]
pub struct ServeWords<'a> {
    /// The file of the tables.
    pub tables: &'a str,
    /// The file to which the history is written at the end.
    pub journal: &'a str,
    /// The address to listen at.
    pub address: &'a str,
    /// `--limit N`: the octets that the history may weigh.
    pub limit: Option<u64>,
}

impl<'a> ServeWords<'a> {
    /// The octets that the history may weigh.
    pub fn limit(&self) -> u64
        ensures { result ≡ own.served_limit (own.serve_seen self.now) }
    {
        self.limit.unwrap_or(HISTORY_LIMIT)
    }
}

/// What a client is to play.
#[derive(Clone, Copy)]
pub struct ClientWords<'a> {
    /// The file of the tables.
    pub tables: &'a str,
    /// The file of the script.
    pub script: &'a str,
    /// The address of the node to connect to.
    pub address: &'a str,
}

/// What a node is to be asked for.
#[derive(Clone, Copy)]
pub struct DiscoverWords<'a> {
    /// The file of the tables.
    pub tables: &'a str,
    /// The key of the peer in whose place the node is asked.
    pub key: &'a str,
    /// The address of the node to connect to.
    pub address: &'a str,
}

/// The options of a server that were read so far.
#[derive(Clone, Copy)]
pub(crate) struct ServerOptions<'a> {
    pub(crate) limit: Option<u64>,
    pub(crate) journal: Option<&'a str>,
    pub(crate) address: Option<&'a str>,
}

/// The commands.
#[derive(Clone, Copy)]
pub(crate) enum CommandKind {
    Replay,
    Decode,
    Verify,
    Load,
    Serve,
    Client,
    Discover,
}

/// What words ask for.
#[derive(Clone, Copy)]
pub enum Command<'a> {
    /// `replay TABLES SCENARIO`, and perhaps options: the scenario is played over the tables.
    Replay {
        tables: &'a str,
        scenario: &'a str,
        options: Options<'a>,
    },
    /// `decode IN`: the messages of the stream that the capture holds are listed.
    Decode {
        capture: &'a str,
    },
    /// `decode --pdu IN`: the PDU that the capture holds is told.
    DecodePdu {
        capture: &'a str,
    },
    /// `verify TABLES JOURNAL KEY ORDINAL IN OUT`: what an association was sent is held against its
    /// history.
    Verify {
        question: Question<'a>,
    },
    /// `load N`: the scenario of the load run with so many rounds is played, and counted.
    Load {
        rounds: u64,
    },
    /// `serve TABLES --journal FILE --listen ADDRESS`, and perhaps a limit: tables are served to
    /// whoever connects.
    Serve {
        words: ServeWords<'a>,
    },
    /// `client TABLES SCRIPT --connect ADDRESS`: the script is played over a connection to another
    /// node.
    Client {
        words: ClientWords<'a>,
    },
    /// `discover TABLES KEY --connect ADDRESS`: what another node offers is listed, and held
    /// against the table of the peer with this key.
    Discover {
        words: DiscoverWords<'a>,
    },
}

/// The number of rounds that a word gives.
pub(crate) fn read_rounds(word: &str) -> Option<u64>
    ensures value { result ≡ own.rounds_in word.now }
    ensures most { IfSome result (λ rounds. rounds ≤ MOST_ROUNDS) }
{
    let rounds = read_number(word.as_bytes(), MOST_ROUNDS)?;
    if rounds >= 1 { Some(rounds) } else { None }
}

/// The limit that a word gives.
pub(crate) fn read_limit(word: &str) -> Option<u64>
    ensures value { result ≡ own.limit_in word.now }
    ensures most { IfSome result (λ limit. limit ≤ MOST_LIMIT) }
{
    let limit = read_number(word.as_bytes(), MOST_LIMIT)?;
    if limit >= 1 { Some(limit) } else { None }
}
