//! The command `discover`.
ghost use Rattle.std.specs.Prelude.{◌<◌, ℕ, IfOk, length};
ghost use Rattle.bilateral.specs.Rows.{CentreRows, place_of_peer};
ghost use Rattle.commands.specs.Words.Words.{discover_seen};
ghost use Rattle.tase_tool.specs.Discover.Discovering.{DiscoverCommand, ListsBehind, ListsByKey};
ghost use Rattle.tase_tool.specs.Discover.Discovering.{ListsPeer, ListsNode, ListsOpened, IsLister};

use crate::asking::opening::{close_link, open_both};
use crate::discover::ending::tell_listing;
use bilateral::Centre;
use commands::files::read_tables;
use commands::io::{InputEnd, Refusal, Status, end_unread};
use commands::words::DiscoverWords;
use outside::names::Outside;
use std::alloc::{AllocError, Global};
use std::sync::{Arc, Wait};
use tase_discover::asking::service::{LinkTerminal, Talk};
use tase_discover::{Listing, listing_talk, run_discover};

/// Lists what a node offers, as these words say: `discover TABLES KEY --connect ADDRESS`. It reads
/// the tables, connects to the node at the address in the place of the peer with this key, asks the
/// names that the node offers in the whole device and in the domain of the peer's first table, then
/// the type of each, and prints a line for each, and behind these a line for each name in which
/// they differ from that table. Then it closes the link, and behind these lines it prints how the
/// listing ended, where it didn't come to its end.
///
/// It answers 0 only where all was listed, nothing differs, and the release was answered; 6 where
/// something differs; 3 where the tables have a bad line or no peer with this key, which is
/// printed, and then it has connected to nobody; 4 only where a fault outside was counted; 7 where
/// memory ran out; 8 where the listing ended by what the node gave, which is printed. It waits as
/// long as the node says nothing.
pub fn run_discover_command<R: Wait, O: Outside>(
    rt: &R,
    alloc: Global,
    words: DiscoverWords<'_>,
    outside: &mut O,
) -> Status
    ensures { DiscoverCommand (discover_seen words.entry) (O.told outside.old)
        (O.told outside.new) result }
{
    let read = read_tables(alloc, outside, words.tables);
    let command = DiscoverRun { rt, alloc, words };
    command.list_read(outside, read)
}

/// A calling end that is to list what is offered in the place of the peer with this number, before
/// its link is there.
fn new_lister(alloc: Global, centre: Centre, peer: u32) -> Result<Talk<Listing>, AllocError>
    requires { peer < length centre.tables }
    ensures { IfOk result (IsLister centre peer) }
{
    let shared = Arc::new(alloc, centre)?;
    listing_talk(alloc, &shared, peer)
}

/// The command `discover`.
#[derive(Drop)]
struct DiscoverRun<'a, R> {
    rt: &'a R,
    alloc: Global,
    words: DiscoverWords<'a>,
}

impl<'a, R: Wait> DiscoverRun<'a, R> {
    /// Lists over tables that were read to this.
    fn list_read<O: Outside>(&self, outside: &mut O, read: Result<Centre, InputEnd>) -> Status
        ensures { ListsBehind (discover_seen self.now.words) read (O.told outside.old)
            (O.told outside.new) result }
    {
        match read {
            Ok(centre) => self.list_by_key(outside, centre),
            Err(end) => end_unread(outside, "tables", end),
        }
    }

    /// Lists over these tables, in the place of the peer with the key.
    fn list_by_key<O: Outside>(&self, outside: &mut O, centre: Centre) -> Status
        ensures { ListsByKey (discover_seen self.now.words) centre
            (place_of_peer centre self.now.words.key.now) (O.told outside.old)
            (O.told outside.new) result }
    {
        match centre.find_peer(self.words.key.as_bytes()) {
            Some(peer) => self.list_peer(outside, centre, peer),
            None => end_unread(outside, "tables", InputEnd::Refused(Refusal::BadKey)),
        }
    }

    /// Lists in the place of the peer with this number.
    fn list_peer<O: Outside>(&self, outside: &mut O, centre: Centre, peer: u32) -> Status
        requires { peer < length centre.tables }
        ensures { ListsPeer (discover_seen self.now.words) centre peer (O.told outside.old)
            (O.told outside.new) result }
    {
        match new_lister(self.alloc, centre, peer) {
            Ok(talk) => self.connect(outside, talk),
            Err(AllocError) => Status::Memory,
        }
    }

    /// Connects, and lists over the link.
    fn connect<O: Outside>(&self, outside: &mut O, talk: Talk<Listing>) -> Status
        ensures { (rows : CentreRows) (peer : ℕ) → IsLister rows peer talk
            → ListsNode (discover_seen self.now.words) rows peer (O.told outside.old)
            (O.told outside.new) result }
    {
        match open_both(outside, self.words.address) {
            Some((link, sink)) => self.list_opened(outside, talk, link, sink),
            None => Status::Outside,
        }
    }

    /// Lists over a link, closes this, and tells how the listing ended.
    fn list_opened<O: Outside>(
        &self,
        outside: &mut O,
        talk: Talk<Listing>,
        link: O::Link,
        sink: O::Out,
    ) -> Status
        ensures { (rows : CentreRows) (peer : ℕ) → IsLister rows peer talk
            → ListsOpened rows peer (O.Link.told link) (O.Out.told sink) (O.told outside.old)
            (O.told outside.new) result }
    {
        let mut talk = talk;
        let mut terminal = LinkTerminal { link, sink };
        let end = run_discover(self.rt, &mut talk, &mut terminal);
        let LinkTerminal { link, mut sink } = terminal;
        close_link(outside, link);
        let status = tell_listing(&mut sink, &talk, end);
        outside.close_out(sink);
        status
    }
}
