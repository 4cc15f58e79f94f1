//! The command `serve`.
ghost use Rattle.std.specs.Prelude.{◌≡◌, ◌≤◌, [], Ok, option_map, IfSome, IfOk};
ghost use Rattle.std.specs.Arc.{arc_value};
ghost use Rattle.server_main.specs.NodeServer.Turn.Logged.{turn_setup, turn_log};
ghost use Rattle.commands.specs.Words.Words.{served_limit, serve_seen};
ghost use Rattle.server_main.specs.Serving.{IsServed, server_told};
ghost use Rattle.tase_tool.specs.Server.Serving.{ServesCommand, TakesCourse, ServesOpened};
ghost use Rattle.tase_tool.specs.Server.Serving.{TellsEnd, KeepsJournal, ClosesServer};

use crate::server::opening::{Opened, open_all};
use crate::server::telling::{note_journal, note_served};
use bilateral::Centre;
use commands::files::{read_tables, status_behind, write_journal};
use commands::io::{InputEnd, Refusal, Status, end_unread, tell_full, tell_refusal};
use commands::words::ServeWords;
use job_threads::ThreadSpawner;
use node_core::Node;
use outside::links::{Clock, Listener};
use outside::names::Outside;
use outside::{Sink, Source};
use server_main::serving::jobs::NodeJob;
use server_main::{ServeEnd, Served, Server};
use std::alloc::{AllocError, Global};
use std::sync::{Arc, Wait};
use std::thread::Threads;

/// Serves a node, as these words say: `serve TABLES --journal FILE --listen ADDRESS`. It reads the
/// tables, listens at the address, opens standard input as the feed, the clock, and standard output
/// as the plant, and serves the node over these until its feed ends or has a `stop` line. Then it
/// writes the node's history to the file of the journal, a line for each entry, whatever the end
/// was.
///
/// It answers 0 only where the feed was read so and the plant and the journal are whole; 3 where
/// the tables or the feed have a bad line, which is printed, that of the feed behind the plant's
/// lines; 4 only where a fault outside was counted, or the job of the feed or of the clock was
/// refused; 5 where an event was refused since the history would have weighed more than its limit;
/// 7 where memory ran out. It waits as long as the server serves.
pub fn run_serve<R: Threads + Wait + Copy + Send + 'static, O: Outside>(
    rt: &R,
    alloc: Global,
    words: ServeWords<'_>,
    outside: &mut O,
    spawner: &mut ThreadSpawner<NodeJob<<O::Listener as Listener>::Link, O::In, O::Clock>>,
) -> Status
where
    <O::Listener as Listener>::Link: Send + 'static,
    O::In: Send + 'static,
    O::Clock: Send + 'static,
    requires limit { served_limit (serve_seen words) ≤ 268435456 }
    requires none { spawner.old.told.pending ≡ [] }
    ensures serves { ServesCommand (serve_seen words.entry) (O.told outside.old)
        (O.told outside.new) spawner.old.told.faults spawner.new.told.faults result }
    ensures left { spawner.new.told.pending ≡ [] }
{
    let read = read_tables(alloc, outside, words.tables);
    let command = ServeCommand { rt, alloc, words };
    command.serve_read(outside, spawner, read)
}

/// What a server leaves: what it worked on, and what came of it.
struct Left<N, S, C, K> {
    listener: N,
    plant: K,
    served: Served<S, C>,
}

/// A command that serves.
#[derive(Clone, Copy)]
struct ServeCommand<'a, R> {
    rt: &'a R,
    alloc: Global,
    words: ServeWords<'a>,
}

impl<'a, R: Threads + Wait + Copy + Send + 'static> ServeCommand<'a, R> {
    /// Serves the tables that were read to this.
    fn serve_read<O: Outside>(
        &self,
        outside: &mut O,
        spawner: &mut ThreadSpawner<NodeJob<<O::Listener as Listener>::Link, O::In, O::Clock>>,
        read: Result<Centre, InputEnd>,
    ) -> Status
    where
        <O::Listener as Listener>::Link: Send + 'static,
        O::In: Send + 'static,
        O::Clock: Send + 'static,
        requires limit { served_limit (serve_seen self.now.words) ≤ 268435456 }
        requires none { spawner.old.told.pending ≡ [] }
        ensures goes { TakesCourse (serve_seen self.now.words) read (O.told outside.old)
            (O.told outside.new) spawner.old.told.faults spawner.new.told.faults result }
        ensures left { spawner.new.told.pending ≡ [] }
    {
        match read {
            Ok(centre) => self.serve_centre(outside, spawner, centre),
            Err(end) => end_unread(outside, "tables", end),
        }
    }

    /// Serves these tables, which threads are to share.
    fn serve_centre<O: Outside>(
        &self,
        outside: &mut O,
        spawner: &mut ThreadSpawner<NodeJob<<O::Listener as Listener>::Link, O::In, O::Clock>>,
        centre: Centre,
    ) -> Status
    where
        <O::Listener as Listener>::Link: Send + 'static,
        O::In: Send + 'static,
        O::Clock: Send + 'static,
        requires limit { served_limit (serve_seen self.now.words) ≤ 268435456 }
        requires none { spawner.old.told.pending ≡ [] }
        ensures goes { TakesCourse (serve_seen self.now.words) (Ok centre) (O.told outside.old)
            (O.told outside.new) spawner.old.told.faults spawner.new.told.faults result }
        ensures left { spawner.new.told.pending ≡ [] }
    {
        match shared(self.alloc, centre) {
            Ok(centre) => self.serve_shared(outside, spawner, &centre),
            Err(AllocError) => Status::Memory,
        }
    }

    /// Opens what a server works on, and serves.
    fn serve_shared<O: Outside>(
        &self,
        outside: &mut O,
        spawner: &mut ThreadSpawner<NodeJob<<O::Listener as Listener>::Link, O::In, O::Clock>>,
        centre: &Arc<Centre>,
    ) -> Status
    where
        <O::Listener as Listener>::Link: Send + 'static,
        O::In: Send + 'static,
        O::Clock: Send + 'static,
        requires limit { served_limit (serve_seen self.now.words) ≤ 268435456 }
        requires none { spawner.old.told.pending ≡ [] }
        ensures goes { TakesCourse (serve_seen self.now.words) (Ok (arc_value centre.now))
            (O.told outside.old) (O.told outside.new) spawner.old.told.faults
            spawner.new.told.faults result }
        ensures left { spawner.new.told.pending ≡ [] }
    {
        match open_all(outside, self.words.address) {
            Some(opened) => self.serve_opened(outside, spawner, centre, opened),
            None => Status::Outside,
        }
    }

    /// Serves over what was opened, closes it, and writes the journal of the node.
    fn serve_opened<O: Outside>(
        &self,
        outside: &mut O,
        spawner: &mut ThreadSpawner<NodeJob<<O::Listener as Listener>::Link, O::In, O::Clock>>,
        centre: &Arc<Centre>,
        opened: Opened<O::Listener, O::In, O::Clock, O::Out>,
    ) -> Status
    where
        <O::Listener as Listener>::Link: Send + 'static,
        O::In: Send + 'static,
        O::Clock: Send + 'static,
        requires limit { served_limit (serve_seen self.now.words) ≤ 268435456 }
        requires none { spawner.old.told.pending ≡ [] }
        ensures serves { ServesOpened (serve_seen self.now.words) (arc_value centre.now) (
          O.Listener.told opened.listener,
          (
            O.In.told opened.feed,
            (O.Clock.told opened.clock, O.Out.told opened.plant),
          ),
        )
            (O.told outside.old) (O.told outside.new) spawner.old.told.faults
            spawner.new.told.faults result }
        ensures left { spawner.new.told.pending ≡ [] }
    {
        let left = self.serve_on(spawner, centre, opened);
        let failed = left.plant.faults() > 0;
        note_served(self.alloc, outside, &left.served, failed);
        let (node, status) = close_server(outside, left);
        keep_node(self.alloc, outside, &node, self.words.journal, status)
    }

    /// Serves over what was opened.
    fn serve_on<
        N: Listener,
        S: Source + Send + Drop + 'static,
        C: Clock + Send + Drop + 'static,
        K: Sink,
    >(
        &self,
        spawner: &mut ThreadSpawner<NodeJob<N::Link, S, C>>,
        centre: &Arc<Centre>,
        opened: Opened<N, S, C, K>,
    ) -> Left<N, S, C, K>
    where
        N::Link: Send + 'static,
        requires limit { served_limit (serve_seen self.now.words) ≤ 268435456 }
        requires none { spawner.old.told.pending ≡ [] }
        ensures serves { IsServed (record {
          centre = arc_value centre.now;
          limit = served_limit (serve_seen self.now.words);
        })
            (server_told (N.told opened.listener) (K.told opened.plant) (S.told opened.feed)
            (C.told opened.clock) spawner.old.told.faults)
            (server_told (N.told result.listener) (K.told result.plant)
            (S.told result.served.feed) (C.told result.served.clock) spawner.new.told.faults)
            (option_map (λ node. turn_log node.history) result.served.node)
            result.served.seats result.served.end }
        ensures of { IfSome result.served.node (λ node. turn_setup node.setup
            ≡ record {
              centre = arc_value centre.now;
              limit = served_limit (serve_seen self.now.words);
            }) }
        ensures left { spawner.new.told.pending ≡ [] }
    {
        let Opened {
            mut listener,
            feed,
            clock,
            mut plant,
        } = opened;
        // A listener says with its faults that no more links were retired than it gave.
        let _faults = listener.faults();
        let server = Server {
            rt: self.rt,
            alloc: self.alloc,
            centre,
            limit: self.words.limit(),
        };
        let served = server.serve(&mut listener, &mut plant, spawner, feed, clock);
        let Server {
            rt: _,
            alloc: _,
            centre: _,
            limit: _,
        } = server;
        Left {
            listener,
            plant,
            served,
        }
    }
}

/// Writes the journal of the node that a server left to the file of this name, if there is a node,
/// and answers the status of both.
fn keep_node<O: Outside>(
    alloc: Global,
    outside: &mut O,
    node: &Option<Node>,
    name: &str,
    status: Status,
) -> Status
    ensures { KeepsJournal name.now node.now status (O.told outside.old) (O.told outside.new)
        result }
{
    match node {
        Some(node) => {
            let written = write_journal(alloc, outside, node, name);
            note_journal(alloc, outside, name, written);
            status_behind(status, written)
        }
        None => status,
    }
}

/// These tables, which threads may share.
fn shared(alloc: Global, centre: Centre) -> Result<Arc<Centre>, AllocError>
    ensures { IfOk result (λ shared. arc_value shared ≡ centre) }
{
    Ok(Arc::new(alloc, centre)?)
}

/// Closes what a server worked on, and tells the plant, behind its lines, how the server ended. It
/// answers the node that the server left, and the status of its end.
fn close_server<O: Outside>(
    outside: &mut O,
    left: Left<O::Listener, O::In, O::Clock, O::Out>,
) -> (Option<Node>, Status)
    ensures closes { ClosesServer (O.told outside.old) (O.told outside.new) (
      O.Listener.told left.listener,
      (
        O.In.told left.served.feed,
        (O.Clock.told left.served.clock, O.Out.told left.plant),
      ),
    ) left.served.end result.1 }
    ensures node { result.0 ≡ left.served.node }
{
    let Left {
        listener,
        mut plant,
        served,
    } = left;
    let Served {
        node,
        feed,
        clock,
        seats: _,
        end,
    } = served;
    outside.close_listener(listener);
    outside.close_in(feed);
    outside.close_clock(clock);
    let status = tell_end(&mut plant, end);
    outside.close_out(plant);
    (node, status)
}

/// Tells the plant how a server ended: the first bad line of its feed, or an event for which the
/// history has no room. It takes no memory.
fn tell_end<K: Sink>(plant: &mut K, end: ServeEnd) -> Status
    ensures { TellsEnd end (K.told plant.old) (K.told plant.new) result }
{
    match end {
        ServeEnd::Done => Status::Done,
        ServeEnd::BadFeed { line } => tell_refusal(plant, "feed", Refusal::BadLine(line)),
        ServeEnd::Outside => Status::Outside,
        ServeEnd::Full { weight, limit } => tell_full(plant, weight, limit),
        ServeEnd::Memory => Status::Memory,
    }
}
