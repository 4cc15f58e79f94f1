ghost use Rattle.std.specs.Prelude.{◌≡◌, ℕ, reverse};
ghost use Rattle.std.specs.Str.Lines.{lines};
ghost use Rattle.tase_replay.specs.Play.{Scene, play, first_scene, printed_of};
ghost use Rattle.tase_replay.specs.Play.{entry_meaning, received, line_meaning};
ghost use Rattle.tase_replay.specs.AllSent.{AreSentSoFar, is_played_out};
ghost use Rattle.tase_replay.specs.Links.{given_seen, IsFit};
ghost use Rattle.tase_replay.specs.Players.{StandsIn, HasNoted, HasFound, IsSamePlayer};
ghost use Rattle.tase_replay.specs.Players.{play_of, Plays, PlaysLine};
ghost use Rattle.tase_replay.specs.Ends.{IsPlayed, IsShown, end_of_refusal};
ghost use Rattle.tase_replay.specs.Ends as spec;
ghost use Rattle.conn_service.specs.TaseConn.Talking.{conn_end_in};

use crate::entries::{LineRequest, read_asked};
use crate::links::{LineItem, Seats, receive};
use crate::printing::{print_orders, print_reply, print_reports, print_sent};
use bilateral::Centre;
use conn_service::connection::{Conn, ConnEnd};
use conn_service::node::Node;
use look_count::no_looks;
use outside::Sink;
use plain_text::{is_skipped, next_line};
use std::alloc::Global;
use tase_views::{Answer, Entry, StepFault};

/// How the play of a scenario ended.
#[derive(Clone, Copy, Debug, PartialEq, Eq)]
pub enum ReplayEnd {
    /// All lines were taken.
    Done,
    /// The first line that isn't in the grammar or whose event the node refuses. Lines count from
    /// 1.
    BadLine { line: u64 },
    /// With the event of a line the history would weigh so many octets, and may weigh at most
    /// `limit`.
    Full { weight: u64, limit: u64 },
    /// The sink failed.
    SinkFault,
    /// Memory ran out.
    Memory,
}

/// Plays a scenario on a node: takes each line's event after those before it, and prints the reply
/// to each request, the reports that are taken, and the orders that the plant takes; what a line
/// gives to a link its connection takes in, and what is to be sent is printed, and how the
/// connection ended. At the first bad line it stops, and at the first event with which the history
/// would be too heavy; what was printed and taken before stands.
pub fn replay<K: Sink>(alloc: Global, node: &mut Node, scenario: &[u8], sink: &mut K) -> ReplayEnd
    ensures played { IsPlayed (play node.old.setup (lines scenario.now)
        (first_scene (reverse node.old.history)) 1)
        node.old.history node.new.history (K.told sink.old) (K.told sink.new) result }
    ensures sent { AreSentSoFar node.old.setup node.old.history
        (play node.old.setup (lines scenario.now) (first_scene (reverse node.old.history)) 1)
        (is_played_out result) (K.told sink.old) (K.told sink.new) }
    ensures setup { node.new.setup ≡ node.old.setup }
{
    match Seats::of(alloc, node) {
        Ok(mut seats) => {
            let mut text = Vec::new(alloc);
            let mut player = Player {
                alloc,
                node,
                seats: &mut seats,
                sink,
                text: &mut text,
            };
            player.play_lines(scenario)
        }
        Err(_) => ReplayEnd::Memory,
    }
}

/// What plays the lines of a scenario: the node that takes their events, what each seat is used
/// for, and the sink for what is printed. `text` is where that is put together.
#[derive(Drop)]
struct Player<'a, K: Sink> {
    alloc: Global,
    node: &'a mut Node,
    seats: &'a mut Seats,
    sink: &'a mut K,
    text: &'a mut Vec<u8>,
}

impl<'a, K: Sink> Player<'a, K> {
    /// Plays all lines of a scenario, over the seats that the node's history has.
    fn play_lines(&mut self, scenario: &[u8]) -> ReplayEnd
        requires { StandsIn (first_scene (reverse self.old.node.now.history)) self.old }
        ensures played { Plays K.told (play_of self.old scenario.now) self.old self.new result }
        ensures sent { AreSentSoFar self.old.node.now.setup self.old.node.now.history
            (play_of self.old scenario.now) (is_played_out result)
            (K.told self.old.sink.now) (K.told self.new.sink.now) }
        ensures same { IsSamePlayer self.old self.new }
    {
        let mut rest = scenario;
        let mut number = 1;
        while let Some((line, more)) = next_line(rest) {
            match self.play_line(line, number) {
                ReplayEnd::Done => {}
                end => return end,
            }
            rest = more;
            number += 1;
        }
        ReplayEnd::Done
    }

    /// Plays one line, whose number this is.
    fn play_line(&mut self, line: &[u8], number: u64) -> ReplayEnd
        requires { (scene : Scene) × StandsIn scene self.old }
        ensures plays { (scene : Scene) → StandsIn scene self.old
            → PlaysLine K.told number scene (line_meaning self.old.node.now.setup scene line.now)
            self.old self.new result }
        ensures same { IsSamePlayer self.old self.new }
    {
        if is_skipped(line) {
            return ReplayEnd::Done;
        }
        match read_asked(self.alloc, self.node.centre(), line) {
            Ok(Some(LineRequest::Event(entry))) => self.play_own(entry, number),
            Ok(Some(LineRequest::Item(given))) => self.play_given(given, number),
            Ok(None) => ReplayEnd::BadLine { line: number },
            Err(_) => ReplayEnd::Memory,
        }
    }

    /// Takes the entry of the line with this number, unless its seat is a link's.
    fn play_own(&mut self, entry: Entry, number: u64) -> ReplayEnd
        ensures plays { (scene : Scene) → StandsIn scene self.old
            → PlaysLine K.told number scene (entry_meaning self.old.node.now.setup scene entry)
            self.old self.new result }
        ensures same { IsSamePlayer self.old self.new }
    {
        match self.seats.note_own(entry.who) {
            Ok(true) => self.play_entry(entry, number),
            Ok(false) => ReplayEnd::BadLine { line: number },
            Err(_) => ReplayEnd::Memory,
        }
    }

    /// Takes the entry of the line with this number, whose seat was noted, and prints what it is
    /// answered.
    fn play_entry(&mut self, entry: Entry, number: u64) -> ReplayEnd
        ensures plays { (scene : Scene) → HasNoted scene entry.who self.old
            → PlaysLine K.told number scene (entry_meaning self.old.node.now.setup scene entry)
            self.old self.new result }
        ensures same { IsSamePlayer self.old self.new }
    {
        let Entry { who, event } = entry;
        let mut looks = no_looks();
        match self.node.step(self.alloc, who, event, &mut looks) {
            Ok(answer) => { print_answer(self.node.centre(), who, &answer, self.sink, self.text) }
            Err(fault) => refused(fault, number),
        }
    }

    /// Has the connection of a link take in what the line with this number gives, unless lines of
    /// its own use the seat, or the connection has ended; and prints what is sent then.
    fn play_given(&mut self, given: LineItem, number: u64) -> ReplayEnd
        requires fits { IsFit given.item }
        requires stands { (scene : Scene) × StandsIn scene self.old }
        ensures plays { (scene : Scene) → StandsIn scene self.old
            → PlaysLine K.told number scene
            (received self.old.node.now.setup scene (given_seen given)) self.old self.new result }
        ensures same { IsSamePlayer self.old self.new }
    {
        match self
            .seats
            .place_of(self.alloc, self.node.shared_centre(), given.who)
        {
            Ok(Some(place)) => self.serve(place, &given),
            Ok(None) => ReplayEnd::BadLine { line: number },
            Err(_) => ReplayEnd::Memory,
        }
    }

    /// Has the connection at a place take in what a line gives, and prints what is sent then.
    fn serve(&mut self, place: usize, given: &LineItem) -> ReplayEnd
        requires fits { IsFit given.now.item }
        requires found { (scene : Scene) × HasFound scene given.now.who place self.old }
        ensures plays { (number : ℕ) (scene : Scene) → HasFound scene given.now.who place self.old
            → PlaysLine K.told number scene
            (received self.old.node.now.setup scene (given_seen given.now))
            self.old self.new result }
        ensures same { IsSamePlayer self.old self.new }
    {
        let conn = &mut self.seats.conns[place];
        match receive(self.alloc, self.node, given.who, conn, &given.item) {
            Ok(()) => match cut_end(conn) {
                Some(end) => end,
                None => {
                    conn.pending_are_octets();
                    print_sent(given.who, conn, self.sink, self.text)
                }
            },
            Err(_) => ReplayEnd::Memory,
        }
    }
}

/// How the replay ends at a connection that has ended so, if it does.
fn cut_end(conn: &Conn) -> Option<ReplayEnd>
    ensures { result ≡ spec.end_of_cut (conn_end_in conn.now.progress) }
{
    match conn.ended() {
        Some(end) => end_of_cut(*end),
        None => None,
    }
}

/// It does where the connection was cut for a full history, or for want of memory.
fn end_of_cut(end: ConnEnd) -> Option<ReplayEnd>
    ensures { result ≡ spec.end_of_cut (Some end) }
{
    match end {
        ConnEnd::Full { weight, limit } => Some(ReplayEnd::Full { weight, limit }),
        ConnEnd::Memory => Some(ReplayEnd::Memory),
        ConnEnd::Finished
        | ConnEnd::PeerEnd
        | ConnEnd::Declined
        | ConnEnd::Refused(_)
        | ConnEnd::TooLong { .. }
        | ConnEnd::Overflow { .. }
        | ConnEnd::LinkFault
        | ConnEnd::Stopped => None,
    }
}

/// How the line with this number ends whose event was refused.
fn refused(fault: StepFault, number: u64) -> ReplayEnd
    ensures { result ≡ end_of_refusal number fault }
{
    match fault {
        StepFault::Memory => ReplayEnd::Memory,
        StepFault::HistoryFull { weight, limit } => ReplayEnd::Full { weight, limit },
        StepFault::Stopped { .. }
        | StepFault::NoAssociation
        | StepFault::Already
        | StepFault::UnknownName
        | StepFault::ClockRange
        | StepFault::Backward { .. } => ReplayEnd::BadLine { line: number },
    }
}

/// Prints what is printed of an answer to a seat.
fn print_answer<K: Sink>(
    centre: &Centre,
    who: u64,
    answer: &Answer,
    sink: &mut K,
    text: &mut Vec<u8>,
) -> ReplayEnd
    ensures { IsShown (printed_of centre.now who answer.now)
        (K.told sink.old) (K.told sink.new) result }
{
    match answer {
        Answer::Reply(reply) => print_reply(who, reply, sink, text),
        Answer::Reports(reports) => print_reports(who, reports.as_slice(), sink, text),
        Answer::Orders(orders) => print_orders(centre, orders.as_slice(), sink, text),
        Answer::Opened { .. } | Answer::Closed | Answer::Noted => ReplayEnd::Done,
    }
}
