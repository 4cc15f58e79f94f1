//! A feed, told to a shared node.
ghost use Rattle.std.specs.Prelude.{◌≡◌, ◌↔◌, ◌<◌, [], ◌∷◌, Some, Err, IsTrue, false};
ghost use Rattle.std.specs.Prelude.{length};
ghost use mathlib.Core.List.{IsPrefix};
ghost use Rattle.share_turn.specs.Public.{IsOf, at};
ghost use Rattle.node_server.specs.FeedReading.{IsFedEvent, MayBeSaid};
ghost use Rattle.node_server.specs.Feeding.{FeedCame, IsFeedFault, ActsOn, FeedsOctets};
ghost use Rattle.node_server.specs.Feeding.{TellsFeed, ReadsAndTells, RunsFeed, first_place};
ghost use Rattle.node_server.specs.Feeding.{is_source_fault};
ghost use Rattle.node_server.specs.declared.feed_reader.FeedSays.TheVariants.{Asks};
ghost use Rattle.node_server.specs.declared.feed_end.FeedEnd.{FeedEnd};

use crate::asking::{call_node, stop_node};
use crate::feed_end::FeedEnd;
use crate::feed_reader::{FeedReader, FeedSays};
use crate::turn::TurnNode;
use bilateral::Centre;
use outside::{ReadEnd, Source};
use share_turn::{Seat, Shared};
use std::alloc::Global;
use std::sync::Wait;
use tase_views::{Event, StepFault};

/// So many octets are read at a time.
const PIECE: usize = 4_096;

/// Reads a feed, and asks a shared node each event that its lines say, in order, until the feed
/// ends or says `stop`, a line is bad or too long, or an event is refused. Then it stops the node,
/// where it wasn't stopped. The lines are those of `read_feed_line`; an empty line and one that
/// begins with `#` are skipped.
pub fn feed_node<R: Wait, S: Source>(
    rt: &R,
    alloc: Global,
    centre: &Centre,
    shared: &Shared<TurnNode>,
    seat: &mut Seat<TurnNode>,
    source: &mut S,
) -> FeedEnd
    requires of { IsOf shared.now seat.old }
    requires centre { centre.now ≡ shared.now.setup.centre }
    ensures same { seat.new ≡ at seat.old seat.new.front }
    ensures seen { IsPrefix seat.old.front seat.new.front }
    ensures feeds { RunsFeed shared.now.setup seat.old seat.new.front (S.told source.old)
        (S.told source.new) result }
{
    let feeder = Feeder {
        rt,
        alloc,
        centre,
        shared,
    };
    let end = feeder.feed_all(seat, source);
    if !is_stopped(end) {
        stop_node(rt, alloc, shared, seat);
    }
    end
}

/// True exactly where the node was stopped.
fn is_stopped(end: FeedEnd) -> bool
    ensures { IsTrue result ↔ (end ≡ FeedEnd.Stopped) }
{
    end == FeedEnd::Stopped
}

/// What tells a feed to a node.
#[derive(Clone, Copy)]
struct Feeder<'a, R> {
    rt: &'a R,
    alloc: Global,
    centre: &'a Centre,
    shared: &'a Shared<TurnNode>,
}

impl<'a, R: Wait> Feeder<'a, R> {
    /// Tells all that a source gives.
    fn feed_all<S: Source>(&self, seat: &mut Seat<TurnNode>, source: &mut S) -> FeedEnd
        requires of { IsOf self.now.shared.now seat.old }
        requires centre { self.now.centre.now ≡ self.now.shared.now.setup.centre }
        ensures same { seat.new ≡ at seat.old seat.new.front }
        ensures feeds { ReadsAndTells self.now.shared.now.setup seat.old seat.new.front
            first_place (S.told source.old) (S.told source.new) result }
    {
        let Ok(mut reader) = FeedReader::new(self.alloc) else {
            return FeedEnd::Memory;
        };
        let Ok(mut room) = vec![in self.alloc; 0u8; PIECE] else {
            return FeedEnd::Memory;
        };
        self.feed_pieces(seat, &mut reader, source, &mut room)
    }

    /// Tells one piece after another, each read into this room.
    fn feed_pieces<S: Source>(
        &self,
        seat: &mut Seat<TurnNode>,
        reader: &mut FeedReader,
        source: &mut S,
        room: &mut [u8],
    ) -> FeedEnd
        requires of { IsOf self.now.shared.now seat.old }
        requires centre { self.now.centre.now ≡ self.now.shared.now.setup.centre }
        requires room { 0 < length room.old }
        ensures same { seat.new ≡ at seat.old seat.new.front }
        ensures feeds { ReadsAndTells self.now.shared.now.setup seat.old seat.new.front
            reader.old (S.told source.old) (S.told source.new) result }
    {
        for _ in self.rt.forever() {
            match source.read(room) {
                ReadEnd::Got(count) => {
                    if let Some(end) = self.feed_piece(seat, reader, &room[..count]) {
                        return end;
                    }
                }
                ReadEnd::End => return self.feed_last(seat, reader),
                ReadEnd::Failed => {
                    reader.break_off();
                    return FeedEnd::SourceFault;
                }
            }
        }
        unreachable!()
    }

    /// Tells the octets of a piece. None where the feed goes on.
    fn feed_piece(
        &self,
        seat: &mut Seat<TurnNode>,
        reader: &mut FeedReader,
        piece: &[u8],
    ) -> Option<FeedEnd>
        requires of { IsOf self.now.shared.now seat.old }
        requires centre { self.now.centre.now ≡ self.now.shared.now.setup.centre }
        ensures same { seat.new ≡ at seat.old seat.new.front }
        ensures feeds { FeedsOctets self.now.shared.now.setup seat.old seat.new.front reader.old
            reader.new piece.now result }
    {
        for octet in piece {
            if let Some(end) = self.feed_octet(seat, reader, *octet) {
                return Some(end);
            }
        }
        None
    }

    /// Tells an octet. None where the feed goes on.
    fn feed_octet(
        &self,
        seat: &mut Seat<TurnNode>,
        reader: &mut FeedReader,
        octet: u8,
    ) -> Option<FeedEnd>
        requires of { IsOf self.now.shared.now seat.old }
        requires centre { self.now.centre.now ≡ self.now.shared.now.setup.centre }
        ensures same { seat.new ≡ at seat.old seat.new.front }
        ensures feeds { FeedsOctets self.now.shared.now.setup seat.old seat.new.front reader.old
            reader.new (octet ∷ []) result }
    {
        match reader.take(self.alloc, self.centre, octet) {
            Ok(says) => self.act(seat, says),
            Err(_) => Some(FeedEnd::Memory),
        }
    }

    /// Tells what the last line says.
    fn feed_last(&self, seat: &mut Seat<TurnNode>, reader: &FeedReader) -> FeedEnd
        requires of { IsOf self.now.shared.now seat.old }
        requires centre { self.now.centre.now ≡ self.now.shared.now.setup.centre }
        ensures same { seat.new ≡ at seat.old seat.new.front }
        ensures feeds { TellsFeed self.now.shared.now.setup seat.old seat.new.front reader.now []
            result }
        ensures fault { is_source_fault result ≡ false }
    {
        match reader.finish(self.alloc, self.centre) {
            Ok(says) => match self.act(seat, says) {
                Some(end) => end,
                None => FeedEnd::Ended,
            },
            Err(_) => FeedEnd::Memory,
        }
    }

    /// Asks what the feed says. None where the feed goes on.
    fn act(&self, seat: &mut Seat<TurnNode>, says: FeedSays) -> Option<FeedEnd>
        requires of { IsOf self.now.shared.now seat.old }
        requires may { MayBeSaid self.now.shared.now.setup.centre says }
        ensures same { seat.new ≡ at seat.old seat.new.front }
        ensures acts { ActsOn self.now.shared.now.setup seat.old seat.new.front says result }
    {
        match says {
            FeedSays::Nothing => None,
            FeedSays::Asks(event) => self.ask(seat, event),
            FeedSays::Ends(end) => Some(end),
        }
    }

    /// Asks an event of a line. None where the feed goes on.
    fn ask(&self, seat: &mut Seat<TurnNode>, event: Event) -> Option<FeedEnd>
        requires of { IsOf self.now.shared.now seat.old }
        requires may { IsFedEvent self.now.shared.now.setup.centre event }
        ensures same { seat.new ≡ at seat.old seat.new.front }
        ensures acts { ActsOn self.now.shared.now.setup seat.old seat.new.front (Asks event)
            result }
    {
        match call_node(self.rt, self.alloc, self.shared, seat, event) {
            None => None,
            Some(fault) => Some(end_of_feed(fault)),
        }
    }
}

/// How the feeding ends by an event's refusal.
fn end_of_feed(fault: StepFault) -> FeedEnd
    requires { IsFeedFault fault }
    ensures { FeedCame (Err fault) (Some result) }
{
    match fault {
        StepFault::Stopped { at: _ } => FeedEnd::Stopped,
        StepFault::HistoryFull { weight, limit } => FeedEnd::Full { weight, limit },
        StepFault::Memory => FeedEnd::Memory,
        StepFault::NoAssociation
        | StepFault::Already
        | StepFault::UnknownName
        | StepFault::ClockRange
        | StepFault::Backward { last: _ } => unreachable!(),
    }
}
