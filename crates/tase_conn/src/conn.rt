//! A connection to a peer, without input and output.
ghost use Rattle.std.specs.Prelude.{◌≡◌, ◌+◌, ◌-◌, ◌≤◌, [], length, drop, vec_len};
ghost use Rattle.std.specs.Prelude.{IfOk, OnOk, OnErr, option_copied};
ghost use Rattle.std.specs.Arc.{arc_value};
ghost use Rattle.tpkt_cotp.specs.declared.limits.TheConstants.{PIECE_LIMIT};
ghost use Rattle.tpkt_cotp.specs.declared.limits.TheConstants.{TPKT_LIMIT, TSDU_LIMIT};
ghost use Rattle.tpkt_cotp.specs.Streams.{stream_place};
ghost use Rattle.ber_values.specs.Octets.{IsOctets};
ghost use Rattle.stack_assoc.specs.Courses.{count_held};
ghost use Rattle.tase_conn.specs.Map.Inputs.{piece as a_piece, idle, ended};
ghost use Rattle.tase_conn.specs.declared.stage.Progress.TheVariants as progresses;
ghost use Rattle.tase_conn.specs.declared.stage.PendingEvent.TheVariants as askeds;
ghost use Rattle.tase_conn.specs.Talking.{pending_of, next_pending, conn_end_in, IsResting};
ghost use Rattle.tase_conn.specs.Talking.{is_leaving};
ghost use Rattle.tase_conn.specs.Talking.{is_running, stage_peer};
ghost use Rattle.tase_conn.specs.Places.{ConnStandsAt, IsPlaced, KeepsPlace, GainsItem};
ghost use Rattle.tase_conn.specs.Taken.{TakesIn, SendsSome};
ghost use Rattle.tase_conn.specs.Answering.{limit_at};

use crate::stage::{Behind, Coming, ConnEnd, PendingEvent, Progress, Stage};
use bilateral::Centre;
use stack_assoc::Stack;
use std::alloc::{AllocError, Global};
use std::marker::Model;
use std::sync::Arc;

/// The octets that may wait for a peer before its association is open.
const FIRST_LIMIT: u64 = 1_048_576;

// Definitions cite this limit, so that it stands here as a number too.
const _: () = prove!(FIRST_LIMIT == 1_048_576);

/// The octets of an abort, at most.
const ABORT_ROOM: usize = 64;

/// The called end of a connection.
#[derive(Drop)]
pub struct Conn {
    pub(crate) alloc: Global,
    pub(crate) centre: Arc<Centre>,
    pub(crate) stack: Stack,
    /// What was read and wasn't acted on yet.
    pub(crate) held: Option<Coming>,
    pub(crate) behind: Behind,
    pub(crate) stage: Stage,
    pub(crate) progress: Progress,
    /// The octets that are still to be sent.
    pub(crate) out: Vec<u8>,
    /// Behind them, the octets of an abort; until then room for them.
    pub(crate) farewell: Vec<u8>,
}

impl Model for Conn {
    ghost use Rattle.std.specs.Coded.{codes};
    ghost use Rattle.mms_data.specs.contracts.data.MmsData as datum;
    ghost use Rattle.mms_data.specs.contracts.types.tree.Shape as shape;
    ghost use Rattle.std.specs.Arc.{arc_value};
    ghost use Rattle.tase_conn.specs.Talking.{Talking};

    ghost Value = { Talking };

    ghost coded = { Prim.hlevel (codes, datum.the_row.coded, shape.the_row.coded) };

    ghost view = { λ c. record {
      rows = arc_value c.centre;
      course = c.stack;
      held = c.held;
      behind = c.behind;
      stage = c.stage;
      progress = c.progress;
      out = c.out.items;
      farewell = c.farewell;
    } };
}

impl Conn {
    /// A connection of which nothing has come yet, to one of the peers of this centre.
    pub fn new(alloc: Global, centre: Arc<Centre>) -> Result<Conn, AllocError>
        ensures start { IfOk result (λ conn. ConnStandsAt (arc_value centre) [] [] [] conn) }
        ensures resting { IfOk result (λ conn. IsResting conn) }
        ensures running { IfOk result (λ conn.
            conn.progress ≡ progresses.Running askeds.Nothing) }
        ensures silent { IfOk result (λ conn. pending_of conn ≡ []) }
    {
        let stack = Stack::called(alloc)?;
        let mut farewell = Vec::new(alloc);
        farewell.reserve(ABORT_ROOM)?;
        Ok(Conn {
            alloc,
            centre,
            stack,
            held: None,
            behind: Behind::Nothing,
            stage: Stage::Early,
            progress: Progress::Running(PendingEvent::Nothing),
            out: Vec::new(alloc),
            farewell,
        })
    }

    /// Takes in the next octets that the link gave, 1 to 65,536, once `want` has answered that
    /// nothing is left of what was taken in before. Where the connection has ended, or was given
    /// up, they are dropped. After want of memory it is as before.
    pub fn take_in(&mut self, piece: &[u8]) -> Result<(), AllocError>
        requires some { 1 ≤ length piece.now }
        requires small { length piece.now ≤ PIECE_LIMIT }
        requires resting { IsResting self.old }
        requires placed { IsPlaced self.old }
        ensures ok { OnOk result (GainsItem (a_piece piece.now) self.old self.new) }
        ensures same { OnOk result (TakesIn self.old self.new) }
        ensures err { OnErr result (self.new ≡ self.old) }
    {
        if !self.is_running() {
            return Ok(());
        }
        self.stack.feed(piece)?;
        self.behind = Behind::Pause;
        Ok(())
    }

    /// Takes in that the link gives nothing for now, once `want` has answered that nothing is left
    /// of what was taken in before.
    pub fn idle_in(&mut self)
        requires resting { IsResting self.old }
        requires placed { IsPlaced self.old }
        ensures stands { GainsItem idle self.old self.new }
        ensures same { TakesIn self.old self.new }
    {
        if self.is_running() {
            self.behind = Behind::Pause;
        }
    }

    /// Takes in that the link gives no more, once `want` has answered that nothing is left
    /// of what was taken in before.
    pub fn end_in(&mut self)
        requires resting { IsResting self.old }
        requires placed { IsPlaced self.old }
        ensures stands { GainsItem ended self.old self.new }
        ensures same { TakesIn self.old self.new }
    {
        if self.is_running() {
            self.behind = Behind::End;
        }
    }

    /// Whether what is taken in is still read.
    fn is_running(&self) -> bool
        ensures { result ≡ is_running self.now.progress }
    {
        matches!(self.progress, Progress::Running(_))
    }

    /// The octets that are to be sent next: all that are to be sent, or, where the association was
    /// aborted, first all before the abort, and then those of the abort.
    pub fn pending(&self) -> &[u8]
        ensures { result.now ≡ next_pending self.now }
    {
        if self.out.is_empty() {
            self.farewell.as_slice()
        } else {
            self.out.as_slice()
        }
    }

    /// What is to be sent are octets.
    pub fn pending_are_octets(&self)
        ensures { IsOctets (pending_of self.now) }
    {
        are_octets(self.out.as_slice());
        are_octets(self.farewell.as_slice());
    }

    /// Notes that so many of the pending octets were sent.
    pub fn sent(&mut self, n: usize)
        requires { n ≤ length (next_pending self.old) }
        ensures pending { pending_of self.new ≡ drop n (pending_of self.old) }
        ensures stands { KeepsPlace self.old self.new }
        ensures same { SendsSome self.old self.new }
    {
        if n == 0 {
            return;
        }
        if self.out.is_empty() {
            cut(&mut self.farewell, n);
        } else {
            cut(&mut self.out, n);
        }
    }

    /// How many octets may wait for the peer: what its table says, and 1,048,576 before its
    /// association is open.
    pub fn limit(&self) -> u64
        requires { IsPlaced self.now }
        ensures { result ≡ limit_at self.now.rows self.now.stage }
    {
        match self.stage {
            Stage::Early => FIRST_LIMIT,
            Stage::Open { peer, .. } | Stage::Closed { peer } => self.centre.table(peer).pending,
        }
    }

    /// The number of the peer whose association it is or was, if there was one.
    pub fn peer(&self) -> Option<u32>
        ensures { result ≡ stage_peer self.now.stage }
    {
        match self.stage {
            Stage::Early => None,
            Stage::Open { peer, .. } | Stage::Closed { peer } => Some(peer),
        }
    }

    /// The octets that it holds, at most 2^64 - 1: those that its link gave and it hasn't read, and
    /// those that are still to be sent. How many of the latter may wait is `limit`, which whoever
    /// sends them keeps to. A message that was read, and is to be acted on next, isn't counted.
    pub fn held(&self) -> u64
        ensures count { result
            ≡ stream_place (count_held self.now.course + length (pending_of self.now)) }
        // Beside those that are to be sent, a TSDU, less than a TPKT, and a piece.
        ensures few { result
            ≤ TSDU_LIMIT + (TPKT_LIMIT - 1) + PIECE_LIMIT + length (pending_of self.now) }
    {
        let pending = len_of(&self.out).saturating_add(len_of(&self.farewell));
        (self.stack.held() as u64).saturating_add(pending)
    }

    /// Whether it was left, and its association is still to be closed.
    pub fn is_leaving(&self) -> bool
        ensures { result ≡ is_leaving self.now.progress }
    {
        matches!(self.progress, Progress::Leaving { .. })
    }

    /// How the connection ended, if it has.
    pub fn ended(&self) -> Option<&ConnEnd>
        ensures { option_copied result ≡ conn_end_in self.now.progress }
    {
        match &self.progress {
            Progress::Ended(end) | Progress::Cut(end) => Some(end),
            _ => None,
        }
    }
}

fn are_octets(octets: &[u8])
    ensures { IsOctets octets.now }
{
    let _ = octets;
}

/// Cuts off the first of these octets.
fn cut(octets: &mut Vec<u8>, n: usize)
    requires { n ≤ vec_len octets.old }
    ensures items { octets.new.items ≡ drop n octets.old.items }
{
    let left = octets.len() - n;
    octets.copy_within(n.., 0);
    octets.truncate(left);
}

fn len_of(octets: &Vec<u8>) -> u64
    ensures { result ≡ length octets.now.items }
{
    octets.as_slice().len() as u64
}
