//! A job of the server, to be run in a thread of its own.
ghost use Rattle.std.specs.Prelude.{◌≡◌};
ghost use Rattle.node_server.specs.Jobs.Running.{MayRunJob, MayComeOfJob};

use crate::jobs::done::NodeDone;
use crate::jobs::parts::JobParts;
use crate::links::serve_connection;
use crate::{feed_node, tick_node};
use outside::Source;
use outside::links::{Clock, Job, Link};
use std::marker::Model;
use std::sync::Wait;

/// A job that may be run: its seat is one of its shared node, and its centre is that node's. The
/// seat of a connection has no open association.
#[derive(Drop)]
pub struct NodeJob<L, S, C> {
    parts: JobParts<L, S, C>,
}

impl<L, S, C> Model for NodeJob<L, S, C> {
    ghost use Rattle.std.specs.Coded.{codes};
    ghost use Rattle.mms_data.specs.contracts.data.MmsData as datum;
    ghost use Rattle.node_server.specs.declared.jobs.parts.JobParts.{JobParts};
    ghost use Rattle.node_server.specs.Jobs.Running.{MayRunJob};

    ghost Value = { JobParts L S C };

    ghost coded = { Prim.hlevel (codes, datum.the_row.coded) };

    ghost view = { λ j. j.parts };

    ghost invariant = { λ j. MayRunJob j.parts };
}

impl<L, S, C> NodeJob<L, S, C> {
    /// The job that is made of these parts.
    pub fn new(parts: JobParts<L, S, C>) -> NodeJob<L, S, C>
        requires { MayRunJob parts }
        ensures { result ≡ parts }
    {
        NodeJob { parts }
    }

    /// The parts of a job that wasn't run.
    pub fn into_parts(self) -> JobParts<L, S, C>
        ensures parts { result ≡ self }
        ensures may { MayRunJob result }
    {
        self.parts
    }
}

impl<L: Link, S: Source, C: Clock> Job for NodeJob<L, S, C> {
    ghost use Rattle.node_server.specs.Jobs.Running.{MayComeOfJob};

    type Done = NodeDone<L, S, C>;

    ghost may_give = { MayComeOfJob L.told S.told C.told };

    fn run<R: Wait>(self, rt: &R) -> NodeDone<L, S, C> {
        match self.into_parts() {
            JobParts::Conn {
                centre,
                shared,
                mut seat,
                mut link,
                alloc,
            } => {
                let end = serve_connection(rt, alloc, &centre, &shared, &mut seat, &mut link);
                NodeDone::Conn { seat, link, end }
            }
            JobParts::Feed {
                centre,
                shared,
                mut seat,
                mut source,
                alloc,
            } => {
                let end = feed_node(rt, alloc, &centre, &shared, &mut seat, &mut source);
                NodeDone::Feed { seat, source, end }
            }
            JobParts::Ticks {
                shared,
                mut seat,
                mut clock,
                alloc,
            } => {
                let end = tick_node(rt, alloc, &shared, &mut seat, &mut clock);
                NodeDone::Ticks { seat, clock, end }
            }
        }
    }
}

/// A job whose link, source and clock may go to another thread may go there too: this compiles. It
/// gives the job back.
pub fn job_may_be_sent<L: Send, S: Send, C: Send>(job: NodeJob<L, S, C>) -> NodeJob<L, S, C>
    ensures { result ≡ job }
{
    sent_over(job)
}

/// Takes what may go to another thread.
fn sent_over<T: Send>(value: T) -> T
    ensures { result ≡ value }
{
    value
}
