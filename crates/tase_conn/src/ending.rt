//! How a connection ends.
ghost use Rattle.std.specs.Prelude.{◌≡◌, ◌++◌, true, OnOk, OnErr, IsOk};
ghost use Rattle.tase_conn.specs.declared.stage.Cause.TheVariants as causes;
ghost use Rattle.tase_conn.specs.Talking.{MayLeave};
ghost use Rattle.tase_conn.specs.Places.{IsPlaced, HasAbortRoom, KeepsPlace};
ghost use Rattle.tase_conn.specs.Answering.{aborts, aborted, parting_octets};
ghost use Rattle.tase_conn.specs.Leaving.{IsLeft, Parts, finished, MayAnswer, EndsFor, is_quick};

use crate::conn::Conn;
use crate::stage::{Behind, Cause, ConnEnd, PendingEvent, Progress, Stage};
use mms_services::MmsPdu;
use std::alloc::AllocError;

/// Whether the association is aborted for this end: not where the link can't take it.
fn aborts(end: ConnEnd) -> bool
    ensures { result ≡ aborts end }
{
    match end {
        ConnEnd::LinkFault | ConnEnd::Overflow { .. } => false,
        _ => true,
    }
}

impl Conn {
    /// Gives the connection up, for this end: an open association is closed first. The association
    /// is aborted where it stands, unless the link has failed or doesn't take what is sent.
    pub fn give_up(&mut self, end: ConnEnd)
        requires free { MayLeave self.old.progress }
        requires placed { IsPlaced self.old }
        // Nothing more is read: it stands where it stood.
        ensures stands { KeepsPlace self.old self.new }
        ensures left { IsLeft end self.old self.new }
    {
        self.leave(end);
    }

    /// Leaves the connection, for this end, once its association is closed.
    pub(crate) fn leave(&mut self, end: ConnEnd)
        requires { HasAbortRoom self.old }
        ensures { IsLeft end self.old self.new }
    {
        match self.stage {
            Stage::Open { .. } => self.progress = Progress::Leaving { end, asked: false },
            _ => self.part(end, Progress::Cut(end)),
        }
    }

    /// Ends the connection, and aborts its association where it stands, unless the link can't take
    /// it.
    pub(crate) fn part(&mut self, end: ConnEnd, progress: Progress)
        requires { HasAbortRoom self.old }
        ensures { Parts progress (parting_octets self.old.course end) self.old self.new }
    {
        if aborts(end) {
            self.abort();
        }
        self.finish(progress);
    }

    fn abort(&mut self)
        requires { HasAbortRoom self.old }
        ensures same { self.new
            ≡ record self.old { course = self.new.course; farewell = self.new.farewell } }
        ensures said { self.new.farewell.items
            ≡ self.old.farewell.items ++ aborted self.old.course }
    {
        if self.stack.may_abort() {
            self.stack.abort(&mut self.farewell);
        }
    }

    pub(crate) fn finish(&mut self, progress: Progress)
        ensures { self.new ≡ finished progress self.old }
    {
        self.held = None;
        self.behind = Behind::Nothing;
        self.progress = progress;
    }

    /// Answers the peer that its association is closed, or where none is open ends the connection.
    pub(crate) fn answer_end(&mut self, cause: Cause) -> Result<(), AllocError>
        requires may { MayAnswer cause self.old.course }
        requires room { HasAbortRoom self.old }
        ensures ok { OnOk result (EndsFor cause self.old self.new) }
        ensures err { OnErr result (self.new ≡ self.old) }
        ensures quick { is_quick cause ≡ true → IsOk result }
    {
        match cause {
            Cause::Concluded => self.answer_conclude(),
            Cause::Released => self.answer_release(),
            Cause::Aborted | Cause::LinkEnd => {
                self.finish(Progress::Ended(ConnEnd::PeerEnd));
                Ok(())
            }
            Cause::Broken(fault) => {
                let end = ConnEnd::Refused(fault);
                self.part(end, Progress::Ended(end));
                Ok(())
            }
        }
    }

    fn answer_conclude(&mut self) -> Result<(), AllocError>
        requires may { MayAnswer causes.Concluded self.old.course }
        ensures ok { OnOk result (EndsFor causes.Concluded self.old self.new) }
        ensures err { OnErr result (self.new ≡ self.old) }
    {
        self.stack.say(&MmsPdu::Concluded, &mut self.out)?;
        self.progress = Progress::Running(PendingEvent::Nothing);
        Ok(())
    }

    fn answer_release(&mut self) -> Result<(), AllocError>
        requires may { MayAnswer causes.Released self.old.course }
        ensures ok { OnOk result (EndsFor causes.Released self.old self.new) }
        ensures err { OnErr result (self.new ≡ self.old) }
    {
        self.stack.release(&mut self.out)?;
        self.finish(Progress::Ended(ConnEnd::Finished));
        Ok(())
    }
}
