//! What a connection says of the node's answers.
ghost use Rattle.std.specs.Prelude.{◌≡◌, ◌++◌, ◌≤◌, ◌≤ℤ◌, true, false, Ok, Err, OnOk, OnErr};
ghost use Rattle.std.specs.Prelude.{IfOk, IsOk, length, take};
ghost use Rattle.mms_services.specs.Initiates.{IsFullInitiate};
ghost use Rattle.mms_services.specs.PduOctets.{IsWritablePdu, pdu_len};
ghost use Rattle.mms_services.specs.declared.initiate.TheConstants.{MOST_DETAIL};
ghost use Rattle.stack_assoc.specs.declared.input.StackState.TheVariants as states;
ghost use Rattle.stack_assoc.specs.declared.end_state.EndState.TheVariants as standings;
ghost use Rattle.stack_assoc.specs.Courses.{stack_state_of};
ghost use Rattle.stack_assoc.specs.Saying.{says_conclude};
ghost use Rattle.tase_conn.specs.Map.Replied.{pdu_of_reply, pdu_of_report};
ghost use Rattle.tase_conn.specs.Map.Out.{within, reports_said, first_too_long};
ghost use Rattle.tase_conn.specs.declared.stage.PendingEvent.TheVariants as askeds;
ghost use Rattle.tase_conn.specs.declared.stage.Stage.TheVariants as stages;
ghost use Rattle.tase_conn.specs.declared.stage.Progress.TheVariants as progresses;
ghost use Rattle.tase_conn.specs.Talking.{is_open_stage};
ghost use Rattle.tase_conn.specs.Places.{IsPlaced, HasAbortRoom, KeepsPlace};
ghost use Rattle.tase_conn.specs.Wanting.{IsLeaving};
ghost use Rattle.tase_conn.specs.Answering.{IsAnswerTo, IsAnswerFor, TellsAnswer, unnoted};
ghost use Rattle.tase_conn.specs.Answering.{stage_by, stage_told, end_of_fault, detail_in};
ghost use Rattle.tase_conn.specs.Answering.{detail_at, stage_closed, parting_octets};
ghost use Rattle.tase_views.specs.declared.fault.StepFault.{StepFault as AnyFault};
ghost use Rattle.tase_conn.specs.Leaving.{IsLeft, Parts, MayAnswer, EndsFor};
ghost use Rattle.tase_conn.specs.Noting.{NotesAnswer, NotesAsked, with_open, answered};
ghost use Rattle.tase_conn.specs.Noting.{with_nothing_waiting, with_reports_said, len_above};
ghost use Rattle.tase_conn.specs.Noting.{said_up_to};

use crate::conn::Conn;
use crate::map::{pdu_of, report_pdu, within};
use crate::stage::{Cause, ConnEnd, PendingEvent, Progress, Stage};
use mms_services::{Initiate, MOST_DETAIL, MmsPdu, pdu_len};
use std::alloc::AllocError;
use tase_views::{Answer, Reply, Report, StepFault};

/// The end of a connection whose event is refused so.
fn end_of(fault: StepFault) -> ConnEnd
    ensures { result ≡ end_of_fault fault }
{
    match fault {
        StepFault::Stopped { .. } => ConnEnd::Stopped,
        StepFault::HistoryFull { weight, limit } => ConnEnd::Full { weight, limit },
        _ => ConnEnd::Memory,
    }
}

/// The most octets of a PDU that were agreed on.
fn detail_of(granted: &Initiate) -> i64
    ensures { result ≡ detail_in granted.now }
{
    granted.detail.unwrap_or(MOST_DETAIL)
}

impl Conn {
    /// Takes the node's answer to the event that was wanted last, or why the node refused it: that
    /// it was stopped, its history is full, or its memory ran out, which ends the connection once
    /// its association is closed. It appends what the peer is answered. After want of memory an
    /// open has opened the association and a close has closed it, and nothing else of the answer
    /// was noted: the connection is to be given up.
    pub fn tell(&mut self, told: Result<Answer, StepFault>) -> Result<(), AllocError>
        requires right { IsAnswerFor self.old.progress told }
        requires placed { IsPlaced self.old }
        ensures stands { KeepsPlace self.old self.new }
        ensures told { OnOk result (TellsAnswer told self.old self.new) }
        ensures err { OnErr result (self.new ≡ unnoted told self.old) }
        // A refusal leaves the connection.
        ensures refused { (fault : AnyFault) → told ≡ Err fault
            → IsLeft (end_of_fault fault) self.old self.new }
        // Once it was given up, the answer to its close takes no memory.
        ensures left { IsLeaving self.old.progress → IsOk result }
    {
        match told {
            Ok(answer) => self.note_or_refuse(answer),
            Err(fault) => {
                self.leave(end_of(fault));
                Ok(())
            }
        }
    }

    fn note_or_refuse(&mut self, answer: Answer) -> Result<(), AllocError>
        requires right { IsAnswerFor self.old.progress (Ok answer) }
        requires placed { IsPlaced self.old }
        ensures ok { OnOk result (NotesAnswer self.old.progress answer self.old self.new) }
        ensures stage { self.new.stage
            ≡ stage_told self.old.progress (Ok answer) self.old.stage }
        ensures err { OnErr result (self.new ≡ unnoted (Ok answer) self.old) }
        ensures left { IsLeaving self.old.progress → IsOk result }
    {
        match self.note(answer) {
            Ok(()) => Ok(()),
            Err(error) => {
                self.progress = Progress::Refused;
                Err(error)
            }
        }
    }

    /// Notes an answer, and says what is answered. After want of memory only the stage was noted.
    fn note(&mut self, answer: Answer) -> Result<(), AllocError>
        requires right { IsAnswerFor self.old.progress (Ok answer) }
        requires placed { IsPlaced self.old }
        ensures ok { OnOk result (NotesAnswer self.old.progress answer self.old self.new) }
        ensures stage { self.new.stage
            ≡ stage_told self.old.progress (Ok answer) self.old.stage }
        ensures err { OnErr result (self.new ≡ record self.old {
          stage = stage_told self.old.progress (Ok answer) self.old.stage;
        }) }
        ensures left { IsLeaving self.old.progress → IsOk result }
    {
        match self.progress {
            Progress::Running(asked) => self.note_asked(asked, &answer),
            Progress::Leaving { end, .. } => {
                self.end_left(end);
                Ok(())
            }
            _ => Ok(()),
        }
    }

    /// The association is closed that was left.
    fn end_left(&mut self, end: ConnEnd)
        requires { HasAbortRoom self.old }
        ensures { Parts (progresses.Cut end) (parting_octets self.old.course end)
            (record self.old { stage = stage_closed self.old.stage }) self.new }
    {
        self.close_stage();
        self.part(end, Progress::Cut(end));
    }

    fn note_asked(&mut self, asked: PendingEvent, answer: &Answer) -> Result<(), AllocError>
        requires right { IsAnswerTo asked (Ok answer.now) }
        requires asked { self.old.progress ≡ progresses.Running asked }
        requires placed { IsPlaced self.old }
        ensures ok { OnOk result (NotesAsked asked answer.now self.old self.new) }
        ensures stage { self.new.stage ≡ stage_by asked self.old.stage }
        ensures err { OnErr result (self.new
            ≡ record self.old { stage = stage_by asked self.old.stage }) }
    {
        match asked {
            PendingEvent::Opening { peer, granted } => self.open(peer, granted),
            PendingEvent::Requesting { invoke } => self.note_reply(invoke, answer),
            PendingEvent::Taking => self.note_reports(answer),
            PendingEvent::Closing(cause) => self.close(cause),
            PendingEvent::Nothing => Ok(()),
        }
    }

    /// The association is open, and its offer is accepted.
    fn open(&mut self, peer: u32, granted: Initiate) -> Result<(), AllocError>
        requires offered { self.old.course.standing ≡ standings.Offered }
        requires full { IsFullInitiate granted }
        ensures ok { OnOk result (self.new ≡ with_open peer granted self.old) }
        ensures stage { self.new.stage ≡ stages.Open peer (detail_in granted) }
        ensures err { OnErr result (self.new
            ≡ record self.old { stage = stages.Open peer (detail_in granted) }) }
    {
        self.stage = Stage::Open {
            peer,
            detail: detail_of(&granted),
        };
        self.stack.accept(&granted, &mut self.out)?;
        self.progress = Progress::Running(PendingEvent::Nothing);
        Ok(())
    }

    fn note_reply(&mut self, invoke: u32, answer: &Answer) -> Result<(), AllocError>
        requires right { IsAnswerTo (askeds.Requesting invoke) (Ok answer.now) }
        requires accepted { stack_state_of self.old.course ≡ states.Accepted }
        requires detail { detail_at self.old.stage ≤ℤ MOST_DETAIL }
        ensures ok { OnOk result
            (NotesAsked (askeds.Requesting invoke) answer.now self.old self.new) }
        ensures stage { self.new.stage ≡ self.old.stage }
        ensures err { OnErr result (self.new ≡ self.old) }
    {
        match answer {
            Answer::Reply(reply) => self.reply(invoke, reply),
            _ => Ok(()),
        }
    }

    fn reply(&mut self, invoke: u32, reply: &Reply) -> Result<(), AllocError>
        requires accepted { stack_state_of self.old.course ≡ states.Accepted }
        requires detail { detail_at self.old.stage ≤ℤ MOST_DETAIL }
        ensures ok { OnOk result (self.new ≡ answered
            (within (detail_at self.old.stage) invoke (pdu_of_reply invoke reply.now)) self.old) }
        ensures stage { self.new.stage ≡ self.old.stage }
        ensures err { OnErr result (self.new ≡ self.old) }
    {
        let pdu = pdu_of(self.alloc, invoke, reply)?;
        let pdu = within(self.detail(), invoke, pdu);
        self.answer(&pdu)
    }

    /// Says a PDU that answers, and nothing waits any more.
    fn answer(&mut self, pdu: &MmsPdu) -> Result<(), AllocError>
        requires accepted { stack_state_of self.old.course ≡ states.Accepted }
        requires writable { IsWritablePdu pdu.now }
        requires few { pdu_len pdu.now ≤ 65000 }
        ensures ok { OnOk result (self.new ≡ answered pdu.now self.old) }
        ensures stage { self.new.stage ≡ self.old.stage }
        ensures err { OnErr result (self.new ≡ self.old) }
    {
        self.stack.say(pdu, &mut self.out)?;
        self.progress = Progress::Running(PendingEvent::Nothing);
        Ok(())
    }

    fn note_reports(&mut self, answer: &Answer) -> Result<(), AllocError>
        requires right { IsAnswerTo askeds.Taking (Ok answer.now) }
        requires open { is_open_stage self.old.stage ≡ true }
        requires accepted { stack_state_of self.old.course ≡ states.Accepted }
        requires detail { detail_at self.old.stage ≤ℤ MOST_DETAIL }
        requires room { HasAbortRoom self.old }
        ensures ok { OnOk result (NotesAsked askeds.Taking answer.now self.old self.new) }
        ensures stage { self.new.stage ≡ self.old.stage }
        ensures err { OnErr result (self.new ≡ self.old) }
    {
        match answer {
            Answer::Reports(reports) => self.answer_take(reports.as_slice()),
            _ => Ok(()),
        }
    }

    /// Says reports, and where one is too long the connection is left.
    fn answer_take(&mut self, reports: &[Report]) -> Result<(), AllocError>
        requires open { is_open_stage self.old.stage ≡ true }
        requires accepted { stack_state_of self.old.course ≡ states.Accepted }
        requires detail { detail_at self.old.stage ≤ℤ MOST_DETAIL }
        requires room { HasAbortRoom self.old }
        ensures ok { OnOk result (self.new ≡ with_reports_said reports.now self.old) }
        ensures stage { self.new.stage ≡ self.old.stage }
        ensures err { OnErr result (self.new ≡ self.old) }
    {
        let start = self.out.len();
        match self.say_reports(reports) {
            Ok(None) => {
                self.note_nothing();
                Ok(())
            }
            Ok(Some(len)) => {
                let detail = self.detail().unsigned_abs();
                self.leave(ConnEnd::TooLong { len, detail });
                Ok(())
            }
            Err(error) => {
                self.out.truncate(start);
                Err(error)
            }
        }
    }

    /// Nothing waits any more.
    fn note_nothing(&mut self)
        ensures { self.new ≡ with_nothing_waiting self.old }
    {
        self.progress = Progress::Running(PendingEvent::Nothing);
    }

    /// Says reports, up to one that is too long: how many octets that has, if there is one. After
    /// want of memory `out` begins with what it was.
    fn say_reports(&mut self, reports: &[Report]) -> Result<Option<u64>, AllocError>
        requires accepted { stack_state_of self.old.course ≡ states.Accepted }
        requires detail { detail_at self.old.stage ≤ℤ MOST_DETAIL }
        ensures long { IfOk result (λ long.
            long ≡ first_too_long (detail_at self.old.stage) reports.now) }
        ensures said { OnOk result (self.new.out ≡ self.old.out
            ++ reports_said self.old.course.setup (detail_at self.old.stage) reports.now) }
        ensures same { self.new ≡ record self.old { out = self.new.out } }
        ensures front { take (length self.old.out) self.new.out ≡ self.old.out }
    {
        for report in reports {
            if let Some(len) = self.say_report(report)? {
                return Ok(Some(len));
            }
        }
        Ok(None)
    }

    /// Says a report, unless it is too long: how many octets it has then.
    fn say_report(&mut self, report: &Report) -> Result<Option<u64>, AllocError>
        requires accepted { stack_state_of self.old.course ≡ states.Accepted }
        requires detail { detail_at self.old.stage ≤ℤ MOST_DETAIL }
        ensures long { IfOk result (λ long.
            long ≡ len_above (detail_at self.old.stage) (pdu_of_report report.now)) }
        ensures said { OnOk result (self.new.out ≡ self.old.out ++ said_up_to
            (detail_at self.old.stage) self.old.course.setup (pdu_of_report report.now)) }
        ensures same { self.new ≡ record self.old { out = self.new.out } }
        ensures err { OnErr result (self.new ≡ self.old) }
    {
        let pdu = report_pdu(self.alloc, report)?;
        self.say_up_to(&pdu)
    }

    /// Says a PDU, unless it has more octets than were agreed on: how many it has then.
    fn say_up_to(&mut self, pdu: &MmsPdu) -> Result<Option<u64>, AllocError>
        requires accepted { stack_state_of self.old.course ≡ states.Accepted }
        requires writable { IsWritablePdu pdu.now }
        requires quiet { says_conclude pdu.now ≡ false }
        requires detail { detail_at self.old.stage ≤ℤ MOST_DETAIL }
        ensures long { IfOk result (λ long.
            long ≡ len_above (detail_at self.old.stage) pdu.now) }
        ensures said { OnOk result (self.new.out ≡ self.old.out
            ++ said_up_to (detail_at self.old.stage) self.old.course.setup pdu.now) }
        ensures same { self.new ≡ record self.old { out = self.new.out } }
        ensures err { OnErr result (self.new ≡ self.old) }
    {
        if let Some(len) = self.len_above(pdu) {
            return Ok(Some(len));
        }
        self.stack.say(pdu, &mut self.out)?;
        Ok(None)
    }

    /// How many octets a PDU has, where it has more than were agreed on.
    fn len_above(&self, pdu: &MmsPdu) -> Option<u64>
        requires writable { IsWritablePdu pdu.now }
        ensures { result ≡ len_above (detail_at self.now.stage) pdu.now }
    {
        let len = pdu_len(pdu);
        if len as i64 > self.detail() {
            Some(len as u64)
        } else {
            None
        }
    }

    fn detail(&self) -> i64
        ensures { result ≡ detail_at self.now.stage }
    {
        match self.stage {
            Stage::Open { detail, .. } => detail,
            _ => MOST_DETAIL,
        }
    }

    /// The association is closed, and the peer is answered.
    fn close(&mut self, cause: Cause) -> Result<(), AllocError>
        requires may { MayAnswer cause self.old.course }
        requires room { HasAbortRoom self.old }
        ensures ok { OnOk result
            (EndsFor cause (record self.old { stage = stage_closed self.old.stage }) self.new) }
        ensures stage { self.new.stage ≡ stage_closed self.old.stage }
        ensures err { OnErr result (self.new
            ≡ record self.old { stage = stage_closed self.old.stage }) }
    {
        self.close_stage();
        self.answer_end(cause)
    }

    fn close_stage(&mut self)
        ensures { self.new ≡ record self.old { stage = stage_closed self.old.stage } }
    {
        if let Stage::Open { peer, .. } = self.stage {
            self.stage = Stage::Closed { peer };
        }
    }
}
