//! What an association is sent, of its events with their answers.
ghost use Rattle.std.specs.Prelude.{◌≡◌, ◌++◌, ◌≤◌, ◌≤ℤ◌, false, drop, IfOk, OnOk};
ghost use Rattle.mms_services.specs.declared.initiate.TheConstants.{MOST_DETAIL};
ghost use Rattle.mms_services.specs.declared.pdu.MmsPdu.TheVariants as pdus;
ghost use Rattle.mms_services.specs.PduOctets.{pdu_len, IsWritablePdu};
ghost use Rattle.tase_conn.specs.Map.Replied.{pdu_of_report};
ghost use Rattle.tase_conn.specs.Map.Out.{said, reply_octets, reports_said, close_octets};
ghost use Rattle.tase_conn.specs.Map.Out.{concluded_octets, release_wire, abort_wire};
ghost use Rattle.tase_verify.specs.Association.Saying.{talk_kept, turns_of_kinds, AreTerms, added};
ghost use Rattle.tase_verify.specs.Association.Saying.{replied, replied_by, reported};
ghost use Rattle.tase_verify.specs.Association.Saying.{is_too_long, said_within};
ghost use Rattle.tase_verify.specs.Association.Saying.{turns_behind_event, octets_by_events};

use crate::association::answered::AnsweredEvent;
use crate::association::turns::TurnKind;
use mms_services::{MmsPdu, pdu_len};
use stack_assoc::Stack;
use stack_assoc::wire::{write_abort, write_data, write_release};
use std::alloc::{AllocError, Global};
use tase_conn::map::{pdu_of, report_pdu, within};
use tase_views::{Answer, Event, EventKind, Reply, Report};

/// What a link fixes of what its association is sent.
#[derive(Drop)]
pub(crate) struct Terms {
    pub(crate) alloc: Global,
    /// The stack that has heard the connect.
    pub(crate) stack: Stack,
    /// The octets of the beginning.
    pub(crate) opening: Vec<u8>,
    /// The most octets of a PDU that were agreed on.
    pub(crate) detail: i64,
    /// The offer, and the turns behind it.
    pub(crate) turns: Vec<TurnKind>,
}

impl Terms {
    /// All that is sent of these events.
    pub(crate) fn octets(&self, answered: &[AnsweredEvent]) -> Result<Vec<u8>, AllocError>
        requires terms { AreTerms self.now }
        ensures { IfOk result (λ octets. octets.items
            ≡ octets_by_events (talk_kept self.now) (talk_kept self.now).turns answered.now) }
    {
        let mut out = Vec::new(self.alloc);
        let mut turns = behind_first(self.turns.as_slice());
        for told in answered {
            self.say(&mut out, turns, told)?;
            turns = turns_behind(&told.event, turns);
        }
        Ok(out)
    }

    /// Appends what an event adds, where these turns come.
    fn say(
        &self,
        out: &mut Vec<u8>,
        turns: &[TurnKind],
        told: &AnsweredEvent,
    ) -> Result<(), AllocError>
        requires terms { AreTerms self.now }
        ensures { OnOk result (out.new.items ≡ out.old.items
            ++ added (talk_kept self.now) (turns_of_kinds turns.now) told.now) }
    {
        match told.event.kind() {
            EventKind::Open { .. } => out.extend_from_slice(self.opening.as_slice()),
            EventKind::Request { .. } => self.say_reply(out, turns, &told.answer),
            EventKind::Take => self.say_reports(out, &told.answer),
            EventKind::Close => self.say_close(out, turns),
            _ => Ok(()),
        }
    }

    /// Appends the reply to the request that comes first.
    fn say_reply(
        &self,
        out: &mut Vec<u8>,
        turns: &[TurnKind],
        answer: &Answer,
    ) -> Result<(), AllocError>
        requires terms { AreTerms self.now }
        ensures { OnOk result (out.new.items ≡ out.old.items
            ++ replied (talk_kept self.now) (turns_of_kinds turns.now) answer.now) }
    {
        let [first, ..] = turns else {
            return Ok(());
        };
        match first {
            TurnKind::Asks { invoke } => self.say_answer(out, *invoke, answer),
            _ => Ok(()),
        }
    }

    /// Appends the reply to the request with this number.
    fn say_answer(&self, out: &mut Vec<u8>, invoke: u32, answer: &Answer) -> Result<(), AllocError>
        requires terms { AreTerms self.now }
        ensures { OnOk result (out.new.items ≡ out.old.items
            ++ replied_by (talk_kept self.now) invoke answer.now) }
    {
        match answer {
            Answer::Reply(reply) => self.reply(out, invoke, reply),
            _ => Ok(()),
        }
    }

    fn reply(&self, out: &mut Vec<u8>, invoke: u32, reply: &Reply) -> Result<(), AllocError>
        requires terms { AreTerms self.now }
        ensures { OnOk result (out.new.items ≡ out.old.items
            ++ reply_octets (talk_kept self.now) invoke reply.now) }
    {
        let pdu = pdu_of(self.alloc, invoke, reply)?;
        let pdu = within(self.detail(), invoke, pdu);
        self.say_pdu(out, &pdu)
    }

    fn say_pdu(&self, out: &mut Vec<u8>, pdu: &MmsPdu) -> Result<(), AllocError>
        requires terms { AreTerms self.now }
        requires writable { IsWritablePdu pdu.now }
        requires few { pdu_len pdu.now ≤ 65000 }
        ensures { OnOk result (out.new.items ≡ out.old.items
            ++ said self.now.stack.setup pdu.now) }
    {
        let setup = self.stack.setup();
        write_data(self.alloc, out, setup.size, setup.mms, pdu)
    }

    /// Appends the reports that a take is answered, up to the first that is too long.
    fn say_reports(&self, out: &mut Vec<u8>, answer: &Answer) -> Result<(), AllocError>
        requires terms { AreTerms self.now }
        ensures { OnOk result (out.new.items ≡ out.old.items
            ++ reported (talk_kept self.now) answer.now) }
    {
        match answer {
            Answer::Reports(reports) => self.reports(out, reports.as_slice()),
            _ => Ok(()),
        }
    }

    fn reports(&self, out: &mut Vec<u8>, reports: &[Report]) -> Result<(), AllocError>
        requires terms { AreTerms self.now }
        ensures { OnOk result (out.new.items ≡ out.old.items
            ++ reports_said self.now.stack.setup self.now.detail reports.now) }
    {
        for report in reports {
            if self.say_report(out, report)? {
                return Ok(());
            }
        }
        Ok(())
    }

    /// Appends a report, unless it is too long: whether it is.
    fn say_report(&self, out: &mut Vec<u8>, report: &Report) -> Result<bool, AllocError>
        requires terms { AreTerms self.now }
        ensures long { IfOk result (λ long.
            long ≡ is_too_long self.now.detail (pdu_of_report report.now)) }
        ensures said { OnOk result (out.new.items ≡ out.old.items
            ++ said_within self.now.stack.setup self.now.detail (pdu_of_report report.now)) }
    {
        let pdu = report_pdu(self.alloc, report)?;
        self.say_within(out, &pdu)
    }

    /// Appends a PDU, unless it is too long: whether it is.
    fn say_within(&self, out: &mut Vec<u8>, pdu: &MmsPdu) -> Result<bool, AllocError>
        requires terms { AreTerms self.now }
        requires writable { IsWritablePdu pdu.now }
        ensures long { IfOk result (λ long. long ≡ is_too_long self.now.detail pdu.now) }
        ensures said { OnOk result (out.new.items ≡ out.old.items
            ++ said_within self.now.stack.setup self.now.detail pdu.now) }
    {
        if is_too_long(self.detail(), pdu) {
            return Ok(true);
        }
        self.say_pdu(out, pdu)?;
        Ok(false)
    }

    fn detail(&self) -> i64
        requires terms { AreTerms self.now }
        ensures value { result ≡ self.now.detail }
        ensures few { result ≤ℤ MOST_DETAIL }
    {
        self.detail
    }

    /// Appends what answers the turn at the place of a close, and what follows it.
    fn say_close(&self, out: &mut Vec<u8>, turns: &[TurnKind]) -> Result<(), AllocError>
        requires terms { AreTerms self.now }
        ensures { OnOk result (out.new.items ≡ out.old.items
            ++ close_octets self.now.stack.setup (turns_of_kinds turns.now)) }
    {
        let [first, more @ ..] = turns else {
            return self.say_abort(out);
        };
        match first {
            TurnKind::Concludes => self.say_conclude(out, more),
            TurnKind::Releases => self.say_release(out),
            TurnKind::Aborts | TurnKind::Ends => Ok(()),
            _ => self.say_abort(out),
        }
    }

    /// Appends the response to conclude, and what is sent behind it.
    fn say_conclude(&self, out: &mut Vec<u8>, turns: &[TurnKind]) -> Result<(), AllocError>
        requires terms { AreTerms self.now }
        ensures { OnOk result (out.new.items ≡ out.old.items
            ++ (said self.now.stack.setup pdus.Concluded
            ++ concluded_octets self.now.stack.setup (turns_of_kinds turns.now))) }
    {
        self.say_pdu(out, &MmsPdu::Concluded)?;
        self.say_concluded(out, turns)
    }

    /// Appends what is sent behind the response to conclude.
    fn say_concluded(&self, out: &mut Vec<u8>, turns: &[TurnKind]) -> Result<(), AllocError>
        requires terms { AreTerms self.now }
        ensures { OnOk result (out.new.items ≡ out.old.items
            ++ concluded_octets self.now.stack.setup (turns_of_kinds turns.now)) }
    {
        let [first, ..] = turns else {
            return Ok(());
        };
        match first {
            TurnKind::Releases => self.say_release(out),
            TurnKind::Breaks => self.say_abort(out),
            _ => Ok(()),
        }
    }

    fn say_release(&self, out: &mut Vec<u8>) -> Result<(), AllocError>
        requires terms { AreTerms self.now }
        ensures { OnOk result (out.new.items ≡ out.old.items
            ++ release_wire self.now.stack.setup) }
    {
        let setup = self.stack.setup();
        write_release(self.alloc, out, setup.size, setup.acse)
    }

    fn say_abort(&self, out: &mut Vec<u8>) -> Result<(), AllocError>
        requires terms { AreTerms self.now }
        ensures { OnOk result (out.new.items ≡ out.old.items
            ++ abort_wire self.now.stack.setup) }
    {
        out.reserve(64)?;
        write_abort(out, self.stack.setup().acse);
        Ok(())
    }
}

/// Whether a PDU has more octets than that.
fn is_too_long(detail: i64, pdu: &MmsPdu) -> bool
    requires writable { IsWritablePdu pdu.now }
    ensures value { result ≡ is_too_long detail pdu.now }
    ensures few { result ≡ false → detail ≤ℤ MOST_DETAIL → pdu_len pdu.now ≤ 65000 }
{
    if pdu_len(pdu) as i64 > detail {
        true
    } else {
        false
    }
}

/// The turns that come behind an event: a request is the first of them.
fn turns_behind<'a>(event: &Event, turns: &'a [TurnKind]) -> &'a [TurnKind]
    ensures { turns_of_kinds result.now ≡ turns_behind_event event.now (turns_of_kinds turns.now) }
{
    match event.kind() {
        EventKind::Request { .. } => behind_first(turns),
        _ => turns,
    }
}

fn behind_first(turns: &[TurnKind]) -> &[TurnKind]
    ensures value { result.now ≡ drop 1 turns.now }
    ensures turns { turns_of_kinds result.now ≡ drop 1 (turns_of_kinds turns.now) }
{
    match turns {
        [_, more @ ..] => more,
        [] => turns,
    }
}
