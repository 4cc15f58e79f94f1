//! What the calling end hears, as what it comes to for an agenda that is asked.
ghost use Rattle.std.specs.Prelude.{◌≡◌, ◌++◌, Some, IfOk, OnOk, OnErr};
ghost use Rattle.mms_services.specs.Lawful.{IsLawfulPdu};
ghost use Rattle.stack_assoc.specs.declared.messages.fault.Layer.TheVariants as layers;
ghost use Rattle.stack_assoc.specs.Arrivals.{is_concluded_pdu};
ghost use Rattle.tase_conn.specs.Map.Replied as maps;
ghost use Rattle.asking_end.specs.Agendas.{ShowsFirst};
ghost use Rattle.asking_end.specs.Asking as own;
ghost use Rattle.asking_end.specs.Hearings as heard;

use crate::agenda::Agenda;
use crate::asker::{AskMove, Asker, Awaiting};
use crate::end::AskEnd;
use ber_values::Why;
use mms_services::MmsPdu;
use stack_assoc::StackIn;
use stack_assoc::messages::{Layer, StackFault};
use std::alloc::{AllocError, Global};
use tase_conn::map::{reply_of, report_of};
use tase_views::{Reply, Report};

impl<A: Agenda> Asker<A> {
    /// Hears what the stack hands out, and appends what is shown of it: of a reply that is awaited,
    /// of a report. After want of memory what was shown before stands in front.
    pub(crate) fn hear(
        &mut self,
        alloc: Global,
        input: &StackIn,
        shown: &mut Vec<A::Item>,
    ) -> Result<AskMove<A::End>, AllocError>
        requires { heard.IsLawfulInput input.now }
        ensures asker { OnOk result
            (self.new ≡ (heard.input_heeded A.acts input.now self.old).0) }
        ensures next { IfOk result (λ next. next
            ≡ (heard.input_heeded A.acts input.now self.old).1) }
        ensures shown { OnOk result
            (shown.new.items ≡ shown.old.items ++ heard.input_shown A.acts input.now self.old) }
        ensures same { OnErr result (self.new ≡ self.old) }
        ensures cut { OnErr result (ShowsFirst shown.old.items shown.new.items) }
    {
        match input {
            StackIn::Offer { .. } => Ok(refused_at(Layer::Session)),
            StackIn::BadOffer => Ok(refused_at(Layer::Session)),
            StackIn::Accepted(_) => Ok(self.hear_accept()),
            StackIn::Pdu(pdu) => self.hear_pdu(alloc, pdu, shown),
            StackIn::BadRequest { .. } => Ok(refused_at(Layer::Mms)),
            StackIn::Released => Ok(AskMove::End(self.released())),
            StackIn::Aborted => Ok(AskMove::End(AskEnd::PeerEnd)),
            StackIn::Refused => Ok(AskMove::End(AskEnd::Rejected)),
        }
    }

    /// Hears that the association stands.
    fn hear_accept(&mut self) -> AskMove<A::End>
        ensures asker { self.new
            ≡ (heard.accept_heeded A.acts self.old.awaiting self.old).0 }
        ensures next { result ≡ (heard.accept_heeded A.acts self.old.awaiting self.old).1 }
    {
        match self.awaiting {
            Awaiting::Association => self.begin(),
            Awaiting::Reply => refused_at(Layer::Session),
            Awaiting::Nothing => refused_at(Layer::Session),
            Awaiting::Conclusion => refused_at(Layer::Session),
            Awaiting::Release => refused_at(Layer::Session),
        }
    }

    /// Hears a PDU.
    fn hear_pdu(
        &mut self,
        alloc: Global,
        pdu: &MmsPdu,
        shown: &mut Vec<A::Item>,
    ) -> Result<AskMove<A::End>, AllocError>
        requires { IsLawfulPdu pdu.now }
        ensures asker { OnOk result (self.new
            ≡ (heard.replied_heeded A.acts pdu.now (maps.reply_in pdu.now) self.old).0) }
        ensures next { IfOk result (λ next. next
            ≡ (heard.replied_heeded A.acts pdu.now (maps.reply_in pdu.now) self.old).1) }
        ensures shown { OnOk result (shown.new.items ≡ shown.old.items
            ++ heard.pdu_shown A.acts pdu.now (maps.reply_in pdu.now) self.old) }
        ensures same { OnErr result (self.new ≡ self.old) }
        ensures cut { OnErr result (ShowsFirst shown.old.items shown.new.items) }
    {
        match reply_of(alloc, pdu)? {
            Some(reply) => self.hear_answer(alloc, answered_number(pdu), &reply, shown),
            None => self.hear_unreplied(alloc, pdu, shown),
        }
    }

    /// Hears a reply, which its agenda hears where it is the one that is awaited.
    fn hear_answer(
        &mut self,
        alloc: Global,
        number: Option<u32>,
        reply: &Reply,
        shown: &mut Vec<A::Item>,
    ) -> Result<AskMove<A::End>, AllocError>
        ensures asker { OnOk result
            (self.new ≡ (own.reply_heeded A.acts number reply.now self.old).0) }
        ensures next { IfOk result (λ next. next
            ≡ (own.reply_heeded A.acts number reply.now self.old).1) }
        ensures shown { OnOk result (shown.new.items ≡ shown.old.items
            ++ heard.reply_shown A.acts number reply.now self.old) }
        ensures same { OnErr result (self.new ≡ self.old) }
        ensures cut { OnErr result (ShowsFirst shown.old.items shown.new.items) }
    {
        if self.awaits(number) {
            self.take_reply(alloc, reply, shown)
        } else {
            Ok(not_awaited(number))
        }
    }

    /// Hears the reply that is awaited.
    fn take_reply(
        &mut self,
        alloc: Global,
        reply: &Reply,
        shown: &mut Vec<A::Item>,
    ) -> Result<AskMove<A::End>, AllocError>
        ensures asker { OnOk result (self.new ≡ (own.answered A.acts reply.now self.old).0) }
        ensures next { IfOk result (λ next. next
            ≡ (own.answered A.acts reply.now self.old).1) }
        ensures shown { OnOk result (shown.new.items ≡ shown.old.items
            ++ A.acts.reply_shown self.old.last reply.now self.old.agenda) }
        ensures same { OnErr result (self.new ≡ self.old) }
        ensures cut { OnErr result (ShowsFirst shown.old.items shown.new.items) }
    {
        let next = self.agenda.hear_reply(alloc, self.last, reply, shown)?;
        Ok(self.go_on(next))
    }

    /// Hears a PDU that is no reply.
    fn hear_unreplied(
        &mut self,
        alloc: Global,
        pdu: &MmsPdu,
        shown: &mut Vec<A::Item>,
    ) -> Result<AskMove<A::End>, AllocError>
        requires { IsLawfulPdu pdu.now }
        ensures asker { OnOk result (self.new
            ≡ (heard.unreplied_heeded A.acts pdu.now (maps.report_in pdu.now) self.old).0) }
        ensures next { IfOk result (λ next. next
            ≡ (heard.unreplied_heeded A.acts pdu.now (maps.report_in pdu.now) self.old).1) }
        ensures shown { OnOk result (shown.new.items ≡ shown.old.items
            ++ heard.report_shown A.acts (maps.report_in pdu.now) self.old) }
        ensures same { OnErr result (self.new ≡ self.old) }
        ensures cut { OnErr result (ShowsFirst shown.old.items shown.new.items) }
    {
        match report_of(alloc, pdu)? {
            Some(report) => self.hear_told(alloc, &report, shown),
            None => Ok(self.hear_service(pdu)),
        }
    }

    /// Hears a report, of which something may be shown.
    fn hear_told(
        &mut self,
        alloc: Global,
        report: &Report,
        shown: &mut Vec<A::Item>,
    ) -> Result<AskMove<A::End>, AllocError>
        ensures asker { OnOk result
            (self.new ≡ (own.report_heeded A.acts report.now self.old).0) }
        ensures next { IfOk result (λ next. next
            ≡ (own.report_heeded A.acts report.now self.old).1) }
        ensures shown { OnOk result (shown.new.items
            ≡ shown.old.items ++ A.acts.report_shown report.now self.old.agenda) }
        ensures same { OnErr result (self.new ≡ self.old) }
        ensures cut { OnErr result (ShowsFirst shown.old.items shown.new.items) }
    {
        self.agenda.show_report(alloc, report, shown)?;
        Ok(self.hear_report(report))
    }

    /// Hears a PDU that is no reply and no report.
    fn hear_service(&mut self, pdu: &MmsPdu) -> AskMove<A::End>
        ensures asker { self.new ≡ (heard.service_heeded A.acts pdu.now self.old).0 }
        ensures next { result ≡ (heard.service_heeded A.acts pdu.now self.old).1 }
    {
        if is_concluded(pdu) {
            self.hear_concluded()
        } else {
            refused_at(Layer::Mms)
        }
    }
}

/// What comes of a reply that isn't awaited.
fn not_awaited<E>(number: Option<u32>) -> AskMove<E>
    ensures { result ≡ own.move_unawaited number }
{
    match number {
        Some(invoke) => AskMove::End(AskEnd::Stray { invoke }),
        None => AskMove::Wait,
    }
}

/// What isn't one of the answers that may come is refused, as out of order in its layer.
fn refused_at<E>(layer: Layer) -> AskMove<E>
    ensures { result ≡ heard.refusal_at layer }
{
    AskMove::End(AskEnd::Refused(StackFault {
        layer,
        place: 0,
        why: Why::Order,
    }))
}

/// Whether a PDU answers a conclude.
fn is_concluded(pdu: &MmsPdu) -> bool
    ensures { result ≡ is_concluded_pdu (Some pdu.now) }
{
    matches!(pdu, MmsPdu::Concluded)
}

/// The number of the request that a PDU answers, where it tells one.
fn answered_number(pdu: &MmsPdu) -> Option<u32>
    ensures { result ≡ maps.answered_number pdu.now }
{
    match pdu {
        MmsPdu::Response { invoke, .. } => Some(*invoke),
        MmsPdu::Error(error) => Some(error.invoke),
        MmsPdu::Reject(reject) => reject.invoke,
        MmsPdu::Request { .. }
        | MmsPdu::Report(_)
        | MmsPdu::Initiate(_)
        | MmsPdu::Initiated(_)
        | MmsPdu::InitiateError
        | MmsPdu::Conclude
        | MmsPdu::Concluded => None,
    }
}
