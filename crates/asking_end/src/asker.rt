//! How an agenda is asked, apart from octets: by which numbers, and what is awaited.
ghost use Rattle.std.specs.Prelude.{◌≡◌, ◌≤◌, IfOk, IfSome};
ghost use Rattle.asking_end.specs.Asking as own;
ghost use Rattle.asking_end.specs.Sayings.{request_pdu, IsSayable, IsAskable};

use crate::agenda::Agenda;
use crate::end::AskEnd;
use crate::limits::LAST_INVOKE;
use crate::next::Next;
use mms_services::MmsPdu;
use std::alloc::{AllocError, Global};
use tase_conn::map::request_of;
use tase_views::{Call, Report};

/// What a calling end waits for.
#[derive(Clone, Copy, Debug, PartialEq, Eq)]
pub enum Awaiting {
    /// That the association stands.
    Association,
    /// The reply to a call.
    Reply,
    /// Nothing that was asked: reports may come.
    Nothing,
    /// The answer to its conclude.
    Conclusion,
    /// The answer to its finish.
    Release,
}

/// What a calling end does when it has heard something.
#[derive(Clone, Copy, Debug, PartialEq, Eq)]
pub enum AskMove<E> {
    /// It waits on.
    Wait,
    /// It says what it now awaits an answer to.
    Say,
    /// It ends.
    End(AskEnd<E>),
}

/// An agenda that is asked.
#[derive(Drop)]
pub struct Asker<A> {
    pub(crate) agenda: A,
    /// The number of the last request that was said, 0 before the first.
    pub(crate) last: u32,
    pub(crate) awaiting: Awaiting,
}

impl<A: Agenda> Asker<A> {
    /// An agenda before the association stands.
    pub(crate) fn new(agenda: A) -> Asker<A>
        ensures { result ≡ own.at_call agenda }
    {
        Asker {
            agenda,
            last: 0,
            awaiting: Awaiting::Association,
        }
    }

    /// The number of the request whose reply is awaited.
    pub(crate) fn number(&self) -> Option<u32>
        ensures { result ≡ own.number_awaited self.now }
    {
        if is_reply(self.awaiting) {
            Some(self.last)
        } else {
            None
        }
    }

    /// Whether a reply to the request with this number, or to none that it tells, is awaited.
    pub(crate) fn awaits(&self, number: Option<u32>) -> bool
        ensures { result ≡ own.is_awaited (own.number_awaited self.now) number }
    {
        match (self.number(), number) {
            (None, _) => false,
            (Some(_), None) => true,
            (Some(awaited), Some(number)) => awaited == number,
        }
    }

    /// The request of the call that is asked.
    pub(crate) fn request(&self, alloc: Global) -> Result<Option<MmsPdu>, AllocError>
        requires { own.HasNumber self.now }
        ensures value { IfOk result (λ pdu. pdu ≡ own.request_awaited A.acts self.now) }
        ensures sayable { IfOk result (λ pdu. IfSome pdu IsSayable) }
    {
        match self.agenda.call(alloc)? {
            Some(call) => Ok(Some(request_pdu(alloc, self.last, &call)?)),
            None => Ok(None),
        }
    }

    /// The association stands, and the agenda begins.
    pub(crate) fn begin(&mut self) -> AskMove<A::End>
        ensures asker { self.new ≡ (own.begun A.acts self.old).0 }
        ensures next { result ≡ (own.begun A.acts self.old).1 }
    {
        let next = self.agenda.begin();
        self.go_on(next)
    }

    /// Hears a report.
    pub(crate) fn hear_report(&mut self, report: &Report) -> AskMove<A::End>
        ensures asker { self.new ≡ (own.report_heeded A.acts report.now self.old).0 }
        ensures next { result ≡ (own.report_heeded A.acts report.now self.old).1 }
    {
        match self.awaiting {
            Awaiting::Nothing => {
                let next = self.agenda.hear_report(report);
                self.go_on(next)
            }
            _ => AskMove::Wait,
        }
    }

    /// Does what its agenda wants next.
    pub(crate) fn go_on(&mut self, next: Next<A::End>) -> AskMove<A::End>
        ensures asker { self.new ≡ (own.went_on self.old.agenda next self.old).0 }
        ensures next { result ≡ (own.went_on self.old.agenda next self.old).1 }
    {
        match next {
            Next::Wait => {
                self.turn_to(Awaiting::Nothing);
                AskMove::Wait
            }
            Next::Ask => {
                self.turn_to(Awaiting::Reply);
                AskMove::Say
            }
            Next::Conclude => {
                self.turn_to(Awaiting::Conclusion);
                AskMove::Say
            }
            Next::End(end) => AskMove::End(AskEnd::ByAgenda(end)),
        }
    }

    /// Waits for this from now on; for a reply a further request is said.
    fn turn_to(&mut self, awaiting: Awaiting)
        ensures { self.new ≡ own.turned_to awaiting self.old }
    {
        if is_reply(awaiting) {
            self.last = next_request(self.last);
        }
        self.awaiting = awaiting;
    }

    /// Hears that its conclude is answered: the release is to be asked for.
    pub(crate) fn hear_concluded(&mut self) -> AskMove<A::End>
        ensures asker { self.new ≡ (own.concluded_for A.acts self.old.awaiting self.old).0 }
        ensures next { result ≡ (own.concluded_for A.acts self.old.awaiting self.old).1 }
    {
        match self.awaiting {
            Awaiting::Conclusion => {
                self.awaiting = Awaiting::Release;
                AskMove::Say
            }
            _ => AskMove::Wait,
        }
    }

    /// How it ends where its peer has released the association.
    pub(crate) fn released(&self) -> AskEnd<A::End>
        ensures { result ≡ own.released self.now.awaiting }
    {
        match self.awaiting {
            Awaiting::Release => AskEnd::Finished,
            _ => AskEnd::PeerEnd,
        }
    }
}

/// The request of a call, with this number.
fn request_pdu(alloc: Global, number: u32, call: &Call) -> Result<MmsPdu, AllocError>
    requires askable { IsAskable call.now }
    requires number { number ≤ LAST_INVOKE }
    ensures exact { IfOk result (λ pdu. pdu ≡ request_pdu number call.now) }
    ensures sayable { IfOk result IsSayable }
{
    let request = request_of(alloc, call)?;
    Ok(MmsPdu::Request {
        invoke: number,
        request,
    })
}

/// Whether a reply is awaited.
fn is_reply(awaiting: Awaiting) -> bool
    ensures { result ≡ own.is_reply_awaited awaiting }
{
    matches!(awaiting, Awaiting::Reply)
}

/// The number of the request behind the one with this number.
fn next_request(number: u32) -> u32
    ensures { result ≡ own.request_behind number }
{
    if number < LAST_INVOKE { number + 1 } else { 1 }
}
