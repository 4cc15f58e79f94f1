//! The calling end of an association, which asks an agenda.
ghost use Rattle.std.specs.Prelude.{◌≡◌, ◌≤◌, ◌<◌, ◌++◌, ℕ, List, Option, length, true, false};
ghost use Rattle.std.specs.Prelude.{IfOk, OnOk, OnErr, [], Some};
ghost use Rattle.plain_text.specs.Extends.{Extends};
ghost use Rattle.tpkt_cotp.specs.declared.limits.TheConstants.{PIECE_LIMIT};
ghost use Rattle.stack_assoc.specs.declared.input.StackState.TheVariants as states;
ghost use Rattle.stack_assoc.specs.Courses.{is_offered, IsCourseSettled, stack_state_of};
ghost use Rattle.stack_assoc.specs.Steps.{left_of};
ghost use Rattle.asking_end.specs.declared.end.AskEnd.TheVariants as ends;
ghost use Rattle.asking_end.specs.Agendas.{ShowsFirst, Becomes};
ghost use Rattle.asking_end.specs.Asking.{HasNumber, awaited_said, request_awaited};
ghost use Rattle.asking_end.specs.Hearings as heard;
ghost use Rattle.asking_end.specs.Sayings.{pdu_said};
ghost use Rattle.asking_end.specs.Askers.{AskerStep, asker_of};
ghost use Rattle.asking_end.specs.Callers as own;

use crate::agenda::Agenda;
use crate::asker::{AskMove, Asker, Awaiting};
use crate::end::AskEnd;
use ber_values::Oid;
use mms_services::MmsPdu;
use stack_assoc::{Stack, StackIn};
use std::alloc::{AllocError, Global};

/// The calling end of an association, and the agenda that it asks.
#[derive(Drop)]
pub struct CallingEnd<A, E> {
    pub(crate) stack: Stack,
    pub(crate) asker: Asker<A>,
    /// How it has ended, if it has.
    pub(crate) end: Option<AskEnd<E>>,
}

impl<A: Agenda> CallingEnd<A, A::End> {
    /// Calls, by this title, to ask this agenda.
    pub(crate) fn new(
        alloc: Global,
        title: Option<Oid>,
        agenda: A,
        out: &mut Vec<u8>,
    ) -> Result<CallingEnd<A, A::End>, AllocError>
        ensures ok { IfOk result (λ c. own.AskerStands A.acts title agenda [] c) }
        ensures out { OnOk result
            (out.new.items ≡ out.old.items ++ (asker_of A.acts title agenda []).said) }
        ensures err { OnErr result (out.new.items ≡ out.old.items) }
    {
        let stack = Stack::calling(alloc, title, out)?;
        Ok(CallingEnd {
            stack,
            asker: Asker::new(agenda),
            end: None,
        })
    }

    /// Takes the next octets. After want of memory it has ended.
    pub(crate) fn feed(&mut self, piece: &[u8]) -> Result<(), AllocError>
        requires small { length piece.now ≤ PIECE_LIMIT }
        requires settled { IsCourseSettled self.old.stack }
        requires answered { is_offered self.old.stack.standing ≡ false }
        ensures ok { (title : Option (List ℕ)) (agenda : A) (octets : List ℕ)
            (step : AskerStep A A.End A.Item)
            → own.Hears A.acts title agenda octets step self.old
            → OnOk result (own.Hears A.acts title agenda (octets ++ piece.now) step self.new) }
        ensures asker { self.new.asker ≡ self.old.asker }
        ensures err { OnErr result (self.new.end ≡ Some ends.Memory) }
    {
        match self.stack.feed(piece) {
            Ok(()) => Ok(()),
            Err(error) => {
                self.end = Some(AskEnd::Memory);
                Err(error)
            }
        }
    }

    /// Hears all that its octets tell and that it hasn't heard. After want of memory it has ended,
    /// and `out` and `shown` are as before.
    pub(crate) fn hear_all(
        &mut self,
        alloc: Global,
        out: &mut Vec<u8>,
        shown: &mut Vec<A::Item>,
    ) -> Result<(), AllocError>
        requires hearing { own.IsHearing A.acts self.old }
        ensures ok { (title : Option (List ℕ)) (agenda : A) (octets : List ℕ)
            (step : AskerStep A A.End A.Item)
            → own.Hears A.acts title agenda octets step self.old
            → OnOk result (own.HeardOn false A.acts title agenda octets step
            out.old.items out.new.items shown.old.items shown.new.items self.new) }
        ensures agenda { Becomes A.acts self.old.asker.agenda self.new.asker.agenda }
        ensures err { OnErr result (self.new.end ≡ Some ends.Memory) }
        ensures out { OnErr result (out.new.items ≡ out.old.items) }
        ensures shown { OnErr result (shown.new.items ≡ shown.old.items) }
    {
        let said = out.len();
        let lines = shown.len();
        match self.hear_on(alloc, out, shown) {
            Ok(()) => Ok(()),
            Err(error) => {
                out.truncate(said);
                shown.truncate(lines);
                self.end = Some(AskEnd::Memory);
                Err(error)
            }
        }
    }

    /// Hears one message after another.
    fn hear_on(
        &mut self,
        alloc: Global,
        out: &mut Vec<u8>,
        shown: &mut Vec<A::Item>,
    ) -> Result<(), AllocError>
        requires hearing { own.IsHearing A.acts self.old }
        ensures ok { (title : Option (List ℕ)) (agenda : A) (octets : List ℕ)
            (step : AskerStep A A.End A.Item)
            → own.Hears A.acts title agenda octets step self.old
            → OnOk result (own.HeardOn false A.acts title agenda octets step
            out.old.items out.new.items shown.old.items shown.new.items self.new) }
        ensures agenda { Becomes A.acts self.old.asker.agenda self.new.asker.agenda }
        ensures out { OnErr result (Extends out.old.items out.new.items) }
        ensures shown { OnErr result (ShowsFirst shown.old.items shown.new.items) }
    {
        while self.hear_next(alloc, out, shown)? {}
        Ok(())
    }

    /// Hears the next message, and answers whether there was one and it goes on.
    fn hear_next(
        &mut self,
        alloc: Global,
        out: &mut Vec<u8>,
        shown: &mut Vec<A::Item>,
    ) -> Result<bool, AllocError>
        requires hearing { own.IsHearing A.acts self.old }
        ensures ok { (title : Option (List ℕ)) (agenda : A) (octets : List ℕ)
            (step : AskerStep A A.End A.Item)
            → own.Hears A.acts title agenda octets step self.old
            → IfOk result (λ more. own.HeardOn more A.acts title agenda octets step
            out.old.items out.new.items shown.old.items shown.new.items self.new) }
        ensures agenda { Becomes A.acts self.old.asker.agenda self.new.asker.agenda }
        ensures shorter { IfOk result (λ more. more ≡ true
            → left_of self.new.stack < left_of self.old.stack) }
        ensures out { OnErr result (Extends out.old.items out.new.items) }
        ensures shown { OnErr result (ShowsFirst shown.old.items shown.new.items) }
    {
        match self.stack.next(out)? {
            Ok(Some(input)) => {
                let heeded = self.heed(alloc, input, shown)?;
                let more = self.move_on(alloc, heeded, out)?;
                Ok(more)
            }
            Ok(None) => Ok(false),
            Err(fault) => {
                self.end = Some(AskEnd::Refused(fault));
                Ok(false)
            }
        }
    }

    /// Hears what the stack hands out.
    fn heed(
        &mut self,
        alloc: Global,
        input: StackIn,
        shown: &mut Vec<A::Item>,
    ) -> Result<AskMove<A::End>, AllocError>
        requires { heard.IsLawfulInput input }
        ensures ok { OnOk result (self.new ≡ record self.old {
          asker = (heard.input_heeded A.acts input self.old.asker).0;
        }) }
        ensures next { IfOk result (λ next. next
            ≡ (heard.input_heeded A.acts input self.old.asker).1) }
        ensures shown { OnOk result
            (shown.new.items ≡ shown.old.items ++ heard.input_shown A.acts input self.old.asker) }
        ensures same { OnErr result (self.new ≡ self.old) }
        ensures cut { OnErr result (ShowsFirst shown.old.items shown.new.items) }
    {
        let next = self.asker.hear(alloc, &input, shown)?;
        Ok(next)
    }

    /// Does what comes of a message, and answers whether it goes on.
    fn move_on(
        &mut self,
        alloc: Global,
        next: AskMove<A::End>,
        out: &mut Vec<u8>,
    ) -> Result<bool, AllocError>
        requires { own.MayMove next self.old }
        ensures more { IfOk result (λ more. more ≡ own.goes_on next) }
        ensures ok { OnOk result (self.new ≡ own.moved_on A.acts next self.old) }
        ensures asker { self.new.asker ≡ self.old.asker }
        ensures out { OnOk result
            (out.new.items ≡ out.old.items ++ own.move_said A.acts next self.old) }
        ensures err { OnErr result (out.new.items ≡ out.old.items) }
    {
        match next {
            AskMove::Wait => Ok(true),
            AskMove::Say => {
                self.say(alloc, out)?;
                Ok(true)
            }
            AskMove::End(end) => {
                self.end = Some(end);
                Ok(false)
            }
        }
    }

    /// Says what is awaited an answer to from now on.
    fn say(&mut self, alloc: Global, out: &mut Vec<u8>) -> Result<(), AllocError>
        requires { own.MaySay self.old }
        ensures ok { OnOk result (self.new ≡ own.awaiting_answer A.acts self.old) }
        ensures asker { self.new.asker ≡ self.old.asker }
        ensures out { OnOk result (out.new.items ≡ out.old.items
            ++ awaited_said A.acts self.old.stack.setup self.old.asker.awaiting
            self.old.asker) }
        ensures err { OnErr result (out.new.items ≡ out.old.items) }
    {
        match self.asker.awaiting {
            Awaiting::Association => Ok(()),
            Awaiting::Nothing => Ok(()),
            Awaiting::Conclusion => {
                self.stack.say(&MmsPdu::Conclude, out)?;
                Ok(())
            }
            Awaiting::Release => {
                self.stack.release(out)?;
                Ok(())
            }
            Awaiting::Reply => {
                self.say_request(alloc, out)?;
                Ok(())
            }
        }
    }

    /// Says the request of the call that is asked.
    fn say_request(&mut self, alloc: Global, out: &mut Vec<u8>) -> Result<(), AllocError>
        requires number { HasNumber self.old.asker }
        requires accepted { stack_state_of self.old.stack ≡ states.Accepted }
        ensures asker { self.new.asker ≡ self.old.asker }
        ensures ok { OnOk result (self.new ≡ record self.old {
          stack = own.course_saying (request_awaited A.acts self.old.asker)
              self.old.stack;
        }) }
        ensures out { OnOk result (out.new.items ≡ out.old.items
            ++ pdu_said self.old.stack.setup
            (request_awaited A.acts self.old.asker)) }
        ensures err { OnErr result (out.new.items ≡ out.old.items) }
    {
        match self.asker.request(alloc)? {
            Some(pdu) => {
                self.stack.say(&pdu, out)?;
                Ok(())
            }
            None => Ok(()),
        }
    }
}
