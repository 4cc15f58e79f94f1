//! An end of an association over a stream that comes in any pieces: octets in, messages out.
ghost use Rattle.std.specs.Prelude.{◌≡◌, ℕ, ◌+◌, ◌-◌, ◌≤◌, ◌<◌, List, [], ◌++◌, length, None, Some};
ghost use Rattle.std.specs.Prelude.{IfOk, OnOk, OnErr, OnSome, Ok, Err, false, option_map};
ghost use Rattle.stack_assoc.specs.declared.messages.fault.StackFault.{StackFault};
ghost use Rattle.tpkt_cotp.specs.declared.limits.TheConstants.{PIECE_LIMIT};
ghost use Rattle.tpkt_cotp.specs.declared.limits.TheConstants.{TPKT_LIMIT, TSDU_LIMIT};
ghost use Rattle.tpkt_cotp.specs.Written.{connection_request_octets};
ghost use Rattle.stack_assoc.specs.Wire.Setups.{IsSetup};
ghost use Rattle.stack_assoc.specs.declared.input.StackState.TheVariants as states;
ghost use Rattle.stack_assoc.specs.Arrivals.{Arrival, Role, called, calling};
ghost use Rattle.stack_assoc.specs.Expectations.{setup_by};
ghost use Rattle.stack_assoc.specs.Courses.{CourseStands, IsCourseSettled, is_offered};
ghost use Rattle.stack_assoc.specs.Courses.{IsNextAnswer, stack_state_of};
ghost use Rattle.stack_assoc.specs.Courses.{FollowsAnswer, fault_in, message_octets_in, count_held};
ghost use Rattle.stack_assoc.specs.Taking.{following_seen};
ghost use Rattle.stack_assoc.specs.Steps.{IsNew, left_of};

use crate::end_state::EndState;
use crate::input::{StackIn, StackState};
use crate::messages::{Side, StackFault};
use crate::milestones::Milestones;
use crate::taken::{Following, Opening};
use crate::wire::AssociationSetup;
use ber_values::Oid;
use presentation_profile::Results;
use std::alloc::{AllocError, Global};
use std::marker::Model;
use tpkt_cotp::{Transport, write_cr};

/// An end of an association. Of its stream it holds at most one TSDU, one TPKT and one piece.
#[derive(Drop)]
pub struct Stack {
    pub(crate) alloc: Global,
    pub(crate) title: Option<Oid>,
    pub(crate) transport: Transport,
    /// A connect request or confirm whose answer isn't out yet, and the message behind it.
    pub(crate) owed: Option<Opening>,
    pub(crate) held: Option<Following>,
    pub(crate) known: Milestones,
    pub(crate) setup: AssociationSetup,
    pub(crate) standing: EndState,
    pub(crate) fault: Option<StackFault>,
}

impl Model for Stack {
    ghost use Rattle.std.specs.Prelude.{◌≤◌, option_map};
    ghost use Rattle.stack_assoc.specs.Wire.Setups.{IsSetup};
    ghost use Rattle.stack_assoc.specs.Taking.{following_seen};
    ghost use Rattle.stack_assoc.specs.Courses.{Course, IsAlone};

    ghost Value = { Course };

    ghost view = { λ s. record {
      title = s.title;
      line = s.transport;
      owed = s.owed;
      held = option_map following_seen s.held;
      known = s.known;
      setup = s.setup;
      standing = s.standing;
      fault = s.fault;
    } };

    ghost invariant = { λ s. IsSetup s.setup × (s.setup.acse ≤ 65535)
        × IsAlone (option_map following_seen s.held) s.transport };
}

/// What nothing has fixed yet.
fn first_setup(alloc: Global) -> AssociationSetup
    ensures { result ≡ setup_by 1024 None }
{
    AssociationSetup {
        size: 1024,
        session: None,
        presentation: None,
        results: Results::new(alloc),
        acse: 1,
        mms: 3,
    }
}

impl Stack {
    fn new(alloc: Global, end: tpkt_cotp::Role, side: Side, title: Option<Oid>) -> Stack
        ensures { IsNew side end title result }
    {
        Stack {
            alloc,
            title,
            transport: Transport::new(alloc, end),
            owed: None,
            held: None,
            known: Milestones::new(side),
            setup: first_setup(alloc),
            standing: EndState::Waiting,
            fault: None,
        }
    }

    /// The called end, at the start of a stream.
    pub fn called(alloc: Global) -> Result<Stack, AllocError>
        ensures { IfOk result (λ stack. CourseStands called [] [] stack × IsCourseSettled stack
            × (stack_state_of stack ≡ states.Waiting) × (is_offered stack.standing ≡ false)) }
    {
        Ok(Stack::new(alloc, tpkt_cotp::Role::Called, Side::Called, None))
    }

    /// The calling end, at the start of a stream, with its title, if it has one. It appends its
    /// connect request. After want of memory `out` is as before.
    pub fn calling(
        alloc: Global,
        title: Option<Oid>,
        out: &mut Vec<u8>,
    ) -> Result<Stack, AllocError>
        ensures ok { IfOk result (λ stack. CourseStands (calling title None) [] [] stack
            × IsCourseSettled stack × (stack_state_of stack ≡ states.Waiting)
            × (is_offered stack.standing ≡ false)) }
        ensures out { OnOk result (out.new.items ≡ out.old.items ++ connection_request_octets 1) }
        ensures err { OnErr result (out.new.items ≡ out.old.items) }
    {
        write_cr(out, 1)?;
        Ok(Stack::new(alloc, tpkt_cotp::Role::Calling, Side::Calling, title))
    }

    /// What its connect has fixed.
    pub fn setup(&self) -> &AssociationSetup
        ensures value { result.now ≡ self.now.setup }
        ensures sized { IsSetup self.now.setup }
        ensures named { self.now.setup.acse ≤ 65535 }
    {
        &self.setup
    }

    /// How far the association has come.
    pub fn state(&self) -> StackState
        ensures { result ≡ stack_state_of self.now }
    {
        match self.fault {
            None => self.standing.state(),
            Some(_) => StackState::Ended,
        }
    }

    /// Takes the next piece of the stream, at most 65,536 octets, once `next` has answered that no
    /// whole message is left, or a fault, and no offer stands unanswered. After a fault the octets
    /// are dropped. After want of memory the stack is as before.
    pub fn feed(&mut self, piece: &[u8]) -> Result<(), AllocError>
        requires small { length piece.now ≤ PIECE_LIMIT }
        requires settled { IsCourseSettled self.old }
        requires answered { is_offered self.old.standing ≡ false }
        // The stream goes on by the piece.
        ensures ok { (role : Role) (octets : List ℕ) (told : List Arrival)
            → CourseStands role octets told self.old
            → OnOk result (CourseStands role (octets ++ piece.now) told self.new) }
        // Behind a fault the octets are dropped.
        ensures dropped { (fault : StackFault) → self.old.fault ≡ Some fault
            → OnOk result (self.new ≡ self.old) }
        ensures state { OnOk result (stack_state_of self.new ≡ stack_state_of self.old) }
        ensures standing { OnOk result (self.new.standing ≡ self.old.standing) }
        ensures err { OnErr result (self.new ≡ self.old) }
    {
        if self.fault.is_none() {
            self.transport.feed(piece)?;
        }
        Ok(())
    }

    /// The next message of the stream so far that is handed out; none where no whole one is left,
    /// or an offer stands unanswered; or the first rule that the stream breaks, once the messages
    /// before it were handed out, and then again and again. It appends the answer to a connect
    /// request or confirm of the transport. After want of memory `out` is as before, and the stack
    /// stands where it stood.
    pub fn next(
        &mut self,
        out: &mut Vec<u8>,
    ) -> Result<Result<Option<StackIn>, StackFault>, AllocError>
        ensures ok { (role : Role) (octets : List ℕ) (told : List Arrival)
            → CourseStands role octets told self.old
            → IfOk result (λ answer. IsNextAnswer role octets told self.old out.old.items answer
            self.new out.new.items) }
        ensures shorter { IfOk result (λ answer. IfOk answer (λ input. OnSome input
            (left_of self.new < left_of self.old))) }
        ensures standing { IfOk result (λ answer. FollowsAnswer answer self.old.standing
            self.new.standing) }
        // The fault is kept: more may be fed, and the same fault is the answer again.
        ensures broken { IfOk result (λ answer. self.new.fault ≡ fault_in answer) }
        ensures again { (fault : StackFault) → self.old.fault ≡ Some fault
            → result ≡ Ok (Err fault) }
        ensures kept { (role : Role) (octets : List ℕ) (told : List Arrival)
            → CourseStands role octets told self.old
            → OnErr result (CourseStands role octets told self.new) }
        ensures state { OnErr result (stack_state_of self.new ≡ stack_state_of self.old) }
        ensures stays { OnErr result (self.new.standing ≡ self.old.standing) }
        ensures out { OnErr result (out.new.items ≡ out.old.items) }
    {
        if let Some(fault) = self.fault {
            return Ok(Err(fault));
        }
        if self.standing.is_offered() {
            return Ok(Ok(None));
        }
        let came = self.take()?;
        let said = self.read()?;
        let done = self.answer(out);
        self.tell_once(done, came, said)
    }

    /// The octets of the stream that it holds: those of a whole TSDU that isn't told yet, and what
    /// its transport holds, which has no part of another TSDU beside a whole one. What connects
    /// carry isn't counted: at most four selectors of 32 octets each, and sixteen results.
    pub fn held(&self) -> usize
        ensures count { result ≡ count_held self.now }
        ensures few { result ≤ TSDU_LIMIT + (TPKT_LIMIT - 1) + PIECE_LIMIT }
    {
        held_octets(&self.held) + self.transport.held()
    }
}

/// The octets of a TSDU, where one is held.
fn held_octets(held: &Option<Following>) -> usize
    ensures { result ≡ length (message_octets_in (option_map following_seen held.now)) }
{
    match held {
        None | Some(Following::Gone) => 0,
        Some(Following::Tsdu { octets, .. }) => octets.as_slice().len(),
    }
}
