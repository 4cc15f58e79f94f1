//! What an end says.
ghost use Rattle.std.specs.Prelude.{◌≡◌, ◌+◌, ◌≤◌, ◌++◌, true, OnOk, OnErr, vec_len, vec_capacity};
ghost use Rattle.tpkt_cotp.specs.Written.{wire};
ghost use Rattle.mms_services.specs.Initiates.{IsFullInitiate};
ghost use Rattle.mms_services.specs.PduOctets.{pdu_len, IsWritablePdu};
ghost use Rattle.stack_assoc.specs.Wire.Tsdus.{accept_tsdu, refusal_tsdu, data_tsdu, abort_tsdu};
ghost use Rattle.stack_assoc.specs.declared.input.StackState.TheVariants as states;
ghost use Rattle.stack_assoc.specs.declared.end_state.EndState.TheVariants as standings;
ghost use Rattle.stack_assoc.specs.Courses.{is_offered, is_accepted, stack_state_of};
ghost use Rattle.stack_assoc.specs.Saying.{with_standing, with_said, may_release};
ghost use Rattle.stack_assoc.specs.Saying.{course_released, release_said};

use crate::end_state::EndState;
use crate::messages::Side;
use crate::stack::Stack;
use crate::wire::{
    write_abort, write_accept, write_data, write_finish, write_refusal, write_release,
};
use mms_services::{Initiate, MmsPdu};
use std::alloc::AllocError;

impl Stack {
    /// Accepts the offer that stands unanswered, with these parameters. After want of memory the
    /// stack and `out` are as before.
    pub fn accept(&mut self, answer: &Initiate, out: &mut Vec<u8>) -> Result<(), AllocError>
        requires offered { self.old.standing ≡ standings.Offered }
        requires full { IsFullInitiate answer.now }
        ensures ok { OnOk result (self.new ≡ with_standing standings.Accepted self.old) }
        ensures out { OnOk result (out.new.items ≡ out.old.items
            ++ wire self.old.setup.size (accept_tsdu self.old.setup answer.now)) }
        ensures err { OnErr result (self.new ≡ self.old) }
        ensures same { OnErr result (out.new.items ≡ out.old.items) }
    {
        write_accept(self.alloc, out, &self.setup, answer)?;
        self.standing = EndState::Accepted;
        Ok(())
    }

    /// Refuses the offer that stands unanswered. After want of memory the stack and `out` are as
    /// before.
    pub fn refuse(&mut self, out: &mut Vec<u8>) -> Result<(), AllocError>
        requires { is_offered self.old.standing ≡ true }
        ensures ok { OnOk result (self.new ≡ with_standing standings.Closed self.old) }
        ensures out { OnOk result (out.new.items ≡ out.old.items
            ++ wire self.old.setup.size (refusal_tsdu self.old.setup.acse)) }
        ensures err { OnErr result (self.new ≡ self.old) }
        ensures same { OnErr result (out.new.items ≡ out.old.items) }
    {
        write_refusal(self.alloc, out, self.setup.size, self.setup.acse)?;
        self.standing = EndState::Closed;
        Ok(())
    }

    /// Says a PDU over the association. After conclude of the calling end its response is awaited.
    /// After want of memory the stack and `out` are as before.
    pub fn say(&mut self, pdu: &MmsPdu, out: &mut Vec<u8>) -> Result<(), AllocError>
        requires accepted { stack_state_of self.old ≡ states.Accepted }
        requires writable { IsWritablePdu pdu.now }
        requires few { pdu_len pdu.now ≤ 65000 }
        ensures ok { OnOk result (self.new ≡ with_said pdu.now self.old) }
        ensures out { OnOk result (out.new.items ≡ out.old.items
            ++ wire self.old.setup.size (data_tsdu self.old.setup.mms pdu.now)) }
        ensures err { OnErr result (self.new ≡ self.old) }
        ensures same { OnErr result (out.new.items ≡ out.old.items) }
    {
        write_data(self.alloc, out, self.setup.size, self.setup.mms, pdu)?;
        self.note_said(pdu);
        Ok(())
    }

    fn note_said(&mut self, pdu: &MmsPdu)
        ensures { self.new ≡ with_said pdu.now self.old }
    {
        match (self.known.side, pdu) {
            (Side::Calling, MmsPdu::Conclude) => self.known.said = true,
            _ => {}
        }
    }

    /// Whether `release` may be called.
    pub fn may_release(&self) -> bool
        ensures { result ≡ may_release self.now }
    {
        match (self.known.side, self.standing, self.fault) {
            (Side::Called, EndState::Finishing, None) => true,
            (Side::Calling, EndState::Accepted, None) => true,
            _ => false,
        }
    }

    /// Whether the association stands, so that it may be aborted, also after a fault of the stream.
    pub fn may_abort(&self) -> bool
        ensures { result ≡ is_accepted self.now.standing }
    {
        match self.standing {
            EndState::Accepted | EndState::Finishing => true,
            _ => false,
        }
    }

    /// Asks for the release, at the calling end, or answers that it is done, at the called end that
    /// has read that it is asked for. After want of memory the stack and `out` are as before.
    pub fn release(&mut self, out: &mut Vec<u8>) -> Result<(), AllocError>
        requires { may_release self.old ≡ true }
        ensures ok { OnOk result (self.new ≡ course_released self.old) }
        ensures out { OnOk result (out.new.items ≡ out.old.items
            ++ wire self.old.setup.size (release_said self.old)) }
        ensures err { OnErr result (self.new ≡ self.old) }
        ensures same { OnErr result (out.new.items ≡ out.old.items) }
    {
        match self.known.side {
            Side::Called => {
                write_release(self.alloc, out, self.setup.size, self.setup.acse)?;
                self.standing = EndState::Closed;
                Ok(())
            }
            _ => write_finish(self.alloc, out, self.setup.size, self.setup.acse),
        }
    }

    /// Ends the association at once, also after the stream has broken a rule. It takes no memory,
    /// given room for 64 octets.
    pub fn abort(&mut self, out: &mut Vec<u8>)
        requires accepted { is_accepted self.old.standing ≡ true }
        requires room { vec_len out.old + 64 ≤ vec_capacity out.old }
        ensures course { self.new ≡ with_standing standings.Closed self.old }
        ensures out { out.new.items ≡ out.old.items
            ++ wire self.old.setup.size (abort_tsdu self.old.setup.acse) }
    {
        write_abort(out, self.setup.acse);
        self.standing = EndState::Closed;
    }
}
