//! What an end makes of a message that was read.
ghost use Rattle.std.specs.Prelude.{◌≡◌, Some, Ok, OnOk, OnErr, IsErr};
ghost use Rattle.stack_assoc.specs.Knowing.{fixed_by};
ghost use Rattle.stack_assoc.specs.declared.messages.heard.Heard.TheVariants as heards;
ghost use Rattle.stack_assoc.specs.Handing.{input_heard};
ghost use Rattle.stack_assoc.specs.Taking.{results_heard};
ghost use Rattle.stack_assoc.specs.Steps.{IsModest, IsTellable, told_heard, told_with, told_answer};
ghost use Rattle.stack_assoc.specs.Steps.{left_with, left_answer};

use crate::end_state::EndState;
use crate::input::StackIn;
use crate::messages::{Connecting, Heard, StackFault};
use crate::offer::is_offer;
use crate::stack::Stack;
use crate::taken::{Came, Said};
use crate::wire::{OWN_ACSE, OWN_MMS};
use presentation_profile::{Results, acse_id, mms_id};
use std::alloc::AllocError;

impl Stack {
    /// Tells what was read, where the answer that was owed is out.
    pub(crate) fn tell_once(
        &mut self,
        done: Result<(), AllocError>,
        came: Came,
        said: Said,
    ) -> Result<Result<Option<StackIn>, StackFault>, AllocError>
        requires { IsTellable said }
        ensures course { OnOk done (self.new ≡ told_with came said self.old) }
        ensures answer { OnOk done (result ≡ Ok (told_answer came said)) }
        ensures same { OnErr done (self.new ≡ self.old) }
        ensures memory { OnErr done (IsErr result) }
    {
        match done {
            Ok(()) => Ok(self.tell(came, said)),
            Err(error) => Err(error),
        }
    }

    /// Tells a message that was read, or that there is none.
    pub(crate) fn tell(&mut self, came: Came, said: Said) -> Result<Option<StackIn>, StackFault>
        requires { IsTellable said }
        ensures course { self.new ≡ told_with came said self.old }
        ensures answer { result ≡ told_answer came said }
    {
        match said {
            Said::Nothing => self.tell_rest(came),
            Said::Gone => {
                self.held = None;
                self.standing = EndState::Closed;
                Ok(Some(StackIn::Aborted))
            }
            Said::Heard(heard, results) => Ok(Some(self.tell_heard(heard, results))),
            Said::Broken(fault) => {
                self.held = None;
                self.fault = Some(fault);
                Err(fault)
            }
        }
    }

    /// Tells that no message is left.
    fn tell_rest(&mut self, came: Came) -> Result<Option<StackIn>, StackFault>
        ensures course { self.new ≡ left_with came self.old }
        ensures answer { result ≡ left_answer came }
    {
        match came {
            Came::Fault(fault) => {
                self.fault = Some(fault);
                Err(fault)
            }
            _ => Ok(None),
        }
    }

    /// Tells a message of the association.
    fn tell_heard(&mut self, message: Heard, results: Results) -> StackIn
        requires modest { IsModest message }
        requires results { results ≡ results_heard message }
        ensures course { self.new ≡ told_heard message self.old }
        ensures input { result ≡ input_heard message }
    {
        self.held = None;
        self.standing = self.standing.with_heard(&message);
        let known = self.known;
        self.known = known.with_heard(&message);
        match message {
            Heard::Connect(connecting) => self.fix(known.connected, connecting, results),
            Heard::Accept(accepting) => StackIn::Accepted(accepting.initiate),
            Heard::Refuse => StackIn::Refused,
            Heard::Finish | Heard::Disconnect => StackIn::Released,
            Heard::Abort | Heard::AbortAccept => StackIn::Aborted,
            Heard::Pdu(pdu) => StackIn::Pdu(pdu),
            Heard::BadRequest { invoke } => StackIn::BadRequest { invoke },
        }
    }

    /// Keeps what the first connect fixes.
    fn fix(&mut self, connected: bool, connecting: Connecting, results: Results) -> StackIn
        requires modest { IsModest (heards.Connect connecting) }
        requires results { results ≡ results_heard (heards.Connect connecting) }
        ensures course { self.new
            ≡ record self.old { setup = fixed_by (Some connecting) connected self.old.setup } }
        ensures input { result ≡ input_heard (heards.Connect connecting) }
    {
        let may_be_accepted = is_offer(&connecting);
        let acse = acse_id(connecting.contexts.as_slice()).unwrap_or(OWN_ACSE);
        let mms = mms_id(connecting.contexts.as_slice()).unwrap_or(OWN_MMS);
        let Connecting {
            session,
            presentation,
            contexts: _,
            context: _,
            title,
            initiate,
        } = connecting;
        if !connected {
            self.setup.session = session;
            self.setup.presentation = presentation;
            self.setup.results = results;
            self.setup.acse = acse;
            self.setup.mms = mms;
        }
        if may_be_accepted {
            StackIn::Offer { title, initiate }
        } else {
            StackIn::BadOffer
        }
    }
}
