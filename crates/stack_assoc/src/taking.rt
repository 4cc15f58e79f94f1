//! What an end takes from its transport, and what it reads of that.
ghost use Rattle.std.specs.Prelude.{◌≡◌, ℕ, List, ◌++◌, None, IfOk, OnOk, OnErr};
ghost use Rattle.tpkt_cotp.specs.Sound.{IsSoundMessage};
ghost use Rattle.stack_assoc.specs.Arrivals.{Arrival, Role};
ghost use Rattle.stack_assoc.specs.Tellings.{transport_fault};
ghost use Rattle.stack_assoc.specs.Knowing.{expecting_by};
ghost use Rattle.stack_assoc.specs.Messages.Messages.{message};
ghost use Rattle.stack_assoc.specs.Taking.{opening_seen, owed_octets, SaysMessage, SaysOf};
ghost use Rattle.stack_assoc.specs.Courses.{CourseStands};
ghost use Rattle.stack_assoc.specs.Steps.{opened_with, TakesOne, TakesNext, IsTellable};
ghost use Rattle.stack_assoc.specs.Steps.{Untold, FewerLeft, IsEmpty};
ghost use Rattle.stack_assoc.specs.Steps.{IsBegun};

use crate::messages::{Layer, Side, StackFault, read_message};
use crate::stack::Stack;
use crate::taken::{Came, Following, Opening, Said, results_heard};
use crate::wire::{cut_size, write_connect};
use std::alloc::AllocError;
use tpkt_cotp::{CotpFault, TransportIn, write_cc};

fn of_transport(fault: CotpFault) -> StackFault
    ensures { result ≡ transport_fault fault }
{
    StackFault {
        layer: Layer::Transport,
        place: fault.place,
        why: fault.why,
    }
}

impl Stack {
    /// Keeps what begins a connection of the transport.
    fn open(&mut self, opening: Opening)
        requires { IsSoundMessage (opening_seen opening) }
        ensures { self.new ≡ opened_with opening self.old }
    {
        if !self.known.begun {
            self.setup.size = cut_size(opening.size());
        }
        self.known = self.known.with_opening(&opening);
        self.owed = Some(opening);
    }

    /// Takes one message of the transport.
    fn take_one(&mut self) -> Result<Came, AllocError>
        requires { self.old.held ≡ None }
        ensures ok { (role : Role) (octets : List ℕ) (told : List Arrival)
            → CourseStands role octets told self.old → self.old.fault ≡ None
            → IfOk result (λ came. TakesOne role octets told self.old came self.new) }
        ensures untold { Untold self.old self.new }
        ensures fewer { IfOk result (λ came. FewerLeft came self.old self.new) }
        ensures empty { IfOk result (λ came. IsEmpty came self.new) }
        ensures err { OnErr result (self.new ≡ self.old) }
    {
        match self.transport.next()? {
            Err(fault) => Ok(Came::Fault(of_transport(fault))),
            Ok(None) => Ok(Came::Nothing),
            Ok(Some(TransportIn::Connect(request))) => {
                self.open(Opening::Request(request));
                Ok(Came::Message)
            }
            Ok(Some(TransportIn::Connected(confirm))) => {
                self.open(Opening::Confirm(confirm));
                Ok(Came::Message)
            }
            Ok(Some(TransportIn::Gone)) => {
                self.held = Some(Following::Gone);
                Ok(Came::Message)
            }
            Ok(Some(TransportIn::Tsdu { place, octets })) => {
                self.held = Some(Following::Tsdu { place, octets });
                Ok(Came::Message)
            }
        }
    }

    /// Takes the next message to be read, unless there is one, and what comes before it.
    pub(crate) fn take(&mut self) -> Result<Came, AllocError>
        requires { self.old.fault ≡ None }
        ensures ok { (role : Role) (octets : List ℕ) (told : List Arrival)
            → CourseStands role octets told self.old
            → IfOk result (λ came. TakesNext role octets told came self.new) }
        ensures kept { (role : Role) (octets : List ℕ) (told : List Arrival)
            → CourseStands role octets told self.old
            → OnErr result (CourseStands role octets told self.new) }
        ensures untold { Untold self.old self.new }
        ensures fewer { IfOk result (λ came. FewerLeft came self.old self.new) }
        ensures empty { IfOk result (λ came. IsEmpty came self.new) }
    {
        if self.held.is_some() {
            return Ok(Came::Message);
        }
        match self.take_one()? {
            Came::Message => self.take_behind(),
            came => Ok(came),
        }
    }

    /// Takes the next message to be read behind what begins a connection, unless there is one.
    fn take_behind(&mut self) -> Result<Came, AllocError>
        requires { self.old.fault ≡ None }
        ensures ok { (role : Role) (octets : List ℕ) (told : List Arrival)
            → CourseStands role octets told self.old → IsBegun self.old
            → IfOk result (λ came. TakesNext role octets told came self.new) }
        ensures untold { Untold self.old self.new }
        ensures fewer { IfOk result (λ came. FewerLeft came self.old self.new) }
        ensures empty { IfOk result (λ came. IsEmpty came self.new) }
        ensures err { OnErr result (self.new ≡ self.old) }
    {
        if self.held.is_some() {
            return Ok(Came::Message);
        }
        self.take_one()
    }

    /// Reads the next message.
    pub(crate) fn read(&self) -> Result<Said, AllocError>
        ensures says { IfOk result (λ said. SaysMessage
            (expecting_by self.now.known self.now.setup.acse
            self.now.setup.mms) self.now.held said) }
        ensures tellable { IfOk result IsTellable }
    {
        match &self.held {
            None => Ok(Said::Nothing),
            Some(Following::Gone) => Ok(Said::Gone),
            Some(Following::Tsdu { octets, .. }) => self.read_octets(octets.as_slice()),
        }
    }

    /// Reads a TSDU.
    fn read_octets(&self, octets: &[u8]) -> Result<Said, AllocError>
        ensures says { IfOk result (λ said. SaysOf (message (expecting_by self.now.known
            self.now.setup.acse self.now.setup.mms) octets.now) said) }
        ensures tellable { IfOk result IsTellable }
    {
        let expecting = self.known.expecting(self.setup.acse, self.setup.mms);
        match read_message(self.alloc, octets, expecting)? {
            Err(fault) => Ok(Said::Broken(fault)),
            Ok(heard) => {
                let results = results_heard(self.alloc, &heard)?;
                Ok(Said::Heard(heard, results))
            }
        }
    }

    /// Appends the answer that is owed, if one is.
    pub(crate) fn answer(&mut self, out: &mut Vec<u8>) -> Result<(), AllocError>
        ensures ok { OnOk result (self.new ≡ record self.old { owed = None }) }
        ensures out { OnOk result (out.new.items ≡ out.old.items ++ owed_octets self.old.known.side
            self.old.owed self.old.setup.size self.old.title) }
        ensures err { OnErr result (self.new ≡ self.old) }
        ensures same { OnErr result (out.new.items ≡ out.old.items) }
    {
        self.write_answer(out)?;
        self.owed = None;
        Ok(())
    }

    fn write_answer(&self, out: &mut Vec<u8>) -> Result<(), AllocError>
        ensures ok { OnOk result (out.new.items ≡ out.old.items ++ owed_octets self.now.known.side
            self.now.owed self.now.setup.size self.now.title) }
        ensures err { OnErr result (out.new.items ≡ out.old.items) }
    {
        match (self.known.side, &self.owed) {
            (Side::Called, Some(Opening::Request(request))) => write_cc(out, request),
            (Side::Calling, Some(Opening::Confirm(_))) => {
                write_connect(self.alloc, out, self.setup.size, &self.title)
            }
            _ => Ok(()),
        }
    }
}
