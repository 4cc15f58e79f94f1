//! What a connection wants of the node.
ghost use Rattle.std.specs.Prelude.{◌≡◌, ◌<◌, true, false, None, IfOk, OnOk, OnErr};
ghost use Rattle.std.specs.Prelude.{IsOk};
ghost use Rattle.tase_conn.specs.declared.stage.Progress.TheVariants as progresses;
ghost use Rattle.tase_conn.specs.declared.stage.PendingEvent.TheVariants as askeds;
ghost use Rattle.tase_conn.specs.declared.stage.Coming.TheVariants as comings;
ghost use Rattle.tase_conn.specs.declared.stage.ConnEnd.TheVariants as conn_ends;
ghost use Rattle.tase_conn.specs.declared.stage.Step.TheVariants as steps;
ghost use Rattle.stack_assoc.specs.declared.input.StackIn.TheVariants as inputs;
ghost use Rattle.stack_assoc.specs.Courses.{is_offered};
ghost use Rattle.mms_services.specs.declared.pdu.MmsPdu.TheVariants as pdus;
ghost use Rattle.tase_views.specs.declared.event.EventKind.TheVariants as events;
ghost use Rattle.tase_conn.specs.Talking.{IsFree, is_running};
ghost use Rattle.tase_conn.specs.Places.{IsPlaced, KeepsPlace, coming_by};
ghost use Rattle.tase_conn.specs.Wanting.{WantsSo, ReadsSo, PassesSo, IsIdle};
ghost use Rattle.tase_conn.specs.Wanting.{refusal_said};
ghost use Rattle.tase_conn.specs.Acting.{StepsSo, StaysIdle, GoesDown, steps_left};
ghost use Rattle.tase_conn.specs.Acting.{ActsOn, StaysSo, holding, has_more};
ghost use Rattle.tase_conn.specs.Acting.{holding_behind, holding_fault};
ghost use Rattle.tase_conn.specs.Leaving.{AddsAnswer, EndsFor, MayEnd, finished};

use crate::conn::Conn;
use crate::map::{call_of, invalid_call};
use crate::stage::{Behind, Cause, Coming, ConnEnd, PendingEvent, Progress, Stage, Step};
use ber_values::Oid;
use bilateral::peer_of;
use mms_services::{Initiate, MmsPdu, Request, negotiate};
use stack_assoc::StackIn;
use stack_assoc::messages::StackFault;
use std::alloc::AllocError;
use tase_views::{Call, Event, EventKind};

impl Conn {
    /// The next event that is asked of the node by what was taken in; none where nothing is left of
    /// it. It appends what is to be sent meanwhile. Where the connection was given up it is the
    /// close of the association. No memory is taken then, nor once the connection has ended. After
    /// want of memory no event was lost: `want` may be called again.
    pub fn want(&mut self) -> Result<Option<Event>, AllocError>
        requires free { IsFree self.old.progress }
        requires placed { IsPlaced self.old }
        ensures ok { IfOk result (λ event. WantsSo event self.old self.new) }
        ensures err { OnErr result (PassesSo self.old self.new) }
        ensures again { OnErr result (IsIdle self.new.progress) }
        ensures over { is_running self.old.progress ≡ false → IsOk result }
        ensures stage { self.new.stage ≡ self.old.stage }
    {
        match self.progress {
            Progress::Running(_) => self.read_on(),
            Progress::Leaving { end, .. } => Ok(Some(self.close_left(end))),
            _ => Ok(None),
        }
    }

    /// The association is to be closed, since the connection is left.
    fn close_left(&mut self, end: ConnEnd) -> Event
        ensures event { result ≡ events.Close }
        ensures same { self.new ≡ record self.old { progress = progresses.Leaving end true } }
    {
        self.progress = Progress::Leaving { end, asked: true };
        Event::new(EventKind::Close)
    }

    /// Reads and acts on what comes next, until an event is asked or nothing is left.
    fn read_on(&mut self) -> Result<Option<Event>, AllocError>
        requires idle { IsIdle self.old.progress }
        requires placed { IsPlaced self.old }
        ensures ok { IfOk result (λ event. ReadsSo event self.old self.new) }
        ensures err { OnErr result (PassesSo self.old self.new) }
        ensures again { OnErr result (IsIdle self.new.progress) }
        ensures stage { self.new.stage ≡ self.old.stage }
    {
        while self.has_more() {
            match self.step()? {
                Step::Asks(event) => return Ok(Some(event)),
                Step::Ends => return Ok(None),
                Step::GoesOn => {}
            }
        }
        Ok(None)
    }

    /// Whether something is left of what was taken in.
    fn has_more(&self) -> bool
        ensures { result ≡ has_more self.now }
    {
        match (&self.held, self.behind) {
            (None, Behind::Nothing) => false,
            _ => true,
        }
    }

    /// Acts on what was read, or reads on.
    fn step(&mut self) -> Result<Step, AllocError>
        requires idle { IsIdle self.old.progress }
        requires more { has_more self.old ≡ true }
        requires placed { IsPlaced self.old }
        ensures ok { IfOk result (λ step. StepsSo step self.old self.new) }
        ensures err { OnErr result (KeepsPlace self.old self.new) }
        ensures same { OnErr result (self.new ≡ record self.old { course = self.new.course }) }
        ensures idle { IfOk result (λ step. StaysIdle step self.new.progress) }
        ensures shorter { IfOk result (λ step. GoesDown step (steps_left self.old)
            (steps_left self.new)) }
        ensures stage { self.new.stage ≡ self.old.stage }
    {
        match self.held.take() {
            Some(coming) => self.act(coming),
            None => self.fetch(),
        }
    }

    /// Reads what comes next: a message that is handed out, the rule that is broken, or what comes
    /// behind all messages.
    fn fetch(&mut self) -> Result<Step, AllocError>
        requires idle { IsIdle self.old.progress }
        requires empty { self.old.held ≡ None }
        requires more { has_more self.old ≡ true }
        requires placed { IsPlaced self.old }
        ensures ok { OnOk result (PassesSo self.old self.new) }
        ensures err { OnErr result (KeepsPlace self.old self.new) }
        ensures same { OnErr result (self.new ≡ record self.old { course = self.new.course }) }
        ensures step { IfOk result (λ step. step ≡ steps.GoesOn) }
        ensures idle { OnOk result (self.new.progress ≡ self.old.progress) }
        ensures shorter { OnOk result (steps_left self.new < steps_left self.old) }
        ensures stage { self.new.stage ≡ self.old.stage }
    {
        match self.stack.next(&mut self.out)? {
            Ok(Some(input)) => self.hold(Coming::Input(input)),
            Ok(None) => self.hold_behind(),
            Err(fault) => self.hold_fault(fault),
        }
        Ok(Step::GoesOn)
    }

    /// This was read.
    fn hold(&mut self, coming: Coming)
        ensures { self.new ≡ holding coming self.old }
    {
        self.held = Some(coming);
    }

    /// All messages were read.
    fn hold_behind(&mut self)
        ensures { self.new ≡ holding_behind self.old }
    {
        self.held = Some(match self.behind {
            Behind::End => Coming::End,
            _ => Coming::Pause,
        });
        self.behind = Behind::Nothing;
    }

    /// Nothing more is read behind a rule that is broken.
    fn hold_fault(&mut self, fault: StackFault)
        ensures { self.new ≡ holding_fault fault self.old }
    {
        self.held = Some(Coming::Fault(fault));
        self.behind = Behind::Nothing;
    }

    /// Acts on what was read, or holds it where memory is wanting.
    fn act(&mut self, coming: Coming) -> Result<Step, AllocError>
        requires idle { IsIdle self.old.progress }
        requires empty { self.old.held ≡ None }
        requires placed { IsPlaced (holding coming self.old) }
        ensures ok { IfOk result (λ step. ActsOn coming self.old step self.new) }
        ensures idle { IfOk result (λ step. StaysIdle step self.new.progress) }
        ensures shorter { IfOk result (λ step.
            GoesDown step (steps_left (holding coming self.old)) (steps_left self.new)) }
        ensures err { OnErr result (self.new ≡ holding coming self.old) }
        ensures stage { self.new.stage ≡ self.old.stage }
    {
        match self.act_on(&coming) {
            Ok(step) => Ok(step),
            Err(error) => {
                self.held = Some(coming);
                Err(error)
            }
        }
    }

    /// Acts on what was read; after want of memory it is as before.
    fn act_on(&mut self, coming: &Coming) -> Result<Step, AllocError>
        requires idle { IsIdle self.old.progress }
        requires empty { self.old.held ≡ None }
        requires placed { IsPlaced (holding coming.now self.old) }
        ensures ok { IfOk result (λ step. ActsOn coming.now self.old step self.new) }
        ensures more { IfOk result (λ step. StaysSo step self.old self.new) }
        ensures err { OnErr result (self.new ≡ self.old) }
        ensures stage { self.new.stage ≡ self.old.stage }
    {
        match coming {
            Coming::Input(input) => self.act_on_input(input),
            Coming::Fault(fault) => self.end_by(Cause::Broken(*fault)),
            Coming::Pause => Ok(self.pause()),
            Coming::End => self.end_by(Cause::LinkEnd),
        }
    }

    /// Acts on what the stack has handed out.
    fn act_on_input(&mut self, input: &StackIn) -> Result<Step, AllocError>
        requires idle { IsIdle self.old.progress }
        requires empty { self.old.held ≡ None }
        requires placed { IsPlaced (holding (comings.Input input.now) self.old) }
        ensures ok { IfOk result (λ step.
            ActsOn (comings.Input input.now) self.old step self.new) }
        ensures more { IfOk result (λ step. StaysSo step self.old self.new) }
        ensures err { OnErr result (self.new ≡ self.old) }
        ensures stage { self.new.stage ≡ self.old.stage }
    {
        match input {
            StackIn::Offer { title, initiate } => self.offered(title, initiate),
            StackIn::BadOffer => self.decline(),
            StackIn::Pdu(pdu) => self.act_on_pdu(pdu),
            StackIn::BadRequest { invoke } => Ok(self.request(*invoke, invalid_call())),
            StackIn::Released => self.end_by(Cause::Released),
            StackIn::Aborted => self.end_by(Cause::Aborted),
            StackIn::Accepted(_) | StackIn::Refused => Ok(Step::GoesOn),
        }
    }

    /// Asks for the open of the peer whose offer it is, or declines it.
    fn offered(&mut self, title: &Option<Oid>, initiate: &Initiate) -> Result<Step, AllocError>
        requires idle { IsIdle self.old.progress }
        requires empty { self.old.held ≡ None }
        requires placed { IsPlaced
            (holding (comings.Input (inputs.Offer title.now initiate.now)) self.old) }
        ensures ok { IfOk result (λ step.
            ActsOn (comings.Input (inputs.Offer title.now initiate.now)) self.old step self.new) }
        ensures more { IfOk result (λ step. StaysSo step self.old self.new) }
        ensures err { OnErr result (self.new ≡ self.old) }
        ensures stage { self.new.stage ≡ self.old.stage }
    {
        match peer_of(&self.centre, title.as_ref()) {
            Some(peer) => match negotiate(initiate) {
                Some(granted) => {
                    let asked = PendingEvent::Opening { peer, granted };
                    Ok(self.ask(asked, EventKind::Open { peer }))
                }
                None => self.decline(),
            },
            None => self.decline(),
        }
    }

    /// The offer is refused.
    fn decline(&mut self) -> Result<Step, AllocError>
        requires offered { is_offered self.old.course.standing ≡ true }
        ensures ok { IfOk result (λ step. step ≡ steps.Ends) }
        ensures done { OnOk result (AddsAnswer (refusal_said self.old.course.setup)
            (finished (progresses.Ended conn_ends.Declined) self.old) self.new) }
        ensures err { OnErr result (self.new ≡ self.old) }
        ensures stage { self.new.stage ≡ self.old.stage }
    {
        self.stack.refuse(&mut self.out)?;
        self.finish(Progress::Ended(ConnEnd::Declined));
        Ok(Step::Ends)
    }

    /// Acts on a PDU: a request, or conclude; no other has an effect.
    fn act_on_pdu(&mut self, pdu: &MmsPdu) -> Result<Step, AllocError>
        requires idle { IsIdle self.old.progress }
        requires empty { self.old.held ≡ None }
        requires placed { IsPlaced (holding (comings.Input (inputs.Pdu pdu.now)) self.old) }
        ensures ok { IfOk result (λ step.
            ActsOn (comings.Input (inputs.Pdu pdu.now)) self.old step self.new) }
        ensures more { IfOk result (λ step. StaysSo step self.old self.new) }
        ensures err { OnErr result (self.new ≡ self.old) }
        ensures stage { self.new.stage ≡ self.old.stage }
    {
        match pdu {
            MmsPdu::Request { invoke, request } => self.act_on_request(*invoke, request),
            MmsPdu::Conclude => self.end_by(Cause::Concluded),
            _ => Ok(Step::GoesOn),
        }
    }

    fn act_on_request(&mut self, invoke: u32, request: &Request) -> Result<Step, AllocError>
        requires idle { IsIdle self.old.progress }
        requires empty { self.old.held ≡ None }
        requires placed { IsPlaced
            (holding (comings.Input (inputs.Pdu (pdus.Request invoke request.now))) self.old) }
        ensures ok { IfOk result (λ step.
            ActsOn (comings.Input (inputs.Pdu (pdus.Request invoke request.now))) self.old step
            self.new) }
        ensures more { IfOk result (λ step. StaysSo step self.old self.new) }
        ensures err { OnErr result (self.new ≡ self.old) }
        ensures stage { self.new.stage ≡ self.old.stage }
    {
        let call = call_of(self.alloc, request)?;
        Ok(self.request(invoke, call))
    }

    /// Asks for a call, by the request with this number.
    fn request(&mut self, invoke: u32, call: Call) -> Step
        ensures step { result ≡ steps.Asks (events.Request call) }
        ensures same { self.new
            ≡ record self.old { progress = progresses.Running (askeds.Requesting invoke) } }
    {
        self.ask(
            PendingEvent::Requesting { invoke },
            EventKind::Request { call },
        )
    }

    /// Behind all of a piece, or where nothing came, the reports are taken, if an association is
    /// open.
    fn pause(&mut self) -> Step
        requires idle { IsIdle self.old.progress }
        requires empty { self.old.held ≡ None }
        ensures ok { ActsOn comings.Pause self.old result self.new }
        ensures more { StaysSo result self.old self.new }
        ensures stage { self.new.stage ≡ self.old.stage }
    {
        match self.stage {
            Stage::Open { .. } => self.ask(PendingEvent::Taking, EventKind::Take),
            Stage::Early => Step::GoesOn,
            Stage::Closed { .. } => Step::GoesOn,
        }
    }

    /// An open association is closed first; else the connection ends.
    fn end_by(&mut self, cause: Cause) -> Result<Step, AllocError>
        requires idle { IsIdle self.old.progress }
        requires empty { self.old.held ≡ None }
        requires placed { IsPlaced (holding (coming_by cause) self.old) }
        ensures ok { IfOk result (λ step.
            ActsOn (coming_by cause) self.old step self.new) }
        ensures more { IfOk result (λ step. StaysSo step self.old self.new) }
        ensures err { OnErr result (self.new ≡ self.old) }
        ensures stage { self.new.stage ≡ self.old.stage }
    {
        match self.stage {
            Stage::Open { .. } => Ok(self.ask(PendingEvent::Closing(cause), EventKind::Close)),
            Stage::Early => self.end_now(cause),
            Stage::Closed { .. } => self.end_now(cause),
        }
    }

    /// Ends a connection none of whose associations is open.
    fn end_now(&mut self, cause: Cause) -> Result<Step, AllocError>
        requires may { MayEnd cause self.old }
        ensures ok { IfOk result (λ step. step ≡ steps.Ends) }
        ensures done { OnOk result (EndsFor cause self.old self.new) }
        ensures err { OnErr result (self.new ≡ self.old) }
        ensures stage { self.new.stage ≡ self.old.stage }
    {
        self.answer_end(cause)?;
        Ok(Step::Ends)
    }

    /// Asks for an event.
    fn ask(&mut self, asked: PendingEvent, kind: EventKind) -> Step
        ensures step { result ≡ steps.Asks kind }
        ensures same { self.new ≡ record self.old { progress = progresses.Running asked } }
    {
        self.progress = Progress::Running(asked);
        Step::Asks(Event::new(kind))
    }
}
