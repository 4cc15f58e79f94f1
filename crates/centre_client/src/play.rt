//! How a script is played: which call is asked and when, and what a reply and a report come to.
ghost use Rattle.std.specs.Prelude.{◌≡◌, ◌<◌, IfOk, IfSome, length};
ghost use Rattle.mms_data.specs.declared.outcome.Outcome.TheVariants as outcomes;
ghost use Rattle.tase_views.specs.declared.reply.ReplyKind.TheVariants as replies;
ghost use Rattle.asking_end.specs.Sayings.{IsAskable};
ghost use Rattle.centre_client.specs.StepLines.{IsStep};
ghost use Rattle.centre_client.specs.declared.play.Doing.TheVariants as doings;
ghost use Rattle.centre_client.specs.Plays as own;

use crate::asking::{operate_call, select_call};
use crate::script::{Script, Step, StepKind};
use asking_end::Next;
use bilateral::Centre;
use mms_data::{DataKind, MmsData, Outcome};
use std::alloc::{AllocError, Global};
use std::marker::Model;
use tase_views::{Call, Reply, ReplyKind};

/// What the step that is being done waits for.
#[derive(Clone, Copy, Debug, PartialEq, Eq)]
pub enum Doing {
    /// The reply to the select of an operate.
    Select,
    /// The reply to a call, or to the write of an operate.
    Reply,
    /// So many further reports.
    Reports(u64),
}

/// A select was answered by another number than the table's checkback.
#[derive(Clone, Copy, Debug, PartialEq, Eq)]
pub struct Checkback {
    pub want: i64,
    pub got: i64,
}

/// A script that is played.
#[derive(Drop)]
pub struct Play {
    script: Script,
    /// The place of the step that is being done.
    place: usize,
    doing: Doing,
}

impl Model for Play {
    ghost use Rattle.std.specs.Coded.{codes};
    ghost use Rattle.mms_data.specs.contracts.data.MmsData as datum;
    ghost use Rattle.centre_client.specs.Plays.{Playing};

    ghost Value = { Playing };

    ghost coded = { Prim.hlevel (codes, datum.the_row.coded) };

    ghost use Rattle.std.specs.Prelude.{◌≤◌, length};
    ghost use Rattle.std.proofs.Common.{drop};

    ghost view = { λ p. record {
      peer = p.script.peer;
      rest = drop p.place p.script.steps;
      doing = p.doing;
    } };

    ghost invariant = { λ p. p.place ≤ length p.script.steps };
}

impl Play {
    /// A script before the association stands.
    pub fn new(script: Script) -> Play
        ensures { result ≡ own.at_call script }
    {
        Play {
            script,
            place: 0,
            doing: Doing::Reply,
        }
    }

    /// The number of the line of the first step that isn't done.
    pub fn line(&self) -> Option<u64>
        ensures { result ≡ own.line_of_first self.now.rest }
    {
        match self.rest() {
            [] => None,
            [step, ..] => Some(step.line),
        }
    }

    /// The steps that aren't done.
    fn rest(&self) -> &[Step]
        ensures { result.now ≡ self.now.rest }
    {
        &self.script.steps.as_slice()[self.place..]
    }

    /// The call that is asked.
    pub(crate) fn call(&self, alloc: Global, centre: &Centre) -> Result<Option<Call>, AllocError>
        requires { own.IsPlay centre.now self.now }
        ensures value { IfOk result (λ call. call ≡ own.call_awaited centre.now self.now) }
        ensures askable { IfOk result (λ call. IfSome call IsAskable) }
    {
        match self.doing {
            Doing::Select => self.first_select(alloc, centre),
            Doing::Reply => self.first_call(alloc, centre),
            Doing::Reports(_) => Ok(None),
        }
    }

    /// The select of the step at its place.
    fn first_select(&self, alloc: Global, centre: &Centre) -> Result<Option<Call>, AllocError>
        requires { own.IsPlay centre.now self.now }
        ensures value { IfOk result (λ call. call
            ≡ own.call_of_first centre.now self.now.peer doings.Select self.now.rest) }
        ensures askable { IfOk result (λ call. IfSome call IsAskable) }
    {
        match self.rest() {
            [step, ..] => select_of(alloc, centre, self.script.peer, &step.kind),
            [] => Ok(None),
        }
    }

    /// The call of the step at its place, of an operate the write.
    fn first_call(&self, alloc: Global, centre: &Centre) -> Result<Option<Call>, AllocError>
        requires { own.IsPlay centre.now self.now }
        ensures value { IfOk result (λ call. call
            ≡ own.call_of_first centre.now self.now.peer doings.Reply self.now.rest) }
        ensures askable { IfOk result (λ call. IfSome call IsAskable) }
    {
        match self.rest() {
            [step, ..] => call_of(alloc, centre, self.script.peer, &step.kind),
            [] => Ok(None),
        }
    }

    /// Begins the step at its place, or the conclude behind the last one.
    pub(crate) fn begin(&mut self, centre: &Centre) -> Next<Checkback>
        requires { own.IsPlay centre.now self.old }
        ensures play { self.new ≡ (own.begun centre.now self.old).0 }
        ensures next { result ≡ (own.begun centre.now self.old).1 }
    {
        match self.first_doing(centre) {
            Some(doing) => self.turn_to(doing),
            None => Next::Conclude,
        }
    }

    /// Waits for this from now on.
    fn turn_to(&mut self, doing: Doing) -> Next<Checkback>
        ensures play { self.new ≡ (own.turned_to doing self.old).0 }
        ensures next { result ≡ (own.turned_to doing self.old).1 }
    {
        self.doing = doing;
        next_for(doing)
    }

    /// Hears a report.
    pub(crate) fn hear_report(&mut self, centre: &Centre) -> Next<Checkback>
        requires { own.IsPlay centre.now self.old }
        ensures play { self.new ≡ (own.report_counted centre.now self.old.doing self.old).0 }
        ensures next { result ≡ (own.report_counted centre.now self.old.doing self.old).1 }
    {
        match self.doing {
            Doing::Reports(left) => self.count_report(centre, left),
            _ => Next::Wait,
        }
    }

    /// One of so many reports has come.
    fn count_report(&mut self, centre: &Centre, left: u64) -> Next<Checkback>
        requires { own.IsPlay centre.now self.old }
        ensures play { self.new ≡ (own.counted_down centre.now left self.old).0 }
        ensures next { result ≡ (own.counted_down centre.now left self.old).1 }
    {
        if left <= 1 {
            return self.finish_step(centre);
        }
        self.turn_to(Doing::Reports(left - 1))
    }

    /// Hears the reply that is awaited.
    pub(crate) fn take_reply(&mut self, centre: &Centre, reply: &Reply) -> Next<Checkback>
        requires { own.IsPlay centre.now self.old }
        ensures play { self.new
            ≡ (own.answered centre.now reply.now self.old.doing self.old).0 }
        ensures next { result ≡ (own.answered centre.now reply.now self.old.doing self.old).1 }
    {
        match self.doing {
            Doing::Select => self.take_selection(centre, reply),
            _ => self.finish_step(centre),
        }
    }

    /// Hears the reply to a select.
    fn take_selection(&mut self, centre: &Centre, reply: &Reply) -> Next<Checkback>
        requires { own.IsPlay centre.now self.old }
        ensures play { self.new ≡ (own.selected centre.now reply.now self.old).0 }
        ensures next { result ≡ (own.selected centre.now reply.now self.old).1 }
    {
        let want = self.checkback(centre);
        match answered_number(want, reply) {
            Some(got) => self.check(want, got),
            None => self.finish_step(centre),
        }
    }

    /// Compares the answer to a select with the table's checkback.
    fn check(&mut self, want: i64, got: i64) -> Next<Checkback>
        ensures play { self.new ≡ (own.compared want got self.old).0 }
        ensures next { result ≡ (own.compared want got self.old).1 }
    {
        if got == want {
            self.turn_to(Doing::Reply)
        } else {
            Next::End(Checkback { want, got })
        }
    }

    /// The step at its place is done, and the next one begins.
    #[tactic(auto, using(crate::proofs::PlayedOn::left_plays))]
    fn finish_step(&mut self, centre: &Centre) -> Next<Checkback>
        requires { own.IsPlay centre.now self.old }
        ensures play { self.new ≡ (own.step_done centre.now self.old).0 }
        ensures next { result ≡ (own.step_done centre.now self.old).1 }
    {
        self.leave_step();
        self.begin(centre)
    }

    /// The first step is done, where there is one.
    fn leave_step(&mut self)
        ensures { self.new ≡ own.left_behind self.old }
    {
        if self.place < self.script.steps.len() {
            self.place += 1;
        }
    }

    /// What the step at its place waits for at its begin.
    fn first_doing(&self, centre: &Centre) -> Option<Doing>
        requires { own.IsPlay centre.now self.now }
        ensures { result ≡ own.doing_by centre.now self.now.rest }
    {
        match self.rest() {
            [step, ..] => Some(first_of(centre, self.script.peer, &step.kind)),
            [] => None,
        }
    }

    /// The checkback of the device of the step at its place.
    fn checkback(&self, centre: &Centre) -> i64
        requires { own.IsPlay centre.now self.now }
        ensures { result ≡ own.checkback_of centre.now self.now.rest }
    {
        match self.rest() {
            [step, ..] => checkback_of(centre, self.script.peer, &step.kind),
            [] => 0,
        }
    }
}

/// The select of a step.
fn select_of(
    alloc: Global,
    centre: &Centre,
    peer: u32,
    kind: &StepKind,
) -> Result<Option<Call>, AllocError>
    requires peer { peer < length centre.now.tables }
    requires step { IsStep centre.now peer kind.now }
    ensures value { IfOk result (λ call.
        call ≡ own.call_of_step centre.now peer doings.Select kind.now) }
    ensures askable { IfOk result (λ call. IfSome call IsAskable) }
{
    match kind {
        StepKind::Operate { device, .. } => {
            let call = select_call(alloc, centre, peer, *device)?;
            Ok(Some(call))
        }
        StepKind::Call(_) => Ok(None),
        StepKind::Wait { .. } => Ok(None),
    }
}

/// The call of a step, of an operate the write.
fn call_of(
    alloc: Global,
    centre: &Centre,
    peer: u32,
    kind: &StepKind,
) -> Result<Option<Call>, AllocError>
    requires peer { peer < length centre.now.tables }
    requires step { IsStep centre.now peer kind.now }
    ensures value { IfOk result (λ call.
        call ≡ own.call_of_step centre.now peer doings.Reply kind.now) }
    ensures askable { IfOk result (λ call. IfSome call IsAskable) }
{
    match kind {
        StepKind::Call(call) => {
            let copy = call.clone()?;
            Ok(Some(copy))
        }
        StepKind::Operate { device, value } => {
            let call = operate_call(alloc, centre, peer, *device, *value)?;
            Ok(Some(call))
        }
        StepKind::Wait { .. } => Ok(None),
    }
}

/// What is to come of what is waited for.
fn next_for(doing: Doing) -> Next<Checkback>
    ensures { result ≡ own.next_for doing }
{
    match doing {
        Doing::Reports(_) => Next::Wait,
        _ => Next::Ask,
    }
}

/// What a step waits for at its begin.
fn first_of(centre: &Centre, peer: u32, kind: &StepKind) -> Doing
    requires { IsStep centre.now peer kind.now }
    ensures { result ≡ own.doing_first centre.now kind.now }
{
    match kind {
        StepKind::Call(_) => Doing::Reply,
        StepKind::Operate { device, .. } => operate_waits(centre.device(*device).direct),
        StepKind::Wait { reports } => Doing::Reports(*reports),
    }
}

fn operate_waits(direct: bool) -> Doing
    ensures { result ≡ own.doing_of_operate direct }
{
    if direct { Doing::Reply } else { Doing::Select }
}

/// The checkback of the device that a step operates, 0 where it operates none.
fn checkback_of(centre: &Centre, peer: u32, kind: &StepKind) -> i64
    requires { IsStep centre.now peer kind.now }
    ensures { result ≡ own.checkback_of_kind centre.now kind.now }
{
    match kind {
        StepKind::Operate { device, .. } => i64::from(centre.device(*device).checkback),
        _ => 0,
    }
}

/// The number that a select is answered; none where it failed, or where the reply hasn't exactly
/// one outcome. A value that is no integer counts as another number than the one that is wanted.
fn answered_number(want: i64, reply: &Reply) -> Option<i64>
    ensures { result ≡ own.number_answered want reply.now }
{
    match reply.kind() {
        ReplyKind::Results { results, .. } => number_of_outcomes(want, results.as_slice()),
        _ => None,
    }
}

fn number_of_outcomes(want: i64, outcomes: &[Outcome]) -> Option<i64>
    ensures { result ≡ own.number_of_outcomes want outcomes.now }
{
    match outcomes {
        [outcome] => number_of_outcome(want, outcome),
        _ => None,
    }
}

fn number_of_outcome(want: i64, outcome: &Outcome) -> Option<i64>
    ensures { result ≡ own.number_of_outcome want outcome.now }
{
    match outcome {
        Outcome::Good(value) => Some(number_of_value(want, value)),
        Outcome::Fail(_) => None,
    }
}

fn number_of_value(want: i64, value: &MmsData) -> i64
    ensures { result ≡ own.number_of_value want value.now }
{
    match value.kind() {
        DataKind::Integer(number) => *number,
        DataKind::Unsigned(number) => number_of_unsigned(want, *number),
        _ => other_number(want),
    }
}

/// A number that isn't the one that is wanted.
fn other_number(want: i64) -> i64
    ensures { result ≡ own.other_number want }
{
    if want == -1 { -2 } else { -1 }
}

fn number_of_unsigned(want: i64, number: u64) -> i64
    ensures { result ≡ own.number_of_unsigned want number }
{
    if number < 1 << 63 {
        number as i64
    } else {
        other_number(want)
    }
}
