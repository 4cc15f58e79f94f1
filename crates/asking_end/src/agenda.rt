//! What a calling end asks, one call after another.
ghost use Rattle.std.specs.Prelude.{◌≡◌, ◌++◌, IfOk, IfSome, OnOk, OnErr};
ghost use Rattle.asking_end.specs.Agendas.{AgendaActs, ShowsFirst};
ghost use Rattle.asking_end.specs.Sayings.{IsAskable};

use crate::next::Next;
use std::alloc::{AllocError, Global};
use tase_views::{Call, Reply, Report};

/// What a calling end asks its peer, one call after another, and what it shows of the answers. It
/// begins once the association stands; from then on it says after each reply what comes next, and,
/// where it waits, after each report.
pub trait Agenda: Drop {
    /// What is shown: items of this type.
    type Item: Copy;
    /// How an agenda may end its association.
    type End: Copy;

    /// What it does, as functions of what it was before.
    ghost acts: { AgendaActs Self Self.End Self.Item };

    /// Begins.
    fn begin(&mut self) -> Next<Self::End>
        ensures agenda { self.new ≡ (acts.begun self.old).0 }
        ensures next { result ≡ (acts.begun self.old).1 };

    /// Hears the reply to its call, which was asked by this number, and appends what is shown of
    /// it. After want of memory it is as before, the association has ended, and what was appended
    /// is cut off.
    fn hear_reply(
        &mut self,
        alloc: Global,
        number: u32,
        reply: &Reply,
        shown: &mut Vec<Self::Item>,
    ) -> Result<Next<Self::End>, AllocError>
        ensures agenda { OnOk result (self.new ≡ (acts.replied number reply.now self.old).0) }
        ensures next { IfOk result (λ next.
            next ≡ (acts.replied number reply.now self.old).1) }
        ensures shown { OnOk result (shown.new.items
            ≡ shown.old.items ++ acts.reply_shown number reply.now self.old) }
        ensures same { OnErr result (self.new ≡ self.old) }
        ensures cut { OnErr result (ShowsFirst shown.old.items shown.new.items) };

    /// Appends what is shown of a report, whatever is awaited. After want of memory the
    /// association has ended, and what was appended is cut off.
    fn show_report(
        &self,
        alloc: Global,
        report: &Report,
        shown: &mut Vec<Self::Item>,
    ) -> Result<(), AllocError>
        ensures shown { OnOk result (shown.new.items
            ≡ shown.old.items ++ acts.report_shown report.now self.now) }
        ensures cut { OnErr result (ShowsFirst shown.old.items shown.new.items) };

    /// Hears a report, while nothing is asked.
    fn hear_report(&mut self, report: &Report) -> Next<Self::End>
        ensures agenda { self.new ≡ (acts.reported report.now self.old).0 }
        ensures next { result ≡ (acts.reported report.now self.old).1 };

    /// The call that is asked. It is one of the profile's, and its request isn't longer than the
    /// calling end offers, whatever its number.
    fn call(&self, alloc: Global) -> Result<Option<Call>, AllocError>
        ensures value { IfOk result (λ call. call ≡ acts.call self.now) }
        ensures askable { IfOk result (λ call. IfSome call IsAskable) };
}
