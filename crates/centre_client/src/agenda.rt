//! A script over a centre's tables, as the agenda of a calling end.
ghost use Rattle.std.specs.Prelude.{◌≡◌, IfOk};
ghost use Rattle.std.specs.Arc.{arc_value};
ghost use Rattle.centre_client.specs.Plays.{line_of_first};
ghost use Rattle.centre_client.specs.Scripts.{IsScript};
ghost use Rattle.centre_client.specs.Scripted.{scripted};

use crate::play::{Checkback, Play};
use crate::script::Script;
use crate::showing::{show_reply, show_report};
use asking_end::{Agenda, Next};
use bilateral::Centre;
use std::alloc::{AllocError, Global};
use std::marker::Model;
use std::sync::Arc;
use tase_views::{Call, Reply, Report};

/// A script that is played over a centre's tables.
#[derive(Drop)]
pub struct ScriptPlay {
    centre: Arc<Centre>,
    play: Play,
}

impl Model for ScriptPlay {
    ghost use Rattle.std.specs.Coded.{codes};
    ghost use Rattle.mms_data.specs.contracts.data.MmsData as datum;
    ghost use Rattle.std.specs.Arc.{arc_value};
    ghost use Rattle.centre_client.specs.Plays.{IsPlay};
    ghost use Rattle.centre_client.specs.Scripted.{Scripted};

    ghost Value = { Scripted };

    ghost coded = { Prim.hlevel (codes, datum.the_row.coded) };

    ghost view = { λ s. record { rows = arc_value s.centre; play = s.play } };

    ghost invariant = { λ s. IsPlay (arc_value s.centre) s.play };
}

impl ScriptPlay {
    /// A script over these tables, before the association stands.
    #[tactic(auto, using(crate::proofs::PlayedOn::script_plays))]
    pub fn new(centre: Arc<Centre>, script: Script) -> ScriptPlay
        requires { IsScript (arc_value centre) script }
        ensures { result ≡ scripted (arc_value centre) script }
    {
        ScriptPlay {
            centre,
            play: Play::new(script),
        }
    }

    /// The same over tables that others share.
    pub(crate) fn sharing(centre: &Arc<Centre>, script: Script) -> Result<ScriptPlay, AllocError>
        requires { IsScript (arc_value centre.now) script }
        ensures { IfOk result (λ play. play ≡ scripted (arc_value centre.now) script) }
    {
        let shared = centre.clone()?;
        Ok(ScriptPlay::new(shared, script))
    }

    /// The number of the line of the first step that isn't done.
    pub fn line(&self) -> Option<u64>
        ensures { result ≡ line_of_first self.now.play.rest }
    {
        self.play.line()
    }
}

impl Agenda for ScriptPlay {
    ghost use Rattle.centre_client.specs.Scripted.{script_acts};

    type Item = u8;

    type End = Checkback;

    ghost acts = { script_acts };

    fn begin(&mut self) -> Next<Checkback> {
        self.play.begin(&self.centre)
    }

    fn hear_reply(
        &mut self,
        _alloc: Global,
        _number: u32,
        reply: &Reply,
        shown: &mut Vec<u8>,
    ) -> Result<Next<Checkback>, AllocError> {
        show_reply(shown, reply)?;
        Ok(self.play.take_reply(&self.centre, reply))
    }

    fn show_report(
        &self,
        _alloc: Global,
        report: &Report,
        shown: &mut Vec<u8>,
    ) -> Result<(), AllocError> {
        show_report(shown, report)
    }

    fn hear_report(&mut self, _report: &Report) -> Next<Checkback> {
        self.play.hear_report(&self.centre)
    }

    fn call(&self, alloc: Global) -> Result<Option<Call>, AllocError> {
        self.play.call(alloc, &self.centre)
    }
}
