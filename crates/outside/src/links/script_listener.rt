//! A listener in memory, some of whose calls fail.
ghost use Rattle.std.specs.Prelude.{◌≡◌, [], string_bytes, IfOk};
ghost use Rattle.outside.specs.Links.Listeners.{ListenerTold, AcceptsLink, MayRetire};
ghost use Rattle.outside.specs.Links.Listeners.{RetiredIsWithin, link_given, is_failed_accept};
ghost use Rattle.outside.specs.Links.Listeners.{with_retired};
ghost use Rattle.outside.specs.Links.ScriptStates.{ListenerState, script_link_told, AllNewLinks};
ghost use Rattle.outside.specs.Links.ScriptStates.{script_listener_told, TakesNextItem};
ghost use Rattle.outside.specs.Links.ScriptStates.{with_retired_link};

use crate::links::listener::{Accept, Listener};
use crate::links::script_link::ScriptLink;
use crate::{ObjectName, count_fault};
use std::alloc::{AllocError, Global};
use std::collections::VecDeque;
use std::marker::Model;

/// A listener that gives its links in order. Its calls of accept are numbered from 0, and some of
/// them fail. Past its links nothing more comes.
#[derive(Drop)]
pub struct ScriptListener {
    items: VecDeque<Option<ScriptLink>>,
    fails: Vec<u64>,
    calls: u64,
    accepted: usize,
    retired: Vec<ScriptLink>,
    faults: u64,
    name: ObjectName,
}

impl Model for ScriptListener {
    ghost use Rattle.std.specs.Prelude.{◌+◌, ◌≤◌, length, vec_len, vec_capacity};
    ghost use Rattle.outside.specs.Links.ScriptStates.{ListenerState, AllNewLinks};

    ghost Value = { ListenerState };

    ghost view = { λ s. record {
      items = s.items.items;
      fails = s.fails.items;
      calls = s.calls;
      accepted = s.accepted;
      retired = s.retired.items;
      faults = s.faults;
      name = s.name;
    } };

    // The links are new, and the room for those that are retired was taken when it was made.
    ghost invariant = { λ s. AllNewLinks s.items.items × (vec_len s.retired ≤ s.accepted)
        × (s.accepted + length s.items.items ≤ vec_capacity s.retired) };
}

impl ScriptListener {
    /// A listener that gives these links, none of which was called yet but for its faults; None
    /// where no node has connected yet. The calls with these numbers fail. The room for all retired
    /// links is taken here.
    pub fn new(
        alloc: Global,
        items: Vec<Option<ScriptLink>>,
        fails: Vec<u64>,
    ) -> Result<Self, AllocError>
        requires { AllNewLinks items.items }
        ensures { IfOk result (λ listener. listener ≡ record {
          items = items.items;
          fails = fails.items;
          calls = 0;
          accepted = 0;
          retired = [];
          faults = 0;
          name = [];
        }) }
    {
        let room = items.len();
        Ok(ScriptListener {
            items: VecDeque::from(items),
            fails,
            calls: 0,
            accepted: 0,
            retired: Vec::with_capacity(alloc, room)?,
            faults: 0,
            name: ObjectName::none(),
        })
    }

    /// The links that were retired, in order.
    pub fn retired(&self) -> &[ScriptLink]
        ensures { result.now ≡ self.now.retired }
    {
        &self.retired
    }

    /// Gives it the address under which it is to stand in its outside.
    pub fn set_name(&mut self, name: String)
        ensures { self.new ≡ record self.old { name = string_bytes name } }
    {
        self.name = ObjectName::new(name);
    }

    /// The address under which it stands in its outside; empty for none.
    pub fn name(&self) -> &str
        ensures { result.now ≡ self.now.name }
    {
        self.name.as_str()
    }
}

impl Listener for ScriptListener {
    type Link = ScriptLink;

    ghost told = { script_listener_told };

    fn accept(&mut self) -> Accept<ScriptLink>
        ensures accepts { AcceptsLink (script_listener_told self.old)
            (script_listener_told self.new) (link_given script_link_told result)
            (is_failed_accept result) }
        ensures within { RetiredIsWithin (script_listener_told self.new) }
        ensures next { TakesNextItem self.old self.new result }
    {
        let call = self.calls;
        self.calls = count_fault(call, true);
        if self.fails.contains(&call) {
            self.faults = count_fault(self.faults, true);
            return Accept::Failed;
        }
        match self.items.pop_front() {
            Some(Some(link)) => {
                self.accepted += 1;
                Accept::Link(link)
            }
            Some(None) => Accept::Idle,
            None => Accept::End,
        }
    }

    fn retire(&mut self, link: ScriptLink)
        requires { MayRetire (script_listener_told self.old) }
        ensures retires { script_listener_told self.new
            ≡ with_retired (script_listener_told self.old) (script_link_told link) }
        ensures within { RetiredIsWithin (script_listener_told self.new) }
        ensures only { self.new ≡ with_retired_link self.old link }
    {
        self.retired.push(link).unwrap();
    }

    fn faults(&self) -> u64 {
        self.faults
    }
}
