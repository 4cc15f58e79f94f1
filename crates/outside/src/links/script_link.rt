//! A link in memory, some of whose calls fail.
ghost use Rattle.std.specs.Prelude.{true, false, ◌≡◌, ℕ, ◌<◌, [], ◌∷◌, ◌++◌, length, None, is_some};
ghost use Rattle.std.specs.Prelude.{option_map, string_bytes, IfOk};
ghost use Rattle.outside.specs.Faults.{counted};
ghost use Rattle.outside.specs.Links.Answered.{received_from};
ghost use Rattle.outside.specs.Links.LinkAnswers.{received_of};
ghost use Rattle.outside.specs.Links.Links.{LinkTold, ReceivesPiece, SendsPiece, closed_link};
ghost use Rattle.outside.specs.Links.Links.{IsRecvCount, is_failed_recv};
ghost use Rattle.outside.specs.Links.ScriptStates.{LinkState, script_link_told, FollowsScript};
ghost use Rattle.outside.specs.Links.ScriptStates.{FillsRoom, closed_script_link};

use crate::links::answers::{Answer, Answers};
use crate::links::link::{Link, Recv};
use crate::links::script::{LinkItem, Script};
use crate::{ObjectName, WriteEnd, count_fault};
use std::alloc::{AllocError, Global};
use std::marker::Model;
use std::snapshot::Snapshot;

/// A link whose other node follows a script, and takes octets as far as the room goes. Its calls of
/// recv and of send are numbered from 0 each, and some of them fail. Past the script nothing more
/// comes; after a close no recv fails.
#[derive(Drop)]
pub struct ScriptLink {
    script: Script,
    most: usize,
    taken: Vec<u8>,
    room: usize,
    fails_recv: Vec<u64>,
    fails_send: Vec<u64>,
    recvs: u64,
    sends: u64,
    answers: Answers,
    after_nothing: bool,
    refused: Option<bool>,
    heard: Option<bool>,
    closed: Option<Snapshot<Answers>>,
    faults: u64,
    name: ObjectName,
}

impl Model for ScriptLink {
    ghost use Rattle.std.specs.Prelude.{◌+◌, ◌≤◌, length, option_map, vec_len, vec_capacity};
    ghost use Rattle.outside.specs.Links.Answered.{answers_given};
    ghost use Rattle.outside.specs.Links.ScriptStates.{LinkState};

    ghost Value = { LinkState };

    ghost view = { λ s. record {
      script = s.script;
      most = s.most;
      room = s.room;
      fails_recv = s.fails_recv.items;
      fails_send = s.fails_send.items;
      recvs = s.recvs;
      sends = s.sends;
      answers = answers_given s.answers;
      taken = s.taken.items;
      after_nothing = s.after_nothing;
      refused = s.refused;
      heard = s.heard;
      closed = option_map (λ answers. length (answers_given answers.value)) s.closed;
      faults = s.faults;
      name = s.name;
    } };

    // The room was taken when the link was made.
    ghost invariant = { λ s. vec_len s.taken + s.room ≤ vec_capacity s.taken };
}

impl ScriptLink {
    /// A link whose other node says these items, and takes at most `most` octets at a send and
    /// `room` octets in all; the calls with these numbers fail. The room is taken here.
    pub fn new(
        alloc: Global,
        items: Vec<LinkItem>,
        most: usize,
        room: usize,
        fails_recv: Vec<u64>,
        fails_send: Vec<u64>,
    ) -> Result<Self, AllocError>
        ensures { IfOk result (λ link. link ≡ record {
          script = record { begun = []; items = items.items };
          most = most;
          room = room;
          fails_recv = fails_recv.items;
          fails_send = fails_send.items;
          recvs = 0;
          sends = 0;
          answers = [];
          taken = [];
          after_nothing = false;
          refused = None;
          heard = None;
          closed = None;
          faults = 0;
          name = [];
        }) }
    {
        Ok(ScriptLink {
            script: Script::new(alloc, items),
            most,
            taken: Vec::with_capacity(alloc, room)?,
            room,
            fails_recv,
            fails_send,
            recvs: 0,
            sends: 0,
            answers: Answers::NoneYet,
            after_nothing: false,
            refused: None,
            heard: None,
            closed: None,
            faults: 0,
            name: ObjectName::none(),
        })
    }

    /// The octets that it took.
    pub fn taken(&self) -> &[u8]
        ensures { result.now ≡ self.now.taken }
    {
        &self.taken
    }

    /// Gives it the address under which it is to stand in its outside.
    pub fn set_name(&mut self, name: String)
        ensures { self.new ≡ record self.old { name = string_bytes name } }
    {
        self.name = ObjectName::new(name);
    }

    /// The address under which it stands in its outside; empty for none.
    pub fn name(&self) -> &str
        ensures { result.now ≡ self.now.name }
    {
        self.name.as_str()
    }

    // What a recv comes to, before it is told.
    fn give(&mut self, buf: &mut [u8]) -> Recv
        requires { 0 < length buf.old }
        ensures script { FollowsScript self.old self.new result buf.new }
        ensures received { received_from result self.old.script (length buf.new)
            ≡ received_of result buf.new }
        ensures count { IsRecvCount result (length buf.new) }
        ensures ends { is_some self.old.closed ≡ true → result ≡ Recv.End }
        ensures told { script_link_told self.new ≡ record (script_link_told self.old) {
          faults = counted (is_failed_recv result) self.old.faults;
        } }
    {
        let call = self.recvs;
        self.recvs = count_fault(call, true);
        if self.closed.is_some() {
            return Recv::End;
        }
        if self.fails_recv.contains(&call) {
            self.faults = count_fault(self.faults, true);
            return Recv::Failed;
        }
        self.script.give(buf)
    }

    // Tells an answer of recv, by the script before it.
    fn tell(&mut self, end: Recv, script: Snapshot<Script>, room: usize)
        ensures { self.new ≡ record self.old {
          answers = self.old.answers ++ record {
            received = received_from end script.value room;
            sent = length self.old.taken;
            after_nothing = self.old.after_nothing;
          } ∷ [];
          after_nothing = false;
          heard = option_map (λ _. true) self.old.heard;
        } }
    {
        self.answers = self.answers.with(Answer {
            end,
            script,
            room,
            sent: self.taken.len(),
            after_nothing: self.after_nothing,
        });
        self.after_nothing = false;
        self.heard = self.heard.map(|_| true);
    }
}

impl Link for ScriptLink {
    ghost told = { script_link_told };

    fn recv(&mut self, buf: &mut [u8]) -> Recv
        requires { 0 < length buf.old }
        ensures receives { ReceivesPiece (script_link_told self.old) (script_link_told self.new)
            result buf.new }
        ensures script { FollowsScript self.old self.new result buf.new }
    {
        let script = Snapshot::of(&self.script);
        let end = self.give(buf);
        self.tell(end, script, buf.len());
        end
    }

    fn send(&mut self, piece: &[u8]) -> WriteEnd
        requires { 0 < length piece.now }
        ensures sends { SendsPiece (script_link_told self.old) (script_link_told self.new)
            result piece.now }
        ensures room { FillsRoom self.old self.new result piece.now }
    {
        let call = self.sends;
        self.sends = count_fault(call, true);
        self.heard = Some(false);
        if self.room == 0 || self.fails_send.contains(&call) {
            self.faults = count_fault(self.faults, true);
            self.after_nothing = false;
            self.refused = Some(true);
            return WriteEnd::Failed;
        }
        let count = piece.len().min(self.most.min(self.room));
        self.taken.extend_from_slice(&piece[..count]).unwrap();
        self.room -= count;
        self.after_nothing = count == 0;
        self.refused = Some(count == 0);
        WriteEnd::Took(count)
    }

    fn close(&mut self)
        ensures closes { script_link_told self.new ≡ closed_link (script_link_told self.old) }
        ensures only { self.new ≡ closed_script_link self.old }
    {
        if self.closed.is_none() {
            self.closed = Some(Snapshot::of(&self.answers));
        }
    }

    fn faults(&self) -> u64 {
        self.faults
    }

    fn note(&self, _words: &str) {}
}
