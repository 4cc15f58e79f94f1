//! What the other node says over a link in memory.
ghost use Rattle.std.specs.Prelude.{◌≡◌, ℕ, ◌<◌, [], length, false};
ghost use Rattle.outside.specs.Links.LinkAnswers.{received_of};
ghost use Rattle.outside.specs.Links.Links.{IsRecvCount, is_failed_recv};
ghost use Rattle.outside.specs.Links.Scripts.{script_answer, script_after};

use crate::links::link::Recv;
use std::alloc::Global;
use std::collections::VecDeque;
use std::marker::Model;

/// What recv of a link in memory comes to.
#[derive(Drop)]
pub enum LinkItem {
    /// These octets come, in as many calls as the buffers want; an empty piece is passed over.
    Piece(Vec<u8>),
    /// Nothing has come yet, once.
    Idle,
    /// Nothing more comes, whatever stands behind it.
    End,
}

/// The items that are left, of which the first piece may have been begun.
#[derive(Drop)]
pub(crate) struct Script {
    begun: Vec<u8>,
    at: usize,
    items: VecDeque<LinkItem>,
}

impl Model for Script {
    ghost use Rattle.std.specs.Prelude.{◌≤◌, length, drop};
    ghost use Rattle.outside.specs.Links.Scripts.{ScriptLeft};

    ghost Value = { ScriptLeft };

    ghost view = { λ s. record { begun = drop s.at s.begun.items; items = s.items.items } };

    ghost invariant = { λ s. s.at ≤ length s.begun.items };
}

impl Script {
    pub(crate) fn new(alloc: Global, items: Vec<LinkItem>) -> Script
        ensures { result ≡ record { begun = []; items = items.items } }
    {
        Script {
            begun: Vec::new(alloc),
            at: 0,
            items: VecDeque::from(items),
        }
    }

    /// The next answer, with its octets at the front of the buffer.
    pub(crate) fn give(&mut self, buf: &mut [u8]) -> Recv
        requires { 0 < length buf.old }
        ensures answer { received_of result buf.new
            ≡ script_answer (length buf.old) self.old.begun self.old.items }
        ensures after { self.new ≡ script_after (length buf.old) self.old.begun self.old.items }
        ensures count { IsRecvCount result (length buf.new) }
        ensures whole { is_failed_recv result ≡ false }
    {
        loop {
            if self.at < self.begun.len() {
                let rest = &self.begun[self.at..];
                let count = buf.len().min(rest.len());
                buf[..count].copy_from_slice(&rest[..count]);
                self.at += count;
                return Recv::Got(count);
            }
            match self.items.pop_front() {
                Some(LinkItem::Piece(octets)) => {
                    self.begun = octets;
                    self.at = 0;
                }
                Some(LinkItem::Idle) => return Recv::Idle,
                Some(LinkItem::End) => {
                    self.items.clear();
                    return Recv::End;
                }
                None => return Recv::End,
            }
        }
    }
}
