//! An asking end that is about to talk over a link.
ghost use Rattle.std.specs.Prelude.{◌≡◌, ℕ, List, [], Option, IfOk};
ghost use Rattle.asking_end.specs.Service.Talks.{IsTalk};

use crate::{Agenda, AskEnd, AskingEnd};
use ber_values::Oid;
use std::alloc::{AllocError, Global};

/// An asking end, what it has said that isn't sent, and what it has shown that isn't written.
#[derive(Drop)]
pub struct Talk<A: Agenda> {
    pub(crate) asking: AskingEnd<A>,
    pub(crate) out: Vec<u8>,
    pub(crate) shown: Vec<u8>,
}

impl<A: Agenda<Item = u8>> Talk<A> {
    /// An asking end that calls by this title to ask this agenda, before its link is there.
    pub fn new(alloc: Global, title: Option<Oid>, agenda: A) -> Result<Talk<A>, AllocError>
        ensures { IfOk result (IsTalk A.acts title agenda) }
    {
        let mut out = Vec::new(alloc);
        let asking = AskingEnd::new(alloc, title, agenda, &mut out)?;
        Ok(Talk {
            asking,
            out,
            shown: Vec::new(alloc),
        })
    }

    /// The asking end, as it stands.
    pub fn asking(&self) -> &AskingEnd<A>
        ensures { result.now ≡ self.now.asking }
    {
        &self.asking
    }
}
