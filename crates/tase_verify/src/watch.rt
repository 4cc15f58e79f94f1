//! The events of one association of a journal, with their answers.
ghost use Rattle.std.specs.Prelude.{◌≡◌, [], None, IfOk, OnOk};
ghost use Rattle.tase_views.specs.declared.event.EventKind.{EventKind};
ghost use Rattle.tase_verify.specs.Watching as own;

use crate::association::AnsweredEvent;
use sbo_device::Key;
use std::alloc::{AllocError, Global};
use tase_views::{Answer, Event, EventKind};

/// What is kept of a journal: the events of the association that is meant, with their answers.
#[derive(Drop)]
pub(crate) struct Watch {
    /// The association that is meant, if one is.
    key: Option<Key>,
    /// The seat that has it open.
    seat: Option<u64>,
    pub(crate) answered: Vec<AnsweredEvent>,
}

impl Watch {
    pub(crate) fn new(alloc: Global, key: Option<Key>) -> Watch
        ensures key { result.key ≡ key }
        ensures seat { result.seat ≡ None }
        ensures answered { result.answered.items ≡ [] }
    {
        Watch {
            key,
            seat: None,
            answered: Vec::new(alloc),
        }
    }

    /// A copy of an event of a seat that may be of the association.
    pub(crate) fn copy_of(&self, who: u64, event: &Event) -> Result<Option<Event>, AllocError>
        ensures { IfOk result (λ kept.
            kept ≡ own.kept_of self.now.key self.now.seat who event.now) }
    {
        if is_followed(self.seat, who) || opens_as(self.key, event.kind()) {
            Ok(Some(event.clone()?))
        } else {
            Ok(None)
        }
    }

    /// Keeps an event of a seat with its answer, where it is of the association, and follows the
    /// seat that has it open.
    pub(crate) fn note(
        &mut self,
        who: u64,
        kept: Option<Event>,
        answer: Answer,
    ) -> Result<(), AllocError>
        ensures key { self.new.key ≡ self.old.key }
        ensures seat { OnOk result (self.new.seat
            ≡ own.seat_after self.old.key self.old.seat who answer) }
        ensures answered { OnOk result (self.new.answered.items
            ≡ own.events_after self.old.key self.old.seat who self.old.answered.items kept answer) }
    {
        if is_told(self.key, self.seat, who, &answer) {
            self.seat = seat_behind(self.seat, who, &answer);
            self.keep(kept, answer)
        } else {
            Ok(())
        }
    }

    /// Keeps an event, if there is one, with its answer.
    fn keep(&mut self, kept: Option<Event>, answer: Answer) -> Result<(), AllocError>
        ensures key { self.new.key ≡ self.old.key }
        ensures seat { self.new.seat ≡ self.old.seat }
        ensures answered { OnOk result (self.new.answered.items
            ≡ own.with_event self.old.answered.items kept answer) }
    {
        match kept {
            Some(event) => {
                self.answered.push(AnsweredEvent { event, answer })?;
                Ok(())
            }
            None => Ok(()),
        }
    }
}

/// Whether an association is the one that is meant.
fn is_meant(key: Option<Key>, found: Key) -> bool
    ensures { result ≡ own.is_meant key (Some found) }
{
    match key {
        Some(key) => found.peer == key.peer && found.ordinal == key.ordinal,
        None => false,
    }
}

/// Whether this is the seat that is followed.
fn is_followed(seat: Option<u64>, who: u64) -> bool
    ensures { result ≡ own.is_followed seat who }
{
    match seat {
        Some(seat) => seat == who,
        None => false,
    }
}

/// Whether the peer of the association that is meant opens one.
fn opens_as(key: Option<Key>, event: &EventKind) -> bool
    ensures { result ≡ own.opens_as key event.now }
{
    match (key, event) {
        (Some(key), EventKind::Open { peer }) => *peer == key.peer,
        _ => false,
    }
}

/// Whether the event of a seat that has this answer is of the association that is meant.
fn is_told(key: Option<Key>, seat: Option<u64>, who: u64, answer: &Answer) -> bool
    ensures { result ≡ own.is_told key seat who answer.now }
{
    match answer {
        Answer::Opened { key: found } => is_meant(key, *found),
        _ => is_followed(seat, who),
    }
}

/// The seat that has the association open behind an event of it.
fn seat_behind(seat: Option<u64>, who: u64, answer: &Answer) -> Option<u64>
    ensures { result ≡ own.seat_behind seat who answer.now }
{
    match answer {
        Answer::Opened { .. } => Some(who),
        Answer::Closed => None,
        _ => seat,
    }
}
