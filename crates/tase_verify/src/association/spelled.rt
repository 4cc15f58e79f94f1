//! The texts of events.
ghost use Rattle.std.specs.Prelude.{◌≡◌, map, IfOk};
ghost use Rattle.std.specs.List.{All};
ghost use Rattle.texts.specs.Journal.Entries.{IsEvent};
ghost use Rattle.tase_verify.specs.Association.Spelled.{IsToldSpelled, event_told, events_spelled};

use crate::association::answered::AnsweredEvent;
use crate::association::spelled_event::SpelledEvent;
use std::alloc::{AllocError, Global};
use tase_views::Event;
use texts::events::spell_event;
use texts::journal::events_have_texts;

/// Events with their texts.
pub(crate) fn spell_events(
    alloc: Global,
    events: &[Event],
) -> Result<Vec<SpelledEvent<'_>>, AllocError>
    ensures { IfOk result (λ spelled. events_spelled spelled.items ≡ events.now) }
{
    let mut spelled = Vec::new(alloc);
    for event in events {
        let next = spell(alloc, event)?;
        spelled.push(next)?;
    }
    Ok(spelled)
}

/// The same of answered events.
pub(crate) fn spell_answered(
    alloc: Global,
    answered: &[AnsweredEvent],
) -> Result<Vec<SpelledEvent<'_>>, AllocError>
    ensures { IfOk result (λ spelled. events_spelled spelled.items ≡ map event_told answered.now) }
{
    let mut spelled = Vec::new(alloc);
    for told in answered {
        let next = spell(alloc, &told.event)?;
        spelled.push(next)?;
    }
    Ok(spelled)
}

/// An event with its text.
fn spell(alloc: Global, event: &Event) -> Result<SpelledEvent<'_>, AllocError>
    ensures { IfOk result (λ spelled. spelled.event.now ≡ event.now) }
{
    let mut text = Vec::new(alloc);
    spell_event(&mut text, event)?;
    Ok(SpelledEvent { event, text })
}

/// Each part of these events is one that a word spells.
pub(crate) fn events_are_spelled(events: &[Event])
    ensures { All IsEvent events.now }
{
    for event in events {
        events_have_texts(event);
    }
}

/// The same of answered events.
pub(crate) fn answered_are_spelled(answered: &[AnsweredEvent])
    ensures { All IsToldSpelled answered.now }
{
    for told in answered {
        events_have_texts(&told.event);
    }
}
