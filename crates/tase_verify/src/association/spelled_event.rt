//! An event with its text.
ghost use Rattle.std.specs.Prelude.{◌≡◌};
ghost use Rattle.tase_views.specs.EventTexts.{event_text};

use tase_views::Event;

/// An event with its text, so that it may be compared with others without memory.
#[derive(Drop)]
pub(crate) struct SpelledEvent<'a> {
    pub(crate) event: &'a Event,
    pub(crate) text: Vec<u8>,
    ghost spelled: { text.items ≡ event_text event.now },
}
