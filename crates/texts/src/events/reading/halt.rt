//! Why the reading of words stopped.
ghost use Rattle.std.specs.Prelude.{◌≡◌};
ghost use Rattle.texts.specs.declared.events.reading.halt.Halt.TheVariants.{Memory};

use std::alloc::AllocError;

/// Why reading stopped: memory ran out, or so many words may begin a call, and none goes on with
/// the next one.
#[derive(Drop)]
pub(crate) enum Halt {
    Memory,
    Bad(usize),
}

impl From<AllocError> for Halt {
    ghost from_gives = { λ _ halt. halt ≡ Memory };

    fn from(_error: AllocError) -> Halt {
        Halt::Memory
    }
}
