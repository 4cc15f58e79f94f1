//! The objects in memory bear the names and addresses under which they are put.
ghost use Rattle.std.specs.Prelude.{◌≡◌, ℕ, List};

use crate::links::{ScriptLink, ScriptListener};
use crate::{ByteSink, TextSource};

/// An object that bears the name of its place.
pub(crate) trait Named {
    ghost name_of: { Self → List ℕ };

    fn place_name(&self) -> &str
        ensures { result.now ≡ name_of self.now };
}

impl Named for TextSource {
    ghost name_of = { λ s. s.name };

    fn place_name(&self) -> &str {
        self.name()
    }
}

impl Named for ByteSink {
    ghost name_of = { λ s. s.name };

    fn place_name(&self) -> &str {
        self.name()
    }
}

impl Named for ScriptListener {
    ghost name_of = { λ s. s.name };

    fn place_name(&self) -> &str {
        self.name()
    }
}

impl Named for ScriptLink {
    ghost name_of = { λ s. s.name };

    fn place_name(&self) -> &str {
        self.name()
    }
}
