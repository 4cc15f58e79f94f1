ghost use Rattle.std.specs.Prelude.{◌≡◌, length, IfOk};
ghost use Rattle.tase_points.specs.Layouts.{IsLayout};

use std::alloc::AllocError;
use std::marker::Model;

/// Counts of changes are shown modulo this number.
pub const COV_MODULUS: u32 = 65536;

// Definitions cite this limit, so that it stands here as a number too.
const _: () = prove!(COV_MODULUS == 65_536);

/// One part of what a peer is shown of a point.
#[derive(Clone, Copy, Debug, PartialEq, Eq)]
pub enum Component {
    /// The body; of a state with its flags.
    Value,
    /// Seconds since 1970.
    Time,
    /// Milliseconds past the second.
    Millis,
    Flags,
    /// The count of changes, modulo [`COV_MODULUS`].
    Cov,
}

impl Component {
    ghost use Rattle.std.specs.Prelude.{◌≡◌, ◌↔◌, IsTrue};
    ghost use Rattle.tase_points.specs.Same.{same_component};

    /// Whether two components are one.
    pub fn is_same(self, other: Component) -> bool
        ensures value { result ≡ same_component self other }
        ensures same { IsTrue result ↔ (self ≡ other) }
    {
        self == other
    }
}

/// The components in which a point is shown, in order: at least one, none twice.
#[derive(Debug, Drop)]
pub struct Layout {
    components: Vec<Component>,
}

impl Model for Layout {
    ghost use Rattle.std.specs.Prelude.{List};
    ghost use Rattle.tase_points.specs.declared.layout.Component.{Component};

    ghost Value = { List Component };

    ghost use Rattle.tase_points.specs.Layouts.{IsLayout};

    ghost view = { λ l. l.components.items };

    ghost invariant = { λ l. IsLayout l.components.items };
}

impl Layout {
    pub fn new(components: Vec<Component>) -> Layout
        requires { IsLayout components.items }
        ensures { result ≡ components.items }
    {
        Layout { components }
    }

    pub fn len(&self) -> usize
        ensures { result ≡ length self.now }
    {
        self.components.len()
    }

    pub fn as_slice(&self) -> &[Component]
        ensures value { result.now ≡ self.now }
        ensures lawful { IsLayout self.now }
    {
        self.components.as_slice()
    }

    /// The same components in room of their own.
    pub fn try_clone(&self) -> Result<Layout, AllocError>
        ensures { IfOk result (λ l. l ≡ self.now) }
    {
        Ok(Layout {
            components: self.components.clone()?,
        })
    }
}
