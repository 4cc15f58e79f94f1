/// What kind of point: IEC 60870-6-802 has states, discrete and real values.
#[derive(Clone, Copy, Debug, PartialEq, Eq)]
pub enum Kind {
    /// One of four states.
    State,
    /// A signed integer of 32 bits.
    Discrete,
    /// A real value of four octets, which pass through unread.
    Real,
}

impl Kind {
    ghost use Rattle.std.specs.Prelude.{◌≡◌, ◌↔◌, IsTrue};
    ghost use Rattle.tase_points.specs.Same.{same_kind};

    /// Whether two kinds are one.
    pub fn is_same(self, other: Kind) -> bool
        ensures value { result ≡ same_kind self other }
        ensures same { IsTrue result ↔ (self ≡ other) }
    {
        self == other
    }
}
