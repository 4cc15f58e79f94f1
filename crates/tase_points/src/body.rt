use crate::Kind;

/// The value itself, without its quality and its time.
#[derive(Clone, Copy, Debug, PartialEq, Eq)]
pub enum Body {
    /// 0 between, 1 off, 2 on, 3 invalid.
    State(u8),
    Discrete(i32),
    /// The four octets of a floating-point number as they stand on the wire; nothing is computed
    /// with them.
    Real([u8; 4]),
}

impl Body {
    ghost use Rattle.std.specs.Prelude.{◌≡◌};
    ghost use Rattle.tase_points.specs.Points.{kind_of};

    /// The kind of point that it is a value of.
    pub fn kind(&self) -> Kind
        ensures { result ≡ kind_of self.now }
    {
        match self {
            Body::State(_) => Kind::State,
            Body::Discrete(_) => Kind::Discrete,
            Body::Real(_) => Kind::Real,
        }
    }
}
