//! Which TPDU may come when (ISO 8073, class 0).
ghost use Rattle.std.specs.Prelude.{◌≡◌, ◌<◌, ◌^◌};
ghost use Rattle.tpkt_cotp.specs.Turns.{may_come, tpdu_kind_of, is_count};

/// Which end of a connection reads the stream.
#[derive(Clone, Copy, Debug, PartialEq, Eq)]
pub enum Role {
    /// The end that was called: a connect request comes first.
    Called,
    /// The end that calls: a connect confirm or a disconnect comes first.
    Calling,
    /// A reader of either end's stream: a connect request or confirm comes first.
    Either,
}

/// What has come before the next TPDU.
#[derive(Clone, Copy)]
pub(crate) enum Turn {
    /// Nothing yet.
    Opening(Role),
    /// The first TPDU.
    Transfer,
}

#[derive(Clone, Copy)]
pub(crate) enum Kind {
    Request,
    Confirm,
    Disconnect,
    Part,
}

impl Kind {
    /// The kind of TPDU with this code.
    pub(crate) fn from_code(code: u8) -> Option<Kind>
        ensures { result ≡ tpdu_kind_of code }
    {
        match code {
            0xE0 => Some(Kind::Request),
            0xD0 => Some(Kind::Confirm),
            0x80 => Some(Kind::Disconnect),
            0xF0 => Some(Kind::Part),
            _ => None,
        }
    }

    /// Whether a TPDU of this kind in a TPKT of this size may have this count: in a connect
    /// request or confirm it ends at the end of the TPDU.
    pub(crate) fn may_count(self, size: usize, count: u8) -> bool
        requires { size < 2 ^ 16 }
        ensures { result ≡ is_count self size count }
    {
        match self {
            Kind::Request | Kind::Confirm => usize::from(count) + 5 == size,
            Kind::Disconnect => true,
            Kind::Part => count == 2,
        }
    }
}

impl Turn {
    /// Whether a TPDU of this kind may come now.
    pub(crate) fn may_come(self, kind: Kind) -> bool
        ensures { result ≡ may_come self kind }
    {
        match (self, kind) {
            (Turn::Opening(Role::Called | Role::Either), Kind::Request) => true,
            (Turn::Opening(Role::Calling | Role::Either), Kind::Confirm) => true,
            (Turn::Opening(Role::Calling), Kind::Disconnect) => true,
            (Turn::Transfer, Kind::Disconnect | Kind::Part) => true,
            _ => false,
        }
    }
}
