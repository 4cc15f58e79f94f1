ghost use Rattle.std.specs.Prelude.{◌≡◌};
ghost use Rattle.tase_points.specs.Values.{IsSample, unknown_sample, is_change};

use crate::{Body, Kind};
use std::marker::Model;

/// The largest number of a state.
pub const STATE_LIMIT: u8 = 3;

/// The largest number that six bits of flags are.
pub const FLAGS_LIMIT: u8 = 63;

/// The latest second since 1970.
pub const SECONDS_LIMIT: u32 = 2147483647;

/// The last millisecond of a second.
pub const MILLIS_LIMIT: u16 = 999;

// Definitions cite these limits, so that each stands here as a number too.
const _: () = prove!(STATE_LIMIT == 3);

const _: () = prove!(FLAGS_LIMIT == 63);

const _: () = prove!(SECONDS_LIMIT == 2_147_483_647);

const _: () = prove!(MILLIS_LIMIT == 999);

/// The flags of a value that is not valid.
const NOT_VALID: u8 = 48;

// A definition cites it too.
const _: () = prove!(NOT_VALID == 48);

/// A point's value with its quality flags and its time.
#[derive(Clone, Copy, Debug, PartialEq, Eq)]
pub struct PointValue {
    body: Body,
    flags: u8,
    seconds: u32,
    millis: u16,
}

impl Model for PointValue {
    ghost use Rattle.tase_points.specs.Sample.{Sample};

    ghost Value = { Sample };

    ghost use Rattle.tase_points.specs.Values.{IsSample};

    ghost view = { λ v.
        record { body = v.body; flags = v.flags; seconds = v.seconds; millis = v.millis } };

    ghost invariant = { λ v. IsSample
        (record { body = v.body; flags = v.flags; seconds = v.seconds; millis = v.millis }) };

    ghost inverse = { λ s.
        record { body = s.body; flags = s.flags; seconds = s.seconds; millis = s.millis } };
}

impl PointValue {
    /// A state is 0 to [`STATE_LIMIT`]. Flags are six bits: validity times 16 (0 valid, 1 held,
    /// 2 suspect, 3 not valid), source times 4 (0 telemetered, 1 calculated, 2 entered,
    /// 3 estimated), 2 where the value is not normal, 1 where the time is not valid. The time is
    /// seconds since 1970, up to [`SECONDS_LIMIT`], and milliseconds, up to [`MILLIS_LIMIT`].
    pub fn new(body: Body, flags: u8, seconds: u32, millis: u16) -> PointValue
        requires { IsSample
            (record { body = body; flags = flags; seconds = seconds; millis = millis }) }
        ensures { result
            ≡ record { body = body; flags = flags; seconds = seconds; millis = millis } }
    {
        PointValue {
            body,
            flags,
            seconds,
            millis,
        }
    }

    pub fn body(&self) -> Body
        ensures value { result ≡ self.now.body }
        ensures lawful { IsSample self.now }
    {
        self.body
    }

    pub fn flags(&self) -> u8
        ensures value { result ≡ self.now.flags }
        ensures lawful { IsSample self.now }
    {
        self.flags
    }

    pub fn seconds(&self) -> u32
        ensures value { result ≡ self.now.seconds }
        ensures lawful { IsSample self.now }
    {
        self.seconds
    }

    pub fn millis(&self) -> u16
        ensures value { result ≡ self.now.millis }
        ensures lawful { IsSample self.now }
    {
        self.millis
    }
}

/// Whether `new` is a change from `old`: another body or other flags. A new time alone is none.
pub fn changes(old: &PointValue, new: &PointValue) -> bool
    ensures { result ≡ is_change old.now new.now }
{
    old.body != new.body || old.flags != new.flags
}

/// What a point has before any update: a zero body, not valid, at time 0.
pub fn unknown(kind: Kind) -> PointValue
    ensures { result ≡ unknown_sample kind }
{
    let body = match kind {
        Kind::State => Body::State(0),
        Kind::Discrete => Body::Discrete(0),
        Kind::Real => Body::Real([0; 4]),
    };
    PointValue::new(body, NOT_VALID, 0, 0)
}
