//! What a peer wishes of a transfer set.
ghost use Rattle.std.specs.Prelude.{◌≡◌, ◌<◌, ◌↔◌, IsTrue};
ghost use Rattle.transfer_sets.specs.Wishes.{HasCondition, empty_wish, may_enable, base_of};

use ber_values::Visible;
use std::alloc::{AllocError, Global};

/// The condition that the interval has gone by (IEC 60870-6-802, DS conditions).
pub const INTERVAL: u8 = 128;

/// The condition that the time of the integrity check has gone by.
pub const INTEGRITY: u8 = 64;

/// The condition that a member has changed.
pub const CHANGE: u8 = 32;

/// The condition that the operator asks.
pub const OPERATOR: u8 = 16;

/// The condition of an event outside, which is kept and has no effect.
pub const EXTERNAL: u8 = 8;

/// The largest number of a wish, but for its event code.
pub const NUMBER_LIMIT: u32 = 2147483647;

// Definitions cite these numbers, so that each stands here once more.
const _: () = prove!(INTERVAL == 128);

const _: () = prove!(INTEGRITY == 64);

const _: () = prove!(CHANGE == 32);

const _: () = prove!(OPERATOR == 16);

const _: () = prove!(EXTERNAL == 8);

const _: () = prove!(NUMBER_LIMIT == 2_147_483_647);

/// What a peer writes to a transfer set. All times are in seconds.
#[derive(Debug, Drop)]
pub struct Wish {
    /// The domain of the data set to be sent.
    pub set_domain: Visible,
    /// The name of the data set.
    pub set_name: Visible,
    /// When to begin, since 1970.
    pub start: u32,
    /// The time between reports.
    pub interval: u32,
    /// How long a report is of use, which has no effect.
    pub tle: u32,
    /// How long to wait after a first change for others.
    pub buffer: u32,
    /// The time between reports of all members.
    pub integrity: u32,
    /// The sum of the conditions on which a report is to be made.
    pub conditions: u8,
    /// Whether reports are to be packed into blocks.
    pub block: bool,
    /// Whether reports are to be acknowledged.
    pub critical: bool,
    /// Whether to report only what has changed.
    pub rbe: bool,
    /// Whether to report every change rather than the last.
    pub all_changes: bool,
    /// Whether the transfer set is enabled.
    pub status: bool,
    /// The number of the event outside.
    pub event_code: i16,
}

impl Wish {
    /// Nothing is wished. It takes no memory.
    pub fn empty(alloc: Global) -> Wish
        ensures { result ≡ empty_wish }
    {
        Wish {
            set_domain: Visible::new(Vec::new(alloc)),
            set_name: Visible::new(Vec::new(alloc)),
            start: 0,
            interval: 0,
            tle: 0,
            buffer: 0,
            integrity: 0,
            conditions: 0,
            block: false,
            critical: false,
            rbe: false,
            all_changes: false,
            status: false,
            event_code: 0,
        }
    }
}

/// Why data are no wish.
#[derive(Clone, Copy, Debug, PartialEq, Eq)]
pub enum WishFault {
    /// The structure, or the kind of a component, is another one.
    Form,
    /// A number lies outside its range.
    Range,
}

impl Clone for Wish {
    ghost is_clone = { λ wish copy. copy ≡ wish };

    fn clone(&self) -> Result<Wish, AllocError> {
        Ok(Wish {
            set_domain: self.set_domain.clone()?,
            set_name: self.set_name.clone()?,
            start: self.start,
            interval: self.interval,
            tle: self.tle,
            buffer: self.buffer,
            integrity: self.integrity,
            conditions: self.conditions,
            block: self.block,
            critical: self.critical,
            rbe: self.rbe,
            all_changes: self.all_changes,
            status: self.status,
            event_code: self.event_code,
        })
    }
}

/// Whether conditions have this one, which is one of the five.
pub(crate) fn has(conditions: u8, condition: u8) -> bool
    requires { 0 < condition }
    ensures { IsTrue result ↔ HasCondition conditions condition }
{
    conditions / condition % 2 == 1
}

/// Whether a transfer set can do what is wished: neither blocks nor acknowledgement, and a time
/// where a condition wants one.
pub fn may_enable(wish: &Wish) -> bool
    ensures { result ≡ may_enable wish.now }
{
    if wish.block || wish.critical {
        return false;
    }
    if has(wish.conditions, INTERVAL) && wish.interval == 0 {
        return false;
    }
    !has(wish.conditions, INTEGRITY) || wish.integrity > 0
}

/// The moment from which the times of a wish count, in milliseconds since 1970: its start where
/// that is still to come, else now.
pub fn base_of(wish: &Wish, now: u64) -> u64
    ensures { result ≡ base_of wish.now now }
{
    let start = u64::from(wish.start) * 1000;
    if start > now { start } else { now }
}
