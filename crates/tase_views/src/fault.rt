ghost use Rattle.std.specs.Prelude.{◌≡◌};
ghost use Rattle.tase_views.specs.declared.fault.StepFault.TheVariants.{Memory};

use std::alloc::{AllocError, AllocFailed};

/// Why the node refused an event. A refused event changes nothing.
#[derive(Clone, Copy, Debug, PartialEq, Eq)]
pub enum StepFault {
    /// Memory ran out.
    Memory,
    /// The history has a stop, at this place, which counts from 0.
    Stopped { at: u64 },
    /// The history would weigh so many octets, and may weigh at most `limit`.
    HistoryFull { weight: u64, limit: u64 },
    /// A request, a take or a close of a seat without an open association.
    NoAssociation,
    /// An open of a seat that has an open association already.
    Already,
    /// A peer, a point, a device, or a table or transfer set of a peer that the centre doesn't
    /// have, or a value of another kind than its point's.
    UnknownName,
    /// A tick to a moment at or above [`MOMENT_LIMIT`](sbo_device::MOMENT_LIMIT).
    ClockRange,
    /// A tick to a moment that isn't above that of the last tick, in milliseconds since 1970;
    /// before any it is 0.
    Backward { last: u64 },
}

impl From<AllocError> for StepFault {
    ghost from_gives = { λ _ e. e ≡ Memory };

    fn from(_: AllocError) -> StepFault {
        StepFault::Memory
    }
}

impl<T: Drop> From<AllocFailed<T>> for StepFault {
    ghost from_gives = { λ _ e. e ≡ Memory };

    fn from(_: AllocFailed<T>) -> StepFault {
        StepFault::Memory
    }
}
