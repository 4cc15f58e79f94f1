//! Why a reader that takes memory stopped.
ghost use Rattle.std.specs.Prelude.{◌≡◌};
ghost use Rattle.ber_values.specs.declared.stop.Stop.TheVariants.{Memory, Fault};
ghost use Rattle.ber_values.specs.Stops.{settled};

use crate::fault::BerFault;
use std::alloc::{AllocError, AllocFailed};

/// Why a reader stopped: memory ran out, or the octets break a rule.
#[derive(Debug, Drop)]
pub enum Stop {
    Memory,
    Fault(BerFault),
}

impl From<AllocError> for Stop {
    ghost from_gives = { λ _ stop. stop ≡ Memory };

    fn from(_error: AllocError) -> Stop {
        Stop::Memory
    }
}

impl<T: Drop> From<AllocFailed<T>> for Stop {
    ghost from_gives = { λ _ stop. stop ≡ Memory };

    fn from(_error: AllocFailed<T>) -> Stop {
        Stop::Memory
    }
}

impl From<BerFault> for Stop {
    ghost from_gives = { λ fault stop. stop ≡ Fault fault };

    fn from(fault: BerFault) -> Stop {
        Stop::Fault(fault)
    }
}

/// Sets want of memory apart from the faults of octets.
pub fn settle<T>(read: Result<T, Stop>) -> Result<Result<T, BerFault>, AllocError>
    ensures { result ≡ settled read }
{
    match read {
        Ok(value) => Ok(Ok(value)),
        Err(Stop::Fault(fault)) => Ok(Err(fault)),
        Err(Stop::Memory) => Err(AllocError),
    }
}
