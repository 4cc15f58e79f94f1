//! Faults at their places.
ghost use Rattle.std.specs.Prelude.{◌≡◌};
ghost use Rattle.ber_values.specs.declared.fault.Why.TheVariants as whys;
ghost use Rattle.ber_values.specs.Faults.{fault_at};
ghost use Rattle.ber_values.specs.Grammars.{why_refused};

use crate::fault::{BerFault, Why};
use crate::head::Head;

/// The fault at this place.
pub fn fault_at(place: usize, why: Why) -> BerFault
    ensures { result ≡ fault_at place why }
{
    BerFault { place, why }
}

/// The octets end at this place, where more is required.
pub fn short(place: usize) -> BerFault
    ensures { result ≡ fault_at place whys.Short }
{
    BerFault {
        place,
        why: Why::Short,
    }
}

/// What begins at this place may not stand there.
pub fn surplus(place: usize) -> BerFault
    ensures { result ≡ fault_at place whys.Tag }
{
    BerFault {
        place,
        why: Why::Tag,
    }
}

/// Nothing may stand at the front of octets, of which the first has the place `at`: an octet that
/// does is refused.
pub fn refused(octets: &[u8], at: usize) -> BerFault
    ensures { result ≡ fault_at at (why_refused octets.now) }
{
    if octets.is_empty() {
        short(at)
    } else {
        surplus(at)
    }
}

/// The contents have a length that their kind doesn't have.
pub fn length_fault(head: &Head) -> BerFault
    ensures { result ≡ fault_at head.now.length_at whys.Length }
{
    BerFault {
        place: head.length_at,
        why: Why::Length,
    }
}

/// The contents break their rule.
pub fn value_fault(head: &Head) -> BerFault
    ensures { result ≡ fault_at head.now.body whys.Value }
{
    BerFault {
        place: head.body,
        why: Why::Value,
    }
}
