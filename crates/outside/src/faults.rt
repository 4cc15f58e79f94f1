//! The count of faults of an object.
ghost use Rattle.std.specs.Prelude.{◌≡◌};
ghost use Rattle.outside.specs.Faults.{counted};

/// The count with one more where there was a fault. It stands still at its type's end.
pub fn count_fault(faults: u64, is_fault: bool) -> u64
    ensures { result ≡ counted is_fault faults }
{
    if is_fault {
        faults.saturating_add(1)
    } else {
        faults
    }
}
