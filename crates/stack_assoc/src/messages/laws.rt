//! What holds of all TSDUs.
ghost use Rattle.std.specs.Prelude.{List, ℕ};
ghost use Rattle.stack_assoc.specs.declared.messages.expecting.Expecting.{Expecting};
ghost use Rattle.stack_assoc.specs.Messages.Meanings.{HasOneMeaning, IsReadAs};
ghost use Rattle.stack_assoc.specs.Messages.Messages.{message};

/// A TSDU has one reading, whatever is expected: exactly one holds, it says exactly one thing, or
/// it has exactly one first fault.
pub fn messages_have_one_reading()
    ensures { (e : Expecting) (tsdu : List ℕ) → HasOneMeaning (message e tsdu) }
{}

/// The reading of a TSDU is exact: what the TSDU says where it says something, else its first
/// fault.
pub fn messages_are_read_exactly()
    ensures { (e : Expecting) (tsdu : List ℕ)
        → IsReadAs (message e tsdu) (message e tsdu).reading }
{}
