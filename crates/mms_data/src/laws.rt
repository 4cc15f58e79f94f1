//! What holds of all octets and data.
ghost use Rattle.std.specs.Prelude.{ℕ, ◌+◌, ◌<◌, ◌^◌, ◌++◌, List, length};
ghost use Rattle.ber_values.specs.Reading.{Taken, HasOneReading};
ghost use Rattle.ber_values.specs.Grammars.{taken};
ghost use Rattle.mms_data.specs.Datum.{Datum};
ghost use Rattle.mms_data.specs.DataOctets.{one_datum};
ghost use Rattle.mms_data.specs.DataWritten.{datum_octets};
ghost use Rattle.mms_data.specs.Lawful.{IsLawful, IsHeld};

/// Octets have one reading as data: exactly one holds, they begin with exactly one datum, or they
/// have exactly one first fault.
pub fn data_have_one_reading()
    ensures { (at : ℕ) (octets : List ℕ)
        → HasOneReading (Taken Datum) (one_datum.begins at octets) (one_datum.fault at octets) }
{}

/// What is written for a lawful datum is read back as the same datum, whatever follows it.
pub fn written_data_are_read()
    ensures { (d : Datum) → IsLawful d → IsHeld d → length (datum_octets d) < 2 ^ 32
        → (at : ℕ) (rest : List ℕ) → one_datum.begins at (datum_octets d ++ rest)
        (taken d (at + length (datum_octets d)) rest) }
{}
