//! What holds of all octets, names and outcomes of access to variables.
ghost use Rattle.std.specs.Prelude.{ℕ, ◌+◌, ◌<◌, ◌^◌, ◌++◌, List, length};
ghost use Rattle.ber_values.specs.Reading.{Taken, HasOneReading};
ghost use Rattle.ber_values.specs.Grammars.{taken};
ghost use Rattle.mms_data.specs.ObjectName.{ObjectName, IsName};
ghost use Rattle.mms_data.specs.NameOctets.{one_name, name_octets};
ghost use Rattle.mms_data.specs.declared.outcome.Outcome.{Outcome};
ghost use Rattle.mms_data.specs.OutcomeOctets.{one_outcome, outcome_octets, IsLawfulOutcome};
ghost use Rattle.mms_data.specs.OutcomeOctets.{IsHeldOutcome};

/// Octets have one reading as names: exactly one holds, they begin with exactly one name, or they
/// have exactly one first fault.
pub fn names_have_one_reading()
    ensures { (at : ℕ) (octets : List ℕ)
        → HasOneReading (Taken ObjectName) (one_name.begins at octets) (one_name.fault at octets) }
{}

/// What is written for a name is read back as the same name, whatever follows it.
pub fn written_names_are_read()
    ensures { (n : ObjectName) → IsName n → (at : ℕ) (rest : List ℕ)
        → one_name.begins at (name_octets n ++ rest)
        (taken n (at + length (name_octets n)) rest) }
{}

/// Octets have one reading as outcomes: exactly one holds, they begin with exactly one outcome, or
/// they have exactly one first fault.
pub fn outcomes_have_one_reading()
    ensures { (at : ℕ) (octets : List ℕ)
        → HasOneReading (Taken Outcome) (one_outcome.begins at octets)
        (one_outcome.fault at octets) }
{}

/// What is written for a lawful outcome is read back as the same outcome, whatever follows it.
pub fn written_outcomes_are_read()
    ensures { (o : Outcome) → IsLawfulOutcome o → IsHeldOutcome o
        → length (outcome_octets o) < 2 ^ 32 → (at : ℕ) (rest : List ℕ)
        → one_outcome.begins at (outcome_octets o ++ rest)
        (taken o (at + length (outcome_octets o)) rest) }
{}
