//! What holds of all octets and values.
ghost use Rattle.std.specs.Prelude.{◌≡◌, ◌≢◌, ◌↔◌, ℕ, ◌+◌, ◌%◌, ◌≤◌, Bool, ℤ, List, ◌++◌, length};
ghost use Rattle.ber_values.specs.declared.fault.BerFault.{BerFault};
ghost use Rattle.ber_values.specs.Reading.{Taken, IsReading, HasOneReading};
ghost use Rattle.ber_values.specs.Octets.{IsOctets};
ghost use Rattle.ber_values.specs.Tags.{SpellsLength};
ghost use Rattle.ber_values.specs.Numbers.{SpellsInteger};
ghost use Rattle.ber_values.specs.Writing.{written, length_octets, integer_octets};
ghost use Rattle.ber_values.specs.Elements.{Kind, Value, Element, SpellsElement, ElementFault};
ghost use Rattle.ber_values.specs.Elements.{contents_octets, IsWritable, WrittenAt};
ghost use Rattle.ber_values.specs.Passing.{pass_in};
ghost use Rattle.ber_values.specs.Runs.{AnyElement, BeginsPassed, BeginsRun, TakesRun, BreaksRun};

/// Octets have one reading for each kind of element: exactly one holds, they begin with exactly
/// one element of the kind, or they have exactly one first fault.
pub fn one_reading()
    ensures { (kind : Kind) (at : ℕ) (octets : List ℕ)
        → HasOneReading (Element kind) (SpellsElement kind at octets)
        (ElementFault kind at octets) }
{}

/// What is written is read back as the same value, whatever follows it.
pub fn written_is_read()
    ensures { (kind : Kind) (value : Value kind) (tag at : ℕ) (rest : List ℕ)
        → IsWritable kind value → tag % 32 ≢ 31
        → WrittenAt kind value tag at (written tag (contents_octets kind value) ++ rest)
        (at + length (written tag (contents_octets kind value))) }
{}

/// No spelling is shorter than the written form: of a length, and of an integer.
pub fn written_is_shortest()
    ensures lengths { (n : ℕ) (octets : List ℕ) → IsOctets octets → SpellsLength n octets
        → length (length_octets n) ≤ length octets }
    ensures integers { (value : ℤ) (octets : List ℕ) → IsOctets octets → SpellsInteger value octets
        → length (integer_octets value) ≤ length octets }
{}

/// Elements whose tags pass a test are passed over up to the end, or to an octet that doesn't pass:
/// the longest such run, and the only one. It breaks where an element that would be passed over has
/// a faulty head.
pub fn passing_takes_the_longest_run()
    ensures run { (skips : ℕ → Bool) (at : ℕ) (octets : List ℕ) (t : Taken (Unit {0}))
        → (pass_in skips).begins at octets t ↔ TakesRun skips at octets t }
    ensures breaks { (skips : ℕ → Bool) (at : ℕ) (octets : List ℕ) (f : BerFault)
        → (pass_in skips).fault at octets f ↔ BreaksRun skips at octets f }
    ensures read { (skips : ℕ → Bool) (at : ℕ) (octets : List ℕ)
        → IsReading (Taken (Unit {0})) (TakesRun skips at octets) (BreaksRun skips at octets)
        ((pass_in skips).reading at octets) }
    ensures longest { (skips : ℕ → Bool) (octets : List ℕ) (run more : List AnyElement)
        (rest after : List ℕ) → BeginsRun skips octets run rest
        → BeginsPassed skips octets more after
        → (others : List AnyElement) × (run ≡ more ++ others) }
    ensures one { (skips : ℕ → Bool) (octets : List ℕ) (run other : List AnyElement)
        (rest after : List ℕ) → BeginsRun skips octets run rest
        → BeginsRun skips octets other after → run ≡ other }
{}
