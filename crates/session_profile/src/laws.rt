//! What holds of all octets and values.
ghost use Rattle.std.specs.Prelude.{ℕ, List, [], ◌≤◌, length};
ghost use Rattle.ber_values.specs.Reading.{HasOneReading};
ghost use Rattle.session_profile.specs.declared.spdu.Spdu.{Spdu};
ghost use Rattle.ber_values.specs.declared.lengths.TheConstants.{MOST_BODY};
ghost use Rattle.session_profile.specs.Connections.{Connection, connection};
ghost use Rattle.session_profile.specs.Counts.{AreOnce, HaveSoundContents};
ghost use Rattle.session_profile.specs.Parameters.{Parameter, BeginsParameters};
ghost use Rattle.session_profile.specs.Rules.{SpellsAll};
ghost use Rattle.session_profile.specs.Spdus.{SpellsSpdu, SpduFault};
ghost use Rattle.session_profile.specs.Writing.{written_form, spdu_as_written, IsWritableSpdu};

/// Octets have one reading: exactly one holds, they spell exactly one SPDU, or they have exactly
/// one first fault.
pub fn one_reading()
    ensures { (tsdu : List ℕ) → HasOneReading Spdu (λ spdu. SpellsSpdu spdu tsdu) (SpduFault tsdu) }
{}

/// In a connect or an accept the parameters stand in any order: the item and the user data once,
/// the requirements and the called selector once at most, no extended user data, and the contents
/// of each keep their rules.
pub fn parameters_once()
    ensures only { (at : ℕ) (c : Connection) (octets : List ℕ)
        → (s : SpellsAll connection at c octets) → AreOnce s.parameters
        × HaveSoundContents s.parameters }
    // Wherever parameters are so, they are those of one.
    ensures any { (at : ℕ) (octets : List ℕ) (ps : List Parameter) (end : ℕ)
        → BeginsParameters at octets ps end [] → AreOnce ps → HaveSoundContents ps
        → (c : Connection) × SpellsAll connection at c octets }
{}

/// What is written is read back as the same SPDU, whose body is the octets that were given.
pub fn written_is_read()
    ensures { (spdu : Spdu) (body : List ℕ) → IsWritableSpdu spdu → length body ≤ MOST_BODY
        → SpellsSpdu (spdu_as_written spdu body) (written_form spdu body) }
{}
