//! What holds of all octets and APDUs.
ghost use Rattle.std.specs.Prelude.{◌↔◌, ℕ, ◌+◌, ◌≤◌, List, [], length};
ghost use Rattle.ber_values.specs.Octets.{IsOctets};
ghost use Rattle.ber_values.specs.Reading.{Taken, HasOneReading};
ghost use Rattle.ber_values.specs.Readers.{taken_whole};
ghost use Rattle.acse_assoc.specs.declared.apdu.Apdu.{Apdu};
ghost use Rattle.acse_assoc.specs.declared.apdu.Apdu.TheVariants.{Aarq, Aare};
ghost use Rattle.acse_assoc.specs.declared.request.AssociateRequest.{AssociateRequest};
ghost use Rattle.acse_assoc.specs.declared.response.AssociateResponse.{AssociateResponse};
ghost use Rattle.acse_assoc.specs.declared.expected.Expected.{Expected};
ghost use Rattle.ber_values.specs.declared.lengths.TheConstants.{MOST_BODY};
ghost use Rattle.ber_values.specs.Grammars.{taken};
ghost use Rattle.acse_assoc.specs.Apdus.{apdu};
ghost use Rattle.acse_assoc.specs.Sequences.{IsWholeAarq, IsWholeAare};
ghost use Rattle.acse_assoc.specs.Writing.{apdu_octets, apdu_as_written, IsWritableApdu};
ghost use Rattle.acse_assoc.specs.Writing.{IsKeptApdu};
ghost use Rattle.acse_assoc.specs.Writing.{IsExpectedApdu};

/// Octets have one reading, whatever is expected: exactly one holds, they spell exactly one APDU,
/// or they have exactly one first fault.
pub fn apdus_have_one_reading()
    ensures { (e : Expected) (at : ℕ) (octets : List ℕ)
        → HasOneReading (Taken Apdu) ((apdu e).begins at octets) ((apdu e).fault at octets) }
{}

/// What is written for an APDU that has what is expected of it is read back as the same APDU, whose
/// body is the octets that were given.
pub fn written_apdus_are_read()
    ensures { (e : Expected) (v : Apdu) (body : List ℕ) → IsWritableApdu v → IsKeptApdu v
        → IsExpectedApdu e v → length body ≤ MOST_BODY → (at : ℕ)
        → (apdu e).begins at (apdu_octets v body)
        (taken (apdu_as_written at v body) (at + length (apdu_octets v body)) []) }
{}

/// Octets are an AARQ just where they are one element of its tag, whose contents are elements of
/// the context class with rising numbers, among which those that an AARQ must have stand and spell
/// its parts. The same holds of an AARE.
pub fn apdus_are_sequences()
    ensures aarq { (e : Expected) (at : ℕ) (octets : List ℕ) (r : AssociateRequest)
        → IsOctets octets → ((apdu e).begins at octets (taken_whole at octets (Aarq r))
        ↔ IsWholeAarq e at octets r) }
    ensures aare { (e : Expected) (at : ℕ) (octets : List ℕ) (r : AssociateResponse)
        → IsOctets octets → ((apdu e).begins at octets (taken_whole at octets (Aare r))
        ↔ IsWholeAare e at octets r) }
{}
