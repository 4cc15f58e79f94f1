//! What holds of all octets and values.
ghost use Rattle.std.specs.Prelude.{ℕ, ◌+◌, ◌≤◌, List, ◌++◌, length};
ghost use Rattle.std.specs.List.{All};
ghost use Rattle.ber_values.specs.Oid.{IsOid};
ghost use Rattle.ber_values.specs.Grammars.{taken};
ghost use Rattle.ber_values.specs.Readers.{taken_whole};
ghost use Rattle.ber_values.specs.Reading.{Taken, HasOneReading};
ghost use Rattle.presentation_profile.specs.declared.offers.Offered.{Offered};
ghost use Rattle.presentation_profile.specs.declared.ppdu.Ppdu.{Ppdu};
ghost use Rattle.presentation_profile.specs.declared.expected.Expected.{Expected};
ghost use Rattle.presentation_profile.specs.Offers.{offers};
ghost use Rattle.ber_values.specs.declared.lengths.TheConstants.{MOST_BODY};
ghost use Rattle.presentation_profile.specs.Ppdus.{ppdu};
ghost use Rattle.presentation_profile.specs.Written.{offers_octets, ppdu_octets, ppdu_as_written};
ghost use Rattle.presentation_profile.specs.Written.{AreOffers, IsWritablePpdu, IsKeptPpdu};
ghost use Rattle.presentation_profile.specs.Written.{IsExpectedPpdu};

/// Octets have one reading as offers: exactly one holds, they begin with exactly one list of them,
/// or they have exactly one first fault.
pub fn offers_have_one_reading()
    ensures { (at : ℕ) (octets : List ℕ)
        → HasOneReading (Taken (List Offered)) (offers.begins at octets) (offers.fault at octets) }
{}

/// Octets have one reading as a PPDU, whatever is expected: exactly one holds, they are exactly
/// one, or they have exactly one first fault.
pub fn ppdus_have_one_reading()
    ensures { (e : Expected) (at : ℕ) (octets : List ℕ) → HasOneReading (Taken Ppdu)
        ((ppdu e).begins at octets) ((ppdu e).fault at octets) }
{}

/// What is written for offers is read back as the same offers, whatever follows it.
pub fn written_offers_are_read()
    ensures { (os : List Offered) (at : ℕ) (rest : List ℕ)
        → AreOffers os → All (λ o. IsOid o.abstract_name) os
        → offers.begins at (offers_octets os ++ rest)
        (taken os (at + length (offers_octets os)) rest) }
{}

/// What is written for a PPDU that has what is expected of it is read back as the same PPDU, with
/// its body where that was written.
pub fn written_ppdus_are_read()
    ensures { (e : Expected) (p : Ppdu) (body : List ℕ) (at : ℕ)
        → IsWritablePpdu p → IsKeptPpdu p → IsExpectedPpdu e p → length body ≤ MOST_BODY
        → (ppdu e).begins at (ppdu_octets p body)
        (taken_whole at (ppdu_octets p body) (ppdu_as_written at p body)) }
{}
