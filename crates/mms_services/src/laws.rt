//! What holds of all octets and PDUs.
ghost use Rattle.std.specs.Prelude.{ℕ, ◌+◌, ◌<◌, ◌^◌, List, [], length};
ghost use Rattle.ber_values.specs.Reading.{Taken, HasOneReading};
ghost use Rattle.ber_values.specs.Grammars.{taken};
ghost use Rattle.mms_services.specs.declared.pdu.MmsPdu.{MmsPdu};
ghost use Rattle.mms_services.specs.OneNumber.{HasOneNumber};
ghost use Rattle.mms_services.specs.Pdus.{pdu};
ghost use Rattle.mms_services.specs.PduOctets.{pdu_octets, IsWritablePdu};
ghost use Rattle.mms_services.specs.Held.{IsHeldPdu};

/// Octets have one reading: exactly one holds, they spell exactly one PDU, or they have exactly one
/// first fault.
pub fn pdus_have_one_reading()
    ensures { (at : ℕ) (octets : List ℕ)
        → HasOneReading (Taken MmsPdu) (pdu.begins at octets) (pdu.fault at octets) }
{}

/// Octets are a request with one number at most.
pub fn requests_have_one_number()
    ensures { (octets : List ℕ) → HasOneNumber octets }
{}

/// What is written for a PDU is read back as the same PDU.
pub fn written_pdus_are_read()
    ensures { (p : MmsPdu) → IsWritablePdu p → IsHeldPdu p → length (pdu_octets p) < 2 ^ 32
        → (at : ℕ) → pdu.begins at (pdu_octets p) (taken p (at + length (pdu_octets p)) []) }
{}
