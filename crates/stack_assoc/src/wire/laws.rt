//! What holds of all that is written.
ghost use Rattle.std.specs.Prelude.{ℕ, ◌≤◌, Option, List};
ghost use Rattle.acse_assoc.specs.Writing.{IsKeptTitle};
ghost use Rattle.mms_services.specs.declared.initiate.Initiate.{Initiate};
ghost use Rattle.mms_services.specs.declared.pdu.MmsPdu.{MmsPdu};
ghost use Rattle.mms_services.specs.PduOctets.{pdu_len};
ghost use Rattle.tpkt_cotp.specs.Selectors.{HasSelector};
ghost use Rattle.stack_assoc.specs.declared.wire.setup.AssociationSetup.{AssociationSetup};
ghost use Rattle.stack_assoc.specs.Wire.Layouts.{AreLaidOut};
ghost use Rattle.stack_assoc.specs.Wire.Setups.{IsSetup};
ghost use Rattle.stack_assoc.specs.Wire.Said.{IsWiredMessage};
ghost use Rattle.stack_assoc.specs.Wire.Tsdus.{connect_tsdu, accept_tsdu, refusal_tsdu, finish_tsdu};
ghost use Rattle.stack_assoc.specs.Wire.Tsdus.{release_tsdu, abort_tsdu, data_tsdu};

/// With every id that a context may have, the finish, its answer, the abort and the refusal are the
/// fixed octets, around the id.
pub fn answers_are_laid_out()
    ensures { (id : ℕ) → id ≤ 65535 → AreLaidOut id }
{}

/// The TPKTs in which something goes out say exactly its TSDU, wherever they stand after the first
/// TPDU.
pub fn what_is_written_is_said()
    ensures connect { (title : Option (List ℕ)) → IsKeptTitle title
        → IsWiredMessage (connect_tsdu title) }
    ensures accept { (setup : AssociationSetup) (answer : Initiate) → IsSetup setup
        → HasSelector setup.session → HasSelector setup.presentation
        → IsWiredMessage (accept_tsdu setup answer) }
    ensures refusal { (acse : ℕ) → IsWiredMessage (refusal_tsdu acse) }
    ensures finish { (acse : ℕ) → IsWiredMessage (finish_tsdu acse) }
    ensures release { (acse : ℕ) → IsWiredMessage (release_tsdu acse) }
    ensures abort { (acse : ℕ) → IsWiredMessage (abort_tsdu acse) }
    ensures pdu { (mms : ℕ) (pdu : MmsPdu) → pdu_len pdu ≤ 65000
        → IsWiredMessage (data_tsdu mms pdu) }
{}
