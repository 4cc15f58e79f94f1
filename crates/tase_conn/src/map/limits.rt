//! PDUs within the limit that was agreed on.
ghost use Rattle.std.specs.Prelude.{◌≡◌, ◌≤◌, ◌≤ℤ◌};
ghost use Rattle.mms_services.specs.PduOctets.{IsWritablePdu, pdu_len};
ghost use Rattle.mms_services.specs.declared.initiate.TheConstants.{MOST_DETAIL};
ghost use Rattle.tase_conn.specs.Map.Out.{within, too_long};

use mms_services::{ErrorPdu, MmsPdu, pdu_len};

/// A PDU, or, where it has more octets than `detail`, the error that answers in its place the
/// request with this number.
pub fn within(detail: i64, invoke: u32, pdu: MmsPdu) -> MmsPdu
    requires writable { IsWritablePdu pdu }
    requires detail { detail ≤ℤ MOST_DETAIL }
    ensures value { result ≡ within detail invoke pdu }
    ensures writable { IsWritablePdu result }
    ensures few { pdu_len result ≤ 65000 }
{
    if pdu_len(&pdu) as i64 > detail {
        too_long(invoke)
    } else {
        pdu
    }
}

fn too_long(invoke: u32) -> MmsPdu
    ensures value { result ≡ too_long invoke }
    ensures writable { IsWritablePdu result }
    ensures few { pdu_len result ≤ 65000 }
{
    MmsPdu::Error(ErrorPdu {
        invoke,
        class: 3,
        code: 0,
    })
}
