//! A TPKT and its TPDU at the front of the octets (RFC 1006, section 6; ISO 8073, 13).
ghost use Rattle.std.specs.Prelude.{◌+◌, ◌-◌, ◌<◌, ◌≤◌, ◌^◌, length, IfOk, IfSome, IfNone};
ghost use Rattle.tpkt_cotp.specs.declared.limits.TheConstants.{TPKT_LIMIT};
ghost use Rattle.tpkt_cotp.specs.Readings.{GivesReading, tpkt_in, sized_in, tpdu_in, tpdu_body_in};
ghost use Rattle.tpkt_cotp.specs.Readings.{connection_request_in};
ghost use Rattle.tpkt_cotp.specs.Readings.{data_part_in, disconnect_in, marked_in, connect_with};
ghost use Rattle.tpkt_cotp.specs.Readings.{parameters_in, known_in};
ghost use Rattle.tpkt_cotp.specs.Tpdus.{no_parameters};
ghost use Rattle.tpkt_cotp.specs.Sound.{IsSoundTpdu};
ghost use Rattle.tpkt_cotp.specs.Streams.{MayComeAfter};
ghost use Rattle.tpkt_cotp.specs.Found.{tpkt_seen, tpdu_seen};

use crate::fault::{CotpFault, fault_at};
use crate::limits::TSDU_LIMIT;
use crate::parameters::{Found, NONE, read_parameters};
use crate::turn::{Kind, Turn};
use ber_values::Why;

/// A TPDU as it stands in the octets that were read.
#[derive(Clone, Copy)]
pub(crate) enum Tpdu<'a> {
    Request {
        source: u16,
        parameters: Found<'a>,
    },
    Confirm {
        target: u16,
        source: u16,
        parameters: Found<'a>,
    },
    Disconnect,
    /// Octets of a TSDU, and whether they are its last.
    Part {
        last: bool,
        part: &'a [u8],
    },
}

/// A TPDU, and the octets of its TPKT.
#[derive(Clone, Copy)]
pub(crate) struct Tpkt<'a> {
    pub(crate) size: usize,
    pub(crate) tpdu: Tpdu<'a>,
}

/// What stands behind the class octet of a connect request or confirm.
fn connect_with<'a>(
    is_request: bool,
    size: usize,
    target: u16,
    source: u16,
    octets: &'a [u8],
) -> Result<Option<Tpkt<'a>>, CotpFault>
    requires { (11 ≤ size) × (size < 2 ^ 16) }
    ensures { GivesReading tpkt_seen result (connect_with is_request size target source
        (parameters_in no_parameters 11 (size - 11) 0 octets.now)) }
{
    match read_parameters(NONE, 11, size - 11, octets) {
        Ok(Some(parameters)) if is_request => Ok(Some(Tpkt {
            size,
            tpdu: Tpdu::Request { source, parameters },
        })),
        Ok(Some(parameters)) => Ok(Some(Tpkt {
            size,
            tpdu: Tpdu::Confirm {
                target,
                source,
                parameters,
            },
        })),
        Ok(None) => Ok(None),
        Err(fault) => Err(fault),
    }
}

/// What stands behind the code of a connect request or confirm.
#[tactic(auto, unfolding(crate::specs::Readings::connection_request_in))]
fn read_connect<'a>(
    is_request: bool,
    size: usize,
    octets: &'a [u8],
) -> Result<Option<Tpkt<'a>>, CotpFault>
    requires { size < 2 ^ 16 }
    ensures { GivesReading tpkt_seen result (connection_request_in is_request size octets.now) }
{
    let [high, low, upper, lower, class, rest @ ..] = octets else {
        if size <= octets.len() + 6 {
            return Err(fault_at(size, Why::Short));
        }
        return Ok(None);
    };
    if size < 11 {
        return Err(fault_at(size, Why::Short));
    }
    if *class >= 16 {
        return Err(fault_at(10, Why::Value));
    }
    let target = u16::from_be_bytes([*high, *low]);
    let source = u16::from_be_bytes([*upper, *lower]);
    connect_with(is_request, size, target, source, rest)
}

#[tactic(auto, unfolding(crate::specs::Readings::marked_in))]
fn read_marked<'a>(sum: usize, size: usize, octets: &'a [u8]) -> Result<Option<Tpkt<'a>>, CotpFault>
    requires { (7 ≤ size) × (size < 2 ^ 16) }
    ensures { GivesReading tpkt_seen result (marked_in sum size octets.now) }
{
    let [mark, octets @ ..] = octets else {
        return Ok(None);
    };
    let last = *mark >= 128;
    if last && sum == 0 {
        return Err(fault_at(size, Why::Short));
    }
    if octets.len() < size - 7 {
        return Ok(None);
    }
    let part = &octets[..size - 7];
    Ok(Some(Tpkt {
        size,
        tpdu: Tpdu::Part { last, part },
    }))
}

#[tactic(auto, unfolding(crate::specs::Readings::data_part_in))]
fn read_part<'a>(total: usize, size: usize, octets: &'a [u8]) -> Result<Option<Tpkt<'a>>, CotpFault>
    requires sized { (7 ≤ size) × (size < 2 ^ 16) }
    requires within { total ≤ TSDU_LIMIT }
    ensures { GivesReading tpkt_seen result (data_part_in total size octets.now) }
{
    let sum = total + (size - 7);
    if sum > TSDU_LIMIT {
        return Err(fault_at(2, Why::Long));
    }
    read_marked(sum, size, octets)
}

#[tactic(auto, unfolding(crate::specs::Readings::disconnect_in))]
fn read_disconnect<'a>(size: usize, octets: &'a [u8]) -> Result<Option<Tpkt<'a>>, CotpFault>
    requires { size < 2 ^ 16 }
    ensures { GivesReading tpkt_seen result (disconnect_in size octets.now) }
{
    if octets.len() + 6 < size {
        return Ok(None);
    }
    Ok(Some(Tpkt {
        size,
        tpdu: Tpdu::Disconnect,
    }))
}

#[tactic(auto, unfolding(crate::specs::Readings::tpdu_body_in))]
fn read_body<'a>(
    kind: Kind,
    total: usize,
    size: usize,
    octets: &'a [u8],
) -> Result<Option<Tpkt<'a>>, CotpFault>
    requires sized { (7 ≤ size) × (size < 2 ^ 16) }
    requires within { total ≤ TSDU_LIMIT }
    ensures { GivesReading tpkt_seen result (tpdu_body_in kind total size octets.now) }
{
    match kind {
        Kind::Request => read_connect(true, size, octets),
        Kind::Confirm => read_connect(false, size, octets),
        Kind::Disconnect => read_disconnect(size, octets),
        Kind::Part => read_part(total, size, octets),
    }
}

/// What stands behind a code that is known.
fn read_known<'a>(
    turn: Turn,
    total: usize,
    size: usize,
    count: u8,
    kind: Kind,
    octets: &'a [u8],
) -> Result<Option<Tpkt<'a>>, CotpFault>
    requires sized { (7 ≤ size) × (size < 2 ^ 16) }
    requires within { total ≤ TSDU_LIMIT }
    ensures { GivesReading tpkt_seen result
        (known_in turn total size count (Some kind) octets.now) }
{
    if !kind.may_count(size, count) {
        return Err(fault_at(4, Why::Length));
    }
    if !turn.may_come(kind) {
        return Err(fault_at(0, Why::Order));
    }
    read_body(kind, total, size, octets)
}

/// What stands behind the head of the TPKT.
#[tactic(auto, unfolding(crate::specs::Readings::tpdu_in))]
fn read_tpdu<'a>(
    turn: Turn,
    total: usize,
    size: usize,
    octets: &'a [u8],
) -> Result<Option<Tpkt<'a>>, CotpFault>
    requires sized { (7 ≤ size) × (size < 2 ^ 16) }
    requires within { total ≤ TSDU_LIMIT }
    ensures { GivesReading tpkt_seen result (tpdu_in turn total size octets.now) }
{
    let [count, code, octets @ ..] = octets else {
        return Ok(None);
    };
    match Kind::from_code(*code) {
        None => Err(fault_at(5, Why::Tag)),
        Some(kind) => read_known(turn, total, size, *count, kind, octets),
    }
}

/// What stands behind the version.
#[tactic(auto, unfolding(crate::specs::Readings::sized_in))]
fn read_sized<'a>(turn: Turn, total: usize, octets: &'a [u8]) -> Result<Option<Tpkt<'a>>, CotpFault>
    requires { total ≤ TSDU_LIMIT }
    ensures { GivesReading tpkt_seen result (sized_in turn total octets.now) }
{
    let [_, high, low, octets @ ..] = octets else {
        return Ok(None);
    };
    let size = usize::from(*high) * 256 + usize::from(*low);
    if size < 7 {
        return Err(fault_at(2, Why::Length));
    }
    read_tpdu(turn, total, size, octets)
}

/// The TPKT at the front, where `total` octets of a TSDU came before.
pub(crate) fn read_tpkt<'a>(
    turn: Turn,
    total: usize,
    octets: &'a [u8],
) -> Result<Option<Tpkt<'a>>, CotpFault>
    requires { total ≤ TSDU_LIMIT }
    ensures exact { GivesReading tpkt_seen result (tpkt_in turn total octets.now) }
    ensures within { IfOk result (λ found. IfSome found (λ tpkt. tpkt.size ≤ length octets.now)) }
    ensures sound { IfOk result
        (λ found. IfSome found (λ tpkt. IsSoundTpdu (tpdu_seen tpkt.tpdu))) }
    ensures fits { IfOk result (λ found. IfSome found
        (λ tpkt. MayComeAfter total (tpdu_seen tpkt.tpdu))) }
    ensures cut { IfOk result (λ found. IfNone found (length octets.now ≤ TPKT_LIMIT - 1)) }
{
    read_front(turn, total, octets)
}

#[tactic(auto, unfolding(crate::specs::Readings::tpkt_in))]
fn read_front<'a>(turn: Turn, total: usize, octets: &'a [u8]) -> Result<Option<Tpkt<'a>>, CotpFault>
    requires { total ≤ TSDU_LIMIT }
    ensures { GivesReading tpkt_seen result (tpkt_in turn total octets.now) }
{
    match octets {
        [] => Ok(None),
        [3, octets @ ..] => read_sized(turn, total, octets),
        _ => Err(fault_at(0, Why::Value)),
    }
}
