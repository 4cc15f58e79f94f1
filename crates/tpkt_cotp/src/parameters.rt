//! The parameters of connect requests and confirms (ISO 8073, 13.3.4 and 13.4.4).
ghost use Rattle.std.specs.Prelude.{◌≡◌, ◌+◌, ◌<◌, ◌≤◌, ◌^◌, length, drop, IfOk, IfSome};
ghost use Rattle.std.specs.Prelude.{slice_index};
ghost use Rattle.tpkt_cotp.specs.Readings.{GivesReading, parameters_in, tpdu_parameter_in};
ghost use Rattle.tpkt_cotp.specs.Tpdus.{is_twice, is_length_of, is_value_of, with_value};
ghost use Rattle.tpkt_cotp.specs.Found.{parameters_of};

use crate::fault::{CotpFault, fault_at};
use crate::limits::SELECTOR_LIMIT;
use ber_values::Why;

/// Parameters as they stand in the octets that were read.
#[derive(Clone, Copy)]
pub(crate) struct Found<'a> {
    pub(crate) size: Option<u8>,
    pub(crate) calling: Option<&'a [u8]>,
    pub(crate) called: Option<&'a [u8]>,
}

pub(crate) const NONE: Found = Found {
    size: None,
    calling: None,
    called: None,
};

const SIZE: u8 = 0xC0;

const CALLING: u8 = 0xC1;

const CALLED: u8 = 0xC2;

fn is_there(seen: &Found, code: u8) -> bool
    ensures { result ≡ is_twice (parameters_of seen.now) code }
{
    match code {
        SIZE => seen.size.is_some(),
        CALLING => seen.calling.is_some(),
        CALLED => seen.called.is_some(),
        _ => false,
    }
}

fn may_count(code: u8, count: usize) -> bool
    ensures { result ≡ is_length_of code count }
{
    match code {
        SIZE => count == 1,
        CALLING | CALLED => 1 <= count && count <= SELECTOR_LIMIT,
        _ => true,
    }
}

fn may_begin(code: u8, value: &[u8]) -> bool
    requires { code ≡ 192 → 0 < length value.now }
    ensures { result ≡ is_value_of code (slice_index value.now 0) }
{
    code != SIZE || 7 <= value[0] && value[0] <= 13
}

fn with<'a>(seen: Found<'a>, code: u8, value: &'a [u8]) -> Found<'a>
    requires { code ≡ 192 → 0 < length value.now }
    ensures { parameters_of result ≡ with_value (parameters_of seen.entry) code value.now }
{
    match code {
        SIZE => Found {
            size: Some(value[0]),
            ..seen
        },
        CALLING => Found {
            calling: Some(value),
            ..seen
        },
        CALLED => Found {
            called: Some(value),
            ..seen
        },
        _ => seen,
    }
}

/// The parameter with this code, in a TPDU with so much room from the code on: the parameters with
/// it, the octets of its value, and the octets from there on. `at` is the place of the code.
fn read_parameter<'a>(
    seen: Found<'a>,
    at: usize,
    room: usize,
    code: u8,
    octets: &'a [u8],
) -> Result<Option<(Found<'a>, usize, &'a [u8])>, CotpFault>
    requires { at + room < 2 ^ 32 }
    ensures exact { GivesReading (λ x. record { seen = parameters_of x.0; count = x.1 }) result
        (tpdu_parameter_in (parameters_of seen.entry) at room code octets.now) }
    ensures rest { IfOk result (λ found. IfSome found
        (λ x. (length octets.now ≡ x.1 + 1 + length x.2.now)
        × (x.2.now ≡ drop (x.1 + 1) octets.now) × (x.1 + 2 ≤ room))) }
{
    if is_there(&seen, code) {
        return Err(fault_at(at, Why::Tag));
    }
    if room == 1 {
        return Err(fault_at(at + 1, Why::Short));
    }
    let [count, octets @ ..] = octets else {
        return Ok(None);
    };
    let count = usize::from(*count);
    if !may_count(code, count) || count + 2 > room {
        return Err(fault_at(at + 1, Why::Length));
    }
    if octets.len() < count {
        return Ok(None);
    }
    let (value, rest) = octets.split_at(count);
    if !may_begin(code, value) {
        return Err(fault_at(at + 2, Why::Value));
    }
    Ok(Some((with(seen, code, value), count, rest)))
}

/// The parameters that fill the room from `at` on.
pub(crate) fn read_parameters<'a>(
    seen: Found<'a>,
    at: usize,
    room: usize,
    octets: &'a [u8],
) -> Result<Option<Found<'a>>, CotpFault>
    requires { at + room < 2 ^ 32 }
    ensures { GivesReading parameters_of result (parameters_in (parameters_of seen.entry) at room 0
        octets.now) }
{
    if room == 0 {
        return Ok(Some(seen));
    }
    let [code, octets @ ..] = octets else {
        return Ok(None);
    };
    match read_parameter(seen, at, room, *code, octets) {
        Ok(Some((seen, count, rest))) => {
            read_parameters(seen, at + 2 + count, room - 2 - count, rest)
        }
        Ok(None) => Ok(None),
        Err(fault) => Err(fault),
    }
}
