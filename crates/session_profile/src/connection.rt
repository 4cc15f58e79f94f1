//! The parameters of connect and accept (ISO 8327-1, CONNECT SPDU and ACCEPT SPDU).
ghost use Rattle.std.specs.Prelude.{◌≡◌, ℕ, ◌+◌, ◌-◌, ◌^◌, ◌<◌, ◌≤◌, ◌++◌, length, take};
ghost use Rattle.std.specs.Prelude.{slice_index, IfOk, IfSome, OnOk, OnErr};
ghost use Rattle.ber_values.specs.Faults.{Gives};
ghost use Rattle.session_profile.specs.Rules.{all_parameters_in, sound_in, next_in, whole_or_short};
ghost use Rattle.session_profile.specs.Connections.{has_second_bit, version_in};
ghost use Rattle.session_profile.specs.Connections.{item, judged, may_follow, with_one, connection};
ghost use Rattle.ber_values.specs.declared.lengths.TheConstants.{MOST_BODY};
ghost use Rattle.session_profile.specs.Writing.{calling, called_octets, called_and_data};
ghost use Rattle.session_profile.specs.Writing.{spdu_front_octets, connect_spdu_octets};
ghost use Rattle.session_profile.specs.Writing.{accept_spdu_octets};
ghost use Rattle.tpkt_cotp.specs.Selectors.{HasSelector};
ghost use Rattle.session_profile.specs.Seen.{parameter_of, taken_parameter_of, seen_of};
ghost use Rattle.session_profile.specs.Seen.{connection_seen};
ghost use Rattle.ber_values.specs.Externals.{IsSpanWithin};
ghost use Rattle.session_profile.specs.Seen.{IsParameterWithin, IsOptionalSpanWithin};

use crate::parameter::{Parameter, element_len, put_element, put_head, read_parameter};
use ber_values::{BerFault, Span, short, surplus};
use std::alloc::AllocError;
use tpkt_cotp::Selector;

/// The code of a connect.
pub(crate) const CONNECT: u8 = 0x0D;
/// The code of an accept.
pub(crate) const ACCEPT: u8 = 0x0E;
/// The item with protocol options 0 and version 2; user requirements: duplex.
const FRONT: [u8; 12] = [5, 6, 19, 1, 0, 22, 1, 2, 20, 2, 0, 2];
/// The calling selector 00 01.
const CALLING: [u8; 4] = [51, 2, 0, 1];

/// A group.
const ITEM: u8 = 5;
/// In the group.
const VERSION: u8 = 22;

const REQUIREMENTS: u8 = 20;

const CALLED: u8 = 52;

pub(crate) const USER_DATA: u8 = 193;

const EXTENDED_USER_DATA: u8 = 194;

/// What a connect or accept is.
#[derive(Clone, Copy)]
pub(crate) struct Connection<'a> {
    /// An empty one counts as none.
    pub(crate) called: Option<&'a [u8]>,
    /// Where the user data stand.
    pub(crate) body: Span,
}

/// What counts of the parameters that came.
#[derive(Clone, Copy)]
struct Seen<'a> {
    item: bool,
    requirements: bool,
    called: Option<&'a [u8]>,
    user_data: Option<Span>,
}

const NOTHING: Seen = Seen {
    item: false,
    requirements: false,
    called: None,
    user_data: None,
};

/// Whether an octet has the bit of version 2, or of duplex.
fn has_second_bit(octets: &[u8], index: usize) -> bool
    ensures { result ≡ has_second_bit (slice_index octets.now index) }
{
    index < octets.len() && octets[index] / 2 % 2 == 1
}

/// Judges a version.
fn read_version(parameter: &Parameter<'_>) -> Result<(), BerFault>
    requires { parameter.now.place + 1 < 2 ^ 64 }
    ensures { result ≡ version_in (parameter_of parameter.now) }
{
    let kept = has_second_bit(parameter.contents, 0);
    parameter.judge(parameter.contents.len() == 1, kept)
}

/// The parameter at the front of the item.
#[tactic(auto, unfolding(crate::specs::Connections::item))]
fn read_in_item(octets: &[u8], at: usize) -> Result<Parameter<'_>, BerFault>
    requires { at + length octets.now < 2 ^ 64 }
    ensures exact { Gives taken_parameter_of result (sound_in item at octets.now) }
    ensures within { IfOk result (λ p. IsParameterWithin at octets.now p) }
{
    let parameter = read_parameter(octets, at)?;
    if parameter.identifier == VERSION {
        read_version(&parameter)?;
    }
    Ok(parameter)
}

/// A version has to be there.
#[tactic(auto, unfolding(crate::specs::Connections::item))]
fn finish_item(versioned: bool, at: usize) -> Result<(), BerFault>
    ensures { result ≡ whole_or_short (item.value versioned) at }
{
    if versioned { Ok(()) } else { Err(short(at)) }
}

/// Judges the connect/accept item.
fn read_item(octets: &[u8], at: usize) -> Result<(), BerFault>
    requires { at + length octets.now < 2 ^ 64 }
    ensures { result ≡ all_parameters_in item at octets.now }
{
    let mut versioned = false;
    let mut place = at;
    let mut rest = octets;
    while !rest.is_empty() {
        let parameter = read_in_item(rest, place)?;
        versioned = versioned | (parameter.identifier == VERSION);
        place = parameter.next;
        rest = parameter.rest;
    }
    finish_item(versioned, place)
}

fn may_follow(seen: &Seen, identifier: u8) -> bool
    ensures { result ≡ may_follow (seen_of seen.now) identifier }
{
    match identifier {
        ITEM => !seen.item,
        REQUIREMENTS => !seen.requirements,
        CALLED => seen.called.is_none(),
        USER_DATA => seen.user_data.is_none(),
        _ => identifier != EXTENDED_USER_DATA,
    }
}

fn with_one<'a>(seen: Seen<'a>, parameter: &Parameter<'a>) -> Seen<'a>
    requires body { parameter.now.body + length parameter.now.contents.now < 2 ^ 64 }
    requires before { IfSome seen.called (λ octets. length octets.now ≤ 32) }
    requires called { parameter.now.identifier ≡ 52 → length parameter.now.contents.now ≤ 32 }
    ensures exact { seen_of result ≡ with_one (seen_of seen.entry) (parameter_of parameter.now) }
    ensures called { IfSome result.called (λ octets. length octets.now ≤ 32) }
    ensures within { (start end : ℕ) → start ≤ parameter.now.body
        → parameter.now.body + length parameter.now.contents.now ≤ end
        → IsOptionalSpanWithin start end seen.entry.user_data
        → IsOptionalSpanWithin start end result.user_data }
{
    match parameter.identifier {
        ITEM => Seen { item: true, ..seen },
        REQUIREMENTS => Seen {
            requirements: true,
            ..seen
        },
        CALLED => Seen {
            called: Some(parameter.contents),
            ..seen
        },
        USER_DATA => Seen {
            user_data: Some(parameter.span()),
            ..seen
        },
        _ => seen,
    }
}

/// Judges the contents by their identifier.
fn judge(parameter: &Parameter<'_>) -> Result<(), BerFault>
    requires place { parameter.now.place + 1 < 2 ^ 64 }
    requires body { parameter.now.body + length parameter.now.contents.now < 2 ^ 64 }
    ensures exact { result ≡ judged (parameter_of parameter.now) }
    ensures called { OnOk result
        (parameter.now.identifier ≡ 52 → length parameter.now.contents.now ≤ 32) }
{
    match parameter.identifier {
        ITEM => read_item(parameter.contents, parameter.body),
        REQUIREMENTS => {
            let kept = has_second_bit(parameter.contents, 1);
            parameter.judge(parameter.contents.len() == 2, kept)
        }
        CALLED => parameter.judge(parameter.contents.len() <= 32, true),
        _ => Ok(()),
    }
}

/// The parameter at the front, where it may follow those that came.
#[tactic(auto, unfolding(crate::specs::Connections::connection))]
fn read_next<'a>(seen: &Seen<'_>, octets: &'a [u8], at: usize) -> Result<Parameter<'a>, BerFault>
    requires { at + length octets.now < 2 ^ 64 }
    ensures exact { Gives taken_parameter_of result
        (next_in connection (seen_of seen.now) at octets.now) }
    ensures within { IfOk result (λ p. IsParameterWithin at octets.now p) }
    ensures called { IfOk result (λ p. p.identifier ≡ 52 → length p.contents.now ≤ 32) }
{
    let [identifier, ..] = octets else {
        return Err(short(at));
    };
    if !may_follow(seen, *identifier) {
        return Err(surplus(at));
    }
    let parameter = read_parameter(octets, at)?;
    judge(&parameter)?;
    Ok(parameter)
}

/// What the parameters are that came up to a place, if none is missed.
#[tactic(auto, unfolding(crate::specs::Connections::connection))]
fn finish<'a>(seen: Seen<'a>, at: usize) -> Result<Connection<'a>, BerFault>
    requires { IfSome seen.called (λ octets. length octets.now ≤ 32) }
    ensures exact { Gives connection_seen result
        (whole_or_short (connection.value (seen_of seen.entry)) at) }
    ensures called { IfOk result (λ c. IfSome c.called (λ octets. length octets.now ≤ 32)) }
    ensures within { (start end : ℕ) → IsOptionalSpanWithin start end seen.entry.user_data
        → IfOk result (λ c. IsSpanWithin start end c.body) }
{
    match seen.user_data {
        Some(body) if seen.item => Ok(Connection {
            called: seen.called,
            body,
        }),
        _ => Err(short(at)),
    }
}

/// The connect or accept with these parameters.
pub(crate) fn read_connection(octets: &[u8], at: usize) -> Result<Connection<'_>, BerFault>
    requires { at + length octets.now < 2 ^ 64 }
    ensures exact { Gives connection_seen result (all_parameters_in connection at octets.now) }
    ensures called { IfOk result (λ c. IfSome c.called (λ octets. length octets.now ≤ 32)) }
    ensures within { IfOk result (λ c. IsSpanWithin at (at + length octets.now) c.body) }
{
    let mut seen = NOTHING;
    let mut place = at;
    let mut rest = octets;
    while !rest.is_empty() {
        let parameter = read_next(&seen, rest, place)?;
        seen = with_one(seen, &parameter);
        place = parameter.next;
        rest = parameter.rest;
    }
    finish(seen, place)
}

fn put_called(out: &mut Vec<u8>, called: &Option<Selector>) -> Result<(), AllocError>
    ensures ok { OnOk result (out.new.items ≡ out.old.items ++ called_octets called.now) }
    ensures err { OnErr result (take (length out.old.items) out.new.items ≡ out.old.items) }
{
    match called {
        Some(selector) => put_element(out, CALLED, selector.octets()),
        None => Ok(()),
    }
}

fn called_len(called: &Option<Selector>) -> usize
    ensures exact { result ≡ length (called_octets called.now) }
    ensures small { result ≤ 36 }
    ensures selector { HasSelector called.now }
{
    match called {
        Some(selector) => element_len(selector.octets().len()),
        None => 0,
    }
}

/// The called selector, if there is one, and the user data.
fn put_called_and_data(
    out: &mut Vec<u8>,
    called: &Option<Selector>,
    body: &[u8],
) -> Result<(), AllocError>
    requires { length body.now ≤ MOST_BODY }
    ensures ok { OnOk result
        (out.new.items ≡ out.old.items ++ called_and_data called.now body.now) }
    ensures err { OnErr result (take (length out.old.items) out.new.items ≡ out.old.items) }
{
    put_called(out, called)?;
    put_element(out, USER_DATA, body)
}

/// What a connect has after the item and the requirements.
fn put_selectors_and_data(
    out: &mut Vec<u8>,
    called: &Option<Selector>,
    body: &[u8],
) -> Result<(), AllocError>
    requires { length body.now ≤ MOST_BODY }
    ensures ok { OnOk result
        (out.new.items ≡ out.old.items ++ (calling ++ called_and_data called.now body.now)) }
    ensures err { OnErr result (take (length out.old.items) out.new.items ≡ out.old.items) }
{
    out.extend_from_slice(&CALLING)?;
    put_called_and_data(out, called, body)
}

/// The code, the length, the item and the requirements of a connect or an accept; `len` octets
/// follow.
fn put_front(out: &mut Vec<u8>, code: u8, len: usize) -> Result<(), AllocError>
    requires { len < 2 ^ 16 - 12 }
    ensures ok { OnOk result (out.new.items ≡ out.old.items ++ spdu_front_octets code len) }
    ensures err { OnErr result (take (length out.old.items) out.new.items ≡ out.old.items) }
{
    put_head(out, code, FRONT.len() + len)?;
    out.extend_from_slice(&FRONT)
}

/// Appends a connect.
pub(crate) fn put_connect(
    out: &mut Vec<u8>,
    called: &Option<Selector>,
    body: &[u8],
) -> Result<(), AllocError>
    requires { length body.now ≤ MOST_BODY }
    ensures ok { OnOk result (out.new.items ≡ out.old.items ++ connect_spdu_octets called.now
        body.now) }
    ensures selector { HasSelector called.now }
    ensures err { OnErr result (take (length out.old.items) out.new.items ≡ out.old.items) }
{
    let len = CALLING.len() + called_len(called) + element_len(body.len());
    put_front(out, CONNECT, len)?;
    put_selectors_and_data(out, called, body)
}

/// Appends an accept.
pub(crate) fn put_accept(
    out: &mut Vec<u8>,
    called: &Option<Selector>,
    body: &[u8],
) -> Result<(), AllocError>
    requires { length body.now ≤ MOST_BODY }
    ensures ok { OnOk result (out.new.items ≡ out.old.items ++ accept_spdu_octets called.now
        body.now) }
    ensures selector { HasSelector called.now }
    ensures err { OnErr result (take (length out.old.items) out.new.items ≡ out.old.items) }
{
    let len = called_len(called) + element_len(body.len());
    put_front(out, ACCEPT, len)?;
    put_called_and_data(out, called, body)
}
