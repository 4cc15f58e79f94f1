//! SPDUs (ISO 8327-1, 8.3).
ghost use Rattle.std.specs.Prelude.{◌≡◌, ◌≢◌, ◌+◌, ◌^◌, ◌<◌, ◌≤◌, ◌↔◌, ◌-◌, ◌++◌, ◌∷◌, [], Ok, Err};
ghost use Rattle.std.specs.Prelude.{ℕ, length, take, option_copied, IfOk, OnOk, OnErr, IfSome};
ghost use Rattle.ber_values.specs.declared.lengths.TheConstants.{MOST_BODY};
ghost use Rattle.ber_values.specs.Faults.{fault_at, Gives};
ghost use Rattle.ber_values.specs.Stops.{Answers};
ghost use Rattle.session_profile.specs.declared.fault.SessionFault.{SessionFault};
ghost use Rattle.session_profile.specs.declared.spdu.Spdu.{Spdu};
ghost use Rattle.session_profile.specs.Connections.{called_of};
ghost use Rattle.session_profile.specs.Seen.{parameter_of, ber_fault_of, session_fault_of};
ghost use Rattle.session_profile.specs.Seen.{IsSpduBodyWithin};
ghost use Rattle.session_profile.specs.Writing.{released_user_data, refuse_octets};
ghost use Rattle.session_profile.specs.Writing.{release_spdu_octets};
ghost use Rattle.session_profile.specs.Writing.{abort_octets, carry_octets, written_form};
ghost use Rattle.session_profile.specs.Writing.{spdu_as_written, IsWritableSpdu};
ghost use Rattle.session_profile.specs.Spdus.{SpellsSpdu, SpduFault, is_code, wanted_octet_in};
ghost use Rattle.session_profile.specs.Spdus.{fixed_front_in};
ghost use Rattle.session_profile.specs.Spdus.{carried_data, plain_in, spdu_coded_in, whole_spdu_in};
ghost use Rattle.session_profile.specs.Spdus.{spdu_in};

use crate::connection::{ACCEPT, CONNECT, USER_DATA, put_accept, put_connect, read_connection};
use crate::fault::SessionFault;
use crate::parameter::{Parameter, element_len, put_element, put_head, read_end, read_parameter};
use ber_values::{BerFault, Span, Stop, Why, fault_at, or_undo, settle, short, surplus};
use std::alloc::{AllocError, Global};
use tpkt_cotp::Selector;

/// The most octets that are written around a body.
const MOST_AROUND: usize = 64;

const FINISH: u8 = 0x09;

const DISCONNECT: u8 = 0x0A;

const REFUSE: u8 = 0x0C;

const ABORT: u8 = 0x19;

const ABORT_ACCEPT: u8 = 0x1A;
/// GIVE TOKENS without parameters, then DATA TRANSFER without parameters.
const CARRY: [u8; 4] = [1, 0, 1, 0];

/// A session protocol data unit. A body is where its octets stand in the TSDU that was read.
#[derive(Debug, Drop, PartialEq, Eq)]
pub enum Spdu {
    /// CONNECT: asks for an association.
    Connect {
        called: Option<Selector>,
        body: Span,
    },
    /// ACCEPT: answers a connect.
    Accept {
        called: Option<Selector>,
        body: Span,
    },
    /// REFUSE: turns a connect down.
    Refuse,
    /// DATA TRANSFER, after GIVE TOKENS.
    Carry {
        body: Span,
    },
    /// FINISH: asks for the release.
    Finish,
    /// DISCONNECT: answers a finish.
    Disconnect,
    /// ABORT: ends the association at once.
    Abort,
    /// ABORT ACCEPT: answers an abort.
    AbortAccept,
}

/// The octets after this one, which has the place `at`.
fn read_octet(octets: &[u8], at: usize, want: u8) -> Result<&[u8], BerFault>
    ensures exact { Gives (λ rest. rest.now) result (wanted_octet_in at want octets.now) }
    ensures rest { IfOk result (λ rest. length rest.now < length octets.now) }
{
    match octets {
        [] => Err(short(at)),
        [first, rest @ ..] if *first == want => Ok(rest),
        _ => Err(fault_at(at, Why::Value)),
    }
}

/// The SPDU after the first octet of a data transfer.
fn read_carry(octets: &[u8]) -> Result<Spdu, BerFault>
    requires { 4 + length octets.now < 2 ^ 64 }
    ensures exact { result ≡ fixed_front_in 1 (0 ∷ 1 ∷ 0 ∷ []) octets.now carried_data }
    ensures body { IfOk result (λ spdu. IsSpduBodyWithin (1 + length octets.now) spdu) }
{
    let rest = read_octet(octets, 1, CARRY[1])?;
    let rest = read_octet(rest, 2, CARRY[2])?;
    let body = read_octet(rest, 3, CARRY[3])?;
    Ok(Spdu::Carry {
        body: Span {
            from: 4,
            to: 4 + body.len(),
        },
    })
}

/// The selector that was called; an empty one is none.
fn selector_from(alloc: Global, octets: Option<&[u8]>) -> Result<Option<Selector>, AllocError>
    requires { IfSome octets (λ octets. length octets.now ≤ 32) }
    ensures { IfOk result (λ selector. selector ≡ called_of (option_copied octets.entry)) }
{
    match octets {
        Some(octets) if !octets.is_empty() => {
            Ok(Some(Selector::new(Vec::from_slice(alloc, octets)?)))
        }
        _ => Ok(None),
    }
}

/// The SPDU of a code whose contents aren't looked at.
fn read_plain(code: u8) -> Result<Spdu, BerFault>
    ensures exact { result ≡ plain_in code }
    ensures body { (end : ℕ) → IfOk result (λ spdu. IsSpduBodyWithin end spdu) }
{
    match code {
        REFUSE => Ok(Spdu::Refuse),
        FINISH => Ok(Spdu::Finish),
        DISCONNECT => Ok(Spdu::Disconnect),
        ABORT => Ok(Spdu::Abort),
        ABORT_ACCEPT => Ok(Spdu::AbortAccept),
        _ => Err(surplus(0)),
    }
}

fn is_code(code: u8) -> bool
    ensures { result ≡ is_code code }
{
    matches!(
        code,
        CONNECT | ACCEPT | REFUSE | FINISH | DISCONNECT | ABORT | ABORT_ACCEPT
    )
}

/// The SPDU with this code and contents.
#[tactic(auto, unfolding(crate::specs::Spdus::spdu_coded_in))]
fn read_coded(alloc: Global, whole: &Parameter<'_>) -> Result<Spdu, Stop>
    requires { whole.now.body + length whole.now.contents.now < 2 ^ 64 }
    ensures exact { Answers (λ spdu. spdu) result (spdu_coded_in (parameter_of whole.now)) }
    ensures body { IfOk result (λ spdu.
        IsSpduBodyWithin (whole.now.body + length whole.now.contents.now) spdu) }
{
    match whole.identifier {
        CONNECT => {
            let connection = read_connection(whole.contents, whole.body)?;
            Ok(Spdu::Connect {
                called: selector_from(alloc, connection.called)?,
                body: connection.body,
            })
        }
        ACCEPT => {
            let connection = read_connection(whole.contents, whole.body)?;
            Ok(Spdu::Accept {
                called: selector_from(alloc, connection.called)?,
                body: connection.body,
            })
        }
        code => Ok(read_plain(code)?),
    }
}

/// An SPDU that fills the TSDU.
#[tactic(auto, unfolding(crate::specs::Spdus::whole_spdu_in))]
fn read_whole(alloc: Global, tsdu: &[u8]) -> Result<Spdu, Stop>
    requires { length tsdu.now < 2 ^ 63 }
    ensures exact { Answers (λ spdu. spdu) result (whole_spdu_in tsdu.now) }
    ensures body { IfOk result (λ spdu. IsSpduBodyWithin (length tsdu.now) spdu) }
{
    let whole = read_parameter(tsdu, 0)?;
    let spdu = read_coded(alloc, &whole)?;
    read_end(whole.rest, whole.next)?;
    Ok(spdu)
}

#[tactic(auto, unfolding(crate::specs::Spdus::spdu_in))]
fn read_any(alloc: Global, tsdu: &[u8]) -> Result<Spdu, Stop>
    ensures exact { Answers (λ spdu. spdu) result (spdu_in tsdu.now) }
    ensures body { IfOk result (λ spdu. IsSpduBodyWithin (length tsdu.now) spdu) }
{
    match tsdu {
        [] => Err(Stop::Fault(short(0))),
        [code, octets @ ..] if *code == CARRY[0] => Ok(read_carry(octets)?),
        [code, ..] if is_code(*code) => read_whole(alloc, tsdu),
        _ => Err(Stop::Fault(surplus(0))),
    }
}

fn read_exactly(alloc: Global, tsdu: &[u8]) -> Result<Result<Spdu, BerFault>, AllocError>
    ensures exact { IfOk result (λ read. read ≡ spdu_in tsdu.now) }
    ensures body { IfOk result (λ read.
        IfOk read (λ spdu. IsSpduBodyWithin (length tsdu.now) spdu)) }
{
    settle(read_any(alloc, tsdu))
}

/// A fault in the words of this layer.
fn session_fault(fault: BerFault) -> SessionFault
    ensures { result ≡ session_fault_of fault }
{
    SessionFault {
        place: fault.place,
        why: fault.why,
    }
}

/// The SPDU that a TSDU is.
pub fn read_spdu(alloc: Global, tsdu: &[u8]) -> Result<Result<Spdu, SessionFault>, AllocError>
    // An SPDU is read only where the octets spell it,
    ensures found { IfOk result (λ read. IfOk read (λ spdu. SpellsSpdu spdu tsdu.now)) }
    // and wherever they spell one, it is read, unless memory runs out.
    ensures only { (spdu : Spdu) → SpellsSpdu spdu tsdu.now → IfOk result (λ read. read ≡ Ok spdu) }
    // A fault is the first one from the left.
    ensures fault { (fault : SessionFault) → IfOk result (λ read.
        (read ≡ Err fault) ↔ SpduFault tsdu.now (ber_fault_of fault)) }
    // A body stands in the TSDU.
    ensures body { IfOk result (λ read.
        IfOk read (λ spdu. IsSpduBodyWithin (length tsdu.now) spdu)) }
{
    match read_exactly(alloc, tsdu)? {
        Ok(spdu) => Ok(Ok(spdu)),
        Err(fault) => Ok(Err(session_fault(fault))),
    }
}

/// The reason code of a refusal: 2, by the session user, with its data.
const REASON: u8 = 50;

const BY_USER: u8 = 2;
/// The transport disconnect of an abort: released, by the user, no reason.
const RELEASED: [u8; 3] = [17, 1, 11];

/// A refuse, whose contents are the reason code with the body.
fn put_refuse(out: &mut Vec<u8>, body: &[u8]) -> Result<(), AllocError>
    requires { length body.now ≤ MOST_BODY }
    ensures ok { OnOk result (out.new.items ≡ out.old.items ++ refuse_octets body.now) }
    ensures err { OnErr result (take (length out.old.items) out.new.items ≡ out.old.items) }
{
    let len = 1 + body.len();
    put_head(out, REFUSE, element_len(len))?;
    put_head(out, REASON, len)?;
    out.push(BY_USER)?;
    out.extend_from_slice(body)
}

/// An SPDU of this code, whose contents are the user data.
fn put_release(out: &mut Vec<u8>, code: u8, body: &[u8]) -> Result<(), AllocError>
    requires { length body.now ≤ MOST_BODY }
    ensures ok { OnOk result (out.new.items ≡ out.old.items ++ release_spdu_octets code body.now) }
    ensures err { OnErr result (take (length out.old.items) out.new.items ≡ out.old.items) }
{
    put_head(out, code, element_len(body.len()))?;
    put_element(out, USER_DATA, body)
}

/// What an abort has: the transport disconnect and the user data.
fn put_released(out: &mut Vec<u8>, body: &[u8]) -> Result<(), AllocError>
    requires { length body.now ≤ MOST_BODY }
    ensures ok { OnOk result (out.new.items ≡ out.old.items ++ released_user_data body.now) }
    ensures err { OnErr result (take (length out.old.items) out.new.items ≡ out.old.items) }
{
    out.extend_from_slice(&RELEASED)?;
    put_element(out, USER_DATA, body)
}

fn put_abort(out: &mut Vec<u8>, body: &[u8]) -> Result<(), AllocError>
    requires { length body.now ≤ MOST_BODY }
    ensures ok { OnOk result (out.new.items ≡ out.old.items ++ abort_octets body.now) }
    ensures err { OnErr result (take (length out.old.items) out.new.items ≡ out.old.items) }
{
    put_head(out, ABORT, RELEASED.len() + element_len(body.len()))?;
    put_released(out, body)
}

fn put_carry(out: &mut Vec<u8>, body: &[u8]) -> Result<(), AllocError>
    ensures ok { OnOk result (out.new.items ≡ out.old.items ++ carry_octets body.now) }
    ensures err { OnErr result (take (length out.old.items) out.new.items ≡ out.old.items) }
{
    out.extend_from_slice(&CARRY)?;
    out.extend_from_slice(body)
}

fn put_spdu(out: &mut Vec<u8>, spdu: &Spdu, body: &[u8]) -> Result<(), AllocError>
    requires written { spdu.now ≢ Spdu.AbortAccept }
    requires fits { length body.now ≤ MOST_BODY }
    ensures writable { IsWritableSpdu spdu.now }
    ensures ok { OnOk result (out.new.items ≡ out.old.items ++ written_form spdu.now body.now) }
    ensures err { OnErr result (take (length out.old.items) out.new.items ≡ out.old.items) }
{
    match spdu {
        Spdu::Connect { called, .. } => put_connect(out, called, body),
        Spdu::Accept { called, .. } => put_accept(out, called, body),
        Spdu::Refuse => put_refuse(out, body),
        Spdu::Carry { .. } => put_carry(out, body),
        Spdu::Finish => put_release(out, FINISH, body),
        Spdu::Disconnect => put_release(out, DISCONNECT, body),
        Spdu::Abort => put_abort(out, body),
        Spdu::AbortAccept => Ok(()),
    }
}

/// Appends an SPDU with these octets as its body; the place of a body in `spdu` isn't used. After
/// want of memory `out` is as before.
pub fn write_spdu(out: &mut Vec<u8>, spdu: &Spdu, body: &[u8]) -> Result<(), AllocError>
    requires written { spdu.now ≢ Spdu.AbortAccept }
    requires fits { length body.now ≤ MOST_BODY }
    ensures ok { OnOk result (out.new.items ≡ out.old.items ++ written_form spdu.now body.now) }
    ensures err { OnErr result (out.new.items ≡ out.old.items) }
    // It is read back as the same value, whose body is these octets.
    ensures spelled { OnOk result
        (SpellsSpdu (spdu_as_written spdu.now body.now) (written_form spdu.now body.now)) }
{
    let mark = out.len();
    out.reserve(body.len() + MOST_AROUND)?;
    let done = put_spdu(out, spdu, body);
    or_undo(out, mark, done)
}
