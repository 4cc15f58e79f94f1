//! Connect requests, their answers and TSDUs, written.
ghost use Rattle.std.specs.Prelude.{◌≡◌, ℕ, ◌+◌, ◌-◌, ◌<◌, ◌≤◌, List, ◌++◌, take, length, IfSome};
ghost use Rattle.std.specs.Prelude.{OnOk, OnErr, option_copied};
ghost use Rattle.tpkt_cotp.specs.declared.limits.TheConstants.{SELECTOR_LIMIT, TSDU_LIMIT};
ghost use Rattle.tpkt_cotp.specs.Selectors.{IsSelector};
ghost use Rattle.tpkt_cotp.specs.Written.{connection_request_octets, size_octets, selector_octets};
ghost use Rattle.tpkt_cotp.specs.Written.{confirm_octets, part_octets};
ghost use Rattle.tpkt_cotp.specs.Written.{IsCut, wire};

use crate::selector::Selector;
use crate::tpdu::{ConnectRequest, Parameters};
use ber_values::or_undo;
use std::alloc::AllocError;

/// Appends the connect request with this calling selector: TPDUs of 1,024 octets, and the called
/// selector 00 01.
pub fn write_cr(out: &mut Vec<u8>, calling: u16) -> Result<(), AllocError>
    ensures ok { OnOk result (out.new.items ≡ out.old.items ++ connection_request_octets calling) }
    ensures err { OnErr result (out.new.items ≡ out.old.items) }
{
    let high = (calling / 256) as u8;
    let low = (calling % 256) as u8;
    out.extend_from_slice(&[
        0x03, 0x00, 0x00, 0x16, 0x11, 0xE0, 0x00, 0x00, 0x00, 0x01, 0x00, 0xC0, 0x01, 0x0A, 0xC1,
        0x02, high, low, 0xC2, 0x02, 0x00, 0x01,
    ])
}

fn put_size(out: &mut Vec<u8>, size: Option<u8>) -> Result<(), AllocError>
    ensures ok { OnOk result (out.new.items ≡ out.old.items ++ size_octets size) }
    ensures err { OnErr result (out.new.items ≡ out.old.items) }
{
    match size {
        None => Ok(()),
        Some(size) => out.extend_from_slice(&[0xC0, 1, size.min(10)]),
    }
}

fn begin_selector(out: &mut Vec<u8>, code: u8, selector: Option<&[u8]>) -> Result<(), AllocError>
    requires { IfSome (option_copied selector) IsSelector }
    ensures ok { OnOk result (out.new.items ≡ out.old.items ++ selector_octets code
        (option_copied selector.entry)) }
    ensures err { OnErr result (take (length out.old.items) out.new.items ≡ out.old.items) }
{
    match selector {
        None => Ok(()),
        Some(octets) => {
            out.extend_from_slice(&[code, octets.len() as u8])?;
            out.extend_from_slice(octets)
        }
    }
}

fn put_selector(out: &mut Vec<u8>, code: u8, selector: Option<&[u8]>) -> Result<(), AllocError>
    requires { IfSome (option_copied selector) IsSelector }
    ensures ok { OnOk result (out.new.items ≡ out.old.items ++ selector_octets code
        (option_copied selector.entry)) }
    ensures err { OnErr result (out.new.items ≡ out.old.items) }
{
    let mark = out.len();
    let done = begin_selector(out, code, selector);
    or_undo(out, mark, done)
}

fn put_selectors(
    out: &mut Vec<u8>,
    calling: Option<&[u8]>,
    called: Option<&[u8]>,
) -> Result<(), AllocError>
    requires calling { IfSome (option_copied calling) IsSelector }
    requires called { IfSome (option_copied called) IsSelector }
    ensures ok { OnOk result (out.new.items ≡ out.old.items ++
        (selector_octets 193 (option_copied calling.entry)
        ++ selector_octets 194 (option_copied called.entry))) }
    ensures err { OnErr result (take (length out.old.items) out.new.items ≡ out.old.items) }
{
    put_selector(out, 0xC1, calling)?;
    put_selector(out, 0xC2, called)
}

fn put_answer(
    out: &mut Vec<u8>,
    size: Option<u8>,
    calling: Option<&[u8]>,
    called: Option<&[u8]>,
) -> Result<(), AllocError>
    requires calling { IfSome (option_copied calling) IsSelector }
    requires called { IfSome (option_copied called) IsSelector }
    ensures ok { OnOk result (out.new.items ≡ out.old.items ++ (size_octets size
        ++ selector_octets 193 (option_copied calling.entry) ++ selector_octets 194
        (option_copied called.entry))) }
    ensures err { OnErr result (take (length out.old.items) out.new.items ≡ out.old.items) }
{
    put_size(out, size)?;
    put_selectors(out, calling, called)
}

fn selector_of(selector: &Option<Selector>) -> Option<&[u8]>
    ensures value { option_copied result ≡ selector.now }
    ensures sized { IfSome selector.now IsSelector }
{
    match selector {
        None => None,
        Some(selector) => Some(selector.octets()),
    }
}

fn len_of(selector: Option<&[u8]>) -> usize
    requires { IfSome (option_copied selector) IsSelector }
    ensures value { result ≡ length (selector_octets 193 (option_copied selector.entry)) }
    ensures few { result ≤ SELECTOR_LIMIT + 2 }
{
    match selector {
        None => 0,
        Some(octets) => 2 + octets.len(),
    }
}

fn put_confirm(out: &mut Vec<u8>, offer: &ConnectRequest) -> Result<(), AllocError>
    ensures ok { OnOk result (out.new.items ≡ out.old.items ++ confirm_octets offer.now) }
    ensures err { OnErr result (take (length out.old.items) out.new.items ≡ out.old.items) }
{
    let source = offer.source;
    let size = offer.parameters.size;
    let calling = selector_of(&offer.parameters.calling);
    let called = selector_of(&offer.parameters.called);
    let sized: usize = if size.is_some() { 3 } else { 0 };
    let len = 11 + sized + len_of(calling) + len_of(called);
    out.extend_from_slice(&[
        0x03,
        0x00,
        0x00,
        len as u8,
        (len - 5) as u8,
        0xD0,
        (source / 256) as u8,
        (source % 256) as u8,
        0x00,
        0x01,
        0x00,
    ])?;
    put_answer(out, size, calling, called)
}

/// Appends the answer to an offer: its source as the target, the source 1, the offered size but at
/// most 1,024 octets, and its selectors.
pub fn write_cc(out: &mut Vec<u8>, offer: &ConnectRequest) -> Result<(), AllocError>
    ensures ok { OnOk result (out.new.items ≡ out.old.items ++ confirm_octets offer.now) }
    ensures err { OnErr result (out.new.items ≡ out.old.items) }
{
    let mark = out.len();
    let done = put_confirm(out, offer);
    or_undo(out, mark, done)
}

fn put_part(out: &mut Vec<u8>, last: bool, held: &[u8]) -> Result<(), AllocError>
    requires { length held.now ≤ 1021 }
    ensures ok { OnOk result (out.new.items ≡ out.old.items ++ part_octets last held.now) }
    ensures err { OnErr result (take (length out.old.items) out.new.items ≡ out.old.items) }
{
    let len = 7 + held.len();
    let mark = if last { 0x80u8 } else { 0x00 };
    out.extend_from_slice(&[
        0x03,
        0x00,
        (len / 256) as u8,
        (len % 256) as u8,
        0x02,
        0xF0,
        mark,
    ])?;
    out.extend_from_slice(held)
}

fn put_tsdu(out: &mut Vec<u8>, size: u16, octets: &[u8]) -> Result<(), AllocError>
    requires sized { (128 ≤ size) × (size ≤ 1024) }
    requires some { 0 < length octets.now }
    ensures ok { OnOk result ((written : List ℕ) × IsCut size octets.now written
        × (out.new.items ≡ out.old.items ++ written)) }
    ensures err { OnErr result (take (length out.old.items) out.new.items ≡ out.old.items) }
{
    let full = usize::from(size) - 3;
    let mut rest = octets;
    while rest.len() > full {
        let (part, more) = rest.split_at(full);
        put_part(out, false, part)?;
        rest = more;
    }
    put_part(out, true, rest)
}

/// Appends a TSDU of 1 to 65,531 octets in TPDUs of at most `size` octets, 128 to 1,024.
pub fn write_tsdu(out: &mut Vec<u8>, size: u16, octets: &[u8]) -> Result<(), AllocError>
    requires sized { (128 ≤ size) × (size ≤ 1024) }
    requires some { (1 ≤ length octets.now) × (length octets.now ≤ TSDU_LIMIT) }
    ensures ok { OnOk result (out.new.items ≡ out.old.items ++ wire size octets.now) }
    ensures err { OnErr result (out.new.items ≡ out.old.items) }
{
    let mark = out.len();
    let done = put_tsdu(out, size, octets);
    or_undo(out, mark, done)
}
