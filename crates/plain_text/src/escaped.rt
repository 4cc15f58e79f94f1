//! Escaped text, read and written.
ghost use Rattle.std.specs.Prelude.{◌≡◌, ◌<◌, ◌++◌, length, IfOk, OnOk, OnErr};
ghost use Rattle.std.specs.Option.{option_map};
ghost use Rattle.plain_text.specs.Escaped.{escaped_text, unescaped, ReadsOctet};
ghost use Rattle.plain_text.specs.Escaped as own;

use crate::hexadecimal::{hex_digit, read_hex_octet};
use std::alloc::{AllocError, Global};

/// The octets that an escaped text stands for, or nothing where it isn't one. Only octets that
/// don't stand for themselves may be escaped, and only in lower-case digits.
pub fn read_escaped(alloc: Global, text: &[u8]) -> Result<Option<Vec<u8>>, AllocError>
    ensures { IfOk result (λ octets. option_map (λ v. v.items) octets ≡ unescaped text.now) }
{
    let mut octets = Vec::new(alloc);
    let mut place = 0;
    while place < text.len() {
        let Some((octet, len)) = read_octet(&text[place..]) else {
            return Ok(None);
        };
        octets.push(octet)?;
        place += len;
    }
    Ok(Some(octets))
}

/// The first octet that an escaped text stands for, and the length of its spelling.
fn read_octet(text: &[u8]) -> Option<(u8, usize)>
    requires { 0 < length text.now }
    ensures { ReadsOctet text.now result }
{
    match text {
        [plain, ..] if is_plain(*plain) => Some((*plain, 1)),
        [b'%', high, low, ..] => Some((escaped_value(*high, *low)?, 3)),
        _ => None,
    }
}

/// The octet of two lower-case hexadecimal digits, unless it stands for itself in escaped text.
pub fn escaped_value(high: u8, low: u8) -> Option<u8>
    ensures { result ≡ own.escaped_value high low }
{
    read_hex_octet(&[high, low]).filter(|octet| !is_plain(*octet))
}

/// Whether an octet stands for itself in escaped text: letters, digits, `_`, `$`, `-` and `.` do.
pub fn is_plain(octet: u8) -> bool
    ensures { result ≡ own.is_plain octet }
{
    octet.is_ascii_alphanumeric() || matches!(octet, b'_' | b'$' | b'-' | b'.')
}

/// Appends octets as escaped text: letters, digits, `_`, `$`, `-` and `.` stand for themselves,
/// every other octet is `%` and two lower-case hexadecimal digits.
pub fn push_escaped(out: &mut Vec<u8>, octets: &[u8]) -> Result<(), AllocError>
    ensures ok { OnOk result (out.new.items ≡ out.old.items ++ escaped_text octets.now) }
    ensures err { OnErr result (out.new.items ≡ out.old.items) }
{
    let start = out.len();
    for octet in octets {
        if push_escaped_octet(out, *octet).is_err() {
            out.truncate(start);
            return Err(AllocError);
        }
    }
    Ok(())
}

/// Appends one octet as escaped text.
fn push_escaped_octet(out: &mut Vec<u8>, octet: u8) -> Result<(), AllocError>
    ensures ok { OnOk result (out.new.items ≡ out.old.items ++ own.escaped_octet octet) }
    ensures err { OnErr result (out.new.items ≡ out.old.items) }
{
    if is_plain(octet) {
        out.push(octet)?;
        Ok(())
    } else {
        out.extend_from_slice(&[b'%', hex_digit(octet / 16), hex_digit(octet % 16)])
    }
}
