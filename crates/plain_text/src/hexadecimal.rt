//! Octets as hexadecimal digits, read and written.
ghost use Rattle.std.specs.Prelude.{◌≡◌, ◌<◌, ◌++◌, IfOk, IfSome, OnOk, OnErr};
ghost use Rattle.std.specs.Option.{option_map};
ghost use Rattle.plain_text.specs.Numbers.{hex_pair_value, hex_octet, hex_octets, hex_in};
ghost use Rattle.plain_text.specs.Octets.{hex_text};
ghost use Rattle.plain_text.specs.Numbers as numbers;
ghost use Rattle.plain_text.specs.Octets as octets;

use std::alloc::{AllocError, Global};

/// The value of a lower-case hexadecimal digit.
pub fn hex_value(digit: u8) -> Option<u8>
    ensures value { result ≡ numbers.hex_value digit }
    ensures small { IfSome result (λ value. value < 16) }
{
    match digit {
        b'0'..=b'9' => Some(digit - b'0'),
        b'a'..=b'f' => Some(digit - b'a' + 10),
        _ => None,
    }
}

/// The octet that two lower-case hexadecimal digits are.
fn hex_pair(high: u8, low: u8) -> Option<u8>
    ensures { result ≡ hex_pair_value high low }
{
    Some(hex_value(high)? * 16 + hex_value(low)?)
}

/// The octet that a word of exactly two lower-case hexadecimal digits is.
pub fn read_hex_octet(word: &[u8]) -> Option<u8>
    ensures { result ≡ hex_octet word.now }
{
    match word {
        [high, low] => hex_pair(*high, *low),
        _ => None,
    }
}

/// The four octets that a word of exactly eight lower-case hexadecimal digits is.
pub fn read_hex_four(word: &[u8]) -> Option<[u8; 4]>
    ensures { result ≡ hex_octets 4 word.now }
{
    match word {
        [a, b, c, d, e, f, g, h] => Some([
            hex_pair(*a, *b)?,
            hex_pair(*c, *d)?,
            hex_pair(*e, *f)?,
            hex_pair(*g, *h)?,
        ]),
        _ => None,
    }
}

/// The octets that a word of pairs of lower-case hexadecimal digits is.
pub fn read_hex(alloc: Global, word: &[u8]) -> Result<Option<Vec<u8>>, AllocError>
    ensures { IfOk result (λ octets. option_map (λ o. o.items) octets ≡ hex_in word.now) }
{
    let mut octets = Vec::new(alloc);
    let mut rest = word;
    while let [high, low, more @ ..] = rest {
        let Some(octet) = hex_pair(*high, *low) else {
            return Ok(None);
        };
        octets.push(octet)?;
        rest = more;
    }
    Ok(if rest.is_empty() { Some(octets) } else { None })
}

/// The lower-case hexadecimal digit for a number below 16.
pub(crate) fn hex_digit(value: u8) -> u8
    requires { value < 16 }
    ensures { result ≡ octets.hex_digit value }
{
    if value < 10 {
        b'0' + value
    } else {
        b'a' + (value - 10)
    }
}

/// Appends octets as pairs of lower-case hexadecimal digits.
pub fn push_hex(out: &mut Vec<u8>, octets: &[u8]) -> Result<(), AllocError>
    ensures ok { OnOk result (out.new.items ≡ out.old.items ++ hex_text octets.now) }
    ensures err { OnErr result (out.new.items ≡ out.old.items) }
{
    let start = out.len();
    for octet in octets {
        let pair = [hex_digit(*octet / 16), hex_digit(*octet % 16)];
        if out.extend_from_slice(&pair).is_err() {
            out.truncate(start);
            return Err(AllocError);
        }
    }
    Ok(())
}
