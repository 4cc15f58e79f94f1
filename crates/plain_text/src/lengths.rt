//! Lengths of texts, which take no memory.
ghost use Rattle.std.specs.Prelude.{◌≡◌, ◌+◌, ◌*◌, ◌≤◌, ◌^◌, length, decimal};
ghost use Rattle.std.specs.Fmt.{signed_decimal};
ghost use Rattle.plain_text.specs.Escaped.{escaped_text, escaped_octet};
ghost use Rattle.plain_text.specs.Lengths.{capped_len};

use crate::escaped::is_plain;

/// The most that a length is said to be, 2^62: what is that long or longer has this length.
pub const MOST_LEN: u64 = 4611686018427387904;

/// The sum of two lengths.
pub fn add_len(first: u64, second: u64) -> u64
    requires first { first ≤ MOST_LEN }
    requires second { second ≤ MOST_LEN }
    ensures { result ≡ capped_len (first + second) }
{
    MOST_LEN.min(first + second)
}

/// How many digits a number has.
pub fn decimal_len(number: u64) -> u64
    ensures exact { result ≡ length (decimal number) }
    ensures few { result ≤ 20 }
{
    let mut rest = number;
    let mut len = 1;
    while rest >= 10 {
        rest /= 10;
        len += 1;
    }
    len
}

/// How many octets a signed number has as text.
pub fn signed_decimal_len(number: i64) -> u64
    ensures exact { result ≡ length (signed_decimal number) }
    ensures few { result ≤ 21 }
{
    if number < 0 {
        1 + decimal_len(number.unsigned_abs())
    } else {
        decimal_len(number.unsigned_abs())
    }
}

/// How many octets text has in which some octets are escaped.
pub fn escaped_len(octets: &[u8]) -> u64
    requires { length octets.now ≤ 2 ^ 32 }
    ensures exact { result ≡ length (escaped_text octets.now) }
    ensures few { result ≤ 3 * length octets.now }
{
    let mut len = 0;
    for octet in octets {
        len += escaped_octet_len(*octet);
    }
    len
}

/// How many octets one octet has in such a text.
fn escaped_octet_len(octet: u8) -> u64
    ensures exact { result ≡ length (escaped_octet octet) }
    ensures few { result ≤ 3 }
{
    if is_plain(octet) { 1 } else { 3 }
}
