//! Decimal numbers, read and written.
ghost use Rattle.std.specs.Prelude.{◌≡◌, ◌&&◌, ◌^◌, ◌≤◌, ◌++◌, int_le, OnOk, OnErr, decimal};
ghost use Rattle.std.specs.Fmt.{signed_decimal};
ghost use Rattle.plain_text.specs.Numbers.{number_up_to, if_passes, negative, integer_word_within};

use std::alloc::AllocError;

/// The decimal number that a word is, where it is at most `limit`. Leading zeros and signs are
/// refused.
pub fn read_number(word: &[u8], limit: u64) -> Option<u64>
    ensures { result ≡ number_up_to limit word.now }
{
    if word.is_empty() || (word.len() > 1 && word[0] == b'0') {
        return None;
    }
    let mut number: u64 = 0;
    for digit in word {
        if !digit.is_ascii_digit() {
            return None;
        }
        number = number
            .checked_mul(10)?
            .checked_add(u64::from(*digit - b'0'))?;
    }
    if number <= limit { Some(number) } else { None }
}

/// The number with this size behind a minus; there is none for 0.
fn negated(size: u64) -> Option<i64>
    requires { size ≤ 2 ^ 63 }
    ensures { result ≡ negative size }
{
    if size == 0 {
        None
    } else {
        Some(-1 - (size - 1) as i64)
    }
}

/// A number, where it is from `low` to `high`.
fn within(number: i64, low: i64, high: i64) -> Option<i64>
    ensures { result ≡ if_passes (λ z. int_le low z && int_le z high) number }
{
    if low <= number && number <= high {
        Some(number)
    } else {
        None
    }
}

/// The signed decimal number that a word is, where it is from `low` to `high`.
/// Leading zeros, a `+` and `-0` are refused.
pub fn read_integer(word: &[u8], low: i64, high: i64) -> Option<i64>
    ensures { result ≡ integer_word_within low high word.now }
{
    match word {
        [b'-', digits @ ..] => within(negated(read_number(digits, 1 << 63)?)?, low, high),
        _ => within(read_number(word, (1 << 63) - 1)? as i64, low, high),
    }
}

/// Appends a number in decimal digits, without leading zeros. After want of memory `out` is as
/// before.
pub fn push_decimal(out: &mut Vec<u8>, number: u64) -> Result<(), AllocError>
    ensures ok { OnOk result (out.new.items ≡ out.old.items ++ decimal number) }
    ensures err { OnErr result (out.new.items ≡ out.old.items) }
{
    let text = number.to_string(*out.allocator())?;
    out.extend_from_slice(text.as_bytes())
}

/// Appends a number in decimal digits, with a `-` before a negative one.
pub fn push_signed_decimal(out: &mut Vec<u8>, number: i64) -> Result<(), AllocError>
    ensures ok { OnOk result (out.new.items ≡ out.old.items ++ signed_decimal number) }
    ensures err { OnErr result (out.new.items ≡ out.old.items) }
{
    let text = number.to_string(*out.allocator())?;
    out.extend_from_slice(text.as_bytes())
}
