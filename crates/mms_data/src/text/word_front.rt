//! How far a word goes on as the text of a datum without members.
ghost use Rattle.std.specs.Prelude.{◌≡◌, ◌≤◌, length};
ghost use Rattle.mms_data.specs.Text.WordFront as own;

use ber_values::VISIBLE_LIMIT;
use plain_text::{escaped_value, hex_value, is_plain};

/// What may stand next in a word.
#[derive(Clone, Copy)]
pub(crate) enum Next {
    Nothing,
    Integer,
    Negative,
    /// The first digit of a number up to a limit.
    Number(u64),
    /// Further digits of a number up to a limit.
    Digits(u64, u64),
    Count,
    Point,
    /// Further digits of a number of bits, or a point.
    Counted(u64),
    /// Digits for so many bits, and the number of digits.
    Padded(u64, u64),
    /// So many digits.
    Hexadecimal(u64),
    Pairs,
    /// So many octets of text.
    Text(usize),
    High(usize),
    Low(usize, u8),
}

/// How many octets of a word may stand in the text of a datum.
pub(crate) fn word_front(word: &[u8]) -> usize
    ensures value { result ≡ own.word_front word.now }
    ensures within { result ≤ length word.now }
{
    match word {
        [kind, held @ ..] => match next_of_kind(*kind) {
            Some(next) => 1 + front_of(held, next),
            None => 0,
        },
        [] => 0,
    }
}

fn front_of(word: &[u8], start: Next) -> usize
    ensures value { result ≡ own.front_of word.now start }
    ensures within { result ≤ length word.now }
{
    let mut next = start;
    let mut count = 0;
    for octet in word {
        match next_of(next, *octet) {
            Some(after) => next = after,
            None => return count,
        }
        count += 1;
    }
    count
}

/// What may stand behind the letter of a kind.
fn next_of_kind(kind: u8) -> Option<Next>
    ensures { result ≡ own.next_of_kind kind }
{
    match kind {
        b'T' => Some(Next::Nothing),
        b'F' => Some(Next::Nothing),
        b'i' => Some(Next::Integer),
        b'u' => Some(Next::Number((1 << 63) - 1)),
        b'b' => Some(Next::Count),
        b'f' => Some(Next::Hexadecimal(8)),
        b'o' => Some(Next::Pairs),
        b'v' => Some(Next::Text(VISIBLE_LIMIT)),
        _ => None,
    }
}

/// What may stand behind an octet, where this octet may stand.
fn next_of(next: Next, octet: u8) -> Option<Next>
    ensures { result ≡ own.next_of next octet }
{
    match next {
        Next::Nothing => None,
        Next::Integer => integer_next(octet),
        Next::Negative => negative_next(octet),
        Next::Number(limit) => number_next(limit, octet),
        Next::Digits(limit, number) => digits_next(limit, number, octet),
        Next::Count => count_next(octet),
        Next::Point => point_next(octet),
        Next::Counted(count) => counted_next(count, octet),
        Next::Padded(bits, digits) => padded_next(bits, digits, octet),
        Next::Hexadecimal(room) => hex_next(room, octet),
        Next::Pairs => hex_value(octet).map(|_value| Next::Pairs),
        Next::Text(room) => text_next(room, octet),
        Next::High(room) => high_next(room, octet),
        Next::Low(room, high) => low_next(room, high, octet),
    }
}

fn next_digit(limit: u64, number: u64, octet: u8) -> Option<u64>
    ensures { result ≡ own.next_digit limit number octet }
{
    if !octet.is_ascii_digit() {
        return None;
    }
    let longer = number
        .checked_mul(10)?
        .checked_add(u64::from(octet - b'0'))?;
    if longer <= limit { Some(longer) } else { None }
}

fn digits_next(limit: u64, number: u64, octet: u8) -> Option<Next>
    ensures { result ≡ own.digits_next limit number octet }
{
    Some(Next::Digits(limit, next_digit(limit, number, octet)?))
}

fn number_next(limit: u64, octet: u8) -> Option<Next>
    ensures { result ≡ own.number_next limit octet }
{
    if octet == b'0' {
        Some(Next::Nothing)
    } else {
        digits_next(limit, 0, octet)
    }
}

fn integer_next(octet: u8) -> Option<Next>
    ensures { result ≡ own.integer_next octet }
{
    if octet == b'-' {
        Some(Next::Negative)
    } else {
        number_next((1 << 63) - 1, octet)
    }
}

fn negative_next(octet: u8) -> Option<Next>
    ensures { result ≡ own.negative_next octet }
{
    if octet == b'0' {
        None
    } else {
        digits_next(1 << 63, 0, octet)
    }
}

fn count_next(octet: u8) -> Option<Next>
    ensures { result ≡ own.count_next octet }
{
    if octet == b'0' {
        return Some(Next::Point);
    }
    Some(Next::Counted(next_digit(u64::MAX, 0, octet)?))
}

fn point_next(octet: u8) -> Option<Next>
    ensures { result ≡ own.point_next octet }
{
    if octet == b'.' {
        Some(Next::Padded(0, 0))
    } else {
        None
    }
}

fn counted_next(count: u64, octet: u8) -> Option<Next>
    ensures { result ≡ own.counted_next count octet }
{
    if octet == b'.' {
        let whole = count / 8 + u64::from(count % 8 > 0);
        return Some(Next::Padded(count, 2 * whole));
    }
    Some(Next::Counted(next_digit(u64::MAX, count, octet)?))
}

fn padded_next(bits: u64, digits: u64, octet: u8) -> Option<Next>
    ensures { result ≡ own.padded_next bits digits octet }
{
    if digits == 0 {
        return None;
    }
    let value = hex_value(octet)?;
    if value % (1 << (4 - bits.min(4))) == 0 {
        Some(Next::Padded(bits.saturating_sub(4), digits - 1))
    } else {
        None
    }
}

fn hex_next(room: u64, octet: u8) -> Option<Next>
    ensures { result ≡ own.hex_next room octet }
{
    if room == 0 {
        return None;
    }
    let _value = hex_value(octet)?;
    Some(Next::Hexadecimal(room - 1))
}

fn text_next(room: usize, octet: u8) -> Option<Next>
    ensures { result ≡ own.text_next room octet }
{
    if room == 0 {
        None
    } else if is_plain(octet) {
        Some(Next::Text(room - 1))
    } else if octet == b'%' {
        Some(Next::High(room - 1))
    } else {
        None
    }
}

fn high_next(room: usize, octet: u8) -> Option<Next>
    ensures { result ≡ own.high_next room octet }
{
    match octet {
        b'2'..=b'7' => Some(Next::Low(room, octet)),
        _ => None,
    }
}

fn low_next(room: usize, high: u8, octet: u8) -> Option<Next>
    ensures { result ≡ own.low_next room high octet }
{
    let value = escaped_value(high, octet)?;
    if 32 <= value && value <= 126 {
        Some(Next::Text(room))
    } else {
        None
    }
}
