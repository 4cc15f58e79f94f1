//! The values of points, and tags, as their words.
ghost use Rattle.std.specs.Prelude.{◌≡◌, ◌≤◌, pos, negsuc, option_and_then, IfOk, IfSome};
ghost use Rattle.plain_text.specs.Escaped.{unescaped};
ghost use Rattle.plain_text.specs.Numbers.{if_passes, number_up_to, integer_word_within};
ghost use Rattle.mms_data.specs.Text.WordValue.{is_visible as visible};
ghost use Rattle.tase_points.specs.Points.{state_of};
ghost use Rattle.texts.specs.Events.FeedLines.{body_in, flags_in, sample_in, tag_words_in, reason_in};

use ber_values::{Visible, is_visible};
use plain_text::{read_escaped, read_hex_four, read_hex_octet, read_integer, read_number};
use sbo_device::TAG_LIMIT;
use std::alloc::{AllocError, Global};
use tase_points::{Body, FLAGS_LIMIT, MILLIS_LIMIT, PointValue, SECONDS_LIMIT, STATE_LIMIT};
use tase_views::DeviceTag;

/// The decimal number that a word is, where it is at most `limit`.
pub fn read_small(word: &[u8], limit: u32) -> Option<u32>
    ensures value { result ≡ number_up_to limit word.now }
    ensures bound { IfSome result (λ n. n ≤ limit) }
{
    Some(read_number(word, u64::from(limit))? as u32)
}

/// The body that a word is: `s` and a state, `d` and a discrete value, or `r` and the eight digits
/// of a real one.
fn read_body(word: &[u8]) -> Option<Body>
    ensures value { result ≡ body_in word.now }
    ensures lawful { IfSome result (λ body. state_of body ≤ STATE_LIMIT) }
{
    match word {
        [b's', rest @ ..] => Some(Body::State(read_small(rest, u32::from(STATE_LIMIT))? as u8)),
        [b'd', rest @ ..] => Some(Body::Discrete(read_discrete(rest)?)),
        [b'r', rest @ ..] => Some(Body::Real(read_hex_four(rest)?)),
        _ => None,
    }
}

/// The discrete value that a word is.
fn read_discrete(word: &[u8]) -> Option<i32>
    ensures { result ≡ integer_word_within (negsuc 2147483647) (pos 2147483647) word.now }
{
    Some(read_integer(word, -2_147_483_648, 2_147_483_647)? as i32)
}

/// The six bits of flags that a word of two hexadecimal digits is.
fn read_flags(word: &[u8]) -> Option<u8>
    ensures value { result ≡ flags_in word.now }
    ensures lawful { IfSome result (λ flags. flags ≤ FLAGS_LIMIT) }
{
    let flags = read_hex_octet(word)?;
    if flags <= FLAGS_LIMIT {
        Some(flags)
    } else {
        None
    }
}

/// The value that the words of its body, its flags, its seconds and its milliseconds are.
pub fn read_value(body: &[u8], flags: &[u8], seconds: &[u8], millis: &[u8]) -> Option<PointValue>
    ensures { result ≡ sample_in body.now flags.now seconds.now millis.now }
{
    let body = read_body(body)?;
    let flags = read_flags(flags)?;
    let seconds = read_small(seconds, SECONDS_LIMIT)?;
    let millis = read_small(millis, u32::from(MILLIS_LIMIT))?;
    Some(PointValue::new(body, flags, seconds, millis as u16))
}

/// The tag that a number and a reason are.
pub fn read_tag(
    alloc: Global,
    number: &[u8],
    reason: &[u8],
) -> Result<Option<DeviceTag>, AllocError>
    ensures { IfOk result (λ tag. tag ≡ tag_words_in number.now reason.now) }
{
    let Some(tag) = read_number(number, u64::from(TAG_LIMIT)) else {
        return Ok(None);
    };
    let Some(reason) = read_reason(alloc, reason)? else {
        return Ok(None);
    };
    Ok(Some(DeviceTag::new(tag as u8, reason)))
}

/// The reason of a tag: `v` and escaped text.
fn read_reason(alloc: Global, word: &[u8]) -> Result<Option<Visible>, AllocError>
    ensures { IfOk result (λ reason. reason ≡ reason_in word.now) }
{
    match word {
        [b'v', held @ ..] => read_visible(alloc, held),
        _ => Ok(None),
    }
}

/// The text of visible octets that a word stands for.
fn read_visible(alloc: Global, word: &[u8]) -> Result<Option<Visible>, AllocError>
    ensures { IfOk result (λ octets. octets
        ≡ option_and_then (if_passes visible) (unescaped word.now)) }
{
    let Some(octets) = read_escaped(alloc, word)? else {
        return Ok(None);
    };
    if !is_visible(&octets) {
        return Ok(None);
    }
    Ok(Some(Visible::new(octets)))
}
