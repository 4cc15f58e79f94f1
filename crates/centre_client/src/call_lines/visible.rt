//! Short visible texts, read without memory.
ghost use Rattle.std.specs.Prelude.{◌≡◌, ◌<◌, ◌∷◌, length, IfSome, option_map};
ghost use Rattle.arrayvec.specs.ArrayVec.{array_vec_len};
ghost use Rattle.plain_text.specs.Escaped.{ReadsOctet};
ghost use Rattle.mms_data.specs.Text.NameIn.{identifier_in};
ghost use Rattle.centre_client.specs.ShortTexts.{short_text_in, short_items};

use arrayvec::ArrayVec;
use ber_values::is_visible;
use plain_text::{escaped_value, is_plain};

/// At most as many octets as a visible text has.
pub(crate) type ShortText = ArrayVec<u8, 64>;

/// The item or the domain that an escaped word stands for.
pub(crate) fn read_identifier(word: &[u8]) -> Option<ShortText>
    ensures { option_map short_items result ≡ identifier_in word.now }
{
    let octets = read_visible(word)?;
    if octets.as_slice().is_empty() {
        return None;
    }
    Some(octets)
}

/// The visible text that an escaped word stands for.
pub(crate) fn read_visible(word: &[u8]) -> Option<ShortText>
    ensures { option_map short_items result ≡ short_text_in word.now }
{
    let mut octets = ShortText::new();
    let mut place = 0;
    while place < word.len() {
        let (octet, len) = read_octet(&word[place..])?;
        if octets.is_full() {
            return None;
        }
        octets.push(octet);
        place += len;
    }
    if is_visible(octets.as_slice()) {
        Some(octets)
    } else {
        None
    }
}

/// The first octet that an escaped text stands for, and the length of its spelling.
fn read_octet(text: &[u8]) -> Option<(u8, usize)>
    requires { 0 < length text.now }
    ensures { ReadsOctet text.now result }
{
    match text {
        [plain, ..] if is_plain(*plain) => Some((*plain, 1)),
        [b'%', high, low, ..] => Some((escaped_value(*high, *low)?, 3)),
        _ => None,
    }
}
