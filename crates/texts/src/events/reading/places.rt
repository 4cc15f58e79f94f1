//! The places of words, and of blanks that may not stand there.
ghost use Rattle.std.specs.Prelude.{◌≡◌, ◌<◌, length};
ghost use Rattle.texts.specs.Events.WordPlaces as own;

/// The place of the word of a number, which counts from 0, or the text's length.
pub(crate) fn word_place(text: &[u8], number: usize) -> usize
    ensures { result ≡ own.word_place text.now number }
{
    let mut left = number;
    for place in 0..text.len() {
        if is_word_start(text, place) {
            if left == 0 {
                return place;
            }
            left -= 1;
        }
    }
    text.len()
}

/// Whether a word begins at a place.
fn is_word_start(text: &[u8], place: usize) -> bool
    requires { place < length text.now }
    ensures { result ≡ own.is_word_start text.now place }
{
    text[place] != b' ' && (place == 0 || text[place - 1] == b' ')
}

/// The place of the first blank that may not stand there, or the text's length.
pub(crate) fn blank_place(text: &[u8]) -> usize
    ensures { result ≡ own.blank_place text.now }
{
    for place in 0..text.len() {
        if is_stray_blank(text, place) {
            return place;
        }
    }
    text.len()
}

/// Whether a tab stands at a place, or a space with which the text begins or ends.
fn is_stray_blank(text: &[u8], place: usize) -> bool
    requires { place < length text.now }
    ensures { result ≡ own.is_stray_blank text.now place }
{
    text[place] == b'\t' || (text[place] == b' ' && (place == 0 || place + 1 == text.len()))
}
