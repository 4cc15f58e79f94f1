ghost use Rattle.std.specs.Prelude.{◌≡◌, ◌≢◌, [], ◌∷◌, length, IfSome, IfNone};
ghost use Rattle.plain_text.specs.Words.{words};

use crate::words::next_word;

/// The words of a text that has exactly two.
pub fn two_words(text: &[u8]) -> Option<(&[u8], &[u8])>
    ensures some { IfSome result (λ w. words text.now ≡ w.0.now ∷ w.1.now ∷ []) }
    ensures none { IfNone result (length (words text.now) ≢ 2) }
{
    let (first, rest) = next_word(text)?;
    let (second, rest) = next_word(rest)?;
    match next_word(rest) {
        Some(_) => None,
        None => Some((first, second)),
    }
}

/// The words of a text that has exactly three.
pub fn three_words(text: &[u8]) -> Option<(&[u8], &[u8], &[u8])>
    ensures some { IfSome result (λ w. words text.now ≡ w.0.now ∷ w.1.now ∷ w.2.now ∷ []) }
    ensures none { IfNone result (length (words text.now) ≢ 3) }
{
    let (first, rest) = next_word(text)?;
    let (second, third) = two_words(rest)?;
    Some((first, second, third))
}

/// The words of a text that has exactly four.
pub fn four_words(text: &[u8]) -> Option<(&[u8], &[u8], &[u8], &[u8])>
    ensures some { IfSome result
        (λ w. words text.now ≡ w.0.now ∷ w.1.now ∷ w.2.now ∷ w.3.now ∷ []) }
    ensures none { IfNone result (length (words text.now) ≢ 4) }
{
    let (first, rest) = next_word(text)?;
    let (second, third, fourth) = three_words(rest)?;
    Some((first, second, third, fourth))
}
