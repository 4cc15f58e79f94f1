ghost use Rattle.std.specs.Prelude.{◌≡◌, ◌≢◌, ◌==◌, ◌<◌, ◌≤◌, [], ◌∷◌, length, slice_index, IfSome};
ghost use Rattle.std.specs.Prelude.{IfNone};
ghost use Rattle.std.specs.Option.{option_copied};
ghost use Rattle.std.specs.List.{slice_split};
ghost use Rattle.plain_text.specs.Words as own;

use crate::lines::find_octet;

/// Whether a line's words are parted well: it has no tab, and neither begins nor ends with a space.
pub fn is_spaced(line: &[u8]) -> bool
    ensures { result ≡ own.is_spaced line.now }
{
    !line.contains(&b'\t') && line.first() != Some(&b' ') && line.last() != Some(&b' ')
}

/// The first word of a text and what comes after it; a text of spaces alone has none.
pub fn next_word(text: &[u8]) -> Option<(&[u8], &[u8])>
    ensures some { IfSome result (λ next. own.words text.now ≡ next.0.now ∷ own.words next.1.now) }
    ensures none { IfNone result (own.words text.now ≡ []) }
    ensures shorter { IfSome result (λ next. length next.1.now < length text.now) }
{
    let text = without_spaces(text);
    if text.is_empty() {
        return None;
    }
    match find_octet(text, b' ') {
        Some(end) => Some((&text[..end], &text[end + 1..])),
        None => Some((text, &text[text.len()..])),
    }
}

/// A text without the spaces that it begins with.
fn without_spaces(text: &[u8]) -> &[u8]
    ensures words { own.words result.now ≡ own.words text.now }
    ensures bare { 0 < length result.now → slice_index result.now 0 ≢ 32 }
    ensures bound { length result.now ≤ length text.now }
{
    let mut rest = text;
    while let [b' ', more @ ..] = rest {
        rest = more;
    }
    rest
}

/// A text up to its first separator, and what comes after that where there is one.
pub fn next_part(text: &[u8], separator: u8) -> (&[u8], Option<&[u8]>)
    ensures parts { slice_split (λ octet. octet == separator) text.now
        ≡ result.0.now ∷ own.parts_after separator (option_copied result.1) }
    ensures shorter { IfSome result.1 (λ rest. length rest.now < length text.now) }
{
    match find_octet(text, separator) {
        Some(end) => (&text[..end], Some(&text[end + 1..])),
        None => (text, None),
    }
}
