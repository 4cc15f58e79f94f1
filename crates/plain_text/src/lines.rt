ghost use Rattle.std.specs.Prelude.{◌≡◌, ◌==◌, ◌<◌, [], ◌∷◌, length, position, IfSome, IfNone};
ghost use Rattle.std.specs.Str.Lines.{lines, strip_carriage_return};
ghost use Rattle.plain_text.specs.Lines as own;

/// The first line of a text, without its LF and a CR before that, and the text after it.
/// The last line may lack its LF; a text with no octets has no line.
pub fn next_line(text: &[u8]) -> Option<(&[u8], &[u8])>
    ensures some { IfSome result (λ next. lines text.now ≡ next.0.now ∷ lines next.1.now) }
    ensures none { IfNone result (lines text.now ≡ []) }
    ensures shorter { IfSome result (λ next. length next.1.now < length text.now) }
{
    if text.is_empty() {
        return None;
    }
    match find_octet(text, b'\n') {
        Some(end) => Some((without_return(&text[..end]), &text[end + 1..])),
        None => Some((text, &text[text.len()..])),
    }
}

/// The place of the first octet of a text that is `wanted`.
pub(crate) fn find_octet(text: &[u8], wanted: u8) -> Option<usize>
    ensures { result ≡ position (λ octet. octet == wanted) text.now }
{
    text.iter().position(|octet| *octet == wanted)
}

/// A line without the carriage return at its end.
fn without_return(line: &[u8]) -> &[u8]
    ensures { result.now ≡ strip_carriage_return line.now }
{
    match line {
        [rest @ .., b'\r'] => rest,
        _ => line,
    }
}

/// Whether a line carries nothing: it is empty or begins with `#`.
pub fn is_skipped(line: &[u8]) -> bool
    ensures { result ≡ own.is_skipped line.now }
{
    match line {
        [] => true,
        [first, ..] => *first == b'#',
    }
}
