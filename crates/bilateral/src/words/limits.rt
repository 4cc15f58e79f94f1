//! Numbers with a limit.
ghost use Rattle.std.specs.Prelude.{◌≡◌};
ghost use Rattle.std.specs.List.{list_all};
ghost use Rattle.std.specs.Char.{is_ascii_digit};
ghost use Rattle.plain_text.specs.Numbers.{is_number};
ghost use Rattle.bilateral.specs.Words.Words.{limit_in};

use plain_text::read_number;

/// A number from `least` on, without it where it is above `most`. A number has any length.
pub fn read_limit(word: &[u8], least: u64, most: u64) -> Option<Option<u64>>
    ensures { result ≡ limit_in least most word.now }
{
    if !is_digits(word) {
        return None;
    }
    let Some(number) = read_number(word, u64::MAX) else {
        return Some(None);
    };
    if number < least {
        None
    } else if number <= most {
        Some(Some(number))
    } else {
        Some(None)
    }
}

/// Whether a word is a decimal number: one digit or more, and no leading zero.
#[tactic(auto, using(crate::proofs::OfWords::Digits::all_digits))]
fn is_digits(word: &[u8]) -> bool
    ensures { result ≡ is_number word.now }
{
    match word {
        [] => false,
        [digit] => digit.is_ascii_digit(),
        [first, more @ ..] => b'1' <= *first && *first <= b'9' && are_digits(more),
    }
}

fn are_digits(octets: &[u8]) -> bool
    ensures { result ≡ list_all is_ascii_digit octets.now }
{
    octets.iter().all(|octet| octet.is_ascii_digit())
}
