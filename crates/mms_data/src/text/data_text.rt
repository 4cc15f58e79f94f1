//! The text of a value, read.
ghost use Rattle.std.specs.Prelude.{◌≡◌, ◌≤◌, ◌≢◌, ◌↔◌, ℕ, ◌∷◌, ◌++◌, [], false, length, Ok, Err};
ghost use Rattle.std.specs.Prelude.{IfOk, IfErr, IfSome, IfNone};
ghost use Rattle.mms_data.specs.declared.text.data_text.Halt.TheVariants.{Memory};
ghost use Rattle.mms_data.specs.Datum.{Datum, data_of};
ghost use Rattle.mms_data.specs.Lawful.{IsLawful};
ghost use Rattle.mms_data.specs.Text.Texts.{data_text, members_text};
ghost use Rattle.mms_data.specs.Text.TextRead.{HasText, BreaksAt, BreaksBefore, BeginsDatum, AreWithin};
ghost use Rattle.mms_data.specs.Text.TextRead.{BreaksMembers, BreaksDatum, HaltsInText, IsClosing};
ghost use Rattle.mms_data.specs.Text.TextRead.{begins_with};

use crate::text::word_front::word_front;
use crate::text::word_value::{split_word, word_value};
use crate::{DataKind, DataList, MOST_DEPTH, MmsData};
use std::alloc::{AllocError, AllocFailed, Global};

/// Why reading stopped: memory ran out, or a text breaks before so many octets.
#[derive(Drop)]
pub(crate) enum Halt {
    Memory,
    Bad(usize),
}

impl From<AllocError> for Halt {
    ghost from_gives = { λ _ halt. halt ≡ Memory };

    fn from(_error: AllocError) -> Halt {
        Halt::Memory
    }
}

/// The value whose text this is, as [`spell_data`](crate::text::spell_data) writes it, or the first
/// place from which on no value's text goes on as this text does; its length, where more of a
/// value is missing.
pub fn read_data_text(alloc: Global, text: &[u8]) -> Result<Result<MmsData, usize>, AllocError>
    // What is read is what the text spells,
    ensures found { IfOk result (λ read. IfOk read (λ d. text.now ≡ data_text d)) }
    ensures lawful { IfOk result (λ read. IfOk read (λ d. IsLawful d × HasText d)) }
    // and what it spells is read.
    ensures only { (d : Datum) → HasText d → text.now ≡ data_text d
        → IfOk result (λ read. read ≡ Ok d) }
    // A place is the one where the text breaks.
    ensures fault { (place : ℕ) → IfOk result
        (λ read. (read ≡ Err place) ↔ BreaksAt text.now place) }
    ensures within { IfOk result (λ read. IfErr read (λ place. place ≤ length text.now)) }
{
    match whole(alloc, text) {
        Ok(value) => Ok(Ok(value)),
        Err(Halt::Bad(left)) => Ok(Err(text.len() - left)),
        Err(Halt::Memory) => Err(AllocError),
    }
}

/// The value that a text is.
fn whole(alloc: Global, text: &[u8]) -> Result<MmsData, Halt>
    ensures found { IfOk result (λ d. BeginsDatum MOST_DEPTH text.now d []) }
    ensures fault { IfErr result (λ halt. HaltsInText halt (λ left. BreaksBefore text.now left)) }
    ensures within { IfErr result (λ halt. HaltsInText halt (λ left. left ≤ length text.now)) }
{
    let (value, rest) = datum_at(alloc, text, MOST_DEPTH)?;
    if rest.is_empty() {
        Ok(value)
    } else {
        Err(Halt::Bad(rest.len()))
    }
}

/// The value of at most so many levels that a text begins with, and what stands behind it.
#[cycle(levels)]
fn datum_at<'a>(alloc: Global, text: &'a [u8], levels: u8) -> Result<(MmsData, &'a [u8]), Halt>
    ensures found { IfOk result (λ x. BeginsDatum levels text.now x.0 x.1.now) }
    ensures fault { IfErr result (λ halt. HaltsInText halt
        (λ left. BreaksDatum levels text.now left)) }
    ensures within { IfErr result (λ halt. HaltsInText halt (λ left. left ≤ length text.now)) }
{
    if levels == 0 {
        return Err(Halt::Bad(text.len()));
    }
    if let Some(inner) = behind(text, b'{') {
        let (members, rest) = members_at(alloc, inner, b'}', levels - 1)?;
        return Ok((MmsData::new(DataKind::Structure(members)), rest));
    }
    if let Some(inner) = behind(text, b'[') {
        let (members, rest) = members_at(alloc, inner, b']', levels - 1)?;
        return Ok((MmsData::new(DataKind::Array(members)), rest));
    }
    word_at(alloc, text, levels)
}

/// Members of at most so many levels up to a closing bracket, and what stands behind it.
#[cycle(levels)]
fn members_at<'a>(
    alloc: Global,
    text: &'a [u8],
    close: u8,
    levels: u8,
) -> Result<(DataList, &'a [u8]), Halt>
    requires { IsClosing close }
    ensures found { IfOk result
        (λ x. text.now ≡ members_text (data_of x.0) ++ close ∷ x.1.now) }
    ensures lawful { IfOk result (λ x. AreWithin levels (data_of x.0)) }
    ensures fault { IfErr result (λ halt. HaltsInText halt
        (λ left. BreaksMembers levels close text.now left)) }
    ensures within { IfErr result (λ halt. HaltsInText halt (λ left. left ≤ length text.now)) }
{
    let mut members = DataList::new(alloc);
    if let Some(rest) = behind(text, close) {
        return Ok((members, rest));
    }
    let mut rest = text;
    loop {
        let (member, after) = datum_at(alloc, rest, levels)?;
        members.push(member)?;
        if let Some(end) = behind(after, close) {
            return Ok((members, end));
        }
        let Some(more) = behind(after, b',') else {
            return Err(Halt::Bad(after.len()));
        };
        rest = more;
    }
}

/// The value without members that a text begins with, and what stands behind it.
fn word_at<'a>(alloc: Global, text: &'a [u8], levels: u8) -> Result<(MmsData, &'a [u8]), Halt>
    requires level { levels ≢ 0 }
    requires brace { begins_with 123 text.now ≡ false }
    requires bracket { begins_with 91 text.now ≡ false }
    ensures found { IfOk result (λ x. BeginsDatum levels text.now x.0 x.1.now) }
    ensures fault { IfErr result (λ halt. HaltsInText halt
        (λ left. BreaksDatum levels text.now left)) }
    ensures within { IfErr result (λ halt. HaltsInText halt (λ left. left ≤ length text.now)) }
{
    let (word, rest) = split_word(text);
    match word_value(alloc, word)? {
        Some(value) => Ok((value, rest)),
        None => Err(Halt::Bad(text.len() - word_front(word))),
    }
}

/// What stands behind an octet, where a text begins with it.
fn behind(text: &[u8], octet: u8) -> Option<&[u8]>
    ensures some { IfSome result (λ rest. text.now ≡ octet ∷ rest.now) }
    ensures none { IfNone result (begins_with octet text.now ≡ false) }
{
    match text {
        [first, rest @ ..] if *first == octet => Some(rest),
        _ => None,
    }
}
