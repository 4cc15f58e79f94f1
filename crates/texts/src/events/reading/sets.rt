//! The parts of calls of data sets.
ghost use Rattle.std.specs.Prelude.{◌≡◌, ◌∷◌, ◌<◌, ◌≤◌, [], length, map, codes, IfOk, IfErr};
ghost use Rattle.std.specs.Prelude.{IfSome};
ghost use Rattle.std.specs.Prelude.{IsTrue, is_some};
ghost use Rattle.std.specs.List.{All};
ghost use Rattle.plain_text.specs.Words.{words};
ghost use Rattle.mms_data.specs.Datum.{Datum};
ghost use Rattle.mms_data.specs.Lawful.{IsLawful};
ghost use Rattle.mms_data.specs.ObjectName.{IsName};
ghost use Rattle.mms_data.specs.Text.Texts.{name_text, data_text};
ghost use Rattle.mms_data.specs.Text.TextRead.{HasText};
ghost use Rattle.texts.specs.Events.Assigned.{IsValue};
ghost use Rattle.texts.specs.Events.CallWords.{SpellsCall};
ghost use Rattle.texts.specs.Events.Breaks.{Breaks};
ghost use Rattle.texts.specs.Events.Verbs.{HaltsAtWords, Then, NoWord, OneOrMore, IsNameWord};
ghost use Rattle.texts.specs.Events.Verbs.{IsValueWord};
ghost use Rattle.texts.specs.Events.Verbs.{IsDeletionWord, deletion_in};

use crate::events::reading::halt::Halt;
use crate::events::reading::lists::one_more;
use crate::events::reading::names::read_names;
use mms_data::text::{read_data_text, read_name};
use mms_data::{MmsData, Name};
use plain_text::{next_word, read_integer};
use std::alloc::{AllocError, Global};
use tase_views::{Call, CallKind, Values};

/// `NAME`, and nothing behind it.
pub(crate) fn read_sole_name(alloc: Global, text: &[u8]) -> Result<Name, Halt>
    ensures found { IfOk result (λ name. words text.now ≡ name_text name ∷ []) }
    ensures named { IfOk result IsName }
    ensures fault { IfErr result (λ halt. HaltsAtWords halt
        (λ count. Breaks (Then IsNameWord NoWord) (words text.now) count)) }
    ensures within { IfErr result (λ halt. HaltsAtWords halt (λ count. count ≤ length text.now)) }
{
    let Some((word, rest)) = next_word(text) else {
        return Err(Halt::Bad(0));
    };
    let Some(name) = read_name(alloc, word)? else {
        return Err(Halt::Bad(0));
    };
    match next_word(rest) {
        Some(_) => Err(Halt::Bad(1)),
        None => Ok(name),
    }
}

/// `NAME MEMBER ..` behind `define`.
pub(crate) fn read_define(alloc: Global, text: &[u8]) -> Result<Call, Halt>
    ensures found { IfOk result (λ call. SpellsCall (codes "define" ∷ words text.now) call) }
    ensures fault { IfErr result (λ halt. HaltsAtWords halt
        (λ count. Breaks (Then IsNameWord (OneOrMore IsNameWord)) (words text.now) count)) }
    ensures within { IfErr result (λ halt. HaltsAtWords halt (λ count. count ≤ length text.now)) }
{
    let Some((word, rest)) = next_word(text) else {
        return Err(Halt::Bad(0));
    };
    let Some(set) = read_name(alloc, word)? else {
        return Err(Halt::Bad(0));
    };
    match read_names(alloc, rest) {
        Ok(members) => Ok(Call::new(CallKind::Define { set, members })),
        Err(halt) => Err(one_more(halt, rest)),
    }
}

/// `NAME DATA ..` behind `writeset`.
pub(crate) fn read_write_set(alloc: Global, text: &[u8]) -> Result<Call, Halt>
    ensures found { IfOk result (λ call. SpellsCall (codes "writeset" ∷ words text.now) call) }
    ensures fault { IfErr result (λ halt. HaltsAtWords halt
        (λ count. Breaks (Then IsNameWord (OneOrMore IsValueWord)) (words text.now) count)) }
    ensures within { IfErr result (λ halt. HaltsAtWords halt (λ count. count ≤ length text.now)) }
{
    let Some((word, rest)) = next_word(text) else {
        return Err(Halt::Bad(0));
    };
    let Some(set) = read_name(alloc, word)? else {
        return Err(Halt::Bad(0));
    };
    match read_values(alloc, rest) {
        Ok(values) => Ok(Call::new(CallKind::WriteSet { set, values })),
        Err(halt) => Err(one_more(halt, rest)),
    }
}

/// The values that words are, of which there is at least one.
fn read_values(alloc: Global, text: &[u8]) -> Result<Values, Halt>
    ensures found { IfOk result (λ values. words text.now ≡ map data_text values) }
    ensures lawful { IfOk result (All IsLawful) }
    ensures textual { IfOk result (All HasText) }
    ensures some { IfOk result (λ values. 0 < length values) }
    ensures fault { IfErr result (λ halt. HaltsAtWords halt
        (λ count. Breaks (OneOrMore IsValueWord) (words text.now) count)) }
    ensures within { IfErr result (λ halt. HaltsAtWords halt (λ count. count ≤ length text.now)) }
{
    let mut values = Values::new(alloc);
    let mut rest = text;
    while let Some((word, after)) = next_word(rest) {
        let Some(value) = read_datum(alloc, word)? else {
            return Err(Halt::Bad(values.len()));
        };
        values.push(value)?;
        rest = after;
    }
    if values.len() == 0 {
        return Err(Halt::Bad(0));
    }
    Ok(values)
}

/// The value that a word is.
fn read_datum(alloc: Global, word: &[u8]) -> Result<Option<MmsData>, AllocError>
    ensures found { IfOk result (λ read. IfSome read (λ value. IsValue word.now value)) }
    ensures only { (value : Datum) → IsValue word.now value
        → IfOk result (λ read. IsTrue (is_some read)) }
{
    match read_data_text(alloc, word)? {
        Ok(value) => Ok(Some(value)),
        Err(_) => Ok(None),
    }
}

/// `SCOPE` behind `deletescope`.
pub(crate) fn read_delete_scope(text: &[u8]) -> Result<Call, Halt>
    ensures found { IfOk result (λ call. SpellsCall (codes "deletescope" ∷ words text.now) call) }
    ensures fault { IfErr result (λ halt. HaltsAtWords halt
        (λ count. Breaks (Then IsDeletionWord NoWord) (words text.now) count)) }
    ensures within { IfErr result (λ halt. HaltsAtWords halt (λ count. count ≤ length text.now)) }
{
    let Some((word, rest)) = next_word(text) else {
        return Err(Halt::Bad(0));
    };
    let Some(scope) = read_deletion(word) else {
        return Err(Halt::Bad(0));
    };
    match next_word(rest) {
        Some(_) => Err(Halt::Bad(1)),
        None => Ok(Call::new(CallKind::DeleteScope { scope })),
    }
}

/// The scope of deletion that a word is.
fn read_deletion(word: &[u8]) -> Option<i64>
    ensures { result ≡ deletion_in word.now }
{
    let scope = read_integer(word, i64::MIN, i64::MAX)?;
    if scope != 0 { Some(scope) } else { None }
}
