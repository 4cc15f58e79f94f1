//! The parts of a list of names and of an odd call.
ghost use Rattle.std.specs.Prelude.{◌≡◌, ◌∷◌, ◌≤◌, [], length, codes, IfOk, IfErr, IfSome, OnOk};
ghost use Rattle.std.specs.Prelude.{bytes_eq};
ghost use Rattle.plain_text.specs.Words.{words};
ghost use Rattle.mms_data.specs.ObjectName.{IsScope, IsIdentifier};
ghost use Rattle.mms_data.specs.Text.NameIn.{identifier_in};
ghost use Rattle.texts.specs.Events.CallWords.{SpellsCall, after_words};
ghost use Rattle.texts.specs.Events.Breaks.{Breaks};
ghost use Rattle.texts.specs.Events.Verbs.{HaltsAtWords, Then, NoWord, AtMostOne, IsClassWord};
ghost use Rattle.texts.specs.Events.Verbs.{IsScopeWord};
ghost use Rattle.texts.specs.Events.Verbs.{IsAfterWord, IsOddKind, IsOddCode, class_in};
ghost use Rattle.texts.specs.Events.Verbs.{scope_word_in};
ghost use Rattle.texts.specs.Events.Verbs.{bare_scope_in, odd_kind_in, IsScopeAfter};
ghost use Rattle.texts.specs.Events.Verbs as own;

use crate::events::reading::halt::Halt;
use ber_values::{Visible, is_visible};
use mms_data::Scope;
use plain_text::{next_word, read_escaped, read_integer};
use std::alloc::{AllocError, Global};
use tase_views::{Call, CallKind};

/// `CLASS SCOPE` or `CLASS SCOPE AFTER` behind `names`.
pub(crate) fn read_name_list(alloc: Global, text: &[u8]) -> Result<Call, Halt>
    ensures found { IfOk result (λ call. SpellsCall (codes "names" ∷ words text.now) call) }
    ensures fault { IfErr result (λ halt. HaltsAtWords halt (λ count. Breaks
        (Then IsClassWord (Then IsScopeWord (AtMostOne IsAfterWord))) (words text.now) count)) }
    ensures within { IfErr result (λ halt. HaltsAtWords halt (λ count. count ≤ length text.now)) }
{
    let Some((word, rest)) = next_word(text) else {
        return Err(Halt::Bad(0));
    };
    let Some(class) = read_class(word) else {
        return Err(Halt::Bad(0));
    };
    match read_scope_after(alloc, rest) {
        Ok((scope, after)) => Ok(Call::new(CallKind::NameList {
            class,
            scope,
            after,
        })),
        Err(halt) => Err(one_more(halt, rest)),
    }
}

/// The same fault one word further on.
pub(crate) fn one_more(halt: Halt, text: &[u8]) -> Halt
    requires { HaltsAtWords halt (λ count. count ≤ length text.now) }
    ensures { result ≡ own.one_more halt }
{
    match halt {
        Halt::Memory => Halt::Memory,
        Halt::Bad(count) => Halt::Bad(count + 1),
    }
}

/// The class that a word is.
fn read_class(word: &[u8]) -> Option<i64>
    ensures { result ≡ class_in word.now }
{
    read_integer(word, i64::MIN, i64::MAX)
}

/// `SCOPE` or `SCOPE AFTER`.
fn read_scope_after(alloc: Global, text: &[u8]) -> Result<(Scope, Option<Visible>), Halt>
    ensures found { IfOk result (λ x. IsScopeAfter (words text.now) x.0 x.1) }
    ensures fault { IfErr result (λ halt. HaltsAtWords halt (λ count. Breaks
        (Then IsScopeWord (AtMostOne IsAfterWord)) (words text.now) count)) }
    ensures within { IfErr result (λ halt. HaltsAtWords halt (λ count. count ≤ length text.now)) }
{
    let Some((word, rest)) = next_word(text) else {
        return Err(Halt::Bad(0));
    };
    let Some(scope) = read_scope(alloc, word)? else {
        return Err(Halt::Bad(0));
    };
    match read_after(alloc, rest) {
        Ok(after) => Ok((scope, after)),
        Err(halt) => Err(one_more(halt, rest)),
    }
}

/// `AFTER`, or nothing.
fn read_after(alloc: Global, text: &[u8]) -> Result<Option<Visible>, Halt>
    ensures found { IfOk result (λ after. words text.now ≡ after_words after) }
    ensures named { IfOk result (λ after. IfSome after IsIdentifier) }
    ensures fault { IfErr result (λ halt. HaltsAtWords halt
        (λ count. Breaks (AtMostOne IsAfterWord) (words text.now) count)) }
    ensures within { IfErr result (λ halt. HaltsAtWords halt (λ count. count ≤ length text.now)) }
{
    let Some((word, rest)) = next_word(text) else {
        return Ok(None);
    };
    let Some(after) = read_identifier(alloc, word)? else {
        return Err(Halt::Bad(0));
    };
    match next_word(rest) {
        Some(_) => Err(Halt::Bad(1)),
        None => Ok(Some(after)),
    }
}

/// The scope that a word is.
fn read_scope(alloc: Global, word: &[u8]) -> Result<Option<Scope>, AllocError>
    ensures exact { IfOk result (λ scope. scope ≡ scope_word_in word.now) }
    ensures named { IfOk result (λ scope. IfSome scope IsScope) }
{
    match word {
        [before @ .., b'/'] => Ok(read_identifier(alloc, before)?.map(Scope::Domain)),
        _ => Ok(read_bare_scope(word)),
    }
}

/// The scope that a word without a slash at its end is.
fn read_bare_scope(word: &[u8]) -> Option<Scope>
    ensures exact { result ≡ bare_scope_in word.now }
    ensures named { IfSome result IsScope }
{
    if word == b"vmd:".as_slice() {
        Some(Scope::Vmd)
    } else if word == b"aa:".as_slice() {
        Some(Scope::Association)
    } else {
        None
    }
}

/// The identifier that an escaped word stands for.
fn read_identifier(alloc: Global, word: &[u8]) -> Result<Option<Visible>, AllocError>
    ensures exact { IfOk result (λ octets. octets ≡ identifier_in word.now) }
    ensures named { IfOk result (λ octets. IfSome octets IsIdentifier) }
{
    let Some(octets) = read_escaped(alloc, word)? else {
        return Ok(None);
    };
    if octets.is_empty() || !is_visible(&octets) {
        return Ok(None);
    }
    Ok(Some(Visible::new(octets)))
}

/// `KIND CODE` behind `odd`: `1 1` or `5 1`.
pub(crate) fn read_odd(text: &[u8]) -> Result<Call, Halt>
    ensures found { IfOk result (λ call. SpellsCall (codes "odd" ∷ words text.now) call) }
    ensures fault { IfErr result (λ halt. HaltsAtWords halt
        (λ count. Breaks (Then IsOddKind (Then IsOddCode NoWord)) (words text.now) count)) }
    ensures within { IfErr result (λ halt. HaltsAtWords halt (λ count. count ≤ length text.now)) }
{
    let Some((word, rest)) = next_word(text) else {
        return Err(Halt::Bad(0));
    };
    let Some(kind) = read_kind(word) else {
        return Err(Halt::Bad(0));
    };
    match read_code(rest) {
        Ok(()) => Ok(Call::new(CallKind::Odd { kind, code: 1 })),
        Err(halt) => Err(one_more(halt, rest)),
    }
}

/// The kind of a reject that a word is: 1 or 5.
fn read_kind(word: &[u8]) -> Option<u8>
    ensures { result ≡ odd_kind_in word.now }
{
    if word == b"1".as_slice() {
        Some(1)
    } else if word == b"5".as_slice() {
        Some(5)
    } else {
        None
    }
}

/// `1`, and nothing behind it.
fn read_code(text: &[u8]) -> Result<(), Halt>
    ensures found { OnOk result (words text.now ≡ codes "1" ∷ []) }
    ensures fault { IfErr result (λ halt. HaltsAtWords halt
        (λ count. Breaks (Then IsOddCode NoWord) (words text.now) count)) }
    ensures within { IfErr result (λ halt. HaltsAtWords halt (λ count. count ≤ length text.now)) }
{
    let Some((word, rest)) = next_word(text) else {
        return Err(Halt::Bad(0));
    };
    if !is_one(word) {
        return Err(Halt::Bad(0));
    }
    match next_word(rest) {
        Some(_) => Err(Halt::Bad(1)),
        None => Ok(()),
    }
}

/// Whether a word is `1`.
fn is_one(word: &[u8]) -> bool
    ensures { result ≡ bytes_eq word.now (codes "1") }
{
    word == b"1".as_slice()
}
