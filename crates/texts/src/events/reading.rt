//! The text of a call, read.
ghost use Rattle.std.specs.Prelude.{◌≡◌, ◌↔◌, ◌∷◌, ◌≤◌, ℕ, length, Ok, Err, codes, IfOk, IfErr};
ghost use Rattle.plain_text.specs.Words.{words};
ghost use Rattle.tase_views.specs.declared.call.CallKind.{CallKind as AnyCall};
ghost use Rattle.tase_views.specs.EventTexts.{read_verb, read_set_verb};
ghost use Rattle.texts.specs.Events.CallWords.{SpellsCall, AreCallWords};
ghost use Rattle.texts.specs.Events.Breaks.{Breaks};
ghost use Rattle.texts.specs.Events.CallTexts.{IsCallText, CallBreaksAt};
ghost use Rattle.texts.specs.Events.Verbs.{HaltsAtWords, Behind, NoWord, Then, OneOrMore, IsNameWord};
ghost use Rattle.texts.specs.Events.Verbs.{IsAssignedWord, verb_text};

mod halt;
mod lists;
mod names;
mod places;
mod sets;
mod verbs;

use halt::Halt;
use lists::{one_more, read_name_list, read_odd};
use names::{read_assignments, read_names};
use places::{blank_place, word_place};
use plain_text::{is_spaced, next_word};
use sets::{read_define, read_delete_scope, read_sole_name, read_write_set};
use std::alloc::{AllocError, Global};
use tase_views::{Call, CallKind};
use verbs::{Verb, find_verb};

/// The call that a text spells, as [`spell_call`](crate::events::spell_call) writes it, but that
/// several spaces may stand between two words; or the first bad place: where the text has a tab, or
/// begins or ends with a space, the place of the first such blank; else the place of the first word
/// with which the words of no call go on, or the text's length where more words are missing.
pub fn read_call(alloc: Global, text: &[u8]) -> Result<Result<Call, usize>, AllocError>
    // What is read is what the text spells,
    ensures found { IfOk result (λ read. IfOk read (λ call. IsCallText text.now call)) }
    // and what it spells is read.
    ensures only { (call : AnyCall) → IsCallText text.now call
        → IfOk result (λ read. read ≡ Ok call) }
    // A place is the first bad one.
    ensures fault { (place : ℕ) → IfOk result
        (λ read. (read ≡ Err place) ↔ CallBreaksAt text.now place) }
{
    if !is_spaced(text) {
        return Ok(Err(blank_place(text)));
    }
    match read_call_words(alloc, text)? {
        Ok(call) => Ok(Ok(call)),
        Err(count) => Ok(Err(word_place(text, count))),
    }
}

/// The call that the words of a text spell, whatever spaces stand in front of them and behind, or
/// how many of the words may begin a call before the first with which none goes on.
pub fn read_call_words(alloc: Global, text: &[u8]) -> Result<Result<Call, usize>, AllocError>
    ensures found { IfOk result (λ read. IfOk read (λ call. SpellsCall (words text.now) call)) }
    ensures only { (call : AnyCall) → SpellsCall (words text.now) call
        → IfOk result (λ read. read ≡ Ok call) }
    ensures fault { (count : ℕ) → IfOk result
        (λ read. (read ≡ Err count) ↔ Breaks AreCallWords (words text.now) count) }
{
    match whole(alloc, text) {
        Ok(call) => Ok(Ok(call)),
        Err(Halt::Bad(count)) => Ok(Err(count)),
        Err(Halt::Memory) => Err(AllocError),
    }
}

/// The call that the words of a text are.
fn whole(alloc: Global, text: &[u8]) -> Result<Call, Halt>
    ensures found { IfOk result (λ call. SpellsCall (words text.now) call) }
    ensures fault { IfErr result (λ halt. HaltsAtWords halt
        (λ count. Breaks AreCallWords (words text.now) count)) }
{
    let Some((word, rest)) = next_word(text) else {
        return Err(Halt::Bad(0));
    };
    let Some(verb) = find_verb(word) else {
        return Err(Halt::Bad(0));
    };
    match behind_verb(alloc, verb, rest) {
        Ok(call) => Ok(call),
        Err(halt) => Err(one_more(halt, rest)),
    }
}

/// The call of a verb and the words behind it.
fn behind_verb(alloc: Global, verb: Verb, text: &[u8]) -> Result<Call, Halt>
    ensures found { IfOk result (λ call. SpellsCall (verb_text verb ∷ words text.now) call) }
    ensures fault { IfErr result (λ halt. HaltsAtWords halt
        (λ count. Breaks (Behind verb) (words text.now) count)) }
    ensures within { IfErr result (λ halt. HaltsAtWords halt (λ count. count ≤ length text.now)) }
{
    match verb {
        Verb::Identify => read_identify(text),
        Verb::Read => read_read(alloc, text, false),
        Verb::ReadEcho => read_read(alloc, text, true),
        Verb::ReadSet => read_read_set(alloc, text, false),
        Verb::ReadSetEcho => read_read_set(alloc, text, true),
        Verb::Write => read_write(alloc, text),
        Verb::WriteSet => read_write_set(alloc, text),
        Verb::NameList => read_name_list(alloc, text),
        Verb::TypeOf => read_type_of(alloc, text),
        Verb::Define => read_define(alloc, text),
        Verb::MembersOf => read_members_of(alloc, text),
        Verb::Delete => read_delete(alloc, text),
        Verb::DeleteScope => read_delete_scope(text),
        Verb::Odd => read_odd(text),
    }
}

/// Nothing behind `identify`.
fn read_identify(text: &[u8]) -> Result<Call, Halt>
    ensures found { IfOk result (λ call. SpellsCall (codes "identify" ∷ words text.now) call) }
    ensures fault { IfErr result (λ halt. HaltsAtWords halt
        (λ count. Breaks NoWord (words text.now) count)) }
    ensures within { IfErr result (λ halt. HaltsAtWords halt (λ count. count ≤ length text.now)) }
{
    match next_word(text) {
        Some(_) => Err(Halt::Bad(0)),
        None => Ok(Call::new(CallKind::Identify)),
    }
}

/// `NAME ..` behind `read` or `read+`.
fn read_read(alloc: Global, text: &[u8], echo: bool) -> Result<Call, Halt>
    ensures found { IfOk result (λ call. SpellsCall (read_verb echo ∷ words text.now) call) }
    ensures fault { IfErr result (λ halt. HaltsAtWords halt
        (λ count. Breaks (OneOrMore IsNameWord) (words text.now) count)) }
    ensures within { IfErr result (λ halt. HaltsAtWords halt (λ count. count ≤ length text.now)) }
{
    let names = read_names(alloc, text)?;
    Ok(Call::new(CallKind::Read { names, echo }))
}

/// `NAME=DATA ..` behind `write`.
fn read_write(alloc: Global, text: &[u8]) -> Result<Call, Halt>
    ensures found { IfOk result (λ call. SpellsCall (codes "write" ∷ words text.now) call) }
    ensures fault { IfErr result (λ halt. HaltsAtWords halt
        (λ count. Breaks (OneOrMore IsAssignedWord) (words text.now) count)) }
    ensures within { IfErr result (λ halt. HaltsAtWords halt (λ count. count ≤ length text.now)) }
{
    let read = read_assignments(alloc, text)?;
    Ok(Call::new(CallKind::Write {
        names: read.names,
        values: read.values,
    }))
}

/// `NAME` behind `readset` or `readset+`.
fn read_read_set(alloc: Global, text: &[u8], echo: bool) -> Result<Call, Halt>
    ensures found { IfOk result (λ call. SpellsCall (read_set_verb echo ∷ words text.now) call) }
    ensures fault { IfErr result (λ halt. HaltsAtWords halt
        (λ count. Breaks (Then IsNameWord NoWord) (words text.now) count)) }
    ensures within { IfErr result (λ halt. HaltsAtWords halt (λ count. count ≤ length text.now)) }
{
    let set = read_sole_name(alloc, text)?;
    Ok(Call::new(CallKind::ReadSet { set, echo }))
}

/// `NAME` behind `type`.
fn read_type_of(alloc: Global, text: &[u8]) -> Result<Call, Halt>
    ensures found { IfOk result (λ call. SpellsCall (codes "type" ∷ words text.now) call) }
    ensures fault { IfErr result (λ halt. HaltsAtWords halt
        (λ count. Breaks (Then IsNameWord NoWord) (words text.now) count)) }
    ensures within { IfErr result (λ halt. HaltsAtWords halt (λ count. count ≤ length text.now)) }
{
    let name = read_sole_name(alloc, text)?;
    Ok(Call::new(CallKind::TypeOf { name }))
}

/// `NAME` behind `members`.
fn read_members_of(alloc: Global, text: &[u8]) -> Result<Call, Halt>
    ensures found { IfOk result (λ call. SpellsCall (codes "members" ∷ words text.now) call) }
    ensures fault { IfErr result (λ halt. HaltsAtWords halt
        (λ count. Breaks (Then IsNameWord NoWord) (words text.now) count)) }
    ensures within { IfErr result (λ halt. HaltsAtWords halt (λ count. count ≤ length text.now)) }
{
    let set = read_sole_name(alloc, text)?;
    Ok(Call::new(CallKind::MembersOf { set }))
}

/// `NAME ..` behind `delete`.
fn read_delete(alloc: Global, text: &[u8]) -> Result<Call, Halt>
    ensures found { IfOk result (λ call. SpellsCall (codes "delete" ∷ words text.now) call) }
    ensures fault { IfErr result (λ halt. HaltsAtWords halt
        (λ count. Breaks (OneOrMore IsNameWord) (words text.now) count)) }
    ensures within { IfErr result (λ halt. HaltsAtWords halt (λ count. count ≤ length text.now)) }
{
    let sets = read_names(alloc, text)?;
    Ok(Call::new(CallKind::Delete { sets }))
}
