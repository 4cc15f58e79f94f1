//! The command `verify`: what an association was sent, held against its history.
ghost use Rattle.std.specs.Prelude.{◌≡◌, ◌≢◌, IfOk, IsOk, List, ℕ, Err, codes};
ghost use Rattle.std.specs.Prelude.{Result as AnyResult};
ghost use Rattle.std.specs.Arc.{arc_value};
ghost use Rattle.commands.specs.declared.io.input.InputEnd.{InputEnd as AnyEnd};
ghost use Rattle.commands.specs.declared.io.input.TheConstants.{TEXT_LIMIT, JOURNAL_LIMIT};
ghost use Rattle.commands.specs.Io.Inputs.{value_as};
ghost use Rattle.commands.specs.Io.Plans.{RunsPlan, EndsPlan, IsSpelled, ReadsValue, octets_of};
ghost use Rattle.tase_verify.specs.declared.association.verdict.Verdict.{Verdict as AnyVerdict};
ghost use Rattle.tase_views.specs.History.{Past};
ghost use Rattle.tase_verify.specs.Association.Verdicts.{Judges};
ghost use Rattle.tase_verify.specs.JournalIn.{journal_in};
ghost use Rattle.tase_verify.specs.LinkText.{given_in};
ghost use Rattle.tase_verify.specs.Verifying.{journal_setup};
ghost use Rattle.commands.specs.Words.Words.{question_seen};
ghost use Rattle.tase_tool.specs.Lacking.{LacksBehind, LacksText, LacksRead, LacksSound};
ghost use Rattle.tase_tool.specs.Lacking.{LacksNothing, LacksSent, LacksGiven, LacksJournal};
ghost use Rattle.tase_tool.specs.Lacking.{LacksCheck};
ghost use Rattle.tase_tool.specs.Verifying.{link_given, AreAnswers, IsMeant};
ghost use Rattle.tase_tool.specs.Verifying.{judged_text, judged_plan, sent_plan, given_plan};
ghost use Rattle.tase_tool.specs.Verifying.{journal_plan, verify_plan};
ghost use Rattle.tase_tool.specs.Verifying as own;

use crate::captures::refuse_line;
use crate::verdicts::tell_verdict;
use bilateral::Centre;
use capture_text::read_pieces;
use commands::files::read_tables;
use commands::io::{
    InputEnd, JOURNAL_LIMIT, Status, TEXT_LIMIT, end_unread, note_unread, read_input, value_or_end,
};
use commands::words::Question;
use outside::names::Outside;
use sbo_device::Key;
use std::alloc::{AllocError, Global};
use std::sync::Arc;
use tase_verify::association::{Account, AccountError, AnsweredEvent};
use tase_verify::{LinkText, read_journal, read_link_text, verify_association};

/// An association, as a journal tells it.
#[derive(Clone, Copy)]
pub(crate) struct Meant<'a> {
    centre: &'a Centre,
    /// Its key, if the tables have its peer.
    key: Option<Key>,
    /// Its events, with the answers of the node.
    answered: &'a [AnsweredEvent],
}

/// Reads tables, a journal and two captures, and tells whether the octets of the second are those
/// that the association is sent, by the journal and what its link gave, which is the first.
pub(crate) fn run_verify<O: Outside>(
    alloc: Global,
    outside: &mut O,
    question: Question<'_>,
) -> Status
    ensures runs { RunsPlan (verify_plan (question_seen question.entry))
        (O.told outside.old) (O.told outside.new) result }
    ensures memory { result ≡ Status.Memory → LacksCheck (question_seen question.entry)
        (O.told outside.old) (O.told outside.new) }
{
    let read = read_tables(alloc, outside, question.tables);
    verify_over(alloc, outside, question, read)
}

// Verifies over tables that were read to this.
fn verify_over<O: Outside>(
    alloc: Global,
    outside: &mut O,
    question: Question<'_>,
    read: Result<Centre, InputEnd>,
) -> Status
    ensures runs { EndsPlan (codes "tables") (journal_plan (question_seen question.entry)) read
        (O.told outside.old) (O.told outside.new) result }
    ensures memory { result ≡ Status.Memory
        → LacksBehind (LacksJournal (question_seen question.entry)) read
        (O.told outside.old) (O.told outside.new) }
{
    match read {
        Ok(centre) => share_centre(alloc, outside, question, centre),
        Err(end) => end_unread(outside, "tables", end),
    }
}

fn shared(alloc: Global, centre: Centre) -> Result<Arc<Centre>, AllocError>
    ensures { IfOk result (λ shared. arc_value shared ≡ centre) }
{
    Ok(Arc::new(alloc, centre)?)
}

// Verifies over a centre, which the node of the journal shares.
fn share_centre<O: Outside>(
    alloc: Global,
    outside: &mut O,
    question: Question<'_>,
    centre: Centre,
) -> Status
    ensures runs { RunsPlan (journal_plan (question_seen question.entry) centre)
        (O.told outside.old) (O.told outside.new) result }
    ensures memory { result ≡ Status.Memory → LacksJournal (question_seen question.entry) centre
        (O.told outside.old) (O.told outside.new) }
{
    match shared(alloc, centre) {
        Ok(centre) => verify_centre(alloc, outside, question, &centre),
        Err(AllocError) => Status::Memory,
    }
}

// The association that is meant, if the tables have its peer.
fn key_meant(centre: &Centre, question: Question<'_>) -> Option<Key>
    ensures { result ≡ own.key_meant centre.now (question_seen question.entry) }
{
    let peer = centre.find_peer(question.peer.as_bytes())?;
    Some(Key {
        peer,
        ordinal: question.ordinal,
    })
}

// Reads the journal of a centre, and verifies by it.
fn verify_centre<O: Outside>(
    alloc: Global,
    outside: &mut O,
    question: Question<'_>,
    centre: &Arc<Centre>,
) -> Status
    ensures runs { RunsPlan (journal_plan (question_seen question.entry) (arc_value centre.now))
        (O.told outside.old) (O.told outside.new) result }
    ensures memory { result ≡ Status.Memory
        → LacksJournal (question_seen question.entry) (arc_value centre.now)
        (O.told outside.old) (O.told outside.new) }
{
    let tables: &Centre = centre;
    let key = key_meant(tables, question);
    let read = read_answered(alloc, outside, question.journal, centre, key);
    verify_answered(alloc, outside, question, tables, key, read)
}

// The events of the association that is meant, in the text of a journal, or why there are none. An
// operator is told of its first bad line.
fn answered_from<O: Outside>(
    alloc: Global,
    outside: &O,
    text: &[u8],
    centre: &Arc<Centre>,
    key: Option<Key>,
) -> Result<Vec<AnsweredEvent>, InputEnd>
    ensures { let rows = arc_value centre.now in (was : AnyResult Past AnyEnd)
        × (IsSpelled was (journal_in (journal_setup rows) text.now)
        × AreAnswers rows key was result) }
{
    let read = value_or_end(read_journal(alloc, centre, text, key));
    note_unread(alloc, outside, "journal", text, &read);
    read
}

// Reads the events of the association that is meant from the journal under a name.
fn read_answered<O: Outside>(
    alloc: Global,
    outside: &mut O,
    name: &str,
    centre: &Arc<Centre>,
    key: Option<Key>,
) -> Result<Vec<AnsweredEvent>, InputEnd>
    ensures { let rows = arc_value centre.now in (was : AnyResult Past AnyEnd)
        × (ReadsValue (journal_in (journal_setup rows)) name.now JOURNAL_LIMIT was
        (O.told outside.old) (O.told outside.new) × AreAnswers rows key was result) }
{
    match read_input(alloc, outside, name, JOURNAL_LIMIT) {
        Ok(text) => answered_from(alloc, outside, &text, centre, key),
        Err(end) => Err(end),
    }
}

// Verifies by the events of the association that is meant, which a journal was read to.
fn verify_answered<O: Outside>(
    alloc: Global,
    outside: &mut O,
    question: Question<'_>,
    centre: &Centre,
    key: Option<Key>,
    read: Result<Vec<AnsweredEvent>, InputEnd>,
) -> Status
    ensures runs { (was : AnyResult Past AnyEnd) → AreAnswers centre.now key was read
        → EndsPlan (codes "journal") (given_plan (question_seen question.entry) centre.now key) was
        (O.told outside.old) (O.told outside.new) result }
    ensures memory { (was : AnyResult Past AnyEnd) → AreAnswers centre.now key was read
        → result ≡ Status.Memory
        → LacksBehind (λ past. LacksGiven (question_seen question.entry)) was
        (O.told outside.old) (O.told outside.new) }
{
    match read {
        Ok(events) => {
            let answered = events.as_slice();
            let meant = Meant {
                centre,
                key,
                answered,
            };
            verify_meant(alloc, outside, question, meant)
        }
        Err(end) => end_unread(outside, "journal", end),
    }
}

// Reads what the link of an association gave, and verifies by it.
fn verify_meant<O: Outside>(
    alloc: Global,
    outside: &mut O,
    question: Question<'_>,
    meant: Meant<'_>,
) -> Status
    ensures runs { (past : Past) → IsMeant meant.entry past
        → RunsPlan (given_plan (question_seen question.entry) meant.entry.centre.now
        meant.entry.key past)
        (O.told outside.old) (O.told outside.new) result }
    ensures memory { result ≡ Status.Memory → LacksGiven (question_seen question.entry)
        (O.told outside.old) (O.told outside.new) }
{
    let read = read_link(alloc, outside, question.given);
    verify_given(alloc, outside, question, meant, read)
}

// What a link gave, of a text, or why there is nothing. Its first bad line is found whether memory
// is left or not, and an operator is told of it.
fn link_from<O: Outside>(alloc: Global, outside: &O, text: &[u8]) -> Result<LinkText, InputEnd>
    ensures value { IsSpelled (value_as link_given result) (given_in text.now) }
    ensures memory { result ≡ Err InputEnd.Memory → IsOk (given_in text.now) }
{
    let read = value_or_end(read_link_text(alloc, text));
    note_unread(alloc, outside, "in", text, &read);
    read
}

// Reads what a link gave from the file of this name.
fn read_link<O: Outside>(alloc: Global, outside: &mut O, name: &str) -> Result<LinkText, InputEnd>
    ensures value { ReadsValue given_in name.now TEXT_LIMIT (value_as link_given result)
        (O.told outside.old) (O.told outside.new) }
    ensures memory { result ≡ Err InputEnd.Memory
        → LacksRead (LacksSound given_in) name.now TEXT_LIMIT
        (O.told outside.old) (O.told outside.new) }
{
    match read_input(alloc, outside, name, TEXT_LIMIT) {
        Ok(text) => link_from(alloc, outside, &text),
        Err(end) => Err(end),
    }
}

// Verifies by what a link gave, which was read to this.
fn verify_given<O: Outside>(
    alloc: Global,
    outside: &mut O,
    question: Question<'_>,
    meant: Meant<'_>,
    read: Result<LinkText, InputEnd>,
) -> Status
    ensures runs { (past : Past) → IsMeant meant.entry past → EndsPlan (codes "in")
        (sent_plan (question_seen question.entry) meant.entry.centre.now meant.entry.key past)
        (value_as link_given read) (O.told outside.old) (O.told outside.new) result }
    ensures memory { result ≡ Status.Memory
        → LacksBehind (λ given. LacksSent question.entry.sent.now) (value_as link_given read)
        (O.told outside.old) (O.told outside.new) }
{
    match read {
        Ok(given) => verify_link(alloc, outside, question, meant, &given),
        Err(end) => end_unread(outside, "in", end),
    }
}

// Accounts for an association by what its link gave, and judges by that what it was sent.
fn verify_link<O: Outside>(
    alloc: Global,
    outside: &mut O,
    question: Question<'_>,
    meant: Meant<'_>,
    given: &LinkText,
) -> Status
    ensures runs { (past : Past) → IsMeant meant.entry past
        → RunsPlan (sent_plan (question_seen question.entry) meant.entry.centre.now
        meant.entry.key past (link_given given.now))
        (O.told outside.old) (O.told outside.new) result }
    ensures memory { result ≡ Status.Memory → LacksSent question.entry.sent.now
        (O.told outside.old) (O.told outside.new) }
{
    let Meant {
        centre,
        key,
        answered,
    } = meant;
    let account = verify_association(alloc, centre, key, answered, given);
    verify_sent(alloc, outside, question.sent, account)
}

// Judges what an association was sent, which is accounted for so. All that this takes memory for is
// there before its capture is opened.
fn verify_sent<O: Outside>(
    alloc: Global,
    outside: &mut O,
    name: &str,
    account: Result<Account, AccountError>,
) -> Status
    ensures runs { (judged : List ℕ → AnyVerdict) → IfOk account (Judges judged)
        → RunsPlan (judged_plan name.now judged) (O.told outside.old) (O.told outside.new) result }
    ensures memory { result ≡ Status.Memory → LacksSent name.now
        (O.told outside.old) (O.told outside.new) }
{
    match account {
        Ok(account) => judge_file(alloc, outside, name, &account),
        Err(_) => Status::Memory,
    }
}

// Reads what an association was sent from the capture under a name, and judges it by an account.
fn judge_file<O: Outside>(alloc: Global, outside: &mut O, name: &str, account: &Account) -> Status
    ensures runs { (judged : List ℕ → AnyVerdict) → Judges judged account.now
        → RunsPlan (judged_plan name.now judged) (O.told outside.old) (O.told outside.new) result }
    ensures memory { result ≡ Status.Memory → LacksRead LacksNothing name.now TEXT_LIMIT
        (O.told outside.old) (O.told outside.new) }
{
    let read = read_input(alloc, outside, name, TEXT_LIMIT);
    judge_read(alloc, outside, account, read)
}

// Judges a capture that was read to this.
fn judge_read<O: Outside>(
    alloc: Global,
    outside: &mut O,
    account: &Account,
    read: Result<Vec<u8>, InputEnd>,
) -> Status
    ensures runs { (judged : List ℕ → AnyVerdict) → Judges judged account.now
        → EndsPlan (codes "out") (λ text. judged_text judged (octets_of text)) read
        (O.told outside.old) (O.told outside.new) result }
    ensures memory { result ≡ Status.Memory
        → LacksText LacksNothing read (O.told outside.old) (O.told outside.new) }
{
    match read {
        Ok(text) => judge_text(alloc, outside, account, &text),
        Err(end) => end_unread(outside, "out", end),
    }
}

// Judges the octets of a capture, and tells the verdict or its first bad line, whether memory is
// left or not.
fn judge_text<O: Outside>(alloc: Global, outside: &mut O, account: &Account, text: &[u8]) -> Status
    ensures runs { (judged : List ℕ → AnyVerdict) → Judges judged account.now
        → RunsPlan (judged_text judged text.now) (O.told outside.old) (O.told outside.new) result }
    ensures memory { result ≢ Status.Memory }
{
    match read_pieces(text) {
        Ok(pieces) => tell_verdict(outside, account.judge(pieces)),
        Err(line) => refuse_line(alloc, outside, "out", text, line),
    }
}
