//! A check of an association.
ghost use Rattle.std.specs.Prelude.{◌≡◌, ℕ, None, IfOk, IsErr, Err};
ghost use Rattle.sbo_device.specs.declared.key.Key.{Key as AnyKey};
ghost use Rattle.tase_views.specs.Setup.{Setup};
ghost use Rattle.tase_views.specs.History.{Past};
ghost use Rattle.tase_verify.specs.Association.Accounting.{IsSaidBy, IsAccount, IsCompared};
ghost use Rattle.tase_verify.specs.Association.Answered.{answered_in};
ghost use Rattle.tase_verify.specs.Association.Stray.{events_entered, events_asked, events_told};
ghost use Rattle.tase_verify.specs.Association.Stray.{first_stray};
ghost use Rattle.tase_verify.specs.Association.Verdicts.{Judges, verdict_of};

use crate::association::account::{Account, AccountError};
use crate::association::answered::AnsweredEvent;
use crate::association::asking::asked_in;
use crate::association::hearing::{Heard, hear};
use crate::association::spelled::{
    answered_are_spelled, events_are_spelled, spell_answered, spell_events,
};
use crate::association::stray::first_stray;
use crate::association::terms::terms_of;
use bilateral::Centre;
use std::alloc::{AllocError, Global};
use tase_views::Event;

/// How these events of an association are accounted for, which have the node's answers and are in
/// order, where its link gave these octets and ended behind them, or didn't. What it was sent is
/// judged by that, without memory. Once the events are compared with those that the link asks, a
/// stray one is told whether memory is left or not.
pub fn check_association(
    alloc: Global,
    centre: &Centre,
    answered: &[AnsweredEvent],
    octets: &[u8],
    ended: bool,
) -> Result<Account, AccountError>
    ensures account { (setup : Setup) (past : Past) (key : AnyKey) → setup.centre ≡ centre.now
        → answered.now ≡ answered_in setup key past
        → IfOk result (Judges (verdict_of centre.now past key octets.now ended)) }
    ensures memory { (setup : Setup) (past : Past) (key : AnyKey) → setup.centre ≡ centre.now
        → answered.now ≡ answered_in setup key past → result ≡ Err AccountError.Unsaid
        → first_stray (events_entered key past) (events_asked centre.now octets.now ended)
        ≡ None }
{
    match compare_events(alloc, centre, answered, octets, ended) {
        Ok(compared) => account_for(alloc, compared, ended, answered),
        Err(AllocError) => Err(AccountError::Uncompared),
    }
}

/// What was heard of the link of an association, and which of its events is stray by that.
#[derive(Drop)]
pub(crate) struct Compared {
    heard: Heard,
    /// The number of the first stray event, if there is one.
    stray: Option<u64>,
}

/// Compares events with those that their link asks.
fn compare_events(
    alloc: Global,
    centre: &Centre,
    answered: &[AnsweredEvent],
    octets: &[u8],
    ended: bool,
) -> Result<Compared, AllocError>
    ensures { IfOk result (IsCompared centre.now answered.now octets.now ended) }
{
    let heard = hear(alloc, octets)?;
    let asked = asked_in(alloc, centre, heard.inputs.as_slice(), heard.broken, ended)?;
    events_are_spelled(asked.as_slice());
    answered_are_spelled(answered);
    let stray = stray_in(alloc, answered, asked.as_slice())?;
    Ok(Compared { heard, stray })
}

/// Which of these events is stray by those that are asked.
fn stray_in(
    alloc: Global,
    answered: &[AnsweredEvent],
    asked: &[Event],
) -> Result<Option<u64>, AllocError>
    ensures { IfOk result (λ stray. stray ≡ first_stray (events_told answered.now) asked.now) }
{
    let events = spell_answered(alloc, answered)?;
    let asked = spell_events(alloc, asked)?;
    Ok(first_stray(events.as_slice(), asked.as_slice()))
}

/// How events that were compared are accounted for. A stray one is told without memory.
fn account_for(
    alloc: Global,
    compared: Compared,
    ended: bool,
    answered: &[AnsweredEvent],
) -> Result<Account, AccountError>
    ensures account { IfOk result (IsAccount compared ended answered.now) }
    ensures memory { IsErr result → compared.stray ≡ None }
{
    let Compared { heard, stray } = compared;
    match stray {
        Some(number) => Ok(Account::Stray { number }),
        None => match say_all(alloc, heard, ended, answered) {
            Ok(want) => Ok(Account::Octets(want)),
            Err(AllocError) => Err(AccountError::Unsaid),
        },
    }
}

/// The octets that are sent of these events.
fn say_all(
    alloc: Global,
    heard: Heard,
    ended: bool,
    answered: &[AnsweredEvent],
) -> Result<Vec<u8>, AllocError>
    ensures { IfOk result (λ want. IsSaidBy heard ended answered.now want.items) }
{
    let terms = terms_of(alloc, heard, ended)?;
    let want = terms.octets(answered)?;
    Ok(want)
}
