//! How an association is accounted for.
ghost use Rattle.std.specs.Prelude.{◌≡◌, IfOk, IsErr, IsSome, Err, None};
ghost use Rattle.tase_views.specs.Setup.{Setup};
ghost use Rattle.tase_views.specs.History.{Past};
ghost use Rattle.tase_verify.specs.Association.Verdicts.{Judges};
ghost use Rattle.tase_verify.specs.Verifying.{answered_for, stray_for, verdict_for};

use crate::association::{Account, AccountError, AnsweredEvent, check_association};
use crate::link_text::LinkText;
use bilateral::Centre;
use sbo_device::Key;
use std::alloc::Global;

/// How an association is accounted for, whose events these are with their answers, as
/// [`read_journal`](crate::read_journal) gives them, and whose link gave this. What it was sent is
/// judged by that, without memory. Once the events are compared with what the link asks, a stray
/// one is told whether memory is left or not; where no association is meant, the first event is
/// missing, which is told at once.
pub fn verify_association(
    alloc: Global,
    centre: &Centre,
    key: Option<Key>,
    answered: &[AnsweredEvent],
    given: &LinkText,
) -> Result<Account, AccountError>
    ensures account { (setup : Setup) (past : Past) → setup.centre ≡ centre.now
        → answered.now ≡ answered_for setup key past → IfOk result (Judges
        (verdict_for centre.now past key given.now.octets.items given.now.ended)) }
    ensures memory { IsErr result → IsSome key }
    ensures stray { (setup : Setup) (past : Past) → setup.centre ≡ centre.now
        → answered.now ≡ answered_for setup key past → result ≡ Err AccountError.Unsaid
        → stray_for centre.now past key given.now.octets.items given.now.ended ≡ None }
{
    match key {
        Some(_) => {
            check_association(
                alloc,
                centre,
                answered,
                given.octets.as_slice(),
                given.ended,
            )
        }
        None => Ok(Account::Stray { number: 0 }),
    }
}
