//! What a link gives an association to act on, as far as its octets hang on it.
ghost use Rattle.std.specs.Prelude.{◌≡◌, ◌++◌, ◌∷◌, [], if◌then◌else◌, IfOk, OnOk, map, option_map};
ghost use Rattle.tase_conn.specs.Map.Turns.{turn_in, turn_of_pdu};
ghost use Rattle.tase_verify.specs.Association.Asking.{turns_of_inputs};
ghost use Rattle.tase_verify.specs.Association.Saying.{kind_of_turn};

use mms_services::MmsPdu;
use stack_assoc::StackIn;
use std::alloc::{AllocError, Global};

/// What a turn is.
#[derive(Clone, Copy, Debug, PartialEq, Eq)]
pub(crate) enum TurnKind {
    /// An association is offered.
    Offers,
    /// A request with this number.
    Asks { invoke: u32 },
    Concludes,
    Releases,
    Aborts,
    /// A rule is broken.
    Breaks,
    /// The link has ended.
    Ends,
}

/// The turns of what was handed out, whether a rule was broken behind it, and whether the link has
/// ended.
pub(crate) fn turns_of(
    alloc: Global,
    inputs: &[StackIn],
    broken: bool,
    ended: bool,
) -> Result<Vec<TurnKind>, AllocError>
    ensures { IfOk result (λ turns. turns.items
        ≡ map kind_of_turn (turns_of_inputs inputs.now broken ended)) }
{
    let mut turns = Vec::new(alloc);
    for input in inputs {
        if let Some(turn) = turn_in(input) {
            turns.push(turn)?;
        }
    }
    push_if(&mut turns, broken, TurnKind::Breaks)?;
    push_if(&mut turns, ended, TurnKind::Ends)?;
    Ok(turns)
}

fn push_if(turns: &mut Vec<TurnKind>, there: bool, turn: TurnKind) -> Result<(), AllocError>
    ensures { OnOk result (turns.new.items
        ≡ turns.old.items ++ (if there then turn ∷ [] else [])) }
{
    if there {
        turns.push(turn)?;
    }
    Ok(())
}

/// What was handed out as a turn, where it is one.
pub(crate) fn turn_in(input: &StackIn) -> Option<TurnKind>
    ensures { result ≡ option_map kind_of_turn (turn_in input.now) }
{
    match input {
        StackIn::Offer { .. } | StackIn::BadOffer => Some(TurnKind::Offers),
        StackIn::Pdu(pdu) => turn_of_pdu(pdu),
        StackIn::BadRequest { invoke } => Some(TurnKind::Asks { invoke: *invoke }),
        StackIn::Released => Some(TurnKind::Releases),
        StackIn::Aborted => Some(TurnKind::Aborts),
        StackIn::Accepted(_) | StackIn::Refused => None,
    }
}

fn turn_of_pdu(pdu: &MmsPdu) -> Option<TurnKind>
    ensures { result ≡ option_map kind_of_turn (turn_of_pdu pdu.now) }
{
    match pdu {
        MmsPdu::Request { invoke, .. } => Some(TurnKind::Asks { invoke: *invoke }),
        MmsPdu::Conclude => Some(TurnKind::Concludes),
        _ => None,
    }
}
