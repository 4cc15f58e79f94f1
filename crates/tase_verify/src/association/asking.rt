//! What a link asks of the node.
ghost use Rattle.std.specs.Prelude.{◌≡◌, ◌++◌, IfOk, OnOk};
ghost use Rattle.std.specs.List.{All};
ghost use Rattle.mms_services.specs.Lawful.{IsLawfulPdu};
ghost use Rattle.tase_conn.specs.Map.Turns.{turn_in, turn_of_pdu};
ghost use Rattle.tase_verify.specs.Association.Asking.{IsLawfulInput, asked_in, asked_by, asked_open};
ghost use Rattle.tase_verify.specs.Association.Asking.{turns_of_inputs, call_by};

use crate::association::turns::{TurnKind, turn_in};
use bilateral::{Centre, peer_of};
use mms_services::MmsPdu;
use stack_assoc::StackIn;
use std::alloc::{AllocError, Global};
use tase_conn::map::{call_of, invalid_call};
use tase_views::{Call, Event, EventKind};

/// The events, but for takes, that are asked by what was handed out, whether a rule was broken
/// behind it, and whether the link has ended.
pub(crate) fn asked_in(
    alloc: Global,
    centre: &Centre,
    inputs: &[StackIn],
    broken: bool,
    ended: bool,
) -> Result<Vec<Event>, AllocError>
    requires lawful { All IsLawfulInput inputs.now }
    ensures { IfOk result (λ asked. asked.items
        ≡ asked_in centre.now (turns_of_inputs inputs.now broken ended)) }
{
    let mut rest = inputs;
    while let [first, more @ ..] = rest {
        if let StackIn::Offer { title, .. } = first {
            return asked_by(alloc, peer_of(centre, title.as_ref()), more, broken, ended);
        }
        if turn_in(first).is_some() {
            return Ok(Vec::new(alloc));
        }
        rest = more;
    }
    Ok(Vec::new(alloc))
}

/// The events that are asked behind the offer of a peer, if it is one's: its open is the first.
fn asked_by(
    alloc: Global,
    peer: Option<u32>,
    inputs: &[StackIn],
    broken: bool,
    ended: bool,
) -> Result<Vec<Event>, AllocError>
    requires lawful { All IsLawfulInput inputs.now }
    ensures { IfOk result (λ asked. asked.items
        ≡ asked_by peer (turns_of_inputs inputs.now broken ended)) }
{
    let mut asked = Vec::new(alloc);
    let Some(peer) = peer else {
        return Ok(asked);
    };
    asked.push(Event::new(EventKind::Open { peer }))?;
    ask_open(alloc, &mut asked, inputs, broken, ended)?;
    Ok(asked)
}

/// Appends the events that are asked behind an open.
fn ask_open(
    alloc: Global,
    asked: &mut Vec<Event>,
    inputs: &[StackIn],
    broken: bool,
    ended: bool,
) -> Result<(), AllocError>
    requires lawful { All IsLawfulInput inputs.now }
    ensures { OnOk result (asked.new.items
        ≡ asked.old.items ++ asked_open (turns_of_inputs inputs.now broken ended)) }
{
    for input in inputs {
        if let Some(call) = call_in(alloc, input)? {
            asked.push(Event::new(EventKind::Request { call }))?;
            continue;
        }
        match turn_in(input) {
            None => {}
            Some(TurnKind::Offers) => return Ok(()),
            Some(_) => {
                asked.push(Event::new(EventKind::Close))?;
                return Ok(());
            }
        }
    }
    if broken || ended {
        asked.push(Event::new(EventKind::Close))?;
    }
    Ok(())
}

/// The call that is asked by what was handed out, where it is a request.
fn call_in(alloc: Global, input: &StackIn) -> Result<Option<Call>, AllocError>
    requires lawful { IsLawfulInput input.now }
    ensures { IfOk result (λ call. call ≡ call_by (turn_in input.now)) }
{
    match input {
        StackIn::Pdu(pdu) => call_of_pdu(alloc, pdu),
        StackIn::BadRequest { .. } => Ok(Some(invalid_call())),
        _ => Ok(None),
    }
}

fn call_of_pdu(alloc: Global, pdu: &MmsPdu) -> Result<Option<Call>, AllocError>
    requires lawful { IsLawfulPdu pdu.now }
    ensures { IfOk result (λ call. call ≡ call_by (turn_of_pdu pdu.now)) }
{
    match pdu {
        MmsPdu::Request { request, .. } => Ok(Some(call_of(alloc, request)?)),
        _ => Ok(None),
    }
}
