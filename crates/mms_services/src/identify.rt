//! Asks who answers (ISO 9506-2, `Identify`).
ghost use Rattle.std.specs.Prelude.{◌≡◌, ◌+◌, ◌^◌, ◌<◌, ◌≤◌, ◌++◌, length, IfOk, OnOk, OnErr};
ghost use Rattle.ber_values.specs.Faults.{Gives};
ghost use Rattle.ber_values.specs.Stops.{Answers};
ghost use Rattle.ber_values.specs.Grammars.{taken};
ghost use Rattle.mms_services.specs.Identities.{identify_request, identify_response, some_syntaxes};
ghost use Rattle.mms_services.specs.Identities.{identify_response_octets};

use ber_values::{BerFault, Part, Stop, has_tag, take_end, take_part};
use std::alloc::{AllocError, Global};

/// The tags of the texts in a response.
const VENDOR: u8 = 0x80;

const MODEL: u8 = 0x81;

const REVISION: u8 = 0x82;

/// The tag of the abstract syntaxes in a response.
const SYNTAXES: u8 = 0xA3;

/// The contents of an element ask who answers: there are none.
#[tactic(auto, unfolding(crate::specs::Identities::identify_request))]
pub(crate) fn identify_request_from(part: &Part<'_>) -> Result<(), BerFault>
    requires { part.now.head.body + length part.now.contents.now < 2 ^ 64 }
    ensures { result ≡ identify_request.reading part.now.head part.now.contents.now }
{
    part.fixed(&[])
}

/// The contents of an element say who answers: a vendor, a model and a revision.
#[tactic(auto, unfolding(crate::specs::Identities::identify_response, ber_values::specs::Parts::all_in, ber_values::specs::Parts::part_in, ber_values::specs::Grammars::then_in, ber_values::specs::Grammars::map_in))]
pub(crate) fn identify_response_from(alloc: Global, part: &Part<'_>) -> Result<(), Stop>
    requires { part.now.head.body + length part.now.contents.now < 2 ^ 64 }
    ensures { Answers (λ u. tt) result
        (identify_response.reading part.now.head part.now.contents.now) }
{
    let first = take_part(part.contents, part.head.body, VENDOR)?;
    let _vendor = first.visible(alloc)?;
    let second = take_part(first.rest, first.head.next, MODEL)?;
    let _model = second.visible(alloc)?;
    let third = take_part(second.rest, second.head.next, REVISION)?;
    let _revision = third.visible(alloc)?;
    let (next, rest) = pass_syntaxes(third.rest, third.head.next)?;
    take_end(rest, next)?;
    Ok(())
}

/// What is left after the abstract syntaxes, where they are at the front of octets.
#[tactic(auto, unfolding(crate::specs::Identities::some_syntaxes, ber_values::specs::Parts::maybe_in, ber_values::specs::Parts::part_in, ber_values::specs::Grammars::branch_in, ber_values::specs::Grammars::map_in, ber_values::specs::Grammars::gives, ber_values::specs::Leaves::raw))]
fn pass_syntaxes(octets: &[u8], at: usize) -> Result<(usize, &[u8]), BerFault>
    requires { at + length octets.now < 2 ^ 64 }
    ensures exact { Gives (λ x. taken tt x.0 x.1.now) result (some_syntaxes.reading at octets.now) }
    ensures within { IfOk result
        (λ x. (at ≤ x.0) × (x.0 + length x.1.now ≡ at + length octets.now)) }
{
    if !has_tag(octets, SYNTAXES) {
        return Ok((at, octets));
    }
    let part = take_part(octets, at, SYNTAXES)?;
    Ok((part.head.next, part.rest))
}

/// How many octets [`put_identify_response`] appends.
pub(crate) const IDENTIFY_RESPONSE_LEN: usize = 18;

/// Appends the vendor CENTRE, the model TASE2 and the revision 1 as the contents of an element.
#[tactic(auto, unfolding(crate::specs::Identities::identify_response_octets, ber_values::specs::Writing::length_octets))]
pub(crate) fn put_identify_response(out: &mut Vec<u8>) -> Result<(), AllocError>
    ensures ok { OnOk result (out.new.items ≡ out.old.items ++ identify_response_octets) }
    ensures err { OnErr result (out.new.items ≡ out.old.items) }
{
    out.extend_from_slice(&[
        VENDOR, 6, b'C', b'E', b'N', b'T', b'R', b'E', MODEL, 5, b'T', b'A', b'S', b'E', b'2',
        REVISION, 1, b'1',
    ])
}
