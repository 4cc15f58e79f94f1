//! Why octets are no PDU.
ghost use Rattle.std.specs.Prelude.{◌≡◌, ◌+◌, ◌^◌, ◌<◌, length, IfErr};
ghost use Rattle.ber_values.specs.Faults.{Gives};
ghost use Rattle.ber_values.specs.Readers.{taken_whole};
ghost use Rattle.mms_services.specs.Pdus.{invoke_in, IsInvokeOf, without_invoke};
ghost use Rattle.mms_services.specs.Numbered.{front_in, numbered_request};

use crate::pdu::{INTEGER, MmsPdu, REQUEST};
use ber_values::{BerFault, Part, Why, take_end, take_part};

/// The first rule that the octets break, and where; the number of the request, where it can be
/// read.
#[derive(Clone, Copy, Debug, PartialEq, Eq)]
pub struct MmsFault {
    pub place: usize,
    pub why: Why,
    pub invoke: Option<u32>,
}

/// The same answer; a fault tells the number of the request, where the octets are one with a
/// number.
pub(crate) fn numbered(bytes: &[u8], read: Result<MmsPdu, BerFault>) -> Result<MmsPdu, MmsFault>
    ensures same { without_invoke result ≡ read }
    ensures invoke { IfErr result (λ fault. IsInvokeOf bytes.now fault.invoke) }
{
    match read {
        Ok(pdu) => Ok(pdu),
        Err(fault) => Err(MmsFault {
            place: fault.place,
            why: fault.why,
            invoke: invoke_of(bytes),
        }),
    }
}

/// The number of the request that octets are, whatever is wrong with its service.
fn invoke_of(bytes: &[u8]) -> Option<u32>
    ensures { IsInvokeOf bytes.now result }
{
    match numbered_request(bytes) {
        Ok(invoke) => Some(invoke),
        Err(_) => None,
    }
}

/// The number at the front of the request that octets are.
#[tactic(auto, unfolding(crate::specs::Numbered::numbered_request, ber_values::specs::Parts::whole_in, ber_values::specs::Parts::part_in))]
fn numbered_request(bytes: &[u8]) -> Result<u32, BerFault>
    ensures { Gives (taken_whole 0 bytes.now) result (numbered_request.reading 0 bytes.now) }
{
    let request = take_part(bytes, 0, REQUEST)?;
    let invoke = first_number(&request)?;
    take_end(request.rest, request.head.next)?;
    Ok(invoke)
}

/// The number at the front of the contents of an element.
#[tactic(auto, unfolding(crate::specs::Numbered::front_in, crate::specs::Pdus::invoke_in, ber_values::specs::Parts::part_in))]
fn first_number(part: &Part<'_>) -> Result<u32, BerFault>
    requires { part.now.head.body + length part.now.contents.now < 2 ^ 64 }
    ensures { result ≡ (front_in invoke_in).reading part.now.head part.now.contents.now }
{
    let number = take_part(part.contents, part.head.body, INTEGER)?;
    number.unsigned()
}
