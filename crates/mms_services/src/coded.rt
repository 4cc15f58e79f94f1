//! Codes under one of several tags, which tells their class or kind.
ghost use Rattle.std.specs.Prelude.{◌≡◌, ◌+◌, ◌^◌, ◌<◌, ◌≤◌, length, IfOk};
ghost use Rattle.ber_values.specs.Faults.{Gives};
ghost use Rattle.ber_values.specs.Grammars.{taken};
ghost use Rattle.mms_services.specs.Coded.{coded_in};

use ber_values::{BerFault, short, surplus, take_part};

/// The tag with the number 0 of those that are particular to their container.
pub(crate) const FIRST_TAG: u8 = 0x80;

/// A code, and the number of the tag that it has.
#[derive(Clone, Copy)]
pub(crate) struct Coded {
    pub number: u8,
    pub code: u8,
}

/// The code at the front of octets, under a tag from `low` to `high`, and what is left after it.
#[tactic(auto, unfolding(crate::specs::Coded::coded_in, crate::specs::Coded::by_first, ber_values::specs::Parts::part_in, ber_values::specs::Parts::contents_as, ber_values::specs::Grammars::branch_in, ber_values::specs::Grammars::refused))]
pub(crate) fn take_coded(
    octets: &[u8],
    at: usize,
    low: u8,
    high: u8,
) -> Result<(Coded, usize, &[u8]), BerFault>
    requires low { 128 ≤ low }
    requires high { high ≤ 143 }
    requires placed { at + length octets.now < 2 ^ 64 }
    ensures exact { Gives (λ x. taken x.0 x.1 x.2.now) result
        ((coded_in low high).reading at octets.now) }
    ensures within { IfOk result
        (λ x. (at ≤ x.1) × (x.1 + length x.2.now ≡ at + length octets.now)) }
{
    let [tag, ..] = octets else {
        return Err(short(at));
    };
    if *tag < low || high < *tag {
        return Err(surplus(at));
    }
    let part = take_part(octets, at, *tag)?;
    let code = part.octet()?;
    let coded = Coded {
        number: *tag - FIRST_TAG,
        code,
    };
    Ok((coded, part.head.next, part.rest))
}
