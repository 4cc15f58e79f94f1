//! Outcomes of access as octets (ISO 9506-2, `AccessResult`).
ghost use Rattle.std.specs.Prelude.{◌≡◌, ◌+◌, ◌<◌, ◌≤◌, ◌^◌, ◌++◌, length, IfOk, OnOk, OnErr};
ghost use Rattle.std.specs.List.{slice_range};
ghost use Rattle.ber_values.specs.Stops.{Answers};
ghost use Rattle.ber_values.specs.Readers.{IsReadBy, taken_from};
ghost use Rattle.mms_data.specs.OutcomeOctets.{one_outcome, IsLawfulOutcome, outcome_octets};
ghost use Rattle.mms_data.specs.OutcomeOctets.{outcome_len};

use super::Outcome;
use crate::data::{data_len, take_data, write_data};
use ber_values::{BerFault, MOST_LENGTH, Stop, has_tag, settle, take_part, write_octets};
use std::alloc::{AllocError, Global};

/// The outcome that begins at `at` in octets that end at `end`, and the place after it.
pub fn read_outcome(
    alloc: Global,
    bytes: &[u8],
    at: usize,
    end: usize,
) -> Result<Result<(Outcome, usize), BerFault>, AllocError>
    requires start { at ≤ end }
    requires stop { end ≤ length bytes.now }
    ensures exact { IfOk result (λ read. IsReadBy one_outcome
        (taken_from at (slice_range bytes.now at end)) at (slice_range bytes.now at end) read) }
    ensures lawful { IfOk result (λ read. IfOk read (λ x. IsLawfulOutcome x.0)) }
    ensures within { IfOk result (λ read. IfOk read (λ x. (at < x.1) × (x.1 ≤ end))) }
{
    outcome_from(alloc, &bytes[at..end], at)
}

fn outcome_from(
    alloc: Global,
    octets: &[u8],
    at: usize,
) -> Result<Result<(Outcome, usize), BerFault>, AllocError>
    requires { at + length octets.now < 2 ^ 64 }
    ensures exact { IfOk result (λ read. IsReadBy one_outcome (taken_from at octets.now) at
        octets.now read) }
    ensures lawful { IfOk result (λ read. IfOk read (λ x. IsLawfulOutcome x.0)) }
    ensures within { IfOk result (λ read. IfOk read
        (λ x. (at + 2 ≤ x.1) × (x.1 ≤ at + length octets.now))) }
{
    settle(take_outcome(alloc, octets, at))
}

/// The outcome at the front of octets, of which the first has the place `at`, and the place after
/// it.
#[tactic(auto, unfolding(crate::specs::OutcomeOctets::one_outcome, ber_values::specs::Parts::choose_in, ber_values::specs::Parts::part_in, ber_values::specs::Parts::contents_as, ber_values::specs::Grammars::branch_in, ber_values::specs::Grammars::map_in))]
pub fn take_outcome(alloc: Global, octets: &[u8], at: usize) -> Result<(Outcome, usize), Stop>
    requires { at + length octets.now < 2 ^ 64 }
    ensures exact { Answers (taken_from at octets.now) result (one_outcome.reading at octets.now) }
    ensures within { IfOk result (λ x. (at + 2 ≤ x.1) × (x.1 ≤ at + length octets.now)) }
{
    if has_tag(octets, 0x80) {
        let part = take_part(octets, at, 0x80)?;
        return Ok((Outcome::Fail(part.octet()?), part.head.next));
    }
    let (value, next) = take_data(alloc, octets, at)?;
    Ok((Outcome::Good(value), next))
}

/// How many octets [`write_outcome`] appends, or 4,294,967,295 where they would be as many or
/// more.
pub fn outcome_len(outcome: &Outcome) -> usize
    requires { IsLawfulOutcome outcome.now }
    ensures { result ≡ outcome_len outcome.now }
{
    match outcome {
        Outcome::Good(value) => data_len(value),
        Outcome::Fail(_) => 3,
    }
}

/// Appends an outcome, which is shorter than 4,294,967,295 octets. After want of memory `out` is
/// as before.
pub fn write_outcome(out: &mut Vec<u8>, outcome: &Outcome) -> Result<(), AllocError>
    requires lawful { IsLawfulOutcome outcome.now }
    requires bounded { outcome_len outcome.now < MOST_LENGTH }
    ensures ok { OnOk result (out.new.items ≡ out.old.items ++ outcome_octets outcome.now) }
    ensures err { OnErr result (out.new.items ≡ out.old.items) }
{
    match outcome {
        Outcome::Good(value) => write_data(out, value),
        Outcome::Fail(reason) => write_octets(out, 0x80, &[*reason]),
    }
}
