//! Elements that a reader passes over once.
ghost use Rattle.std.specs.Prelude.{◌≡◌, ◌≢◌, ◌+◌, ◌-◌, ◌%◌, ◌^◌, ◌<◌, ◌≤◌, length, drop, IfOk};
ghost use Rattle.ber_values.specs.Faults.{Gives};
ghost use Rattle.ber_values.specs.Grammars.{taken};
ghost use Rattle.mms_data.specs.Types.ShapeOctets.{passed_once};

use ber_values::{BerFault, has_tag, take_part};

/// The place after the element of this tag at the front of octets, of which the first has the place
/// `at`; that place where none stands there. Its contents may be any.
#[tactic(auto, unfolding(crate::specs::Types::ShapeOctets::passed_once, ber_values::specs::Parts::maybe_in, ber_values::specs::Parts::part_in, ber_values::specs::Grammars::branch_in, ber_values::specs::Grammars::map_in, ber_values::specs::Grammars::gives, ber_values::specs::Leaves::raw))]
pub fn pass_once(octets: &[u8], at: usize, tag: u8) -> Result<usize, BerFault>
    requires single { tag % 32 ≢ 31 }
    requires placed { at + length octets.now < 2 ^ 64 }
    ensures exact { Gives (λ next. taken tt next (drop (next - at) octets.now)) result
        ((passed_once tag).reading at octets.now) }
    ensures within { IfOk result (λ next. (at ≤ next) × (next ≤ at + length octets.now)) }
{
    if !has_tag(octets, tag) {
        return Ok(at);
    }
    let part = take_part(octets, at, tag)?;
    Ok(part.head.next)
}
