//! Lengths (ISO 8327-1, length indicator).
ghost use Rattle.std.specs.Prelude.{◌≡◌, ◌+◌, ◌^◌, ◌<◌, ◌++◌, length, take, IfOk, OnOk, OnErr};
ghost use Rattle.ber_values.specs.Faults.{Gives};
ghost use Rattle.ber_values.specs.Grammars.{taken};
ghost use Rattle.ber_values.specs.Reading.{IsAfter};
ghost use Rattle.session_profile.specs.Lengths.{session_length_in, long_length_in};
ghost use Rattle.session_profile.specs.Writing.{session_length_octets};

use ber_values::{BerFault, short};
use std::alloc::AllocError;

/// The first octet of a length of three octets.
const LONG: u8 = 255;

/// The length at the front, the place after it and the octets from there on.
#[tactic(auto, unfolding(crate::specs::Lengths::session_length_in))]
pub(crate) fn read_length(octets: &[u8], at: usize) -> Result<(usize, usize, &[u8]), BerFault>
    requires { at + length octets.now < 2 ^ 64 }
    ensures exact { Gives (λ x. taken x.0 x.1 x.2.now) result (session_length_in at octets.now) }
    ensures bounded { IfOk result (λ x. x.0 < 2 ^ 16) }
    ensures places { IfOk result (λ x. IsAfter at octets.now x.1 x.2.now) }
{
    match octets {
        [] => Err(short(at)),
        [first, rest @ ..] if *first == LONG => read_long(rest, at + 1),
        [first, rest @ ..] => Ok((usize::from(*first), at + 1, rest)),
    }
}

/// The two octets after the first one of a long length.
fn read_long(octets: &[u8], at: usize) -> Result<(usize, usize, &[u8]), BerFault>
    requires { at + length octets.now < 2 ^ 64 }
    ensures exact { Gives (λ x. taken x.0 x.1 x.2.now) result (long_length_in at octets.now) }
    ensures bounded { IfOk result (λ x. x.0 < 2 ^ 16) }
    ensures places { IfOk result (λ x. IsAfter at octets.now x.1 x.2.now) }
{
    match octets {
        [high, low, rest @ ..] => {
            let length = usize::from(*high) * 256 + usize::from(*low);
            Ok((length, at + 2, rest))
        }
        _ => Err(short(at + octets.len())),
    }
}

/// Appends the shortest length.
#[tactic(auto, unfolding(crate::specs::Writing::session_length_octets))]
pub(crate) fn put_length(out: &mut Vec<u8>, len: usize) -> Result<(), AllocError>
    requires { len < 2 ^ 16 }
    ensures ok { OnOk result (out.new.items ≡ out.old.items ++ session_length_octets len) }
    ensures err { OnErr result (take (length out.old.items) out.new.items ≡ out.old.items) }
{
    if len < usize::from(LONG) {
        out.push(len as u8)?;
        return Ok(());
    }
    out.push(LONG)?;
    out.push((len / 256) as u8)?;
    out.push((len % 256) as u8)?;
    Ok(())
}
