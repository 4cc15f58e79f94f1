//! User information (ISO 8650-1, `Association-information`).
ghost use Rattle.std.specs.Prelude.{◌≡◌, ◌+◌, ◌^◌, ◌<◌, ◌≤◌, ◌++◌, ℕ, List, length, IfOk};
ghost use Rattle.std.specs.Prelude.{OnOk, OnErr};
ghost use Rattle.plain_text.specs.Extends.{Extends};
ghost use Rattle.ber_values.specs.Faults.{Gives};
ghost use Rattle.ber_values.specs.Grammars.{taken};
ghost use Rattle.acse_assoc.specs.declared.numbers.TheConstants.{USER_INFORMATION};
ghost use Rattle.acse_assoc.specs.Rising.{named_in};
ghost use Rattle.acse_assoc.specs.Users.{user_information};
ghost use Rattle.ber_values.specs.declared.lengths.TheConstants.{MOST_BODY};
ghost use Rattle.ber_values.specs.Writing.{written};
ghost use Rattle.ber_values.specs.Externals.{external_octets, IsSpanWithin};
ghost use Rattle.acse_assoc.specs.Writing.{user_information_octets};

use crate::numbers::{EXTERNAL, USER_INFORMATION, USER_INFORMATION_TAG};
use crate::rising::Left;
use ber_values::{
    BerFault, External, Part, external_len, part_len, refused, take_end, take_part, write_external,
    write_head,
};
use std::alloc::AllocError;

/// The user information of the context with this id, where it is known, if its number may still
/// follow; and what is left after it.
#[tactic(auto, unfolding(crate::specs::Rising::named_in, ber_values::specs::Grammars::branch_in, ber_values::specs::Grammars::refused, ber_values::specs::Parts::part_in))]
pub(crate) fn named_user<'a>(
    left: &Left<'a>,
    id: Option<u32>,
) -> Result<(External, usize, &'a [u8]), BerFault>
    requires { left.now.at + length left.now.octets.now < 2 ^ 64 }
    ensures exact { Gives (λ x. taken x.0 x.1 x.2.now) result
        ((named_in USER_INFORMATION (user_information id) left.now.least).reading
        left.now.at left.now.octets.now) }
    ensures within { IfOk result (λ x. (left.now.at ≤ x.1)
        × (x.1 + length x.2.now ≡ left.now.at + length left.now.octets.now)) }
    ensures body { IfOk result (λ x. IsSpanWithin left.now.at
        (left.now.at + length left.now.octets.now) x.0.body) }
{
    if USER_INFORMATION < left.least {
        return Err(refused(left.octets, left.at));
    }
    let part = take_part(left.octets, left.at, USER_INFORMATION_TAG)?;
    let user = user_from(&part, id)?;
    Ok((user, part.head.next, part.rest))
}

/// The user information in this element, of the context with this id, where it is known.
#[tactic(auto, unfolding(crate::specs::Users::user_information, ber_values::specs::Parts::all_in, ber_values::specs::Parts::part_in))]
pub(crate) fn user_from(part: &Part<'_>, id: Option<u32>) -> Result<External, BerFault>
    requires { part.now.head.body + length part.now.contents.now < 2 ^ 64 }
    ensures exact { result
        ≡ (user_information id).reading part.now.head part.now.contents.now }
    ensures body { IfOk result (λ user. IsSpanWithin part.now.head.body
        (part.now.head.body + length part.now.contents.now) user.body) }
{
    let external = take_part(part.contents, part.head.body, EXTERNAL)?;
    let user = external.external(id)?;
    take_end(external.rest, external.head.next)?;
    Ok(user)
}

/// The length of an EXTERNAL as an element, by that of its value.
fn external_part_len(id: u32, body: usize) -> usize
    requires { body ≤ MOST_BODY }
    ensures value { (octets : List ℕ) → length octets ≡ body
        → result ≡ length (written 40 (external_octets id octets)) }
    ensures few { result ≤ body + 22 }
{
    part_len(external_len(id, body))
}

/// The length of written user information.
pub(crate) fn user_len(id: u32, body: usize) -> usize
    requires { body ≤ MOST_BODY }
    ensures value { (octets : List ℕ) → length octets ≡ body
        → result ≡ length (user_information_octets id octets) }
    ensures few { result ≤ body + 28 }
{
    part_len(external_part_len(id, body))
}

fn put_external(out: &mut Vec<u8>, id: u32, body: &[u8]) -> Result<(), AllocError>
    requires { length body.now ≤ MOST_BODY }
    ensures ok { OnOk result
        (out.new.items ≡ out.old.items ++ written 40 (external_octets id body.now)) }
    ensures err { OnErr result (Extends out.old.items out.new.items) }
{
    write_head(out, EXTERNAL, external_len(id, body.len()))?;
    write_external(out, id, body)
}

/// Appends the user information of this context.
pub(crate) fn put_user(out: &mut Vec<u8>, id: u32, body: &[u8]) -> Result<(), AllocError>
    requires { length body.now ≤ MOST_BODY }
    ensures ok { OnOk result
        (out.new.items ≡ out.old.items ++ user_information_octets id body.now) }
    ensures err { OnErr result (Extends out.old.items out.new.items) }
{
    write_head(out, USER_INFORMATION_TAG, external_part_len(id, body.len()))?;
    put_external(out, id, body)
}
