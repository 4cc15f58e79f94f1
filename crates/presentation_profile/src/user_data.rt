//! The data of the presentation's user (ISO 8823-1, User-data).
ghost use Rattle.std.specs.Prelude.{◌≡◌, ◌+◌, ◌<◌, ◌≤◌, ◌^◌, ◌++◌, length, IfOk, OnOk, OnErr};
ghost use Rattle.plain_text.specs.Extends.{Extends};
ghost use Rattle.ber_values.specs.declared.lengths.TheConstants.{MOST_BODY};
ghost use Rattle.ber_values.specs.Writing.{written};
ghost use Rattle.ber_values.specs.Faults.{Gives};
ghost use Rattle.ber_values.specs.Externals.{external_octets, IsSpanWithin};
ghost use Rattle.ber_values.specs.Readers.{taken_from};
ghost use Rattle.presentation_profile.specs.UserData.{user_data};
ghost use Rattle.presentation_profile.specs.Written.{user_octets};

use ber_values::{
    BerFault, External, external_len, part_len, take_end, take_part, write_external, write_head,
};
use std::alloc::AllocError;

/// The tag of user data.
pub(crate) const USER_DATA: u8 = 0x61;

/// The tag of a list of values.
const VALUES: u8 = 0x30;

/// The user data at the front of octets, of which the first has the place `at`, and the place
/// after them. They are of the context with the id that is wanted, if one is.
#[tactic(auto, unfolding(crate::specs::UserData::user_data, ber_values::specs::Parts::part_in, ber_values::specs::Parts::all_in))]
pub(crate) fn take_user_data(
    octets: &[u8],
    at: usize,
    wanted: Option<u32>,
) -> Result<(External, usize), BerFault>
    requires { at + length octets.now < 2 ^ 64 }
    ensures exact { Gives (taken_from at octets.now) result
        ((user_data wanted).reading at octets.now) }
    ensures within { IfOk result (λ x. (at < x.1) × (x.1 ≤ at + length octets.now)) }
    ensures body { IfOk result (λ x. IsSpanWithin at x.1 x.0.body) }
{
    let part = take_part(octets, at, USER_DATA)?;
    let list = take_part(part.contents, part.head.body, VALUES)?;
    let user = list.external(wanted)?;
    take_end(list.rest, list.head.next)?;
    Ok((user, part.head.next))
}

/// How many octets [`put_user_data`] appends.
pub(crate) fn user_len(id: u32, body: &[u8]) -> usize
    requires { length body.now ≤ MOST_BODY }
    ensures value { result ≡ length (user_octets id body.now) }
    ensures few { result ≤ length body.now + 32 }
{
    part_len(list_len(id, body))
}

/// The length of the list of one value.
fn list_len(id: u32, body: &[u8]) -> usize
    requires { length body.now ≤ MOST_BODY }
    ensures value { result ≡ length (written 48 (external_octets id body.now)) }
    ensures few { result ≤ length body.now + 22 }
{
    part_len(external_len(id, body.len()))
}

/// Appends user data.
#[tactic(auto, unfolding(crate::specs::Written::user_octets))]
pub(crate) fn put_user_data(out: &mut Vec<u8>, id: u32, body: &[u8]) -> Result<(), AllocError>
    requires { length body.now ≤ MOST_BODY }
    ensures ok { OnOk result (out.new.items ≡ out.old.items ++ user_octets id body.now) }
    ensures err { OnErr result (Extends out.old.items out.new.items) }
{
    write_head(out, USER_DATA, list_len(id, body))?;
    put_list(out, id, body)
}

/// Appends the list of one value.
fn put_list(out: &mut Vec<u8>, id: u32, body: &[u8]) -> Result<(), AllocError>
    requires { length body.now ≤ MOST_BODY }
    ensures ok { OnOk result
        (out.new.items ≡ out.old.items ++ written 48 (external_octets id body.now)) }
    ensures err { OnErr result (Extends out.old.items out.new.items) }
{
    write_head(out, VALUES, external_len(id, body.len()))?;
    write_external(out, id, body)
}
