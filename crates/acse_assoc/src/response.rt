//! AARE (ISO 8650-1, `AARE-apdu`): answers an AARQ.
ghost use Rattle.std.specs.Prelude.{◌≡◌, ◌+◌, ◌^◌, ◌<◌, ◌≤◌, ◌++◌, ℕ, List, length, pos};
ghost use Rattle.std.specs.Prelude.{IfOk, OnOk, OnErr};
ghost use Rattle.plain_text.specs.Extends.{Extends};
ghost use Rattle.ber_values.specs.Faults.{Gives};
ghost use Rattle.ber_values.specs.Grammars.{taken};
ghost use Rattle.acse_assoc.specs.declared.numbers.TheConstants.{USER_INFORMATION};
ghost use Rattle.ber_values.specs.declared.lengths.TheConstants.{MOST_BODY};
ghost use Rattle.ber_values.specs.Writing.{written, integer_octets};
ghost use Rattle.acse_assoc.specs.Writing.{mms_context, aare_result_octets, diagnostic};
ghost use Rattle.acse_assoc.specs.Writing.{some_user_octets};
ghost use Rattle.acse_assoc.specs.Writing.{aare_contents, aare_octets};
ghost use Rattle.acse_assoc.specs.Rising.{perhaps_in, least_after};
ghost use Rattle.acse_assoc.specs.Users.{user_information};
ghost use Rattle.acse_assoc.specs.Seen.{IsUserBodyWithin};
ghost use Rattle.acse_assoc.specs.Responses.{context_passed, largest_result, result_number};
ghost use Rattle.acse_assoc.specs.Responses.{result_next, user_of_result, some_user_last, response};

use crate::expected::Expected;
use crate::numbers::{
    AARE, CONTEXT_NAME, CONTEXT_NAME_TAG, INTEGER, LARGEST_NUMBER, LARGEST_RESULT, RESULT,
    RESULT_TAG, USER_INFORMATION, USER_INFORMATION_TAG,
};
use crate::request::one_oid;
use crate::rising::{Left, pass_rising};
use crate::user::{named_user, put_user, user_from, user_len};
use ber_values::{
    BerFault, External, Part, has_tag, natural_len, refused, take_end, take_part, write_head,
    write_natural,
};
use std::alloc::AllocError;

/// Answers a request for an association: the result is 0 where it is accepted.
#[derive(Clone, Copy, Debug, PartialEq, Eq)]
pub struct AssociateResponse {
    pub result: u8,
    /// It is there where the result is 0, and may be there else.
    pub user: Option<External>,
}

/// The response that the contents of an element are.
#[tactic(auto, unfolding(crate::specs::Responses::response, ber_values::specs::Parts::all_in, ber_values::specs::Grammars::then_in, ber_values::specs::Grammars::map_in))]
pub(crate) fn response_from(
    part: &Part<'_>,
    expected: Expected,
) -> Result<AssociateResponse, BerFault>
    requires { part.now.head.body + length part.now.contents.now < 2 ^ 64 }
    ensures exact { result ≡ (response expected).reading part.now.head part.now.contents.now }
    ensures body { IfOk result (λ r. IsUserBodyWithin part.now.head.body
        (part.now.head.body + length part.now.contents.now) r.user) }
{
    let left = pass_context(part.contents, part.head.body)?;
    let (result, at, octets) = take_result(&left, expected)?;
    let (user, at, octets) = take_user(octets, at, result, expected)?;
    take_end(octets, at)?;
    Ok(AssociateResponse { result, user })
}

/// What is left after the name of the application context, if it is there.
#[tactic(auto, unfolding(crate::specs::Responses::context_passed, crate::specs::Rising::perhaps_in, ber_values::specs::Grammars::then_in, ber_values::specs::Grammars::map_in, ber_values::specs::Grammars::branch_in, ber_values::specs::Grammars::gives, ber_values::specs::Parts::maybe_in, ber_values::specs::Parts::part_in))]
fn pass_context(octets: &[u8], at: usize) -> Result<Left<'_>, BerFault>
    requires { at + length octets.now < 2 ^ 64 }
    ensures exact { Gives (λ left. taken left.least left.at left.octets.now) result
        (context_passed.reading at octets.now) }
    ensures within { IfOk result
        (λ left. (at ≤ left.at) × (left.at + length left.octets.now ≡ at + length octets.now)) }
{
    let left = pass_rising(octets, at, CONTEXT_NAME, 0)?;
    if CONTEXT_NAME < left.least {
        return Ok(left);
    }
    if !has_tag(left.octets, CONTEXT_NAME_TAG) {
        return Ok(left);
    }
    let part = take_part(left.octets, left.at, CONTEXT_NAME_TAG)?;
    let _name = one_oid(&part)?;
    Ok(Left {
        least: CONTEXT_NAME + 1,
        at: part.head.next,
        octets: part.rest,
    })
}

impl Expected {
    /// The largest result that is taken: only 0 accepts.
    fn largest_result(&self) -> u32
        ensures value { result ≡ largest_result self.now }
        ensures few { result ≤ 255 }
    {
        if self.accepted { 0 } else { LARGEST_RESULT }
    }
}

/// The result that alone stands in this element.
#[tactic(auto, unfolding(crate::specs::Responses::result_number, ber_values::specs::Parts::all_in, ber_values::specs::Parts::part_in))]
fn result_from(part: &Part<'_>, expected: Expected) -> Result<u8, BerFault>
    requires { part.now.head.body + length part.now.contents.now < 2 ^ 64 }
    ensures { result ≡ (result_number expected).reading part.now.head part.now.contents.now }
{
    let number = take_part(part.contents, part.head.body, INTEGER)?;
    let result = number.unsigned_within(0, expected.largest_result())?;
    take_end(number.rest, number.head.next)?;
    Ok(result as u8)
}

/// The result, and what is left after it.
#[tactic(auto, unfolding(crate::specs::Responses::result_next, crate::specs::Rising::named_in, ber_values::specs::Grammars::then_in, ber_values::specs::Grammars::branch_in, ber_values::specs::Grammars::refused, ber_values::specs::Parts::part_in))]
fn take_result<'a>(from: &Left<'a>, expected: Expected) -> Result<(u8, usize, &'a [u8]), BerFault>
    requires { from.now.at + length from.now.octets.now < 2 ^ 64 }
    ensures exact { Gives (λ x. taken x.0 x.1 x.2.now) result
        ((result_next expected from.now.least).reading from.now.at from.now.octets.now) }
    ensures within { IfOk result (λ x. (from.now.at ≤ x.1)
        × (x.1 + length x.2.now ≡ from.now.at + length from.now.octets.now)) }
{
    let left = pass_rising(from.octets, from.at, RESULT, from.least)?;
    if RESULT < left.least {
        return Err(refused(left.octets, left.at));
    }
    let part = take_part(left.octets, left.at, RESULT_TAG)?;
    let result = result_from(&part, expected)?;
    Ok((result, part.head.next, part.rest))
}

/// External information, if it is there, and what is left.
#[tactic(auto, unfolding(crate::specs::Rising::perhaps_in, ber_values::specs::Grammars::map_in, ber_values::specs::Grammars::branch_in, ber_values::specs::Grammars::gives, ber_values::specs::Parts::maybe_in, ber_values::specs::Parts::part_in))]
fn perhaps_user<'a>(
    left: &Left<'a>,
    id: Option<u32>,
) -> Result<(Option<External>, usize, &'a [u8]), BerFault>
    requires { left.now.at + length left.now.octets.now < 2 ^ 64 }
    ensures exact { Gives (λ x. taken x.0 x.1 x.2.now) result
        ((perhaps_in USER_INFORMATION (user_information id) left.now.least).reading
        left.now.at left.now.octets.now) }
    ensures within { IfOk result (λ x. (left.now.at ≤ x.1)
        × (x.1 + length x.2.now ≡ left.now.at + length left.now.octets.now)) }
    ensures body { IfOk result (λ x. IsUserBodyWithin left.now.at
        (left.now.at + length left.now.octets.now) x.0) }
{
    if USER_INFORMATION < left.least {
        return Ok((None, left.at, left.octets));
    }
    if !has_tag(left.octets, USER_INFORMATION_TAG) {
        return Ok((None, left.at, left.octets));
    }
    let part = take_part(left.octets, left.at, USER_INFORMATION_TAG)?;
    let user = user_from(&part, id)?;
    Ok((Some(user), part.head.next, part.rest))
}

/// The user information that goes with a result, and what is left after it.
#[tactic(auto, unfolding(crate::specs::Responses::user_of_result, ber_values::specs::Grammars::branch_in, ber_values::specs::Grammars::map_in))]
fn user_of_result<'a>(
    left: &Left<'a>,
    code: u8,
    expected: Expected,
) -> Result<(Option<External>, usize, &'a [u8]), BerFault>
    requires { left.now.at + length left.now.octets.now < 2 ^ 64 }
    ensures exact { Gives (λ x. taken x.0 x.1 x.2.now) result
        ((user_of_result expected code left.now.least).reading
        left.now.at left.now.octets.now) }
    ensures within { IfOk result (λ x. (left.now.at ≤ x.1)
        × (x.1 + length x.2.now ≡ left.now.at + length left.now.octets.now)) }
    ensures body { IfOk result (λ x. IsUserBodyWithin left.now.at
        (left.now.at + length left.now.octets.now) x.0) }
{
    if code == 0 {
        let (user, at, octets) = named_user(left, expected.response_id)?;
        return Ok((Some(user), at, octets));
    }
    perhaps_user(left, expected.response_id)
}

/// The user information, and what is left after the elements that follow it.
#[tactic(auto, unfolding(crate::specs::Responses::some_user_last, ber_values::specs::Grammars::then_in, ber_values::specs::Grammars::map_in))]
fn take_user(
    octets: &[u8],
    at: usize,
    code: u8,
    expected: Expected,
) -> Result<(Option<External>, usize, &[u8]), BerFault>
    requires { at + length octets.now < 2 ^ 64 }
    ensures exact { Gives (λ x. taken x.0 x.1 x.2.now) result
        ((some_user_last expected code).reading at octets.now) }
    ensures body { IfOk result (λ x. IsUserBodyWithin at (at + length octets.now) x.0) }
{
    let left = pass_rising(octets, at, USER_INFORMATION, RESULT + 1)?;
    let (user, at, octets) = user_of_result(&left, code, expected)?;
    let least = match user {
        None => left.least,
        Some(_) => USER_INFORMATION + 1,
    };
    let last = pass_rising(octets, at, LARGEST_NUMBER, least)?;
    Ok((user, last.at, last.octets))
}

/// The application context of MMS (ISO 9506-2), alone in its element.
const CONTEXT: [u8; 9] = [0xA1, 7, 6, 5, 0x28, 0xCA, 0x22, 2, 3];

/// Appends the application context of MMS, alone in its element.
#[tactic(auto, unfolding(ber_values::specs::Writing::length_octets))]
fn put_context(out: &mut Vec<u8>) -> Result<(), AllocError>
    ensures ok { OnOk result
        (out.new.items ≡ out.old.items ++ written 161 (written 6 mms_context)) }
    ensures err { OnErr result (out.new.items ≡ out.old.items) }
{
    out.extend_from_slice(&CONTEXT)
}

/// The length of a result as an integer.
fn code_len(code: u8) -> usize
    ensures value { result ≡ length (written 2 (integer_octets (pos code))) }
    ensures few { result ≤ 10 }
{
    2 + natural_len(u64::from(code))
}

/// The length of a written result.
fn result_len(code: u8) -> usize
    ensures value { result ≡ length (aare_result_octets code) }
    ensures few { result ≤ 12 }
{
    2 + code_len(code)
}

fn put_result(out: &mut Vec<u8>, code: u8) -> Result<(), AllocError>
    ensures ok { OnOk result (out.new.items ≡ out.old.items ++ aare_result_octets code) }
    ensures err { OnErr result (Extends out.old.items out.new.items) }
{
    write_head(out, RESULT_TAG, code_len(code))?;
    write_natural(out, INTEGER, u64::from(code))
}

/// Appends the diagnostic of the service's user: none, or no reason given.
fn put_diagnostic(out: &mut Vec<u8>, code: u8) -> Result<(), AllocError>
    ensures ok { OnOk result (out.new.items ≡ out.old.items ++ diagnostic code) }
    ensures err { OnErr result (Extends out.old.items out.new.items) }
{
    let reason = match code {
        0 => 0,
        _ => 1,
    };
    out.extend_from_slice(&[0xA3, 5, 0xA1, 3, 2, 1, reason])
}

fn some_user_len(user: Option<External>, body: usize) -> usize
    requires { body ≤ MOST_BODY }
    ensures value { (octets : List ℕ) → length octets ≡ body
        → result ≡ length (some_user_octets user octets) }
    ensures few { result ≤ body + 28 }
{
    match user {
        None => 0,
        Some(user) => user_len(user.id, body),
    }
}

fn put_some_user(out: &mut Vec<u8>, user: Option<External>, body: &[u8]) -> Result<(), AllocError>
    requires { length body.now ≤ MOST_BODY }
    ensures ok { OnOk result (out.new.items ≡ out.old.items ++ some_user_octets user body.now) }
    ensures err { OnErr result (Extends out.old.items out.new.items) }
{
    match user {
        None => Ok(()),
        Some(user) => put_user(out, user.id, body),
    }
}

/// The length of the contents of a written response, by that of its body.
fn response_len(response: &AssociateResponse, body: usize) -> usize
    requires { body ≤ MOST_BODY }
    ensures value { (octets : List ℕ) → length octets ≡ body
        → result ≡ length (aare_contents response.now octets) }
    ensures few { result ≤ body + 56 }
{
    CONTEXT.len() + result_len(response.result) + 7 + some_user_len(response.user, body)
}

/// Appends a response with this body.
#[tactic(auto, using(crate::proofs::Sizes::extended))]
pub(crate) fn put_response(
    out: &mut Vec<u8>,
    response: &AssociateResponse,
    body: &[u8],
) -> Result<(), AllocError>
    requires { length body.now ≤ MOST_BODY }
    ensures ok { OnOk result
        (out.new.items ≡ out.old.items ++ aare_octets response.now body.now) }
    ensures err { OnErr result (Extends out.old.items out.new.items) }
{
    write_head(out, AARE, response_len(response, body.len()))?;
    put_context(out)?;
    put_result(out, response.result)?;
    put_diagnostic(out, response.result)?;
    put_some_user(out, response.user, body)
}
