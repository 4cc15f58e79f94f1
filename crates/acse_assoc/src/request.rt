//! AARQ (ISO 8650-1, `AARQ-apdu`): asks for an association.
ghost use Rattle.std.specs.Prelude.{◌≡◌, ◌≢◌, ◌+◌, ◌%◌, ◌^◌, ◌<◌, ◌≤◌, ◌++◌, ℕ, List, length};
ghost use Rattle.std.specs.Prelude.{option_copied, IfOk, IfSome, OnOk, OnErr};
ghost use Rattle.plain_text.specs.Extends.{Extends};
ghost use Rattle.ber_values.specs.Oid.{IsOid};
ghost use Rattle.ber_values.specs.Faults.{Gives};
ghost use Rattle.ber_values.specs.Stops.{Answers};
ghost use Rattle.ber_values.specs.Grammars.{taken};
ghost use Rattle.ber_values.specs.Externals.{IsSpanWithin};
ghost use Rattle.ber_values.specs.Writing.{written};
ghost use Rattle.ber_values.specs.declared.lengths.TheConstants.{MOST_BODY};
ghost use Rattle.acse_assoc.specs.Rising.{read_of};
ghost use Rattle.acse_assoc.specs.Requests.{one_oid, context_name, calling_title, user_last};
ghost use Rattle.acse_assoc.specs.Requests.{request};
ghost use Rattle.acse_assoc.specs.Writing.{title_octets, aarq_contents, aarq_octets};
ghost use Rattle.acse_assoc.specs.Seen.{titled_seen, request_seen};

use crate::expected::Expected;
use crate::numbers::{
    AARQ, CALLING_TITLE, CALLING_TITLE_TAG, CONTEXT_NAME, CONTEXT_NAME_TAG, LARGEST_NUMBER,
    OBJECT_IDENTIFIER, USER_INFORMATION,
};
use crate::rising::{Left, pass_rising};
use crate::user::{named_user, put_user, user_len};
use ber_values::{
    BerFault, External, Oid, Part, Stop, has_tag, refused, take_end, take_part, write_head,
    write_oid,
};
use std::alloc::{AllocError, Global};

/// Asks for an association in this application context.
#[derive(Debug, Drop, PartialEq, Eq)]
pub struct AssociateRequest {
    pub context: Oid,
    /// The title of the calling application process. One that isn't an object identifier counts
    /// as none.
    pub title: Option<Oid>,
    pub user: External,
}

/// A request whose names lie in the octets that were read.
#[derive(Clone, Copy)]
struct RequestSeen<'a> {
    context: &'a [u8],
    title: Option<&'a [u8]>,
    user: External,
}

/// A title, if there is one, and what is left after it.
#[derive(Clone, Copy)]
struct TitleSeen<'a> {
    title: Option<&'a [u8]>,
    left: Left<'a>,
}

/// The request that the contents of an element are.
pub(crate) fn request_from(
    alloc: Global,
    part: &Part<'_>,
    expected: Expected,
) -> Result<AssociateRequest, Stop>
    requires { part.now.head.body + length part.now.contents.now < 2 ^ 64 }
    ensures exact { Answers (λ r. r) result
        ((request expected).reading part.now.head part.now.contents.now) }
    ensures body { IfOk result (λ r. IsSpanWithin part.now.head.body
        (part.now.head.body + length part.now.contents.now) r.user.body) }
{
    let seen = seen_in(part, expected)?;
    Ok(owned(alloc, &seen)?)
}

/// The same request, with names of its own.
fn owned(alloc: Global, seen: &RequestSeen<'_>) -> Result<AssociateRequest, AllocError>
    requires context { IsOid seen.now.context.now }
    requires title { IfSome (option_copied seen.now.title) IsOid }
    ensures { IfOk result (λ r. r ≡ request_seen seen.now) }
{
    let context = Oid::new(Vec::from_slice(alloc, seen.context)?);
    let title = match seen.title {
        None => None,
        Some(title) => Some(Oid::new(Vec::from_slice(alloc, title)?)),
    };
    Ok(AssociateRequest {
        context,
        title,
        user: seen.user,
    })
}

#[tactic(auto, unfolding(crate::specs::Requests::request, ber_values::specs::Parts::all_in, ber_values::specs::Grammars::then_in, ber_values::specs::Grammars::map_in))]
fn seen_in<'a>(part: &Part<'a>, expected: Expected) -> Result<RequestSeen<'a>, BerFault>
    requires { part.now.head.body + length part.now.contents.now < 2 ^ 64 }
    ensures exact { Gives request_seen result
        ((request expected).reading part.now.head part.now.contents.now) }
    ensures body { IfOk result (λ r. IsSpanWithin part.now.head.body
        (part.now.head.body + length part.now.contents.now) r.user.body) }
    ensures context { IfOk result (λ r. IsOid r.context.now) }
    ensures title { IfOk result (λ r. IfSome (option_copied r.title) IsOid) }
{
    let (context, at, octets) = take_context(part.contents, part.head.body)?;
    let titled = take_title(octets, at)?;
    let (user, at, octets) = take_user(&titled.left, expected)?;
    take_end(octets, at)?;
    Ok(RequestSeen {
        context,
        title: titled.title,
        user,
    })
}

/// The name that alone stands in this element.
#[tactic(auto, unfolding(crate::specs::Requests::one_oid, ber_values::specs::Parts::all_in, ber_values::specs::Parts::part_in))]
pub(crate) fn one_oid<'a>(part: &Part<'a>) -> Result<&'a [u8], BerFault>
    requires { part.now.head.body + length part.now.contents.now < 2 ^ 64 }
    ensures exact { Gives (λ o. o.now) result
        (one_oid.reading part.now.head part.now.contents.now) }
    ensures sized { IfOk result (λ o. IsOid o.now) }
{
    let name = take_part(part.contents, part.head.body, OBJECT_IDENTIFIER)?;
    let octets = name.oid_octets()?;
    take_end(name.rest, name.head.next)?;
    Ok(octets)
}

/// The name of the application context, and what is left after it.
#[tactic(auto, unfolding(crate::specs::Requests::context_name, crate::specs::Rising::named_in, ber_values::specs::Grammars::then_in, ber_values::specs::Grammars::branch_in, ber_values::specs::Grammars::refused, ber_values::specs::Parts::part_in))]
fn take_context(octets: &[u8], at: usize) -> Result<(&[u8], usize, &[u8]), BerFault>
    requires { at + length octets.now < 2 ^ 64 }
    ensures exact { Gives (λ x. taken x.0.now x.1 x.2.now) result
        (context_name.reading at octets.now) }
    ensures sized { IfOk result (λ x. IsOid x.0.now) }
    ensures within { IfOk result
        (λ x. (at ≤ x.1) × (x.1 + length x.2.now ≡ at + length octets.now)) }
{
    let left = pass_rising(octets, at, CONTEXT_NAME, 0)?;
    if CONTEXT_NAME < left.least {
        return Err(refused(left.octets, left.at));
    }
    let part = take_part(left.octets, left.at, CONTEXT_NAME_TAG)?;
    let name = one_oid(&part)?;
    Ok((name, part.head.next, part.rest))
}

/// The title in this element; one in another form counts as none.
fn title_from<'a>(part: &Part<'a>) -> Option<&'a [u8]>
    requires { part.now.head.body + length part.now.contents.now < 2 ^ 64 }
    ensures exact { option_copied result
        ≡ read_of (one_oid.reading part.now.head part.now.contents.now) }
    ensures sized { IfSome (option_copied result) IsOid }
{
    match one_oid(part) {
        Ok(title) => Some(title),
        Err(_) => None,
    }
}

/// The calling title, if there is one, and what is left after it.
#[tactic(auto, unfolding(crate::specs::Requests::calling_title, crate::specs::Rising::perhaps_in, crate::specs::Rising::attempt, ber_values::specs::Grammars::then_in, ber_values::specs::Grammars::map_in, ber_values::specs::Grammars::branch_in, ber_values::specs::Grammars::gives, ber_values::specs::Parts::maybe_in, ber_values::specs::Parts::part_in))]
fn take_title(octets: &[u8], at: usize) -> Result<TitleSeen<'_>, BerFault>
    requires { at + length octets.now < 2 ^ 64 }
    ensures exact { Gives (λ t. taken (titled_seen t) t.left.at t.left.octets.now) result
        (calling_title.reading at octets.now) }
    ensures sized { IfOk result (λ t. IfSome (option_copied t.title) IsOid) }
    ensures within { IfOk result (λ t. (at ≤ t.left.at)
        × (t.left.at + length t.left.octets.now ≡ at + length octets.now)) }
{
    let left = pass_rising(octets, at, CALLING_TITLE, CONTEXT_NAME + 1)?;
    if CALLING_TITLE < left.least {
        return Ok(TitleSeen { title: None, left });
    }
    if !has_tag(left.octets, CALLING_TITLE_TAG) {
        return Ok(TitleSeen { title: None, left });
    }
    let part = take_part(left.octets, left.at, CALLING_TITLE_TAG)?;
    let title = title_from(&part);
    let left = Left {
        least: CALLING_TITLE + 1,
        at: part.head.next,
        octets: part.rest,
    };
    Ok(TitleSeen { title, left })
}

/// The user information, and what is left after the elements that follow it.
#[tactic(auto, unfolding(crate::specs::Requests::user_last, ber_values::specs::Grammars::then_in, ber_values::specs::Grammars::map_in))]
fn take_user<'a>(
    from: &Left<'a>,
    expected: Expected,
) -> Result<(External, usize, &'a [u8]), BerFault>
    requires { from.now.at + length from.now.octets.now < 2 ^ 64 }
    ensures exact { Gives (λ x. taken x.0 x.1 x.2.now) result
        ((user_last expected from.now.least).reading from.now.at from.now.octets.now) }
    ensures body { IfOk result (λ x. IsSpanWithin from.now.at
        (from.now.at + length from.now.octets.now) x.0.body) }
{
    let left = pass_rising(from.octets, from.at, USER_INFORMATION, from.least)?;
    let (user, at, octets) = named_user(&left, expected.request_id)?;
    let last = pass_rising(octets, at, LARGEST_NUMBER, USER_INFORMATION + 1)?;
    Ok((user, last.at, last.octets))
}

/// The length of a name as an element.
fn oid_len(name: &Oid) -> usize
    ensures value { result ≡ length (written 6 name.now) }
    ensures few { result ≤ 34 }
{
    2 + name.octets().len()
}

/// The length of an element in which a name stands alone.
fn named_oid_len(name: &Oid) -> usize
    ensures value { (tag : ℕ) → result ≡ length (written tag (written 6 name.now)) }
    ensures few { result ≤ 36 }
{
    2 + oid_len(name)
}

/// Appends an element in which a name stands alone.
fn put_named_oid(out: &mut Vec<u8>, tag: u8, name: &Oid) -> Result<(), AllocError>
    requires { tag % 32 ≢ 31 }
    ensures ok { OnOk result (out.new.items ≡ out.old.items ++ written tag (written 6 name.now)) }
    ensures err { OnErr result (Extends out.old.items out.new.items) }
{
    write_head(out, tag, oid_len(name))?;
    write_oid(out, OBJECT_IDENTIFIER, name)
}

fn title_len(title: &Option<Oid>) -> usize
    ensures value { result ≡ length (title_octets title.now) }
    ensures few { result ≤ 36 }
{
    match title {
        None => 0,
        Some(title) => named_oid_len(title),
    }
}

fn put_title(out: &mut Vec<u8>, title: &Option<Oid>) -> Result<(), AllocError>
    ensures ok { OnOk result (out.new.items ≡ out.old.items ++ title_octets title.now) }
    ensures err { OnErr result (Extends out.old.items out.new.items) }
{
    match title {
        None => Ok(()),
        Some(title) => put_named_oid(out, CALLING_TITLE_TAG, title),
    }
}

/// The length of the contents of a written request, by that of its body.
fn request_len(request: &AssociateRequest, body: usize) -> usize
    requires { body ≤ MOST_BODY }
    ensures value { (octets : List ℕ) → length octets ≡ body
        → result ≡ length (aarq_contents request.now octets) }
    ensures few { result ≤ body + 100 }
{
    named_oid_len(&request.context) + title_len(&request.title) + user_len(request.user.id, body)
}

/// Appends a request with this body.
#[tactic(auto, using(crate::proofs::Sizes::extended))]
pub(crate) fn put_request(
    out: &mut Vec<u8>,
    request: &AssociateRequest,
    body: &[u8],
) -> Result<(), AllocError>
    requires { length body.now ≤ MOST_BODY }
    ensures ok { OnOk result
        (out.new.items ≡ out.old.items ++ aarq_octets request.now body.now) }
    ensures err { OnErr result (Extends out.old.items out.new.items) }
{
    write_head(out, AARQ, request_len(request, body.len()))?;
    put_named_oid(out, CONTEXT_NAME_TAG, &request.context)?;
    put_title(out, &request.title)?;
    put_user(out, request.user.id, body)
}
