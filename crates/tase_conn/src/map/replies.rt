//! Replies of the node as PDUs of MMS, and PDUs as replies.
ghost use Rattle.std.specs.Prelude.{◌≡◌, Some, IfOk, option_map};
ghost use Rattle.mms_services.specs.Lawful.{IsLawfulPdu};
ghost use Rattle.mms_services.specs.PduOctets.{IsWritablePdu};
ghost use Rattle.tase_views.specs.declared.reply.ReplyKind.TheVariants as replies;
ghost use Rattle.tase_conn.specs.Map.Replied.{pdu_of_reply, spec_in, reply_in, reply_in_response};
ghost use Rattle.tase_conn.specs.Map.Replied.{results_reply};

use crate::map::copies::{outcomes_of, written_of};
use crate::map::shapes::shape_of;
use mms_data::types::Shape;
use mms_data::{Name, Names, Outcome};
use mms_services::access::{ReadResponse, Spec, TypeResponse, WriteResponse};
use mms_services::names::{DeleteResponse, MembersResponse, NameListResponse};
use mms_services::{ErrorPdu, MmsPdu, RejectPdu, Response};
use std::alloc::{AllocError, Global};
use tase_views::{ObjectNames, ReadSpec, Reply, ReplyKind, Results, WriteResults};

/// The PDU that answers the request with this number by a reply. It may be written.
#[tactic(auto, using(crate::proofs::OfMap::RepliedLaws::writable_pdu))]
pub fn pdu_of(alloc: Global, invoke: u32, reply: &Reply) -> Result<MmsPdu, AllocError>
    ensures exact { IfOk result (λ pdu. pdu ≡ pdu_of_reply invoke reply.now) }
    ensures writable { IfOk result IsWritablePdu }
{
    match reply.kind() {
        ReplyKind::Identified => Ok(identified(invoke)),
        ReplyKind::Results { spec, results } => results_pdu(alloc, invoke, spec, results),
        ReplyKind::Written(results) => written_pdu(alloc, invoke, results),
        ReplyKind::NamesAre { names, more } => names_pdu(invoke, names, *more),
        ReplyKind::TypeIs(shape) => type_pdu(alloc, invoke, shape),
        ReplyKind::Defined => Ok(defined(invoke)),
        ReplyKind::MembersAre(names) => members_pdu(invoke, names),
        ReplyKind::Deleted { matched, deleted } => Ok(deleted_pdu(invoke, *matched, *deleted)),
        ReplyKind::Error { class, code } => Ok(error_pdu(invoke, *class, *code)),
        ReplyKind::Reject { kind, code } => Ok(reject_pdu(invoke, *kind, *code)),
    }
}

fn identified(invoke: u32) -> MmsPdu
    ensures { result ≡ pdu_of_reply invoke replies.Identified }
{
    MmsPdu::Response {
        invoke,
        response: Response::Identify,
    }
}

fn results_pdu(
    alloc: Global,
    invoke: u32,
    spec: &Option<ReadSpec>,
    results: &Results,
) -> Result<MmsPdu, AllocError>
    ensures { IfOk result (λ pdu.
        pdu ≡ pdu_of_reply invoke (replies.Results spec.now results.now)) }
{
    let response = ReadResponse {
        spec: spec_of(spec)?,
        results: outcomes_of(alloc, results.as_slice())?,
    };
    Ok(MmsPdu::Response {
        invoke,
        response: Response::Read(response),
    })
}

fn spec_of(spec: &Option<ReadSpec>) -> Result<Option<Spec>, AllocError>
    ensures { IfOk result (λ named. named ≡ option_map spec_in spec.now) }
{
    match spec {
        Some(ReadSpec::List(names)) => Ok(Some(Spec::List(names.clone()?))),
        Some(ReadSpec::Set(name)) => Ok(Some(Spec::Set(name.clone()?))),
        None => Ok(None),
    }
}

fn written_pdu(alloc: Global, invoke: u32, results: &WriteResults) -> Result<MmsPdu, AllocError>
    ensures { IfOk result (λ pdu. pdu ≡ pdu_of_reply invoke (replies.Written results.now)) }
{
    let response = WriteResponse {
        results: written_of(alloc, results.as_slice())?,
    };
    Ok(MmsPdu::Response {
        invoke,
        response: Response::Write(response),
    })
}

fn names_pdu(invoke: u32, names: &ObjectNames, more: bool) -> Result<MmsPdu, AllocError>
    ensures { IfOk result (λ pdu. pdu ≡ pdu_of_reply invoke (replies.NamesAre names.now more)) }
{
    let response = NameListResponse {
        names: names.clone()?,
        more,
    };
    Ok(MmsPdu::Response {
        invoke,
        response: Response::NameList(response),
    })
}

fn type_pdu(alloc: Global, invoke: u32, shape: &Shape) -> Result<MmsPdu, AllocError>
    ensures { IfOk result (λ pdu. pdu ≡ pdu_of_reply invoke (replies.TypeIs shape.now)) }
{
    let response = TypeResponse {
        shape: shape_of(alloc, shape)?,
    };
    Ok(MmsPdu::Response {
        invoke,
        response: Response::TypeIs(response),
    })
}

fn defined(invoke: u32) -> MmsPdu
    ensures { result ≡ pdu_of_reply invoke replies.Defined }
{
    MmsPdu::Response {
        invoke,
        response: Response::Define,
    }
}

fn members_pdu(invoke: u32, names: &Names) -> Result<MmsPdu, AllocError>
    ensures { IfOk result (λ pdu. pdu ≡ pdu_of_reply invoke (replies.MembersAre names.now)) }
{
    let response = MembersResponse {
        members: names.clone()?,
    };
    Ok(MmsPdu::Response {
        invoke,
        response: Response::MembersOf(response),
    })
}

fn deleted_pdu(invoke: u32, matched: u32, deleted: u32) -> MmsPdu
    ensures { result ≡ pdu_of_reply invoke (replies.Deleted matched deleted) }
{
    MmsPdu::Response {
        invoke,
        response: Response::Delete(DeleteResponse { matched, deleted }),
    }
}

fn error_pdu(invoke: u32, class: u8, code: u8) -> MmsPdu
    ensures { result ≡ pdu_of_reply invoke (replies.Error class code) }
{
    MmsPdu::Error(ErrorPdu {
        invoke,
        class,
        code,
    })
}

fn reject_pdu(invoke: u32, kind: u8, code: u8) -> MmsPdu
    ensures { result ≡ pdu_of_reply invoke (replies.Reject kind code) }
{
    MmsPdu::Reject(RejectPdu {
        invoke: Some(invoke),
        kind,
        code,
    })
}

/// The reply that a PDU is, whatever the number of its request; none where it is no response, error
/// or reject. Lists, names, numbers and data of the PDU are such as `read_pdu` gives.
#[tactic(auto, using(crate::proofs::OfMap::RepliedLaws::lawful_reply))]
pub fn reply_of(alloc: Global, pdu: &MmsPdu) -> Result<Option<Reply>, AllocError>
    requires lawful { IsLawfulPdu pdu.now }
    ensures { IfOk result (λ reply. reply ≡ reply_in pdu.now) }
{
    let Some(kind) = kind_of(alloc, pdu)? else {
        return Ok(None);
    };
    Ok(Some(Reply::new(kind)))
}

fn kind_of(alloc: Global, pdu: &MmsPdu) -> Result<Option<ReplyKind>, AllocError>
    ensures { IfOk result (λ kind. kind ≡ reply_in pdu.now) }
{
    match pdu {
        MmsPdu::Response { response, .. } => kind_of_response(alloc, response),
        MmsPdu::Error(error) => Ok(Some(ReplyKind::Error {
            class: error.class,
            code: error.code,
        })),
        MmsPdu::Reject(reject) => Ok(Some(ReplyKind::Reject {
            kind: reject.kind,
            code: reject.code,
        })),
        MmsPdu::Request { .. }
        | MmsPdu::Report(_)
        | MmsPdu::Initiate(_)
        | MmsPdu::Initiated(_)
        | MmsPdu::InitiateError
        | MmsPdu::Conclude
        | MmsPdu::Concluded => Ok(None),
    }
}

fn kind_of_response(alloc: Global, response: &Response) -> Result<Option<ReplyKind>, AllocError>
    ensures { IfOk result (λ kind. kind ≡ reply_in_response response.now) }
{
    match response {
        Response::NameList(answer) => Ok(Some(names_of(answer)?)),
        Response::Identify => Ok(Some(ReplyKind::Identified)),
        Response::Read(answer) => Ok(Some(results_of(alloc, answer)?)),
        Response::Write(answer) => Ok(Some(written_kind(alloc, answer)?)),
        Response::TypeIs(answer) => Ok(Some(type_of(alloc, answer)?)),
        Response::Define => Ok(Some(ReplyKind::Defined)),
        Response::MembersOf(answer) => Ok(Some(members_of(answer)?)),
        Response::Delete(answer) => Ok(Some(ReplyKind::Deleted {
            matched: answer.matched,
            deleted: answer.deleted,
        })),
    }
}

fn names_of(answer: &NameListResponse) -> Result<ReplyKind, AllocError>
    ensures { IfOk result (λ kind. kind ≡ replies.NamesAre answer.now.names answer.now.more) }
{
    Ok(ReplyKind::NamesAre {
        names: answer.names.clone()?,
        more: answer.more,
    })
}

fn written_kind(alloc: Global, answer: &WriteResponse) -> Result<ReplyKind, AllocError>
    ensures { IfOk result (λ kind. kind ≡ replies.Written answer.now.results) }
{
    let results = written_of(alloc, answer.results.as_slice())?;
    Ok(ReplyKind::Written(results))
}

fn type_of(alloc: Global, answer: &TypeResponse) -> Result<ReplyKind, AllocError>
    ensures { IfOk result (λ kind. kind ≡ replies.TypeIs answer.now.shape) }
{
    Ok(ReplyKind::TypeIs(shape_of(alloc, &answer.shape)?))
}

fn members_of(answer: &MembersResponse) -> Result<ReplyKind, AllocError>
    ensures { IfOk result (λ kind. kind ≡ replies.MembersAre answer.now.members) }
{
    Ok(ReplyKind::MembersAre(answer.members.clone()?))
}

fn results_of(alloc: Global, answer: &ReadResponse) -> Result<ReplyKind, AllocError>
    ensures { IfOk result (λ kind. Some kind ≡ results_reply answer.now.results answer.now.spec) }
{
    let spec = match &answer.spec {
        Some(Spec::Set(name)) => Some(ReadSpec::Set(name.clone()?)),
        Some(Spec::List(names)) => Some(ReadSpec::List(names.clone()?)),
        None => None,
    };
    let results = outcomes_of(alloc, answer.results.as_slice())?;
    Ok(ReplyKind::Results { spec, results })
}
