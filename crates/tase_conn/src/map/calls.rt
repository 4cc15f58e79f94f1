//! Requests of MMS as calls of the node, and calls as requests.
ghost use Rattle.std.specs.Prelude.{◌≡◌, false, IfOk};
ghost use Rattle.mms_services.specs.Lawful.{IsLawfulRequest};
ghost use Rattle.mms_services.specs.PduOctets.{IsWritableRequest};
ghost use Rattle.mms_services.specs.declared.request.Request.TheVariants as requests;
ghost use Rattle.tase_views.specs.declared.call.CallKind.TheVariants as calls;
ghost use Rattle.mms_services.specs.Names.Deletes as deletes;
ghost use Rattle.tase_conn.specs.Map.Asked.{call_of_request, request_in, delete_asked, is_odd};
ghost use Rattle.tase_conn.specs.Map.Asked.{unrecognized};
ghost use Rattle.tase_conn.specs.Map.Asked.{invalid};

use crate::map::copies::{data_of, values_of};
use ber_values::Visible;
use mms_data::{Name, Names, Scope};
use mms_services::Request;
use mms_services::access::{ReadRequest, Spec, TypeRequest, WriteRequest};
use mms_services::names::{DefineRequest, DeleteRequest, MembersRequest, NameListRequest};
use std::alloc::{AllocError, Global};
use tase_views::{Call, CallKind, Values};

/// The call that a request is (ISO 9506-2, the services of the profile): named variable lists are
/// data sets. A service that isn't one of them becomes the call that is rejected as unrecognized.
/// Lists, names, numbers and data of the request are such as `read_pdu` gives.
#[tactic(auto, using(crate::proofs::OfMap::AskedLaws::lawful_call))]
pub fn call_of(alloc: Global, request: &Request) -> Result<Call, AllocError>
    requires lawful { IsLawfulRequest request.now }
    ensures { IfOk result (λ call. call ≡ call_of_request request.now) }
{
    let kind = kind_of(alloc, request)?;
    Ok(Call::new(kind))
}

/// The call that a request is in whose service a rule is broken: it is rejected as an invalid PDU.
pub fn invalid_call() -> Call
    ensures { result ≡ invalid }
{
    Call::new(CallKind::Odd { kind: 5, code: 1 })
}

fn kind_of(alloc: Global, request: &Request) -> Result<CallKind, AllocError>
    ensures { IfOk result (λ kind. kind ≡ call_of_request request.now) }
{
    match request {
        Request::NameList(asked) => name_list_of(asked),
        Request::Identify => Ok(CallKind::Identify),
        Request::Read(asked) => read_of(asked),
        Request::Write(asked) => write_of(alloc, asked),
        Request::TypeOf(asked) => type_of(asked),
        Request::Define(asked) => define_of(asked),
        Request::MembersOf(asked) => members_of(asked),
        Request::Delete(asked) => delete_of(asked.scope, &asked.sets),
        Request::Unknown => Ok(unrecognized()),
    }
}

/// The call of a service that the node doesn't have.
fn unrecognized() -> CallKind
    ensures { result ≡ unrecognized }
{
    CallKind::Odd { kind: 1, code: 1 }
}

fn name_list_of(asked: &NameListRequest) -> Result<CallKind, AllocError>
    ensures { IfOk result (λ kind. kind ≡ call_of_request (requests.NameList asked.now)) }
{
    Ok(CallKind::NameList {
        class: asked.class,
        scope: asked.scope.clone()?,
        after: after_of(&asked.after)?,
    })
}

/// The same name after which a list goes on.
fn after_of(after: &Option<Visible>) -> Result<Option<Visible>, AllocError>
    ensures { IfOk result (λ copy. copy ≡ after.now) }
{
    match after {
        Some(name) => Ok(Some(name.clone()?)),
        None => Ok(None),
    }
}

fn read_of(asked: &ReadRequest) -> Result<CallKind, AllocError>
    ensures { IfOk result (λ kind. kind ≡ call_of_request (requests.Read asked.now)) }
{
    match &asked.spec {
        Spec::List(names) => Ok(CallKind::Read {
            names: names.clone()?,
            echo: asked.echo,
        }),
        Spec::Set(set) => Ok(CallKind::ReadSet {
            set: set.clone()?,
            echo: asked.echo,
        }),
    }
}

fn write_of(alloc: Global, asked: &WriteRequest) -> Result<CallKind, AllocError>
    ensures { IfOk result (λ kind. kind ≡ call_of_request (requests.Write asked.now)) }
{
    match &asked.spec {
        Spec::List(names) => Ok(CallKind::Write {
            names: names.clone()?,
            values: values_of(alloc, asked.values.as_slice())?,
        }),
        Spec::Set(set) => Ok(CallKind::WriteSet {
            set: set.clone()?,
            values: values_of(alloc, asked.values.as_slice())?,
        }),
    }
}

fn type_of(asked: &TypeRequest) -> Result<CallKind, AllocError>
    ensures { IfOk result (λ kind. kind ≡ call_of_request (requests.TypeOf asked.now)) }
{
    Ok(CallKind::TypeOf {
        name: asked.name.clone()?,
    })
}

fn define_of(asked: &DefineRequest) -> Result<CallKind, AllocError>
    ensures { IfOk result (λ kind. kind ≡ call_of_request (requests.Define asked.now)) }
{
    Ok(CallKind::Define {
        set: asked.set.clone()?,
        members: asked.members.clone()?,
    })
}

fn members_of(asked: &MembersRequest) -> Result<CallKind, AllocError>
    ensures { IfOk result (λ kind. kind ≡ call_of_request (requests.MembersOf asked.now)) }
{
    Ok(CallKind::MembersOf {
        set: asked.set.clone()?,
    })
}

/// The data sets that are named are deleted, or those of another scope.
fn delete_of(scope: i64, sets: &Names) -> Result<CallKind, AllocError>
    ensures { IfOk result (λ kind. kind ≡ delete_asked scope sets.now) }
{
    if is_specific(scope) {
        return Ok(CallKind::Delete {
            sets: sets.clone()?,
        });
    }
    Ok(CallKind::DeleteScope { scope })
}

/// Whether a scope is the one of the data sets that are named.
fn is_specific(scope: i64) -> bool
    ensures { result ≡ deletes.is_specific scope }
{
    scope == 0
}

/// The request that a call is. The call is no odd one, which no service of MMS asks for.
#[tactic(auto, using(crate::proofs::OfMap::AskedLaws::writable_request))]
pub fn request_of(alloc: Global, call: &Call) -> Result<Request, AllocError>
    requires { is_odd call.now ≡ false }
    ensures exact { IfOk result (λ request. request ≡ request_in call.now) }
    ensures writable { IfOk result IsWritableRequest }
{
    match call.kind() {
        CallKind::Identify => Ok(Request::Identify),
        CallKind::Read { names, echo } => read_request(names, *echo),
        CallKind::ReadSet { set, echo } => read_set_request(set, *echo),
        CallKind::Write { names, values } => write_request(alloc, names, values),
        CallKind::WriteSet { set, values } => write_set_request(alloc, set, values),
        CallKind::NameList {
            class,
            scope,
            after,
        } => name_list_request(*class, scope, after),
        CallKind::TypeOf { name } => type_request(name),
        CallKind::Define { set, members } => define_request(set, members),
        CallKind::MembersOf { set } => members_request(set),
        CallKind::Delete { sets } => delete_request(sets),
        CallKind::DeleteScope { scope } => Ok(scope_request(alloc, *scope)),
        CallKind::Odd { .. } => Ok(Request::Unknown),
    }
}

fn read_request(names: &Names, echo: bool) -> Result<Request, AllocError>
    ensures { IfOk result (λ request. request ≡ request_in (calls.Read names.now echo)) }
{
    let spec = Spec::List(names.clone()?);
    Ok(Request::Read(ReadRequest { echo, spec }))
}

fn write_request(alloc: Global, names: &Names, values: &Values) -> Result<Request, AllocError>
    ensures { IfOk result (λ request. request ≡ request_in (calls.Write names.now values.now)) }
{
    let spec = Spec::List(names.clone()?);
    let values = data_of(alloc, values.as_slice())?;
    Ok(Request::Write(WriteRequest { spec, values }))
}

fn read_set_request(set: &Name, echo: bool) -> Result<Request, AllocError>
    ensures { IfOk result (λ request. request ≡ request_in (calls.ReadSet set.now echo)) }
{
    let spec = Spec::Set(set.clone()?);
    Ok(Request::Read(ReadRequest { echo, spec }))
}

fn write_set_request(alloc: Global, set: &Name, values: &Values) -> Result<Request, AllocError>
    ensures { IfOk result (λ request. request ≡ request_in (calls.WriteSet set.now values.now)) }
{
    let spec = Spec::Set(set.clone()?);
    let values = data_of(alloc, values.as_slice())?;
    Ok(Request::Write(WriteRequest { spec, values }))
}

fn type_request(name: &Name) -> Result<Request, AllocError>
    ensures { IfOk result (λ request. request ≡ request_in (calls.TypeOf name.now)) }
{
    Ok(Request::TypeOf(TypeRequest {
        name: name.clone()?,
    }))
}

fn define_request(set: &Name, members: &Names) -> Result<Request, AllocError>
    ensures { IfOk result (λ request. request ≡ request_in (calls.Define set.now members.now)) }
{
    Ok(Request::Define(DefineRequest {
        set: set.clone()?,
        members: members.clone()?,
    }))
}

fn members_request(set: &Name) -> Result<Request, AllocError>
    ensures { IfOk result (λ request. request ≡ request_in (calls.MembersOf set.now)) }
{
    Ok(Request::MembersOf(MembersRequest { set: set.clone()? }))
}

fn delete_request(sets: &Names) -> Result<Request, AllocError>
    ensures { IfOk result (λ request. request ≡ request_in (calls.Delete sets.now)) }
{
    Ok(Request::Delete(DeleteRequest {
        scope: 0,
        sets: sets.clone()?,
    }))
}

fn scope_request(alloc: Global, scope: i64) -> Request
    ensures { result ≡ request_in (calls.DeleteScope scope) }
{
    Request::Delete(DeleteRequest {
        scope,
        sets: Names::new(alloc),
    })
}

fn name_list_request(
    class: i64,
    scope: &Scope,
    after: &Option<Visible>,
) -> Result<Request, AllocError>
    ensures { IfOk result (λ request. request
        ≡ request_in (calls.NameList class scope.now after.now)) }
{
    Ok(Request::NameList(NameListRequest {
        class,
        scope: scope.clone()?,
        after: after_of(after)?,
    }))
}
