//! Reports of the node as PDUs of MMS, and PDUs as reports.
ghost use Rattle.std.specs.Prelude.{◌≡◌, IfOk};
ghost use Rattle.mms_services.specs.Lawful.{IsLawfulPdu};
ghost use Rattle.mms_services.specs.PduOctets.{IsWritablePdu};
ghost use Rattle.tase_views.specs.declared.reply.ReportKind.TheVariants as kinds;
ghost use Rattle.tase_conn.specs.Map.Replied.{pdu_of_report, report_in, report_with};

use crate::map::copies::outcomes_of;
use mms_data::{Name, Names};
use mms_services::MmsPdu;
use mms_services::access::{ReportPdu, Spec};
use std::alloc::{AllocError, Global};
use tase_views::{Report, ReportKind, Results};

/// The PDU that a report is. It may be written.
#[tactic(auto, using(crate::proofs::OfMap::ReportedLaws::writable_report))]
pub fn report_pdu(alloc: Global, report: &Report) -> Result<MmsPdu, AllocError>
    ensures exact { IfOk result (λ pdu. pdu ≡ pdu_of_report report.now) }
    ensures writable { IfOk result IsWritablePdu }
{
    match report.kind() {
        ReportKind::Set { set, results } => set_pdu(alloc, set, results),
        ReportKind::Variables { names, results } => variables_pdu(alloc, names, results),
    }
}

fn set_pdu(alloc: Global, set: &Name, results: &Results) -> Result<MmsPdu, AllocError>
    ensures { IfOk result (λ pdu. pdu ≡ pdu_of_report (kinds.Set set.now results.now)) }
{
    let spec = Spec::Set(set.clone()?);
    let results = outcomes_of(alloc, results.as_slice())?;
    Ok(MmsPdu::Report(ReportPdu { spec, results }))
}

fn variables_pdu(alloc: Global, names: &Names, results: &Results) -> Result<MmsPdu, AllocError>
    ensures { IfOk result (λ pdu. pdu ≡ pdu_of_report (kinds.Variables names.now results.now)) }
{
    let spec = Spec::List(names.clone()?);
    let results = outcomes_of(alloc, results.as_slice())?;
    Ok(MmsPdu::Report(ReportPdu { spec, results }))
}

/// The report that a PDU is, if it is one. Lists, names and data of the PDU are such as `read_pdu`
/// gives.
#[tactic(auto, using(crate::proofs::OfMap::ReportedLaws::lawful_report))]
pub fn report_of(alloc: Global, pdu: &MmsPdu) -> Result<Option<Report>, AllocError>
    requires lawful { IsLawfulPdu pdu.now }
    ensures { IfOk result (λ report. report ≡ report_in pdu.now) }
{
    let Some(kind) = kind_of(alloc, pdu)? else {
        return Ok(None);
    };
    Ok(Some(Report::new(kind)))
}

fn kind_of(alloc: Global, pdu: &MmsPdu) -> Result<Option<ReportKind>, AllocError>
    ensures { IfOk result (λ kind. kind ≡ report_in pdu.now) }
{
    match pdu {
        MmsPdu::Report(report) => Ok(Some(kind_with(alloc, report)?)),
        MmsPdu::Request { .. }
        | MmsPdu::Response { .. }
        | MmsPdu::Error(_)
        | MmsPdu::Reject(_)
        | MmsPdu::Initiate(_)
        | MmsPdu::Initiated(_)
        | MmsPdu::InitiateError
        | MmsPdu::Conclude
        | MmsPdu::Concluded => Ok(None),
    }
}

fn kind_with(alloc: Global, report: &ReportPdu) -> Result<ReportKind, AllocError>
    ensures { IfOk result (λ kind. kind ≡ report_with report.now.results report.now.spec) }
{
    let results = outcomes_of(alloc, report.results.as_slice())?;
    match &report.spec {
        Spec::Set(set) => Ok(ReportKind::Set {
            set: set.clone()?,
            results,
        }),
        Spec::List(names) => Ok(ReportKind::Variables {
            names: names.clone()?,
            results,
        }),
    }
}
