//! Reports values of variables unasked (ISO 9506-2, `InformationReport`).
ghost use Rattle.std.specs.Prelude.{◌≡◌, ◌+◌, ◌<◌, ◌^◌, ◌++◌, length, OnOk, OnErr};
ghost use Rattle.std.specs.List.{All};
ghost use Rattle.plain_text.specs.Extends.{Extends};
ghost use Rattle.ber_values.specs.declared.lengths.TheConstants.{MOST_LENGTH};
ghost use Rattle.ber_values.specs.Lengths.{capped};
ghost use Rattle.mms_data.specs.OutcomeOctets.{IsLawfulOutcome};
ghost use Rattle.ber_values.specs.Stops.{Answers};
ghost use Rattle.mms_services.specs.Access.Reports.{report_results, report, report_pdu};
ghost use Rattle.mms_services.specs.Access.Reports.{report_octets, report_pdu_octets};

use crate::access::read::{Outcomes, outcomes_from, outcomes_len, put_outcomes_part};
use crate::access::spec::{Spec, put_spec, spec_len, take_spec};
use ber_values::{
    MOST_LENGTH, Part, Stop, add_len, octets_from, part_len, take_end, take_part, write_head,
};
use std::alloc::{AllocError, Global};

/// Values of variables that were not asked for.
#[derive(Debug, Drop)]
pub struct ReportPdu {
    pub spec: Spec,
    /// As many as the variables, or any number for a list that is named.
    pub results: Outcomes,
}

/// The report that the contents of an unconfirmed PDU are.
#[tactic(auto, unfolding(crate::specs::Access::Reports::report_pdu, ber_values::specs::Parts::all_in, ber_values::specs::Parts::part_in))]
pub fn report_pdu_from(alloc: Global, part: &Part<'_>) -> Result<ReportPdu, Stop>
    requires { part.now.head.body + length part.now.contents.now < 2 ^ 64 }
    ensures { Answers (λ r. r) result (report_pdu.reading part.now.head part.now.contents.now) }
{
    let service = take_part(part.contents, part.head.body, 0xA0)?;
    let report = report_from(alloc, &service)?;
    take_end(service.rest, service.head.next)?;
    Ok(report)
}

/// The report that the contents of an element are.
#[tactic(auto, using(ber_values::proofs::Passed::drop_on), unfolding(crate::specs::Access::Reports::report, ber_values::specs::Parts::all_in, ber_values::specs::Parts::part_in, ber_values::specs::Grammars::then_in, ber_values::specs::Grammars::map_in))]
fn report_from(alloc: Global, part: &Part<'_>) -> Result<ReportPdu, Stop>
    requires { part.now.head.body + length part.now.contents.now < 2 ^ 64 }
    ensures { Answers (λ r. r) result (report.reading part.now.head part.now.contents.now) }
{
    let (spec, at) = take_spec(alloc, part.contents, part.head.body)?;
    let listed = take_part(octets_from(part.contents, part.head.body, at), at, 0xA0)?;
    let results = results_from(alloc, &listed, &spec)?;
    take_end(listed.rest, listed.head.next)?;
    Ok(ReportPdu { spec, results })
}

/// The outcomes for these variables that the contents of an element are.
#[tactic(auto, unfolding(crate::specs::Access::Reports::report_results, ber_values::specs::Lists::list_in, ber_values::specs::Lists::count_in))]
fn results_from(alloc: Global, part: &Part<'_>, spec: &Spec) -> Result<Outcomes, Stop>
    requires { part.now.head.body + length part.now.contents.now < 2 ^ 64 }
    ensures { Answers (λ os. os) result
        ((report_results spec.now).reading part.now.head part.now.contents.now) }
{
    match spec {
        Spec::List(names) => outcomes_from(alloc, part, names.len(), names.len()),
        Spec::Set(_) => outcomes_from(alloc, part, 0, part.contents.len()),
    }
}

/// How many octets [`put_report_pdu`] appends, capped.
pub fn report_pdu_len(report: &ReportPdu) -> usize
    requires { All IsLawfulOutcome report.now.results }
    ensures { result ≡ capped (length (report_pdu_octets report.now)) }
{
    part_len(report_len(report))
}

fn report_len(report: &ReportPdu) -> usize
    requires { All IsLawfulOutcome report.now.results }
    ensures { result ≡ capped (length (report_octets report.now)) }
{
    let results = outcomes_len(report.results.as_slice());
    add_len(spec_len(&report.spec), part_len(results))
}

/// Appends the contents of an unconfirmed PDU.
#[tactic(auto, using(ber_values::proofs::Pieces::extended))]
pub fn put_report_pdu(out: &mut Vec<u8>, report: &ReportPdu) -> Result<(), AllocError>
    requires lawful { All IsLawfulOutcome report.now.results }
    requires bounded { length (report_pdu_octets report.now) < MOST_LENGTH }
    ensures ok { OnOk result (out.new.items ≡ out.old.items ++ report_pdu_octets report.now) }
    ensures err { OnErr result (Extends out.old.items out.new.items) }
{
    write_head(out, 0xA0, report_len(report))?;
    put_report(out, report)?;
    Ok(())
}

#[tactic(auto, using(ber_values::proofs::Pieces::extended))]
fn put_report(out: &mut Vec<u8>, report: &ReportPdu) -> Result<(), AllocError>
    requires lawful { All IsLawfulOutcome report.now.results }
    requires bounded { length (report_octets report.now) < MOST_LENGTH }
    ensures ok { OnOk result (out.new.items ≡ out.old.items ++ report_octets report.now) }
    ensures err { OnErr result (Extends out.old.items out.new.items) }
{
    put_spec(out, &report.spec)?;
    put_outcomes_part(out, 0xA0, report.results.as_slice())?;
    Ok(())
}
