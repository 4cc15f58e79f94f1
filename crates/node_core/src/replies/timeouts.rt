//! The reports of selections that end.
ghost use Rattle.std.specs.Prelude.{◌≡◌, ◌++◌, [], ◌∷◌, is_some, filter_map, codes, Contains};
ghost use Rattle.std.specs.Prelude.{IfOk, OnOk};
ghost use Rattle.std.specs.List.{cons_option};
ghost use Rattle.mms_data.specs.Datum.{integer};
ghost use Rattle.mms_data.specs.declared.outcome.Outcome.TheVariants.{Good};
ghost use Rattle.bilateral.specs.Rows.{IsDevice};
ghost use Rattle.tase_views.specs.declared.reply.ReportKind.TheVariants.{Variables};
ghost use Rattle.tase_views.specs.OwnTables.{own_device, domain_name};
ghost use Rattle.tase_views.specs.View.{held};
ghost use Rattle.tase_views.specs.Reports as reports;
ghost use Rattle.node_core.specs.Replies.Shown.{InEachView};

use super::peer_view::PeerView;
use super::reports::own_name;
use crate::objects::name_with;
use bilateral::{Control, DeviceRow};
use mms_data::{DataKind, MmsData, Names, Outcome};
use std::alloc::{AllocError, Global};
use tase_views::{Report, ReportKind, Reports, Results};

/// Adds the time-outs of the selections of an association that end where the clock stands at this
/// moment, in milliseconds since 1970, in the table's order.
pub fn add_timeouts(
    shown: &PeerView<'_>,
    alloc: Global,
    ordinal: u64,
    now: u64,
    made: &mut Reports,
) -> Result<(), AllocError>
    ensures { OnOk result (InEachView shown.now (λ tables view. made.new ≡ made.old
        ++ filter_map (reports.timeout_report tables view ordinal now)
        (held tables view).devices)) }
{
    for control in shown.table().table().controls.as_slice() {
        add_timeout(shown, alloc, ordinal, now, control, made)?;
    }
    Ok(())
}

/// Adds the time-out of a device, where a selection of the association ends.
fn add_timeout(
    shown: &PeerView<'_>,
    alloc: Global,
    ordinal: u64,
    now: u64,
    control: &Control,
    made: &mut Reports,
) -> Result<(), AllocError>
    requires { Contains shown.now.table.table.controls control.now }
    ensures { OnOk result (InEachView shown.now (λ tables view. made.new ≡ made.old
        ++ cons_option (reports.timeout_report tables view ordinal now
        (own_device shown.now.table.rows control.now)) [])) }
{
    if !ends_own(shown, ordinal, now, control) {
        return Ok(());
    }
    let report = timeout(shown, alloc, shown.table().device(control))?;
    made.push(report)
}

/// Whether a selection of the association ends where the clock stands at this moment.
fn ends_own(shown: &PeerView<'_>, ordinal: u64, now: u64, control: &Control) -> bool
    requires { Contains shown.now.table.table.controls control.now }
    ensures { InEachView shown.now (λ tables view. result ≡ is_some
        (reports.timeout_report tables view ordinal now
        (own_device shown.now.table.rows control.now))) }
{
    let _lawful = shown.table().table();
    match shown.devices().ends_at(control.device, now) {
        Some(hold) => hold.key == shown.key(ordinal),
        None => false,
    }
}

/// The time-out of a device: the number that answered the select, under the time-out's name.
fn timeout(shown: &PeerView<'_>, alloc: Global, row: &DeviceRow) -> Result<Report, AllocError>
    requires { IsDevice row.now }
    ensures { IfOk result (λ report. InEachView shown.now (λ tables view. report ≡ Variables
        (domain_name (held tables view) (row.now.name ++ codes "_TIMEOUT") ∷ [])
        (Good (integer row.now.checkback) ∷ []))) }
{
    let item = name_with(alloc, &row.name, b"_TIMEOUT")?;
    let mut names = Names::new(alloc);
    names.push(own_name(shown.table(), &item)?)?;
    let mut results = Results::new(alloc);
    let number = MmsData::new(DataKind::Integer(i64::from(row.checkback)));
    results.push(Outcome::Good(number))?;
    Ok(Report::new(ReportKind::Variables { names, results }))
}
