//! The reports that are made of a peer's transfer sets.
ghost use Rattle.std.specs.Prelude.{◌≡◌, ℕ, true, ◌<◌, ◌%◌, ◌/◌, ◌==◌, ◌||◌, ◌&&◌, ◌++◌, pos};
ghost use Rattle.std.specs.Prelude.{length};
ghost use Rattle.std.specs.Prelude.{if◌then◌else◌, map, [], ◌∷◌, Some, IfOk, OnOk, IfSome};
ghost use Rattle.std.specs.List.{All, list_any};
ghost use Rattle.std.specs.Option.{option_copied, unwrap_or};
ghost use Rattle.mms_data.specs.Datum.{integer, bits};
ghost use Rattle.mms_data.specs.Lawful.{IsLawful};
ghost use Rattle.mms_data.specs.ObjectName.{IsIdentifier};
ghost use Rattle.mms_data.specs.OutcomeOctets.{IsLawfulOutcome};
ghost use Rattle.data_sets.specs.Books.{members_in};
ghost use Rattle.bilateral.specs.declared.rows.TheConstants.{SLOT_LIMIT as SLOTS};
ghost use Rattle.transfer_sets.specs.declared.noted.Noted.{Noted as Note};
ghost use Rattle.transfer_sets.specs.Banks.{slot_at, is_owned_by};
ghost use Rattle.tase_views.specs.declared.reply.ReportKind.TheVariants.{Set as OfSet};
ghost use Rattle.tase_views.specs.OwnTables.{OwnTable, domain_name};
ghost use Rattle.tase_views.specs.Objects.{object_named};
ghost use Rattle.tase_views.specs.View.{View, moment_in};
ghost use Rattle.tase_views.specs.Slots.{wished_members};
ghost use Rattle.tase_views.specs.Slots as slots;
ghost use Rattle.tase_views.specs.Reports as reports;
ghost use Rattle.tase_views.specs.Reports.{Told, slot_state};
ghost use Rattle.node_core.specs.Objects.Found.{offered, special_object};
ghost use Rattle.node_core.specs.Replies.Shown.{InEachView};
ghost use Rattle.node_core.specs.Feeds.SlotFeeds.{move_of, moment_before, moment_at, conditions_by};

use super::peer_view::{PeerView, slot_name};
use super::timeouts::add_timeouts;
use crate::feeds::{ReportCause, conditions_of, makes_report, only_changes};
use crate::objects::{Found, InForce, Special, find_object, is_report_variable};
use ber_values::{BitString, Visible};
use bilateral::SLOT_LIMIT;
use mms_data::{DataKind, MmsData, Name, Names, Outcome, Scope};
use point_data::to_data;
use std::alloc::{AllocError, Global};
use tase_views::{OBJECT_NON_EXISTENT, Report, ReportKind, Reports, Results};
use transfer_sets::{Looks, NOTED_LIMIT, Noted, OwnSlot, Wish};

/// What a report is made of: its transfer set, its moment in milliseconds since 1970, and its
/// conditions as their sum.
#[derive(Clone, Copy)]
struct Occasion {
    slot: u32,
    now: u64,
    conditions: u8,
}

impl<'a> PeerView<'a> {
    /// The reports that a cause makes for an association of the peer, in order.
    pub fn reports(
        &self,
        alloc: Global,
        ordinal: u64,
        cause: ReportCause,
        looks: &mut Looks,
    ) -> Result<Reports, AllocError>
        ensures { IfOk result (λ made. InEachView self.now (λ tables view.
            moment_in view ≡ moment_before cause
            → made ≡ reports.reports_by tables view ordinal (move_of cause))) }
    {
        match cause {
            ReportCause::Tick { from, to } => tick_reports(self, alloc, ordinal, from, to, looks),
            ReportCause::Ask { slot, now } => asked_reports(self, alloc, ordinal, slot, now, looks),
        }
    }

    /// The reports that a cause makes of a transfer set, which is lent, for its owner.
    pub fn slot_reports(
        &self,
        alloc: Global,
        cause: ReportCause,
        slot: u32,
        own: &OwnSlot,
    ) -> Result<Reports, AllocError>
        requires slot { slot < SLOTS }
        requires own { own.now ≡ slot_at self.now.slots slot }
        ensures { IfOk result (λ made. InEachView self.now (λ tables view. (ordinal : ℕ)
            → is_owned_by ordinal (slot_at self.now.slots slot) ≡ true
            → made ≡ reports.own_reports tables view ordinal (moment_at cause)
            (λ s. conditions_by cause s (slot_state tables view s)) slot)) }
    {
        let mut made = Reports::new(alloc);
        add_reports(self, alloc, cause, slot, own, &mut made)?;
        Ok(made)
    }
}

/// The reports for an association where the clock goes on from a moment to another.
fn tick_reports(
    shown: &PeerView<'_>,
    alloc: Global,
    ordinal: u64,
    from: u64,
    to: u64,
    looks: &mut Looks,
) -> Result<Reports, AllocError>
    ensures { IfOk result (λ made. InEachView shown.now (λ tables view. moment_in view ≡ from
        → made ≡ reports.reports_by tables view ordinal (move_of (ReportCause.Tick from to)))) }
{
    let mut made = Reports::new(alloc);
    add_timeouts(shown, alloc, ordinal, to, &mut made)?;
    for slot in 0..shown.table().table().slots {
        let cause = ReportCause::Tick { from, to };
        add_own(shown, alloc, ordinal, cause, slot, &mut made, looks)?;
    }
    Ok(made)
}

/// The reports for an association where the operator asks for one of a transfer set.
fn asked_reports(
    shown: &PeerView<'_>,
    alloc: Global,
    ordinal: u64,
    slot: u32,
    now: u64,
    looks: &mut Looks,
) -> Result<Reports, AllocError>
    ensures { IfOk result (λ made. InEachView shown.now (λ tables view. moment_in view ≡ now
        → made ≡ reports.reports_by tables view ordinal (move_of (ReportCause.Ask slot now)))) }
{
    let mut made = Reports::new(alloc);
    if u64::from(slot) < SLOT_LIMIT {
        let cause = ReportCause::Ask { slot, now };
        add_own(shown, alloc, ordinal, cause, slot, &mut made, looks)?;
    }
    Ok(made)
}

/// Adds the reports that a cause makes of a transfer set, where this association owns it.
fn add_own(
    shown: &PeerView<'_>,
    alloc: Global,
    ordinal: u64,
    cause: ReportCause,
    slot: u32,
    made: &mut Reports,
    looks: &mut Looks,
) -> Result<(), AllocError>
    requires { slot < SLOTS }
    ensures { OnOk result (InEachView shown.now (λ tables view. made.new ≡ made.old
        ++ reports.own_reports tables view ordinal (moment_at cause)
        (λ s. conditions_by cause s (slot_state tables view s)) slot)) }
{
    let own = shown.slots().look(looks, slot);
    if !owns(own, ordinal) {
        return Ok(());
    }
    add_reports(shown, alloc, cause, slot, own, made)
}

/// Whether an association owns a transfer set.
pub fn owns(own: &OwnSlot, ordinal: u64) -> bool
    ensures { result ≡ is_owned_by ordinal own.now }
{
    own.owner() == Some(ordinal)
}

/// Adds the reports that a cause makes of a transfer set, which is lent.
fn add_reports(
    shown: &PeerView<'_>,
    alloc: Global,
    cause: ReportCause,
    slot: u32,
    own: &OwnSlot,
    made: &mut Reports,
) -> Result<(), AllocError>
    requires slot { slot < SLOTS }
    requires own { own.now ≡ slot_at shown.now.slots slot }
    ensures { OnOk result (InEachView shown.now (λ tables view.
        let table = offered shown.now.table in
        let state = (slot_at shown.now.slots slot).state in
        made.new ≡ made.old ++ reports.slot_reports table view slot (moment_at cause)
        (conditions_by cause slot state) state
        (unwrap_or (wished_members table (members_in shown.now.book.sets) state.wish) []))) }
{
    let conditions = conditions_of(cause, own, slot);
    if !makes_report(own, conditions) {
        return Ok(());
    }
    let occasion = Occasion {
        slot,
        now: moment_of(cause),
        conditions,
    };
    let wish = own.wish();
    let Some(members) = find_members(shown, wish) else {
        return Ok(());
    };
    if !tells_changes(wish, conditions) {
        add_whole(shown, alloc, occasion, &wish.set_name, members, made)
    } else if wish.all_changes {
        add_changes(shown, alloc, occasion, members, own.noted(), made)
    } else {
        add_changed(shown, alloc, occasion, members, own.noted(), made)
    }
}

/// Whether conditions have changes told, and not the whole data set.
fn tells_changes(wish: &Wish, conditions: u8) -> bool
    ensures { result ≡ (wish.now.rbe && slots.only_changes conditions) }
{
    wish.rbe && only_changes(conditions)
}

/// The moment at which a cause makes reports.
fn moment_of(cause: ReportCause) -> u64
    ensures { result ≡ moment_at cause }
{
    match cause {
        ReportCause::Tick { to, .. } => to,
        ReportCause::Ask { now, .. } => now,
    }
}

/// The members of the data set that a wish names, if it is there.
fn find_members<'v>(shown: &'v PeerView<'_>, wish: &Wish) -> Option<&'v Names>
    ensures value { option_copied result
        ≡ wished_members (offered shown.now.table) (members_in shown.now.book.sets) wish.now }
    ensures named { IfSome result (λ members. IsIdentifier wish.now.set_name) }
{
    if wish.set_domain == shown.table().table().domain {
        shown.book().members(&wish.set_name)
    } else {
        None
    }
}

/// Adds a report of the whole data set with this name and these members.
fn add_whole(
    shown: &PeerView<'_>,
    alloc: Global,
    occasion: Occasion,
    set: &Visible,
    members: &Names,
    made: &mut Reports,
) -> Result<(), AllocError>
    requires slot { occasion.slot < SLOTS }
    requires five { occasion.conditions % 8 ≡ 0 }
    requires named { IsIdentifier set.now }
    ensures { OnOk result (InEachView shown.now (λ tables view.
        let table = offered shown.now.table in
        made.new ≡ made.old ++ OfSet (domain_name table set.now)
        (map (λ (t : Told). t.outcome) (reports.told_of table view occasion.slot occasion.now
        occasion.conditions members.now)) ∷ [])) }
{
    let results = results_of(shown, alloc, occasion, members)?;
    let set = own_name(shown.table(), set)?;
    made.push(Report::new(ReportKind::Set { set, results }))
}

/// Adds a report of the report variables and the members that are noted, in the set's order, if
/// there is one.
fn add_changed(
    shown: &PeerView<'_>,
    alloc: Global,
    occasion: Occasion,
    members: &Names,
    noted: &[Noted],
    made: &mut Reports,
) -> Result<(), AllocError>
    requires slot { occasion.slot < SLOTS }
    requires five { occasion.conditions % 8 ≡ 0 }
    ensures { OnOk result (InEachView shown.now (λ tables view.
        let table = offered shown.now.table in
        let told = reports.told_of table view occasion.slot occasion.now occasion.conditions
        (reports.members_where table 0 (λ place object. reports.is_variable object
        || list_any (λ (n : Note). n.member == place) noted.now) members.now) in
        made.new ≡ made.old
        ++ (if length told == 0 then [] else reports.report_of_all told ∷ []))) }
{
    let names = names_told(shown.table(), alloc, members, noted)?;
    if names.len() == 0 {
        return Ok(());
    }
    let results = results_of(shown, alloc, occasion, &names)?;
    made.push(Report::new(ReportKind::Variables { names, results }))
}

/// Adds the reports of all changes, in order.
fn add_changes(
    shown: &PeerView<'_>,
    alloc: Global,
    occasion: Occasion,
    members: &Names,
    noted: &[Noted],
    made: &mut Reports,
) -> Result<(), AllocError>
    requires slot { occasion.slot < SLOTS }
    requires five { occasion.conditions % 8 ≡ 0 }
    ensures { OnOk result (InEachView shown.now (λ tables view.
        let table = offered shown.now.table in
        let variables = reports.told_of table view occasion.slot occasion.now occasion.conditions
        (reports.members_where table 0 (λ place. reports.is_variable) members.now) in
        All (λ n. n.member < length members.now) noted.now → made.new ≡ made.old
        ++ map (λ part. reports.report_of_all (variables
        ++ map (reports.noted_of table view occasion.slot occasion.now occasion.conditions
        members.now) part)) (reports.parts_of NOTED_LIMIT noted.now))) }
{
    let mut rest = noted;
    while !rest.is_empty() {
        let (part, more) = rest.split_at(NOTED_LIMIT.min(rest.len()));
        add_part(shown, alloc, occasion, members, part, made)?;
        rest = more;
    }
    Ok(())
}

/// Adds a report of some changes, behind the report variables, if there is one.
fn add_part(
    shown: &PeerView<'_>,
    alloc: Global,
    occasion: Occasion,
    members: &Names,
    part: &[Noted],
    made: &mut Reports,
) -> Result<(), AllocError>
    requires slot { occasion.slot < SLOTS }
    requires five { occasion.conditions % 8 ≡ 0 }
    ensures { OnOk result (InEachView shown.now (λ tables view.
        let table = offered shown.now.table in
        let variables = reports.told_of table view occasion.slot occasion.now occasion.conditions
        (reports.members_where table 0 (λ place. reports.is_variable) members.now) in
        0 < length part.now → All (λ n. n.member < length members.now) part.now
        → made.new ≡ made.old ++ reports.report_of_all (variables
        ++ map (reports.noted_of table view occasion.slot occasion.now occasion.conditions
        members.now) part.now) ∷ [])) }
{
    let mut names = names_told(shown.table(), alloc, members, &[])?;
    let mut results = results_of(shown, alloc, occasion, &names)?;
    add_notes(
        shown.table(),
        alloc,
        members,
        part,
        &mut names,
        &mut results,
    )?;
    if names.len() == 0 {
        return Ok(());
    }
    made.push(Report::new(ReportKind::Variables { names, results }))
}

/// Adds the names of changed members and what is told of them, in order; of what is no member
/// nothing.
fn add_notes(
    table: &InForce<'_>,
    alloc: Global,
    members: &Names,
    part: &[Noted],
    names: &mut Names,
    results: &mut Results,
) -> Result<(), AllocError>
    ensures names { let told = reports.noted_of (offered table.now) [] 0 0 0 members.now in
        OnOk result (All (λ n. n.member < length members.now) part.now
        → names.new ≡ names.old ++ map (λ n. (told n).name) part.now) }
    ensures results { let told = reports.noted_of (offered table.now) [] 0 0 0 members.now in
        OnOk result (All (λ n. n.member < length members.now) part.now
        → results.new ≡ results.old ++ map (λ n. (told n).outcome) part.now) }
    ensures many { OnOk result (length results.old ≡ length names.old
        → length results.new ≡ length names.new) }
    ensures lawful { OnOk result (All IsLawfulOutcome results.old
        → All IsLawfulOutcome results.new) }
{
    for note in part {
        add_note(table, alloc, members, *note, names, results)?;
    }
    Ok(())
}

/// Adds the name of a changed member and what is told of it, if it is one.
fn add_note(
    table: &InForce<'_>,
    alloc: Global,
    members: &Names,
    note: Noted,
    names: &mut Names,
    results: &mut Results,
) -> Result<(), AllocError>
    ensures names { let told = reports.noted_of (offered table.now) [] 0 0 0 members.now note in
        OnOk result (note.member < length members.now
        → names.new ≡ names.old ++ told.name ∷ []) }
    ensures results { let told = reports.noted_of (offered table.now) [] 0 0 0 members.now note in
        OnOk result (note.member < length members.now
        → results.new ≡ results.old ++ told.outcome ∷ []) }
    ensures many { OnOk result (length results.old ≡ length names.old
        → length results.new ≡ length names.new) }
    ensures lawful { OnOk result (All IsLawfulOutcome results.old
        → All IsLawfulOutcome results.new) }
{
    let Some(name) = members.get(note.member as usize) else {
        return Ok(());
    };
    results.push(noted_told(table, alloc, note, name)?)?;
    names.push(name.clone()?)?;
    Ok(())
}

/// What a report tells of a member as its point stood just after a change.
fn noted_told(
    table: &InForce<'_>,
    alloc: Global,
    note: Noted,
    name: &Name,
) -> Result<Outcome, AllocError>
    ensures value { IfOk result (λ outcome. outcome
        ≡ reports.noted_told note (object_named (offered table.now) name.now)) }
    ensures lawful { IfOk result IsLawfulOutcome }
{
    match find_object(table, name) {
        Some(Found::Point(see)) => Ok(Outcome::Good(to_data(
            alloc,
            &note.value,
            note.cov,
            &see.layout,
        )?)),
        _ => Ok(Outcome::Fail(OBJECT_NON_EXISTENT)),
    }
}

/// A name in the domain of the table.
pub fn own_name(table: &InForce<'_>, item: &Visible) -> Result<Name, AllocError>
    requires { IsIdentifier item.now }
    ensures { IfOk result (λ name. name ≡ domain_name (offered table.now) item.now) }
{
    let domain = table.table().domain.clone()?;
    Ok(Name::new(Scope::Domain(domain), item.clone()?))
}

/// Of the members of a data set the report variables and those that are noted, in order.
fn names_told(
    table: &InForce<'_>,
    alloc: Global,
    members: &Names,
    noted: &[Noted],
) -> Result<Names, AllocError>
    ensures { IfOk result (λ names. names ≡ reports.members_where (offered table.now) 0
        (λ place object. reports.is_variable object
        || list_any (λ (n : Note). n.member == place) noted.now) members.now) }
{
    let members = members.as_slice();
    let mut names = Names::new(alloc);
    for place in 0..members.len() {
        let name = &members[place];
        if is_told(table, name, noted, place) {
            names.push(name.clone()?)?;
        }
    }
    Ok(names)
}

/// Whether the member at a place is a report variable, or is noted.
fn is_told(table: &InForce<'_>, name: &Name, noted: &[Noted], place: usize) -> bool
    ensures { result ≡ (reports.is_variable (object_named (offered table.now) name.now)
        || list_any (λ (n : Note). n.member == place) noted.now) }
{
    is_variable(table, name) || is_noted(noted, place)
}

/// Whether a name is that of a report variable.
fn is_variable(table: &InForce<'_>, name: &Name) -> bool
    ensures { result ≡ reports.is_variable (object_named (offered table.now) name.now) }
{
    match find_object(table, name) {
        Some(Found::Special(special)) => is_report_variable(special),
        _ => false,
    }
}

/// Whether the member at a place is among some notes.
fn is_noted(noted: &[Noted], place: usize) -> bool
    ensures { result ≡ list_any (λ (n : Note). n.member == place) noted.now }
{
    noted.iter().any(|note| note.member as usize == place)
}

/// What a report tells of members of a data set, in order.
fn results_of(
    shown: &PeerView<'_>,
    alloc: Global,
    occasion: Occasion,
    names: &Names,
) -> Result<Results, AllocError>
    requires slot { occasion.slot < SLOTS }
    requires five { occasion.conditions % 8 ≡ 0 }
    ensures value { IfOk result (λ results. InEachView shown.now (λ tables view. results
        ≡ map (λ (t : Told). t.outcome) (reports.told_of (offered shown.now.table) view
        occasion.slot occasion.now occasion.conditions names.now))) }
    ensures many { IfOk result (λ results. length results ≡ length names.now) }
    ensures lawful { IfOk result (All IsLawfulOutcome) }
{
    let mut results = Results::new(alloc);
    for name in names.as_slice() {
        results.push(member_told(shown, alloc, occasion, name)?)?;
    }
    Ok(results)
}

/// What a report tells of a member of a data set.
fn member_told(
    shown: &PeerView<'_>,
    alloc: Global,
    occasion: Occasion,
    name: &Name,
) -> Result<Outcome, AllocError>
    requires slot { occasion.slot < SLOTS }
    requires five { occasion.conditions % 8 ≡ 0 }
    ensures value { IfOk result (λ outcome. InEachView shown.now (λ tables view. outcome
        ≡ reports.member_told (offered shown.now.table) view occasion.slot occasion.now
        occasion.conditions (object_named (offered shown.now.table) name.now))) }
    ensures lawful { IfOk result IsLawfulOutcome }
{
    let table = shown.table();
    match find_object(table, name) {
        Some(Found::Special(special)) => {
            special_told(alloc, &table.table().domain, occasion, special)
        }
        Some(Found::Point(see)) => shown.read_point(alloc, see),
        _ => Ok(Outcome::Fail(OBJECT_NON_EXISTENT)),
    }
}

/// What a report tells of an object of the protocol itself, for a peer with this domain.
fn special_told(
    alloc: Global,
    domain: &Visible,
    occasion: Occasion,
    special: Special,
) -> Result<Outcome, AllocError>
    requires slot { occasion.slot < SLOTS }
    requires five { occasion.conditions % 8 ≡ 0 }
    ensures value { (table : OwnTable) (view : View) → table.domain ≡ domain.now
        → IfOk result (λ outcome. outcome ≡ reports.member_told table view occasion.slot
        occasion.now occasion.conditions (Some (special_object table special))) }
    ensures lawful { IfOk result IsLawfulOutcome }
{
    match special {
        Special::Version | Special::Features | Special::TableId => {
            Ok(Outcome::Fail(OBJECT_NON_EXISTENT))
        }
        Special::SetName => Ok(Outcome::Good(slot_name(alloc, domain, occasion.slot)?)),
        Special::TimeStamp => Ok(Outcome::Good(moment_data(occasion.now))),
        Special::Conditions => Ok(Outcome::Good(conditions_data(alloc, occasion.conditions)?)),
        Special::EventCode => Ok(Outcome::Good(MmsData::new(DataKind::Integer(0)))),
    }
}

/// A moment in whole seconds as data.
fn moment_data(now: u64) -> MmsData
    ensures value { result ≡ integer (pos (now / 1000)) }
    ensures lawful { IsLawful result }
{
    MmsData::new(DataKind::Integer((now / 1000) as i64))
}

/// Conditions as data: five bits.
fn conditions_data(alloc: Global, conditions: u8) -> Result<MmsData, AllocError>
    requires { conditions % 8 ≡ 0 }
    ensures value { IfOk result (λ shown. shown
        ≡ bits (record { count = 5; octets = conditions ∷ [] })) }
    ensures lawful { IfOk result (λ shown. IsLawful shown) }
{
    let octets = Vec::from_slice(alloc, &[conditions])?;
    Ok(MmsData::new(DataKind::Bits(BitString::new(5, octets))))
}
