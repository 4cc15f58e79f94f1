//! What a node keeps of one peer.
ghost use Rattle.std.specs.Prelude.{[], length, map, ℕ, ◌*◌, ◌++◌};
ghost use Rattle.std.specs.Prelude.{◌+◌, ◌-◌, ◌<◌, ◌^◌, ◌∷◌, ◌≡◌, ◌≤◌};
ghost use Rattle.std.specs.Prelude.{vec_len, vec_capacity, IfOk, OnOk, OnErr, filter_map, true};
ghost use Rattle.std.specs.List.{All};
ghost use Rattle.bilateral.specs.declared.rows.TheConstants.{SLOT_LIMIT as SLOTS};
ghost use Rattle.data_sets.specs.Books.{defined};
ghost use Rattle.transfer_sets.specs.Banks.{freed};
ghost use Rattle.tase_views.specs.OwnTables.{OwnTable};
ghost use Rattle.tase_views.specs.View.{moment_in};
ghost use Rattle.tase_views.specs.Reports.{reports_by};
ghost use Rattle.node_core.specs.Slots.Associations.{new_association, association_at, open_without};
ghost use Rattle.node_core.specs.Slots.Associations.{behind_take, made_for, undrafted};
ghost use Rattle.node_core.specs.Objects.Found.{IsThere};
ghost use Rattle.node_core.specs.Replies.Shown.{IsShowable, shown_by, shown_of, InEachView};
ghost use Rattle.node_core.specs.Slots.SetsKept.{left_by};
ghost use Rattle.node_core.specs.Slots.SlotsKept.{is_kept, handed_all, AreSlots};
ghost use Rattle.node_core.specs.Slots.SlotWrites.{IsAskedThere, all_answers, all_slots};
ghost use Rattle.transfer_sets.specs.DueIndex.{IsDueIndex};
ghost use Rattle.transfer_sets.specs.LookCount.Counted.{looked};
ghost use Rattle.bilateral.specs.Rows.{point_of};
ghost use Rattle.node_core.specs.declared.feeds.cause.ReportCause.{ReportCause as AnyCause};
ghost use Rattle.node_core.specs.Objects.Found.{offered, table_at};
ghost use Rattle.node_core.specs.Feeds.Indexed.{IsWatch};
ghost use Rattle.node_core.specs.Feeds.SlotFeeds.{move_of, moment_at, moment_before, HasPlanRoom};
ghost use Rattle.node_core.specs.Feeds.SlotFeeds.{IsForward};
ghost use Rattle.node_core.specs.Feeds.SlotFeeds.{due_count, watch_count, planned_count};
ghost use Rattle.node_core.specs.Feeds.SlotFeeds.{conditions_by};
ghost use Rattle.node_core.specs.PeerParts.{new_part, settled_by};
ghost use Rattle.node_core.specs.PartFeeds.{IsAlike, IsDrafted, IsReported, IsReady, IsNoted};
ghost use Rattle.node_core.specs.PartFeeds.{AreDraftedMore};
ghost use Rattle.transfer_sets.specs.Banks.{slot_at};
ghost use Rattle.tase_views.specs.View.{held};
ghost use Rattle.tase_views.specs.Reports.{timeout_report, own_reports, slot_state};

use crate::feeds::{Advance, Change, ChangePlan, PeerIndex, ReportCause, report_all, report_due};
use crate::objects::InForce;
use crate::plant::Plant;
use crate::replies::{PeerView, add_timeouts, owns};
use crate::slots::{Asked, Associations, delete_sets, write_all};
use ber_values::Visible;
use bilateral::{Centre, SLOT_LIMIT};
use data_sets::SetBook;
use mms_data::{Name, Names};
use std::alloc::{AllocError, Global};
use tase_views::Reports;
use transfer_sets::{Looks, SlotBank, due_is_one_number, next_moments_last};

/// The part of one peer.
#[derive(Drop)]
pub struct Peer {
    /// The table in force, by its number.
    pub variant: u32,
    /// The table that was chosen last. It comes into force when no association is open.
    pub chosen_last: u32,
    /// How many associations the peer has opened.
    pub opened_in_all: u64,
    /// How many of them are open.
    pub open_now: u64,
    /// Those that are open, with their reports.
    pub associations: Associations,
    /// Its data sets, by the table in force.
    pub book: SetBook,
    /// Its transfer sets, one for each that a table may offer.
    pub slots: SlotBank,
    /// Where in them a change of a point is to be noted.
    pub plan: ChangePlan,
}

impl Peer {
    /// A peer of which nothing was seen, whose first table allows so many data sets.
    pub fn new(alloc: Global, limit: u32) -> Result<Peer, AllocError>
        ensures { IfOk result (λ peer. peer ≡ new_part limit) }
    {
        Ok(Peer {
            variant: 0,
            chosen_last: 0,
            opened_in_all: 0,
            open_now: 0,
            associations: Associations::new(alloc),
            book: SetBook::new(alloc, limit),
            slots: SlotBank::new(alloc, SLOT_LIMIT as u32)?,
            plan: ChangePlan::new(alloc)?,
        })
    }

    /// It opens an association. After want of memory nothing has changed.
    pub fn open(&mut self, alloc: Global) -> Result<(), AllocError>
        requires all { self.old.opened_in_all + 1 < 2 ^ 64 }
        requires now { self.old.open_now + 1 < 2 ^ 64 }
        ensures ok { OnOk result (self.new ≡ record self.old {
          opened_in_all = self.old.opened_in_all + 1;
          open_now = self.old.open_now + 1;
          associations = self.old.associations
              ++ new_association self.old.opened_in_all ∷ [];
        }) }
        ensures err { OnErr result (self.new ≡ self.old) }
    {
        self.associations.open(alloc, self.opened_in_all)?;
        self.opened_in_all += 1;
        self.open_now += 1;
        Ok(())
    }

    /// An association of it is closed; the table chosen last allows so many data sets. It takes no
    /// memory.
    pub fn close(&mut self, ordinal: u64, limit: u32, looks: &mut Looks)
        ensures { self.new ≡ settled_by limit (record self.old {
          open_now = self.old.open_now - 1;
          associations = open_without ordinal self.old.associations;
          slots = map (freed ordinal) self.old.slots;
        }) }
    {
        self.open_now = self.open_now.saturating_sub(1);
        self.associations.close(ordinal);
        self.slots.free(looks, ordinal);
        self.settle(limit);
    }

    /// A table is chosen for it, which allows so many data sets.
    pub fn choose(&mut self, variant: u32, limit: u32)
        ensures { self.new ≡ settled_by limit (record self.old { chosen_last = variant }) }
    {
        self.chosen_last = variant;
        self.settle(limit);
    }

    /// Brings the table that was chosen last into force, where no association is open. It takes no
    /// memory.
    fn settle(&mut self, limit: u32)
        ensures { self.new ≡ settled_by limit self.old }
    {
        if self.open_now == 0 && self.chosen_last != self.variant {
            self.variant = self.chosen_last;
            self.book.restart(limit);
        }
    }

    /// Defines a data set. After want of memory nothing has changed.
    pub fn define(&mut self, name: &Visible, members: &Names) -> Result<(), AllocError>
        requires some { 0 < length members.now }
        ensures ok { OnOk result (self.new ≡ record self.old {
          book = defined self.old.book name.now members.now;
        }) }
        ensures err { OnErr result (self.new ≡ self.old) }
    {
        let name = name.clone()?;
        let members = members.clone()?;
        let _defined = self.book.define(name, members)?;
        Ok(())
    }

    /// Deletes the data sets of a domain that are named, unless one of the first so many transfer
    /// sets wishes them.
    pub fn delete(&mut self, domain: &Visible, count: u32, sets: &[Name], looks: &mut Looks)
        requires { count ≤ length self.old.slots }
        ensures { self.new ≡ record self.old {
          book = left_by (is_kept domain.now count self.old.slots) domain.now sets.now
              self.old.book;
        } }
    {
        delete_sets(domain, &mut self.book, &self.slots, count, sets, looks);
    }

    /// Hands transfer sets out to an association, in order. It takes no memory.
    pub fn hand_out(&mut self, ordinal: u64, handed: &[u32], looks: &mut Looks)
        requires many { length self.old.slots ≡ SLOTS }
        requires there { AreSlots handed.now }
        ensures { self.new ≡ record self.old {
          slots = handed_all ordinal handed.now self.old.slots;
        } }
    {
        hand_out_all(&mut self.slots, ordinal, handed, looks);
    }

    /// Does what writes of an association ask, at this moment, and appends what comes of each. It
    /// takes no memory.
    pub fn write(
        &mut self,
        domain: &Visible,
        ordinal: u64,
        now: u64,
        asked: Vec<Asked>,
        results: &mut Vec<Option<u8>>,
        looks: &mut Looks,
    )
        requires many { length self.old.slots ≡ SLOTS }
        requires there { All (IsAskedThere 0) asked.items }
        requires room { vec_len results.old + length asked.items ≤ vec_capacity results.old }
        ensures answers { (table : OwnTable) → table.domain ≡ domain.now → results.new.items
            ≡ results.old.items
            ++ all_answers table self.old.book ordinal now asked.items self.old.slots }
        ensures slots { (table : OwnTable) → table.domain ≡ domain.now → self.new
            ≡ record self.old {
              slots = all_slots table self.old.book ordinal now asked.items self.old.slots;
            } }
    {
        write_all(
            domain,
            &self.book,
            &mut self.slots,
            ordinal,
            now,
            asked,
            results,
            looks,
        );
    }

    /// Hands the reports out that were made for an association since its last take. It takes no
    /// memory.
    pub fn take(&mut self, alloc: Global, ordinal: u64) -> Reports
        ensures made { result ≡ made_for ordinal self.old.associations }
        ensures left { self.new ≡ record self.old {
          associations = map (behind_take ordinal) self.old.associations;
        } }
    {
        self.associations.take(alloc, ordinal)
    }

    /// Drafts for each association the reports that a cause makes. `number` is that of the peer.
    pub fn draft(
        &mut self,
        alloc: Global,
        centre: &Centre,
        number: u32,
        plant: &Plant,
        cause: ReportCause,
        looks: &mut Looks,
    ) -> Result<(), AllocError>
        requires there { IsThere centre.now number self.old.variant }
        requires shown { IsShowable (shown_of centre.now number self.old plant.now) }
        ensures alike { IsAlike self.old self.new }
        ensures ok { OnOk result (IsDrafted centre.now number plant.now cause self.new) }
    {
        for place in 0..self.associations.len() {
            let reports = self.reports(alloc, centre, number, plant, place, cause, looks)?;
            self.associations.draft(place, reports)?;
        }
        Ok(())
    }

    /// The reports that a cause makes for the association at a place.
    fn reports(
        &self,
        alloc: Global,
        centre: &Centre,
        number: u32,
        plant: &Plant,
        place: usize,
        cause: ReportCause,
        looks: &mut Looks,
    ) -> Result<Reports, AllocError>
        requires there { IsThere centre.now number self.now.variant }
        requires shown { IsShowable (shown_of centre.now number self.now plant.now) }
        requires place { place < length self.now.associations }
        ensures { IfOk result (λ made. InEachView (shown_of centre.now number self.now plant.now)
            (λ tables view. moment_in view ≡ moment_before cause → made
            ≡ reports_by tables view (association_at self.now.associations place).ordinal
            (move_of cause))) }
    {
        let table = InForce::new(centre, number, self.variant);
        let shown = PeerView::new(number, table, &self.book, &self.slots, plant);
        shown.reports(alloc, self.associations.ordinal(place), cause, looks)
    }

    /// Drafts for each association the reports that a tick makes. `number` is that of the peer. It
    /// looks at those transfer sets alone of which something is due.
    pub fn draft_tick(
        &mut self,
        alloc: Global,
        centre: &Centre,
        number: u32,
        plant: &Plant,
        advance: Advance,
        index: &PeerIndex,
        looks: &mut Looks,
    ) -> Result<(), AllocError>
        requires there { IsThere centre.now number self.old.variant }
        requires shown { IsShowable (shown_of centre.now number self.old plant.now) }
        requires forward { IsForward advance.from advance.to }
        requires dues { IsDueIndex self.old.slots advance.from index.now.dues }
        ensures alike { IsAlike self.old self.new }
        ensures ok { OnOk result (IsDrafted centre.now number plant.now
            (AnyCause.Tick advance.from advance.to) self.new) }
        ensures looks { looks.new ≤ looks.old + due_count advance.from advance.to self.old.slots }
    {
        due_is_one_number();
        next_moments_last();
        for place in 0..self.associations.len() {
            let timeouts = self.timeouts(alloc, centre, number, plant, place, advance.to)?;
            self.associations.draft(place, timeouts)?;
        }
        if !index.dues.has_any_come(advance.to) {
            return Ok(());
        }
        for slot in 0..self.slot_count(centre, number) {
            if index.dues.has_come(slot, advance.to) {
                self.draft_slot(alloc, centre, number, plant, slot, advance, looks)?;
            }
        }
        Ok(())
    }

    /// How many transfer sets the table in force offers.
    fn slot_count(&self, centre: &Centre, number: u32) -> u32
        requires { IsThere centre.now number self.now.variant }
        ensures count { result ≡ (table_at centre.now number self.now.variant).table.slots }
        ensures most { result ≤ SLOTS }
    {
        let table = InForce::new(centre, number, self.variant);
        table.table().slots
    }

    /// The time-outs that a tick to this moment makes for the association at a place.
    fn timeouts(
        &self,
        alloc: Global,
        centre: &Centre,
        number: u32,
        plant: &Plant,
        place: usize,
        to: u64,
    ) -> Result<Reports, AllocError>
        requires there { IsThere centre.now number self.now.variant }
        requires shown { IsShowable (shown_of centre.now number self.now plant.now) }
        requires place { place < length self.now.associations }
        ensures { IfOk result (λ made. InEachView (shown_of centre.now number self.now plant.now)
            (λ tables view. made ≡ filter_map (timeout_report tables view
            (association_at self.now.associations place).ordinal to)
            (held tables view).devices)) }
    {
        let table = InForce::new(centre, number, self.variant);
        let shown = PeerView::new(number, table, &self.book, &self.slots, plant);
        let mut made = Reports::new(alloc);
        add_timeouts(
            &shown,
            alloc,
            self.associations.ordinal(place),
            to,
            &mut made,
        )?;
        Ok(made)
    }

    /// Adds to the drafts of the owner of a transfer set the reports that a tick makes of it. It
    /// looks at the transfer set once.
    fn draft_slot(
        &mut self,
        alloc: Global,
        centre: &Centre,
        number: u32,
        plant: &Plant,
        slot: u32,
        advance: Advance,
        looks: &mut Looks,
    ) -> Result<(), AllocError>
        requires there { IsThere centre.now number self.old.variant }
        requires shown { IsShowable (shown_of centre.now number self.old plant.now) }
        requires slot { slot < SLOTS }
        ensures alike { IsAlike self.old self.new }
        ensures same { self.new ≡ record self.old { associations = self.new.associations } }
        ensures ok { OnOk result (AreDraftedMore (shown_of centre.now number self.old plant.now)
            (λ tables view ordinal. own_reports tables view ordinal advance.to
            (λ s. conditions_by (AnyCause.Tick advance.from advance.to) s
            (slot_state tables view s)) slot)
            self.old.associations self.new.associations) }
        ensures looks { looks.new ≡ looked looks.old 1 }
    {
        draft_own(
            &mut self.associations,
            alloc,
            centre,
            number,
            self.variant,
            &self.book,
            &self.slots,
            plant,
            slot,
            advance.cause(),
            looks,
        )
    }

    /// Notes the reports of a tick that were drafted, and that all is told of the transfer sets of
    /// which it makes one; the index is brought to its moment. It takes no memory, and looks at
    /// those transfer sets alone of which something is due.
    pub fn report_tick(&mut self, advance: Advance, index: &mut PeerIndex, looks: &mut Looks)
        requires many { length self.old.slots ≡ SLOTS }
        requires forward { IsForward advance.from advance.to }
        requires dues { IsDueIndex self.old.slots advance.from index.old.dues }
        ensures reported { IsReported (AnyCause.Tick advance.from advance.to) self.old self.new }
        ensures dues { IsDueIndex self.new.slots advance.to index.new.dues }
        ensures watch { index.new.watch ≡ index.old.watch }
        ensures looks { looks.new ≤ looks.old
            + 3 * due_count advance.from advance.to self.old.slots }
    {
        self.associations.keep_drafts();
        report_due(&mut self.slots, advance, &mut index.dues, looks);
    }

    /// Notes the reports that were drafted, and that all is told of the transfer sets of which the
    /// cause makes one. It takes no memory.
    pub fn report(&mut self, cause: ReportCause, looks: &mut Looks)
        requires { length self.old.slots ≡ SLOTS }
        ensures { IsReported cause self.old self.new }
    {
        self.associations.keep_drafts();
        report_all(&mut self.slots, cause, looks);
    }

    /// Plans a change of a point, and makes room for it. `number` is that of the peer. It looks at
    /// those transfer sets alone whose data set names the point.
    pub fn prepare(
        &mut self,
        centre: &Centre,
        number: u32,
        point: u32,
        index: &PeerIndex,
        looks: &mut Looks,
    ) -> Result<(), AllocError>
        requires there { IsThere centre.now number self.old.variant }
        requires many { length self.old.slots ≡ SLOTS }
        requires known { point < length centre.now.points }
        requires points { length index.now.watch ≡ length centre.now.points }
        requires watch { IsWatch (table_at centre.now number self.old.variant) self.old.book
            self.old.slots index.now.watch }
        ensures alike { IsAlike self.old self.new }
        ensures ok { OnOk result (IsReady centre.now number point self.new) }
        ensures looks { looks.new ≤ looks.old
            + 2 * watch_count (offered (table_at centre.now number self.old.variant)) self.old.book
            (point_of centre.now point).name self.old.slots }
    {
        let table = InForce::new(centre, number, self.variant);
        self.plan.plan(&table, &self.book, &self.slots, &index.watch, point, looks)?;
        self.plan.make_room(&mut self.slots, looks)?;
        Ok(())
    }

    /// Notes a change of a point as it was planned, and keeps the index. It takes no memory, and
    /// looks at those transfer sets alone for which something is planned.
    pub fn note(&mut self, change: Change, index: &mut PeerIndex, looks: &mut Looks)
        requires many { length self.old.slots ≡ SLOTS }
        requires room { HasPlanRoom self.old.plan self.old.slots }
        requires dues { IsDueIndex self.old.slots change.now index.old.dues }
        ensures noted { IsNoted change.now change.value change.cov self.old self.new }
        ensures slots { length self.new.slots ≡ length self.old.slots }
        ensures wishes { (s : ℕ) → (slot_at self.new.slots s).state.wish
            ≡ (slot_at self.old.slots s).state.wish }
        ensures dues { IsDueIndex self.new.slots change.now index.new.dues }
        ensures watch { index.new.watch ≡ index.old.watch }
        ensures looks { looks.new ≤ looks.old + 2 * planned_count self.old.plan }
    {
        self.plan
            .note(&mut self.slots, change, &mut index.dues, looks);
    }
}

/// Hands transfer sets out to an association, in order.
fn hand_out_all(slots: &mut SlotBank, ordinal: u64, handed: &[u32], looks: &mut Looks)
    requires many { length slots.old ≡ SLOTS }
    requires there { AreSlots handed.now }
    ensures { slots.new ≡ handed_all ordinal handed.now slots.old }
{
    for slot in handed {
        slots.hand_out(looks, *slot, ordinal);
    }
}

/// Adds to the drafts of the association that owns a transfer set the reports that a cause makes of
/// it, by what its peer is shown. It looks at the transfer set once.
fn draft_own(
    associations: &mut Associations,
    alloc: Global,
    centre: &Centre,
    number: u32,
    variant: u32,
    book: &SetBook,
    slots: &SlotBank,
    plant: &Plant,
    slot: u32,
    cause: ReportCause,
    looks: &mut Looks,
) -> Result<(), AllocError>
    requires there { IsThere centre.now number variant }
    requires shown { IsShowable (shown_by number (table_at centre.now number variant) book.now
        slots.now plant.now) }
    requires slot { slot < SLOTS }
    ensures made { map undrafted associations.new ≡ map undrafted associations.old }
    ensures ok { OnOk result (AreDraftedMore (shown_by number (table_at centre.now number variant)
        book.now slots.now plant.now)
        (λ tables view ordinal. own_reports tables view ordinal (moment_at cause)
        (λ s. conditions_by cause s (slot_state tables view s)) slot)
        associations.old associations.new) }
    ensures looks { looks.new ≡ looked looks.old 1 }
{
    let table = InForce::new(centre, number, variant);
    let shown = PeerView::new(number, table, book, slots, plant);
    let own = slots.look(looks, slot);
    for place in 0..associations.len() {
        if owns(own, associations.ordinal(place)) {
            let made = shown.slot_reports(alloc, cause, slot, own)?;
            associations.draft_more(place, made)?;
        }
    }
    Ok(())
}
