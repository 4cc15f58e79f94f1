//! What a change of a point notes in the transfer sets of a peer, planned before anything changes.
ghost use Rattle.std.specs.Prelude.{◌≡◌, ◌<◌, ◌≤◌, ◌+◌, ◌*◌, ℕ, List, [], length, IfOk, OnOk};
ghost use Rattle.std.specs.Prelude.{◌++◌, IfSome, if◌then◌else◌};
ghost use Rattle.std.specs.Option.{option_copied};
ghost use Rattle.bilateral.specs.declared.rows.TheConstants.{SLOT_LIMIT as SLOTS};
ghost use Rattle.bilateral.specs.Rows.{point_of};
ghost use Rattle.data_sets.specs.Books.{Book, members_in};
ghost use Rattle.data_sets.specs.declared.book.TheConstants.{MOST_MEMBERS};
ghost use Rattle.transfer_sets.specs.Banks.{HasMoreRoom, slot_at};
ghost use Rattle.tase_views.specs.OwnTables.{OwnTable};
ghost use Rattle.tase_views.specs.Objects.{object_named};
ghost use Rattle.tase_views.specs.Slots.{is_point, places_told, wished_members};
ghost use Rattle.node_core.specs.Objects.Found.{offered};
ghost use Rattle.transfer_sets.specs.DueIndex.{IsDueIndex};
ghost use Rattle.node_core.specs.Feeds.SlotFeeds.{no_plan, IsPlanned, HasPlanRoom, AreChanged};
ghost use Rattle.node_core.specs.Feeds.SlotFeeds.{places_by};
ghost use Rattle.node_core.specs.Feeds.SlotFeeds.{watch_count, planned_count};
ghost use Rattle.node_core.specs.Feeds.Indexed.{IsWatch};

use crate::objects::{Found, InForce, find_object};
use bilateral::SLOT_LIMIT;
use data_sets::{Members, SetBook, books_are_lawful};
use mms_data::Name;
use point_db::Watch;
use std::alloc::{AllocError, Global};
use std::marker::Model;
use tase_points::PointValue;
use transfer_sets::{DueIndex, Looks, SlotBank, Wish, due_indexes_last, slots_follow_their_moves};

/// A change of a point: its moment, in milliseconds since 1970, and the value and the shown count
/// of changes just after it.
#[derive(Clone, Copy)]
pub struct Change {
    pub now: u64,
    pub value: PointValue,
    pub cov: u16,
}

/// For each transfer set of a peer the places of the members of its data set that name a point.
#[derive(Drop)]
pub struct ChangePlan {
    places: Vec<Vec<u32>>,
}

impl Model for ChangePlan {
    ghost use Rattle.std.specs.Prelude.{◌≡◌, ℕ, List, map, length};
    ghost use Rattle.bilateral.specs.declared.rows.TheConstants.{SLOT_LIMIT};

    ghost Value = { List (List ℕ) };

    ghost view = { λ p. map (λ places. places.items) p.places.items };

    ghost invariant = { λ p. length p.places.items ≡ SLOT_LIMIT };
}

impl ChangePlan {
    /// Nothing is planned.
    pub fn new(alloc: Global) -> Result<ChangePlan, AllocError>
        ensures { IfOk result (λ plan. plan ≡ no_plan) }
    {
        let mut places = Vec::new(alloc);
        for slot in 0..SLOT_LIMIT {
            places.push(Vec::new(alloc))?;
        }
        Ok(ChangePlan { places })
    }

    /// Plans a change of a point, by the table in force, the data sets and the transfer sets of a
    /// peer. It looks at those alone that the watch has at the point.
    pub fn plan(
        &mut self,
        table: &InForce<'_>,
        book: &SetBook,
        bank: &SlotBank,
        watch: &Watch,
        point: u32,
        looks: &mut Looks,
    ) -> Result<(), AllocError>
        requires many { length bank.now ≡ SLOTS }
        requires known { point < length table.now.rows.points }
        requires points { length watch.now ≡ length table.now.rows.points }
        requires watch { IsWatch table.now book.now bank.now watch.now }
        ensures ok { OnOk result (IsPlanned (offered table.now) book.now
            (point_of table.now.rows point).name bank.now self.new) }
        ensures looks { looks.new ≤ looks.old + watch_count (offered table.now) book.now
            (point_of table.now.rows point).name bank.now }
    {
        for slot in 0..SLOT_LIMIT as u32 {
            let places = &mut self.places[slot as usize];
            if watch.is_watching(point, slot) {
                plan_slot(places, table, book, bank.look(looks, slot).wish(), point)?;
            } else {
                places.clear();
            }
        }
        Ok(())
    }

    /// Makes room in transfer sets for what is planned. It looks at those alone for which
    /// something is.
    pub fn make_room(&self, bank: &mut SlotBank, looks: &mut Looks) -> Result<(), AllocError>
        requires { length bank.old ≡ SLOTS }
        ensures more { HasMoreRoom bank.old bank.new }
        ensures ok { OnOk result (HasPlanRoom self.now bank.new) }
        ensures looks { looks.new ≤ looks.old + planned_count self.now }
    {
        for slot in 0..SLOT_LIMIT as u32 {
            let places = self.places[slot as usize].as_slice();
            if !places.is_empty() {
                bank.room(looks, slot, places.len())?;
            }
        }
        Ok(())
    }

    /// A point has changed as this says: it is noted as planned, and the index is kept. It takes
    /// no memory, and looks at those transfer sets alone for which something is planned, twice.
    pub fn note(&self, bank: &mut SlotBank, change: Change, dues: &mut DueIndex, looks: &mut Looks)
        requires many { length bank.old ≡ SLOTS }
        requires room { HasPlanRoom self.now bank.old }
        requires dues { IsDueIndex bank.old change.now dues.old }
        ensures changed { (table : OwnTable) (book : Book) (name : List ℕ)
            → IsPlanned table book name bank.old self.now → AreChanged table book
            (record {
              point = name;
              moment = change.now;
              value = change.value;
              count = change.cov;
            }) bank.old bank.new }
        ensures slots { length bank.new ≡ length bank.old }
        ensures wishes { (s : ℕ) → (slot_at bank.new s).state.wish
            ≡ (slot_at bank.old s).state.wish }
        ensures dues { IsDueIndex bank.new change.now dues.new }
        ensures looks { looks.new ≤ looks.old + 2 * planned_count self.now }
    {
        slots_follow_their_moves();
        due_indexes_last();
        let Change { now, value, cov } = change;
        for slot in 0..SLOT_LIMIT as u32 {
            let places = self.places[slot as usize].as_slice();
            if !places.is_empty() {
                bank.change(looks, slot, now, value, cov, places);
                dues.set(slot, bank.look(looks, slot).next_due(now));
            }
        }
    }
}

/// Replaces places by those of the members that name a point, of the data set that a transfer set
/// wishes; none where it isn't enabled, or the data set isn't there.
fn plan_slot(
    places: &mut Vec<u32>,
    table: &InForce<'_>,
    book: &SetBook,
    wish: &Wish,
    point: u32,
) -> Result<(), AllocError>
    requires { point < length table.now.rows.points }
    ensures { OnOk result (places.new.items ≡ (if wish.now.status
        then places_by (offered table.now) book.now wish.now (point_of table.now.rows point).name
        else [])) }
{
    places.clear();
    if !wish.status {
        return Ok(());
    }
    match wished(table, book, wish) {
        Some(members) => put_places(places, table, members, point),
        None => Ok(()),
    }
}

/// The members of the data set that a wish names, where it is there.
pub fn wished<'a>(table: &InForce<'_>, book: &'a SetBook, wish: &Wish) -> Option<&'a Members>
    ensures members { option_copied result
        ≡ wished_members (offered table.now) (members_in book.now.sets) wish.now }
    ensures few { IfSome result (λ members. length members.now ≤ MOST_MEMBERS) }
{
    if wish.set_domain != table.table().domain {
        return None;
    }
    books_are_lawful(book);
    book.members(&wish.set_name)
}

/// Appends the places of the members that name a point.
fn put_places(
    places: &mut Vec<u32>,
    table: &InForce<'_>,
    members: &Members,
    point: u32,
) -> Result<(), AllocError>
    requires few { length members.now ≤ MOST_MEMBERS }
    requires known { point < length table.now.rows.points }
    ensures { OnOk result (places.new.items ≡ places.old.items
        ++ places_told (offered table.now) members.now (point_of table.now.rows point).name) }
{
    let names = members.as_slice();
    for place in 0..names.len() {
        if names_point(table, &names[place], point) {
            places.push(place as u32)?;
        }
    }
    Ok(())
}

/// Whether a name stands for the point with this number.
fn names_point(table: &InForce<'_>, name: &Name, point: u32) -> bool
    requires { point < length table.now.rows.points }
    ensures { result ≡ is_point (point_of table.now.rows point).name
        (object_named (offered table.now) name.now) }
{
    // An update doesn't look up each member of each data set.
    if *name.item() != table.point(point).name {
        return false;
    }
    matches!(find_object(table, name), Some(Found::Point(_)))
}
