//! The index of a peer: of its transfer sets, which is due next, and which tell of a point.
ghost use Rattle.std.specs.Prelude.{◌≡◌, ◌<◌, ◌≤◌, ℕ, nat_eq, nat_lt, length, true, [], Some};
ghost use Rattle.std.specs.Prelude.{is_some, if◌then◌else◌, IfOk, OnOk, IfSome};
ghost use Rattle.std.specs.List.{All, list_any};
ghost use Rattle.std.specs.Option.{option_eq};
ghost use Rattle.bilateral.specs.declared.rows.Table.{Table as AnyTable};
ghost use Rattle.bilateral.specs.declared.rows.TheConstants.{SLOT_LIMIT as SLOTS};
ghost use Rattle.bilateral.specs.Rows.{IsCentre, place_of_see, point_of, variant_of};
ghost use Rattle.point_db.specs.WatchLists.{HasMoreSpare, point_slots};
ghost use Rattle.transfer_sets.specs.DueIndex.{IsDueIndex};
ghost use Rattle.tase_views.specs.Objects.{object_named};
ghost use Rattle.tase_views.specs.Slots.{is_point};
ghost use Rattle.node_core.specs.Objects.Found.{offered};
ghost use Rattle.node_core.specs.PeerParts.{new_part};
ghost use Rattle.node_core.specs.Feeds.SlotFeeds.{places_by};
ghost use Rattle.node_core.specs.Feeds.Indexed.{IsWatch, HasWatchRoom, HasWatched, IsIndexed};

use super::plan::wished;
use crate::objects::{Found, InForce, find_object};
use bilateral::{Centre, SLOT_LIMIT, Table};
use data_sets::{Members, SetBook};
use mms_data::Name;
use point_db::Watch;
use std::alloc::{AllocError, Global};
use transfer_sets::{DueIndex, Looks, SlotBank, Wish, due_indexes_last};

/// By what a tick and an update find the transfer sets of a peer that they concern.
#[derive(Drop)]
pub struct PeerIndex {
    /// Of each transfer set the next moment at which a report of it is due.
    pub dues: DueIndex,
    /// Of each point the enabled transfer sets whose data set names it.
    pub watch: Watch,
}

impl PeerIndex {
    /// That of a peer of which nothing was seen, with the room that its tables may need.
    pub fn new(alloc: Global, centre: &Centre, peer: u32) -> Result<PeerIndex, AllocError>
        requires known { peer < length centre.now.tables }
        ensures { IfOk result (λ index. (limit : ℕ)
            → IsIndexed centre.now peer 0 (new_part limit) index) }
    {
        let mut watch = Watch::new(alloc, centre.points())?;
        make_room(&mut watch, centre, peer)?;
        due_indexes_last();
        Ok(PeerIndex {
            dues: DueIndex::new(alloc, SLOT_LIMIT as u32)?,
            watch,
        })
    }

    /// Makes it anew from the table in force, the data sets and the transfer sets of the peer, at
    /// this moment, in milliseconds since 1970. It takes no memory.
    pub fn rebuild(
        &mut self,
        table: &InForce<'_>,
        book: &SetBook,
        bank: &SlotBank,
        now: u64,
        looks: &mut Looks,
    )
        requires many { length bank.now ≡ SLOTS }
        requires dues { length self.old.dues ≡ SLOTS }
        requires room { HasWatchRoom (length table.now.rows.points) table.now.table
            self.old.watch }
        ensures dues { IsDueIndex bank.now now self.new.dues }
        ensures watch { IsWatch table.now book.now bank.now self.new.watch }
        ensures room { (other : AnyTable)
            → HasWatchRoom (length table.now.rows.points) other self.old.watch
            → HasWatchRoom (length table.now.rows.points) other self.new.watch }
    {
        self.watch.clear();
        for slot in 0..SLOT_LIMIT as u32 {
            let own = bank.look(looks, slot);
            self.dues.set(slot, own.next_due(now));
            watch_slot(&mut self.watch, table, book, own.wish(), slot);
        }
    }
}

/// Makes room for all transfer sets at each point that one of a peer's tables shows.
fn make_room(watch: &mut Watch, centre: &Centre, peer: u32) -> Result<(), AllocError>
    requires known { peer < length centre.now.tables }
    requires lawful { IsCentre centre.now }
    requires points { length watch.old ≡ length centre.now.points }
    ensures more { HasMoreSpare watch.old watch.new }
    ensures ok { OnOk result ((variant point : ℕ)
        → is_some (place_of_see (variant_of centre.now peer variant) point) ≡ true
        → SLOTS ≤ (point_slots watch.new point).spare) }
{
    for variant in 0..centre.variants(peer) {
        make_table_room(watch, centre.variant(peer, variant))?;
    }
    Ok(())
}

/// Makes room for all transfer sets at each point that a table shows.
fn make_table_room(watch: &mut Watch, table: &Table) -> Result<(), AllocError>
    requires { All (λ see. see.point < length watch.old) table.now.sees }
    ensures more { HasMoreSpare watch.old watch.new }
    ensures ok { OnOk result ((point : ℕ) → is_some (place_of_see table.now point) ≡ true
        → SLOTS ≤ (point_slots watch.new point).spare) }
{
    for see in table.sees.as_slice() {
        watch.make_room(&[see.point], SLOT_LIMIT as usize)?;
    }
    Ok(())
}

/// From now on a transfer set watches the points that members of the data set name that is wished,
/// where the wish enables it and the data set is there.
fn watch_slot(watch: &mut Watch, table: &InForce<'_>, book: &SetBook, wish: &Wish, slot: u32)
    requires slot { slot < SLOTS }
    requires room { HasWatchRoom (length table.now.rows.points) table.now.table watch.old }
    ensures { HasWatched (length table.now.rows.points) slot (λ point. nat_lt 0 (length
        (if wish.now.status then places_by (offered table.now) book.now wish.now
        (point_of table.now.rows point).name else []))) watch.old watch.new }
{
    if !wish.status {
        return;
    }
    match wished(table, book, wish) {
        Some(members) => watch_members(watch, table, members, slot),
        None => {}
    }
}

/// From now on a transfer set watches the points that these members name.
fn watch_members(watch: &mut Watch, table: &InForce<'_>, members: &Members, slot: u32)
    requires slot { slot < SLOTS }
    requires room { HasWatchRoom (length table.now.rows.points) table.now.table watch.old }
    ensures { HasWatched (length table.now.rows.points) slot (λ point. list_any (λ member.
        is_point (point_of table.now.rows point).name (object_named (offered table.now) member))
        members.now) watch.old watch.new }
{
    for name in members.as_slice() {
        watch_member(watch, table, name, slot);
    }
}

/// From now on a transfer set watches the point that this member names, if it names one.
fn watch_member(watch: &mut Watch, table: &InForce<'_>, name: &Name, slot: u32)
    requires slot { slot < SLOTS }
    requires room { HasWatchRoom (length table.now.rows.points) table.now.table watch.old }
    ensures { HasWatched (length table.now.rows.points) slot (λ point. is_point
        (point_of table.now.rows point).name (object_named (offered table.now) name.now))
        watch.old watch.new }
{
    if let Some(point) = found_point(table, name) {
        let _ascending = watch.slots(point);
        watch.add(point, slot);
    }
}

/// The number of the point that a name stands for, if it is that of one.
fn found_point(table: &InForce<'_>, name: &Name) -> Option<u32>
    ensures told { (point : ℕ) → point < length table.now.rows.points
        → is_point (point_of table.now.rows point).name
        (object_named (offered table.now) name.now) ≡ option_eq nat_eq result (Some point) }
    ensures known { IfSome result (λ point. point < length table.now.rows.points) }
    ensures shown { IfSome result (λ point. is_some (place_of_see table.now.table point) ≡ true) }
{
    let _lawful = table.table();
    match find_object(table, name) {
        Some(Found::Point(see)) => Some(see.point),
        _ => None,
    }
}
