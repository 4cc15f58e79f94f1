//! What holds of all updates, and of all slots that watch points.
ghost use Rattle.std.specs.Prelude.{◌≡◌, ◌≢◌, ◌<◌, ◌≤◌, ◌+◌, ◌↔◌, ◌⊎◌, ◌++◌, ℕ, List, length};
ghost use Rattle.std.specs.Prelude.{replicate, Contains};
ghost use Rattle.tase_points.specs.declared.kind.Kind.{Kind as PointKind};
ghost use Rattle.point_db.specs.declared.store.TheConstants.{SERIAL_LIMIT};
ghost use Rattle.point_db.specs.Updates.{Updates, change_total, serial_of, HasChanged};
ghost use Rattle.point_db.specs.Updates.{ChangesSince};
ghost use Rattle.point_db.specs.Stored.{last_serial};
ghost use Rattle.point_db.specs.WatchLists.{PointSlots, AreAscending, with_slot, unwatched};
ghost use Rattle.point_db.specs.WatchLists.{point_slots, Watches, with_watch, without_slot};
ghost use Rattle.point_db.specs.WatchLists.{HasMoreSpare};

/// A point's mark is the serial at its last change: it is above a number exactly where the point
/// has had a change at which the serial rose above that. No mark is above the serial, which never
/// falls and isn't above the number of updates, so that it doesn't stand still before there are as
/// many. A serial that was kept tells which points have changed since: those of which a change is
/// among the updates that came since.
pub fn marks_tell_changes()
    ensures marks { (kinds : List PointKind) (past : Updates) (point : ℕ)
        → last_serial kinds past point ≤ serial_of kinds past }
    ensures above { (kinds : List PointKind) (past : Updates) (point serial : ℕ)
        → (serial < last_serial kinds past point) ↔ HasChanged kinds past point serial }
    ensures rises { (kinds : List PointKind) (since past : Updates)
        → serial_of kinds past ≤ serial_of kinds (since ++ past) }
    ensures updates { (kinds : List PointKind) (past : Updates)
        → change_total kinds past ≤ length past }
    ensures since { (kinds : List PointKind) (since past : Updates) (point : ℕ)
        → change_total kinds (since ++ past) ≤ SERIAL_LIMIT
        → HasChanged kinds (since ++ past) point (serial_of kinds past)
        ↔ ChangesSince kinds since past point }
{}

/// At first no slot watches a point. Room changes nothing of that. A slot that is added to a point
/// watches it besides all that watched before, and takes no more than one of the spare there, none
/// where it watched before; of other points all stays. A slot that is removed watches no point, all
/// others do as before, and each spare stays.
pub fn watches_change_slot_by_slot()
    ensures none { (points point slot : ℕ) → Watches (replicate points unwatched) point slot → ⊥ }
    ensures room { (old new : List PointSlots) (point : ℕ) → HasMoreSpare old new
        → (point_slots new point).slots ≡ (point_slots old point).slots }
    ensures many { (old new : List PointSlots) → HasMoreSpare old new → length new ≡ length old }
    ensures added { (watch : List PointSlots) (place slot point other : ℕ) → place < length watch
        → Watches (with_watch watch place slot) point other
        ↔ (Watches watch point other ⊎ ((point ≡ place) × (other ≡ slot))) }
    ensures spare { (watch : List PointSlots) (place slot point : ℕ) → place < length watch
        → (point_slots watch point).spare
        ≤ (point_slots (with_watch watch place slot) point).spare + 1 }
    ensures again { (watch : List PointSlots) (place slot point : ℕ) → place < length watch
        → Watches watch place slot → (point_slots (with_watch watch place slot) point).spare
        ≡ (point_slots watch point).spare }
    ensures elsewhere { (watch : List PointSlots) (place slot point : ℕ) → point ≢ place
        → point_slots (with_watch watch place slot) point ≡ point_slots watch point }
    ensures removed { (watch : List PointSlots) (slot point other : ℕ)
        → Watches (without_slot watch slot) point other
        ↔ (Watches watch point other × (other ≢ slot)) }
    ensures kept { (watch : List PointSlots) (slot point : ℕ)
        → (point_slots (without_slot watch slot) point).spare ≡ (point_slots watch point).spare }
{}

/// The slots of a point are those that watch it. With one more they ascend as before, so that a
/// walk over them meets each once, in the order of their numbers. Ascending lists of the same slots
/// are one.
pub fn watching_slots_ascend()
    ensures walked { (watch : List PointSlots) (point slot : ℕ)
        → Watches watch point slot ↔ Contains (point_slots watch point).slots slot }
    ensures added { (slots : List ℕ) (slot : ℕ) → AreAscending slots
        → AreAscending (with_slot slots slot) }
    ensures same { (slots others : List ℕ) → AreAscending slots → AreAscending others
        → ((slot : ℕ) → Contains slots slot ↔ Contains others slot) → slots ≡ others }
{}
