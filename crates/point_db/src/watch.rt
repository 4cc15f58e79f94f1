//! Which slots watch each point, so that an update looks at no other slots.
ghost use Rattle.std.specs.Prelude.{◌≡◌, ◌≤◌, ◌<◌, ◌⊎◌, All, length, map, replicate, IfOk, OnOk, IsTrue};
ghost use Rattle.point_db.specs.WatchLists.{AreAscending, is_watching, unwatched, watched_by};
ghost use Rattle.point_db.specs.WatchLists.{cleared};
ghost use Rattle.point_db.specs.WatchLists.{unwatched_by, point_slots, Watches, with_watch};
ghost use Rattle.point_db.specs.WatchLists.{without_slot, HasMoreSpare};

use std::alloc::{AllocError, Global};
use std::marker::Model;

/// The slots that watch one point, ascending.
#[derive(Debug, Drop)]
struct PointWatch {
    slots: Vec<u32>,
    /// How many slots can be added without memory: room was made for them.
    room: usize,
}

impl Model for PointWatch {
    ghost use Rattle.std.specs.Prelude.{◌+◌, ◌≤◌, vec_len, vec_capacity};
    ghost use Rattle.point_db.specs.WatchLists.{PointSlots, AreAscending};

    ghost Value = { PointSlots };

    ghost view = { λ w. record { slots = w.slots.items; spare = w.room } };

    ghost invariant = { λ w. AreAscending w.slots.items
        × (vec_len w.slots + w.room ≤ vec_capacity w.slots) };
}

impl PointWatch {
    fn new(alloc: Global) -> PointWatch
        ensures { result ≡ unwatched }
    {
        PointWatch {
            slots: Vec::new(alloc),
            room: 0,
        }
    }

    fn make_room(&mut self, count: usize) -> Result<(), AllocError>
        ensures slots { self.new.slots ≡ self.old.slots }
        ensures spare { self.old.spare ≤ self.new.spare }
        ensures ok { OnOk result (count ≤ self.new.spare) }
    {
        if self.room < count {
            self.slots.reserve(count)?;
            self.room = count;
        }
        Ok(())
    }

    fn add(&mut self, slot: u32)
        requires { IsTrue (is_watching slot self.old) ⊎ (1 ≤ self.old.spare) }
        ensures { self.new ≡ watched_by slot self.old }
    {
        if let Err(place) = self.slots.binary_search(&slot) {
            self.slots.insert(place, slot).unwrap();
            self.room -= 1;
        }
    }

    fn remove(&mut self, slot: u32)
        ensures { self.new ≡ unwatched_by slot self.old }
    {
        self.slots.retain(|other| *other != slot);
    }

    fn clear(&mut self)
        ensures { self.new ≡ cleared self.old }
    {
        self.room += self.slots.len();
        self.slots.clear();
    }

    fn is_watching(&self, slot: u32) -> bool
        ensures { result ≡ is_watching slot self.now }
    {
        self.slots.iter().any(|other| *other == slot)
    }

    fn slots(&self) -> &[u32]
        ensures slots { result.now ≡ self.now.slots }
        ensures ascending { AreAscending result.now }
    {
        self.slots.as_slice()
    }
}

/// The slots that watch each point, by their numbers, ascending. A change of a point concerns just
/// those, so that nothing else has to be looked through. Slots are added without memory where room
/// was made for them.
#[derive(Debug, Drop)]
pub struct Watch {
    points: Vec<PointWatch>,
}

impl Model for Watch {
    ghost use Rattle.std.specs.Prelude.{List};
    ghost use Rattle.point_db.specs.WatchLists.{PointSlots};

    ghost Value = { List PointSlots };

    ghost view = { λ w. w.points.items };
}

impl Watch {
    /// So many points, numbered from 0, which no slot watches.
    pub fn new(alloc: Global, points: u32) -> Result<Watch, AllocError>
        ensures { IfOk result (λ watch. watch ≡ replicate points unwatched) }
    {
        let mut watches = Vec::new(alloc);
        for point in 0..points {
            watches.push(PointWatch::new(alloc))?;
        }
        Ok(Watch { points: watches })
    }

    /// Makes room at each of these points for this many further slots, so that they take no
    /// memory. After want of memory there is room at some of them.
    pub fn make_room(&mut self, points: &[u32], count: usize) -> Result<(), AllocError>
        requires there { All (λ point. point < length self.old) points.now }
        ensures ok { OnOk result
            (All (λ point. count ≤ (point_slots self.new point).spare) points.now) }
        ensures more { HasMoreSpare self.old self.new }
    {
        for &point in points {
            self.points[point as usize].make_room(count)?;
        }
        Ok(())
    }

    /// From now on a slot watches a point, also one that does already. It takes no memory.
    pub fn add(&mut self, point: u32, slot: u32)
        requires there { point < length self.old }
        requires room { Watches self.old point slot ⊎ (1 ≤ (point_slots self.old point).spare) }
        ensures { self.new ≡ with_watch self.old point slot }
    {
        self.points[point as usize].add(slot);
    }

    /// From now on a slot watches no point. It takes no memory.
    pub fn remove(&mut self, slot: u32)
        ensures { self.new ≡ without_slot self.old slot }
    {
        for place in 0..self.points.len() {
            self.points[place].remove(slot);
        }
    }

    /// From now on no slot watches a point, and what room they took is free again. It takes no
    /// memory.
    pub fn clear(&mut self)
        ensures { self.new ≡ map cleared self.old }
    {
        for place in 0..self.points.len() {
            self.points[place].clear();
        }
    }

    /// Whether a slot watches a point. It takes no memory.
    pub fn is_watching(&self, point: u32, slot: u32) -> bool
        requires there { point < length self.now }
        ensures { result ≡ is_watching slot (point_slots self.now point) }
    {
        self.points[point as usize].is_watching(slot)
    }

    /// The slots that watch a point, ascending. It takes no memory.
    pub fn slots(&self, point: u32) -> &[u32]
        requires there { point < length self.now }
        ensures slots { result.now ≡ (point_slots self.now point).slots }
        ensures ascending { AreAscending result.now }
    {
        self.points[point as usize].slots()
    }
}
