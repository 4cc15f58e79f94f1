//! What a node keeps that is no peer's own.
ghost use Rattle.std.specs.Prelude.{◌≡◌, ◌+◌, ◌^◌, ◌<◌, ◌==◌, if◌then◌else◌, ℕ, []};
ghost use Rattle.std.specs.Prelude.{Some, None, is_some, true, IfOk, OnOk, OnErr};
ghost use Rattle.std.specs.HashMap.{hash_map_len};
ghost use Rattle.point_db.specs.Stored.{Keeps};
ghost use Rattle.node_core.specs.Devices.DeviceBanks.{IsDeviceBank};
ghost use Rattle.node_core.specs.LastValues.{kinds_of};
ghost use Rattle.node_core.specs.Stored.{found_by};

use crate::plant::Plant;
use bilateral::Centre;
use sbo_device::Key;
use std::alloc::{AllocError, Global};
use std::collections::HashMap;

/// The plant, the clock, and the associations of the seats.
#[derive(Drop)]
pub struct Hub {
    pub plant: Plant,
    /// The moment of the last tick, in milliseconds since 1970; before any, 0.
    last_tick: u64,
    /// The open association of each seat that has one.
    seats: HashMap<u64, Key>,
}

impl Hub {
    /// What an empty history gives.
    pub fn new(alloc: Global, centre: &Centre) -> Result<Hub, AllocError>
        ensures points { IfOk result (λ hub. Keeps (kinds_of centre.now) [] hub.plant.points) }
        ensures devices { IfOk result (λ hub. IsDeviceBank centre.now [] hub.plant.devices) }
        ensures free { IfOk result (λ hub. (who : ℕ) → found_by hub who ≡ None) }
        ensures none { IfOk result (λ hub. hash_map_len hub.seats ≡ 0) }
        ensures clock { IfOk result (λ hub. hub.last_tick ≡ 0) }
    {
        Ok(Hub {
            plant: Plant::new(alloc, centre)?,
            last_tick: 0,
            seats: HashMap::new(alloc),
        })
    }

    /// The moment of the last tick, in milliseconds since 1970; before any, 0.
    pub fn last_tick(&self) -> u64
        ensures { result ≡ self.now.last_tick }
    {
        self.last_tick
    }

    /// The open association of a seat.
    pub fn association(&self, who: u64) -> Option<Key>
        ensures { result ≡ found_by self.now who }
    {
        self.seats.get(&who).copied()
    }

    /// How many associations are open.
    pub fn open_count(&self) -> usize
        ensures count { result ≡ hash_map_len self.now.seats }
        ensures small { result < 2 ^ 63 }
    {
        self.seats.len()
    }

    /// A seat opens an association.
    pub fn seat(&mut self, who: u64, key: Key) -> Result<(), AllocError>
        ensures plant { self.new.plant ≡ self.old.plant }
        ensures clock { self.new.last_tick ≡ self.old.last_tick }
        ensures ok { OnOk result ((asked : ℕ) → found_by self.new asked
            ≡ (if who == asked then Some key else found_by self.old asked)) }
        ensures count { found_by self.old who ≡ None → OnOk result
            (hash_map_len self.new.seats ≡ hash_map_len self.old.seats + 1) }
        ensures err { OnErr result ((asked : ℕ) → found_by self.new asked
            ≡ found_by self.old asked) }
        ensures same_count { OnErr result
            (hash_map_len self.new.seats ≡ hash_map_len self.old.seats) }
    {
        self.seats.insert(who, key)?;
        Ok(())
    }

    /// The association of a seat is closed.
    pub fn unseat(&mut self, who: u64)
        ensures plant { self.new.plant ≡ self.old.plant }
        ensures clock { self.new.last_tick ≡ self.old.last_tick }
        ensures seats { (asked : ℕ) → found_by self.new asked
            ≡ (if who == asked then None else found_by self.old asked) }
        ensures count { is_some (found_by self.old who) ≡ true
            → hash_map_len self.new.seats + 1 ≡ hash_map_len self.old.seats }
    {
        self.seats.remove(&who);
    }

    /// The clock stands at a moment.
    pub fn tick(&mut self, now: u64)
        ensures { self.new ≡ record self.old { last_tick = now } }
    {
        self.last_tick = now;
    }
}
