//! The values of all points at a moment, found by number.
ghost use Rattle.std.specs.Prelude.{if◌then◌else◌, ◌≡◌, ◌+◌, ◌%◌, ◌<◌, ◌↔◌, ℕ, List, [], ◌∷◌};
ghost use Rattle.std.specs.Prelude.{length, map, option_copied, IfOk, IsTrue};
ghost use Rattle.tase_points.specs.declared.kind.Kind.{Kind as PointKind};
ghost use Rattle.tase_points.specs.declared.layout.TheConstants.{COV_MODULUS};
ghost use Rattle.tase_points.specs.Values.{is_change, unknown_sample};
ghost use Rattle.point_db.specs.Updates.{Update, last_value, last_given, change_count, serial_of};
ghost use Rattle.point_db.specs.Updates.{HasChanged};
ghost use Rattle.point_db.specs.Stored.{Keeps, noted, given_value};

use std::alloc::{AllocError, Global};
use std::marker::Model;
use tase_points::{Kind, PointValue, changes, unknown};

/// Where the serial number of changes stands still.
pub const SERIAL_LIMIT: u64 = u64::MAX;

// Definitions cite this limit, so that it stands here as a number too.
const _: () = prove!(SERIAL_LIMIT == 18_446_744_073_709_551_615);

/// The last value of each point, how often it has changed, and the number that all changes had
/// reached at its last one. No call looks through the points.
#[derive(Debug, Drop)]
pub struct PointDb {
    values: Vec<PointValue>,
    counts: Vec<u16>,
    changed: Vec<u64>,
    /// Whether a point was ever given a value, also the one that it has before any.
    given: Vec<bool>,
    serial: u64,
}

impl Model for PointDb {
    ghost use Rattle.std.specs.Prelude.{◌≡◌, length};
    ghost use Rattle.point_db.specs.Stored.{Stored, IsStored};

    ghost Value = { Stored };

    ghost view = { λ db. record {
      values = db.values.items;
      counts = db.counts.items;
      changed = db.changed.items;
      given = db.given.items;
      serial = db.serial;
    } };

    ghost invariant = { λ db. IsStored (record {
      values = db.values.items;
      counts = db.counts.items;
      changed = db.changed.items;
      given = db.given.items;
      serial = db.serial;
    }) };
}

impl PointDb {
    /// Points of these kinds, numbered from 0, before any update.
    pub fn new(alloc: Global, kinds: &[Kind]) -> Result<PointDb, AllocError>
        ensures { IfOk result (Keeps kinds.now []) }
    {
        Ok(PointDb {
            values: unknown_values(alloc, kinds)?,
            counts: vec![in alloc; 0u16; kinds.len()]?,
            changed: vec![in alloc; 0u64; kinds.len()]?,
            given: vec![in alloc; false; kinds.len()]?,
            serial: 0,
        })
    }

    /// Takes a point's new value, and says whether it is a change: another body or other flags.
    pub fn update(&mut self, point: u32, value: PointValue) -> bool
        requires known { point < length self.old.values }
        ensures kept { (kinds : List PointKind) (past : List Update) → Keeps kinds past self.old
            → Keeps kinds (record { point = point; value = value } ∷ past) self.new }
        ensures changed { (kinds : List PointKind) (past : List Update) → Keeps kinds past self.old
            → result ≡ is_change (last_value kinds past point) value }
        ensures points { length self.new.values ≡ length self.old.values }
    {
        if changes(self.value(point), &value) {
            self.note(point);
            self.put(point, value);
            true
        } else {
            self.put(point, value);
            false
        }
    }

    /// Keeps a point's new value.
    fn put(&mut self, point: u32, value: PointValue)
        requires known { point < length self.old.values }
        ensures { self.new ≡ given_value self.old point value }
    {
        let place = point as usize;
        self.values[place] = value;
        self.given[place] = true;
    }

    /// Counts a change of a point.
    fn note(&mut self, point: u32)
        requires known { point < length self.old.values }
        ensures { self.new ≡ noted self.old point }
    {
        let place = point as usize;
        self.serial = self.serial.saturating_add(1);
        self.counts[place] = self.counts[place].wrapping_add(1);
        self.changed[place] = self.serial;
    }

    /// The last value of a point.
    pub fn value(&self, point: u32) -> &PointValue
        requires known { point < length self.now.values }
        ensures { (kinds : List PointKind) (past : List Update) → Keeps kinds past self.now
            → result.now ≡ last_value kinds past point }
    {
        &self.values[point as usize]
    }

    /// The value that a point was given last; none where it was never given one.
    pub fn last_update(&self, point: u32) -> Option<&PointValue>
        requires known { point < length self.now.values }
        ensures { (kinds : List PointKind) (past : List Update) → Keeps kinds past self.now
            → option_copied result ≡ last_given past point }
    {
        let place = point as usize;
        if self.given[place] {
            Some(&self.values[place])
        } else {
            None
        }
    }

    /// How often a point has changed, modulo 65,536.
    pub fn cov(&self, point: u32) -> u16
        requires known { point < length self.now.values }
        ensures { (kinds : List PointKind) (past : List Update) → Keeps kinds past self.now
            → result ≡ change_count kinds past point % COV_MODULUS }
    {
        self.counts[point as usize]
    }

    /// The number of changes of all points so far; it stands still at [`SERIAL_LIMIT`].
    pub fn serial(&self) -> u64
        ensures { (kinds : List PointKind) (past : List Update) → Keeps kinds past self.now
            → result ≡ serial_of kinds past }
    {
        self.serial
    }

    /// Whether a point has had a change at which the serial rose above this number.
    pub fn changed_since(&self, point: u32, serial: u64) -> bool
        requires known { point < length self.now.values }
        ensures { (kinds : List PointKind) (past : List Update) → Keeps kinds past self.now
            → IsTrue result ↔ HasChanged kinds past point serial }
    {
        serial < self.changed[point as usize]
    }
}

/// What points of these kinds have before any update.
fn unknown_values(alloc: Global, kinds: &[Kind]) -> Result<Vec<PointValue>, AllocError>
    ensures { IfOk result (λ values. values.items ≡ map unknown_sample kinds.now) }
{
    let mut values = Vec::new(alloc);
    for kind in kinds {
        values.push(unknown(*kind))?;
    }
    Ok(values)
}
