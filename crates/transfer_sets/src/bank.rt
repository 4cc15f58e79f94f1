//! The transfer sets of a peer, each with the association that owns it.
ghost use Rattle.std.specs.Prelude.{◌≡◌, ◌<◌, ◌≤◌, ℕ, List, length, map, slice_set, IfOk};
ghost use Rattle.std.specs.Prelude.{OnOk, OnErr, is_some};
ghost use Rattle.look_count.specs.Counted.{looked};
ghost use Rattle.transfer_sets.specs.SlotState.{with_status};
ghost use Rattle.transfer_sets.specs.Banks.{OwnedSlot, free_slot, free_slots, handed_slot, slot_at};
ghost use Rattle.transfer_sets.specs.Banks.{with_wish, freed, told, HasMoreRoom, HasChanged};
ghost use Rattle.transfer_sets.specs.Due.{AreDue};
ghost use Rattle.transfer_sets.specs.NextDue.{IsNextMoment};

use crate::noted::Noted;
use crate::slot::Slot;
use crate::wish::Wish;
use look_count::Looks;
use std::alloc::{AllocError, Global};
use std::marker::Model;
use tase_points::PointValue;

/// A transfer set, and the association that owns it, by its number, if one does.
#[derive(Drop)]
pub struct OwnSlot {
    owner: Option<u64>,
    slot: Slot,
}

impl Model for OwnSlot {
    ghost use Rattle.transfer_sets.specs.Banks.{OwnedSlot};

    ghost Value = { OwnedSlot };

    ghost view = { λ s. record {
      owner = s.owner;
      state = s.slot.state;
      spare = s.slot.spare;
    } };
}

impl OwnSlot {
    fn new(alloc: Global) -> OwnSlot
        ensures { result ≡ free_slot }
    {
        OwnSlot {
            owner: None,
            slot: Slot::new(alloc),
        }
    }

    /// The association that owns it.
    pub fn owner(&self) -> Option<u64>
        ensures { result ≡ self.now.owner }
    {
        self.owner
    }

    /// What is wished of it; the wish's status says whether it is enabled.
    pub fn wish(&self) -> &Wish
        ensures { result.now ≡ self.now.state.wish }
    {
        self.slot.wish()
    }

    /// The conditions, as their sum, on which a report of it is due where the clock goes on from a
    /// moment to another, in milliseconds since 1970.
    pub fn due(&self, from: u64, to: u64) -> u8
        ensures { AreDue self.now.state from to result }
    {
        self.slot.due(from, to)
    }

    /// The next moment after another, below the limit of all such moments, at which something of it
    /// is due if nothing befalls it until then; none where nothing is. In milliseconds since 1970.
    pub fn next_due(&self, from: u64) -> Option<u64>
        ensures { IsNextMoment self.now.state from result }
    {
        self.slot.next_due(from)
    }

    /// Whether a member of its data set has changed since its last report.
    pub fn has_change(&self) -> bool
        ensures { result ≡ is_some self.now.state.first }
    {
        self.slot.has_change()
    }

    /// Its members that changed since its last report, in order, where its wish has changes told:
    /// with each change, or with the first of each member.
    pub fn noted(&self) -> &[Noted]
        ensures { result.now ≡ self.now.state.noted }
    {
        self.slot.noted()
    }

    fn hand_out(&mut self, ordinal: u64)
        ensures { self.new ≡ handed_slot ordinal }
    {
        self.owner = Some(ordinal);
        self.slot.clear();
    }

    fn write(&mut self, wish: Wish, now: u64)
        ensures { self.new ≡ with_wish wish now self.old }
    {
        if wish.status {
            self.slot.enable(wish, now);
        } else {
            self.slot.keep(wish);
        }
    }

    fn set_status(&mut self, status: bool, now: u64)
        ensures { self.new ≡ with_wish (with_status status self.old.state.wish) now self.old }
    {
        if status {
            self.slot.renew(now);
        } else {
            self.slot.disable();
        }
    }

    fn reported(&mut self)
        ensures { self.new ≡ told self.old }
    {
        self.slot.reported();
    }

    fn free(&mut self, ordinal: u64)
        ensures { self.new ≡ freed ordinal self.old }
    {
        if self.owner == Some(ordinal) {
            self.owner = None;
            self.slot.clear();
        }
    }
}

/// The transfer sets of a peer, by their numbers from 0: each with its owner, an association of the
/// peer by its number, if it has one.
#[derive(Drop)]
pub struct SlotBank {
    slots: Vec<OwnSlot>,
}

impl Model for SlotBank {
    ghost use Rattle.std.specs.Prelude.{List};
    ghost use Rattle.transfer_sets.specs.Banks.{OwnedSlot};

    ghost Value = { List OwnedSlot };

    ghost view = { λ b. b.slots.items };
}

impl SlotBank {
    /// So many transfer sets, which nobody owns.
    pub fn new(alloc: Global, count: u32) -> Result<SlotBank, AllocError>
        ensures { IfOk result (λ bank. bank ≡ free_slots count) }
    {
        let mut slots = Vec::new(alloc);
        for slot in 0..count {
            slots.push(OwnSlot::new(alloc))?;
        }
        Ok(SlotBank { slots })
    }

    /// Looks at a transfer set: what is read of it until the next look is one look.
    pub fn look(&self, looks: &mut Looks, slot: u32) -> &OwnSlot
        requires { slot < length self.now }
        ensures slot { result.now ≡ slot_at self.now slot }
        ensures looks { looks.new ≡ looked looks.old 1 }
    {
        looks.add();
        &self.slots[slot as usize]
    }

    /// Hands a transfer set out to an association: nothing is wished of it. It takes no memory.
    pub fn hand_out(&mut self, looks: &mut Looks, slot: u32, ordinal: u64)
        requires { slot < length self.old }
        ensures slots { self.new ≡ slice_set self.old slot (handed_slot ordinal) }
        ensures looks { looks.new ≡ looked looks.old 1 }
    {
        looks.add();
        self.slots[slot as usize].hand_out(ordinal);
    }

    /// Takes a wish at this moment, in milliseconds since 1970: one whose status is true enables
    /// the transfer set, which begins anew.
    pub fn write(&mut self, looks: &mut Looks, slot: u32, wish: Wish, now: u64)
        requires { slot < length self.old }
        ensures slots { self.new
            ≡ slice_set self.old slot (with_wish wish now (slot_at self.old slot)) }
        ensures looks { looks.new ≡ looked looks.old 1 }
    {
        looks.add();
        self.slots[slot as usize].write(wish, now);
    }

    /// Takes the wish that stands with another status at this moment, in milliseconds since 1970.
    pub fn set_status(&mut self, looks: &mut Looks, slot: u32, status: bool, now: u64)
        requires { slot < length self.old }
        ensures slots { let old = slot_at self.old slot in self.new ≡ slice_set self.old slot
            (with_wish (with_status status old.state.wish) now old) }
        ensures looks { looks.new ≡ looked looks.old 1 }
    {
        looks.add();
        self.slots[slot as usize].set_status(status, now);
    }

    /// A report has told all changes of a transfer set.
    pub fn reported(&mut self, looks: &mut Looks, slot: u32)
        requires { slot < length self.old }
        ensures slots { self.new ≡ slice_set self.old slot (told (slot_at self.old slot)) }
        ensures looks { looks.new ≡ looked looks.old 1 }
    {
        looks.add();
        self.slots[slot as usize].reported();
    }

    /// Makes room in a transfer set for this many further notes.
    pub fn room(&mut self, looks: &mut Looks, slot: u32, n: usize) -> Result<(), AllocError>
        requires { slot < length self.old }
        ensures ok { OnOk result (n ≤ (slot_at self.new slot).spare) }
        ensures more { HasMoreRoom self.old self.new }
        ensures err { OnErr result (self.new ≡ self.old) }
        ensures looks { looks.new ≡ looked looks.old 1 }
    {
        looks.add();
        self.slots[slot as usize].slot.room(n)
    }

    /// A point has changed at this moment, in milliseconds since 1970, of which the value and the
    /// shown count of changes are now these; the members at these places of the data set of a
    /// transfer set name it.
    pub fn change(
        &mut self,
        looks: &mut Looks,
        slot: u32,
        now: u64,
        value: PointValue,
        cov: u16,
        places: &[u32],
    )
        requires there { slot < length self.old }
        requires room { length places.now ≤ (slot_at self.old slot).spare }
        ensures slots { (point : List ℕ) → HasChanged places.now
            (record { point = point; moment = now; value = value; count = cov }) slot self.old
            self.new }
        ensures looks { looks.new ≡ looked looks.old 1 }
    {
        looks.add();
        self.slots[slot as usize]
            .slot
            .change(now, value, cov, places);
    }

    /// An association has ended: nobody owns its transfer sets. It takes no memory, and looks at
    /// each transfer set.
    pub fn free(&mut self, looks: &mut Looks, ordinal: u64)
        ensures slots { self.new ≡ map (freed ordinal) self.old }
        ensures looks { looks.new ≡ looked looks.old (length self.old) }
    {
        let _within_limit = looks.count();
        for place in 0..self.slots.len() {
            looks.add();
            self.slots[place].free(ordinal);
        }
    }
}
