//! What a read makes of transfer sets before it is taken.
ghost use Rattle.std.specs.Prelude.{◌≡◌, ◌<◌, ◌≤◌, [], true, false, length};
ghost use Rattle.std.specs.Prelude.{is_none, IfOk, OnOk, Some};
ghost use Rattle.mms_data.specs.Lawful.{IsLawful};
ghost use Rattle.bilateral.specs.declared.rows.TheConstants.{SLOT_LIMIT};
ghost use Rattle.transfer_sets.specs.WishData.{shown_wish};
ghost use Rattle.transfer_sets.specs.Banks.{slot_at, handed_slot, is_owned_by};
ghost use Rattle.node_core.specs.Slots.SlotsKept.{first_free, Drafted, drafted, with_handed};

use mms_data::MmsData;
use std::alloc::{AllocError, Global};
use std::marker::Model;
use transfer_sets::{Looks, SlotBank, Wish, wish_data};

/// The transfer sets of a peer as an association finds them within a request: with those that the
/// request has handed out to it so far.
#[derive(Drop)]
pub struct Draft<'a> {
    slots: &'a SlotBank,
    ordinal: u64,
    handed: Vec<u32>,
}

impl<'a> Model for Draft<'a> {
    ghost use Rattle.std.specs.Prelude.{◌≡◌, length};
    ghost use Rattle.bilateral.specs.declared.rows.TheConstants.{SLOT_LIMIT};
    ghost use Rattle.node_core.specs.Slots.SlotsKept.{Drafted, AreSlots};

    ghost Value = { Drafted };

    ghost view = { λ d. record {
      bank = d.slots.now;
      ordinal = d.ordinal;
      handed = d.handed.items;
    } };

    ghost invariant = { λ d. (length d.slots.now ≡ SLOT_LIMIT) × AreSlots d.handed.items };
}

impl<'a> Draft<'a> {
    /// Before anything is handed out.
    pub fn new(alloc: Global, slots: &'a SlotBank, ordinal: u64) -> Draft<'a>
        requires { length slots.now ≡ SLOT_LIMIT }
        ensures { result ≡ record { bank = slots.now; ordinal = ordinal; handed = [] } }
    {
        Draft {
            slots,
            ordinal,
            handed: Vec::new(alloc),
        }
    }

    /// The association that makes the request, by its ordinal.
    pub fn ordinal(&self) -> u64
        ensures { result ≡ self.now.ordinal }
    {
        self.ordinal
    }

    /// The transfer sets that were handed out, in order.
    pub fn into_handed(self) -> Vec<u32>
        ensures { result.items ≡ self.entry.handed }
    {
        self.handed
    }

    /// Whether the request has handed a transfer set out.
    fn is_handed(&self, slot: u32) -> bool
        ensures handed { result ≡ true
            → slot_at (drafted self.now) slot ≡ handed_slot self.now.ordinal }
        ensures other { result ≡ false
            → slot_at (drafted self.now) slot ≡ slot_at self.now.bank slot }
    {
        self.handed.contains(&slot)
    }

    /// Whether the association owns a transfer set.
    pub fn owns(&self, slot: u32, looks: &mut Looks) -> bool
        requires { slot < SLOT_LIMIT }
        ensures { result ≡ is_owned_by self.now.ordinal (slot_at (drafted self.now) slot) }
    {
        if self.is_handed(slot) {
            return true;
        }
        self.slots.look(looks, slot).owner() == Some(self.ordinal)
    }

    /// Whether nobody owns a transfer set.
    fn is_free(&self, slot: u32, looks: &mut Looks) -> bool
        requires { slot < SLOT_LIMIT }
        ensures { result ≡ is_none (slot_at (drafted self.now) slot).owner }
    {
        if self.is_handed(slot) {
            return false;
        }
        self.slots.look(looks, slot).owner().is_none()
    }

    /// The first of so many transfer sets that nobody owns.
    pub fn first_free(&self, count: u32, looks: &mut Looks) -> Option<u32>
        requires { count ≤ SLOT_LIMIT }
        ensures { result ≡ first_free count (drafted self.now) }
    {
        for slot in 0..count {
            if self.is_free(slot, looks) {
                return Some(slot);
            }
        }
        None
    }

    /// Hands a transfer set out to the association.
    pub fn hand_out(&mut self, slot: u32) -> Result<(), AllocError>
        requires { slot < SLOT_LIMIT }
        ensures { OnOk result (self.new ≡ with_handed slot self.old) }
    {
        self.handed.push(slot)?;
        Ok(())
    }

    /// What is wished of a transfer set, as data.
    pub fn wish(&self, alloc: Global, slot: u32, looks: &mut Looks) -> Result<MmsData, AllocError>
        requires { slot < SLOT_LIMIT }
        ensures value { IfOk result (λ shown. shown
            ≡ shown_wish (slot_at (drafted self.now) slot).state.wish) }
        ensures lawful { IfOk result (λ shown. IsLawful shown) }
    {
        if self.is_handed(slot) {
            let nothing = Wish::empty(alloc);
            return wish_data(alloc, &nothing);
        }
        wish_data(alloc, self.slots.look(looks, slot).wish())
    }

    /// Whether a transfer set is enabled.
    pub fn status(&self, slot: u32, looks: &mut Looks) -> bool
        requires { slot < SLOT_LIMIT }
        ensures { result ≡ (slot_at (drafted self.now) slot).state.wish.status }
    {
        if self.is_handed(slot) {
            return false;
        }
        self.slots.look(looks, slot).wish().status
    }
}
