//! What comes of writes of transfer sets and their status.
ghost use Rattle.std.specs.Prelude.{◌≡◌, ◌<◌, ◌≤◌, ◌+◌, ◌-◌, ◌&&◌, ◌++◌, is_some, length};
ghost use Rattle.std.specs.Prelude.{vec_len, vec_capacity, Ok};
ghost use Rattle.std.specs.Prelude.{None};
ghost use Rattle.std.specs.List.{All};
ghost use Rattle.bilateral.specs.declared.rows.TheConstants.{SLOT_LIMIT};
ghost use Rattle.data_sets.specs.Books.{members_in};
ghost use Rattle.transfer_sets.specs.Wishes as wishes;
ghost use Rattle.transfer_sets.specs.Banks.{slot_at};
ghost use Rattle.tase_views.specs.OwnTables.{OwnTable};
ghost use Rattle.tase_views.specs.Slots.{taken, wished_members};
ghost use Rattle.node_core.specs.Slots.SlotWrites.{IsAskedThere, owner_answer};
ghost use Rattle.node_core.specs.Slots.SlotWrites.{owner_slots, status_wish, answer_asked};
ghost use Rattle.node_core.specs.Slots.SlotWrites.{slots_asked};
ghost use Rattle.node_core.specs.Slots.SlotWrites.{all_answers, all_slots};

use ber_values::Visible;
use data_sets::SetBook;
use tase_views::OBJECT_ACCESS_DENIED;
use transfer_sets::{Looks, SlotBank, Wish, WishFault, may_enable};

/// The reason of an access that a value is of another type (ISO 9506-2, `DataAccessError`:
/// type-inconsistent).
pub const TYPE_INCONSISTENT: u8 = 7;

/// The reason of an access that a value is none that the object takes (`DataAccessError`:
/// object-value-invalid).
pub const VALUE_INVALID: u8 = 11;

/// What a write of a variable asks.
#[derive(Drop)]
pub enum Asked {
    /// Nothing that is still to be done: what came of it, none where it is written, else the
    /// reason.
    Answered(Option<u8>),
    /// A wish of a transfer set, by its number; or what is wrong with the value.
    Wished {
        slot: u32,
        wish: Result<Wish, WishFault>,
    },
    /// Another status of a transfer set, by its number; none where the value isn't one.
    Switched {
        slot: u32,
        status: Option<bool>,
    },
    /// A device, by its number, is operated with this number.
    Operated {
        device: u32,
        number: i64,
    },
    /// A device, by its number, is tagged for this reason.
    Tagged {
        device: u32,
        tag: u8,
        reason: Visible,
    },
}

/// Does what writes of an association ask of transfer sets, at this moment, and appends what comes
/// of each: none where it is written, else the reason. It takes no memory.
pub fn write_all(
    domain: &Visible,
    book: &SetBook,
    slots: &mut SlotBank,
    ordinal: u64,
    now: u64,
    asked: Vec<Asked>,
    results: &mut Vec<Option<u8>>,
    looks: &mut Looks,
)
    requires many { length slots.old ≡ SLOT_LIMIT }
    requires there { All (IsAskedThere 0) asked.items }
    requires room { vec_len results.old + length asked.items ≤ vec_capacity results.old }
    ensures answers { (table : OwnTable) → table.domain ≡ domain.now → results.new.items
        ≡ results.old.items
        ++ all_answers table book.now ordinal now asked.items slots.old }
    ensures slots { (table : OwnTable) → table.domain ≡ domain.now → slots.new
        ≡ all_slots table book.now ordinal now asked.items slots.old }
    ensures many { length slots.new ≡ SLOT_LIMIT }
{
    for one in asked {
        let answer = write_one(domain, book, slots, ordinal, now, one, looks);
        results.push_reserved(answer);
    }
}

/// Does what a write of an association asks.
fn write_one(
    domain: &Visible,
    book: &SetBook,
    slots: &mut SlotBank,
    ordinal: u64,
    now: u64,
    asked: Asked,
    looks: &mut Looks,
) -> Option<u8>
    requires many { length slots.old ≡ SLOT_LIMIT }
    requires there { IsAskedThere 0 asked }
    ensures answer { (table : OwnTable) → table.domain ≡ domain.now
        → result ≡ answer_asked table book.now ordinal asked slots.old }
    ensures slots { (table : OwnTable) → table.domain ≡ domain.now
        → slots.new ≡ slots_asked table book.now ordinal now asked slots.old }
    ensures many { length slots.new ≡ SLOT_LIMIT }
{
    match asked {
        Asked::Answered(answer) => answer,
        Asked::Wished { slot, wish } => {
            write_wish(domain, book, slots, ordinal, now, slot, wish, looks)
        }
        Asked::Switched { slot, status } => {
            write_status(domain, book, slots, ordinal, now, slot, status, looks)
        }
        Asked::Operated { .. } | Asked::Tagged { .. } => unreachable!(),
    }
}

/// Takes a wish of a transfer set, where its owner writes it.
fn write_wish(
    domain: &Visible,
    book: &SetBook,
    slots: &mut SlotBank,
    ordinal: u64,
    now: u64,
    slot: u32,
    wish: Result<Wish, WishFault>,
    looks: &mut Looks,
) -> Option<u8>
    requires { slot < length slots.old }
    ensures answer { (table : OwnTable) → table.domain ≡ domain.now → result
        ≡ owner_answer ordinal (slot_at slots.old slot)
        (taken table (members_in book.now.sets) wish) }
    ensures slots { (table : OwnTable) → table.domain ≡ domain.now → slots.new
        ≡ owner_slots ordinal now slot (taken table (members_in book.now.sets) wish) slots.old }
    ensures many { length slots.new ≡ length slots.old }
{
    if slots.look(looks, slot).owner() != Some(ordinal) {
        return Some(OBJECT_ACCESS_DENIED);
    }
    match wish {
        Err(WishFault::Form) => Some(TYPE_INCONSISTENT),
        Err(WishFault::Range) => Some(VALUE_INVALID),
        Ok(wish) => {
            if wish.status && !may_begin(domain, book, &wish) {
                return Some(VALUE_INVALID);
            }
            slots.write(looks, slot, wish, now);
            None
        }
    }
}

/// Takes another status of a transfer set, where its owner writes it.
fn write_status(
    domain: &Visible,
    book: &SetBook,
    slots: &mut SlotBank,
    ordinal: u64,
    now: u64,
    slot: u32,
    status: Option<bool>,
    looks: &mut Looks,
) -> Option<u8>
    requires { slot < length slots.old }
    ensures answer { (table : OwnTable) → table.domain ≡ domain.now → result
        ≡ owner_answer ordinal (slot_at slots.old slot) (taken table (members_in book.now.sets)
        (status_wish status (slot_at slots.old slot).state.wish)) }
    ensures slots { (table : OwnTable) → table.domain ≡ domain.now → slots.new
        ≡ owner_slots ordinal now slot (taken table (members_in book.now.sets)
        (status_wish status (slot_at slots.old slot).state.wish)) slots.old }
    ensures many { length slots.new ≡ length slots.old }
{
    let own = slots.look(looks, slot);
    if own.owner() != Some(ordinal) {
        return Some(OBJECT_ACCESS_DENIED);
    }
    let Some(status) = status else {
        return Some(TYPE_INCONSISTENT);
    };
    if status && !may_begin(domain, book, own.wish()) {
        return Some(VALUE_INVALID);
    }
    slots.set_status(looks, slot, status, now);
    None
}

/// Whether a wish may be enabled, and its data set is there.
fn may_begin(domain: &Visible, book: &SetBook, wish: &Wish) -> bool
    ensures { (table : OwnTable) → table.domain ≡ domain.now → result
        ≡ (wishes.may_enable wish.now
        && is_some (wished_members table (members_in book.now.sets) wish.now)) }
{
    may_enable(wish) && is_wished_there(domain, book, wish)
}

/// Whether the data set of a wish is there.
fn is_wished_there(domain: &Visible, book: &SetBook, wish: &Wish) -> bool
    ensures { (table : OwnTable) → table.domain ≡ domain.now → result
        ≡ is_some (wished_members table (members_in book.now.sets) wish.now) }
{
    if wish.set_domain != *domain {
        return false;
    }
    book.members(&wish.set_name).is_some()
}
