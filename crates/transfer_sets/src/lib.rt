//! Transfer sets: what a peer wishes of one, and when its reports are due (IEC 60870-6-503, DS
//! transfer sets).
#![tactic(auto)]

mod bank;
mod due_index;
mod due_tree;
mod laws;
mod next_due;
mod noted;
mod parts;
mod reading;
mod slot;
mod wish;
mod writing;

pub use bank::{OwnSlot, SlotBank};
pub use due_index::DueIndex;
pub use laws::{
    due_conditions_last, due_indexes_last, due_indexes_turn, due_is_one_number, next_moments_last,
    shown_wishes_are_read, slots_follow_their_moves,
};
pub use look_count::{LOOK_LIMIT, Looks};
pub use next_due::DUE_LIMIT;
pub use noted::Noted;
pub use reading::read_wish;
pub use slot::{NOTED_LIMIT, Slot};
pub use wish::{
    CHANGE, EXTERNAL, INTEGRITY, INTERVAL, NUMBER_LIMIT, OPERATOR, Wish, WishFault, base_of,
    may_enable,
};
pub use writing::wish_data;
