//! Audits: whether two runs of a node were the same for one of its neighbours, and what it was
//! answered then in both.
#![tactic(auto)]

mod items;
mod laws;
mod owns;

pub use items::Items;
pub use laws::{
    answers_come_of_watches, audits_tell_the_first_difference, equal_runs_are_answered_alike,
    items_have_one_text, watches_show_views,
};
pub use owns::own_equal;
