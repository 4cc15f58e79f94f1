//! A count of looks. Who looks at something is handed one, and can't make one: that is left to
//! crates that list this one.
#![tactic(auto)]

mod looks;

pub use looks::{LOOK_LIMIT, Looks, no_looks};
