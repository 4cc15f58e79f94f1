//! The listing of what a peer offers, held against the table by which it should offer it: a calling
//! end that asks all names and their types.
#![tactic(auto)]

mod agenda;
mod differences;
mod discover;
mod end;
mod hearing;
mod laws;
mod listing;
mod noted;
mod pages;
mod run;
mod seen;

pub use asking_end as asking;
pub use discover::Discover;
pub use end::{ListingEnd, MOST_NAMES, Stage};
pub use laws::{answered_listings_finish, centre_names_differ, tables_list_themselves};
pub use listing::Listing;
pub use run::{listing_talk, run_discover};
