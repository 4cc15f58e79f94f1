//! Tests of what no contract says and no command reaches, apart from the crates themselves, so that
//! none is proved a second time with its tests: connections over the loopback of this machine, the
//! system's clock, jobs in threads, and the shared turn over an object that adds amounts.
#![tactic(auto)]

mod adder;
#[cfg(test)]
mod clocks;
#[cfg(test)]
mod jobs;
#[cfg(test)]
mod leaping;
#[cfg(test)]
mod links;
#[cfg(test)]
mod listeners;
#[cfg(test)]
mod meeting;
#[cfg(test)]
mod opened;
#[cfg(test)]
mod steps;
#[cfg(test)]
mod turns;

pub use adder::{Adder, Amount, Refusal};
