//! A list of lines that only grows.
#![tactic(auto)]

mod pages;

pub use pages::Pages;
