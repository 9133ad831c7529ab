//! The search of a pair that is led by bounds of the travel time to the target.
#![tactic(auto)]

mod frontier;
mod guide;
mod potential;
mod search;
mod seek;

pub use guide::{Guide, Led, lead};
