//! Rank errors of the runs that files ask for, from files to lines.
#![tactic(auto)]

mod ranking;

pub use ranking::{rank_report, rank_watched};
