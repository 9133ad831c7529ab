//! Recorded runs of one thread, and the rank errors of their pops.
#![tactic(auto)]

mod event;
mod fault;
pub mod laws;
mod meter;
mod moves;
mod places;
mod run;
mod summary;
mod tally;
mod turns;

pub use ea_road::OutOfMemory;
pub use event::{Event, Record};
pub use fault::RankFault;
pub use meter::ranks;
pub use summary::Summary;
pub use turns::{record_run, record_run_by};
