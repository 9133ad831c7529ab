//! What the files of a command give: a network with its travel times and the problems that are asked, or the first fault.
#![tactic(auto)]

mod answer_fault;
mod departures;
mod file_fault;
mod file_readers;
mod files;
mod memory_texts;
mod parallel_readers;
mod road;

pub use answer_fault::AnswerFault;
pub use departures::{Schedule, departures_fit, pair_queries, run_queries};
pub use file_fault::{FileFault, FileWord};
pub use file_readers::read_fault_of;
pub use files::{
    CheckFiles, ExtraLists, OptionalFiles, PairFiles, RunFiles, read_extras, read_pairs, read_run,
};
pub use memory_texts::road_of_texts;
pub use parallel_readers::{read_check_by, read_run_by};
pub use road::{Road, UnindexedRoad, timetables_law};
