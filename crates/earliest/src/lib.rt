//! From files to reports: the calls that the program makes.
#![tactic(auto)]

mod ahead;
mod answers;
mod checks;
mod commands;
pub mod laws;
mod preparing;
mod reports;
mod run_road;
mod solver_choice;
mod totals;

pub use answers::{answer, answer_pairs};
pub use checks::check_report;
pub use commands::{Performed, perform};
pub use ea_base::{Direction, Silent, Watch};
pub use ea_check::CheckFault;
pub use ea_load::{AnswerFault, FileFault, FileWord, OptionalFiles};
pub use ea_messages::{Opened, Outcome, say, show};
pub use ea_options::{
    Allowed, BadValue, Command, CommandFault, RunOptions, asks_to_explain, bad_value_of,
};
pub use ea_rank_command::rank_report;
pub use ea_report::Totals;
