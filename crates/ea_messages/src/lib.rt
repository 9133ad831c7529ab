//! What people are told: the line and exit status of each outcome, what a fault means, the formats on one page.
#![tactic(auto)]

mod advice;
mod fault_pages;
mod formats;
mod line_forms;
mod opened;
mod os_reasons;
mod outcome_lines;

pub use advice::{Encoding, encoding_of};
pub use fault_pages::{FAULTS, Fault, fault_named};
pub use formats::FORMATS;
pub use line_forms::wanted_of_line;
pub use opened::Opened;
pub use os_reasons::reason_of;
pub use outcome_lines::{Outcome, say, show};
