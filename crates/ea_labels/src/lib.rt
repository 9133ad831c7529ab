//! Labels that threads share: the least time of each node.
//!
//! A node has one atomic word, which is only lowered.
#![tactic(auto)]

mod labels;
mod laws;
mod offered;
mod record;
mod rules;
mod seat;

pub use ea_base::SHARES;
pub use labels::Labels;
pub use laws::{every_run_is_lawful, no_label_is_the_last_number};
pub use offered::Offered;
pub use record::{Bound, Lowering, SeatRecord};
pub use seat::LabelSeat;
pub use std::alloc::AllocError as OutOfMemory;
