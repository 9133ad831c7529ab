//! The checker of reports: whether a report is right, or its first fault.
#![tactic(auto)]

mod checking;
mod fault;
mod form;
mod judge;
pub mod laws;
mod lazy_network;
mod team;
mod text_in;

pub use checking::{check, check_stream, check_watched, is_checkable, skip_report};
pub use fault::CheckFault;
pub use lazy_network::LazyNetwork;
pub use team::Several;
