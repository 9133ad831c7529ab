//! A network whose nodes are renumbered so that neighbours are near, and searches on it in the original numbers.
#![tactic(auto)]

mod clusters;
mod given_order;
mod laid_query;
mod laid_search;
pub mod laws;
mod layout;
mod link_copy;
mod order;
mod walk_copy;
mod written;

pub use laid_search::LaidSearch;
pub use layout::Layout;
