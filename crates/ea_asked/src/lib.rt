//! Searches for some nodes, which end as soon as all of them are settled.
#![tactic(auto)]

mod arrays;
mod asked_search;
mod frontier;
mod nodes;
mod passed;
mod search;

pub use asked_search::AskedSearch;
pub use nodes::are_nodes;
