//! Answers of one thread: arrivals and canonical walks, found by links from the log of a search.
#![tactic(auto)]

mod answer;
mod level_updates;
mod link_search;
mod log_links;
mod log_replay;
mod one_thread;
mod repair;
mod search;
mod ties;

pub use answer::Answer;
pub use link_search::{find_links, link_all, unwind, without_walks};
pub use one_thread::{arrivals_alone, arrivals_alone_by, solve_alone, solve_alone_by};
pub use search::Search;
