//! Reports of many problems by searches of one thread, made ahead by several threads and sent in order.
#![tactic(auto)]

mod draft;
mod hand_over;
mod lane;
mod one_search;
mod parallel_reports;
mod progress;
mod round;
mod search_road;
mod searching;
mod sheet;

pub use parallel_reports::{Watched, report_ahead};
pub use progress::Progress;
pub use search_road::{SearchNetwork, SearchRoad};
pub use searching::{Aids, Searching, few_chosen};
