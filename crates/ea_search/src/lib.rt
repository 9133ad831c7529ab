//! The search of one thread: open nodes in buckets of times, and the finishing pass that makes labels least.
#![tactic(auto)]

mod buckets;
mod finishing_pass;
mod labels;
mod link;
mod log;
mod prefetch;
mod queue;

pub use buckets::bucket_search::{search, search_farther, search_near};
pub use buckets::frontier::{Frontier, empty_lists};
pub use buckets::offer_count::count_offers;
pub use buckets::ordered_finish::finish_in_order;
pub use finishing_pass::{Finished, finish, finish_noted};
pub use labels::logged_table::Noted;
pub use labels::reached_nodes::Listed;
pub use labels::table::{Reached, Table};
pub use link::{Link, NO_LEVEL, NO_LINK};
pub use log::note::{Note, note_in};
pub use log::word_list::Words;
pub use prefetch::{AHEAD, touch_heads, touch_nodes};
pub use queue::open::Open;
pub use queue::open_list::Opens;
pub use queue::waiting::Waiting;
