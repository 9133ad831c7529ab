//! The bucket queue, and the searches that pop from it.

pub mod bucket_search;
pub mod candidates;
pub mod frontier;
pub mod offer_count;
pub mod ordered_finish;
