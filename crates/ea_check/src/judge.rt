//! The verdict on a report of the right form.

pub mod canonical_walk;
pub mod part;
pub mod support;
pub mod verdict;
pub mod walk_sources;
