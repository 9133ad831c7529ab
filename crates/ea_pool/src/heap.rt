//! Entries, and the kinds of heap: binary heaps and buckets.

pub mod batch;
pub mod buckets;
pub mod entry;
pub mod entry_heap;
pub mod least_heap;
pub mod window;
