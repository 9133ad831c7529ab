//! The words of a pool, their layout, and its limits.
use ea_base::HORIZON;

/// The word of an empty heap that is at home. It is above each time.
pub const EMPTY: u64 = HORIZON + 1;

/// The word of a heap that is out with a seat.
pub const OUT: u64 = HORIZON + 2;

/// The most heaps: enough for the most workers with the most heaps each.
pub const MOST_IN_POOL: usize = 128;

/// The most entries of a batch.
pub const MOST_IN_BATCH: usize = 64;

/// The word of heap k is at index WORDS_APART * (k + 1). 16 words of 8 bytes are 128 bytes, so no two heaps'
/// words share a cache line. The words between are unused.
pub const WORDS_APART: usize = 16;
