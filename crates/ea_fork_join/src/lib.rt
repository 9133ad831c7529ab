//! Work on the parts of a row, by threads that one thread starts.
//!
//! One thread starts all others. The calls of `std::thread` halve the slice, so that two threads start others
//! at the same moment. Linux often puts these on one processor and leaves them there for up to 30 ms while
//! another is idle.
#![tactic(auto)]

mod beside_join;
mod rows;

pub use beside_join::{for_each_chunk_mut_beside, for_each_mut_beside};
pub use rows::for_each_mut;

/// The most threads that `for_each_mut` starts.
pub const MOST_THREADS: usize = 64;
