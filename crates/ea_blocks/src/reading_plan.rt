//! How the texts of devices are read.
ghost use Rattle.std.specs.Prelude.{◌<◌};

use std::alloc::Global;

/// How the text of a device is read. The result is the same for each.
#[derive(Clone, Copy)]
pub struct Way {
    /// The allocator.
    pub alloc: Global,
    /// The most threads.
    pub threads: usize,
    /// The length of a block in bytes, at least 1. Two blocks are in memory at a time.
    pub size: usize,
    /// About how many bytes a thread reads at a time. One thread reads less than twice as many.
    pub piece: usize,
}

/// The length of a block that one thread fills and reads.
const BLOCK: usize = 1_048_576;

/// The length of a block that is read while the next one is filled.
const LARGE_BLOCK: usize = 2_097_152;

/// About how many bytes a thread reads at a time.
const PIECE_BYTES: usize = 65_536;

/// How a device is read by this number of threads.
pub fn way_of(alloc: Global, threads: usize) -> Way
    ensures { 0 < result.size }
{
    let size = if threads < 2 { BLOCK } else { LARGE_BLOCK };
    Way {
        alloc,
        threads,
        size,
        piece: PIECE_BYTES,
    }
}
