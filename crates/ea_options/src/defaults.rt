//! What an option is if it isn't given. The help names these values, too, and a test compares them.
ghost use Rattle.std.specs.Prelude.{◌≡◌};

/// The heaps for each worker.
pub const DEFAULT_HEAPS: u64 = 2;

/// The most turns of a worker.
pub const DEFAULT_TURNS: u64 = 1_000_000;

/// The seed of worker 0's random words.
pub const DEFAULT_SEED: u64 = 1;

/// The most entries that one of several workers takes from a heap, or gives to one, at once. One worker takes
/// them one by one.
pub const DEFAULT_BATCH: u64 = 32;

/// The workers that statistics and rank errors count.
pub const DEFAULT_COUNTED_WORKERS: u64 = 4;

/// The departure of the first source or pair.
pub const DEFAULT_DEPARTURE: u64 = 0;

/// How much later each next one is.
pub const DEFAULT_GAP: u64 = 0;

/// The values of options that aren't given are these.
pub fn defaults_are_these()
    ensures heaps { DEFAULT_HEAPS ≡ 2 }
    ensures turns { DEFAULT_TURNS ≡ 1000000 }
    ensures seed { DEFAULT_SEED ≡ 1 }
    ensures batch { DEFAULT_BATCH ≡ 32 }
    ensures counted { DEFAULT_COUNTED_WORKERS ≡ 4 }
    ensures departure { DEFAULT_DEPARTURE ≡ 0 }
    ensures gap { DEFAULT_GAP ≡ 0 }
{}
