//! The horizon and the limits that more than one layer speaks of, each once.
ghost use Rattle.std.specs.Prelude.{◌≡◌, ◌-◌, ◌^◌};

/// The last time of all: 2^48 - 1. Times are whole numbers from 0 to it.
pub const HORIZON: u64 = 281_474_976_710_655;

/// The most nodes that a network has.
pub const MOST_NODES: u32 = 67_108_864;

/// The most arcs that a network has.
pub const MOST_ARCS: u32 = 268_435_456;

/// The most classes of travel times that a file announces, the plain one aside.
pub const MOST_CLASSES: u32 = 65_535;

/// The longest period, and the most that a travel time has beside the weight of its arc: 2^32.
pub const MOST_PERIOD: u64 = 4_294_967_296;

/// The most steps that a class of travel times has.
pub const MOST_STEPS: u32 = 65_536;

/// The most that a speed is, in thousandths of the full one: a thousand times the full one.
pub const MOST_SPEED: u64 = 1_000_000;

/// The most sources, or pairs, of one file and of one query.
pub const MOST_STARTS: u32 = 1_000_000;

/// The longest text that is read, in bytes: 2^33.
pub const MOST_BYTES: u64 = 8_589_934_592;

/// The most interruptions that reading one file, or writing one problem, bears.
pub const MOST_INTERRUPTIONS: u64 = 1000;

/// The most workers of a run.
pub const MOST_WORKERS: u32 = 16;

/// The most problems that are searched at once.
pub const MOST_AT_ONCE: u32 = 16;

/// The fewest heaps for each worker.
pub const LEAST_HEAPS: u32 = 2;

/// The most heaps for each worker.
pub const MOST_HEAPS: u32 = 8;

/// The shares of the first seat of a table of labels or of heaps.
pub const SHARES: u32 = 64;

/// The most turns that a worker is given.
pub const MOST_TURNS: u64 = 1_000_000_000;

/// The most entries that a worker takes from a heap, or gives to one, at once.
pub const MOST_BATCH: u32 = 64;

/// The most idle turns in a row that a worker bears.
pub const MOST_PATIENCE: u32 = 1_048_576;

/// The horizon is the last time of 48 bits, and the limits of files and networks are these.
pub fn limits_of_files_are_these()
    ensures horizon { HORIZON ≡ 2 ^ 48 - 1 }
    ensures nodes { MOST_NODES ≡ 2 ^ 26 }
    ensures arcs { MOST_ARCS ≡ 2 ^ 28 }
    ensures classes { MOST_CLASSES ≡ 2 ^ 16 - 1 }
    ensures period { MOST_PERIOD ≡ 2 ^ 32 }
    ensures steps { MOST_STEPS ≡ 2 ^ 16 }
    ensures speed { MOST_SPEED ≡ 1000000 }
    ensures starts { MOST_STARTS ≡ 1000000 }
    ensures bytes { MOST_BYTES ≡ 2 ^ 33 }
    ensures interruptions { MOST_INTERRUPTIONS ≡ 1000 }
{}

/// The limits of a run are these.
pub fn limits_of_runs_are_these()
    ensures workers { MOST_WORKERS ≡ 16 }
    ensures at_once { MOST_AT_ONCE ≡ 16 }
    ensures least_heaps { LEAST_HEAPS ≡ 2 }
    ensures heaps { MOST_HEAPS ≡ 8 }
    ensures shares { SHARES ≡ 64 }
    ensures turns { MOST_TURNS ≡ 1000000000 }
    ensures batch { MOST_BATCH ≡ 64 }
    ensures patience { MOST_PATIENCE ≡ 1048576 }
{}
