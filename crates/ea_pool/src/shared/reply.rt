//! The outcomes of pushes and pops on a shared pool.
use crate::heap::entry::Entry;

/// Why a push failed, with the entry.
#[derive(Clone, Copy, PartialEq, Eq, Debug)]
pub enum PushRefused {
    /// Each try found its heap out, or lost it to another seat.
    Busy(Entry),
    /// Memory for the heap was refused.
    OutOfMemory(Entry),
}

/// The outcome of a pop.
#[derive(Clone, Copy, PartialEq, Eq, Debug)]
pub enum Popped {
    /// The entry that was popped.
    Entry(Entry),
    /// Neither of the two heaps had an entry.
    Empty,
    /// One of the two heaps was out, or was lost to another seat.
    Busy,
}

/// Why entries stay in a batch.
#[derive(Clone, Copy, PartialEq, Eq, Debug)]
pub enum PushAllRefused {
    /// Each try found its heap out, or lost it to another seat.
    Busy,
    /// Memory for the heap was refused.
    OutOfMemory,
}

/// The outcome of a pop of several entries.
#[derive(Clone, Copy, PartialEq, Eq, Debug)]
pub enum PoppedSome {
    /// At least one entry was popped.
    Entries,
    /// Neither of the two heaps had an entry.
    Empty,
    /// One of the two heaps was out, or was lost to another seat.
    Busy,
}
