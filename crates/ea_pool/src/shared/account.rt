//! What a seat did and knows. It exists in proofs alone: no value of these types is made.

use crate::heap::entry::Entry;
use std::collections::LinkedList;

/// A seat's account: its shares, and the entries that it pushed and popped, the newest first. A join appends
/// the other seat's.
pub struct Account {
    /// How many of the pool's 64 shares the seat has.
    pub shares: u32,
    /// The entries pushed by this seat and by those that it joined.
    pub pushed: LinkedList<Entry>,
    /// The entries popped by this seat and by those that it joined.
    pub popped: LinkedList<Entry>,
}

/// A heap that a seat holds, and its content when it was taken.
pub struct Held {
    pub heap: u64,
    pub content: LinkedList<Entry>,
}

/// The heap that a seat took last with its content then, and the heaps that the seat had inspected before,
/// each with its word.
pub struct LastTake {
    pub heap: u64,
    pub content: LinkedList<Entry>,
    pub seen: LinkedList<(u64, u64)>,
}

/// All that a seat knows between two steps: its account, the heap that it holds, the heaps that it inspected
/// since its last step of another kind, each with its word, and the heap that it took last.
pub struct SeatMemory {
    pub shares: u32,
    pub pushed: LinkedList<Entry>,
    pub popped: LinkedList<Entry>,
    pub held: Option<Held>,
    pub seen: LinkedList<(u64, u64)>,
    pub last_take: Option<LastTake>,
}
