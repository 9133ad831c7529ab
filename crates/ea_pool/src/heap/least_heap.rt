//! A binary heap.
ghost use Rattle.std.specs.Prelude.{◌≡◌, ◌<◌, [], ◌∷◌, length, List, map, MatchOption};
ghost use Rattle.std.specs.BinaryHeap.{IsHeap, heap_items};
ghost use Rattle.ea_pool.specs.Entries.{GoesInOrBack, SameEntries, IsLeastOf, times, least_key};

use crate::OutOfMemory;
use crate::heap::entry::Entry;
use crate::heap::entry_heap::{EntryHeap, OpenHeap, Slot};
use crate::shared::words::EMPTY;
use std::alloc::{AllocFailed, Allocator};
use std::cmp::Reverse;
use std::collections::BinaryHeap;
use std::marker::Model;

// Fills the struct, with the three words of a `BinaryHeap`, up to 128 bytes.
const PADDING: usize = 13;

/// A heap that pops its least entry. In contracts it is the list of its entries, in no promised order.
#[derive(Drop)]
pub struct LeastHeap<A: Allocator> {
    entries: BinaryHeap<Reverse<Entry>, A>,
    // Heaps are contiguous in a pool; the padding keeps two from sharing a cache line.
    apart: [u64; PADDING],
}

impl<A: Allocator> Model for LeastHeap<A> {
    ghost use Rattle.std.specs.Prelude.{List, map};
    ghost use Rattle.std.specs.BinaryHeap.{IsHeap, heap_items};
    ghost use Rattle.ea_pool.specs.declared.heap.entry.Entry.{Entry};
    ghost use Rattle.ea_pool.specs.Entries.{entry_order};

    ghost Value = { List Entry };

    ghost view = { λ h. map (λ r. r.0) (heap_items h.entries) };

    ghost invariant = { λ h. IsHeap (λ x y. entry_order y.0 x.0) (heap_items h.entries) };
}

impl<A: Allocator> LeastHeap<A> {
    /// An empty heap. Takes no memory.
    pub fn new(alloc: A) -> LeastHeap<A>
        ensures { result ≡ [] }
    {
        LeastHeap {
            entries: BinaryHeap::new(alloc),
            apart: [0; PADDING],
        }
    }

    /// The number of entries.
    pub fn len(&self) -> usize
        ensures { result ≡ length self.now }
    {
        self.entries.len()
    }

    /// Adds an entry. Returns it if memory was refused.
    pub fn push(&mut self, entry: Entry) -> Result<(), Entry>
        ensures { GoesInOrBack result entry self.old self.new }
    {
        match self.entries.push(Reverse(entry)) {
            Ok(()) => Ok(()),
            Err(refused) => {
                let AllocFailed {
                    value: Reverse(back),
                } = refused;
                Err(back)
            }
        }
    }

    /// Pops the least entry.
    pub fn pop(&mut self) -> Option<Entry>
        ensures { MatchOption result ((self.old ≡ []) × (self.new ≡ []))
            (λ least. IsLeastOf least self.old × SameEntries self.old (least ∷ self.new)) }
    {
        match self.entries.pop() {
            Some(Reverse(least)) => Some(least),
            None => None,
        }
    }

    /// The least key.
    pub fn least_key(&self) -> Option<u64>
        ensures key { result ≡ least_key self.now }
        ensures least { MatchOption result (self.now ≡ []) (λ key. (least : Entry)
            × (least.key ≡ key) × IsLeastOf least self.now × (0 < times least self.now)) }
    {
        match self.entries.peek() {
            Some(Reverse(least)) => Some(least.key),
            None => None,
        }
    }
}

impl<A: Allocator> EntryHeap for LeastHeap<A> {
    ghost use Rattle.ea_pool.specs.Kinds.{Least};

    ghost kind = { Least };

    ghost entries = { λ h. h };

    fn add_entry(&mut self, entry: Entry) -> Result<(), Entry> {
        self.push(entry)
    }

    fn take_entry(&mut self) -> Option<Entry> {
        self.pop()
    }

    fn is_spent(&self) -> bool {
        false
    }

    fn word(&self) -> u64 {
        match self.least_key() {
            Some(key) => key,
            None => EMPTY,
        }
    }
}

impl<A: Allocator> OpenHeap<A> for LeastHeap<A> {
    fn empty(alloc: A, _width: u64) -> Result<LeastHeap<A>, OutOfMemory> {
        Ok(LeastHeap::new(alloc))
    }
}

impl<A: Allocator> Slot<LeastHeap<A>> {
    /// The least key.
    pub(crate) fn least_key(&self) -> Option<u64>
        ensures key { result ≡ least_key self.now }
    {
        self.heap.least_key()
    }
}
