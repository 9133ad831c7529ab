//! The heaps of a pool, and the slots that hold them.
ghost use Rattle.std.specs.Prelude.{◌≡◌, [], List, IfOk, MatchOption};
ghost use Rattle.ea_pool.specs.Entries.{GoesInOrBack};
ghost use Rattle.ea_pool.specs.Kinds.{HeapKind, Shows, GivesOne, IsSpentAs};
ghost use Rattle.ea_pool.specs.Pools.{AreInTime};
ghost use Rattle.ea_pool.specs.declared.heap.entry.Entry.{Entry as Held};

use crate::OutOfMemory;
use crate::heap::entry::Entry;
use std::alloc::Allocator;
use std::marker::Model;

/// A heap of entries in a pool.
pub trait EntryHeap: Drop {
    /// What it promises of its words and of the entries that it gives.
    ghost kind: { HeapKind };

    /// Its entries, in no promised order.
    ghost entries: { Self → List Held };

    /// Adds an entry. Returns it if memory was refused.
    fn add_entry(&mut self, entry: Entry) -> Result<(), Entry>
        ensures { GoesInOrBack result entry (entries self.old) (entries self.new) };

    /// Pops an entry. None exactly if there is none.
    fn take_entry(&mut self) -> Option<Entry>
        ensures { MatchOption result ((entries self.old ≡ []) × (entries self.new ≡ []))
            (λ entry. GivesOne kind entry (entries self.old) (entries self.new)) };

    /// Whether a batch should end with the last entry that was popped.
    fn is_spent(&self) -> bool
        ensures { IsSpentAs kind result };

    /// Its word in a pool.
    fn word(&self) -> u64
        requires { AreInTime (entries self.now) }
        ensures { Shows kind result (entries self.now) };
}

/// A heap with which a pool can be opened.
pub trait OpenHeap<A: Allocator>: EntryHeap {
    /// An empty heap. `width` is about the width of its windows of times, if it has windows. Fails only if
    /// memory is refused.
    fn empty(alloc: A, width: u64) -> Result<Self, OutOfMemory>
        ensures { IfOk result (λ heap. Self.entries heap ≡ []) };
}

/// A heap in its slot. In contracts it is the list of its entries, in no promised order.
#[derive(Drop)]
pub struct Slot<H: EntryHeap> {
    pub(crate) heap: H,
}

impl<H: EntryHeap> Model for Slot<H> {
    ghost use Rattle.std.specs.Prelude.{List};
    ghost use Rattle.ea_pool.specs.declared.heap.entry.Entry.{Entry};

    ghost Value = { List Entry };

    ghost view = { λ s. H.entries s.heap };
}

impl<H: EntryHeap> Slot<H> {
    pub(crate) fn new(heap: H) -> Slot<H>
        ensures { result ≡ H.entries heap }
    {
        Slot { heap }
    }

    /// Adds an entry. Returns it if memory was refused.
    pub(crate) fn push(&mut self, entry: Entry) -> Result<(), Entry>
        ensures { GoesInOrBack result entry self.old self.new }
    {
        self.heap.add_entry(entry)
    }

    /// Pops an entry.
    #[inline(always)]
    pub(crate) fn pop(&mut self) -> Option<Entry>
        ensures { MatchOption result ((self.old ≡ []) × (self.new ≡ []))
            (λ entry. GivesOne H.kind entry self.old self.new) }
    {
        self.heap.take_entry()
    }

    /// Whether a batch should end with the last entry that was popped.
    pub(crate) fn is_spent(&self) -> bool
        ensures { IsSpentAs H.kind result }
    {
        self.heap.is_spent()
    }

    /// The word with which the heap is returned.
    pub(crate) fn word(&self) -> u64
        requires { AreInTime self.now }
        ensures { Shows H.kind result self.now }
    {
        self.heap.word()
    }
}
