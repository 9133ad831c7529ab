//! Unordered entries with a lower bound of their times.
ghost use Rattle.std.specs.Prelude.{◌≡◌, ◌↔◌, [], ◌∷◌, ◌++◌, IsTrue, List, true, false, length, MatchOption};
ghost use Rattle.ea_pool.specs.Windows.{IsFloorOf};
ghost use Rattle.ea_pool.specs.declared.heap.entry.Entry.{Entry as Inside};

use crate::heap::entry::Entry;
use crate::shared::words::EMPTY;
use ea_base::HORIZON;
use std::alloc::Allocator;
use std::marker::Model;

/// A list of entries, the newest last.
#[derive(Drop)]
pub(crate) struct Window<A: Allocator> {
    entries: Vec<Entry, A>,
    /// A lower bound of the keys; EMPTY exactly if there is no entry.
    floor: u64,
}

impl<A: Allocator> Model for Window<A> {
    ghost use Rattle.std.specs.Prelude.{List};
    ghost use Rattle.ea_pool.specs.declared.heap.entry.Entry.{Entry};
    ghost use Rattle.ea_pool.specs.Windows.{IsFloorOf};

    ghost Value = { List Entry };

    ghost view = { λ w. w.entries.items };

    ghost invariant = { λ w. IsFloorOf w.floor w.entries.items };
}

impl<A: Allocator> Window<A> {
    /// An empty list. Takes no memory.
    pub(crate) fn new(alloc: A) -> Window<A>
        ensures { result ≡ [] }
    {
        Window {
            entries: Vec::new(alloc),
            floor: EMPTY,
        }
    }

    /// The number of entries.
    pub(crate) fn len(&self) -> usize
        ensures { result ≡ length self.now }
    {
        self.entries.len()
    }

    /// Whether there is no entry.
    pub(crate) fn is_empty(&self) -> bool
        ensures { IsTrue result ↔ (self.now ≡ []) }
    {
        self.entries.is_empty()
    }

    /// A lower bound of the keys; EMPTY exactly if there is no entry.
    pub(crate) fn floor(&self) -> u64
        ensures { IsFloorOf result self.now }
    {
        self.floor
    }

    /// Appends an entry. Returns false if memory was refused; then nothing changed.
    pub(crate) fn push(&mut self, entry: Entry) -> bool
        ensures pushed { result ≡ true → self.new ≡ self.old ++ entry ∷ [] }
        ensures refused { result ≡ false → self.new ≡ self.old }
    {
        let floor = self.floor.min(entry.key.min(HORIZON));
        match self.entries.push(entry) {
            Ok(()) => {
                self.floor = floor;
                true
            }
            Err(_) => false,
        }
    }

    /// The newest entry.
    pub(crate) fn last(&self) -> Option<Entry>
        ensures { MatchOption result (self.now ≡ [])
            (λ entry. (before : List Inside) × (self.now ≡ before ++ entry ∷ [])) }
    {
        self.entries.last().copied()
    }

    /// Takes the newest entry.
    pub(crate) fn pop(&mut self) -> Option<Entry>
        ensures { MatchOption result ((self.old ≡ []) × (self.new ≡ []))
            (λ entry. self.old ≡ self.new ++ entry ∷ []) }
    {
        let entry = self.entries.pop();
        if self.entries.is_empty() {
            self.floor = EMPTY;
        }
        entry
    }
}
