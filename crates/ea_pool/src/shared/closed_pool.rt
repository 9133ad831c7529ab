//! A pool that no thread shares any more.
ghost use Rattle.std.specs.Prelude.{◌≡◌, [], ◌∷◌, length, MatchOption, IfSome};
ghost use Rattle.ea_pool.specs.Entries.{SameEntries, HasLeastKey};
ghost use Rattle.ea_pool.specs.Left.{better as better_of, IsBestOf};

use crate::heap::entry::Entry;
use crate::heap::entry_heap::{EntryHeap, Slot};
use crate::heap::least_heap::LeastHeap;
use std::alloc::{Allocator, Global};
use std::marker::Model;

/// The entries left in a closed pool. In contracts it is the list of these, in no promised order.
#[derive(Drop)]
pub struct ClosedPool<A: Allocator = Global, H: EntryHeap = LeastHeap<A>> {
    pub(crate) heaps: Vec<Slot<H>, A>,
}

impl<A: Allocator, H: EntryHeap> Model for ClosedPool<A, H> {
    ghost use Rattle.std.specs.Prelude.{List};
    ghost use Rattle.ea_pool.specs.declared.heap.entry.Entry.{Entry};
    ghost use Rattle.ea_pool.specs.Entries.{gathered};

    ghost Value = { List Entry };

    ghost view = { λ c. gathered c.heaps.items };
}

// The better of the best heap so far and one more: its place and least key.
fn better(best: Option<(usize, u64)>, place: usize, key: Option<u64>) -> Option<(usize, u64)>
    ensures { result ≡ better_of best place key }
{
    match (best, key) {
        (_, None) => best,
        (None, Some(key)) => Some((place, key)),
        (Some((_, least)), Some(key)) => {
            if key < least {
                Some((place, key))
            } else {
                best
            }
        }
    }
}

// The heap with the least key of all: its place and that key.
fn best_heap<A: Allocator>(heaps: &[Slot<LeastHeap<A>>]) -> Option<(usize, u64)>
    ensures { IsBestOf heaps.now (length heaps.now) result }
{
    let mut best = None;
    for place in 0..heaps.len() {
        best = better(best, place, heaps[place].least_key());
    }
    best
}

impl<A: Allocator> ClosedPool<A> {
    /// Takes an entry with the least key of those left. None exactly if nothing is left; then every later
    /// call returns None.
    pub fn next(&mut self) -> Option<Entry>
        ensures taken { MatchOption result ((self.old ≡ []) × (self.new ≡ []))
            (λ entry. SameEntries self.old (entry ∷ self.new)) }
        ensures least { IfSome result (λ entry. HasLeastKey entry self.old) }
    {
        let Some((place, _)) = best_heap(self.heaps.as_slice()) else {
            return None;
        };
        let heap = &mut self.heaps[place];
        heap.pop()
    }
}

impl<A: Allocator, H: EntryHeap> ClosedPool<A, H> {
    /// Takes any entry that is left. None exactly if nothing is left; then every later call returns None.
    pub fn next_of_any(&mut self) -> Option<Entry>
        ensures { MatchOption result ((self.old ≡ []) × (self.new ≡ []))
            (λ entry. SameEntries self.old (entry ∷ self.new)) }
    {
        'emptied: for _ in 0..self.heaps.len() {
            let Some(heap) = self.heaps.last_mut() else {
                return None;
            };
            if let Some(entry) = heap.pop() {
                return Some(entry);
            }
            self.heaps.pop();
        }
        None
    }
}
