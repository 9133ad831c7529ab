//! Heaps for one thread.
ghost use Rattle.std.specs.Prelude.{◌≡◌, ◌+◌, ◌≤◌, [], length, replicate, IfOk, IfErr, IfSome, OnOk, MatchOption};
ghost use Rattle.ea_pool.specs.Draws.{first_draw, second_draw};
ghost use Rattle.ea_machine.specs.Totals.{total};
ghost use Rattle.ea_pool.specs.Solos.{content, lesser, lesser_heap, AddsTo, TakesFrom, rank_error, RankIsBounded};

use crate::OutOfMemory;
use crate::draws::{draw_first, draw_second};
use crate::heap::entry::Entry;
use crate::heap::least_heap::LeastHeap;
use crate::shared::opening::empty_heaps;
use crate::shared::words::MOST_IN_POOL;
use ea_base::LEAST_HEAPS;
use std::alloc::{Allocator, Global};
use std::marker::Model;

/// Heaps of one thread. In contracts it is the list of their contents.
#[derive(Drop)]
pub struct Solo<A: Allocator = Global> {
    heaps: Vec<LeastHeap<A>, A>,
}

impl<A: Allocator> Model for Solo<A> {
    ghost use Rattle.std.specs.Prelude.{◌≤◌, List, length};
    ghost use Rattle.ea_base.specs.declared.limits.TheConstants.{LEAST_HEAPS};
    ghost use Rattle.ea_pool.specs.declared.heap.entry.Entry.{Entry};
    ghost use Rattle.ea_pool.specs.declared.shared.words.TheConstants.{MOST_IN_POOL};

    ghost Value = { List (List Entry) };

    ghost view = { λ s. s.heaps.items };

    ghost invariant = { λ s. (LEAST_HEAPS ≤ length s.heaps.items)
        × (length s.heaps.items ≤ MOST_IN_POOL) };
}

// The heap with the smaller least key; at a tie, the one with the lower number.
fn choose(i: usize, x: Option<u64>, j: usize, y: Option<u64>) -> usize
    ensures { result ≡ lesser i x j y }
{
    match (x, y) {
        (Some(x), Some(y)) => {
            if y < x {
                j
            } else if x == y {
                i.min(j)
            } else {
                i
            }
        }
        (None, Some(_)) => j,
        (Some(_), None) | (None, None) => i,
    }
}

impl<A: Allocator + Copy> Solo<A> {
    /// This many empty heaps, 2 to 128. Fails only if memory is refused.
    pub fn new(alloc: A, heaps: usize) -> Result<Solo<A>, OutOfMemory>
        requires { (LEAST_HEAPS ≤ heaps) × (heaps ≤ MOST_IN_POOL) }
        ensures { IfOk result (λ solo. solo ≡ replicate heaps []) }
    {
        let heaps = empty_heaps(alloc, heaps)?;
        Ok(Solo { heaps })
    }
}

impl<A: Allocator> Solo<A> {
    /// Adds the entry to the heap `word mod H`. Returns it if memory was refused; then nothing has changed.
    pub fn push_at(&mut self, word: u64, entry: Entry) -> Result<(), Entry>
        ensures pushed { OnOk result (AddsTo
            (first_draw (length self.old) word) entry self.old self.new) }
        ensures refused { IfErr result (λ back. (back ≡ entry) × (self.new ≡ self.old)) }
    {
        let k = draw_first(self.heaps.len(), word);
        let heap = &mut self.heaps[k];
        heap.push(entry)
    }

    /// Inspects the two heaps that the words draw, and pops the least entry of the one with the smaller least
    /// key; at a tie, of the one with the lower number. None exactly if neither has an entry. The rank error
    /// of the key is at most the number of entries in the other heaps, so 0 with two heaps.
    pub fn pop_at(&mut self, first: u64, second: u64) -> Option<Entry>
        ensures taken { MatchOption result
            ((content self.old (first_draw (length self.old) first) ≡ [])
            × (content self.old (second_draw (length self.old) first second) ≡ [])
            × (self.new ≡ self.old))
            (λ least. TakesFrom
            (lesser_heap self.old (first_draw (length self.old) first)
            (second_draw (length self.old) first second))
            least self.old self.new) }
        ensures rank { IfSome result (λ least. rank_error least.key self.old
            + (length (content self.old (first_draw (length self.old) first))
            + length (content self.old (second_draw (length self.old) first second)))
            ≤ total length self.old) }
        ensures rank_of_two { length self.old ≡ 2
            → IfSome result (λ least. rank_error least.key self.old ≡ 0) }
    {
        let heaps = self.heaps.len();
        let i = draw_first(heaps, first);
        let j = draw_second(heaps, first, second);
        let k = choose(i, self.heaps[i].least_key(), j, self.heaps[j].least_key());
        let heap = &mut self.heaps[k];
        heap.pop()
    }

    /// The number of entries in all heaps.
    pub fn len(&self) -> u128
        ensures { result ≡ total length self.now }
    {
        let mut sum = 0;
        for heap in &self.heaps {
            sum += heap.len() as u128;
        }
        sum
    }
}

/// A law: the rank error of a pop is at most the number of entries in the heaps that it did not inspect.
pub fn rank_is_bounded()
    ensures { RankIsBounded }
{}
