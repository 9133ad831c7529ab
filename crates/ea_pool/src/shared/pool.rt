//! Heaps that threads share without a lock, each in a slot of a table, behind a word. They are used as a
//! MultiQueue (Rihani, Sanders, Dementiev 2015): a push goes to a heap drawn at random, a pop to the better
//! of two.
use crate::heap::entry_heap::{EntryHeap, Slot};
use crate::heap::least_heap::LeastHeap;
use crate::shared::account::SeatMemory;
use crate::shared::rules::PoolRule;
use atomic_table::Table;
use ea_road::Known;
use std::alloc::{Allocator, Global};
use std::marker::Model;

/// Heaps that threads share by reference, each thread with its seat. The kind of heap is a parameter:
/// `LeastHeap`, which gives its least entry first, or `Buckets`. In contracts it is the identity of the table
/// and the number of heaps.
#[derive(Drop)]
pub struct Pool<K: Known, A: Allocator = Global, H: EntryHeap = LeastHeap<A>> {
    pub(crate) table: Table<Slot<H>, SeatMemory, usize, PoolRule<K, H>, A>,
    pub(crate) heaps: usize,
    // Reserved for the heaps, so that closing the pool takes no memory.
    pub(crate) spare: Vec<Slot<H>, A>,
}

impl<K: Known, A: Allocator, H: EntryHeap> Model for Pool<K, A, H> {
    ghost use Rattle.std.specs.Prelude.{◌≡◌, ◌+◌, ◌*◌, ◌≤◌};
    ghost use Rattle.std.specs.Vec.{vec_len, vec_capacity};
    ghost use Rattle.ea_base.specs.declared.limits.TheConstants.{LEAST_HEAPS};
    ghost use Rattle.ea_pool.specs.declared.shared.words.TheConstants.{MOST_IN_POOL, WORDS_APART};
    ghost use Rattle.ea_pool.specs.Seats.{PoolView};

    ghost Value = { PoolView };

    ghost view = { λ p. record { table = p.table.shared.table_id; heaps = p.heaps } };

    ghost invariant = { λ p. (p.table.shared.table_id.words ≡ WORDS_APART * (p.heaps + 1))
        × (p.table.shared.table_id.slots ≡ p.heaps) × (p.table.shared.key ≡ p.heaps)
        × (LEAST_HEAPS ≤ p.heaps) × (p.heaps ≤ MOST_IN_POOL)
        × (vec_len p.spare ≡ 0) × (p.heaps ≤ vec_capacity p.spare) };
}
