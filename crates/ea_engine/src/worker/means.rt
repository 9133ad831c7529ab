//! What a worker owns.

use ea_labels::LabelSeat;
use ea_pool::{EntryHeap, LeastHeap, PoolSeat};
use ea_road::Known;
use std::alloc::Global;

/// The two seats of a worker.
#[derive(Drop)]
pub struct Seats<K: Known, E: EntryHeap = LeastHeap<Global>> {
    pub label_seat: LabelSeat<K>,
    pub pool_seat: PoolSeat<K, Global, E>,
}

/// What a worker owns while it runs: its seats and its generator.
#[derive(Drop)]
pub struct Means<K: Known, R, E: EntryHeap = LeastHeap<Global>> {
    pub label_seat: LabelSeat<K>,
    pub pool_seat: PoolSeat<K, Global, E>,
    pub rng: R,
}
