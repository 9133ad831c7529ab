//! Pushing the fresh entries of a worker.
ghost use Rattle.ea_engine.specs.Equipped.{MayPush, PushesFresh};

use ea_pool::{Batch, EntryHeap, Pool, PoolSeat};
use ea_road::Known;
use rand_core::Rng;
use std::alloc::Global;

/// Draws a word and pushes all fresh entries into one heap. Entries that the pool refuses stay. Returns
/// whether it took all.
pub fn push_fresh<K: Known, E: EntryHeap, R: Rng>(
    pool: &Pool<K, Global, E>,
    pool_seat: &mut PoolSeat<K, Global, E>,
    rng: &mut R,
    fresh: &mut Batch,
) -> bool
    requires may { MayPush K.is_known pool.now pool_seat.old fresh.old.items }
    ensures { PushesFresh K.is_known pool.now pool_seat.old pool_seat.new
        (R.stream rng.old) (R.stream rng.new) fresh.old.items fresh.new.items result }
{
    let word = rng.next_u64();
    match pool.push_all_as(pool_seat, word, fresh) {
        Ok(()) => true,
        Err(_) => fresh.is_empty(),
    }
}
