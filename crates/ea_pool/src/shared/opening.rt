//! Opening and closing a pool.
ghost use Rattle.std.specs.Prelude.{◌≡◌, ◌+◌, ◌≤◌, [], IfOk, replicate};
ghost use Rattle.ea_pool.specs.Pools.{IsClosed, IsNewPool};
ghost use Rattle.ea_pool.specs.Seats.{account_of, heaps_of, IsSeatOf};

use crate::heap::entry_heap::{EntryHeap, OpenHeap, Slot};
use crate::heap::least_heap::LeastHeap;
use crate::shared::closed_pool::ClosedPool;
use crate::shared::pool::Pool;
use crate::shared::seat::PoolSeat;
use crate::shared::words::{EMPTY, MOST_IN_POOL, WORDS_APART};
use crate::{OutOfMemory, SHARES};
use atomic_table::Table;
use ea_base::LEAST_HEAPS;
use ea_road::Known;
use std::alloc::Allocator;
use std::marker::PhantomData;

pub(crate) fn empty_heaps<A: Allocator + Copy>(
    alloc: A,
    heaps: usize,
) -> Result<Vec<LeastHeap<A>, A>, OutOfMemory>
    ensures { IfOk result (λ row. row.items ≡ replicate heaps []) }
{
    let mut row = Vec::with_capacity(alloc, heaps)?;
    for _ in 0..heaps {
        row.push(LeastHeap::new(alloc))?;
    }
    Ok(row)
}

// Slots with an empty heap each.
fn empty_slots<A: Allocator + Copy, H: OpenHeap<A>>(
    alloc: A,
    heaps: usize,
    width: u64,
) -> Result<Vec<Slot<H>, A>, OutOfMemory>
    ensures { IfOk result (λ row. row.items ≡ replicate heaps []) }
{
    let mut row = Vec::with_capacity(alloc, heaps)?;
    for _ in 0..heaps {
        let heap = H::empty(alloc, width)?;
        row.push(Slot::new(heap))?;
    }
    Ok(row)
}

impl<K: Known, A: Allocator + Copy> Pool<K, A> {
    /// An empty pool of this many heaps, 2 to 128, and its first seat, which has all 64 shares. Reserves the
    /// memory for `close`, and none for entries. Fails only if memory is refused.
    pub fn open(alloc: A, heaps: usize) -> Result<(Pool<K, A>, PoolSeat<K, A>), OutOfMemory>
        requires { (LEAST_HEAPS ≤ heaps) × (heaps ≤ MOST_IN_POOL) }
        ensures { IfOk result (λ made. IsNewPool heaps made.0 made.1) }
    {
        Pool::open_with(alloc, heaps, 0)
    }
}

impl<K: Known, A: Allocator + Copy, H: OpenHeap<A>> Pool<K, A, H> {
    /// Like `open`, with heaps of any kind. `width` is about the width of windows of times, for heaps that
    /// have windows.
    pub fn open_with(
        alloc: A,
        heaps: usize,
        width: u64,
    ) -> Result<(Pool<K, A, H>, PoolSeat<K, A, H>), OutOfMemory>
        requires { (LEAST_HEAPS ≤ heaps) × (heaps ≤ MOST_IN_POOL) }
        ensures { IfOk result (λ made. IsNewPool heaps made.0 made.1) }
    {
        let words = Vec::from_elem(alloc, EMPTY, WORDS_APART * (heaps + 1))?;
        let slots = empty_slots(alloc, heaps, width)?;
        let spare = Vec::with_capacity(alloc, heaps)?;
        let Ok((table, seat)) = Table::new(alloc, words.as_slice(), slots, &heaps) else {
            return Err(OutOfMemory);
        };
        let pool = Pool {
            table,
            heaps,
            spare,
        };
        let seat = PoolSeat {
            seat,
            shares: SHARES,
            known: PhantomData,
            memory: PhantomData,
        };
        Ok((pool, seat))
    }
}

impl<K: Known, A: Allocator, H: EntryHeap> Pool<K, A, H> {
    /// Closes the pool, if the seat has all 64 shares, so no other seat is live. What the account pushed is
    /// what it popped and what is left.
    pub fn close(self, seat: PoolSeat<K, A, H>) -> ClosedPool<A, H>
        requires seat { IsSeatOf self seat }
        requires all { (account_of seat).shares ≡ SHARES }
        ensures { IsClosed K.is_known H.kind (heaps_of self) result (account_of seat) }
    {
        let Pool {
            table,
            heaps,
            spare: mut row,
        } = self;
        let PoolSeat {
            seat,
            shares: _,
            known: _,
            memory: _,
        } = seat;
        let mut closed = table.close_with(seat);
        for k in 0..heaps {
            row.push_reserved(closed.take(k));
        }
        closed.free();
        ClosedPool { heaps: row }
    }
}
