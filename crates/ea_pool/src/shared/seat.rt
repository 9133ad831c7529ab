//! The right to push to and pop from one pool.
ghost use Rattle.std.specs.Prelude.{◌≡◌};
ghost use Rattle.ea_pool.specs.Seats.{account_of};

use crate::heap::entry_heap::{EntryHeap, Slot};
use crate::heap::least_heap::LeastHeap;
use crate::shared::account::SeatMemory;
use std::alloc::{Allocator, Global};
use std::marker::{Model, PhantomData};

pub(crate) type Seat<H> = atomic_table::Seat<Slot<H>, SeatMemory>;

/// The right to step on one pool. In contracts it is the identity of the table, the seat's account (its
/// shares, and what it pushed and popped), the words that it saw last, and the heap that it took last.
#[derive(Drop)]
pub struct PoolSeat<K, A: Allocator = Global, H: EntryHeap = LeastHeap<A>> {
    pub(crate) seat: Seat<H>,
    pub(crate) shares: u32,
    pub(crate) known: PhantomData<K>,
    pub(crate) memory: PhantomData<A>,
}

impl<K, A: Allocator, H: EntryHeap> Model for PoolSeat<K, A, H> {
    ghost use Rattle.std.specs.Prelude.{◌≡◌, ◌≤◌};
    ghost use Rattle.ea_base.specs.declared.limits.TheConstants.{SHARES};
    ghost use Rattle.ea_pool.specs.Pools.{books, Rests};
    ghost use Rattle.ea_pool.specs.Seats.{SeatView};

    ghost Value = { SeatView };

    ghost view = { λ s. record {
      table = s.seat.table_id;
      account = books s.seat.me.0;
      seen = s.seat.me.0.seen;
      last_take = s.seat.me.0.last_take;
    } };

    ghost invariant = { λ s. Rests s.seat.me × (s.shares ≡ s.seat.me.0.shares) × (s.shares ≤ SHARES) };
}

impl<K, A: Allocator, H: EntryHeap> PoolSeat<K, A, H> {
    /// How many of the pool's 64 shares the seat has, at least 1.
    pub fn shares(&self) -> u32
        ensures { result ≡ (account_of self.now).shares }
    {
        self.shares
    }
}
