//! The calls on a shared pool.
ghost use Rattle.std.specs.Prelude.{◌≡◌, ◌+◌, ◌*◌, ◌<◌, ◌++◌};
ghost use Rattle.ea_pool.specs.Pools.{Opened};
ghost use Rattle.ea_pool.specs.Draws.{first_draw, second_draw};
ghost use Rattle.ea_pool.specs.Replies.{IsPop, IsPush, MatchBusy};
ghost use Rattle.ea_pool.specs.Seats.{account_of, heaps_of, IsSeatOf};
ghost use Rattle.ea_pool.specs.Tries.{Missed, TookAtTry};

use crate::draws::{draw_first, draw_second};
use crate::heap::entry::Entry;
use crate::heap::entry_heap::EntryHeap;
use crate::shared::pool::Pool;
use crate::shared::reply::{Popped, PushRefused};
use crate::shared::rules::OneShare;
use crate::shared::seat::PoolSeat;
use ea_road::Known;
use std::alloc::Allocator;
use std::marker::PhantomData;

impl<K: Known, A: Allocator> Pool<K, A> {
    /// Inspects the two heaps that the words draw, and pops the least entry of the one with the smaller least
    /// key; at a tie, of the one with the lower number. `Empty` if neither has an entry; `Busy` if one was
    /// out, or was taken meanwhile. Then nothing has changed.
    pub fn pop_as(&self, seat: &mut PoolSeat<K, A>, first: u64, second: u64) -> Popped
        requires seat { IsSeatOf self.now seat.old }
        ensures seat { IsSeatOf self.now seat.new }
        ensures pops { IsPop K.is_known (heaps_of self.now)
            (first_draw (heaps_of self.now) first)
            (second_draw (heaps_of self.now) first second) seat.old seat.new result }
    {
        let i = draw_first(self.heaps, first);
        let j = draw_second(self.heaps, first, second);
        self.pop_of_two(&mut seat.seat, i, j)
    }
}

impl<K: Known, A: Allocator, H: EntryHeap> Pool<K, A, H> {
    /// Pushes to the first heap that it can take, trying each heap twice in turn from `word mod H` on. The
    /// entry has to be known, so its key is at most HORIZON. After `Busy` and `OutOfMemory` the pool's
    /// entries are unchanged, and the entry is returned.
    pub fn push_as(
        &self,
        seat: &mut PoolSeat<K, A, H>,
        word: u64,
        entry: Entry,
    ) -> Result<(), PushRefused>
        requires seat { IsSeatOf self.now seat.old }
        requires known { K.is_known entry.node entry.key }
        ensures seat { IsSeatOf self.now seat.new }
        ensures push { IsPush result (account_of seat.old) (account_of seat.new) entry }
        // Each of the 2H tries, in turn, found its heap out or failed to take it. Or after others missed, one
        // of the tries took its heap; the entry was pushed there, or memory was refused.
        ensures tried { MatchBusy result
            (Missed (heaps_of self.now) word (2 * heaps_of self.now) seat.old.seen seat.new.seen)
            (TookAtTry H.kind (heaps_of self.now) word seat.old.seen seat.new.last_take) }
    {
        self.push_from(&mut seat.seat, word, entry)
    }

    /// Moves one share to a new seat, which has pushed and popped nothing. The seat needs at least two.
    pub fn split(&self, seat: &mut PoolSeat<K, A, H>) -> PoolSeat<K, A, H>
        requires seat { IsSeatOf self.now seat.old }
        requires share { 1 < (account_of seat.old).shares }
        ensures seats { IsSeatOf self.now seat.new × IsSeatOf self.now result }
        ensures left { ((account_of seat.new).shares + 1 ≡ (account_of seat.old).shares)
            × ((account_of seat.new).pushed ≡ (account_of seat.old).pushed)
            × ((account_of seat.new).popped ≡ (account_of seat.old).popped) }
        ensures new { Opened 1 (account_of result) }
    {
        let other = self.table.shared.split_seat::<OneShare>(&mut seat.seat);
        seat.shares -= 1;
        PoolSeat {
            seat: other,
            shares: 1,
            known: PhantomData,
            memory: PhantomData,
        }
    }

    /// Adds the other seat's shares and account.
    pub fn join(&self, seat: &mut PoolSeat<K, A, H>, other: PoolSeat<K, A, H>)
        requires seats { IsSeatOf self.now seat.old × IsSeatOf self.now other }
        ensures seat { IsSeatOf self.now seat.new }
        ensures both { ((account_of seat.new).shares
            ≡ (account_of seat.old).shares + (account_of other).shares)
            × ((account_of seat.new).pushed
            ≡ (account_of seat.old).pushed ++ (account_of other).pushed)
            × ((account_of seat.new).popped
            ≡ (account_of seat.old).popped ++ (account_of other).popped) }
    {
        let PoolSeat {
            seat: other_seat,
            shares: other_shares,
            known: _,
            memory: _,
        } = other;
        self.table
            .shared
            .join_seat::<OneShare>(&mut seat.seat, other_seat);
        self.look(&mut seat.seat, 0);
        seat.shares += other_shares;
    }
}
