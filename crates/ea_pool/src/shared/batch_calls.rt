//! Pushes and pops of several entries at once.
ghost use Rattle.std.specs.Prelude.{◌≢◌, ◌+◌, ◌*◌, ◌<◌, ◌≤◌, ◌++◌};
ghost use Rattle.arrayvec.specs.ArrayVec.{array_vec_len};
ghost use Rattle.ea_pool.specs.Batches.{ComesOut, GoesInUntil, IsBatchPop, IsBatchPopAt, IsBatchPush, MatchPushed};
ghost use Rattle.ea_pool.specs.Draws.{first_draw, second_draw};
ghost use Rattle.ea_pool.specs.Entries.{AreKnown};
ghost use Rattle.ea_pool.specs.Kinds.{Shows};
ghost use Rattle.ea_pool.specs.Pools.{books, view_of, AreInTime, IsAtRest, MayTry, MayUse, RestsAgain, UsesHeap};
ghost use Rattle.ea_pool.specs.Seats.{account_of, heaps_of, IsSeatOf};
ghost use Rattle.ea_pool.specs.Tries.{MissedHeap, Missed, TookThere, TookAtTry};

use crate::draws::{draw_first, draw_second, draw_try, pick};
use crate::heap::batch::{Batch, pop_some, push_all};
use crate::heap::entry_heap::EntryHeap;
use crate::shared::pool::Pool;
use crate::shared::reply::{PoppedSome, PushAllRefused};
use crate::shared::seat::{PoolSeat, Seat};
use crate::shared::words::{EMPTY, MOST_IN_BATCH, OUT};
use ea_road::Known;
use std::alloc::Allocator;

impl<K: Known, A: Allocator, H: EntryHeap> Pool<K, A, H> {
    // Pushes entries into the heap that is held, and returns its new word.
    fn push_all_in(&self, seat: &mut Seat<H>, heap: usize, batch: &mut Batch) -> (bool, u64)
        requires may { MayUse self.now heap seat.old.table_id seat.old.me
            (λ es. AreInTime (batch.old.items ++ es)) }
        ensures { UsesHeap heap seat.old.table_id seat.new.table_id seat.old.me seat.new.me
            (λ es left. GoesInUntil result.0 batch.old.items batch.new.items es left
            × Shows H.kind result.1 left) }
    {
        let held = seat.slot_mut(&self.table.shared, heap);
        let all = push_all(held, batch);
        (all, held.word())
    }

    // Pops entries from the heap that is held, and returns its new word.
    fn pop_some_in(&self, seat: &mut Seat<H>, heap: usize, most: usize, batch: &mut Batch) -> u64
        requires may { MayUse self.now heap seat.old.table_id seat.old.me AreInTime }
        requires room { array_vec_len batch.old + most ≤ MOST_IN_BATCH }
        ensures { UsesHeap heap seat.old.table_id seat.new.table_id seat.old.me seat.new.me
            (λ es left. ComesOut H.kind most batch.old.items batch.new.items es left
            × Shows H.kind result left) }
    {
        let held = seat.slot_mut(&self.table.shared, heap);
        pop_some(held, most, batch);
        held.word()
    }

    // Pushes entries to one heap, if it is at home. Entries for which memory was refused stay in the batch.
    fn push_all_at(
        &self,
        seat: &mut Seat<H>,
        heap: usize,
        batch: &mut Batch,
    ) -> Result<(), PushAllRefused>
        requires seat { MayTry self.now heap seat.old.table_id seat.old.me }
        requires known { AreKnown K.is_known batch.old.items }
        ensures seat { RestsAgain seat.old.table_id seat.new.table_id seat.new.me }
        ensures push { IsBatchPush result (books seat.old.me.0) (books seat.new.me.0)
            batch.old batch.new }
        ensures tried { MatchPushed result
            (TookThere H.kind heap seat.old.me.0.seen seat.new.me.0.last_take)
            (MissedHeap heap seat.old.me.0.seen seat.new.me.0.seen)
            (TookThere H.kind heap seat.old.me.0.seen seat.new.me.0.last_take) }
    {
        let seen = self.look(seat, heap);
        if seen == OUT || !self.take(seat, heap, seen) {
            return Err(PushAllRefused::Busy);
        }
        let (all, word) = self.push_all_in(seat, heap, batch);
        self.give_pushed(seat, heap, word);
        if all {
            Ok(())
        } else {
            Err(PushAllRefused::OutOfMemory)
        }
    }

    // Tries each heap twice, in turn, beginning at the one that the word draws.
    fn push_all_from(
        &self,
        seat: &mut Seat<H>,
        word: u64,
        batch: &mut Batch,
    ) -> Result<(), PushAllRefused>
        requires seat { IsAtRest self.now seat.old.table_id seat.old.me }
        requires known { AreKnown K.is_known batch.old.items }
        ensures seat { RestsAgain seat.old.table_id seat.new.table_id seat.new.me }
        ensures push { IsBatchPush result (books seat.old.me.0) (books seat.new.me.0)
            batch.old batch.new }
        ensures tried { MatchPushed result
            (TookAtTry H.kind self.now.heaps word seat.old.me.0.seen seat.new.me.0.last_take)
            (Missed self.now.heaps word (2 * self.now.heaps) seat.old.me.0.seen seat.new.me.0.seen)
            (TookAtTry H.kind self.now.heaps word seat.old.me.0.seen seat.new.me.0.last_take) }
    {
        for attempt in 0..2 * self.heaps {
            let heap = draw_try(self.heaps, word, attempt);
            match self.push_all_at(seat, heap, batch) {
                Err(PushAllRefused::Busy) => {}
                answer => return answer,
            }
        }
        Err(PushAllRefused::Busy)
    }

    /// Pushes a batch into the one heap to which `push_as` would push, and empties the batch. After `Busy`
    /// the batch and the account are unchanged. After `OutOfMemory` the first entries of the batch are left,
    /// at least one, in their order; the others were pushed.
    pub fn push_all_as(
        &self,
        seat: &mut PoolSeat<K, A, H>,
        word: u64,
        batch: &mut Batch,
    ) -> Result<(), PushAllRefused>
        requires seat { IsSeatOf self.now seat.old }
        requires known { AreKnown K.is_known batch.old.items }
        ensures seat { IsSeatOf self.now seat.new }
        ensures push { IsBatchPush result (account_of seat.old) (account_of seat.new)
            batch.old batch.new }
        // Each of the 2H tries missed; or one took its heap after others missed.
        ensures tried { MatchPushed result
            (TookAtTry H.kind (heaps_of self.now) word seat.old.seen seat.new.last_take)
            (Missed (heaps_of self.now) word (2 * heaps_of self.now) seat.old.seen seat.new.seen)
            (TookAtTry H.kind (heaps_of self.now) word seat.old.seen seat.new.last_take) }
    {
        self.push_all_from(&mut seat.seat, word, batch)
    }

    // Pops entries from one heap that has some, if its word is still `seen`. Returns whether it was.
    fn pop_some_at(
        &self,
        seat: &mut Seat<H>,
        heap: usize,
        seen: u64,
        most: usize,
        batch: &mut Batch,
    ) -> bool
        requires seat { MayTry self.now heap seat.old.table_id seat.old.me }
        requires some { seen < EMPTY }
        requires room { (0 < most) × (array_vec_len batch.old + most ≤ MOST_IN_BATCH) }
        ensures seat { RestsAgain seat.old.table_id seat.new.table_id seat.new.me }
        ensures pops { IsBatchPopAt K.is_known H.kind heap seen most
            (view_of seat.old.table_id seat.old.me) (view_of seat.new.table_id seat.new.me)
            batch.old batch.new result }
    {
        if !self.take(seat, heap, seen) {
            return false;
        }
        let word = self.pop_some_in(seat, heap, most, batch);
        self.give_popped(seat, heap, word);
        true
    }

    // Inspects heap i, then heap j, and pops from the one with the lesser word.
    fn pop_some_of_two(
        &self,
        seat: &mut Seat<H>,
        i: usize,
        j: usize,
        most: usize,
        batch: &mut Batch,
    ) -> PoppedSome
        requires seat { IsAtRest self.now seat.old.table_id seat.old.me }
        requires heaps { (i < self.now.heaps) × (j < self.now.heaps) × (i ≢ j) }
        requires room { (0 < most) × (array_vec_len batch.old + most ≤ MOST_IN_BATCH) }
        ensures seat { RestsAgain seat.old.table_id seat.new.table_id seat.new.me }
        ensures pops { IsBatchPop K.is_known H.kind self.now.heaps i j most
            (view_of seat.old.table_id seat.old.me) (view_of seat.new.table_id seat.new.me)
            batch.old batch.new result }
    {
        let x = self.look(seat, i);
        let y = self.look(seat, j);
        if x == OUT || y == OUT {
            return PoppedSome::Busy;
        }
        if x == EMPTY && y == EMPTY {
            return PoppedSome::Empty;
        }
        let (heap, seen) = pick(i, x, j, y);
        if self.pop_some_at(seat, heap, seen, most, batch) {
            PoppedSome::Entries
        } else {
            PoppedSome::Busy
        }
    }

    /// Inspects the two heaps that `pop_as` would inspect, pops from the one from which it would pop, and
    /// appends the entries to the batch. A heap that gives its least entry first gives `most` entries, or all
    /// that it has, in ascending order; buckets may give fewer. After `Empty` and `Busy` nothing has changed.
    pub fn pop_some_as(
        &self,
        seat: &mut PoolSeat<K, A, H>,
        first: u64,
        second: u64,
        most: usize,
        batch: &mut Batch,
    ) -> PoppedSome
        requires seat { IsSeatOf self.now seat.old }
        requires room { (0 < most) × (array_vec_len batch.old + most ≤ MOST_IN_BATCH) }
        ensures seat { IsSeatOf self.now seat.new }
        ensures pops { IsBatchPop K.is_known H.kind (heaps_of self.now)
            (first_draw (heaps_of self.now) first)
            (second_draw (heaps_of self.now) first second) most
            seat.old seat.new batch.old batch.new result }
    {
        let i = draw_first(self.heaps, first);
        let j = draw_second(self.heaps, first, second);
        self.pop_some_of_two(&mut seat.seat, i, j, most, batch)
    }
}
