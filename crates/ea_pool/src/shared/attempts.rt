//! Attempts: a heap is taken, used and returned.
ghost use Rattle.std.specs.Prelude.{◌≢◌, ◌*◌, ◌<◌};
ghost use Rattle.ea_pool.specs.Pools.{books, view_of, IsAtRest, MayTry, RestsAgain};
ghost use Rattle.ea_pool.specs.Replies.{IsPop, IsPopAt, IsPush, MatchBusy};
ghost use Rattle.ea_pool.specs.Tries.{MissedHeap, Missed, TookThere, TookAtTry};

use crate::draws::{draw_try, pick};
use crate::heap::entry::Entry;
use crate::heap::entry_heap::EntryHeap;
use crate::heap::least_heap::LeastHeap;
use crate::shared::pool::Pool;
use crate::shared::reply::{Popped, PushRefused};
use crate::shared::seat::Seat;
use crate::shared::words::{EMPTY, OUT};
use ea_road::Known;
use std::alloc::Allocator;

impl<K: Known, A: Allocator, H: EntryHeap> Pool<K, A, H> {
    // Pushes to one heap, if it is at home.
    pub(crate) fn push_at(
        &self,
        seat: &mut Seat<H>,
        heap: usize,
        entry: Entry,
    ) -> Result<(), PushRefused>
        requires seat { MayTry self.now heap seat.old.table_id seat.old.me }
        requires known { K.is_known entry.node entry.key }
        ensures seat { RestsAgain seat.old.table_id seat.new.table_id seat.new.me }
        ensures push { IsPush result (books seat.old.me.0) (books seat.new.me.0) entry }
        ensures tried { MatchBusy result
            (MissedHeap heap seat.old.me.0.seen seat.new.me.0.seen)
            (TookThere H.kind heap seat.old.me.0.seen seat.new.me.0.last_take) }
    {
        let seen = self.look(seat, heap);
        if seen == OUT || !self.take(seat, heap, seen) {
            return Err(PushRefused::Busy(entry));
        }
        match self.push_in(seat, heap, entry) {
            (Ok(()), word) => {
                self.give_pushed(seat, heap, word);
                Ok(())
            }
            (Err(back), word) => {
                self.give_back(seat, heap, word);
                Err(PushRefused::OutOfMemory(back))
            }
        }
    }

    // Tries each heap twice, in turn, beginning at the one that the word draws.
    pub(crate) fn push_from(
        &self,
        seat: &mut Seat<H>,
        word: u64,
        entry: Entry,
    ) -> Result<(), PushRefused>
        requires seat { IsAtRest self.now seat.old.table_id seat.old.me }
        requires known { K.is_known entry.node entry.key }
        ensures seat { RestsAgain seat.old.table_id seat.new.table_id seat.new.me }
        ensures push { IsPush result (books seat.old.me.0) (books seat.new.me.0) entry }
        ensures tried { MatchBusy result
            (Missed self.now.heaps word (2 * self.now.heaps)
            seat.old.me.0.seen seat.new.me.0.seen)
            (TookAtTry H.kind self.now.heaps word seat.old.me.0.seen seat.new.me.0.last_take) }
    {
        for attempt in 0..2 * self.heaps {
            let heap = draw_try(self.heaps, word, attempt);
            match self.push_at(seat, heap, entry) {
                Err(PushRefused::Busy(_)) => {}
                answer => return answer,
            }
        }
        Err(PushRefused::Busy(entry))
    }
}

impl<K: Known, A: Allocator> Pool<K, A> {
    // Pops from one heap that has an entry, if its word is still `seen`.
    pub(crate) fn pop_at(&self, seat: &mut Seat<LeastHeap<A>>, heap: usize, seen: u64) -> Popped
        requires seat { MayTry self.now heap seat.old.table_id seat.old.me }
        requires some { seen < EMPTY }
        ensures seat { RestsAgain seat.old.table_id seat.new.table_id seat.new.me }
        ensures pops { IsPopAt K.is_known heap seen (view_of seat.old.table_id seat.old.me)
            (view_of seat.new.table_id seat.new.me) result }
    {
        if !self.take(seat, heap, seen) {
            return Popped::Busy;
        }
        match self.pop_in(seat, heap) {
            (Some(entry), word) => {
                self.give_popped(seat, heap, word);
                Popped::Entry(entry)
            }
            (None, _) => unreachable!(),
        }
    }

    // Inspects heap i, then heap j, and pops from the one with the lesser word.
    pub(crate) fn pop_of_two(&self, seat: &mut Seat<LeastHeap<A>>, i: usize, j: usize) -> Popped
        requires seat { IsAtRest self.now seat.old.table_id seat.old.me }
        requires heaps { (i < self.now.heaps) × (j < self.now.heaps) × (i ≢ j) }
        ensures seat { RestsAgain seat.old.table_id seat.new.table_id seat.new.me }
        ensures pops { IsPop K.is_known self.now.heaps i j
            (view_of seat.old.table_id seat.old.me)
            (view_of seat.new.table_id seat.new.me) result }
    {
        let x = self.look(seat, i);
        let y = self.look(seat, j);
        if x == OUT || y == OUT {
            return Popped::Busy;
        }
        if x == EMPTY && y == EMPTY {
            return Popped::Empty;
        }
        let (heap, seen) = pick(i, x, j, y);
        self.pop_at(seat, heap, seen)
    }
}
