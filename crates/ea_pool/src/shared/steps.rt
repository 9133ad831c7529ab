//! The steps of a pool: on a word, and on a heap that is held.
ghost use Rattle.std.specs.Prelude.{◌≡◌, ◌≢◌, ◌<◌, [], ◌∷◌, MatchOption};
ghost use Rattle.ea_pool.specs.Entries.{AreKnown, GoesInOrBack, HasMore};
ghost use Rattle.ea_pool.specs.Kinds.{Shows, GivesOne};
ghost use Rattle.ea_pool.specs.Plays.{PutsPopped, PutsPushed, SeesWord, TakesHeap};
ghost use Rattle.ea_pool.specs.States.{gave};
ghost use Rattle.ea_pool.specs.Pools.{AreInTime, MayGive, MayTry, MayUse, Rests, UsesHeap};

use crate::heap::entry::Entry;
use crate::heap::entry_heap::EntryHeap;
use crate::shared::pool::Pool;
use crate::shared::rules::{GiveBack, GivePopped, GivePushed, Look, Take};
use crate::shared::seat::Seat;
use crate::shared::words::{OUT, WORDS_APART};
use ea_road::Known;
use std::alloc::Allocator;

impl<K: Known, A: Allocator, H: EntryHeap> Pool<K, A, H> {
    // Loads the word of a heap.
    pub(crate) fn look(&self, seat: &mut Seat<H>, heap: usize) -> u64
        requires seat { MayTry self.now heap seat.old.table_id seat.old.me }
        ensures table { seat.new.table_id ≡ seat.old.table_id }
        ensures sees { SeesWord K.is_known H.kind self.now.heaps heap result
            seat.old.me seat.new.me }
    {
        self.table
            .shared
            .load::<Look<K, H>>(seat, WORDS_APART * (heap + 1))
    }

    // Takes a heap, if its word is still `seen`.
    pub(crate) fn take(&self, seat: &mut Seat<H>, heap: usize, seen: u64) -> bool
        requires table { (seat.old.table_id ≡ self.now.table) × (heap < self.now.heaps) }
        requires rests { Rests seat.old.me × (seen ≢ OUT) }
        ensures table { seat.new.table_id ≡ seat.old.table_id }
        ensures takes { TakesHeap K.is_known H.kind heap seen seat.old.me seat.new.me result }
    {
        self.table
            .shared
            .compare_exchange::<Take<K, H>>(seat, WORDS_APART * (heap + 1), seen, OUT)
            == seen
    }

    // Pushes into the heap that is held, and returns its new word.
    pub(crate) fn push_in(
        &self,
        seat: &mut Seat<H>,
        heap: usize,
        entry: Entry,
    ) -> (Result<(), Entry>, u64)
        requires may { MayUse self.now heap seat.old.table_id seat.old.me
            (λ es. AreInTime (entry ∷ es)) }
        ensures { UsesHeap heap seat.old.table_id seat.new.table_id seat.old.me seat.new.me
            (λ es left. GoesInOrBack result.0 entry es left × Shows H.kind result.1 left) }
    {
        let held = seat.slot_mut(&self.table.shared, heap);
        let answer = held.push(entry);
        (answer, held.word())
    }

    // Pops from the heap that is held, and returns its new word.
    pub(crate) fn pop_in(&self, seat: &mut Seat<H>, heap: usize) -> (Option<Entry>, u64)
        requires may { MayUse self.now heap seat.old.table_id seat.old.me AreInTime }
        ensures { UsesHeap heap seat.old.table_id seat.new.table_id seat.old.me seat.new.me
            (λ es left. MatchOption result.0 ((es ≡ []) × (left ≡ []))
            (λ entry. GivesOne H.kind entry es left)
            × Shows H.kind result.1 left) }
    {
        let held = seat.slot_mut(&self.table.shared, heap);
        let answer = held.pop();
        (answer, held.word())
    }

    // Returns the heap, with more entries than it had.
    pub(crate) fn give_pushed(&self, seat: &mut Seat<H>, heap: usize, word: u64)
        requires may { MayGive self.now heap seat.old.table_id seat.old.me (λ left es.
            Shows H.kind word left × HasMore es left (AreKnown K.is_known)) }
        ensures table { seat.new.table_id ≡ seat.old.table_id }
        ensures pushed { PutsPushed seat.old.me seat.new.me }
    {
        self.table
            .shared
            .store::<GivePushed>(seat, WORDS_APART * (heap + 1), word);
    }

    // Returns the heap, with fewer entries than it had.
    pub(crate) fn give_popped(&self, seat: &mut Seat<H>, heap: usize, word: u64)
        requires may { MayGive self.now heap seat.old.table_id seat.old.me (λ left es.
            Shows H.kind word left × HasMore left es (λ _. Unit {0})) }
        ensures table { seat.new.table_id ≡ seat.old.table_id }
        ensures popped { PutsPopped K.is_known seat.old.me seat.new.me }
    {
        self.table
            .shared
            .store::<GivePopped<K>>(seat, WORDS_APART * (heap + 1), word);
    }

    // Returns the heap unchanged.
    pub(crate) fn give_back(&self, seat: &mut Seat<H>, heap: usize, word: u64)
        requires may { MayGive self.now heap seat.old.table_id seat.old.me (λ left es.
            (left ≡ es) × Shows H.kind word left) }
        ensures table { seat.new.table_id ≡ seat.old.table_id }
        ensures gave { seat.new.me ≡ (gave seat.old.me.0, []) }
    {
        self.table
            .shared
            .store::<GiveBack>(seat, WORDS_APART * (heap + 1), word);
    }
}
