//! The rule of a pool's table, and the names of its steps.
ghost use Rattle.ea_pool.specs.Plays.{IsPoolState, Looked, Taken, GavePushed, GavePopped, GaveBack};
ghost use Rattle.ea_pool.specs.States.{first_state, nobody, left_of, newcomer, joined};

use crate::heap::entry_heap::{EntryHeap, Slot};
use crate::shared::account::SeatMemory;
use atomic_table::{Join, Play, Split, TableRule};
use ea_road::Known;
use std::marker::PhantomData;

pub struct PoolRule<K, H> {
    known: PhantomData<K>,
    kind: PhantomData<H>,
}

impl<K: Known, H: EntryHeap> TableRule<Slot<H>, SeatMemory, usize> for PoolRule<K, H> {
    ghost holds = { λ heaps s. IsPoolState K.is_known H.kind heaps s };

    ghost first = { λ _. first_state };
}

pub struct Look<K, H> {
    known: PhantomData<K>,
    kind: PhantomData<H>,
}

impl<K: Known, H: EntryHeap> Play<Slot<H>, SeatMemory> for Look<K, H> {
    ghost then = { Looked K.is_known H.kind };
}

pub struct Take<K, H> {
    known: PhantomData<K>,
    kind: PhantomData<H>,
}

impl<K: Known, H: EntryHeap> Play<Slot<H>, SeatMemory> for Take<K, H> {
    ghost then = { Taken K.is_known H.kind };
}

pub struct GivePushed;

impl<H: EntryHeap> Play<Slot<H>, SeatMemory> for GivePushed {
    ghost then = { GavePushed };
}

pub struct GivePopped<K> {
    known: PhantomData<K>,
}

impl<K: Known, H: EntryHeap> Play<Slot<H>, SeatMemory> for GivePopped<K> {
    ghost then = { GavePopped K.is_known };
}

pub struct GiveBack;

impl<H: EntryHeap> Play<Slot<H>, SeatMemory> for GiveBack {
    ghost then = { GaveBack };
}

pub struct OneShare;

impl Split<SeatMemory> for OneShare {
    ghost left = { left_of };

    ghost right = { newcomer };
}

impl Join<SeatMemory> for OneShare {
    ghost both = { joined };

    ghost spent = { nobody };
}
