// Each allocation of a pool, refused in turn, and pushes without memory.
ghost use Rattle.std.specs.Prelude.{◌≡◌, ◌<◌};
ghost use Rattle.ea_pool.specs.Seats.{account_of, IsSeatOf};

use crate::asserts::{assert_none_wrong, assert_that};
use crate::heaps::{Step, come_out, entry, gives_four, shown, wrong_in_solo};
use ea_pool::{ClosedPool, Entry, Pool, PoolSeat, Popped, PushRefused, Solo};
use ea_road::AnyPair;
use linked_list_allocator::LocalHeap;
use std::alloc::{AllocError, Allocator, Global};
use std::test::Fail;
use test_support::tally::Tally;

// Takes all memory that is left, in small blocks.
fn take_all<'a>(alloc: Global, memory: &'a LocalHeap) -> Vec<Vec<u8, &'a LocalHeap>> {
    let mut blocks = Vec::new(alloc);
    for _ in 0..100000 {
        let Ok(block) = Vec::with_capacity(memory, 8) else {
            break;
        };
        if blocks.push(block).is_err() {
            break;
        }
    }
    blocks
}

// Pushes an entry. If its growth is refused, counts that, frees what is held, and pushes again. Returns
// whether the entry went in.
fn push_again<'a>(
    pool: &Pool<AnyPair, &'a LocalHeap>,
    seat: &mut PoolSeat<AnyPair, &'a LocalHeap>,
    held: &mut Vec<Vec<u8, &'a LocalHeap>>,
    again: &mut u32,
    word: u64,
    new: Entry,
) -> bool
    requires { IsSeatOf pool.now seat.old × (new.key < 1000) }
    ensures { IsSeatOf pool.now seat.new × ((account_of seat.new).shares ≡ (account_of seat.old).shares) }
{
    match pool.push_as(seat, word, new) {
        Ok(()) => true,
        Err(PushRefused::Busy(_)) => false,
        Err(PushRefused::OutOfMemory(back)) => {
            *again = again.wrapping_add(1);
            held.clear();
            pool.push_as(seat, word, back).is_ok()
        }
    }
}

// Pushes two entries like that, from a word on, and returns whether both went in.
fn push_two_again<'a>(
    pool: &Pool<AnyPair, &'a LocalHeap>,
    seat: &mut PoolSeat<AnyPair, &'a LocalHeap>,
    held: &mut Vec<Vec<u8, &'a LocalHeap>>,
    again: &mut u32,
    word: u64,
) -> bool
    requires { IsSeatOf pool.now seat.old × (word < 3) }
    ensures { IsSeatOf pool.now seat.new × ((account_of seat.new).shares ≡ (account_of seat.old).shares) }
{
    let node = word as u32 + 1;
    let one = push_again(pool, seat, held, again, word, entry(4 - word, node));
    let two = push_again(pool, seat, held, again, word + 1, entry(3 - word, node + 1));
    one && two
}

// Pushes four entries like that by two seats, as two threads do, and returns whether all went in.
fn push_four_again<'a>(
    pool: &Pool<AnyPair, &'a LocalHeap>,
    seat: &mut PoolSeat<AnyPair, &'a LocalHeap>,
    held: &mut Vec<Vec<u8, &'a LocalHeap>>,
    again: &mut u32,
) -> bool
    requires { IsSeatOf pool.now seat.old × (1 < (account_of seat.old).shares) }
    ensures { IsSeatOf pool.now seat.new × ((account_of seat.new).shares ≡ (account_of seat.old).shares) }
{
    let mut other = pool.split(seat);
    let one = push_two_again(pool, seat, held, again, 0);
    let two = push_two_again(pool, &mut other, held, again, 2);
    pool.join(seat, other);
    one && two
}

// The same after all memory was taken except this piece.
fn push_four_in<'a>(
    alloc: Global,
    memory: &'a LocalHeap,
    piece: Vec<u8, &'a LocalHeap>,
    pool: &Pool<AnyPair, &'a LocalHeap>,
    seat: &mut PoolSeat<AnyPair, &'a LocalHeap>,
    again: &mut u32,
) -> bool
    requires { IsSeatOf pool.now seat.old × (1 < (account_of seat.old).shares) }
    ensures { IsSeatOf pool.now seat.new × ((account_of seat.new).shares ≡ (account_of seat.old).shares) }
{
    let mut held = take_all(alloc, memory);
    drop(piece);
    push_four_again(pool, seat, &mut held, again)
}

// Whether a pool in this memory gives four entries that two seats push; none if it can't be opened. A piece
// of memory is left for its growth at first. Only one thread uses the memory.
fn gives_pushed<'a>(
    alloc: Global,
    memory: &'a LocalHeap,
    piece: Vec<u8, &'a LocalHeap>,
    again: &mut u32,
) -> Option<bool> {
    match Pool::<AnyPair, &'a LocalHeap>::open(memory, 4) {
        Ok((pool, mut seat)) => {
            let pushed = push_four_in(alloc, memory, piece, &pool, &mut seat, again);
            let given = gives_four(pool, seat);
            Some(pushed && given)
        }
        Err(_) => None,
    }
}

// How a pool of four entries fares with more and more memory, and how often a push was repeated. Memory that
// isn't freed is wrong.
fn fare_with_four(alloc: Global) -> Result<(Tally, u32), AllocError> {
    let mut tally = Tally::new();
    let mut again: u32 = 0;
    for step in 0..200 {
        let memory = LocalHeap::new(alloc, 1024 + 32 * step)?;
        let piece = Vec::with_capacity(&memory, 32 * (step % 16))?;
        let came = gives_pushed(alloc, &memory, piece, &mut again);
        tally.note(came, memory.used() == 0);
    }
    Ok((tally, again))
}

#[test]
fn open_is_refused_or_whole(rt: HostRuntime) -> Result<(), Fail> {
    let (tally, again) = fare_with_four(rt.alloc())?;
    assert_that(&rt, "none wrong", tally.wrong == 0);
    assert_that(
        &rt,
        "some refused and many right",
        tally.refused >= 4 && tally.right >= 32,
    );
    assert_that(&rt, "some pushed again", 8 <= again);
    Ok(())
}

// Whether a push without memory is refused, and a pop finds nothing afterwards.
fn is_refused<'a>(
    alloc: Global,
    memory: &'a LocalHeap,
    pool: &Pool<AnyPair, &'a LocalHeap>,
    seat: &mut PoolSeat<AnyPair, &'a LocalHeap>,
) -> bool
    requires { IsSeatOf pool.now seat.old }
    ensures { IsSeatOf pool.now seat.new × ((account_of seat.new).shares ≡ (account_of seat.old).shares) }
{
    let _blocks = take_all(alloc, memory);
    let refused = pool.push_as(seat, 0, entry(3, 1));
    let popped = pool.pop_as(seat, 0, 0);
    refused == Err(PushRefused::OutOfMemory(entry(3, 1))) && popped == Popped::Empty
}

// Whether a push with memory isn't refused.
fn is_pushed<'a>(
    pool: &Pool<AnyPair, &'a LocalHeap>,
    seat: &mut PoolSeat<AnyPair, &'a LocalHeap>,
) -> bool
    requires { IsSeatOf pool.now seat.old }
    ensures { IsSeatOf pool.now seat.new × ((account_of seat.new).shares ≡ (account_of seat.old).shares) }
{
    pool.push_as(seat, 0, entry(3, 1)).is_ok()
}

const ONE_OUT: [Option<(u64, u32)>; 2] = [Some((3, 1)), None];

// Whether a push of one entry is refused without memory and succeeds with it, and the entry is popped.
fn is_pushed_again(alloc: Global, memory: &LocalHeap) -> Result<(bool, bool), AllocError> {
    let (pool, mut seat) = Pool::<AnyPair, &LocalHeap>::open(memory, 2)?;
    let refused = is_refused(alloc, memory, &pool, &mut seat);
    let pushed = is_pushed(&pool, &mut seat);
    let rest = come_out(pool.close(seat), &ONE_OUT);
    Ok((refused, pushed && rest))
}

// The same in a separate memory.
fn push_in_memory(alloc: Global) -> Result<(bool, bool), AllocError> {
    let memory = LocalHeap::new(alloc, 65536)?;
    is_pushed_again(alloc, &memory)
}

#[test]
fn push_refused_then_again(rt: HostRuntime) -> Result<(), Fail> {
    let (refused, pushed) = push_in_memory(rt.alloc())?;
    assert_that(&rt, "refused without memory, and nothing to pop", refused);
    assert_that(&rt, "pushed with it, and comes out", pushed);
    Ok(())
}

// Counts an entry by key.
pub fn count(counts: &mut [u32], entry: Entry) {
    let key = entry.key;
    if key < counts.len() as u64 {
        let place = key as usize;
        counts[place] = counts[place].wrapping_add(1);
    }
}

// Counts what is left in a closed pool.
fn count_left<A: Allocator>(counts: &mut [u32], mut left: ClosedPool<A>) {
    for _ in 0..u64::MAX {
        match left.next() {
            Some(entry) => count(counts, entry),
            None => break,
        }
    }
}

// Pushes an entry with this key, and returns whether its growth was refused. Counts what is handed back.
fn push_or_count<'a>(
    pool: &Pool<AnyPair, &'a LocalHeap>,
    seat: &mut PoolSeat<AnyPair, &'a LocalHeap>,
    counts: &mut [u32],
    key: u64,
) -> bool
    requires { IsSeatOf pool.now seat.old × (key < 1000) }
    ensures { IsSeatOf pool.now seat.new × ((account_of seat.new).shares ≡ (account_of seat.old).shares) }
{
    match pool.push_as(seat, key, entry(key, 1)) {
        Ok(()) => false,
        Err(PushRefused::Busy(back)) | Err(PushRefused::OutOfMemory(back)) => {
            count(counts, back);
            true
        }
    }
}

// Pops an entry and counts it.
fn pop_and_count<'a>(
    pool: &Pool<AnyPair, &'a LocalHeap>,
    seat: &mut PoolSeat<AnyPair, &'a LocalHeap>,
    counts: &mut [u32],
    word: u64,
)
    requires { IsSeatOf pool.now seat.old }
    ensures { IsSeatOf pool.now seat.new × ((account_of seat.new).shares ≡ (account_of seat.old).shares) }
{
    if let Popped::Entry(least) = pool.pop_as(seat, word, word) {
        count(counts, least);
    }
}

// Pushes 600 keys, with a pop after every seventh push, and returns how many growths were refused.
fn push_six_hundred<'a>(
    pool: &Pool<AnyPair, &'a LocalHeap>,
    seat: &mut PoolSeat<AnyPair, &'a LocalHeap>,
    counts: &mut [u32],
) -> u32
    requires { IsSeatOf pool.now seat.old }
    ensures { IsSeatOf pool.now seat.new × ((account_of seat.new).shares ≡ (account_of seat.old).shares) }
{
    let mut refused = 0u32;
    for key in 0..600 {
        if push_or_count(pool, seat, counts, key) {
            refused = refused.wrapping_add(1);
        }
        if key % 7 == 0 {
            pop_and_count(pool, seat, counts, key);
        }
    }
    refused
}

// How many growths are refused, and whether each key is there once.
fn fare_with_many(memory: &LocalHeap) -> Result<(u32, bool), AllocError> {
    let mut counts = [0u32; 600];
    let (pool, mut seat) = Pool::<AnyPair, &LocalHeap>::open(memory, 3)?;
    let refused = push_six_hundred(&pool, &mut seat, counts.as_mut_slice());
    count_left(counts.as_mut_slice(), pool.close(seat));
    Ok((refused, counts == [1u32; 600]))
}

#[test]
fn growth_refused_in_the_middle_of_many(rt: HostRuntime) -> Result<(), Fail> {
    let memory = LocalHeap::new(rt.alloc(), 8192)?;
    let (refused, once) = fare_with_many(&memory)?;
    assert_that(&rt, "some refused", 0 < refused && refused < 600);
    assert_that(&rt, "each key once", once);
    assert_that(&rt, "the memory is given back", memory.used() == 0);
    Ok(())
}

// Pushes a second entry without memory and with it: whether it is handed back and one entry is left, and
// whether it goes in then.
fn fares_with_second(
    alloc: Global,
    memory: &LocalHeap,
    solo: &mut Solo<&LocalHeap>,
) -> (bool, bool) {
    let blocks = take_all(alloc, memory);
    let refused = solo.push_at(1, entry(2, 2)) == Err(entry(2, 2)) && solo.len() == 1;
    drop(blocks);
    (refused, solo.push_at(1, entry(2, 2)).is_ok())
}

const ONE_IN: [Step; 1] = [Step::In(0, 5, 1)];

const BOTH_OUT: [Step; 2] = [Step::Out(0, 0, Some((2, 2))), Step::Out(0, 0, Some((5, 1)))];

#[test]
fn solo_hands_the_entry_back(rt: HostRuntime) -> Result<(), Fail> {
    let memory = LocalHeap::new(rt.alloc(), 4096)?;
    let mut solo = Solo::<&LocalHeap>::new(&memory, 2)?;
    assert_none_wrong(&rt, wrong_in_solo(&mut solo, &ONE_IN, 1));
    let (refused, pushed) = fares_with_second(rt.alloc(), &memory, &mut solo);
    assert_that(&rt, "handed back without memory", refused);
    assert_that(&rt, "pushed with it", pushed);
    assert_none_wrong(&rt, wrong_in_solo(&mut solo, &BOTH_OUT, 0));
    Ok(())
}

// Whether a `Solo` is empty, and gives the one entry that is pushed or hands it back.
fn gives_one(solo: &mut Solo<&LocalHeap>) -> bool {
    let empty = solo.len() == 0;
    let one = match solo.push_at(3, entry(1, 4)) {
        Ok(()) => shown(solo.pop_at(3, 0)) == Some((1, 4)),
        Err(back) => back == entry(1, 4),
    };
    empty && one && solo.pop_at(3, 0).is_none()
}

// Whether a new `Solo` in this memory does; none if it was refused.
fn gives_one_in(memory: &LocalHeap) -> Option<bool> {
    match Solo::<&LocalHeap>::new(memory, 4) {
        Ok(mut solo) => Some(gives_one(&mut solo)),
        Err(_) => None,
    }
}

#[test]
fn solo_is_refused_or_whole(rt: HostRuntime) -> Result<(), Fail> {
    let mut tally = Tally::new();
    for step in 0..40 {
        let memory = LocalHeap::new(rt.alloc(), 24 + 16 * step)?;
        tally.note(gives_one_in(&memory), memory.used() == 0);
    }
    assert_that(&rt, "none wrong", tally.wrong == 0);
    assert_that(
        &rt,
        "some refused and some right",
        tally.refused >= 2 && tally.right >= 2,
    );
    Ok(())
}
