// What no clause says: the worked examples, and threads on one pool.
ghost use Rattle.std.specs.Prelude.{◌≡◌, ◌<◌};
ghost use Rattle.std.specs.Thread.{IsSync};
ghost use Rattle.ea_pool.specs.Seats.{account_of, IsSeatOf};

use crate::asserts::{assert_none_wrong, assert_that};
use crate::heaps::{Step, entry, gives_four, key_at, wrong_in_solo, wrong_step_alone};
use ea_pool::{
    Batch, Buckets, ClosedPool, Entry, EntryHeap, LeastHeap, OpenHeap, OutOfMemory, Pool, PoolSeat,
    Popped, PushRefused, Solo,
};
use ea_road::{AnyPair, Known};
use std::alloc::Global;
use std::test::Fail;
use std::thread::{Threads, join};

const THREE_IN: [Step; 3] = [Step::In(0, 5, 7), Step::In(1, 9, 7), Step::In(2, 1, 7)];

const THREE_OUT: [Step; 4] = [
    Step::Out(0, 0, Some((5, 7))),
    Step::Out(0, 0, Some((9, 7))),
    Step::Out(0, 0, None),
    Step::Out(1, 0, Some((1, 7))),
];

#[test]
fn solo_and_ranks(rt: HostRuntime) -> Result<(), Fail> {
    let mut solo = Solo::new(rt.alloc(), 3)?;
    assert_none_wrong(&rt, wrong_in_solo(&mut solo, &THREE_IN, 3));
    assert_none_wrong(&rt, wrong_in_solo(&mut solo, &THREE_OUT, 0));
    Ok(())
}

// Pushes two entries, and returns whether both went in.
fn push_two<K: Known>(
    pool: &Pool<K>,
    mut seat: PoolSeat<K>,
    word: u64,
    first: Entry,
    second: Entry,
) -> (PoolSeat<K>, bool)
    requires seat { IsSeatOf pool.now seat × (word < 100) }
    requires known { K.is_known first.node first.key × K.is_known second.node second.key }
    ensures { IsSeatOf pool.now result.0 × ((account_of result.0).shares ≡ (account_of seat).shares) }
{
    let one = pool.push_as(&mut seat, word, first).is_ok();
    let two = pool.push_as(&mut seat, word + 1, second).is_ok();
    (seat, one && two)
}

// The same by two threads at once, each with two entries: whether each one's went in, and the shares of both
// seats afterwards.
fn push_by_two<R: Threads + Sync>(
    rt: &R,
    pool: &Pool<AnyPair>,
    mut seat: PoolSeat<AnyPair>,
) -> (PoolSeat<AnyPair>, (bool, bool), (u32, u32))
    requires { IsSeatOf pool.now seat × (1 < (account_of seat).shares) }
    ensures { IsSeatOf pool.now result.0 × ((account_of result.0).shares ≡ (account_of seat).shares) }
{
    let other = pool.split(&mut seat);
    let ((mut seat, one), (other, two)) = join(
        rt,
        move || -> (PoolSeat<AnyPair>, bool)
            requires { IsSeatOf pool.now seat }
            ensures { IsSeatOf pool.entry.now result.0
                × ((account_of result.0).shares ≡ (account_of seat).shares) }
        { push_two(pool, seat, 0, entry(4, 1), entry(3, 2)) },
        move || -> (PoolSeat<AnyPair>, bool)
            requires { IsSeatOf pool.now other }
            ensures { IsSeatOf pool.entry.now result.0
                × ((account_of result.0).shares ≡ (account_of other).shares) }
        { push_two(pool, other, 2, entry(2, 3), entry(1, 4)) },
    );
    let shares = (seat.shares(), other.shares());
    pool.join(&mut seat, other);
    (seat, (one, two), shares)
}

/// Whether the entries of two threads went in, the shares of their seats, and whether they are popped in
/// their order.
type ByTwo = ((bool, bool), (u32, u32), bool);

// The results of two threads on one pool.
fn pushed_by_two<R: Threads + Sync>(rt: &R, alloc: Global) -> Result<ByTwo, OutOfMemory> {
    let (pool, seat) = Pool::<AnyPair>::open(alloc, 4)?;
    let (seat, pushed, shares) = push_by_two(rt, &pool, seat);
    Ok((pushed, shares, gives_four(pool, seat)))
}

#[test]
fn pool_two_threads(rt: HostRuntime) -> Result<(), Fail> {
    for _round in 0..100 {
        let (pushed, shares, right) = pushed_by_two(&rt, rt.alloc())?;
        assert_that(&rt, "all go in", pushed.0 && pushed.1);
        assert_that(
            &rt,
            "the shares of each seat",
            shares.0 == 63 && shares.1 == 1,
        );
        assert_that(&rt, "they come out in their order", right);
    }
    Ok(())
}

const NEVER_BUSY: [Step; 8] = [
    Step::Out(0, 0, None),
    Step::In(0, 7, 1),
    Step::In(1, 7, 2),
    Step::In(1, 3, 9),
    Step::Out(1, 0, Some((3, 9))),
    Step::Out(1, 0, Some((7, 1))),
    Step::Out(0, 0, Some((7, 2))),
    Step::Out(0, 0, None),
];

#[test]
fn one_seat_is_never_busy(rt: HostRuntime) -> Result<(), Fail> {
    assert_none_wrong(&rt, wrong_step_alone(rt.alloc(), 2, &NEVER_BUSY)?);
    Ok(())
}

// The entries that a thread popped or that were handed back to it. `whole` is false if memory to keep them
// was refused.
#[derive(Drop)]
struct Kept {
    entries: Vec<Entry>,
    whole: bool,
}

impl Kept {
    fn new(alloc: Global) -> Kept {
        Kept {
            entries: Vec::new(alloc),
            whole: true,
        }
    }

    fn keep(&mut self, entry: Entry) {
        if self.entries.push(entry).is_err() {
            self.whole = false;
        }
    }
}

// Pushes an entry with a key, and pops after it. The word is the key.
fn push_and_pop_key(pool: &Pool<AnyPair>, seat: &mut PoolSeat<AnyPair>, kept: &mut Kept, key: u64)
    requires { IsSeatOf pool.now seat.old × (key < 20000000) }
    ensures { IsSeatOf pool.now seat.new × ((account_of seat.new).shares ≡ (account_of seat.old).shares) }
{
    match pool.push_as(seat, key, entry(key, 1)) {
        Ok(()) => {}
        Err(PushRefused::Busy(back)) | Err(PushRefused::OutOfMemory(back)) => kept.keep(back),
    }
    if let Popped::Entry(least) = pool.pop_as(seat, key, key + 1) {
        kept.keep(least);
    }
}

// Pushes entries with the keys `from` to `from + count - 1`, and pops after each.
fn push_and_pop(
    pool: &Pool<AnyPair>,
    mut seat: PoolSeat<AnyPair>,
    mut kept: Kept,
    from: u64,
    count: u64,
) -> (PoolSeat<AnyPair>, Kept)
    requires { IsSeatOf pool.now seat × (from < 10000000) × (count < 10000000) }
    ensures { IsSeatOf pool.now result.0 × ((account_of result.0).shares ≡ (account_of seat).shares) }
{
    for step in 0..count {
        push_and_pop_key(pool, &mut seat, &mut kept, from + step);
    }
    (seat, kept)
}

// The same by two threads; the second continues after the first's keys.
fn push_and_pop_by_two<R: Threads + Sync>(
    rt: &R,
    alloc: Global,
    pool: &Pool<AnyPair>,
    mut seat: PoolSeat<AnyPair>,
    from: u64,
    count: u64,
) -> (PoolSeat<AnyPair>, Kept, Kept)
    requires seat { IsSeatOf pool.now seat × (1 < (account_of seat).shares) }
    requires numbers { (from < 1000000) × (count < 1000000) }
    ensures { IsSeatOf pool.now result.0 × ((account_of result.0).shares ≡ (account_of seat).shares) }
{
    let other = pool.split(&mut seat);
    let (first, second) = (Kept::new(alloc), Kept::new(alloc));
    let ((mut seat, first), (other, second)) = join(
        rt,
        move || -> (PoolSeat<AnyPair>, Kept)
            requires { IsSeatOf pool.now seat × (from < 1000000) × (count < 1000000) }
            ensures { IsSeatOf pool.entry.now result.0 × ((account_of result.0).shares ≡ (account_of seat).shares) }
        { push_and_pop(pool, seat, first, from, count) },
        move || -> (PoolSeat<AnyPair>, Kept)
            requires { IsSeatOf pool.now other × (from < 1000000) × (count < 1000000) }
            ensures { IsSeatOf pool.entry.now result.0 × ((account_of result.0).shares ≡ (account_of other).shares) }
        { push_and_pop(pool, other, second, from + count, count) },
    );
    pool.join(&mut seat, other);
    (seat, first, second)
}

// The same by four threads.
fn push_and_pop_by_four<R: Threads + Sync>(
    rt: &R,
    alloc: Global,
    pool: &Pool<AnyPair>,
    mut seat: PoolSeat<AnyPair>,
    count: u64,
) -> (PoolSeat<AnyPair>, (Kept, Kept), (Kept, Kept))
    requires seat { IsSeatOf pool.now seat × (3 < (account_of seat).shares) }
    requires numbers { count < 400000 }
    ensures { IsSeatOf pool.now result.0 × ((account_of result.0).shares ≡ (account_of seat).shares) }
{
    let mut other = pool.split(&mut seat);
    let more = pool.split(&mut seat);
    pool.join(&mut other, more);
    let ((mut seat, a, b), (other, c, d)) = join(
        rt,
        move || -> (PoolSeat<AnyPair>, Kept, Kept)
            requires { IsSeatOf pool.now seat × (1 < (account_of seat).shares) × (count < 400000) × IsSync R.row }
            ensures { IsSeatOf pool.entry.now result.0 × ((account_of result.0).shares ≡ (account_of seat).shares) }
        { push_and_pop_by_two(rt, alloc, pool, seat, 0, count) },
        move || -> (PoolSeat<AnyPair>, Kept, Kept)
            requires { IsSeatOf pool.now other × (1 < (account_of other).shares) × (count < 400000) × IsSync R.row }
            ensures { IsSeatOf pool.entry.now result.0 × ((account_of result.0).shares ≡ (account_of other).shares) }
        { push_and_pop_by_two(rt, alloc, pool, other, 2 * count, count) },
    );
    pool.join(&mut seat, other);
    (seat, (a, b), (c, d))
}

// Counts entries by key.
fn count_all(counts: &mut [u32], entries: &[Entry]) {
    for entry in entries {
        let key = entry.key;
        if key < counts.len() as u64 {
            let place = key as usize;
            counts[place] = counts[place].wrapping_add(1);
        }
    }
}

// Counts what is left in a closed pool.
fn count_left(counts: &mut [u32], mut left: ClosedPool) {
    for _ in 0..u64::MAX {
        match left.next() {
            Some(entry) => count_all(counts, [entry].as_slice()),
            None => break,
        }
    }
}

fn is_each_once(counts: &[u32]) -> bool {
    counts.iter().all(|&count| count == 1)
}

// Counts what two threads kept, and returns whether it is whole.
fn count_kept(counts: &mut [u32], kept: (Kept, Kept)) -> bool {
    let (first, second) = kept;
    count_all(counts, first.entries.as_slice());
    count_all(counts, second.entries.as_slice());
    first.whole && second.whole
}

// Whether two threads keep all that they pop of a thousand entries each, and pop each once.
fn each_once_by_two<R: Threads + Sync>(rt: &R, alloc: Global) -> Result<(bool, bool), OutOfMemory> {
    let mut counts = [0u32; 2000];
    let (pool, seat) = Pool::<AnyPair>::open(alloc, 8)?;
    let (seat, first, second) = push_and_pop_by_two(rt, alloc, &pool, seat, 0, 1000);
    let whole = count_kept(counts.as_mut_slice(), (first, second));
    count_left(counts.as_mut_slice(), pool.close(seat));
    Ok((whole, is_each_once(counts.as_slice())))
}

#[test]
fn pool_two_thousand(rt: HostRuntime) -> Result<(), Fail> {
    for _round in 0..30 {
        let (whole, once) = each_once_by_two(&rt, rt.alloc())?;
        assert_that(&rt, "all that was popped is kept", whole);
        assert_that(&rt, "each once", once);
    }
    Ok(())
}

// Whether four threads keep all that they pop of 100,000 entries each, and pop each once.
fn each_once_by_four<R: Threads + Sync>(
    rt: &R,
    alloc: Global,
) -> Result<(bool, bool, bool), OutOfMemory> {
    let mut counts = Vec::from_elem(alloc, 0, 400000)?;
    let (pool, seat) = Pool::<AnyPair>::open(alloc, 8)?;
    let (seat, two, others) = push_and_pop_by_four(rt, alloc, &pool, seat, 100000);
    let whole = count_kept(counts.as_mut_slice(), two);
    let others_whole = count_kept(counts.as_mut_slice(), others);
    count_left(counts.as_mut_slice(), pool.close(seat));
    Ok((whole, others_whole, is_each_once(counts.as_slice())))
}

#[test]
fn four_threads_lose_nothing(rt: HostRuntime) -> Result<(), Fail> {
    let (whole, others_whole, once) = each_once_by_four(&rt, rt.alloc())?;
    assert_that(&rt, "all that two popped is kept", whole);
    assert_that(&rt, "all that the others popped is kept", others_whole);
    assert_that(&rt, "each once", once);
    Ok(())
}

// Pops at most this many entries of one heap.
fn pop_few<H: EntryHeap>(
    pool: &Pool<AnyPair, Global, H>,
    seat: &mut PoolSeat<AnyPair, Global, H>,
    word: u64,
    most: usize,
) -> Batch
    requires { IsSeatOf pool.now seat.old × (0 < most) × (most < 65) }
    ensures { IsSeatOf pool.now seat.new × ((account_of seat.new).shares ≡ (account_of seat.old).shares) }
{
    let mut batch = Batch::new();
    pool.pop_some_as(seat, word, word, most, &mut batch);
    batch
}

// Counts popped entries by node, if their keys are right.
fn count_few(counts: &mut [u32], batch: &Batch) {
    for entry in batch.as_slice() {
        let node = entry.node as usize;
        if node < counts.len() && entry.key == key_at(u64::from(entry.node)) {
            counts[node] = counts[node].wrapping_add(1);
        }
    }
}

// Pushes each number as a node with its key, and pops at most three after every second push.
fn push_and_pop_few<H: EntryHeap>(
    pool: &Pool<AnyPair, Global, H>,
    seat: &mut PoolSeat<AnyPair, Global, H>,
    counts: &mut [u32],
) -> u64
    requires { IsSeatOf pool.now seat.old }
    ensures { IsSeatOf pool.now seat.new × ((account_of seat.new).shares ≡ (account_of seat.old).shares) }
{
    let mut refused = 0u64;
    for step in 0..10007u64 {
        let pushed = pool.push_as(seat, step / 3, entry(key_at(step), step as u32));
        if pushed.is_err() {
            refused = refused.wrapping_add(1);
        }
        if step % 2 == 1 {
            count_few(counts, &pop_few(pool, seat, step, 3));
        }
    }
    refused
}

// Pops what is left, at most this many at once.
fn pop_the_rest<H: EntryHeap>(
    pool: &Pool<AnyPair, Global, H>,
    seat: &mut PoolSeat<AnyPair, Global, H>,
    counts: &mut [u32],
)
    requires { IsSeatOf pool.now seat.old }
    ensures { IsSeatOf pool.now seat.new × ((account_of seat.new).shares ≡ (account_of seat.old).shares) }
{
    for step in 0..10007u64 {
        count_few(counts, &pop_few(pool, seat, step, 7));
    }
}

// Whether each entry is popped once from heaps of a kind, and none is refused or left.
fn gives_each_once<H: OpenHeap<Global>>(alloc: Global, width: u64) -> Result<bool, OutOfMemory> {
    let mut counts = [0u32; 10007];
    let (pool, mut seat) = Pool::<AnyPair, Global, H>::open_with(alloc, 3, width)?;
    let refused = push_and_pop_few(&pool, &mut seat, counts.as_mut_slice());
    pop_the_rest(&pool, &mut seat, counts.as_mut_slice());
    let left = pool.close(seat).next_of_any();
    Ok(refused == 0 && left.is_none() && is_each_once(counts.as_slice()))
}

/// Windows of one time, of many, and of all times.
const WIDTHS: [u64; 5] = [0, 1, 64, 1_000_000, u64::MAX];

// The first width with which buckets don't give each entry once.
fn wrong_width(alloc: Global) -> Result<Option<usize>, OutOfMemory> {
    for (place, width) in WIDTHS.iter().enumerate() {
        if !gives_each_once::<Buckets<Global>>(alloc, *width)? {
            return Ok(Some(place));
        }
    }
    Ok(None)
}

#[test]
fn both_kinds_give_each_entry_once(rt: HostRuntime) -> Result<(), Fail> {
    let least = gives_each_once::<LeastHeap<Global>>(rt.alloc(), 0)?;
    assert_that(&rt, "least heaps give each entry once", least);
    assert_none_wrong(&rt, wrong_width(rt.alloc())?);
    Ok(())
}

// Counts by node what is left in a closed pool, and returns what one more call gives.
fn count_nodes_left<H: EntryHeap>(
    counts: &mut [u32],
    mut left: ClosedPool<Global, H>,
) -> Option<Entry> {
    for _ in 0..u64::MAX {
        let Some(entry) = left.next_of_any() else {
            break;
        };
        if let Some(count) = counts.get_mut(entry.node as usize) {
            *count = count.wrapping_add(1);
        }
    }
    left.next_of_any()
}

// Whether each entry is popped once, some of them from the closed pool, and none is refused or comes after
// the end.
fn leaves_each_once(alloc: Global) -> Result<bool, OutOfMemory> {
    let mut counts = [0u32; 10007];
    let (pool, mut seat) = Pool::<AnyPair, Global, Buckets<Global>>::open_with(alloc, 2, 64)?;
    let refused = push_and_pop_few(&pool, &mut seat, counts.as_mut_slice());
    let behind = count_nodes_left(counts.as_mut_slice(), pool.close(seat));
    Ok(refused == 0 && behind.is_none() && is_each_once(counts.as_slice()))
}

#[test]
fn buckets_close_with_what_is_left(rt: HostRuntime) -> Result<(), Fail> {
    assert_that(&rt, "each once", leaves_each_once(rt.alloc())?);
    Ok(())
}

// The greatest distance of a key from a place.
fn distance(batch: &Batch, place: u64) -> u64 {
    let mut far = 0u64;
    for popped in batch.as_slice() {
        far = far.max(popped.key.abs_diff(place));
    }
    far
}

// Pushes each key once into two heaps, and pops all in turn. Returns the greatest distance of a key from its
// place in the order.
fn farthest<H: EntryHeap>(
    pool: &Pool<AnyPair, Global, H>,
    seat: &mut PoolSeat<AnyPair, Global, H>,
) -> u64
    requires { IsSeatOf pool.now seat.old }
    ensures { IsSeatOf pool.now seat.new × ((account_of seat.new).shares ≡ (account_of seat.old).shares) }
{
    for step in 0..10007u64 {
        let _ = pool.push_as(seat, step / 3, entry(key_at(step), 1));
    }
    let mut far = 0u64;
    for place in 0..10007u64 {
        far = far.max(distance(&pop_few(pool, seat, place, 1), place));
    }
    far
}

// The greatest distance with heaps of a kind and windows of a width.
fn farthest_by<H: OpenHeap<Global>>(alloc: Global, width: u64) -> Result<u64, OutOfMemory> {
    let (pool, mut seat) = Pool::<AnyPair, Global, H>::open_with(alloc, 2, width)?;
    Ok(farthest(&pool, &mut seat))
}

const NARROW: [u64; 4] = [0, 16, 64, 256];

// The first width with which a key is farther from its place than two windows.
fn first_too_far(alloc: Global) -> Result<Option<usize>, OutOfMemory> {
    for (place, width) in NARROW.iter().enumerate() {
        if farthest_by::<Buckets<Global>>(alloc, *width)? > 2 * *width {
            return Ok(Some(place));
        }
    }
    Ok(None)
}

// Keys are popped in their order; with buckets, off by no more than two windows.
#[test]
fn early_times_come_first(rt: HostRuntime) -> Result<(), Fail> {
    let far = farthest_by::<LeastHeap<Global>>(rt.alloc(), 0)?;
    assert_that(&rt, "least heaps keep the order", far == 0);
    assert_none_wrong(&rt, first_too_far(rt.alloc())?);
    Ok(())
}
