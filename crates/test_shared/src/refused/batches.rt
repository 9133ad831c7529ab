// Batches into heaps of both kinds, with growth refused in the middle of them.
ghost use Rattle.std.specs.Prelude.{◌≡◌, ◌<◌, ◌≤◌};
ghost use Rattle.arrayvec.specs.ArrayVec.{array_vec_len};
ghost use Rattle.ea_base.specs.declared.limits.TheConstants.{HORIZON};
ghost use Rattle.ea_pool.specs.Entries.{AreKnown};
ghost use Rattle.ea_pool.specs.Seats.{account_of, IsSeatOf};

use crate::asserts::{assert_none_wrong, assert_that};
use crate::heaps::{add, entry};
use crate::refused::pool::count;
use ea_pool::{
    Batch, Buckets, ClosedPool, EntryHeap, LeastHeap, OpenHeap, Pool, PoolSeat, PoppedSome,
    PushAllRefused,
};
use ea_road::AnyPair;
use linked_list_allocator::LocalHeap;
use std::alloc::{AllocError, Allocator, Global};
use std::test::Fail;

/// The number of keys, each pushed once.
const KEYS: u64 = 600;

/// The numbers below 600 in another order, which go into lists of many bits: 131 and 600 have no common
/// divisor.
fn key_at(number: u64) -> u64
    ensures { result < 600 }
{
    (number % KEYS) * 131 % KEYS
}

/// Four entries with different keys.
fn four(step: u64) -> Batch
    requires { step < 150 }
    ensures len { array_vec_len result ≡ 4 }
    ensures in_time { AreKnown (λ node time. time ≤ HORIZON) result.items }
{
    let mut batch = Batch::new();
    add(&mut batch, entry(key_at(4 * step), 1));
    add(&mut batch, entry(key_at(4 * step + 1), 1));
    add(&mut batch, entry(key_at(4 * step + 2), 1));
    add(&mut batch, entry(key_at(4 * step + 3), 1));
    batch
}

/// Counts the entries of a batch by key.
fn count_batch(counts: &mut [u32], batch: &Batch) {
    for entry in batch.as_slice() {
        count(counts, *entry);
    }
}

/// Whether a batch has the first entries of the four, in their order.
fn is_front_of_four(batch: &Batch, step: u64) -> bool
    requires { step < 150 }
{
    four(step).as_slice().starts_with(batch.as_slice())
}

/// Pushes four entries. Counts what is left of them, and checks it. Returns whether memory was refused.
fn push_four<A: Allocator, H: EntryHeap>(
    pool: &Pool<AnyPair, A, H>,
    seat: &mut PoolSeat<AnyPair, A, H>,
    counts: &mut [u32],
    step: u64,
    right: &mut bool,
) -> bool
    requires step { step < 150 }
    requires seat { IsSeatOf pool.now seat.old }
    ensures seat { IsSeatOf pool.now seat.new }
    ensures shares { (account_of seat.new).shares ≡ (account_of seat.old).shares }
{
    let mut batch = four(step);
    let answer = pool.push_all_as(seat, step / 5, &mut batch);
    count_batch(counts, &batch);
    *right &= match answer {
        Ok(()) => batch.is_empty(),
        Err(PushAllRefused::Busy) => false,
        Err(PushAllRefused::OutOfMemory) => !batch.is_empty() && is_front_of_four(&batch, step),
    };
    answer.is_err()
}

/// Pops at most three entries and counts them.
fn pop_three<A: Allocator, H: EntryHeap>(
    pool: &Pool<AnyPair, A, H>,
    seat: &mut PoolSeat<AnyPair, A, H>,
    counts: &mut [u32],
    word: u64,
    right: &mut bool,
)
    requires { IsSeatOf pool.now seat.old }
    ensures seat { IsSeatOf pool.now seat.new }
    ensures shares { (account_of seat.new).shares ≡ (account_of seat.old).shares }
{
    let mut batch = Batch::new();
    let answer = pool.pop_some_as(seat, word, word, 3, &mut batch);
    count_batch(counts, &batch);
    *right &= batch.is_empty() == (answer == PoppedSome::Empty);
}

/// Counts what is left in a closed pool.
fn count_rest<A: Allocator, H: EntryHeap>(counts: &mut [u32], mut left: ClosedPool<A, H>) {
    for _ in 0..u64::MAX {
        match left.next_of_any() {
            Some(entry) => count(counts, entry),
            None => break,
        }
    }
}

/// Pushes all keys by fours, with a pop after every other push. Returns how many pushes were refused.
fn push_and_pop<A: Allocator, H: EntryHeap>(
    pool: &Pool<AnyPair, A, H>,
    seat: &mut PoolSeat<AnyPair, A, H>,
    counts: &mut [u32],
    right: &mut bool,
) -> u32
    requires { IsSeatOf pool.now seat.old }
    ensures seat { IsSeatOf pool.now seat.new }
    ensures shares { (account_of seat.new).shares ≡ (account_of seat.old).shares }
{
    let mut refused = 0u32;
    for step in 0..150 {
        if push_four(pool, seat, counts, step, right) {
            refused = refused.wrapping_add(1);
        }
        if step % 2 == 0 {
            pop_three(pool, seat, counts, step / 2, right);
        }
    }
    refused
}

/// How often pushes were refused with this little memory; none if the pool was.
fn refused_within<'a, H: OpenHeap<&'a LocalHeap>>(
    memory: &'a LocalHeap,
    counts: &mut [u32],
    right: &mut bool,
) -> Option<u32> {
    let Ok((pool, mut seat)) = Pool::<AnyPair, &'a LocalHeap, H>::open_with(memory, 3, 64) else {
        return None;
    };
    let refused = push_and_pop(&pool, &mut seat, counts, right);
    count_rest(counts, pool.close(seat));
    Some(refused)
}

/// The outcomes with more and more memory: how often the pool was refused, and how often it was opened and
/// all or some pushes were refused. Each entry is there once, whatever was refused.
fn tries<'a, H: OpenHeap<&'a LocalHeap>>(
    memory: &'a LocalHeap,
    counts: &mut [u32],
    tally: &mut [u32; 3],
) -> bool {
    let mut right = true;
    match refused_within::<H>(memory, counts, &mut right) {
        None => {
            tally[0] = tally[0].wrapping_add(1);
            right
        }
        Some(refused) => {
            tally[1] = tally[1].wrapping_add(1);
            if refused > 0 {
                tally[2] = tally[2].wrapping_add(1);
            }
            right && counts.iter().all(|&count| count == 1)
        }
    }
}

/// Whether buckets with this much memory behave as expected, and free it.
fn try_buckets(alloc: Global, bytes: usize, tally: &mut [u32; 3]) -> Result<bool, AllocError> {
    let mut counts = [0u32; 600];
    let memory = LocalHeap::new(alloc, bytes)?;
    let right = tries::<Buckets<&LocalHeap>>(&memory, counts.as_mut_slice(), tally);
    Ok(right && memory.used() == 0)
}

/// The first of sixty growing memories with which buckets don't behave as expected.
fn wrong_buckets(alloc: Global, tally: &mut [u32; 3]) -> Result<Option<usize>, AllocError> {
    for step in 0..60 {
        if !try_buckets(alloc, 2048 + 512 * step, tally)? {
            return Ok(Some(step));
        }
    }
    Ok(None)
}

#[test]
fn buckets_refused_in_the_middle_of_a_batch(rt: HostRuntime) -> Result<(), Fail> {
    let mut tally = [0u32; 3];
    assert_none_wrong(&rt, wrong_buckets(rt.alloc(), &mut tally)?);
    assert_that(&rt, "some pools are not opened", 4 <= tally[0]);
    assert_that(&rt, "some are opened", 8 <= tally[1]);
    assert_that(&rt, "some refuse pushes", 8 <= tally[2]);
    Ok(())
}

/// Whether least heaps with this much memory behave as expected, and free it.
fn try_least(alloc: Global, bytes: usize, tally: &mut [u32; 3]) -> Result<bool, AllocError> {
    let mut counts = [0u32; 600];
    let memory = LocalHeap::new(alloc, bytes)?;
    let right = tries::<LeastHeap<&LocalHeap>>(&memory, counts.as_mut_slice(), tally);
    Ok(right && memory.used() == 0)
}

/// The first of forty growing memories with which least heaps don't behave as expected.
fn wrong_least(alloc: Global, tally: &mut [u32; 3]) -> Result<Option<usize>, AllocError> {
    for step in 0..40 {
        if !try_least(alloc, 512 + 256 * step, tally)? {
            return Ok(Some(step));
        }
    }
    Ok(None)
}

#[test]
fn least_heaps_refused_in_the_middle_of_a_batch(rt: HostRuntime) -> Result<(), Fail> {
    let mut tally = [0u32; 3];
    assert_none_wrong(&rt, wrong_least(rt.alloc(), &mut tally)?);
    assert_that(&rt, "some pools are not opened", 1 <= tally[0]);
    assert_that(&rt, "some are opened", 8 <= tally[1]);
    assert_that(&rt, "some refuse pushes", 8 <= tally[2]);
    Ok(())
}
