// Heaps of many entries, 128 heaps, and calls of one seat without any other.
ghost use Rattle.std.specs.Prelude.{◌≡◌, ◌<◌, ◌≤◌, ◌+◌};
ghost use Rattle.arrayvec.specs.ArrayVec.{array_vec_len};
ghost use Rattle.ea_pool.specs.Entries.{AreKnown};
ghost use Rattle.ea_pool.specs.Seats.{account_of, IsSeatOf};
ghost use Rattle.ea_base.specs.declared.limits.TheConstants.{SHARES};

use crate::asserts::{assert_none_wrong, assert_that};
use ea_base::HORIZON;
use ea_labels::{LabelSeat, Labels, Offered};
use ea_pool::{
    Batch, ClosedPool, Entry, MOST_IN_BATCH, OutOfMemory, Pool, PoolSeat, Popped, PoppedSome, Solo,
};
use ea_road::{AnyPair, NONE};
use std::alloc::{Allocator, Global};
use std::test::Fail;

pub fn entry(key: u64, node: u32) -> Entry
    ensures { (result.key ≡ key) × (result.node ≡ node) }
{
    Entry { key, node }
}

/// The numbers from 0 to 10,006 in another order: 10,007 is a prime.
pub fn key_at(step: u64) -> u64
    ensures { result < 10007 }
{
    (step % 10007) * 7919 % 10007
}

const MANY: u64 = 10_007;

/// A step on heaps by known words: pushes an entry of this key and node, or pops it.
#[derive(Clone, Copy)]
pub enum Step {
    In(u64, u64, u32),
    Out(u64, u64, Option<(u64, u32)>),
}

/// The key and the node of a popped entry.
pub fn shown(out: Option<Entry>) -> Option<(u64, u32)> {
    match out {
        Some(entry) => Some((entry.key, entry.node)),
        None => None,
    }
}

/// The first of the steps that goes wrong; the number of steps if another number of entries is left.
pub fn wrong_in_solo<A: Allocator>(
    solo: &mut Solo<A>,
    steps: &[Step],
    left: u128,
) -> Option<usize> {
    for (place, step) in steps.iter().enumerate() {
        let right = match step {
            Step::In(word, key, node) => solo.push_at(*word, entry(*key, *node)).is_ok(),
            Step::Out(first, second, out) => shown(solo.pop_at(*first, *second)) == *out,
        };
        if !right {
            return Some(place);
        }
    }
    if solo.len() == left {
        None
    } else {
        Some(steps.len())
    }
}

/// Pushes this many entries into two heaps, and returns how many went in.
fn push_many_to_solo(solo: &mut Solo) -> u64 {
    let mut pushed = 0u64;
    for step in 0..MANY {
        if solo.push_at(step % 10 / 9, entry(key_at(step), 1)).is_ok() {
            pushed = pushed.wrapping_add(1);
        }
    }
    pushed
}

/// Pops as often, and returns how many pops gave the keys in their order.
fn pop_many_of_solo(solo: &mut Solo) -> u64 {
    let mut popped = 0u64;
    for key in 0..MANY {
        if shown(solo.pop_at(0, 0)) == Some((key, 1)) {
            popped = popped.wrapping_add(1);
        }
    }
    popped
}

const NOTHING_LEFT: [Step; 1] = [Step::Out(0, 0, None)];

#[test]
fn solo_of_more_than_a_thousand_entries(rt: HostRuntime) -> Result<(), Fail> {
    let mut solo = Solo::new(rt.alloc(), 2)?;
    assert_that(
        &rt,
        "all go in",
        push_many_to_solo(&mut solo) == MANY && solo.len() == 10_007,
    );
    assert_that(
        &rt,
        "all come out in their order",
        pop_many_of_solo(&mut solo) == MANY,
    );
    assert_none_wrong(&rt, wrong_in_solo(&mut solo, &NOTHING_LEFT, 0));
    Ok(())
}

const TO_THE_HORIZON: [Step; 7] = [
    Step::In(0, HORIZON, 1),
    Step::In(1, HORIZON, 2),
    Step::In(1, HORIZON - 1, 3),
    Step::Out(0, 0, Some((HORIZON - 1, 3))),
    Step::Out(0, 0, Some((HORIZON, 1))),
    Step::Out(0, 0, Some((HORIZON, 2))),
    Step::Out(0, 0, None),
];

#[test]
fn solo_takes_a_key_of_the_horizon(rt: HostRuntime) -> Result<(), Fail> {
    let mut solo = Solo::new(rt.alloc(), 2)?;
    assert_none_wrong(&rt, wrong_in_solo(&mut solo, &TO_THE_HORIZON, 0));
    Ok(())
}

/// A push uses the whole word: the heap drawn by its lowest six bits stays empty.
const FAR_IN_SOLO: [Step; 12] = [
    Step::In(127, 5, 1),
    Step::Out(63, 0, None),
    Step::Out(127, 0, Some((5, 1))),
    Step::In(u64::MAX, 5, 2),
    Step::Out(63, 0, None),
    Step::Out(u64::MAX, 0, Some((5, 2))),
    Step::In(128 + 100, 5, 3),
    Step::Out(36, 0, None),
    Step::Out(128 + 100, 0, Some((5, 3))),
    Step::In(64, 5, 4),
    Step::Out(0, 0, None),
    Step::Out(64, 0, Some((5, 4))),
];

/// Pushes a key into each of 128 heaps, and returns how many went in.
fn push_each(solo: &mut Solo) -> u64 {
    let mut pushed = 0u64;
    for word in 0..128 {
        if solo.push_at(word, entry(word, 1)).is_ok() {
            pushed = pushed.wrapping_add(1);
        }
    }
    pushed
}

/// Pops each key from its heap, and returns how many were popped. The second heap is the one before the
/// first, or the last: it is empty, or has a greater key.
fn pop_each(solo: &mut Solo) -> u64 {
    let mut popped = 0u64;
    for word in 0..128 {
        if shown(solo.pop_at(word, 126)) == Some((word, 1)) {
            popped = popped.wrapping_add(1);
        }
    }
    popped
}

#[test]
fn solo_of_128_heaps(rt: HostRuntime) -> Result<(), Fail> {
    let mut solo = Solo::new(rt.alloc(), 128)?;
    assert_none_wrong(&rt, wrong_in_solo(&mut solo, &FAR_IN_SOLO, 0));
    assert_that(
        &rt,
        "each goes in",
        push_each(&mut solo) == 128 && solo.len() == 128,
    );
    assert_that(
        &rt,
        "each comes out",
        pop_each(&mut solo) == 128 && solo.len() == 0,
    );
    Ok(())
}

/// The result of a pop that gives this entry.
fn popped(out: Option<(u64, u32)>) -> Popped {
    match out {
        Some((key, node)) => Popped::Entry(entry(key, node)),
        None => Popped::Empty,
    }
}

/// Whether a step by a seat goes as expected. Its key is at most the horizon.
fn goes_so<A: Allocator>(
    pool: &Pool<AnyPair, A>,
    seat: &mut PoolSeat<AnyPair, A>,
    step: Step,
) -> bool
    requires { IsSeatOf pool.now seat.old }
    ensures { IsSeatOf pool.now seat.new × ((account_of seat.new).shares ≡ (account_of seat.old).shares) }
{
    match step {
        Step::In(word, key, node) => {
            pool.push_as(seat, word, entry(key.min(HORIZON), node))
                .is_ok()
        }
        Step::Out(first, second, out) => pool.pop_as(seat, first, second) == popped(out),
    }
}

/// The first of the steps by a seat that goes wrong.
pub fn wrong_step<A: Allocator>(
    pool: &Pool<AnyPair, A>,
    seat: &mut PoolSeat<AnyPair, A>,
    steps: &[Step],
) -> Option<usize>
    requires { IsSeatOf pool.now seat.old }
    ensures { IsSeatOf pool.now seat.new × ((account_of seat.new).shares ≡ (account_of seat.old).shares) }
{
    let mut place = 0usize;
    for step in steps {
        if !goes_so(pool, seat, *step) {
            return Some(place);
        }
        place = place.wrapping_add(1);
    }
    None
}

/// The first of the steps by the one seat of a new pool that goes wrong.
pub fn wrong_step_alone(
    alloc: Global,
    heaps: usize,
    steps: &[Step],
) -> Result<Option<usize>, OutOfMemory>
    requires { (2 ≤ heaps) × (heaps ≤ 128) }
{
    let (pool, mut seat) = Pool::<AnyPair>::open(alloc, heaps)?;
    Ok(wrong_step(&pool, &mut seat, steps))
}

const FAR: [Step; 10] = [
    Step::In(127, 5, 1),
    Step::Out(63, 0, None),
    Step::Out(126, 126, None),
    Step::Out(127, 0, Some((5, 1))),
    Step::In(u64::MAX, 5, 2),
    Step::Out(63, 0, None),
    Step::Out(126, 0, Some((5, 2))),
    Step::In(64, 5, 3),
    Step::Out(0, 0, None),
    Step::Out(64, 0, Some((5, 3))),
];

#[test]
fn pool_of_128_heaps(rt: HostRuntime) -> Result<(), Fail> {
    assert_none_wrong(&rt, wrong_step_alone(rt.alloc(), 128, &FAR)?);
    Ok(())
}

/// Whether the entries left are popped in the order of their keys.
pub fn come_out<A: Allocator>(mut left: ClosedPool<A>, outs: &[Option<(u64, u32)>]) -> bool {
    let mut right = true;
    for out in outs {
        right &= shown(left.next()) == *out;
    }
    right
}

/// Whether the four entries of two seats are popped in their order, one by a pop and the rest from the closed
/// pool.
pub fn gives_four<A: Allocator>(pool: Pool<AnyPair, A>, mut seat: PoolSeat<AnyPair, A>) -> bool
    requires { IsSeatOf pool seat × ((account_of seat).shares ≡ SHARES) }
{
    let least = pool.pop_as(&mut seat, 2, 0) == Popped::Entry(entry(1, 4));
    let rest = come_out(pool.close(seat), &REST_OF_FOUR);
    least && rest
}

const REST_OF_FOUR: [Option<(u64, u32)>; 5] = [
    Some((2, 3)),
    Some((3, 2)),
    Some((4, 1)),
    None,
    None,
];

// Pushes this many entries, and returns how many went in.
fn push_many(pool: &Pool<AnyPair>, seat: &mut PoolSeat<AnyPair>) -> u64
    requires { IsSeatOf pool.now seat.old }
    ensures { IsSeatOf pool.now seat.new × ((account_of seat.new).shares ≡ (account_of seat.old).shares) }
{
    let mut pushed = 0u64;
    for step in 0..MANY {
        let refused = pool.push_as(seat, step, entry(key_at(step), 1)).is_err();
        if !refused {
            pushed = pushed.wrapping_add(1);
        }
    }
    pushed
}

// Pops as often, and returns how many pops gave the keys in their order.
fn pop_many(pool: &Pool<AnyPair>, seat: &mut PoolSeat<AnyPair>) -> u64
    requires { IsSeatOf pool.now seat.old }
    ensures { IsSeatOf pool.now seat.new × ((account_of seat.new).shares ≡ (account_of seat.old).shares) }
{
    let mut popped = 0u64;
    for step in 0..MANY {
        if pool.pop_as(seat, step, step) == Popped::Entry(entry(step, 1)) {
            popped = popped.wrapping_add(1);
        }
    }
    popped
}

// Whether all of them are pushed and popped, and a pop finds nothing then.
fn go_through(pool: &Pool<AnyPair>, seat: &mut PoolSeat<AnyPair>) -> bool
    requires { IsSeatOf pool.now seat.old }
    ensures { IsSeatOf pool.now seat.new × ((account_of seat.new).shares ≡ (account_of seat.old).shares) }
{
    let pushed = push_many(pool, seat);
    let popped = pop_many(pool, seat);
    pool.pop_as(seat, 0, 0) == Popped::Empty && pushed == MANY && popped == MANY
}

// Whether all are pushed and popped by a seat alone and with another one that holds nothing, and nothing is
// left.
fn go_through_by_one(alloc: Global) -> Result<(bool, bool, bool), OutOfMemory> {
    let (pool, mut seat) = Pool::<AnyPair>::open(alloc, 2)?;
    let alone = go_through(&pool, &mut seat);
    let other = pool.split(&mut seat);
    let beside = go_through(&pool, &mut seat);
    pool.join(&mut seat, other);
    Ok((alone, beside, come_out(pool.close(seat), &[None])))
}

/// With one seat no push is refused or reports refused memory. Another seat that holds nothing doesn't change
/// that.
#[test]
fn nothing_is_refused_where_nothing_stands_in_the_way(rt: HostRuntime) -> Result<(), Fail> {
    let (alone, beside, empty) = go_through_by_one(rt.alloc())?;
    assert_that(&rt, "all go through by a seat alone", alone);
    assert_that(&rt, "all go through beside another seat", beside);
    assert_that(&rt, "nothing is left", empty);
    Ok(())
}

// Offers node 2 falling times, each twice, and returns how many lowered its label.
fn lower(labels: &Labels<AnyPair>, seat: &mut LabelSeat<AnyPair>) -> u64
    requires { (seat.old.table ≡ labels.now.table) × (labels.now.nodes ≡ 2) }
    ensures { seat.new.table ≡ seat.old.table }
{
    let mut lowered = 0u64;
    for step in 0..2 * MANY {
        if labels.offer(seat, 2, MANY - step / 2) == Offered::Lowered {
            lowered = lowered.wrapping_add(1);
        }
    }
    lowered
}

// How many lowered it, and the labels of nodes 2 and 1 afterwards.
fn lowered_alone(alloc: Global) -> Result<(u64, u64, u64), OutOfMemory> {
    let (labels, mut seat) = Labels::<AnyPair>::open(alloc, 2)?;
    let lowered = lower(&labels, &mut seat);
    let least = labels.read(&mut seat, 2);
    Ok((lowered, least, labels.read(&mut seat, 1)))
}

/// Each offer of one seat alone that is below the label lowers it.
#[test]
fn each_lower_offer_lowers(rt: HostRuntime) -> Result<(), Fail> {
    let (lowered, least, other) = lowered_alone(rt.alloc())?;
    assert_that(&rt, "each lowers", lowered == MANY);
    assert_that(&rt, "the labels", least == 1 && other == NONE);
    Ok(())
}

// Appends an entry that is in time.
pub fn add(batch: &mut Batch, new: Entry)
    requires room { array_vec_len batch.old < MOST_IN_BATCH }
    requires in_time { AreKnown (λ node time. time ≤ HORIZON) batch.old.items × (new.key ≤ HORIZON) }
    ensures len { array_vec_len batch.new ≡ array_vec_len batch.old + 1 }
    ensures in_time { AreKnown (λ node time. time ≤ HORIZON) batch.new.items }
{
    batch.push(new);
}

// Three entries, the least in the middle.
fn three() -> Batch
    ensures len { array_vec_len result ≡ 3 }
    ensures in_time { AreKnown (λ node time. time ≤ HORIZON) result.items }
{
    let mut batch = Batch::new();
    add(&mut batch, entry(5, 1));
    add(&mut batch, entry(3, 1));
    add(&mut batch, entry(4, 1));
    batch
}

// Whether a pop of at most two entries into a batch has this result and leaves this batch.
fn pops_two(
    pool: &Pool<AnyPair>,
    seat: &mut PoolSeat<AnyPair>,
    batch: &mut Batch,
    answer: PoppedSome,
    entries: &[Entry],
) -> bool
    requires seat { IsSeatOf pool.now seat.old }
    requires room { array_vec_len batch.old + 2 ≤ MOST_IN_BATCH }
    ensures { IsSeatOf pool.now seat.new }
{
    let right = pool.pop_some_as(seat, 0, 0, 2, batch) == answer;
    right && batch.as_slice() == entries
}

const FIRST_TWO: [Entry; 2] = [Entry { key: 3, node: 1 }, Entry { key: 4, node: 1 }];

const LAST: [Entry; 1] = [Entry { key: 5, node: 1 }];

// Whether three entries are pushed whole.
fn push_three(pool: &Pool<AnyPair>, seat: &mut PoolSeat<AnyPair>) -> bool
    requires { IsSeatOf pool.now seat.old }
    ensures { IsSeatOf pool.now seat.new }
{
    let mut batch = three();
    pool.push_all_as(seat, 0, &mut batch).is_ok() && batch.is_empty()
}

// Whether they are popped by twos, and a batch with the last of them takes no more.
fn come_out_by_twos(pool: &Pool<AnyPair>, seat: &mut PoolSeat<AnyPair>) -> bool
    requires { IsSeatOf pool.now seat.old }
{
    let mut first = Batch::new();
    let mut right = pops_two(pool, seat, &mut first, PoppedSome::Entries, &FIRST_TWO);
    let mut second = Batch::new();
    right &= pops_two(pool, seat, &mut second, PoppedSome::Entries, &LAST);
    if second.len() == 1 {
        right &= pops_two(pool, seat, &mut second, PoppedSome::Empty, &LAST);
    }
    right
}

// Whether three entries are pushed and popped by twos.
fn three_come_out(alloc: Global) -> Result<(bool, bool), OutOfMemory> {
    let (pool, mut seat) = Pool::<AnyPair>::open(alloc, 2)?;
    let pushed = push_three(&pool, &mut seat);
    Ok((pushed, come_out_by_twos(&pool, &mut seat)))
}

/// A batch is pushed into one heap whole, and popped by twos, the least first.
#[test]
fn batch_of_two(rt: HostRuntime) -> Result<(), Fail> {
    let (pushed, popped) = three_come_out(rt.alloc())?;
    assert_that(&rt, "three go in", pushed);
    assert_that(&rt, "they come out by twos", popped);
    Ok(())
}
