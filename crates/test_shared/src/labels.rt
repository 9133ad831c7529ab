// What no clause says: the worked examples, and threads on one table.
ghost use Rattle.std.specs.Prelude.{◌≡◌, ◌≤◌, ◌<◌};
ghost use Rattle.std.specs.Thread.{IsSync};

use crate::asserts::{assert_none_wrong, assert_that};
use ea_labels::{LabelSeat, Labels, Offered, OutOfMemory};
use ea_road::{AnyPair, Known, NONE};
use std::alloc::{Allocator, Global};
use std::test::Fail;
use std::thread::{Threads, join};

// Offers a time at node 1, then reads its label.
fn offer_and_read<K: Known>(
    labels: &Labels<K>,
    mut seat: LabelSeat<K>,
    time: u64,
) -> (LabelSeat<K>, Offered, u64)
    requires same_table { seat.table ≡ labels.now.table }
    requires node { 1 ≤ labels.now.nodes }
    requires known { K.is_known 1 time }
    ensures { (result.0.table ≡ seat.table) × (result.0.history.shares ≡ seat.history.shares) }
{
    let offered = labels.offer(&mut seat, 1, time);
    let read = labels.read(&mut seat, 1);
    (seat, offered, read)
}

// Two threads offer 10 and 8 and then read: the outcomes and the labels read.
fn offer_by_two<R: Threads + Sync>(
    rt: &R,
    labels: &Labels<AnyPair>,
    mut first: LabelSeat<AnyPair>,
) -> (LabelSeat<AnyPair>, (Offered, u64), (Offered, u64))
    requires table { (first.table ≡ labels.now.table) × (1 ≤ labels.now.nodes) }
    requires shares { 2 ≤ first.history.shares }
    ensures { (result.0.table ≡ first.table) × (result.0.history.shares ≡ first.history.shares) }
{
    let second = labels.split(&mut first);
    let ((mut first, offered, read), (second, by_second, read_second)) = join(
        rt,
        move || -> (LabelSeat<AnyPair>, Offered, u64)
            requires { (first.table ≡ labels.now.table) × (1 ≤ labels.now.nodes) }
            ensures { (result.0.table ≡ first.table) × (result.0.history.shares ≡ first.history.shares) }
        { offer_and_read(labels, first, 10) },
        move || -> (LabelSeat<AnyPair>, Offered, u64)
            requires { (second.table ≡ labels.now.table) × (1 ≤ labels.now.nodes) }
            ensures { (result.0.table ≡ second.table) × (result.0.history.shares ≡ second.history.shares) }
        { offer_and_read(labels, second, 8) },
    );
    labels.join(&mut first, second);
    (first, (offered, read), (by_second, read_second))
}

/// A thread's outcome, and the label that it read.
type Told = (Offered, u64);

// Whether the thread that offers 10 may see this: it lowers the label or finds 8, and reads one of both.
fn is_ten_told(told: Told) -> bool {
    let (offered, read) = told;
    (offered == Offered::Lowered || offered == Offered::Kept(8)) && (read == 10 || read == 8)
}

// Whether the thread that offers 8 may see this: it lowers the label, and reads 8.
fn is_eight_told(told: Told) -> bool {
    let (offered, read) = told;
    offered == Offered::Lowered && read == 8
}

// Whether two threads that offer at once see allowed results, and their table closes with the least offer.
fn are_two_told<R: Threads + Sync>(
    rt: &R,
    alloc: Global,
) -> Result<(bool, bool, bool), OutOfMemory> {
    let (labels, seat) = Labels::<AnyPair>::open(alloc, 2)?;
    let (seat, first, second) = offer_by_two(rt, &labels, seat);
    let words = labels.close(seat);
    let closed = words.as_slice() == [8, NONE].as_slice();
    Ok((is_ten_told(first), is_eight_told(second), closed))
}

#[test]
fn two_offers(rt: HostRuntime) -> Result<(), Fail> {
    for _round in 0..300 {
        let (first, second, closed) = are_two_told(&rt, rt.alloc())?;
        assert_that(&rt, "what the first is told", first);
        assert_that(&rt, "what the second is told", second);
        assert_that(&rt, "what the table closes with", closed);
    }
    Ok(())
}

// Whether node 2 of three has the right labels and outcomes while one seat offers 7, 5, 9 and 5: the label
// before, the outcome, and the label after, by either seat.
fn are_offers_told<A: Allocator>(
    labels: &Labels<AnyPair, A>,
    seat: &mut LabelSeat<AnyPair>,
    other: &mut LabelSeat<AnyPair>,
) -> bool
    requires tables { (seat.old.table ≡ labels.now.table) × (other.old.table ≡ labels.now.table) }
    requires nodes { labels.now.nodes ≡ 3 }
    ensures seat { (seat.new.table ≡ seat.old.table) × (seat.new.history.shares ≡ seat.old.history.shares) }
    ensures other { (other.new.table ≡ other.old.table) × (other.new.history.shares ≡ other.old.history.shares) }
{
    let mut right = labels.read(seat, 2) == NONE;
    right &= labels.offer(seat, 2, 7) == Offered::Lowered;
    right &= labels.offer(seat, 2, 5) == Offered::Lowered;
    right &= labels.offer(seat, 2, 9) == Offered::Kept(5);
    right &= labels.offer(seat, 2, 5) == Offered::Kept(5);
    right &= labels.read(seat, 2) == 5;
    right & (labels.read(other, 2) == 5)
}

// Whether two seats of a table of three nodes see that, have 63 shares and one, and 64 together.
fn are_two_seats_told<A: Allocator>(
    labels: &Labels<AnyPair, A>,
    seat: &mut LabelSeat<AnyPair>,
) -> (bool, bool)
    requires table { (seat.old.table ≡ labels.now.table) × (labels.now.nodes ≡ 3) }
    requires shares { 1 < seat.old.history.shares }
    ensures { (seat.new.table ≡ seat.old.table) × (seat.new.history.shares ≡ seat.old.history.shares) }
{
    let mut other = labels.split(seat);
    let told = are_offers_told(labels, seat, &mut other);
    let shares = seat.shares() == 63 && other.shares() == 1;
    labels.join(seat, other);
    (told, shares && seat.shares() == 64)
}

/// Whether two seats of a new table see the right results and have the right shares, and their table closes
/// with the label.
pub fn told_by_two_seats<A: Allocator + Copy>(alloc: A) -> Result<(bool, bool, bool), OutOfMemory> {
    let (labels, mut seat) = Labels::<AnyPair, A>::open(alloc, 3)?;
    let (told, shares) = are_two_seats_told(&labels, &mut seat);
    let words = labels.close(seat);
    Ok((told, shares, words.as_slice() == [NONE, 5, NONE].as_slice()))
}

#[test]
fn labels_two_seats(rt: HostRuntime) -> Result<(), Fail> {
    let (told, shares, closed) = told_by_two_seats(rt.alloc())?;
    assert_that(&rt, "what the seats are told", told);
    assert_that(&rt, "the shares of each and of both", shares);
    assert_that(&rt, "what the table closes with", closed);
    Ok(())
}

const NODES: u32 = 7;

const ROUNDS: u32 = 20000;

fn next(word: u64) -> u64 {
    word.wrapping_mul(6364136223846793005)
        .wrapping_add(1442695040888963407)
}

// The offer of a word: one of seven nodes, and a time that falls with the rounds.
fn offer_of(word: u64, round: u32) -> (u32, u64)
    requires { round < ROUNDS }
    ensures node { (1 ≤ result.0) × (result.0 ≤ NODES) }
    ensures time { result.1 ≤ 281474976710655 }
{
    let node = ((word >> 33) % u64::from(NODES)) as u32 + 1;
    let time = u64::from(ROUNDS - round) * 1000 + (word >> 40) % 4000;
    (node, time)
}

// Offers in each round, from a separate seed.
fn hammer(labels: &Labels<AnyPair>, mut seat: LabelSeat<AnyPair>, seed: u64) -> LabelSeat<AnyPair>
    requires { (seat.table ≡ labels.now.table) × (labels.now.nodes ≡ NODES) }
    ensures { (result.table ≡ seat.table) × (result.history.shares ≡ seat.history.shares) }
{
    let mut word = seed;
    for round in 0..ROUNDS {
        word = next(word);
        let (node, time) = offer_of(word, round);
        let _ = labels.offer(&mut seat, node, time);
    }
    seat
}

// Two threads that offer at once, by one seat.
fn hammer_twice<R: Threads + Sync>(
    rt: &R,
    labels: &Labels<AnyPair>,
    mut seat: LabelSeat<AnyPair>,
    seed: u64,
) -> LabelSeat<AnyPair>
    requires table { (seat.table ≡ labels.now.table) × (labels.now.nodes ≡ NODES) }
    requires shares { 2 ≤ seat.history.shares }
    requires seed { seed < 1000 }
    ensures { (result.table ≡ seat.table) × (result.history.shares ≡ seat.history.shares) }
{
    let other = labels.split(&mut seat);
    let (mut seat, other) = join(
        rt,
        move || -> LabelSeat<AnyPair>
            requires { (seat.table ≡ labels.now.table) × (labels.now.nodes ≡ NODES) }
            ensures { (result.table ≡ seat.table) × (result.history.shares ≡ seat.history.shares) }
        { hammer(labels, seat, seed) },
        move || -> LabelSeat<AnyPair>
            requires { (other.table ≡ labels.now.table) × (labels.now.nodes ≡ NODES) × (seed < 1000) }
            ensures { (result.table ≡ other.table) × (result.history.shares ≡ other.history.shares) }
        { hammer(labels, other, seed + 1) },
    );
    labels.join(&mut seat, other);
    seat
}

// Four threads that offer at once; two of them start two more.
fn hammer_four_times<R: Threads + Sync>(
    rt: &R,
    labels: &Labels<AnyPair>,
    mut seat: LabelSeat<AnyPair>,
) -> LabelSeat<AnyPair>
    requires table { (seat.table ≡ labels.now.table) × (labels.now.nodes ≡ NODES) }
    requires shares { 4 ≤ seat.history.shares }
    ensures { (result.table ≡ seat.table) × (result.history.shares ≡ seat.history.shares) }
{
    let mut other = labels.split(&mut seat);
    let more = labels.split(&mut seat);
    labels.join(&mut other, more);
    let (mut seat, other) = join(
        rt,
        move || -> LabelSeat<AnyPair>
            requires { (seat.table ≡ labels.now.table) × (labels.now.nodes ≡ NODES)
                × (2 ≤ seat.history.shares) × IsSync R.row }
            ensures { (result.table ≡ seat.table) × (result.history.shares ≡ seat.history.shares) }
        { hammer_twice(rt, labels, seat, 1) },
        move || -> LabelSeat<AnyPair>
            requires { (other.table ≡ labels.now.table) × (labels.now.nodes ≡ NODES)
                × (2 ≤ other.history.shares) × IsSync R.row }
            ensures { (result.table ≡ other.table) × (result.history.shares ≡ other.history.shares) }
        { hammer_twice(rt, labels, other, 3) },
    );
    labels.join(&mut seat, other);
    seat
}

// The least time that the four seeds offer a node.
fn least_offer(node: u32) -> u64 {
    let mut least = NONE;
    for seed in 1..5 {
        let mut word = seed;
        for round in 0..ROUNDS {
            word = next(word);
            let (at, time) = offer_of(word, round);
            if at == node {
                least = least.min(time);
            }
        }
    }
    least
}

// The first node whose word is not the least time offered.
fn wrong_word(words: &[u64]) -> Option<usize> {
    for node in 1..NODES + 1 {
        if words.get(node as usize - 1) != Some(&least_offer(node)) {
            return Some(node as usize);
        }
    }
    None
}

// How many words four threads leave, and the first that is wrong.
fn left_by_four<R: Threads + Sync>(
    rt: &R,
    alloc: Global,
) -> Result<(usize, Option<usize>), OutOfMemory> {
    let (labels, seat) = Labels::<AnyPair>::open(alloc, NODES)?;
    let seat = hammer_four_times(rt, &labels, seat);
    let words = labels.close(seat);
    Ok((words.len(), wrong_word(words.as_slice())))
}

#[test]
fn four_threads_leave_the_least(rt: HostRuntime) -> Result<(), Fail> {
    let (words, wrong) = left_by_four(&rt, rt.alloc())?;
    assert_that(&rt, "seven words", words == 7);
    assert_none_wrong(&rt, wrong);
    Ok(())
}
