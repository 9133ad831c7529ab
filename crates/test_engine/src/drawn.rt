//! Which heaps are inspected: seeds and pops with known words over eight heaps.
use crate::ran::{
    Count, Wanted, assert_told, constants, posed, run_crew_on_four, run_with, singly, total,
    wrong_beside,
};
use ea_engine::{Flow, NoGate, Turn};
use rand_core::Rng;
use std::alloc::Global;
use std::sync::atomic::{AtomicU64, Ordering};
use std::test::Fail;
use std::thread::Threads;
use test_support::in_turn::InTurn;
use test_support::networks::{FOUR_NODES, Given, Row};
use test_support::numbered::Numbered;

/// How many entries a run of few turns seeded and popped, and the node of its last turn.
type Few = (u128, u64, u64);

/// One worker makes this many turns over eight heaps.
fn run_turns<H: Threads + Sync, R: Rng + Send + Drop>(
    alloc: Global,
    rt: &H,
    given: &Given,
    rng: R,
    turns: u64,
) -> Result<Few, Fail> {
    let shown = AtomicU64::new(0);
    let node = &shown;
    let tracer = move |turn: Turn| -> Flow {
        node.store(u64::from(turn.node), Ordering::SeqCst);
        Flow::Go
    };
    let came = run_with(alloc, rt, given, singly(1, 8, turns), rng, tracer)?;
    Ok((
        came.seeded,
        total(&came, Count::Popped),
        shown.load(Ordering::SeqCst),
    ))
}

/// Sources, the two words between which a generator alternates, the number of turns, and the outcome on
/// four-nodes.
type Case = (&'static [(u32, u64)], u64, u64, u64, Few);

/// The outcome of a case.
fn run_case<H: Threads + Sync>(alloc: Global, rt: &H, case: &Case) -> Result<Few, Fail> {
    let (sources, word, next, turns, _) = *case;
    let given = posed(alloc, 4, &FOUR_NODES, sources)?;
    run_turns(alloc, rt, &given, InTurn { word, next }, turns)
}

/// The index of the first case with another outcome.
fn wrong_case<H: Threads + Sync>(
    alloc: Global,
    rt: &H,
    cases: &[Case],
) -> Result<Option<usize>, Fail> {
    for (place, case) in cases.iter().enumerate() {
        if run_case(alloc, rt, case)? != case.4 {
            return Ok(Some(place));
        }
    }
    Ok(None)
}

const THREE: &[(u32, u64)] = &[(1, 0), (1, 0), (2, 0)];

const SEEDS: [Case; 3] = [
    (THREE, 0, 0, 1, (2, 1, 1)),
    (THREE, 1, 1, 1, (2, 1, 2)),
    (THREE, 2, 2, 1, (2, 0, 0)),
];

/// Each push takes a word, not each source: the third source's entry is in heap 1.
#[test]
fn seeds_take_words_where_they_are_pushed(rt: HostRuntime) -> Result<(), Fail> {
    assert_told(&rt, wrong_case(rt.alloc(), &rt, &SEEDS))
}

const ONE: &[(u32, u64)] = &[(1, 0)];

const POPS: [Case; 4] = [
    (ONE, 0, 3, 1, (1, 1, 1)),
    (ONE, 3, 0, 1, (1, 0, 0)),
    (ONE, 9, 6, 1, (1, 1, 1)),
    (ONE, 6, 9, 1, (1, 0, 0)),
];

/// The one entry is in heap 0, which a pop inspects by its first word or by its second.
#[test]
fn pop_draws_two_words_in_their_order(rt: HostRuntime) -> Result<(), Fail> {
    assert_told(&rt, wrong_case(rt.alloc(), &rt, &POPS))
}

const PUSH: [Case; 1] = [(&[(2, 0)], 3, 11, 2, (1, 2, 4))];

/// The first turn inspects heaps 3 and 0, pops the seed and pushes one entry with word 3; the second finds it
/// in heap 3.
#[test]
fn push_goes_to_the_heap_of_its_word(rt: HostRuntime) -> Result<(), Fail> {
    assert_told(&rt, wrong_case(rt.alloc(), &rt, &PUSH))
}

/// The index of the first wrong count in a run of two workers with eight heaps each, whose generators return
/// only this word; the number of counts if they pop entries although they shouldn't, or the reverse.
fn wrong_two<H: Threads + Sync>(
    alloc: Global,
    rt: &H,
    word: u64,
    pops: bool,
    wanted: &[Wanted],
) -> Result<Option<usize>, Fail> {
    let rngs = constants(alloc, 2, word)?;
    let came = run_crew_on_four(alloc, rt, 8, 100, rngs, &NoGate)?;
    let right = (total(&came, Count::Popped) > 0) == pops;
    Ok(wrong_beside(&came, right, wanted))
}

const OF_TWO: [Wanted; 7] = [
    (Count::Seeded, 1),
    (Count::Drained, 1),
    (Count::Finish, 1),
    (Count::Workers, 2),
    (Count::Turns, 32),
    (Count::Empty, 32),
    (Count::Popped, 0),
];

/// A word, whether two workers pop entries by it, and the counts.
type OfWord = (u64, bool, &'static [Wanted]);

/// Words 16 and 32 draw heap 0 of sixteen.
const WORDS: [OfWord; 5] = [
    (2, false, &OF_TWO),
    (8, false, &OF_TWO),
    (24, false, &OF_TWO),
    (16, true, &[]),
    (32, true, &[]),
];

/// The index of the first word by which two workers run differently.
fn wrong_word<H: Threads + Sync>(alloc: Global, rt: &H) -> Result<Option<usize>, Fail> {
    for (place, (word, pops, wanted)) in WORDS.iter().enumerate() {
        if wrong_two(alloc, rt, *word, *pops, wanted)?.is_some() {
            return Ok(Some(place));
        }
    }
    Ok(None)
}

/// Two workers with eight heaps each share sixteen: words 8 and 24 draw heap 8 and another; with eight heaps
/// they would draw the seed's.
#[test]
fn heaps_are_as_many_for_each_worker(rt: HostRuntime) -> Result<(), Fail> {
    assert_told(&rt, wrong_word(rt.alloc(), &rt))
}

/// Six arcs of one node among others, with different orders of heads, of weights and of arcs.
const FAN: [Row; 8] = [
    (2, 7, 90, 0),
    (1, 5, 6, 0),
    (1, 3, 50, 0),
    (1, 7, 30, 0),
    (3, 2, 90, 0),
    (1, 2, 20, 0),
    (1, 6, 70, 0),
    (1, 4, 10, 0),
];

/// This many turns on the fan, with words that count.
fn run_on_fan<H: Threads + Sync>(alloc: Global, rt: &H, turns: u64) -> Result<Few, Fail> {
    let given = posed(alloc, 7, &FAN, &[(1, 0)])?;
    run_turns(alloc, rt, &given, Numbered(0), turns)
}

/// The node of each number of turns on the fan, from one turn on.
const ON_FAN: [u64; 5] = [1, 3, 5, 7, 6];

/// The index of the first number of turns with another outcome.
fn wrong_on_fan<H: Threads + Sync>(alloc: Global, rt: &H) -> Result<Option<usize>, Fail> {
    for (place, node) in ON_FAN.iter().enumerate() {
        let turns = place as u64 + 1;
        if run_on_fan(alloc, rt, turns)? != (1, turns, *node) {
            return Ok(Some(place));
        }
    }
    Ok(None)
}

/// The words count: 0 and 1 pop the seed from heap 0, and then 2 to 7 push the heads to heaps 2 to 7 in the
/// order of the arcs. The next turns inspect heaps 0 and 3, 2 and 7, 4 and 3, 6 and 0.
#[test]
fn arcs_are_followed_in_ascending_order(rt: HostRuntime) -> Result<(), Fail> {
    assert_told(&rt, wrong_on_fan(rt.alloc(), &rt))
}
