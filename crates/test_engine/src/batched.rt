//! Runs with batches of several entries.
use crate::counted::{Visit, Watched, wrong_watched};
use crate::ran::{Came, Count, Wanted, answer_alone, assert_told, run, seeded};
use crate::random::{are_same, posed_by};
use ea_engine::{Answer, Counters, Crew, Flow, NoGate, Settings, Turn};
use std::alloc::Global;
use std::test::Fail;
use std::thread::Threads;
use test_support::constant::Constant;
use test_support::networks::Given;

/// The visits of one worker with batches of two.
const VISITED: [Visit; 6] = [
    (0, 1, 2, false),
    (2, 3, 2, false),
    (7, 2, 0, true),
    (5, 2, 1, false),
    (11, 4, 0, true),
    (6, 4, 0, false),
];

/// The index of the first wrong count in a run of one worker over two heaps with batches of two, whose
/// generator always returns 0; the number of counts if the arrivals or the turns are wrong.
fn wrong_by_twos<H: Threads + Sync>(
    alloc: Global,
    rt: &H,
    most: u64,
    turns: u64,
    wanted: &[Wanted],
) -> Result<Option<usize>, Fail> {
    let settings = Settings {
        workers: 1,
        heaps: 2,
        turns: most,
        batch: 2,
        patience: 32,
    };
    let watched = Watched {
        settings,
        visits: &VISITED,
        last: 100,
        turns,
    };
    wrong_watched(alloc, rt, &watched, Constant(0), wanted)
}

const BY_TWOS: [Wanted; 14] = [
    (Count::Handed, 0),
    (Count::Drained, 0),
    (Count::Finish, 0),
    (Count::Workers, 1),
    (Count::Turns, 38),
    (Count::Empty, 32),
    (Count::Pops, 36),
    (Count::Popped, 6),
    (Count::Unvisited, 0),
    (Count::Stale, 2),
    (Count::Scanned, 4),
    (Count::Pushes, 3),
    (Count::Pushed, 5),
    (Count::Returned, 0),
];

#[test]
fn batch_of_two(rt: HostRuntime) -> Result<(), Fail> {
    assert_told(&rt, wrong_by_twos(rt.alloc(), &rt, 100, 38, &BY_TWOS))
}

const IN_TWO_TURNS: [Wanted; 11] = [
    (Count::Handed, 1),
    (Count::Drained, 2),
    (Count::Finish, 2),
    (Count::Workers, 1),
    (Count::Pops, 2),
    (Count::Popped, 3),
    (Count::Unvisited, 1),
    (Count::Scanned, 2),
    (Count::Pushes, 2),
    (Count::Pushed, 4),
    (Count::Returned, 1),
];

#[test]
fn batch_of_two_in_two_turns(rt: HostRuntime) -> Result<(), Fail> {
    assert_told(&rt, wrong_by_twos(rt.alloc(), &rt, 2, 2, &IN_TWO_TURNS))
}

const NODES: u16 = 40;

/// Runs workers that leave at the turn with this number.
fn run_until<H: Threads + Sync>(
    alloc: Global,
    rt: &H,
    given: &Given,
    settings: Settings,
    seed: u64,
    last: u64,
) -> Result<Came, Fail> {
    let mut tracers = Vec::new(alloc);
    for _ in 0..settings.workers {
        tracers.push(move |turn: Turn| -> Flow {
            if turn.number == last {
                Flow::Leave
            } else {
                Flow::Go
            }
        })?;
    }
    let crew = Crew {
        settings,
        rngs: seeded(alloc, settings.workers, seed)?,
        gate: &NoGate,
        tracers,
    };
    run(alloc, rt, given, crew)
}

/// Whether a worker's counts are consistent.
fn is_even(c: &Counters) -> bool {
    let kinds = [c.empty, c.busy, c.stale, c.scanned, c.refused, c.cut];
    let mut turns = 0u64;
    for kind in kinds {
        turns = turns.wrapping_add(kind);
    }
    let visited = turns.wrapping_sub(c.empty).wrapping_sub(c.busy);
    let left = c.lowered.wrapping_sub(c.pushed);
    c.turns == turns
        && c.popped == visited.wrapping_add(c.unvisited)
        && c.returned == c.unvisited.wrapping_add(c.refused).wrapping_add(left)
        && c.pops <= c.turns
        && c.pushed <= c.lowered
}

/// Whether the counts of a run balance.
fn is_balanced(came: &Came) -> bool {
    let mut pushed = came.seeded;
    let mut popped = came.drained;
    let mut even = true;
    for c in &came.counters {
        pushed = pushed.wrapping_add(u128::from(c.pushed));
        popped = popped.wrapping_add(u128::from(c.popped));
        even &= is_even(c);
    }
    even && pushed == popped && came.finish <= came.drained.wrapping_add(came.returned)
}

/// Whether a run of workers that leave at the turn with this number gives the answer of one thread, with
/// counts that balance.
fn is_right_until<H: Threads + Sync>(
    alloc: Global,
    rt: &H,
    given: &Given,
    settings: Settings,
    seed: u64,
    last: u64,
    alone: &Answer,
) -> Result<bool, Fail> {
    let came = run_until(alloc, rt, given, settings, seed, last)?;
    Ok(is_balanced(&came) && are_same(&came.answer, alone, NODES))
}

/// The most turns of each worker, and the turn at which it leaves.
const ENDS: [(u64, u64); 7] = [
    (0, 9),
    (1, 9),
    (2, 9),
    (3, 9),
    (900, 0),
    (900, 5),
    (900, 900),
];

/// Whether this many workers are right with few turns or with tracers that leave.
fn are_workers_right<H: Threads + Sync>(
    alloc: Global,
    rt: &H,
    given: &Given,
    settings: Settings,
    seed: u64,
    alone: &Answer,
) -> Result<bool, Fail> {
    for (turns, last) in &ENDS {
        let settings = Settings {
            turns: *turns,
            ..settings
        };
        if !is_right_until(alloc, rt, given, settings, seed, *last, alone)? {
            return Ok(false);
        }
    }
    Ok(true)
}

/// The number of workers, and the size of their batches.
const CREWS: [(u32, u32); 25] = [
    (1, 1),
    (1, 2),
    (1, 3),
    (1, 16),
    (1, 64),
    (2, 1),
    (2, 2),
    (2, 3),
    (2, 16),
    (2, 64),
    (3, 1),
    (3, 2),
    (3, 3),
    (3, 16),
    (3, 64),
    (4, 1),
    (4, 2),
    (4, 3),
    (4, 16),
    (4, 64),
    (16, 1),
    (16, 2),
    (16, 3),
    (16, 16),
    (16, 64),
];

/// Whether each number of workers is right on one network with batches of each size.
fn all_right<H: Threads + Sync>(
    alloc: Global,
    rt: &H,
    given: &Given,
    seed: u64,
    alone: &Answer,
) -> Result<bool, Fail> {
    for (workers, batch) in &CREWS {
        let settings = Settings {
            workers: *workers,
            heaps: 2 + (seed % 7) as u32,
            turns: 0,
            batch: *batch,
            patience: 1 + (seed % 40) as u32,
        };
        if !are_workers_right(alloc, rt, given, settings, seed, alone)? {
            return Ok(false);
        }
    }
    Ok(true)
}

/// Whether all runs of a random network are right.
fn are_batches_right<H: Threads + Sync>(alloc: Global, rt: &H, seed: u64) -> Result<bool, Fail> {
    let given = posed_by(alloc, NODES, seed)?;
    let alone = answer_alone(alloc, &given)?;
    all_right(alloc, rt, &given, seed, &alone)
}

/// The first seed with a run that isn't right.
fn wrong_seed<H: Threads + Sync>(alloc: Global, rt: &H) -> Result<Option<usize>, Fail> {
    for seed in 0..12u64 {
        if !are_batches_right(alloc, rt, seed)? {
            return Ok(Some(seed as usize));
        }
    }
    Ok(None)
}

#[test]
fn batches_answer_as_one_thread(rt: HostRuntime) -> Result<(), Fail> {
    assert_told(&rt, wrong_seed(rt.alloc(), &rt))
}
