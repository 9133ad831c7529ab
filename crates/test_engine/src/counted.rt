//! The worked examples, by their counters.
use crate::ran::{
    Count, Wanted, assert_told, constants, four, has_four, run_crew_on_four, run_with, seeded,
    singly, told, wrong_beside,
};
use ea_engine::{Flow, NoGate, Settings, Turn, TurnKind};
use rand_core::{Rng, SeedableRng};
use rand_xoshiro::Xoshiro256PlusPlus;
use std::alloc::Global;
use std::sync::atomic::{AtomicU64, Ordering};
use std::test::Fail;
use std::thread::Threads;
use test_support::networks::Given;

/// The key, the node and the number of lowered heads of a turn that visits an entry, and whether the entry is
/// stale.
pub type Visit = (u64, u32, u64, bool);

/// The visits of one worker that pops entry by entry, in their order.
pub const POPPED: [Visit; 6] = [
    (0, 1, 2, false),
    (2, 3, 2, false),
    (5, 2, 1, false),
    (6, 4, 0, false),
    (7, 2, 0, true),
    (11, 4, 0, true),
];

/// Whether a turn is the one expected for its number: the first ones are these visits, the rest are empty.
fn is_right(turn: &Turn, visits: &[Visit]) -> bool {
    let (key, node, lowered) = (turn.key, turn.node, turn.lowered);
    match turn.kind {
        TurnKind::Scanned => is_visit(turn, visits, (key, node, lowered, false)),
        TurnKind::Stale => is_visit(turn, visits, (key, node, lowered, true)),
        TurnKind::Empty => {
            turn.number >= visits.len() as u64 && (key, node, lowered) == (0, 0, 0)
        }
        _ => false,
    }
}

/// Whether this is the visit of the turn with this number.
fn is_visit(turn: &Turn, visits: &[Visit], visit: Visit) -> bool {
    match visits.get(turn.number as usize) {
        Some(wanted) => *wanted == visit,
        None => false,
    }
}

/// What a turn adds to the number of turns before it: 1, or far more if it isn't the expected turn.
fn step(turn: &Turn, before: u64, visits: &[Visit]) -> u64 {
    if turn.number == before && is_right(turn, visits) {
        1
    } else {
        1_000_000
    }
}

/// A run of one worker on four-nodes: its visits, the turn at which it leaves, and the number of turns that
/// its tracer sees.
#[derive(Clone, Copy)]
pub struct Watched {
    pub settings: Settings,
    pub visits: &'static [Visit],
    pub last: u64,
    pub turns: u64,
}

/// The index of the first wrong count in a run of one worker; the number of counts if the arrivals, or a turn
/// that its tracer sees, are wrong.
fn wrong_on<H: Threads + Sync, R: Rng + Send + Drop>(
    alloc: Global,
    rt: &H,
    given: &Given,
    watched: &Watched,
    rng: R,
    wanted: &[Wanted],
) -> Result<Option<usize>, Fail> {
    let turns = AtomicU64::new(0);
    let (shown, visits, last) = (&turns, watched.visits, watched.last);
    let tracer = move |turn: Turn| -> Flow {
        let before = shown.load(Ordering::SeqCst);
        shown.fetch_add(step(&turn, before, visits), Ordering::SeqCst);
        if turn.number == last {
            Flow::Leave
        } else {
            Flow::Go
        }
    };
    let came = run_with(alloc, rt, given, watched.settings, rng, tracer)?;
    let right = turns.load(Ordering::SeqCst) == watched.turns && has_four(&came.answer);
    Ok(wrong_beside(&came, right, wanted))
}

/// The same on four-nodes.
pub fn wrong_watched<H: Threads + Sync, R: Rng + Send + Drop>(
    alloc: Global,
    rt: &H,
    watched: &Watched,
    rng: R,
    wanted: &[Wanted],
) -> Result<Option<usize>, Fail> {
    wrong_on(alloc, rt, &four(alloc)?, watched, rng, wanted)
}

/// The same for a worker that pops entry by entry, makes at most this many turns and leaves at the turn with
/// this number.
pub fn wrong_until<H: Threads + Sync>(
    alloc: Global,
    rt: &H,
    most: u64,
    last: u64,
    turns: u64,
    wanted: &[Wanted],
) -> Result<Option<usize>, Fail> {
    let watched = Watched {
        settings: singly(1, 2, most),
        visits: &POPPED,
        last,
        turns,
    };
    let words = Xoshiro256PlusPlus::seed_from_u64(1);
    wrong_watched(alloc, rt, &watched, words, wanted)
}

/// With batches of one entry each turn pops once, and each lowered head is pushed alone.
const OF_ONE_WORKER: [Wanted; 15] = [
    (Count::Workers, 1),
    (Count::Seeded, 1),
    (Count::Handed, 0),
    (Count::Drained, 0),
    (Count::Finish, 0),
    (Count::Turns, 38),
    (Count::Empty, 32),
    (Count::Popped, 6),
    (Count::Stale, 2),
    (Count::Scanned, 4),
    (Count::Pushed, 5),
    (Count::Pops, 38),
    (Count::Unvisited, 0),
    (Count::Lowered, 5),
    (Count::Pushes, 5),
];

#[test]
fn one_worker(rt: HostRuntime) -> Result<(), Fail> {
    assert_told(
        &rt,
        wrong_until(rt.alloc(), &rt, 100, 100, 38, &OF_ONE_WORKER),
    )
}

const LEFT_AT_ONCE: [Wanted; 6] = [
    (Count::Drained, 2),
    (Count::Finish, 2),
    (Count::Workers, 1),
    (Count::Pushed, 2),
    (Count::Popped, 1),
    (Count::Scanned, 1),
];

#[test]
fn leave_at_once(rt: HostRuntime) -> Result<(), Fail> {
    assert_told(&rt, wrong_until(rt.alloc(), &rt, 100, 0, 1, &LEFT_AT_ONCE))
}

/// The index of the first wrong count in a run of workers without tracers.
fn wrong_crew<H: Threads + Sync, R: Rng + Send + Drop>(
    alloc: Global,
    rt: &H,
    heaps: u32,
    turns: u32,
    rngs: Vec<R>,
    wanted: &[Wanted],
) -> Result<Option<usize>, Fail> {
    let came = run_crew_on_four(alloc, rt, heaps, turns, rngs, &NoGate)?;
    Ok(told(&came, wanted))
}

const IDLE: [Wanted; 6] = [
    (Count::Seeded, 1),
    (Count::Handed, 0),
    (Count::Drained, 1),
    (Count::Finish, 1),
    (Count::Workers, 4),
    (Count::Turns, 0),
];

#[test]
fn no_turns(rt: HostRuntime) -> Result<(), Fail> {
    let rngs = seeded(rt.alloc(), 4, 0)?;
    assert_told(&rt, wrong_crew(rt.alloc(), &rt, 2, 0, rngs, &IDLE))
}

const OVER_EIGHT: [Wanted; 7] = [
    (Count::Seeded, 1),
    (Count::Drained, 1),
    (Count::Finish, 1),
    (Count::Workers, 1),
    (Count::Turns, 32),
    (Count::Empty, 32),
    (Count::Popped, 0),
];

/// The words of the one worker draw heap 2 first, then heap 5.
#[test]
fn eight_heaps(rt: HostRuntime) -> Result<(), Fail> {
    let rngs = constants(rt.alloc(), 1, 2)?;
    assert_told(&rt, wrong_crew(rt.alloc(), &rt, 8, 100, rngs, &OVER_EIGHT))
}
