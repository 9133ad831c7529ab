//! Runs and their outcomes. All tests run their workers through here, so that one function carries the
//! promises of a run.
ghost use Rattle.std.specs.Prelude.{◌≡◌, All, IsTrue};
ghost use Rattle.ea_engine.specs.Limits.{AreSettings};

use crate::asserts::{assert_none_wrong, assert_that};
use ea_engine::{
    Answer, Counters, Crew, Flow, Gate, NoGate, Settings, Solved, Turn, solve, solve_alone,
};
use ea_road::is_problem;
use rand_core::{Rng, SeedableRng};
use rand_xoshiro::Xoshiro256PlusPlus;
use std::alloc::{AllocError, Global};
use std::process::Abort;
use std::test::Fail;
use std::thread::Threads;
use test_support::constant::Constant;
use test_support::networks::{FOUR_NODES, Given, Row, pose};

/// The outcome of a run.
#[derive(Drop)]
pub struct Came {
    pub answer: Answer,
    pub seeded: u128,
    pub returned: u128,
    pub drained: u128,
    pub finish: u128,
    pub counters: Vec<Counters>,
}

/// The outcome without generators and tracers, which are dropped.
pub fn came_of<R: Drop, T: Drop>(solved: Solved<R, T>) -> Came {
    Came {
        answer: solved.answer,
        seeded: solved.seeded,
        returned: solved.returned,
        drained: solved.drained,
        finish: solved.finish,
        counters: solved.counters,
    }
}

/// Whether settings are those of tests, and each worker has a generator and a tracer.
pub fn fits(settings: Settings, rngs: usize, tracers: usize) -> bool
    ensures settings { IsTrue result → AreSettings settings }
    ensures rngs { IsTrue result → rngs ≡ settings.workers }
    ensures tracers { IsTrue result → tracers ≡ settings.workers }
{
    if settings.workers == 0
        || settings.workers > 16
        || settings.heaps < 2
        || settings.heaps > 8
        || settings.turns > 1_000_000
        || settings.batch == 0
        || settings.batch > 64
        || settings.patience == 0
        || settings.patience > 1_048_576
    {
        return false;
    }
    rngs == settings.workers as usize && tracers == settings.workers as usize
}

/// Runs a crew; none if it doesn't fit or there is no problem.
pub fn attempt<
    H: Threads + Sync,
    R: Rng + Send + Drop,
    G: Gate,
    T: FnMut(Turn) -> Flow + Send + Drop,
>(alloc: Global, rt: &H, given: &Given, crew: Crew<'_, R, G, T>) -> Result<Option<Came>, AllocError>
    requires tracers { All T.IsAlwaysCallable crew.tracers.items }
{
    if !fits(crew.settings, crew.rngs.len(), crew.tracers.len())
        || !is_problem(&given.network, given.times.classes(), &given.query)
    {
        return Ok(None);
    }
    let solved = solve(alloc, rt, &given.network, &given.times, &given.query, crew)?;
    Ok(Some(came_of(solved)))
}

/// Runs a crew that fits on a problem.
pub fn run<H: Threads + Sync, R: Rng + Send + Drop, G: Gate, T: FnMut(Turn) -> Flow + Send + Drop>(
    alloc: Global,
    rt: &H,
    given: &Given,
    crew: Crew<'_, R, G, T>,
) -> Result<Came, Fail>
    requires tracers { All T.IsAlwaysCallable crew.tracers.items }
{
    Ok(attempt(alloc, rt, given, crew)?.ok_or("problem")?)
}

/// The problem of rows for all nodes, from these sources.
pub fn posed(
    alloc: Global,
    nodes: u32,
    rows: &[Row],
    sources: &[(u32, u64)],
) -> Result<Given, Fail> {
    Ok(pose(alloc, nodes, rows, sources)?.ok_or("rows")?)
}

/// The problem of the example four-nodes, from node 1 at 0.
pub fn four(alloc: Global) -> Result<Given, Fail> {
    posed(alloc, 4, &FOUR_NODES, &[(1, 0)])
}

/// Workers that pop entry by entry.
pub fn singly(workers: u32, heaps: u32, turns: u64) -> Settings {
    Settings {
        workers,
        heaps,
        turns,
        batch: 1,
        patience: 32,
    }
}

/// Runs workers with the test's generators, one for each, and no tracers.
pub fn run_crew<H: Threads + Sync, R: Rng + Send + Drop, G: Gate>(
    alloc: Global,
    rt: &H,
    given: &Given,
    heaps: u32,
    turns: u32,
    rngs: Vec<R>,
    gate: &G,
) -> Result<Came, Fail> {
    let mut tracers = Vec::new(alloc);
    for _ in 0..rngs.len() {
        tracers.push(|_turn: Turn| -> Flow { Flow::Go })?;
    }
    let settings = singly(rngs.len().min(17) as u32, heaps, u64::from(turns));
    let crew = Crew {
        settings,
        rngs,
        gate,
        tracers,
    };
    run(alloc, rt, given, crew)
}

/// Runs workers on the example four-nodes with the test's generators.
pub fn run_crew_on_four<H: Threads + Sync, R: Rng + Send + Drop, G: Gate>(
    alloc: Global,
    rt: &H,
    heaps: u32,
    turns: u32,
    rngs: Vec<R>,
    gate: &G,
) -> Result<Came, Fail> {
    run_crew(alloc, rt, &four(alloc)?, heaps, turns, rngs, gate)
}

/// This many generators that return only one word.
pub fn constants(alloc: Global, workers: u32, word: u64) -> Result<Vec<Constant>, AllocError> {
    let mut rngs = Vec::new(alloc);
    for _ in 0..workers {
        rngs.push(Constant(word))?;
    }
    Ok(rngs)
}

/// This many generators from seeds.
pub fn seeded(
    alloc: Global,
    workers: u32,
    seed: u64,
) -> Result<Vec<Xoshiro256PlusPlus>, AllocError> {
    let mut rngs = Vec::new(alloc);
    for worker in 0..workers {
        rngs.push(Xoshiro256PlusPlus::seed_from_u64(seed ^ u64::from(worker)))?;
    }
    Ok(rngs)
}

/// The answer of workers with generators from a seed.
pub fn run_all<H: Threads + Sync>(
    alloc: Global,
    rt: &H,
    given: &Given,
    settings: Settings,
    seed: u64,
) -> Result<Answer, Fail> {
    let rngs = seeded(alloc, settings.workers, seed)?;
    let turns = settings.turns.min(1000) as u32;
    let came = run_crew(alloc, rt, given, settings.heaps, turns, rngs, &NoGate)?;
    Ok(came.answer)
}

/// Runs one worker with a generator and a tracer.
pub fn run_with<H: Threads + Sync, R: Rng + Send + Drop, T: FnMut(Turn) -> Flow + Send + Drop>(
    alloc: Global,
    rt: &H,
    given: &Given,
    settings: Settings,
    rng: R,
    tracer: T,
) -> Result<Came, Fail>
    requires { T.IsAlwaysCallable tracer }
{
    let mut rngs = Vec::new(alloc);
    rngs.push(rng)?;
    let mut tracers = Vec::new(alloc);
    tracers.push(tracer)?;
    let crew = Crew {
        settings,
        rngs,
        gate: &NoGate,
        tracers,
    };
    run(alloc, rt, given, crew)
}

/// Runs one worker over two heaps, with the words of seed 1 and no tracer.
pub fn run_plain<H: Threads + Sync>(
    alloc: Global,
    rt: &H,
    given: &Given,
    turns: u64,
) -> Result<Came, Fail> {
    let words = Xoshiro256PlusPlus::seed_from_u64(1);
    let tracer = |_turn: Turn| -> Flow { Flow::Go };
    run_with(alloc, rt, given, singly(1, 2, turns), words, tracer)
}

/// The answer of one thread.
pub fn answer_alone(alloc: Global, given: &Given) -> Result<Answer, Fail> {
    if !is_problem(&given.network, given.times.classes(), &given.query) {
        return Err(Fail::from("problem"));
    }
    Ok(solve_alone(alloc, &given.network, &given.times, &given.query)?)
}

/// Fails a test if a row of its table is wrong, and reports its index.
pub fn assert_told<H: Abort>(rt: &H, wrong: Result<Option<usize>, Fail>) -> Result<(), Fail> {
    assert_none_wrong(rt, wrong?);
    Ok(())
}

/// Fails a test if something isn't right, and says what.
pub fn assert_right<H: Abort>(rt: &H, what: &str, right: Result<bool, Fail>) -> Result<(), Fail> {
    assert_that(rt, what, right?);
    Ok(())
}

/// The counts of a run, and those of each of its workers.
#[derive(Clone, Copy)]
pub enum Count {
    Workers,
    Seeded,
    Handed,
    Drained,
    Finish,
    Turns,
    Empty,
    Pops,
    Popped,
    Unvisited,
    Stale,
    Scanned,
    Refused,
    Cut,
    Lowered,
    Pushes,
    Pushed,
    Returned,
}

/// A count of a run as a whole; none if it is a worker's.
fn of_run(came: &Came, count: Count) -> Option<u128> {
    match count {
        Count::Workers => Some(came.counters.len() as u128),
        Count::Seeded => Some(came.seeded),
        Count::Handed => Some(came.returned),
        Count::Drained => Some(came.drained),
        Count::Finish => Some(came.finish),
        _ => None,
    }
}

/// A count of a worker.
fn of_worker(counters: &Counters, count: Count) -> u64 {
    match count {
        Count::Turns => counters.turns,
        Count::Empty => counters.empty,
        Count::Pops => counters.pops,
        Count::Popped => counters.popped,
        Count::Unvisited => counters.unvisited,
        Count::Stale => counters.stale,
        Count::Scanned => counters.scanned,
        Count::Refused => counters.refused,
        Count::Cut => counters.cut,
        Count::Lowered => counters.lowered,
        Count::Pushes => counters.pushes,
        Count::Pushed => counters.pushed,
        Count::Returned => counters.returned,
        _ => u64::MAX,
    }
}

/// A count and its number.
pub type Wanted = (Count, u128);

/// Whether each of the workers has this count.
fn all_count(workers: &[Counters], count: Count, number: u128) -> bool {
    for counters in workers {
        if u128::from(of_worker(counters, count)) != number {
            return false;
        }
    }
    true
}

/// The index of the first wrong count.
pub fn wrong_count(came: &Came, wanted: &[Wanted]) -> Option<usize> {
    for (place, (count, number)) in wanted.iter().enumerate() {
        let right = match of_run(came, *count) {
            Some(counted) => counted == *number,
            None => all_count(came.counters.as_slice(), *count, *number),
        };
        if !right {
            return Some(place);
        }
    }
    None
}

/// The index of the first wrong count in a run on four-nodes; the number of counts if its arrivals are wrong.
pub fn told(came: &Came, wanted: &[Wanted]) -> Option<usize> {
    wrong_beside(came, has_four(&came.answer), wanted)
}

/// The index of the first wrong count; the number of counts if the rest that a test checks is wrong.
pub fn wrong_beside(came: &Came, right: bool, wanted: &[Wanted]) -> Option<usize> {
    if right {
        wrong_count(came, wanted)
    } else {
        Some(wanted.len())
    }
}

/// How often workers did something, all together.
pub fn total(came: &Came, count: Count) -> u64 {
    let mut sum = 0u64;
    for counters in &came.counters {
        sum = sum.saturating_add(of_worker(counters, count));
    }
    sum
}

/// Whether an answer gives an arrival for an asked node.
pub fn arrives(answer: &Answer, node: u32, arrival: Option<u64>) -> bool {
    answer.asks(node) && answer.arrival(node) == arrival
}

/// Whether an answer has the arrivals of the four nodes.
pub fn has_four(answer: &Answer) -> bool {
    let wanted = [0, 5, 2, 6];
    let mut right = answer.nodes() == 4;
    for node in 1..5u32 {
        right &= answer.asks(node) && answer.arrival(node) == Some(wanted[node as usize - 1]);
    }
    right
}

/// Whether an answer gives this walk for an asked node.
pub fn walks(alloc: Global, answer: &Answer, node: u32, walk: &[u32]) -> Result<bool, AllocError> {
    if !answer.asks(node) || !answer.has_walks() {
        return Ok(false);
    }
    match answer.walk(alloc, node)? {
        Some(arcs) => Ok(arcs.as_slice() == walk),
        None => Ok(false),
    }
}
