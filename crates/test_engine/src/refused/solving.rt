// Runs whose growths are refused.
ghost use Rattle.std.specs.Prelude.{◌≡◌, ◌<◌, ◌+◌, ◌^◌, All};

use crate::ran::{
    Came, Count, Wanted, assert_told, attempt, came_of, fits, four, has_four, run_with, singly,
    total, wrong_beside,
};
use crate::refused::greedy::Greedy;
use ea_engine::{Crew, Flow, Gate, Settings, Turn, TurnKind, solve_arrivals, solve_by};
use ea_road::is_problem;
use rand_core::Rng;
use std::alloc::{AllocError, Global};
use std::sync::atomic::{AtomicU64, Ordering};
use std::test::Fail;
use std::thread::Threads;
use test_support::memory::{Held, pieces};
use test_support::networks::Given;
use test_support::tally::Tally;

/// Counts its calls.
#[derive(Drop)]
struct Counted {
    calls: AtomicU64,
}

impl Gate for Counted {
    fn at(&self, _worker: u32, _turn: u64) {
        self.calls.fetch_add(1, Ordering::SeqCst);
    }
}

/// Generators that return 1 and take all memory after this many calls, with room for this many blocks.
fn greedy(alloc: Global, workers: u32, calls: u32, room: usize) -> Result<Vec<Greedy>, AllocError> {
    let mut rngs = Vec::new(alloc);
    for _ in 0..workers {
        rngs.push(Greedy {
            word: 1,
            calls_left: calls,
            held: Held::new(alloc, room)?,
        })?;
    }
    Ok(rngs)
}

/// A generator that returns 1 and takes all memory at its third word: a turn draws two words before it pops,
/// and the third is that of the worker's first push.
fn words(alloc: Global) -> Result<Greedy, AllocError> {
    Ok(Greedy {
        word: 1,
        calls_left: 2,
        held: Held::new(alloc, 20_000)?,
    })
}

/// A run of one worker in batches of a size whose first push finds no memory.
fn run_refused<H: Threads + Sync, T: FnMut(Turn) -> Flow + Send + Drop>(
    alloc: Global,
    rt: &H,
    given: &Given,
    batch: u32,
    tracer: T,
) -> Result<Came, Fail>
    requires { T.IsAlwaysCallable tracer }
{
    let settings = Settings {
        workers: 1,
        heaps: 2,
        turns: 100,
        batch,
        patience: 32,
    };
    let words = words(alloc)?;
    let mut large = Held::of_large(alloc, 1)?;
    let came = run_with(alloc, rt, given, settings, words, tracer);
    large.release();
    came
}

/// Whether a turn is the refused one, which found no memory for a batch of this size.
fn is_refused(turn: &Turn, batch: u32) -> bool {
    matches!(turn.kind, TurnKind::Refused)
        && (turn.node, turn.key, turn.lowered) == (1, 0, u64::from(batch))
}

/// The index of the first wrong count in such a run; the number of counts if the arrivals are wrong, or the
/// tracer saw anything but the refused turn.
fn wrong_refused<H: Threads + Sync>(
    alloc: Global,
    rt: &H,
    given: &Given,
    batch: u32,
    wanted: &[Wanted],
) -> Result<Option<usize>, Fail> {
    let shown = AtomicU64::new(0);
    let turns = &shown;
    let tracer = move |turn: Turn| -> Flow {
        let counts = if is_refused(&turn, batch) { 1 } else { 2 };
        turns.fetch_add(counts, Ordering::SeqCst);
        Flow::Go
    };
    let came = run_refused(alloc, rt, given, batch, tracer)?;
    let right = shown.load(Ordering::SeqCst) == 1 && has_four(&came.answer);
    Ok(wrong_beside(&came, right, wanted))
}

const OF_ONE: [Wanted; 10] = [
    (Count::Seeded, 1),
    (Count::Handed, 2),
    (Count::Drained, 0),
    (Count::Finish, 2),
    (Count::Workers, 1),
    (Count::Pushed, 0),
    (Count::Popped, 1),
    (Count::Scanned, 0),
    (Count::Refused, 1),
    (Count::Returned, 2),
];

const OF_TWO: [Wanted; 10] = [
    (Count::Seeded, 1),
    (Count::Handed, 3),
    (Count::Drained, 0),
    (Count::Finish, 3),
    (Count::Workers, 1),
    (Count::Pushed, 0),
    (Count::Popped, 1),
    (Count::Scanned, 0),
    (Count::Refused, 1),
    (Count::Returned, 3),
];

/// The batch is full with the first head that is lowered, or with the second.
#[test]
fn refused_push(rt: HostRuntime) -> Result<(), Fail> {
    let given = four(rt.alloc())?;
    assert_told(&rt, wrong_refused(rt.alloc(), &rt, &given, 1, &OF_ONE))?;
    assert_told(&rt, wrong_refused(rt.alloc(), &rt, &given, 2, &OF_TWO))
}

/// The calls that answer a query by several threads.
#[derive(Clone, Copy, PartialEq, Eq)]
enum Call {
    Walks,
    Arrivals,
    Closure,
}

/// The outcome of a run with little memory.
#[derive(Clone, Copy, PartialEq, Eq)]
enum Fared {
    Right,
    Refused,
    Wrong,
}

/// Runs a crew without walks; none if it doesn't fit.
fn attempt_arrivals<
    H: Threads + Sync,
    R: Rng + Send + Drop,
    G: Gate,
    T: FnMut(Turn) -> Flow + Send + Drop,
>(alloc: Global, rt: &H, given: &Given, crew: Crew<'_, R, G, T>) -> Result<Option<Came>, AllocError>
    requires tracers { All T.IsAlwaysCallable crew.tracers.items }
{
    if !fits(crew.settings, crew.rngs.len(), crew.tracers.len())
        || !is_problem(&given.network, given.times.classes(), &given.query)
    {
        return Ok(None);
    }
    let solved = solve_arrivals(alloc, rt, &given.network, &given.times, &given.query, crew)?;
    Ok(Some(came_of(solved)))
}

/// Runs a crew with a closure; none if it doesn't fit.
fn attempt_by_closure<
    H: Threads + Sync,
    R: Rng + Send + Drop,
    G: Gate,
    T: FnMut(Turn) -> Flow + Send + Drop,
>(alloc: Global, rt: &H, given: &Given, crew: Crew<'_, R, G, T>) -> Result<Option<Came>, AllocError>
    requires tracers { All T.IsAlwaysCallable crew.tracers.items }
{
    if !fits(crew.settings, crew.rngs.len(), crew.tracers.len())
        || !is_problem(&given.network, 0, &given.query)
    {
        return Ok(None);
    }
    let plain = |_class: u32, weight: u64, departure: u64| -> u64
        requires { departure + weight < 2 ^ 64 }
        ensures { result ≡ departure + weight }
    { departure + weight };
    let solved = solve_by(alloc, rt, &given.network, plain, 0, &given.query, crew)?;
    Ok(Some(came_of(solved)))
}

/// Runs a crew by one of the calls.
fn attempt_by<
    H: Threads + Sync,
    R: Rng + Send + Drop,
    G: Gate,
    T: FnMut(Turn) -> Flow + Send + Drop,
>(
    alloc: Global,
    rt: &H,
    call: Call,
    given: &Given,
    crew: Crew<'_, R, G, T>,
) -> Result<Option<Came>, AllocError>
    requires tracers { All T.IsAlwaysCallable crew.tracers.items }
{
    match call {
        Call::Walks => attempt(alloc, rt, given, crew),
        Call::Arrivals => attempt_arrivals(alloc, rt, given, crew),
        Call::Closure => attempt_by_closure(alloc, rt, given, crew),
    }
}

/// Runs the four nodes with the test's generators and little memory left, except a piece.
fn run_small<H: Threads + Sync>(
    alloc: Global,
    rt: &H,
    call: Call,
    given: &Given,
    workers: u32,
    small: &mut Held,
    piece: Option<Vec<u8>>,
) -> Result<Fared, AllocError> {
    let mut tracers = Vec::new(alloc);
    for _ in 0..workers {
        tracers.push(|_turn: Turn| -> Flow { Flow::Go })?;
    }
    // These generators take no memory: no run draws this many words.
    let rngs = greedy(alloc, workers, 1_000_000, 0)?;
    let gate = Counted {
        calls: AtomicU64::new(0),
    };
    let crew = Crew {
        settings: singly(workers, 2, 100),
        rngs,
        gate: &gate,
        tracers,
    };
    if let Some(piece) = piece {
        small.leave(piece);
    }
    let answer = attempt_by(alloc, rt, call, given, crew);
    small.release();
    Ok(verdict(answer, gate.calls.load(Ordering::SeqCst)))
}

/// Whether a run is refused before its first turn, or its arrivals are right and the gate was called as often
/// as the workers made turns.
fn verdict(answer: Result<Option<Came>, AllocError>, calls: u64) -> Fared {
    let right = match answer {
        Err(_) if calls == 0 => return Fared::Refused,
        Ok(Some(came)) => has_four(&came.answer) && calls == total(&came, Count::Turns),
        _ => false,
    };
    if right && calls > 0 {
        Fared::Right
    } else {
        Fared::Wrong
    }
}

/// Runs with little memory left, and after a refusal with all memory: the outcome at first if it wasn't
/// refused, and whether it was right in the end.
fn run_again<H: Threads + Sync>(
    alloc: Global,
    rt: &H,
    call: Call,
    given: &Given,
    workers: u32,
    small: &mut Held,
    piece: Vec<u8>,
) -> Result<(Option<bool>, bool), AllocError> {
    let came = run_small(alloc, rt, call, given, workers, small, Some(piece))?;
    if came != Fared::Refused {
        return Ok((Some(came == Fared::Right), true));
    }
    let came = run_small(alloc, rt, call, given, workers, small, None)?;
    Ok((None, came == Fared::Right))
}

/// Gives a call less memory than it needs, a little more each time, and all memory after each refusal.
fn each_growth<H: Threads + Sync>(
    alloc: Global,
    rt: &H,
    call: Call,
    given: &Given,
    workers: u32,
) -> Result<Tally, AllocError> {
    let mut tally = Tally::new();
    let mut small = Held::new(alloc, 20_000)?;
    let pieces = pieces(alloc, 0, 200, 48)?;
    let mut large = Held::of_large(alloc, 1)?;
    for piece in pieces {
        let (came, behind) = run_again(alloc, rt, call, given, workers, &mut small, piece)?;
        tally.note(came, behind);
    }
    large.release();
    Ok(tally)
}

/// The calls, each by one worker and by two.
const CALLS: [(Call, u32); 6] = [
    (Call::Walks, 1),
    (Call::Walks, 2),
    (Call::Arrivals, 1),
    (Call::Arrivals, 2),
    (Call::Closure, 1),
    (Call::Closure, 2),
];

/// The index of the first of the calls that fares other than expected: it should be refused at least ten
/// times, be right twice, and never be wrong.
fn wrong_call<H: Threads + Sync>(
    alloc: Global,
    rt: &H,
    given: &Given,
) -> Result<Option<usize>, Fail> {
    for (place, (call, workers)) in CALLS.iter().enumerate() {
        let tally = each_growth(alloc, rt, *call, given, *workers)?;
        if tally.wrong != 0 || tally.refused < 10 || tally.right < 2 {
            return Ok(Some(place));
        }
    }
    Ok(None)
}

#[test]
fn each_growth_refused(rt: HostRuntime) -> Result<(), Fail> {
    let given = four(rt.alloc())?;
    assert_told(&rt, wrong_call(rt.alloc(), &rt, &given))
}
