//! The gate is called before each turn of each worker, once, with the worker's and the turn's numbers.
use crate::ran::{Came, assert_told, four, run, seeded, singly};
use ea_engine::{Counters, Crew, Flow, Gate, Turn};
use std::alloc::Global;
use std::sync::atomic::{AtomicU64, Ordering};
use std::test::Fail;
use std::thread::Threads;
use test_support::networks::Given;

/// Counts its calls by three workers, each of which makes fewer than 1,000 turns, and records a call whose
/// number isn't the count so far.
#[derive(Drop)]
struct Counting {
    /// The sum: one for each call of worker 0, a thousand for each of worker 1, and a million for each of
    /// worker 2.
    calls: AtomicU64,
    wrong: AtomicU64,
}

/// What a call of a worker counts.
fn share(worker: u32) -> u64 {
    match worker {
        0 => 1,
        1 => 1_000,
        _ => 1_000_000,
    }
}

impl Gate for Counting {
    fn at(&self, worker: u32, turn: u64) {
        let calls = self.calls.fetch_add(share(worker), Ordering::SeqCst);
        if worker > 2 || calls_of(calls, worker) != turn {
            self.wrong.store(1, Ordering::SeqCst);
        }
    }
}

/// The number of a worker's calls.
fn calls_of(calls: u64, worker: u32) -> u64 {
    match worker {
        0 => calls % 1_000,
        1 => calls / 1_000 % 1_000,
        _ => calls / 1_000_000,
    }
}

impl Counting {
    /// Records a turn that a tracer sees unless the last call of its worker's gate was for it.
    fn shown(&self, worker: u32, turn: u64) {
        let calls = self.calls.load(Ordering::SeqCst);
        if calls_of(calls, worker) != turn.wrapping_add(1) {
            self.wrong.store(1, Ordering::SeqCst);
        }
    }
}

/// Runs three workers with this gate, each of which leaves at a different turn.
fn run_gated<H: Threads + Sync>(
    alloc: Global,
    rt: &H,
    given: &Given,
    gate: &Counting,
) -> Result<Came, Fail> {
    let mut tracers = Vec::new(alloc);
    for worker in 0..3u32 {
        tracers.push(move |turn: Turn| -> Flow {
            gate.shown(worker, turn.number);
            if turn.number > 5 * u64::from(worker) {
                Flow::Leave
            } else {
                Flow::Go
            }
        })?;
    }
    let crew = Crew {
        settings: singly(3, 2, 100),
        rngs: seeded(alloc, 3, 0)?,
        gate,
        tracers,
    };
    run(alloc, rt, given, crew)
}

/// The first worker without turns, or with another number of turns than calls of the gate; the number of
/// workers if there aren't three, or a call was wrong.
fn wrong_worker(counters: &[Counters], gate: &Counting) -> Option<usize> {
    if counters.len() != 3 || gate.wrong.load(Ordering::SeqCst) != 0 {
        return Some(counters.len());
    }
    let calls = gate.calls.load(Ordering::SeqCst);
    for (place, counted) in counters.iter().enumerate() {
        if counted.turns == 0 || calls_of(calls, place as u32) != counted.turns {
            return Some(place);
        }
    }
    None
}

/// The same for a run.
fn wrong_counting<H: Threads + Sync>(
    alloc: Global,
    rt: &H,
    given: &Given,
) -> Result<Option<usize>, Fail> {
    let gate = Counting {
        calls: AtomicU64::new(0),
        wrong: AtomicU64::new(0),
    };
    let came = run_gated(alloc, rt, given, &gate)?;
    Ok(wrong_worker(came.counters.as_slice(), &gate))
}

#[test]
fn gate_counts_the_turns(rt: HostRuntime) -> Result<(), Fail> {
    let given = four(rt.alloc())?;
    assert_told(&rt, wrong_counting(rt.alloc(), &rt, &given))
}
