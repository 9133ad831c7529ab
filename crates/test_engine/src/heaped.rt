//! Which heaps runs take entries from, by the order in which a worker visits the keys of a star's leaves: heaps that give the least entry
//! first make few of them fall, buckets about every second.
use crate::ran::{posed, run, seeded};
use ea_engine::{Crew, Flow, NoGate, Settings, Turn};
use std::alloc::{AllocError, Global};
use std::sync::atomic::{AtomicU64, Ordering};
use std::test::Fail;
use std::thread::Threads;
use test_support::networks::{Given, Row};

/// How many leaves the star has, a prime number less one.
const LEAVES: u32 = 1008;

/// Arcs from node 1 to each leaf, whose weights are the numbers up to that of the leaves in an order without pattern: the powers of a
/// primitive root.
fn rows_of(alloc: Global) -> Result<Vec<Row>, AllocError> {
    let mut rows = Vec::new(alloc);
    let mut weight = 1u32;
    for leaf in 0..LEAVES {
        weight = weight.wrapping_mul(11) % (LEAVES + 1);
        rows.push((1, leaf + 2, weight, 0))?;
    }
    Ok(rows)
}

/// The star's problem, from node 1 at 0.
fn star(alloc: Global) -> Result<Given, Fail> {
    let rows = rows_of(alloc)?;
    posed(alloc, LEAVES + 1, &rows, &[(1, 0)])
}

/// Counts a visit if its key is below that of the visit before.
fn watch(turn: &Turn, last: &AtomicU64, falls: &AtomicU64) {
    if turn.node != 0 {
        let before = last.swap(turn.key, Ordering::SeqCst);
        if turn.key < before {
            falls.fetch_add(1, Ordering::SeqCst);
        }
    }
}

/// How often the keys of workers fall from one visit to the next.
fn falls_by<H: Threads + Sync>(
    alloc: Global,
    rt: &H,
    workers: u32,
    batch: u32,
) -> Result<u64, Fail> {
    let given = star(alloc)?;
    let falls = AtomicU64::new(0);
    let lasts = [AtomicU64::new(0), AtomicU64::new(0)];
    let mut tracers = Vec::new(alloc);
    for worker in 0..workers {
        let (last, fallen) = (&lasts[(worker % 2) as usize], &falls);
        tracers.push(move |turn: Turn| -> Flow {
            watch(&turn, last, fallen);
            Flow::Go
        })?;
    }
    let settings = Settings {
        workers,
        heaps: 2,
        turns: 1_000_000,
        batch,
        patience: 32,
    };
    let crew = Crew {
        settings,
        rngs: seeded(alloc, workers, 5)?,
        gate: &NoGate,
        tracers,
    };
    run(alloc, rt, &given, crew)?;
    Ok(falls.load(Ordering::SeqCst))
}

#[test]
fn several_workers_take_batches_from_buckets(rt: HostRuntime) -> Result<(), Fail> {
    let falls = falls_by(rt.alloc(), &rt, 2, 32)?;
    assert!(rt; falls > 200);
    Ok(())
}

#[test]
fn a_single_worker_takes_the_least_first(rt: HostRuntime) -> Result<(), Fail> {
    // Two heaps, and batches of at most 32.
    let falls = falls_by(rt.alloc(), &rt, 1, 32)?;
    assert!(rt; falls < 100);
    Ok(())
}
