//! A network with few open nodes for long and then many at once, on which several workers gain nothing.
ghost use Rattle.std.specs.Prelude.{◌<◌};

use crate::ran::{Came, Count, arrives, assert_right, posed, run, total};
use ea_engine::{Answer, Company, Crew, Flow, NoGate, Settings, Turn};
use rand_core::SeedableRng;
use rand_xoshiro::Xoshiro256PlusPlus;
use std::alloc::{AllocError, Global};
use std::test::Fail;
use std::thread::Threads;
use test_support::networks::{Given, Row};

/// The number of nodes on the path before the ring.
const PATH: u32 = 100;

/// The number of nodes of the ring.
const RING: u32 = 20_000;

/// A path of arcs of weight 0 to the first node of a ring of this many nodes. From there an arc of weight 2i
/// leads to the i-th node after it, in descending order, and from each of these an arc of weight 1 to the
/// next one.
fn rows_of(alloc: Global, ring: u32) -> Result<Vec<Row>, AllocError>
    requires { ring < 1_000_000 }
{
    let mut rows = Vec::new(alloc);
    for node in 1..PATH + 1 {
        rows.push((node, node + 1, 0, 0))?;
    }
    for after in 1..ring {
        let i = ring - after;
        rows.push((PATH + 1, PATH + 1 + i, 2 * i, 0))?;
    }
    for node in PATH + 2..PATH + ring {
        rows.push((node, node + 1, 1, 0))?;
    }
    Ok(rows)
}

/// Their problem, from node 1 at 0.
pub fn late_ring(alloc: Global, ring: u32) -> Result<Given, Fail>
    requires { ring < 1_000_000 }
{
    let rows = rows_of(alloc, ring)?;
    posed(alloc, PATH + ring, &rows, &[(1, 0)])
}

/// Two generators.
fn two_words(alloc: Global) -> Result<Vec<Xoshiro256PlusPlus>, AllocError> {
    let mut rngs = Vec::new(alloc);
    for seed in 1..3u64 {
        rngs.push(Xoshiro256PlusPlus::seed_from_u64(seed))?;
    }
    Ok(rngs)
}

/// Two workers of a company on the ring, with batches of this size.
fn search<H: Threads + Sync>(
    alloc: Global,
    rt: &H,
    given: &Given,
    batch: u32,
) -> Result<Came, Fail> {
    let company = Company::on(PATH + RING);
    let mut member = company.member();
    let tracer = move |turn: Turn| -> Flow { member.after(turn) };
    let mut tracers = Vec::new(alloc);
    tracers.push(tracer)?;
    tracers.push(tracer)?;
    let settings = Settings {
        workers: 2,
        heaps: 2,
        turns: 1_000_000,
        batch,
        patience: 65_536,
    };
    let crew = Crew {
        settings,
        rngs: two_words(alloc)?,
        gate: &NoGate,
        tracers,
    };
    run(alloc, rt, given, crew)
}

/// Whether the i-th node after the ring's first has the arrival i + 1, by the ring.
pub fn goes_round(answer: &Answer, ring: u32) -> bool
    requires { ring < 1_000_000 }
{
    let mut right = arrives(answer, PATH + 1, Some(0));
    for i in 1..ring {
        right &= arrives(answer, PATH + 1 + i, Some(u64::from(i) + 1));
    }
    right
}

/// Whether a search has the ring's arrivals, and scans entries, but not too many.
fn is_left(came: &Came) -> bool {
    let scanned = total(came, Count::Scanned);
    goes_round(&came.answer, RING) && scanned > 0 && scanned <= 4 * u64::from(PATH + RING)
}

/// Whether such a search does.
fn leave_by<H: Threads + Sync>(
    alloc: Global,
    rt: &H,
    given: &Given,
    batch: u32,
) -> Result<bool, Fail> {
    let came = search(alloc, rt, given, batch)?;
    Ok(is_left(&came))
}

/// Whether it does on the ring.
fn leave_ring<H: Threads + Sync>(alloc: Global, rt: &H, batch: u32) -> Result<bool, Fail> {
    leave_by(alloc, rt, &late_ring(alloc, RING)?, batch)
}

#[test]
fn two_workers_leave_a_late_ring(rt: HostRuntime) -> Result<(), Fail> {
    assert_right(&rt, "arrivals and scans", leave_ring(rt.alloc(), &rt, 32))
}

#[test]
fn two_workers_leave_a_late_ring_entry_by_entry(rt: HostRuntime) -> Result<(), Fail> {
    assert_right(&rt, "arrivals and scans", leave_ring(rt.alloc(), &rt, 1))
}
