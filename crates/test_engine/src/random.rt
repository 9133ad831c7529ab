//! Many small networks, solved by several workers and by one thread.
ghost use Rattle.std.specs.Prelude.{◌<◌};

use crate::ran::{answer_alone, assert_told, posed, run_all, singly};
use ea_engine::Answer;
use rand_core::{Rng, SeedableRng};
use rand_xoshiro::Xoshiro256PlusPlus;
use std::alloc::{AllocError, Global};
use std::test::Fail;
use std::thread::Threads;
use test_support::networks::{Given, Row};

const NODES: u16 = 24;

/// The rows of a network with three times as many arcs as nodes.
fn rows_of(alloc: Global, nodes: u16, seed: u64) -> Result<Vec<Row>, AllocError>
    requires { 0 < nodes }
{
    let mut rng = Xoshiro256PlusPlus::seed_from_u64(seed);
    let mut rows = Vec::new(alloc);
    for _ in 0..3 * u32::from(nodes) {
        let tail = (rng.next_u64() % u64::from(nodes)) as u32 + 1;
        let head = (rng.next_u64() % u64::from(nodes)) as u32 + 1;
        let weight = (rng.next_u64() % 20) as u32;
        rows.push((tail, head, weight, 0))?;
    }
    Ok(rows)
}

/// A random problem by a seed: a network of this many nodes, and two sources.
pub fn posed_by(alloc: Global, nodes: u16, seed: u64) -> Result<Given, Fail>
    requires { 0 < nodes }
{
    let rows = rows_of(alloc, nodes, seed)?;
    posed(alloc, u32::from(nodes), &rows, &[(1, 3), (2, 0)])
}

/// Whether two answers give the same arrivals for this many nodes.
pub fn are_same(one: &Answer, other: &Answer, nodes: u16) -> bool {
    let mut same = one.nodes() == other.nodes();
    for node in 1..u32::from(nodes) + 1 {
        same &= one.asks(node) && other.asks(node) && one.arrival(node) == other.arrival(node);
    }
    same
}

/// Whether a run of this many workers gives the answer of one thread.
fn is_same<H: Threads + Sync>(
    alloc: Global,
    rt: &H,
    given: &Given,
    workers: u32,
    turns: u64,
    alone: &Answer,
) -> Result<bool, Fail> {
    let answer = run_all(alloc, rt, given, singly(workers, 2, turns), 0)?;
    Ok(are_same(&answer, alone, NODES))
}

/// Whether runs of one to four workers give the answer of one thread.
fn each_is_same<H: Threads + Sync>(
    alloc: Global,
    rt: &H,
    given: &Given,
    turns: u64,
    alone: &Answer,
) -> Result<bool, Fail> {
    for workers in 1..5u32 {
        if !is_same(alloc, rt, given, workers, turns, alone)? {
            return Ok(false);
        }
    }
    Ok(true)
}

/// Whether all runs of a random network give the answer of one thread.
fn are_all_same<H: Threads + Sync>(alloc: Global, rt: &H, seed: u64) -> Result<bool, Fail> {
    let given = posed_by(alloc, NODES, seed)?;
    let alone = answer_alone(alloc, &given)?;
    each_is_same(alloc, rt, &given, 7 * (seed % 9), &alone)
}

/// The first seed with a run that gives another answer.
fn wrong_seed<H: Threads + Sync>(alloc: Global, rt: &H) -> Result<Option<usize>, Fail> {
    for seed in 0..60u64 {
        if !are_all_same(alloc, rt, seed)? {
            return Ok(Some(seed as usize));
        }
    }
    Ok(None)
}

#[test]
fn workers_answer_as_one_thread(rt: HostRuntime) -> Result<(), Fail> {
    assert_told(&rt, wrong_seed(rt.alloc(), &rt))
}
