//! Inputs of the size of real use.
use crate::late::{goes_round, late_ring};
use crate::ran::{
    Came, Count, Wanted, answer_alone, arrives, assert_right, assert_told, constants, posed,
    run_crew, total, wrong_beside,
};
use ea_engine::{Answer, NoGate};
use std::alloc::{AllocError, Global};
use std::test::Fail;
use std::thread::Threads;
use test_support::networks::{Given, Row};

const NODES: u32 = 1_000_000;

/// The arcs of a path: each node's one arc, of weight 3, leads to the next node.
fn rows_of_path(alloc: Global) -> Result<Vec<Row>, AllocError> {
    let mut rows = Vec::new(alloc);
    for node in 1..NODES {
        rows.push((node, node + 1, 3, 0))?;
    }
    Ok(rows)
}

/// The path, from node 1 at 7.
fn path(alloc: Global) -> Result<Given, Fail> {
    let rows = rows_of_path(alloc)?;
    posed(alloc, NODES, &rows, &[(1, 7)])
}

/// Whether a walk has all arcs in their order.
fn has_all(walk: &[u32]) -> bool {
    let mut right = walk.len() == 999_999;
    for (arc, number) in walk.iter().zip(1..NODES) {
        right &= *arc == number;
    }
    right
}

fn has_arrivals(answer: &Answer) -> bool {
    arrives(answer, 1, Some(7))
        && arrives(answer, 2, Some(10))
        && arrives(answer, NODES, Some(3_000_004))
}

/// Whether an answer has the path's arrivals, and the walk of the last node.
fn is_along(alloc: Global, answer: &Answer) -> Result<bool, Fail> {
    if !has_arrivals(answer) || !answer.asks(NODES) || !answer.has_walks() {
        return Ok(false);
    }
    match answer.walk(alloc, NODES)? {
        Some(walk) => Ok(has_all(&walk)),
        None => Ok(false),
    }
}

/// Whether workers popped entries and gave this answer.
fn pops_along(alloc: Global, came: &Came) -> Result<bool, Fail> {
    if total(came, Count::Popped) == 0 {
        return Ok(false);
    }
    is_along(alloc, &came.answer)
}

/// Whether two workers with eight heaps each do, with generators that return only 16.
fn run_along<H: Threads + Sync>(alloc: Global, rt: &H, given: &Given) -> Result<bool, Fail> {
    let rngs = constants(alloc, 2, 16)?;
    let came = run_crew(alloc, rt, given, 8, 1_000_000, rngs, &NoGate)?;
    pops_along(alloc, &came)
}

/// Whether two workers do on the path.
fn two_along<H: Threads + Sync>(alloc: Global, rt: &H) -> Result<bool, Fail> {
    run_along(alloc, rt, &path(alloc)?)
}

#[test]
fn two_workers_along_a_million_nodes(rt: HostRuntime) -> Result<(), Fail> {
    assert_right(&rt, "arrivals, walk and pops", two_along(rt.alloc(), &rt))
}

/// Whether one thread gives this answer.
fn run_alone(alloc: Global, given: &Given) -> Result<bool, Fail> {
    let answer = answer_alone(alloc, given)?;
    is_along(alloc, &answer)
}

/// Whether one thread does on the path.
fn one_along(alloc: Global) -> Result<bool, Fail> {
    run_alone(alloc, &path(alloc)?)
}

#[test]
fn one_thread_along_a_million_nodes(rt: HostRuntime) -> Result<(), Fail> {
    assert_right(&rt, "arrivals and walk", one_along(rt.alloc()))
}

const RING: u32 = 80_000;

const LATE: [Wanted; 2] = [(Count::Drained, 1), (Count::Finish, 1)];

/// The index of the first wrong count in a run of four workers on a late ring with generators that return
/// only 2; the number of counts if the ring's arrivals are wrong.
fn wrong_round<H: Threads + Sync>(
    alloc: Global,
    rt: &H,
    given: &Given,
    turns: u32,
) -> Result<Option<usize>, Fail> {
    let rngs = constants(alloc, 4, 2)?;
    let came = run_crew(alloc, rt, given, 8, turns, rngs, &NoGate)?;
    Ok(wrong_beside(&came, goes_round(&came.answer, RING), &LATE))
}

/// The most turns. A pass in the order of opening takes quadratic time on the ring.
const TURNS: [u32; 2] = [0, 1000];

/// The index of the first number of turns with which a run goes wrong.
fn wrong_turns<H: Threads + Sync>(
    alloc: Global,
    rt: &H,
    given: &Given,
) -> Result<Option<usize>, Fail> {
    for (place, turns) in TURNS.iter().enumerate() {
        if wrong_round(alloc, rt, given, *turns)?.is_some() {
            return Ok(Some(place));
        }
    }
    Ok(None)
}

/// With no turns, and with heaps that the workers' words never draw, everything is left to the end of the
/// run.
#[test]
fn late_work_is_done_in_the_order_of_labels(rt: HostRuntime) -> Result<(), Fail> {
    let given = late_ring(rt.alloc(), RING)?;
    assert_told(&rt, wrong_turns(rt.alloc(), &rt, &given))
}
