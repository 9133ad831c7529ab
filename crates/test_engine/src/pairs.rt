//! Pair queries.
ghost use Rattle.std.specs.Prelude.{◌<◌};

use crate::ran::{
    Came, Count, Wanted, arrives, assert_right, assert_told, run_plain, walks, wrong_beside,
};
use ea_engine::Answer;
use ea_road::{Query, Source};
use std::alloc::Global;
use std::test::Fail;
use std::thread::Threads;
use test_support::networks::{Row, with_query};

/// From node 1 at 0.
const START: Source = Source {
    node: 1,
    departure: 0,
};

/// A run of one worker for a pair from node 1.
fn run_pair<H: Threads + Sync>(
    alloc: Global,
    rt: &H,
    nodes: u32,
    rows: &[Row],
    target: u32,
) -> Result<Came, Fail>
    requires { 0 < target }
{
    let given = with_query(alloc, nodes, rows, Query::pair(START, target))?.ok_or("rows")?;
    run_plain(alloc, rt, &given, 100)
}

const ONE_ARC_TOO_FAR: [Row; 2] = [(1, 2, 1, 0), (1, 3, 5, 0)];

/// Whether an answer asks for node 2 alone of three, and has its arrival.
fn asks_two(answer: &Answer) -> bool {
    arrives(answer, 2, Some(1)) && !answer.asks(1) && !answer.asks(3)
}

const TO_TWO: [Wanted; 4] = [
    (Count::Workers, 1),
    (Count::Popped, 3),
    (Count::Scanned, 2),
    (Count::Cut, 1),
];

/// The index of the first wrong count for the pair of nodes 1 and 2; the number of counts if the answer is
/// wrong.
fn wrong_to_two<H: Threads + Sync>(alloc: Global, rt: &H) -> Result<Option<usize>, Fail> {
    let came = run_pair(alloc, rt, 3, &ONE_ARC_TOO_FAR, 2)?;
    Ok(wrong_beside(&came, asks_two(&came.answer), &TO_TWO))
}

#[test]
fn pair_queries(rt: HostRuntime) -> Result<(), Fail> {
    assert_told(&rt, wrong_to_two(rt.alloc(), &rt))
}

pub const EQUAL_KEYS: [Row; 6] = [
    (1, 4, 3, 0),
    (4, 5, 0, 0),
    (5, 3, 0, 0),
    (1, 2, 1, 0),
    (2, 6, 1, 0),
    (6, 3, 1, 0),
];

/// Whether an answer has the arrival of node 3, and its walk.
fn reaches_three(alloc: Global, answer: &Answer) -> Result<bool, Fail> {
    if !arrives(answer, 3, Some(3)) {
        return Ok(false);
    }
    Ok(walks(alloc, answer, 3, &[1, 2, 3])?)
}

/// Whether the pair of nodes 1 and 3 has them.
fn run_to_three<H: Threads + Sync>(alloc: Global, rt: &H) -> Result<bool, Fail> {
    let came = run_pair(alloc, rt, 6, &EQUAL_KEYS, 3)?;
    reaches_three(alloc, &came.answer)
}

#[test]
fn cut_at_equal_keys(rt: HostRuntime) -> Result<(), Fail> {
    assert_right(&rt, "node 3 is reached", run_to_three(rt.alloc(), &rt))
}
