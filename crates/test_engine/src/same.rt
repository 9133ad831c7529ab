//! Runs of all settings give one answer.
ghost use Rattle.ea_road.specs.Queries.{IsSource};

use crate::pairs::EQUAL_KEYS;
use crate::ran::{arrives, assert_told, run_all, singly, walks};
use ea_engine::{Answer, Settings};
use ea_road::{Query, Source};
use std::alloc::{AllocError, Global};
use std::test::Fail;
use std::thread::Threads;
use test_support::networks::{FOUR_NODES, Given, Row, with_period};

/// A node, its arrival and its walk.
type Line = (u32, u64, &'static [u32]);

/// Nodes, rows, the period of class 1, the departure from node 1, the target (0 if all nodes are asked), and
/// the lines of the answer.
type Case = (u32, &'static [Row], u32, u32, u32, &'static [Line]);

const TWO_WAYS_TO_FIFTEEN: Case = (
    4,
    &[(1, 2, 4, 0), (1, 3, 1, 0), (3, 2, 1, 0), (2, 4, 5, 1)],
    10,
    1,
    0,
    &[
        (1, 1, &[]),
        (2, 3, &[2, 3]),
        (3, 2, &[2]),
        (4, 15, &[2, 3, 4]),
    ],
);

const PARALLEL_ARCS: &[Row] = &[(1, 2, 1, 1), (1, 2, 50, 0)];

const CYCLE_OF_ZERO: Case = (
    3,
    &[(1, 2, 4, 0), (2, 3, 0, 0), (3, 2, 0, 0), (1, 3, 4, 0)],
    0,
    0,
    0,
    &[(1, 0, &[]), (2, 4, &[1]), (3, 4, &[4])],
);

const CANONICAL_TIES: Case = (
    4,
    &[(1, 2, 1, 0), (1, 3, 1, 0), (3, 4, 1, 0), (2, 4, 1, 0)],
    0,
    0,
    0,
    &[(1, 0, &[]), (2, 1, &[1]), (3, 1, &[2]), (4, 2, &[2, 3])],
);

const TIES_AT_ZERO: Case = (
    3,
    &[(1, 2, 0, 0), (2, 3, 0, 0), (1, 3, 0, 0)],
    0,
    0,
    0,
    &[(1, 0, &[]), (2, 0, &[1]), (3, 0, &[3])],
);

const OF_FOUR_NODES: Case = (
    4,
    &FOUR_NODES,
    0,
    0,
    0,
    &[
        (1, 0, &[]),
        (2, 5, &[2, 3]),
        (3, 2, &[2]),
        (4, 6, &[2, 3, 4]),
    ],
);

const CASES: [Case; 8] = [
    OF_FOUR_NODES,
    TWO_WAYS_TO_FIFTEEN,
    (2, PARALLEL_ARCS, 100, 1, 0, &[(1, 1, &[]), (2, 51, &[2])]),
    (
        2,
        PARALLEL_ARCS,
        100,
        100,
        0,
        &[(1, 100, &[]), (2, 101, &[1])],
    ),
    CYCLE_OF_ZERO,
    CANONICAL_TIES,
    TIES_AT_ZERO,
    // Equal keys at the cut.
    (6, &EQUAL_KEYS, 0, 0, 3, &[(3, 3, &[1, 2, 3])]),
];

/// Whether an answer has exactly these lines: each asked node has its line.
fn is_told(alloc: Global, answer: &Answer, lines: &[Line]) -> Result<bool, AllocError> {
    let mut asked = 0u32;
    for node in 1..answer.nodes().saturating_add(1) {
        if answer.asks(node) {
            asked = asked.wrapping_add(1);
        }
    }
    let mut right = asked as usize == lines.len();
    for (node, arrival, walk) in lines {
        right &= arrives(answer, *node, Some(*arrival)) && walks(alloc, answer, *node, walk)?;
    }
    Ok(right)
}

/// Whether each run with seeds 1 to 5 has these lines.
fn told_by_seeds<H: Threads + Sync>(
    alloc: Global,
    rt: &H,
    given: &Given,
    settings: Settings,
    lines: &[Line],
) -> Result<bool, Fail> {
    let mut right = true;
    for seed in 1..6 {
        let answer = run_all(alloc, rt, given, settings, seed)?;
        right &= is_told(alloc, &answer, lines)?;
    }
    Ok(right)
}

/// Whether each run has these lines: by 1, 2 and 4 workers, 2 and 8 heaps for each, 0, 1 and 100 turns, seeds
/// 1 to 5.
fn all_told<H: Threads + Sync>(
    alloc: Global,
    rt: &H,
    given: &Given,
    lines: &[Line],
) -> Result<bool, Fail> {
    let mut right = true;
    for workers in [1, 2, 4] {
        for heaps in [2, 8] {
            for turns in [0, 1, 100] {
                let settings = singly(workers, heaps, turns);
                right &= told_by_seeds(alloc, rt, given, settings, lines)?;
            }
        }
    }
    Ok(right)
}

/// From node 1 at a departure.
fn from_first(departure: u32) -> Source
    ensures { IsSource result }
{
    Source {
        node: 1,
        departure: u64::from(departure),
    }
}

/// The query of a case.
fn query_of(case: &Case) -> Query {
    let source = from_first(case.3);
    if case.4 == 0 {
        Query::from_one(source)
    } else {
        Query::pair(source, case.4)
    }
}

/// What is given in a case.
fn given_of(alloc: Global, case: &Case) -> Result<Given, Fail> {
    let (nodes, rows, period, ..) = *case;
    Ok(with_period(alloc, nodes, rows, period, query_of(case))?.ok_or("rows")?)
}

/// Whether each run of a case gives its lines.
fn is_case_told<H: Threads + Sync>(alloc: Global, rt: &H, case: &Case) -> Result<bool, Fail> {
    all_told(alloc, rt, &given_of(alloc, case)?, case.5)
}

/// The index of the first case with a run that has other lines.
fn wrong_case<H: Threads + Sync>(alloc: Global, rt: &H) -> Result<Option<usize>, Fail> {
    for (place, case) in CASES.iter().enumerate() {
        if !is_case_told(alloc, rt, case)? {
            return Ok(Some(place));
        }
    }
    Ok(None)
}

#[test]
fn same_bytes(rt: HostRuntime) -> Result<(), Fail> {
    assert_told(&rt, wrong_case(rt.alloc(), &rt))
}
