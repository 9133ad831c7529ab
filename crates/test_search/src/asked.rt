//! How often a caller's closure is called.
ghost use Rattle.std.specs.Prelude.{◌≡◌, ◌<◌, ◌+◌, ◌*◌, ◌^◌, max};
ghost use Rattle.ea_road.specs.Queries.{IsSource};

use crate::asserts::{assert_none_wrong, assert_that};
use ea_paths::{Answer, arrivals_alone_by, solve_alone_by};
use ea_road::{Network, Query, Source, is_problem};
use std::alloc::{AllocError, Global};
use std::sync::atomic::{AtomicU64, Ordering};
use std::test::Fail;
use test_support::networks::{FOUR_NODES, Row, network_of};

/// The answer of one thread by a closure that counts its calls, with walks or without; none if there is no
/// problem.
fn answer_counting(
    alloc: Global,
    network: &Network,
    query: &Query,
    walks: bool,
    calls: &AtomicU64,
) -> Result<Option<Answer>, AllocError> {
    if !is_problem(network, 0, query) {
        return Ok(None);
    }
    let counting = |_class: u32, weight: u64, departure: u64| -> u64
        requires { departure + weight < 2 ^ 64 }
        ensures { result ≡ departure + weight }
    {
        calls.fetch_add(1, Ordering::SeqCst);
        departure + weight
    };
    let answer = if walks {
        solve_alone_by(alloc, network, counting, 0, query)
    } else {
        arrivals_alone_by(alloc, network, counting, 0, query)
    };
    match answer {
        Ok(answer) => Ok(Some(answer)),
        Err(refused) => Err(refused),
    }
}

/// The rows of a path with arcs of weight 1.
fn path(alloc: Global, nodes: u32) -> Result<Vec<Row>, AllocError> {
    let mut rows: Vec<Row> = Vec::new(alloc);
    for node in 1..nodes {
        rows.push((node, node + 1, 1, 0))?;
    }
    Ok(rows)
}

/// The number of nodes, the target if not all are asked, whether walks are asked, and how often the closure
/// is called at least and at most.
type Case = (u32, Option<u32>, bool, u64, u64);

const CASES: [Case; 6] = [
    // Each arc is relaxed once by the search, and once more if walks are asked for.
    (4, None, false, 5, 5),
    (1000, None, false, 999, 999),
    (4, None, true, 5, 10),
    (1000, None, true, 999, 1998),
    // A pair query relaxes nothing far beyond its target.
    (1000, Some(2), false, 1, 8),
    (1000, Some(2), true, 1, 8),
];

/// The source of the searches.
fn first() -> Source
    ensures { IsSource result }
{
    Source {
        node: 1,
        departure: 0,
    }
}

/// The query from node 1 at 0 for a target or for all nodes.
fn query_for(target: Option<u32>) -> Query {
    match target {
        Some(node) if node > 0 => Query::pair(first(), node),
        _ => Query::from_one(first()),
    }
}

/// Whether a network of this many nodes, with walks if they are asked for, has an answer that calls the
/// closure this often.
fn asks_so_often(
    alloc: Global,
    network: &Network,
    query: &Query,
    case: &Case,
) -> Result<bool, AllocError> {
    let (nodes, _, walks, least, most) = *case;
    let calls = AtomicU64::new(0);
    match answer_counting(alloc, network, query, walks, &calls)? {
        Some(answer) => {
            let asked = calls.load(Ordering::SeqCst);
            let has_all = answer.nodes() == nodes && answer.has_walks() == walks;
            Ok(has_all && least <= asked && asked <= most)
        }
        None => Ok(false),
    }
}

/// Whether the closure is called this often in the network of these rows.
fn is_asked(alloc: Global, rows: &[Row], case: &Case) -> Result<bool, AllocError> {
    match network_of(alloc, case.0, rows)? {
        Some(network) => asks_so_often(alloc, &network, &query_for(case.1), case),
        None => Ok(false),
    }
}

/// The first case in which the closure is not called as expected. Four nodes mean the example, more nodes a
/// path.
fn wrong_case(alloc: Global, path: &[Row]) -> Result<Option<usize>, AllocError> {
    for (place, case) in CASES.iter().enumerate() {
        let rows = if case.0 == 4 { &FOUR_NODES } else { path };
        if !is_asked(alloc, rows, case)? {
            return Ok(Some(place));
        }
    }
    Ok(None)
}

#[test]
fn closure_is_asked_no_more_than_is_needed(rt: HostRuntime) -> Result<(), Fail> {
    let path = path(rt.alloc(), 1000)?;
    assert_none_wrong(&rt, wrong_case(rt.alloc(), path.as_slice())?);
    Ok(())
}

/// The last node of the path behind node 5.
const LAST: u32 = 205;

/// Node 2 is reached at 9 by one arc and, later in the search, at 3 by three. Its only arc, of class 1, arrives at 60 after both. So the
/// level of node 5 rises, and with it the levels along the path behind it. A loop that is not reached makes windows wide.
fn late_levels(alloc: Global) -> Result<Vec<Row>, AllocError> {
    let mut rows: Vec<Row> = Vec::new(alloc);
    rows.push((1, 3, 1, 0))?;
    rows.push((1, 2, 9, 0))?;
    rows.push((3, 4, 1, 0))?;
    rows.push((4, 2, 1, 0))?;
    rows.push((2, 5, 1, 1))?;
    for node in 5..LAST {
        rows.push((node, node + 1, 1, 0))?;
    }
    rows.push((LAST + 1, LAST + 1, u32::MAX, 0))?;
    Ok(rows)
}

/// How often a closure is called by a search with walks on a network whose class 1 arrives at 60 at the earliest; none if there is no
/// problem.
fn calls_with_gate(
    alloc: Global,
    network: &Network,
    query: &Query,
) -> Result<Option<u64>, AllocError> {
    if !is_problem(network, 1, query) {
        return Ok(None);
    }
    let calls = AtomicU64::new(0);
    let counting = |class: u32, weight: u64, departure: u64| -> u64
        requires { departure + weight < 2 ^ 64 }
        ensures { result ≡ max (departure + weight) (class * 60) }
    {
        calls.fetch_add(1, Ordering::SeqCst);
        (departure + weight).max(u64::from(class) * 60)
    };
    let _answer = solve_alone_by(alloc, network, counting, 1, query)?;
    Ok(Some(calls.load(Ordering::SeqCst)))
}

/// The same for the network of these rows; none if they make none.
fn calls_on(alloc: Global, rows: &[Row]) -> Result<Option<u64>, AllocError> {
    match network_of(alloc, LAST + 1, rows)? {
        Some(network) => calls_with_gate(alloc, &network, &query_for(None)),
        None => Ok(None),
    }
}

/// Whether each arc is asked about hardly more than once: each of the 205 that are reached, and the only arc of node 2 twice.
fn are_few(calls: Option<u64>) -> bool {
    match calls {
        Some(count) => count >= 205 && count < 220,
        None => false,
    }
}

/// Levels that rise late are passed on along links: the path behind them is not searched once more.
#[test]
fn late_levels_are_passed_on(rt: HostRuntime) -> Result<(), Fail> {
    let rows = late_levels(rt.alloc())?;
    assert_that(
        &rt,
        "few questions",
        are_few(calls_on(rt.alloc(), rows.as_slice())?),
    );
    Ok(())
}
