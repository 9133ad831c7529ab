ghost use Rattle.std.specs.Prelude.{◌≡◌, ◌+◌, ◌<◌, ◌^◌};

use crate::asserts::{assert_none_wrong, assert_that};
use crate::refused::given::{four_nodes, from_first};
use ea_base::{HORIZON, RawKind};
use ea_paths::*;
use ea_road::{Network, Query, Source, is_problem};
use ea_search::*;
use ea_travel_times::Timetables;
use std::alloc::{AllocError, Global};
use std::test::Fail;
use test_support::networks::{FOUR_NODES, Row, network_of, query_of};

/// Class 0 is plain, class 1 leaves every 10, class 2 every 100.
pub(crate) fn timetables(alloc: Global) -> Result<Timetables, AllocError> {
    let kinds = [
        RawKind::Every {
            period: 10,
            offset: 0,
        },
        RawKind::Every {
            period: 100,
            offset: 0,
        },
    ];
    Timetables::of(alloc, &kinds)
}

/// The answer of one thread, with walks or without; none if network and query make no problem.
pub(crate) fn found(
    alloc: Global,
    network: &Network,
    times: &Timetables,
    query: &Query,
    walks: bool,
) -> Result<Option<Answer>, AllocError> {
    if !is_problem(network, times.classes(), query) {
        return Ok(None);
    }
    let answer = if walks {
        solve_alone(alloc, network, times, query)
    } else {
        arrivals_alone(alloc, network, times, query)
    };
    match answer {
        Ok(answer) => Ok(Some(answer)),
        Err(refused) => Err(refused),
    }
}

/// The answer in a network with the three classes.
fn found_by_classes(
    alloc: Global,
    network: &Network,
    query: &Query,
    walks: bool,
) -> Result<Option<Answer>, AllocError> {
    let times = timetables(alloc)?;
    found(alloc, network, &times, query, walks)
}

/// The answer for a query; none if the rows or the query do not fit.
fn answered(
    alloc: Global,
    nodes: u32,
    rows: &[Row],
    query: &Query,
    walks: bool,
) -> Result<Option<Answer>, AllocError> {
    match network_of(alloc, nodes, rows)? {
        Some(network) => found_by_classes(alloc, &network, query, walks),
        None => Ok(None),
    }
}

/// The answer for all nodes.
pub(crate) fn from_sources(
    alloc: Global,
    nodes: u32,
    rows: &[Row],
    sources: &[(u32, u64)],
) -> Result<Option<Answer>, AllocError> {
    match query_of(alloc, sources)? {
        Some(query) => answered(alloc, nodes, rows, &query, true),
        None => Ok(None),
    }
}

/// The answer for one target, from a source that departs at 0.
fn from_to(
    alloc: Global,
    nodes: u32,
    rows: &[Row],
    from: u32,
    to: u32,
) -> Result<Option<Answer>, AllocError> {
    if from == 0 || to == 0 {
        return Ok(None);
    }
    let source = Source {
        node: from,
        departure: 0,
    };
    answered(alloc, nodes, rows, &Query::pair(source, to), true)
}

/// A node, its arrival, and its walk.
type Line = (u32, Option<u64>, &'static [u32]);

/// Whether an answer gives an arrival for a node.
fn arrives(answer: &Answer, node: u32, arrival: Option<u64>) -> bool {
    answer.asks(node) && answer.arrival(node) == arrival
}

/// Whether an answer gives a walk for a node.
pub(crate) fn walks(
    alloc: Global,
    answer: &Answer,
    node: u32,
    walk: &[u32],
) -> Result<bool, AllocError> {
    if !answer.asks(node) || !answer.has_walks() {
        return Ok(false);
    }
    match answer.walk(alloc, node)? {
        Some(arcs) => Ok(arcs.as_slice() == walk),
        None => Ok(false),
    }
}

/// Whether an answer gives a line's arrival and, if the node is reached, its walk.
fn gives(alloc: Global, answer: &Answer, line: &Line) -> Result<bool, AllocError> {
    let (node, arrival, walk) = *line;
    if !arrives(answer, node, arrival) || arrival.is_none() {
        return Ok(arrives(answer, node, arrival));
    }
    walks(alloc, answer, node, walk)
}

/// The first node for which an answer differs from its line.
fn wrong_node(alloc: Global, answer: &Answer, lines: &[Line]) -> Result<Option<u32>, AllocError> {
    for line in lines {
        if !gives(alloc, answer, line)? {
            return Ok(Some(line.0));
        }
    }
    Ok(None)
}

/// Nodes, rows and sources, and the lines of the answer for all nodes.
type Run = (u32, &'static [Row], &'static [(u32, u64)], &'static [Line]);

const TWO_WAYS_TO_FIFTEEN: [Row; 4] = [(1, 2, 4, 0), (1, 3, 1, 0), (3, 2, 1, 0), (2, 4, 5, 1)];

const PARALLEL: [Row; 2] = [(1, 2, 1, 2), (1, 2, 50, 0)];

const RUNS: &[Run] = &[
    (
        4,
        &FOUR_NODES,
        &[(1, 0)],
        &[
            (1, Some(0), &[]),
            (2, Some(5), &[2, 3]),
            (3, Some(2), &[2]),
            (4, Some(6), &[2, 3, 4]),
        ],
    ),
    // Without sources nothing is reached.
    (
        4,
        &FOUR_NODES,
        &[],
        &[
            (1, None, &[]),
            (2, None, &[]),
            (3, None, &[]),
            (4, None, &[]),
        ],
    ),
    // Timetables decide.
    (2, &[(1, 2, 3, 1)], &[(1, 0)], &[(2, Some(3), &[1])]),
    (2, &[(1, 2, 3, 1)], &[(1, 1)], &[(2, Some(13), &[1])]),
    (2, &[(1, 2, 3, 1)], &[(1, 10)], &[(2, Some(13), &[1])]),
    (
        4,
        &TWO_WAYS_TO_FIFTEEN,
        &[(1, 1)],
        &[
            (2, Some(3), &[2, 3]),
            (3, Some(2), &[2]),
            (4, Some(15), &[2, 3, 4]),
        ],
    ),
    // The second of two parallel arcs arrives first early on, the first one later.
    (2, &PARALLEL, &[(1, 1)], &[(2, Some(51), &[2])]),
    (2, &PARALLEL, &[(1, 100)], &[(2, Some(101), &[1])]),
    // A cycle of zero, and a loop.
    (
        3,
        &[(1, 2, 4, 0), (2, 3, 0, 0), (3, 2, 0, 0), (1, 3, 4, 0)],
        &[(1, 0)],
        &[(2, Some(4), &[1]), (3, Some(4), &[4])],
    ),
    (
        2,
        &[(1, 1, 0, 0)],
        &[(1, 0)],
        &[(1, Some(0), &[]), (2, None, &[])],
    ),
    // At the horizon and past it, and sources before which another one arrives.
    (
        2,
        &[(1, 2, 0, 0)],
        &[(1, HORIZON)],
        &[(2, Some(281_474_976_710_655), &[1])],
    ),
    (
        2,
        &[(1, 2, 1, 0)],
        &[(1, HORIZON)],
        &[(1, Some(281_474_976_710_655), &[]), (2, None, &[])],
    ),
    (
        2,
        &[(1, 2, 3, 0)],
        &[(1, 0), (2, 5)],
        &[(1, Some(0), &[]), (2, Some(3), &[1])],
    ),
    // Of walks with equal arrivals, the one with the fewest arcs, then the lowest numbers.
    (
        4,
        &[(1, 2, 1, 0), (1, 3, 1, 0), (3, 4, 1, 0), (2, 4, 1, 0)],
        &[(1, 0)],
        &[(4, Some(2), &[2, 3])],
    ),
    (
        3,
        &[(1, 2, 0, 0), (2, 3, 0, 0), (1, 3, 0, 0)],
        &[(1, 0)],
        &[(3, Some(0), &[3])],
    ),
];

/// Whether an answer for all nodes has the lines.
fn is_run(alloc: Global, run: &Run) -> Result<bool, AllocError> {
    let (nodes, rows, sources, lines) = *run;
    match from_sources(alloc, nodes, rows, sources)? {
        Some(answer) => Ok(wrong_node(alloc, &answer, lines)?.is_none()),
        None => Ok(false),
    }
}

/// The first run that differs from its lines.
fn wrong_run(alloc: Global, runs: &[Run]) -> Result<Option<usize>, AllocError> {
    for (place, run) in runs.iter().enumerate() {
        if !is_run(alloc, run)? {
            return Ok(Some(place));
        }
    }
    Ok(None)
}

#[test]
fn answers_for_all_nodes(rt: HostRuntime) -> Result<(), Fail> {
    assert_none_wrong(&rt, wrong_run(rt.alloc(), RUNS)?);
    Ok(())
}

/// Nodes and rows, source and target, a line, and whether the answer for the pair gives it.
type Pair = (u32, &'static [Row], u32, u32, Line, bool);

const PAIRS: &[Pair] = &[
    (4, &FOUR_NODES, 1, 4, (4, Some(6), &[2, 3, 4]), true),
    // On the way, but not asked.
    (4, &FOUR_NODES, 1, 4, (3, Some(2), &[2]), false),
    (4, &FOUR_NODES, 4, 1, (1, None, &[]), true),
    (
        3,
        &[(1, 2, 1, 0), (1, 3, 5, 0)],
        1,
        2,
        (2, Some(1), &[1]),
        true,
    ),
    // Cut at equal keys.
    (
        6,
        &[
            (1, 4, 3, 0),
            (4, 5, 0, 0),
            (5, 3, 0, 0),
            (1, 2, 1, 0),
            (2, 6, 1, 0),
            (6, 3, 1, 0),
        ],
        1,
        3,
        (3, Some(3), &[1, 2, 3]),
        true,
    ),
];

/// Whether an answer for the pair gives the line, or doesn't, as expected.
fn is_pair(alloc: Global, pair: &Pair) -> Result<bool, AllocError> {
    let (nodes, rows, from, to, line, given) = *pair;
    match from_to(alloc, nodes, rows, from, to)? {
        Some(answer) => Ok(gives(alloc, &answer, &line)? == given),
        None => Ok(false),
    }
}

/// The first pair whose answer is not the expected one.
fn wrong_pair(alloc: Global, pairs: &[Pair]) -> Result<Option<usize>, AllocError> {
    for (place, pair) in pairs.iter().enumerate() {
        if !is_pair(alloc, pair)? {
            return Ok(Some(place));
        }
    }
    Ok(None)
}

#[test]
fn answers_for_pairs(rt: HostRuntime) -> Result<(), Fail> {
    assert_none_wrong(&rt, wrong_pair(rt.alloc(), PAIRS)?);
    Ok(())
}

/// The first of the four nodes with another arrival.
fn wrong_arrival(answer: &Answer) -> Option<usize> {
    for (place, arrival) in [0, 5, 2, 6].iter().enumerate() {
        if !arrives(answer, place as u32 + 1, Some(*arrival)) {
            return Some(place);
        }
    }
    None
}

/// Whether the answer for the four nodes from node 1 at 0, asked without walks, has the arrivals and no
/// walks.
fn has_arrivals_alone(alloc: Global) -> Result<bool, AllocError> {
    match answered(alloc, 4, &FOUR_NODES, &from_first(), false)? {
        Some(answer) => Ok(wrong_arrival(&answer).is_none() && !answer.has_walks()),
        None => Ok(false),
    }
}

#[test]
fn without_walks_the_arrivals_are_the_same(rt: HostRuntime) -> Result<(), Fail> {
    assert_that(&rt, "arrivals alone", has_arrivals_alone(rt.alloc())?);
    Ok(())
}

/// The calls that answer a query by one thread.
#[derive(Clone, Copy, PartialEq, Eq)]
pub(crate) enum Alone {
    Walks,
    Arrivals,
    WalksBy,
    ArrivalsBy,
}

/// The answer of one of the calls, without classes; none if network and query make no problem.
pub(crate) fn answer_alone(
    alloc: Global,
    call: Alone,
    network: &Network,
    query: &Query,
) -> Result<Option<Answer>, AllocError> {
    if !is_problem(network, 0, query) {
        return Ok(None);
    }
    let times = Timetables::new(Vec::new(alloc));
    let plain = |_class: u32, weight: u64, departure: u64| -> u64
        requires { departure + weight < 2 ^ 64 }
        ensures { result ≡ departure + weight }
    { departure + weight };
    let answer = match call {
        Alone::Walks => solve_alone(alloc, network, &times, query),
        Alone::Arrivals => arrivals_alone(alloc, network, &times, query),
        Alone::WalksBy => solve_alone_by(alloc, network, plain, 0, query),
        Alone::ArrivalsBy => arrivals_alone_by(alloc, network, plain, 0, query),
    };
    match answer {
        Ok(answer) => Ok(Some(answer)),
        Err(refused) => Err(refused),
    }
}

/// The answer for the four nodes by one of the calls.
pub(crate) fn four_answered(alloc: Global, call: Alone) -> Result<Option<Answer>, AllocError> {
    match four_nodes(alloc)? {
        Some(network) => answer_alone(alloc, call, &network, &from_first()),
        None => Ok(None),
    }
}

/// Whether node 4 of the four is reached from node 1 at 6 by a closure that is made here.
fn closure_arrives(alloc: Global) -> Result<bool, AllocError> {
    match four_answered(alloc, Alone::WalksBy)? {
        Some(answer) => Ok(arrives(&answer, 4, Some(6))),
        None => Ok(false),
    }
}

#[test]
fn a_closure_brings_travel_times(rt: HostRuntime) -> Result<(), Fail> {
    assert_that(&rt, "node 4 at 6", closure_arrives(rt.alloc())?);
    Ok(())
}
