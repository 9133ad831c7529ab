//! One search's arrays are used for query after query, and each answer is that of fresh arrays.
ghost use Rattle.std.specs.Prelude.{◌≡◌, ◌<◌, true, IfOk};
ghost use Rattle.ea_road.specs.Queries.{IsSource};

use crate::alone::found;
use crate::asserts::assert_none_wrong;
use ea_base::RawKind;
use ea_paths::{Answer, Search};
use ea_road::{Arc, Network, Query, Source, is_problem};
use ea_travel_times::Timetables;
use rand_core::{Rng, SeedableRng};
use rand_xoshiro::Xoshiro256PlusPlus;
use std::alloc::{AllocError, Global};
use std::test::Fail;

/// The steps of a class of speeds, four of a period of 40, and of one of trips, three of a period of 60.
const STEPS: [(u64, u64); 7] = [
    (0, 1000),
    (10, 250),
    (20, 0),
    (30, 3000),
    (5, 9),
    (25, 0),
    (45, 14),
];

/// A class of each kind: at once, at multiples, closed, rush, speeds, trips.
const KINDS: [RawKind; 6] = [
    RawKind::Plain,
    RawKind::Every {
        period: 7,
        offset: 3,
    },
    RawKind::Closed { lo: 20, hi: 60 },
    RawKind::Rush {
        lo: 10,
        hi: 30,
        extra: 11,
    },
    RawKind::Speeds {
        period: 40,
        first: 0,
        count: 4,
    },
    RawKind::Trips {
        period: 60,
        first: 4,
        count: 3,
    },
];

/// Travel times of all kinds; none if they don't fit.
fn times_of_all_kinds(alloc: Global) -> Result<Option<Timetables>, AllocError> {
    let mut kinds = Vec::new(alloc);
    for kind in &KINDS {
        kinds.push(*kind)?;
    }
    let mut steps = Vec::new(alloc);
    for step in &STEPS {
        steps.push(*step)?;
    }
    if !Timetables::fits(&kinds, &steps) {
        return Ok(None);
    }
    Ok(Some(Timetables::with_steps(alloc, kinds, steps)?))
}

/// A number from 1 to the greatest, or 1.
fn number_to<R: Rng>(words: &mut R, greatest: u32) -> u32
    ensures { 0 < result }
{
    1 + (words.next_u64() % u64::from(greatest.max(1))) as u32 % 1_000_000
}

/// A network with as many arcs as are asked for, of all classes; none if its nodes are none.
fn random_network<R: Rng>(
    alloc: Global,
    words: &mut R,
    nodes: u32,
    arcs: u32,
) -> Result<Option<Network>, AllocError> {
    let mut list = Vec::new(alloc);
    for _ in 0..arcs {
        list.push(Arc {
            tail: number_to(words, nodes),
            head: number_to(words, nodes),
            weight: number_to(words, 16) - 1,
            class: number_to(words, 7) - 1,
        })?;
    }
    if !Network::fits(nodes, &list) {
        return Ok(None);
    }
    Ok(Some(Network::new(alloc, nodes, list)?))
}

/// A source at a node up to the last one, at a departure below 100.
fn random_source<R: Rng>(words: &mut R, nodes: u32) -> Source
    ensures { IsSource result }
{
    Source {
        node: number_to(words, nodes),
        departure: u64::from(number_to(words, 100) - 1),
    }
}

/// A query for all nodes from up to three sources, or for a pair; none if the sources don't fit.
fn random_query<R: Rng>(
    alloc: Global,
    words: &mut R,
    nodes: u32,
) -> Result<Option<Query>, AllocError> {
    let kind = words.next_u64() % 6;
    if kind > 3 {
        let source = random_source(words, nodes);
        return Ok(Some(Query::pair(source, number_to(words, nodes))));
    }
    let mut sources = Vec::new(alloc);
    for _ in 0..kind {
        sources.push(random_source(words, nodes))?;
    }
    if !Query::fits(&sources) {
        return Ok(None);
    }
    Ok(Some(Query::new(sources)))
}

/// Whether two answers give each node the same arrival and, if they have walks, the same walk.
fn are_same(alloc: Global, one: &Answer, other: &Answer) -> Result<bool, AllocError> {
    let mut same = one.nodes() == other.nodes() && one.has_walks() == other.has_walks();
    for node in 0..one.nodes().saturating_add(1) {
        if one.asks(node) && other.asks(node) {
            same &= one.arrival(node) == other.arrival(node);
            if one.has_walks() && other.has_walks() {
                same &= one.walk(alloc, node)? == other.walk(alloc, node)?;
            }
        } else {
            same &= one.asks(node) == other.asks(node);
        }
    }
    Ok(same)
}

/// Whether an answer is that of fresh arrays.
fn is_fresh(
    alloc: Global,
    answer: &Answer,
    network: &Network,
    times: &Timetables,
    query: &Query,
    walks: bool,
) -> Result<bool, AllocError> {
    match found(alloc, network, times, query, walks)? {
        Some(fresh) => are_same(alloc, answer, &fresh),
        None => Ok(false),
    }
}

/// Answers a query with walks or without, if it makes a problem. Counts it if the answer is that of fresh
/// arrays.
fn search_again(
    alloc: Global,
    search: Search,
    network: &Network,
    times: &Timetables,
    query: &Query,
    walks: bool,
    alike: &mut u32,
) -> Result<Search, AllocError>
    requires room { (search.nodes ≡ network.now.nodes) × (search.walks ≡ true) }
    ensures { IfOk result (λ found. (found.nodes ≡ network.now.nodes) × (found.walks ≡ true)) }
{
    if !is_problem(network, times.classes(), query) {
        return Ok(search);
    }
    let search = if walks {
        search.find_walks(network, times, query)
    } else {
        search.find_arrivals(network, times, query)
    };
    if is_fresh(alloc, search.answer(), network, times, query, walks)? {
        *alike = alike.wrapping_add(1);
    }
    Ok(search)
}

/// Searches this many random queries with one search, and counts the results that are those of fresh arrays.
fn ask_again<R: Rng>(
    alloc: Global,
    mut search: Search,
    network: &Network,
    times: &Timetables,
    words: &mut R,
    queries: u32,
    alike: &mut u32,
) -> Result<Search, AllocError>
    requires room { (search.nodes ≡ network.now.nodes) × (search.walks ≡ true) }
    ensures { IfOk result (λ found. (found.nodes ≡ network.now.nodes) × (found.walks ≡ true)) }
{
    for _ in 0..queries {
        if let Some(query) = random_query(alloc, words, network.nodes())? {
            let walks = words.next_u64() % 2 == 0;
            search = search_again(alloc, search, network, times, &query, walks, alike)?;
        }
    }
    Ok(search)
}

/// Answers this many random queries with one search in a network of as many nodes, with timetables of all
/// kinds, and counts the results that are those of fresh arrays.
fn ask_of_all_kinds<R: Rng>(
    alloc: Global,
    search: Search,
    nodes: u32,
    network: &Network,
    words: &mut R,
    queries: u32,
    alike: &mut u32,
) -> Result<Search, AllocError>
    requires room { (search.nodes ≡ nodes) × (search.walks ≡ true) }
    ensures { IfOk result (λ found. (found.nodes ≡ nodes) × (found.walks ≡ true)) }
{
    if network.nodes() != nodes {
        return Ok(search);
    }
    match times_of_all_kinds(alloc)? {
        Some(times) => ask_again(alloc, search, network, &times, words, queries, alike),
        None => Ok(search),
    }
}

/// Answers this many random queries with one search in a random network of this many arcs, and counts the
/// results that are those of fresh arrays.
fn ask_at_random<R: Rng>(
    alloc: Global,
    search: Search,
    nodes: u32,
    arcs: u32,
    words: &mut R,
    queries: u32,
    alike: &mut u32,
) -> Result<Search, AllocError>
    requires room { (search.nodes ≡ nodes) × (search.walks ≡ true) }
    ensures { IfOk result (λ found. (found.nodes ≡ nodes) × (found.walks ≡ true)) }
{
    match random_network(alloc, words, nodes, arcs)? {
        Some(network) => { ask_of_all_kinds(alloc, search, nodes, &network, words, queries, alike) }
        None => Ok(search),
    }
}

/// Answers this many random queries with one search in each of this many random networks, and counts the
/// results that are those of fresh arrays.
fn count_alike(alloc: Global, nodes: u32, networks: u32, queries: u32) -> Result<u32, AllocError> {
    let mut words = Xoshiro256PlusPlus::seed_from_u64(u64::from(nodes));
    let mut search = Search::reserve(alloc, nodes)?;
    let mut alike = 0;
    for at in 0..networks {
        let arcs = nodes.min(1_000_000) * (1 + at % 4);
        search = ask_at_random(alloc, search, nodes, arcs, &mut words, queries, &mut alike)?;
    }
    Ok(alike)
}

/// The numbers of nodes, of networks, of queries in each, and of those that make a problem.
const CASES: [(u32, u32, u32, u32); 4] = [
    (1, 4, 25, 100),
    (12, 60, 50, 3_000),
    (100, 20, 50, 1_000),
    (2_000, 4, 25, 100),
];

/// The first case in which some answer is not that of fresh arrays.
fn wrong_case(alloc: Global) -> Result<Option<usize>, AllocError> {
    for (place, (nodes, networks, queries, all)) in CASES.iter().enumerate() {
        if count_alike(alloc, *nodes, *networks, *queries)? != *all {
            return Ok(Some(place));
        }
    }
    Ok(None)
}

/// Thousands of queries on the same arrays: for all nodes and for pairs, with walks and without, in networks
/// with timetables of all kinds.
#[test]
fn used_arrays_answer_as_fresh_ones(rt: HostRuntime) -> Result<(), Fail> {
    assert_none_wrong(&rt, wrong_case(rt.alloc())?);
    Ok(())
}
