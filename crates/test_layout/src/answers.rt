//! Random networks with all kinds of travel times, parallel arcs, loops, nodes out of reach and zero weights.
use crate::compared::{Count, NOTHING, assert_alike, compare_arrivals, compare_in_turn};
use crate::random::{number_to, random_network, times_of_all_kinds};
use ea_road::{HORIZON, Network, Query, Source, is_problem};
use ea_travel_times::Timetables;
use rand_core::{Rng, SeedableRng};
use rand_xoshiro::Xoshiro256PlusPlus;
use std::alloc::{AllocError, Global};
use std::test::Fail;

/// A source at some node.
fn random_source<R: Rng>(words: &mut R, nodes: u32) -> Source {
    Source {
        node: number_to(words, nodes),
        departure: u64::from(number_to(words, 100)),
    }
}

/// A query for all nodes from up to four sources; none if they are no sources.
fn query_of_all<R: Rng>(
    alloc: Global,
    words: &mut R,
    nodes: u32,
) -> Result<Option<Query>, AllocError> {
    let mut sources = Vec::new(alloc);
    for _ in 0..number_to(words, 5) - 1 {
        sources.push(random_source(words, nodes))?;
    }
    if !Query::fits(&sources) {
        return Ok(None);
    }
    Ok(Some(Query::new(sources)))
}

/// A query for a target; none if there is no such.
fn query_of_pair<R: Rng>(words: &mut R, nodes: u32) -> Option<Query> {
    let source = random_source(words, nodes);
    let target = number_to(words, nodes);
    if source.node == 0 || source.departure > HORIZON || target == 0 {
        return None;
    }
    Some(Query::pair(source, target))
}

/// Compares queries for all nodes and for pairs on one network.
fn compare_on<R: Rng>(
    alloc: Global,
    network: &Network,
    times: &Timetables,
    words: &mut R,
    count: &mut Count,
) -> Result<(), AllocError> {
    for _ in 0..3 {
        let all = query_of_all(alloc, words, network.nodes())?;
        let pair = query_of_pair(words, network.nodes());
        if let Some(all) = all {
            if let Some(pair) = pair {
                if is_problem(network, times.classes(), &all)
                    && is_problem(network, times.classes(), &pair)
                {
                    compare_in_turn(alloc, network, times, &all, &pair, count)?;
                    compare_arrivals(alloc, network, times, &all, &pair, count)?;
                }
            }
        }
    }
    Ok(())
}

/// Compares queries on random networks of this many nodes and arcs.
fn in_random(alloc: Global, seed: u64, nodes: u32, arcs: u32) -> Result<Count, AllocError> {
    let mut words = Xoshiro256PlusPlus::seed_from_u64(seed);
    let mut count = NOTHING;
    let Some(times) = times_of_all_kinds(alloc)? else {
        return Ok(count);
    };
    for _ in 0..30 {
        if let Some(network) = random_network(alloc, &mut words, nodes, arcs)? {
            compare_on(alloc, &network, &times, &mut words, &mut count)?;
        }
    }
    Ok(count)
}

#[test]
fn answers_on_random_networks(rt: HostRuntime) -> Result<(), Fail> {
    assert_alike(&rt, in_random(rt.alloc(), 1, 80, 240)?);
    Ok(())
}

#[test]
fn answers_on_sparse_networks(rt: HostRuntime) -> Result<(), Fail> {
    assert_alike(&rt, in_random(rt.alloc(), 2, 60, 70)?);
    Ok(())
}

#[test]
fn answers_on_small_networks(rt: HostRuntime) -> Result<(), Fail> {
    assert_alike(&rt, in_random(rt.alloc(), 3, 3, 9)?);
    assert_alike(&rt, in_random(rt.alloc(), 4, 1, 2)?);
    Ok(())
}
