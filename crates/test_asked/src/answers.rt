//! Random networks with all kinds of travel times, parallel arcs, loops, nodes out of reach and zero weights.
ghost use Rattle.std.specs.Prelude.{◌≡◌, IfOk};
ghost use Rattle.ea_search.specs.Listings.{Searched};

use crate::compared::{Count, NOTHING, assert_alike, compare_asked};
use crate::random::{number_to, random_network, times_of_all_kinds};
use ea_asked::{AskedSearch, are_nodes};
use ea_road::{Network, Query, Source, is_problem};
use ea_travel_times::Timetables;
use rand_core::{Rng, SeedableRng};
use rand_xoshiro::Xoshiro256PlusPlus;
use std::alloc::{AllocError, Global};
use std::test::Fail;

/// A query for all nodes from up to four sources; none if they are no sources.
fn random_query<R: Rng>(
    alloc: Global,
    words: &mut R,
    nodes: u32,
) -> Result<Option<Query>, AllocError> {
    let mut sources = Vec::new(alloc);
    for _ in 0..number_to(words, 5) - 1 {
        sources.push(Source {
            node: number_to(words, nodes),
            departure: u64::from(number_to(words, 100)),
        })?;
    }
    if !Query::fits(&sources) {
        return Ok(None);
    }
    Ok(Some(Query::new(sources)))
}

/// Up to seven nodes. One that is drawn again is there again; there may be none.
fn random_nodes<R: Rng>(alloc: Global, words: &mut R, nodes: u32) -> Result<Vec<u32>, AllocError> {
    let mut asked = Vec::new(alloc);
    for _ in 0..number_to(words, 8) - 1 {
        asked.push(number_to(words, nodes))?;
    }
    Ok(asked)
}

/// Compares a search for random nodes on the arrays of an earlier one.
fn compare_next<R: Rng>(
    alloc: Global,
    network: &Network,
    times: &Timetables,
    words: &mut R,
    search: AskedSearch,
    count: &mut Count,
) -> Result<AskedSearch, AllocError>
    requires { search.nodes ≡ network.now.nodes }
    ensures { IfOk result (λ after. after.nodes ≡ search.nodes) }
{
    let asked = random_nodes(alloc, words, network.nodes())?;
    if !are_nodes(network.nodes(), &asked) {
        return Ok(search);
    }
    match random_query(alloc, words, network.nodes())? {
        Some(query) if query.target().is_none() && is_problem(network, times.classes(), &query) => {
            compare_asked(alloc, network, times, &query, &asked, search, count)
        }
        _ => Ok(search),
    }
}

/// Compares several searches on one network, one after another on the same arrays.
fn compare_on<R: Rng>(
    alloc: Global,
    network: &Network,
    times: &Timetables,
    words: &mut R,
    search: AskedSearch,
    count: &mut Count,
) -> Result<(), AllocError>
    requires { search.nodes ≡ network.now.nodes }
{
    let search = compare_next(alloc, network, times, words, search, count)?;
    let search = compare_next(alloc, network, times, words, search, count)?;
    let search = compare_next(alloc, network, times, words, search, count)?;
    let search = compare_next(alloc, network, times, words, search, count)?;
    let _last = compare_next(alloc, network, times, words, search, count)?;
    Ok(())
}

/// Compares searches on random networks of this many nodes and arcs, with walks and without.
fn in_random(alloc: Global, seed: u64, nodes: u32, arcs: u32) -> Result<Count, AllocError> {
    let mut words = Xoshiro256PlusPlus::seed_from_u64(seed);
    let mut count = NOTHING;
    let Some(times) = times_of_all_kinds(alloc)? else {
        return Ok(count);
    };
    for _ in 0..30 {
        if let Some(network) = random_network(alloc, &mut words, nodes, arcs)? {
            let walks = AskedSearch::reserve(alloc, network.nodes())?;
            compare_on(alloc, &network, &times, &mut words, walks, &mut count)?;
            let arrivals = AskedSearch::reserve_without_walks(alloc, network.nodes())?;
            compare_on(alloc, &network, &times, &mut words, arrivals, &mut count)?;
        }
    }
    Ok(count)
}

#[test]
fn answers_on_random_networks(rt: HostRuntime) -> Result<(), Fail> {
    assert_alike(&rt, in_random(rt.alloc(), 1, 80, 240)?);
    Ok(())
}

#[test]
fn answers_on_sparse_networks(rt: HostRuntime) -> Result<(), Fail> {
    assert_alike(&rt, in_random(rt.alloc(), 2, 60, 70)?);
    Ok(())
}

#[test]
fn answers_on_small_networks(rt: HostRuntime) -> Result<(), Fail> {
    assert_alike(&rt, in_random(rt.alloc(), 3, 3, 9)?);
    assert_alike(&rt, in_random(rt.alloc(), 4, 1, 2)?);
    Ok(())
}
