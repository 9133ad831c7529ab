//! How often a search offers with one window for the whole network, which bounds its scans, compared with
//! windows of single times, which are Dijkstra's algorithm.
ghost use Rattle.std.specs.Prelude.{◌<◌};

use crate::alone::timetables;
use crate::asserts::{assert_none_wrong, assert_that};
use crate::refused::given::from_first;
use ea_road::{Network, Query, Source, is_problem};
use ea_search::count_offers;
use ea_travel_times::TravelTimes;
use std::alloc::{AllocError, Global};
use std::test::Fail;
use test_support::networks::{Row, network_of};

const HEAVY: u32 = u32::MAX;

/// The next of a sequence of random words, below a bound.
fn below(state: &mut u64, bound: u32) -> u32 {
    *state = state.wrapping_add(0x9E37_79B9_7F4A_7C15);
    let mut z = *state;
    z = (z ^ (z >> 30)).wrapping_mul(0xBF58_476D_1CE4_E5B9);
    z = (z ^ (z >> 27)).wrapping_mul(0x94D0_49BB_1331_11EB);
    ((z ^ (z >> 31)) % u64::from(bound.max(1))) as u32
}

/// How often a search offers with windows of a width; none if network and query make no problem.
fn offers_by(
    alloc: Global,
    network: &Network,
    query: &Query,
    width: u64,
) -> Result<Option<u64>, AllocError> {
    let times = timetables(alloc)?;
    if !is_problem(network, times.classes(), query) {
        return Ok(None);
    }
    Ok(Some(count_offers(alloc, network, &times, query, width)?))
}

/// Whether each arc offers at most once with single times, and all together at most twice as often with
/// windows of the mean weight.
fn are_few(
    alloc: Global,
    network: &Network,
    query: &Query,
    arcs: usize,
) -> Result<bool, AllocError> {
    let wide = offers_by(alloc, network, query, network.mean_weight())?;
    let single = offers_by(alloc, network, query, 0)?;
    match (wide, single) {
        (Some(wide), Some(single)) => {
            Ok(single <= arcs as u64 && wide <= single.saturating_mul(2))
        }
        _ => Ok(false),
    }
}

/// Whether searches from node 1 in the network of these rows offer no more than that.
fn offers_few(alloc: Global, nodes: u32, rows: &[Row]) -> Result<bool, AllocError> {
    match network_of(alloc, nodes, rows)? {
        Some(network) => are_few(alloc, &network, &from_first(), rows.len()),
        None => Ok(false),
    }
}

/// How often a pair search from node 1 offers with windows of the mean weight; none if the rows don't make a
/// network.
fn pair_offers(
    alloc: Global,
    nodes: u32,
    rows: &[Row],
    target: u32,
) -> Result<Option<u64>, AllocError> {
    if target == 0 {
        return Ok(None);
    }
    let source = Source {
        node: 1,
        departure: 0,
    };
    match network_of(alloc, nodes, rows)? {
        Some(network) => offers_by(
            alloc,
            &network,
            &Query::pair(source, target),
            network.mean_weight(),
        ),
        None => Ok(None),
    }
}

/// A ring in both directions, with weights below a bound, and one heavy arc.
fn ring(alloc: Global, nodes: u32, bound: u32, class: u32) -> Result<Vec<Row>, AllocError> {
    let mut state = 1;
    let mut rows = Vec::new(alloc);
    rows.push((1, nodes, HEAVY, 0))?;
    for node in 1..nodes {
        rows.push((node, node + 1, below(&mut state, bound), class))?;
        rows.push((node + 1, node, below(&mut state, bound), class))?;
    }
    Ok(rows)
}

/// Random arcs, one in this many heavy.
fn random(
    alloc: Global,
    nodes: u32,
    arcs: u32,
    bound: u32,
    every: u32,
    class: u32,
) -> Result<Vec<Row>, AllocError> {
    let mut state = 2;
    let mut rows = Vec::new(alloc);
    for number in 0..arcs {
        let tail = below(&mut state, nodes).wrapping_add(1);
        let head = below(&mut state, nodes).wrapping_add(1);
        let light = below(&mut state, bound);
        let heavy = below(&mut state, every) == 0 || number == 0;
        rows.push((tail, head, if heavy { HEAVY } else { light }, class))?;
    }
    Ok(rows)
}

/// A grid of nodes, each with arcs to its neighbours right and below and back, and one heavy arc.
fn grid(alloc: Global, side: u16, bound: u32) -> Result<Vec<Row>, AllocError> {
    let mut state = 3;
    let mut rows = Vec::new(alloc);
    rows.push((1, 2, HEAVY, 0))?;
    let side = u32::from(side);
    for row in 0..side {
        for column in 0..side {
            let node = row.wrapping_mul(side).wrapping_add(column).wrapping_add(1);
            if column.wrapping_add(1) < side {
                let right = node.wrapping_add(1);
                rows.push((node, right, below(&mut state, bound), 0))?;
                rows.push((right, node, below(&mut state, bound), 0))?;
            }
            if row.wrapping_add(1) < side {
                let down = node.wrapping_add(side);
                rows.push((node, down, below(&mut state, bound), 0))?;
                rows.push((down, node, below(&mut state, bound), 0))?;
            }
        }
    }
    Ok(rows)
}

/// Twenty-four forks in a row, each with a long way that costs as much as all that follows, and a tail of
/// many nodes: a stack would scan the tail 2^24 times.
fn forks(alloc: Global, tail: u16) -> Result<Vec<Row>, AllocError> {
    let mut rows = Vec::new(alloc);
    let mut weight = 1u32 << 24;
    let mut node = 1u32;
    for _ in 0..24u32 {
        let middle = node.wrapping_add(1);
        let next = node.wrapping_add(2);
        rows.push((node, middle, 0, 0))?;
        rows.push((middle, next, 0, 0))?;
        rows.push((node, next, weight, 0))?;
        weight /= 2;
        node = next;
    }
    for _ in 0..tail {
        let next = node.wrapping_add(1);
        rows.push((node, next, 0, 0))?;
        node = next;
    }
    rows.push((1, node, HEAVY, 0))?;
    Ok(rows)
}

/// The bound of a ring's weights, and the class of its arcs.
const RINGS: &[(u32, u32)] = &[
    (1, 0),
    (1, 1),
    (1, 2),
    (100, 0),
    (100, 1),
    (100, 2),
    (1_000_000, 0),
    (1_000_000, 1),
    (1_000_000, 2),
];

/// Whether a ring has few offers.
fn offers_few_in_ring(alloc: Global, bound: u32, class: u32) -> Result<bool, AllocError> {
    let rows = ring(alloc, 2000, bound, class)?;
    offers_few(alloc, 2000, &rows)
}

/// The first ring with too many offers.
fn wrong_ring(alloc: Global, rings: &[(u32, u32)]) -> Result<Option<usize>, AllocError> {
    for (place, (bound, class)) in rings.iter().enumerate() {
        if !offers_few_in_ring(alloc, *bound, *class)? {
            return Ok(Some(place));
        }
    }
    Ok(None)
}

#[test]
fn one_heavy_arc_in_a_ring(rt: HostRuntime) -> Result<(), Fail> {
    assert_none_wrong(&rt, wrong_ring(rt.alloc(), RINGS)?);
    Ok(())
}

/// The bound of a random network's weights, one in how many arcs is heavy, and the class of its arcs.
const RANDOM: &[(u32, u32, u32)] = &[
    (1, 10, 0),
    (1, 10, 2),
    (1, u32::MAX, 0),
    (1, u32::MAX, 2),
    (100, 10, 0),
    (100, 10, 2),
    (100, u32::MAX, 0),
    (100, u32::MAX, 2),
    (1_000_000, 10, 0),
    (1_000_000, 10, 2),
    (1_000_000, u32::MAX, 0),
    (1_000_000, u32::MAX, 2),
];

/// Whether a random network has few offers.
fn offers_few_at_random(
    alloc: Global,
    bound: u32,
    every: u32,
    class: u32,
) -> Result<bool, AllocError> {
    let rows = random(alloc, 2000, 8000, bound, every, class)?;
    offers_few(alloc, 2000, &rows)
}

/// The first random network with too many offers.
fn wrong_random(alloc: Global, networks: &[(u32, u32, u32)]) -> Result<Option<usize>, AllocError> {
    for (place, (bound, every, class)) in networks.iter().enumerate() {
        if !offers_few_at_random(alloc, *bound, *every, *class)? {
            return Ok(Some(place));
        }
    }
    Ok(None)
}

#[test]
fn heavy_arcs_in_random_networks(rt: HostRuntime) -> Result<(), Fail> {
    assert_none_wrong(&rt, wrong_random(rt.alloc(), RANDOM)?);
    Ok(())
}

/// Whether a grid has few offers.
fn offers_few_in_grid(alloc: Global, bound: u32) -> Result<bool, AllocError> {
    let rows = grid(alloc, 45, bound)?;
    offers_few(alloc, 2025, &rows)
}

#[test]
fn one_heavy_arc_in_a_grid(rt: HostRuntime) -> Result<(), Fail> {
    assert_that(&rt, "below 1", offers_few_in_grid(rt.alloc(), 1)?);
    assert_that(&rt, "below 100", offers_few_in_grid(rt.alloc(), 100)?);
    let many = offers_few_in_grid(rt.alloc(), 1_000_000)?;
    assert_that(&rt, "below 1,000,000", many);
    Ok(())
}

/// Whether there are few offers if weights double.
fn offers_few_in_forks(alloc: Global) -> Result<bool, AllocError> {
    let rows = forks(alloc, 2000)?;
    offers_few(alloc, 2049, &rows)
}

#[test]
fn weights_that_double(rt: HostRuntime) -> Result<(), Fail> {
    assert_that(&rt, "the forks", offers_few_in_forks(rt.alloc())?);
    Ok(())
}

/// How often a search for the pair of node 1 and another offers on a path of 2,000 nodes.
fn offers_on_path(alloc: Global, target: u32) -> Result<Option<u64>, AllocError> {
    let mut rows = Vec::new(alloc);
    for node in 1..2000u32 {
        rows.push((node, node + 1, 10, 0))?;
    }
    pair_offers(alloc, 2000, &rows, target)
}

#[test]
fn a_pair_ends_at_its_target(rt: HostRuntime) -> Result<(), Fail> {
    assert_that(&rt, "to node 2", offers_on_path(rt.alloc(), 2)? == Some(2));
    let far = offers_on_path(rt.alloc(), 50)?;
    assert_that(&rt, "to node 50", far == Some(50));
    Ok(())
}

/// How often a pair search offers if two ways to its target take equally long.
fn offers_of_two_ways(alloc: Global) -> Result<Option<u64>, AllocError> {
    let rows = [(1, 2, 10, 0), (1, 3, 10, 0), (2, 4, 10, 0), (3, 4, 10, 0)];
    pair_offers(alloc, 4, &rows, 4)
}

#[test]
fn an_arrival_at_the_label_is_an_offer(rt: HostRuntime) -> Result<(), Fail> {
    assert_that(
        &rt,
        "each arc offers",
        offers_of_two_ways(rt.alloc())? == Some(4),
    );
    Ok(())
}
