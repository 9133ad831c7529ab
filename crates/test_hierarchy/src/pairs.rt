//! Arrivals and walks of pairs by searches that are led by bounds, compared with those of plain searches.
ghost use Rattle.std.specs.Prelude.{IfSome, length, ◌<◌};
ghost use Rattle.ea_hierarchy.specs.Preparations.{IsPreparedFor};
ghost use Rattle.ea_road.specs.Queries.{IsProblem};
ghost use Rattle.ea_travel_times.specs.StepLists.{steps_in};
ghost use Rattle.ea_travel_times.specs.TimetableLists.{TimetablesAnswer};

use crate::random::{number_to, random_network, times_of_all_kinds};
use crate::streets::{Plan, streets};
use ea_base::HORIZON;
use ea_goal::{Guide, lead};
use ea_hierarchy::{Prepared, Unprepared};
use ea_paths::{Answer, Search, solve_alone};
use ea_road::{NONE, Network, Query, Source, is_problem};
use ea_search::{Listed, Reached};
use ea_travel_times::Timetables;
use rand_core::{Rng, SeedableRng};
use rand_xoshiro::Xoshiro256PlusPlus;
use std::alloc::{AllocError, Global};
use std::process::Abort;
use std::test::Fail;

/// How many pairs were searched, how many targets were reached, and how many arrivals differ.
#[derive(Clone, Copy, PartialEq, Eq, Debug)]
struct Count {
    pairs: u32,
    reached: u32,
    differ: u32,
}

/// Fails the test unless this many pairs were searched, some were reached, and none differs.
fn assert_alike<H: Abort>(rt: &H, count: Count, pairs: u32) {
    assert_eq!(*rt;
        (count.pairs, count.differ, count.reached > 0),
        (pairs, 0, true)
    );
}

/// What a search says of a target: its arrival and its walk, each none if there is none.
#[derive(Drop)]
struct Said {
    arrival: Option<u64>,
    walk: Option<Vec<u32>>,
}

/// What an answer says of a target.
fn said_of(alloc: Global, answer: &Answer, target: u32) -> Result<Said, AllocError> {
    if !answer.asks(target) {
        return Ok(Said {
            arrival: None,
            walk: None,
        });
    }
    let walk = if answer.has_walks() {
        answer.walk(alloc, target)?
    } else {
        None
    };
    Ok(Said {
        arrival: answer.arrival(target),
        walk,
    })
}

/// Whether two searches say the same; without walks, of arrivals alone.
fn agree(one: &Said, other: &Said, walks: bool) -> bool {
    one.arrival == other.arrival && (!walks || one.walk == other.walk)
}

/// A pair to search.
#[derive(Drop)]
struct Pair {
    query: Query,
    target: u32,
}

/// A departure by chance: mostly early, sometimes shortly before the horizon.
fn random_departure<R: Rng>(words: &mut R) -> u64 {
    let number = u64::from(number_to(words, 100));
    if number_to(words, 10) == 1 {
        HORIZON.saturating_sub(number)
    } else {
        number
    }
}

/// A target by chance, every second time near the source's number, as in one street.
fn random_target<R: Rng>(words: &mut R, source: u32, nodes: u32) -> u32
    ensures { 0 < result }
{
    if number_to(words, 2) == 1 {
        return number_to(words, nodes);
    }
    let near = source.saturating_add(number_to(words, 5)).saturating_sub(3);
    near.min(nodes).max(1)
}

/// A pair by chance; none if its nodes aren't in the network.
fn random_pair<R: Rng>(words: &mut R, network: &Network, times: &Timetables) -> Option<Pair>
    ensures { IfSome result (λ pair. IsProblem network.now (length times.now.list.items) pair.query) }
{
    let nodes = network.nodes();
    let start = Source {
        node: number_to(words, nodes),
        departure: random_departure(words),
    };
    let target = random_target(words, start.node, nodes);
    if start.departure > HORIZON {
        return None;
    }
    let query = Query::pair(start, target);
    if is_problem(network, times.classes(), &query) {
        Some(Pair { query, target })
    } else {
        None
    }
}

/// The target's arrival by a search that is led by bounds from the sources on; none if it isn't reached.
fn led_arrival(
    alloc: Global,
    network: &Network,
    times: &Timetables,
    prepared: &Prepared,
    query: &Query,
) -> Result<Option<u64>, AllocError>
    requires problem { IsProblem network.now (length times.now.list.items) query.now }
    requires prepared { IsPreparedFor network.now
        (TimetablesAnswer times.now.list.items (steps_in times.now.steps)) prepared.now }
{
    let Some(target) = query.target() else {
        return Ok(None);
    };
    let table = Reached {
        labels: vec![in alloc; NONE; network.nodes() as usize]?,
        listed: Listed::new(alloc, network.nodes()),
    };
    let guide = Guide::over(alloc, prepared)?;
    let led = lead(network, times, prepared, query, target, guide, table, 150);
    match led.table.labels.get((target as usize).wrapping_sub(1)) {
        Some(label) if *label <= HORIZON => Ok(Some(*label)),
        _ => Ok(None),
    }
}

/// Searches a pair over a preparation and without one, and counts. Returns the arrays.
fn compare(
    alloc: Global,
    network: &Network,
    times: &Timetables,
    prepared: &Prepared,
    pair: &Pair,
    search: Search,
    count: &mut Count,
) -> Result<Search, AllocError>
    requires problem { IsProblem network.now (length times.now.list.items) pair.now.query }
    requires prepared { IsPreparedFor network.now
        (TimetablesAnswer times.now.list.items (steps_in times.now.steps)) prepared.now }
{
    if search.answer().nodes() != network.nodes() {
        return Ok(search);
    }
    let plain = solve_alone(alloc, network, times, &pair.query)?;
    let search = search.find_led(alloc, network, times, prepared, &pair.query);
    let wanted = said_of(alloc, &plain, pair.target)?;
    let found = said_of(alloc, search.answer(), pair.target)?;
    count.pairs = count.pairs.wrapping_add(1);
    if found.arrival != None {
        count.reached = count.reached.wrapping_add(1);
    }
    if !agree(&found, &wanted, search.answer().has_walks()) {
        count.differ = count.differ.wrapping_add(1);
    }
    // A near pair is found without bounds.
    if led_arrival(alloc, network, times, prepared, &pair.query)? != wanted.arrival {
        count.differ = count.differ.wrapping_add(1);
    }
    Ok(search)
}

/// Searches pairs by chance over one preparation, one after another on the same arrays, and counts.
fn search_pairs<R: Rng>(
    alloc: Global,
    network: &Network,
    times: &Timetables,
    words: &mut R,
    walks: bool,
    count: &mut Count,
) -> Result<(), Unprepared> {
    if network.top_class() as usize > times.classes() {
        return Ok(());
    }
    let prepared = Prepared::of(alloc, network, times)?;
    let mut search = arrays_of(alloc, network, walks)?;
    for _ in 0..20 {
        if let Some(pair) = random_pair(words, network, times) {
            search = compare(alloc, network, times, &prepared, &pair, search, count)?;
        }
    }
    Ok(())
}

/// Arrays for searches, with walks or without.
fn arrays_of(alloc: Global, network: &Network, walks: bool) -> Result<Search, AllocError> {
    if walks {
        Search::reserve(alloc, network.nodes())
    } else {
        Search::reserve_without_walks(alloc, network.nodes())
    }
}

/// Searches pairs in random networks of this many nodes and arcs.
fn in_random(
    alloc: Global,
    seed: u64,
    nodes: u32,
    arcs: u32,
    walks: bool,
) -> Result<Count, Unprepared> {
    let mut words = Xoshiro256PlusPlus::seed_from_u64(seed);
    let mut count = Count {
        pairs: 0,
        reached: 0,
        differ: 0,
    };
    let Some(times) = times_of_all_kinds(alloc)? else {
        return Ok(count);
    };
    for _ in 0..20 {
        if let Some(network) = random_network(alloc, &mut words, nodes, arcs)? {
            search_pairs(alloc, &network, &times, &mut words, walks, &mut count)?;
        }
    }
    Ok(count)
}

/// Searches pairs in grids of streets with oddities, so large that some are led by bounds.
fn in_streets(alloc: Global, seed: u64, longest: u32, walks: bool) -> Result<Count, Unprepared> {
    let mut words = Xoshiro256PlusPlus::seed_from_u64(seed);
    let mut count = Count {
        pairs: 0,
        reached: 0,
        differ: 0,
    };
    let plan = Plan {
        side: 16,
        longest,
        classes: 7,
        odd: true,
    };
    let Some(times) = times_of_all_kinds(alloc)? else {
        return Ok(count);
    };
    for _ in 0..5 {
        if let Some(network) = streets(alloc, &mut words, plan)? {
            search_pairs(alloc, &network, &times, &mut words, walks, &mut count)?;
        }
    }
    Ok(count)
}

#[test]
fn pairs_of_long_streets(rt: HostRuntime) -> Result<(), Fail> {
    let count = in_streets(rt.alloc(), 9, 40, false).map_err(|_| "prepared")?;
    assert_alike(&rt, count, 100);
    Ok(())
}

#[test]
fn walks_over_streets(rt: HostRuntime) -> Result<(), Fail> {
    let count = in_streets(rt.alloc(), 10, 16, true).map_err(|_| "prepared")?;
    assert_alike(&rt, count, 100);
    Ok(())
}

#[test]
fn pairs_of_random_networks(rt: HostRuntime) -> Result<(), Fail> {
    let count = in_random(rt.alloc(), 5, 80, 200, false).map_err(|_| "prepared")?;
    assert_alike(&rt, count, 400);
    Ok(())
}

#[test]
fn pairs_of_sparse_networks(rt: HostRuntime) -> Result<(), Fail> {
    let count = in_random(rt.alloc(), 6, 80, 60, false).map_err(|_| "prepared")?;
    assert_alike(&rt, count, 400);
    Ok(())
}

#[test]
fn walks_of_random_networks(rt: HostRuntime) -> Result<(), Fail> {
    let count = in_random(rt.alloc(), 7, 40, 160, true).map_err(|_| "prepared")?;
    assert_alike(&rt, count, 400);
    Ok(())
}

#[test]
fn walks_among_many_ties(rt: HostRuntime) -> Result<(), Fail> {
    let count = in_random(rt.alloc(), 8, 12, 120, true).map_err(|_| "prepared")?;
    assert_alike(&rt, count, 400);
    Ok(())
}
