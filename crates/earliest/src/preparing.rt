//! What is made of a road before it is searched: a layout for many problems, a prepared one for pairs.
ghost use Rattle.std.specs.Prelude.{◌≡◌, ◌≤◌, IfSome, None, length, true};
ghost use Rattle.ea_load.specs.Posed.{AreProblems, IsPosed};
ghost use Rattle.ea_options.specs.Limits.{AreOptions};
ghost use Rattle.ea_batch.specs.Solved.{IsLaidOut};
ghost use Rattle.ea_layout.specs.Orders.{LaysOut};
ghost use Rattle.ea_road.specs.Roads.{top_class};
ghost use Rattle.earliest.specs.Choices.{CanPrepare, CanRenumber, are_many, pays_for};
ghost use Rattle.earliest.specs.RunRoads.{CanPrepareLaid, CanRunOn, IsPreparedIn, IsRenumberedOf, HoldsRoad};

use crate::run_road::{PairRoad, RenumberedRoad};
use crate::solver_choice::{asks_for_workers, goes_ahead, threads_at_once, workers_of};
use ea_base::{Direction, Watch};
use ea_layout::Layout;
use ea_load::Road;
use ea_options::RunOptions;
use ea_road::Query;
use ea_search::count_offers;
use ea_travel_times::{RoadTimes, Turned};
use std::alloc::Global;
use std::thread::Threads;

/// With fewer problems for each thread a network isn't laid out: making a layout takes as long as some searches.
const FEW_PROBLEMS: usize = 3;

/// How many searches are measured before the choice.
const SAMPLE: usize = 3;

/// With fewer pairs nothing is measured.
const FEW_PAIRS: usize = 32;

/// On fewer nodes nothing is measured.
const FEW_NODES: u32 = 5_000;

/// A preparation takes about as long as this many offers of a search for each node.
const OFFERS_BY_NODE: u64 = 100;

/// Whether a preparation takes less time than the searches of these pairs, by threads that share them, if each search
/// makes this number of offers.
fn pays(pairs: usize, offers: u64, nodes: u32, threads: usize) -> bool
    ensures { result ≡ pays_for pairs offers nodes threads }
{
    let all = (pairs as u64).saturating_mul(offers) / (threads.max(1) as u64);
    all > u64::from(nodes).saturating_mul(OFFERS_BY_NODE)
}

/// The mean number of offers of some of the searches; none if memory is refused.
fn mean_offers(alloc: Global, road: &Road, queries: &[Query]) -> Option<u64>
    requires { AreProblems road.now queries.now }
{
    let mut sum = 0u64;
    for part in 0..SAMPLE {
        let place = queries.len() / SAMPLE * part;
        if place >= queries.len() {
            return None;
        }
        let width = road.network.mean_weight();
        match count_offers(alloc, &road.network, &road.times, &queries[place], width) {
            Ok(offers) => sum = sum.saturating_add(offers),
            Err(_) => return None,
        }
    }
    Some(sum / SAMPLE as u64)
}

/// Whether a preparation pays for these pairs, by some searches that are measured.
fn is_worth<H: Threads>(
    alloc: Global,
    rt: &H,
    road: &Road,
    queries: &[Query],
    options: &RunOptions,
) -> bool
    requires can { CanPrepare road.now queries.now options.now }
{
    let nodes = road.network.nodes();
    if queries.len() < FEW_PAIRS || nodes < FEW_NODES {
        return false;
    }
    match mean_offers(alloc, road, queries) {
        Some(offers) => pays(queries.len(), offers, nodes, threads_at_once(rt, options)),
        None => false,
    }
}

/// A layout, prepared for travel times in a direction, if it can be made: turned round, the least ones are those of the timetables.
fn prepared_in(alloc: Global, layout: Layout, times: &RoadTimes) -> Layout
    requires { CanPrepareLaid layout times.now }
    ensures { IsPreparedIn layout times.now result }
{
    match times.direction {
        Direction::Forward => layout.prepared_if_worth(alloc, times),
        Direction::Turned => layout.prepared_if_worth(alloc, &Turned::of(&times.tables)),
    }
}

/// The road of a layout, prepared if it can be made; the network in the numbers of the files is dropped first, so that memory is
/// taken for one network.
fn renumbered_road(alloc: Global, road: Road, layout: Layout) -> RenumberedRoad
    requires laid_out { LaysOut road.network layout }
    requires none { layout.prepared ≡ None }
    requires classes { top_class road.network.arcs ≤ length road.times.tables.list.items }
    ensures { IsRenumberedOf road result }
{
    road.network.keeps_limits();
    let Road { network, times } = road;
    drop(network);
    let layout = prepared_in(alloc, layout, &times);
    RenumberedRoad { layout, times }
}

/// A road renumbered in an order of elimination, if it can be made, and prepared, if that can be.
fn renumbered(alloc: Global, road: Road, query: &Query) -> PairRoad
    requires { IsPosed road query.now }
    ensures { HoldsRoad road result }
{
    match Layout::by_elimination(alloc, &road.network) {
        Ok(layout) => PairRoad::Renumbered(renumbered_road(alloc, road, layout)),
        Err(_) => PairRoad::AsRead(road),
    }
}

/// Whether a preparation is asked for, or pays and isn't excluded. Workers and statistics do without.
fn is_wanted<H: Threads>(
    alloc: Global,
    rt: &H,
    road: &Road,
    queries: &[Query],
    options: &RunOptions,
) -> bool
    requires can { CanPrepare road.now queries.now options.now }
    ensures { result ≡ true → CanRenumber queries.now options.now }
{
    if asks_for_workers(options) || queries.is_empty() {
        return false;
    }
    match options.prepare {
        Some(wanted) => wanted,
        None => is_worth(alloc, rt, road, queries, options),
    }
}

/// A road for searches of pairs: prepared, if that is asked for, or if it pays and isn't excluded, and if it can be made. The watch learns
/// of it first.
pub(crate) fn road_for_pairs<H: Threads, V: Watch>(
    alloc: Global,
    rt: &H,
    road: Road,
    queries: &[Query],
    options: &RunOptions,
    watch: &mut V,
) -> PairRoad
    requires can { CanPrepare road queries.now options.now }
    ensures road { HoldsRoad road result }
    ensures run { CanRunOn queries.now options.now result }
{
    if !is_wanted(alloc, rt, &road, queries, options) {
        return PairRoad::AsRead(road);
    }
    watch.prepares(road.network.nodes());
    renumbered(alloc, road, &queries[0])
}

/// Whether each of these threads has enough problems for a layout to pay.
fn are_many(problems: usize, threads: usize) -> bool
    ensures { result ≡ are_many problems threads }
{
    problems / threads.max(1) >= FEW_PROBLEMS
}

/// Whether several workers search each of these problems, which they do on the network as it is.
fn are_for_workers<H: Threads>(rt: &H, road: &Road, queries: &[Query], options: &RunOptions) -> bool
    requires { AreOptions options.now }
{
    if goes_ahead(options, threads_at_once(rt, options), queries.len()) {
        return false;
    }
    match queries.first() {
        Some(query) => workers_of(rt, road, query, options, false) > 1,
        None => false,
    }
}

/// A layout of the network of a road, if there are enough problems for it to pay, and if it can be made. Workers and
/// statistics do without.
pub(crate) fn layout_for<H: Threads>(
    alloc: Global,
    rt: &H,
    road: &Road,
    queries: &[Query],
    options: &RunOptions,
) -> Option<Layout>
    requires { AreOptions options.now }
    ensures { IfSome result (IsLaidOut road.now) }
{
    if asks_for_workers(options) || are_for_workers(rt, road, queries, options) {
        return None;
    }
    if !are_many(queries.len(), threads_at_once(rt, options)) {
        return None;
    }
    match Layout::of(alloc, &road.network) {
        Ok(layout) => layout,
        Err(_) => None,
    }
}
