ghost use Rattle.std.specs.Prelude.{◌≡◌, ◌+◌, ◌*◌, ◌%◌, ◌^◌, ◌<◌, ◌≤◌, ◌↔◌, ℕ, length, IfOk};
ghost use Rattle.ea_base.specs.declared.limits.TheConstants.{HORIZON};
ghost use Rattle.ea_travel_times.specs.Answers.{IsFifoFunction};
ghost use Rattle.ea_road.specs.Arrivals.{Reaches};
ghost use Rattle.ea_road.specs.Queries.{IsSource};

use crate::asserts::{assert_none_wrong, assert_that};
use ea_base::{RawArc, RawGraph};
use ea_road::*;
use std::alloc::{AllocError, Global};
use std::marker::{Brand, PhantomData};
use std::test::Fail;
use test_support::networks::{FOUR_NODES, Row, network_of, query_of, times_of};

fn arc(tail: u32, head: u32, weight: u32, class: u32) -> Arc
    ensures { result ≡ record { tail = tail; head = head; weight = weight; class = class } }
{
    Arc {
        tail,
        head,
        weight,
        class,
    }
}

/// The node and time at which a walk ends, if its start is a node and the times have each arc's class.
fn walked(
    network: &Network,
    times: &Timetables,
    start: u32,
    walk: &[u32],
    departure: u64,
) -> Option<(u32, u64)> {
    if start == 0
        || start > network.nodes()
        || network.top_class() as usize > times.classes()
        || departure > HORIZON
    {
        return None;
    }
    run_walk(network, times, start, walk, departure)
}

/// A walk from node 1, its departure, and the node and time at which it ends.
type Case = (&'static [u32], u64, Option<(u32, u64)>);

/// Nodes and rows, the period of class 1, which leaves at each multiple of it (0 means no class 1), and
/// walks.
type Walks = (u32, &'static [Row], u32, &'static [Case]);

const LATE: u64 = 281_474_976_710_650;

const WALKS: &[Walks] = &[
    (
        2,
        &[(1, 2, 3, 1)],
        10,
        &[
            (&[1], 0, Some((2, 3))),
            (&[1], 1, Some((2, 13))),
            (&[1], 10, Some((2, 13))),
        ],
    ),
    // Two ways to fifteen.
    (
        4,
        &[(1, 2, 4, 0), (1, 3, 1, 0), (3, 2, 1, 0), (2, 4, 5, 1)],
        10,
        &[
            (&[1, 4], 1, Some((4, 15))),
            (&[2, 3, 4], 1, Some((4, 15))),
            (&[2, 3], 1, Some((2, 3))),
        ],
    ),
    // Parallel arcs.
    (
        2,
        &[(1, 2, 1, 1), (1, 2, 50, 0)],
        100,
        &[
            (&[1], 1, Some((2, 101))),
            (&[2], 1, Some((2, 51))),
            (&[1], 100, Some((2, 101))),
            (&[2], 100, Some((2, 150))),
        ],
    ),
    (
        4,
        &FOUR_NODES,
        0,
        &[
            (&[2, 3, 4], 0, Some((4, 6))),
            (&[], 0, Some((1, 0))),
            (&[2, 4], 0, None),
            (&[6], 0, None),
            (&[0], 0, None),
            (&[2, 3], LATE, Some((2, HORIZON))),
            (&[2, 3, 4], LATE, None),
        ],
    ),
];

/// Whether each walk ends as expected.
fn are_walked(network: &Network, times: &Timetables, cases: &[Case]) -> bool {
    for (walk, departure, end) in cases {
        if walked(network, times, 1, walk, *departure) != *end {
            return false;
        }
    }
    true
}

/// Whether each walk of a network ends as expected.
fn are_walked_in(alloc: Global, network: &Network, walks: &Walks) -> Result<bool, AllocError> {
    let times = times_of(alloc, walks.2)?;
    Ok(are_walked(network, &times, walks.3))
}

/// Whether some network has only walks that end as expected.
fn has_walks(alloc: Global, walks: &Walks) -> Result<bool, AllocError> {
    match network_of(alloc, walks.0, walks.1)? {
        Some(network) => are_walked_in(alloc, &network, walks),
        None => Ok(false),
    }
}

/// The first network with a walk that ends other than expected.
fn wrong_walks(alloc: Global, table: &[Walks]) -> Result<Option<usize>, AllocError> {
    for (place, walks) in table.iter().enumerate() {
        if !has_walks(alloc, walks)? {
            return Ok(Some(place));
        }
    }
    Ok(None)
}

#[test]
fn walks_end_as_is_said(rt: HostRuntime) -> Result<(), Fail> {
    assert_none_wrong(&rt, wrong_walks(rt.alloc(), WALKS)?);
    Ok(())
}

/// The first departure at which an arc of weight 3 arrives other than expected.
fn wrong_arrival(timetable: &Timetable, cases: &[(u64, u64)]) -> Option<usize> {
    for (place, (departure, arrival)) in cases.iter().enumerate() {
        if timetable.arrive(3, (*departure).min(HORIZON)) != *arrival {
            return Some(place);
        }
    }
    None
}

const CLOSED: [(u64, u64); 4] = [(9, 12), (10, 23), (19, 23), (20, 23)];

const RUSH: [(u64, u64); 6] = [(9, 12), (10, 18), (19, 27), (20, 28), (25, 28), (26, 29)];

#[test]
fn timetable_values(rt: HostRuntime) {
    let closed = Timetable::of(RawKind::Closed { lo: 10, hi: 20 });
    assert_none_wrong(&rt, wrong_arrival(&closed, &CLOSED));
    let rush = Timetable::of(RawKind::Rush {
        lo: 10,
        hi: 20,
        extra: 5,
    });
    assert_none_wrong(&rt, wrong_arrival(&rush, &RUSH));
    let plain = Timetable::of(RawKind::Plain);
    assert_none_wrong(&rt, wrong_arrival(&plain, &[(9, 12)]));
}

/// What a network says of itself: its numbers of nodes and arcs, its greatest class and its mean weight.
type Told = (u32, usize, u32, u64);

/// Nodes and rows, what their network says of itself, and the numbers of the arcs that leave each node.
type LaidOut = (u32, &'static [Row], Told, &'static [&'static [u32]]);

const LAID_OUT: &[LaidOut] = &[
    (
        3,
        &[(3, 1, 1, 0), (1, 1, 2, 0), (3, 2, 3, 0), (1, 3, 4, 2)],
        (3, 4, 2, 2),
        &[&[2, 4], &[], &[1, 3]],
    ),
    // Ordered arcs.
    (
        4,
        &[(1, 4, 3, 0), (1, 1, 2, 1), (3, 2, 9, 0), (3, 2, 5, 2)],
        (4, 4, 2, 4),
        &[&[1, 2], &[], &[3, 4], &[]],
    ),
    // Parallel arcs.
    (
        2,
        &[(1, 2, 1, 1), (1, 2, 50, 0)],
        (2, 2, 1, 25),
        &[&[1, 2], &[]],
    ),
];

/// What a network says of itself.
fn told(network: &Network) -> Told {
    (
        network.nodes(),
        network.arcs().len(),
        network.top_class(),
        network.mean_weight(),
    )
}

/// The arc with a row's number; none if there is no such row.
fn numbered(rows: &[Row], number: u32) -> Option<Arc> {
    let (tail, head, weight, class) = *rows.get((number as usize).wrapping_sub(1))?;
    Some(arc(tail, head, weight, class))
}

/// Whether each arc of a network is that of the row with its number.
fn has_rows(network: &Network, rows: &[Row]) -> bool {
    let mut right = network.arcs().len() == rows.len();
    for place in 0..network.arcs().len() {
        let number = (place as u32).wrapping_add(1);
        if number > 0 && number as usize <= network.arcs().len() {
            right &= Some(network.arc(number)) == numbered(rows, number);
        } else {
            right = false;
        }
    }
    right
}

/// Whether these arcs have these numbers and leave a node, with their tails and without.
fn lie_beside(arcs: &[LeavingArc], rows: &[Row], node: u32, numbers: &[u32]) -> bool {
    let mut beside = arcs.len() == numbers.len();
    for (leaving, number) in arcs.iter().zip(numbers) {
        beside &= match numbered(rows, *number) {
            Some(arc) => *leaving == LeavingArc::of(arc) && leaving.with_tail(node) == arc,
            None => false,
        };
    }
    beside
}

/// Whether the arcs with these numbers leave each node, in the order of the numbers.
fn leave(network: &Network, rows: &[Row], outs: &[&[u32]]) -> bool {
    for node in 1..network.nodes() + 1 {
        let out = network.out(node);
        let leaving = network.leaving(node);
        if Some(&out) != outs.get(node as usize - 1)
            || leaving.numbers != out
            || !lie_beside(leaving.arcs, rows, node, out)
        {
            return false;
        }
    }
    true
}

/// Whether a network is laid out as expected.
fn is_laid_out(network: &Network, laid_out: &LaidOut) -> bool {
    let (_, rows, says, outs) = *laid_out;
    told(network) == says && has_rows(network, rows) && leave(network, rows, outs)
}

/// Whether some network is laid out as expected.
fn has_layout(alloc: Global, laid_out: &LaidOut) -> Result<bool, AllocError> {
    match network_of(alloc, laid_out.0, laid_out.1)? {
        Some(network) => Ok(is_laid_out(&network, laid_out)),
        None => Ok(false),
    }
}

/// The first network that is laid out other than expected.
fn wrong_layout(alloc: Global, table: &[LaidOut]) -> Result<Option<usize>, AllocError> {
    for (place, laid_out) in table.iter().enumerate() {
        if !has_layout(alloc, laid_out)? {
            return Ok(Some(place));
        }
    }
    Ok(None)
}

#[test]
fn arcs_lie_by_tail(rt: HostRuntime) -> Result<(), Fail> {
    assert_none_wrong(&rt, wrong_layout(rt.alloc(), LAID_OUT)?);
    assert_that(&rt, "12 bytes", size_of::<LeavingArc>() == 12);
    Ok(())
}

/// The index of the first of the arcs that fits into a network of two nodes.
fn first_inside(arcs: &[Arc]) -> Option<usize> {
    for (place, outside) in arcs.iter().enumerate() {
        if Network::fits(2, &[arc(1, 1, 0, 0), *outside]) {
            return Some(place);
        }
    }
    None
}

#[test]
fn limits_of_networks(rt: HostRuntime) {
    let last = [arc(67_108_864, 67_108_864, u32::MAX, u32::MAX)];
    assert_that(&rt, "1 node", Network::fits(1, &[]));
    assert_that(&rt, "no node", !Network::fits(0, &[]));
    assert_that(&rt, "the last node", Network::fits(67_108_864, &last));
    assert_that(&rt, "past the last", !Network::fits(67_108_865, &[]));
    assert_that(&rt, "an arc", Network::fits(2, &[arc(1, 2, 0, 0)]));
    let outside = [
        arc(0, 1, 0, 0),
        arc(1, 0, 0, 0),
        arc(3, 1, 0, 0),
        arc(1, 3, 0, 0),
    ];
    assert_none_wrong(&rt, first_inside(&outside));
}

/// Three arcs of a text, all the same.
fn three_alike(alloc: Global) -> Result<RawGraph, AllocError>
    ensures { IfOk result (λ graph. length graph.arcs.items ≡ 3) }
{
    let raw = RawArc {
        tail: 1,
        head: 2,
        weight: 5,
    };
    Ok(RawGraph {
        nodes: 2,
        arcs: vec![in alloc; raw, raw, raw]?,
    })
}

/// The classes of the three, without a table of classes or with one that assigns some several times.
fn classes_of(alloc: Global, with_table: bool) -> Result<Vec<Arc>, AllocError> {
    let graph = three_alike(alloc)?;
    if !with_table {
        return arcs_of(alloc, &graph, None);
    }
    let table = RawTable {
        kinds: Vec::new(alloc),
        assigned: vec![in alloc; (3, 7), (1, 4), (3, 0), (3, 9), (1, 2)]?,
        steps: Vec::new(alloc),
    };
    arcs_of(alloc, &graph, Some(&table))
}

/// Whether arcs are all the same but for these classes.
fn are_of(arcs: &[Arc], classes: &[u32]) -> bool {
    let mut right = arcs.len() == classes.len();
    for (of_class, class) in arcs.iter().zip(classes) {
        right &= *of_class == arc(1, 2, 5, *class);
    }
    right
}

/// Whether the three have these classes.
fn are_classed(alloc: Global, with_table: bool, classes: &[u32]) -> Result<bool, AllocError> {
    let arcs = classes_of(alloc, with_table)?;
    Ok(are_of(&arcs, classes))
}

#[test]
fn classes_are_assigned(rt: HostRuntime) -> Result<(), Fail> {
    let plain = are_classed(rt.alloc(), false, &[0, 0, 0])?;
    assert_that(&rt, "without a table", plain);
    let classed = are_classed(rt.alloc(), true, &[2, 0, 9])?;
    assert_that(&rt, "with a table", classed);
    Ok(())
}

/// Whether a list has exactly these arcs.
fn has(list: &ArcList, arcs: &[Arc]) -> bool {
    if list.len() != arcs.len() {
        return false;
    }
    for place in 0..list.len() {
        if Some(&list.at(place)) != arcs.get(place) {
            return false;
        }
    }
    true
}

/// An arc as it is read, from a node to the next.
fn raw_arc(tail: u32, weight: u32) -> RawArc {
    RawArc {
        tail,
        head: tail.wrapping_add(1),
        weight,
    }
}

/// Three arcs as they are read, some with classes.
fn classed(alloc: Global) -> Result<ArcList, AllocError> {
    let raw = vec![in alloc; raw_arc(1, 5), raw_arc(2, 7), raw_arc(3, 0)]?;
    ArcList::with_classes(alloc, raw, &[(3, 7), (1, 4), (3, 0), (3, 9), (1, 2)])
}

#[test]
fn classes_lie_beside_the_arcs(rt: HostRuntime) -> Result<(), Fail> {
    let wanted = [arc(1, 2, 5, 2), arc(2, 3, 7, 0), arc(3, 4, 0, 9)];
    assert_that(&rt, "of a text", has(&classed(rt.alloc())?, &wanted));
    let list = ArcList::of(rt.alloc(), &wanted)?;
    assert_that(&rt, "of a slice", has(&list, &wanted));
    Ok(())
}

/// Two arcs as they are read, without classes.
fn unclassed(alloc: Global) -> Result<ArcList, AllocError> {
    let raw = vec![in alloc; raw_arc(1, 5), raw_arc(2, 7)]?;
    ArcList::with_classes(alloc, raw, &[])
}

#[test]
fn arcs_without_classes_are_plain(rt: HostRuntime) -> Result<(), Fail> {
    let wanted = [arc(1, 2, 5, 0), arc(2, 3, 7, 0)];
    assert_that(&rt, "plain", has(&unclassed(rt.alloc())?, &wanted));
    Ok(())
}

/// Whether a query has these sources and this target, and asks for nodes 1 and 2 or not.
fn is_query(query: &Query, sources: &[Source], target: Option<u32>, asked: (bool, bool)) -> bool {
    query.sources() == sources
        && query.target() == target
        && (query.asks(1), query.asks(2)) == asked
}

/// Whether a query makes a problem with an arc of class 1 from node 1 to node 2 if there are classes, and
/// none without.
fn is_posed(alloc: Global, query: &Query, with_classes: bool) -> Result<bool, AllocError> {
    match network_of(alloc, 2, &[(1, 2, 3, 1)])? {
        Some(network) => Ok(
            !is_problem(&network, 0, query) && is_problem(&network, 1, query) == with_classes,
        ),
        None => Ok(false),
    }
}

/// Source and target, and whether the pair makes a problem if there are classes.
const PAIRS: [(u32, u32, bool); 3] = [(2, 1, true), (2, 3, false), (3, 1, false)];

/// The source of the searches for pairs.
fn source_at(node: u32) -> Source
    requires { 0 < node }
    ensures { IsSource result }
{
    Source { node, departure: 5 }
}

/// Whether the pair of two nodes makes such a problem, or none.
fn pair_is_posed(alloc: Global, from: u32, to: u32, posed: bool) -> Result<bool, AllocError> {
    if from == 0 || to == 0 {
        return Ok(false);
    }
    is_posed(alloc, &Query::pair(source_at(from), to), posed)
}

/// The first pair that makes a problem but should not, or makes none but should.
fn wrong_pair(alloc: Global) -> Result<Option<usize>, AllocError> {
    for (place, (from, to, posed)) in PAIRS.iter().enumerate() {
        if !pair_is_posed(alloc, *from, *to, *posed)? {
            return Ok(Some(place));
        }
    }
    Ok(None)
}

/// Whether the query for all nodes from two equal sources is right, and makes a problem if there are classes.
fn all_are_posed(alloc: Global) -> Result<bool, AllocError> {
    let source = source_at(2);
    match query_of(alloc, &[(2, 5), (2, 5)])? {
        Some(all) => {
            let posed = is_posed(alloc, &all, true)?;
            Ok(posed && is_query(&all, &[source, source], None, (true, true)))
        }
        None => Ok(false),
    }
}

#[test]
fn problems(rt: HostRuntime) -> Result<(), Fail> {
    assert_that(&rt, "all nodes", all_are_posed(rt.alloc())?);
    assert_none_wrong(&rt, wrong_pair(rt.alloc())?);
    Ok(())
}

#[test]
fn a_pair_asks_for_its_target(rt: HostRuntime) {
    let source = source_at(2);
    let pair = Query::pair(source, 1);
    let right = is_query(&pair, &[source], Some(1), (true, false));
    assert_that(&rt, "the pair", right);
}

/// The list of the example boxed-profile, asked in classes 1 and 0, and along a walk.
fn boxed_profile(
    alloc: Global,
    network: &Network,
) -> Result<(u64, u64, Option<(u32, u64)>), AllocError> {
    let arrival: Box<dyn Fn(u64, u64) -> u64 + Send + Sync> = Box::new(
        alloc,
        |weight: u64, departure: u64| -> u64
            requires { departure + 2 * weight < 2 ^ 64 }
            ensures { result ≡ departure + 2 * weight }
        { departure + 2 * weight },
    )?;
    let mut list = ProfileList::new(alloc);
    match list.push(Profile::new(arrival)) {
        Ok(()) => {
            let walked = if network.nodes() > 0 && network.top_class() as usize <= list.len() {
                run_walk(network, &list, 1, &[1, 2], 4)
            } else {
                None
            };
            Ok((list.arrive(1, 3, 4), list.arrive(0, 3, 4), walked))
        }
        Err(_) => Err(AllocError),
    }
}

/// Whether the list's arrivals are right in a network of two nodes.
fn is_profile_right(alloc: Global) -> Result<bool, AllocError> {
    match network_of(alloc, 2, &[(1, 2, 3, 1), (2, 2, 3, 0)])? {
        Some(network) => Ok(boxed_profile(alloc, &network)? == (10, 7, Some((2, 13)))),
        None => Ok(false),
    }
}

#[test]
fn boxed_profile_arrives(rt: HostRuntime) -> Result<(), Fail> {
    assert_that(&rt, "the list", is_profile_right(rt.alloc())?);
    Ok(())
}

/// A known pair, as a shared table would keep it.
#[derive(Drop)]
struct Held<K: Known> {
    node: u32,
    time: u64,
    of: PhantomData<K>,
    ghost is_known: { ∥ K.is_known node time ∥₁ },
}

/// The time of a known pair.
fn time_held<K: Known>(held: &Held<K>) -> u64
    ensures { ∥ K.is_known held.now.node result ∥₁ }
{
    held.time
}

/// A function whose `Known` names, as its caller says, the pairs reached from the sources.
fn first_known<T: TravelTimes, K: Known>(network: &Network, times: &T, query: &Query) -> u64
    requires some { 0 < length query.now.sources }
    requires names { (node time : ℕ) → K.is_known node time
        ↔ Reaches network.now (T.answers times.now) query.now.sources node time }
    ensures { (node : ℕ) × ∥ K.is_known node result ∥₁ }
{
    let source = query.sources()[0];
    let held: Held<K> = Held {
        node: source.node,
        time: source.departure,
        of: PhantomData,
    };
    time_held(&held)
}

/// A call that picks as its `Known` the pairs reached from its sources.
fn first_reached<T: TravelTimes>(network: &Network, times: &T, query: &Query) -> u64
    requires { 0 < length query.now.sources }
    ensures { (node : ℕ)
        × ∥ Reaches network.now (T.answers times.now) query.now.sources node result ∥₁ }
{
    first_known::<T, Brand>(network, times, query)
}

/// The same under a caller's closure.
fn first_reached_by<F: ArrivalFunction + Drop>(
    network: &Network,
    closure: F,
    classes: u32,
    query: &Query,
) -> u64
    requires fifo { IsFifoFunction (F.may closure) (F.answers closure) classes }
    requires some { 0 < length query.now.sources }
{
    let profiles = Profiles::new(closure, classes);
    first_reached(network, &profiles, query)
}

/// The same under a closure that is made here, for a source that departs at 5.
fn first_by_closure(network: &Network) -> u64 {
    let source = Source {
        node: 1,
        departure: 5,
    };
    first_reached_by(
        network,
        |_class: u32, weight: u64, departure: u64| -> u64
            requires { departure + weight < 2 ^ 64 }
            ensures { result ≡ departure + weight }
        { departure + weight },
        0,
        &Query::pair(source, 2),
    )
}

/// The same in a network of two nodes; none if there is none.
fn first_of_two(alloc: Global) -> Result<Option<u64>, AllocError> {
    match network_of(alloc, 2, &[(1, 2, 3, 0)])? {
        Some(network) => Ok(Some(first_by_closure(&network))),
        None => Ok(None),
    }
}

#[test]
fn a_call_picks_its_known_pairs(rt: HostRuntime) -> Result<(), Fail> {
    assert_that(&rt, "at 5", first_of_two(rt.alloc())? == Some(5));
    Ok(())
}

/// A pair that anyone may offer: any node, and any time within the horizon.
fn held_by_any(node: u32, time: u64) -> Held<AnyPair>
    requires { time ≤ HORIZON }
    ensures { (result.node ≡ node) × (result.time ≡ time) }
{
    Held {
        node,
        time,
        of: PhantomData,
    }
}

const ANY: [(u32, u64); 3] = [(0, 0), (1, HORIZON), (u32::MAX, HORIZON)];

/// The first pair that is held wrongly.
fn wrong_pair_of_any() -> Option<usize> {
    for (place, (node, time)) in ANY.iter().enumerate() {
        let held = held_by_any(*node, (*time).min(HORIZON));
        if (held.node, time_held(&held)) != (*node, *time) {
            return Some(place);
        }
    }
    None
}

#[test]
fn any_pair_is_known_up_to_the_horizon(rt: HostRuntime) {
    assert_none_wrong(&rt, wrong_pair_of_any());
}

/// The end of a walk over an arc of the greatest class, with one timetable for all classes.
fn over_the_last_class(network: &Network) -> Option<(u32, u64)> {
    if network.nodes() == 0 || network.top_class() < u32::MAX {
        return None;
    }
    let plain = Timetable::of(RawKind::Plain);
    run_walk(network, &plain, 1, &[1], 5)
}

/// Whether one timetable serves the greatest class.
fn serves_the_last(alloc: Global) -> Result<bool, AllocError> {
    match network_of(alloc, 2, &[(1, 2, 3, u32::MAX)])? {
        Some(network) => Ok(
            network.top_class() == u32::MAX && over_the_last_class(&network) == Some((2, 8)),
        ),
        None => Ok(false),
    }
}

#[test]
fn one_timetable_serves_the_last_class(rt: HostRuntime) -> Result<(), Fail> {
    assert_that(&rt, "the last class", serves_the_last(rt.alloc())?);
    Ok(())
}

/// Widths, and the bits of their windows.
const WIDTHS: [(u64, u64); 6] = [
    (0, 0),
    (1, 0),
    (2, 1),
    (5, 3),
    (8, 7),
    (u64::MAX, u64::MAX / 2),
];

/// The first width whose window has other bits.
fn wrong_width() -> Option<usize> {
    for (place, (width, bits)) in WIDTHS.iter().enumerate() {
        if window_bits(*width) != *bits {
            return Some(place);
        }
    }
    None
}

#[test]
fn a_window_has_a_half_to_the_whole_of_a_width(rt: HostRuntime) {
    assert_none_wrong(&rt, wrong_width());
}

/// How many of the classes up to this one have a profile with this arrival.
fn right_profiles(list: &ProfileList, most: u32) -> u32
    requires { most < 65536 }
{
    let mut right = 0u32;
    for class in 1..most + 1 {
        if class as usize <= list.len() && list.arrive(class, 3, 4) == 7 + u64::from(class) {
            right = right.wrapping_add(1);
        }
    }
    right
}

/// The number of boxed profiles, each of which arrives one later than the one before, with the right arrival
/// in a list of this many.
fn right_of_profiles(alloc: Global, count: u32) -> Result<u32, AllocError>
    requires { count < 65536 }
{
    let mut list = ProfileList::new(alloc);
    for class in 1..count + 1 {
        let arrival: Box<dyn Fn(u64, u64) -> u64 + Send + Sync> = Box::new(
            alloc,
            move |weight: u64, departure: u64| -> u64
                requires { departure + weight + 65536 ≤ 2 ^ 64 }
                ensures { result ≡ departure + weight + class % 65536 }
            { departure + weight + u64::from(class % 65536) },
        )?;
        if list.push(Profile::new(arrival)).is_err() {
            return Err(AllocError);
        }
    }
    Ok(right_profiles(&list, count))
}

#[test]
fn a_thousand_boxed_profiles_arrive(rt: HostRuntime) -> Result<(), Fail> {
    let right = right_of_profiles(rt.alloc(), 1_000)?;
    assert_that(&rt, "all of them", right == 1_000);
    Ok(())
}
