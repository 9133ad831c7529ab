//! Which targets count as near: those that seem to have few nodes before them.

use ea_base::RawKind;
use ea_hierarchy::{Prepared, Unprepared};
use ea_road::{Arc, Network};
use ea_travel_times::Timetables;
use std::alloc::{AllocError, Global};
use std::process::Abort;
use std::test::Fail;

/// How many streets a grid has on each side, and how many crossings in all.
const SIDE: u32 = 40;

const NODES: u32 = 1_600;

/// A path whose arcs have a weight and a class both ways; none if it isn't a network.
pub(crate) fn path(
    alloc: Global,
    nodes: u32,
    weight: u32,
    class: u32,
) -> Result<Option<Network>, AllocError> {
    let mut arcs = Vec::new(alloc);
    for low in 1..nodes {
        let high = low.saturating_add(1);
        for (tail, head) in [(low, high), (high, low)] {
            arcs.push(Arc {
                tail,
                head,
                weight,
                class,
            })?;
        }
    }
    if !Network::fits(nodes, &arcs) {
        return Ok(None);
    }
    Ok(Some(Network::new(alloc, nodes, arcs)?))
}

/// All nodes joined with one another by arcs that take one unit; none if it isn't a network.
fn clique(alloc: Global, nodes: u32) -> Result<Option<Network>, AllocError> {
    let mut arcs = Vec::new(alloc);
    for tail in 1..nodes.saturating_add(1) {
        for head in 1..nodes.saturating_add(1) {
            if tail != head {
                arcs.push(Arc {
                    tail,
                    head,
                    weight: 1,
                    class: 0,
                })?;
            }
        }
    }
    if !Network::fits(nodes, &arcs) {
        return Ok(None);
    }
    Ok(Some(Network::new(alloc, nodes, arcs)?))
}

/// One class, whose arcs take this long beside their weight; none if that is no timetable.
fn always(alloc: Global, longer: u64) -> Result<Option<Timetables>, AllocError> {
    let kinds = Vec::from_array(
        alloc,
        [RawKind::Points {
            period: 20,
            first: 0,
            count: 1,
        }],
    )?;
    let steps = Vec::from_array(alloc, [(0, longer)])?;
    if !Timetables::fits(&kinds, &steps) {
        return Ok(None);
    }
    Ok(Some(Timetables::with_steps(alloc, kinds, steps)?))
}

/// How many more nodes are near node 1, on the way to a target after a search of this many units; none if the network has no preparation.
fn near_in(
    alloc: Global,
    network: &Network,
    target: u32,
    searched: u64,
) -> Result<Option<u32>, Unprepared> {
    let times = Timetables::new(Vec::new(alloc));
    if network.top_class() as usize > times.classes() {
        return Ok(None);
    }
    let prepared = Prepared::of(alloc, network, &times)?;
    Ok(Some(prepared.near(1, target, searched)))
}

#[test]
fn a_target_is_near_by_the_square_of_its_distance(rt: HostRuntime) -> Result<(), Fail> {
    let alloc = rt.alloc();
    let network = path(alloc, 6_000, 1, 0).map_err(|_| "memory")?;
    let network = network.ok_or("a path")?;
    // 128 nodes are within 100 units, so 2,194 within 414, and 2,204 within 415: at most 2,200 are few.
    for (target, searched, wanted) in [
        (2, 100, 1_100),
        (415, 100, 1_100),
        (416, 100, 0),
        (6_000, 100, 0),
        (6_000, 1_500, 1_100),
        (2, 0, 0),
        (1, 0, 1_100),
    ] {
        let near = near_in(alloc, &network, target, searched).map_err(|_| "prepared")?;
        assert_eq!(rt; near, Some(wanted));
    }
    Ok(())
}

#[test]
fn more_nodes_are_near_if_ways_up_are_long(rt: HostRuntime) -> Result<(), Fail> {
    // 1,000 nodes that are all joined: from the ranks that are looked at there are on average 177,000 arcs to the top.
    let alloc = rt.alloc();
    let network = clique(alloc, 1_000).map_err(|_| "memory")?;
    let network = network.ok_or("a clique")?;
    let near = near_in(alloc, &network, 2, 10).map_err(|_| "prepared")?;
    assert!(rt; near > Some(4_000) && near < Some(4_800));
    Ok(())
}

/// A grid whose streets take one unit both ways; none if it isn't a network.
pub(crate) fn grid(alloc: Global) -> Result<Option<Network>, AllocError> {
    let mut arcs = Vec::new(alloc);
    for node in 1..NODES.saturating_add(1) {
        let east = if node % SIDE > 0 { 1 } else { 0 };
        for step in [east, SIDE] {
            let other = node.saturating_add(step);
            if step > 0 && other <= NODES {
                for (tail, head) in [(node, other), (other, node)] {
                    arcs.push(Arc {
                        tail,
                        head,
                        weight: 1,
                        class: 0,
                    })?;
                }
            }
        }
    }
    if !Network::fits(NODES, &arcs) {
        return Ok(None);
    }
    Ok(Some(Network::new(alloc, NODES, arcs)?))
}

/// How far two nodes of a grid of equal streets are from one another, in streets.
fn streets_between(node: u32, other: u32) -> u32 {
    let (node, other) = (node.saturating_sub(1), other.saturating_sub(1));
    let south = (node / SIDE).abs_diff(other / SIDE);
    let east = (node % SIDE).abs_diff(other % SIDE);
    south.saturating_add(east)
}

/// The sums of the distances of some pairs of a grid by landmarks and of the real ones, and how many of the first are greater.
fn apart_in_grid(alloc: Global) -> Result<Option<(u64, u64, u32)>, Unprepared> {
    let times = Timetables::new(Vec::new(alloc));
    let Some(network) = grid(alloc)? else {
        return Ok(None);
    };
    if network.top_class() as usize > times.classes() {
        return Ok(None);
    }
    let prepared = Prepared::of(alloc, &network, &times)?;
    let (mut found, mut real, mut greater) = (0u64, 0u64, 0u32);
    for node in 1..NODES.saturating_add(1) {
        let other = node.saturating_mul(7) % NODES;
        let apart = prepared.apart(node, other.saturating_add(1));
        let distance = streets_between(node, other.saturating_add(1));
        found = found.saturating_add(u64::from(apart));
        real = real.saturating_add(u64::from(distance));
        greater = greater.saturating_add(u32::from(distance < apart));
    }
    Ok(Some((found, real, greater)))
}

#[test]
fn landmarks_give_most_of_a_distance(rt: HostRuntime) -> Result<(), Fail> {
    let found = apart_in_grid(rt.alloc()).map_err(|_| "prepared")?;
    let (found, real, greater) = found.ok_or("a grid")?;
    assert_eq!(rt; greater, 0);
    assert!(rt; real > 20_000 && found.saturating_mul(10) > real.saturating_mul(9));
    Ok(())
}

/// How many more nodes are near node 1, on the way to node 401 of a path after a search of 100 units, if it is prepared for arcs of one unit, and
/// then for others.
fn near_after(alloc: Global, longer: u64) -> Result<Option<(u32, u32)>, Unprepared> {
    let Some(network) = path(alloc, 2_000, 0, 1)? else {
        return Ok(None);
    };
    let Some(first) = always(alloc, 1)? else {
        return Ok(None);
    };
    let Some(then) = always(alloc, longer)? else {
        return Ok(None);
    };
    let classes = network.top_class() as usize;
    if classes > first.classes() {
        return Ok(None);
    }
    if classes > then.classes() {
        return Ok(None);
    }
    let mut prepared = Prepared::of(alloc, &network, &first)?;
    let before = prepared.near(1, 401, 100);
    prepared.customize(&network, &then);
    Ok(Some((before, prepared.near(1, 401, 100))))
}

#[test]
fn other_travel_times_make_other_targets_near(rt: HostRuntime) -> Result<(), Fail> {
    let near = near_after(rt.alloc(), 2).map_err(|_| "prepared")?;
    assert_eq!(rt; near, Some((1_100, 0)));
    Ok(())
}
