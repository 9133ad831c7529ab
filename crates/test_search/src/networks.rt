//! Networks of many arcs: one thread and two build the same leaving arcs of each node, whether tails ascend
//! or not.
use crate::asserts::assert_that;
use ea_road::{Arc, ArcList, LeavingArc, Network, NumberedArcs};
use std::alloc::{AllocError, Global};
use std::test::Fail;
use std::thread::Threads;

const NODES: u32 = 30_000;

/// Enough arcs for two threads to be started.
const ARCS: u32 = 70_000;

/// This many arcs. Their tails advance from node to node by a step, at most three arcs from each; with step 1
/// they ascend.
fn arcs_by(alloc: Global, step: u64) -> Result<Vec<Arc>, AllocError> {
    let mut arcs = Vec::new(alloc);
    let mut place = 0u64;
    for index in 0..ARCS {
        arcs.push(Arc {
            tail: (place % u64::from(ARCS)) as u32 / 3 + 1,
            head: index % NODES + 1,
            weight: index % 1_000,
            class: index % 5,
        })?;
        place = place.wrapping_add(step);
    }
    Ok(arcs)
}

/// The network of these arcs, made by one thread; none if they make none.
fn by_one(alloc: Global, step: u64) -> Result<Option<Network>, AllocError> {
    let arcs = arcs_by(alloc, step)?;
    if !Network::fits(NODES, &arcs) {
        return Ok(None);
    }
    Ok(Some(Network::new(alloc, NODES, arcs)?))
}

/// The network of arcs, made by two threads; none if they make none.
fn by_two<H: Threads + Sync>(
    alloc: Global,
    rt: &H,
    arcs: &[Arc],
) -> Result<Option<Network>, AllocError> {
    if !Network::fits(NODES, arcs) {
        return Ok(None);
    }
    let list = ArcList::of(alloc, arcs)?;
    let arcs = NumberedArcs::new(NODES, list);
    Ok(Some(Network::of_arcs_by(alloc, rt, arcs)?))
}

/// The network of these arcs, made by two threads.
fn by_two_of<H: Threads + Sync>(
    alloc: Global,
    rt: &H,
    step: u64,
) -> Result<Option<Network>, AllocError> {
    let arcs = arcs_by(alloc, step)?;
    by_two(alloc, rt, &arcs)
}

/// Whether the arcs that leave a node have these numbers.
fn are_numbered(network: &Network, node: u32, numbers: &[u32], leaving: &[LeavingArc]) -> bool {
    for (number, arc) in numbers.iter().zip(leaving) {
        let place = (*number as usize).wrapping_sub(1);
        let arcs = network.arcs();
        if place >= arcs.len() || arcs.at(place) != arc.with_tail(node) {
            return false;
        }
    }
    true
}

/// The number of arcs that leave a node in both networks, with the same numbers and arcs; none if they
/// differ.
fn same_leaving(one: &Network, two: &Network, node: u32) -> Option<usize> {
    if node == 0 || node > one.nodes() || node > two.nodes() {
        return None;
    }
    let (here, there) = (one.leaving(node), two.leaving(node));
    let same = here.numbers == there.numbers && here.arcs == there.arcs;
    if same && are_numbered(one, node, here.numbers, here.arcs) {
        Some(here.arcs.len())
    } else {
        None
    }
}

/// The number of arcs that leave the nodes of both, with the same numbers and arcs; none if they differ.
fn arcs_alike(one: &Network, two: &Network) -> Option<usize> {
    let mut arcs = 0usize;
    for node in 1..NODES + 1 {
        let Some(leaving) = same_leaving(one, two, node) else {
            return None;
        };
        arcs = arcs.wrapping_add(leaving);
    }
    Some(arcs)
}

/// A network's greatest class and mean weight.
fn told(network: &Network) -> (u32, u64) {
    (network.top_class(), network.mean_weight())
}

/// Whether both have the class, the mean weight and all arcs, equal in both.
fn are_alike(one: &Network, two: &Network) -> bool {
    told(one) == (4, 499) && told(two) == (4, 499) && arcs_alike(one, two) == Some(70_000)
}

/// Whether two threads build the same network from these arcs as one did.
fn is_made_by_two<H: Threads + Sync>(
    alloc: Global,
    rt: &H,
    one: &Network,
    step: u64,
) -> Result<bool, AllocError> {
    match by_two_of(alloc, rt, step)? {
        Some(two) => Ok(are_alike(one, &two)),
        None => Ok(false),
    }
}

/// Whether one thread and two build the same network from these arcs.
fn is_same<H: Threads + Sync>(alloc: Global, rt: &H, step: u64) -> Result<bool, AllocError> {
    match by_one(alloc, step)? {
        Some(one) => is_made_by_two(alloc, rt, &one, step),
        None => Ok(false),
    }
}

#[test]
fn two_threads_make_the_same_network(rt: HostRuntime) -> Result<(), Fail> {
    assert_that(&rt, "by steps of 1", is_same(rt.alloc(), &rt, 1)?);
    assert_that(&rt, "by steps of 7", is_same(rt.alloc(), &rt, 7)?);
    assert_that(&rt, "by steps of 69,999", is_same(rt.alloc(), &rt, 69_999)?);
    Ok(())
}
