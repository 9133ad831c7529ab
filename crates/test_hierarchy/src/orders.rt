//! Bounds over orders of every sort, in networks of every sort.
ghost use Rattle.ea_hierarchy.specs.Bounds.{IsRoomFor};

use crate::bounds::{first_wrong, plain_sums};
use crate::near::{grid, path};
use crate::random::{number_to, random_network, times_of_all_kinds};
use ea_hierarchy::{Bounds, Prepared, Unprepared, elimination_order, is_order};
use ea_road::{Arc, Network};
use ea_travel_times::Timetables;
use rand_core::{Rng, SeedableRng};
use rand_xoshiro::Xoshiro256PlusPlus;
use std::alloc::{AllocError, Global};
use std::process::Abort;
use std::test::Fail;

/// How many bounds were compared, and how many targets had a wrong one.
#[derive(Clone, Copy, PartialEq, Eq, Debug)]
struct Count {
    targets: u32,
    wrong: u32,
}

/// Fails the test unless this many targets had right bounds.
fn assert_right<H: Abort>(rt: &H, count: Count, targets: u32) {
    let wanted = Count { targets, wrong: 0 };
    assert_eq!(*rt; count, wanted);
}

/// Compares the bounds of all nodes to a target, and counts.
fn compare(
    alloc: Global,
    network: &Network,
    times: &Timetables,
    prepared: &Prepared,
    bounds: &mut Bounds,
    target: u32,
    count: &mut Count,
) -> Result<(), AllocError>
    requires { IsRoomFor prepared.now bounds.old }
    ensures { IsRoomFor prepared.now bounds.new }
{
    let sums = plain_sums(alloc, network, times, target)?;
    if target == 0 || target > prepared.nodes() {
        return Ok(());
    }
    count.targets = count.targets.wrapping_add(1);
    compare_to(alloc, prepared, bounds, target, &sums, u32::MAX, count)?;
    compare_to(alloc, prepared, bounds, target, &sums, 0, count)?;
    compare_to(alloc, prepared, bounds, target, &sums, 1, count)?;
    compare_to(alloc, prepared, bounds, target, &sums, 40, count)?;
    compare_to(alloc, prepared, bounds, target, &sums, 1000, count)
}

/// Compares bounds that end this far from a target with the sums, and counts.
fn compare_to(
    alloc: Global,
    prepared: &Prepared,
    bounds: &mut Bounds,
    target: u32,
    sums: &[u64],
    far: u32,
    count: &mut Count,
) -> Result<(), AllocError>
    requires room { IsRoomFor prepared.now bounds.old }
    ensures room { IsRoomFor prepared.now bounds.new }
{
    if target == 0 || target > prepared.nodes() {
        return Ok(());
    }
    let within = no_farther(alloc, sums, far)?;
    bounds.begin(prepared, target, far);
    if first_wrong(prepared, bounds, &within, true) != None {
        count.wrong = count.wrong.wrapping_add(1);
    }
    Ok(())
}

/// Sums, those that are farther as this far; with the greatest number all as they are.
fn no_farther(alloc: Global, sums: &[u64], far: u32) -> Result<Vec<u64>, AllocError> {
    let mut within = Vec::with_capacity(alloc, sums.len())?;
    for sum in sums {
        within.push(if far == u32::MAX {
            *sum
        } else {
            (*sum).min(u64::from(far))
        })?;
    }
    Ok(within)
}

/// Compares the bounds to three targets over a preparation, one after another, and counts.
fn compare_all(
    alloc: Global,
    network: &Network,
    times: &Timetables,
    prepared: &Prepared,
    count: &mut Count,
) -> Result<(), AllocError> {
    let nodes = network.nodes();
    let mut bounds = Bounds::new(alloc, prepared)?;
    compare(alloc, network, times, prepared, &mut bounds, 1, count)?;
    compare(alloc, network, times, prepared, &mut bounds, nodes, count)?;
    compare(
        alloc,
        network,
        times,
        prepared,
        &mut bounds,
        nodes / 2 + 1,
        count,
    )
}

/// Compares the bounds over an order, and over a separate one.
fn over_order(
    alloc: Global,
    network: &Network,
    order: &[u32],
    count: &mut Count,
) -> Result<(), Unprepared> {
    let Some(times) = times_of_all_kinds(alloc)? else {
        return Ok(());
    };
    if network.top_class() as usize > times.classes() {
        return Ok(());
    }
    let given = Prepared::with_order(alloc, network, &times, order)?;
    compare_all(alloc, network, &times, &given, count)?;
    let own = Prepared::of(alloc, network, &times)?;
    Ok(compare_all(alloc, network, &times, &own, count)?)
}

/// The nodes in their order.
fn in_turn(alloc: Global, nodes: u32) -> Result<Vec<u32>, AllocError> {
    let mut order = Vec::new(alloc);
    for node in 0..nodes {
        order.push(node.saturating_add(1))?;
    }
    Ok(order)
}

/// The nodes in an order by chance.
fn by_chance<R: Rng>(alloc: Global, words: &mut R, nodes: u32) -> Result<Vec<u32>, AllocError> {
    let mut order = in_turn(alloc, nodes)?;
    for place in 0..order.len() {
        let other = number_to(words, nodes) as usize - 1;
        if other < order.len() {
            order.swap(place, other);
        }
    }
    Ok(order)
}

/// Compares the bounds of random networks of this many nodes and arcs.
fn over_random(alloc: Global, seed: u64, nodes: u32, arcs: u32) -> Result<Count, Unprepared> {
    let mut words = Xoshiro256PlusPlus::seed_from_u64(seed);
    let mut count = Count {
        targets: 0,
        wrong: 0,
    };
    for _ in 0..20 {
        if let Some(network) = random_network(alloc, &mut words, nodes, arcs)? {
            let order = by_chance(alloc, &mut words, nodes)?;
            over_order(alloc, &network, &order, &mut count)?;
        }
    }
    Ok(count)
}

#[test]
fn random_networks(rt: HostRuntime) -> Result<(), Fail> {
    let count = over_random(rt.alloc(), 1, 60, 150).map_err(|_| "prepared")?;
    assert_right(&rt, count, 120);
    Ok(())
}

#[test]
fn sparse_networks_of_many_parts(rt: HostRuntime) -> Result<(), Fail> {
    let count = over_random(rt.alloc(), 2, 60, 40).map_err(|_| "prepared")?;
    assert_right(&rt, count, 120);
    Ok(())
}

#[test]
fn dense_networks(rt: HostRuntime) -> Result<(), Fail> {
    let count = over_random(rt.alloc(), 3, 24, 600).map_err(|_| "prepared")?;
    assert_right(&rt, count, 120);
    Ok(())
}

#[test]
fn one_node(rt: HostRuntime) -> Result<(), Fail> {
    let count = over_random(rt.alloc(), 4, 1, 2).map_err(|_| "prepared")?;
    assert_right(&rt, count, 120);
    Ok(())
}

/// A path, or a star round its first node, or a clique; arcs lead both ways.
#[derive(Clone, Copy)]
enum Shape {
    Path,
    Star,
    Clique,
}

/// Whether a shape joins two nodes, the first below the second.
fn are_joined(shape: Shape, low: u32, high: u32) -> bool {
    match shape {
        Shape::Path => low.saturating_add(1) == high,
        Shape::Star => low == 1,
        Shape::Clique => true,
    }
}

/// A network of this shape; none if its nodes are none.
fn network_of_shape(
    alloc: Global,
    shape: Shape,
    nodes: u32,
) -> Result<Option<Network>, AllocError> {
    let mut arcs = Vec::new(alloc);
    for high in 1..nodes.saturating_add(1) {
        for low in 1..high {
            if are_joined(shape, low, high) {
                let weight = low % 7;
                let class = high % 7;
                arcs.push(Arc {
                    tail: low,
                    head: high,
                    weight,
                    class,
                })?;
                arcs.push(Arc {
                    tail: high,
                    head: low,
                    weight: class,
                    class: weight,
                })?;
            }
        }
    }
    if !Network::fits(nodes, &arcs) {
        return Ok(None);
    }
    Ok(Some(Network::new(alloc, nodes, arcs)?))
}

/// Compares the bounds in a network of a shape, over its nodes in turn, which is a star's worst order.
fn over_shape(alloc: Global, shape: Shape, nodes: u32) -> Result<Count, Unprepared> {
    let mut count = Count {
        targets: 0,
        wrong: 0,
    };
    if let Some(network) = network_of_shape(alloc, shape, nodes)? {
        let order = in_turn(alloc, nodes)?;
        over_order(alloc, &network, &order, &mut count)?;
    }
    Ok(count)
}

#[test]
fn paths(rt: HostRuntime) -> Result<(), Fail> {
    let count = over_shape(rt.alloc(), Shape::Path, 400).map_err(|_| "prepared")?;
    assert_right(&rt, count, 6);
    Ok(())
}

#[test]
fn stars(rt: HostRuntime) -> Result<(), Fail> {
    let count = over_shape(rt.alloc(), Shape::Star, 80).map_err(|_| "prepared")?;
    assert_right(&rt, count, 6);
    Ok(())
}

#[test]
fn cliques(rt: HostRuntime) -> Result<(), Fail> {
    let count = over_shape(rt.alloc(), Shape::Clique, 40).map_err(|_| "prepared")?;
    assert_right(&rt, count, 6);
    Ok(())
}

/// A rank of many arcs has a row of those that are left.
#[test]
fn cliques_with_many_arcs_a_rank(rt: HostRuntime) -> Result<(), Fail> {
    let count = over_shape(rt.alloc(), Shape::Clique, 160).map_err(|_| "prepared")?;
    assert_right(&rt, count, 6);
    Ok(())
}

/// How many arcs a preparation of a clique leaves out; none if it is none.
fn left_out_of_clique(alloc: Global, nodes: u32) -> Result<Option<u64>, Unprepared> {
    let Some(network) = network_of_shape(alloc, Shape::Clique, nodes)? else {
        return Ok(None);
    };
    let Some(times) = times_of_all_kinds(alloc)? else {
        return Ok(None);
    };
    if network.top_class() as usize > times.classes() {
        return Ok(None);
    }
    let order = in_turn(alloc, nodes)?;
    let mut prepared = Prepared::with_order(alloc, &network, &times, &order)?;
    let once = prepared.left_out();
    prepared.customize(&network, &times);
    if prepared.left_out() != once {
        return Ok(None);
    }
    Ok(Some(once))
}

/// Whether the upward arcs of a preparation serve a network; none if it isn't made, or has too many classes.
fn serves(
    alloc: Global,
    prepared: &Prepared,
    network: Option<Network>,
    times: &Timetables,
) -> Result<Option<bool>, AllocError> {
    let Some(network) = network else {
        return Ok(None);
    };
    if network.top_class() as usize > times.classes() {
        return Ok(None);
    }
    Ok(Some(prepared.like(alloc, &network, times)?.is_some()))
}

/// A preparation of a path of 20 nodes; none if it isn't made.
fn prepared_path(alloc: Global, times: &Timetables) -> Result<Option<Prepared>, Unprepared> {
    let Some(network) = path(alloc, 20, 3, 0)? else {
        return Ok(None);
    };
    if network.top_class() as usize > times.classes() {
        return Ok(None);
    }
    let order = in_turn(alloc, 20)?;
    Ok(Some(Prepared::with_order(alloc, &network, times, &order)?))
}

/// Whether the preparation of a path serves another shape of 20 nodes, or else a path of this many nodes whose arcs take longer; none if one of
/// them isn't made.
fn serve(alloc: Global, shape: Option<Shape>, nodes: u32) -> Result<Option<bool>, Unprepared> {
    let Some(times) = times_of_all_kinds(alloc)? else {
        return Ok(None);
    };
    let Some(prepared) = prepared_path(alloc, &times)? else {
        return Ok(None);
    };
    let network = match shape {
        Some(shape) => network_of_shape(alloc, shape, 20)?,
        None => path(alloc, nodes, 7, 0)?,
    };
    Ok(serves(alloc, &prepared, network, &times)?)
}

#[test]
fn upward_arcs_serve_other_weights_of_the_same_arcs(rt: HostRuntime) -> Result<(), Fail> {
    let found = serve(rt.alloc(), None, 20).map_err(|_| "prepared")?;
    assert_eq!(rt; found, Some(true));
    Ok(())
}

#[test]
fn upward_arcs_serve_no_more_arcs(rt: HostRuntime) -> Result<(), Fail> {
    let found = serve(rt.alloc(), Some(Shape::Clique), 20).map_err(|_| "prepared")?;
    assert_eq!(rt; found, Some(false));
    Ok(())
}

#[test]
fn upward_arcs_serve_no_more_nodes(rt: HostRuntime) -> Result<(), Fail> {
    let found = serve(rt.alloc(), None, 21).map_err(|_| "prepared")?;
    assert_eq!(rt; found, Some(false));
    Ok(())
}

#[test]
fn short_rows_are_left_whole(rt: HostRuntime) -> Result<(), Fail> {
    let left_out = left_out_of_clique(rt.alloc(), 128).map_err(|_| "prepared")?;
    assert_eq!(rt; left_out, Some(0));
    Ok(())
}

#[test]
fn arcs_that_others_replace_are_left_out(rt: HostRuntime) -> Result<(), Fail> {
    // The lowest of 129 nodes has 128 arcs each way, of 0 to 6, and most have two others that are no longer.
    let left_out = left_out_of_clique(rt.alloc(), 129).map_err(|_| "prepared")?;
    assert!(rt; left_out > Some(128) && left_out < Some(256));
    Ok(())
}

/// Whether a preparation of a path gives back the order over which it was made, backwards or with two halves in turn.
fn gives_back(alloc: Global, nodes: u32, is_backwards: bool) -> Result<bool, Unprepared> {
    let Some(network) = network_of_shape(alloc, Shape::Path, nodes)? else {
        return Ok(false);
    };
    let Some(times) = times_of_all_kinds(alloc)? else {
        return Ok(false);
    };
    if network.top_class() as usize > times.classes() {
        return Ok(false);
    }
    let mut order = in_turn(alloc, nodes)?;
    if is_backwards {
        order.reverse();
    } else if order.len() > 3 {
        order.rotate_left(3);
    }
    let prepared = Prepared::with_order(alloc, &network, &times, &order)?;
    let found = prepared.order(alloc)?;
    Ok(found.as_slice() == order.as_slice())
}

#[test]
fn the_order_is_given_back(rt: HostRuntime) -> Result<(), Fail> {
    for is_backwards in [false, true] {
        let is_same = gives_back(rt.alloc(), 50, is_backwards).map_err(|_| "prepared")?;
        assert!(rt; is_same);
    }
    Ok(())
}

/// Whether each node of a network is eliminated once.
fn eliminates_each(alloc: Global, network: Option<Network>) -> Result<bool, Unprepared> {
    let Some(network) = network else {
        return Ok(false);
    };
    let order = elimination_order(alloc, &network)?;
    Ok(is_order(alloc, network.nodes(), &order)?)
}

#[test]
fn each_node_is_eliminated_once(rt: HostRuntime) -> Result<(), Fail> {
    let alloc = rt.alloc();
    let is_whole = eliminates_each(alloc, grid(alloc)?).map_err(|_| "an order")?;
    assert!(rt; is_whole);
    for shape in [Shape::Path, Shape::Star] {
        let network = network_of_shape(alloc, shape, 1_000)?;
        let is_whole = eliminates_each(alloc, network).map_err(|_| "an order")?;
        assert!(rt; is_whole);
    }
    Ok(())
}

#[test]
fn lists_that_are_no_order_are_refused(rt: HostRuntime) -> Result<(), Fail> {
    let alloc = rt.alloc();
    let mut order = in_turn(alloc, 5)?;
    assert_eq!(rt; is_order(alloc, 5, &order), Ok(true));
    assert_eq!(rt; is_order(alloc, 6, &order), Ok(false));
    assert_eq!(rt; is_order(alloc, 4, &order), Ok(false));
    order.swap(0, 4);
    assert_eq!(rt; is_order(alloc, 5, &order), Ok(true));
    order[2] = 0;
    assert_eq!(rt; is_order(alloc, 5, &order), Ok(false));
    order[2] = 5;
    assert_eq!(rt; is_order(alloc, 5, &order), Ok(false));
    order[2] = 6;
    assert_eq!(rt; is_order(alloc, 5, &order), Ok(false));
    Ok(())
}
