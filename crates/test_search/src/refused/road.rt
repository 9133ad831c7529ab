// Each allocation of a network and its arcs, refused in turn.
ghost use Rattle.std.specs.Prelude.{◌≡◌, length, IfOk};
ghost use Rattle.ea_road.specs.Assigned.{AreAssigned, assigned_of};

use crate::asserts::assert_that;
use crate::refused::given::{ARCS, arc, fared, four_arcs};
use ea_base::{RawArc, RawGraph, RawTable};
use ea_road::{Arc, Network, arcs_of};
use std::alloc::{AllocError, Global};
use std::test::Fail;
use test_support::memory::{Held, pieces};
use test_support::tally::Tally;

/// Whether a network has the four nodes and their arcs.
fn is_whole(network: &Network) -> bool {
    let list = network.arcs();
    let mut right = network.nodes() == 4 && list.len() == ARCS.len();
    for place in 0..list.len() {
        right &= Some(&list.at(place)) == ARCS.get(place);
    }
    right
}

/// Whether a network that is made with such a piece left is whole; none if it was refused.
fn is_made(alloc: Global, arcs: Vec<Arc>, small: &mut Held, piece: Vec<u8>) -> Option<bool> {
    if !Network::fits(4, &arcs) {
        return Some(false);
    }
    small.leave(piece);
    let answer = Network::new(alloc, 4, arcs);
    small.release();
    match answer {
        Ok(network) => Some(is_whole(&network)),
        Err(_) => None,
    }
}

/// How the network fares with ever more memory.
fn fare_with_network(alloc: Global) -> Result<Tally, AllocError> {
    let mut tally = Tally::new();
    let mut small = Held::new(alloc, 20_000)?;
    let pieces = pieces(alloc, 0, 24, 32)?;
    let mut large = Held::of_large(alloc, 1)?;
    for piece in pieces {
        let arcs = four_arcs(alloc)?;
        tally.note(is_made(alloc, arcs, &mut small, piece), true);
    }
    large.release();
    Ok(tally)
}

#[test]
fn network_is_refused_or_whole(rt: HostRuntime) -> Result<(), Fail> {
    let tally = fare_with_network(rt.alloc())?;
    assert_that(&rt, "the tally", fared(tally, 2, 2));
    Ok(())
}

/// Builds the arcs of a graph with such a piece left. Returns whether they are as expected; none if they were
/// refused.
fn are_assigned(
    alloc: Global,
    graph: &RawGraph,
    table: Option<&RawTable>,
    expected: &[Arc],
    small: &mut Held,
    piece: Vec<u8>,
) -> Option<bool>
    requires { AreAssigned (length graph.now.arcs.items) (assigned_of table) }
{
    small.leave(piece);
    let answer = arcs_of(alloc, graph, table);
    small.release();
    match answer {
        Ok(arcs) => Some(arcs.as_slice() == expected),
        Err(_) => None,
    }
}

/// How the arcs fare with ever more memory.
fn fare_with_arcs(
    alloc: Global,
    graph: &RawGraph,
    table: Option<&RawTable>,
    expected: &[Arc],
) -> Result<Tally, AllocError>
    requires { AreAssigned (length graph.now.arcs.items) (assigned_of table) }
{
    let mut tally = Tally::new();
    let mut small = Held::new(alloc, 20_000)?;
    let pieces = pieces(alloc, 0, 8, 32)?;
    let mut large = Held::of_large(alloc, 1)?;
    for piece in pieces {
        let came = are_assigned(alloc, graph, table, expected, &mut small, piece);
        tally.note(came, true);
    }
    large.release();
    Ok(tally)
}

/// Three arcs of a text, all the same.
fn three_alike(alloc: Global) -> Result<RawGraph, AllocError>
    ensures { IfOk result (λ graph. length graph.arcs.items ≡ 3) }
{
    let raw = RawArc {
        tail: 1,
        head: 2,
        weight: 7,
    };
    Ok(RawGraph {
        nodes: 2,
        arcs: vec![in alloc; raw, raw, raw]?,
    })
}

fn of_class(class: u32) -> Arc {
    Arc {
        class,
        ..arc(1, 2, 7)
    }
}

/// How the three arcs fare without classes.
fn fare_without_classes(alloc: Global) -> Result<Tally, AllocError> {
    let graph = three_alike(alloc)?;
    let plain = [of_class(0), of_class(0), of_class(0)];
    fare_with_arcs(alloc, &graph, None, &plain)
}

/// How they fare with classes, some of them assigned several times.
fn fare_with_classes(alloc: Global) -> Result<Tally, AllocError> {
    let graph = three_alike(alloc)?;
    let table = RawTable {
        kinds: Vec::new(alloc),
        assigned: vec![in alloc; (3, 5), (1, 4), (3, 9), (1, 2)]?,
        steps: Vec::new(alloc),
    };
    let classed = [of_class(2), of_class(0), of_class(9)];
    fare_with_arcs(alloc, &graph, Some(&table), &classed)
}

#[test]
fn arcs_are_refused_or_whole(rt: HostRuntime) -> Result<(), Fail> {
    let tally = fare_without_classes(rt.alloc())?;
    assert_that(&rt, "without classes", fared(tally, 1, 2));
    let tally = fare_with_classes(rt.alloc())?;
    assert_that(&rt, "with classes", fared(tally, 1, 2));
    Ok(())
}
