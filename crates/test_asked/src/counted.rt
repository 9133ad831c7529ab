//! How often the travel times are asked.
ghost use Rattle.std.specs.Prelude.{◌≡◌, ◌<◌, ◌+◌, ◌^◌, All, None};
ghost use Rattle.ea_travel_times.specs.Answers.{IsFifoFunction};
ghost use Rattle.ea_road.specs.Queries.{IsProblem, IsSource};
ghost use Rattle.ea_road.specs.Roads.{IsNode};

use ea_asked::{AskedSearch, are_nodes};
use ea_road::{Arc, Network, Query, Source, is_problem};
use ea_travel_times::{ArrivalFunction, Profiles};
use std::alloc::{AllocError, Global};
use std::sync::atomic::{AtomicU64, Ordering};
use std::test::Fail;

/// The number of nodes of a path.
const NODES: u32 = 1000;

/// A path of arcs of this weight, one way.
fn path(alloc: Global, weight: u32) -> Result<Option<Network>, AllocError> {
    let mut arcs = Vec::new(alloc);
    for node in 1..NODES {
        arcs.push(Arc {
            tail: node,
            head: node + 1,
            weight,
            class: 0,
        })?;
    }
    if !Network::fits(NODES, &arcs) {
        return Ok(None);
    }
    Ok(Some(Network::new(alloc, NODES, arcs)?))
}

/// The source of the searches: node 500 at 0.
fn middle() -> Source
    ensures { IsSource result }
{
    Source {
        node: 500,
        departure: 0,
    }
}

/// Searches for these nodes with a closure's travel times, without walks or with.
fn search_by<F: ArrivalFunction + Drop>(
    alloc: Global,
    network: &Network,
    closure: F,
    query: &Query,
    asked: &[u32],
    walks: bool,
) -> Result<(), AllocError>
    requires fifo { IsFifoFunction (F.may closure) (F.answers closure) 0 }
    requires problem { IsProblem network.now 0 query.now }
    requires all { query.now.target ≡ None }
    requires asked { All (IsNode network.now.nodes) asked.now }
{
    let times = Profiles::new(closure, 0);
    let search = if walks {
        AskedSearch::reserve(alloc, network.nodes())?
    } else {
        AskedSearch::reserve_without_walks(alloc, network.nodes())?
    };
    let _found = search.find(alloc, network, &times, query, asked)?;
    Ok(())
}

/// How often the travel times are asked by a search for these nodes on the path, without walks or with; none if
/// there is no such search.
fn questions(
    alloc: Global,
    weight: u32,
    asked: &[u32],
    walks: bool,
) -> Result<Option<u64>, AllocError> {
    let Some(network) = path(alloc, weight)? else {
        return Ok(None);
    };
    let query = Query::from_one(middle());
    if !are_nodes(network.nodes(), asked) || !is_problem(&network, 0, &query) {
        return Ok(None);
    }
    let calls = AtomicU64::new(0);
    let counting = |_class: u32, weight: u64, departure: u64| -> u64
        requires { departure + weight < 2 ^ 64 }
        ensures { result ≡ departure + weight }
    {
        calls.fetch_add(1, Ordering::SeqCst);
        departure + weight
    };
    search_by(alloc, &network, counting, &query, asked, walks)?;
    Ok(Some(calls.load(Ordering::SeqCst)))
}

#[test]
fn a_search_ends_with_the_last_asked_node(rt: HostRuntime) -> Result<(), Fail> {
    let alloc = rt.alloc();
    // The arcs up to the last asked node, and the one that leaves it.
    assert_eq!(rt; questions(alloc, 1, &[503, 510, 505], false)?, Some(11));
    assert_eq!(rt; questions(alloc, 1, &[500], false)?, Some(1));
    // Walks relax the same arcs once more, and that from the first open node.
    assert_eq!(rt; questions(alloc, 1, &[503, 510, 505], true)?, Some(23));
    Ok(())
}

#[test]
fn a_search_for_no_node_asks_nothing(rt: HostRuntime) -> Result<(), Fail> {
    assert_eq!(rt; questions(rt.alloc(), 1, &[], false)?, Some(0));
    Ok(())
}

#[test]
fn a_search_for_a_node_out_of_reach_goes_on(rt: HostRuntime) -> Result<(), Fail> {
    assert_eq!(rt; questions(rt.alloc(), 1, &[501, 499], false)?, Some(500));
    Ok(())
}

#[test]
fn nodes_at_the_same_time_are_scanned(rt: HostRuntime) -> Result<(), Fail> {
    // Arcs that take no time may lead to an asked node by fewer arcs.
    assert_eq!(rt; questions(rt.alloc(), 0, &[501], false)?, Some(500));
    Ok(())
}
