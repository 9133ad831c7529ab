//! Answers at asked nodes, compared with those of plain searches.
ghost use Rattle.std.specs.Prelude.{◌≡◌, All, IfOk, None};
ghost use Rattle.ea_road.specs.Queries.{IsProblem};
ghost use Rattle.ea_road.specs.Roads.{IsNode};
ghost use Rattle.ea_search.specs.Listings.{Searched};

use ea_asked::AskedSearch;
use ea_paths::{Answer, Search};
use ea_road::{Network, Query, TravelTimes};
use std::alloc::{AllocError, Global};
use std::process::Abort;

/// How many arrivals and walks were compared, how many of their nodes were reached, and how many differ.
#[derive(Clone, Copy, PartialEq, Eq, Debug)]
pub struct Count {
    pub compared: u64,
    pub reached: u64,
    pub differ: u64,
}

/// Nothing was compared yet.
pub const NOTHING: Count = Count {
    compared: 0,
    reached: 0,
    differ: 0,
};

/// Fails the test unless answers were compared, some nodes were reached, and no answer differs.
pub fn assert_alike<H: Abort>(rt: &H, count: Count) {
    assert_eq!(*rt;
        (count.compared > 0, count.reached > 0, count.differ),
        (true, true, 0)
    );
}

/// Whether two answers have the same walk to a node.
fn same_walk(
    alloc: Global,
    plain: &Answer,
    answer: &Answer,
    node: u32,
) -> Result<bool, AllocError> {
    if !plain.has_walks() || !answer.has_walks() || !plain.asks(node) || !answer.asks(node) {
        return Ok(false);
    }
    Ok(plain.walk(alloc, node)? == answer.walk(alloc, node)?)
}

/// Compares the arrivals of two answers at these nodes, and the walks if the second has any.
fn compare(
    alloc: Global,
    plain: &Answer,
    answer: &Answer,
    asked: &[u32],
    count: &mut Count,
) -> Result<(), AllocError> {
    for node in asked {
        if !plain.asks(*node) || !answer.asks(*node) {
            count.differ = count.differ.wrapping_add(1);
            return Ok(());
        }
        let arrival = plain.arrival(*node);
        count.compared = count.compared.wrapping_add(1);
        if arrival != None {
            count.reached = count.reached.wrapping_add(1);
        }
        if arrival != answer.arrival(*node) {
            count.differ = count.differ.wrapping_add(1);
        }
        if answer.has_walks() && !same_walk(alloc, plain, answer, *node)? {
            count.differ = count.differ.wrapping_add(1);
        }
    }
    Ok(())
}

/// Searches for some nodes, and compares the answer with that of a plain search on new arrays.
pub fn compare_asked<T: TravelTimes>(
    alloc: Global,
    network: &Network,
    times: &T,
    query: &Query,
    asked: &[u32],
    search: AskedSearch,
    count: &mut Count,
) -> Result<AskedSearch, AllocError>
    requires problem { IsProblem network.now (T.classes times.now) query.now }
    requires all { query.now.target ≡ None }
    requires asked { All (IsNode network.now.nodes) asked.now }
    requires nodes { search.nodes ≡ network.now.nodes }
    ensures { IfOk result (λ after. after.nodes ≡ search.nodes) }
{
    let plain = Search::reserve(alloc, network.nodes())?;
    let plain = plain.find_walks(network, times, query);
    let found = search.find(alloc, network, times, query, asked)?;
    compare(alloc, plain.answer(), found.answer(), asked, count)?;
    Ok(found)
}
