//! Answers on a layout, compared with those of plain searches.
ghost use Rattle.std.specs.Prelude.{◌≡◌, IfOk, true};
ghost use Rattle.ea_layout.specs.Laid.{CanFindLaid, IsPreparedLaid};
ghost use Rattle.ea_layout.specs.Orders.{LaysOut};
ghost use Rattle.ea_road.specs.Queries.{IsProblem};

use ea_hierarchy::Unprepared;
use ea_layout::laws::a_layout_is_of_one_network;
use ea_layout::{LaidSearch, Layout};
use ea_paths::{Answer, Search};
use ea_road::{Network, Query, TravelTimes};
use std::alloc::{AllocError, Global};
use std::process::Abort;

/// How many arrivals and walks were compared, how many nodes were reached, and how many differ.
#[derive(Clone, Copy, PartialEq, Eq, Debug)]
pub struct Count {
    pub compared: u64,
    pub reached: u64,
    pub differ: u64,
}

/// Nothing was compared yet.
pub const NOTHING: Count = Count {
    compared: 0,
    reached: 0,
    differ: 0,
};

/// Fails the test unless answers were compared, some nodes were reached, and no answer differs.
pub fn assert_alike<H: Abort>(rt: &H, count: Count) {
    assert_eq!(*rt;
        (count.compared > 0, count.reached > 0, count.differ),
        (true, true, 0)
    );
}

/// Whether two answers have the same walk to a node.
fn same_walk(alloc: Global, plain: &Answer, laid: &Answer, node: u32) -> Result<bool, AllocError> {
    if !plain.has_walks() || !laid.has_walks() || !plain.asks(node) || !laid.asks(node) {
        return Ok(false);
    }
    Ok(plain.walk(alloc, node)? == laid.walk(alloc, node)?)
}

/// Compares the arrivals of two answers at each node, and the walks if the second has any.
fn compare(
    alloc: Global,
    plain: &Answer,
    laid: &Answer,
    count: &mut Count,
) -> Result<(), AllocError> {
    for place in 0..plain.nodes().max(laid.nodes()) {
        let node = place.wrapping_add(1);
        if plain.asks(node) != laid.asks(node) {
            count.differ = count.differ.wrapping_add(1);
        }
        if plain.asks(node) && laid.asks(node) {
            let arrival = plain.arrival(node);
            count.compared = count.compared.wrapping_add(1);
            if arrival != None {
                count.reached = count.reached.wrapping_add(1);
            }
            if arrival != laid.arrival(node) {
                count.differ = count.differ.wrapping_add(1);
            }
            if laid.has_walks() && !same_walk(alloc, plain, laid, node)? {
                count.differ = count.differ.wrapping_add(1);
            }
        }
    }
    Ok(())
}

/// Compares an answer with that of a plain search on new arrays.
fn compare_with_plain<T: TravelTimes>(
    alloc: Global,
    network: &Network,
    times: &T,
    query: &Query,
    laid: &Answer,
    count: &mut Count,
) -> Result<(), AllocError>
    requires problem { IsProblem network.now (T.classes times.now) query.now }
{
    let search = Search::reserve(alloc, network.nodes())?;
    let search = search.find_walks(network, times, query);
    compare(alloc, search.answer(), laid, count)
}

/// Finds walks on a layout, and compares them with those of a plain search.
fn compare_walks<T: TravelTimes>(
    alloc: Global,
    network: &Network,
    layout: &Layout,
    times: &T,
    query: &Query,
    laid: LaidSearch,
    count: &mut Count,
) -> Result<LaidSearch, AllocError>
    requires can { CanFindLaid network.now (T.answers times.now) layout.now (T.classes times.now)
        query.now laid }
    requires walks { laid.walks ≡ true }
    ensures { IfOk result (λ found. (found.nodes ≡ laid.nodes) × (found.walks ≡ true)) }
{
    a_layout_is_of_one_network(network, layout);
    let found = laid.find_walks(alloc, layout, times, query)?;
    compare_with_plain(alloc, network, times, query, found.answer(), count)?;
    Ok(found)
}

/// The same without walks.
fn compare_without<T: TravelTimes>(
    alloc: Global,
    network: &Network,
    layout: &Layout,
    times: &T,
    query: &Query,
    laid: LaidSearch,
    count: &mut Count,
) -> Result<LaidSearch, AllocError>
    requires { CanFindLaid network.now (T.answers times.now) layout.now (T.classes times.now)
        query.now laid }
    ensures { IfOk result (λ found. (found.nodes ≡ laid.nodes) × (found.walks ≡ laid.walks)) }
{
    a_layout_is_of_one_network(network, layout);
    let found = laid.find_arrivals(alloc, layout, times, query)?;
    compare_with_plain(alloc, network, times, query, found.answer(), count)?;
    Ok(found)
}

/// The same as far as there is room.
fn compare_found<T: TravelTimes>(
    alloc: Global,
    network: &Network,
    layout: &Layout,
    times: &T,
    query: &Query,
    laid: LaidSearch,
    count: &mut Count,
) -> Result<LaidSearch, AllocError>
    requires { CanFindLaid network.now (T.answers times.now) layout.now (T.classes times.now)
        query.now laid }
    ensures { IfOk result (λ found. (found.nodes ≡ laid.nodes) × (found.walks ≡ laid.walks)) }
{
    let found = laid.find(alloc, network, layout, times, query);
    compare_with_plain(alloc, network, times, query, found.answer(), count)?;
    Ok(found)
}

/// Two queries in turn on the same arrays, with walks and without, on a layout.
fn compare_on<T: TravelTimes>(
    alloc: Global,
    network: &Network,
    layout: &Layout,
    times: &T,
    first: &Query,
    second: &Query,
    count: &mut Count,
) -> Result<(), AllocError>
    requires laid_out { LaysOut network.now layout.now }
    requires prepared { IsPreparedLaid (T.answers times.now) layout.now }
    requires first { IsProblem network.now (T.classes times.now) first.now }
    requires second { IsProblem network.now (T.classes times.now) second.now }
{
    let laid = LaidSearch::reserve(alloc, network.nodes())?;
    let laid = compare_walks(alloc, network, layout, times, first, laid, count)?;
    let laid = compare_walks(alloc, network, layout, times, second, laid, count)?;
    let laid = compare_without(alloc, network, layout, times, first, laid, count)?;
    let laid = compare_without(alloc, network, layout, times, second, laid, count)?;
    let laid = compare_walks(alloc, network, layout, times, second, laid, count)?;
    compare_found(alloc, network, layout, times, first, laid, count)?;
    Ok(())
}

/// The same on a layout in clusters, and on a prepared one.
pub fn compare_in_turn<T: TravelTimes>(
    alloc: Global,
    network: &Network,
    times: &T,
    first: &Query,
    second: &Query,
    count: &mut Count,
) -> Result<(), AllocError>
    requires first { IsProblem network.now (T.classes times.now) first.now }
    requires second { IsProblem network.now (T.classes times.now) second.now }
{
    let layout = Layout::new(alloc, network)?;
    compare_on(alloc, network, &layout, times, first, second, count)?;
    match Layout::prepare(alloc, network, times) {
        Ok(layout) => compare_on(alloc, network, &layout, times, first, second, count),
        Err(_) => {
            count.differ = count.differ.wrapping_add(1);
            Ok(())
        }
    }
}

/// Two queries in turn on arrays without room for walks, on a layout.
fn compare_arrivals_on<T: TravelTimes>(
    alloc: Global,
    network: &Network,
    layout: &Layout,
    times: &T,
    first: &Query,
    second: &Query,
    count: &mut Count,
) -> Result<(), AllocError>
    requires laid_out { LaysOut network.now layout.now }
    requires prepared { IsPreparedLaid (T.answers times.now) layout.now }
    requires first { IsProblem network.now (T.classes times.now) first.now }
    requires second { IsProblem network.now (T.classes times.now) second.now }
{
    let laid = LaidSearch::reserve_without_walks(alloc, network.nodes())?;
    let laid = compare_without(alloc, network, layout, times, second, laid, count)?;
    let laid = compare_without(alloc, network, layout, times, first, laid, count)?;
    let laid = compare_without(alloc, network, layout, times, second, laid, count)?;
    let laid = compare_found(alloc, network, layout, times, first, laid, count)?;
    compare_found(alloc, network, layout, times, second, laid, count)?;
    Ok(())
}

/// The same on a layout in clusters, and on a prepared one, unless the network isn't worth it.
pub fn compare_arrivals<T: TravelTimes>(
    alloc: Global,
    network: &Network,
    times: &T,
    first: &Query,
    second: &Query,
    count: &mut Count,
) -> Result<(), AllocError>
    requires first { IsProblem network.now (T.classes times.now) first.now }
    requires second { IsProblem network.now (T.classes times.now) second.now }
{
    let layout = Layout::new(alloc, network)?;
    compare_arrivals_on(alloc, network, &layout, times, first, second, count)?;
    match Layout::prepare(alloc, network, times) {
        Ok(layout) => compare_arrivals_on(alloc, network, &layout, times, first, second, count),
        Err(Unprepared::NotWorth) => Ok(()),
        Err(_) => {
            count.differ = count.differ.wrapping_add(1);
            Ok(())
        }
    }
}
