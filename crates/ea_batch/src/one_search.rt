//! Searches by one thread, one after another on the same arrays.
ghost use Rattle.std.specs.Prelude.{◌≡◌, All, IfOk, IfSome, None, Some};
ghost use Rattle.ea_road.specs.Roads.{IsNode};
ghost use Rattle.ea_report.specs.Asked.{chosen_by, shape_of};
ghost use Rattle.ea_search.specs.Listings.{Searched};
ghost use Rattle.ea_batch.specs.Solved.{AreAidsOn, HasFoundAt, HasFoundOn, IsLaidOut, IsReady, IsShown, MaySearch, Serves, searched};

use crate::search_road::{SearchNetwork, SearchRoad};
use crate::searching::{Aids, Searching, few_chosen};
use ea_asked::AskedSearch;
use ea_layout::{LaidSearch, Layout};
use ea_paths::Search;
use ea_report::ReportOptions;
use ea_road::{Network, Query};
use std::alloc::{AllocError, Global};

/// Arrays for searches on a road as it was given: the last ones, else new ones.
fn plain_arrays(
    alloc: Global,
    road: &SearchRoad<'_>,
    walks: bool,
    last: Option<Searching>,
) -> Result<Search, AllocError>
    requires { IfSome last (Serves road.now.network walks) }
    ensures { IfOk result (IsReady road.now.network walks) }
{
    let nodes = road.nodes();
    match last {
        Some(Searching::Plain(search)) => Ok(search),
        other => {
            drop(other);
            if walks {
                Search::reserve(alloc, nodes)
            } else {
                Search::reserve_without_walks(alloc, nodes)
            }
        }
    }
}

/// Arrays for searches on a road laid out: the last ones, else new ones.
fn laid_arrays(
    alloc: Global,
    road: &SearchRoad<'_>,
    walks: bool,
    last: Option<Searching>,
) -> Result<LaidSearch, AllocError>
    requires { IfSome last (Serves road.now.network walks) }
    ensures { IfOk result (IsReady road.now.network walks) }
{
    let nodes = road.nodes();
    match last {
        Some(Searching::Laid(search)) => Ok(search),
        other => {
            drop(other);
            if walks {
                LaidSearch::reserve(alloc, nodes)
            } else {
                LaidSearch::reserve_without_walks(alloc, nodes)
            }
        }
    }
}

/// Searches a problem on a road as it was given.
fn search_plain(
    alloc: Global,
    road: &SearchRoad<'_>,
    network: &Network,
    query: &Query,
    walks: bool,
    last: Option<Searching>,
) -> Result<Search, AllocError>
    requires may { MaySearch road.now walks query.now last }
    requires network { network.now ≡ road.now.network }
    ensures { IfOk result (HasFoundOn walks road.now query.now) }
{
    let search = plain_arrays(alloc, road, walks, last)?;
    Ok(search.find(network, road.times(), query))
}

/// Searches a problem on a road laid out; that of a pair is led by its preparation, if it has one.
fn search_laid(
    alloc: Global,
    road: &SearchRoad<'_>,
    layout: &Layout,
    query: &Query,
    walks: bool,
    last: Option<Searching>,
) -> Result<LaidSearch, AllocError>
    requires may { MaySearch road.now walks query.now last }
    requires layout { IsLaidOut road.now layout.now }
    ensures { IfOk result (HasFoundOn walks road.now query.now) }
{
    road.keeps_limits();
    let search = laid_arrays(alloc, road, walks, last)?;
    if walks {
        search.find_walks(alloc, layout, road.times(), query)
    } else {
        search.find_arrivals(alloc, layout, road.times(), query)
    }
}

/// Arrays for searches for some nodes: the last ones, else new ones.
fn asked_arrays(
    alloc: Global,
    road: &SearchRoad<'_>,
    walks: bool,
    last: Option<Searching>,
) -> Result<AskedSearch, AllocError>
    requires { IfSome last (Serves road.now.network walks) }
    ensures { IfOk result (IsReady road.now.network walks) }
{
    let nodes = road.nodes();
    match last {
        Some(Searching::Asked(search)) => Ok(search),
        other => {
            drop(other);
            if walks {
                AskedSearch::reserve(alloc, nodes)
            } else {
                AskedSearch::reserve_without_walks(alloc, nodes)
            }
        }
    }
}

/// Searches a problem for the nodes that its report shows.
fn search_asked(
    alloc: Global,
    road: &SearchRoad<'_>,
    network: &Network,
    query: &Query,
    asked: &[u32],
    walks: bool,
    last: Option<Searching>,
) -> Result<AskedSearch, AllocError>
    requires may { MaySearch road.now walks query.now last }
    requires network { network.now ≡ road.now.network }
    requires all { query.now.target ≡ None }
    requires asked { All (IsNode road.now.network.nodes) asked.now }
    ensures { IfOk result (HasFoundAt (Some asked.now) walks road.now query.now) }
{
    let search = asked_arrays(alloc, road, walks, last)?;
    search.find(alloc, network, road.times(), query, asked)
}

/// Searches a problem for all nodes or a target on a road as it was given, by what searches on it may use.
fn search_given(
    alloc: Global,
    road: &SearchRoad<'_>,
    network: &Network,
    aids: Aids<'_>,
    query: &Query,
    walks: bool,
    last: Option<Searching>,
) -> Result<Searching, AllocError>
    requires may { MaySearch road.now walks query.now last }
    requires network { network.now ≡ road.now.network }
    requires aids { AreAidsOn road.now aids }
    ensures { IfOk result (λ search. HasFoundOn walks road.now query.now (searched search)) }
{
    match aids.layout {
        Some(layout) => {
            let found = search_laid(alloc, road, layout, query, walks, last)?;
            Ok(Searching::Laid(found))
        }
        None => {
            let found = search_plain(alloc, road, network, query, walks, last)?;
            Ok(Searching::Plain(found))
        }
    }
}

/// Searches a problem for all nodes or a target on a renumbered road.
fn search_renumbered(
    alloc: Global,
    road: &SearchRoad<'_>,
    layout: &Layout,
    query: &Query,
    walks: bool,
    last: Option<Searching>,
) -> Result<Searching, AllocError>
    requires may { MaySearch road.now walks query.now last }
    requires layout { IsLaidOut road.now layout.now }
    ensures { IfOk result (λ search. HasFoundOn walks road.now query.now (searched search)) }
{
    let found = search_laid(alloc, road, layout, query, walks, last)?;
    Ok(Searching::Laid(found))
}

/// Searches a problem on a road as it was given, for the nodes that its report shows, if few are chosen; else for all
/// nodes or its target.
fn search_shown(
    alloc: Global,
    road: &SearchRoad<'_>,
    network: &Network,
    aids: Aids<'_>,
    query: &Query,
    shown: ReportOptions<'_>,
    last: Option<Searching>,
) -> Result<Searching, AllocError>
    requires may { MaySearch road.now shown.style.walks query.now last }
    requires network { network.now ≡ road.now.network }
    requires shown { IsShown road.now.network (shape_of shown) }
    requires aids { AreAidsOn road.now aids }
    ensures { IfOk result (λ search. HasFoundAt (chosen_by shown.entry) shown.entry.style.walks
        road.now query.now (searched search)) }
{
    let walks = shown.style.walks;
    match few_chosen(road.nodes(), shown) {
        Some(asked) if query.target().is_none() => {
            let found = search_asked(alloc, road, network, query, asked, walks, last)?;
            Ok(Searching::Asked(found))
        }
        _ => search_given(alloc, road, network, aids, query, walks, last),
    }
}

/// Searches a problem on the arrays of the last search, if there was one: for the nodes that its report shows, if
/// few are chosen; else by what searches on the road may use. Returns the search with its answer.
pub(crate) fn search(
    alloc: Global,
    road: &SearchRoad<'_>,
    aids: Aids<'_>,
    query: &Query,
    shown: ReportOptions<'_>,
    last: Option<Searching>,
) -> Result<Searching, AllocError>
    requires may { MaySearch road.now shown.style.walks query.now last }
    requires shown { IsShown road.now.network (shape_of shown) }
    requires aids { AreAidsOn road.now aids }
    ensures { IfOk result (λ search. HasFoundAt (chosen_by shown.entry) shown.entry.style.walks
        road.now query.now (searched search)) }
{
    match road.form() {
        SearchNetwork::AsGiven(network) => {
            search_shown(alloc, road, network, aids, query, shown, last)
        }
        SearchNetwork::Renumbered(layout) => {
            search_renumbered(alloc, road, layout, query, shown.style.walks, last)
        }
    }
}
