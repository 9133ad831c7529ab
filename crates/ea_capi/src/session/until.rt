//! Queries for latest departures.
ghost use Rattle.std.specs.Prelude.{◌≡◌, ◌≢◌, ◌↔◌, ◌∷◌, [], IfOk, IsTrue, None, Some, length};
ghost use Rattle.ea_road.specs.declared.target.Target.{Target};
ghost use Rattle.ea_road.specs.Roads.{IsNode};
ghost use Rattle.ea_capi.specs.Calls.{IsDone, IsDoneOrScarce};
ghost use Rattle.ea_capi.specs.Latest.{AreStops, IsStop, stops};
ghost use Rattle.ea_capi.specs.LatestCalls.{AreGoodStops, IsFoundUntil, IsGoodPair, IsQueriedUntil};
ghost use Rattle.ea_capi.specs.States.{latest_in, road_behind};

use crate::fault_numbers::{
    BEYOND_HORIZON, DONE, LENGTHS_DIFFER, NO_SEARCH, NO_SUCH_NODE, OUT_OF_MEMORY,
};
use crate::handle::content::{Content, LatestSearch};
use crate::handle::handle::Handle;
use ea_base::HORIZON;
use ea_road::{Query, Source, Target, turned_targets};
use std::alloc::{AllocError, Global};

/// Whether a target is valid for this number of nodes.
fn is_stop(nodes: u32, target: Target) -> bool
    ensures { IsTrue result ↔ IsStop nodes target }
{
    0 < target.node && target.node <= nodes && target.time <= HORIZON
}

/// Whether all targets are valid for this number of nodes.
fn are_stops(nodes: u32, targets: &[Target]) -> bool
    ensures { IsTrue result ↔ AreStops nodes targets.now }
{
    for target in targets {
        if !is_stop(nodes, *target) {
            return false;
        }
    }
    true
}

/// Targets from nodes and the times by which they have to be reached.
fn targets_of(alloc: Global, nodes: &[u32], times: &[u64]) -> Result<Vec<Target>, AllocError>
    requires { length nodes.now ≡ length times.now }
    ensures { IfOk result (λ targets. targets.items ≡ stops nodes.now times.now) }
{
    let mut targets = Vec::with_capacity(alloc, nodes.len())?;
    for i in 0..nodes.len() {
        targets.push(Target {
            node: nodes[i],
            time: times[i],
        })?;
    }
    Ok(targets)
}

/// Why a target is invalid for this number of nodes: the refusal's number.
fn refusal_of(nodes: u32, targets: &[Target]) -> u32
    ensures { result ≢ 0 }
{
    for target in targets {
        if target.node == 0 || target.node > nodes {
            return NO_SUCH_NODE;
        }
        if target.time > HORIZON {
            return BEYOND_HORIZON;
        }
    }
    NO_SUCH_NODE
}

impl LatestSearch {
    /// Answers a query for targets.
    fn find_for(self, alloc: Global, targets: &[Target]) -> (LatestSearch, u32)
        ensures found { result.1 ≡ 0 → IsFoundUntil targets.now None self result.0 }
        ensures refused { result.1 ≢ 0 → result.0 ≡ self }
        ensures good { AreStops (road_behind self).network.nodes targets.now
            → IsDoneOrScarce result.1 }
    {
        let nodes = self.nodes();
        if !are_stops(nodes, targets) {
            return (self, refusal_of(nodes, targets));
        }
        match turned_targets(alloc, targets) {
            Ok(sources) => {
                let query = Query::new(sources);
                (self.find(alloc, &query, targets), DONE)
            }
            Err(_) => (self, OUT_OF_MEMORY),
        }
    }

    /// Answers a query for nodes that have to be reached by these times.
    fn find_stops(self, alloc: Global, nodes: &[u32], times: &[u64]) -> (LatestSearch, u32)
        ensures found { result.1 ≡ 0 →
            IsFoundUntil (stops nodes.now times.now) None self result.0 }
        ensures refused { result.1 ≢ 0 → result.0 ≡ self }
        ensures good { AreGoodStops nodes.now times.now self → IsDoneOrScarce result.1 }
    {
        if nodes.len() != times.len() {
            return (self, LENGTHS_DIFFER);
        }
        match targets_of(alloc, nodes, times) {
            Ok(targets) => self.find_for(alloc, &targets),
            Err(_) => (self, OUT_OF_MEMORY),
        }
    }

    /// Answers one pair.
    fn find_pair_until(self, alloc: Global, source: u32, target: Target) -> (LatestSearch, u32)
        ensures found { result.1 ≡ 0 →
            IsFoundUntil (target ∷ []) (Some source) self result.0 }
        ensures refused { result.1 ≢ 0 → result.0 ≡ self }
        ensures pair { IsGoodPair source target self → result.1 ≡ 0 }
    {
        let nodes = self.nodes();
        let targets = [target];
        if source == 0 || source > nodes {
            return (self, NO_SUCH_NODE);
        }
        if !is_stop(nodes, target) {
            return (self, refusal_of(nodes, &targets));
        }
        let from = Source {
            node: target.node,
            departure: HORIZON - target.time,
        };
        let query = Query::pair(from, source);
        (self.find(alloc, &query, &targets), DONE)
    }
}

/// Answers a query for nodes at times, if the content is a search for latest departures; other contents are refused.
fn until_of(alloc: Global, content: Content, nodes: &[u32], times: &[u64]) -> (Content, u32)
    ensures { IsQueriedUntil (AreGoodStops nodes.now times.now) IsDoneOrScarce
        (stops nodes.now times.now) None (latest_in (Some content))
        (Some content) (Some result.0) result.1 }
{
    match content {
        Content::Latest(search) => {
            let (search, number) = search.find_stops(alloc, nodes, times);
            (Content::Latest(search), number)
        }
        other => (other, NO_SEARCH),
    }
}

/// Answers one pair, likewise.
fn pair_until_of(alloc: Global, content: Content, source: u32, target: Target) -> (Content, u32)
    ensures { IsQueriedUntil (IsGoodPair source target) IsDone
        (target ∷ []) (Some source) (latest_in (Some content))
        (Some content) (Some result.0) result.1 }
{
    match content {
        Content::Latest(search) => {
            let (search, number) = search.find_pair_until(alloc, source, target);
            (Content::Latest(search), number)
        }
        other => (other, NO_SEARCH),
    }
}

/// Searches for the latest departures of all nodes from which some of these nodes is reached by its time, at most HORIZON. Both lists
/// have one length. If it is 0, no node has one.
///
/// The search keeps the answer, which other calls read. If the call doesn't return 0, the search is unchanged.
#[unsafe(no_mangle)]
pub extern "C" fn earliest_search_until(
    alloc: Global,
    search: &mut Handle,
    nodes: &[u32],
    times: &[u64],
) -> u32
    ensures { IsQueriedUntil (AreGoodStops nodes.now times.now) IsDoneOrScarce
        (stops nodes.now times.now) None (latest_in search.old.value)
        search.old.value search.new.value result }
{
    let Some((room, content)) = search.empty_out(alloc) else {
        return NO_SEARCH;
    };
    let (content, number) = until_of(alloc, content, nodes, times);
    search.fill(room, content);
    number
}

/// Searches for the latest departure from a node by which one target is reached by a time, at most HORIZON.
///
/// The search keeps the answer for the source alone. If the call doesn't return 0, the search is unchanged.
#[unsafe(no_mangle)]
pub extern "C" fn earliest_search_pair_until(
    alloc: Global,
    search: &mut Handle,
    source: u32,
    target: u32,
    time: u64,
) -> u32
    ensures { IsQueriedUntil (IsGoodPair source (record { node = target; time = time })) IsDone
        (record { node = target; time = time } ∷ []) (Some source) (latest_in search.old.value)
        search.old.value search.new.value result }
{
    let Some((room, content)) = search.empty_out(alloc) else {
        return NO_SEARCH;
    };
    let (content, number) = pair_until_of(alloc, content, source, Target { node: target, time });
    search.fill(room, content);
    number
}
