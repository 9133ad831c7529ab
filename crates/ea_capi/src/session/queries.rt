//! Queries on searches.
ghost use Rattle.std.specs.Prelude.{◌≡◌, ◌≢◌, ◌↔◌, ◌≤◌, ◌<◌, ℕ, [], ◌∷◌, IfOk, IfErr, None, Some, true, IsTrue, length, take};
ghost use Rattle.ea_road.specs.declared.source.Source.{Source};
ghost use Rattle.ea_road.specs.Roads.{IsNode};
ghost use Rattle.ea_capi.specs.Sessions.{IsStart, starts};
ghost use Rattle.ea_capi.specs.Calls.{AreGoodStarts, AreStarts, IsDone, IsDoneOrScarce, IsFound, IsPair, IsQueried, from_starts, from_to};
ghost use Rattle.ea_capi.specs.States.{road_of, session_in};

use crate::fault_numbers::{DONE, LENGTHS_DIFFER, NO_SEARCH, NO_SUCH_NODE, OUT_OF_MEMORY};
use crate::handle::content::{Content, Session};
use crate::handle::handle::Handle;
use ea_base::HORIZON;
use ea_road::{Query, Source};
use std::alloc::{AllocError, Global};

impl Session {
    /// Answers one pair.
    fn find_pair(self, alloc: Global, source: u32, departure: u64, target: u32) -> (Session, u32)
        ensures found { result.1 ≡ 0 → IsFound (from_to source departure target) self
            result.0 result.1 }
        ensures refused { result.1 ≢ 0 → result.0 ≡ self }
        ensures pair { IsPair (road_of self)
            (record { node = source; departure = departure }) target
            → result.1 ≡ 0 }
    {
        let number = self.refusal(source, departure);
        if number != DONE {
            return (self, number);
        }
        if target == 0 || target > self.nodes() {
            return (self, NO_SUCH_NODE);
        }
        self.share.keeps_classes();
        let query = Query::pair(
            Source {
                node: source,
                departure,
            },
            target,
        );
        (self.find(alloc, &query), DONE)
    }
}

/// Answers one pair, if the content is a search; other contents are refused.
fn pair_of(
    alloc: Global,
    content: Content,
    source: u32,
    departure: u64,
    target: u32,
) -> (Content, u32)
    ensures { IsQueried
        (λ it. IsPair (road_of it) (record { node = source; departure = departure }) target) IsDone
        (from_to source departure target) (session_in (Some content))
        (Some content) (Some result.0) result.1 }
{
    match content {
        Content::Search(session) => {
            let (session, number) = session.find_pair(alloc, source, departure, target);
            (Content::Search(session), number)
        }
        other => (other, NO_SEARCH),
    }
}

/// Searches from a source to one target, departing at a time of at most HORIZON.
///
/// The search keeps the answer; `earliest_search_arrival` and `earliest_search_walk` read it for the target.
/// If the call doesn't return 0, the search is unchanged.
#[unsafe(no_mangle)]
pub extern "C" fn earliest_search_pair(
    alloc: Global,
    search: &mut Handle,
    source: u32,
    departure: u64,
    target: u32,
) -> u32
    ensures { IsQueried
        (λ it. IsPair (road_of it) (record { node = source; departure = departure }) target) IsDone
        (from_to source departure target) (session_in search.old.value)
        search.old.value search.new.value result }
{
    let Some((room, content)) = search.empty_out(alloc) else {
        return NO_SEARCH;
    };
    let (content, number) = pair_of(alloc, content, source, departure, target);
    search.fill(room, content);
    number
}

/// Sources from nodes and their departures.
pub(crate) fn sources_of(
    alloc: Global,
    nodes: &[u32],
    departures: &[u64],
) -> Result<Vec<Source>, AllocError>
    requires { length nodes.now ≡ length departures.now }
    ensures { IfOk result (λ sources. sources.items ≡ starts nodes.now departures.now) }
{
    let mut sources = Vec::with_capacity(alloc, nodes.len())?;
    for i in 0..nodes.len() {
        sources.push(Source {
            node: nodes[i],
            departure: departures[i],
        })?;
    }
    Ok(sources)
}

/// Whether a source is valid for this number of nodes.
fn is_start(nodes: u32, source: Source) -> bool
    ensures { IsTrue result ↔ IsStart nodes source }
{
    0 < source.node && source.node <= nodes && source.departure <= HORIZON
}

/// Whether all sources are valid for this number of nodes.
pub(crate) fn are_starts(nodes: u32, sources: &[Source]) -> bool
    ensures { IsTrue result ↔ AreStarts nodes sources.now }
{
    for source in sources {
        if !is_start(nodes, *source) {
            return false;
        }
    }
    true
}

impl Session {
    /// Why sources are invalid for the road: the first refusal's number.
    pub(crate) fn refusal_of(&self, sources: &[Source]) -> u32
        ensures { result ≢ 0 }
    {
        for source in sources {
            let number = self.refusal(source.node, source.departure);
            if number != DONE {
                return number;
            }
        }
        NO_SUCH_NODE
    }

    /// Answers a query from sources.
    fn find_from(self, alloc: Global, sources: Vec<Source>) -> (Session, u32)
        ensures found { result.1 ≡ 0 →
            IsFound (record { sources = sources.items; target = None }) self result.0 result.1 }
        ensures refused { result.1 ≢ 0 → result.0 ≡ self }
        ensures good { AreStarts (road_of self).network.nodes sources.items → result.1 ≡ 0 }
    {
        if !are_starts(self.nodes(), &sources) {
            let number = self.refusal_of(&sources);
            return (self, number);
        }
        self.share.keeps_classes();
        let query = Query::new(sources);
        (self.find(alloc, &query), DONE)
    }

    /// Answers a query from nodes at departures.
    fn find_starts(self, alloc: Global, nodes: &[u32], departures: &[u64]) -> (Session, u32)
        ensures found { result.1 ≡ 0 →
            IsFound (from_starts nodes.now departures.now) self result.0 result.1 }
        ensures refused { result.1 ≢ 0 → result.0 ≡ self }
        ensures good { AreGoodStarts nodes.now departures.now self → IsDoneOrScarce result.1 }
    {
        if nodes.len() != departures.len() {
            return (self, LENGTHS_DIFFER);
        }
        match sources_of(alloc, nodes, departures) {
            Ok(sources) => self.find_from(alloc, sources),
            Err(_) => (self, OUT_OF_MEMORY),
        }
    }
}

/// Answers a query from nodes at departures, if the content is a search; other contents are refused.
fn starts_of(alloc: Global, content: Content, nodes: &[u32], departures: &[u64]) -> (Content, u32)
    ensures { IsQueried (AreGoodStarts nodes.now departures.now) IsDoneOrScarce
        (from_starts nodes.now departures.now) (session_in (Some content))
        (Some content) (Some result.0) result.1 }
{
    match content {
        Content::Search(session) => {
            let (session, number) = session.find_starts(alloc, nodes, departures);
            (Content::Search(session), number)
        }
        other => (other, NO_SEARCH),
    }
}

/// Searches from these nodes, each departing at its time of at most HORIZON, to all nodes. Both lists have
/// one length. If it is 0, no node is reached.
///
/// The search keeps the answer, which other calls read. If the call doesn't return 0, the search is
/// unchanged.
#[unsafe(no_mangle)]
pub extern "C" fn earliest_search_from(
    alloc: Global,
    search: &mut Handle,
    nodes: &[u32],
    departures: &[u64],
) -> u32
    ensures { IsQueried (AreGoodStarts nodes.now departures.now) IsDoneOrScarce
        (from_starts nodes.now departures.now) (session_in search.old.value)
        search.old.value search.new.value result }
{
    let Some((room, content)) = search.empty_out(alloc) else {
        return NO_SEARCH;
    };
    let (content, number) = starts_of(alloc, content, nodes, departures);
    search.fill(room, content);
    number
}
