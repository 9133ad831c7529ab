//! Queries for some nodes, and the arrivals at them.
ghost use Rattle.std.specs.Prelude.{◌≡◌, ◌≢◌, ◌<◌, ℕ, All, Contains, IfOk, IfSome, None, Some, length, slice_index};
ghost use Rattle.ea_asked.specs.Asked.{HasArrivalsAt};
ghost use Rattle.ea_load.specs.Posed.{times_on};
ghost use Rattle.ea_road.specs.Queries.{IsProblem};
ghost use Rattle.ea_road.specs.Labels.{time_of};
ghost use Rattle.ea_road.specs.Roads.{IsNode};
ghost use Rattle.ea_search.specs.Answers.{arrival_of};
ghost use Rattle.ea_capi.specs.Asked.{AreAnswers, AreGoodAsked, AreToldAt, IsAskedFor, IsFoundAt, IsLeft};
ghost use Rattle.ea_capi.specs.Calls.{AreStarts, IsDoneOrScarce, from_starts};
ghost use Rattle.ea_capi.specs.States.{road_of, session_in};

use crate::fault_numbers::{
    DONE, LENGTHS_DIFFER, NO_SEARCH, NO_SUCH_NODE, NOT_ASKED, OUT_OF_MEMORY, ROOM_TOO_SMALL,
};
use crate::handle::content::{AskedNodes, Content, Session};
use crate::handle::handle::Handle;
use crate::handle::share::Share;
use crate::session::arrivals::label_in;
use crate::session::queries::{are_starts, sources_of};
use ea_asked::{AskedSearch, are_nodes};
use ea_road::{Query, Source};
use std::alloc::{AllocError, Global};

/// A copy of a list.
fn copied(alloc: Global, list: &[u32]) -> Result<Vec<u32>, AllocError>
    ensures { IfOk result (λ copy. copy.items ≡ list.now) }
{
    let mut copy = Vec::with_capacity(alloc, list.len())?;
    copy.extend_from_slice(list)?;
    Ok(copy)
}

/// The arrays of the last query for some nodes, or new ones.
fn arrays_of(alloc: Global, last: Option<AskedNodes>, nodes: u32) -> Result<AskedSearch, AllocError>
    requires { IfSome last (λ it. it.search.nodes ≡ nodes) }
    ensures { IfOk result (λ arrays. arrays.nodes ≡ nodes) }
{
    match last {
        Some(asked) => Ok(asked.search),
        None => AskedSearch::reserve_without_walks(alloc, nodes),
    }
}

/// Searches a road for some nodes, with the arrays of the last such query if there was one.
fn search_at(
    alloc: Global,
    share: &Share,
    last: Option<AskedNodes>,
    query: &Query,
    list: &[u32],
) -> Result<AskedSearch, AllocError>
    requires problem { IsProblem share.now.road.network
        (length share.now.road.times.tables.list.items) query.now }
    requires all { query.now.target ≡ None }
    requires last { IfSome last (λ it. it.search.nodes ≡ share.now.road.network.nodes) }
    requires list { All (IsNode share.now.road.network.nodes) list.now }
    ensures nodes { IfOk result (λ found. found.nodes ≡ share.now.road.network.nodes) }
    ensures arrivals { IfOk result (λ found. HasArrivalsAt share.now.road.network
        (times_on share.now.road) query.now (Contains list.now) found.answer) }
{
    let road = share.road();
    let arrays = arrays_of(alloc, last, road.network.nodes())?;
    arrays.find(alloc, &road.network, &road.times, query, list)
}

impl Session {
    /// Answers a query from sources at these nodes. If memory is refused, the last answer at some nodes is lost.
    fn find_at(self, alloc: Global, sources: Vec<Source>, list: Vec<u32>) -> (Session, u32)
        requires starts { AreStarts (road_of self).network.nodes sources.items }
        requires list { All (IsNode (road_of self).network.nodes) list.items }
        ensures found { result.1 ≡ 0 → IsFoundAt
            (record { sources = sources.items; target = None }) list.items self result.0 }
        ensures refused { result.1 ≢ 0 → IsLeft result.1 self result.0 }
        ensures done { IsDoneOrScarce result.1 }
    {
        self.share.keeps_classes();
        let query = Query::new(sources);
        let Session {
            share,
            search,
            walks,
            asked,
        } = self;
        match search_at(alloc, &share, asked, &query, &list) {
            Ok(found) => {
                let asked = AskedNodes {
                    list,
                    search: found,
                };
                (
                    Session {
                        share,
                        search,
                        walks,
                        asked: Some(asked),
                    },
                    DONE,
                )
            }
            Err(_) => (
                Session {
                    share,
                    search,
                    walks,
                    asked: None,
                },
                OUT_OF_MEMORY,
            ),
        }
    }

    /// Answers a query from sources at these nodes, unless one is no node.
    fn find_listed(self, alloc: Global, sources: Vec<Source>, list: &[u32]) -> (Session, u32)
        requires starts { AreStarts (road_of self).network.nodes sources.items }
        ensures found { result.1 ≡ 0 → IsFoundAt
            (record { sources = sources.items; target = None }) list.now self result.0 }
        ensures refused { result.1 ≢ 0 → IsLeft result.1 self result.0 }
        ensures good { All (IsNode (road_of self).network.nodes) list.now → IsDoneOrScarce result.1 }
    {
        if !are_nodes(self.nodes(), list) {
            return (self, NO_SUCH_NODE);
        }
        match copied(alloc, list) {
            Ok(list) => self.find_at(alloc, sources, list),
            Err(_) => (self, OUT_OF_MEMORY),
        }
    }

    /// Answers a query from nodes at departures at these nodes.
    fn find_asked(
        self,
        alloc: Global,
        nodes: &[u32],
        departures: &[u64],
        list: &[u32],
    ) -> (Session, u32)
        ensures found { result.1 ≡ 0 → IsFoundAt (from_starts nodes.now departures.now) list.now
            self result.0 }
        ensures refused { result.1 ≢ 0 → IsLeft result.1 self result.0 }
        ensures good { AreGoodAsked nodes.now departures.now list.now self
            → IsDoneOrScarce result.1 }
    {
        if nodes.len() != departures.len() {
            return (self, LENGTHS_DIFFER);
        }
        let Ok(sources) = sources_of(alloc, nodes, departures) else {
            return (self, OUT_OF_MEMORY);
        };
        if !are_starts(self.nodes(), &sources) {
            let number = self.refusal_of(&sources);
            return (self, number);
        }
        self.find_listed(alloc, sources, list)
    }
}

/// Answers a query at these nodes, if the content is a search; other contents are refused.
fn asked_of(
    alloc: Global,
    content: Content,
    nodes: &[u32],
    departures: &[u64],
    list: &[u32],
) -> (Content, u32)
    ensures { IsAskedFor nodes.now departures.now list.now (from_starts nodes.now departures.now)
        (session_in (Some content)) (Some content) (Some result.0) result.1 }
{
    match content {
        Content::Search(session) => {
            let (session, number) = session.find_asked(alloc, nodes, departures, list);
            (Content::Search(session), number)
        }
        other => (other, NO_SEARCH),
    }
}

/// Searches from these nodes, each departing at its time of at most HORIZON, as one problem, for the nodes of `asked` alone, and ends when
/// they are settled. `nodes` and `departures` have one length.
///
/// `earliest_search_answers` reads the arrivals; what the other calls read stays that of the last other query. If the call doesn't return 0,
/// the search is unchanged; but if memory was refused, the last arrivals at asked nodes may be lost.
#[unsafe(no_mangle)]
pub extern "C" fn earliest_search_asking(
    alloc: Global,
    search: &mut Handle,
    nodes: &[u32],
    departures: &[u64],
    asked: &[u32],
) -> u32
    ensures { IsAskedFor nodes.now departures.now asked.now (from_starts nodes.now departures.now)
        (session_in search.old.value) search.old.value search.new.value result }
{
    let Some((room, content)) = search.empty_out(alloc) else {
        return NO_SEARCH;
    };
    let (content, number) = asked_of(alloc, content, nodes, departures, asked);
    search.fill(room, content);
    number
}

/// Writes the labels of asked nodes, in their order.
fn write_answers(asked: &AskedNodes, out: &mut [u64])
    requires room { length out.old ≡ length asked.now.list.items }
    ensures length { length out.new ≡ length out.old }
    ensures labels { (place : ℕ) → place < length out.new → time_of (slice_index out.new place)
        ≡ arrival_of asked.now.search.answer (slice_index asked.now.list.items place) }
{
    let answer = asked.search.answer();
    for place in 0..out.len() {
        out[place] = label_in(answer, asked.list[place]);
    }
}

/// Writes the arrivals of the last answer at some nodes, if there is one. Returns 0 or the refusal's number.
fn tell_answers(asked: &Option<AskedNodes>, out: &mut [u64]) -> u32
    ensures { AreAnswers asked.now out.old out.new result }
{
    match asked {
        Some(asked) => {
            if out.len() != asked.list.len() {
                return ROOM_TOO_SMALL;
            }
            write_answers(asked, out);
            DONE
        }
        None => NOT_ASKED,
    }
}

/// Writes the arrivals at the asked nodes of a content's search. Returns 0 or the refusal's number.
fn answers_in(content: &Content, out: &mut [u64]) -> u32
    ensures { AreToldAt (session_in (Some content.now)) out.old out.new result }
{
    match content {
        Content::Search(session) => tell_answers(&session.asked, out),
        _ => NO_SEARCH,
    }
}

/// Writes the earliest arrivals at the nodes that `earliest_search_asking` last asked for, in the order in which they were given: `out` needs
/// a place for each of them. 2^64 - 1 means that no walk reaches the node within the horizon. If the call doesn't return 0, `out` is
/// unchanged.
#[unsafe(no_mangle)]
pub extern "C" fn earliest_search_answers(
    alloc: Global,
    search: &mut Handle,
    out: &mut [u64],
) -> u32
    ensures same { search.new.value ≡ search.old.value }
    ensures told { AreToldAt (session_in search.old.value) out.old out.new result }
{
    let Some(content) = search.take(alloc) else {
        return NO_SEARCH;
    };
    let number = answers_in(&content, out);
    search.put(content);
    number
}
