//! The latest departures and the walks to targets in searches' answers.
ghost use Rattle.std.specs.Prelude.{◌≡◌, ◌≢◌, ◌≤◌, ◌<◌, ◌-◌, ℕ, IfErr, IfOk, None, Some, length, reverse, slice_index};
ghost use Rattle.ea_road.specs.Labels.{time_of};
ghost use Rattle.ea_road.specs.Queries.{IsAskedBy};
ghost use Rattle.ea_road.specs.Roads.{IsNode};
ghost use Rattle.ea_capi.specs.Latest.{departure_of};
ghost use Rattle.ea_capi.specs.LatestCalls.{AreToldUntil, IsToldUntil, IsWalkedTo, walks_to};
ghost use Rattle.ea_capi.specs.States.{latest_in};

use crate::fault_numbers::{DONE, NO_SEARCH, NO_SUCH_NODE, NOT_ASKED, ROOM_TOO_SMALL};
use crate::handle::content::Content;
use crate::handle::handle::Handle;
use crate::session::arrivals::asks_all;
use crate::session::walks::{give, walk_in};
use ea_base::HORIZON;
use ea_paths::Answer;
use ea_road::NONE;
use std::alloc::Global;

/// The latest departure of an asked node, or NONE.
fn departure_in(answer: &Answer, node: u32) -> u64
    requires node { IsNode answer.now.nodes node }
    requires asked { IsAskedBy answer.now.target node }
    ensures { time_of result ≡ departure_of answer.now node }
{
    match answer.arrival(node) {
        Some(time) => HORIZON.saturating_sub(time),
        None => NONE,
    }
}

/// Writes the latest departure of a node in an answer. Returns 0 or the refusal's number.
fn tell_departure(answer: &Answer, node: u32, departure: &mut u64) -> u32
    ensures told { result ≡ 0 → IsNode answer.now.nodes node × IsAskedBy answer.now.target node
        × (time_of departure.new ≡ departure_of answer.now node) }
    ensures refused { result ≢ 0 → departure.new ≡ departure.old }
    ensures asked { IsNode answer.now.nodes node → IsAskedBy answer.now.target node → result ≡ 0 }
{
    if !answer.asks(node) {
        if node == 0 || node > answer.nodes() {
            return NO_SUCH_NODE;
        }
        return NOT_ASKED;
    }
    *departure = departure_in(answer, node);
    DONE
}

/// Writes the latest departure of a node in the answer of a content's search. Returns 0 or the refusal's number.
fn departure_by(content: &Content, node: u32, departure: &mut u64) -> u32
    ensures { IsToldUntil (latest_in (Some content.now)) node departure.old departure.new result }
{
    match content {
        Content::Latest(search) => tell_departure(search.search.answer(), node, departure),
        _ => NO_SEARCH,
    }
}

/// Writes the latest departure of a node that the last query asked for: a time, or 2^64 - 1 if no departure within the horizon is in
/// time. Before the first query no node has one. If the call doesn't return 0, `departure` is unchanged.
#[unsafe(no_mangle)]
pub extern "C" fn earliest_search_departure(
    alloc: Global,
    search: &mut Handle,
    node: u32,
    departure: &mut u64,
) -> u32
    ensures same { search.new.value ≡ search.old.value }
    ensures told { IsToldUntil (latest_in search.old.value) node
        departure.old departure.new result }
{
    let Some(content) = search.take(alloc) else {
        return NO_SEARCH;
    };
    let number = departure_by(&content, node, departure);
    search.put(content);
    number
}

/// Writes the latest departures of all nodes.
fn write_departures(answer: &Answer, out: &mut [u64])
    requires room { length out.old ≡ answer.now.nodes }
    requires asked { (node : ℕ) → IsNode answer.now.nodes node → IsAskedBy answer.now.target node }
    requires nodes { length out.old < 4294967296 }
    ensures length { length out.new ≡ length out.old }
    ensures departures { (node : ℕ) → IsNode answer.now.nodes node →
        time_of (slice_index out.new (node - 1)) ≡ departure_of answer.now node }
{
    for place in 0..out.len() {
        out[place] = departure_in(answer, place as u32 + 1);
    }
}

/// Writes all latest departures of an answer. Returns 0 or the refusal's number.
fn tell_all(answer: &Answer, out: &mut [u64]) -> u32
    ensures told { result ≡ 0 → (node : ℕ) → IsNode answer.now.nodes node →
        time_of (slice_index out.new (node - 1)) ≡ departure_of answer.now node }
    ensures refused { result ≢ 0 → out.new ≡ out.old }
    ensures all { answer.now.nodes ≡ length out.old → 0 < length out.old →
        answer.now.target ≡ None → result ≡ 0 }
{
    if out.len() != answer.nodes() as usize {
        return ROOM_TOO_SMALL;
    }
    if !asks_all(answer) {
        return NOT_ASKED;
    }
    write_departures(answer, out);
    DONE
}

/// Writes all latest departures of the answer of a content's search. Returns 0 or the refusal's number.
fn departures_by(content: &Content, out: &mut [u64]) -> u32
    ensures { AreToldUntil (latest_in (Some content.now)) out.old out.new result }
{
    match content {
        Content::Latest(search) => tell_all(search.search.answer(), out),
        _ => NO_SEARCH,
    }
}

/// Writes the latest departures of all nodes, in their order: `out` needs a place for each node of the road, the first for node 1.
/// 2^64 - 1 means that no departure is in time. The last query must have asked for all nodes. If the call doesn't return 0, `out` is
/// unchanged.
#[unsafe(no_mangle)]
pub extern "C" fn earliest_search_departures(
    alloc: Global,
    search: &mut Handle,
    out: &mut [u64],
) -> u32
    ensures same { search.new.value ≡ search.old.value }
    ensures told { AreToldUntil (latest_in search.old.value) out.old out.new result }
{
    let Some(content) = search.take(alloc) else {
        return NO_SEARCH;
    };
    let number = departures_by(&content, out);
    search.put(content);
    number
}

/// The walk to a target from a node in the answer of a content's search, or the refusal's number.
fn walk_back_by(alloc: Global, content: &Content, node: u32) -> Result<Vec<u32>, u32>
    ensures told { IfOk result (λ walk.
        walks_to (latest_in (Some content.now)) node walk.items) }
    ensures refused { IfErr result (λ number. number ≢ 0) }
{
    match content {
        Content::Latest(search) => match walk_in(alloc, search.search.answer(), node) {
            Ok(walk) => Ok(turned_walk(walk)),
            Err(number) => Err(number),
        },
        _ => Err(NO_SEARCH),
    }
}

/// A walk, last arc first.
fn turned_walk(walk: Vec<u32>) -> Vec<u32>
    ensures { result.items ≡ reverse walk.items }
{
    let mut walk = walk;
    walk.reverse();
    walk
}

/// Writes the canonical walk to a target from a node that the last query asked for: the arc numbers, first arc first, to the start of
/// `out`, and their number to `count`. Else like `earliest_search_walk`.
#[unsafe(no_mangle)]
pub extern "C" fn earliest_search_walk_until(
    alloc: Global,
    search: &mut Handle,
    node: u32,
    out: &mut [u32],
    count: &mut u64,
) -> u32
    ensures same { search.new.value ≡ search.old.value }
    ensures walk { result ≡ 0 →
        IsWalkedTo (latest_in search.old.value) node count.new out.new }
{
    let Some(content) = search.take(alloc) else {
        return NO_SEARCH;
    };
    let walk = walk_back_by(alloc, &content, node);
    search.put(content);
    match walk {
        Ok(walk) => give(&walk, out, count),
        Err(number) => number,
    }
}
