//! The arrivals in searches' answers.
ghost use Rattle.std.specs.Prelude.{◌≡◌, ◌≢◌, ◌≤◌, ◌<◌, ◌-◌, ℕ, IfOk, IfErr, None, Some, true, IsTrue, length, slice_index};
ghost use Rattle.ea_road.specs.Labels.{time_of};
ghost use Rattle.ea_road.specs.Roads.{IsNode};
ghost use Rattle.ea_road.specs.Queries.{IsAskedBy};
ghost use Rattle.ea_search.specs.Answers.{arrival_of};
ghost use Rattle.ea_capi.specs.Calls.{AreTold, IsTold};
ghost use Rattle.ea_capi.specs.States.{session_in};

use crate::fault_numbers::{DONE, NO_SEARCH, NO_SUCH_NODE, NOT_ASKED, ROOM_TOO_SMALL};
use crate::handle::content::Content;
use crate::handle::handle::Handle;
use ea_paths::Answer;
use ea_road::NONE;
use std::alloc::Global;

/// The label of an asked node: its arrival, or NONE.
pub(crate) fn label_in(answer: &Answer, node: u32) -> u64
    requires node { IsNode answer.now.nodes node }
    requires asked { IsAskedBy answer.now.target node }
    ensures { time_of result ≡ arrival_of answer.now node }
{
    match answer.arrival(node) {
        Some(time) => time,
        None => NONE,
    }
}

/// Writes the arrival at a node in an answer. Returns 0 or the refusal's number.
fn tell_arrival(answer: &Answer, node: u32, arrival: &mut u64) -> u32
    ensures told { result ≡ 0 → IsNode answer.now.nodes node × IsAskedBy answer.now.target node
        × (time_of arrival.new ≡ arrival_of answer.now node) }
    ensures refused { result ≢ 0 → arrival.new ≡ arrival.old }
    ensures asked { IsNode answer.now.nodes node → IsAskedBy answer.now.target node → result ≡ 0 }
{
    if !answer.asks(node) {
        if node == 0 || node > answer.nodes() {
            return NO_SUCH_NODE;
        }
        return NOT_ASKED;
    }
    *arrival = label_in(answer, node);
    DONE
}

/// Writes the arrival at a node in the answer of a content's search. Returns 0 or the refusal's number.
fn arrival_in(content: &Content, node: u32, arrival: &mut u64) -> u32
    ensures { IsTold (session_in (Some content.now)) node arrival.old arrival.new result }
{
    match content {
        Content::Search(session) => tell_arrival(session.search.answer(), node, arrival),
        _ => NO_SEARCH,
    }
}

/// Writes the earliest arrival at a node that the last query asked for: a time, or 2^64 - 1 if no walk
/// reaches the node within the horizon. Before the first query no node is reached. If the call doesn't return
/// 0, `arrival` is unchanged.
#[unsafe(no_mangle)]
pub extern "C" fn earliest_search_arrival(
    alloc: Global,
    search: &mut Handle,
    node: u32,
    arrival: &mut u64,
) -> u32
    ensures same { search.new.value ≡ search.old.value }
    ensures told { IsTold (session_in search.old.value) node arrival.old arrival.new result }
{
    let Some(content) = search.take(alloc) else {
        return NO_SEARCH;
    };
    let number = arrival_in(&content, node, arrival);
    search.put(content);
    number
}

/// Whether the last query asked for all nodes: tests the first and the last.
pub(crate) fn asks_all(answer: &Answer) -> bool
    ensures yes { IsTrue result →
        ((node : ℕ) → IsNode answer.now.nodes node → IsAskedBy answer.now.target node) }
    ensures all { 0 < answer.now.nodes → answer.now.target ≡ None → IsTrue result }
{
    answer.asks(1) && answer.asks(answer.nodes())
}

/// Writes the labels of all nodes.
fn write_labels(answer: &Answer, out: &mut [u64])
    requires { length out.old ≡ answer.now.nodes }
    ensures { (node : ℕ) → IsNode answer.now.nodes node →
        time_of (slice_index out.new (node - 1)) ≡ arrival_of answer.now node }
{
    out.copy_from_slice(answer.labels());
}

/// Writes all arrivals of an answer. Returns 0 or the refusal's number.
fn tell_all(answer: &Answer, out: &mut [u64]) -> u32
    ensures told { result ≡ 0 → (node : ℕ) → IsNode answer.now.nodes node →
        time_of (slice_index out.new (node - 1)) ≡ arrival_of answer.now node }
    ensures refused { result ≢ 0 → out.new ≡ out.old }
    ensures all { answer.now.nodes ≡ length out.old → 0 < length out.old →
        answer.now.target ≡ None → result ≡ 0 }
{
    if out.len() != answer.nodes() as usize {
        return ROOM_TOO_SMALL;
    }
    if !asks_all(answer) {
        return NOT_ASKED;
    }
    write_labels(answer, out);
    DONE
}

/// Writes all arrivals of the answer of a content's search. Returns 0 or the refusal's number.
fn arrivals_in(content: &Content, out: &mut [u64]) -> u32
    ensures { AreTold (session_in (Some content.now)) out.old out.new result }
{
    match content {
        Content::Search(session) => tell_all(session.search.answer(), out),
        _ => NO_SEARCH,
    }
}

/// Writes the earliest arrivals at all nodes, in their order: `out` needs a place for each node of the road,
/// the first for node 1. 2^64 - 1 means that no walk reaches the node within the horizon. The last query must
/// have asked for all nodes. If the call doesn't return 0, `out` is unchanged.
#[unsafe(no_mangle)]
pub extern "C" fn earliest_search_arrivals(
    alloc: Global,
    search: &mut Handle,
    out: &mut [u64],
) -> u32
    ensures same { search.new.value ≡ search.old.value }
    ensures told { AreTold (session_in search.old.value) out.old out.new result }
{
    let Some(content) = search.take(alloc) else {
        return NO_SEARCH;
    };
    let number = arrivals_in(&content, out);
    search.put(content);
    number
}
