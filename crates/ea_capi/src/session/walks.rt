//! The walks of searches.
ghost use Rattle.std.specs.Prelude.{◌≡◌, ◌≢◌, ◌≤◌, ℕ, IfOk, IfErr, None, Some, length, take};
ghost use Rattle.ea_search.specs.Answers.{walk_of};
ghost use Rattle.ea_capi.specs.Calls.{IsWalked, IsWhyNot, walks_told};
ghost use Rattle.ea_capi.specs.States.{session_in};

use crate::fault_numbers::{
    DONE, NO_SEARCH, NO_SUCH_NODE, NO_WALKS, NOT_ASKED, NOT_REACHED, OUT_OF_MEMORY, ROOM_TOO_SMALL,
};
use crate::handle::content::Content;
use crate::handle::handle::Handle;
use ea_paths::Answer;
use std::alloc::Global;

/// The walk to a node in an answer, or the refusal's number.
pub(crate) fn walk_in(alloc: Global, answer: &Answer, node: u32) -> Result<Vec<u32>, u32>
    ensures told { IfOk result (λ walk. walk_of answer.now node ≡ Some walk.items) }
    ensures refused { IfErr result (IsWhyNot answer.now node) }
{
    if !answer.asks(node) {
        if node == 0 || node > answer.nodes() {
            return Err(NO_SUCH_NODE);
        }
        return Err(NOT_ASKED);
    }
    if !answer.has_walks() {
        return Err(NO_WALKS);
    }
    match answer.walk(alloc, node) {
        Ok(Some(walk)) => Ok(walk),
        Ok(None) => Err(NOT_REACHED),
        Err(_) => Err(OUT_OF_MEMORY),
    }
}

/// The walk to a node in the answer of a content's search, or the refusal's number.
fn walk_by(alloc: Global, content: &Content, node: u32) -> Result<Vec<u32>, u32>
    ensures told { IfOk result (λ walk.
        walks_told (session_in (Some content.now)) node walk.items) }
    ensures refused { IfErr result (λ number. number ≢ 0) }
{
    match content {
        Content::Search(session) => walk_in(alloc, session.search.answer(), node),
        _ => Err(NO_SEARCH),
    }
}

/// Writes a list to the start of a longer one.
fn write(list: &[u32], out: &mut [u32])
    requires { length list.now ≤ length out.old }
    ensures { take (length list.now) out.new ≡ list.now }
{
    out[..list.len()].copy_from_slice(list);
}

/// Writes a walk's length, and the walk if it fits.
pub(crate) fn give(walk: &[u32], out: &mut [u32], count: &mut u64) -> u32
    ensures count { count.new ≡ length walk.now }
    ensures walk { result ≡ 0 → take (length walk.now) out.new ≡ walk.now }
    ensures fits { length walk.now ≤ length out.old → result ≡ 0 }
{
    *count = walk.len() as u64;
    if walk.len() > out.len() {
        return ROOM_TOO_SMALL;
    }
    write(walk, out);
    DONE
}

/// Writes the canonical walk to a node that the last query asked for: the arc numbers, first arc first, to
/// the start of `out`, and their number to `count`. A source at its own departure has the empty walk.
///
/// If `out` is too short, `count` gets the length that is needed. If the call returns another number than 0,
/// `out` and `count` are unchanged.
#[unsafe(no_mangle)]
pub extern "C" fn earliest_search_walk(
    alloc: Global,
    search: &mut Handle,
    node: u32,
    out: &mut [u32],
    count: &mut u64,
) -> u32
    ensures same { search.new.value ≡ search.old.value }
    ensures walk { result ≡ 0 →
        IsWalked (session_in search.old.value) node count.new out.new }
{
    let Some(content) = search.take(alloc) else {
        return NO_SEARCH;
    };
    let walk = walk_by(alloc, &content, node);
    search.put(content);
    match walk {
        Ok(walk) => give(&walk, out, count),
        Err(number) => number,
    }
}
