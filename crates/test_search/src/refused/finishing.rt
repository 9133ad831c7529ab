// Each allocation of one thread's engine, refused in turn.
ghost use Rattle.std.specs.Prelude.{◌≡◌};

use crate::alone::{Alone, answer_alone, four_answered, walks};
use crate::asserts::{assert_none_wrong, assert_that};
use crate::refused::given::{ARRIVALS, fared, four_nodes, from_first};
use ea_paths::Answer;
use ea_road::{Network, Query};
use ea_search::Open;
use std::alloc::{AllocError, Global};
use std::test::Fail;
use test_support::memory::{Held, pieces};
use test_support::tally::Tally;

/// Whether an answer has the arrivals of the four nodes.
pub fn has_four(answer: &Answer) -> bool {
    let mut right = answer.nodes() == 4;
    for node in 1..5u32 {
        right &= answer.asks(node) && answer.arrival(node) == Some(ARRIVALS[node as usize - 1]);
    }
    right
}

/// How many of eight nodes a worklist has after they were added.
fn added(mut todo: Open) -> usize
    requires { todo.nodes ≡ 8 }
{
    for node in 1..9u32 {
        todo.add(node);
    }
    todo.len()
}

/// Whether a worklist of eight nodes that is made with such a piece left has room for all without more
/// memory; none if it was refused.
fn has_room(alloc: Global, walks: bool, small: &mut Held, piece: Vec<u8>) -> Option<bool> {
    small.leave(piece);
    let answer = if walks {
        Open::reserve(alloc, 8)
    } else {
        Open::reserve_without_walks(alloc, 8)
    };
    small.take_all();
    let came = match answer {
        Ok(todo) => Some(added(todo) == 8),
        Err(_) => None,
    };
    small.release();
    came
}

/// How worklists fare with ever more memory.
fn fare_with_worklists(alloc: Global, walks: bool) -> Result<Tally, AllocError> {
    let mut tally = Tally::new();
    let mut small = Held::new(alloc, 20_000)?;
    let pieces = pieces(alloc, 0, 24, 32)?;
    let mut large = Held::of_large(alloc, 1)?;
    for piece in pieces {
        tally.note(has_room(alloc, walks, &mut small, piece), true);
    }
    large.release();
    Ok(tally)
}

/// Whether a worklist is for walks, and how often it is refused at least.
const WORKLISTS: [(bool, u32); 2] = [(true, 3), (false, 2)];

/// The first worklist that fares other than expected.
fn wrong_worklist(alloc: Global) -> Result<Option<usize>, AllocError> {
    for (place, (walks, least)) in WORKLISTS.iter().enumerate() {
        if !fared(fare_with_worklists(alloc, *walks)?, *least, 2) {
            return Ok(Some(place));
        }
    }
    Ok(None)
}

#[test]
fn worklist_is_refused_or_whole(rt: HostRuntime) -> Result<(), Fail> {
    assert_none_wrong(&rt, wrong_worklist(rt.alloc())?);
    Ok(())
}

/// Whether a call's answer is right with such a piece left; none if it was refused.
fn answers(
    alloc: Global,
    call: Alone,
    network: &Network,
    query: &Query,
    small: &mut Held,
    piece: Vec<u8>,
) -> Option<bool> {
    small.leave(piece);
    let answer = answer_alone(alloc, call, network, query);
    small.release();
    let walks = call == Alone::Walks || call == Alone::WalksBy;
    match answer {
        Ok(Some(answer)) => Some(has_four(&answer) && answer.has_walks() == walks),
        Ok(None) => Some(false),
        Err(_) => None,
    }
}

/// How a call fares with ever more memory.
fn fare_with_answers(
    alloc: Global,
    call: Alone,
    network: &Network,
    query: &Query,
) -> Result<Tally, AllocError> {
    let mut tally = Tally::new();
    let mut small = Held::new(alloc, 20_000)?;
    let pieces = pieces(alloc, 0, 32, 96)?;
    let mut large = Held::of_large(alloc, 1)?;
    for piece in pieces {
        tally.note(
            answers(alloc, call, network, query, &mut small, piece),
            true,
        );
    }
    large.release();
    Ok(tally)
}

const CALLS: [Alone; 4] = [
    Alone::Walks,
    Alone::Arrivals,
    Alone::WalksBy,
    Alone::ArrivalsBy,
];

/// The first call that fares other than expected in a network.
fn wrong_call_in(
    alloc: Global,
    network: &Network,
    query: &Query,
) -> Result<Option<usize>, AllocError> {
    for (place, call) in CALLS.iter().enumerate() {
        if !fared(fare_with_answers(alloc, *call, network, query)?, 4, 2) {
            return Ok(Some(place));
        }
    }
    Ok(None)
}

/// The first call that fares other than expected in the network of the four nodes; the first one if there is
/// no network.
fn wrong_call(alloc: Global) -> Result<Option<usize>, AllocError> {
    match four_nodes(alloc)? {
        Some(network) => wrong_call_in(alloc, &network, &from_first()),
        None => Ok(Some(0)),
    }
}

#[test]
fn answer_is_refused_or_right(rt: HostRuntime) -> Result<(), Fail> {
    assert_none_wrong(&rt, wrong_call(rt.alloc())?);
    Ok(())
}

/// Whether there is a walk to node 4, which is refused without memory.
fn is_refused(alloc: Global, answer: &Answer) -> Result<bool, AllocError> {
    if !answer.asks(4) || !answer.has_walks() {
        return Ok(false);
    }
    let mut held = Held::of_large(alloc, 1)?;
    held.take_all();
    let refused = answer.walk(alloc, 4).is_err();
    held.release();
    Ok(refused)
}

/// Whether the walk to node 4 is refused without memory, and right with it.
fn is_refused_or_right(alloc: Global, answer: &Answer) -> Result<bool, AllocError> {
    if !is_refused(alloc, answer)? {
        return Ok(false);
    }
    walks(alloc, answer, 4, &[2, 3, 4])
}

/// Whether the walk to the last of the four nodes is refused or right.
fn last_walk_fares(alloc: Global) -> Result<bool, AllocError> {
    match four_answered(alloc, Alone::Walks)? {
        Some(answer) => is_refused_or_right(alloc, &answer),
        None => Ok(false),
    }
}

#[test]
fn walk_is_refused_or_right(rt: HostRuntime) -> Result<(), Fail> {
    assert_that(&rt, "the walk to node 4", last_walk_fares(rt.alloc())?);
    Ok(())
}
