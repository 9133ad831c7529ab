//! A recorded run over the most heaps.
use crate::ran::{assert_right, posed};
use ea_rank::{Event, Record, ranks, record_run};
use ea_road::is_problem;
use std::alloc::Global;
use std::test::Fail;
use test_support::in_turn::InTurn;
use test_support::networks::Given;

/// The record of a run over 128 heaps by two words in turn.
fn record_by_two_words(alloc: Global, given: &Given) -> Result<Record, Fail> {
    let Given {
        network,
        times,
        query,
    } = given;
    if query.target().is_some() || !is_problem(network, times.classes(), query) {
        return Err(Fail::from("problem"));
    }
    let words = InTurn {
        word: 127,
        next: 8_255,
    };
    Ok(record_run(alloc, network, times, query, 128, words)?)
}

const EVENTS: [Event; 6] = [
    Event::Push(0),
    Event::Pop(0),
    Event::Push(5),
    Event::Push(1),
    Event::Pop(5),
    Event::Pop(1),
];

/// Whether a record has the events, and rank errors that are 0, 1 and 0.
fn is_right(alloc: Global, recorded: &Record) -> bool {
    if recorded.events.as_slice() != EVENTS.as_slice() {
        return false;
    }
    match ranks(alloc, recorded) {
        Ok(found) => found.as_slice() == [0, 1, 0].as_slice(),
        Err(_) => false,
    }
}

/// Whether the record of the run is right.
fn is_recorded(alloc: Global, given: &Given) -> Result<bool, Fail> {
    let recorded = record_by_two_words(alloc, given)?;
    Ok(is_right(alloc, &recorded))
}

/// Whether it is on two arcs from one node.
fn are_two_recorded(alloc: Global) -> Result<bool, Fail> {
    let given = posed(alloc, 3, &[(1, 2, 5, 0), (1, 3, 1, 0)], &[(1, 0)])?;
    is_recorded(alloc, &given)
}

/// The heads' entries go to heaps 127 and 63, and the next pop inspects heaps 127 and 0: 8,255 is 0 mod 127
/// and 63 mod 128.
#[test]
fn ranks_over_128_heaps(rt: HostRuntime) -> Result<(), Fail> {
    assert_right(&rt, "events and rank errors", are_two_recorded(rt.alloc()))
}
