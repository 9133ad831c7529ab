//! Runs that end early.
use crate::counted::wrong_until;
use crate::ran::{Count, Wanted, assert_told};
use std::alloc::Global;
use std::test::Fail;
use std::thread::Threads;

const LEFT_AT_TWO: [Wanted; 5] = [
    (Count::Workers, 1),
    (Count::Pushed, 5),
    (Count::Popped, 3),
    (Count::Drained, 3),
    (Count::Finish, 2),
];

/// The first turn such that a run is wrong in which a worker leaves at it.
fn wrong_last<H: Threads + Sync>(alloc: Global, rt: &H) -> Result<Option<usize>, Fail> {
    for last in 0..38u64 {
        let wanted = if last == 2 { &LEFT_AT_TWO[..] } else { &[] };
        if wrong_until(alloc, rt, 100, last, last + 1, wanted)?.is_some() {
            return Ok(Some(last as usize));
        }
    }
    Ok(None)
}

#[test]
fn failing_devices_leaving_at_each_turn(rt: HostRuntime) -> Result<(), Fail> {
    assert_told(&rt, wrong_last(rt.alloc(), &rt))
}

const OF_ONE_TURN: [Wanted; 8] = [
    (Count::Workers, 1),
    (Count::Pushed, 2),
    (Count::Popped, 1),
    (Count::Scanned, 1),
    (Count::Seeded, 1),
    (Count::Handed, 0),
    (Count::Drained, 2),
    (Count::Finish, 2),
];

#[test]
fn failing_devices_budget_of_one(rt: HostRuntime) -> Result<(), Fail> {
    assert_told(&rt, wrong_until(rt.alloc(), &rt, 1, 100, 1, &OF_ONE_TURN))
}
