//! The counts of sources, and a run of the most workers.
use crate::ran::{
    Came, Count, Wanted, arrives, assert_right, assert_told, four, has_four, posed, run_all,
    run_plain, singly, wrong_beside,
};
use std::alloc::Global;
use std::test::Fail;
use std::thread::Threads;
use test_support::networks::{FOUR_NODES, Given};

/// Nodes, sources, turns, the arrival at node 4, and the counts.
type Case = (u32, &'static [(u32, u64)], u64, u64, &'static [Wanted]);

/// A run of one worker on four-nodes, or on its arcs among more nodes.
fn run_case<H: Threads + Sync>(alloc: Global, rt: &H, case: &Case) -> Result<Came, Fail> {
    let (nodes, sources, turns, ..) = *case;
    let given = posed(alloc, nodes, &FOUR_NODES, sources)?;
    run_plain(alloc, rt, &given, turns)
}

/// The index of the first wrong count in such a run; the number of counts if the arrival at node 4 is wrong.
fn wrong_of_case<H: Threads + Sync>(
    alloc: Global,
    rt: &H,
    case: &Case,
) -> Result<Option<usize>, Fail> {
    let came = run_case(alloc, rt, case)?;
    let right = arrives(&came.answer, 4, Some(case.3));
    Ok(wrong_beside(&came, right, case.4))
}

const THRICE: &[(u32, u64)] = &[(1, 0), (1, 0), (1, 0)];

const EARLIER: &[(u32, u64)] = &[(1, 9), (1, 4), (1, 5), (1, 0)];

const TEN: &[(u32, u64)] = &[
    (1, 3),
    (2, 3),
    (3, 3),
    (4, 3),
    (5, 3),
    (6, 3),
    (7, 3),
    (8, 3),
    (9, 3),
    (10, 3),
];

const ONCE: &[Wanted] = &[(Count::Seeded, 1), (Count::Handed, 0)];

const THREE: &[Wanted] = &[(Count::Seeded, 3), (Count::Handed, 0)];

const ALL_TEN: &[Wanted] = &[
    (Count::Seeded, 10),
    (Count::Handed, 0),
    (Count::Drained, 10),
];

/// A source that lowers nothing is neither seeded nor returned, as are later sources at one node.
const CASES: [Case; 4] = [
    (4, THRICE, 0, 6, ONCE),
    (4, THRICE, 100, 6, ONCE),
    (4, EARLIER, 100, 6, THREE),
    (10, TEN, 0, 3, ALL_TEN),
];

/// The index of the first case with other counts.
fn wrong_case<H: Threads + Sync>(alloc: Global, rt: &H) -> Result<Option<usize>, Fail> {
    for (place, case) in CASES.iter().enumerate() {
        if wrong_of_case(alloc, rt, case)?.is_some() {
            return Ok(Some(place));
        }
    }
    Ok(None)
}

#[test]
fn sources_are_seeded_where_they_lower_a_label(rt: HostRuntime) -> Result<(), Fail> {
    assert_told(&rt, wrong_case(rt.alloc(), &rt))
}

/// Whether sixteen workers with eight heaps each have the arrivals of the four nodes.
fn run_sixteen<H: Threads + Sync>(alloc: Global, rt: &H, given: &Given) -> Result<bool, Fail> {
    let answer = run_all(alloc, rt, given, singly(16, 8, 1000), 1)?;
    Ok(has_four(&answer))
}

/// The most workers, with the most heaps for each.
#[test]
fn sixteen_workers_with_eight_heaps_each(rt: HostRuntime) -> Result<(), Fail> {
    let given = four(rt.alloc())?;
    assert_right(&rt, "arrivals", run_sixteen(rt.alloc(), &rt, &given))
}
