//! A network large enough for a layout to pay.
use crate::compared::{Count, NOTHING, assert_alike, compare_arrivals};
use ea_layout::Layout;
use ea_road::{Arc, Network, Query, Source, is_problem};
use ea_travel_times::Timetables;
use rand_core::{Rng, SeedableRng};
use rand_xoshiro::Xoshiro256PlusPlus;
use std::alloc::{AllocError, Global};
use std::test::Fail;

/// The number of nodes in a row of the grid.
const SIDE: usize = 300;

/// The number of its nodes.
const NODES: usize = 90_000;

/// The numbers from 1 on, in order.
fn in_order(alloc: Global) -> Result<Vec<u32>, AllocError> {
    let mut numbers = Vec::new(alloc);
    for place in 0..NODES as u32 {
        numbers.push(place.wrapping_add(1))?;
    }
    Ok(numbers)
}

/// Puts numbers in another order.
fn shuffle<R: Rng>(words: &mut R, numbers: &mut [u32]) {
    for place in 0..numbers.len() {
        let other = (words.next_u64() % NODES as u64) as usize;
        if other < numbers.len() {
            numbers.swap(place, other);
        }
    }
}

/// The number at a place, or 1.
fn number_at(numbers: &[u32], place: usize) -> u32 {
    match numbers.get(place) {
        Some(number) => *number,
        None => 1,
    }
}

/// Adds arcs both ways between two places.
fn join<R: Rng>(
    words: &mut R,
    numbers: &[u32],
    one: usize,
    other: usize,
    arcs: &mut Vec<Arc>,
) -> Result<(), AllocError> {
    let tail = number_at(numbers, one);
    let head = number_at(numbers, other);
    for (tail, head) in [(tail, head), (head, tail)] {
        arcs.push(Arc {
            tail,
            head,
            weight: (words.next_u64() % 100) as u32,
            class: 0,
        })?;
    }
    Ok(())
}

/// A grid whose nodes have these numbers, row by row; none if they don't fit.
fn grid<R: Rng>(
    alloc: Global,
    words: &mut R,
    numbers: &[u32],
) -> Result<Option<Network>, AllocError> {
    let mut arcs = Vec::new(alloc);
    for place in 0..NODES {
        let next = place.wrapping_add(1);
        let below = place.wrapping_add(SIDE);
        if next % SIDE != 0 {
            join(words, numbers, place, next, &mut arcs)?;
        }
        if below < NODES {
            join(words, numbers, place, below, &mut arcs)?;
        }
    }
    if !Network::fits(NODES as u32, &arcs) {
        return Ok(None);
    }
    Ok(Some(Network::new(alloc, NODES as u32, arcs)?))
}

/// Whether a layout pays, or all nodes would be searched on it, on a grid in order; and whether both hold on one whose nodes are numbered at
/// random.
fn pays(alloc: Global) -> Result<(bool, bool), AllocError> {
    let mut words = Xoshiro256PlusPlus::seed_from_u64(7);
    let mut numbers = in_order(alloc)?;
    let Some(ordered) = grid(alloc, &mut words, &numbers)? else {
        return Ok((true, false));
    };
    shuffle(&mut words, &mut numbers);
    let Some(shuffled) = grid(alloc, &mut words, &numbers)? else {
        return Ok((true, false));
    };
    let one = Layout::of(alloc, &ordered)?.is_some();
    let other = Layout::of(alloc, &shuffled)?.is_some();
    let for_all = Layout::new(alloc, &ordered)?.is_for_all;
    let other_for_all = Layout::over(alloc, &shuffled, &numbers)?.is_for_all;
    Ok((one || for_all, other && other_for_all))
}

/// Compares answers on a grid whose nodes are numbered at random.
fn compared(alloc: Global) -> Result<Count, AllocError> {
    let mut words = Xoshiro256PlusPlus::seed_from_u64(8);
    let mut count = NOTHING;
    let mut numbers = in_order(alloc)?;
    shuffle(&mut words, &mut numbers);
    let times = Timetables::new(Vec::new(alloc));
    let Some(network) = grid(alloc, &mut words, &numbers)? else {
        return Ok(count);
    };
    let source = Source {
        node: 1,
        departure: 60,
    };
    let all = Query::from_one(source);
    let pair = Query::pair(source, 5);
    if is_problem(&network, times.classes(), &all) && is_problem(&network, times.classes(), &pair) {
        compare_arrivals(alloc, &network, &times, &all, &pair, &mut count)?;
    }
    Ok(count)
}

#[test]
fn layout_pays_in_large_networks_of_far_arcs(rt: HostRuntime) -> Result<(), Fail> {
    let (ordered, shuffled) = pays(rt.alloc())?;
    assert_eq!(rt; (ordered, shuffled), (false, true));
    Ok(())
}

#[test]
fn answers_on_a_large_network(rt: HostRuntime) -> Result<(), Fail> {
    assert_alike(&rt, compared(rt.alloc())?);
    Ok(())
}
