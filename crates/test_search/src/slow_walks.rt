//! Walks on many small networks, compared with a slow search that follows the definition.
ghost use Rattle.std.specs.Prelude.{◌<◌};

use crate::alone::from_sources;
use crate::asserts::assert_that;
use ea_paths::*;
use ea_road::NONE;
use ea_search::*;
use std::alloc::{AllocError, Global};
use std::test::Fail;
use test_support::networks::Row;

/// The next of a sequence of random words.
fn word(state: &mut u64) -> u64 {
    *state = state.wrapping_add(0x9E37_79B9_7F4A_7C15);
    let mut z = *state;
    z = (z ^ (z >> 30)).wrapping_mul(0xBF58_476D_1CE4_E5B9);
    z = (z ^ (z >> 27)).wrapping_mul(0x94D0_49BB_1331_11EB);
    z ^ (z >> 31)
}

/// The arrival by an arc: class 0 is plain, class 1 leaves every 10, class 2 every 100.
fn arrives_at(row: Row, departure: u64) -> u64 {
    let (_, _, weight, class) = row;
    let period = match class {
        1 => 10,
        2 => 100,
        _ => 1,
    };
    let late = departure % period;
    let wait = if late == 0 { 0 } else { period - late };
    departure
        .saturating_add(wait)
        .saturating_add(u64::from(weight))
}

/// An item of a list, or the greatest number.
fn at(list: &[u64], place: u32) -> u64 {
    match list.get(place as usize) {
        Some(item) => *item,
        None => NONE,
    }
}

fn put(list: &mut [u64], place: u32, item: u64) {
    if let Some(old) = list.get_mut(place as usize) {
        *old = item;
    }
}

/// The labels of the nodes, with an unused place 0: each arc is tried as often as there are nodes.
fn labels_of(
    alloc: Global,
    nodes: u32,
    rows: &[Row],
    sources: &[(u32, u64)],
) -> Result<Vec<u64>, AllocError> {
    let mut labels = vec![in alloc; NONE; nodes as usize + 1]?;
    for (node, departure) in sources {
        let earliest = at(&labels, *node).min(*departure);
        put(&mut labels, *node, earliest);
    }
    for _ in 0..nodes {
        for row in rows {
            let (tail, head, _, _) = *row;
            let departure = at(&labels, tail);
            if departure < NONE {
                let earliest = at(&labels, head).min(arrives_at(*row, departure));
                put(&mut labels, head, earliest);
            }
        }
    }
    Ok(labels)
}

/// Whether an arc leads from its tail's label to its head's.
fn is_tight(labels: &[u64], row: Row) -> bool {
    let (tail, head, _, _) = row;
    let departure = at(labels, tail);
    departure < NONE && at(labels, head) == arrives_at(row, departure)
}

/// The levels of the nodes, with an unused place 0.
fn levels_of(
    alloc: Global,
    rows: &[Row],
    sources: &[(u32, u64)],
    labels: &[u64],
) -> Result<Vec<u64>, AllocError> {
    let mut levels = vec![in alloc; NONE; labels.len()]?;
    for (node, departure) in sources {
        if at(labels, *node) == *departure {
            put(&mut levels, *node, 0);
        }
    }
    for _ in 0..labels.len() {
        for row in rows {
            let (tail, head, _, _) = *row;
            if is_tight(labels, *row) {
                let lowest = at(&levels, head).min(at(&levels, tail).saturating_add(1));
                put(&mut levels, head, lowest);
            }
        }
    }
    Ok(levels)
}

/// The arcs of a node's canonical walk, last arc first: each is the first tight arc in the list from one
/// level below.
fn walk_back(
    alloc: Global,
    rows: &[Row],
    labels: &[u64],
    levels: &[u64],
    node: u32,
) -> Result<Vec<u32>, AllocError> {
    let mut walk = Vec::new(alloc);
    let mut end = node;
    for _ in 0..labels.len() {
        let mut number = 0u32;
        let mut found = (0, 0);
        for row in rows {
            let (tail, head, _, _) = *row;
            number = number.saturating_add(1);
            let below = at(levels, tail).saturating_add(1) == at(levels, end);
            if found.0 == 0 && head == end && below && is_tight(labels, *row) {
                found = (number, tail);
            }
        }
        if at(levels, end) > 0 && found.0 > 0 {
            walk.push(found.0)?;
            end = found.1;
        }
    }
    Ok(walk)
}

/// The arcs of a node's canonical walk, first arc first.
fn slow_walk(
    alloc: Global,
    rows: &[Row],
    labels: &[u64],
    levels: &[u64],
    node: u32,
) -> Result<Vec<u32>, AllocError> {
    let mut walk = walk_back(alloc, rows, labels, levels, node)?;
    walk.reverse();
    Ok(walk)
}

/// Whether an answer has this walk to a node, or none if the node is not reached.
fn has_walk(
    alloc: Global,
    answer: &Answer,
    node: u32,
    slow: &[u32],
    is_reached: bool,
) -> Result<bool, AllocError> {
    if !answer.asks(node) || !answer.has_walks() {
        return Ok(false);
    }
    match answer.walk(alloc, node)? {
        Some(walk) => Ok(walk.as_slice() == slow),
        None => Ok(!is_reached),
    }
}

/// Whether an answer has a node's arrival and walk of the slow search.
fn is_right_at(
    alloc: Global,
    answer: &Answer,
    rows: &[Row],
    labels: &[u64],
    levels: &[u64],
    node: u32,
) -> Result<bool, AllocError> {
    if !answer.asks(node) || answer.arrival(node).unwrap_or(NONE) != at(labels, node) {
        return Ok(false);
    }
    let slow = slow_walk(alloc, rows, labels, levels, node)?;
    has_walk(alloc, answer, node, &slow, at(labels, node) != NONE)
}

/// Whether an answer has the arrivals and walks of the slow search, which has these labels and levels.
fn are_right_at(
    alloc: Global,
    answer: &Answer,
    rows: &[Row],
    labels: &[u64],
    levels: &[u64],
) -> Result<bool, AllocError> {
    for place in 0..answer.nodes() {
        if !is_right_at(alloc, answer, rows, labels, levels, place + 1)? {
            return Ok(false);
        }
    }
    Ok(true)
}

/// Whether an answer has the arrivals and walks of the slow search, which has these labels.
fn is_right_by(
    alloc: Global,
    answer: &Answer,
    rows: &[Row],
    sources: &[(u32, u64)],
    labels: &[u64],
) -> Result<bool, AllocError> {
    let levels = levels_of(alloc, rows, sources, labels)?;
    are_right_at(alloc, answer, rows, labels, &levels)
}

/// Whether an answer has the arrivals and walks of the slow search.
fn is_right(
    alloc: Global,
    answer: &Answer,
    rows: &[Row],
    sources: &[(u32, u64)],
) -> Result<bool, AllocError> {
    let labels = labels_of(alloc, answer.nodes(), rows, sources)?;
    is_right_by(alloc, answer, rows, sources, &labels)
}

/// Rows between this many nodes, with weights below a bound and classes from 0 to 2; there are loops and
/// parallel arcs.
fn rows_of(
    alloc: Global,
    state: &mut u64,
    nodes: u32,
    arcs: u32,
    weights: u32,
) -> Result<Vec<Row>, AllocError>
    requires nodes { 0 < nodes }
    requires weights { 0 < weights }
{
    let mut rows = Vec::new(alloc);
    for _ in 0..arcs {
        let tail = (word(state) % u64::from(nodes)) as u32;
        let head = (word(state) % u64::from(nodes)) as u32;
        let weight = (word(state) % u64::from(weights)) as u32;
        let class = (word(state) % 3) as u32;
        rows.push((tail + 1, head + 1, weight, class))?;
    }
    Ok(rows)
}

/// Whether there is a right answer for these rows and sources.
fn is_answered(
    alloc: Global,
    nodes: u32,
    rows: &[Row],
    sources: &[(u32, u64)],
) -> Result<bool, AllocError> {
    match from_sources(alloc, nodes, rows, sources)? {
        Some(answer) => is_right(alloc, &answer, rows, sources),
        None => Ok(false),
    }
}

/// Whether this many random networks have right walks.
fn are_right(
    alloc: Global,
    seeds: u32,
    nodes: u32,
    arcs: u32,
    weights: u32,
) -> Result<bool, AllocError>
    requires nodes { 3 < nodes }
    requires weights { 0 < weights }
{
    let mut state = u64::from(weights);
    for _ in 0..seeds {
        let rows = rows_of(alloc, &mut state, nodes, arcs, weights)?;
        let late = word(&mut state) % 7;
        if !is_answered(
            alloc,
            nodes,
            &rows,
            &[(1, late), (2, 0), (2, 5), (nodes, 3)],
        )? {
            return Ok(false);
        }
    }
    Ok(true)
}

#[test]
fn walks_over_weights_with_ties(rt: HostRuntime) -> Result<(), Fail> {
    let alloc = rt.alloc();
    assert_that(&rt, "below 3", are_right(alloc, 150, 9, 24, 3)?);
    assert_that(&rt, "below 6", are_right(alloc, 60, 12, 20, 6)?);
    assert_that(&rt, "below 40", are_right(alloc, 20, 20, 60, 40)?);
    Ok(())
}

#[test]
fn walks_over_no_weights(rt: HostRuntime) -> Result<(), Fail> {
    assert_that(&rt, "below 1", are_right(rt.alloc(), 100, 8, 18, 1)?);
    Ok(())
}
