//! Networks of crossings and streets: a street is a chain of nodes, with oddities by chance.
use crate::random::number_to;
use ea_road::{Arc, Network};
use rand_core::Rng;
use std::alloc::{AllocError, Global};

/// How streets are made.
#[derive(Clone, Copy)]
pub struct Plan {
    /// The number of crossings in a row, and of rows.
    pub side: u32,
    /// The most nodes inside a street.
    pub longest: u32,
    /// The number of classes of travel times.
    pub classes: u32,
    /// Whether there are one-way streets, loops, parallel arcs and weights of 0.
    pub odd: bool,
}

/// A random arc of a plan.
fn arc_between<R: Rng>(words: &mut R, plan: Plan, tail: u32, head: u32) -> Arc {
    let least = if plan.odd { 1 } else { 0 };
    Arc {
        tail,
        head,
        weight: number_to(words, 16).saturating_sub(least),
        class: number_to(words, plan.classes) - 1,
    }
}

/// Joins two nodes, mostly both ways.
fn join<R: Rng>(
    words: &mut R,
    plan: Plan,
    low: u32,
    high: u32,
    arcs: &mut Vec<Arc>,
) -> Result<(), AllocError> {
    let chance = if plan.odd { number_to(words, 24) } else { 24 };
    if chance > 1 {
        arcs.push(arc_between(words, plan, low, high))?;
    }
    if chance != 2 {
        arcs.push(arc_between(words, plan, high, low))?;
    }
    if chance == 3 {
        arcs.push(arc_between(words, plan, low, high))?;
    }
    if chance == 4 {
        arcs.push(arc_between(words, plan, high, high))?;
    }
    Ok(())
}

/// A street between two crossings. Returns the last node that is numbered.
fn street<R: Rng>(
    words: &mut R,
    plan: Plan,
    ends: (u32, u32),
    last: u32,
    arcs: &mut Vec<Arc>,
) -> Result<u32, AllocError> {
    let inside = if plan.odd {
        number_to(words, plan.longest) - 1
    } else {
        plan.longest
    };
    let mut from = ends.0;
    let mut node = last;
    for _ in 0..inside {
        node = node.saturating_add(1);
        join(words, plan, from, node, arcs)?;
        from = node;
    }
    join(words, plan, from, ends.1, arcs)?;
    Ok(node)
}

/// A grid of streets; none if its nodes are none.
pub fn streets<R: Rng>(
    alloc: Global,
    words: &mut R,
    plan: Plan,
) -> Result<Option<Network>, AllocError> {
    let mut arcs = Vec::new(alloc);
    let crossings = plan.side.saturating_mul(plan.side);
    let mut last = crossings;
    for place in 0..crossings {
        let node = place.saturating_add(1);
        if node % plan.side.max(1) != 0 {
            last = street(words, plan, (node, node.saturating_add(1)), last, &mut arcs)?;
        }
        if node <= crossings - plan.side.min(crossings) {
            last = street(
                words,
                plan,
                (node, node.saturating_add(plan.side)),
                last,
                &mut arcs,
            )?;
        }
    }
    if !Network::fits(last, &arcs) {
        return Ok(None);
    }
    Ok(Some(Network::new(alloc, last, arcs)?))
}
