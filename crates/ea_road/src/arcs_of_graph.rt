//! The arcs of a graph, with the classes from a timetable file.
ghost use Rattle.std.specs.Prelude.{◌≡◌, ℕ, ◌+◌, ◌<◌, IfOk, length, slice_index};
ghost use Rattle.ea_road.specs.Assigned.{AreAssigned, arcs_with, assigned_of, class_of, classed_arc as spec_arc};

use crate::arc::Arc;
use ea_base::{RawArc, RawGraph, RawTable};
use std::alloc::{AllocError, Global};

/// An arc as it was read, with a class.
#[inline(always)]
pub(crate) fn classed_arc(raw: RawArc, class: u32) -> Arc
    ensures { result ≡ spec_arc raw class }
{
    Arc {
        tail: raw.tail,
        head: raw.head,
        weight: raw.weight,
        class,
    }
}

/// The class at an index, 0 outside the list.
#[inline(always)]
pub(crate) fn class_at(classes: &[u32], place: usize) -> u32
    ensures { result ≡ slice_index classes.now place }
{
    match classes.get(place) {
        Some(class) => *class,
        None => 0,
    }
}

/// The classes of this many arcs: for each arc the last that is assigned to it, or 0. Empty if nothing is
/// assigned.
pub(crate) fn classes_of(
    alloc: Global,
    arcs: usize,
    assigned: &[(u32, u32)],
) -> Result<Vec<u32>, AllocError>
    requires { AreAssigned arcs assigned.now }
    ensures { IfOk result (λ classes. (place : ℕ) → place < arcs
        → slice_index classes.items place ≡ class_of assigned.now (place + 1)) }
{
    if assigned.is_empty() {
        return Ok(Vec::new(alloc));
    }
    let mut classes = vec![in alloc; 0u32; arcs]?;
    for (number, class) in assigned {
        classes[*number as usize - 1] = *class;
    }
    Ok(classes)
}

/// The arcs of a graph in their order. An arc's class is the last that the table assigns to it, or 0.
/// Assigned numbers must be those of arcs. Fails only if memory for the list is refused.
pub fn arcs_of(
    alloc: Global,
    graph: &RawGraph,
    table: Option<&RawTable>,
) -> Result<Vec<Arc>, AllocError>
    requires { AreAssigned (length graph.now.arcs.items) (assigned_of table) }
    ensures { IfOk result (λ arcs.
        arcs.items ≡ arcs_with (assigned_of table.entry) graph.now.arcs.items) }
{
    match table {
        Some(table) => arcs_by(alloc, &graph.arcs, &table.assigned),
        None => arcs_by(alloc, &graph.arcs, &[]),
    }
}

/// Arcs as they were read, with the classes that are assigned to them.
fn arcs_by(alloc: Global, raw: &[RawArc], assigned: &[(u32, u32)]) -> Result<Vec<Arc>, AllocError>
    requires { AreAssigned (length raw.now) assigned.now }
    ensures { IfOk result (λ arcs. arcs.items ≡ arcs_with assigned.now raw.now) }
{
    let classes = classes_of(alloc, raw.len(), assigned)?;
    let mut arcs = Vec::with_capacity(alloc, raw.len())?;
    for place in 0..raw.len() {
        arcs.push_reserved(classed_arc(raw[place], class_at(&classes, place)));
    }
    Ok(arcs)
}
