//! The arcs of a network in the order of their numbers, as they are stored.
ghost use Rattle.std.specs.Prelude.{◌≡◌, ◌<◌, [], IfOk, Some, length, map, slice_get, true};
ghost use Rattle.ea_road.specs.ArcLists.{AreOfClasses, without_class};
ghost use Rattle.ea_road.specs.Assigned.{AreAssigned, arcs_with};
ghost use Rattle.ea_road.specs.Turned.{turned_arc, turned_raw};

use crate::arc::Arc;
use crate::arcs_of_graph::{class_at, classed_arc, classes_of};
use ea_base::RawArc;
use std::alloc::{AllocError, Global};
use std::marker::Model;

/// Arcs in their order: as they were read, with their classes in a separate list, which is empty if
/// `with_classes` assigned none. In contracts it is the list of the arcs.
#[derive(Drop)]
pub struct ArcList {
    raw: Vec<RawArc>,
    classes: Vec<u32>,
}

impl Model for ArcList {
    ghost use Rattle.std.specs.Prelude.{List};
    ghost use Rattle.ea_road.specs.declared.arc.Arc.{Arc as ArcType};
    ghost use Rattle.ea_road.specs.ArcLists.{arcs_beside};

    ghost Value = { List ArcType };

    ghost view = { λ list. arcs_beside list.classes.items 0 list.raw.items };
}

impl ArcList {
    /// The arcs as they were read, each with the class that is assigned to it last, or class 0. Assigned numbers
    /// must be those of arcs. Fails only if memory for the classes is refused; none is taken if no class is
    /// assigned.
    pub fn with_classes(
        alloc: Global,
        raw: Vec<RawArc>,
        assigned: &[(u32, u32)],
    ) -> Result<ArcList, AllocError>
        requires { AreAssigned (length raw.items) assigned.now }
        ensures { IfOk result (λ list. list ≡ arcs_with assigned.now raw.items) }
    {
        let classes = classes_of(alloc, raw.len(), assigned)?;
        Ok(ArcList { raw, classes })
    }

    /// No arcs. Takes no memory.
    pub fn empty(alloc: Global) -> ArcList
        ensures { result ≡ [] }
    {
        ArcList {
            raw: Vec::new(alloc),
            classes: Vec::new(alloc),
        }
    }

    /// A list of these arcs, without a list of classes if all are plain. Fails only if memory for the list is refused.
    pub fn of(alloc: Global, arcs: &[Arc]) -> Result<ArcList, AllocError>
        ensures { IfOk result (λ list. list ≡ arcs.now) }
    {
        let raw = raw_of(alloc, arcs)?;
        let classes = classes_in(alloc, arcs)?;
        Ok(ArcList { raw, classes })
    }

    /// The list with every arc turned round: from its head to its tail, with its number, weight and class.
    /// Takes no memory.
    pub fn turned(self) -> ArcList
        ensures { result ≡ map turned_arc self }
    {
        let ArcList { mut raw, classes } = self;
        turn(&mut raw);
        ArcList { raw, classes }
    }

    /// The number of arcs.
    pub fn len(&self) -> usize
        ensures { result ≡ length self.now }
    {
        self.raw.len()
    }

    /// The arc at an index, from 0; its number is one more.
    #[inline(always)]
    pub fn at(&self, place: usize) -> Arc
        requires { place < length self.now }
        ensures { slice_get self.now place ≡ Some result }
    {
        classed_arc(self.raw[place], class_at(&self.classes, place))
    }
}

/// Arcs as they would be read, without their classes.
fn raw_of(alloc: Global, arcs: &[Arc]) -> Result<Vec<RawArc>, AllocError>
    ensures { IfOk result (λ raw. raw.items ≡ map without_class arcs.now) }
{
    let mut raw = Vec::with_capacity(alloc, arcs.len())?;
    for arc in arcs {
        raw.push_reserved(RawArc {
            tail: arc.tail,
            head: arc.head,
            weight: arc.weight,
        });
    }
    Ok(raw)
}

/// Whether all arcs have class 0.
fn are_plain(arcs: &[Arc]) -> bool
    ensures { result ≡ true → AreOfClasses [] arcs.now }
{
    for arc in arcs {
        if arc.class != 0 {
            return false;
        }
    }
    true
}

/// The classes of arcs; none if all are 0.
fn classes_in(alloc: Global, arcs: &[Arc]) -> Result<Vec<u32>, AllocError>
    ensures { IfOk result (λ classes. AreOfClasses classes.items arcs.now) }
{
    if are_plain(arcs) {
        return Ok(Vec::new(alloc));
    }
    let mut classes = Vec::with_capacity(alloc, arcs.len())?;
    for arc in arcs {
        classes.push_reserved(arc.class);
    }
    Ok(classes)
}

/// Turns arcs round.
fn turn(arcs: &mut [RawArc])
    ensures { arcs.new ≡ map turned_raw arcs.old }
{
    for arc in arcs.iter_mut() {
        *arc = RawArc {
            tail: arc.head,
            head: arc.tail,
            weight: arc.weight,
        };
    }
}
