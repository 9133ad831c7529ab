//! The arcs of a network, turned round.
ghost use Rattle.std.specs.Prelude.{◌≡◌, IfOk, map};
ghost use Rattle.ea_road.specs.Turned.{turned_arc};

use crate::arc::Arc;
use crate::arc_list::ArcList;
use std::alloc::{AllocError, Global};

/// An arc from its head to its tail.
fn turned(arc: Arc) -> Arc
    ensures { result ≡ turned_arc arc }
{
    Arc {
        tail: arc.head,
        head: arc.tail,
        weight: arc.weight,
        class: arc.class,
    }
}

/// The arcs of a list, each turned round. An error comes only if memory for the list was refused.
pub(crate) fn turned_arcs(alloc: Global, list: &ArcList) -> Result<Vec<Arc>, AllocError>
    ensures { IfOk result (λ arcs. arcs.items ≡ map turned_arc list.now) }
{
    let mut arcs = Vec::with_capacity(alloc, list.len())?;
    for place in 0..list.len() {
        arcs.push(turned(list.at(place)))?;
    }
    Ok(arcs)
}
