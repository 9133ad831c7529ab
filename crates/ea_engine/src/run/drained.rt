//! Draining a closed pool.
ghost use Rattle.std.specs.Prelude.{◌<◌, ◌^◌, length};
ghost use Rattle.ea_engine.specs.Openings.{Drains};
ghost use Rattle.ea_engine.specs.Worked.{AreInside};

use ea_pool::{ClosedPool, EntryHeap};
use ea_search::Open;
use std::alloc::Global;

/// Opens the node of each entry that is left, and returns the number of these entries.
pub fn drain<E: EntryHeap>(mut closed: ClosedPool<Global, E>, todo: &mut Open) -> u128
    requires nodes { AreInside todo.old.nodes closed }
    requires few { length closed < 2 ^ 128 }
    ensures { Drains closed todo.old todo.new result }
{
    let mut drained = 0u128;
    while let Some(entry) = closed.next_of_any() {
        todo.add(entry.node);
        drained += 1;
    }
    drained
}
