//! From the workers' seats to the condition of the finishing pass.
ghost use Rattle.ea_engine.specs.Problems.{IsPosedOn};
ghost use Rattle.ea_engine.specs.Rowed.{AreAllJoined, HasSettled};
ghost use Rattle.ea_engine.specs.Seated.{tables};

use crate::run::drained::drain;
use crate::run::problem::Posed;
use crate::worker::means::Seats;
use ea_labels::Labels;
use ea_pool::{EntryHeap, Pool};
use ea_road::Known;
use ea_search::Open;
use std::alloc::Global;

/// A table of labels, and the nodes that are still to be scanned.
#[derive(Drop)]
pub struct Settled {
    pub table: Vec<u64>,
    pub todo: Open,
    /// The number of entries that were left in the pool.
    pub drained: u128,
}

/// Closes both tables, and opens the node of each entry that is left.
pub fn settle<K: Known + Posed, E: EntryHeap>(
    labels: Labels<K>,
    pool: Pool<K, Global, E>,
    seats: Seats<K, E>,
    mut todo: Open,
) -> Settled
    requires posed { IsPosedOn K.is_known K.problem labels.nodes }
    requires joined { AreAllJoined K.problem (tables labels pool) labels.nodes seats todo }
    ensures { HasSettled K.problem seats.pool_seat.account todo result }
{
    let Seats {
        label_seat,
        pool_seat,
    } = seats;
    let table = labels.close(label_seat);
    let closed = pool.close(pool_seat);
    let drained = drain(closed, &mut todo);
    Settled {
        table,
        todo,
        drained,
    }
}
