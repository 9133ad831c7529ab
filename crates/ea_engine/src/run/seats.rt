//! The seats of the workers, and their row.
ghost use Rattle.ea_engine.specs.Reserved.{HaveSeated, MaySeat};
ghost use Rattle.ea_engine.specs.Rows.{IsSeated};
ghost use Rattle.ea_engine.specs.Seated.{tables};
ghost use Rattle.ea_engine.specs.Splits.{HasSplit, MaySplit};

use crate::run::row::{Place, Ready};
use crate::worker::means::{Means, Seats};
use ea_labels::Labels;
use ea_pool::{EntryHeap, Pool};
use ea_road::Known;
use std::alloc::Global;

/// Splits off seats of one share each for this number of workers.
pub fn split_seats<K: Known, E: EntryHeap>(
    labels: &Labels<K>,
    pool: &Pool<K, Global, E>,
    seats: &mut Seats<K, E>,
    count: usize,
    others: &mut Vec<Seats<K, E>>,
)
    requires may { MaySplit (tables labels.now pool.now) count seats.old others.old }
    ensures { HasSplit (tables labels.now pool.now) count seats.old seats.new
        others.old others.new }
{
    for _ in 0..count {
        let pair = Seats {
            label_seat: labels.split(&mut seats.label_seat),
            pool_seat: pool.split(&mut seats.pool_seat),
        };
        others.push_reserved(pair);
    }
}

/// Builds the row: each worker with its seats, its generator and its tracer.
pub fn seat_row<K: Known, E: EntryHeap, R: Drop, F: Drop>(
    seats: Vec<Seats<K, E>>,
    rngs: Vec<R>,
    tracers: Vec<F>,
    row: &mut Vec<Place<K, R, F, E>>,
)
    requires may { MaySeat seats rngs tracers row.old }
    ensures { HaveSeated seats rngs tracers row.new }
{
    let mut seats = seats.into_iter();
    let mut tracers = tracers.into_iter();
    for rng in rngs {
        let Some(tracer) = tracers.next() else {
            unreachable!()
        };
        let Some(pair) = seats.next() else {
            unreachable!()
        };
        row.push_reserved(ready_place(pair, rng, tracer));
    }
}

/// The place of a worker that may start.
fn ready_place<K: Known, E: EntryHeap, R, F>(
    seats: Seats<K, E>,
    rng: R,
    tracer: F,
) -> Place<K, R, F, E>
    ensures { IsSeated seats rng tracer result }
{
    let Seats {
        label_seat,
        pool_seat,
    } = seats;
    Place::Ready(Ready {
        means: Means {
            label_seat,
            pool_seat,
            rng,
        },
        tracer,
    })
}
