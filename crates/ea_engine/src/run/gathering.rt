//! Gathering the workers' results one by one.
ghost use Rattle.std.specs.Prelude.{◌≡◌};
ghost use Rattle.std.specs.Option.{option_to_list};
ghost use Rattle.ea_engine.specs.Grown.{BeginsWith, Joins, MayGather, MayGatherRow, MayJoin};
ghost use Rattle.ea_engine.specs.Openings.{OpensAll, OpensHand};
ghost use Rattle.ea_engine.specs.Rowed.{IsDonePlace, IsFirstEnd, IsGatheredRow};
ghost use Rattle.ea_engine.specs.Seated.{tables};
ghost use Rattle.ea_engine.specs.Worked.{AreInside, IsHandInside};

use crate::run::problem::Posed;
use crate::run::ran::Results;
use crate::run::row::Place;
use crate::run::seeds::Seeds;
use crate::worker::means::Seats;
use crate::worker::turn::Hand;
use crate::worker::work_loop::WorkerEnd;
use ea_labels::Labels;
use ea_pool::{Batch, Entry, EntryHeap, LeastHeap, Pool};
use ea_road::Known;
use ea_search::Open;
use std::alloc::Global;

/// The results of the workers that are done: their seats joined to one of each kind, the nodes of what they
/// hand back, the number of these entries, and what they leave to the caller.
#[derive(Drop)]
pub struct Gathering<K: Known, R, F, E: EntryHeap = LeastHeap<Global>> {
    pub seats: Seats<K, E>,
    pub todo: Open,
    pub returned: u128,
    pub results: Results<R, F>,
}

/// Opens the node of an entry, if there is one.
pub fn keep(todo: &mut Open, entry: Option<Entry>)
    requires { AreInside todo.old.nodes (option_to_list entry) }
    ensures { OpensAll (option_to_list entry) todo.old todo.new }
{
    if let Some(entry) = entry {
        todo.add(entry.node);
    }
}

/// Opens the node of each entry of a batch.
pub fn keep_all(todo: &mut Open, entries: &Batch)
    requires { AreInside todo.old.nodes entries.now.items }
    ensures { OpensAll entries.now.items todo.old todo.new }
{
    for entry in entries.as_slice() {
        todo.add(entry.node);
    }
}

/// Opens the nodes of what a worker hands back.
pub fn keep_hand(todo: &mut Open, hand: &Hand)
    requires { IsHandInside todo.old.nodes hand.now }
    ensures { OpensHand hand.now todo.old todo.new }
{
    keep(todo, hand.popped);
    keep_all(todo, &hand.taken);
    keep_all(todo, &hand.fresh);
}

/// Adds the results of a worker that began with fresh seats.
pub fn join_end<K: Known + Posed, E: EntryHeap, R: Drop, F: Drop>(
    labels: &Labels<K>,
    pool: &Pool<K, Global, E>,
    gathering: &mut Gathering<K, R, F, E>,
    end: WorkerEnd<K, R, F, E>,
)
    requires may { MayJoin K.problem (tables labels.now pool.now) gathering.old end }
    ensures { Joins K.problem (tables labels.now pool.now) end gathering.old gathering.new }
{
    let WorkerEnd {
        label_seat,
        pool_seat,
        hand,
        counters,
        rng,
        tracer,
    } = end;
    labels.join(&mut gathering.seats.label_seat, label_seat);
    pool.join(&mut gathering.seats.pool_seat, pool_seat);
    keep_hand(&mut gathering.todo, &hand);
    gathering.returned += u128::from(counters.returned);
    gathering.results.counters.push_reserved(counters);
    gathering.results.rngs.push_reserved(rng);
    gathering.results.tracers.push_reserved(tracer);
}

/// Begins with the results of the first worker.
pub fn begin_gathering<K: Known + Posed, E: EntryHeap, R: Drop, F: Drop>(
    labels: &Labels<K>,
    pool: &Pool<K, Global, E>,
    end: WorkerEnd<K, R, F, E>,
    seeds: Seeds,
    mut todo: Open,
    mut results: Results<R, F>,
) -> Gathering<K, R, F, E>
    requires end { IsFirstEnd K.problem (tables labels.now pool.now) seeds.seeded todo.waiting end }
    requires gather { MayGather K.problem.network.nodes seeds.returned 1 todo results }
    ensures { BeginsWith K.problem (tables labels.now pool.now) end seeds todo results result }
{
    let WorkerEnd {
        label_seat,
        pool_seat,
        hand,
        counters,
        rng,
        tracer,
    } = end;
    keep_hand(&mut todo, &hand);
    let returned = seeds.returned + u128::from(counters.returned);
    results.counters.push_reserved(counters);
    results.rngs.push_reserved(rng);
    results.tracers.push_reserved(tracer);
    Gathering {
        seats: Seats {
            label_seat,
            pool_seat,
        },
        todo,
        returned,
        results,
    }
}

/// Takes the result of the worker at a place.
fn end_at<K: Known, E: EntryHeap, R: Drop, F: Drop>(
    place: Place<K, R, F, E>,
) -> WorkerEnd<K, R, F, E>
    requires done { IsDonePlace place }
    ensures end { place ≡ Place.Done result }
{
    match place {
        Place::Done(end) => end,
        _ => unreachable!(),
    }
}

/// Gathers the results of all workers of a row.
pub fn gather_row<K: Known + Posed, E: EntryHeap, R: Drop, F: Drop>(
    labels: &Labels<K>,
    pool: &Pool<K, Global, E>,
    row: Vec<Place<K, R, F, E>>,
    seeds: Seeds,
    todo: Open,
    results: Results<R, F>,
) -> Gathering<K, R, F, E>
    requires row { MayGatherRow K.problem (tables labels.now pool.now) row seeds todo results }
    ensures { IsGatheredRow K.problem (tables labels.now pool.now)
        seeds.seeded seeds.returned todo.walks row.items result }
{
    let mut places = row.into_iter();
    let Some(place) = places.next() else {
        unreachable!()
    };
    let mut gathering = begin_gathering(labels, pool, end_at(place), seeds, todo, results);
    for place in places {
        join_end(labels, pool, &mut gathering, end_at(place));
    }
    gathering
}
