//! A run of the workers, from the seeds to the condition of the finishing pass.
ghost use Rattle.std.specs.Prelude.{◌≡◌, ◌+◌, ◌*◌, ◌^◌, ◌<◌, ◌∷◌, vec_len};
ghost use Rattle.std.specs.Vec.{vec_capacity};
ghost use Rattle.ea_engine.specs.Grounds.{IsGround, tables_of};
ghost use Rattle.ea_engine.specs.Grown.{MayGatherRow};
ghost use Rattle.ea_engine.specs.Limits.{pace_of};
ghost use Rattle.ea_engine.specs.Problems.{IsPosedOn};
ghost use Rattle.ea_engine.specs.Reserved.{AreArrays, AreReserved, MaySeatAll};
ghost use Rattle.ea_engine.specs.Rowed.{HaveWorked, SeatsWorkers, SettlesRow};
ghost use Rattle.ea_engine.specs.Runs.{HasRun, IsCrew, IsNamedCall};
ghost use Rattle.ea_engine.specs.Seated.{tables, HaveAllShares};
ghost use Rattle.ea_engine.specs.Seeds.{IsSeeding};

use crate::laws::ground_is_laid;
use crate::run::arrays::Arrays;
use crate::run::closing::{Settled, settle};
use crate::run::crew::Crew;
use crate::run::gathering::{Gathering, gather_row};
use crate::run::ground::Ground;
use crate::run::problem::Posed;
use crate::run::ran::{Ran, Results};
use crate::run::row::{Place, run_workers};
use crate::run::seats::{seat_row, split_seats};
use crate::run::seeds::{Seeds, seed_all};
use crate::worker::gate::Gate;
use crate::worker::means::Seats;
use crate::worker::turn::{Flow, Turn};
use ea_labels::Labels;
use ea_pool::{EntryHeap, Pool};
use ea_road::{Known, Network, Query};
use ea_search::Open;
use ea_travel_times::TravelTimes;
use rand_core::Rng;
use std::alloc::Global;
use std::thread::Threads;

/// Seats the workers: the first gets the seats of the seeding, each other a share of both tables.
pub fn seat_workers<K: Known + Posed, E: EntryHeap + Send + Sync, R: Drop, F: Drop>(
    labels: &Labels<K>,
    pool: &Pool<K, Global, E>,
    mut seats: Seats<K, E>,
    mut others: Vec<Seats<K, E>>,
    rngs: Vec<R>,
    tracers: Vec<F>,
    row: &mut Vec<Place<K, R, F, E>>,
)
    requires shares { HaveAllShares (tables labels.now pool.now) seats }
    requires may { MaySeatAll others rngs tracers row.old }
    ensures { SeatsWorkers K.problem (tables labels.now pool.now) seats rngs tracers row.new }
{
    split_seats(labels, pool, &mut seats, rngs.len() - 1, &mut others);
    put_first(&mut others, seats);
    seat_row(others, rngs, tracers, row);
}

/// Inserts a pair of seats at the front; the room is reserved.
fn put_first<K: Known, E: EntryHeap>(seats: &mut Vec<Seats<K, E>>, first: Seats<K, E>)
    requires room { vec_len seats.old < vec_capacity seats.old }
    ensures first { seats.new.items ≡ first ∷ seats.old.items }
{
    match seats.insert(0, first) {
        Ok(()) => {}
        Err(_) => unreachable!(),
    }
}

/// A run before the finishing pass: the table of labels, the open nodes, and how the run went.
#[derive(Drop)]
pub struct Begun<R, F> {
    pub table: Vec<u64>,
    pub todo: Open,
    pub ran: Ran<R, F>,
}

/// Offers the sources, seats the workers, and runs them.
fn work_row<
    H: Threads + Sync,
    K: Known + Posed,
    E: EntryHeap + Send + Sync,
    T: TravelTimes + Sync,
    R: Rng + Send + Drop,
    G: Gate,
    F: FnMut(Turn) -> Flow + Send + Drop,
>(
    rt: &H,
    ground: &Ground<'_, K, T, E>,
    mut seats: Seats<K, E>,
    todo: &mut Open,
    others: Vec<Seats<K, E>>,
    row: &mut Vec<Place<K, R, F, E>>,
    crew: Crew<R, G, F>,
) -> Seeds
    requires ground { IsGround K.is_known K.problem T.answers T.classes ground.now }
    requires reserved { AreReserved (tables_of ground.now) ground.now.labels.now.nodes
        crew.settings.workers seats todo.old others row.old }
    requires crew { IsCrew F.IsAlwaysCallable crew }
    ensures seeding { IsSeeding K.problem.query.sources todo.old todo.new result }
    ensures worked { HaveWorked K.problem (tables_of ground.now) R.stream F.step
        (pace_of crew.entry.settings) result.seeded todo.new.waiting
        crew.entry.rngs.items crew.entry.tracers.items row.new.items }
{
    let Crew {
        settings,
        rngs,
        gate,
        tracers,
    } = crew;
    let seeds = seed_all(ground, &mut seats, todo);
    seat_workers(
        ground.labels,
        ground.pool,
        seats,
        others,
        rngs,
        tracers,
        row,
    );
    run_workers(rt, ground, settings.pace(), gate, row);
    seeds
}

/// Gathers the workers' results, and opens the nodes that are still to be scanned.
fn settle_row<K: Known + Posed, E: EntryHeap, R: Drop, F: Drop>(
    labels: Labels<K>,
    pool: Pool<K, Global, E>,
    row: Vec<Place<K, R, F, E>>,
    seeds: Seeds,
    todo: Open,
    results: Results<R, F>,
) -> Begun<R, F>
    requires posed { IsPosedOn K.is_known K.problem labels.nodes }
    requires row { MayGatherRow K.problem (tables labels pool) row seeds todo results }
    requires small { seeds.seeded + seeds.returned < 2 ^ 64 }
    ensures { SettlesRow K.problem seeds todo.walks row.items result }
{
    let Gathering {
        seats,
        todo,
        returned,
        results,
    } = gather_row(&labels, &pool, row, seeds, todo, results);
    let Settled {
        table,
        todo,
        drained,
    } = settle(labels, pool, seats, todo);
    let ran = Ran {
        seeded: seeds.seeded,
        returned,
        drained,
        finish: todo.len() as u128,
        results,
    };
    Begun { table, todo, ran }
}

/// Runs the workers from the seeds on, joins their seats, and drains the pool. Takes no memory itself.
pub fn run<
    H: Threads + Sync,
    K: Known + Posed,
    E: EntryHeap + Send + Sync,
    T: TravelTimes + Sync,
    R: Rng + Send + Drop,
    G: Gate,
    F: FnMut(Turn) -> Flow + Send + Drop,
>(
    rt: &H,
    network: &Network,
    times: &T,
    query: &Query,
    arrays: Arrays<K, R, F, E>,
    crew: Crew<R, G, F>,
) -> Begun<R, F>
    requires call { IsNamedCall K.is_known K.problem network.now
        (T.answers times.now) (T.classes times.now) query.now F.IsAlwaysCallable crew }
    requires arrays { AreArrays network.now.nodes (crew.settings.workers * crew.settings.heaps)
        crew.settings.workers arrays.todo.walks arrays }
    ensures { HasRun R.stream F.step network.now (T.answers times.now) query.now
        crew.entry arrays.todo.walks result }
{
    let Arrays {
        labels,
        pool,
        seats,
        mut todo,
        others,
        mut row,
        results,
    } = arrays;
    let ground = Ground {
        network,
        times,
        query,
        labels: &labels,
        pool: &pool,
    };
    ground_is_laid(&ground);
    let seeds = work_row(rt, &ground, seats, &mut todo, others, &mut row, crew);
    settle_row(labels, pool, row, seeds, todo, results)
}
