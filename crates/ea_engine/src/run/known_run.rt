//! A run up to its least arrivals, with the problem and the known pairs named by a type.
ghost use Rattle.std.specs.Prelude.{◌≡◌, ◌↔◌, ◌⊎◌, IsTrue, IfOk};
ghost use Rattle.ea_engine.specs.Runs.{IsEnded, IsNamedCall};

use crate::laws::times_are_fifo;
use crate::run::arrays::Arrays;
use crate::run::crew::Crew;
use crate::run::problem::Posed;
use crate::run::ran::Ran;
use crate::run::workers::{Begun, run};
use crate::settings::Settings;
use crate::worker::gate::Gate;
use crate::worker::turn::{Flow, Turn};
use ea_pool::{Buckets, LeastHeap, OpenHeap};
use ea_road::{Known, Network, Query};
use ea_search::{Finished, finish_in_order};
use ea_travel_times::TravelTimes;
use rand_core::Rng;
use std::alloc::{AllocError, Global};
use std::thread::Threads;

/// A finished run: the table of least arrivals, and how the run went.
#[derive(Drop)]
pub struct Ended<R, F> {
    pub finished: Finished,
    pub ran: Ran<R, F>,
}

/// Runs the workers with one kind of heap, then the finishing pass, which takes open nodes in nearly the
/// order of labels. Reserves the arrays for walks if they are asked for.
fn run_with<
    K: Known + Posed,
    E: OpenHeap<Global> + Send + Sync,
    H: Threads + Sync,
    T: TravelTimes + Sync,
    R: Rng + Send + Drop,
    G: Gate,
    F: FnMut(Turn) -> Flow + Send + Drop,
>(
    alloc: Global,
    rt: &H,
    network: &Network,
    times: &T,
    query: &Query,
    crew: Crew<R, G, F>,
    walks: bool,
) -> Result<Ended<R, F>, AllocError>
    requires call { IsNamedCall K.is_known K.problem network.now
        (T.answers times.now) (T.classes times.now) query.now F.IsAlwaysCallable crew }
    ensures { IfOk result (λ ended. IsEnded R.stream F.step network.now (T.answers times.now)
        query.now crew.entry walks ended) }
{
    times_are_fifo(times);
    let width = network.mean_weight();
    let arrays = Arrays::<K, R, F, E>::reserve(
        alloc,
        network.nodes(),
        width,
        crew.settings,
        walks,
    )?;
    let Begun { table, todo, ran } = run(rt, network, times, query, arrays, crew);
    let finished = finish_in_order(alloc, network, times, query, table, todo);
    Ok(Ended { finished, ran })
}

/// Whether heaps give their least entry first: for batches of one entry, or a single worker.
fn takes_least(settings: Settings) -> bool
    ensures { IsTrue result ↔ ((settings.batch ≡ 1) ⊎ (settings.workers ≡ 1)) }
{
    settings.batch == 1 || settings.workers == 1
}

/// Runs the workers and the finishing pass. Heaps give the least entry first for batches of one entry or a
/// single worker. Otherwise workers take batches from buckets of times, whose windows are about as wide as
/// the mean weight of an arc.
pub fn run_named<
    K: Known + Posed,
    H: Threads + Sync,
    T: TravelTimes + Sync,
    R: Rng + Send + Drop,
    G: Gate,
    F: FnMut(Turn) -> Flow + Send + Drop,
>(
    alloc: Global,
    rt: &H,
    network: &Network,
    times: &T,
    query: &Query,
    crew: Crew<R, G, F>,
    walks: bool,
) -> Result<Ended<R, F>, AllocError>
    requires call { IsNamedCall K.is_known K.problem network.now
        (T.answers times.now) (T.classes times.now) query.now F.IsAlwaysCallable crew }
    ensures { IfOk result (λ ended. IsEnded R.stream F.step network.now (T.answers times.now)
        query.now crew.entry walks ended) }
{
    if takes_least(crew.settings) {
        return run_with::<K, LeastHeap<Global>, H, T, R, G, F>(
            alloc, rt, network, times, query, crew, walks,
        );
    }
    run_with::<K, Buckets<Global>, H, T, R, G, F>(alloc, rt, network, times, query, crew, walks)
}
