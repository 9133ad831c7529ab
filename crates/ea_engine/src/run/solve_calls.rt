//! Earliest arrivals by several threads.
ghost use Rattle.std.specs.Prelude.{◌≡◌, ℕ, ◌↔◌, true, false, IfOk, All, vec_len};
ghost use Rattle.ea_travel_times.specs.Answers.{IsFifoFunction};
ghost use Rattle.ea_road.specs.Queries.{IsProblem};
ghost use Rattle.ea_search.specs.Answers.{HasArrivals, IsAnswer};
ghost use Rattle.ea_engine.specs.Limits.{AreSettings};
ghost use Rattle.ea_engine.specs.Runs.{IsRunOf, ran_of, solved_of};

use crate::run::crew::Crew;
use crate::run::known_run::{Ended, run_named};
use crate::run::ran::{Ran, Results};
use crate::run::solved::Solved;
use crate::worker::gate::Gate;
use crate::worker::turn::{Flow, Turn};
use ea_paths::{Answer, unwind, without_walks};
use ea_road::{Network, Query};
use ea_travel_times::{ArrivalFunction, Profiles, TravelTimes};
use rand_core::Rng;
use std::alloc::{AllocError, Global};
use std::marker::Brand;
use std::thread::Threads;

impl<R, T> Solved<R, T> {
    // The answer, and how the run went.
    fn of(answer: Answer, ran: Ran<R, T>) -> Solved<R, T>
        ensures { result ≡ solved_of answer ran }
    {
        let Ran {
            seeded,
            returned,
            drained,
            finish,
            results,
        } = ran;
        let Results {
            counters,
            rngs,
            tracers,
        } = results;
        Solved {
            answer,
            seeded,
            returned,
            drained,
            finish,
            counters,
            rngs,
            tracers,
        }
    }
}

/// The earliest arrivals of a query and their canonical walks, by several threads that search and one that
/// finishes.
///
/// Each worker of the crew has a random generator and a tracer that sees its turns; the gate is called before
/// each turn. The answer is one thread's for all random words, numbers of workers, turns, gates and tracers.
///
/// Workers share heaps as in MultiQueues (Rihani, Sanders, Dementiev 2015). They correct labels, a method
/// that Dreyfus appraised for travel times that depend on the departure (Operations Research 17, 1969).
///
/// Fails only if memory for the arrays is refused, before the first worker starts; then generators and
/// tracers are dropped. A thread that can't be started is no error.
pub fn solve<
    H: Threads + Sync,
    T: TravelTimes + Sync,
    R: Rng + Send + Drop,
    G: Gate,
    F: FnMut(Turn) -> Flow + Send + Drop,
>(
    alloc: Global,
    rt: &H,
    network: &Network,
    times: &T,
    query: &Query,
    crew: Crew<R, G, F>,
) -> Result<Solved<R, F>, AllocError>
    requires problem { IsProblem network.now (T.classes times.now) query.now }
    requires settings { AreSettings crew.settings }
    requires workers { (vec_len crew.rngs ≡ crew.settings.workers)
        × (vec_len crew.tracers ≡ crew.settings.workers) }
    requires tracers { All F.IsAlwaysCallable crew.tracers.items }
    ensures answer { IfOk result (λ solved.
        IsAnswer network.now (T.answers times.now) query.now solved.answer) }
    ensures run { IfOk result (λ solved.
        IsRunOf R.stream F.step network.now (T.answers times.now) query.now
        crew.entry (ran_of solved)) }
{
    let Ended { finished, ran } = run_named::<Brand, H, T, R, G, F>(
        alloc, rt, network, times, query, crew, true,
    )?;
    let answer = unwind(network, times, query, finished);
    Ok(Solved::of(answer, ran))
}

/// Like `solve`, without walks: saves the search for levels and its arrays.
pub fn solve_arrivals<
    H: Threads + Sync,
    T: TravelTimes + Sync,
    R: Rng + Send + Drop,
    G: Gate,
    F: FnMut(Turn) -> Flow + Send + Drop,
>(
    alloc: Global,
    rt: &H,
    network: &Network,
    times: &T,
    query: &Query,
    crew: Crew<R, G, F>,
) -> Result<Solved<R, F>, AllocError>
    requires problem { IsProblem network.now (T.classes times.now) query.now }
    requires settings { AreSettings crew.settings }
    requires workers { (vec_len crew.rngs ≡ crew.settings.workers)
        × (vec_len crew.tracers ≡ crew.settings.workers) }
    requires tracers { All F.IsAlwaysCallable crew.tracers.items }
    ensures answer { IfOk result (λ solved.
        HasArrivals network.now (T.answers times.now) query.now solved.answer) }
    ensures none { IfOk result (λ solved. solved.answer.walks ≡ false) }
    ensures run { IfOk result (λ solved.
        IsRunOf R.stream F.step network.now (T.answers times.now) query.now
        crew.entry (ran_of solved)) }
{
    let Ended { finished, ran } = run_named::<Brand, H, T, R, G, F>(
        alloc, rt, network, times, query, crew, false,
    )?;
    let answer = without_walks(network, times, query, finished);
    Ok(Solved::of(answer, ran))
}

/// `solve` with a caller's closure from class, weight and departure to the arrival, for classes up to the
/// greatest.
pub fn solve_by<
    H: Threads + Sync,
    C: ArrivalFunction + Sync + Drop,
    R: Rng + Send + Drop,
    G: Gate,
    F: FnMut(Turn) -> Flow + Send + Drop,
>(
    alloc: Global,
    rt: &H,
    network: &Network,
    closure: C,
    classes: u32,
    query: &Query,
    crew: Crew<R, G, F>,
) -> Result<Solved<R, F>, AllocError>
    requires fifo { IsFifoFunction (C.may closure) (C.answers closure) classes }
    requires problem { IsProblem network.now classes query.now }
    requires settings { AreSettings crew.settings }
    requires workers { (vec_len crew.rngs ≡ crew.settings.workers)
        × (vec_len crew.tracers ≡ crew.settings.workers) }
    requires tracers { All F.IsAlwaysCallable crew.tracers.items }
    ensures answer { IfOk result (λ solved. IsAnswer network.now
        (λ class weight departure arrival. ∥ C.answers closure class weight departure arrival ∥₁)
        query.now solved.answer) }
    ensures run { IfOk result (λ solved. IsRunOf R.stream F.step network.now
        (λ class weight departure arrival. ∥ C.answers closure class weight departure arrival ∥₁)
        query.now crew.entry (ran_of solved)) }
{
    let profiles = Profiles::new(closure, classes);
    solve(alloc, rt, network, &profiles, query, crew)
}
