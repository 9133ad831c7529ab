//! Choosing how a problem is searched: by workers or by the search of one thread.
ghost use Rattle.std.specs.Prelude.{◌≡◌, ◌≤◌, ◌||◌, ℕ, All, IfOk, IfSome, Option, Some, false, is_some, length, replicate, true, vec_len};
ghost use Rattle.ea_base.specs.declared.limits.TheConstants.{MOST_AT_ONCE, MOST_STARTS, MOST_WORKERS};
ghost use Rattle.ea_batch.specs.Solved.{AnswersOn, ArrivesOn};
ghost use Rattle.ea_load.specs.Posed.{IsPosed, times_on};
ghost use Rattle.ea_engine.specs.Companies.{idle_with, IsIdleFor, LeavesAs};
ghost use Rattle.ea_engine.specs.Limits.{AreSettings};
ghost use Rattle.ea_engine.specs.Runs.{IsRunOf, ran_of};
ghost use Rattle.ea_engine.specs.Tallies.{IsTally};
ghost use Rattle.ea_options.specs.Limits.{AreOptions, counted_workers};
ghost use Rattle.earliest.specs.Counted.{AreOfOne, CanRunCopies, IsTotal, totals_by};
ghost use Rattle.ea_rank_command.specs.Generators.{generators_from};
ghost use Rattle.earliest.specs.Running.{IsFoundAndCounted, IsFoundByWorkers};
ghost use Rattle.earliest.specs.Choices.{AreSettingsFor, CanChoose, CanLimit, CanSetUp, IsChosen, asks_for_workers, at_once_on, counted_at_once, goes_ahead, is_alone, settings_for, workers_asked, workers_by, workers_for, workers_on};
ghost use Rattle.earliest.specs.Workers.{AreAtHome, settings_with};

use crate::totals::work_of;
use ea_base::{MOST_AT_ONCE, MOST_TURNS, MOST_WORKERS};
use ea_engine::{
    Answer, Company, Crew, Flow, Homing, NoGate, Settings, Solved, Turn, solve, solve_arrivals,
};
use ea_load::Road;
use ea_options::{DEFAULT_BATCH, DEFAULT_TURNS, RunOptions};
use ea_report::Totals;
use ea_road::Query;
use rand_core::{Rng, SeedableRng};
use rand_xoshiro::Xoshiro256PlusPlus;
use std::alloc::{AllocError, Global};
use std::thread::{Threads, available_parallelism};

/// A problem on a road, and whether its walks are asked for.
#[derive(Clone, Copy)]
struct Asked<'a> {
    road: &'a Road,
    query: &'a Query,
    walks: bool,
}

/// An answer, and the totals of its search.
#[derive(Drop)]
pub(crate) struct Found {
    pub answer: Answer,
    pub totals: Totals,
}

/// On fewer nodes workers aren't worth starting, even if they are asked for.
const FEW_NODES: u32 = 10_000;

/// On fewer nodes two or three workers aren't: each does half of the work and waits for the other's labels.
const FEW_FOR_TWO: u32 = 1_000_000;

/// From this number of nodes on, four or more workers are faster than the search of one thread, if all nodes
/// are asked for without walks.
const MANY_NODES: u32 = 200_000;

/// From this number of nodes on, two or three workers are.
const MANY_FOR_TWO: u32 = 2_000_000;

/// The number of processors; none if the system doesn't say.
fn processors<H: Threads>(rt: &H) -> Option<usize>
    ensures { IfSome result (λ count. 1 ≤ count) }
{
    match available_parallelism(rt) {
        Ok(processors) => Some(processors.get()),
        Err(_) => None,
    }
}

/// The number of processors, if it decides something: finding it reads files of the system.
fn processors_if<H: Threads>(rt: &H, decides: bool) -> Option<usize>
    ensures { IfSome result (λ count. 1 ≤ count) }
{
    if decides { processors(rt) } else { None }
}

/// The number of problems searched at once: as asked for; else one if workers or statistics are asked for;
/// else one for each processor.
pub(crate) fn threads_at_once<H: Threads>(rt: &H, options: &RunOptions) -> usize
    requires { AreOptions options.now }
    ensures { (processors : Option ℕ)
        × IsChosen MOST_AT_ONCE (at_once_on processors options.now) result }
{
    at_once(processors(rt), options)
}

/// The same with this number of processors.
fn at_once(processors: Option<usize>, options: &RunOptions) -> usize
    requires { CanChoose options.now processors }
    ensures { IsChosen MOST_AT_ONCE (at_once_on processors options.now) result }
{
    match options.at_once {
        Some(threads) => threads as usize,
        None => {
            if options.workers.is_some() || options.stats {
                return 1;
            }
            processors.unwrap_or(1).min(MOST_AT_ONCE as usize)
        }
    }
}

/// Whether statistics or several workers are asked for. Then there is no preparation, and no layout.
pub(crate) fn asks_for_workers(options: &RunOptions) -> bool
    ensures { result ≡ asks_for_workers options.now }
{
    options.stats || options.workers.unwrap_or(1) > 1
}

/// Whether several threads search these problems at the same time, each by itself.
pub(crate) fn goes_ahead(options: &RunOptions, threads: usize, problems: usize) -> bool
    ensures { result ≡ goes_ahead options.now threads problems }
{
    !asks_for_workers(options) && threads > 1 && problems > 1
}

/// Whether a problem is searched by the search of one thread: by one worker, whose turns aren't counted.
pub(crate) fn is_alone(options: &RunOptions, workers: u32) -> bool
    ensures { result ≡ is_alone options.now workers }
{
    workers == 1 && !options.stats
}

/// The number of problems that are searched at once, each by a worker whose turns are counted.
pub(crate) fn counted_at_once<H: Threads>(rt: &H, options: &RunOptions) -> usize
    requires { AreOptions options.now }
    ensures { (processors : Option ℕ)
        × IsChosen MOST_AT_ONCE (counted_at_once processors options.now) result }
{
    if options.stats && options.counted_workers() == 1 {
        threads_at_once(rt, options)
    } else {
        1
    }
}

/// One worker for each processor, if that many are faster on this number of nodes than one thread; else one.
fn workers_on(processors: Option<usize>, nodes: u32) -> u32
    requires { IfSome processors (λ count. 1 ≤ count) }
    ensures { IsChosen MOST_WORKERS (workers_on processors nodes) result }
{
    match processors {
        Some(count) if count >= 4 || nodes >= MANY_FOR_TWO => {
            count.min(MOST_WORKERS as usize) as u32
        }
        _ => 1,
    }
}

/// As many workers as asked for, and at most one for each processor, since more would wait for one another.
/// One if they are too few for this number of nodes.
fn workers_asked(processors: Option<usize>, workers: u32, nodes: u32) -> u32
    requires { CanLimit processors (Some workers) }
    ensures { IsChosen MOST_WORKERS (workers_asked processors workers nodes) result }
{
    let most = processors.unwrap_or(MOST_WORKERS as usize);
    let workers = (workers as usize).min(most) as u32;
    if workers < 4 && nodes < FEW_FOR_TWO {
        1
    } else {
        workers
    }
}

/// The number of workers that search a problem without statistics, on many nodes: those that are asked for or, if the
/// program may choose, one for each processor if that is faster. `is_alone` says that the program chooses one: walks,
/// a single target or some nodes are asked for.
fn workers_by(processors: Option<usize>, workers: Option<u64>, nodes: u32, is_alone: bool) -> u32
    requires { CanLimit processors workers }
    ensures { IsChosen MOST_WORKERS (workers_by processors workers nodes is_alone) result }
{
    match workers {
        Some(workers) => workers_asked(processors, workers as u32, nodes),
        None => {
            if nodes < MANY_NODES || is_alone {
                return 1;
            }
            workers_on(processors, nodes)
        }
    }
}

/// The number of workers that search a problem on this number of nodes; `is_few` says that only a target or chosen nodes
/// are asked, and the search of one thread ends early. With statistics, those that are counted. One means that search.
fn workers_for(processors: Option<usize>, nodes: u32, is_few: bool, options: &RunOptions) -> u32
    requires { CanChoose options.now processors }
    ensures { IsChosen MOST_WORKERS (workers_for processors nodes is_few options.now) result }
{
    if options.stats {
        return options.counted_workers() as u32;
    }
    if nodes < FEW_NODES {
        return 1;
    }
    let is_alone = options.walks || is_few;
    workers_by(processors, options.workers, nodes, is_alone)
}

/// The number of workers that search a problem, by the number of processors; `are_few` says that few nodes are chosen.
pub(crate) fn workers_of<H: Threads>(
    rt: &H,
    road: &Road,
    query: &Query,
    options: &RunOptions,
    are_few: bool,
) -> u32
    requires { AreOptions options.now }
    ensures counted { options.now.stats ≡ true → result ≡ counted_workers options.now }
    ensures chosen { (processors : Option ℕ) × IsChosen MOST_WORKERS (workers_for processors
        road.now.network.nodes (is_some query.now.target || are_few) options.now) result }
{
    let nodes = road.network.nodes();
    let is_few = query.target().is_some() || are_few;
    let decides = !options.stats && nodes >= FEW_NODES && options.workers.unwrap_or(2) > 1;
    workers_for(processors_if(rt, decides), nodes, is_few, options)
}

/// The most consecutive idle turns of one of several workers. If nothing is left, they notice it long before.
const PATIENCE: u32 = 65_536;

/// The settings of this number of workers. Turns are limited if statistics are asked for, or if the option
/// isn't the default.
fn settings_of(options: &RunOptions, workers: u32) -> Settings
    requires { CanSetUp options.now workers }
    ensures { AreSettingsFor options.now workers result }
{
    let is_alone = workers == 1;
    let is_counted = options.stats || options.turns != DEFAULT_TURNS;
    Settings {
        workers,
        heaps: options.heaps as u32,
        turns: if is_counted {
            options.turns
        } else {
            MOST_TURNS
        },
        batch: options
            .batch
            .unwrap_or(if is_alone { 1 } else { DEFAULT_BATCH }) as u32,
        patience: if is_alone { 32 } else { PATIENCE },
    }
}

/// The generators of workers: worker i's seed is `seed + i`, modulo 2^64.
fn generators(alloc: Global, seed: u64, workers: u32) -> Result<Vec<Xoshiro256PlusPlus>, AllocError>
    ensures one_each { IfOk result (λ rngs. vec_len rngs ≡ workers) }
    ensures seeded { IfOk result (λ rngs. rngs.items ≡ generators_from seed workers) }
{
    let mut rngs = Vec::with_capacity(alloc, workers as usize)?;
    for i in 0..workers {
        rngs.push(Xoshiro256PlusPlus::seed_from_u64(seed.wrapping_add(u64::from(i))))?;
    }
    Ok(rngs)
}

/// The same generators, each of which mostly draws its worker's own heaps.
fn homing_generators(
    alloc: Global,
    seed: u64,
    settings: Settings,
) -> Result<Vec<Homing<Xoshiro256PlusPlus>>, AllocError>
    requires settings { AreSettings settings }
    ensures one_each { IfOk result (λ rngs. vec_len rngs ≡ settings.workers) }
    ensures seeded { IfOk result (λ rngs. AreAtHome seed settings rngs.items) }
{
    let workers = settings.workers;
    let mut rngs = Vec::with_capacity(alloc, workers as usize)?;
    for i in 0..workers {
        let below = Xoshiro256PlusPlus::seed_from_u64(seed.wrapping_add(u64::from(i)));
        rngs.push(Homing::new(below, i, workers, settings.heaps))?;
    }
    Ok(rngs)
}

/// `count` copies of a value.
fn copies<T: Copy + Drop>(alloc: Global, value: T, count: u32) -> Result<Vec<T>, AllocError>
    ensures { IfOk result (λ made. made.items ≡ replicate count value) }
{
    let mut made = Vec::with_capacity(alloc, count as usize)?;
    for i in 0..count {
        made.push(value)?;
    }
    Ok(made)
}

/// The answer of a run, and its totals.
fn found_of<R: Drop, T: Drop>(solved: Solved<R, T>) -> Found
    requires tally { (sources : ℕ) × (sources ≤ MOST_STARTS) × IsTally sources solved.seeded
        solved.returned solved.drained solved.finish solved.counters.items }
    requires few { vec_len solved.counters ≤ 16 }
    ensures answer { result.answer ≡ solved.answer }
    ensures sums { result.totals ≡ totals_by (record {
      seeded = solved.seeded;
      returned = solved.returned;
      drained = solved.drained;
      finish = solved.finish;
      workers = solved.counters.items;
    }) }
    ensures of_one { AreOfOne result.totals }
{
    let Solved {
        answer,
        seeded,
        returned,
        drained,
        finish,
        counters,
        ..
    } = solved;
    let work = work_of(&counters);
    let totals = Totals {
        seeded,
        pushed: work.pushed,
        popped: work.popped,
        stale: work.stale,
        scanned: work.scanned,
        returned,
        drained,
        finish,
    };
    Found { answer, totals }
}

/// Solves a problem, with its walks if they are asked for.
fn solve_asked<H: Threads + Sync, R: Rng + Send + Drop, T: FnMut(Turn) -> Flow + Send + Drop>(
    alloc: Global,
    rt: &H,
    asked: Asked<'_>,
    crew: Crew<'_, R, NoGate, T>,
) -> Result<Solved<R, T>, AllocError>
    requires posed { IsPosed asked.road.now asked.query.now }
    requires settings { AreSettings crew.settings }
    requires workers { (vec_len crew.rngs ≡ crew.settings.workers)
        × (vec_len crew.tracers ≡ crew.settings.workers) }
    requires tracers { All T.IsAlwaysCallable crew.tracers.items }
    ensures arrivals { IfOk result (λ solved.
        ArrivesOn asked.entry.road.now asked.entry.query.now solved.answer) }
    ensures canonical { IfOk result (λ solved. asked.entry.walks ≡ true
        → AnswersOn asked.entry.road.now asked.entry.query.now solved.answer) }
    ensures run { IfOk result (λ solved. IsRunOf R.stream T.step asked.entry.road.now.network
        (times_on asked.entry.road.now) asked.entry.query.now crew.entry (ran_of solved)) }
{
    let Asked { road, query, walks } = asked;
    if walks {
        solve(alloc, rt, &road.network, &road.times, query, crew)
    } else {
        solve_arrivals(alloc, rt, &road.network, &road.times, query, crew)
    }
}

/// The answer of a problem by workers with these settings and generators; each one's tracer is a copy of
/// `tracer`.
fn find_by<H: Threads + Sync, R: Rng + Send + Drop, T: FnMut(Turn) -> Flow + Send + Drop + Copy>(
    alloc: Global,
    rt: &H,
    asked: Asked<'_>,
    settings: Settings,
    rngs: Vec<R>,
    tracer: T,
) -> Result<Found, AllocError>
    requires posed { IsPosed asked.road.now asked.query.now }
    requires tracer { T.IsAlwaysCallable tracer }
    requires crew { CanRunCopies T.step settings (vec_len rngs) tracer }
    ensures { IfOk result (IsFoundAndCounted asked.entry.walks settings
        asked.entry.road.now asked.entry.query.now) }
{
    let tracers = copies(alloc, tracer, settings.workers)?;
    let crew = Crew {
        settings,
        rngs,
        gate: &NoGate,
        tracers,
    };
    let solved = solve_asked(alloc, rt, asked, crew)?;
    Ok(found_of(solved))
}

/// The answer of a problem by this number of workers, with walks if the options ask for them.
pub(crate) fn find<H: Threads + Sync>(
    alloc: Global,
    rt: &H,
    road: &Road,
    query: &Query,
    options: &RunOptions,
    workers: u32,
) -> Result<Found, AllocError>
    requires posed { IsPosed road.now query.now }
    requires can { CanSetUp options.now workers }
    ensures found { IfOk result (IsFoundByWorkers options.now.walks road.now query.now) }
    ensures chosen { IfOk result (λ found.
        IsTotal (settings_for options.now workers) query.now found.totals) }
    ensures counted { IfOk result (λ found. options.now.stats ≡ true
        → IsTotal (settings_with options.now workers) query.now found.totals) }
{
    let settings = settings_of(options, workers);
    let asked = Asked {
        road,
        query,
        walks: options.walks,
    };
    if workers == 1 {
        let rngs = generators(alloc, options.seed, workers)?;
        return find_by(
            alloc,
            rt,
            asked,
            settings,
            rngs,
            |_turn: Turn| -> Flow
                ensures { result ≡ Flow.Go }
            { Flow::Go },
        );
    }
    let rngs = homing_generators(alloc, options.seed, settings)?;
    let company = Company::on(road.network.nodes());
    let mut member = company.member();
    find_by(
        alloc,
        rt,
        asked,
        settings,
        rngs,
        move |turn: Turn| -> Flow
            ensures leaves { LeavesAs turn.kind turn.number member.entry result }
            ensures idle { (turns : ℕ) → IsIdleFor member.entry turns
                → IsIdleFor member.exit (idle_with turns turn.kind) }
        { member.after(turn) },
    )
}
