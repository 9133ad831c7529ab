//! A recorded run of one thread.
ghost use Rattle.std.specs.Prelude.{◌≡◌, ◌≤◌, [], None, IfOk};
ghost use Rattle.ea_base.specs.declared.limits.TheConstants.{LEAST_HEAPS};
ghost use Rattle.ea_pool.specs.declared.shared.words.TheConstants.{MOST_IN_POOL};
ghost use Rattle.ea_travel_times.specs.Answers.{IsFifoFunction};
ghost use Rattle.ea_road.specs.Queries.{IsProblem};
ghost use Rattle.ea_rank.specs.Courses.{IsRecordOfRun, MayGoOn, MayScanNode, ScansNode, SowsSources};
ghost use Rattle.ea_rank.specs.States.{state_of};

use crate::event::Record;
use crate::run::Run;
use ea_base::HORIZON;
use ea_pool::OutOfMemory;
use ea_road::laws::fixed_labels_are_least;
use ea_road::{Network, Query};
use ea_travel_times::{ArrivalFunction, Profiles, TravelTimes};
use rand_core::Rng;
use std::alloc::Global;

/// Relaxes the arcs from a node, left at its label. Draws a word for each push.
fn scan<T: TravelTimes, R: Rng>(
    network: &Network,
    times: &T,
    query: &Query,
    node: u32,
    departure: u64,
    rng: &mut R,
    run: &mut Run,
) -> Result<(), OutOfMemory>
    requires problem { IsProblem network.now (T.classes times.now) query.now }
    requires may { MayScanNode network.now (T.answers times.now) query.now.sources
        node departure (state_of run.old) }
    ensures { IfOk result (λ _. ScansNode network.now (T.answers times.now) query.now.sources
        node departure (R.stream rng.old) (state_of run.old)
        (R.stream rng.new) (state_of run.new)) }
{
    let arcs = network.leaving(node).arcs;
    for place in 0..arcs.len() {
        let arc = arcs[place];
        let arrival = times.arrive(arc.class, u64::from(arc.weight), departure);
        if arrival <= HORIZON && arrival < run.label(arc.head) {
            run.lower(rng.next_u64(), arc.head, arrival)?;
        }
    }
    Ok(())
}

/// Offers each source its departure. The words of the pushes are 0, 1, 2 and so on.
fn sow<T: TravelTimes>(
    network: &Network,
    times: &T,
    query: &Query,
    run: &mut Run,
) -> Result<(), OutOfMemory>
    requires problem { IsProblem network.now (T.classes times.now) query.now }
    requires may { MayGoOn network.now (T.answers times.now) query.now.sources
        [] [] (state_of run.old) }
    ensures { IfOk result (λ _. SowsSources network.now (T.answers times.now)
        query.now.sources (state_of run.old) (state_of run.new)) }
{
    network.keeps_limits();
    let mut word = 0;
    for source in query.sources() {
        if source.departure < run.label(source.node) {
            run.lower(word, source.node, source.departure)?;
            word += 1;
        }
    }
    Ok(())
}

/// Records the pushes and pops of one thread until its heaps, 2 to 128, are empty: the sources' entries with
/// the words 0, 1, 2 and so on, then turns like a worker's, with the generator's words. If a pop finds
/// nothing while some heap has an entry, the words after its first one's remainder are tried.
pub fn record_run<T: TravelTimes, R: Rng + Drop>(
    alloc: Global,
    network: &Network,
    times: &T,
    query: &Query,
    heaps: usize,
    mut rng: R,
) -> Result<Record, OutOfMemory>
    requires heaps { (LEAST_HEAPS ≤ heaps) × (heaps ≤ MOST_IN_POOL) }
    requires problem { IsProblem network.now (T.classes times.now) query.now }
    requires asks_all { query.now.target ≡ None }
    ensures { IfOk result (λ recorded.
        IsRecordOfRun network.now (T.answers times.now) heaps (R.stream rng)
        query.now.sources recorded.events.items) }
{
    let mut run = Run::new(alloc, network.nodes(), heaps)?;
    sow(network, times, query, &mut run)?;
    while let Some(entry) = run.pop(heaps, rng.next_u64(), rng.next_u64())? {
        if entry.key <= run.label(entry.node) {
            scan(
                network, times, query, entry.node, entry.key, &mut rng, &mut run,
            )?;
        }
    }
    fixed_labels_are_least(network, times, query, &run.labels);
    let Run {
        labels: _,
        heaps: _,
        events,
    } = run;
    Ok(Record { events })
}

/// `record_run` with a caller's closure from class, weight and departure to the arrival, for classes up to
/// the greatest.
pub fn record_run_by<F: ArrivalFunction + Drop, R: Rng + Drop>(
    alloc: Global,
    network: &Network,
    closure: F,
    classes: u32,
    query: &Query,
    heaps: usize,
    rng: R,
) -> Result<Record, OutOfMemory>
    requires heaps { (LEAST_HEAPS ≤ heaps) × (heaps ≤ MOST_IN_POOL) }
    requires fifo { IsFifoFunction (F.may closure) (F.answers closure) classes }
    requires problem { IsProblem network.now classes query.now }
    requires asks_all { query.now.target ≡ None }
    ensures { IfOk result (λ recorded. IsRecordOfRun network.now
        (λ class weight departure arrival. ∥ F.answers closure class weight departure arrival ∥₁)
        heaps (R.stream rng) query.now.sources recorded.events.items) }
{
    let profiles = Profiles::new(closure, classes);
    record_run(alloc, network, &profiles, query, heaps, rng)
}
