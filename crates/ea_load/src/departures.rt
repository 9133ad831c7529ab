//! The sources of searches and when they begin, and their queries.
ghost use Rattle.std.specs.Prelude.{◌≡◌, ◌↔◌, ◌≤◌, ◌<◌, ◌+◌, ◌*◌, ℕ, [], ◌∷◌, All, IsTrue, IfOk, IfSome, length, map, slice_index};
ghost use Rattle.ea_load.specs.Starts.{AreWithin, aim_of, asks_all, begin_of, begins_at, in_direction, own_time, pair_problem, pair_problems, plan_of, run_problems, sources_from, time_at};
ghost use Rattle.ea_road.specs.Queries.{IsSource};
ghost use Rattle.ea_base.specs.declared.limits.TheConstants.{HORIZON};

use ea_base::{Direction, HORIZON};
use ea_road::{Query, Source};
use std::alloc::{AllocError, Global};

/// When sources or pairs depart or, turned round, have to be reached. Times are whole numbers up to HORIZON.
#[derive(Clone, Copy)]
pub struct Schedule<'a> {
    /// The time of the first, unless there is a list of times.
    pub depart: u64,
    /// How much later each next one is.
    pub gap: u64,
    /// The time of each, in place of both.
    pub times: Option<&'a [u64]>,
    /// Departures, or times by which targets have to be reached.
    pub direction: Direction,
}

/// Whether this many times are within the horizon, the first at `depart`, each next one later by `gap`.
fn gaps_fit(count: usize, depart: u64, gap: u64) -> bool
    requires depart { depart ≤ HORIZON }
    requires gap { gap ≤ HORIZON }
    ensures { IsTrue result ↔ ((i : ℕ) → i < count → depart + i * gap ≤ HORIZON) }
{
    count == 0 || u128::from(depart) + (count as u128 - 1) * u128::from(gap) <= u128::from(HORIZON)
}

/// Whether times are within the horizon.
fn times_fit(times: &[u64]) -> bool
    ensures { IsTrue result ↔ All (λ time. time ≤ HORIZON) times.now }
{
    times.iter().all(|&time| time <= HORIZON)
}

/// Whether the times of this many starts are within the horizon. A list has a time for each.
pub fn departures_fit(count: usize, schedule: Schedule<'_>) -> bool
    requires depart { schedule.depart ≤ HORIZON }
    requires gap { schedule.gap ≤ HORIZON }
    requires times { IfSome (plan_of schedule).times (λ times. length times ≡ count) }
    ensures { IsTrue result ↔ AreWithin (plan_of schedule.entry) count }
{
    match schedule.times {
        None => gaps_fit(count, schedule.depart, schedule.gap),
        Some(times) => times_fit(times),
    }
}

/// The time of the start with this number, from 0.
fn own_time(schedule: Schedule<'_>, i: usize) -> u64
    requires times { IfSome (plan_of schedule).times (λ times. i < length times) }
    requires within { time_at (plan_of schedule) i ≤ HORIZON }
    ensures { result ≡ time_at (plan_of schedule.entry) i }
{
    match schedule.times {
        None => schedule.depart + i as u64 * schedule.gap,
        Some(times) => times[i],
    }
}

/// When the search of the start with this number begins, from 0.
fn begin_at(schedule: Schedule<'_>, i: usize) -> u64
    requires times { IfSome (plan_of schedule).times (λ times. i < length times) }
    requires within { time_at (plan_of schedule) i ≤ HORIZON }
    ensures { result ≡ begins_at (plan_of schedule.entry) i }
{
    let time = own_time(schedule, i);
    match schedule.direction {
        Direction::Forward => time,
        Direction::Turned => HORIZON - time,
    }
}

/// Nodes as sources.
fn sources_of(
    alloc: Global,
    nodes: &[u32],
    schedule: Schedule<'_>,
) -> Result<Vec<Source>, AllocError>
    requires times { IfSome (plan_of schedule).times (λ times. length times ≡ length nodes.now) }
    requires within { AreWithin (plan_of schedule) (length nodes.now) }
    ensures { IfOk result
        (λ sources. sources.items ≡ sources_from (plan_of schedule.entry) 0 nodes.now) }
{
    let mut sources = Vec::with_capacity(alloc, nodes.len())?;
    for i in 0..nodes.len() {
        sources.push(Source {
            node: nodes[i],
            departure: begin_at(schedule, i),
        })?;
    }
    Ok(sources)
}

/// Each source as a separate query.
fn queries_from(alloc: Global, sources: &[Source]) -> Result<Vec<Query>, AllocError>
    requires { All IsSource sources.now }
    ensures { IfOk result (λ queries. queries.items
        ≡ map (λ source. asks_all (source ∷ [])) sources.now) }
{
    let mut queries = Vec::with_capacity(alloc, sources.len())?;
    for source in sources {
        queries.push(Query::from_one(*source))?;
    }
    Ok(queries)
}

/// The queries of a run: each node as a separate source, or all together. Their times are the schedule's.
pub fn run_queries(
    alloc: Global,
    nodes: &[u32],
    joint: bool,
    schedule: Schedule<'_>,
) -> Result<Vec<Query>, AllocError>
    requires nodes { All (λ node. 0 < node) nodes.now }
    requires times { IfSome (plan_of schedule).times (λ times. length times ≡ length nodes.now) }
    requires within { AreWithin (plan_of schedule) (length nodes.now) }
    ensures { IfOk result
        (λ queries. queries.items ≡ run_problems joint (plan_of schedule.entry) nodes.now) }
{
    let sources = sources_of(alloc, nodes, schedule)?;
    if joint {
        let mut queries = Vec::with_capacity(alloc, 1)?;
        queries.push(Query::new(sources))?;
        Ok(queries)
    } else {
        queries_from(alloc, &sources)
    }
}

/// A pair as a query that begins at a time: turned round, it begins at the second node and asks the first.
fn pair_query(direction: Direction, time: u64, pair: (u32, u32)) -> Query
    requires nodes { (0 < pair.0) × (0 < pair.1) }
    requires within { time ≤ HORIZON }
    ensures { result ≡ pair_problem direction time pair }
{
    let (node, target) = match direction {
        Direction::Forward => (pair.0, pair.1),
        Direction::Turned => (pair.1, pair.0),
    };
    let source = Source {
        node,
        departure: time,
    };
    Query::pair(source, target)
}

/// Pairs of source and target as queries. Their times are the schedule's.
pub fn pair_queries(
    alloc: Global,
    pairs: &[(u32, u32)],
    schedule: Schedule<'_>,
) -> Result<Vec<Query>, AllocError>
    requires pairs { All (λ pair. (0 < pair.0) × (0 < pair.1)) pairs.now }
    requires times { IfSome (plan_of schedule).times (λ times. length times ≡ length pairs.now) }
    requires within { AreWithin (plan_of schedule) (length pairs.now) }
    ensures { IfOk result
        (λ queries. queries.items ≡ pair_problems (plan_of schedule.entry) 0 pairs.now) }
{
    let mut queries = Vec::with_capacity(alloc, pairs.len())?;
    for i in 0..pairs.len() {
        queries.push(pair_query(schedule.direction, begin_at(schedule, i), pairs[i]))?;
    }
    Ok(queries)
}
