//! The source and departure from which a written walk attains a time.
ghost use Rattle.std.specs.Prelude.{◌≡◌, ◌⊎◌, ◌≤◌, ◌<◌, ◌↔◌, [], ℕ, IfOk, IsTrue, List, MatchOption, length, slice_index};
ghost use Rattle.std.specs.List.{IsAmong};
ghost use Rattle.ea_base.specs.declared.limits.TheConstants.{HORIZON};
ghost use Rattle.ea_road.specs.declared.arc.Arc.{Arc};
ghost use Rattle.ea_road.specs.declared.source.Source.{Source};
ghost use Rattle.ea_road.specs.Arrivals.{Arrives, Attains};
ghost use Rattle.ea_road.specs.Roads.{IsArc, IsNode};
ghost use Rattle.ea_check.specs.Starts.{AreOrdered, IsBeside};
ghost use Rattle.ea_check.specs.Verdicts.{IsTask};

use ea_road::{Network, Query, Source, run_walk};
use ea_travel_times::TravelTimes;
use std::alloc::{AllocError, Global};

/// The sources of a problem, ordered by node and departure.
pub(crate) fn ordered_sources(alloc: Global, sources: &[Source]) -> Result<Vec<Source>, AllocError>
    ensures { IfOk result (λ ordered. AreOrdered sources.now ordered.items) }
{
    let mut ordered = sources.to_vec(alloc)?;
    ordered.sort_unstable_by_key(|source| (source.node, source.departure));
    Ok(ordered)
}

/// The node at which a walk to a node begins: that node itself, or the tail of the first arc; none if there
/// is no such arc.
fn first_node(network: &Network, node: u32, arcs: &[u32]) -> Option<u32>
    ensures { MatchOption result
        ((0 < length arcs.now) × ((arc : Arc) → IsArc network.now (slice_index arcs.now 0) arc → ⊥))
        (λ start. ((arcs.now ≡ []) × (start ≡ node))
        ⊎ ((0 < length arcs.now) ×
        ((arc : Arc) → IsArc network.now (slice_index arcs.now 0) arc → arc.tail ≡ start))) }
{
    if arcs.is_empty() {
        return Some(node);
    }
    let number = arcs[0];
    if number == 0 || number as usize > network.arcs().len() {
        return None;
    }
    Some(network.arc(number).tail)
}

/// On which side of a source those lie that attain a time by a walk.
#[derive(Clone, Copy, Debug, PartialEq, Eq)]
enum Side {
    /// Neither this source nor an earlier one attains the time.
    Before,
    /// This source attains the time.
    Here,
    /// Neither this source nor a later one attains the time.
    Beyond,
}

/// Follows a walk from a source. A later departure arrives no earlier, so the result holds for the sources
/// before or behind it too.
fn beside<T: TravelTimes>(
    network: &Network,
    times: &T,
    query: &Query,
    source: Source,
    start: u32,
    node: u32,
    time: u64,
    arcs: &[u32],
) -> Side
    requires task { IsTask network.now (T.classes times.now) query.now.sources }
    requires source { IsAmong query.now.sources source }
    requires start { (from departure : ℕ)
        → Arrives network.now (T.answers times.now) from departure arcs.now node time → from
        ≡ start }
    requires time { time ≤ HORIZON }
    ensures { IsBeside (λ from. Arrives network.now (T.answers times.now) from.node
        from.departure arcs.now node time) source result }
{
    if source.node < start {
        return Side::Before;
    }
    if source.node > start {
        return Side::Beyond;
    }
    let Some((end, arrival)) = run_walk(network, times, source.node, arcs, source.departure) else {
        return Side::Beyond;
    };
    if arrival < time {
        Side::Before
    } else if end == node && arrival == time {
        Side::Here
    } else {
        Side::Beyond
    }
}

/// Whether the arcs lead from some source, left at its departure, to the node at the time. A binary search
/// over the sources, so a walk is followed about log2 of their number times.
pub(crate) fn attains<T: TravelTimes>(
    network: &Network,
    times: &T,
    query: &Query,
    ordered: &[Source],
    node: u32,
    time: u64,
    arcs: &[u32],
) -> bool
    requires task { IsTask network.now (T.classes times.now) query.now.sources }
    requires ordered { AreOrdered query.now.sources ordered.now }
    requires time { time ≤ HORIZON }
    ensures { IsTrue result ↔ Attains network.now
        (T.answers times.now) query.now.sources arcs.now node time }
{
    let Some(start) = first_node(network, node, arcs) else {
        return false;
    };
    let mut low = 0;
    let mut high = ordered.len();
    'halves: while low < high {
        let middle = low + (high - low) / 2;
        match beside(
            network,
            times,
            query,
            ordered[middle],
            start,
            node,
            time,
            arcs,
        ) {
            Side::Here => return true,
            Side::Before => low = middle + 1,
            Side::Beyond => high = middle,
        }
    }
    false
}
